//! How often a worker polls its channel for tickets before it sleeps.

ghost use Rattle.std.specs.Prelude.{◌≡◌, ◌<◌, ◌≤◌};

use std::thread;
use std::thread::Threads;

// The most polls after one record. If nobody else wants the worker's processor, these polls take
// about as long as another node needs for a record.
const MOST: u32 = 300;

// The part of these polls that a worker spends on the tickets that a batch hopes for.
const BATCH_PART: u32 = 6;

/// How often a worker polls for tickets after each record that it stored, before it sleeps again.
#[derive(Clone, Copy)]
pub(crate) struct Polling {
    polls: u32,
}

impl Polling {
    /// The number of polls.
    pub(crate) fn polls(self) -> u32
        ensures { result ≡ self.polls }
    {
        self.polls
    }

    /// The number of polls for the tickets that a batch hopes for.
    pub(crate) fn batch_polls(self) -> u32
        ensures { result ≤ self.polls }
    {
        self.polls / BATCH_PART
    }

    /// No polls.
    pub(crate) fn none() -> Polling
        ensures { result.polls ≡ 0 }
    {
        Polling { polls: 0 }
    }

    // The number of polls for each of these workers, on this number of processors. It is 0 if there
    // are no more processors than workers, since other threads would wait for the workers that
    // poll.
    fn for_processors(workers: usize, processors: usize) -> Polling
        ensures own { workers < processors → result.polls ≡ MOST }
        ensures shared { processors ≤ workers → result.polls ≡ 0 }
    {
        if workers < processors {
            Polling { polls: MOST }
        } else {
            Polling::none()
        }
    }

    /// The number of polls for each of these workers, on the processors that the program has. A
    /// worker polls only if there are more processors than workers. If the system doesn't say how
    /// many there are, no worker polls.
    pub(crate) fn for_workers<R: Threads>(rt: &R, workers: usize) -> Polling
        ensures { result.polls ≤ MOST }
    {
        match thread::available_parallelism(rt) {
            Ok(processors) => Polling::for_processors(workers, processors.get()),
            Err(_) => Polling::none(),
        }
    }
}
