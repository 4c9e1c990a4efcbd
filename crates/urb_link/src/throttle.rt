//! When a session may submit: not while a node of its group is far behind.

ghost use Rattle.std.specs.Prelude.{◌≡◌};

use crate::{InFlight, Station};
use std::thread;
use std::time::{Clock, Duration};

// How long a session sleeps before it looks at the backlogs again, in microseconds.
const PAUSE: u64 = 500;

// How many times a session looks at the backlogs. After that it submits anyway.
const LOOKS: u32 = 200;

/// Holds the submits of one node's sessions back while a node of the group is far behind, that is,
/// while its receiver has a long backlog (`LONG_BACKLOG`).
///
/// A submit is accepted as soon as its own node has stored it. So without this, clients could submit
/// more than the group delivers. Sessions wait for each node of the group alike, so that all nodes
/// get their share. But a node that hangs delays the sessions of the others once. After a wait in
/// vain they leave it behind: they wait for it no more until its backlog is short again. The node's
/// own sessions go on waiting.
#[derive(Clone, Copy)]
pub struct Throttle<'a> {
    own: &'a InFlight,
    stations: &'a [Station],
}

impl<'a> Throttle<'a> {
    /// The throttle of a node's sessions: what is in flight to this node, and the stations of its
    /// group.
    pub fn new(own: &'a InFlight, stations: &'a [Station]) -> Throttle<'a>
        ensures own { result.own.now ≡ own.now }
        ensures stations { result.stations.now ≡ stations.now }
    {
        Throttle { own, stations }
    }

    // Whether a session may submit now.
    fn is_calm(&self) -> bool {
        if self.own.is_behind() {
            return false;
        }
        for station in self.stations {
            if station.in_flight.is_awaited() {
                return false;
            }
        }
        true
    }

    /// Waits while a node of the group is far behind. Call it before a submit, by few sessions at a
    /// time: each looks at the backlogs twice a millisecond. It waits for at most a tenth of a
    /// second, or somewhat more if the machine is busy.
    pub fn await_calm<R: Clock>(&self, rt: &R) {
        for _ in 0..LOOKS {
            if self.is_calm() {
                return;
            }
            thread::sleep(rt, Duration::from_micros(PAUSE));
        }
        for station in self.stations {
            station.in_flight.leave_behind();
        }
    }
}
