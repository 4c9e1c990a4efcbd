//! How far a start or a stop is, for those who wait for it.

use std::alloc::{AllocError, Global};
use std::io;
use std::io::Read;
use std::sync::Arc;
use std::sync::atomic::{AtomicU64, Ordering};

/// What the program does.
#[derive(Clone, Copy, Debug, PartialEq, Eq)]
pub enum ProgramStage {
    /// It starts, and opens the journals of the folder.
    Journals,
    /// It starts, and opens the group from the records of the journals.
    Records,
    /// The group runs, or the program ends: nobody waits.
    Quiet,
    /// It stops, and waits for the sessions of clients.
    Sessions,
    /// It stops, and closes the journals.
    Files,
}

/// An output for errors that says how far a start or a stop is, if it takes long.
pub trait StageReports {
    /// Notes what the program does from now on.
    fn reach(&self, stage: ProgramStage);
}

/// What somebody waits for.
#[derive(Clone, Copy, Debug, PartialEq, Eq)]
pub(crate) enum Phase {
    Start,
    Stop,
}

impl Phase {
    /// Its word in a line.
    pub(crate) fn word(self) -> &'static str {
        match self {
            Phase::Start => "starting",
            Phase::Stop => "stopping",
        }
    }
}

/// For how many seconds a start or a stop has gone on.
#[derive(Drop)]
pub(crate) struct Waited {
    phase: Phase,
    seconds: u64,
}

impl Waited {
    /// No second yet.
    pub(crate) fn new() -> Waited {
        Waited {
            phase: Phase::Start,
            seconds: 0,
        }
    }

    /// Counts one more second of a start or a stop, and returns how many there were.
    pub(crate) fn count(&mut self, phase: Phase) -> u64 {
        if self.phase != phase {
            *self = Waited { phase, seconds: 0 };
        }
        self.seconds = self.seconds.saturating_add(1);
        self.seconds
    }
}

// The number of a stage, for two threads.
const QUIET: u64 = 0;

const JOURNALS: u64 = 1;

const RECORDS: u64 = 2;

const SESSIONS: u64 = 3;

const FILES: u64 = 4;

/// The stage of a program. One thread sets it, and another one reads it.
#[derive(Drop)]
pub(crate) struct SharedStage {
    number: Arc<AtomicU64, Global>,
}

impl SharedStage {
    /// Nobody waits.
    pub(crate) fn new(alloc: Global) -> Result<SharedStage, AllocError> {
        let number = Arc::new(alloc, AtomicU64::new(QUIET))?;
        Ok(SharedStage { number })
    }

    /// The same stage, for another thread.
    pub(crate) fn share(&self) -> Result<SharedStage, AllocError> {
        let number = Arc::try_clone(&self.number)?;
        Ok(SharedStage { number })
    }

    /// Sets the stage, and says whether a start or a stop begins by that.
    pub(crate) fn set(&self, stage: ProgramStage) -> bool {
        let number = match stage {
            ProgramStage::Journals => JOURNALS,
            ProgramStage::Records => RECORDS,
            ProgramStage::Quiet => QUIET,
            ProgramStage::Sessions => SESSIONS,
            ProgramStage::Files => FILES,
        };
        self.number.swap(number, Ordering::SeqCst) == QUIET && number != QUIET
    }

    /// What somebody waits for, and what it is about. `None` if nobody waits.
    pub(crate) fn progress(&self) -> Option<(Phase, &'static str)> {
        match self.number.load(Ordering::SeqCst) {
            JOURNALS => Some((Phase::Start, "opening the journals")),
            RECORDS => Some((Phase::Start, "reading the records of the journals")),
            SESSIONS => Some((Phase::Stop, "waiting for the sessions of clients")),
            FILES => Some((Phase::Stop, "closing the journals")),
            _ => None,
        }
    }
}

/// The input of a run. Its first read ends the start, because a console reads once the group runs.
/// Its end begins the stop.
#[derive(Drop)]
pub(crate) struct RunInput<'a, I: Read + Drop, E: StageReports> {
    pub(crate) input: I,
    pub(crate) errors: &'a E,
}

impl<I: Read + Drop, E: StageReports> Read for RunInput<'_, I, E> {
    fn read(&mut self, buf: &mut [u8]) -> io::Result<usize> {
        self.errors.reach(ProgramStage::Quiet);
        let outcome = self.input.read(buf);
        if !matches!(outcome, Ok(1..)) {
            self.errors.reach(ProgramStage::Sessions);
        }
        outcome
    }
}
