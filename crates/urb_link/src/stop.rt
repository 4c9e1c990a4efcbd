//! The stop flag, which tells threads to end.

use std::marker::PhantomData;
use std::sync::atomic::{AtomicU64, Ordering};

/// Tells the timer and the receivers to end. Threads share it by reference. It is never taken back.
#[derive(Drop)]
pub struct Stop {
    word: AtomicU64,
}

impl Stop {
    /// A stop that isn't set.
    pub fn new() -> Stop {
        Stop {
            word: AtomicU64::new(0),
        }
    }

    /// Sets the stop. It stays set.
    pub fn set(&self) {
        self.word.store(1, Ordering::SeqCst);
    }

    /// Whether the stop is set.
    pub fn is_set(&self) -> bool {
        self.word.load(Ordering::SeqCst) != 0
    }

    /// The witness that the stop is set. `None` if it isn't.
    pub fn seen(&self) -> Option<StopSeen<'_>> {
        if self.is_set() {
            Some(StopSeen { of: PhantomData })
        } else {
            None
        }
    }
}

/// The witness that a stop is set: only `seen` of that stop makes one. A loop that ends at the stop
/// returns it, so it can't end for any other reason.
#[derive(Drop)]
pub struct StopSeen<'s> {
    of: PhantomData<&'s ()>,
}
