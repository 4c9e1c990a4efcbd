//! A node's bell: it wakes the sessions that wait for the node's log to grow.

use crate::{Stop, StopSeen};
use std::sync::Wait;
use std::sync::atomic::{AtomicU64, Ordering};
use std::time::Duration;

// The bits of a word that a sleeping thread compares.
const LOW_BITS: u64 = 0xffff_ffff;

/// A node's worker rings the bell when it has published entries. It wakes one thread at most, since
/// waking is slow and other nodes wait for the worker: the ringer, which then wakes all sessions
/// that wait. While no session waits, ringing wakes nobody.
#[derive(Drop)]
pub struct Bell {
    // How often the worker rang. The ringer sleeps on this word.
    rung: AtomicU64,
    // How often the ringer passed rings on. Sessions sleep on this word.
    passed: AtomicU64,
    // How many sessions wait, or are about to.
    waiting: AtomicU64,
}

impl Bell {
    /// A bell that hasn't rung.
    pub fn new() -> Bell {
        Bell {
            rung: AtomicU64::new(0),
            passed: AtomicU64::new(0),
            waiting: AtomicU64::new(0),
        }
    }

    /// Rings. Call it after the entries were published.
    pub fn ring(&self) {
        self.rung.fetch_add(1, Ordering::SeqCst);
        if self.waiting.load(Ordering::SeqCst) != 0 {
            self.rung.wake_one();
        }
    }

    /// Wakes the ringer and all sessions that wait. Call it after the stop was set.
    pub fn ring_for_all(&self) {
        self.rung.fetch_add(1, Ordering::SeqCst);
        self.rung.wake_all();
        self.pass_on();
    }

    // Wakes all sessions that wait.
    fn pass_on(&self) {
        self.passed.fetch_add(1, Ordering::SeqCst);
        self.passed.wake_all();
    }

    /// Says that a session is about to wait. From here on, each ring is passed on.
    pub fn begin_waiting(&self) {
        self.waiting.fetch_add(1, Ordering::SeqCst);
    }

    /// Says that a session waits no longer.
    pub fn end_waiting(&self) {
        self.waiting.fetch_sub(1, Ordering::SeqCst);
    }

    /// How often rings were passed on. A session takes this count before it looks at the log.
    pub fn passed(&self) -> u64 {
        self.passed.load(Ordering::SeqCst)
    }

    /// Sleeps until more rings than these were passed on, for at most this time. It may also return
    /// for no reason.
    pub fn sleep<R: Wait>(&self, rt: &R, passed: u64, most: Duration) {
        self.passed
            .park_timeout(rt, (passed & LOW_BITS) as u32, most);
    }
}

/// Passes the rings of a node's worker on to the sessions that wait, until the stop is set. Rings
/// that come together are passed on as one.
pub fn pass_rings<'s, R: Wait>(rt: &R, stop: &'s Stop, bell: &Bell) -> StopSeen<'s> {
    let mut passed = bell.rung.load(Ordering::SeqCst);
    for _ in rt.forever() {
        if let Some(seen) = stop.seen() {
            bell.pass_on();
            return seen;
        }
        let rung = bell.rung.load(Ordering::SeqCst);
        if rung == passed {
            bell.rung.park(rt, (rung & LOW_BITS) as u32);
        } else {
            passed = rung;
            bell.pass_on();
        }
    }
    unreachable!()
}
