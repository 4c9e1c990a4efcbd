//! Queues of records: which records a storage holds already, in the order in which they are given
//! out.
ghost use Rattle.std.specs.Prelude.{◌≡◌, ◌<◌, [], MatchBool, Some, length, slice_get};
ghost use Rattle.urb_stable.specs.internal.RecordQueues.{once_taken};

use crate::Record;
use std::alloc::{Allocator, Global};
use std::marker::Model;
use urb_names::Message;

/// Records that are taken one after the other. Their memory is freed with the queue.
#[derive(Drop)]
pub(crate) struct RecordQueue<A: Allocator = Global> {
    // All records, of which the first ones were taken.
    records: Vec<Record<Message<A>>, A>,
    taken: usize,
}

impl<A: Allocator> Model for RecordQueue<A> {
    ghost use Rattle.std.specs.Prelude.{◌≤◌, drop, take};
    ghost use Rattle.std.specs.Vec.{vec_len};
    ghost use Rattle.urb_stable.specs.internal.RecordQueues.{Queued};

    ghost Value = { Queued };

    ghost view = { λ a.
        record { taken = take a.taken a.records.items; left = drop a.taken a.records.items } };

    ghost invariant = { λ a. a.taken ≤ vec_len a.records };
}

impl<A: Allocator> RecordQueue<A> {
    /// A queue of these records.
    pub(crate) fn new(records: Vec<Record<Message<A>>, A>) -> RecordQueue<A>
        ensures { result ≡ record { taken = []; left = records.items } }
    {
        RecordQueue { records, taken: 0 }
    }

    /// The number of records that are left.
    pub(crate) fn left(&self) -> usize
        ensures { result ≡ length self.now.left }
    {
        self.records.len() - self.taken
    }

    /// Whether the first record that is left is this one.
    pub(crate) fn is_first(&self, entry: &Record<Message<A>>) -> bool
        ensures { MatchBool result (slice_get self.now.left 0 ≡ Some entry.now)
            (¬ (slice_get self.now.left 0 ≡ Some entry.now)) }
    {
        match self.records.get(self.taken) {
            Some(first) => first.is_same(entry),
            None => false,
        }
    }

    /// Takes the first record that is left.
    pub(crate) fn take_first(&mut self)
        requires { 0 < length self.old.left }
        ensures { self.new ≡ once_taken self.old }
    {
        self.taken += 1;
    }

    /// Drops all records that are left.
    pub(crate) fn drop_left(&mut self)
        ensures { self.new ≡ record { taken = self.old.taken; left = [] } }
    {
        self.records.truncate(self.taken);
    }
}
