//! A store that holds records ahead, over another store.
ghost use Rattle.std.specs.Prelude.{◌≡◌, ◌<◌, List, MatchBool, Option, Some, false, length};
ghost use Rattle.std.specs.Prelude.{None, slice_get, true};
ghost use Rattle.urb_stable.specs.AheadStores.{IsSound, LeavesInside, fault_after, fresh, ghosts_over};
ghost use Rattle.urb_stable.specs.AheadStores.{needs_retrieve, next_place};
ghost use Rattle.urb_stable.specs.Entries.{Entry};
ghost use Rattle.urb_stable.specs.KeptDrafts.{Keeps, KeepsAll};
ghost use Rattle.urb_stable.specs.KeptTails.{KeepsTail};
ghost use Rattle.urb_stable.specs.RetrievedRecords.{Gives};
ghost use Rattle.urb_stable.specs.StableStorage.{IsContents, is_out_of_place, list_in};
ghost use Rattle.urb_stable.specs.internal.AheadCalls.{IsCountedOver, once_spent};
ghost use Rattle.urb_stable.specs.internal.AheadCalls.{once_taken_ahead};

use crate::ahead_calls::{count_failure, is_place};
use crate::record_queue::RecordQueue;
use crate::{Record, Stable, StoreFault};
use std::marker::Model;
use std::mem;
use std::snapshot::Snapshot;
use urb_names::Message;

/// A store over another one, which may hold records ahead. `store_ahead` keeps several records by one
/// call of the inner store, and so by one sync. After that, each `store` of the first record ahead is
/// answered `Ok` without a call of the inner store. If another record is to be stored in its place,
/// the inner store takes those ahead out again (`withdraw`), and stores that record. If it can't, the
/// call fails, and a `retrieve` must come first. The next `store` of another record tries again.
///
/// If the inner store fails to keep the records, the store is failing, which nobody needs to know
/// yet. The next `store` finds out, and fails. After that a `retrieve` gives the records from before,
/// and none are ahead. But if the failure has shut the inner store, only a new opening gives records
/// again: all of those that were to be ahead, or none.
#[derive(Drop)]
pub struct AheadStore<S: Stable> {
    store: S,
    queue: RecordQueue<S::Alloc>,
    // The inner store before it kept the records of the queue. It has no bytes.
    start: Snapshot<S>,
    // Whether it failed to keep them.
    failing: bool,
    spent: bool,
    // How often this store itself has failed.
    failures: u64,
}

impl<S: Stable> Model for AheadStore<S> {
    ghost use Rattle.std.specs.Prelude.{◌++◌};
    ghost use Rattle.urb_stable.specs.AheadStores.{AheadView, IsSound};

    ghost Value = { AheadView S };

    ghost view = { λ a. record {
      store = a.store;
      start = a.start.value;
      base = S.certain a.start.value ++ a.queue.taken;
      ahead = a.queue.left;
      failing = a.failing;
      spent = a.spent;
      failures = a.failures;
    } };

    ghost invariant = { λ a. IsSound S.Stable (record {
      store = a.store;
      start = a.start.value;
      base = S.certain a.start.value ++ a.queue.taken;
      ahead = a.queue.left;
      failing = a.failing;
      spent = a.spent;
      failures = a.failures;
    }) };
}

// Keeps these records together, at the next position of the store.
fn keep_all<S: Stable>(
    store: &mut S,
    entries: &[Record<Message<S::Alloc>>],
) -> Result<(), StoreFault>
    ensures kept { KeepsAll S.Stable store.old (S.place store.old) entries.now result store.new }
    ensures sure { S.is_doubtful store.old ≡ false → S.doubt store.old ≡ None }
{
    let next = store.next();
    store.store_all(next, entries)
}

impl<S: Stable> AheadStore<S> {
    /// A store over this one, with no records ahead. The allocator is that of the records ahead.
    pub fn new(alloc: S::Alloc, store: S) -> AheadStore<S>
        ensures { result ≡ fresh S.Stable store }
    {
        let start = Snapshot::of(&store);
        AheadStore {
            store,
            queue: RecordQueue::new(Vec::new(alloc)),
            start,
            failing: false,
            spent: false,
            failures: 0,
        }
    }

    /// The inner store. It still holds the records ahead.
    pub fn into_inner(self) -> S
        ensures inner { result ≡ self.store }
        // What a stop leaves of it is what a stop leaves of this store, and then all records ahead.
        // If it failed to keep these, they may be there or not.
        ensures left { (certain : List Entry) (doubtful : Option Entry)
            → (ghosts_over S.Stable).leaves_only self (IsContents certain doubtful)
            → LeavesInside S.Stable self (IsContents certain doubtful) }
    {
        let AheadStore {
            store,
            queue: _,
            start: _,
            failing: _,
            spent: _,
            failures: _,
        } = self;
        store
    }

    /// The number of records ahead.
    pub fn left(&self) -> usize
        ensures { result ≡ length self.now.ahead }
    {
        self.queue.left()
    }

    /// Does nothing at run time; it brings the value's invariant into the proof.
    pub fn recall(&self)
        ensures { IsSound S.Stable self.now }
    {
        let _spent = self.spent;
    }

    // Whether the inner store failed to keep the records ahead.
    fn is_failing(&self) -> bool
        ensures { result ≡ self.now.failing }
    {
        self.failing
    }

    // Keeps these records by one call of the inner store, if none are ahead.
    fn hold(&mut self, entries: Vec<Record<Message<S::Alloc>>, S::Alloc>) -> Result<(), StoreFault>
        requires { length self.old.ahead ≡ 0 }
        ensures { KeepsTail (ghosts_over S.Stable) self.old entries.items result self.new }
    {
        let start = Snapshot::of(&self.store);
        match keep_all(&mut self.store, &entries) {
            Ok(()) => {
                self.queue = RecordQueue::new(entries);
                self.start = start;
                Ok(())
            }
            Err(fault) => {
                if is_place(&fault) {
                    return Err(fault);
                }
                self.queue = RecordQueue::new(entries);
                self.start = start;
                self.failing = true;
                Err(fault)
            }
        }
    }

    // Whether the first record ahead is this one.
    pub(crate) fn is_first(&self, entry: &Record<Message<S::Alloc>>) -> bool
        ensures { MatchBool result (slice_get self.now.ahead 0 ≡ Some entry.now)
            (¬ (slice_get self.now.ahead 0 ≡ Some entry.now)) }
    {
        self.queue.is_first(entry)
    }

    // Takes the first record ahead.
    pub(crate) fn take_first(&mut self)
        requires some { 0 < length self.old.ahead }
        requires held { self.old.failing ≡ false }
        requires unspent { self.old.spent ≡ false }
        ensures { self.new ≡ once_taken_ahead self.old }
    {
        self.queue.take_first();
    }

    // Stores no more records before a retrieve. Returns the fault that says so.
    pub(crate) fn spend(&mut self) -> StoreFault
        requires { 0 < length self.old.ahead }
        ensures fault { result ≡ fault_after self.old.failures }
        ensures spent { self.new ≡ once_spent self.old }
    {
        self.spent = true;
        count_failure(&mut self.failures)
    }

    // Has the inner store take the records ahead out, and stores another one. If it can't take them
    // out, a retrieve must come first.
    pub(crate) fn replace_ahead(
        &mut self,
        pos: u32,
        entry: &Record<Message<S::Alloc>>,
    ) -> Result<(), StoreFault>
        requires some { 0 < length self.old.ahead }
        requires held { self.old.failing ≡ false }
        requires placed { is_out_of_place (needs_retrieve S.Stable self.old)
            (next_place S.Stable self.old) pos ≡ false }
        requires counted { IsCountedOver S.Stable self.old }
        requires another { ¬ (slice_get self.old.ahead 0 ≡ Some entry.now) }
        ensures { Keeps (ghosts_over S.Stable) self.old
            (record { node = 0; pos = pos; entry = entry.now }) result self.new }
    {
        let left = self.queue.left();
        match self.store.withdraw(left) {
            Ok(()) => {
                self.queue.drop_left();
                // For its clause about the next position of an honest store.
                let _next = self.store.next();
                self.store.store(pos, entry)
            }
            Err(_) => {
                self.spent = true;
                Err(count_failure(&mut self.failures))
            }
        }
    }

    // Stores a record if none are ahead.
    fn store_inside(
        &mut self,
        pos: u32,
        entry: &Record<Message<S::Alloc>>,
    ) -> Result<(), StoreFault>
        requires { length self.old.ahead ≡ 0 }
        ensures { Keeps (ghosts_over S.Stable) self.old
            (record { node = 0; pos = pos; entry = entry.now }) result self.new }
    {
        // For its clause about the next position of an honest store.
        let _next = self.store.next();
        self.store.store(pos, entry)
    }

    // Stores several records if none are ahead.
    fn store_all_inside(
        &mut self,
        pos: u32,
        entries: &[Record<Message<S::Alloc>>],
    ) -> Result<(), StoreFault>
        requires { length self.old.ahead ≡ 0 }
        ensures { KeepsAll (ghosts_over S.Stable) self.old pos entries.now result self.new }
    {
        // For its clause about the next position of an honest store.
        let _next = self.store.next();
        self.store.store_all(pos, entries)
    }

    // Retrieves the records if none are ahead.
    fn retrieve_inside(
        &mut self,
        alloc: S::Alloc,
    ) -> Result<Vec<Record<Message<S::Alloc>>, S::Alloc>, StoreFault>
        requires { length self.old.ahead ≡ 0 }
        ensures { Gives (ghosts_over S.Stable) self.old (list_in result) self.new }
    {
        self.store.retrieve(alloc)
    }

    // Retrieves the records before those ahead.
    fn retrieve_less(
        &mut self,
        alloc: S::Alloc,
    ) -> Result<Vec<Record<Message<S::Alloc>>, S::Alloc>, StoreFault>
        requires some { 0 < length self.old.ahead }
        requires held { self.old.failing ≡ false }
        ensures { Gives (ghosts_over S.Stable) self.old (list_in result) self.new }
    {
        let left = self.queue.left();
        let mut records = match self.store.retrieve(alloc) {
            Ok(whole) => whole,
            Err(fault) => return Err(fault),
        };
        self.spent = false;
        records.truncate(records.len().saturating_sub(left));
        Ok(records)
    }

    // Retrieves the records once the inner store has failed to keep those ahead. After that, none
    // are ahead.
    fn retrieve_failed(
        &mut self,
        alloc: S::Alloc,
    ) -> Result<Vec<Record<Message<S::Alloc>>, S::Alloc>, StoreFault>
        requires some { 0 < length self.old.ahead }
        requires failing { self.old.failing ≡ true }
        ensures { Gives (ghosts_over S.Stable) self.old (list_in result) self.new }
    {
        // For its clause that an honest store is clean.
        let _next = self.store.next();
        let records = match self.store.retrieve(alloc) {
            Ok(whole) => whole,
            Err(fault) => return Err(fault),
        };
        self.queue.drop_left();
        self.failing = false;
        self.spent = false;
        Ok(records)
    }
}

impl<S: Stable> Stable for AheadStore<S> {
    type Alloc = S::Alloc;

    ghost certain = { λ s. (ghosts_over S.Stable).certain s };

    ghost doubt = { λ s. (ghosts_over S.Stable).doubt s };

    ghost is_doubtful = { λ s. (ghosts_over S.Stable).is_doubtful s };

    ghost place = { λ s. (ghosts_over S.Stable).place s };

    ghost failures = { λ s. (ghosts_over S.Stable).failures s };

    ghost is_clean = { λ s. (ghosts_over S.Stable).is_clean s };

    ghost is_honest = { λ s. (ghosts_over S.Stable).is_honest s };

    ghost is_shut = { λ s. (ghosts_over S.Stable).is_shut s };

    ghost leaves_only = { λ s. (ghosts_over S.Stable).leaves_only s };

    ghost stores = { λ s. (ghosts_over S.Stable).stores s };

    ghost answers = { λ s. (ghosts_over S.Stable).answers s };

    ghost ahead = { λ s. (ghosts_over S.Stable).ahead s };

    ghost base = { λ s. (ghosts_over S.Stable).base s };

    ghost can_hold = { λ s. (ghosts_over S.Stable).can_hold s };

    fn next(&self) -> u32 {
        if self.failing {
            return self.store.next();
        }
        (self.store.next() as usize).saturating_sub(self.queue.left()) as u32
    }

    fn doubtful(&self) -> bool {
        if self.left() == 0 {
            self.store.doubtful()
        } else {
            self.spent
        }
    }

    fn store(&mut self, pos: u32, entry: &Record<Message<S::Alloc>>) -> Result<(), StoreFault> {
        if self.left() == 0 {
            self.store_inside(pos, entry)
        } else if self.is_failing() {
            self.refuse_store(pos, entry)
        } else {
            self.store_first(pos, entry)
        }
    }

    fn store_all(
        &mut self,
        pos: u32,
        entries: &[Record<Message<S::Alloc>>],
    ) -> Result<(), StoreFault> {
        if self.left() == 0 {
            self.store_all_inside(pos, entries)
        } else {
            self.refuse_all(pos, entries)
        }
    }

    fn retrieve(
        &mut self,
        alloc: S::Alloc,
    ) -> Result<Vec<Record<Message<S::Alloc>>, S::Alloc>, StoreFault> {
        if self.left() == 0 {
            self.retrieve_inside(alloc)
        } else if self.is_failing() {
            self.retrieve_failed(alloc)
        } else {
            self.retrieve_less(alloc)
        }
    }

    fn store_ahead(
        &mut self,
        records: &mut Vec<Record<Message<S::Alloc>>, S::Alloc>,
    ) -> Result<(), StoreFault> {
        if self.left() == 0 {
            let empty = Vec::new(*records.allocator());
            self.hold(mem::replace(records, empty))
        } else {
            self.refuse_hold()
        }
    }
}
