//! What a store does with a call while records are ahead.
ghost use Rattle.std.specs.Prelude.{◌≡◌, ◌<◌, List, false, length, true};
ghost use Rattle.urb_stable.specs.AheadStores.{fault_after, ghosts_over, needs_retrieve, next_place};
ghost use Rattle.urb_stable.specs.Entries.{Entry};
ghost use Rattle.urb_stable.specs.KeptDrafts.{Keeps, KeepsAll};
ghost use Rattle.urb_stable.specs.KeptTails.{KeepsTail};
ghost use Rattle.urb_stable.specs.StableStorage.{is_out_of_place, is_place};
ghost use Rattle.urb_stable.specs.StoredTogether.{is_misplaced};
ghost use Rattle.urb_stable.specs.internal.AheadCalls.{failures_after};

use crate::{AheadStore, Record, Stable, StoreFault};
use urb_names::Message;

// Whether a call was out of place.
pub(crate) fn is_place(fault: &StoreFault) -> bool
    ensures { result ≡ is_place fault.now }
{
    match fault {
        StoreFault::Place(_) => true,
        _ => false,
    }
}

// Counts a failure, if one more can be counted. Returns the fault that says so.
pub(crate) fn count_failure(failures: &mut u64) -> StoreFault
    ensures fault { result ≡ fault_after failures.old }
    ensures count { failures.new ≡ failures_after failures.old }
{
    if *failures == u64::MAX {
        return StoreFault::NoMemory;
    }
    *failures += 1;
    StoreFault::Device
}

impl<S: Stable> AheadStore<S> {
    // Whether a store at this position is out of place.
    fn is_out(&self, pos: u32) -> bool
        ensures { result ≡ is_out_of_place (needs_retrieve S.Stable self.now)
            (next_place S.Stable self.now) pos }
    {
        let next = self.next();
        self.doubtful() || pos != next || next == u32::MAX
    }

    // Whether these records, the first at this position, are out of place.
    fn are_out(&self, pos: u32, entries: &[Record<Message<S::Alloc>>]) -> bool
        ensures { result ≡ is_misplaced (needs_retrieve S.Stable self.now)
            (next_place S.Stable self.now) pos entries.now }
    {
        let next = self.next();
        let room = (u32::MAX - next) as usize;
        self.doubtful() || pos != next || room < entries.len()
    }

    // Holds no more records if some are ahead already.
    pub(crate) fn refuse_hold(&self) -> Result<(), StoreFault>
        requires { 0 < length self.now.ahead }
        ensures { (entries : List Entry)
            → KeepsTail (ghosts_over S.Stable) self.now entries result self.now }
    {
        self.recall();
        Err(StoreFault::Place(self.next()))
    }

    // Stores no record if the inner store failed to keep those ahead.
    pub(crate) fn refuse_store(
        &mut self,
        pos: u32,
        entry: &Record<Message<S::Alloc>>,
    ) -> Result<(), StoreFault>
        requires some { 0 < length self.old.ahead }
        requires failing { self.old.failing ≡ true }
        ensures { Keeps (ghosts_over S.Stable) self.old
            (record { node = 0; pos = pos; entry = entry.now }) result self.new }
    {
        self.recall();
        let next = self.next();
        if self.is_out(pos) {
            return Err(StoreFault::Place(next));
        }
        Err(self.spend())
    }

    // Stores a record if some are ahead.
    pub(crate) fn store_first(
        &mut self,
        pos: u32,
        entry: &Record<Message<S::Alloc>>,
    ) -> Result<(), StoreFault>
        requires some { 0 < length self.old.ahead }
        requires held { self.old.failing ≡ false }
        ensures { Keeps (ghosts_over S.Stable) self.old
            (record { node = 0; pos = pos; entry = entry.now }) result self.new }
    {
        self.recall();
        let next = self.next();
        if self.is_out(pos) {
            return Err(StoreFault::Place(next));
        }
        if self.is_first(entry) {
            self.take_first();
            return Ok(());
        }
        self.replace_ahead(pos, entry)
    }

    // Stores no records together if some are ahead.
    pub(crate) fn refuse_all(
        &mut self,
        pos: u32,
        entries: &[Record<Message<S::Alloc>>],
    ) -> Result<(), StoreFault>
        requires { 0 < length self.old.ahead }
        ensures { KeepsAll (ghosts_over S.Stable) self.old pos entries.now result self.new }
    {
        self.recall();
        let next = self.next();
        if self.are_out(pos, entries) {
            return Err(StoreFault::Place(next));
        }
        if entries.is_empty() {
            return Ok(());
        }
        Err(self.spend())
    }
}
