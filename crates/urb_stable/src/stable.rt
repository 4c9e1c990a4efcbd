//! Stable storage: the contract of every store.
ghost use Rattle.std.specs.Prelude.{◌≡◌, ◌⊎◌, ◌+◌, List, [], ℕ, Bool, true, false, Option, None, Result};
ghost use Rattle.std.specs.Prelude.{IfErr, IsTrue, Ok, length};
ghost use Rattle.urb_stable.specs.Entries.{Entry};
ghost use Rattle.urb_stable.specs.declared.stable.StoreFault.{StoreFault as Fault};
ghost use Rattle.urb_stable.specs.StableStorage.{refusal_of, is_out_of_place, IsContents, IsContentsOr};
ghost use Rattle.urb_stable.specs.StableStorage.{IsPlaced, IsAppended, LeavesDoubt, CountsFailures};
ghost use Rattle.urb_stable.specs.StableStorage.{KeepsTrust, list_in, IsRetrieved, SettlesDoubt};
ghost use Rattle.urb_stable.specs.StableStorage.{IsAllowedFault, StaysShut, is_place};
ghost use Rattle.urb_stable.specs.StoredTogether.{is_misplaced, AreAppended, LeavesNoRecord};
ghost use Rattle.urb_stable.specs.StoredTogether.{MovesPlace, IsContentsOrAll, LeavesNoMore};
ghost use Rattle.urb_stable.specs.StoredTogether.{StoresNothing};
ghost use Rattle.urb_stable.specs.RecordsAhead.{HoldsAhead, IsHoldRefused, KeepsAhead, KeepsOrDrops};
ghost use Rattle.urb_stable.specs.RecordsAhead.{MayHoldAhead, SparesAhead, StandsStill, StaysTrusted};
ghost use Rattle.urb_stable.specs.RecordsAhead.{TakesAhead};
ghost use Rattle.urb_stable.specs.WithdrawnRecords.{IsUnlessPlace, KeepsDoubt, Withdraws};

use crate::Record;
use std::alloc::{AllocError, AllocFailed, Allocator};
use thiserror::Error;
use urb_names::{Message, NoMemory, Refusal};

/// Why a store didn't do what it was asked.
#[derive(Clone, Copy, Debug, PartialEq, Eq, Error)]
pub enum StoreFault {
    /// An allocation was refused.
    #[error("no memory")]
    NoMemory,
    /// The storage failed in this call.
    #[error("the storage failed")]
    Device,
    /// The caller gave a position other than the next one; this is the next one. Or there is a
    /// doubtful record, so a `retrieve` must come first. Or the list has its greatest length.
    /// Nothing has changed.
    #[error("the next position is {0}")]
    Place(u32),
    /// The row at this place of the storage, from 1, is not a record: no store wrote it.
    #[error("row {0} is no record")]
    BadRow(u32),
}

impl From<NoMemory> for StoreFault {
    ghost use Rattle.std.specs.Prelude.{◌≡◌};
    ghost use Rattle.urb_stable.specs.declared.stable.StoreFault.TheVariants.{NoMemory as no_memory};

    ghost from_gives = { λ _ e. e ≡ no_memory };

    fn from(_: NoMemory) -> StoreFault {
        StoreFault::NoMemory
    }
}

impl From<AllocError> for StoreFault {
    ghost use Rattle.std.specs.Prelude.{◌≡◌};
    ghost use Rattle.urb_stable.specs.declared.stable.StoreFault.TheVariants.{NoMemory as no_memory};

    ghost from_gives = { λ _ e. e ≡ no_memory };

    fn from(_: AllocError) -> StoreFault {
        StoreFault::NoMemory
    }
}

impl<T: Drop> From<AllocFailed<T>> for StoreFault {
    ghost use Rattle.std.specs.Prelude.{◌≡◌};
    ghost use Rattle.urb_stable.specs.declared.stable.StoreFault.TheVariants.{NoMemory as no_memory};

    ghost from_gives = { λ _ e. e ≡ no_memory };

    fn from(_: AllocFailed<T>) -> StoreFault {
        StoreFault::NoMemory
    }
}

impl StoreFault {
    /// The refusal that reports this fault. Allocates no memory.
    pub fn refusal(&self) -> Refusal
        ensures { result ≡ refusal_of self.now }
    {
        match self {
            StoreFault::NoMemory => Refusal::NoMemory,
            StoreFault::Device => Refusal::Device,
            StoreFault::Place(next) => Refusal::Place(*next),
            StoreFault::BadRow(place) => Refusal::BadRow(*place),
        }
    }
}

/// A list of records that survives a crash: stable storage, as in section 2.2 of the textbook. A
/// list has at most 4,294,967,294 records.
pub trait Stable {
    /// The allocator of its records' messages.
    type Alloc: Allocator + Copy;

    /// The records that are certainly kept.
    ghost certain: { Self → List Entry };

    /// A record after them that a failed store may have kept.
    ghost doubt: { Self → Option Entry };

    /// Whether a store has failed since the last retrieve.
    ghost is_doubtful: { Self → Bool };

    /// The position that the next store must give.
    ghost place: { Self → ℕ };

    /// How often the device has failed.
    ghost failures: { Self → ℕ };

    /// So far the storage has returned what was written.
    ghost is_clean: { Self → Type 0 };

    /// The storage is clean, and no failure has shut it.
    ghost is_honest: { Self → Type 0 };

    /// A failure has shut the storage: it gives no more records.
    ghost is_shut: { Self → Type 0 };

    /// A stop at this moment leaves only records that have the given property.
    ghost leaves_only: { Self → (List Entry → Type 0) → Type 0 };

    /// What storing this record at this position may answer.
    ghost stores: { Self → ℕ → Entry → Result (Unit {0}) Fault → Type 0 };

    /// What a retrieve may answer.
    ghost answers: { Self → Result (List Entry) Fault → Type 0 };

    /// The records that the storage holds already, after those that it has given out. Most storages
    /// have none.
    ghost ahead: { Self → List Entry };

    /// The records that those ahead follow. If none are ahead, it may be any list.
    ghost base: { Self → List Entry };

    /// Whether the storage can hold these records ahead now.
    ghost can_hold: { Self → List Entry → Bool };

    /// The position of the next record, from 1.
    fn next(&self) -> u32
        ensures value { result ≡ place self.now }
        ensures counted { is_honest self.now → result ≡ length (certain self.now) + 1 }
        // A record is in doubt only if a retrieve must come first.
        ensures sure { is_doubtful self.now ≡ false → doubt self.now ≡ None }
        // A storage is honest only while it is clean.
        ensures clean { is_honest self.now → is_clean self.now };

    /// Whether a record may follow the certain ones, so that nothing more is stored before a
    /// `retrieve`.
    fn doubtful(&self) -> bool
        ensures { result ≡ is_doubtful self.now };

    /// Appends a record to the others. After `Place` nothing has changed. After any other fault the
    /// record may be kept or not, and only a `retrieve` can tell.
    fn store(&mut self, pos: u32, entry: &Record<Message<Self::Alloc>>) -> Result<(), StoreFault>
        // It answers as this storage does.
        ensures answers { stores self.old pos entry.now result }
        // The fault is `Place` exactly if the store is out of place, and then nothing changes.
        ensures placed { IsPlaced (is_out_of_place (is_doubtful self.old) (place self.old) pos)
            (place self.old) result }
        ensures same { IsTrue (is_out_of_place (is_doubtful self.old) (place self.old) pos)
            → self.new ≡ self.old }
        // The record is certain after `Ok`. After any other fault it may be there.
        ensures appended { is_honest self.new
            → IsAppended (certain self.old) (certain self.new) entry.now result }
        ensures doubted { LeavesDoubt (is_doubtful self.new) (doubt self.new) entry.now result }
        // A stop, even during this call, leaves what the storage may hold, or its certain records
        // followed by this one.
        ensures stop { is_honest self.old
            → is_clean self.new
            → leaves_only self.new (IsContentsOr entry.now (certain self.old) (doubt self.old)) }
        ensures rest { is_honest self.new
            → leaves_only self.new (IsContents (certain self.new) (doubt self.new)) }
        // `Device` comes only if the count of failures rose.
        ensures counts { CountsFailures (failures self.old) (failures self.new) result }
        // If the storage has ever returned something other than what was written, it never counts
        // as clean again. A clean storage that was honest stays honest or is shut.
        ensures trust { KeepsTrust (is_clean self.old) (is_honest self.old) (is_clean self.new)
            (is_honest self.new) (is_shut self.new) result }
        // If records are ahead, the first of them is stored, or they are taken out for another one.
        ensures ahead { TakesAhead (ahead self.old) (base self.old) (ahead self.new) (base self.new)
            (doubt self.new) entry.now result };

    /// Appends all these records to the others, the first at this position, or none of them. After
    /// `Place` nothing has changed: the position isn't the next one, a `retrieve` must come first,
    /// or the list would get longer than its greatest length. After any other fault a `retrieve`
    /// must come first. It finds none of them. But if the failure has shut the storage, only a later
    /// opening can tell: it finds none or all. An empty list at the next position changes nothing.
    fn store_all(
        &mut self,
        pos: u32,
        entries: &[Record<Message<Self::Alloc>>],
    ) -> Result<(), StoreFault>
        // The fault is `Place` exactly if the records are out of place, and then nothing changes.
        ensures placed { IsPlaced
            (is_misplaced (is_doubtful self.old) (place self.old) pos entries.now)
            (place self.old) result }
        ensures same { IsTrue (is_misplaced (is_doubtful self.old) (place self.old) pos entries.now)
            → self.new ≡ self.old }
        // An empty list in place is stored by doing nothing.
        ensures nothing { entries.now ≡ [] → StoresNothing
            (is_misplaced (is_doubtful self.old) (place self.old) pos []) self.old result self.new }
        // All records are certain after `Ok`, and none of them after a fault.
        ensures appended { is_honest self.new
            → AreAppended (certain self.old) (certain self.new) entries.now result }
        ensures doubted { LeavesNoRecord (is_doubtful self.new) (doubt self.new) result }
        // The next position is the one after these records, or as before. That holds of a storage
        // that isn't honest, too.
        ensures moved { MovesPlace (place self.old) (place self.new) (length entries.now) result }
        // A stop, even during this call, leaves what the storage may hold, or its certain records
        // followed by all of these.
        ensures stop { is_honest self.old → is_clean self.new → leaves_only self.new
            (IsContentsOrAll entries.now (certain self.old) (doubt self.old)) }
        ensures rest { is_honest self.new
            → leaves_only self.new (IsContents (certain self.new) (doubt self.new)) }
        // `Device` comes only if the count of failures rose.
        ensures counts { CountsFailures (failures self.old) (failures self.new) result }
        // If the storage has ever returned something other than what was written, it never counts
        // as clean again. A clean storage that was honest stays honest or is shut.
        ensures trust { KeepsTrust (is_clean self.old) (is_honest self.old) (is_clean self.new)
            (is_honest self.new) (is_shut self.new) result }
        // If records are ahead, no list of records is stored in their place.
        ensures ahead { SparesAhead (ahead self.old) (base self.old) (ahead self.new)
            (base self.new) entries.now result };

    /// Returns all records, which are certain from then on. Records ahead aren't among them. A failed
    /// retrieve changes nothing but the count of failures.
    fn retrieve(
        &mut self,
        alloc: Self::Alloc,
    ) -> Result<Vec<Record<Message<Self::Alloc>>, Self::Alloc>, StoreFault>
        // It answers as this storage does.
        ensures answers { answers self.old (list_in result) }
        // It returns what the storage may hold, which is then certain. A fault leaves what was
        // there.
        ensures retrieved { is_honest self.new
            → IsRetrieved (certain self.old) (doubt self.old) (certain self.new) (list_in result) }
        ensures settled { SettlesDoubt (is_doubtful self.old) (doubt self.old) (place self.old)
            (is_doubtful self.new) (doubt self.new) (place self.new) (list_in result) }
        // The fault is never `Place`, nor `BadRow` if the storage is honest. Nor is it `BadRow` if
        // this failure, or an earlier one, has shut an honest storage.
        ensures allowed { IsAllowedFault (is_honest self.old) (is_shut self.old) (is_clean self.new)
            (is_honest self.new) (list_in result) }
        // A stop, even during this call, leaves what the storage may hold.
        ensures stop { is_honest self.old → is_clean self.new → leaves_only self.new
            (IsContents (certain self.old) (doubt self.old)) }
        ensures rest { is_honest self.new
            → leaves_only self.new (IsContents (certain self.new) (doubt self.new)) }
        // `Device` comes only if the count of failures rose.
        ensures counts { CountsFailures (failures self.old) (failures self.new) (list_in result) }
        // If the storage has ever returned something other than what was written, it never counts
        // as clean again. A clean storage that was honest stays honest or is shut.
        ensures trust { KeepsTrust (is_clean self.old) (is_honest self.old) (is_clean self.new)
            (is_honest self.new) (is_shut self.new) (list_in result) }
        // A shut storage returns nothing and stays shut. Of a storage that was honest or shut, a
        // stop leaves no more than it did before the call.
        ensures refuses { StaysShut (is_shut self.old) (is_clean self.new) (is_shut self.new)
            (list_in result) }
        ensures lasts { is_clean self.new → is_honest self.old ⊎ is_shut self.old
            → LeavesNoMore (leaves_only self.old) (leaves_only self.new) }
        // The records ahead stay, or the store drops all of them.
        ensures ahead { KeepsOrDrops (ahead self.old) (base self.old) (ahead self.new)
            (base self.new) };

    /// Holds these records ahead, behind those that it has given out, before their node drafts them.
    /// The storage keeps all of them by one call, or none. Each later `store` of the first one ahead
    /// gives it out. Unless the answer is `Place`, it takes the records out of the list.
    ///
    /// `Place`: the storage can't hold these records ahead now, and nothing has changed. After any
    /// other fault the next `store` fails. Then a `retrieve` finds none of the records. But if the
    /// failure has shut the storage, only a later opening can tell: it finds none or all.
    fn store_ahead(
        &mut self,
        records: &mut Vec<Record<Message<Self::Alloc>>, Self::Alloc>,
    ) -> Result<(), StoreFault>
        // It is refused with `Place` exactly if the storage can't hold these records now.
        ensures placed { IsHoldRefused (can_hold self.old records.old.items) result }
        // What the storage has given out is as before.
        ensures still { StandsStill (place self.old) (is_doubtful self.old) (doubt self.old)
            (place self.new) (is_doubtful self.new) (doubt self.new) }
        ensures certain { is_honest self.new → certain self.new ≡ certain self.old }
        // A failure shuts no storage that has returned what was written: the next store fails.
        ensures trust { StaysTrusted (is_clean self.old) (is_honest self.old) (is_clean self.new)
            (is_honest self.new) }
        // `Device` comes only if the count of failures rose.
        ensures counts { CountsFailures (failures self.old) (failures self.new) result }
        // After `Place` nothing has changed. Else the records are ahead, and a stop leaves no more
        // than before, or all of them too.
        ensures holds { MayHoldAhead self.old self.new
            (HoldsAhead records.old.items (ahead self.new) (certain self.old) (base self.new)
            (is_honest self.old) (is_honest self.new
            → leaves_only self.new (IsContents (certain self.new) (doubt self.new))))
            result };

    /// Takes the last `count` records out of the list again: all of them or none. They were stored
    /// together by one `store_all`, and no client knows of them.
    ///
    /// `Place`: the storage can't take records out, a `retrieve` must come first, or the list has
    /// fewer records. Nothing has changed. After any other fault the records are still there. But if
    /// the failure has shut the storage, only a later opening can tell: it finds all or none.
    fn withdraw(&mut self, _count: usize) -> Result<(), StoreFault>
        // After `Place` nothing has changed.
        ensures same { IfErr result (λ e. is_place e ≡ true → self.new ≡ self.old) }
        // After `Ok` the records before them are certain. A stop, even during this call, leaves
        // those, or the withdrawn records too.
        ensures withdraws { IsUnlessPlace result (Withdraws (certain self.old) (certain self.new)
            (doubt self.new) _count result (is_honest self.old) (is_clean self.new)
            (is_honest self.new) (leaves_only self.new)) }
        ensures moved { MovesPlace (place self.new) (place self.old) _count result }
        ensures doubted { KeepsDoubt (is_doubtful self.old) (doubt self.old) (is_doubtful self.new)
            (doubt self.new) }
        // `Device` comes only if the count of failures rose.
        ensures counts { CountsFailures (failures self.old) (failures self.new) result }
        // If the storage has ever returned something other than what was written, it never counts
        // as clean again. A clean storage that was honest stays honest or is shut.
        ensures trust { KeepsTrust (is_clean self.old) (is_honest self.old) (is_clean self.new)
            (is_honest self.new) (is_shut self.new) result }
        // Records ahead stay.
        ensures ahead { KeepsAhead (ahead self.old) (base self.old) (ahead self.new)
            (base self.new) }
    {
        Err(StoreFault::Place(self.next()))
    }
}
