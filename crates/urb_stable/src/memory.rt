//! A store in memory.
ghost use Rattle.std.specs.Prelude.{◌≡◌, ◌+◌, List, [], ◌∷◌, ◌++◌, false, length, IsTrue, OnOk};
ghost use Rattle.std.specs.Prelude.{None, OnErr, IfOk, IfErr, Ok, nat_lt, true, ◌||◌};
ghost use Rattle.urb_stable.specs.MemoryStores.{empty_memory, armed_with, Retrieves, Stores};
ghost use Rattle.urb_stable.specs.internal.MemoryCalls.{StoresInMemory, StoresAllInMemory};
ghost use Rattle.urb_stable.specs.internal.MemoryCalls.{WithdrawsInMemory, retrieved};
ghost use Rattle.urb_stable.specs.WithdrawnRecords.{AreWithdrawn, IsUnlessPlace, KeepsDoubt};
ghost use Rattle.urb_stable.specs.Entries.{Entry};
ghost use Rattle.urb_stable.specs.StableStorage.{IsContents, IsContentsOr, is_out_of_place, is_place};
ghost use Rattle.urb_stable.specs.StableStorage.{is_bad_row, IsPlaced, IsAppended, LeavesDoubt};
ghost use Rattle.urb_stable.specs.StableStorage.{CountsFailures, list_in, IsRetrieved, SettlesDoubt};
ghost use Rattle.urb_stable.specs.StoredTogether.{is_misplaced, AreAppended, LeavesNoRecord};
ghost use Rattle.urb_stable.specs.StoredTogether.{MovesPlace, IsContentsOrAll};

use crate::{Record, Stable, StoreFault};
use std::alloc::{Allocator, Global};
use std::marker::Model;
use urb_names::{Message, NoMemory};

/// How a call of `store` fails in memory, if a test or a script has armed it. An armed call of
/// `store_all` returns `Device` and keeps none of its records, with either failure. An armed call of
/// `withdraw` returns `Device` and takes no record out.
#[derive(Clone, Copy, Debug, PartialEq, Eq)]
pub enum Failure {
    /// The call returns `Device`, and the records stay as they were.
    Old,
    /// The call returns `Device`, and the record is kept all the same. If there is no memory for
    /// it, the call returns `NoMemory` and keeps nothing.
    New,
}

/// A store in memory that fails on request: for tests, and for scripts that play failures.
#[derive(Drop)]
#[derive_where(Debug)]
pub struct MemStable<A: Allocator = Global> {
    #[derive_where(skip)]
    alloc: A,
    // Records that are surely stored (`certain` is their count), then perhaps one whose store
    // failed and which may have been kept.
    records: Vec<Record<Message<A>>, A>,
    certain: u32,
    doubtful: bool,
    armed: Option<Failure>,
    failures: u64,
}

impl<A: Allocator> Model for MemStable<A> {
    ghost use Rattle.std.specs.Prelude.{take, slice_get};
    ghost use Rattle.urb_stable.specs.MemoryStores.{Memory};
    ghost use Rattle.urb_stable.specs.internal.MemoryInvariant.{IsMemory};

    ghost Value = { Memory };

    ghost view = { λ a. record {
      certain = take a.certain a.records.items;
      doubt = slice_get a.records.items a.certain;
      doubtful = a.doubtful;
      failures = a.failures;
      armed = a.armed;
    } };

    ghost invariant = { IsMemory };
}

// Appends a copy of a record.
fn keep<A: Allocator + Copy>(
    records: &mut Vec<Record<Message<A>>, A>,
    alloc: A,
    entry: &Record<Message<A>>,
) -> Result<(), NoMemory>
    ensures ok { OnOk result (records.new.items ≡ records.old.items ++ entry.now ∷ []) }
    ensures err { OnErr result (records.new.items ≡ records.old.items) }
{
    records.push(entry.share(alloc)?)?;
    Ok(())
}

// Returns copies of all records, which share the payloads.
fn copy_all<A: Allocator + Copy>(
    records: &[Record<Message<A>>],
    alloc: A,
) -> Result<Vec<Record<Message<A>>, A>, NoMemory>
    ensures { IfOk result (λ v. v.items ≡ records.now) }
{
    let mut copies = Vec::new(alloc);
    for entry in records {
        keep(&mut copies, alloc, entry)?;
    }
    Ok(copies)
}

// Appends copies of all these records, or none. All memory is reserved before the list changes.
fn append_all<A: Allocator + Copy>(
    records: &mut Vec<Record<Message<A>>, A>,
    alloc: A,
    entries: &[Record<Message<A>>],
) -> Result<(), NoMemory>
    ensures ok { OnOk result (records.new.items ≡ records.old.items ++ entries.now) }
    ensures err { OnErr result (records.new.items ≡ records.old.items) }
{
    let mut copies = copy_all(entries, alloc)?;
    records.append(&mut copies)?;
    Ok(())
}

impl<A: Allocator + Copy> MemStable<A> {
    /// A store with no records. Allocates no memory; its records' memory comes from `alloc`.
    pub fn new(alloc: A) -> MemStable<A>
        ensures { result ≡ empty_memory }
    {
        MemStable {
            alloc,
            records: Vec::new(alloc),
            certain: 0,
            doubtful: false,
            armed: None,
            failures: 0,
        }
    }

    /// Makes the next call of `store` or `store_all` fail, apart from calls that return `Place` or
    /// store an empty list. If a failure was armed before and not used, this one replaces it. After
    /// 2 ^ 64 - 1 failures no further one can be counted, so an armed call returns `NoMemory` and
    /// keeps nothing.
    pub fn arm(&mut self, failure: Failure)
        ensures { self.new ≡ armed_with failure self.old }
    {
        self.armed = Some(failure);
    }
}

impl<A: Allocator + Copy> Stable for MemStable<A> {
    type Alloc = A;

    ghost certain = { λ s. s.certain };

    ghost doubt = { λ s. s.doubt };

    ghost is_doubtful = { λ s. s.doubtful };

    ghost failures = { λ s. s.failures };

    ghost place = { λ s. length s.certain + 1 };

    ghost is_clean = { λ s. Unit {0} };

    ghost is_honest = { λ s. Unit {0} };

    ghost is_shut = { λ s. ⊥ };

    ghost leaves_only = { λ s P.
        (records : List Entry) → IsContents s.certain s.doubt records → P records };

    ghost stores = { λ s pos _. Stores s pos };

    ghost answers = { Retrieves };

    ghost ahead = { λ _. [] };

    ghost base = { λ _. [] };

    ghost can_hold = { λ _ _. false };

    fn next(&self) -> u32 {
        self.certain + 1
    }

    fn doubtful(&self) -> bool {
        self.doubtful
    }

    fn store(&mut self, pos: u32, entry: &Record<Message<A>>) -> Result<(), StoreFault>
        // The promises of every store.
        ensures answers { Stores self.old pos result }
        ensures placed { IsPlaced
            (is_out_of_place self.old.doubtful (length self.old.certain + 1) pos)
            (length self.old.certain + 1) result }
        ensures same { IsTrue (is_out_of_place self.old.doubtful (length self.old.certain + 1) pos)
            → self.new ≡ self.old }
        ensures appended { IsAppended self.old.certain self.new.certain entry.now result }
        ensures doubted { LeavesDoubt self.new.doubtful self.new.doubt entry.now result }
        ensures stop { (records : List Entry)
            → IsContents self.new.certain self.new.doubt records
            → IsContentsOr entry.now self.old.certain self.old.doubt records }
        ensures counts { CountsFailures self.old.failures self.new.failures result }

        // The exact result and effect if the position is right (the result isn't `Place`).
        ensures exact { is_out_of_place self.old.doubtful (length self.old.certain + 1) pos ≡ false
            → StoresInMemory self.old entry.now result self.new }
    {
        let next = self.next();
        if pos != next || self.doubtful || next == u32::MAX {
            return Err(StoreFault::Place(next));
        }
        let armed = self.armed.take();
        if armed.is_some() && self.failures == u64::MAX {
            self.doubtful = true;
            return Err(StoreFault::NoMemory);
        }
        if armed == Some(Failure::Old) {
            self.doubtful = true;
            self.failures += 1;
            return Err(StoreFault::Device);
        }
        if keep(&mut self.records, self.alloc, entry).is_err() {
            self.doubtful = true;
            return Err(StoreFault::NoMemory);
        }
        if armed == Some(Failure::New) {
            self.doubtful = true;
            self.failures += 1;
            return Err(StoreFault::Device);
        }
        self.certain += 1;
        Ok(())
    }

    fn store_all(&mut self, pos: u32, entries: &[Record<Message<A>>]) -> Result<(), StoreFault>
        // The promises of every store.
        ensures placed { IsPlaced
            (is_misplaced self.old.doubtful (length self.old.certain + 1) pos entries.now)
            (length self.old.certain + 1) result }
        ensures same { IsTrue
            (is_misplaced self.old.doubtful (length self.old.certain + 1) pos entries.now)
            → self.new ≡ self.old }
        ensures nothing { entries.now ≡ []
            → is_misplaced self.old.doubtful (length self.old.certain + 1) pos [] ≡ false
            → (result ≡ Ok tt) × (self.new ≡ self.old) }
        ensures appended { AreAppended self.old.certain self.new.certain entries.now result }
        ensures doubted { LeavesNoRecord self.new.doubtful self.new.doubt result }
        ensures moved { MovesPlace (length self.old.certain + 1) (length self.new.certain + 1)
            (length entries.now) result }
        ensures stop { (records : List Entry)
            → IsContents self.new.certain self.new.doubt records
            → IsContentsOrAll entries.now self.old.certain self.old.doubt records }
        ensures counts { CountsFailures self.old.failures self.new.failures result }

        // The exact result and effect if the records are in place (the result isn't `Place`).
        ensures exact { is_misplaced self.old.doubtful (length self.old.certain + 1) pos
            entries.now ≡ false
            → StoresAllInMemory self.old entries.now result self.new }
    {
        let next = self.next();
        let room = (u32::MAX - next) as usize;
        if pos != next || self.doubtful || room < entries.len() {
            return Err(StoreFault::Place(next));
        }
        if entries.is_empty() {
            return Ok(());
        }
        if let Some(_) = self.armed.take() {
            self.doubtful = true;
            if self.failures == u64::MAX {
                return Err(StoreFault::NoMemory);
            }
            self.failures += 1;
            return Err(StoreFault::Device);
        }
        if append_all(&mut self.records, self.alloc, entries).is_err() {
            self.doubtful = true;
            return Err(StoreFault::NoMemory);
        }
        self.certain += entries.len() as u32;
        Ok(())
    }

    fn retrieve(&mut self, alloc: A) -> Result<Vec<Record<Message<A>>, A>, StoreFault>
        // The promises of every store.
        ensures answers { Retrieves self.old (list_in result) }
        ensures retrieved { IsRetrieved self.old.certain self.old.doubt self.new.certain
            (list_in result) }
        ensures settled { SettlesDoubt self.old.doubtful self.old.doubt
            (length self.old.certain + 1) self.new.doubtful self.new.doubt
            (length self.new.certain + 1) (list_in result) }
        ensures faults { IfErr result (λ e. (is_place e ≡ false) × (is_bad_row e ≡ false)) }
        ensures stop { (records : List Entry)
            → IsContents self.new.certain self.new.doubt records
            → IsContents self.old.certain self.old.doubt records }
        ensures counts { CountsFailures self.old.failures self.new.failures (list_in result) }

        // It returns all records. A fault never comes from the device, and it leaves the store
        // unchanged.
        ensures all { OnOk result (self.new ≡ retrieved self.old) }
        ensures refused { OnErr result (self.new ≡ self.old) }
    {
        let records = copy_all(&self.records, alloc)?;
        self.certain = self.records.len() as u32;
        self.doubtful = false;
        Ok(records)
    }

    fn store_ahead(&mut self, _records: &mut Vec<Record<Message<A>>, A>) -> Result<(), StoreFault> {
        Err(StoreFault::Place(self.next()))
    }

    fn withdraw(&mut self, count: usize) -> Result<(), StoreFault>
        // The promises of every store.
        ensures same { IfErr result (λ e. is_place e ≡ true → self.new ≡ self.old) }
        ensures withdrawn { AreWithdrawn self.old.certain self.new.certain count result }
        ensures moved { MovesPlace (length self.new.certain + 1) (length self.old.certain + 1) count
            result }
        ensures doubted { KeepsDoubt self.old.doubtful self.old.doubt self.new.doubtful
            self.new.doubt }
        ensures settled { IsUnlessPlace result (self.old.doubt ≡ None) }
        ensures counts { CountsFailures self.old.failures self.new.failures result }

        // It is refused with `Place` exactly if a retrieve must come first, or there are fewer
        // records. The exact result and effect if there are as many.
        ensures refused { IsPlaced (self.old.doubtful || nat_lt (length self.old.certain) count)
            (length self.old.certain + 1) result }
        ensures exact { (self.old.doubtful || nat_lt (length self.old.certain) count) ≡ false
            → WithdrawsInMemory self.old count result self.new }
    {
        let next = self.next();
        if self.doubtful || self.records.len() < count {
            return Err(StoreFault::Place(next));
        }
        if let Some(_) = self.armed.take() {
            if self.failures == u64::MAX {
                return Err(StoreFault::NoMemory);
            }
            self.failures += 1;
            return Err(StoreFault::Device);
        }
        let kept = self.records.len() - count;
        self.records.truncate(kept);
        self.certain = kept as u32;
        Ok(())
    }
}
