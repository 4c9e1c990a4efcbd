//! A node's journal with its node's number, and with the device and number of its file.

ghost use Rattle.std.specs.Prelude.{◌≡◌};

use sqlite::FileStore;
use sqlite_disk::Disk;
use std::alloc::Global;
use urb_names::NodeId;
use urb_sqlite::SqlStable;
use urb_stable::{Record, Stable, StoreFault};

/// Which file has a name: its device, and its number on that device.
#[derive(Clone, Copy, Debug, PartialEq, Eq)]
pub struct FileId {
    pub device: u64,
    pub number: u64,
}

/// A node's journal, in files of this kind. It is a type of its own, so that a caller who passes it
/// to a thread proves nothing about a database.
pub struct Journal<D: Disk> {
    /// The node that it belongs to.
    pub node: NodeId,
    /// The file that had the journal's name when it was opened.
    pub file: FileId,
    /// The journal itself.
    pub journal: SqlStable<FileStore<D>>,
}

impl<D: Disk + Drop> Drop for Journal<D> {
    fn drop(self) {
        let Journal {
            node: _,
            file: _,
            journal: _,
        } = self;
    }
}

impl<D: Disk> Journal<D> {
    /// The node, the file, and the journal itself.
    pub fn into_parts(self) -> (NodeId, FileId, SqlStable<FileStore<D>>)
        ensures { (result.0 ≡ self.node) × (result.1 ≡ self.file) × (result.2 ≡ self.journal) }
    {
        let Journal {
            node,
            file,
            journal,
        } = self;
        (node, file, journal)
    }
}

impl<D: Disk> Stable for Journal<D> {
    type Alloc = Global;

    ghost certain = { λ j. ⟦<SqlStable<FileStore<D>> as Stable>⟧.certain j.journal };

    ghost doubt = { λ j. ⟦<SqlStable<FileStore<D>> as Stable>⟧.doubt j.journal };

    ghost is_doubtful = { λ j. ⟦<SqlStable<FileStore<D>> as Stable>⟧.is_doubtful j.journal };

    ghost place = { λ j. ⟦<SqlStable<FileStore<D>> as Stable>⟧.place j.journal };

    ghost failures = { λ j. ⟦<SqlStable<FileStore<D>> as Stable>⟧.failures j.journal };

    ghost is_clean = { λ j. ⟦<SqlStable<FileStore<D>> as Stable>⟧.is_clean j.journal };

    ghost is_honest = { λ j. ⟦<SqlStable<FileStore<D>> as Stable>⟧.is_honest j.journal };

    ghost is_shut = { λ j. ⟦<SqlStable<FileStore<D>> as Stable>⟧.is_shut j.journal };

    ghost leaves_only = { λ j. ⟦<SqlStable<FileStore<D>> as Stable>⟧.leaves_only j.journal };

    ghost stores = { λ j. ⟦<SqlStable<FileStore<D>> as Stable>⟧.stores j.journal };

    ghost answers = { λ j. ⟦<SqlStable<FileStore<D>> as Stable>⟧.answers j.journal };

    ghost ahead = { λ j. ⟦<SqlStable<FileStore<D>> as Stable>⟧.ahead j.journal };

    ghost base = { λ j. ⟦<SqlStable<FileStore<D>> as Stable>⟧.base j.journal };

    ghost can_hold = { λ j. ⟦<SqlStable<FileStore<D>> as Stable>⟧.can_hold j.journal };

    fn next(&self) -> u32 {
        self.journal.next()
    }

    fn doubtful(&self) -> bool {
        self.journal.doubtful()
    }

    fn store(&mut self, pos: u32, entry: &Record) -> Result<(), StoreFault> {
        self.journal.store(pos, entry)
    }

    fn store_all(&mut self, pos: u32, entries: &[Record]) -> Result<(), StoreFault> {
        self.journal.store_all(pos, entries)
    }

    fn retrieve(&mut self, alloc: Global) -> Result<Vec<Record>, StoreFault> {
        self.journal.retrieve(alloc)
    }

    fn store_ahead(&mut self, records: &mut Vec<Record>) -> Result<(), StoreFault> {
        self.journal.store_ahead(records)
    }

    fn withdraw(&mut self, count: usize) -> Result<(), StoreFault> {
        self.journal.withdraw(count)
    }
}
