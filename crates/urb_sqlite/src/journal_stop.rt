//! What the next opening of one journal finds after the machine stopped, over disks that can be
//! made to crash.

ghost use Rattle.std.specs.Prelude.{IfOk};
ghost use Rattle.sqlite.specs.State.{HasCleanDisk};
ghost use Rattle.sqlite.specs.Files.{file_state};
ghost use Rattle.urb_sqlite.specs.RowReadings.{records_of};
ghost use Rattle.urb_sqlite.specs.OpenJournal.{IsHonestJournal};
ghost use Rattle.urb_sqlite.specs.ReopenedJournals.{IsFoundAfter, IsReopened};

use crate::SqlStable;
use sqlite::{FileStore, Files, Options};
use sqlite_disk::Crash;
use std::alloc::Global;
use urb_stable::{Record, Stable, StoreFault};

impl<D: Crash + Drop> SqlStable<FileStore<D>> {
    /// Stops the machine at this moment, and opens the files again. For a stop inside a call, let
    /// the disks fail from some moment on.
    pub fn stop_and_open(
        self,
        alloc: Global,
        options: Options,
    ) -> Result<SqlStable<FileStore<D>>, StoreFault>
        // The new journal holds what the stop left, as far as the disks have given back what was
        // written.
        ensures { IfOk result
            (λ again. IsReopened (file_state self.conn) (file_state again.conn)) }
    {
        let Files { mut log, mut db } = self.into_file_connection().into_store().close();
        log.crash();
        db.crash();
        SqlStable::open_files(alloc, Files { log, db }, options)
    }

    /// Stores a record, stops the machine, and opens the files again. Returns the store's answer,
    /// and the journal that is found.
    pub fn store_and_stop(
        mut self,
        alloc: Global,
        options: Options,
        pos: u32,
        entry: &Record,
    ) -> (
        Result<(), StoreFault>,
        Result<SqlStable<FileStore<D>>, StoreFault>,
    )
        // The journal has the records from before, or these and the new one. If the store
        // succeeded, it has the new one.
        ensures { IfOk result.1 (λ again. HasCleanDisk (file_state again.conn)
            → IsHonestJournal (file_state self.conn)
            → IsHonestJournal (file_state again.conn)
            × IsFoundAfter result.0 (records_of (file_state self.conn).now) entry.now
            (records_of (file_state again.conn).now)) }
    {
        let stored = self.store(pos, entry);
        (stored, self.stop_and_open(alloc, options))
    }
}
