//! A journal as stable storage.

ghost use Rattle.std.specs.Prelude.{◌≡◌, ◌<◌, ◌+◌, None, Some, false, IfOk, IfErr, IsErrAnd};
ghost use Rattle.std.specs.Prelude.{IsTrue, Ok, Err};
ghost use Rattle.sqlite.specs.State.{HasCleanDisk};
ghost use Rattle.sqlite.specs.Held.{state};
ghost use Rattle.urb_sqlite.specs.RowReadings.{records_of};
ghost use Rattle.urb_sqlite.specs.OpenJournal.{OpenJournal, IsHonestJournal, IsTakenOver};
ghost use Rattle.urb_sqlite.specs.OpenJournal.{IsGivenBack, IsSafeAtRest, LeavesOnly};
ghost use Rattle.urb_sqlite.specs.internal.JournalChanges.{IsInStep};

use crate::{MessagePool, records, table_shape, withdrawing};
use sqlite::{Alter, Connection, FileStore};
use sqlite_disk::Disk;
use std::alloc::Global;
use std::marker::Model;
use std::sync::Arc;
use urb_stable::{Record, Stable, StoreFault};

/// A node's journal: stable storage in the tables `journal` and `journal2` of a database. New
/// records go into `journal2` alone. The records of `journal`, the older table, come before them. A
/// record is one row. A record alone is stored by one INSERT outside any transaction. Records that
/// come together are stored by the INSERTs of one transaction. So one commit holds whole records,
/// and all of those that come together. The last records are taken out again by one DELETE, in a
/// transaction. Nothing else may write the database while this value holds it.
///
/// `Device` is any refusal of the database except for memory, and each one raises the count of
/// failures by one. If that count is at its greatest value, 2^64 - 1, the next failure returns
/// `NoMemory`.
pub struct SqlStable<S: Alter> {
    conn: Connection<S>,
    next: u32,
    doubtful: bool,
    failures: u64,
    pool: Option<Arc<MessagePool>>,
}

impl<S: Alter> Model for SqlStable<S> {
    ghost use Rattle.sqlite.specs.Held.{state};
    ghost use Rattle.urb_sqlite.specs.OpenJournal.{OpenJournal, open_code};
    ghost use Rattle.urb_sqlite.specs.internal.JournalChanges.{IsInStep};

    ghost Value = { OpenJournal S };

    ghost coded = { open_code S.code };

    ghost view = { λ s.
        record { conn = s.conn; next = s.next; doubtful = s.doubtful; failures = s.failures } };

    ghost invariant = { λ s. IsInStep (state S.Store s.conn) s.next };
}

// This is written out, so that a caller doesn't prove again how each part is dropped.
impl<S: Alter + Drop> Drop for SqlStable<S> {
    fn drop(self) {
        let SqlStable {
            conn: _,
            next: _,
            doubtful: _,
            failures: _,
            pool: _,
        } = self;
    }
}

impl<S: Alter> SqlStable<S> {
    /// Takes over an open connection. It makes both tables if they are absent, and reads their rows
    /// once, so that the next position is known. It checks and reads the table `journal` before it
    /// makes `journal2`. A refusal returns the connection with the fault:
    /// - `NoMemory`: an allocation was refused.
    /// - `Device`: the database refused, or something else has the name of a table, or a
    ///   transaction is open. An open transaction stays as it is.
    /// - `BadRow(place)`: the row at this place is no record. Places are counted from 1 over both
    ///   tables, each in order of `pos`.
    pub fn adopt(
        alloc: Global,
        mut conn: Connection<S>,
    ) -> Result<SqlStable<S>, (Connection<S>, StoreFault)>
        // If a transaction is open, this does nothing.
        ensures busy { IsTrue (state S.Store conn).in_transaction
            → IsErrAnd result (λ e. (e.0 ≡ conn) × (e.1 ≡ StoreFault.Device)) }
        // What the journal holds, depending on what the database held.
        ensures taken { IfOk result
            (λ s. IsTakenOver (state S.Store conn) (state S.Store s.conn)) }
        // No record is doubtful, and no failure is counted.
        ensures new { IfOk result (λ s. (s.doubtful ≡ false) × (s.failures ≡ 0)) }
        // A stop after this call leaves the records.
        ensures rest { IfOk result (λ s. IsSafeAtRest (state S.Store s.conn)) }
        // A refusal loses no row, and a bad row that it names is the first one.
        ensures refused { IfErr result
            (λ e. IsGivenBack (state S.Store conn) (state S.Store e.0) e.1) }
    {
        let mut failures = 0;
        match records::take_over(alloc, &mut conn, &mut failures) {
            Ok(next) => Ok(SqlStable {
                conn,
                next,
                doubtful: false,
                failures,
                pool: None,
            }),
            Err(fault) => Err((conn, fault)),
        }
    }

    /// Lets the next retrieve share its messages with this pool, for a program that opens several
    /// journals which hold the same messages. The journal lets go of the pool in that retrieve, so
    /// the pool is gone when all have retrieved.
    pub fn share_with(&mut self, pool: Arc<MessagePool>)
        ensures { self.new ≡ self.old }
    {
        self.pool = Some(pool);
    }

    /// The connection in its present state.
    pub fn into_connection(self) -> Connection<S>
        ensures { result ≡ self.conn }
    {
        let SqlStable {
            conn: connection,
            next: _,
            doubtful: _,
            failures: _,
            pool: _,
        } = self;
        connection
    }
}

impl<D: Disk> SqlStable<FileStore<D>> {
    /// The connection of a journal in files. It is written out, because a call of `into_connection`
    /// at this store takes long to prove.
    pub(crate) fn into_file_connection(self) -> Connection<FileStore<D>>
        ensures { result ≡ self.conn }
    {
        let SqlStable {
            conn: connection,
            next: _,
            doubtful: _,
            failures: _,
            pool: _,
        } = self;
        connection
    }
}

impl<S: Alter> Stable for SqlStable<S> {
    ghost use Rattle.std.specs.Prelude.{None, [], false};
    ghost use Rattle.sqlite.specs.Held.{state};
    ghost use Rattle.sqlite.specs.State.{HasCleanDisk};
    ghost use Rattle.urb_sqlite.specs.RowReadings.{records_of};
    ghost use Rattle.urb_sqlite.specs.OpenJournal.{IsHonestJournal, IsShutJournal, LeavesOnly};

    type Alloc = Global;

    ghost certain = { λ s. records_of (state S.Store s.conn).now };

    ghost doubt = { λ _. None };

    ghost is_doubtful = { λ s. s.doubtful };

    ghost place = { λ s. s.next };

    ghost failures = { λ s. s.failures };

    ghost is_clean = { λ s. HasCleanDisk (state S.Store s.conn) };

    ghost is_honest = { λ s. IsHonestJournal (state S.Store s.conn) };

    ghost is_shut = { λ s. IsShutJournal (state S.Store s.conn) };

    ghost leaves_only = { λ s P. LeavesOnly (state S.Store s.conn) P };

    ghost stores = { λ s pos entry answer. Unit {0} };

    ghost answers = { λ s answer. Unit {0} };

    ghost ahead = { λ _. [] };

    ghost base = { λ _. [] };

    ghost can_hold = { λ _ _. false };

    fn next(&self) -> u32 {
        self.next
    }

    fn doubtful(&self) -> bool {
        self.doubtful
    }

    fn store(&mut self, pos: u32, entry: &Record) -> Result<(), StoreFault> {
        if self.doubtful || pos != self.next || self.next == u32::MAX {
            // Called for its clause that the database obeys its schema.
            let _schema = self.conn.schema();
            return Err(StoreFault::Place(self.next));
        }
        match records::append(&mut self.conn, &mut self.failures, pos, entry) {
            Ok(()) => {
                self.next += 1;
                Ok(())
            }
            Err(fault) => {
                self.doubtful = true;
                Err(fault)
            }
        }
    }

    fn store_all(&mut self, pos: u32, entries: &[Record]) -> Result<(), StoreFault> {
        let count = entries.len();
        let room = (u32::MAX - self.next) as usize;
        if self.doubtful || pos != self.next || room < count {
            // Called for its clause that the database obeys its schema.
            let _schema = self.conn.schema();
            return Err(StoreFault::Place(self.next));
        }
        if count == 0 {
            // For the same clause.
            let _same = self.conn.schema();
            return Ok(());
        }
        match records::append_many(&mut self.conn, &mut self.failures, pos, entries) {
            Ok(()) => {
                self.next += count as u32;
                Ok(())
            }
            Err(fault) => {
                self.doubtful = true;
                Err(fault)
            }
        }
    }

    fn retrieve(&mut self, alloc: Global) -> Result<Vec<Record>, StoreFault> {
        let pool = self.pool.take();
        let shared = pool.as_deref();
        let records = records::read(alloc, shared, &mut self.conn, &mut self.failures)?;
        self.doubtful = false;
        Ok(records)
    }

    fn store_ahead(&mut self, _records: &mut Vec<Record>) -> Result<(), StoreFault> {
        // Called for its clause that the database obeys its schema.
        let _schema = self.conn.schema();
        Err(StoreFault::Place(self.next))
    }

    fn withdraw(&mut self, count: usize) -> Result<(), StoreFault> {
        // No foreign key may act when rows are taken out.
        let is_apart = table_shape::is_apart(self.conn.schema());
        if self.doubtful || self.next as usize <= count || !is_apart {
            return Err(StoreFault::Place(self.next));
        }
        if count == 0 {
            return Ok(());
        }
        let first = self.next - count as u32;
        match withdrawing::remove_last(&mut self.conn, &mut self.failures, first, count) {
            Ok(()) => {
                self.next = first;
                Ok(())
            }
            Err(fault) => Err(fault),
        }
    }
}
