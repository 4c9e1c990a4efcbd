//! The desk of a journal. It holds a connection or the journal itself, and lends it from step to
//! step.
//!
//! It is proved for a database of any kind. Over a database in files, each call takes the prover
//! many times as long.

use super::records::{Kept, Load, are_kept, bytes_of, record_of, records_of};
use sqlite::{Alter, Connection, params};
use std::alloc::Global;
use urb_sqlite::SqlStable;
use urb_stable::{Stable, StoreFault};

/// A connection, or a journal over it: one of the two is there.
pub struct Desk<S: Alter + Drop> {
    conn: Option<Connection<S>>,
    journal: Option<SqlStable<S>>,
    alloc: Global,
}

// This is written out, so that a caller doesn't prove again how each part is dropped.
impl<S: Alter + Drop> Drop for Desk<S> {
    fn drop(self) {
        let Desk {
            conn: _,
            journal: _,
            alloc: _,
        } = self;
    }
}

// Puts a value into its place.
fn put<T: Drop>(place: &mut Option<T>, value: T) {
    drop(place.replace(value));
}

impl<S: Alter + Drop> Desk<S> {
    /// A desk with this journal.
    pub fn with(alloc: Global, journal: SqlStable<S>) -> Desk<S> {
        Desk {
            conn: None,
            journal: Some(journal),
            alloc,
        }
    }

    /// A desk with this connection.
    pub fn over(alloc: Global, conn: Connection<S>) -> Desk<S> {
        Desk {
            conn: Some(conn),
            journal: None,
            alloc,
        }
    }

    /// Turns the connection into a journal, and returns its next position. After a fault the
    /// connection stays.
    pub fn adopt(&mut self) -> Option<Result<u32, StoreFault>> {
        match SqlStable::adopt(self.alloc, self.conn.take()?) {
            Ok(journal) => {
                let next = journal.next();
                put(&mut self.journal, journal);
                Some(Ok(next))
            }
            Err((conn, fault)) => {
                put(&mut self.conn, conn);
                Some(Err(fault))
            }
        }
    }

    /// Turns the connection into a journal, and says whether that worked.
    pub fn is_open(&mut self) -> bool {
        matches!(self.adopt(), Some(Ok(_)))
    }

    /// Takes the journal away.
    pub fn take(&mut self) -> Option<SqlStable<S>> {
        self.journal.take()
    }

    /// Turns the journal into its connection again.
    pub fn leave(&mut self) {
        if let Some(journal) = self.journal.take() {
            put(&mut self.conn, journal.into_connection());
        }
    }

    /// The connection, also that of the journal.
    pub fn into_connection(self) -> Option<Connection<S>> {
        let mut desk = self;
        desk.leave();
        let conn = desk.conn.take();
        drop(desk);
        conn
    }

    /// The answer of the journal to a store of the row's record at this position.
    pub fn store(&mut self, at: u32, row: Kept) -> Option<Result<(), StoreFault>> {
        let journal = self.journal.as_mut()?;
        let record = record_of(self.alloc, row)?;
        let answer = journal.store(at, &record);
        drop(record);
        Some(answer)
    }

    /// The answer of the journal to storing the rows' records together, the first at this position.
    pub fn store_all(&mut self, at: u32, rows: &[Kept]) -> Option<Result<(), StoreFault>> {
        let journal = self.journal.as_mut()?;
        let records = records_of(self.alloc, rows)?;
        let answer = journal.store_all(at, &records);
        drop(records);
        Some(answer)
    }

    /// The answer of the journal to taking out its last records.
    pub fn withdraw(&mut self, count: usize) -> Option<Result<(), StoreFault>> {
        Some(self.journal.as_mut()?.withdraw(count))
    }

    /// Whether the journal returns the records of these rows, and then has no doubtful record.
    pub fn holds(&mut self, rows: &[Kept]) -> bool {
        let Some(journal) = self.journal.as_mut() else {
            return false;
        };
        match journal.retrieve(self.alloc) {
            Ok(records) => {
                let are_kept = are_kept(self.alloc, &records, rows);
                drop(records);
                are_kept && !journal.doubtful()
            }
            Err(_) => false,
        }
    }

    /// The next position, and whether a record is in doubt.
    pub fn stand(&self) -> Option<(u32, bool)> {
        let journal = self.journal.as_ref()?;
        Some((journal.next(), journal.doubtful()))
    }

    /// Runs SQL, with a payload of `count` bytes for its parameter, if it has one. Says whether
    /// that worked.
    pub fn is_done(&mut self, sql: &str, count: usize) -> bool {
        let Some(conn) = self.conn.as_mut() else {
            return false;
        };
        if count == 0 {
            return conn.execute_batch(sql).is_ok();
        }
        match bytes_of(self.alloc, Load::Long(count)) {
            Some(payload) => conn.execute(sql, params![&payload]).is_ok(),
            None => false,
        }
    }

    /// Runs SQL without a parameter on the database of the journal, if there is SQL to run. Says
    /// whether that worked.
    pub fn is_changed(&mut self, sql: &str) -> bool {
        if sql.is_empty() {
            return true;
        }
        self.leave();
        self.is_done(sql, 0)
    }

    /// How many rows SQL shows.
    pub fn rows(&mut self, sql: &str) -> Option<usize> {
        match self.conn.as_mut()?.query_all(sql, &[]) {
            Ok(rows) => {
                let count = rows.len();
                drop(rows);
                Some(count)
            }
            Err(_) => None,
        }
    }
}
