//! The bytes of a journal's two files, and a journal over files in memory with such bytes.

use super::desks::Desk;
use super::disks::{Journal, bytes_of, files_of, files_with, make_files, open_over};
use super::records::Kept;
use sqlite::{Alter, Connection, Files};
use sqlite_disk::{Disk, Fuse, Memory};
use std::alloc::Global;
use urb_sqlite::SqlStable;

/// The bytes of a log and of a database file.
#[derive(Drop)]
pub struct Bytes {
    pub log: Vec<u8>,
    pub db: Vec<u8>,
}

// Stores the records of these rows in a new journal. Says whether it took them, and returns its
// connection.
fn store_rows<S: Alter + Drop>(
    alloc: Global,
    journal: SqlStable<S>,
    rows: &[Kept],
) -> (bool, Option<Connection<S>>) {
    let mut desk = Desk::with(alloc, journal);
    let mut are_stored = true;
    for (at, row) in rows.iter().enumerate() {
        let position = u32::saturating_add(u32::try_from(at).unwrap_or(u32::MAX), 1);
        are_stored = are_stored && desk.store(position, *row) == Some(Ok(()));
    }
    (are_stored, desk.into_connection())
}

// The files of a new journal with these records.
fn store_over<D: Disk + Drop>(alloc: Global, files: Files<D>, rows: &[Kept]) -> Option<Files<D>> {
    match store_rows(alloc, open_over(alloc, files, 1)?, rows) {
        (true, Some(conn)) => Some(files_of(conn)),
        _ => None,
    }
}

/// The bytes that a new journal with these records leaves in its files.
pub fn write_records(alloc: Global, rows: &[Kept]) -> Option<Bytes> {
    let files = store_over(alloc, make_files(alloc, u64::MAX, u64::MAX), rows)?;
    bytes_of(alloc, &files)
}

/// The journal in files with these bytes, each of which fails after the given number of calls.
pub fn journal_of(
    alloc: Global,
    log: (&[u8], u64),
    db: (&[u8], u64),
) -> Option<Journal<Fuse<Memory>>> {
    open_over(alloc, files_with(alloc, log, db)?, 2)
}
