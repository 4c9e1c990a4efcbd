//! A journal that is closed while its files fail at one of their calls. The tests check what both
//! files hold afterwards, or the database file alone.

use super::desks::Desk;
use super::disks::{Journal, bytes_of, stop};
use super::kept::{Bytes, journal_of, write_records};
use super::records::TWO;
use sqlite::{Alter, Files};
use sqlite_disk::{Disk, Fuse, Memory};
use std::alloc::Global;
use std::fs;
use std::rt::HostRuntime;
use std::test::Fail;
use urb_sqlite::SqlStable;
use urb_stable::StoreFault;

/// What the files may hold when the journal is opened again: everything that was written, or only
/// what was synced.
#[derive(Drop)]
struct Left {
    written: Bytes,
    synced: Bytes,
}

fn left_of(alloc: Global, mut files: Files<Fuse<Memory>>) -> Option<Left> {
    let written = bytes_of(alloc, &files)?;
    stop(&mut files);
    let synced = bytes_of(alloc, &files)?;
    Some(Left { written, synced })
}

// Whether the journal has both records.
fn has_both<S: Alter + Drop>(alloc: Global, journal: SqlStable<S>) -> bool {
    let mut desk = Desk::with(alloc, journal);
    let has_both = desk.holds(TWO);
    drop(desk);
    has_both
}

// Whether the journal is found in files with these bytes, and has both records.
fn is_whole(alloc: Global, log: &[u8], db: &[u8]) -> bool {
    match journal_of(alloc, (log, u64::MAX), (db, u64::MAX)) {
        Some(journal) => has_both(alloc, journal),
        None => false,
    }
}

// Whether both records are found, even if unsynced writes of either file are lost.
fn are_whole(alloc: Global, left: &Left) -> bool {
    let (written, synced) = (&left.written, &left.synced);
    is_whole(alloc, &written.log, &written.db)
        && is_whole(alloc, &written.log, &synced.db)
        && is_whole(alloc, &synced.log, &written.db)
        && is_whole(alloc, &synced.log, &synced.db)
}

// The same without the log.
fn is_alone(alloc: Global, left: &Left) -> bool {
    is_whole(alloc, b"", &left.written.db) && is_whole(alloc, b"", &left.synced.db)
}

// Closes a journal. Says whether that worked, and returns its files.
fn close<D: Disk + Drop>(journal: Journal<D>) -> (bool, Files<D>) {
    match journal.close() {
        Ok(copied) => (true, copied.into_files()),
        Err((_fault, files)) => (false, files),
    }
}

// Whether a journal is closed without a fault. `None` if what it leaves lacks a record. The records
// are looked for in both files and, if it was closed, also in the database file alone.
fn is_closed(alloc: Global, journal: Journal<Fuse<Memory>>) -> Option<bool> {
    let (is_closed, files) = close(journal);
    let left = left_of(alloc, files)?;
    if are_whole(alloc, &left) && (!is_closed || is_alone(alloc, &left)) {
        Some(is_closed)
    } else {
        None
    }
}

// Counts the closes that fail. The first one fails at the first call of a log or of a database file
// after the opening. The next fails at the second call, and so on until one succeeds. Before it,
// the log has both records, and the database file has none.
fn count_failed_closes(alloc: Global, is_log: bool) -> Option<u64> {
    let Bytes { log, db } = write_records(alloc, TWO)?;
    let mut met = 0;
    for calls in 0..200 {
        let (log_calls, db_calls) = if is_log {
            (calls, u64::MAX)
        } else {
            (u64::MAX, calls)
        };
        if let Some(journal) = journal_of(alloc, (&log, log_calls), (&db, db_calls)) {
            if is_closed(alloc, journal)? {
                return Some(met);
            }
            met = u64::saturating_add(met, 1);
        }
    }
    None
}

/// Which file fails, and the least number of closes that fail.
static FILES: [(&'static str, bool, u64); 2] = [
    ("the log", true, 2),
    ("the database file", false, 2),
];

#[test]
fn a_close_that_fails_at_any_call_loses_no_record(rt: HostRuntime) -> Result<(), Fail> {
    for (name, is_log, least) in &FILES {
        let met = count_failed_closes(rt.alloc(), *is_log).unwrap_or(0);
        if met < *least {
            return Err(Fail::new(format_args!("{name}: {met} closes")));
        }
    }
    Ok(())
}

const FOLDER: &str = "urb_sqlite_closing";

const FILE: &str = "urb_sqlite_closing/node-1.db";

const LOG: &str = "urb_sqlite_closing/node-1.db-wal";

// Stores both records. Says whether that worked, and returns the journal.
fn store_both<S: Alter + Drop>(
    alloc: Global,
    journal: SqlStable<S>,
) -> (bool, Option<SqlStable<S>>) {
    let mut desk = Desk::with(alloc, journal);
    let are_stored = desk.store(1, TWO[0]) == Some(Ok(())) && desk.store(2, TWO[1]) == Some(Ok(()));
    let journal = desk.take();
    drop(desk);
    (are_stored, journal)
}

// Why a journal in a real file can't be closed: two records are stored, and then another program
// empties its log.
fn fault_of(rt: &HostRuntime) -> Option<StoreFault> {
    let (are_stored, journal) = store_both(rt.alloc(), SqlStable::open(rt, FILE).ok()?);
    let is_emptied = fs::write(rt, LOG, b"").is_ok();
    match journal?.close_at(rt, FILE) {
        Err(fault) if are_stored && is_emptied => Some(fault),
        _ => None,
    }
}

#[test]
fn a_journal_that_cannot_be_copied_keeps_both_files(rt: HostRuntime) -> Result<(), Fail> {
    let _ = fs::remove_dir_all(&rt, FOLDER);
    fs::create_dir(&rt, FOLDER)?;
    let fault = fault_of(&rt);
    let are_left = fs::metadata(&rt, FILE).is_ok() && fs::metadata(&rt, LOG).is_ok();
    fs::remove_dir_all(&rt, FOLDER)?;
    assert_eq!(rt; (are_left, fault), (true, Some(StoreFault::Device)));
    Ok(())
}
