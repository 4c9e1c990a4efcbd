//! A journal over files in memory that stop at one of their calls.

use super::desks::Desk;
use super::disks::{Journal, connect, files_of, make_files, open_journal, stop};
use super::records::{TWO, record_of};
use sqlite::{Alter, Connection, Files, Options};
use sqlite_disk::Crash;
use std::alloc::Global;
use std::test::Fail;
use urb_sqlite::SqlStable;
use urb_stable::Record;

// Opens the journal over a connection, and stores both records. Returns how many are stored before
// a refusal, and the connection.
fn store_both<S: Alter + Drop>(
    alloc: Global,
    conn: Connection<S>,
) -> (usize, Option<Connection<S>>) {
    let mut desk = Desk::over(alloc, conn);
    let done = if !desk.is_open() || desk.store(1, TWO[0]) != Some(Ok(())) {
        0
    } else if desk.store(2, TWO[1]) != Some(Ok(())) {
        1
    } else {
        2
    };
    (done, desk.into_connection())
}

// Opens the journal over a connection, and stores the first record. Returns the journal or, after a
// refusal, the connection.
fn store_first<S: Alter + Drop>(
    alloc: Global,
    conn: Connection<S>,
) -> Result<SqlStable<S>, Option<Connection<S>>> {
    let mut desk = Desk::over(alloc, conn);
    let is_stored = desk.is_open() && desk.store(1, TWO[0]) == Some(Ok(()));
    let journal = if is_stored { desk.take() } else { None };
    match journal {
        Some(journal) => {
            drop(desk);
            Ok(journal)
        }
        None => Err(desk.into_connection()),
    }
}

// The given number of records, if at least as many are found, and these are the first of both.
fn judge_found<S: Alter + Drop>(
    alloc: Global,
    journal: SqlStable<S>,
    done: usize,
) -> Option<usize> {
    let mut desk = Desk::with(alloc, journal);
    let are_found = are_found(&mut desk, done);
    drop(desk);
    if are_found { Some(done) } else { None }
}

// Whether at least the given number of records is found, and whether these are the first of both.
fn are_found<S: Alter + Drop>(desk: &mut Desk<S>, least: usize) -> bool {
    for count in least..3 {
        if desk.stand() == Some((count as u32 + 1, false)) {
            return desk.holds(&TWO[..count]);
        }
    }
    false
}

// Stops the machine. Returns the given number of records if these are found.
fn find_after_stop<D: Crash + Drop>(
    alloc: Global,
    mut files: Files<D>,
    done: usize,
) -> Option<usize> {
    stop(&mut files);
    match open_journal(alloc, files) {
        Ok(journal) => judge_found(alloc, journal, done),
        Err(_) => None,
    }
}

// How many records are stored before the machine stops. `None` if the journal afterwards finds
// neither exactly these nor both.
fn store_until_stop<D: Crash + Drop>(alloc: Global, files: Files<D>) -> Option<usize> {
    match connect(alloc, files) {
        Ok(conn) => match store_both(alloc, conn) {
            (done, Some(conn)) => find_after_stop(alloc, files_of(conn), done),
            _ => None,
        },
        Err(files) => find_after_stop(alloc, files, 0),
    }
}

// Stores the second record, and stops the machine inside this call.
fn store_and_stop<D: Crash + Drop>(
    alloc: Global,
    journal: Journal<D>,
    second: &Record,
) -> Option<usize> {
    let (stored, again) = journal.store_and_stop(alloc, Options::new(1), 2, second);
    match again {
        Ok(journal) => judge_found(alloc, journal, if stored.is_ok() { 2 } else { 1 }),
        Err(_) => None,
    }
}

// The same as `store_until_stop`, but the machine stops inside the call that stores the second
// record.
fn stop_inside<D: Crash + Drop>(alloc: Global, files: Files<D>, second: &Record) -> Option<usize> {
    match connect(alloc, files) {
        Ok(conn) => match store_first(alloc, conn) {
            Ok(journal) => store_and_stop(alloc, journal, second),
            Err(Some(conn)) => find_after_stop(alloc, files_of(conn), 0),
            Err(None) => None,
        },
        Err(files) => find_after_stop(alloc, files, 0),
    }
}

// Counts the stops that refuse a record, or the second one. The first stop is at the first call of
// a log or of a database file. The next is at the second call, and so on until nothing is refused.
fn count_stops(alloc: Global, is_log: bool, is_inside: bool) -> Option<u64> {
    let second = record_of(alloc, TWO[1])?;
    let mut met = 0;
    for calls in 0..1000 {
        let (log, db) = if is_log {
            (calls, u64::MAX)
        } else {
            (u64::MAX, calls)
        };
        let files = make_files(alloc, log, db);
        let done = if is_inside {
            stop_inside(alloc, files, &second)
        } else {
            store_until_stop(alloc, files)
        };
        match done {
            Some(2) => return Some(met),
            Some(1) => met = u64::saturating_add(met, 1),
            Some(_) if !is_inside => met = u64::saturating_add(met, 1),
            Some(_) => {}
            None => return None,
        }
    }
    None
}

/// Which file stops, where, and how many stops are met at least.
static STOPS: [(&'static str, bool, bool, u64); 3] = [
    ("the log", true, false, 20),
    ("the database file", false, false, 1),
    ("the log, in the call that stores and stops", true, true, 2),
];

#[test]
fn a_stop_at_any_call_loses_no_record(rt: HostRuntime) -> Result<(), Fail> {
    for (name, is_log, is_inside, least) in &STOPS {
        let met = count_stops(rt.alloc(), *is_log, *is_inside).unwrap_or(0);
        if met < *least {
            return Err(Fail::new(format_args!("{name}: {met} stops")));
        }
    }
    Ok(())
}
