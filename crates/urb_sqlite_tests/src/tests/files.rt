//! A journal in a real file. It is closed and opened again, damaged, and written by stock SQLite.

use super::desks::Desk;
use super::records::{Form, Load, TWO};
use super::steps::{Step, play};
use super::tables::{THIRD, THREE};
use sqlite::{Alter, Connection};
use std::alloc::Global;
use std::fs;
use std::rt::HostRuntime;
use std::test::Fail;
use urb_sqlite::SqlStable;
use urb_stable::StoreFault;

/// The parts of a file that are not zero, each with its offset. Stock sqlite3 made the file with
/// pages of 512 bytes. It wrote the CREATE of a journal with one table, the rows of a pending
/// record and of its certificate, and ANALYZE.
static ANALYZED: [(usize, &'static [u8]); 7] = [
    (
        0,
        b"SQLite format 3\x00\x02\x00\x01\x01\x00@  \x00\x00\x00\x04\x00\x00\x00\x03",
    ),
    (43, b"\x02\x00\x00\x00\x04"),
    (59, b"\x01"),
    (
        95,
        b"\x04\x00.c\x01\x0d\x00\x00\x00\x02\x00\xd2\x00\x01\x1f\x00\xd2",
    ),
    (
        210,
        b"K\x02\x06\x17%%\x01[tablesqlite_stat1sqlite_stat1\x03\
CREATE TABLE sqlite_stat1(tbl,idx,stat)\x81^\x01\x07\x17\x1b\x1b\x01\x83\x13tablejournaljournal\x02\
CREATE TABLE journal(pos INTEGER PRIMARY KEY, kind INTEGER NOT NULL, sender INTEGER NOT NULL, \
seq INTEGER NOT NULL, client INTEGER NOT NULL, number INTEGER NOT NULL, \
payload BLOB NOT NULL) STRICT\x0d\x00\x00\x00\x02\x01\xe8\x00\x01\xf3\x01\xe8",
    ),
    (
        1000,
        b"\x09\x02\x08\x00\x01\x09\x09\x08\x08\x0c\x03\x0b\x01\x08\x00\x09\x09\x09\x01\x09\x10\x07hi\
\x0d\x00\x00\x00\x01\x01\xf2\x00\x01\xf2",
    ),
    (1522, b"\x0c\x01\x04\x1b\x00\x0fjournal2"),
];

// The bytes of that file. Its last part is its end.
fn make_stock_file(alloc: Global) -> Option<Vec<u8>> {
    let mut bytes = Vec::new(alloc);
    for (at, part) in &ANALYZED {
        bytes.resize(*at, 0).ok()?;
        bytes.extend_from_slice(part).ok()?;
    }
    Some(bytes)
}

/// What a test does with a journal's file.
#[derive(Clone, Copy)]
enum Act {
    /// Stock SQLite has written it.
    Analyzed,
    /// Opens it, plays these steps, and drops the journal.
    Dropped(&'static [Step]),
    /// The same, but closes the journal without a fault.
    Closed(&'static [Step]),
    /// Whether a log is beside it.
    HasLog(bool),
    /// Changes it by SQL.
    Sql(&'static str),
    /// It is refused twice with this fault, and its bytes stay.
    Refused(StoreFault),
    /// In a directory that doesn't exist, no file is made.
    Missing,
}

const FOLDER: &str = "urb_sqlite_file";

const FILE: &str = "urb_sqlite_file/node-1.db";

// Whether stock SQLite's file is in place.
fn is_written(rt: &HostRuntime) -> bool {
    match make_stock_file(rt.alloc()) {
        Some(bytes) => fs::write(rt, FILE, bytes.as_slice()).is_ok(),
        None => false,
    }
}

// Whether a journal answers each step as expected, and the journal.
fn play_over<S: Alter + Drop>(
    alloc: Global,
    journal: SqlStable<S>,
    steps: &[Step],
) -> (bool, Option<SqlStable<S>>) {
    let mut desk = Desk::with(alloc, journal);
    let is_played = play(&mut desk, steps).is_none();
    let journal = desk.take();
    drop(desk);
    (is_played, journal)
}

/// Whether the journal at this path answers each step as expected.
pub fn is_played(rt: &HostRuntime, path: &str, steps: &[Step], is_closed: bool) -> bool {
    let Ok(journal) = SqlStable::open(rt, path) else {
        return false;
    };
    let (is_played, journal) = play_over(rt.alloc(), journal, steps);
    match journal {
        Some(journal) if is_closed => is_played && journal.close_at(rt, path).is_ok(),
        _ => is_played,
    }
}

/// Changes the file at this path by SQL and closes it, and says whether that worked.
pub fn is_damaged(rt: &HostRuntime, path: &str, sql: &str) -> bool {
    let Ok(mut conn) = Connection::open(rt, path) else {
        return false;
    };
    let is_changed = conn.execute_batch(sql).is_ok();
    is_changed && conn.close().is_ok()
}

// Whether the file is refused with this fault.
fn is_refused(rt: &HostRuntime, path: &str, fault: StoreFault) -> bool {
    match SqlStable::open(rt, path) {
        Ok(journal) => {
            drop(journal);
            false
        }
        Err(met) => met == fault,
    }
}

// Whether it is refused with this fault twice, and its bytes stay.
fn is_left(rt: &HostRuntime, fault: StoreFault) -> Option<bool> {
    let before = fs::read(rt, FILE).ok()?;
    let are_refused = is_refused(rt, FILE, fault) && is_refused(rt, FILE, fault);
    let after = fs::read(rt, FILE).ok()?;
    Some(are_refused && before.as_slice() == after.as_slice())
}

// Whether it goes as expected.
fn is_right(rt: &HostRuntime, act: Act) -> bool {
    match act {
        Act::Analyzed => is_written(rt),
        Act::Dropped(steps) => is_played(rt, FILE, steps, false),
        Act::Closed(steps) => is_played(rt, FILE, steps, true),
        Act::HasLog(is_there) => fs::metadata(rt, "urb_sqlite_file/node-1.db-wal").is_ok()
            == is_there,
        Act::Sql(sql) => is_damaged(rt, FILE, sql),
        Act::Refused(fault) => is_left(rt, fault) == Some(true),
        Act::Missing => is_refused(rt, "urb_sqlite_file/none/node-1.db", StoreFault::Device),
    }
}

/// Stores the first two records.
const BEGUN: &[Step] = &[
    Step::Store(1, (Form::Pending, 1, Load::Of(b"hi")), Ok(())),
    Step::Store(2, (Form::Certificate, 1, Load::Of(b"")), Ok(())),
];

/// Finds them.
const FOUND: &[Step] = &[Step::Stands(3, false), Step::Holds(TWO)];

/// The two records of the first table stay, and the third goes into the second table.
const GROWN: &[Step] = &[
    Step::Holds(TWO),
    Step::Store(3, THIRD, Ok(())),
    Step::Holds(THREE),
];

const ALL: &[Step] = &[Step::Stands(4, false), Step::Holds(THREE)];

/// What a test does with one file, step by step.
static FILES: [(&'static str, &'static [Act]); 7] = [
    (
        "a file that was let go is found with its records",
        &[Act::Dropped(BEGUN), Act::Dropped(FOUND), Act::Missing],
    ),
    (
        "a journal that was closed is one file",
        &[
            Act::Dropped(BEGUN),
            Act::HasLog(true),
            Act::Closed(FOUND),
            Act::HasLog(false),
            Act::Dropped(FOUND),
        ],
    ),
    (
        "a table of statistics takes nothing from a journal",
        &[Act::Analyzed, Act::Closed(GROWN), Act::Dropped(ALL)],
    ),
    (
        "a kind that no record has",
        &[
            Act::Analyzed,
            Act::Sql("UPDATE journal SET kind = 4 WHERE pos = 2"),
            Act::Refused(StoreFault::BadRow(2)),
        ],
    ),
    (
        "a row that is gone",
        &[
            Act::Analyzed,
            Act::Sql("DELETE FROM journal WHERE pos = 1"),
            Act::Refused(StoreFault::BadRow(1)),
        ],
    ),
    (
        "a view in the place of the first table",
        &[
            Act::Analyzed,
            Act::Sql("DROP TABLE journal; CREATE VIEW journal AS SELECT 1 AS pos"),
            Act::Refused(StoreFault::Device),
        ],
    ),
    (
        "another table in the place of the second one",
        &[
            Act::Analyzed,
            Act::Sql("CREATE TABLE journal2(x INTEGER)"),
            Act::Refused(StoreFault::Device),
        ],
    ),
];

#[test]
fn a_file_keeps_its_records_or_is_refused(rt: HostRuntime) -> Result<(), Fail> {
    for (name, acts) in &FILES {
        let _ = fs::remove_dir_all(&rt, FOLDER);
        fs::create_dir(&rt, FOLDER)?;
        for (at, act) in acts.iter().enumerate() {
            if !is_right(&rt, *act) {
                return Err(Fail::new(format_args!("{name}: act {at}, from 0")));
            }
        }
    }
    fs::remove_dir_all(&rt, FOLDER)?;
    Ok(())
}
