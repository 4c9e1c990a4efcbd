//! A first start that was stopped, and files of older programs: what an opening finds in them, and
//! the size of their pages.

use super::desks::Desk;
use super::leftovers::{
    BEGUN, BEGUN_BEFORE, Content, EMPTY, FILE, Left, NONE, PAGE, PAGE_BEFORE, is_left, is_made,
};
use super::records::{Form, Kept, Load, TWO};
use sqlite::Alter;
use std::alloc::Global;
use std::fs;
use std::marker::Brand;
use std::rt::HostRuntime;
use std::test::Fail;
use urb_sqlite::{FolderClaim, NodeClaim, NodeDisk, NodeFile, SqlStable, close_node, open_node};
use urb_stable::StoreFault;

const FOLDER: &str = "urb_sqlite_first";

/// A case: the files before the opening, the records that the opened journal returns, its next
/// position, and the size of its pages.
struct Case {
    name: &'static str,
    left: Left,
    kept: &'static [Kept],
    next: u32,
    pages: usize,
}

/// The statements that make the two tables.
const CREATE: &str = "CREATE TABLE journal(pos INTEGER PRIMARY KEY, kind INTEGER NOT NULL, \
sender INTEGER NOT NULL, seq INTEGER NOT NULL, client INTEGER NOT NULL, \
number INTEGER NOT NULL, payload BLOB NOT NULL) STRICT";

const CREATE_BOTH: &str = "CREATE TABLE journal(pos INTEGER PRIMARY KEY, kind INTEGER NOT NULL, \
sender INTEGER NOT NULL, seq INTEGER NOT NULL, client INTEGER NOT NULL, \
number INTEGER NOT NULL, payload BLOB NOT NULL) STRICT; \
CREATE TABLE journal2(pos INTEGER PRIMARY KEY, kind INTEGER NOT NULL, \
sender INTEGER NOT NULL, seq INTEGER NOT NULL, client INTEGER NOT NULL, \
number INTEGER NOT NULL, payload BLOB NOT NULL) STRICT";

const CREATE_SECOND: &str = "CREATE TABLE journal2(pos INTEGER PRIMARY KEY, kind INTEGER NOT NULL, \
sender INTEGER NOT NULL, seq INTEGER NOT NULL, client INTEGER NOT NULL, \
number INTEGER NOT NULL, payload BLOB NOT NULL) STRICT";

/// The records of a file from before there were two tables.
const OLD: &str = "CREATE TABLE journal(pos INTEGER PRIMARY KEY, kind INTEGER NOT NULL, \
sender INTEGER NOT NULL, seq INTEGER NOT NULL, client INTEGER NOT NULL, \
number INTEGER NOT NULL, payload BLOB NOT NULL) STRICT; INSERT INTO journal VALUES (1, 1, \
1, 1, 7, 1, x'6869'); INSERT INTO journal VALUES (2, 3, 1, 1, 0, 0, x'')";

/// The same records in the second table. There is no first table, and the second is between other
/// tables.
const SECOND: &str =
    "CREATE TABLE other(x INTEGER); CREATE TABLE journal2(pos INTEGER PRIMARY KEY, \
kind INTEGER NOT NULL, sender INTEGER NOT NULL, seq INTEGER NOT NULL, \
client INTEGER NOT NULL, number INTEGER NOT NULL, payload BLOB NOT NULL) STRICT; \
CREATE TABLE more(x INTEGER); INSERT INTO journal2 VALUES (1, 1, 1, 1, 7, 1, x'6869'); \
INSERT INTO journal2 VALUES (2, 3, 1, 1, 0, 0, x'')";

/// Other tables alone. One of them counts its rows in a table of SQLite's own.
const OTHERS: &str = "CREATE TABLE other(x INTEGER); INSERT INTO other VALUES (1); \
CREATE TABLE more(x INTEGER PRIMARY KEY AUTOINCREMENT); INSERT INTO more VALUES (7)";

/// What a first start leaves if it is stopped before its first CREATE is committed.
static UNMADE: [Case; 11] = [
    Case {
        name: "an empty file",
        left: Left::Files(NONE, NONE),
        kept: &[],
        next: 1,
        pages: 1024,
    },
    Case {
        name: "a log alone that has begun",
        left: Left::Log(BEGUN),
        kept: &[],
        next: 1,
        pages: 1024,
    },
    Case {
        name: "an empty file beside a log that has begun",
        left: Left::Files(NONE, BEGUN),
        kept: &[],
        next: 1,
        pages: 1024,
    },
    Case {
        name: "an empty file beside a log of an older program that has begun",
        left: Left::Files(NONE, BEGUN_BEFORE),
        kept: &[],
        next: 1,
        pages: 1024,
    },
    Case {
        name: "an empty file beside a log of other bytes",
        left: Left::Files(NONE, EMPTY),
        kept: &[],
        next: 1,
        pages: 1024,
    },
    Case {
        name: "a file of one byte",
        left: Left::Files(
            Content {
                parts: &[(0, b"S")],
                len: 1,
            },
            BEGUN,
        ),
        kept: &[],
        next: 1,
        pages: 1024,
    },
    Case {
        name: "a part of a page, of zeros",
        left: Left::Files(
            Content {
                parts: &[],
                len: 500,
            },
            BEGUN,
        ),
        kept: &[],
        next: 1,
        pages: 1024,
    },
    Case {
        name: "a first page less its first byte",
        left: Left::Files(PAGE, BEGUN),
        kept: &[],
        next: 1,
        pages: 1024,
    },
    Case {
        name: "the first page of an older program less its first byte",
        left: Left::Files(PAGE_BEFORE, BEGUN_BEFORE),
        kept: &[],
        next: 1,
        pages: 4096,
    },
    Case {
        name: "a database without a table",
        left: Left::Files(EMPTY, BEGUN),
        kept: &[],
        next: 1,
        pages: 1024,
    },
    Case {
        name: "the same without its log",
        left: Left::Files(EMPTY, NONE),
        kept: &[],
        next: 1,
        pages: 1024,
    },
];

/// A database of an older program that was stopped before, between and after its two CREATE
/// statements, and other content.
static BEFORE: [Case; 7] = [
    Case {
        name: "a database of an older program without a table",
        left: Left::Sql(""),
        kept: &[],
        next: 1,
        pages: 4096,
    },
    Case {
        name: "the first table alone",
        left: Left::Sql(CREATE),
        kept: &[],
        next: 1,
        pages: 4096,
    },
    Case {
        name: "both tables",
        left: Left::Sql(CREATE_BOTH),
        kept: &[],
        next: 1,
        pages: 4096,
    },
    Case {
        name: "the second table alone",
        left: Left::Sql(CREATE_SECOND),
        kept: &[],
        next: 1,
        pages: 4096,
    },
    Case {
        name: "other tables alone",
        left: Left::Sql(OTHERS),
        kept: &[],
        next: 1,
        pages: 4096,
    },
    Case {
        name: "the first table with records",
        left: Left::Sql(OLD),
        kept: TWO,
        next: 3,
        pages: 4096,
    },
    Case {
        name: "the second table alone with records",
        left: Left::Sql(SECOND),
        kept: TWO,
        next: 3,
        pages: 4096,
    },
];

/// A record that is stored after those that are there.
const MORE: Kept = (Form::Certificate, 9, Load::Of(b""));

// The right to open the files of node 1.
fn first_claim() -> Option<NodeClaim<NodeFile<Brand>>> {
    let mut claims = FolderClaim::new().into_nodes();
    claims.take_next()
}

// Whether a journal is at this position. If records are given, it has these, and takes one more.
// The journal is returned.
fn judge_opened<S: Alter + Drop>(
    alloc: Global,
    journal: SqlStable<S>,
    kept: Option<&[Kept]>,
    next: u32,
) -> (bool, Option<SqlStable<S>>) {
    let mut desk = Desk::with(alloc, journal);
    let mut is_so = desk.stand() == Some((next, false));
    if let Some(kept) = kept {
        is_so = is_so && desk.holds(kept) && desk.store(next, MORE) == Some(Ok(()));
    }
    let journal = desk.take();
    drop(desk);
    (is_so, journal)
}

// Whether node 1's journal opens at this position, and can be closed. If records are given, it has
// these, and takes one more.
fn is_opened_by<D: NodeDisk>(
    rt: &HostRuntime,
    claim: NodeClaim<D>,
    kept: Option<&[Kept]>,
    next: u32,
) -> bool {
    let Ok(journal) = open_node(rt, FILE, claim) else {
        return false;
    };
    match judge_opened(rt.alloc(), journal, kept, next) {
        (is_so, Some(journal)) => close_node(rt, FILE, journal).is_ok() && is_so,
        _ => false,
    }
}

// The same for the type of files that programs use.
fn is_opened(rt: &HostRuntime, kept: Option<&[Kept]>, next: u32) -> bool {
    match first_claim() {
        Some(claim) => is_opened_by(rt, claim, kept, next),
        None => false,
    }
}

// The size of the pages of the closed file.
fn pages(rt: &HostRuntime) -> Option<usize> {
    let bytes = fs::read(rt, FILE).ok()?;
    let (high, low) = (*bytes.get(16)?, *bytes.get(17)?);
    Some(usize::from(high) * 256 + usize::from(low))
}

// What goes wrong, if anything, when a node's files are as in the case and are opened twice.
fn fault_of(rt: &HostRuntime, case: &Case) -> Option<&'static str> {
    if !is_left(rt, case.left) {
        Some("it is not there")
    } else if !is_opened(rt, Some(case.kept), case.next) {
        Some("it does not open with its records")
    } else if pages(rt) != Some(case.pages) {
        Some("its pages have another size")
    } else if !is_opened(rt, None, u32::saturating_add(case.next, 1)) {
        Some("the new record is lost")
    } else {
        None
    }
}

// Plays each case in a folder of its own.
fn are_right(rt: &HostRuntime, cases: &[Case]) -> Result<(), Fail> {
    for case in cases {
        let _ = fs::remove_dir_all(rt, FOLDER);
        fs::create_dir(rt, FOLDER)?;
        if let Some(fault) = fault_of(rt, case) {
            let (name, got) = (case.name, pages(rt).unwrap_or(0));
            let wanted = case.pages;
            return Err(Fail::new(format_args!(
                "{name}: {fault}; pages of {wanted} wanted, {got} got"
            )));
        }
    }
    fs::remove_dir_all(rt, FOLDER)?;
    Ok(())
}

#[test]
fn a_first_start_that_left_no_table_is_finished(rt: HostRuntime) -> Result<(), Fail> {
    are_right(&rt, &UNMADE)
}

#[test]
fn an_older_file_keeps_its_pages_and_records(rt: HostRuntime) -> Result<(), Fail> {
    are_right(&rt, &BEFORE)
}

/// What SQL does to a second table without a first one, and the place of the first row that is then
/// no record.
static BAD: [(&'static str, u32); 3] = [
    ("UPDATE journal2 SET pos = 3 WHERE pos = 2", 2),
    ("DELETE FROM journal2 WHERE pos = 1", 1),
    ("UPDATE journal2 SET kind = 4", 1),
];

// Whether the journal is refused because of this row.
fn is_refused_by<D: NodeDisk>(rt: &HostRuntime, claim: NodeClaim<D>, place: u32) -> bool {
    match open_node(rt, FILE, claim) {
        Ok(journal) => {
            drop(journal);
            false
        }
        Err(fault) => fault == StoreFault::BadRow(place),
    }
}

// The same for the type of files that programs use.
fn is_refused(rt: &HostRuntime, place: u32) -> bool {
    match first_claim() {
        Some(claim) => is_refused_by(rt, claim, place),
        None => false,
    }
}

#[test]
fn a_second_table_alone_is_refused_for_its_first_bad_row(rt: HostRuntime) -> Result<(), Fail> {
    for (sql, place) in &BAD {
        let _ = fs::remove_dir_all(&rt, FOLDER);
        fs::create_dir(&rt, FOLDER)?;
        if !is_made(&rt, SECOND) || !is_made(&rt, sql) {
            return Err(Fail::new(format_args!("{sql}: it is not there")));
        }
        if !is_refused(&rt, *place) || !is_refused(&rt, *place) {
            return Err(Fail::new(format_args!("{sql}: not BadRow({place}), twice")));
        }
    }
    fs::remove_dir_all(&rt, FOLDER)?;
    Ok(())
}
