//! A group over three real files, which are closed and opened again, damaged, or exchanged.

use super::files::{is_damaged, is_played};
use super::group::{DELIVERY, Event, REPEAT, Said, Told, run, three};
use super::records::{Form, Kept, Load, record_of};
use super::steps::Step;
use std::alloc::Global;
use std::fs;
use std::rt::HostRuntime;
use std::test::Fail;
use urb_sqlite::{FolderClaim, NodeDisk, close_nodes, open_nodes};
use urb_stable::{Stable, StoreFault};

const FOLDER: &str = "urb_sqlite_folder";

const ONE: &str = "urb_sqlite_folder/node-1.db";

const TWO: &str = "urb_sqlite_folder/node-2.db";

const THREE: &str = "urb_sqlite_folder/node-3.db";

/// What was done to the files of a group that has delivered the message.
#[derive(Clone, Copy)]
enum Damage {
    Nothing,
    /// SQL has changed this file.
    Sql(&'static str),
    /// Node 1 and this node have got each other's file.
    Exchanged(&'static str),
}

/// The first report of a group that delivers the message.
const DELIVERED: Told = Told {
    logs: [true, true, false],
    is_accepted: true,
    is_same: false,
    is_down: false,
};

/// Its report after it is opened again, by whether its first node has the message.
const AGAIN: Told = Told {
    logs: [true, true, false],
    is_accepted: true,
    is_same: true,
    is_down: false,
};

const SHORTER: Told = Told {
    logs: [false, true, false],
    is_accepted: true,
    is_same: true,
    is_down: false,
};

/// The SQL or its name, what was done, and what the group says after it.
static DAMAGES: [(&'static str, Damage, Said); 18] = [
    ("nothing", Damage::Nothing, Said::Told(AGAIN)),
    (
        "DELETE FROM journal2 WHERE pos = 1",
        Damage::Sql(ONE),
        Said::Fault(1, StoreFault::BadRow(1)),
    ),
    (
        "UPDATE journal2 SET kind = 4 WHERE pos = 2",
        Damage::Sql(ONE),
        Said::Fault(1, StoreFault::BadRow(2)),
    ),
    (
        "UPDATE journal2 SET kind = 3, payload = x'61' WHERE pos = 2",
        Damage::Sql(ONE),
        Said::Fault(1, StoreFault::BadRow(2)),
    ),
    (
        "INSERT INTO journal VALUES (1, 1, 1, 1, 7, 1, x'61')",
        Damage::Sql(ONE),
        Said::Fault(1, StoreFault::BadRow(2)),
    ),
    (
        "INSERT INTO journal VALUES (2, 3, 1, 1, 0, 0, x'')",
        Damage::Sql(ONE),
        Said::Fault(1, StoreFault::BadRow(1)),
    ),
    (
        "UPDATE journal2 SET sender = 0",
        Damage::Sql(TWO),
        Said::Fault(2, StoreFault::BadRow(1)),
    ),
    (
        "UPDATE journal2 SET client = 0",
        Damage::Sql(TWO),
        Said::Fault(2, StoreFault::BadRow(1)),
    ),
    (
        "INSERT INTO journal VALUES (1, 1, 0, 1, 7, 1, x'61')",
        Damage::Sql(THREE),
        Said::Fault(3, StoreFault::BadRow(1)),
    ),
    (
        "INSERT INTO journal VALUES (1, 1, 1, 1, 0, 1, x'61')",
        Damage::Sql(THREE),
        Said::Fault(3, StoreFault::BadRow(1)),
    ),
    (
        "DROP TABLE journal; CREATE TABLE journal(x INTEGER)",
        Damage::Sql(TWO),
        Said::Fault(2, StoreFault::Device),
    ),
    (
        "DROP TABLE journal2; CREATE TABLE journal2(x INTEGER)",
        Damage::Sql(TWO),
        Said::Fault(2, StoreFault::Device),
    ),
    (
        "DROP TABLE journal; CREATE VIEW journal AS SELECT 1 AS pos",
        Damage::Sql(ONE),
        Said::Fault(1, StoreFault::Device),
    ),
    (
        "DROP TABLE journal2; CREATE VIEW journal2 AS SELECT 1 AS pos",
        Damage::Sql(ONE),
        Said::Fault(1, StoreFault::Device),
    ),
    (
        "DELETE FROM journal2 WHERE pos = 2",
        Damage::Sql(ONE),
        Said::Told(SHORTER),
    ),
    ("DELETE FROM journal2", Damage::Sql(ONE), Said::Unsent),
    ("nodes 1 and 2", Damage::Exchanged(TWO), Said::Told(AGAIN)),
    ("nodes 1 and 3", Damage::Exchanged(THREE), Said::Unsent),
];

// What the group over the files of this claim says about the events. Its journals are closed.
fn run_over_claimed<D: NodeDisk>(
    rt: &HostRuntime,
    claim: FolderClaim<D>,
    events: &[Event],
) -> Said {
    match open_nodes(rt, FOLDER, three(), claim) {
        Ok(journals) => {
            let (journals, said) = run(rt.alloc(), journals, events);
            if close_nodes(rt, FOLDER, journals).is_ok() {
                said
            } else {
                Said::Other
            }
        }
        Err((node, fault)) => Said::Fault(node.number(), fault),
    }
}

// The same for the type of files that programs use.
fn run_over_files(rt: &HostRuntime, events: &[Event]) -> Said {
    run_over_claimed(rt, FolderClaim::new(), events)
}

// Whether the group says so twice.
fn is_said(rt: &HostRuntime, wanted: Said) -> bool {
    run_over_files(rt, &REPEAT) == wanted && run_over_files(rt, &REPEAT) == wanted
}

// Whether the group says so twice, and the bytes of this file stay.
fn is_left(rt: &HostRuntime, path: &str, wanted: Said) -> Option<bool> {
    let before = fs::read(rt, path).ok()?;
    let is_said = is_said(rt, wanted);
    let after = fs::read(rt, path).ok()?;
    Some(is_said && before.as_slice() == after.as_slice())
}

// Whether node 1 and the other node have got each other's file.
fn are_exchanged(rt: &HostRuntime, other: &str) -> bool {
    fs::rename(rt, ONE, "urb_sqlite_folder/between").is_ok()
        && fs::rename(rt, other, ONE).is_ok()
        && fs::rename(rt, "urb_sqlite_folder/between", other).is_ok()
}

// Whether a group delivers the message, is closed, and says what is expected after the damage.
fn is_right(rt: &HostRuntime, (sql, damage, wanted): &(&str, Damage, Said)) -> bool {
    if run_over_files(rt, &DELIVERY) != Said::Told(DELIVERED) {
        return false;
    }
    // A closed journal is one file.
    let is_whole = fs::metadata(rt, "urb_sqlite_folder/node-1.db-wal").is_err();
    let is_so = match (damage, wanted) {
        (Damage::Nothing, _) => is_said(rt, *wanted),
        (Damage::Sql(path), Said::Fault(_, _)) => {
            is_damaged(rt, path, sql) && is_left(rt, path, *wanted) == Some(true)
        }
        (Damage::Sql(path), _) => is_damaged(rt, path, sql) && is_said(rt, *wanted),
        (Damage::Exchanged(path), _) => are_exchanged(rt, path) && is_said(rt, *wanted),
    };
    is_whole && is_so
}

// Whether the journals of new files are opened and closed.
fn are_made<D: NodeDisk>(rt: &HostRuntime, claim: FolderClaim<D>) -> bool {
    match open_nodes(rt, FOLDER, three(), claim) {
        Ok(journals) => close_nodes(rt, FOLDER, journals).is_ok(),
        Err(_) => false,
    }
}

#[test]
fn a_file_that_is_new_has_small_pages(rt: HostRuntime) -> Result<(), Fail> {
    let _ = fs::remove_dir_all(&rt, FOLDER);
    fs::create_dir(&rt, FOLDER)?;
    let are_made = are_made(&rt, FolderClaim::new());
    let bytes = fs::read(&rt, ONE)?;
    fs::remove_dir_all(&rt, FOLDER)?;
    // The page size is in bytes 16 and 17, the higher one first.
    if !are_made || bytes.get(16) != Some(&4) || bytes.get(17) != Some(&0) {
        return Err(Fail::new(format_args!("pages of another size")));
    }
    Ok(())
}

#[test]
fn a_group_over_files_says_what_they_hold(rt: HostRuntime) -> Result<(), Fail> {
    for row in &DAMAGES {
        let _ = fs::remove_dir_all(&rt, FOLDER);
        fs::create_dir(&rt, FOLDER)?;
        if !is_right(&rt, row) {
            return Err(Fail::new(format_args!("after {}", row.0)));
        }
    }
    fs::remove_dir_all(&rt, FOLDER)?;
    Ok(())
}

/// The record that each node stores, its file, and what the file holds after it.
static OWN: [(Kept, &'static str, &'static str, &'static [Step]); 3] = [
    (
        (Form::Certificate, 1, Load::Of(b"")),
        "urb_sqlite_nodes/node-1.db",
        "urb_sqlite_nodes/node-1.db-wal",
        &[Step::Holds(&[(Form::Certificate, 1, Load::Of(b""))])],
    ),
    (
        (Form::Certificate, 2, Load::Of(b"")),
        "urb_sqlite_nodes/node-2.db",
        "urb_sqlite_nodes/node-2.db-wal",
        &[Step::Holds(&[(Form::Certificate, 2, Load::Of(b""))])],
    ),
    (
        (Form::Certificate, 3, Load::Of(b"")),
        "urb_sqlite_nodes/node-3.db",
        "urb_sqlite_nodes/node-3.db-wal",
        &[Step::Holds(&[(Form::Certificate, 3, Load::Of(b""))])],
    ),
];

// Whether each store takes its node's record.
fn are_stored<S: Stable<Alloc = Global>>(alloc: Global, stores: &mut [S]) -> bool {
    for (store, (row, _, _, _)) in stores.iter_mut().zip(&OWN) {
        let Some(record) = record_of(alloc, *row) else {
            return false;
        };
        let is_stored = store.store(1, &record).is_ok();
        drop(record);
        if !is_stored {
            return false;
        }
    }
    stores.len() == 3
}

// Whether a group's journals are opened, store a record each, and are closed.
fn are_closed<D: NodeDisk>(rt: &HostRuntime, claim: FolderClaim<D>) -> bool {
    match open_nodes(rt, "urb_sqlite_nodes", three(), claim) {
        Ok(mut journals) => {
            let are_stored = are_stored(rt.alloc(), &mut journals);
            close_nodes(rt, "urb_sqlite_nodes", journals).is_ok() && are_stored
        }
        Err(_) => false,
    }
}

#[test]
fn each_node_has_a_file_of_its_own(rt: HostRuntime) -> Result<(), Fail> {
    let _ = fs::remove_dir_all(&rt, "urb_sqlite_nodes");
    fs::create_dir(&rt, "urb_sqlite_nodes")?;
    let mut is_so = are_closed(&rt, FolderClaim::new());
    for (_, path, log, steps) in &OWN {
        is_so = is_so && fs::metadata(&rt, log).is_err() && is_played(&rt, path, steps, false);
    }
    assert!(rt; is_so);
    fs::remove_dir_all(&rt, "urb_sqlite_nodes")?;
    Ok(())
}
