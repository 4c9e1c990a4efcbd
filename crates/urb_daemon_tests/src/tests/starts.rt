//! What a start finds in its folder: journals that are half made, damaged, missing, exchanged, or
//! of nodes that the group doesn't have.

use super::visits::{Leave, contents, is_cleared, open_and_leave, visit};
use sqlite::Connection;
use std::fs;
use std::net::{Net, TcpListener, TcpStream};
use std::rt::HostRuntime;
use std::test::Fail;
use std::thread::Threads;
use urb_daemon::Host;
use urb_options::Fault;

const FOLDER: &str = "urbd_starts";

const ONE: &str = "urbd_starts/node-1.db";

const TWO: &str = "urbd_starts/node-2.db";

const THREE: &str = "urbd_starts/node-3.db";

const DEVICE: Result<(), Fault> = Err(Fault::Refused(15, 0));

const MISFIT: Result<(), Fault> = Err(Fault::Refused(14, 0));

// Runs SQL on the file at this path, which is made if it doesn't exist, and closes it. Says whether
// that worked.
pub(super) fn is_changed(rt: &HostRuntime, path: &str, sql: &str) -> bool {
    let Ok(mut conn) = Connection::open(rt, path) else {
        return false;
    };
    let is_changed = conn.execute_batch(sql).is_ok();
    is_changed && conn.close().is_ok()
}

// Whether a group of three has delivered a message of each node, and was ended in this way.
fn has_delivered<R>(threads: &R, rt: &HostRuntime, leave: Leave) -> bool
where
    R: Host + Net<Listener = TcpListener, Stream = TcpStream>,
{
    is_cleared(rt, FOLDER) && visit(threads, rt, FOLDER, 3, 1, leave).is_ok()
}

// Whether the group opens again with all these messages.
fn has_all<R>(threads: &R, rt: &HostRuntime) -> bool
where
    R: Host + Net<Listener = TcpListener, Stream = TcpStream>,
{
    visit(threads, rt, FOLDER, 3, 2, Leave::Closed).is_ok_and(|seen| {
        seen.are_accepted && seen.first.len() == 3 && seen.first.iter().all(|log| log.len() == 57)
    })
}

// How a start of the given number of nodes ends, and whether it left each file as it was and made
// no file.
fn start_and_compare<R: Threads + Sync>(
    threads: &R,
    rt: &HostRuntime,
    nodes: u8,
) -> (Result<(), Fault>, bool) {
    let before = contents(rt, FOLDER);
    let outcome = open_and_leave(threads, rt, FOLDER, nodes, Leave::Closed);
    (outcome, before.is_some() && contents(rt, FOLDER) == before)
}

/// The CREATE of the first of a journal's two tables.
const FIRST_TABLE: &str =
    "CREATE TABLE IF NOT EXISTS journal(pos INTEGER PRIMARY KEY, kind INTEGER NOT NULL, \
sender INTEGER NOT NULL, seq INTEGER NOT NULL, client INTEGER NOT NULL, number INTEGER NOT NULL, \
payload BLOB NOT NULL) STRICT";

#[test]
fn a_first_start_that_was_stopped_leaves_what_the_next_one_takes(
    rt: HostRuntime,
) -> Result<(), Fail> {
    // Its journals were made, and then nothing happened.
    assert!(rt; is_cleared(&rt, FOLDER));
    assert_eq!(rt; open_and_leave(&rt, &rt, FOLDER, 3, Leave::Dropped), Ok(()));
    assert!(rt; visit(&rt, &rt, FOLDER, 3, 1, Leave::Closed).is_ok_and(|seen| seen.are_accepted));
    // The start was stopped before it made one journal's tables, between another's, and after it
    // made an empty file for a third.
    assert!(rt; is_cleared(&rt, FOLDER));
    assert!(rt; is_changed(&rt, ONE, "CREATE TABLE notes(x INTEGER); DROP TABLE notes"));
    assert!(rt; is_changed(&rt, TWO, FIRST_TABLE));
    fs::write(&rt, THREE, b"".as_slice())?;
    assert!(rt; visit(&rt, &rt, FOLDER, 3, 1, Leave::Closed).is_ok_and(|seen| seen.are_accepted));
    assert!(rt; has_all(&rt, &rt));
    Ok(())
}

#[test]
fn a_journal_that_cannot_be_opened_is_refused_and_stays(rt: HostRuntime) -> Result<(), Fail> {
    assert!(rt; has_delivered(&rt, &rt, Leave::Closed));
    for (path, sql, refused) in [
        (ONE, "", DEVICE),
        (TWO, "", DEVICE),
        (
            ONE,
            "UPDATE journal2 SET kind = 4 WHERE pos = 2",
            Err(Fault::Refused(17, 2)),
        ),
        (
            THREE,
            "UPDATE journal2 SET client = 65536 WHERE pos = 1",
            Err(Fault::Refused(17, 1)),
        ),
    ] {
        let good = fs::read(&rt, path)?;
        if sql.is_empty() {
            fs::write(&rt, path, [b'x'; 4096].as_slice())?;
        } else {
            assert!(rt; is_changed(&rt, path, sql));
        }
        let bad = fs::read(&rt, path)?;
        assert_eq!(rt; open_and_leave(&rt, &rt, FOLDER, 3, Leave::Closed), refused);
        assert!(rt; fs::read(&rt, path)? == bad);
        fs::write(&rt, path, good.as_slice())?;
    }
    assert!(rt; has_all(&rt, &rt));
    Ok(())
}

// Exchanges the journals of nodes 1 and 3, and says whether that worked.
fn are_exchanged(rt: &HostRuntime) -> bool {
    let aside = "urbd_starts/aside";
    fs::rename(rt, ONE, aside).is_ok()
        && fs::rename(rt, THREE, ONE).is_ok()
        && fs::rename(rt, aside, THREE).is_ok()
}

#[test]
fn a_journal_that_is_missing_or_another_nodes_is_refused(rt: HostRuntime) -> Result<(), Fail> {
    assert!(rt; has_delivered(&rt, &rt, Leave::Closed));
    // The others hold what node 2 has sent.
    fs::rename(&rt, TWO, "urbd_starts/aside")?;
    assert_eq!(rt;
        visit(&rt, &rt, FOLDER, 3, 2, Leave::Closed).err(),
        MISFIT.err()
    );
    fs::rename(&rt, "urbd_starts/aside", TWO)?;
    assert!(rt; has_all(&rt, &rt));
    // Node 1 alone holds its message.
    assert!(rt; is_cleared(&rt, FOLDER));
    assert_eq!(rt; open_and_leave(&rt, &rt, FOLDER, 3, Leave::Closed), Ok(()));
    let sql = "INSERT INTO journal2 VALUES (1, 1, 1, 1, 7, 1, x'0101')";
    assert!(rt; is_changed(&rt, ONE, sql) && are_exchanged(&rt));
    assert_eq!(rt;
        visit(&rt, &rt, FOLDER, 3, 1, Leave::Closed).err(),
        MISFIT.err()
    );
    assert!(rt; are_exchanged(&rt));
    assert!(rt; visit(&rt, &rt, FOLDER, 3, 1, Leave::Closed).is_ok_and(|seen| seen.are_accepted));
    Ok(())
}

// Whether a file or folder has this name.
fn is_there(rt: &HostRuntime, path: &str) -> bool {
    fs::metadata(rt, path).is_ok()
}

#[test]
fn no_journal_is_made_behind_one_that_is_refused(rt: HostRuntime) -> Result<(), Fail> {
    for (bad, made) in [
        (ONE, [true, false, false]),
        (TWO, [true, true, false]),
        (THREE, [true, true, true]),
    ] {
        assert!(rt; is_cleared(&rt, FOLDER));
        fs::write(&rt, bad, [b'x'; 4096].as_slice())?;
        assert_eq!(rt; open_and_leave(&rt, &rt, FOLDER, 3, Leave::Closed), DEVICE);
        let there = [is_there(&rt, ONE), is_there(&rt, TWO), is_there(&rt, THREE)];
        assert_eq!(rt; there, made);
    }
    Ok(())
}

#[test]
fn of_two_journals_that_are_refused_the_first_is_told(rt: HostRuntime) -> Result<(), Fail> {
    assert!(rt; is_cleared(&rt, FOLDER));
    assert_eq!(rt; open_and_leave(&rt, &rt, FOLDER, 3, Leave::Closed), Ok(()));
    // Row 1 of node 2's journal is no record, and node 3's file is no database.
    assert!(rt;
        is_changed(
            &rt,
            TWO,
            "INSERT INTO journal2 VALUES (1, 9, 1, 1, 7, 1, x'61')"
        )
    );
    fs::write(&rt, THREE, [b'x'; 4096].as_slice())?;
    assert_eq!(rt;
        open_and_leave(&rt, &rt, FOLDER, 3, Leave::Closed),
        Err(Fault::Refused(17, 1))
    );
    // No journal can be made for node 1, because a folder has its name.
    fs::remove_file(&rt, ONE)?;
    fs::create_dir(&rt, ONE)?;
    assert_eq!(rt; open_and_leave(&rt, &rt, FOLDER, 3, Leave::Closed), DEVICE);
    Ok(())
}

#[test]
fn records_of_a_node_that_the_group_lacks_are_refused(rt: HostRuntime) -> Result<(), Fail> {
    for leave in [Leave::Closed, Leave::Dropped] {
        assert!(rt; has_delivered(&rt, &rt, leave));
        for nodes in [1, 2] {
            assert_eq!(rt; start_and_compare(&rt, &rt, nodes), (MISFIT, true));
        }
        // No journal is made for the nodes that the group has.
        fs::rename(&rt, ONE, "urbd_starts/aside")?;
        let log = fs::rename(&rt, "urbd_starts/node-1.db-wal", "urbd_starts/aside-wal");
        assert_eq!(rt; log.is_ok(), leave == Leave::Dropped);
        assert_eq!(rt; start_and_compare(&rt, &rt, 2), (MISFIT, true));
        fs::rename(&rt, "urbd_starts/aside", ONE)?;
        let _ = fs::rename(&rt, "urbd_starts/aside-wal", "urbd_starts/node-1.db-wal");
        assert!(rt; has_all(&rt, &rt));
    }
    Ok(())
}

#[test]
fn journals_above_the_group_do_no_harm_without_records(rt: HostRuntime) -> Result<(), Fail> {
    for leave in [Leave::Closed, Leave::Dropped] {
        assert!(rt; is_cleared(&rt, FOLDER));
        assert_eq!(rt; open_and_leave(&rt, &rt, FOLDER, 3, leave), Ok(()));
        fs::write(&rt, "urbd_starts/node-7.db", b"".as_slice())?;
        let before = contents(&rt, FOLDER).ok_or("the files")?;
        assert_eq!(rt; open_and_leave(&rt, &rt, FOLDER, 1, Leave::Closed), Ok(()));
        let after = contents(&rt, FOLDER).ok_or("the files")?;
        assert!(rt; before.iter().skip(2).eq(after.iter().skip(2)));
    }
    Ok(())
}

#[test]
fn a_journal_above_the_group_that_cannot_be_read_is_refused(rt: HostRuntime) -> Result<(), Fail> {
    assert!(rt; is_cleared(&rt, FOLDER));
    fs::write(&rt, THREE, [b'x'; 4096].as_slice())?;
    assert_eq!(rt; start_and_compare(&rt, &rt, 2), (DEVICE, true));
    fs::remove_file(&rt, THREE)?;
    fs::create_dir(&rt, THREE)?;
    assert_eq!(rt; start_and_compare(&rt, &rt, 2), (DEVICE, true));
    fs::remove_dir(&rt, THREE)?;
    // A group may not ignore a row that is no record, either.
    assert!(rt; is_changed(&rt, THREE, FIRST_TABLE));
    assert!(rt;
        is_changed(
            &rt,
            THREE,
            "INSERT INTO journal VALUES (1, 9, 1, 1, 7, 1, x'61')"
        )
    );
    assert_eq!(rt; start_and_compare(&rt, &rt, 2), (MISFIT, true));
    Ok(())
}
