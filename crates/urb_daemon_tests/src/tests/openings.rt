//! What is opened in parallel: everything, or the first fault.

use super::visits::{Leave, is_cleared, open_and_leave};
use sqlite::Connection;
use std::alloc::Global;
use std::fs;
use std::os::unix::fs::symlink;
use std::rt::HostRuntime;
use std::test::Fail;
use std::thread::Threads;
use urb_folder::collect_opened;
use urb_options::Fault;
use urb_stable::StoreFault;

// How many things were opened, or were returned, and the fault.
fn collect_outcomes(
    alloc: Global,
    outcomes: &[Result<u8, StoreFault>],
) -> Option<(usize, Option<StoreFault>)> {
    match collect_opened(alloc, Vec::from_slice(alloc, outcomes).ok()?) {
        Ok(all) => Some((all.len(), None)),
        Err((back, fault)) => Some((back.len(), Some(fault))),
    }
}

#[test]
fn all_that_was_opened_or_the_first_fault(rt: HostRuntime) -> Result<(), Fail> {
    for (outcomes, expected) in [
        ([].as_slice(), (0, None)),
        (&[Ok(1), Ok(2)], (2, None)),
        (
            &[Ok(1), Err(StoreFault::BadRow(2)), Err(StoreFault::Device)],
            (3, Some(StoreFault::BadRow(2))),
        ),
        (
            &[Err(StoreFault::NoMemory), Ok(1)],
            (2, Some(StoreFault::NoMemory)),
        ),
    ] {
        assert_eq!(rt; collect_outcomes(rt.alloc(), outcomes), Some(expected));
    }
    Ok(())
}

const FOLDER: &str = "urbd_openings";

// The file of the node at this place, or its log.
fn path_of(alloc: Global, place: u8, kind: &str) -> Option<String> {
    let node = place.checked_add(1)?;
    format!(in alloc; "urbd_openings/node-{node}.{kind}").ok()
}

// Puts a first row that is no record into the journal at this path, and says whether that worked.
fn has_bad_row(rt: &HostRuntime, path: &str) -> bool {
    let Ok(mut conn) = Connection::open(rt, path) else {
        return false;
    };
    let sql = "INSERT INTO journal2 VALUES (1, 9, 1, 1, 7, 1, x'61')";
    let is_changed = conn.execute_batch(sql).is_ok();
    is_changed && conn.close().is_ok()
}

// Makes the folder anew, with journals at these places. One that is broken has a first row that is
// no record. If one that is broken is missing, its name leads to a folder that doesn't exist, so
// that it can't be made.
fn is_prepared<R: Threads + Sync>(
    threads: &R,
    rt: &HostRuntime,
    there: &[u8],
    broken: &[u8],
) -> Option<()> {
    if !is_cleared(rt, FOLDER) || open_and_leave(threads, rt, FOLDER, 7, Leave::Closed).is_err() {
        return None;
    }
    for place in 0..7 {
        let path = path_of(rt.alloc(), place, "db")?;
        let is_broken = broken.contains(&place);
        if there.contains(&place) {
            if is_broken && !has_bad_row(rt, path.as_str()) {
                return None;
            }
        } else {
            fs::remove_file(rt, path.as_str()).ok()?;
            if is_broken {
                symlink(rt, "nowhere/journal", path.as_str()).ok()?;
            }
        }
    }
    Some(())
}

// The sum of the powers of two of the places that have this kind of file.
fn sum_of_places(rt: &HostRuntime, kind: &str) -> Option<usize> {
    let mut sum = 0;
    for place in 0..7u8 {
        let path = path_of(rt.alloc(), place, kind)?;
        if fs::metadata(rt, path.as_str()).is_ok() {
            sum |= 1 << usize::from(place);
        }
    }
    Some(sum)
}

/// The outcome of opening `count` journals and closing them, and the sum of the powers of two of
/// the places that have a journal then, or a log.
type Outcome = (Result<(), Fault>, Option<usize>, Option<usize>);

fn open_and_close<R: Threads + Sync>(
    threads: &R,
    rt: &HostRuntime,
    there: &[u8],
    broken: &[u8],
    count: u8,
) -> Option<Outcome> {
    is_prepared(threads, rt, there, broken)?;
    let outcome = open_and_leave(threads, rt, FOLDER, count, Leave::Closed);
    Some((
        outcome,
        sum_of_places(rt, "db"),
        sum_of_places(rt, "db-wal"),
    ))
}

/// No journal can be made.
const UNMADE: Result<(), Fault> = Err(Fault::Refused(15, 0));

/// The first row is no record.
const BAD_ROW: Result<(), Fault> = Err(Fault::Refused(17, 1));

#[test]
fn what_is_missing_is_made_in_order_up_to_the_first_fault(rt: HostRuntime) -> Result<(), Fail> {
    for (there, broken, count, opened, journals, logs) in [
        // All exist, or none does.
        (
            [0, 1, 2, 3, 4, 5, 6].as_slice(),
            [].as_slice(),
            7,
            Ok(()),
            127,
            0,
        ),
        (&[], &[], 7, Ok(()), 127, 0),
        (&[1], &[], 3, Ok(()), 7, 0),
        // One that exists is refused. Those that are missing after it are not made, and those
        // before it are.
        (&[0, 1, 2], &[0], 3, BAD_ROW, 7, 1),
        (&[0, 2], &[0], 3, BAD_ROW, 5, 1),
        (&[1], &[1], 3, BAD_ROW, 3, 2),
        (&[0, 2], &[2], 4, BAD_ROW, 7, 4),
        // One that is missing can't be made.
        (&[0, 2], &[1], 4, UNMADE, 5, 0),
        (&[], &[0], 3, UNMADE, 0, 0),
        (&[], &[2], 4, UNMADE, 3, 0),
        // If two are refused, the fault is that of the first, whichever of them exists.
        (&[0, 1, 2], &[1, 2], 3, BAD_ROW, 7, 6),
        (&[2], &[1, 2], 3, UNMADE, 5, 4),
        (&[1], &[1, 2], 3, BAD_ROW, 3, 2),
    ] {
        // All that were opened are closed. So only a journal that was refused has a log.
        let came = open_and_close(&rt, &rt, there, broken, count);
        assert_eq!(rt; came, Some((opened, Some(journals), Some(logs))));
    }
    fs::remove_dir_all(&rt, FOLDER)?;
    Ok(())
}
