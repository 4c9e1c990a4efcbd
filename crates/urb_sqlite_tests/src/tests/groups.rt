//! A stop of the machine at each call of each node's two files, for new files and for files from
//! before there were two tables.

use super::desks::Desk;
use super::disks::{
    Journal, are_spent, connect, files_of, leave, make_files, open_journal, open_over, stop,
};
use super::group::{DELIVERY, Event, REPEAT, Said, Told, deliver_and_reopen, list_of, run};
use sqlite::{Alter, Connection, Files};
use sqlite_disk::{Crash, Disk, Fuse, Memory};
use std::alloc::Global;
use std::test::Fail;
use urb_stable::Stable;

/// A file from before there were two tables. Node 1 has stored its first message there.
const OLD: &str = "CREATE TABLE journal(pos INTEGER PRIMARY KEY, kind INTEGER NOT NULL, \
sender INTEGER NOT NULL, seq INTEGER NOT NULL, client INTEGER NOT NULL, \
number INTEGER NOT NULL, payload BLOB NOT NULL) STRICT; INSERT INTO journal VALUES (1, 1, \
1, 1, 7, 1, x'61')";

/// The node whose file fails (from 0), and whether that file is its log. Then whether node 1's file
/// is an old one, and how many runs are stopped at least.
#[derive(Clone, Copy)]
struct Case {
    node: usize,
    is_log: bool,
    is_old: bool,
    least: u64,
}

/// The files of the three nodes.
#[derive(Drop)]
struct Nodes<D: Disk + Drop> {
    one: Files<D>,
    two: Files<D>,
    three: Files<D>,
}

// How many calls the log and the database file of a node take, the node being counted from 0.
fn calls_of(case: Case, node: usize, calls: u64) -> (u64, u64) {
    if node != case.node {
        (u64::MAX, u64::MAX)
    } else if case.is_log {
        (calls, u64::MAX)
    } else {
        (u64::MAX, calls)
    }
}

// New files of a node. The case's file fails after the given number of calls.
fn make_node(alloc: Global, case: Case, node: usize, calls: u64) -> Files<Fuse<Memory>> {
    let (log, db) = calls_of(case, node, calls);
    make_files(alloc, log, db)
}

// New files of all nodes.
fn make_nodes(alloc: Global, case: Case, calls: u64) -> Nodes<Fuse<Memory>> {
    Nodes {
        one: make_node(alloc, case, 0, calls),
        two: make_node(alloc, case, 1, calls),
        three: make_node(alloc, case, 2, calls),
    }
}

// Writes an old file over a connection. Says whether that worked, and returns the connection.
fn write_old<S: Alter + Drop>(alloc: Global, conn: Connection<S>) -> (bool, Option<Connection<S>>) {
    let mut desk = Desk::over(alloc, conn);
    let is_old = desk.is_done(OLD, 0);
    (is_old, desk.into_connection())
}

// The same over files. They are returned.
fn write_old_over<D: Disk + Drop>(alloc: Global, files: Files<D>) -> (bool, Option<Files<D>>) {
    match connect(alloc, files) {
        Ok(conn) => match write_old(alloc, conn) {
            (is_old, Some(conn)) => (is_old, Some(files_of(conn))),
            (_, None) => (false, None),
        },
        Err(files) => (false, Some(files)),
    }
}

// What the group over these stores says, and the stores.
fn run_three<S: Stable<Alloc = Global> + Drop>(
    alloc: Global,
    one: S,
    two: S,
    three: S,
    events: &[Event],
) -> (Said, Option<(S, S, S)>) {
    let Some(stores) = list_of(alloc, Some(one), Some(two), Some(three)) else {
        return (Said::Other, None);
    };
    let (mut stores, said) = run(alloc, stores, events);
    match (stores.pop(), stores.pop(), stores.pop()) {
        (Some(three), Some(two), Some(one)) => (said, Some((one, two, three))),
        _ => (said, None),
    }
}

// What the group over these journals says, and the files of the journals.
fn run_journals<D: Disk + Drop>(
    alloc: Global,
    one: Journal<D>,
    two: Journal<D>,
    three: Journal<D>,
    events: &[Event],
) -> (Said, Option<Nodes<D>>) {
    match run_three(alloc, one, two, three, events) {
        (said, Some((one, two, three))) => (
            said,
            Some(Nodes {
                one: leave(one),
                two: leave(two),
                three: leave(three),
            }),
        ),
        (said, None) => (said, None),
    }
}

// What the group over these files says, and the files. After a journal that isn't opened, the
// others are not tried.
fn run_over<D: Disk + Drop>(
    alloc: Global,
    nodes: Nodes<D>,
    events: &[Event],
) -> (Said, Option<Nodes<D>>) {
    let Nodes { one, two, three } = nodes;
    let one = match open_journal(alloc, one) {
        Ok(one) => one,
        Err(one) => return (Said::Refused, Some(Nodes { one, two, three })),
    };
    let two = match open_journal(alloc, two) {
        Ok(two) => two,
        Err(two) => {
            let one = leave(one);
            return (Said::Refused, Some(Nodes { one, two, three }));
        }
    };
    match open_journal(alloc, three) {
        Ok(three) => run_journals(alloc, one, two, three, events),
        Err(three) => {
            let (one, two) = (leave(one), leave(two));
            (Said::Refused, Some(Nodes { one, two, three }))
        }
    }
}

// Whether the run was stopped: a store failed, or the group reported nothing. `None` if what it
// reported before the stop doesn't hold after it.
fn is_stopped(before: Said, after: Said, is_old: bool) -> Option<bool> {
    let Said::Told(again) = after else {
        return None;
    };
    match before {
        Said::Told(told) => {
            let are_kept = is_begun(told.logs, again.logs);
            let is_repeated = again.is_same || !told.is_accepted;
            if are_kept && is_repeated && (told.is_same || !is_old) {
                Some(told.is_down)
            } else {
                None
            }
        }
        Said::Refused => Some(true),
        _ => None,
    }
}

// Whether each log begins with the log from before.
fn is_begun(before: [bool; 3], after: [bool; 3]) -> bool {
    before.iter().zip(&after).all(|(old, new)| *new || !*old)
}

// The machine stops.
fn stop_all<D: Crash + Drop>(nodes: &mut Nodes<D>) {
    stop(&mut nodes.one);
    stop(&mut nodes.two);
    stop(&mut nodes.three);
}

// Whether the case's file has taken all its calls.
fn is_spent<D: Disk + Drop>(nodes: &mut Nodes<D>, case: Case) -> bool {
    match case.node {
        0 => are_spent(&mut nodes.one),
        1 => are_spent(&mut nodes.two),
        _ => are_spent(&mut nodes.three),
    }
}

// What the group says before the stop, and the files. If the case says so, node 1's file is an old
// one.
fn run_first<D: Disk + Drop>(
    alloc: Global,
    nodes: Nodes<D>,
    case: Case,
) -> (Said, Option<Nodes<D>>) {
    if !case.is_old {
        return run_over(alloc, nodes, &DELIVERY);
    }
    let Nodes { one, two, three } = nodes;
    match write_old_over(alloc, one) {
        (true, Some(one)) => run_over(alloc, Nodes { one, two, three }, &DELIVERY),
        (false, Some(one)) => (Said::Refused, Some(Nodes { one, two, three })),
        (_, None) => (Said::Other, None),
    }
}

// Runs the group until the machine stops, and then once more. The result says whether it was
// stopped, and whether the case's file has taken all its calls. What was reported before the stop
// holds after it.
fn run_stop_and_rerun<D: Crash + Drop>(
    alloc: Global,
    nodes: Nodes<D>,
    case: Case,
) -> Option<(bool, bool)> {
    let (before, nodes) = run_first(alloc, nodes, case);
    let mut nodes = nodes?;
    let is_spent = is_spent(&mut nodes, case);
    stop_all(&mut nodes);
    let (after, nodes) = run_over(alloc, nodes, &REPEAT);
    drop(nodes);
    Some((is_stopped(before, after, case.is_old)?, is_spent))
}

// Counts the runs that are stopped. The first is stopped at the first call of the case's file, the
// next at the second, and so on until a run has calls left.
fn count_stopped_runs(alloc: Global, case: Case) -> Option<u64> {
    let mut met = 0;
    for calls in 0..400 {
        match run_stop_and_rerun(alloc, make_nodes(alloc, case, calls), case)? {
            (_, false) => return Some(met),
            (true, true) => met = u64::saturating_add(met, 1),
            (false, true) => {}
        }
    }
    None
}

static CASES: [Case; 8] = [
    Case {
        node: 0,
        is_log: true,
        is_old: false,
        least: 20,
    },
    Case {
        node: 1,
        is_log: true,
        is_old: false,
        least: 20,
    },
    Case {
        node: 2,
        is_log: true,
        is_old: false,
        least: 20,
    },
    Case {
        node: 0,
        is_log: false,
        is_old: false,
        least: 1,
    },
    Case {
        node: 1,
        is_log: false,
        is_old: false,
        least: 1,
    },
    Case {
        node: 2,
        is_log: false,
        is_old: false,
        least: 1,
    },
    Case {
        node: 0,
        is_log: true,
        is_old: true,
        least: 20,
    },
    Case {
        node: 0,
        is_log: false,
        is_old: true,
        least: 1,
    },
];

#[test]
fn what_was_told_outlives_each_stop(rt: HostRuntime) -> Result<(), Fail> {
    for case in &CASES {
        let met = count_stopped_runs(rt.alloc(), *case).unwrap_or(0);
        if met < case.least {
            return Err(Fail::new(format_args!(
                "node {}, log {}, old {}: {met} stops",
                case.node, case.is_log, case.is_old
            )));
        }
    }
    Ok(())
}

// What is left after a stop of all nodes over these stores, after a delivery.
fn deliver_on<S: Stable<Alloc = Global> + Drop>(
    alloc: Global,
    one: Option<S>,
    two: Option<S>,
    three: Option<S>,
) -> Option<Told> {
    deliver_and_reopen(alloc, list_of(alloc, one, two, three)?)
}

// The same over the journals in these files, which one call for each opens. The journals stay open.
fn deliver_over<D: Disk + Drop>(alloc: Global, nodes: Nodes<D>) -> Option<Told> {
    let Nodes { one, two, three } = nodes;
    let one = open_over(alloc, one, 1);
    let two = open_over(alloc, two, 1);
    deliver_on(alloc, one, two, open_over(alloc, three, 1))
}

#[test]
fn journals_bring_a_group_back(rt: HostRuntime) {
    let wanted = Told {
        logs: [true, true, false],
        is_accepted: true,
        is_same: true,
        is_down: false,
    };
    assert_eq!(rt;
        deliver_over(rt.alloc(), make_nodes(rt.alloc(), CASES[0], u64::MAX)),
        Some(wanted)
    );
}
