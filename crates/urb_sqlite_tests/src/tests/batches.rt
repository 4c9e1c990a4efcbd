//! Records that are stored together, or taken out together, also over files in memory that stop or
//! fail at one of their calls.

use super::desks::Desk;
use super::disks::{Journal, bytes_of, connect, files_of, make_files, open_journal, stop};
use super::kept::{Bytes, journal_of};
use super::records::{Form, Kept, Load, TWO};
use super::steps::{Case, Start, Step};
use sqlite::{Alter, Connection, Files};
use sqlite_disk::{Disk, Fuse, Memory};
use std::alloc::Global;
use std::test::Fail;
use urb_names::MAX_PAYLOAD;
use urb_sqlite::SqlStable;
use urb_stable::StoreFault;

/// A record, and three that are stored together after it.
const FOUR: [Kept; 4] = [
    (Form::Pending, 1, Load::Of(b"hi")),
    (Form::Certificate, 1, Load::Of(b"")),
    (Form::Certified, 2, Load::Of(b"")),
    (Form::Pending, 3, Load::Of(b"ho")),
];

/// The same, one with a payload of the greatest length.
const LONG_FOUR: [Kept; 4] = [
    (Form::Pending, 1, Load::Of(b"hi")),
    (Form::Certificate, 1, Load::Of(b"")),
    (Form::Certified, 2, Load::Long(MAX_PAYLOAD)),
    (Form::Pending, 3, Load::Of(b"ho")),
];

/// The last three of the records.
const THREE: &[Kept] = &[
    (Form::Certificate, 1, Load::Of(b"")),
    (Form::Certified, 2, Load::Of(b"")),
    (Form::Pending, 3, Load::Of(b"ho")),
];

/// All four, and one more.
const FIVE: &[Kept] = &[
    (Form::Pending, 1, Load::Of(b"hi")),
    (Form::Certificate, 1, Load::Of(b"")),
    (Form::Certified, 2, Load::Of(b"")),
    (Form::Pending, 3, Load::Of(b"ho")),
    (Form::Certificate, 3, Load::Of(b"")),
];

const GIVEN: &[Step] = &[
    Step::Adopt(Ok(1)),
    Step::StoreAll(1, &[(Form::Pending, 1, Load::Of(b"hi"))], Ok(())),
    Step::StoreAll(2, THREE, Ok(())),
    Step::Stands(5, false),
    Step::StoreAll(5, &[], Ok(())),
    Step::Store(5, (Form::Certificate, 3, Load::Of(b"")), Ok(())),
    Step::Holds(FIVE),
    Step::Leave,
    Step::Shows("SELECT pos FROM journal2", 5),
    Step::Shows("SELECT pos FROM journal", 0),
    Step::Adopt(Ok(6)),
    Step::Holds(FIVE),
];

const PLACES: &[Step] = &[
    Step::StoreAll(2, THREE, Err(StoreFault::Place(3))),
    Step::StoreAll(4, THREE, Err(StoreFault::Place(3))),
    Step::StoreAll(2, &[], Err(StoreFault::Place(3))),
    Step::StoreAll(3, &[], Ok(())),
    Step::Stands(3, false),
    Step::Holds(TWO),
];

/// What the first two records are changed to.
const CHANGED: &[Kept] = &[
    (Form::Pending, 2, Load::Of(b"hi")),
    (Form::Certificate, 2, Load::Of(b"")),
];

/// Two records that an index doesn't admit together.
const SAME: &[Kept] = &[
    (Form::Certified, 3, Load::Of(b"")),
    (Form::Certificate, 3, Load::Of(b"")),
    (Form::Certificate, 3, Load::Of(b"")),
];

/// An index admits no record twice. So the last of three is refused, and none of them is kept.
const DOUBTFUL: &[Step] = &[
    Step::Sql("UPDATE journal2 SET number = 2 WHERE pos = 1", 0),
    Step::Sql("CREATE UNIQUE INDEX once ON journal2(seq, kind)", 0),
    Step::Adopt(Ok(3)),
    Step::StoreAll(3, SAME, Err(StoreFault::Device)),
    Step::Stands(3, true),
    Step::StoreAll(3, THREE, Err(StoreFault::Place(3))),
    Step::StoreAll(3, &[], Err(StoreFault::Place(3))),
    Step::Holds(CHANGED),
    Step::StoreAll(3, &[(Form::Certificate, 3, Load::Of(b""))], Ok(())),
    Step::Stands(4, false),
    Step::Leave,
    Step::Shows("SELECT pos FROM journal2", 3),
];

/// What a journal does with records that are stored together.
pub static TOGETHER: [Case; 3] = [
    (
        "what is stored together is given back",
        Start::Empty,
        "",
        GIVEN,
    ),
    (
        "records that are out of place are refused together",
        Start::Stored,
        "",
        PLACES,
    ),
    (
        "one record that is refused keeps out the others",
        Start::Stored,
        "UPDATE journal2 SET seq = 2",
        DOUBTFUL,
    ),
];

/// How the journal ends before it is opened again: the machine stops, or the program alone.
#[derive(Clone, Copy)]
enum End {
    Machine,
    Program,
}

/// What a journal does with three records behind its first one: it stores them together, or it has
/// them and takes them out.
#[derive(Clone, Copy)]
enum Act {
    Store,
    Withdraw,
}

/// The result of an act.
#[derive(Clone, Copy)]
enum Met {
    /// The file failed before it.
    Before,
    /// It was refused, and later the journal had the records from before it, or those after it.
    Refused,
    /// It was done, and later the journal had the records after it.
    Done,
    /// Anything else.
    Wrong,
}

impl Act {
    // The next position of the journal before the act, and after it.
    fn places(self) -> (u32, u32) {
        match self {
            Act::Store => (2, 5),
            Act::Withdraw => (5, 2),
        }
    }

    // Opens a journal, and stores what it has before the act. Says whether that worked.
    fn is_begun<S: Alter + Drop>(self, desk: &mut Desk<S>, rows: &[Kept; 4]) -> bool {
        desk.is_open()
            && desk.store(1, rows[0]) == Some(Ok(()))
            && match self {
                Act::Store => true,
                Act::Withdraw => desk.store_all(2, &rows[1..]) == Some(Ok(())),
            }
    }

    // What the journal answers.
    fn run<S: Alter + Drop>(
        self,
        desk: &mut Desk<S>,
        rows: &[Kept; 4],
    ) -> Option<Result<(), StoreFault>> {
        match self {
            Act::Store => desk.store_all(2, &rows[1..]),
            Act::Withdraw => desk.withdraw(3),
        }
    }

    // Whether the answer and the journal after it agree. Only a store leaves a record in doubt.
    fn is_told<S: Alter + Drop>(
        self,
        desk: &Desk<S>,
        answer: Option<Result<(), StoreFault>>,
    ) -> bool {
        let (before, after) = self.places();
        match answer {
            Some(Ok(())) => desk.stand() == Some((after, false)),
            Some(Err(StoreFault::Device)) => {
                desk.stand() == Some((before, matches!(self, Act::Store)))
            }
            _ => false,
        }
    }

    // Whether the journal that is found has the records after the act, or from before it if it
    // wasn't done.
    fn is_found<S: Alter + Drop>(
        self,
        desk: &mut Desk<S>,
        rows: &[Kept; 4],
        is_done: bool,
    ) -> bool {
        let (before, _) = self.places();
        match desk.stand() {
            Some((2, false)) => !(is_done && before == 2) && desk.holds(&rows[..1]),
            Some((5, false)) => !(is_done && before == 5) && desk.holds(rows),
            _ => false,
        }
    }
}

// Has a journal over a connection do this. Returns what it did, as far as that is known before it
// is opened again, and the connection.
fn act_on<S: Alter + Drop>(
    alloc: Global,
    conn: Connection<S>,
    rows: &[Kept; 4],
    act: Act,
) -> (Met, Option<Connection<S>>) {
    let mut desk = Desk::over(alloc, conn);
    let met = if act.is_begun(&mut desk, rows) {
        let answer = act.run(&mut desk, rows);
        match (act.is_told(&desk, answer), answer == Some(Ok(()))) {
            (true, true) => Met::Done,
            (true, false) => Met::Refused,
            _ => Met::Wrong,
        }
    } else {
        Met::Before
    };
    (met, desk.into_connection())
}

// The same over files. They are returned.
fn act_over<D: Disk + Drop>(
    alloc: Global,
    files: Files<D>,
    rows: &[Kept; 4],
    act: Act,
) -> (Met, Option<Files<D>>) {
    match connect(alloc, files) {
        Ok(conn) => match act_on(alloc, conn, rows, act) {
            (met, Some(conn)) => (met, Some(files_of(conn))),
            (_, None) => (Met::Wrong, None),
        },
        Err(files) => (Met::Before, Some(files)),
    }
}

// The journal that is found in these files after this end.
fn open_again(
    alloc: Global,
    mut files: Files<Fuse<Memory>>,
    end: End,
) -> Option<Journal<Fuse<Memory>>> {
    match end {
        End::Machine => {
            stop(&mut files);
            open_journal(alloc, files).ok()
        }
        End::Program => {
            let Bytes { log, db } = bytes_of(alloc, &files)?;
            journal_of(alloc, (&log, u64::MAX), (&db, u64::MAX))
        }
    }
}

// What the act did, if the journal that is found agrees.
fn judge_found<S: Alter + Drop>(
    alloc: Global,
    journal: SqlStable<S>,
    rows: &[Kept; 4],
    act: Act,
    met: Met,
) -> Met {
    let mut desk = Desk::with(alloc, journal);
    let is_found = act.is_found(&mut desk, rows, matches!(met, Met::Done));
    drop(desk);
    if is_found { met } else { Met::Wrong }
}

// Has a journal do this, and looks what is found after this end. The log fails after this number of
// calls.
fn act_and_end(alloc: Global, rows: &[Kept; 4], act: Act, calls: u64, end: End) -> Met {
    match act_over(alloc, make_files(alloc, calls, u64::MAX), rows, act) {
        (Met::Before, _) => Met::Before,
        (Met::Wrong, _) | (_, None) => Met::Wrong,
        (met, Some(files)) => match open_again(alloc, files, end) {
            Some(journal) => judge_found(alloc, journal, rows, act, met),
            None => Met::Wrong,
        },
    }
}

// The least number of calls of the log with which all is stored that the journal has before the
// act, by halving. It is below 1,024.
fn calls_before(alloc: Global, rows: &[Kept; 4], act: Act) -> u64 {
    let mut low = 0;
    let mut high = 1024;
    for _ in 0..10 {
        let middle = u64::saturating_add(low, high) / 2;
        match act_over(alloc, make_files(alloc, middle, u64::MAX), rows, act) {
            (Met::Before, _) => low = u64::saturating_add(middle, 1),
            _ => high = middle,
        }
    }
    high
}

// Counts the calls of the log, after those from before the act, whose failure refuses the act.
fn count_refused(alloc: Global, rows: &[Kept; 4], act: Act, end: End) -> Option<u64> {
    let mut met = 0;
    let mut calls = calls_before(alloc, rows, act);
    for _ in 0..1000 {
        match act_and_end(alloc, rows, act, calls, end) {
            Met::Refused => met = u64::saturating_add(met, 1),
            Met::Done => return Some(met),
            _ => return None,
        }
        calls = u64::saturating_add(calls, 1);
    }
    None
}

/// A name, the records, the act, how the journal ends, and how many refusals are met at least.
static ENDS: [(&'static str, &'static [Kept; 4], Act, End, u64); 5] = [
    ("a stop", &FOUR, Act::Store, End::Machine, 2),
    (
        "a stop, and a long payload",
        &LONG_FOUR,
        Act::Store,
        End::Machine,
        2,
    ),
    ("a kill", &FOUR, Act::Store, End::Program, 2),
    (
        "a stop, and records taken out",
        &FOUR,
        Act::Withdraw,
        End::Machine,
        2,
    ),
    (
        "a kill, and records taken out",
        &FOUR,
        Act::Withdraw,
        End::Program,
        2,
    ),
];

#[test]
fn a_stop_at_any_call_leaves_all_records_or_none(rt: HostRuntime) -> Result<(), Fail> {
    for (name, rows, act, end, least) in &ENDS {
        match count_refused(rt.alloc(), *rows, *act, *end) {
            Some(met) if *least <= met => {}
            Some(met) => return Err(Fail::new(format_args!("{name}: {met} refusals"))),
            None => return Err(Fail::new(format_args!("{name}: something else is found"))),
        }
    }
    Ok(())
}
