//! What a test does with the journal at a place, step by step, and what each step should answer.

use super::batches::TOGETHER;
use super::changes::{BAD, GOOD, OVER_BOTH};
use super::desks::Desk;
use super::disks::{connect, make_files};
use super::records::{Form, Kept, Load};
use super::stores::STORES;
use super::tables::{BOTH, OLD, OLD_FILES, OTHERS};
use super::withdrawals::WITHDRAWN;
use sqlite::{Alter, Connection, Files};
use sqlite_disk::Disk;
use std::alloc::Global;
use std::test::Fail;
use urb_stable::StoreFault;

/// A step, and its answer.
#[derive(Clone, Copy)]
pub enum Step {
    /// The connection becomes a journal with this next position, or stays because of this fault.
    Adopt(Result<u32, StoreFault>),
    /// The journal becomes its connection again.
    Leave,
    /// The record is stored at this position, or refused.
    Store(u32, Kept, Result<(), StoreFault>),
    /// The records are stored together, the first at this position, or refused.
    StoreAll(u32, &'static [Kept], Result<(), StoreFault>),
    /// The last records, as many as this, are taken out, or this is refused.
    Withdraw(usize, Result<(), StoreFault>),
    /// The journal returns these records, and then has no doubtful record.
    Holds(&'static [Kept]),
    /// The next position, and whether a record is in doubt.
    Stands(u32, bool),
    /// SQL changes the database. If it has a parameter, that is a payload of the given number of
    /// bytes.
    Sql(&'static str, usize),
    /// SQL shows the given number of rows.
    Shows(&'static str, usize),
    /// The connection stays, twice, and SQL shows one row before and after.
    Refused(&'static str),
}

/// What is in the database before a case.
#[derive(Clone, Copy)]
pub enum Start {
    Empty,
    /// A journal with the first two records.
    Stored,
    /// A file from before there were two tables, with these records.
    Old,
    /// That file as a journal with a third record.
    Both,
}

/// A case: its name, what the database holds before it, the SQL that then changes the database, if
/// any, and its steps.
pub type Case = (&'static str, Start, &'static str, &'static [Step]);

/// The steps that turn an empty database into a journal with the first two records.
const STORED: &[Step] = &[
    Step::Adopt(Ok(1)),
    Step::Store(1, (Form::Pending, 1, Load::Of(b"hi")), Ok(())),
    Step::Store(2, (Form::Certificate, 1, Load::Of(b"")), Ok(())),
];

// Whether the connection stays, twice, and SQL shows one row before and after.
fn is_refused<S: Alter + Drop>(desk: &mut Desk<S>, sql: &str) -> bool {
    for _ in 0..2 {
        if desk.rows(sql) != Some(1) || desk.adopt() != Some(Err(StoreFault::Device)) {
            return false;
        }
    }
    desk.rows(sql) == Some(1)
}

// Whether the step answers as expected.
fn is_right<S: Alter + Drop>(desk: &mut Desk<S>, step: Step) -> bool {
    match step {
        Step::Adopt(wanted) => desk.adopt() == Some(wanted),
        Step::Leave => {
            desk.leave();
            true
        }
        Step::Store(at, row, wanted) => desk.store(at, row) == Some(wanted),
        Step::StoreAll(at, rows, wanted) => desk.store_all(at, rows) == Some(wanted),
        Step::Withdraw(count, wanted) => desk.withdraw(count) == Some(wanted),
        Step::Holds(rows) => desk.holds(rows),
        Step::Stands(next, is_doubtful) => desk.stand() == Some((next, is_doubtful)),
        Step::Sql(sql, count) => desk.is_done(sql, count),
        Step::Shows(sql, count) => desk.rows(sql) == Some(count),
        Step::Refused(sql) => is_refused(desk, sql),
    }
}

/// Plays steps. Returns the number of the first one, from 1, that answers something else.
pub fn play<S: Alter + Drop>(desk: &mut Desk<S>, steps: &[Step]) -> Option<usize> {
    let mut number = 0;
    for step in steps {
        number = usize::saturating_add(number, 1);
        if !is_right(desk, *step) {
            return Some(number);
        }
    }
    None
}

// The steps that make the start of a case.
fn steps_before(start: Start) -> &'static [Step] {
    match start {
        Start::Empty => &[],
        Start::Stored => STORED,
        Start::Old => OLD,
        Start::Both => BOTH,
    }
}

// Plays a case over a connection to new files. Returns the number of its first step, from 1, that
// answers something else. It is 0 if a step of its start does.
fn play_case<S: Alter + Drop>(
    alloc: Global,
    conn: Connection<S>,
    (_, start, sql, steps): &Case,
) -> Option<usize> {
    let mut desk = Desk::over(alloc, conn);
    let is_begun = play(&mut desk, steps_before(*start)).is_none() && desk.is_changed(sql);
    let failing = if is_begun {
        play(&mut desk, steps)
    } else {
        Some(0)
    };
    drop(desk);
    failing
}

// The same over the files.
fn play_over<D: Disk + Drop>(alloc: Global, files: Files<D>, case: &Case) -> Option<usize> {
    match connect(alloc, files) {
        Ok(conn) => play_case(alloc, conn, case),
        Err(_) => Some(0),
    }
}

#[test]
fn each_step_is_answered_as_it_is_to(rt: HostRuntime) -> Result<(), Fail> {
    let tables: [&[Case]; 8] = [
        &STORES, &TOGETHER, &WITHDRAWN, &BAD, &GOOD, &OVER_BOTH, &OLD_FILES, &OTHERS,
    ];
    for table in tables {
        for case in table {
            if let Some(step) = play_over(
                rt.alloc(),
                make_files(rt.alloc(), u64::MAX, u64::MAX),
                case,
            ) {
                let (name, _, sql, _) = case;
                return Err(Fail::new(format_args!("{name} {sql}: step {step}")));
            }
        }
    }
    Ok(())
}
