//! A worker that answers a desk by turns in the order of their events, or the other way round.
//!
//! A desk tells its client of a turn only if the turn began behind everything that the desk has
//! seen.

ghost use Rattle.std.specs.Prelude.{◌≡◌, ◌≤◌, length};
ghost use Rattle.urb_show.specs.Houses.{IsNamed};

use super::{open_group, open_hall, service_of};
use crossbeam_channel::{Receiver, Sender};
use std::alloc::Global;
use std::marker::Brand;
use std::sync::Wait;
use std::test::Fail;
use std::thread;
use std::thread::Threads;
use std::time::Clock;
use urb_client::{Control, Desk, Request, Response};
use urb_desk::NodeDesk;
use urb_group::MemStable;
use urb_link::Ticket;
use urb_names::NodeId;
use urb_show::{House, HouseName, LogReader, Opened};
use urb_turn::{Finished, Job, Turn};

// A turn that asks for the node's status.
fn ask_status<K: HouseName, R: Wait>(
    rt: &R,
    alloc: Global,
    house: &mut House<K>,
    store: &mut MemStable,
    node: NodeId,
) -> Finished<K> {
    let turn = Turn::begin(alloc, house, Job::Status(node)).store(alloc, store);
    turn.finish(rt, alloc, house)
}

// Two such turns, and a tick of the node between them.
fn ask_twice<K: HouseName, R: Wait>(
    rt: &R,
    alloc: Global,
    house: &mut House<K>,
) -> Option<(Finished<K>, Finished<K>)> {
    let node = NodeId::new(1)?;
    let mut store = MemStable::new(alloc);
    let first = ask_status(rt, alloc, house, &mut store, node);
    let _ = house.tick(alloc, node).ok()?;
    let second = ask_status(rt, alloc, house, &mut store, node);
    Some((first, second))
}

// The way back of the next ticket, if it has one.
fn next_answer<K: HouseName, R: Wait>(
    rt: &R,
    jobs: &Receiver<Ticket<K>>,
) -> Option<Sender<Finished<K>>> {
    match jobs.recv(rt) {
        Ok(Ticket { job: _, answer }) => answer,
        Err(_) => None,
    }
}

// Answers the next ticket by this turn.
fn answer_next<K: HouseName, R: Wait>(rt: &R, jobs: &Receiver<Ticket<K>>, finished: Finished<K>) {
    match next_answer(rt, jobs) {
        Some(answer) => drop(answer.send(rt, finished)),
        None => drop(finished),
    }
}

// A worker that answers two tickets by these turns, one after the other.
fn answer_both<K: HouseName, R: Wait>(
    rt: &R,
    jobs: Receiver<Ticket<K>>,
    turns: (Finished<K>, Finished<K>),
) {
    let (first, second) = turns;
    answer_next(rt, &jobs, first);
    answer_next(rt, &jobs, second);
}

// Whether a desk gets the node's status: the first time, and the second time.
fn are_told<K: HouseName, R: Wait + Clock>(
    rt: &R,
    alloc: Global,
    line: &Sender<Ticket<K>>,
    reader: LogReader<K>,
) -> Option<(bool, bool)>
    requires { 1 ≤ length K.base }
{
    let node = NodeId::new(1)?;
    let (hall, position) = open_hall(alloc, reader)?;
    let service = service_of(line, &hall);
    let mut desk = NodeDesk::new(rt, alloc, node, service, position);
    let first = matches!(
        desk.answer(&Request::Ask(Control::Status)),
        Ok(Response::Status { .. })
    );
    let second = matches!(
        desk.answer(&Request::Ask(Control::Status)),
        Ok(Response::Status { .. })
    );
    Some((first, second))
}

// Whether a desk gets a status from two turns, in their order or the other way round.
fn ask_desk<K: HouseName + Send + Sync, R: Threads + Wait + Clock + Sync>(
    rt: &R,
    alloc: Global,
    opened: Opened,
    is_turned: bool,
) -> Option<(bool, bool)>
    requires names { IsNamed opened K.book K.history K.base K.origin }
    requires nodes { opened.group.size.n ≡ 1 }
{
    let (mut house, mut readers) = match opened.parts::<K, R>(rt, alloc) {
        Ok(parts) => parts,
        Err((opened, _)) => {
            drop(opened.close());
            return None;
        }
    };
    house.recall();
    let turns = ask_twice(rt, alloc, &mut house);
    drop(house.close(rt));
    let (first, second) = turns?;
    let turns = if is_turned {
        (second, first)
    } else {
        (first, second)
    };
    let (line, jobs) = crossbeam_channel::bounded(alloc, 64).ok()?;
    let reader = readers.pop()?;
    let ((), told) = thread::join(
        rt,
        move || answer_both(rt, jobs, turns),
        move || -> Option<(bool, bool)>
            requires { 1 ≤ length K.base }
        { are_told(rt, alloc, &line, reader) },
    );
    told
}

#[test]
fn a_desk_tells_of_turns_in_their_order(rt: HostRuntime) -> Result<(), Fail> {
    let opened = open_group(rt.alloc(), 1).ok_or("memory")?;
    let told = ask_desk::<Brand, _>(&rt, rt.alloc(), opened, false);
    assert_eq!(rt; told, Some((true, true)));
    Ok(())
}

#[test]
fn a_desk_tells_nothing_of_an_earlier_turn(rt: HostRuntime) -> Result<(), Fail> {
    let opened = open_group(rt.alloc(), 1).ok_or("memory")?;
    let told = ask_desk::<Brand, _>(&rt, rt.alloc(), opened, true);
    assert_eq!(rt; told, Some((true, false)));
    Ok(())
}
