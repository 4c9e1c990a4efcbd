//! Places for the tickets of sessions: the last one that is taken keeps others waiting.

ghost use Rattle.std.specs.Prelude.{◌≡◌, ◌≤◌, length};
ghost use Rattle.urb_show.specs.Houses.{IsNamed};

use super::{Hall, open_group, open_hall, service_of};
use crossbeam_channel::{Receiver, Sender};
use std::alloc::Global;
use std::marker::Brand;
use std::sync::Wait;
use std::sync::atomic::{AtomicU64, Ordering};
use std::test::Fail;
use std::thread;
use std::thread::Threads;
use std::time::{Clock, Duration};
use urb_client::{Control, Desk, Request};
use urb_desk::{NodeDesk, SESSION_TICKETS, TicketPlaces};
use urb_link::Ticket;
use urb_names::NodeId;
use urb_show::{HouseName, Opened, ReadPosition};
use urb_turn::Finished;

// All places but one are taken. Takes it, and has another thread take one more. Then gives it back.
// Returns whether that thread waited until then, and got a place.
fn waits_until_given_back<R: Threads + Wait + Clock + Sync>(rt: &R, places: &TicketPlaces) -> bool {
    let (full, taken) = (AtomicU64::new(0), AtomicU64::new(0));
    let (full, taken) = (&full, &taken);
    let ((), has_waited) = thread::join(
        rt,
        move || {
            for _ in 0..10_000u32 {
                if full.load(Ordering::SeqCst) == 1 {
                    break;
                }
                thread::sleep(rt, Duration::from_millis(1));
            }
            let place = places.take(rt, 1);
            taken.store(1, Ordering::SeqCst);
            place.give_back(rt);
        },
        move || {
            let last = places.take(rt, 1);
            full.store(1, Ordering::SeqCst);
            thread::sleep(rt, Duration::from_millis(50));
            let has_waited = taken.load(Ordering::SeqCst) == 0;
            last.give_back(rt);
            has_waited
        },
    );
    has_waited && taken.load(Ordering::SeqCst) == 1
}

// Takes so many places, and the last one. Has another thread take one more, and gives all back.
// Returns whether that thread waited until one was given back.
fn waits_for_a_place<R: Threads + Wait + Clock + Sync>(
    rt: &R,
    places: &TicketPlaces,
    others: u32,
) -> bool {
    if others == 0 {
        return waits_until_given_back(rt, places);
    }
    let place = places.take(rt, 1);
    let has_waited = waits_for_a_place(rt, places, others - 1);
    place.give_back(rt);
    has_waited
}

#[test]
fn a_session_waits_for_a_place(rt: HostRuntime) -> Result<(), Fail> {
    assert!(rt; waits_for_a_place(&rt, &TicketPlaces::new(1), SESSION_TICKETS - 1));
    Ok(())
}

#[test]
fn a_larger_group_has_fewer_places_at_each_node(rt: HostRuntime) -> Result<(), Fail> {
    for (nodes, expected) in [(1, 32), (2, 16), (3, 6), (4, 3), (5, 2), (6, 2), (7, 2)] {
        let places = TicketPlaces::new(nodes);
        let taken = places.take(&rt, 2 * SESSION_TICKETS);
        let count = taken.count();
        taken.give_back(&rt);
        assert_eq!(rt; count, expected, "{nodes} nodes");
    }
    Ok(())
}

// A worker that has taken one ticket. It returns how many places are free, and then it answers.
fn count_free<K: HouseName, R: Wait>(
    rt: &R,
    jobs: Receiver<Ticket<K>>,
    places: &TicketPlaces,
) -> Option<u32> {
    let Ticket { job, answer } = jobs.recv(rt).ok()?;
    let taken = places.take(rt, SESSION_TICKETS);
    let free = taken.count();
    taken.give_back(rt);
    let _ = answer?.send(rt, Finished::misrouted(job));
    Some(free)
}

// Asks the worker at the other end of this line for the state of node 1.
fn ask_status<K: HouseName, R: Wait + Clock>(
    rt: &R,
    alloc: Global,
    line: &Sender<Ticket<K>>,
    hall: &Hall<K>,
    position: ReadPosition<K>,
)
    requires { 1 ≤ length K.base }
{
    if let Some(node) = NodeId::new(1) {
        let mut desk = NodeDesk::new(rt, alloc, node, service_of(line, hall), position);
        let _ = desk.answer(&Request::Ask(Control::Status));
    }
}

// How many places are free while a worker does what a session asks, and how many afterwards.
fn count_around<K: HouseName + Send + Sync, R: Threads + Wait + Clock + Sync>(
    rt: &R,
    alloc: Global,
    opened: Opened,
) -> Option<(u32, u32)>
    requires names { IsNamed opened K.book K.history K.base K.origin }
    requires nodes { opened.group.size.n ≡ 1 }
{
    let (house, mut readers) = match opened.parts::<K, R>(rt, alloc) {
        Ok(parts) => parts,
        Err((opened, _)) => {
            drop(opened.close());
            return None;
        }
    };
    house.recall();
    drop(house.close(rt));
    let (line, jobs) = crossbeam_channel::bounded(alloc, 64).ok()?;
    let (hall, position) = open_hall(alloc, readers.pop()?)?;
    let hall = &hall;
    let (meanwhile, ()) = thread::join(
        rt,
        move || count_free(rt, jobs, &hall.places),
        move || -> ()
            requires { 1 ≤ length K.base }
        { ask_status(rt, alloc, &line, hall, position) },
    );
    let taken = hall.places.take(rt, SESSION_TICKETS);
    let afterwards = taken.count();
    taken.give_back(rt);
    Some((meanwhile?, afterwards))
}

#[test]
fn a_place_stays_taken_until_the_worker_has_answered(rt: HostRuntime) -> Result<(), Fail> {
    let opened = open_group(rt.alloc(), 1).ok_or("memory")?;
    let counted = count_around::<Brand, _>(&rt, rt.alloc(), opened);
    assert_eq!(rt; counted, Some((SESSION_TICKETS - 1, SESSION_TICKETS)));
    Ok(())
}
