//! What a worker does besides its tickets: packets that it feeds, and ticks.

ghost use Rattle.std.specs.Prelude.{◌≡◌, ◌≤◌};
ghost use Rattle.urb_show.specs.Houses.{IsNamed};

use super::feeds::{make_stores, open_over};
use super::open_hub;
use crossbeam_channel::{Receiver, Sender};
use std::alloc::Global;
use std::marker::Brand;
use std::sync::Wait;
use std::sync::ledger::Blank;
use std::test::Fail;
use std::thread;
use std::thread::Threads;
use std::time::{Clock, Duration};
use urb_link::{MemoryLink, Ticket};
use urb_names::NodeId;
use urb_show::{HouseName, Opened};
use urb_stable::MemStable;
use urb_turn::{Hub, HubName, Job, OpenGate, Silent, Tally};
use urb_worker::{EARLY_TICKS, WorkerSetting, serve_from};

// Tickets for a node: `count` of them, each a status or a tick.
fn make_tickets<K: HouseName, R: Wait>(
    rt: &R,
    alloc: Global,
    node: NodeId,
    count: u8,
    are_ticks: bool,
) -> Option<(Sender<Ticket<K>>, Receiver<Ticket<K>>)> {
    let (line, jobs) = crossbeam_channel::bounded(alloc, 64).ok()?;
    for _ in 0..count {
        let job = if are_ticks {
            Job::Tick(node)
        } else {
            Job::Status(node)
        };
        line.send(rt, Ticket { job, answer: None }).ok()?;
    }
    Some((line, jobs))
}

// A worker's node, and what waits in its channel when it starts: `count` ticks or statuses. The
// channel is open for `millis` milliseconds, as often as `times` says. A tick of the timer comes
// between two of these times.
#[derive(Clone, Copy)]
struct Course {
    number: u8,
    count: u8,
    are_ticks: bool,
    millis: u64,
    times: u8,
}

// Has a worker that mends do its tickets, and returns its tally.
fn work<K: HouseName + Send + Sync, L: HubName + Send + Sync, R: Threads + Wait + Clock + Sync>(
    rt: &R,
    alloc: Global,
    hub: &Hub<K, L>,
    stores: Vec<MemStable>,
    tally: Tally<K, L>,
    course: Course,
) -> Tally<K, L> {
    let mut stores = stores;
    for _ in course.number..3 {
        drop(stores.pop());
    }
    let Some(store) = stores.pop() else {
        return tally;
    };
    let Some(node) = NodeId::new(course.number) else {
        return tally;
    };
    let Some((line, jobs)) = make_tickets(rt, alloc, node, course.count, course.are_ticks) else {
        return tally;
    };
    let Ok(link) = MemoryLink::new(rt, alloc) else {
        return tally;
    };
    let (number, millis, times, link) = (course.number, course.millis, course.times, &link);
    if times == 0 {
        drop(line);
        return serve_node(rt, alloc, hub, number, store, &jobs, link, tally);
    }
    let (tally, ()) = thread::join(
        rt,
        move || serve_node(rt, alloc, hub, number, store, &jobs, link, tally),
        move || {
            thread::sleep(rt, Duration::from_millis(millis));
            for _ in 1..times {
                let job = Job::Tick(node);
                let _ = line.send(rt, Ticket { job, answer: None });
                thread::sleep(rt, Duration::from_millis(millis));
            }
            drop(line);
        },
    );
    tally
}

// The loop of the worker of the node with this number.
fn serve_node<K: HouseName, L: HubName, R: Wait + Clock>(
    rt: &R,
    alloc: Global,
    hub: &Hub<K, L>,
    number: u8,
    store: MemStable,
    jobs: &Receiver<Ticket<K>>,
    link: &MemoryLink<'_, R>,
    tally: Tally<K, L>,
) -> Tally<K, L> {
    let Some(node) = NodeId::new(number) else {
        return tally;
    };
    let mut store = store;
    let setting = WorkerSetting::new(rt, alloc, hub, link, &OpenGate, &Silent).mending();
    let mut outlets = setting.outlets_for_worker();
    let (tally, _) = serve_from(&setting, node, &mut store, &mut outlets, jobs, tally);
    tally
}

// The count of events of a worker over this group.
fn count_events<K: HouseName + Send + Sync, L: HubName + Send + Sync, R>(
    rt: &R,
    alloc: Global,
    opened: Opened,
    blank: Blank,
    stores: Vec<MemStable>,
    course: Course,
) -> Option<u64>
where
    R: Threads + Wait + Clock + Sync,
    requires names { IsNamed opened K.book K.history K.base K.origin }
    requires name { blank.name ≡ L.name }
    requires parts { (blank.parts ≡ L.parts) × (L.parts ≡ 3) × (opened.group.size.n ≡ 3) }
    requires start { L.start ≡ 0 }
{
    let (hub, mut tallies, readers) = open_hub::<K, L, R>(rt, alloc, opened, blank)?;
    drop(readers);
    let tally = tallies.pop().unwrap();
    let tally = work(rt, alloc, &hub, stores, tally, course);
    tallies.push_reserved(tally);
    let (house, _) = hub.close(tallies);
    let events = house.events();
    drop(house.close(rt));
    Some(events)
}

// The count of events of one worker of three nodes. Nodes 1 and 2 have `stored` messages of node 1,
// and node 3 has the first `held` of them.
fn events_of<R: Threads + Wait + Clock + Sync>(
    rt: &R,
    alloc: Global,
    stored: u32,
    held: u32,
    course: Course,
) -> Option<u64> {
    let mut stores = make_stores(alloc, 3, stored, held)?;
    let opened = open_over(alloc, 3, stores.as_mut_slice())?;
    count_events::<Brand, Brand, R>(rt, alloc, opened, Blank::new(3), stores, course)
}

// What waits in the channel of a node's worker, and how long it is open.
fn course_of(number: u8, count: u8, are_ticks: bool, times: u8) -> Course {
    Course {
        number,
        count,
        are_ticks,
        millis: 500,
        times,
    }
}

// Nodes 1 and 2 both offer each name. The first of the two packets is stored, which is two events,
// and the second one is one event. A status is none.
#[test]
fn a_worker_feeds_one_packet_between_two_tickets(rt: HostRuntime) -> Result<(), Fail> {
    let course = course_of(3, 10, false, 0);
    assert_eq!(rt; events_of(&rt, rt.alloc(), 100, 40, course), Some(15));
    Ok(())
}

// Two packets of each of the 60 names that node 3 lacks, and then the worker is at rest.
#[test]
fn a_worker_feeds_each_packet_once(rt: HostRuntime) -> Result<(), Fail> {
    let events = events_of(&rt, rt.alloc(), 100, 40, course_of(3, 1, false, 1));
    assert_eq!(rt; events, Some(180));
    Ok(())
}

// Nobody answers the packets of node 1.
#[test]
fn early_ticks_follow_a_tick_that_sent_something_and_end(rt: HostRuntime) -> Result<(), Fail> {
    let events = events_of(&rt, rt.alloc(), 100, 0, course_of(1, 1, true, 1));
    assert_eq!(rt; events, Some(1 + u64::from(EARLY_TICKS)));
    Ok(())
}

// The timer ticks twice, and the worker is silent in between: nobody answers it.
#[test]
fn each_tick_of_the_timer_has_its_early_ticks(rt: HostRuntime) -> Result<(), Fail> {
    let events = events_of(&rt, rt.alloc(), 100, 0, course_of(1, 1, true, 2));
    assert_eq!(rt; events, Some(2 + 2 * u64::from(EARLY_TICKS)));
    Ok(())
}

// A tick that sends nothing is one event.
#[test]
fn a_tick_that_sent_nothing_is_followed_by_none(rt: HostRuntime) -> Result<(), Fail> {
    let events = events_of(&rt, rt.alloc(), 0, 0, course_of(1, 1, true, 1));
    assert_eq!(rt; events, Some(1));
    Ok(())
}
