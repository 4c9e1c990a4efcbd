//! Whether a feed is reported as cut: only if memory was refused for one of its packets.
//!
//! A test can't refuse memory to a worker, which takes it from `Global`. Run one by `rt try --test
//! --fail-alloc N`. If the Nth allocation is that of a portion, the count of cuts below is 1.

ghost use Rattle.std.specs.Prelude.{◌≡◌};
ghost use Rattle.urb_show.specs.Houses.{IsNamed};

use super::feeds::{make_stores, open_over};
use super::open_hub;
use crossbeam_channel::Receiver;
use std::alloc::Global;
use std::marker::Brand;
use std::sync::Wait;
use std::sync::atomic::{AtomicU64, Ordering};
use std::sync::ledger::Blank;
use std::test::Fail;
use std::time::Clock;
use urb_link::{MemoryLink, Ticket};
use urb_names::NodeId;
use urb_show::{HouseName, Opened};
use urb_stable::MemStable;
use urb_turn::{Change, Hub, HubName, Job, OpenGate, Reporter, Tally};
use urb_worker::{WorkerSetting, serve_from};

// How many tickets wait: more than node 3 is fed packets.
const TICKETS: usize = 130;

// Counts the feeds that are reported as cut, of node 3 in ones and of the others in hundreds.
#[derive(Drop)]
struct Cuts {
    reported: AtomicU64,
}

impl Reporter for Cuts {
    fn report(&self, _change: Change) {}

    fn report_cut_feed(&self, node: NodeId) {
        let step = if node.number() == 3 { 1 } else { 100 };
        self.reported.fetch_add(step, Ordering::SeqCst);
    }
}

// A channel with statuses of a node, which is closed.
fn make_statuses<K: HouseName, R: Wait>(
    rt: &R,
    alloc: Global,
    node: NodeId,
) -> Option<Receiver<Ticket<K>>> {
    let (line, jobs) = crossbeam_channel::bounded(alloc, TICKETS).ok()?;
    for _ in 0..TICKETS {
        let ticket = Ticket {
            job: Job::Status(node),
            answer: None,
        };
        line.send(rt, ticket).ok()?;
    }
    Some(jobs)
}

// Has the worker of node 3 do its tickets, over this store. It feeds its node meanwhile.
fn feed<K: HouseName, L: HubName, R: Wait + Clock>(
    rt: &R,
    alloc: Global,
    hub: &Hub<K, L>,
    store: &mut MemStable,
    cuts: &Cuts,
    tally: Tally<K, L>,
) -> Tally<K, L> {
    let Some(node) = NodeId::new(3) else {
        return tally;
    };
    let Some(jobs) = make_statuses(rt, alloc, node) else {
        return tally;
    };
    let Ok(link) = MemoryLink::new(rt, alloc) else {
        return tally;
    };
    let setting = WorkerSetting::new(rt, alloc, hub, &link, &OpenGate, cuts).mending();
    let mut outlets = setting.outlets_for_worker();
    let (tally, _) = serve_from(&setting, node, store, &mut outlets, &jobs, tally);
    tally
}

// The same at an opened group. Returns the count of events, and of feeds that were cut.
fn count_cuts<K: HouseName, L: HubName, R: Wait + Clock>(
    rt: &R,
    alloc: Global,
    opened: Opened,
    blank: Blank,
    store: &mut MemStable,
) -> Option<(u64, u64)>
    requires names { IsNamed opened K.book K.history K.base K.origin }
    requires name { blank.name ≡ L.name }
    requires parts { (blank.parts ≡ L.parts) × (L.parts ≡ 3) × (opened.group.size.n ≡ 3) }
    requires start { L.start ≡ 0 }
{
    let cuts = Cuts {
        reported: AtomicU64::new(0),
    };
    let (hub, mut tallies, readers) = open_hub::<K, L, R>(rt, alloc, opened, blank)?;
    drop(readers);
    let tally = tallies.pop().unwrap();
    let tally = feed(rt, alloc, &hub, store, &cuts, tally);
    tallies.push_reserved(tally);
    let (house, _) = hub.close(tallies);
    let events = house.events();
    drop(house.close(rt));
    Some((events, cuts.reported.load(Ordering::SeqCst)))
}

// The same for node 3 of three, which lacks 60 of the 100 names that the others hold.
fn cuts_of<R: Wait + Clock>(rt: &R, alloc: Global) -> Option<(u64, u64)> {
    let mut stores = make_stores(alloc, 3, 100, 40)?;
    let opened = open_over(alloc, 3, stores.as_mut_slice())?;
    let Some(mut store) = stores.pop() else {
        drop(opened.close());
        return None;
    };
    count_cuts::<Brand, Brand, R>(rt, alloc, opened, Blank::new(3), &mut store)
}

// Each of the 60 names comes twice. The first packet of a name is two events, the second is one.
#[test]
fn a_feed_that_ends_by_itself_is_not_reported_as_cut(rt: HostRuntime) -> Result<(), Fail> {
    assert_eq!(rt; cuts_of(&rt, rt.alloc()), Some((180, 0)));
    Ok(())
}
