//! A gate is called only for jobs whose record a store is to keep.

ghost use Rattle.std.specs.Prelude.{◌≡◌};
ghost use Rattle.urb_show.specs.Houses.{IsNamed};

use super::{open_group, open_hub, submit};
use std::alloc::Global;
use std::marker::Brand;
use std::sync::Wait;
use std::sync::atomic::{AtomicU64, Ordering};
use std::sync::ledger::Blank;
use std::test::Fail;
use urb_group::MemStable;
use urb_names::NodeId;
use urb_show::{HouseName, Opened};
use urb_turn::{Gate, Hub, HubName, Job, Tally};

// Counts how often each node was about to store a record: node 1 in ones, and all others in
// hundreds.
#[derive(Drop)]
struct Counter {
    asked: AtomicU64,
}

impl Gate for Counter {
    fn before_store(&self, node: NodeId) {
        let step = if node.number() == 1 { 1 } else { 100 };
        self.asked.fetch_add(step, Ordering::SeqCst);
    }
}

// What a job of these tests does. A submit has this number.
#[derive(Clone, Copy)]
enum Deed {
    Submit(u32),
    Tick,
    Status,
    Arrive,
    Crash,
    Restart,
}

// The second submit repeats the first, and a crash comes before the last one.
const DEEDS: [Deed; 9] = [
    Deed::Submit(1),
    Deed::Submit(1),
    Deed::Tick,
    Deed::Status,
    Deed::Arrive,
    Deed::Crash,
    Deed::Submit(2),
    Deed::Restart,
    Deed::Submit(2),
];

// The job of a node that does this. The packet that arrives has no bytes.
fn job_of(alloc: Global, node: NodeId, deed: Deed) -> Option<Job> {
    match deed {
        Deed::Submit(number) => submit(alloc, node, number),
        Deed::Tick => Some(Job::Tick(node)),
        Deed::Status => Some(Job::Status(node)),
        Deed::Arrive => Some(Job::Arrive {
            node,
            bytes: Vec::new(alloc),
        }),
        Deed::Crash => Some(Job::Crash(node)),
        Deed::Restart => Some(Job::Restart(node)),
    }
}

// The jobs of a node, one after the other.
fn make_jobs(alloc: Global, node: NodeId) -> Option<Vec<Job>> {
    let mut jobs = Vec::new(alloc);
    for deed in &DEEDS {
        jobs.push(job_of(alloc, node, *deed)?).ok()?;
    }
    Some(jobs)
}

// Has a node's worker do all of these jobs. Returns how often the gate had been called after each
// job, as digits.
fn work_all<K: HouseName, L: HubName, R: Wait>(
    rt: &R,
    alloc: Global,
    hub: &Hub<K, L>,
    node: NodeId,
    jobs: Vec<Job>,
    tally: Tally<K, L>,
) -> (u64, Tally<K, L>) {
    let gate = Counter {
        asked: AtomicU64::new(0),
    };
    let mut store = MemStable::new(alloc);
    let mut tally = tally;
    let mut digits: u64 = 0;
    for job in jobs {
        let (_, counted) = hub.work(rt, alloc, node, job, &mut store, &gate, tally);
        tally = counted;
        let asked = gate.asked.load(Ordering::SeqCst);
        digits = digits.saturating_mul(10).saturating_add(asked);
    }
    (digits, tally)
}

// The same at a new group of one node.
fn run_drafts<K: HouseName, L: HubName, R: Wait>(
    rt: &R,
    alloc: Global,
    opened: Opened,
    blank: Blank,
    jobs: Vec<Job>,
) -> Option<u64>
    requires names { IsNamed opened K.book K.history K.base K.origin }
    requires name { blank.name ≡ L.name }
    requires parts { (blank.parts ≡ L.parts) × (L.parts ≡ 1) × (opened.group.size.n ≡ 1) }
    requires start { L.start ≡ 0 }
{
    let (hub, mut tallies, readers) = open_hub::<K, L, R>(rt, alloc, opened, blank)?;
    drop(readers);
    let tally = tallies.pop().unwrap();
    let (digits, tally) = work_all(rt, alloc, &hub, NodeId::new(1).unwrap(), jobs, tally);
    tallies.push_reserved(tally);
    let (house, is_known) = hub.close(tallies);
    drop(house.close(rt));
    if !is_known {
        return None;
    }
    Some(digits)
}

#[test]
fn a_gate_is_asked_for_drafts_alone(rt: HostRuntime) -> Result<(), Fail> {
    let jobs = make_jobs(rt.alloc(), NodeId::new(1).unwrap()).ok_or("memory")?;
    let opened = open_group(rt.alloc(), 1).ok_or("memory")?;
    let asked = run_drafts::<Brand, Brand, _>(&rt, rt.alloc(), opened, Blank::new(1), jobs);
    // Of nine jobs the first and the last draft a record.
    assert_eq!(rt; asked, Some(111_111_112));
    Ok(())
}
