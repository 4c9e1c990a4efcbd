//! Workers over channels and links in memory: a node works while another node's store is held, by a
//! gate before the store or inside it.

ghost use Rattle.std.specs.Prelude.{◌≡◌};
ghost use Rattle.urb_show.specs.Houses.{IsNamed};

use super::shorts::{Said, Short, short_of};
use super::{open_group, open_hub, submit};
use crossbeam_channel::{Receiver, Sender};
use std::alloc::Global;
use std::marker::Brand;
use std::sync::Wait;
use std::sync::atomic::{AtomicU64, Ordering};
use std::sync::ledger::Blank;
use std::test::Fail;
use std::thread;
use std::thread::Threads;
use std::time::{Clock, Duration};
use urb_group::{MemStable, Record, Stable, StoreFault};
use urb_link::{MemoryLink, Ticket};
use urb_names::NodeId;
use urb_show::{HouseName, Opened};
use urb_turn::{Finished, Gate, HubName, Job, OpenGate};
use urb_worker::serve;

// What node 1's side and the client signal to each other: how often node 1's store was held, whether
// node 2 was answered, and whether node 1's side gave up waiting for that.
#[derive(Drop)]
struct Signs {
    held: AtomicU64,
    answered: AtomicU64,
    late: AtomicU64,
}

// Waits for a sign, for at most 10,000 checks, a millisecond apart.
fn comes<R: Clock>(rt: &R, sign: &AtomicU64) -> bool {
    for _ in 0..10_000u32 {
        if sign.load(Ordering::SeqCst) != 0 {
            return true;
        }
        thread::sleep(rt, Duration::from_millis(1));
    }
    false
}

// Holds node 1's store until node 2's submit was answered.
fn hold<R: Clock>(rt: &R, signs: &Signs) {
    signs.held.fetch_add(1, Ordering::SeqCst);
    if !comes(rt, &signs.answered) {
        signs.late.store(1, Ordering::SeqCst);
    }
}

// A gate that holds node 1's store.
#[derive(Drop)]
struct HoldsFirst<'a, R: Clock> {
    rt: &'a R,
    signs: &'a Signs,
}

impl<'a, R: Clock> Gate for HoldsFirst<'a, R> {
    fn before_store(&self, node: NodeId) {
        if node.number() == 1 {
            hold(self.rt, self.signs);
        }
    }
}

// A store in memory that is held while it stores a record.
#[derive(Drop)]
struct Slow<'a, R: Clock> {
    rt: &'a R,
    signs: &'a Signs,
    store: MemStable,
}

impl<'a, R: Clock> Stable for Slow<'a, R> {
    type Alloc = Global;

    ghost certain = { λ s. ⟦<MemStable as Stable>⟧.certain s.store };

    ghost doubt = { λ s. ⟦<MemStable as Stable>⟧.doubt s.store };

    ghost is_doubtful = { λ s. ⟦<MemStable as Stable>⟧.is_doubtful s.store };

    ghost place = { λ s. ⟦<MemStable as Stable>⟧.place s.store };

    ghost failures = { λ s. ⟦<MemStable as Stable>⟧.failures s.store };

    ghost is_clean = { λ s. ⟦<MemStable as Stable>⟧.is_clean s.store };

    ghost is_honest = { λ s. ⟦<MemStable as Stable>⟧.is_honest s.store };

    ghost is_shut = { λ s. ⟦<MemStable as Stable>⟧.is_shut s.store };

    ghost leaves_only = { λ s. ⟦<MemStable as Stable>⟧.leaves_only s.store };

    ghost stores = { λ s. ⟦<MemStable as Stable>⟧.stores s.store };

    ghost answers = { λ s. ⟦<MemStable as Stable>⟧.answers s.store };

    ghost ahead = { λ s. ⟦<MemStable as Stable>⟧.ahead s.store };

    ghost base = { λ s. ⟦<MemStable as Stable>⟧.base s.store };

    ghost can_hold = { λ s. ⟦<MemStable as Stable>⟧.can_hold s.store };

    fn next(&self) -> u32 {
        self.store.next()
    }

    fn doubtful(&self) -> bool {
        self.store.doubtful()
    }

    fn store(&mut self, pos: u32, entry: &Record) -> Result<(), StoreFault> {
        hold(self.rt, self.signs);
        self.store.store(pos, entry)
    }

    fn store_all(&mut self, pos: u32, entries: &[Record]) -> Result<(), StoreFault> {
        hold(self.rt, self.signs);
        self.store.store_all(pos, entries)
    }

    fn retrieve(&mut self, alloc: Global) -> Result<Vec<Record>, StoreFault> {
        self.store.retrieve(alloc)
    }

    fn store_ahead(&mut self, records: &mut Vec<Record>) -> Result<(), StoreFault> {
        self.store.store_ahead(records)
    }
}

// Sends a worker a job. Its answer arrives at the returned receiver.
fn send_job<K: HouseName, R: Wait>(
    rt: &R,
    alloc: Global,
    line: &Sender<Ticket<K>>,
    job: Job,
) -> Option<Receiver<Finished<K>>> {
    let (to, from) = crossbeam_channel::bounded(alloc, 1).ok()?;
    let ticket = Ticket {
        job,
        answer: Some(to),
    };
    line.send(rt, ticket).ok()?;
    Some(from)
}

// The outcome of the job whose answer arrives here.
fn receive_result<K: HouseName, R: Wait>(rt: &R, from: Receiver<Finished<K>>) -> Option<Short> {
    Some(short_of(from.recv(rt).ok()?))
}

// Sends a worker a job, and returns the outcome.
fn ask<K: HouseName, R: Wait>(
    rt: &R,
    alloc: Global,
    line: &Sender<Ticket<K>>,
    job: Job,
) -> Option<Short> {
    receive_result(rt, send_job(rt, alloc, line, job)?)
}

// The outcome of a submit at node 2 while node 1's store is held. The store may go on after it.
fn ask_meanwhile<K: HouseName, R: Wait + Clock>(
    rt: &R,
    alloc: Global,
    signs: &Signs,
    line: &Sender<Ticket<K>>,
) -> Option<Short> {
    let two = NodeId::new(2)?;
    let is_held = comes(rt, &signs.held);
    let quick = ask(rt, alloc, line, submit(alloc, two, 1)?);
    signs.answered.store(1, Ordering::SeqCst);
    if is_held { quick } else { None }
}

// Has node 1 do a submit, and node 2 too while node 1's store is held. Returns whether both were
// accepted.
fn are_accepted<K: HouseName, R: Wait + Clock>(
    rt: &R,
    alloc: Global,
    signs: &Signs,
    first: &Sender<Ticket<K>>,
    second: &Sender<Ticket<K>>,
) -> Option<bool> {
    let one = NodeId::new(1)?;
    let slow = send_job(rt, alloc, first, submit(alloc, one, 1)?)?;
    let quick = ask_meanwhile(rt, alloc, signs, second);
    let slow = receive_result(rt, slow)?;
    Some(slow.said == Said::Accepted(1) && quick?.said == Said::Accepted(1))
}

// Has node 1 do a submit, and node 2 too while node 1's store is held. Then node 1 does a tick and
// gets a job of node 2. Returns whether both submits were accepted, packets were sent, and the last
// job did not run.
fn both_asked<K: HouseName, R: Wait + Clock>(
    rt: &R,
    alloc: Global,
    signs: &Signs,
    first: &Sender<Ticket<K>>,
    second: &Sender<Ticket<K>>,
) -> Option<bool> {
    let are_accepted = are_accepted(rt, alloc, signs, first, second)?;
    let tick = ask(rt, alloc, first, Job::Tick(NodeId::new(1)?))?;
    let stray = ask(rt, alloc, first, Job::Tick(NodeId::new(2)?))?;
    Some(are_accepted && tick.said == Said::Sent && !stray.ran)
}

// The outcome of two workers: whether all went as it should, how often node 1's store was held, and
// whether its hold gave up. Also the House's events, and how many packets each node was sent.
#[derive(Clone, Copy, Debug, PartialEq, Eq)]
struct Outcome {
    went_well: bool,
    held: u64,
    late: u64,
    events: u64,
    sent: (usize, usize),
}

// Both ends of a worker's channel: its queue, and the worker's end.
type Line<K> = (Sender<Ticket<K>>, Receiver<Ticket<K>>);

// A link, and a channel for each of two nodes.
fn make_queues<K: HouseName, R: Wait>(
    rt: &R,
    alloc: Global,
) -> Option<(MemoryLink<'_, R>, Line<K>, Line<K>)> {
    let link = MemoryLink::new(rt, alloc).ok()?;
    let first = crossbeam_channel::bounded(alloc, 64).ok()?;
    let second = crossbeam_channel::bounded(alloc, 64).ok()?;
    Some((link, first, second))
}

// What two workers do with the client's jobs. Node 1 has this store, and both have this gate.
fn two_workers<
    K: HouseName + Send + Sync,
    L: HubName + Send + Sync,
    S: Stable<Alloc = Global> + Send + Drop,
    G: Gate + Sync,
    R: Threads + Wait + Clock + Sync,
>(
    rt: &R,
    alloc: Global,
    opened: Opened,
    blank: Blank,
    store: S,
    gate: &G,
    signs: &Signs,
) -> Option<Outcome>
    requires names { IsNamed opened K.book K.history K.base K.origin }
    requires name { blank.name ≡ L.name }
    requires parts { (blank.parts ≡ L.parts) × (L.parts ≡ 2) × (opened.group.size.n ≡ 2) }
    requires start { L.start ≡ 0 }
{
    let one = NodeId::new(1).unwrap();
    let two = NodeId::new(2).unwrap();
    let Some((link, (first, first_jobs), (second, second_jobs))) = make_queues::<K, R>(rt, alloc)
    else {
        drop(opened.close());
        return None;
    };
    let (hub, mut tallies, readers) = open_hub::<K, L, R>(rt, alloc, opened, blank)?;
    drop(readers);
    let first_tally = tallies.pop().unwrap();
    let second_tally = tallies.pop().unwrap();
    let (hub_of, link_of) = (&hub, &link);
    let (first_tally, (second_tally, went_well)) = thread::join(
        rt,
        move || {
            serve(
                rt,
                alloc,
                hub_of,
                one,
                store,
                first_jobs,
                link_of,
                gate,
                first_tally,
            )
        },
        move || {
            thread::join(
                rt,
                move || {
                    let store = MemStable::new(alloc);
                    serve(
                        rt,
                        alloc,
                        hub_of,
                        two,
                        store,
                        second_jobs,
                        link_of,
                        gate,
                        second_tally,
                    )
                },
                move || both_asked(rt, alloc, signs, &first, &second),
            )
        },
    );
    tallies.push_reserved(first_tally);
    tallies.push_reserved(second_tally);
    let (house, _) = hub.close(tallies);
    let events = house.events();
    drop(house.close(rt));
    Some(Outcome {
        went_well: went_well == Some(true),
        held: signs.held.load(Ordering::SeqCst),
        late: signs.late.load(Ordering::SeqCst),
        events,
        sent: (link.empty(one).len(), link.empty(two).len()),
    })
}

// No sign yet.
fn new_signs() -> Signs {
    Signs {
        held: AtomicU64::new(0),
        answered: AtomicU64::new(0),
        late: AtomicU64::new(0),
    }
}

// Both submits are accepted, the second one while node 1's store is held.
const OVERLAPPED: Outcome = Outcome {
    went_well: true,
    held: 1,
    late: 0,
    events: 5,
    sent: (1, 2),
};

#[test]
fn stores_of_two_nodes_overlap(rt: HostRuntime) -> Result<(), Fail> {
    let alloc = rt.alloc();
    let opened = open_group(alloc, 2).ok_or("memory")?;
    let (blank, signs) = (Blank::new(2), new_signs());
    let (store, gate) = (
        MemStable::new(alloc),
        HoldsFirst {
            rt: &rt,
            signs: &signs,
        },
    );
    let outcome = two_workers::<Brand, Brand, MemStable, _, _>(
        &rt, alloc, opened, blank, store, &gate, &signs,
    );
    assert_eq!(rt; outcome, Some(OVERLAPPED));
    Ok(())
}

// A store takes its time while nobody holds the lock: node 2 is answered meanwhile.
#[test]
fn a_node_is_answered_while_another_store_works(rt: HostRuntime) -> Result<(), Fail> {
    let alloc = rt.alloc();
    let opened = open_group(alloc, 2).ok_or("memory")?;
    let (blank, signs) = (Blank::new(2), new_signs());
    let store = Slow {
        rt: &rt,
        signs: &signs,
        store: MemStable::new(alloc),
    };
    let outcome = two_workers::<Brand, Brand, Slow<'_, _>, _, _>(
        &rt, alloc, opened, blank, store, &OpenGate, &signs,
    );
    assert_eq!(rt; outcome, Some(OVERLAPPED));
    Ok(())
}
