//! Batches: a worker takes the tickets that wait, and its store holds their records ahead.

ghost use Rattle.std.specs.Prelude.{◌≡◌, IfSome};
ghost use Rattle.urb_show.specs.Houses.{IsNamed};

use super::feeds::{make_stores, open_over};
use super::steps::{FIVE, NINETEEN, Step};
use super::{open_group, open_hub, submit};
use crossbeam_channel::{Receiver, Sender};
use std::alloc::Global;
use std::marker::Brand;
use std::sync::Wait;
use std::sync::atomic::{AtomicU64, Ordering};
use std::sync::ledger::Blank;
use std::test::Fail;
use std::time::Clock;
use urb_group::{MemStable, Reply};
use urb_link::{MemoryLink, Ticket};
use urb_names::{ClientId, Message, Name, NodeId, Refusal};
use urb_show::{HouseName, Opened};
use urb_stable::{AheadStore, Failure, Record, Stable};
use urb_turn::{Finished, Gate, Hub, HubName, Job, Silent, Tally};
use urb_worker::{WorkerSetting, serve_from};

// The number of tickets that a test's channel has room for, and the number of answers.
const ROOM: usize = 64;

// Counts how often a store is to keep records: once for each draft, and once more for each batch.
#[derive(Drop)]
struct Counts {
    stores: AtomicU64,
}

impl Gate for Counts {
    fn before_store(&self, _node: NodeId) {
        self.stores.fetch_add(1, Ordering::SeqCst);
    }
}

// How often a worker's gate was called, and how many tickets got each answer: a record is stored,
// the store failed, the node is down, and any other.
#[derive(Clone, Copy, Debug, PartialEq, Eq)]
struct Served {
    gate_calls: u64,
    stored: u32,
    failed: u32,
    down: u32,
    others: u32,
}

impl Served {
    // The same with one answer more.
    fn with(self, reply: &Reply) -> Served {
        match reply {
            Reply::Stored(_) => Served {
                stored: self.stored.saturating_add(1),
                ..self
            },
            Reply::Refused(Refusal::Device) => Served {
                failed: self.failed.saturating_add(1),
                ..self
            },
            Reply::Refused(Refusal::Down) => Served {
                down: self.down.saturating_add(1),
                ..self
            },
            _ => Served {
                others: self.others.saturating_add(1),
                ..self
            },
        }
    }
}

// Sends a worker a job, whose answer goes to this sender.
fn send_job<K: HouseName, R: Wait>(
    rt: &R,
    line: &Sender<Ticket<K>>,
    to: &Sender<Finished<K>>,
    job: Job,
) -> Option<()> {
    let answer = Some(to.clone().ok()?);
    line.send(rt, Ticket { job, answer }).ok()
}

// The job of a step.
fn make_job(alloc: Global, node: NodeId, step: Step) -> Option<Job> {
    match step {
        Step::Submit(number) => submit(alloc, node, number),
        Step::Status => Some(Job::Status(node)),
        Step::Crash => Some(Job::Crash(node)),
        Step::Restart => Some(Job::Restart(node)),
    }
}

// A channel with the tickets of these steps, which is closed. Their answers go to this sender.
fn make_tickets<K: HouseName, R: Wait>(
    rt: &R,
    alloc: Global,
    node: NodeId,
    steps: &[Step],
    to: &Sender<Finished<K>>,
) -> Option<Receiver<Ticket<K>>> {
    let (line, jobs) = crossbeam_channel::bounded(alloc, ROOM).ok()?;
    for step in steps {
        send_job(rt, &line, to, make_job(alloc, node, *step)?)?;
    }
    Some(jobs)
}

// What the answers say that came here.
fn count_answers<K: HouseName, R: Wait>(
    rt: &R,
    gate_calls: u64,
    from: &Receiver<Finished<K>>,
) -> Served {
    let mut served = Served {
        gate_calls,
        stored: 0,
        failed: 0,
        down: 0,
        others: 0,
    };
    for _ in 0..ROOM {
        let Ok(finished) = from.try_recv(rt) else {
            break;
        };
        served = served.with(finished.reply());
    }
    served
}

// Has a worker do these steps, over this store.
fn work<'x, K: HouseName, L: HubName, S: Stable<Alloc = Global>, R: Wait + Clock>(
    rt: &'x R,
    alloc: Global,
    hub: &'x Hub<K, L>,
    tally: Tally<K, L>,
    store: &mut S,
    steps: &[Step],
) -> (Tally<K, L>, Option<Served>) {
    let Some(node) = NodeId::new(1) else {
        return (tally, None);
    };
    let Ok((to, from)) = crossbeam_channel::bounded(alloc, ROOM) else {
        return (tally, None);
    };
    let Some(jobs) = make_tickets(rt, alloc, node, steps, &to) else {
        return (tally, None);
    };
    let Ok(link) = MemoryLink::new(rt, alloc) else {
        return (tally, None);
    };
    let gate = Counts {
        stores: AtomicU64::new(0),
    };
    let setting = WorkerSetting::new(rt, alloc, hub, &link, &gate, &Silent);
    let mut outlets = setting.outlets_for_worker();
    let (tally, _) = serve_from(&setting, node, store, &mut outlets, &jobs, tally);
    let gate_calls = gate.stores.load(Ordering::SeqCst);
    (tally, Some(count_answers(rt, gate_calls, &from)))
}

// The same at an opened group of one node.
fn work_at<K: HouseName, L: HubName, S: Stable<Alloc = Global>, R: Wait + Clock>(
    rt: &R,
    alloc: Global,
    opened: Opened,
    blank: Blank,
    store: &mut S,
    steps: &[Step],
) -> Option<Served>
    requires names { IsNamed opened K.book K.history K.base K.origin }
    requires name { blank.name ≡ L.name }
    requires parts { (blank.parts ≡ L.parts) × (L.parts ≡ 1) × (opened.group.size.n ≡ 1) }
    requires start { L.start ≡ 0 }
{
    let (hub, mut tallies, readers) = open_hub::<K, L, R>(rt, alloc, opened, blank)?;
    drop(readers);
    let tally = tallies.pop().unwrap();
    let (tally, served) = work(rt, alloc, &hub, tally, store, steps);
    tallies.push_reserved(tally);
    let (house, _) = hub.close(tallies);
    drop(house.close(rt));
    served
}

// The same at a new group.
fn work_anew<S: Stable<Alloc = Global>, R: Wait + Clock>(
    rt: &R,
    alloc: Global,
    store: &mut S,
    steps: &[Step],
) -> Option<Served> {
    let opened = open_group(alloc, 1)?;
    work_at::<Brand, Brand, S, R>(rt, alloc, opened, Blank::new(1), store, steps)
}

// The same at a group whose node has three messages, and over a store that has them and then fails.
// Returns the store too.
fn work_over_failing<R: Wait + Clock>(
    rt: &R,
    alloc: Global,
    failure: Failure,
    steps: &[Step],
) -> Option<(Served, MemStable)> {
    let mut stores = make_stores(alloc, 1, 3, 3)?;
    let opened = open_over(alloc, 1, stores.as_mut_slice())?;
    let Some(mut inner) = stores.pop() else {
        drop(opened.close());
        return None;
    };
    inner.arm(failure);
    let mut store = AheadStore::new(alloc, inner);
    let blank = Blank::new(1);
    let served = work_at::<Brand, Brand, _, R>(rt, alloc, opened, blank, &mut store, steps)?;
    Some((served, store.into_inner()))
}

// A record that the node won't draft: the first message of another client.
fn make_others(alloc: Global) -> Option<Vec<Record<Message>>> {
    let sender = NodeId::new(1)?;
    let message = Message::copy_of(alloc, ClientId::new(9)?, 1, b"m").ok()?;
    let mut others = Vec::new(alloc);
    others
        .push(Record::PendCert(Name { sender, seq: 1 }, message))
        .ok()?;
    Some(others)
}

// What a worker has done whose node stored all that was submitted, and answered one status.
fn all_stored(gate_calls: u64, stored: u32) -> Served {
    Served {
        gate_calls,
        stored,
        failed: 0,
        down: 0,
        others: 1,
    }
}

// One call ahead of the drafts keeps five records.
#[test]
fn five_submits_that_wait_share_one_call(rt: HostRuntime) -> Result<(), Fail> {
    let mut store = AheadStore::new(rt.alloc(), MemStable::new(rt.alloc()));
    let served = work_anew(&rt, rt.alloc(), &mut store, &FIVE);
    assert_eq!(rt; served, Some(all_stored(6, 5)));
    assert_eq!(rt; (store.next(), store.left()), (6, 0));
    Ok(())
}

// A record alone isn't held ahead.
#[test]
fn a_submit_alone_is_stored_as_before(rt: HostRuntime) -> Result<(), Fail> {
    let mut store = AheadStore::new(rt.alloc(), MemStable::new(rt.alloc()));
    let served = work_anew(
        &rt,
        rt.alloc(),
        &mut store,
        &[Step::Submit(1), Step::Status],
    );
    assert_eq!(rt; served, Some(all_stored(1, 1)));
    assert_eq!(rt; (store.next(), store.left()), (2, 0));
    Ok(())
}

// Of twenty tickets sixteen are a batch, and then four are. The status is one of them.
#[test]
fn a_batch_has_at_most_sixteen_tickets(rt: HostRuntime) -> Result<(), Fail> {
    let mut store = AheadStore::new(rt.alloc(), MemStable::new(rt.alloc()));
    let served = work_anew(&rt, rt.alloc(), &mut store, &NINETEEN);
    assert_eq!(rt; served, Some(all_stored(21, 19)));
    assert_eq!(rt; (store.next(), store.left()), (20, 0));
    Ok(())
}

// The first number is 3, so no message is the next one of its client. Nothing is drafted.
#[test]
fn submits_that_are_refused_have_no_records(rt: HostRuntime) -> Result<(), Fail> {
    let mut store = AheadStore::new(rt.alloc(), MemStable::new(rt.alloc()));
    let steps = [Step::Submit(3), Step::Submit(4), Step::Submit(5)];
    let served = work_anew(&rt, rt.alloc(), &mut store, &steps);
    let wanted = Served {
        others: 3,
        ..all_stored(0, 0)
    };
    assert_eq!(rt; served, Some(wanted));
    assert_eq!(rt; (store.next(), store.left()), (1, 0));
    Ok(())
}

// Two records are held ahead before the crash, and the submit after it is refused. After a restart
// the same submit is stored.
#[test]
fn a_crash_ends_what_is_foreseen(rt: HostRuntime) -> Result<(), Fail> {
    let mut store = AheadStore::new(rt.alloc(), MemStable::new(rt.alloc()));
    let steps = [
        Step::Submit(1),
        Step::Submit(2),
        Step::Crash,
        Step::Submit(3),
        Step::Restart,
        Step::Submit(3),
    ];
    let served = work_anew(&rt, rt.alloc(), &mut store, &steps);
    let wanted = Served {
        down: 1,
        others: 2,
        ..all_stored(4, 3)
    };
    assert_eq!(rt; served, Some(wanted));
    assert_eq!(rt; (store.next(), store.left()), (4, 0));
    Ok(())
}

// The store is asked once to hold the records ahead, and refuses. So it stores them one by one.
#[test]
fn a_store_that_holds_nothing_ahead_stores_each_record(rt: HostRuntime) -> Result<(), Fail> {
    let mut store = MemStable::new(rt.alloc());
    let served = work_anew(&rt, rt.alloc(), &mut store, &FIVE);
    assert_eq!(rt; served, Some(all_stored(6, 5)));
    assert_eq!(rt; store.next(), 6);
    Ok(())
}

// The store holds a record ahead that the node doesn't draft. It takes it out, and each submit is
// stored.
#[test]
fn a_wrong_prediction_loses_nothing(rt: HostRuntime) -> Result<(), Fail> {
    let alloc = rt.alloc();
    let mut store = AheadStore::new(alloc, MemStable::new(alloc));
    let mut others = make_others(alloc).ok_or("memory")?;
    assert_eq!(rt; store.store_ahead(&mut others), Ok(()));
    let served = work_anew(&rt, alloc, &mut store, &FIVE);
    assert_eq!(rt; served, Some(all_stored(6, 5)));
    assert_eq!(rt; (store.next(), store.left()), (6, 0));
    Ok(())
}

// The first submit finds out that the store failed, and takes the node down. The second is refused.
// What was accepted before is still there, and after a restart a submit is stored.
#[test]
fn a_store_that_fails_ahead_costs_a_restart(rt: HostRuntime) -> Result<(), Fail> {
    let alloc = rt.alloc();
    let steps = [
        Step::Submit(1),
        Step::Submit(2),
        Step::Restart,
        Step::Submit(1),
    ];
    let (served, mut inner) = work_over_failing(&rt, alloc, Failure::Old, &steps).ok_or("memory")?;
    let wanted = Served {
        gate_calls: 3,
        stored: 1,
        failed: 1,
        down: 1,
        others: 1,
    };
    assert_eq!(rt; served, wanted);
    let found = inner.retrieve(alloc).map_or(0, |records| records.len());
    assert_eq!(rt; found, 4);
    Ok(())
}
