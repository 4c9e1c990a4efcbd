//! Refusals that a client gets only if a store fails or the group is full, at the desk of a running
//! node.

ghost use Rattle.std.specs.Prelude.{◌≡◌, ◌≤◌, IfSome, length};
ghost use Rattle.urb_show.specs.Houses.{IsNamed};

use super::{open_hall, open_hub, service_of};
use crossbeam_channel::Sender;
use std::alloc::Global;
use std::marker::Brand;
use std::sync::Wait;
use std::sync::ledger::Blank;
use std::test::Fail;
use std::thread;
use std::thread::Threads;
use std::time::Clock;
use urb_client::{Ended, session};
use urb_desk::NodeDesk;
use urb_group::{Group, MemStable, Record, Stable, StoreFault};
use urb_link::{MemoryLink, Ticket};
use urb_names::{Config, NodeId};
use urb_show::{House, HouseName, LogReader, Opened};
use urb_turn::{HubName, OpenGate};
use urb_worker::serve;

/// What a strange store answers if it is asked for its records.
#[derive(Clone, Copy)]
enum Answer {
    NoMemory,
    Device,
    BadRow(u32),
    /// No record, whatever was stored.
    NoRecord,
}

/// A store in memory that gives this answer for its records. So nothing is promised of it.
#[derive(Drop)]
struct Strange {
    store: MemStable,
    answer: Answer,
    failures: u32,
}

impl Stable for Strange {
    type Alloc = Global;

    ghost use Rattle.std.specs.Prelude.{◌+◌};

    ghost certain = { λ s. ⟦<MemStable as Stable>⟧.certain s.store };

    ghost doubt = { λ s. ⟦<MemStable as Stable>⟧.doubt s.store };

    ghost is_doubtful = { λ s. ⟦<MemStable as Stable>⟧.is_doubtful s.store };

    ghost place = { λ s. ⟦<MemStable as Stable>⟧.place s.store };

    ghost failures = { λ s. ⟦<MemStable as Stable>⟧.failures s.store + s.failures };

    ghost is_clean = { λ s. ⊥ };

    ghost is_honest = { λ s. ⊥ };

    ghost is_shut = { λ s. ⊥ };

    ghost leaves_only = { λ s P. Unit {0} };

    ghost stores = { λ s pos entry result. Unit {0} };

    ghost answers = { λ s result. Unit {0} };

    ghost ahead = { λ s. ⟦<MemStable as Stable>⟧.ahead s.store };

    ghost base = { λ s. ⟦<MemStable as Stable>⟧.base s.store };

    ghost can_hold = { λ s. ⟦<MemStable as Stable>⟧.can_hold s.store };

    fn next(&self) -> u32 {
        self.store.next()
    }

    fn doubtful(&self) -> bool {
        self.store.doubtful()
    }

    fn store(&mut self, pos: u32, entry: &Record) -> Result<(), StoreFault> {
        self.store.store(pos, entry)
    }

    fn store_all(&mut self, pos: u32, entries: &[Record]) -> Result<(), StoreFault> {
        self.store.store_all(pos, entries)
    }

    fn retrieve(&mut self, alloc: Global) -> Result<Vec<Record>, StoreFault> {
        match self.answer {
            Answer::Device if self.failures < u32::MAX => {
                self.failures += 1;
                Err(StoreFault::Device)
            }
            Answer::BadRow(row) => Err(StoreFault::BadRow(row)),
            Answer::NoRecord => {
                drop(self.store.retrieve(alloc)?);
                Ok(Vec::new(alloc))
            }
            _ => Err(StoreFault::NoMemory),
        }
    }

    fn store_ahead(&mut self, records: &mut Vec<Record>) -> Result<(), StoreFault> {
        self.store.store_ahead(records)
    }
}

// A new group of one node with this cap, opened.
fn open_with_cap(alloc: Global, cap: u32) -> Option<Opened>
    ensures { IfSome result (λ it. it.group.size.n ≡ 1) }
{
    let config = Config::new(1, cap)?;
    let group = Group::new(alloc, config).ok()?;
    House::open(group).ok()
}

// Whether a client that sends this at node 1's desk gets exactly these answers, up to the end of its
// session at a bad length.
fn is_answered<K: HouseName, R: Wait + Clock>(
    rt: &R,
    alloc: Global,
    line: &Sender<Ticket<K>>,
    reader: LogReader<K>,
    sent: &[u8],
    answered: &[u8],
) -> bool
    requires { 1 ≤ length K.base }
{
    let node = NodeId::new(1).unwrap();
    let Some((hall, position)) = open_hall(alloc, reader) else {
        return false;
    };
    let service = service_of(line, &hall);
    let mut desk = NodeDesk::new(rt, alloc, node, service, position);
    let mut input = sent;
    let mut output = Vec::new(alloc);
    let end = session(alloc, &mut input, &mut output, &mut desk);
    end == Ok(Ended::BadFrame) && output.as_slice() == answered
}

// The same with the node's worker over this store.
fn run_session<
    K: HouseName + Send + Sync,
    L: HubName + Send + Sync,
    S: Stable<Alloc = Global> + Send + Drop,
    R: Threads + Wait + Clock + Sync,
>(
    rt: &R,
    alloc: Global,
    opened: Opened,
    blank: Blank,
    store: S,
    sent: &[u8],
    answered: &[u8],
) -> Option<bool>
    requires names { IsNamed opened K.book K.history K.base K.origin }
    requires name { blank.name ≡ L.name }
    requires parts { (blank.parts ≡ L.parts) × (L.parts ≡ 1) × (opened.group.size.n ≡ 1) }
    requires start { L.start ≡ 0 }
{
    let node = NodeId::new(1).unwrap();
    let (Ok(link), Ok((line, jobs))) = (
        MemoryLink::new(rt, alloc),
        crossbeam_channel::bounded(alloc, 64),
    ) else {
        drop(opened.close());
        return None;
    };
    let (hub, mut tallies, mut readers) = open_hub::<K, L, R>(rt, alloc, opened, blank)?;
    let tally = tallies.pop().unwrap();
    let reader = readers.pop().unwrap();
    let (hub_of, link_of) = (&hub, &link);
    let (tally, is_right) = thread::join(
        rt,
        move || {
            serve(
                rt, alloc, hub_of, node, store, jobs, link_of, &OpenGate, tally,
            )
        },
        move || -> bool
            requires { 1 ≤ length K.base }
        { is_answered(rt, alloc, &line, reader, sent, answered) },
    );
    tallies.push_reserved(tally);
    let (house, is_known) = hub.close(tallies);
    drop(house.close(rt));
    Some(is_right && is_known)
}

// A submit, a crash, a restart, and a bad length. The submit is accepted, and the crash is done.
const RESTARTED: &[u8] = b"\x00\x09\x01\x00\x07\x00\x00\x00\x01hi\x00\x01\x04\x00\x01\x05\x00\x00";

#[test]
fn a_restart_over_a_strange_store_is_refused_by_its_fault(rt: HostRuntime) -> Result<(), Fail> {
    let alloc = rt.alloc();
    for (answer, answered) in [
        (
            Answer::NoMemory,
            b"\x00\x05\x81\x00\x00\x00\x01\x00\x01\x84\x00\x06\xee\x01\x00\x00\x00\x00\
\x00\x06\xee\x13\x00\x00\x00\x01"
                .as_slice(),
        ),
        (
            Answer::NoRecord,
            b"\x00\x05\x81\x00\x00\x00\x01\x00\x01\x84\x00\x06\xee\x0d\x00\x00\x00\x00\
\x00\x06\xee\x13\x00\x00\x00\x01",
        ),
        (
            Answer::Device,
            b"\x00\x05\x81\x00\x00\x00\x01\x00\x01\x84\x00\x06\xee\x0f\x00\x00\x00\x00\
\x00\x06\xee\x13\x00\x00\x00\x01",
        ),
        (
            Answer::BadRow(3),
            b"\x00\x05\x81\x00\x00\x00\x01\x00\x01\x84\x00\x06\xee\x11\x00\x00\x00\x03\
\x00\x06\xee\x13\x00\x00\x00\x01",
        ),
    ] {
        let opened = open_with_cap(alloc, 100).ok_or("memory")?;
        let store = Strange {
            store: MemStable::new(alloc),
            answer,
            failures: 0,
        };
        let blank = Blank::new(1);
        let is_right = run_session::<Brand, Brand, Strange, _>(
            &rt, alloc, opened, blank, store, RESTARTED, answered,
        );
        assert_eq!(rt; is_right, Some(true));
    }
    Ok(())
}

// Three submits of a client at a node whose cap is two. Then the second one again, and a bad length.
const FILLED: &[u8] = b"\x00\x08\x01\x00\x07\x00\x00\x00\x01a\x00\x08\x01\x00\x07\x00\x00\x00\x02b\
\x00\x08\x01\x00\x07\x00\x00\x00\x03c\x00\x08\x01\x00\x07\x00\x00\x00\x02b\x00\x00";

const FULL: &[u8] = b"\x00\x05\x81\x00\x00\x00\x01\x00\x05\x81\x00\x00\x00\x02\
\x00\x06\xee\x08\x00\x00\x00\x00\x00\x05\x81\x00\x00\x00\x02\x00\x06\xee\x13\x00\x00\x00\x01";

#[test]
fn a_full_node_refuses_what_is_new_and_repeats_what_it_accepted(
    rt: HostRuntime,
) -> Result<(), Fail> {
    let alloc = rt.alloc();
    let opened = open_with_cap(alloc, 2).ok_or("memory")?;
    let (blank, store) = (Blank::new(1), MemStable::new(alloc));
    let is_right = run_session::<Brand, Brand, MemStable, _>(
        &rt, alloc, opened, blank, store, FILLED, FULL,
    );
    assert_eq!(rt; is_right, Some(true));
    Ok(())
}
