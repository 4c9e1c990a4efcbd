//! Sessions of clients at the desk of a running node.

ghost use Rattle.std.specs.Prelude.{◌≡◌, ◌≤◌, length};
ghost use Rattle.urb_show.specs.Houses.{IsNamed};

use super::{open_group, open_hall, open_hub, service_of};
use crossbeam_channel::Sender;
use std::alloc::Global;
use std::marker::Brand;
use std::sync::Wait;
use std::sync::ledger::Blank;
use std::test::Fail;
use std::thread;
use std::thread::Threads;
use std::time::Clock;
use urb_client::{Ended, session};
use urb_desk::NodeDesk;
use urb_group::MemStable;
use urb_link::{MemoryLink, Ticket};
use urb_names::NodeId;
use urb_show::{HouseName, LogReader, Opened};
use urb_turn::{HubName, OpenGate};
use urb_worker::serve;

// What a client sends to a group of one node.
//
// A submit, a read that shows it, a status, and a submit whose number isn't the next. Then an
// unknown opcode, a read of place 0, and a read after the end of the log. Then a crash, a second
// crash, a status, a submit, a restart, a second restart, and a bad length.
const SENT: &[u8] = b"\x00\x09\x01\x00\x07\x00\x00\x00\x01hi\
\x00\x06\x02\x00\x00\x00\x01\x08\
\x00\x01\x03\
\x00\x07\x01\x00\x07\x00\x00\x00\x03\
\x00\x01\x09\
\x00\x06\x02\x00\x00\x00\x00\x08\
\x00\x06\x02\x00\x00\x00\x09\x08\
\x00\x01\x04\
\x00\x01\x04\
\x00\x01\x03\
\x00\x07\x01\x00\x07\x00\x00\x00\x02\
\x00\x01\x05\
\x00\x01\x05\
\x00\x00";

const ANSWERED: &[u8] = b"\x00\x05\x81\x00\x00\x00\x01\
\x00\x11\x82\x01\x01\x00\x00\x00\x01\x00\x07\x00\x00\x00\x01\x00\x02hi\
\x00\x0a\x83\x01\x00\x00\x00\x01\x00\x00\x00\x01\
\x00\x06\xee\x07\x00\x00\x00\x02\
\x00\x06\xee\x13\x00\x00\x00\x02\
\x00\x06\xee\x13\x00\x00\x00\x04\
\x00\x02\x82\x00\
\x00\x01\x84\
\x00\x06\xee\x03\x00\x00\x00\x00\
\x00\x0a\x83\x00\x00\x00\x00\x01\x00\x00\x00\x01\
\x00\x06\xee\x03\x00\x00\x00\x00\
\x00\x01\x84\
\x00\x06\xee\x0c\x00\x00\x00\x00\
\x00\x06\xee\x13\x00\x00\x00\x01";

// A session of a client that sends this, at the desk of node 1. Returns whether it ended at a bad
// length, and the desk's answers were exactly `answered`.
fn is_answered<K: HouseName, R: Wait + Clock>(
    rt: &R,
    alloc: Global,
    line: &Sender<Ticket<K>>,
    reader: LogReader<K>,
    sent: &[u8],
    answered: &[u8],
) -> bool
    requires { 1 ≤ length K.base }
{
    let node = NodeId::new(1).unwrap();
    let Some((hall, position)) = open_hall(alloc, reader) else {
        return false;
    };
    let service = service_of(line, &hall);
    let mut desk = NodeDesk::new(rt, alloc, node, service, position);
    let mut input = sent;
    let mut output = Vec::new(alloc);
    let end = session(alloc, &mut input, &mut output, &mut desk);
    end == Ok(Ended::BadFrame) && output.as_slice() == answered
}

// One worker, and a session at its node's desk. Then a session there after the worker has ended.
// Returns whether both were answered as they should be, and the House's events.
fn run_session<
    K: HouseName + Send + Sync,
    L: HubName + Send + Sync,
    R: Threads + Wait + Clock + Sync,
>(rt: &R, alloc: Global, opened: Opened, blank: Blank) -> Option<(bool, bool, u64)>
    requires names { IsNamed opened K.book K.history K.base K.origin }
    requires name { blank.name ≡ L.name }
    requires parts { (blank.parts ≡ L.parts) × (L.parts ≡ 1) × (opened.group.size.n ≡ 1) }
    requires start { L.start ≡ 0 }
{
    let node = NodeId::new(1).unwrap();
    let (Ok(link), Ok((line, jobs))) = (
        MemoryLink::new(rt, alloc),
        crossbeam_channel::bounded(alloc, 64),
    ) else {
        drop(opened.close());
        return None;
    };
    let (hub, mut tallies, mut readers) = open_hub::<K, L, R>(rt, alloc, opened, blank)?;
    let tally = tallies.pop().unwrap();
    let (reader, other) = (readers.pop().unwrap(), readers.pop().unwrap());
    let (hub_of, link_of) = (&hub, &link);
    let (tally, is_served) = thread::join(
        rt,
        move || {
            let store = MemStable::new(alloc);
            serve(
                rt, alloc, hub_of, node, store, jobs, link_of, &OpenGate, tally,
            )
        },
        move || -> bool
            requires { 1 ≤ length K.base }
        { is_answered(rt, alloc, &line, reader, SENT, ANSWERED) },
    );
    tallies.push_reserved(tally);
    let (house, is_known) = hub.close(tallies);
    let events = house.events();
    drop(house.close(rt));
    let is_alone = match crossbeam_channel::bounded(alloc, 64) {
        Ok((line, jobs)) => {
            drop(jobs);
            is_answered(
                rt,
                alloc,
                &line,
                other,
                b"\x00\x07\x01\x00\x07\x00\x00\x00\x02\x00\x06\x02\x00\x00\x00\x01\x08\x00\x00",
                b"\x00\x06\xee\x03\x00\x00\x00\x00\x00\x06\xee\x03\x00\x00\x00\x00\x00\x06\xee\x13\x00\x00\x00\x01",
            )
        }
        Err(_) => false,
    };
    Some((is_served && is_known, is_alone, events))
}

#[test]
fn a_session_at_a_running_node(rt: HostRuntime) -> Result<(), Fail> {
    let opened = open_group(rt.alloc(), 1).ok_or("memory")?;
    let served = run_session::<Brand, Brand, _>(&rt, rt.alloc(), opened, Blank::new(1));
    assert_eq!(rt; served, Some((true, true, 4)));
    Ok(())
}
