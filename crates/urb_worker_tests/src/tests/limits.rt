//! Requests with fields at their limits, at the desk of a running node.
//!
//! The tests check the responses, and what reads show afterwards.

ghost use Rattle.std.specs.Prelude.{◌≡◌, ◌≤◌, length};
ghost use Rattle.urb_show.specs.Houses.{IsNamed};

use super::{open_group, open_hall, open_hub, service_of};
use crossbeam_channel::Sender;
use std::alloc::Global;
use std::marker::Brand;
use std::sync::Wait;
use std::sync::ledger::Blank;
use std::test::Fail;
use std::thread;
use std::thread::Threads;
use std::time::Clock;
use urb_client::{Desk, Request, Response};
use urb_desk::NodeDesk;
use urb_group::MemStable;
use urb_link::{MemoryLink, Ticket};
use urb_names::{ClientId, Message, Name, NodeId, Payload};
use urb_show::{HouseName, LogReader, Opened};
use urb_turn::{HubName, OpenGate};
use urb_worker::serve;

// The response to a submit: the number of its message, or a refusal with its detail.
#[derive(Clone, Copy, PartialEq, Eq)]
enum Told {
    Accepted(u32),
    Refused(u8, u32),
    Other,
}

// A submit: its client, its number, its payload's length and byte; and the response to it.
#[derive(Clone, Copy)]
struct Row {
    client: u16,
    number: u32,
    len: usize,
    byte: u8,
    told: Told,
}

// The refusals of a payload that is too long, a number that was used with another payload, and a
// number that isn't the next.
const TOO_LONG: Told = Told::Refused(5, 0);

const CONFLICT: Told = Told::Refused(6, 0);

const NEXT_IS_ONE: Told = Told::Refused(7, 1);

// One row of the table.
fn submit_row(client: u16, number: u32, len: usize, byte: u8, told: Told) -> Row {
    Row {
        client,
        number,
        len,
        byte,
        told,
    }
}

// Submits of two clients, one after the other.
fn rows(alloc: Global) -> Option<Vec<Row>> {
    vec![in alloc;
        submit_row(1, 0, 3, b'a', NEXT_IS_ONE),
        submit_row(1, 1, 0, b'a', Told::Accepted(1)),
        submit_row(65_535, 1, 1024, b'b', Told::Accepted(2)),
        submit_row(1, 2, 1025, b'c', Told::Accepted(3)),
        submit_row(65_535, 2, 16_384, b'd', Told::Accepted(4)),
        submit_row(1, 3, 16_385, b'e', TOO_LONG),
        submit_row(1, 3, 16_384, b'f', Told::Accepted(5)),
        submit_row(2, 3, 1, b'g', NEXT_IS_ONE),
        submit_row(2, 1, 1, b'g', Told::Accepted(6)),
        submit_row(65_535, 1, 1024, b'b', Told::Accepted(2)),
        submit_row(65_535, 1, 1023, b'b', CONFLICT),
        submit_row(1, 1, 1, b'a', CONFLICT),
    ]
    .ok()
}

// `len` bytes of one kind.
fn fill(alloc: Global, len: usize, byte: u8) -> Option<Vec<u8>> {
    let mut bytes = Vec::new(alloc);
    for _ in 0..len {
        bytes.push(byte).ok()?;
    }
    Some(bytes)
}

// Whether these are `len` bytes of one kind.
fn is_filled(bytes: &[u8], len: usize, byte: u8) -> bool {
    bytes.len() == len && bytes.iter().all(|b| *b == byte)
}

// What a response says about a submit.
fn told_by(response: &Response) -> Told {
    match response {
        Response::Accepted(seq) => Told::Accepted(*seq),
        Response::Refused { number, detail } => Told::Refused(*number, *detail),
        _ => Told::Other,
    }
}

// Whether an entry is node 1's entry of this number, with the message of a row.
fn is_entry_of(name: Name, message: &Message, seq: u32, row: Row) -> bool {
    name.sender.number() == 1
        && name.seq == seq
        && message.client().number() == row.client
        && message.number() == row.number
        && is_filled(message.payload(), row.len, row.byte)
}

// Whether the desk shows a row's message at this place.
fn is_shown<K: HouseName, R: Wait + Clock>(
    desk: &mut NodeDesk<'_, K, R>,
    seq: u32,
    row: Row,
) -> bool {
    if seq == 0 {
        return false;
    }
    match desk.answer(&Request::Read { place: seq, max: 1 }) {
        Ok(Response::Entries(page)) => match page.as_slice() {
            [(name, message)] => is_entry_of(*name, message, seq, row),
            _ => false,
        },
        _ => false,
    }
}

// Whether a row's submit gets the row's response, and is shown if it is accepted.
fn is_told<K: HouseName, R: Wait + Clock>(
    alloc: Global,
    desk: &mut NodeDesk<'_, K, R>,
    row: Row,
) -> Option<bool> {
    let request = Request::Submit {
        client: ClientId::new(row.client)?,
        number: row.number,
        payload: Payload::new(alloc, fill(alloc, row.len, row.byte)?).ok()?,
    };
    let told = told_by(&desk.answer(&request).ok()?);
    let is_there = match told {
        Told::Accepted(seq) => is_shown(desk, seq, row),
        _ => true,
    };
    Some(told == row.told && is_there)
}

// The first row that gets another response, counted from 1; 0 if there is no such row.
fn first_wrong<K: HouseName, R: Wait + Clock>(
    rt: &R,
    alloc: Global,
    line: &Sender<Ticket<K>>,
    reader: LogReader<K>,
) -> Option<u8>
    requires { 1 ≤ length K.base }
{
    let node = NodeId::new(1)?;
    let (hall, position) = open_hall(alloc, reader)?;
    let service = service_of(line, &hall);
    let mut desk = NodeDesk::new(rt, alloc, node, service, position);
    let mut place: u8 = 0;
    for row in rows(alloc)? {
        place = place.saturating_add(1);
        if !is_told(alloc, &mut desk, row)? {
            return Some(place);
        }
    }
    Some(0)
}

// The same check with the worker of that node, and the House's events.
fn run_limits<
    K: HouseName + Send + Sync,
    L: HubName + Send + Sync,
    R: Threads + Wait + Clock + Sync,
>(rt: &R, alloc: Global, opened: Opened, blank: Blank) -> Option<(u8, u64)>
    requires names { IsNamed opened K.book K.history K.base K.origin }
    requires name { blank.name ≡ L.name }
    requires parts { (blank.parts ≡ L.parts) × (L.parts ≡ 1) × (opened.group.size.n ≡ 1) }
    requires start { L.start ≡ 0 }
{
    let node = NodeId::new(1).unwrap();
    let (Ok(link), Ok((line, jobs))) = (
        MemoryLink::new(rt, alloc),
        crossbeam_channel::bounded(alloc, 64),
    ) else {
        drop(opened.close());
        return None;
    };
    let (hub, mut tallies, mut readers) = open_hub::<K, L, R>(rt, alloc, opened, blank)?;
    let tally = tallies.pop().unwrap();
    let reader = readers.pop().unwrap();
    let (hub_of, link_of) = (&hub, &link);
    let (tally, wrong) = thread::join(
        rt,
        move || {
            let store = MemStable::new(alloc);
            serve(
                rt, alloc, hub_of, node, store, jobs, link_of, &OpenGate, tally,
            )
        },
        move || -> Option<u8>
            requires { 1 ≤ length K.base }
        { first_wrong(rt, alloc, &line, reader) },
    );
    tallies.push_reserved(tally);
    let (house, is_known) = hub.close(tallies);
    let events = house.events();
    drop(house.close(rt));
    if !is_known {
        return None;
    }
    Some((wrong?, events))
}

// Six submits are stored, each by two events, and one is a repeat.
#[test]
fn fields_at_their_limits_are_told_and_shown_whole(rt: HostRuntime) -> Result<(), Fail> {
    let opened = open_group(rt.alloc(), 1).ok_or("memory")?;
    let served = run_limits::<Brand, Brand, _>(&rt, rt.alloc(), opened, Blank::new(1));
    assert_eq!(rt; served, Some((0, 13)));
    Ok(())
}
