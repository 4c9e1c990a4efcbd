//! A house of seven nodes: the last node broadcasts, and what it delivers is published and read.
ghost use Rattle.std.specs.Prelude.{◌≡◌, ◌<◌, ◌≤◌, length};
ghost use Rattle.urb_show.specs.Houses.{IsNamed};

use super::first_false;
use super::readers::agrees;
use super::writer::{answer, arrive, broadcast, keep, node};
use std::alloc::Global;
use std::sync::Wait;
use urb_group::{MemStable, NodeId, Outbox};
use urb_show::{House, HouseName, LogReader, Opened};

// The stores of seven nodes.
fn seven_stores(alloc: Global) -> [MemStable; 7] {
    [
        MemStable::new(alloc),
        MemStable::new(alloc),
        MemStable::new(alloc),
        MemStable::new(alloc),
        MemStable::new(alloc),
        MemStable::new(alloc),
        MemStable::new(alloc),
    ]
}

// The packet for node 7 arrives there. Returns how many names node 7 releases, if the packet makes
// it draft anything.
fn released_at_seven<K: HouseName>(
    alloc: Global,
    house: &mut House<K>,
    stores: &mut [MemStable],
    back: &Outbox,
) -> Option<u32> {
    let taken = arrive(alloc, house, node(7), back)?;
    match keep(house, stores, taken) {
        Some(done) => Some(done.released),
        None => Some(0),
    }
}

// Stores the packet for this node there. Then the packet that the node sends back to node 7
// arrives. Returns how many names node 7 releases.
fn there_and_back<K: HouseName>(
    alloc: Global,
    house: &mut House<K>,
    stores: &mut [MemStable],
    number: u8,
    sent: &Outbox,
) -> Option<u32>
    requires { (0 < number) × (number ≤ 7) }
{
    let back = answer(alloc, house, stores, node(number), sent)?;
    released_at_seven(alloc, house, stores, &back)
}

// Nodes 1, 2 and 3 take the message. Returns how many names node 7 releases each time.
fn released_by_three<K: HouseName>(
    alloc: Global,
    house: &mut House<K>,
    stores: &mut [MemStable],
    sent: &Outbox,
) -> Option<[u32; 3]> {
    let first = there_and_back(alloc, house, stores, 1, sent)?;
    let second = there_and_back(alloc, house, stores, 2, sent)?;
    let third = there_and_back(alloc, house, stores, 3, sent)?;
    Some([first, second, third])
}

// Node 7 broadcasts to six nodes, and nodes 1, 2 and 3 take the message. Returns how many names
// node 7 releases each time.
fn broadcast_at_seven<K: HouseName>(
    alloc: Global,
    house: &mut House<K>,
    stores: &mut [MemStable],
) -> Option<[u32; 3]> {
    let sent = broadcast(alloc, house, stores, node(7), 1)?;
    let released = released_by_three(alloc, house, stores, &sent);
    if sent.len() == 6 { released } else { None }
}

// The number of entries in a node's list, if its page agrees.
fn length_of<K: HouseName>(alloc: Global, reader: &mut LogReader<K>, number: u8) -> Option<u32>
    requires { (7 ≤ length K.base) × (number ≤ 7) }
{
    let page = reader.read(alloc, NodeId::new(number)?, 1, 255).ok()?;
    if page.total as usize == page.entries.len() {
        Some(page.total)
    } else {
        None
    }
}

// Whether the list of node 7 has `at_seven` entries, and the other six lists are empty.
fn lists_are<K: HouseName>(alloc: Global, reader: &mut LogReader<K>, at_seven: u32) -> bool
    requires { 7 ≤ length K.base }
{
    for number in 1..7 {
        if length_of(alloc, reader, number) != Some(0) {
            return false;
        }
    }
    length_of(alloc, reader, 7) == Some(at_seven)
}

// Settles node 7, and the reader learns the token.
fn settle_seven<K: HouseName, R: Wait>(
    rt: &R,
    house: &mut House<K>,
    reader: &mut LogReader<K>,
) -> bool
    requires { 7 ≤ length K.base }
{
    match house.settle(rt, node(7)) {
        Ok(told) => {
            reader.learn(told);
            true
        }
        Err(_) => false,
    }
}

// The calls on the house and on its last reader.
fn calls<K: HouseName, R: Wait>(
    rt: &R,
    alloc: Global,
    house: &mut House<K>,
    reader: &mut LogReader<K>,
) -> Result<(), &'static str>
    requires { 7 ≤ length K.base }
{
    let mut stores = seven_stores(alloc);
    let released = broadcast_at_seven(alloc, house, &mut stores);
    let before = lists_are(alloc, reader, 0);
    let settled = settle_seven(rt, house, reader);
    let after = lists_are(alloc, reader, 1);
    let ticked = house.tick(alloc, node(7));
    first_false(&[
        (released == Some([0, 0, 1]), "four of seven deliver"),
        (before, "nothing is published before it is settled"),
        (settled, "settling"),
        (after, "node 7's entry is published"),
        (
            ticked.ok().map(|sent| sent.len()) == Some(6),
            "a tick goes to six nodes",
        ),
    ])
}

/// All of these calls, on a house of seven nodes that was just opened. The reader is the last of
/// twenty-eight.
pub fn seven_nodes<K: HouseName, R: Wait>(
    rt: &R,
    alloc: Global,
    opened: Opened,
) -> Result<(), &'static str>
    requires names { IsNamed opened K.book K.history K.base K.origin }
    requires nodes { opened.group.size.n ≡ 7 }
{
    let (mut house, mut readers) = match opened.parts::<K, R>(rt, alloc) {
        Ok(parts) => parts,
        Err((opened, _)) => {
            drop(opened.close());
            return Err("no memory");
        }
    };
    house.recall();
    let called = calls(rt, alloc, &mut house, &mut readers[27]);
    drop(house.close(rt));
    called
}
