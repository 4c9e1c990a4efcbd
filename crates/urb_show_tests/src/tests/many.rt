//! A house of one node with more messages than a counter of 16 bits counts.
//!
//! Its messages are stored, published and read. Then the group is opened from what its store holds,
//! all is read again, and one more message is stored.
ghost use Rattle.std.specs.Prelude.{◌≡◌, ◌≤◌, IfSome, length};
ghost use Rattle.urb_show.specs.Houses.{IsNamed};

use super::first_false;
use super::writer::{broadcast, node};
use std::alloc::Global;
use std::sync::Wait;
use urb_group::{Config, Group, MemStable, Stable};
use urb_show::{House, HouseName, LogReader, Opened};

/// How many messages the node broadcasts before it is opened again.
const MANY: u32 = 70_000;

// The most entries that a page may have.
const PAGE: u8 = 255;

// The size of the group: one node, which may broadcast a few messages more.
fn one_node() -> Option<Config>
    ensures { IfSome result (λ c. c.n ≡ 1) }
{
    Config::new(1, MANY + 10)
}

/// A new group of one node, opened.
pub fn open_one(alloc: Global) -> Option<Opened>
    ensures { IfSome result (λ it. it.group.size.n ≡ 1) }
{
    let group = Group::new(alloc, one_node()?).ok()?;
    House::open(group).ok()
}

/// The group of one node, opened from what its store holds.
pub fn open_stored(alloc: Global, store: &mut MemStable) -> Option<Opened>
    ensures { IfSome result (λ it. it.group.size.n ≡ 1) }
{
    let mut images = Vec::new(alloc);
    images.push(store.retrieve(alloc).ok()?).ok()?;
    let group = Group::open(alloc, one_node()?, images).ok()?;
    House::open(group).ok()
}

// Broadcasts the message with this number, and publishes it.
fn broadcast_one<K: HouseName, R: Wait>(
    rt: &R,
    alloc: Global,
    house: &mut House<K>,
    stores: &mut [MemStable],
    number: u32,
) -> bool
    requires { 1 ≤ length K.base }
{
    broadcast(alloc, house, stores, node(1), number).is_some() && house.settle(rt, node(1)).is_ok()
}

// Broadcasts all the messages, and publishes each.
fn broadcast_many<K: HouseName, R: Wait>(
    rt: &R,
    alloc: Global,
    house: &mut House<K>,
    stores: &mut [MemStable],
) -> bool
    requires { 1 ≤ length K.base }
{
    for number in 1..=MANY {
        if !broadcast_one(rt, alloc, house, stores, number) {
            return false;
        }
    }
    true
}

// How many entries the node's list has, read page by page. `None` if an entry has another number
// than the next one.
fn count_entries<K: HouseName>(alloc: Global, reader: &mut LogReader<K>) -> Option<u32>
    requires { 1 ≤ length K.base }
{
    let mut count = 0u32;
    for _ in 0..MANY {
        let page = reader
            .read(alloc, node(1), count.checked_add(1)?, PAGE)
            .ok()?;
        if page.entries.is_empty() {
            return Some(count);
        }
        for entry in &page.entries {
            count = count.checked_add(1)?;
            if entry.name.seq != count || entry.message.number() != count {
                return None;
            }
        }
    }
    None
}

/// Stores and publishes all messages at a new house, and reads them.
pub fn publish_many<K: HouseName, R: Wait>(
    rt: &R,
    alloc: Global,
    opened: Opened,
    stores: &mut [MemStable],
) -> Result<(), &'static str>
    requires names { IsNamed opened K.book K.history K.base K.origin }
    requires nodes { opened.group.size.n ≡ 1 }
{
    let (mut house, mut readers) = match opened.parts::<K, R>(rt, alloc) {
        Ok(parts) => parts,
        Err((opened, _)) => {
            drop(opened.close());
            return Err("no memory");
        }
    };
    house.recall();
    let mut reader = readers.pop().unwrap();
    let stored = broadcast_many(rt, alloc, &mut house, stores);
    let count = count_entries(alloc, &mut reader);
    drop(house.close(rt));
    first_false(&[
        (stored, "all is stored and published"),
        (count == Some(MANY), "all is read"),
    ])
}

/// Reads all messages of a house that was opened from a store, and stores one more.
pub fn go_on<K: HouseName, R: Wait>(
    rt: &R,
    alloc: Global,
    opened: Opened,
    stores: &mut [MemStable],
) -> Result<(), &'static str>
    requires names { IsNamed opened K.book K.history K.base K.origin }
    requires nodes { opened.group.size.n ≡ 1 }
{
    let (mut house, mut readers) = match opened.parts::<K, R>(rt, alloc) {
        Ok(parts) => parts,
        Err((opened, _)) => {
            drop(opened.close());
            return Err("no memory");
        }
    };
    house.recall();
    let mut reader = readers.pop().unwrap();
    let opened = count_entries(alloc, &mut reader);
    let stored = broadcast_one(rt, alloc, &mut house, stores, MANY + 1);
    let count = count_entries(alloc, &mut reader);
    drop(house.close(rt));
    first_false(&[
        (opened == Some(MANY), "all that was stored is read"),
        (stored, "one more is stored and published"),
        (count == Some(MANY + 1), "one more is read"),
    ])
}
