//! A thread that submits, carries packets, stores and settles, and reports what it settled.
ghost use Rattle.std.specs.Prelude.{◌≡◌, ◌<◌, ◌≤◌, length};

use std::alloc::{Allocator, Global};
use std::sync::{Mutex, MutexGuard, Wait};
use urb_group::{ClientId, Done, Draft, MemStable, NodeId, Outbox, Taken};
use urb_names::{Payload, encode};
use urb_show::{House, HouseName, Told};

/// The number of messages that each of two nodes broadcasts.
pub const ROUNDS: u32 = 8;

/// A report of a settling: the token, the node, and the length of its list.
#[derive(Drop)]
pub struct News<K: HouseName> {
    pub told: Told<K>,
    pub node: NodeId,
    pub total: u32,
}

/// The settlings that are not learnt yet, the latest last, and whether no more will come.
#[derive(Drop)]
pub struct Board<K: HouseName> {
    news: Vec<News<K>>,
    ended: bool,
}

impl<K: HouseName> Board<K> {
    pub fn new(alloc: Global) -> Board<K> {
        Board {
            news: Vec::new(alloc),
            ended: false,
        }
    }

    pub fn take(&mut self) -> (Option<News<K>>, bool) {
        let news = self.news.pop();
        (news, self.ended)
    }

    pub fn has_ended(&self) -> bool {
        self.ended
    }

    fn post(&mut self, news: News<K>) -> bool {
        self.news.push(news).is_ok()
    }

    fn end(&mut self) {
        self.ended = true;
    }
}

// What a writer works with, besides the house and the stores.
#[derive(Drop)]
struct Writer<'a, K: HouseName, R> {
    rt: &'a R,
    alloc: Global,
    board: &'a Mutex<Board<K>>,
}

/// The stores of nodes 1, 2 and 3.
pub fn three_stores(alloc: Global) -> [MemStable; 3] {
    [
        MemStable::new(alloc),
        MemStable::new(alloc),
        MemStable::new(alloc),
    ]
}

/// The draft that was made, if any.
pub fn draft_in(taken: Taken) -> Option<Draft> {
    match taken {
        Taken::Same(_) => None,
        Taken::Store(draft) => Some(draft),
    }
}

/// The store keeps the draft, if there is one, and the house takes the receipt.
pub fn keep<K: HouseName, A: Allocator + Copy>(
    house: &mut House<K, A>,
    stores: &mut [MemStable],
    taken: Taken,
) -> Option<Done> {
    let draft = draft_in(taken)?;
    let store = stores.get_mut(usize::from(draft.node().number()) - 1)?;
    let receipt = draft.keep(store).ok()?;
    house.commit(receipt).ok()
}

/// Client 7 sends a node its message of this number. The payload is the node and the number.
pub fn submit<K: HouseName, A: Allocator + Copy>(
    alloc: Global,
    house: &mut House<K, A>,
    node: NodeId,
    number: u32,
) -> Option<Taken> {
    let client = ClientId::new(7)?;
    let payload = Payload::copied(alloc, &[node.number(), (number % 256) as u8]).ok()?;
    house.submit(alloc, node, client, number, &payload).ok()
}

/// The packet among these that is for this node arrives there.
pub fn arrive<K: HouseName, A: Allocator + Copy>(
    alloc: Global,
    house: &mut House<K, A>,
    node: NodeId,
    sent: &Outbox,
) -> Option<Taken> {
    for index in 0..sent.len() {
        let packet = sent.get(index)?;
        if packet.target() == node {
            let bytes = encode(alloc, packet).ok()?;
            return house.arrive(alloc, node, &bytes).ok();
        }
    }
    None
}

/// The packet for a node arrives there, and what it drafts is stored. Returns the node's packets.
pub fn answer<K: HouseName, A: Allocator + Copy>(
    alloc: Global,
    house: &mut House<K, A>,
    stores: &mut [MemStable],
    node: NodeId,
    sent: &Outbox,
) -> Option<Outbox> {
    let taken = arrive(alloc, house, node, sent)?;
    Some(keep(house, stores, taken)?.sent)
}

/// The node with this number.
pub fn node(number: u8) -> NodeId
    requires { (0 < number) × (number ≤ 7) }
    ensures { result ≡ number }
{
    NodeId::new(number).unwrap()
}

// Posts the report of a settling.
fn tell<K: HouseName, R: Wait>(rt: &R, board: &Mutex<Board<K>>, news: News<K>) -> bool {
    let mut guard = board.lock(rt);
    let told = guard.post(news);
    MutexGuard::unlock(guard);
    told
}

// Settles what a node delivered, and reports it.
fn settle<K: HouseName, R: Wait>(
    rt: &R,
    house: &mut House<K>,
    board: &Mutex<Board<K>>,
    node: NodeId,
) -> Option<()>
    requires { node ≤ length K.base }
{
    let told = house.settle(rt, node).ok()?;
    let total = house.status(node)?.logged;
    if tell(rt, board, News { told, node, total }) {
        Some(())
    } else {
        None
    }
}

/// Stores a node's message, and returns the packets for the others.
pub fn broadcast<K: HouseName, A: Allocator + Copy>(
    alloc: Global,
    house: &mut House<K, A>,
    stores: &mut [MemStable],
    node: NodeId,
    number: u32,
) -> Option<Outbox> {
    let taken = submit(alloc, house, node, number)?;
    Some(keep(house, stores, taken)?.sent)
}

// Stores the packet for this node there, and settles what that delivers. Returns the node's
// packets.
fn deliver<K: HouseName, R: Wait>(
    writer: &Writer<'_, K, R>,
    house: &mut House<K>,
    stores: &mut [MemStable],
    node: NodeId,
    sent: &Outbox,
) -> Option<Outbox>
    requires { node ≤ length K.base }
{
    let answered = answer(writer.alloc, house, stores, node, sent)?;
    settle(writer.rt, house, writer.board, node)?;
    Some(answered)
}

// A node's message is stored, and so is the draft that it causes at this other node. Then that
// node's packet causes a draft at the first one, which is stored too. Now both have delivered the
// message. Returns the packets for the others.
fn there_and_back<K: HouseName, R: Wait>(
    writer: &Writer<'_, K, R>,
    house: &mut House<K>,
    stores: &mut [MemStable],
    ends: (NodeId, NodeId),
    number: u32,
) -> Option<Outbox>
    requires { (ends.0 ≤ length K.base) × (ends.1 ≤ length K.base) }
{
    let (from, to) = ends;
    let sent = broadcast(writer.alloc, house, stores, from, number)?;
    let there = deliver(writer, house, stores, to, &sent)?;
    deliver(writer, house, stores, from, &there)?;
    Some(sent)
}

// Node 3 delivers the messages of both, that of node 2 first. Returns whether no call was refused.
fn third_delivers<K: HouseName, R: Wait>(
    writer: &Writer<'_, K, R>,
    house: &mut House<K>,
    stores: &mut [MemStable],
    sent: (&Outbox, &Outbox),
) -> bool
    requires { 3 ≤ length K.base }
{
    let three = node(3);
    deliver(writer, house, stores, three, sent.1).is_some()
        && deliver(writer, house, stores, three, sent.0).is_some()
}

// Nodes 1 and 2 broadcast, and every node delivers both messages, node 3 in another order. Returns
// whether no call was refused.
fn round<K: HouseName, R: Wait>(
    writer: &Writer<'_, K, R>,
    house: &mut House<K>,
    stores: &mut [MemStable],
    number: u32,
) -> bool
    requires { 3 ≤ length K.base }
{
    let (one, two) = (node(1), node(2));
    let first = there_and_back(writer, house, stores, (one, two), number);
    let second = there_and_back(writer, house, stores, (two, one), number);
    match (&first, &second) {
        (Some(first), Some(second)) => third_delivers(writer, house, stores, (first, second)),
        _ => false,
    }
}

// Writes all rounds, one turn of the lock each. Returns whether no call was refused.
fn write_rounds<K: HouseName, R: Wait>(
    rt: &R,
    alloc: Global,
    house: &Mutex<House<K>>,
    board: &Mutex<Board<K>>,
) -> bool
    requires { 3 ≤ length K.base }
{
    let mut stores = three_stores(alloc);
    let writer = Writer { rt, alloc, board };
    for number in 0..ROUNDS {
        let mut guard = house.lock(rt);
        let written = round(&writer, &mut *guard, &mut stores, number + 1);
        MutexGuard::unlock(guard);
        if !written {
            return false;
        }
    }
    true
}

/// Writes all rounds, and reports that no more comes. Returns whether no call was refused.
pub fn write<K: HouseName, R: Wait>(
    rt: &R,
    alloc: Global,
    house: &Mutex<House<K>>,
    board: &Mutex<Board<K>>,
) -> bool
    requires { 3 ≤ length K.base }
{
    let written = write_rounds(rt, alloc, house, board);
    let mut guard = board.lock(rt);
    guard.end();
    MutexGuard::unlock(guard);
    written
}
