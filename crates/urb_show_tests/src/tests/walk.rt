//! The calls of a house, one by one.
ghost use Rattle.std.specs.Prelude.{◌≡◌, ◌≤◌, length};
ghost use Rattle.urb_show.specs.Houses.{IsNamed};

use super::first_false;
use super::readers::reads;
use super::writer::{arrive, draft_in, keep, node, submit, three_stores};
use std::alloc::Global;
use std::sync::Wait;
use urb_group::{ClientId, Failure, MemStable, Name, NodeId, Outbox, Refusal, Stable, State};
use urb_names::Payload;
use urb_show::{House, HouseName, LogReader, Opened, ReadPosition, Status};

// Whether a submit is refused if its number isn't the next. The refusal is no event.
fn is_refused<K: HouseName>(alloc: Global, house: &mut House<K>, node: NodeId) -> Option<bool> {
    let client = ClientId::new(7)?;
    let payload = Payload::copied(alloc, b"x").ok()?;
    let refusal = house.submit(alloc, node, client, 2, &payload).err();
    Some(refusal == Some(Refusal::Gap(1)) && house.events() == 0)
}

// The packets of a node's first message. The node stores it meanwhile.
fn sent_by<K: HouseName>(
    alloc: Global,
    house: &mut House<K>,
    stores: &mut [MemStable],
    node: NodeId,
) -> Option<Outbox> {
    let taken = submit(alloc, house, node, 1)?;
    let storing = house.state(node) == Some(State::Storing);
    let sent = keep(house, stores, taken)?.sent;
    if storing { Some(sent) } else { None }
}

// The number of names that the packet for a node releases there.
fn released_by<K: HouseName>(
    alloc: Global,
    house: &mut House<K>,
    stores: &mut [MemStable],
    node: NodeId,
    sent: &Outbox,
) -> Option<u32> {
    let taken = arrive(alloc, house, node, sent)?;
    Some(keep(house, stores, taken)?.released)
}

// The number of packets that a tick sends.
fn ticked_by<K: HouseName>(alloc: Global, house: &mut House<K>, node: NodeId) -> Option<usize> {
    Some(house.tick(alloc, node).ok()?.len())
}

// Whether the house reports that node 1 has sent a message, and node 2 has delivered it.
fn tells<K: HouseName>(house: &House<K>) -> Option<bool> {
    let (one, two, none) = (node(1), node(2), node(4));
    let name = Name {
        sender: one,
        seq: 1,
    };
    let status = Status {
        state: State::Ready,
        own: 0,
        logged: 1,
    };
    Some(
        house.status(two) == Some(status)
            && house.status(none).is_none()
            && house.log(two) == Some(&[name][..])
            && house.holds(two, name)
            && house.message(two, name)?.number() == 1
            && house.own_len(one) == Some(1),
    )
}

// Whether what was sent is delivered at a node, and a tick of the sender sends it again.
fn delivers<K: HouseName>(
    alloc: Global,
    house: &mut House<K>,
    stores: &mut [MemStable],
    ends: (NodeId, NodeId),
    sent: &Outbox,
) -> bool {
    let (from, to) = ends;
    released_by(alloc, house, stores, to, sent) == Some(1)
        && ticked_by(alloc, house, from) == Some(2)
}

// Node 1 broadcasts and node 2 delivers. Checks the statuses and the answers of both, and what
// refused calls leave.
fn events<K: HouseName>(alloc: Global, house: &mut House<K>, stores: &mut [MemStable]) -> bool {
    let (one, two) = (node(1), node(2));
    if is_refused(alloc, house, one) != Some(true) {
        return false;
    }
    let delivered = match sent_by(alloc, house, stores, one) {
        Some(sent) => delivers(alloc, house, stores, (one, two), &sent),
        None => false,
    };
    delivered && tells(house) == Some(true) && house.events() == 5
}

// A node drafts a message, and its store fails.
fn fails<K: HouseName>(
    alloc: Global,
    house: &mut House<K>,
    store: &mut MemStable,
    node: NodeId,
) -> Option<()> {
    let draft = draft_in(submit(alloc, house, node, 1)?)?;
    store.arm(Failure::Old);
    let doubt = draft.keep(store).err()?;
    house.fail(doubt).ok()
}

// A node restarts with what its store has.
fn comes_back<K: HouseName>(
    alloc: Global,
    house: &mut House<K>,
    store: &mut MemStable,
    node: NodeId,
) -> Option<bool> {
    let image = store.retrieve(alloc).ok()?;
    let up = house.restart(alloc, node, image).is_ok();
    Some(up && house.state(node) == Some(State::Ready))
}

// Node 3's store fails, and the node restarts. Then node 1 crashes.
fn failures<K: HouseName>(alloc: Global, house: &mut House<K>, store: &mut MemStable) -> bool {
    let (one, three) = (node(1), node(3));
    let failed = fails(alloc, house, store, three).is_some();
    let back = comes_back(alloc, house, store, three) == Some(true);
    let crashed = house.crash(one).is_ok();
    let again = house.crash(one).err() == Some(Refusal::Down);
    failed && back && crashed && again && house.events() == 9
}

// The length of a node's list, and the number of entries in its page from this place on.
fn counts_from<K: HouseName>(
    alloc: Global,
    reader: &mut LogReader<K>,
    node: NodeId,
    first: u32,
) -> Option<(u32, usize)>
    requires { (node ≤ length K.base) × (1 ≤ first) }
{
    let page = reader.read(alloc, node, first, 8).ok()?;
    Some((page.total, page.entries.len()))
}

// The length of node 2's list, and the number of entries in a page of at most none.
fn counts_of_none<K: HouseName>(alloc: Global, reader: &mut LogReader<K>) -> Option<(u32, usize)>
    requires { 3 ≤ length K.base }
{
    let page = reader.read(alloc, node(2), 1, 0).ok()?;
    Some((page.total, page.entries.len()))
}

// Whether settling gives a token if nothing is new, and a reader that learns it reads what is
// there.
fn settles_nothing<K: HouseName, R: Wait>(
    rt: &R,
    alloc: Global,
    house: &mut House<K>,
    reader: &mut LogReader<K>,
) -> Option<bool>
    requires { 3 ≤ length K.base }
{
    let two = node(2);
    reader.learn(house.settle(rt, two).ok()?);
    let same = counts_from(alloc, reader, two, 1)? == (1, 1);
    Some(same && counts_of_none(alloc, reader)? == (1, 0))
}

// Whether a reader that learns what another one saw reads that too.
fn tells_another<K: HouseName>(
    alloc: Global,
    reader: &LogReader<K>,
    other: &mut LogReader<K>,
) -> Option<bool>
    requires { 3 ≤ length K.base }
{
    other.learn(reader.seen_token());
    let counts = counts_from(alloc, other, node(2), 1)?;
    reader.agrees_with(other);
    Some(counts == (1, 1))
}

// Whether a session that borrows one reader and then another one reads the same, and one that only
// learnt of it reads that too.
fn reads_by_both<K: HouseName>(
    alloc: Global,
    reader: &mut LogReader<K>,
    other: &mut LogReader<K>,
) -> Option<bool>
    requires { 3 ≤ length K.base }
{
    let mut session = ReadPosition::at(reader);
    let mut second = session.copy();
    let here = session.read(reader, alloc, node(2), 1, 8).ok()?;
    let there = session.read(other, alloc, node(2), 1, 8).ok()?;
    second.learn(reader.seen_token());
    let learnt = second.read(other, alloc, node(2), 2, 8).ok()?;
    session.agrees_with(&second);
    let counts = (here.entries.len(), there.entries.len(), learnt.total);
    Some(counts == (1, 1, 1) && learnt.entries.is_empty())
}

// What is delivered can be read once it is settled, and not before.
fn settles<K: HouseName, R: Wait>(
    rt: &R,
    alloc: Global,
    house: &mut House<K>,
    reader: &mut LogReader<K>,
) -> Option<bool>
    requires { 3 ≤ length K.base }
{
    let two = node(2);
    let before = reads(alloc, reader, 0);
    reader.learn(house.settle(rt, two).ok()?);
    let counts = counts_from(alloc, reader, two, 1)?;
    let beyond = counts_from(alloc, reader, two, 2)?;
    Some(before && counts == (1, 1) && beyond == (1, 0))
}

// All calls of a house that is open.
fn calls<K: HouseName, R: Wait>(
    rt: &R,
    alloc: Global,
    house: &mut House<K>,
    reader: &mut LogReader<K>,
    other: &mut LogReader<K>,
) -> Result<(), &'static str>
    requires { 3 ≤ length K.base }
{
    let mut stores = three_stores(alloc);
    let happened = events(alloc, house, &mut stores);
    let failed = failures(alloc, house, &mut stores[2]);
    let settled = settles(rt, alloc, house, reader) == Some(true);
    let nothing = settles_nothing(rt, alloc, house, reader) == Some(true);
    let told = tells_another(alloc, reader, other) == Some(true);
    let borrowed = reads_by_both(alloc, reader, other) == Some(true);
    first_false(&[
        (happened, "events"),
        (failed, "failures"),
        (settled, "settling"),
        (nothing, "settling where nothing is new"),
        (told, "what a reader saw is told"),
        (borrowed, "a session borrows readers"),
    ])
}

/// All of these calls, on a house of three nodes that was just opened.
pub fn walk<K: HouseName, R: Wait>(
    rt: &R,
    alloc: Global,
    opened: Opened,
) -> Result<(), &'static str>
    requires names { IsNamed opened K.book K.history K.base K.origin }
    requires nodes { opened.group.size.n ≡ 3 }
{
    let (mut house, mut readers) = match opened.parts::<K, R>(rt, alloc) {
        Ok(parts) => parts,
        Err((opened, _)) => {
            drop(opened.close());
            return Err("no memory");
        }
    };
    house.recall();
    let mut other = readers.pop().unwrap();
    let called = calls(rt, alloc, &mut house, &mut readers[0], &mut other);
    let group = house.close(rt);
    let kept = group.log(node(2)).map(|log| log.len()) == Some(1);
    if kept { called } else { Err("the group") }
}
