//! Moments of a house: each event has a place in the one history, and callers learn it. So has each
//! page.
//!
//! The clauses say which event is at the place that a caller gets. The test counts moments, since a
//! house that never gave one would meet them.
ghost use Rattle.std.specs.Prelude.{◌≡◌, ◌≤◌, IfSome, length};
ghost use Rattle.urb_world.specs.Step.{Crash};
ghost use Rattle.urb_node.specs.Replies.{WentDown};
ghost use Rattle.urb_show.specs.Houses.{IsNamed};
ghost use Rattle.urb_show.specs.Pasts.{IsToldAt};
ghost use mathlib.Core.List.{IsPrefix};

use super::first_false;
use super::writer::{arrive, draft_in, keep, node, submit, three_stores};
use std::alloc::Global;
use std::sync::{Mutex, MutexGuard, Wait};
use urb_group::{Failure, MemStable, NodeId, Stable};
use urb_show::laws::replies_stand;
use urb_show::{House, HouseName, LogReader, Moment, Opened, ReadPosition};

// Crashes a node, and returns the place of the event. `me` has then seen all events up to it.
fn crash<K: HouseName>(house: &mut House<K>, me: &mut Moment<K>, node: NodeId) -> Option<u64>
    ensures told { IfSome result (λ n.
        IsToldAt K.origin me.new n (Crash node) (WentDown node)) }
    ensures seen { IsPrefix me.old me.new }
{
    house.recall();
    replies_stand();
    let place = house.events();
    if place == u64::MAX {
        return None;
    }
    match house.crash(node) {
        Ok(()) => {}
        Err(_) => return None,
    }
    let moment = house.mark()?;
    me.learn(&moment);
    Some(place)
}

/// Does the same on any thread, while it holds the lock.
pub fn crash_by<K: HouseName, R: Wait>(
    rt: &R,
    house: &Mutex<House<K>>,
    me: &mut Moment<K>,
    node: NodeId,
) -> Option<u64>
    ensures told { IfSome result (λ n.
        IsToldAt K.origin me.new n (Crash node) (WentDown node)) }
    ensures seen { IsPrefix me.old me.new }
{
    let mut guard = house.lock(rt);
    let place = crash(&mut guard, me, node);
    MutexGuard::unlock(guard);
    place
}

// Whether the house has a moment now, whose place is this number. The caller learns it.
fn is_at<K: HouseName>(house: &mut House<K>, me: &mut Moment<K>, events: u64) -> bool {
    let Some(moment) = house.mark() else {
        return false;
    };
    let before = me.place();
    let is_later = moment.is_after(me) && me.is_after(&moment) == (before == events);
    me.learn(&moment);
    is_later && before <= events && moment.place() == events && me.copy().place() == events
}

// Node 1 broadcasts, node 2 acknowledges, and node 1 ticks: five events. Returns whether the house
// has a moment for all of them.
fn broadcast<K: HouseName>(
    alloc: Global,
    house: &mut House<K>,
    me: &mut Moment<K>,
    stores: &mut [MemStable],
) -> Option<bool> {
    let taken = submit(alloc, house, node(1), 1)?;
    let drafted = is_at(house, me, 1);
    let sent = keep(house, stores, taken)?.sent;
    let taken = arrive(alloc, house, node(2), &sent)?;
    let relayed = is_at(house, me, 3);
    let _ = keep(house, stores, taken)?;
    let _ = house.tick(alloc, node(1)).ok()?;
    Some(drafted && relayed && is_at(house, me, 5))
}

// Node 3's store fails, and the node comes back: three events.
fn fail_and_restart<K: HouseName>(
    alloc: Global,
    house: &mut House<K>,
    me: &mut Moment<K>,
    store: &mut MemStable,
) -> Option<bool> {
    let draft = draft_in(submit(alloc, house, node(3), 1)?)?;
    store.arm(Failure::Old);
    let doubt = draft.keep(store).err()?;
    house.fail(doubt).ok()?;
    let failed = is_at(house, me, 7);
    let image = store.retrieve(alloc).ok()?;
    house.restart(alloc, node(3), image).ok()?;
    Some(failed && is_at(house, me, 8))
}

// Node 2's list is published and read. Returns whether the page has the one entry, and whether the
// token and the reader know the moment after these events.
fn publish_at<K: HouseName, R: Wait>(
    rt: &R,
    alloc: Global,
    house: &mut House<K>,
    reader: &mut LogReader<K>,
    events: u64,
) -> Option<bool>
    requires { 2 ≤ length K.base }
{
    let earlier = reader.moment().place();
    let told = house.settle(rt, node(2)).ok()?;
    let page = reader.read(alloc, node(2), 1, 255).ok()?;
    let read_at = reader.moment().place();
    Some(
        page.total == 1
            && earlier == 0
            && told.moment().place() == events
            && read_at == events
            && house.events() == events,
    )
}

// A session that knows the present moment reads node 2's list again, behind that moment.
fn reads_behind<K: HouseName>(
    alloc: Global,
    reader: &mut LogReader<K>,
    me: &Moment<K>,
    events: u64,
) -> Option<bool>
    requires { 2 ≤ length K.base }
{
    let mut position = ReadPosition::at(reader);
    let published_at = position.moment().place();
    position.learn_moment(me);
    let page = position.read(reader, alloc, node(2), 1, 255).ok()?;
    Some(
        page.total == 1
            && published_at < events
            && position.moment().place() == events
            && position.moment().is_after(me),
    )
}

// Two callers crash a node each, through the lock. Each gets its own place.
fn crash_two<K: HouseName, R: Wait>(
    rt: &R,
    house: House<K>,
    me: &mut Moment<K>,
) -> (House<K>, Option<(u64, u64, u64)>) {
    let house = Mutex::new(house);
    let mut other = me.copy();
    let first = crash_by(rt, &house, me, node(1));
    let second = crash_by(rt, &house, &mut other, node(2));
    let again = crash_by(rt, &house, me, node(1));
    let places = match (first, second, again) {
        (Some(first), Some(second), None) => Some((first, second, other.place())),
        _ => None,
    };
    (house.into_inner(), places)
}

/// All of these calls, on a house of three nodes that was just opened.
pub fn moments<K: HouseName, R: Wait>(
    rt: &R,
    alloc: Global,
    opened: Opened,
) -> Result<(), &'static str>
    requires names { IsNamed opened K.book K.history K.base K.origin }
    requires nodes { opened.group.size.n ≡ 3 }
{
    let (mut house, mut readers) = match opened.parts::<K, R>(rt, alloc) {
        Ok(parts) => parts,
        Err((opened, _)) => {
            drop(opened.close());
            return Err("no memory");
        }
    };
    let Some(mut me) = house.mark() else {
        drop(house.close(rt));
        return Err("a new house has no moment");
    };
    let mut stores = three_stores(alloc);
    let first = me.place() == 0 && is_at(&mut house, &mut me, 0);
    let told = broadcast(alloc, &mut house, &mut me, &mut stores) == Some(true);
    house.recall();
    let page = publish_at(rt, alloc, &mut house, &mut readers[0], 5) == Some(true);
    let back = fail_and_restart(alloc, &mut house, &mut me, &mut stores[2]) == Some(true);
    let behind = reads_behind(alloc, &mut readers[0], &me, 8) == Some(true);
    let (house, places) = crash_two(rt, house, &mut me);
    drop(house.close(rt));
    first_false(&[
        (first, "a new house is at place 0"),
        (told, "a moment for each event of a broadcast"),
        (page, "a page is at the place of its publishing"),
        (back, "a moment after a failure and a restart"),
        (behind, "a session's page is behind all that it knows"),
        (
            places == Some((8, 9, 10)),
            "each crash is told its own place",
        ),
    ])
}
