//! A house of three nodes by example: its calls one by one, and concurrent readers.
//!
//! Each reader has a thread of its own, and a fifth thread writes meanwhile.
ghost use Rattle.std.specs.Prelude.{◌≡◌, ◌≤◌, IfSome, length};
ghost use Rattle.urb_show.specs.Houses.{IsNamed};

mod again;
mod lists;
mod many;
mod moments;
mod readers;
mod seven;
mod walk;
mod writer;

use again::{Tally, deliver, open_again};
use many::{go_on, open_one, open_stored, publish_many};
use moments::moments;
use readers::{learn_all, read_all, reads};
use seven::seven_nodes;
use std::alloc::Global;
use std::marker::Brand;
use std::sync::{Mutex, Wait};
use std::test::*;
use std::thread::{Threads, join};
use urb_group::{Config, Group, MemStable};
use urb_refusing::Refusing;
use urb_show::*;
use walk::walk;
use writer::{Board, ROUNDS, node, write};

// A new group of three nodes, opened.
fn open_three(alloc: Global) -> Option<Opened>
    ensures { IfSome result (λ it. it.group.size.n ≡ 3) }
{
    let config = Config::new(3, 100)?;
    let group = Group::new(alloc, config).ok()?;
    House::open(group).ok()
}

// A new group of seven nodes, opened.
fn open_seven(alloc: Global) -> Option<Opened>
    ensures { IfSome result (λ it. it.group.size.n ≡ 7) }
{
    let config = Config::new(7, 100)?;
    let group = Group::new(alloc, config).ok()?;
    House::open(group).ok()
}

// The group of three nodes that a house returned, opened again.
fn reopen_three(group: Group) -> Option<Opened>
    ensures { IfSome result (λ it. it.group.size.n ≡ 3) }
{
    if group.config().n() != 3 {
        return None;
    }
    House::open(group).ok()
}

// The text of the first of these that doesn't hold.
fn first_false(all: &[(bool, &'static str)]) -> Result<(), &'static str> {
    for (holds, what) in all {
        if !*holds {
            return Err(*what);
        }
    }
    Ok(())
}

// Two readers on threads of their own. The result says whether their pages agree, and were whole in
// the end.
fn read_both<K: HouseName + Send + Sync, R: Threads + Wait + Sync>(
    rt: &R,
    alloc: Global,
    one: &mut LogReader<K>,
    two: &mut LogReader<K>,
    board: &Mutex<Board<K>>,
) -> bool
    requires { 3 ≤ length K.base }
{
    let (first, second) = join(
        rt,
        move || -> bool
            requires { 3 ≤ length K.base }
        { read_all(rt, alloc, one, board) },
        move || -> bool
            requires { 3 ≤ length K.base }
        { read_all(rt, alloc, two, board) },
    );
    first && second
}

// Two readers on threads of their own; the second one learns what is settled. The result says
// whether their pages agree, and were whole in the end.
fn read_and_learn<K: HouseName + Send + Sync, R: Threads + Wait + Sync>(
    rt: &R,
    alloc: Global,
    one: &mut LogReader<K>,
    two: &mut LogReader<K>,
    board: &Mutex<Board<K>>,
) -> (bool, bool)
    requires { 3 ≤ length K.base }
{
    join(
        rt,
        move || -> bool
            requires { 3 ≤ length K.base }
        { read_all(rt, alloc, one, board) },
        move || -> bool
            requires { 3 ≤ length K.base }
        { learn_all(rt, alloc, two, board) },
    )
}

// Four readers on threads of their own read all nodes in turn. One of them reads each time that it
// learns what is settled. The result says whether the pages of the other three agree, and those of
// this one.
fn read_on_threads<K: HouseName + Send + Sync, R: Threads + Wait + Sync>(
    rt: &R,
    alloc: Global,
    readers: &mut [LogReader<K>],
    board: &Mutex<Board<K>>,
) -> (bool, bool)
    requires { 3 ≤ length K.base }
{
    let [one, two, three, four, ..] = readers else {
        return (false, false);
    };
    let (read, (also, learnt)) = join(
        rt,
        move || -> bool
            requires { 3 ≤ length K.base }
        { read_both(rt, alloc, one, two, board) },
        move || -> (bool, bool)
            requires { 3 ≤ length K.base }
        { read_and_learn(rt, alloc, three, four, board) },
    );
    (read && also, learnt)
}

// They read while this thread writes. The result says whether all was written, and their pages
// agreed.
fn read_and_write<K: HouseName + Send + Sync, R: Threads + Wait + Sync>(
    rt: &R,
    alloc: Global,
    house: &Mutex<House<K>>,
    readers: &mut [LogReader<K>],
) -> (bool, (bool, bool))
    requires { 3 ≤ length K.base }
{
    let board = Mutex::new(Board::new(alloc));
    let board = &board;
    join(
        rt,
        move || -> bool
            requires { 3 ≤ length K.base }
        { write(rt, alloc, house, board) },
        move || -> (bool, bool)
            requires { 3 ≤ length K.base }
        { read_on_threads(rt, alloc, readers, board) },
    )
}

// Whether a reader reports that its house was closed.
fn is_gone<K: HouseName>(alloc: Global, reader: &mut LogReader<K>) -> bool
    requires { 3 ≤ length K.base }
{
    reader.read(alloc, node(1), 1, 1).err() == Some(ReadFault::Gone)
}

// Readers read a house while it is written. Another reader learns nothing, and reads once all is
// written.
fn run_readers_and_writer<K: HouseName + Send + Sync, R: Threads + Wait + Sync>(
    rt: &R,
    alloc: Global,
    opened: Opened,
) -> Result<(), &'static str>
    requires names { IsNamed opened K.book K.history K.base K.origin }
    requires nodes { opened.group.size.n ≡ 3 }
{
    let (house, mut readers) = match opened.parts::<K, R>(rt, alloc) {
        Ok(parts) => parts,
        Err((opened, _)) => {
            drop(opened.close());
            return Err("no memory");
        }
    };
    house.recall();
    let mut last = readers.pop().unwrap();
    let house = Mutex::new(house);
    let (wrote, (read, learnt)) = read_and_write(rt, alloc, &house, readers.as_mut_slice());
    let house = house.into_inner();
    let events = house.events();
    let fresh = reads(alloc, &mut last, 2 * ROUNDS);
    drop(house.close(rt));
    let gone = is_gone(alloc, &mut last);
    first_false(&[
        (readers.len() == 11, "twelve readers"),
        (wrote, "all is written"),
        (read, "pages agree, and are whole in the end"),
        (learnt, "what was learnt is read"),
        (fresh, "all is read without being told"),
        (gone, "a closed house is gone"),
        (events == 16 * u64::from(ROUNDS), "events"),
    ])
}

#[test]
fn readers_read_while_another_thread_writes(rt: HostRuntime) -> Result<(), Fail> {
    let opened = open_three(rt.alloc()).ok_or("no group")?;
    run_readers_and_writer::<Brand, _>(&rt, rt.alloc(), opened)?;
    Ok(())
}

#[test]
fn seventy_thousand_messages_are_published_read_and_opened(rt: HostRuntime) -> Result<(), Fail> {
    let alloc = rt.alloc();
    let mut stores = [MemStable::new(alloc)];
    let opened = open_one(alloc).ok_or("no group")?;
    publish_many::<Brand, _>(&rt, alloc, opened, &mut stores)?;
    let opened = open_stored(alloc, &mut stores[0]).ok_or("not opened")?;
    go_on::<Brand, _>(&rt, alloc, opened, &mut stores)?;
    Ok(())
}

#[test]
fn a_house_is_called_one_by_one(rt: HostRuntime) -> Result<(), Fail> {
    let opened = open_three(rt.alloc()).ok_or("no group")?;
    walk::<Brand, _>(&rt, rt.alloc(), opened)?;
    Ok(())
}

// A house of three nodes delivers all messages, and then the same group is opened again. This
// growth of memory is refused. The result is the number of calls that were refused memory; `None`
// if there was no such growth.
fn run_refusing_growth<R: Wait>(
    rt: &R,
    alloc: Global,
    refused: u64,
) -> Result<Option<Tally>, &'static str> {
    let heap = Refusing::new(alloc, refused);
    let opened = open_three(alloc).ok_or("no group")?;
    let (group, first) = deliver::<Brand, R>(rt, alloc, &heap, opened)?;
    let opened = reopen_three(group).ok_or("another group")?;
    let second = open_again::<Brand, R>(rt, alloc, &heap, opened)?;
    if heap.has_failed() {
        Ok(Some(first.plus(second)))
    } else {
        Ok(None)
    }
}

// Refuses each growth in turn, until there are no more. Each time one call is refused memory. The
// result is how many calls of each kind were.
fn refuse_each_growth<R: Wait>(rt: &R, alloc: Global) -> Result<Tally, &'static str> {
    let mut all = Tally::none();
    for refused in 1..300 {
        match run_refusing_growth(rt, alloc, refused)? {
            Some(tally) if tally.all() == 1 => all = all.plus(tally),
            Some(_) => return Err("a refused growth is reported once"),
            None => return Ok(all),
        }
    }
    Err("each of 299 growths was refused, and there are more")
}

#[test]
fn each_growth_of_a_house_may_be_refused(rt: HostRuntime) -> Result<(), Fail> {
    let Tally {
        opening,
        settling,
        reading,
    } = refuse_each_growth(&rt, rt.alloc())?;
    assert!(rt;
        opening > 10 && settling > 2 && reading == 5,
        "{opening} growths in opening, {settling} in settling, {reading} in reading"
    );
    Ok(())
}

#[test]
fn each_event_has_a_place_in_one_history(rt: HostRuntime) -> Result<(), Fail> {
    let opened = open_three(rt.alloc()).ok_or("no group")?;
    moments::<Brand, _>(&rt, rt.alloc(), opened)?;
    Ok(())
}

#[test]
fn a_house_of_seven_nodes_is_opened_settled_and_read(rt: HostRuntime) -> Result<(), Fail> {
    let opened = open_seven(rt.alloc()).ok_or("no group")?;
    seven_nodes::<Brand, _>(&rt, rt.alloc(), opened)?;
    Ok(())
}
