//! Clusters of three that are opened again, over stores in memory, after their process stopped.

use super::clusters::{Event, Led, cluster, drive, lead};
use super::{client, first, one, three, two};
use std::alloc::{Allocator, Global};
use std::test::Fail;
use urb_group::*;
use urb_refusing::Refusing;

/// The first two nodes deliver the message.
const DELIVERED: [Event; 6] = [
    Event::Submit,
    Event::StoreOne,
    Event::Relay,
    Event::StoreTwo,
    Event::Certify,
    Event::StoreOne,
];

// Makes a cluster to which this has happened.
fn drive_new<A: Allocator + Copy>(alloc: A, events: &[Event]) -> Option<Cluster<MemStable<A>>> {
    let mut cluster = cluster(alloc)?;
    if drive(&mut cluster, alloc, events) {
        Some(cluster)
    } else {
        None
    }
}

/// How many names nodes 1 and 2 have delivered, and whether the message is accepted as one that
/// node 1 has stored.
type Findings = (usize, usize, bool);

// Returns what a cluster answers.
fn ask<A: Allocator + Copy>(cluster: &mut Cluster<MemStable<A>>, alloc: A) -> Option<Findings> {
    let is_accepted = matches!(lead(cluster, alloc, Event::Submit), Led::Accepted);
    let group = cluster.group();
    let names = (group.log(one())?.len(), group.log(two())?.len());
    Some((names.0, names.1, is_accepted))
}

// Returns what a cluster answers after it is opened over these stores.
fn open_and_ask<A: Allocator + Copy>(alloc: A, stores: Vec<MemStable<A>, A>) -> Option<Findings> {
    if stores.len() != 3 {
        return None;
    }
    let mut cluster = Cluster::open(alloc, three(), stores).ok()?;
    ask(&mut cluster, alloc)
}

// Returns the answers after a stop, from the stores alone.
fn ask_after_stop(alloc: Global) -> Option<Findings> {
    open_and_ask(alloc, drive_new(alloc, &DELIVERED)?.into_stores())
}

#[test]
fn logs_come_back_from_the_stores_alone(rt: HostRuntime) -> Result<(), Fail> {
    assert_eq!(rt; ask_after_stop(rt.alloc()), Some((1, 1, true)));
    Ok(())
}

// The store of node 1 takes the record of its message.
fn store_uncommitted(alloc: Global, stores: &mut [MemStable]) -> Option<()> {
    let store = stores.first_mut()?;
    let message = Message::copy_of(alloc, client(), 1, b"a").ok()?;
    store.store(1, &Record::Pend(first(), message)).ok()
}

// Returns the answers after a stop in between: the store of node 1 had taken the record, but the
// group had no receipt yet.
fn ask_after_uncommitted(alloc: Global) -> Option<Findings> {
    let mut stores = drive_new(alloc, &[Event::Submit])?.into_stores();
    store_uncommitted(alloc, &mut stores)?;
    open_and_ask(alloc, stores)
}

#[test]
fn a_record_that_was_stored_and_not_told_comes_back(rt: HostRuntime) -> Result<(), Fail> {
    assert_eq!(rt; ask_after_uncommitted(rt.alloc()), Some((0, 0, true)));
    Ok(())
}

// Returns the answers after a stop, and whether memory was refused to the opening. If it was, the
// cluster is opened another time.
fn ask_reopened<A: Allocator + Copy>(heap: A, calm: A) -> Option<(Findings, bool)> {
    match drive_new(calm, &[Event::Submit, Event::StoreOne])?.reopen(heap) {
        Ok(mut cluster) => Some((ask(&mut cluster, calm)?, false)),
        Err((stores, Refusal::NoMemory)) => Some((open_and_ask(calm, stores)?, true)),
        Err(_) => None,
    }
}

#[test]
fn no_store_is_lost_where_memory_is_refused(rt: HostRuntime) -> Result<(), Fail> {
    let calm = Refusing::new(rt.alloc(), 0);
    let mut growths = 0;
    for refused in 1..100 {
        let heap = Refusing::new(rt.alloc(), refused);
        assert_eq!(rt;
            ask_reopened(&heap, &calm),
            Some(((0, 0, true), heap.has_failed()))
        );
        if !heap.has_failed() {
            growths = heap.growths();
            break;
        }
    }
    assert!(rt; 5 < growths, "{growths} growths");
    Ok(())
}
