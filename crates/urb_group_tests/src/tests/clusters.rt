//! Clusters of three that tests drive, with stores in memory.

use super::{client, one, three, two};
use std::alloc::Allocator;
use urb_group::*;

/// An event of a cluster to which one message is sent.
#[derive(Clone, Copy)]
pub enum Event {
    /// The client sends the message to node 1.
    Submit,
    /// Node 1's packet of the message comes to node 2.
    Relay,
    /// Node 2's packet of the message comes to node 1, and says that node 2 has certified it.
    Certify,
    /// The store of node 1, or of node 2, takes the node's draft.
    StoreOne,
    StoreTwo,
    /// A timeout of node 1.
    Tick,
    /// Node 1 stops, and comes back.
    Crash,
    Restart,
}

/// What an event led to.
#[derive(Clone, Copy)]
pub enum Led {
    /// The event was refused.
    Refused,
    /// The message is accepted as one that is stored already.
    Accepted,
    /// Anything else.
    Other,
}

/// The packets of the message.
const RELAYED: &[u8] = b"UB\x02\x01\x02\x00\x01\x00\x00\x00\x01\x00\x07\x00\x00\x00\x01\x00\x01a";

const CERTIFIED: &[u8] = b"UB\x02\x02\x01\x01\x01\x00\x00\x00\x01\x00\x07\x00\x00\x00\x01\x00\x01a";

/// Returns the command of an event.
pub fn command<A: Allocator + Copy>(alloc: A, event: Event) -> Option<Command<A>> {
    match event {
        Event::Submit => Some(Command::Submit {
            node: one(),
            client: client(),
            number: 1,
            payload: Payload::copied(alloc, b"a").ok()?,
        }),
        Event::Relay => Some(Command::Arrive {
            node: two(),
            bytes: Vec::from_slice(alloc, RELAYED).ok()?,
        }),
        Event::Certify => Some(Command::Arrive {
            node: one(),
            bytes: Vec::from_slice(alloc, CERTIFIED).ok()?,
        }),
        Event::StoreOne => Some(Command::Store(one())),
        Event::StoreTwo => Some(Command::Store(two())),
        Event::Tick => Some(Command::Tick(one())),
        Event::Crash => Some(Command::Crash(one())),
        Event::Restart => Some(Command::Restart(one())),
    }
}

/// Makes a cluster of three nodes, with new stores.
pub fn cluster<A: Allocator + Copy>(alloc: A) -> Option<Cluster<MemStable<A>>> {
    let mut stores = Vec::new(alloc);
    stores.push(MemStable::new(alloc)).ok()?;
    stores.push(MemStable::new(alloc)).ok()?;
    stores.push(MemStable::new(alloc)).ok()?;
    Cluster::new(alloc, three(), stores).ok()
}

// Returns what a reply says.
fn read_reply<A: Allocator>(reply: &Reply<A>) -> Led {
    match reply {
        Reply::Refused(_) => Led::Refused,
        Reply::Same(Answer::Accepted(_)) => Led::Accepted,
        _ => Led::Other,
    }
}

/// Returns what an event leads to. It is refused if there is no memory for its command.
pub fn lead<A: Allocator + Copy>(
    cluster: &mut Cluster<MemStable<A>>,
    alloc: A,
    event: Event,
) -> Led {
    match command(alloc, event) {
        Some(command) => read_reply(&cluster.apply(alloc, &command)),
        None => Led::Refused,
    }
}

/// Applies the events one after the other, and says whether all were taken.
pub fn drive<A: Allocator + Copy>(
    cluster: &mut Cluster<MemStable<A>>,
    alloc: A,
    events: &[Event],
) -> bool {
    for event in events {
        if matches!(lead(cluster, alloc, *event), Led::Refused) {
            return false;
        }
    }
    true
}
