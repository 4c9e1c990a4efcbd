//! The commands of a cluster.

use std::alloc::{Allocator, Global};
use urb_names::{ClientId, NodeId, Payload};

/// One thing that happens at a node of a cluster.
#[derive(Drop)]
#[derive_where(Debug)]
pub enum Command<A: Allocator = Global> {
    /// A client sends a message to a node.
    Submit {
        node: NodeId,
        client: ClientId,
        number: u32,
        payload: Payload<A>,
    },
    /// Bytes come to a node: any bytes.
    Arrive {
        node: NodeId,
        bytes: Vec<u8, A>,
    },
    /// A timeout at a node.
    Tick(NodeId),
    /// The store of a node is asked to keep the draft that the node holds.
    Store(NodeId),
    /// A node stops, and loses what it has not stored. A draft that it holds is dropped.
    Crash(NodeId),
    /// A node that is down comes back with the records that its store gives.
    Restart(NodeId),
}
