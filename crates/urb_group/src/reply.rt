//! Replies to the commands of a cluster.

use std::alloc::{Allocator, Global};
use urb_names::{Name, NodeId, Refusal};
use urb_node::{Answer, Done};
use urb_stubborn::Outbox;

/// The outcome of a command of a cluster.
#[derive(Drop)]
#[derive_where(Debug)]
pub enum Reply<A: Allocator = Global> {
    /// The node holds a draft of a record of this name, for this position in its store.
    Drafted { name: Name, pos: u32 },
    /// Nothing has to be stored. If the answer has packets, the node sends them.
    Same(Answer<Outbox<A>>),
    /// The node's store took its draft.
    Stored(Done<A>),
    /// The node sends these packets.
    Sent(Outbox<A>),
    /// The node is down: it crashed, or its store failed.
    WentDown(NodeId),
    /// The node is ready again.
    Up(NodeId),
    /// The command was refused. Nothing has changed, except what a restart had its store do before.
    Refused(Refusal),
}
