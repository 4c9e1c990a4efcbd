//! The channel of a node's worker. Both of its ends know their node.

ghost use Rattle.std.specs.Prelude.{◌≡◌, ◌≤◌, IfOk, vec_len};
ghost use Rattle.urb_names.specs.Nodes.{nodes};
ghost use Rattle.urb_names.specs.declared.limits.TheConstants.{MAX_NODES};

use crate::{ArrivalQueue, Ticket};
use crossbeam_channel::{Receiver, Sender};
use std::alloc::{AllocError, Global};
use std::marker::Model;
use urb_names::NodeId;
use urb_show::HouseName;

/// The sending end of the channel of a node's worker. Only `open_channel` makes one, together with
/// the worker's end. So a ticket that is sent here comes to the worker of this node.
#[derive(Drop)]
pub struct NodeQueue<K: HouseName> {
    node: NodeId,
    sender: Sender<Ticket<K>>,
}

impl<K: HouseName> Model for NodeQueue<K> {
    ghost use Rattle.std.specs.Prelude.{ℕ};

    ghost Value = { ℕ };

    ghost view = { λ queue. queue.node };
}

impl<K: HouseName> NodeQueue<K> {
    /// The node of the worker at the other end.
    pub fn node(&self) -> NodeId
        ensures { result ≡ self.now }
    {
        self.node
    }

    /// The sender, for the desks of this node.
    pub fn sender(&self) -> &Sender<Ticket<K>> {
        &self.sender
    }

    /// The queue as the receiver of this node has it.
    pub fn arrivals(&self) -> ArrivalQueue<'_, K>
        ensures { result ≡ self.now }
    {
        ArrivalQueue::new(self.node, &self.sender)
    }
}

/// The receiving end of the channel of a node's worker.
#[derive(Drop)]
pub struct NodeJobs<K: HouseName> {
    node: NodeId,
    receiver: Receiver<Ticket<K>>,
}

impl<K: HouseName> Model for NodeJobs<K> {
    ghost use Rattle.std.specs.Prelude.{ℕ};

    ghost Value = { ℕ };

    ghost view = { λ jobs. jobs.node };
}

impl<K: HouseName> NodeJobs<K> {
    /// The node of the worker that takes the tickets.
    pub fn node(&self) -> NodeId
        ensures { result ≡ self.now }
    {
        self.node
    }

    /// The receiver, for the worker of this node.
    pub fn receiver(&self) -> &Receiver<Ticket<K>> {
        &self.receiver
    }
}

// The channel of the worker of this node, with room for `room` tickets.
fn open_channel<K: HouseName>(
    alloc: Global,
    node: NodeId,
    room: usize,
) -> Result<(NodeQueue<K>, NodeJobs<K>), AllocError>
    ensures { IfOk result (λ made. (made.0 ≡ node) × (made.1 ≡ node)) }
{
    let (sender, receiver) = crossbeam_channel::bounded(alloc, room)?;
    Ok((NodeQueue { node, sender }, NodeJobs { node, receiver }))
}

/// The channels of the workers of nodes 1 to `count`, each with room for `room` tickets: the
/// sending ends and the receiving ends. An error if memory was refused.
#[tactic(auto, using(urb_names::proofs::Places::numbers_more))]
pub fn open_channels<K: HouseName>(
    alloc: Global,
    count: usize,
    room: usize,
) -> Result<(Vec<NodeQueue<K>>, Vec<NodeJobs<K>>), AllocError>
    requires { count ≤ MAX_NODES }
    ensures queues { IfOk result (λ made. (vec_len made.0 ≡ count) × (made.0.items ≡ nodes count)) }
    ensures jobs { IfOk result (λ made. (vec_len made.1 ≡ count) × (made.1.items ≡ nodes count)) }
{
    let mut queues = Vec::with_capacity(alloc, count)?;
    let mut jobs = Vec::with_capacity(alloc, count)?;
    for place in 0..count {
        let node = NodeId::new(place as u8 + 1).unwrap();
        let (queue, end) = open_channel(alloc, node, room)?;
        queues.push_reserved(queue);
        jobs.push_reserved(end);
    }
    Ok((queues, jobs))
}
