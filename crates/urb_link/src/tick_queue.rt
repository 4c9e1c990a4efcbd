//! The way from the timer to the workers: only ticks go through it, to each worker those of its
//! node.

ghost use Rattle.std.specs.Prelude.{◌≡◌, ◌+◌, ◌<◌, ◌≤◌, MatchOption, length};
ghost use Rattle.urb_names.specs.Nodes.{nodes};
ghost use Rattle.urb_names.specs.declared.limits.TheConstants.{MAX_NODES};
ghost use Rattle.urb_link.specs.internal.Ticks.{IsTick};

use crate::offers::{Offered, offer};
use crate::{NodeQueue, Ticket};
use std::sync::Wait;
use urb_names::{MAX_NODES, NodeId};
use urb_show::HouseName;
use urb_turn::Job;

// The ticket for a tick of a node.
fn tick_ticket<K: HouseName>(node: NodeId) -> Ticket<K>
    ensures { IsTick node result.job }
{
    Ticket {
        job: Job::Tick(node),
        answer: None,
    }
}

// The queue of a node's worker, as the timer has it.
#[derive(Drop)]
struct TickQueue<'a, K: HouseName> {
    queue: &'a NodeQueue<K>,
}

impl<'a, K: HouseName> TickQueue<'a, K> {
    // Offers the worker a tick of its node.
    fn tick<R: Wait>(&self, rt: &R) -> Offered<K>
        ensures { IsTick self.now.queue.now result.job.value }
    {
        offer(rt, self.queue.sender(), tick_ticket(self.queue.node()))
    }
}

/// The witness that the workers of nodes 1 to `last` were offered a tick of their node each, one
/// after the other.
#[derive(Drop)]
pub(crate) struct Ticked {
    last: u8,
    ghost bound: { last ≤ MAX_NODES },
}

impl Ticked {
    // No worker was offered a tick yet.
    fn none() -> Ticked
        ensures { result.last ≡ 0 }
    {
        Ticked { last: 0 }
    }

    // One worker more was offered a tick: that of the next node.
    fn with<K: HouseName>(self, offered: Offered<K>) -> Ticked
        requires room { self.last < MAX_NODES }
        requires next { IsTick (self.last + 1) offered.job.value }
        ensures { result.last ≡ self.last + 1 }
    {
        drop(offered);
        Ticked {
            last: self.last + 1,
        }
    }
}

/// The queues of the workers of nodes 1, 2, .., as the timer has them. Nothing goes into a node's
/// queue but ticks of this node.
#[derive(Drop)]
pub struct TickQueues<'a, K: HouseName> {
    queues: &'a [NodeQueue<K>],
    ghost bound: { length queues.now ≤ MAX_NODES },
    ghost order: { queues.now ≡ nodes (length queues.now) },
}

impl<'a, K: HouseName> TickQueues<'a, K> {
    /// The way to the workers of nodes 1, 2, .., whose queues these are. `None` if there are more
    /// than `MAX_NODES`.
    pub fn of(queues: &'a [NodeQueue<K>]) -> Option<TickQueues<'a, K>>
        requires { queues.now ≡ nodes (length queues.now) }
        ensures { MatchOption result (MAX_NODES < length queues.now)
            (λ made. made.queues.now ≡ queues.now) }
    {
        if usize::from(MAX_NODES) < queues.len() {
            return None;
        }
        Some(TickQueues { queues })
    }

    /// For how many workers these are.
    pub(crate) fn count(&self) -> usize
        ensures { result ≡ length self.now.queues.now }
    {
        self.queues.len()
    }

    // The queue at this place. The places 0, 1, .. are those of nodes 1, 2, ..
    #[tactic(auto, using(crate::proofs::QueuesInOrder::at_place))]
    fn at(&self, place: usize) -> TickQueue<'a, K>
        requires { place < length self.now.queues.now }
        ensures { result.queue.now ≡ place + 1 }
    {
        TickQueue {
            queue: &self.queues[place],
        }
    }

    /// Offers each worker a tick of its node. A tick is lost if its worker's channel is full.
    pub(crate) fn tick_all<R: Wait>(&self, rt: &R) -> Ticked
        ensures { result.last ≡ length self.now.queues.now }
    {
        let mut ticked = Ticked::none();
        for place in 0..self.queues.len() {
            ticked = ticked.with(self.at(place).tick(rt));
        }
        ticked
    }
}
