//! The way from a node's receiver to its worker: only arrivals at the node go through it.

ghost use Rattle.std.specs.Prelude.{◌≡◌, [], IfOk, IfSome, MatchOption, drop};
ghost use Rattle.urb_turn.specs.Jobs.{node_of};
ghost use Rattle.urb_turn.specs.internal.Arrivals.{IsArrival, IsOfFirst};

use crate::offers::{Offered, offer};
use crate::{Backlog, Spares, Ticket};
use crossbeam_channel::Sender;
use std::alloc::{AllocError, Global};
use std::marker::Model;
use std::sync::Wait;
use std::thread;
use std::time::{Clock, Duration};
use urb_names::NodeId;
use urb_show::HouseName;
use urb_turn::Job;

// How long a receiver sleeps while its worker's channel is full, or has many tickets, in
// microseconds. Meanwhile the worker takes some of the 64 tickets that it has room for. If the
// receiver waited in the channel, the worker would wake it for each ticket that it takes.
const NAP: u64 = 200;

// How many tickets are so many that the worker still has some after a nap.
const MANY: usize = 12;

/// A datagram that has come, and that the worker hasn't taken yet. Only a node's `ArrivalQueue` and
/// what came back of it make one, and nothing can be done with it but to offer its arrival again.
#[derive(Drop)]
pub(crate) struct Arrival {
    datagram: Vec<u8>,
}

impl Model for Arrival {
    ghost use Rattle.std.specs.Prelude.{List, ℕ};

    ghost Value = { List ℕ };

    ghost view = { λ arrival. arrival.datagram.items };
}

impl<K: HouseName> Offered<K> {
    /// The arrival that was offered, if it is back.
    pub(crate) fn into_arrival(self) -> Option<Arrival>
        ensures { IfSome result
            (λ back. IsArrival (node_of self.job.value) back self.job.value) }
    {
        let Ticket { job, answer: _ } = self.into_back()?;
        match job {
            Job::Arrive { node: _, bytes } => Some(Arrival { datagram: bytes }),
            _ => None,
        }
    }
}

/// The queue of a node's worker, as its receiver has it. Nothing goes into it but arrivals at this
/// node, and the node's worker takes them in their order.
#[derive(Drop)]
pub struct ArrivalQueue<'a, K: HouseName> {
    node: NodeId,
    sender: &'a Sender<Ticket<K>>,
}

impl<'a, K: HouseName> Model for ArrivalQueue<'a, K> {
    ghost use Rattle.std.specs.Prelude.{ℕ};

    ghost Value = { ℕ };

    ghost view = { λ queue. queue.node };
}

impl<'a, K: HouseName> ArrivalQueue<'a, K> {
    /// The way to the worker of this node. The sender is that of the worker's channel.
    pub fn new(node: NodeId, sender: &'a Sender<Ticket<K>>) -> ArrivalQueue<'a, K>
        ensures { result ≡ node }
    {
        ArrivalQueue { node, sender }
    }

    // The ticket for an arrival at the node.
    fn ticket_of(&self, arrival: Arrival) -> Ticket<K>
        ensures { IsArrival self.now arrival result.job }
    {
        let Arrival { datagram } = arrival;
        Ticket {
            job: Job::Arrive {
                node: self.node,
                bytes: datagram,
            },
            answer: None,
        }
    }

    // Offers the worker an arrival.
    fn offer<R: Wait>(&self, rt: &R, arrival: Arrival) -> Offered<K>
        ensures { IsArrival self.now arrival result.job.value }
    {
        offer(rt, self.sender, self.ticket_of(arrival))
    }

    /// Sleeps for a moment if the worker has many tickets to do. Datagrams that come meanwhile wait
    /// in the socket, so the system needn't wake the receiver for each.
    pub(crate) fn nap_if_busy<R: Wait + Clock>(&self, rt: &R) {
        if MANY <= self.sender.len() {
            thread::sleep(rt, Duration::from_micros(NAP));
        }
    }

    /// Offers the worker an arrival again, a moment after its channel was full.
    pub(crate) fn offer_again<R: Wait + Clock>(&self, rt: &R, arrival: Arrival) -> Offered<K>
        ensures { IsArrival self.now arrival result.job.value }
    {
        thread::sleep(rt, Duration::from_micros(NAP));
        self.offer(rt, arrival)
    }

    /// Offers the worker the datagram that has waited longest. `None` if none waits.
    pub(crate) fn offer_first<R: Wait>(&self, rt: &R, backlog: &mut Backlog) -> Option<Offered<K>>
        ensures others { backlog.new ≡ drop 1 backlog.old }
        ensures offered { MatchOption result (backlog.old ≡ [])
            (λ offered. IsOfFirst self.now backlog.old offered.job.value) }
    {
        let datagram = backlog.pop()?;
        Some(self.offer(rt, Arrival { datagram }))
    }

    /// Offers the worker a datagram that has come, in a spare buffer if there is one. An error if
    /// memory was refused: then the datagram is lost.
    pub(crate) fn hand_on<R: Wait>(
        &self,
        rt: &R,
        alloc: Global,
        spares: &Spares,
        datagram: &[u8],
    ) -> Result<Offered<K>, AllocError>
        ensures { IfOk result (λ offered. IsArrival self.now datagram.now offered.job.value) }
    {
        let arrival = copy_of(alloc, spares, datagram)?;
        Ok(self.offer(rt, arrival))
    }
}

// The arrival of a datagram, in a spare buffer if there is one.
fn copy_of(alloc: Global, spares: &Spares, datagram: &[u8]) -> Result<Arrival, AllocError>
    ensures { IfOk result (λ copy. copy ≡ datagram.now) }
{
    let mut copy = spares.take().unwrap_or(Vec::new(alloc));
    copy.clear();
    copy.extend_from_slice(datagram)?;
    Ok(Arrival { datagram: copy })
}
