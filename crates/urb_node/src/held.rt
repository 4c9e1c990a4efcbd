//! What a node keeps in memory in each of its states.

ghost use Rattle.std.specs.Prelude.{◌≡◌, length, true};
ghost use Rattle.urb_names.specs.CyclicOrder.{are_rising};
ghost use Rattle.urb_names.specs.Pairs.{next_number, own};

use std::alloc::{Allocator, Global};
use urb_fifo::Fifo;
use urb_majority::Acks;
use urb_names::{ClientId, Config, NodeId};
use urb_pending::Pending;
use urb_stubborn::Resend;

/// A node's memory: what it has stored, counted and heard.
#[derive(Drop)]
#[derive_where(Debug)]
pub(crate) struct Held<A: Allocator = Global> {
    pub(crate) config: Config,
    pub(crate) node: NodeId,
    /// The number of stored records.
    pub(crate) stored: u32,
    pub(crate) pending: Pending<A>,
    pub(crate) acks: Acks<A>,
    pub(crate) fifo: Fifo<A>,
    pub(crate) resend: Resend<A>,
}

impl<A: Allocator + Copy> Held<A> {
    /// The number of the node's own messages that are stored.
    pub(crate) fn own_len(&self) -> u32
        ensures value { result ≡ length (own self.now.pending.node self.now.pending.pairs) }
        ensures rising { are_rising self.now.pending.pairs ≡ true }
    {
        // Only the proof needs this call: it states the invariant of the pending pairs.
        self.pending.recall();
        self.pending.own_len()
    }

    /// The number that a client's next message must have, judged by the stored ones.
    pub(crate) fn client_next(&self, client: ClientId) -> u32
        ensures value { result
            ≡ next_number client (own self.now.pending.node self.now.pending.pairs) }
        ensures rising { are_rising self.now.pending.pairs ≡ true }
    {
        // Only the proof needs this call: it states the invariant of the pending pairs.
        self.pending.recall();
        self.pending.client_next(client)
    }
}
