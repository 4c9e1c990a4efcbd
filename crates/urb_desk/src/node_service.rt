//! What the sessions of a node share.

use crate::{ReaderPool, TicketPlaces};
use crossbeam_channel::Sender;
use urb_link::{Bell, Stop, Throttle, Ticket};
use urb_show::HouseName;

/// What the sessions of one node share.
#[derive(Drop)]
pub struct NodeService<'a, K: HouseName> {
    /// The queue of the node's worker.
    pub queue: &'a Sender<Ticket<K>>,
    /// The places for tickets of sessions in this queue.
    pub places: &'a TicketPlaces,
    /// The readers that sessions borrow.
    pub readers: &'a ReaderPool<K>,
    /// The bell that rings when the node's log has grown.
    pub bell: &'a Bell,
    /// What holds submits back while a node of the group is far behind.
    pub throttle: Throttle<'a>,
    /// The stop that ends all waits of clients.
    pub stop: &'a Stop,
}

/// What a desk has of its node's service, beside the queue.
#[derive(Drop)]
pub(crate) struct DeskService<'a, K: HouseName> {
    pub(crate) readers: &'a ReaderPool<K>,
    pub(crate) bell: &'a Bell,
    pub(crate) stop: &'a Stop,
}

impl<'a, K: HouseName> DeskService<'a, K> {
    /// The same, for another desk.
    pub(crate) fn copy(&self) -> DeskService<'a, K> {
        DeskService {
            readers: self.readers,
            bell: self.bell,
            stop: self.stop,
        }
    }
}
