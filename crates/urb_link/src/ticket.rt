//! A job on its way to a node's worker.

use crossbeam_channel::Sender;
use urb_show::HouseName;
use urb_turn::{Finished, Job};

/// A job for a node's worker, and the channel for its result. That channel has room for one result,
/// so the worker never waits for the client that it answers.
#[derive(Drop)]
pub struct Ticket<K: HouseName> {
    pub job: Job,
    pub answer: Option<Sender<Finished<K>>>,
}
