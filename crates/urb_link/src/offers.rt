//! Offers of tickets to a worker, with a witness of the job that was offered.

ghost use Rattle.std.specs.Option.{ForSome};
ghost use Rattle.std.specs.Prelude.{◌≡◌, IfSome};

use crate::Ticket;
use crossbeam_channel::{Sender, TrySendError};
use std::snapshot::Snapshot;
use std::sync::Wait;
use urb_show::HouseName;
use urb_turn::Job;

/// The witness that a worker was offered a job. Only `offer` makes one, of the ticket that it gave to
/// the worker's channel. The ticket is back if the channel was full.
#[derive(Drop)]
pub(crate) struct Offered<K: HouseName> {
    job: Snapshot<Job>,
    back: Option<Ticket<K>>,
    ghost same: { ForSome back (λ ticket. ticket.job ≡ job.value) },
}

impl<K: HouseName> Offered<K> {
    /// The ticket, if it is back.
    pub(crate) fn into_back(self) -> Option<Ticket<K>>
        ensures { IfSome result (λ ticket. ticket.job ≡ self.job.value) }
    {
        let Offered { job: _, back } = self;
        back
    }
}

/// Offers a worker a ticket. The ticket comes back if the channel is full.
pub(crate) fn offer<K: HouseName, R: Wait>(
    rt: &R,
    sender: &Sender<Ticket<K>>,
    ticket: Ticket<K>,
) -> Offered<K>
    ensures { result.job.value ≡ ticket.job }
{
    let job = Snapshot::of(&ticket.job);
    let back = match sender.try_send(rt, ticket) {
        Ok(()) => None,
        Err(TrySendError::Full(ticket)) => Some(ticket),
        Err(TrySendError::Disconnected(_lost)) => None,
        Err(TrySendError::OutOfMemory(_lost)) => None,
    };
    Offered { job, back }
}
