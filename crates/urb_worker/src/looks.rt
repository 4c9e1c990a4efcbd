//! A worker's looks into its channel for one more ticket.

ghost use Rattle.std.specs.Prelude.{◌≡◌, ◌↔◌, IfErr, IfOk, IsErr, IsSome, IsTrue, Ok};

use crossbeam_channel::{Receiver, TryRecvError};
use std::sync::Wait;
use urb_link::Ticket;
use urb_show::HouseName;

/// The witness that a worker has looked into its channel, and found no ticket. Only this module
/// makes one, since its field is private. So a batch ends for want of tickets only if its worker has
/// looked.
#[derive(Drop)]
pub(crate) struct NoneWaits {
    looked: (),
}

// What a look has found.
fn after_look<K: HouseName>(came: Result<Ticket<K>, TryRecvError>) -> Result<Ticket<K>, NoneWaits>
    ensures ticket { IfOk result (λ ticket. came ≡ Ok ticket) }
    // It says that no ticket waits only if the look said so.
    ensures none { IfErr result (λ it. IsErr came) }
{
    match came {
        Ok(ticket) => Ok(ticket),
        Err(_) => Err(NoneWaits { looked: () }),
    }
}

/// Takes the ticket that waits, if one does.
pub(crate) fn look<K: HouseName, R: Wait>(
    rt: &R,
    jobs: &Receiver<Ticket<K>>,
) -> Result<Ticket<K>, NoneWaits> {
    after_look(jobs.try_recv(rt))
}

// The witness, if the channel is empty.
fn after_count(is_empty: bool) -> Option<NoneWaits>
    ensures { IsSome result ↔ IsTrue is_empty }
{
    if is_empty {
        Some(NoneWaits { looked: () })
    } else {
        None
    }
}

/// Looks whether no ticket waits, and takes none.
pub(crate) fn find_none<K: HouseName>(jobs: &Receiver<Ticket<K>>) -> Option<NoneWaits> {
    after_count(jobs.is_empty())
}
