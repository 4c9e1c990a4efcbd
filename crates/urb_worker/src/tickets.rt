//! A worker's tickets: the next one, or that its channel has closed.

ghost use Rattle.std.specs.Prelude.{◌≡◌, ◌≤◌, Err, IfErr, IfOk, IsSome, true};
ghost use Rattle.urb_worker.specs.internal.Pulses.{is_endless};

use crossbeam_channel::{Receiver, RecvTimeoutError, TryRecvError};
use std::marker::PhantomData;
use std::sync::Wait;
use std::thread;
use std::time::{Clock, Duration};
use urb_link::Ticket;
use urb_show::HouseName;

/// The witness that a worker's channel has closed: it has no ticket left and no sender. Only
/// `next_ticket` makes one, of the channel that it was lent. A worker's loop returns it, so it
/// can't end for any other reason.
#[derive(Drop)]
pub struct Closed<'q> {
    of: PhantomData<&'q ()>,
}

// The witness for this channel. Call it only once the channel has said that it is closed.
fn end_of<'q, K: HouseName>(_jobs: &'q Receiver<Ticket<K>>) -> Closed<'q> {
    Closed { of: PhantomData }
}

/// How long a worker waits for a ticket.
#[derive(Clone, Copy)]
pub(crate) enum Patience {
    /// It doesn't wait.
    Brief,
    For(Duration),
    Endless,
}

// What a look into the channel has found: a ticket, or `None` if none was there.
fn after_look<'q, K: HouseName>(
    jobs: &'q Receiver<Ticket<K>>,
    came: Result<Ticket<K>, TryRecvError>,
) -> Result<Option<Ticket<K>>, Closed<'q>>
    // It says that the channel has closed only if the look said so.
    ensures closed { IfErr result (λ it. came ≡ Err TryRecvError.Disconnected) }
{
    match came {
        Ok(ticket) => Ok(Some(ticket)),
        Err(TryRecvError::Disconnected) => Err(end_of(jobs)),
        Err(TryRecvError::Empty) => Ok(None),
    }
}

// A ticket that is there, or `None` if none is.
fn ticket_there<'q, K: HouseName, R: Wait>(
    rt: &R,
    jobs: &'q Receiver<Ticket<K>>,
) -> Result<Option<Ticket<K>>, Closed<'q>> {
    after_look(jobs, jobs.try_recv(rt))
}

// What a wait with an end has brought: a ticket, or `None` if none came in time.
fn after_wait<'q, K: HouseName>(
    jobs: &'q Receiver<Ticket<K>>,
    came: Result<Ticket<K>, RecvTimeoutError>,
) -> Result<Option<Ticket<K>>, Closed<'q>>
    // It says that the channel has closed only if the wait said so.
    ensures closed { IfErr result (λ it. came ≡ Err RecvTimeoutError.Disconnected) }
{
    match came {
        Ok(ticket) => Ok(Some(ticket)),
        Err(RecvTimeoutError::Disconnected) => Err(end_of(jobs)),
        Err(RecvTimeoutError::Timeout) => Ok(None),
    }
}

// A ticket after the worker has slept for one, or `None` if none came in time.
fn wait_for_ticket<'q, K: HouseName, R: Wait + Clock>(
    rt: &R,
    jobs: &'q Receiver<Ticket<K>>,
    patience: Patience,
) -> Result<Option<Ticket<K>>, Closed<'q>>
    ensures { IfOk result (λ came. is_endless patience ≡ true → IsSome came) }
{
    match patience {
        Patience::Brief => ticket_there(rt, jobs),
        Patience::For(time) => after_wait(jobs, jobs.recv_timeout(rt, time)),
        Patience::Endless => match jobs.recv(rt) {
            Ok(ticket) => Ok(Some(ticket)),
            Err(_) => Err(end_of(jobs)),
        },
    }
}

// A worker's next ticket, or that its channel has closed. `None` if no ticket came in time. A
// client often sends its next request as soon as it is answered, other nodes soon answer a record,
// and waking a thread is slow. So a worker polls its channel for a while before it sleeps, and
// yields to other threads between two polls. Polls that it doesn't need for one ticket are left for
// the next.
pub(crate) fn next_ticket<'q, K: HouseName, R: Wait + Clock>(
    rt: &R,
    jobs: &'q Receiver<Ticket<K>>,
    polls: &mut u32,
    patience: Patience,
) -> Result<Option<Ticket<K>>, Closed<'q>>
    ensures fewer { polls.new ≤ polls.old }
    // A worker that waits without an end returns with a ticket.
    ensures endless { IfOk result (λ came. is_endless patience ≡ true → IsSome came) }
{
    if !matches!(patience, Patience::Brief) {
        while 0 < *polls {
            *polls -= 1;
            match ticket_there(rt, jobs)? {
                Some(ticket) => return Ok(Some(ticket)),
                None => thread::yield_now(),
            }
        }
    }
    wait_for_ticket(rt, jobs, patience)
}
