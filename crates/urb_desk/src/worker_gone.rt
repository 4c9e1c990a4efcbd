//! The witness that a node's worker is gone.
//!
//! Only the two functions of this file make one, so a desk can't do without asking the channel.

ghost use Rattle.std.specs.Prelude.{◌≡◌, IfOk, IsErr, Ok, OnErr, OnOk};
ghost use Rattle.urb_desk.specs.internal.Sends.{LacksMemory, LacksReceiver, WasSent};

use crossbeam_channel::{RecvError, SendError};
use std::alloc::AllocError;
use urb_link::Ticket;
use urb_names::NoMemory;
use urb_show::HouseName;
use urb_turn::Finished;

/// The witness that a node's worker is gone. Its field is private. Only a channel that has lost its
/// other end makes one: the worker's channel, or the one for its answer.
#[derive(Clone, Copy)]
pub(crate) struct WorkerGone {
    gone: (),
}

/// What a send of a ticket shows: the ticket is on its way, or the worker is gone. `NoMemory`: the
/// channel had no memory for it.
pub(crate) fn judge_send<K: HouseName>(
    came: Result<(), SendError<Ticket<K>>>,
) -> Result<Result<(), WorkerGone>, NoMemory>
    // It says that the worker is gone only if the channel has no receiver.
    ensures gone { IfOk result (λ sent. OnErr sent (LacksReceiver came)) }
    ensures sent { IfOk result (λ sent. OnOk sent (WasSent came)) }
    // It says that memory was refused only if the channel did.
    ensures refused { OnErr result (LacksMemory came) }
{
    match came {
        Ok(()) => Ok(Ok(())),
        Err(SendError::Disconnected(_)) => Ok(Err(WorkerGone { gone: () })),
        Err(SendError::OutOfMemory(_)) => Err(NoMemory::from(AllocError)),
    }
}

/// What a wait for the answer to a ticket shows: the answer, or that the worker is gone.
pub(crate) fn judge_answer<K: HouseName>(
    came: Result<Finished<K>, RecvError>,
) -> Result<Finished<K>, WorkerGone>
    ensures answer { IfOk result (λ finished. came ≡ Ok finished) }
    // It says that the worker is gone only if nobody can send the answer any more.
    ensures gone { OnErr result (IsErr came) }
{
    match came {
        Ok(finished) => Ok(finished),
        Err(RecvError) => Err(WorkerGone { gone: () }),
    }
}
