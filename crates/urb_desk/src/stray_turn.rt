//! The witness that a worker returned something other than a turn of the request.
//!
//! Only `judge_turn` makes one.

ghost use Rattle.std.specs.Prelude.{◌≡◌, ◌↔◌, IfOk, IsTrue, OnErr, OnOk};
ghost use Rattle.urb_client.specs.Requests.{asked_by};
ghost use Rattle.urb_desk.specs.Desks.{IsJobOf, control_job};
ghost use Rattle.urb_desk.specs.internal.Desks.{IsTurnFor};
ghost use Rattle.urb_turn.specs.Loans.{events_until};
ghost use Rattle.urb_turn.specs.Turns.{IsOutcome};

use urb_client::{Control, Request};
use urb_names::NodeId;
use urb_show::{HouseName, Moment};
use urb_turn::{Finished, Job};

/// The witness that the worker returned something other than a turn of the request. Only `judge_turn`
/// makes one.
#[derive(Clone, Copy)]
pub(crate) struct StrayTurn {
    stray: (),
}

/// The turn that the worker returned, if it is one of this request at this node, behind all that
/// was seen.
#[tactic(auto, using(crate::proofs::DeskEvents::no_run, crate::proofs::DeskEvents::an_earlier_turn, crate::proofs::DeskEvents::another_job))]
pub(crate) fn judge_turn<K: HouseName>(
    node: NodeId,
    request: &Request,
    seen: &Option<Moment<K>>,
    finished: Finished<K>,
) -> Result<Finished<K>, StrayTurn>
    ensures same { IfOk result (λ turn. turn ≡ finished) }
    // The House that K names did this turn.
    ensures outcome { IfOk result (λ turn. IsOutcome K.origin turn.ran turn.job turn.reply
        turn.status turn.settling turn.loans) }
    ensures turn { OnOk result
        (IsTurnFor node (events_until seen.now) (asked_by request.now) finished) }
    ensures stray { OnErr result
        (IsTurnFor node (events_until seen.now) (asked_by request.now) finished → ⊥) }
{
    if !finished.ran() {
        return Err(StrayTurn { stray: () });
    }
    if !finished.is_after(seen) {
        return Err(StrayTurn { stray: () });
    }
    if !is_turn_of(node, request, &finished) {
        return Err(StrayTurn { stray: () });
    }
    Ok(finished)
}

// Whether a turn did what a request asks at a node.
fn is_turn_of<K: HouseName>(node: NodeId, request: &Request, finished: &Finished<K>) -> bool
    ensures each { IsJobOf node (asked_by request.now) finished.now.job → IsTrue result }
    ensures only { IsTrue result → IsJobOf node (asked_by request.now) finished.now.job }
{
    is_job_of(node, request, finished.job())
}

// Whether a job is what a request asks at a node.
fn is_job_of(node: NodeId, request: &Request, job: &Job) -> bool
    ensures { IsTrue result ↔ IsJobOf node (asked_by request.now) job.now }
{
    match (request, job) {
        (
            Request::Submit {
                client,
                number,
                payload,
            },
            Job::Submit {
                node: at,
                client: of,
                number: ranked,
                payload: bytes,
            },
        ) => *at == node
            && *of == *client
            && *ranked == *number
            && bytes.as_slice() == payload.as_slice(),
        (Request::Ask(control), _) => is_control_job(node, *control, job),
        _ => false,
    }
}

// Whether a job is what a request without fields asks at a node.
fn is_control_job(node: NodeId, control: Control, job: &Job) -> bool
    ensures { IsTrue result ↔ (job.now ≡ control_job node control) }
{
    match (control, job) {
        (Control::Status, Job::Status(at)) => *at == node,
        (Control::Crash, Job::Crash(at)) => *at == node,
        (Control::Restart, Job::Restart(at)) => *at == node,
        _ => false,
    }
}
