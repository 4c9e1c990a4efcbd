//! A caller asks a node, one request after the other, over connections that may break.

ghost use Rattle.std.specs.Prelude.{◌≡◌, ◌⊎◌, ℕ, false, suc, IfErr, Option};
ghost use Rattle.urb_client.specs.Requests.{Asked, IsAsked, IsShort, asked_by};
ghost use Rattle.urb_client.specs.Responses.{Said};
ghost use Rattle.urb_cli.specs.CallFaults.{IsNoMemory};
ghost use Rattle.urb_cli.specs.Calls.{GivesUp, Insists, answer_of};
ghost use Rattle.urb_cli.specs.declared.client.caller.TheConstants.{TRIES};

use crate::client::call_fault::CallFault;
use urb_client::{Request, Response};

/// How often a request without a response is sent again before the last try. Between two tries
/// there is a pause.
pub const TRIES: u32 = 20;

/// Asks one node.
pub trait Caller {
    /// In the first state, this request may have this answer, or none. Then the caller is in the
    /// second state.
    ghost calls: { Self → Asked → Option Said → Self → Type 0 };

    /// Sends a request, and reads its response. After a fault the node may have done what was
    /// asked. The next call makes a new connection.
    fn call(&mut self, request: &Request) -> Result<Response, CallFault>
        requires values { IsAsked (asked_by request.now) }
        requires short { IsShort (asked_by request.now) }
        ensures { calls self.old (asked_by request.now) (answer_of result) self.new };

    /// Waits a moment before the next call.
    fn pause(&self);
}

// Whether the same call may have a response a moment later.
fn may_pass(fault: CallFault) -> bool
    ensures { result ≡ false → IsNoMemory fault }
{
    !matches!(&fault, CallFault::NoMemory(_))
}

/// Sends a request until there is a response, with a pause after each call without one. It is the
/// same request each time, so a node stores a message once, however often it comes. After `TRIES`
/// calls without a response, this returns the outcome of one more. A lack of memory ends it at once.
pub(crate) fn insist<C: Caller>(caller: &mut C, request: &Request) -> Result<Response, CallFault>
    requires values { IsAsked (asked_by request.now) }
    requires short { IsShort (asked_by request.now) }
    ensures same { Insists C.calls (asked_by request.now) caller.old (answer_of result) caller.new }
    // It gives up only after `TRIES` calls without a response and one more, or without memory.
    ensures patience { IfErr result
        (λ why. GivesUp C.calls (asked_by request.now) caller.old why caller.new) }
{
    for _ in 0..TRIES {
        let outcome = caller.call(request);
        match outcome {
            Err(fault) if may_pass(fault) => caller.pause(),
            outcome => return outcome,
        }
    }
    caller.call(request)
}
