//! The responses that clients get for their requests.

ghost use Rattle.std.specs.Prelude.{◌≡◌, ◌≤◌, IfOk, length, map};
ghost use Rattle.urb_client.specs.declared.format.TheConstants.{MOST_ENTRIES};
ghost use Rattle.urb_client.specs.Pages.{SaysPage};
ghost use Rattle.urb_client.specs.Responses.{said_by};
ghost use Rattle.urb_desk.specs.Desks.{gone, pair_of, said_of, told_of, told_state};

use crate::lost::Lost;
use std::alloc::Global;
use urb_client::{NodeState, Response};
use urb_group::{Answer, Reply, State};
use urb_names::{NoMemory, Refusal};
use urb_show::{Entry, Status};

// A node's state, in the form that a response has.
fn node_state_of(state: State) -> NodeState
    ensures { result ≡ told_state state }
{
    match state {
        State::Down => NodeState::Down,
        State::Ready => NodeState::Ready,
        State::Storing => NodeState::Storing,
    }
}

// The response if the worker or the House is gone, or a stray turn came.
pub(crate) fn down_response(_lost: &Lost) -> Response
    ensures { said_by result ≡ gone }
{
    Response::refused(&Refusal::Down)
}

// The response for a reply.
fn response_to_reply(reply: &Reply) -> Response
    ensures { said_by result ≡ said_of reply.now }
{
    match reply {
        Reply::Same(Answer::Accepted(name)) => Response::Accepted(name.seq),
        Reply::Stored(done) if done.accepted => Response::Accepted(done.name.seq),
        Reply::Refused(refusal) => Response::refused(refusal),
        Reply::WentDown(_) | Reply::Up(_) => Response::Done,
        Reply::Same(_) | Reply::Stored(_) | Reply::Drafted { .. } | Reply::Sent(_) =>
            Response::refused(&Refusal::Down),
    }
}

// The response for a turn.
pub(crate) fn response_to_turn(reply: &Reply, status: Option<Status>) -> Response
    ensures { said_by result ≡ told_of reply.now status }
{
    match status {
        Some(status) => Response::Status {
            state: node_state_of(status.state),
            own: status.own,
            logged: status.logged,
        },
        None => response_to_reply(reply),
    }
}

// The response for a page.
pub(crate) fn response_to_read(alloc: Global, entries: Vec<Entry>) -> Result<Response, NoMemory>
    requires { length entries.items ≤ MOST_ENTRIES }
    ensures { IfOk result (λ response. SaysPage (map pair_of entries.items) (said_by response)) }
{
    let mut pairs = Vec::with_capacity(alloc, entries.len())?;
    for entry in entries {
        pairs.push((entry.name, entry.message))?;
    }
    Response::entries(pairs)
}
