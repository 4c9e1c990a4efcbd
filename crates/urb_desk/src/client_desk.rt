//! The desk of one client's session.

ghost use Rattle.std.specs.Prelude.{◌≡◌};
ghost use Rattle.urb_client.specs.Requests.{asked_by};
ghost use Rattle.urb_client.specs.Responses.{said_by};
ghost use Rattle.urb_desk.specs.ClientDesks.{is_taken, not_taken};

use crate::NodeDesk;
use crate::desk_queue::MOST_BEHIND;
use crate::shared_input::SharedInput;
use std::alloc::Global;
use std::io::{Read, Write};
use std::marker::Model;
use std::sync::Wait;
use std::time::Clock;
use urb_client::{BufferedAnswers, Control, Desk, Request, Response, UNKNOWN_OPCODE};
use urb_names::{NoMemory, Refusal};
use urb_show::HouseName;

/// A node's desk for a session whose answers are sent together. Before it waits for an entry, it
/// sends the answers that the session has made so far. If clients may not crash the node, it refuses
/// CRASH and RESTART as requests that the node doesn't know.
///
/// Submits that the client has sent one behind the other go to the node's worker together, so one
/// sync may keep them all.
#[derive(Drop)]
pub struct ClientDesk<'a, 'w, K: HouseName, R: Wait + Clock, I: Read + Drop, W: Write + Drop> {
    desk: NodeDesk<'a, K, R>,
    input: &'w SharedInput<I>,
    answers: &'w BufferedAnswers<W>,
    may_crash: bool,
}

impl<'a, 'w, K: HouseName, R: Wait + Clock, I: Read + Drop, W: Write + Drop> Model
    for ClientDesk<'a, 'w, K, R, I, W> {
    ghost use Rattle.urb_desk.specs.ClientDesks.{ClientDeskView};

    ghost Value = { ClientDeskView };

    ghost view = { λ d. record { desk = d.desk; may_crash = d.may_crash } };
}

impl<'a, 'w, K: HouseName, R: Wait + Clock, I: Read + Drop, W: Write + Drop> ClientDesk<
    'a,
    'w,
    K,
    R,
    I,
    W,
> {
    /// This desk, for a session with this input and these answers, whose client may crash the node
    /// or may not.
    pub fn new(
        desk: NodeDesk<'a, K, R>,
        input: &'w SharedInput<I>,
        answers: &'w BufferedAnswers<W>,
        may_crash: bool,
    ) -> ClientDesk<'a, 'w, K, R, I, W>
        ensures { result ≡ record { desk = desk.entry; may_crash = may_crash } }
    {
        ClientDesk {
            desk,
            input,
            answers,
            may_crash,
        }
    }

    // The submits that the client has sent behind this request, for the worker to do together with
    // it.
    fn submits_behind(&self, request: &Request) -> Vec<Request> {
        let is_first = self.desk.is_level() && matches!(request, Request::Submit { .. });
        let most = if is_first { MOST_BEHIND } else { 0 };
        self.input.next_submits(self.desk.alloc(), most)
    }
}

// Whether a node takes a request from its clients.
fn is_taken(may_crash: bool, request: &Request) -> bool
    ensures { result ≡ is_taken may_crash (asked_by request.now) }
{
    match request {
        Request::Ask(Control::Crash | Control::Restart) => may_crash,
        _ => true,
    }
}

// The response to a request that the node doesn't take.
fn refuse_request() -> Response
    ensures { said_by result ≡ not_taken }
{
    Response::refused(&Refusal::Frame(UNKNOWN_OPCODE))
}

impl<'a, 'w, K: HouseName, R: Wait + Clock, I: Read + Drop, W: Write + Drop> Desk
    for ClientDesk<'a, 'w, K, R, I, W> {
    type Alloc = Global;

    ghost use Rattle.urb_desk.specs.ClientDesks.{AnswersClient, RefusedClient};

    ghost answers = { AnswersClient K.origin };

    ghost refuses = { RefusedClient K.origin };

    fn answer(&mut self, request: &Request) -> Result<Response, NoMemory> {
        if !is_taken(self.may_crash, request) {
            return Ok(refuse_request());
        }
        if matches!(request, Request::Wait { .. }) {
            // If they can't be sent, the session's next read fails.
            let _ = self.answers.send_all();
        }
        let behind = self.submits_behind(request);
        self.desk.answer_before(request, &behind)
    }
}
