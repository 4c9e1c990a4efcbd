//! The command `publish`: messages that the program numbers by itself, one after the other.

ghost use Rattle.std.specs.Prelude.{◌≡◌, ◌⊎◌, ◌<◌, ◌≤◌, ◌+◌, IfOk, IfErr, OnOk, length};
ghost use Rattle.std.specs.Prelude.{None, Some, []};
ghost use Rattle.std.specs.Io.KnownBytes.{Appends};
ghost use Rattle.urb_client.specs.Requests.{IsAsked, IsShort, Submit as AskSubmit, asked_by};
ghost use Rattle.urb_client.specs.Responses.{said_by};
ghost use Rattle.urb_cli.specs.Advice.{explained_refusal};
ghost use Rattle.urb_cli.specs.Calls.{GetsNothing, Insists};
ghost use Rattle.urb_cli.specs.ClientOutput.{accepted_shown, submit_shown};
ghost use Rattle.urb_cli.specs.Publishing.{BreaksOff, BreaksOffAfter, IsRefusedAtOnce, IsUndecided};
ghost use Rattle.urb_cli.specs.Publishing.{Publishes, StopsAfter};
ghost use Rattle.urb_cli.specs.internal.Publishing.{GoesOn, Turns, decided};
ghost use Rattle.urb_cli.specs.Statuses.{IsClientsEnd};
ghost use Rattle.urb_cli.specs.Streams.{IsUnwritten};

use crate::client::advice::{GAP, push_refusal};
use crate::client::call_fault::CallFault;
use crate::client::caller::{Caller, insist};
use crate::client::decision::Decision;
use crate::client::node_caller::NodeCaller;
use crate::client::print::render_accepted;
use crate::client::stream_end::report_stream_end;
use crate::client::stream_fault::{StreamEnd, StreamFault};
use crate::client::texts::{InputLines, OneText, Texts};
use std::alloc::Global;
use std::io;
use std::io::Write;
use std::net::{Net, TcpListener, TcpStream};
use std::time::Clock;
use urb_client::{Request, Response, write_frame};
use urb_names::{ClientId, MAX_PAYLOAD, NoMemory, Payload, Refusal};
use urb_options::{NodeAddress, PublishOptions};

// The request of a submit.
fn make_message_request(
    alloc: Global,
    client: u16,
    number: u32,
    text: &[u8],
) -> Result<Request, NoMemory>
    requires client { 0 < client }
    requires short { length text.now ≤ MAX_PAYLOAD }
    ensures asked { IfOk result
        (λ request. asked_by request ≡ AskSubmit client number text.now) }
    ensures values { IfOk result
        (λ request. IsAsked (asked_by request) × IsShort (asked_by request)) }
{
    let Some(client) = ClientId::new(client) else {
        unreachable!()
    };
    let payload = Payload::copied(alloc, text)?;
    Ok(Request::Submit {
        client,
        number,
        payload,
    })
}

// What a response to a submit decides. `BadReply`: it is no response to a submit.
fn judge_response(response: &Response) -> Result<Decision, CallFault>
    ensures ok { IfOk result (λ decision. decided decision ≡ said_by response.now) }
    ensures err { IfErr result
        (λ why. (submit_shown (said_by response.now) ≡ None) × (why ≡ CallFault.BadReply)) }
{
    match response {
        Response::Accepted(seq) => Ok(Decision::Accepted(*seq)),
        Response::Refused { number, detail } => Ok(Decision::Refused(*number, *detail)),
        _ => Err(CallFault::BadReply),
    }
}

// Sends the request of a submit until the node has decided.
fn ask_to_decide<C: Caller>(caller: &mut C, request: &Request) -> Result<Decision, CallFault>
    requires values { IsAsked (asked_by request.now) }
    requires short { IsShort (asked_by request.now) }
    ensures ok { IfOk result (λ decision. Insists C.calls (asked_by request.now)
        caller.old (Some (decided decision)) caller.new) }
    ensures err { IfErr result (λ why. GetsNothing C.calls submit_shown (asked_by request.now)
        caller.old why caller.new) }
{
    let response = insist(caller, request)?;
    judge_response(&response)
}

// Sends a message until the node has decided: the same client, number and text each time.
fn submit_until_decided<C: Caller>(
    alloc: Global,
    caller: &mut C,
    client: u16,
    number: u32,
    text: &[u8],
) -> Result<Decision, StreamFault>
    requires client { 0 < client }
    requires short { length text.now ≤ MAX_PAYLOAD }
    ensures ok { IfOk result (λ decision. Insists C.calls (AskSubmit client number text.now)
        caller.old (Some (decided decision)) caller.new) }
    ensures err { IfErr result (λ why. IsUndecided C.calls (AskSubmit client number text.now)
        caller.old why caller.new) }
{
    let request = make_message_request(alloc, client, number, text)?;
    Ok(ask_to_decide(caller, &request)?)
}

// Writes the line of a message that was accepted, under the name with this number.
fn write_accepted<W: Write>(alloc: Global, writer: &mut W, seq: u32) -> Result<(), StreamFault>
    ensures ok { OnOk result
        (Appends (W.contents writer.old) (W.contents writer.new) (accepted_shown seq).0) }
    ensures err { IfErr result
        (λ why. IsUnwritten why (W.contents writer.old) (W.contents writer.new)) }
{
    let shown = render_accepted(alloc, seq)?;
    Ok(write_frame(writer, shown.text.as_slice())?)
}

/// Writes the line of a refusal, with its advice.
pub(crate) fn write_refusal<W: Write>(
    alloc: Global,
    writer: &mut W,
    number: u8,
    detail: u32,
) -> Result<(), StreamFault>
    ensures ok { OnOk result
        (Appends (W.contents writer.old) (W.contents writer.new) (explained_refusal number detail)) }
    ensures err { IfErr result
        (λ why. IsUnwritten why (W.contents writer.old) (W.contents writer.new)) }
{
    let mut text = Vec::new(alloc);
    push_refusal(&mut text, number, detail)?;
    Ok(write_frame(writer, text.as_slice())?)
}

// Publishes the next text under this number. Returns how the command ends, if it does.
fn publish_next<T: Texts, C: Caller, W: Write>(
    alloc: Global,
    texts: &mut T,
    caller: &mut C,
    writer: &mut W,
    client: u16,
    number: u32,
) -> Result<Option<StreamEnd>, StreamFault>
    requires { 0 < client }
    ensures ok { IfOk result (λ ended. Turns T.gives T.ends C.calls client
        (record { texts = texts.old; caller = caller.old; number = number; output = W.contents writer.old })
        ended texts.new caller.new (W.contents writer.new)) }
    ensures err { IfErr result (λ why. StopsAfter T.gives T.ends C.calls client
        (record { texts = texts.old; caller = caller.old; number = number; output = W.contents writer.old })
        why texts.new caller.new (W.contents writer.new)) }
{
    let mut text = Vec::new(alloc);
    if !texts.next_text(&mut text)? {
        return Ok(Some(StreamEnd::Done));
    }
    if MAX_PAYLOAD < text.len() {
        let refusal = Refusal::TooLong;
        write_refusal(alloc, writer, refusal.number(), refusal.detail())?;
        return Ok(Some(StreamEnd::Refused));
    }
    match submit_until_decided(alloc, caller, client, number, text.as_slice())? {
        Decision::Accepted(seq) => {
            write_accepted(alloc, writer, seq)?;
            Ok(None)
        }
        Decision::Refused(number, detail) => {
            write_refusal(alloc, writer, number, detail)?;
            Ok(Some(StreamEnd::Refused))
        }
    }
}

// Publishes the texts, under the numbers from `first` on.
fn publish_from<T: Texts, C: Caller, W: Write>(
    alloc: Global,
    texts: &mut T,
    caller: &mut C,
    writer: &mut W,
    client: u16,
    first: u32,
) -> Result<StreamEnd, StreamFault>
    requires { 0 < client }
    ensures ok { IfOk result (λ ended. GoesOn T.gives T.ends C.calls client
        (record { texts = texts.old; caller = caller.old; number = first; output = W.contents writer.old })
        ended texts.new caller.new (W.contents writer.new)) }
    ensures broken { IfErr result (λ fault. BreaksOffAfter T.gives T.ends C.calls client
        (record { texts = texts.old; caller = caller.old; number = first; output = W.contents writer.old })
        fault texts.new caller.new (W.contents writer.new)) }
{
    for number in first..u32::MAX {
        if let Some(ended) = publish_next(alloc, texts, caller, writer, client, number)? {
            return Ok(ended);
        }
    }
    // A node's cap is far below the last number.
    Err(StreamFault::AtEnd)
}

/// Publishes texts as a client, and prints the line of each that is accepted. It asks the node for
/// the client's next number, and goes on from there. It sends a message again until the node has
/// decided, always under the same number, so no message is stored twice. A refusal is printed with
/// its advice, and ends it.
///
/// `Call`: the node gave no response, or none to a submit; the message in progress may be stored.
/// `Input`: a text could not be read. `Output`: a line could not be written. `NoMemory`: memory was
/// refused. `AtEnd`: the client has no number left.
pub fn publish_over<T: Texts, C: Caller, W: Write>(
    alloc: Global,
    texts: &mut T,
    caller: &mut C,
    writer: &mut W,
    client: u16,
) -> Result<StreamEnd, StreamFault>
    requires { 0 < client }
    // Each text is published, in order, until there is none left or one is refused. Or the node
    // refused the question for the next number.
    ensures ended { IfOk result (λ ended.
        Publishes T.gives T.ends C.calls client texts.old caller.old (W.contents writer.old)
        ended texts.new caller.new (W.contents writer.new)
        ⊎ IsRefusedAtOnce T.gives T.ends C.calls client texts.old caller.old
        (W.contents writer.old) ended texts.new caller.new (W.contents writer.new)) }
    // After a fault too, the lines are those of the texts that were published. It breaks off only
    // for a cause: the calls got no decision, or the fault has the witness of it.
    ensures broken { IfErr result (λ fault. BreaksOff T.gives T.ends C.calls client texts.old
        caller.old (W.contents writer.old) fault texts.new caller.new (W.contents writer.new)) }
{
    match submit_until_decided(alloc, caller, client, 0, &[])? {
        Decision::Refused(GAP, first) => publish_from(alloc, texts, caller, writer, client, first),
        Decision::Refused(number, detail) => {
            write_refusal(alloc, writer, number, detail)?;
            Ok(StreamEnd::Refused)
        }
        Decision::Accepted(_) => Err(StreamFault::Call(CallFault::BadReply)),
    }
}

// Publishes texts as `publish_over` does, and reports a fault of the calls at this address. Returns
// the program's status.
fn publish_and_report<R: Eprint, T: Texts, C: Caller, W: Write>(
    rt: &R,
    alloc: Global,
    texts: &mut T,
    caller: &mut C,
    writer: &mut W,
    at: NodeAddress<'_>,
    client: u16,
) -> u8
    requires { 0 < client }
    // If the status is 0, each text was published, in order, and there is none left.
    ensures done { result ≡ 0 → Publishes T.gives T.ends C.calls client texts.old caller.old
        (W.contents writer.old) StreamEnd.Done texts.new caller.new (W.contents writer.new) }
    ensures end { IsClientsEnd result }
{
    let outcome = publish_over(alloc, texts, caller, writer, client);
    report_stream_end(rt, at, outcome)
}

/// Does `urbd publish`, and returns the program's status: 0 if each message was accepted, 4 if one
/// was refused, 1 after a fault.
pub(crate) fn run_publish<R>(rt: &R, publishing: PublishOptions<'_>) -> u8
where
    R: AllocGlobal
        + Print
        + Eprint
        + Input
        + Clock
        + Net<Listener = TcpListener, Stream = TcpStream>,
    ensures { IsClientsEnd result }
{
    let (alloc, at, client) = (rt.alloc(), publishing.at, publishing.client);
    let mut caller = NodeCaller::new(rt, alloc, at);
    let mut writer = io::writer(rt);
    match publishing.text {
        Some(text) => {
            let mut texts = OneText::new(text);
            publish_and_report(rt, alloc, &mut texts, &mut caller, &mut writer, at, client)
        }
        None => {
            let mut texts = InputLines::new(rt.reader());
            publish_and_report(rt, alloc, &mut texts, &mut caller, &mut writer, at, client)
        }
    }
}
