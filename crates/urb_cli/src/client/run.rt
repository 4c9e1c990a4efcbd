//! The commands `submit` and `read`: one request to a node on this machine, and what its response
//! shows.

ghost use Rattle.std.specs.Prelude.{◌≡◌, ◌⊎◌, ◌<◌, ◌≤◌, ℕ, List, IfOk, IfErr, OnErr, OnOk};
ghost use Rattle.std.specs.Prelude.{Some, length};
ghost use Rattle.urb_names.specs.LabelsAndContents.{Label, Content};
ghost use Rattle.urb_client.specs.Requests.{IsAsked, IsShort, asked_by};
ghost use Rattle.urb_client.specs.Responses.{Accepted, Listing, Refused};
ghost use Rattle.urb_options.specs.Addresses.{address_of};
ghost use Rattle.urb_cli.specs.Asking.{HasNoAnswer, ShowsAnswer, ShowsSubmit};
ghost use Rattle.urb_cli.specs.Asking.{request_of_reading, request_of_submitting};
ghost use Rattle.urb_cli.specs.ClientOutput.{IsShown, read_shown, refused_shown, shown_by};
ghost use Rattle.urb_cli.specs.ClientOutput.{submit_shown};
ghost use Rattle.urb_cli.specs.Statuses.{IsClientsEnd};

use crate::client::asker::Asker;
use crate::client::call_fault::{CallFault, report_call_fault};
use crate::client::node_asker::NodeAsker;
use crate::client::print::{render_read_response, render_refusal, render_submit_response};
use crate::client::printed::Printed;
use std::alloc::Global;
use std::io;
use std::net::{Net, TcpListener, TcpStream};
use urb_client::Request;
use urb_names::{ClientId, MAX_PAYLOAD, NoMemory, Payload, Refusal};
use urb_options::{Fault, NodeAddress, ReadOptions, SubmitOptions, report_fault};

// The request of a submit.
fn make_submit_request(alloc: Global, submitting: SubmitOptions<'_>) -> Result<Request, NoMemory>
    requires { length submitting.text.now ≤ MAX_PAYLOAD }
    ensures asked { IfOk result
        (λ request. asked_by request ≡ request_of_submitting submitting.entry) }
    ensures values { IfOk result
        (λ request. IsAsked (asked_by request) × IsShort (asked_by request)) }
{
    let Some(client) = ClientId::new(submitting.client) else {
        unreachable!()
    };
    let payload = Payload::copied(alloc, submitting.text.as_bytes())?;
    Ok(Request::Submit {
        client,
        number: submitting.number,
        payload,
    })
}

// Asks the node to take a message that is short enough, and returns what its response shows.
fn submit_short<A: Asker>(
    alloc: Global,
    asker: &mut A,
    submitting: SubmitOptions<'_>,
) -> Result<Printed, CallFault>
    requires { length submitting.text.now ≤ MAX_PAYLOAD }
    ensures shown { IfOk result (λ shown.
        ShowsAnswer A.answers submit_shown (address_of submitting.entry.at)
        (request_of_submitting submitting.entry) asker.old (shown_by shown) asker.new) }
    ensures fault { IfErr result (λ why.
        HasNoAnswer A.answers submit_shown (address_of submitting.entry.at)
        (request_of_submitting submitting.entry) asker.old why asker.new) }
{
    let request = make_submit_request(alloc, submitting)?;
    let response = asker.ask(submitting.at, &request)?;
    match render_submit_response(alloc, &response)? {
        Some(shown) => Ok(shown),
        None => Err(CallFault::BadReply),
    }
}

/// Submits a message at the node's address, and returns what the response shows. A text that is too
/// long isn't sent. After a fault the message may have been accepted. A client that isn't sure
/// submits it again, under the same number.
///
/// `NoMemory`: memory was refused. Other faults are the asker's. `BadReply` may also mean that a node
/// doesn't answer a submit so.
pub fn submit_by<A: Asker>(
    alloc: Global,
    asker: &mut A,
    submitting: SubmitOptions<'_>,
) -> Result<Printed, CallFault>
    // The node at this address was asked once, and this is shown for its response. A text that is
    // too long isn't sent.
    ensures shown { IfOk result (λ shown.
        ShowsSubmit A.answers submitting.entry asker.old (shown_by shown) asker.new) }
    ensures fault { IfErr result (λ why.
        HasNoAnswer A.answers submit_shown (address_of submitting.entry.at)
        (request_of_submitting submitting.entry) asker.old why asker.new) }
    // If the text is too long, this is the refusal.
    ensures long { MAX_PAYLOAD < length submitting.entry.text.now
        → IfOk result (λ shown. shown_by shown ≡ refused_shown 5 0) }
{
    if MAX_PAYLOAD < submitting.text.len() {
        let refusal = Refusal::TooLong;
        return Ok(render_refusal(alloc, refusal.number(), refusal.detail())?);
    }
    submit_short(alloc, asker, submitting)
}

/// Reads entries at the node's address, and returns what the response shows.
///
/// `NoMemory`: memory was refused. Other faults are the asker's. `BadReply` may also mean that a node
/// doesn't answer a read so.
pub fn read_by<A: Asker>(
    alloc: Global,
    asker: &mut A,
    reading: ReadOptions<'_>,
) -> Result<Printed, CallFault>
    // The node at this address was asked once, and this is shown for its response.
    ensures shown { IfOk result (λ shown.
        ShowsAnswer A.answers read_shown (address_of reading.entry.at)
        (request_of_reading reading.entry) asker.old (shown_by shown) asker.new) }
    ensures fault { IfErr result (λ why.
        HasNoAnswer A.answers read_shown (address_of reading.entry.at)
        (request_of_reading reading.entry) asker.old why asker.new) }
{
    let request = Request::Read {
        place: reading.from,
        max: reading.max,
    };
    let response = asker.ask(reading.at, &request)?;
    match render_read_response(alloc, &response)? {
        Some(shown) => Ok(shown),
        None => Err(CallFault::BadReply),
    }
}

/// Submits a message at the node's address as `submit_by` does, over a connection to that node.
pub fn submit_at<R: Net<Listener = TcpListener, Stream = TcpStream>>(
    rt: &R,
    alloc: Global,
    submitting: SubmitOptions<'_>,
) -> Result<Printed, CallFault>
    // If the text is too long, this is the refusal.
    ensures { MAX_PAYLOAD < length submitting.entry.text.now
        → IfOk result (λ shown. shown_by shown ≡ refused_shown 5 0) }
{
    submit_by(alloc, &mut NodeAsker::new(rt, alloc), submitting)
}

/// Reads entries at the node's address as `read_by` does, over a connection to that node.
pub fn read_at<R: Net<Listener = TcpListener, Stream = TcpStream>>(
    rt: &R,
    alloc: Global,
    reading: ReadOptions<'_>,
) -> Result<Printed, CallFault>
    // What is shown is what a response to a read says.
    ensures { IfOk result (λ shown. IsShown read_shown (shown_by shown)) }
{
    read_by(alloc, &mut NodeAsker::new(rt, alloc), reading)
}

// The status after a text was written, or after its write failed, which is reported.
fn report_written<R: Eprint>(rt: &R, written: io::Result<()>, status: u8) -> u8
    ensures ok { OnOk written (result ≡ status) }
    ensures err { OnErr written (result ≡ 1) }
{
    match written {
        Ok(()) => status,
        Err(_) => report_fault(rt, Fault::Write),
    }
}

/// Writes what is shown of the node at this address to standard output, or reports the fault.
/// Returns the status.
pub fn show<R: Print + Eprint>(
    rt: &R,
    at: NodeAddress<'_>,
    outcome: Result<Printed, CallFault>,
) -> u8
    ensures shown { IfOk outcome (λ shown. (result ≡ shown.status) ⊎ (result ≡ 1)) }
    ensures fault { IfErr outcome (λ fault. result ≡ 1) }
{
    match outcome {
        Ok(shown) => {
            let written = rt.write_all(shown.text.as_slice());
            report_written(rt, written, shown.status)
        }
        Err(fault) => report_call_fault(rt, at, fault),
    }
}

// Submits a message and shows the response. Returns the program's status.
fn submit_and_show<R: Print + Eprint, A: Asker>(
    rt: &R,
    alloc: Global,
    asker: &mut A,
    submitting: SubmitOptions<'_>,
) -> u8
    // It ends well only if the node at this address accepted the message.
    ensures accepted { result ≡ 0 → (seq : ℕ) × A.answers asker.old
        (address_of submitting.entry.at) (request_of_submitting submitting.entry)
        (Some (Accepted seq)) asker.new }
    // It ends as a refusal only if that node refused the message, or the text is too long.
    ensures refused { result ≡ 4 → (MAX_PAYLOAD < length submitting.entry.text.now)
        ⊎ ((number : ℕ) × (detail : ℕ) × A.answers asker.old (address_of submitting.entry.at)
        (request_of_submitting submitting.entry) (Some (Refused number detail)) asker.new) }
    // A text that is too long is never accepted.
    ensures long { MAX_PAYLOAD < length submitting.entry.text.now → (result ≡ 1) ⊎ (result ≡ 4) }
    ensures end { IsClientsEnd result }
{
    let outcome = submit_by(alloc, asker, submitting);
    show(rt, submitting.at, outcome)
}

// Reads entries and shows the response. Returns the program's status.
fn read_and_show<R: Print + Eprint, A: Asker>(
    rt: &R,
    alloc: Global,
    asker: &mut A,
    reading: ReadOptions<'_>,
) -> u8
    // It ends well only if the node at this address gave these entries.
    ensures listed { result ≡ 0 → (page : List (Label × Content)) × A.answers asker.old
        (address_of reading.entry.at) (request_of_reading reading.entry)
        (Some (Listing page)) asker.new }
    // It ends as a refusal only if that node refused.
    ensures refused { result ≡ 4 → (number : ℕ) × (detail : ℕ) × A.answers asker.old
        (address_of reading.entry.at) (request_of_reading reading.entry)
        (Some (Refused number detail)) asker.new }
    ensures end { IsClientsEnd result }
{
    let outcome = read_by(alloc, asker, reading);
    show(rt, reading.at, outcome)
}

/// Does `urbd submit`, and returns the program's status: 0 if the message was accepted, 4 if it was
/// refused, 1 after a fault.
pub(crate) fn run_submit<R>(rt: &R, submitting: SubmitOptions<'_>) -> u8
where
    R: AllocGlobal + Print + Eprint + Net<Listener = TcpListener, Stream = TcpStream>,
    ensures end { IsClientsEnd result }
    // A text that is too long is never accepted.
    ensures long { MAX_PAYLOAD < length submitting.entry.text.now → (result ≡ 1) ⊎ (result ≡ 4) }
{
    let alloc = rt.alloc();
    submit_and_show(rt, alloc, &mut NodeAsker::new(rt, alloc), submitting)
}

/// Does `urbd read`, and returns the program's status. It is 0 if entries were shown, even if the
/// list is empty, 4 if the read was refused, and 1 after a fault.
pub(crate) fn run_read<R>(rt: &R, reading: ReadOptions<'_>) -> u8
where
    R: AllocGlobal + Print + Eprint + Net<Listener = TcpListener, Stream = TcpStream>,
    ensures { IsClientsEnd result }
{
    let alloc = rt.alloc();
    read_and_show(rt, alloc, &mut NodeAsker::new(rt, alloc), reading)
}
