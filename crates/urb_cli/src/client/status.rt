//! The command `status`: a line for each node that is asked.

ghost use Rattle.std.specs.Prelude.{◌≡◌, ◌<◌, ◌⊎◌, ◌==◌, if◌then◌else◌, IfOk, IfErr, Some};
ghost use Rattle.std.specs.Prelude.{option_map};
ghost use Rattle.urb_client.specs.Requests.{Ask};
ghost use Rattle.urb_client.specs.declared.request.Control.TheVariants.{Status};
ghost use Rattle.urb_client.specs.Responses.{Refused, said_by};
ghost use Rattle.urb_options.specs.Addresses.{address_of};
ghost use Rattle.urb_cli.specs.AskedAddresses.{address_after};
ghost use Rattle.urb_cli.specs.Asking.{AsksEach, HasNoAnswer, IsNodesStatus, ShowsAnswer};
ghost use Rattle.urb_cli.specs.ClientOutput.{IsShown, shown_by};
ghost use Rattle.urb_cli.specs.ClientOutput.{state_word, status_line, status_shown};
ghost use Rattle.urb_cli.specs.Statuses.{IsClientsEnd};

use crate::client::address_text::push_address;
use crate::client::advice::push_refusal;
use crate::client::asker::Asker;
use crate::client::call_fault::CallFault;
use crate::client::node_asker::PatientAsker;
use crate::client::print::REFUSED;
use crate::client::printed::Printed;
use crate::client::refused_write::refused_write;
use crate::client::run::show;
use std::alloc::Global;
use std::io::Write;
use std::net::{Net, TcpListener, TcpStream};
use urb_client::{Control, NodeState, Request, Response};
use urb_names::NoMemory;
use urb_options::{NodeAddress, StatusOptions};

fn word(state: NodeState) -> &'static str
    ensures { result.now ≡ state_word state }
{
    match state {
        NodeState::Down => "down",
        NodeState::Ready => "ready",
        NodeState::Storing => "storing",
    }
}

// The line of a node.
fn render_status(
    alloc: Global,
    at: NodeAddress<'_>,
    state: NodeState,
    own: u32,
    logged: u32,
) -> Result<Printed, NoMemory>
    ensures { IfOk result (λ shown. shown_by shown
        ≡ (status_line (address_of at.entry) state own logged, 0)) }
{
    let mut text = Vec::new(alloc);
    let word = word(state);
    push_address(&mut text, at)?;
    write!(text, " {word} accepted {own} shown {logged}\n").map_err(refused_write)?;
    Ok(Printed { text, status: 0 })
}

// The line of a node that refused the question.
fn render_refused_status(
    alloc: Global,
    at: NodeAddress<'_>,
    number: u8,
    detail: u32,
) -> Result<Printed, NoMemory>
    ensures { IfOk result (λ shown. option_map shown_by (Some shown)
        ≡ status_shown (address_of at.entry) (Refused number detail)) }
{
    let mut text = Vec::new(alloc);
    push_address(&mut text, at)?;
    text.push(b' ')?;
    push_refusal(&mut text, number, detail)?;
    Ok(Printed {
        text,
        status: REFUSED,
    })
}

/// What `urbd status` shows for a response of the node at this address. `None` if it is no response
/// to a question for the state.
fn render_status_response(
    alloc: Global,
    at: NodeAddress<'_>,
    response: &Response,
) -> Result<Option<Printed>, NoMemory>
    ensures { IfOk result (λ shown. option_map shown_by shown
        ≡ status_shown (address_of at.entry) (said_by response.now)) }
{
    match response {
        Response::Status { state, own, logged } => {
            Ok(Some(render_status(alloc, at, *state, *own, *logged)?))
        }
        Response::Refused { number, detail } => {
            Ok(Some(render_refused_status(alloc, at, *number, *detail)?))
        }
        _ => Ok(None),
    }
}

/// Asks for the state of the node at this address, and returns the line that shows it.
///
/// `NoMemory`: memory was refused. Other faults are the asker's. `BadReply` may also mean that a node
/// doesn't answer this question so.
pub fn status_by<A: Asker>(
    alloc: Global,
    asker: &mut A,
    at: NodeAddress<'_>,
) -> Result<Printed, CallFault>
    // The node at this address was asked once, and this is shown for its response.
    ensures shown { IfOk result (λ shown.
        ShowsAnswer A.answers (status_shown (address_of at.entry)) (address_of at.entry)
        (Ask Status) asker.old (shown_by shown) asker.new) }
    ensures fault { IfErr result (λ why.
        HasNoAnswer A.answers (status_shown (address_of at.entry)) (address_of at.entry)
        (Ask Status) asker.old why asker.new) }
{
    let response = asker.ask(at, &Request::Ask(Control::Status))?;
    match render_status_response(alloc, at, &response)? {
        Some(shown) => Ok(shown),
        None => Err(CallFault::BadReply),
    }
}

/// Asks for the state of the node at this address as `status_by` does, over a connection to that
/// node, and waits some seconds for the answer.
pub fn status_at<R: Net<Listener = TcpListener, Stream = TcpStream>>(
    rt: &R,
    alloc: Global,
    at: NodeAddress<'_>,
) -> Result<Printed, CallFault>
    // What is shown is what a response to the question says.
    ensures { IfOk result (λ shown. IsShown (status_shown (address_of at.entry)) (shown_by shown)) }
{
    status_by(alloc, &mut PatientAsker::new(rt, alloc), at)
}

// Says on standard output that the node at this address doesn't answer, and why on standard error.
// Returns the status.
fn show_node<R: Print + Eprint>(
    rt: &R,
    at: NodeAddress<'_>,
    outcome: Result<Printed, CallFault>,
) -> u8
    ensures shown { IfOk outcome (λ shown. (result ≡ shown.status) ⊎ (result ≡ 1)) }
    ensures fault { IfErr outcome (λ fault. result ≡ 1) }
    ensures end { IsClientsEnd result }
{
    if outcome.is_err() {
        let _ = match at {
            NodeAddress::Port(port) => println!(rt; "{port} no answer"),
            NodeAddress::Socket(path) => println!(rt; "{path} no answer"),
        };
    }
    show(rt, at, outcome)
}

// The status of two calls together: that of the first one that didn't end well, else 0.
fn worse(first: u8, second: u8) -> u8
    ensures { result ≡ (if first == 0 then second else first) }
{
    if first == 0 { second } else { first }
}

// The address of the node that comes this number of nodes after the first one.
fn find_node<'a>(asking: StatusOptions<'a>, later: u8) -> NodeAddress<'a>
    requires { later < asking.count }
    ensures { address_of result ≡ address_after (address_of asking.entry.at) later }
{
    match asking.at {
        NodeAddress::Port(port) => NodeAddress::Port(port + u16::from(later)),
        NodeAddress::Socket(path) => NodeAddress::Socket(path),
    }
}

// Asks for the state of the node at this address, and prints its line. Returns the status.
fn ask_node<R: Print + Eprint, A: Asker>(
    rt: &R,
    alloc: Global,
    asker: &mut A,
    at: NodeAddress<'_>,
) -> u8
    ensures status { IsNodesStatus A.answers (address_of at.entry) asker.old result asker.new }
    ensures end { IsClientsEnd result }
{
    let outcome = status_by(alloc, asker, at);
    show_node(rt, at, outcome)
}

/// Asks each node for its state, once and in order, and prints its line. Returns the status: that
/// of the first call that didn't end well, or 0. It is 1 for a call without an answer, and 4 for a
/// refusal.
pub fn ask_each<R: Print + Eprint, A: Asker>(
    rt: &R,
    alloc: Global,
    asker: &mut A,
    asking: StatusOptions<'_>,
) -> u8
    // Each node was asked once, and the status is that of the first call that didn't end well.
    ensures each { AsksEach A.answers (address_of asking.entry.at) asker.old asking.entry.count
        result asker.new }
    ensures end { IsClientsEnd result }
{
    let mut status = 0;
    for node in 0..asking.count {
        let at = find_node(asking, node);
        status = worse(status, ask_node(rt, alloc, asker, at));
    }
    status
}

/// Does `urbd status`: asks each node, prints its line, and returns the program's status. It is 0
/// if all nodes answered, even if they are down. It is 1 if one doesn't answer.
pub(crate) fn run_status<R>(rt: &R, asking: StatusOptions<'_>) -> u8
where
    R: AllocGlobal + Print + Eprint + Net<Listener = TcpListener, Stream = TcpStream>,
    ensures { IsClientsEnd result }
{
    let alloc = rt.alloc();
    ask_each(rt, alloc, &mut PatientAsker::new(rt, alloc), asking)
}
