//! The askers of the program: each call is one connection to a node of this machine.

ghost use Rattle.std.specs.Prelude.{◌≡◌, IfOk, IfSome};
ghost use Rattle.urb_client.specs.Requests.{IsAsked, IsShort, asked_by};

use crate::client::asker::Asker;
use crate::client::call_fault::CallFault;
use crate::client::calls::exchange;
use crate::client::node_stream::NodeStream;
use crate::client::patient_stream::PatientStream;
use std::alloc::Global;
use std::net::{Net, TcpListener, TcpStream};
use urb_client::{Request, Response};
use urb_options::NodeAddress;

/// Asks nodes, and waits for each as long as its connection holds.
#[derive(Drop)]
pub(crate) struct NodeAsker<'a, R: Net<Listener = TcpListener, Stream = TcpStream>> {
    rt: &'a R,
    alloc: Global,
}

impl<'a, R: Net<Listener = TcpListener, Stream = TcpStream>> NodeAsker<'a, R> {
    /// An asker that allocates from `alloc`.
    pub(crate) fn new(rt: &'a R, alloc: Global) -> NodeAsker<'a, R> {
        NodeAsker { rt, alloc }
    }
}

// Asks the node at an address over a new connection. Returns the connection too.
fn ask_once<'a, R: Net<Listener = TcpListener, Stream = TcpStream>>(
    rt: &R,
    alloc: Global,
    at: NodeAddress<'a>,
    request: &Request,
) -> Result<(NodeStream<'a>, Response), CallFault>
    requires values { IsAsked (asked_by request.now) }
    requires short { IsShort (asked_by request.now) }
    ensures { IfOk result (λ got. got.0.at ≡ at.entry) }
{
    let stream = NodeStream::connect(rt, at)?;
    let response = exchange(alloc, &mut stream.ends(), &mut stream.ends(), request)?;
    Ok((stream, response))
}

impl<'a, R: Net<Listener = TcpListener, Stream = TcpStream>> Asker for NodeAsker<'a, R> {
    // It is the same before and after each call.
    ghost answers = { λ old at asked answer new. new ≡ old };

    fn ask(&mut self, at: NodeAddress<'_>, request: &Request) -> Result<Response, CallFault> {
        let (_, response) = ask_once(self.rt, self.alloc, at, request)?;
        Ok(response)
    }
}

/// Asks nodes, and waits for each some seconds.
#[derive(Drop)]
pub(crate) struct PatientAsker<'a, R: Net<Listener = TcpListener, Stream = TcpStream>> {
    rt: &'a R,
    alloc: Global,
}

impl<'a, R: Net<Listener = TcpListener, Stream = TcpStream>> PatientAsker<'a, R> {
    /// An asker that allocates from `alloc`.
    pub(crate) fn new(rt: &'a R, alloc: Global) -> PatientAsker<'a, R> {
        PatientAsker { rt, alloc }
    }
}

/// Asks the node at an address over the connection that is kept, or over a new one. Returns the
/// connection too.
pub(crate) fn ask_patiently<'a, R: Net<Listener = TcpListener, Stream = TcpStream>>(
    rt: &R,
    alloc: Global,
    at: NodeAddress<'a>,
    kept: Option<PatientStream<'a>>,
    request: &Request,
) -> Result<(PatientStream<'a>, Response), CallFault>
    requires values { IsAsked (asked_by request.now) }
    requires short { IsShort (asked_by request.now) }
    // The answer comes from the node at this address, if the connection that was kept does.
    ensures { IfOk result (λ got. IfSome kept.entry (λ stream. stream.stream.at ≡ at.entry)
        → got.0.stream.at ≡ at.entry) }
{
    let stream = match kept {
        Some(stream) => stream,
        None => PatientStream::connect(rt, at)?,
    };
    let response = exchange(alloc, &mut stream.ends(), &mut stream.ends(), request)?;
    Ok((stream, response))
}

impl<'a, R: Net<Listener = TcpListener, Stream = TcpStream>> Asker for PatientAsker<'a, R> {
    // It is the same before and after each call.
    ghost answers = { λ old at asked answer new. new ≡ old };

    fn ask(&mut self, at: NodeAddress<'_>, request: &Request) -> Result<Response, CallFault> {
        let (_, response) = ask_patiently(self.rt, self.alloc, at, None, request)?;
        Ok(response)
    }
}
