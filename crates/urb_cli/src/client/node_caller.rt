//! The caller of the program: it asks a node at an address of this machine.

ghost use Rattle.std.specs.Prelude.{◌≡◌, IfSome};
ghost use Rattle.urb_client.specs.Requests.{IsAsked, IsShort, asked_by};

use crate::client::call_fault::CallFault;
use crate::client::caller::Caller;
use crate::client::node_asker::ask_patiently;
use crate::client::patient_stream::PatientStream;
use std::alloc::Global;
use std::net::{Net, TcpListener, TcpStream};
use std::thread;
use std::time::{Clock, Duration};
use urb_client::{Request, Response};
use urb_options::NodeAddress;

/// The pause between two calls, in milliseconds.
const PAUSE_MILLIS: u64 = 500;

/// Asks the node at an address, over one connection as long as it holds.
#[derive(Drop)]
pub(crate) struct NodeCaller<'a, R: Clock + Net<Listener = TcpListener, Stream = TcpStream>> {
    rt: &'a R,
    alloc: Global,
    at: NodeAddress<'a>,
    stream: Option<PatientStream<'a>>,
}

impl<'a, R: Clock + Net<Listener = TcpListener, Stream = TcpStream>> NodeCaller<'a, R> {
    /// A caller of the node at this address, without a connection yet.
    pub(crate) fn new(rt: &'a R, alloc: Global, at: NodeAddress<'a>) -> NodeCaller<'a, R>
        ensures at { result.at ≡ at.entry }
        ensures kept { IfSome result.stream (λ kept. kept.stream.at ≡ result.at) }
    {
        NodeCaller {
            rt,
            alloc,
            at,
            stream: None,
        }
    }
}

impl<'a, R: Clock + Net<Listener = TcpListener, Stream = TcpStream>> Caller for NodeCaller<'a, R> {
    // It always asks at the same address: the connection that it keeps stays one to that node.
    ghost calls = { λ old asked answer new. (new.at ≡ old.at)
        × (IfSome old.stream (λ kept. kept.stream.at ≡ old.at)
        → IfSome new.stream (λ kept. kept.stream.at ≡ new.at)) };

    fn call(&mut self, request: &Request) -> Result<Response, CallFault> {
        let kept = self.stream.take();
        let (stream, response) = ask_patiently(self.rt, self.alloc, self.at, kept, request)?;
        self.stream = Some(stream);
        Ok(response)
    }

    fn pause(&self) {
        thread::sleep(self.rt, Duration::from_millis(PAUSE_MILLIS));
    }
}
