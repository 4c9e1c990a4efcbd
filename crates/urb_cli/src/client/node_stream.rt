//! A connection to the node at an address.

ghost use Rattle.std.specs.Prelude.{◌≡◌, IfErr, IfOk, IsErr};
ghost use Rattle.urb_cli.specs.CallFaults.{IsUnconnected};

use crate::client::call_fault::CallFault;
use crate::client::patient_stream::LimitRefused;
use std::io;
use std::io::ErrorKind;
use std::net::{Ipv4Addr, Net, TcpListener, TcpStream};
use std::os::unix::net::UnixStream;
use urb_local::LocalStream;
use urb_options::NodeAddress;

/// The witness that there is no connection to a node. Its field is private. Only an error of the
/// system makes one: that of the connection, or of a limit of its reads or writes.
#[derive(Clone, Copy, Debug, PartialEq, Eq)]
pub struct NoConnection {
    refused: (),
}

impl From<LimitRefused> for NoConnection {
    fn from(_: LimitRefused) -> NoConnection {
        NoConnection { refused: () }
    }
}

/// A connection to the node at an address. Its fields are private, and only `connect` makes one.
#[derive(Drop)]
pub(crate) struct NodeStream<'a> {
    at: NodeAddress<'a>,
    stream: LocalStream,
}

// Connects to an address of this machine. An error is the system's.
fn connect_to<R: Net<Listener = TcpListener, Stream = TcpStream>>(
    rt: &R,
    at: NodeAddress<'_>,
) -> io::Result<LocalStream> {
    match at {
        NodeAddress::Port(port) => {
            let stream = TcpStream::connect(rt, (Ipv4Addr::LOCALHOST, port))?;
            Ok(LocalStream::Tcp(stream))
        }
        NodeAddress::Socket(path) => Ok(LocalStream::Unix(UnixStream::connect(rt, path)?)),
    }
}

// The stream to the node at this address. A failure of the connect becomes a fault of the call.
fn after_connect(
    at: NodeAddress<'_>,
    came: io::Result<LocalStream>,
) -> Result<NodeStream<'_>, CallFault>
    ensures at { IfOk result (λ made. made.at ≡ at.entry) }
    // It says that there is no connection only if the system made none.
    ensures failed { IfErr result (λ fault. IsErr came × IsUnconnected fault) }
{
    let refused = NoConnection { refused: () };
    match came {
        Ok(stream) => Ok(NodeStream { at, stream }),
        Err(error) => Err(match error.kind() {
            ErrorKind::ConnectionRefused | ErrorKind::NotFound => CallFault::NobodyListens(refused),
            _ => CallFault::NotConnected(refused),
        }),
    }
}

impl<'a> NodeStream<'a> {
    /// Connects to the node at an address of this machine.
    pub(crate) fn connect<R: Net<Listener = TcpListener, Stream = TcpStream>>(
        rt: &R,
        at: NodeAddress<'a>,
    ) -> Result<NodeStream<'a>, CallFault>
        ensures at { IfOk result (λ made. made.at ≡ at.entry) }
        ensures failed { IfErr result IsUnconnected }
    {
        after_connect(at, connect_to(rt, at))
    }

    /// The connection, to read from and to write to.
    pub(crate) fn ends(&self) -> &LocalStream {
        &self.stream
    }
}
