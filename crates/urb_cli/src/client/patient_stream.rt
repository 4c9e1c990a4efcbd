//! A connection that doesn't wait for ever.

ghost use Rattle.std.specs.Prelude.{◌≡◌, ◌⊎◌, IfErr, IfOk, IsErr, IsOk, OnErr, OnOk};
ghost use Rattle.urb_cli.specs.CallFaults.{IsUnconnected};

use crate::client::call_fault::CallFault;
use crate::client::node_stream::{NoConnection, NodeStream};
use std::io;
use std::net::{Net, TcpListener, TcpStream};
use std::time::Duration;
use urb_local::LocalStream;
use urb_options::NodeAddress;

/// How long a patient connection waits for a node, in seconds.
pub(crate) const PATIENCE: u64 = 10;

/// The witness that the system refused a limit of a connection. Its field is private, and only the
/// error of a setting makes one.
#[derive(Clone, Copy, Debug, PartialEq, Eq)]
pub(crate) struct LimitRefused {
    refused: (),
}

/// A connection on which a read or a write that waits longer than `PATIENCE` seconds fails. Its field
/// is private, so a connection without these limits can't take its place.
#[derive(Drop)]
pub(crate) struct PatientStream<'a> {
    stream: NodeStream<'a>,
}

// The connection, once the system has set both limits.
fn after_limits(
    stream: NodeStream<'_>,
    reads: io::Result<()>,
    writes: io::Result<()>,
) -> Result<PatientStream<'_>, LimitRefused>
    ensures set { OnOk result (IsOk reads × IsOk writes) }
    ensures same { IfOk result (λ made. made.stream ≡ stream.entry) }
    // It says that a limit was refused only if the system refused one.
    ensures refused { OnErr result (IsErr reads ⊎ IsErr writes) }
{
    if reads.is_err() || writes.is_err() {
        return Err(LimitRefused { refused: () });
    }
    Ok(PatientStream { stream })
}

impl<'a> PatientStream<'a> {
    // Sets the limits of a connection.
    fn of(stream: NodeStream<'a>) -> Result<PatientStream<'a>, LimitRefused>
        ensures { IfOk result (λ made. made.stream ≡ stream.entry) }
    {
        let limit = Duration::from_secs(PATIENCE);
        let reads = stream.ends().set_read_timeout(limit);
        let writes = stream.ends().set_write_timeout(limit);
        after_limits(stream, reads, writes)
    }

    /// Connects to the node at an address of this machine. A read or a write that waits longer than
    /// `PATIENCE` seconds fails.
    pub(crate) fn connect<R: Net<Listener = TcpListener, Stream = TcpStream>>(
        rt: &R,
        at: NodeAddress<'a>,
    ) -> Result<PatientStream<'a>, CallFault>
        ensures at { IfOk result (λ made. made.stream.at ≡ at.entry) }
        ensures failed { IfErr result IsUnconnected }
    {
        let stream = NodeStream::connect(rt, at)?;
        match PatientStream::of(stream) {
            Ok(stream) => Ok(stream),
            Err(refused) => Err(CallFault::NotConnected(NoConnection::from(refused))),
        }
    }

    /// The connection, to read from and to write to.
    pub(crate) fn ends(&self) -> &LocalStream {
        self.stream.ends()
    }
}
