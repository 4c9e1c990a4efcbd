//! Why a call of a node has no answer, in words for a person.

ghost use Rattle.std.specs.Prelude.{◌≡◌};
ghost use Rattle.urb_cli.specs.Statuses.{fault_of_call};

use crate::client::node_stream::NoConnection;
use urb_client::{ReadFailed, ResponseFault, WriteFailed};
use urb_names::NoMemory;
use urb_options::{FAULT, Fault, NodeAddress};

/// Why a call of a node on this machine has no answer. Each but `BadReply` has the witness of its
/// cause, so a call that met no such failure can't end with it.
#[derive(Clone, Copy, Debug, PartialEq, Eq)]
pub enum CallFault {
    /// The system refused the connection, or there is no socket: nobody listens at the address.
    NobodyListens(NoConnection),
    /// The system made no connection, for another reason, or set it no limit.
    NotConnected(NoConnection),
    /// Memory was refused, before the request was sent or after it.
    NoMemory(NoMemory),
    /// The request could not be written: nothing, a part or all of it may have been sent.
    NotSent(WriteFailed),
    /// The connection broke, or no answer came in time.
    NotRead(ReadFailed),
    /// What came is no response to the request.
    BadReply,
}

impl From<NoMemory> for CallFault {
    ghost use Rattle.std.specs.Prelude.{◌≡◌};
    ghost use Rattle.urb_cli.specs.declared.client.call_fault.CallFault.TheVariants.{NoMemory as no_memory};

    ghost from_gives = { λ refused e. e ≡ no_memory refused };

    fn from(refused: NoMemory) -> CallFault {
        CallFault::NoMemory(refused)
    }
}

impl From<WriteFailed> for CallFault {
    ghost use Rattle.std.specs.Prelude.{◌≡◌};
    ghost use Rattle.urb_cli.specs.declared.client.call_fault.CallFault.TheVariants.{NotSent as not_sent};

    ghost from_gives = { λ failed e. e ≡ not_sent failed };

    fn from(failed: WriteFailed) -> CallFault {
        CallFault::NotSent(failed)
    }
}

impl From<ResponseFault> for CallFault {
    ghost use Rattle.std.specs.Prelude.{◌≡◌};
    ghost use Rattle.urb_cli.specs.CallFaults.{fault_of_response};

    ghost from_gives = { λ fault e. e ≡ fault_of_response fault };

    fn from(fault: ResponseFault) -> CallFault {
        match fault {
            ResponseFault::Read(failed) => CallFault::NotRead(failed),
            ResponseFault::NoMemory(refused) => CallFault::NoMemory(refused),
            ResponseFault::NoResponse => CallFault::BadReply,
        }
    }
}

impl CallFault {
    /// The program's fault: its text begins the line that reports the call.
    pub fn fault(self) -> Fault
        ensures { result ≡ fault_of_call self }
    {
        match self {
            CallFault::NobodyListens(_) | CallFault::NotConnected(_) => Fault::Network,
            CallFault::NoMemory(_) => Fault::NoMemory,
            CallFault::NotSent(_) => Fault::Write,
            CallFault::NotRead(_) => Fault::Read,
            CallFault::BadReply => Fault::BadReply,
        }
    }

    // What went wrong. The address of the node follows these words.
    fn cause(self) -> &'static str {
        match self {
            CallFault::NobodyListens(_) => "nobody listens at",
            CallFault::NotConnected(_) => "the system made no connection to",
            CallFault::NoMemory(_) => "the call ended early, of",
            CallFault::NotSent(_) => "the request was not sent whole to",
            CallFault::NotRead(_) => "the connection broke, or no answer came from",
            CallFault::BadReply => "no whole response came from",
        }
    }
}

/// Reports on standard error that a call of the node at this address has no answer. The line begins
/// with the program's fault. Returns its status.
pub fn report_call_fault<R: Eprint>(rt: &R, at: NodeAddress<'_>, fault: CallFault) -> u8
    ensures { result ≡ 1 }
{
    let (words, cause) = (fault.fault(), fault.cause());
    let _ = match at {
        NodeAddress::Port(port) => eprintln!(rt; "urbd: {words}: {cause} 127.0.0.1:{port}"),
        NodeAddress::Socket(path) => eprintln!(rt; "urbd: {words}: {cause} {path}"),
    };
    FAULT
}
