//! How `publish` and `follow` end.

ghost use Rattle.std.specs.Prelude.{◌≡◌};
ghost use Rattle.urb_cli.specs.Streams.{fault_of_stream};

use crate::client::call_fault::CallFault;
use urb_client::{ReadFailed, WriteFailed};
use urb_names::NoMemory;
use urb_options::Fault;

/// How a command ended that makes many calls.
#[derive(Clone, Copy, Debug, PartialEq, Eq)]
pub enum StreamEnd {
    /// It did all that was asked.
    Done,
    /// A request was refused, and the refusal was printed.
    Refused,
}

/// Why a command broke off that makes many calls. Each but `AtEnd` has the witness of its cause.
#[derive(Clone, Copy, Debug, PartialEq, Eq)]
pub enum StreamFault {
    /// The node gave no response, although the request was sent again several times. Or it gave one
    /// of another kind.
    Call(CallFault),
    /// The input could not be read.
    Input(ReadFailed),
    /// The output could not be written: nothing, a part or all of it may have been written.
    Output(WriteFailed),
    /// Memory was refused to the command itself.
    NoMemory(NoMemory),
    /// The numbers are at their end: those of messages, of places, or of turns.
    AtEnd,
}

/// Why there is no next text.
#[derive(Clone, Copy, Debug, PartialEq, Eq)]
pub enum TextFault {
    /// The input could not be read.
    Read(ReadFailed),
    /// Memory was refused.
    NoMemory(NoMemory),
}

impl StreamFault {
    /// The program's fault: its text is reported.
    pub fn fault(self) -> Fault
        ensures { result ≡ fault_of_stream self }
    {
        match self {
            StreamFault::Call(fault) => fault.fault(),
            StreamFault::Input(_) => Fault::Read,
            StreamFault::Output(_) => Fault::Write,
            StreamFault::NoMemory(_) => Fault::NoMemory,
            StreamFault::AtEnd => Fault::BadReply,
        }
    }
}

impl From<CallFault> for StreamFault {
    ghost use Rattle.std.specs.Prelude.{◌≡◌};
    ghost use Rattle.urb_cli.specs.declared.client.stream_fault.StreamFault.TheVariants.{Call as call};

    ghost from_gives = { λ fault e. e ≡ call fault };

    fn from(fault: CallFault) -> StreamFault {
        StreamFault::Call(fault)
    }
}

impl From<TextFault> for StreamFault {
    ghost use Rattle.std.specs.Prelude.{◌≡◌};
    ghost use Rattle.urb_cli.specs.Streams.{fault_of_text};

    ghost from_gives = { λ fault e. e ≡ fault_of_text fault };

    fn from(fault: TextFault) -> StreamFault {
        match fault {
            TextFault::Read(failed) => StreamFault::Input(failed),
            TextFault::NoMemory(refused) => StreamFault::NoMemory(refused),
        }
    }
}

impl From<WriteFailed> for StreamFault {
    ghost use Rattle.std.specs.Prelude.{◌≡◌};
    ghost use Rattle.urb_cli.specs.declared.client.stream_fault.StreamFault.TheVariants.{Output as output};

    ghost from_gives = { λ failed e. e ≡ output failed };

    fn from(failed: WriteFailed) -> StreamFault {
        StreamFault::Output(failed)
    }
}

impl From<NoMemory> for StreamFault {
    ghost use Rattle.std.specs.Prelude.{◌≡◌};
    ghost use Rattle.urb_cli.specs.declared.client.stream_fault.StreamFault.TheVariants.{NoMemory as no_memory};

    ghost from_gives = { λ refused e. e ≡ no_memory refused };

    fn from(refused: NoMemory) -> StreamFault {
        StreamFault::NoMemory(refused)
    }
}

impl From<NoMemory> for TextFault {
    fn from(refused: NoMemory) -> TextFault {
        TextFault::NoMemory(refused)
    }
}

impl From<ReadFailed> for TextFault {
    fn from(failed: ReadFailed) -> TextFault {
        TextFault::Read(failed)
    }
}
