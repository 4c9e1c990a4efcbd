//! Why a call was refused.
ghost use Rattle.std.specs.Prelude.{◌≡◌, ◌≢◌, MatchOption};
ghost use Rattle.urb_names.specs.RefusalReports.{number_of, detail_of};

use crate::{Name, NodeId};
use std::alloc::{AllocError, AllocFailed};
use thiserror::Error;

/// An allocation was refused. The value that the call worked on is unchanged, so the caller may
/// make the same call again.
///
/// Only a refused allocation makes this value: its field is private, so a body that has seen no
/// refusal can't return it.
#[derive(Clone, Copy, Debug, PartialEq, Eq, Error)]
#[error("no memory")]
pub struct NoMemory {
    refused: (),
}

impl From<AllocError> for NoMemory {
    fn from(_: AllocError) -> NoMemory {
        NoMemory { refused: () }
    }
}

impl<T: Drop> From<AllocFailed<T>> for NoMemory {
    fn from(_: AllocFailed<T>) -> NoMemory {
        NoMemory { refused: () }
    }
}

/// Why bytes are not a packet: the first of these that holds.
#[derive(Clone, Copy, Debug, PartialEq, Eq, Error)]
pub enum PacketFault {
    /// There are fewer bytes than a header has: 19 if they begin as version two does, otherwise 18.
    #[error("the packet is too short")]
    Short,
    /// The first two bytes are not 55 42, so it is not a packet of this program.
    #[error("the packet begins with other bytes")]
    Magic,
    /// The third byte is neither 01 nor 02, so it is a packet of another version.
    #[error("the packet has another version")]
    Version,
    /// The payload's length is over the maximum of its version, or isn't the number of bytes after
    /// the header.
    #[error("the packet has another length")]
    Length,
    /// A node is not 1 to `MAX_NODES`, a number is 0, source and target are the same, or the flags
    /// are over 3.
    #[error("a field of the packet is out of range")]
    Range,
}

/// A rule that the stored records of a group's nodes (their images) must meet together.
#[derive(Clone, Copy, Debug, PartialEq, Eq)]
pub enum Rule {
    /// A record fits the group, and either names its message for the first time or is the first
    /// certificate of a pending one.
    A,
    /// A node's own messages are numbered 1, 2, 3, .., and so are each client's among them.
    B,
    /// A pair that a node holds from another sender is pending at that sender.
    C,
    /// What is certified is pending at a majority of the nodes.
    D,
}

/// Why a call was refused. A refused call changes nothing, unless the call says otherwise.
#[derive(Clone, Copy, Debug, PartialEq, Eq, Error)]
pub enum Refusal {
    /// An allocation was refused. The caller may make the same call again.
    #[error("no memory")]
    NoMemory,
    /// The group has no such node, or the packet was sent to another one. From a worker: the job
    /// belongs to another node.
    #[error("there is no such node")]
    BadNode,
    /// The node is down: restart it first. For a client's request: its node's worker has ended.
    #[error("the node is down")]
    Down,
    /// The node is waiting for its storage: finish that record first.
    #[error("the node holds a draft")]
    Busy,
    /// The payload has more than `MAX_PAYLOAD` bytes.
    #[error("the payload is too long")]
    TooLong,
    /// The client used this number for another payload before.
    #[error("the number was used with another payload")]
    Conflict,
    /// The client has to use this number next.
    #[error("the next number is {0}")]
    Gap(u32),
    /// The sender has broadcast as many messages as the group allows each node.
    #[error("the sender has sent all that it may")]
    Full,
    /// The packet's source doesn't hold this message under this name, or doesn't hold the
    /// certificate that the packet claims. So it can't have sent the packet.
    #[error("the source does not hold this message")]
    Forged,
    /// The bytes are not a packet; this is their first fault.
    #[error("{0}")]
    Packet(PacketFault),
    /// The node holds no draft, or holds a different draft from the receipt's.
    #[error("the node holds no such draft")]
    Stale,
    /// Only a node that is down may be restarted.
    #[error("the node is not down")]
    NotDown,
    /// The image is neither what the node stored nor that followed by its doubtful record.
    #[error("the image is not what was stored")]
    BadImage,
    /// The images don't fit together. This is the first record that breaks a rule, by its node and
    /// its name.
    #[error("the images do not fit together")]
    Inconsistent {
        rule: Rule,
        node: NodeId,
        name: Name,
    },
    /// The storage failed in this call.
    #[error("the storage failed")]
    Device,
    /// The storage expects the next record at this position, or has a doubtful record and needs a
    /// retrieve first.
    #[error("the next position is {0}")]
    Place(u32),
    /// The row at this place of the storage, counted from 1, is not a record.
    #[error("row {0} is no record")]
    BadRow(u32),
    /// This line of the script, counted from 1, is not a command.
    #[error("line {0} is no command")]
    BadLine(u64),
    /// The client's bytes are not a request; this is the fault's code.
    #[error("the frame has fault {0}")]
    Frame(u8),
}

impl Refusal {
    /// The refusal's number, 1 to 19, in responses to clients and in what programs print.
    pub fn number(&self) -> u8
        ensures { result ≡ number_of self.now }
    {
        match self {
            Refusal::NoMemory => 1,
            Refusal::BadNode => 2,
            Refusal::Down => 3,
            Refusal::Busy => 4,
            Refusal::TooLong => 5,
            Refusal::Conflict => 6,
            Refusal::Gap(_) => 7,
            Refusal::Full => 8,
            Refusal::Forged => 9,
            Refusal::Packet(_) => 10,
            Refusal::Stale => 11,
            Refusal::NotDown => 12,
            Refusal::BadImage => 13,
            Refusal::Inconsistent { .. } => 14,
            Refusal::Device => 15,
            Refusal::Place(_) => 16,
            Refusal::BadRow(_) => 17,
            Refusal::BadLine(_) => 18,
            Refusal::Frame(_) => 19,
        }
    }

    /// The detail that goes with the number. It is the client's next number, the next position, the
    /// place of a row, or the code of a frame's fault. Otherwise it is 0.
    pub fn detail(&self) -> u32
        ensures { result ≡ detail_of self.now }
    {
        match self {
            Refusal::Gap(expected) => *expected,
            Refusal::Place(next) => *next,
            Refusal::BadRow(place) => *place,
            Refusal::Frame(code) => u32::from(*code),
            _ => 0,
        }
    }

    /// The refused allocation, if the refusal is one.
    pub fn as_no_memory(&self) -> Option<NoMemory>
        ensures { MatchOption result (self.now ≢ Refusal.NoMemory) (λ _. self.now ≡ Refusal.NoMemory) }
    {
        match self {
            Refusal::NoMemory => Some(NoMemory { refused: () }),
            _ => None,
        }
    }
}

impl From<PacketFault> for Refusal {
    ghost use Rattle.urb_names.specs.declared.refusal.Refusal.TheVariants.{Packet as packet};
    ghost use Rattle.std.specs.Prelude.{◌≡◌};

    ghost from_gives = { λ fault e. e ≡ packet fault };

    fn from(fault: PacketFault) -> Refusal {
        Refusal::Packet(fault)
    }
}

impl From<NoMemory> for Refusal {
    ghost use Rattle.urb_names.specs.declared.refusal.Refusal.TheVariants.{NoMemory as no_memory};
    ghost use Rattle.std.specs.Prelude.{◌≡◌};

    ghost from_gives = { λ _ e. e ≡ no_memory };

    fn from(_: NoMemory) -> Refusal {
        Refusal::NoMemory
    }
}

impl From<AllocError> for Refusal {
    ghost use Rattle.urb_names.specs.declared.refusal.Refusal.TheVariants.{NoMemory as no_memory};
    ghost use Rattle.std.specs.Prelude.{◌≡◌};

    ghost from_gives = { λ _ e. e ≡ no_memory };

    fn from(_: AllocError) -> Refusal {
        Refusal::NoMemory
    }
}

impl<T: Drop> From<AllocFailed<T>> for Refusal {
    ghost use Rattle.urb_names.specs.declared.refusal.Refusal.TheVariants.{NoMemory as no_memory};
    ghost use Rattle.std.specs.Prelude.{◌≡◌};

    ghost from_gives = { λ _ e. e ≡ no_memory };

    fn from(_: AllocFailed<T>) -> Refusal {
        Refusal::NoMemory
    }
}
