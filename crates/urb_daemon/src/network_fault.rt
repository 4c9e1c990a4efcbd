//! Why the sockets of a group can't be opened.

ghost use Rattle.std.specs.Prelude.{◌≡◌, ◌≤◌, ◌+◌, ◌*◌, if◌then◌else◌};
ghost use Rattle.urb_names.specs.declared.limits.TheConstants.{MAX_NODES};
ghost use Rattle.urb_daemon.specs.NetworkFaults.{fault_at, fault_of_socket};

use crate::socket_fault::SocketCause;
use std::alloc::AllocError;
use std::io::ErrorKind;
use thiserror::Error;
use urb_desk::LEAST_CONNECTIONS;

/// How many descriptors a group needs besides those of its nodes: three standard streams, the
/// socket that sends, one for a stop, and one while a start counts the others.
pub const COMMON_DESCRIPTORS: u16 = 6;

/// How many descriptors each node needs at least: two sockets, the two files of its journal, one for
/// each of the fewest connections that it may serve, and one for a client that it refuses.
pub const NODE_DESCRIPTORS: u16 = 9;

const _: () = prove!(NODE_DESCRIPTORS as usize == 5 + LEAST_CONNECTIONS);

/// How many descriptors a node needs more if it takes clients over TCP and over a Unix socket: the
/// second socket, and one for a client that is refused there.
pub const SECOND_DOOR_DESCRIPTORS: u16 = 2;

/// A port of a node.
#[derive(Clone, Copy, Debug, PartialEq, Eq, Error)]
pub enum Port {
    /// Takes packets of other nodes.
    #[error("UDP port {0}")]
    Udp(u16),
    /// Takes clients.
    #[error("TCP port {0}")]
    Tcp(u16),
}

/// Why the sockets of a group can't be opened.
#[derive(Clone, Copy, Debug, PartialEq, Eq, Error)]
pub enum NetworkFault {
    /// Memory was refused.
    #[error("no memory")]
    NoMemory,
    /// Another socket uses this port: take another base port.
    #[error("{0} is in use")]
    InUse(Port),
    /// The program may not use this port.
    #[error("the program may not use {0}")]
    NotAllowed(Port),
    /// The system gives no further socket. Most often the limit on descriptors is less than this
    /// number, which the group needs.
    #[error("the system gives no further socket; the group needs {0} descriptors (ulimit -n)")]
    NoSocket(u16),
    /// The Unix socket of the node with this number can't be made, for this cause.
    #[error("socket node-{0}.sock: {1}")]
    Socket(u8, SocketCause),
}

/// How many descriptors a group of this number of nodes needs if its nodes have one door each.
pub fn count_descriptors(nodes: u8) -> u16
    requires { nodes ≤ MAX_NODES }
    ensures { result ≡ COMMON_DESCRIPTORS + NODE_DESCRIPTORS * nodes }
{
    COMMON_DESCRIPTORS + NODE_DESCRIPTORS * u16::from(nodes)
}

/// How many descriptors a group of this number of nodes needs, whose nodes have a second door or
/// not.
pub fn count_all_descriptors(nodes: u8, has_second_door: bool) -> u16
    requires { nodes ≤ MAX_NODES }
    ensures { result ≡ COMMON_DESCRIPTORS + NODE_DESCRIPTORS * nodes
        + (if has_second_door then SECOND_DOOR_DESCRIPTORS * nodes else 0) }
{
    let more = if has_second_door {
        SECOND_DOOR_DESCRIPTORS * u16::from(nodes)
    } else {
        0
    };
    count_descriptors(nodes) + more
}

/// What the cause means, if the Unix socket of the node with this number can't be made.
pub fn fault_of_socket(node: u8, cause: SocketCause) -> NetworkFault
    ensures { result ≡ fault_of_socket node cause }
{
    match cause {
        SocketCause::NoMemory => NetworkFault::NoMemory,
        cause => NetworkFault::Socket(node, cause),
    }
}

impl From<AllocError> for NetworkFault {
    ghost use Rattle.std.specs.Prelude.{◌≡◌};
    ghost use Rattle.urb_daemon.specs.declared.network_fault.NetworkFault.TheVariants.{NoMemory};

    ghost from_gives = { λ _ e. e ≡ NoMemory };

    fn from(_: AllocError) -> NetworkFault {
        NetworkFault::NoMemory
    }
}

/// What an error of this kind says, when a group that needs that many descriptors opens this port.
pub fn judge_socket(port: Port, needed: u16, kind: ErrorKind) -> NetworkFault
    ensures { result ≡ fault_at port needed kind }
{
    match kind {
        ErrorKind::OutOfMemory => NetworkFault::NoMemory,
        ErrorKind::AddrInUse => NetworkFault::InUse(port),
        ErrorKind::PermissionDenied => NetworkFault::NotAllowed(port),
        _ => NetworkFault::NoSocket(needed),
    }
}
