//! Where the nodes of a group take their clients.

ghost use Rattle.std.specs.Prelude.{◌≡◌, ◌≤◌, None, Some, true, IsSome, IfSome};
ghost use Rattle.urb_options.specs.internal.Doors.{AreDoors};
ghost use Rattle.urb_options.specs.declared.limits.TheConstants.{MAX_SOCKET_MODE};

use crate::limits::MAX_SOCKET_MODE;

/// The Unix sockets of a group: their folder, and who may connect.
#[derive(Clone, Copy, Debug)]
pub struct SocketOptions<'a> {
    /// The folder of the sockets.
    pub dir: &'a str,
    /// The mode of a socket's file, 0 to `MAX_SOCKET_MODE`. Who may write the file may connect.
    pub mode: u16,
    ghost within: { mode ≤ MAX_SOCKET_MODE },
}

impl<'a> SocketOptions<'a> {
    /// Sockets in this folder, with this mode. `None` exactly if the mode is above
    /// `MAX_SOCKET_MODE`.
    pub fn new(dir: &'a str, mode: u16) -> Option<SocketOptions<'a>>
        ensures some { mode ≤ MAX_SOCKET_MODE → IsSome result }
        ensures fields { IfSome result (λ s. (s.dir ≡ dir.entry) × (s.mode ≡ mode)) }
    {
        if MAX_SOCKET_MODE < mode {
            return None;
        }
        Some(SocketOptions { dir, mode })
    }
}

/// Where each node takes its clients: over TCP, over a Unix socket, or over both.
#[derive(Clone, Copy, Debug)]
pub struct DoorOptions<'a> {
    /// Whether it takes clients over TCP.
    pub takes_tcp: bool,
    /// The Unix sockets, if it takes clients over them.
    pub sockets: Option<SocketOptions<'a>>,
    ghost within: { AreDoors takes_tcp sockets },
}

impl<'a> DoorOptions<'a> {
    /// Over TCP alone, as holds if nothing else is said.
    pub fn tcp_alone() -> DoorOptions<'a>
        ensures { (result.takes_tcp ≡ true) × (result.sockets ≡ None) }
    {
        DoorOptions {
            takes_tcp: true,
            sockets: None,
        }
    }

    /// Over these sockets, and over TCP too if asked.
    pub fn with_sockets(takes_tcp: bool, sockets: SocketOptions<'a>) -> DoorOptions<'a>
        ensures { (result.takes_tcp ≡ takes_tcp) × (result.sockets ≡ Some sockets.entry) }
    {
        DoorOptions {
            takes_tcp,
            sockets: Some(sockets),
        }
    }
}
