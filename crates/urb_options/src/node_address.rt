//! The address at which a node takes its clients.

/// The address at which a node takes its clients: a port of this machine, or a Unix socket.
#[derive(Clone, Copy, Debug, PartialEq, Eq)]
pub enum NodeAddress<'a> {
    /// A TCP port at 127.0.0.1, from 1.
    Port(u16),
    /// The path of a socket's file.
    Socket(&'a str),
}
