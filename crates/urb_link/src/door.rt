//! The doors of a node: the sockets at which its clients connect.

use std::io;
use std::net::{Shutdown, TcpListener};
use std::os::fd::OwnedFd;
use std::os::unix::net::{UnixListener, UnixStream};
use urb_local::LocalStream;

/// A socket at which a node's clients connect.
#[derive(Clone, Copy)]
pub enum Door<'a> {
    /// A TCP port of this machine.
    Tcp(&'a TcpListener),
    /// A Unix socket, which is a file.
    Unix(&'a UnixListener),
}

impl<'a> Door<'a> {
    /// The connection of the next client. It waits for one.
    pub fn accept(&self) -> io::Result<LocalStream> {
        match self {
            Door::Tcp(listener) => Ok(LocalStream::Tcp(listener.accept()?.0)),
            Door::Unix(listener) => Ok(LocalStream::Unix(listener.accept()?.0)),
        }
    }
}

/// Ends the wait for clients at a Unix socket, now and in future: the system refuses new ones. It
/// needs a descriptor for a moment. It asks for no connection, since the socket's file may be gone.
pub(crate) fn close_door(listener: &UnixListener) {
    if let Ok(same) = listener.try_clone() {
        let _ = UnixStream::from(OwnedFd::from(same)).shutdown(Shutdown::Both);
    }
}
