//! Connections between programs of this machine: over TCP, or over a Unix socket.
//!
//! ```text
//! let stream = LocalStream::Unix(UnixStream::connect(&rt, "/run/urbd/node-1.sock")?);
//! stream.set_read_timeout(Duration::from_secs(10))?;
//! (&stream).write_all(frame)?;                          // both kinds are read and written alike
//! ```
//!
//! Nodes and clients use both kinds alike. The toolchain says nothing about the bytes of either
//! kind, so no clause here does: tests show it. No call waits longer than its stream's time limits.
#![tactic(auto)]

ghost use Rattle.std.specs.Prelude.{◌≡◌, IsErrAnd};
ghost use Rattle.std.specs.Duration.{as_nanos};
ghost use Rattle.std.specs.Io.{ReadsAtMost, WritesAtMost};
ghost use Rattle.std.specs.IoError.{error_kind};

use std::io;
use std::io::{ErrorKind, Read, Write};
use std::net::{Shutdown, TcpStream};
use std::os::unix::net::UnixStream;
use std::time::Duration;

/// A connection of two programs of this machine.
#[derive(Drop)]
pub enum LocalStream {
    /// Over TCP, at 127.0.0.1.
    Tcp(TcpStream),
    /// Over a Unix socket.
    Unix(UnixStream),
}

impl LocalStream {
    /// Has each write sent at once. A Unix socket does that anyway.
    pub fn send_at_once(&self) -> io::Result<()> {
        match self {
            LocalStream::Tcp(stream) => stream.set_nodelay(true),
            LocalStream::Unix(_) => Ok(()),
        }
    }

    /// Whether a read or a write that would wait gives `ErrorKind::WouldBlock` instead.
    pub fn set_nonblocking(&self, nonblocking: bool) -> io::Result<()> {
        match self {
            LocalStream::Tcp(stream) => stream.set_nonblocking(nonblocking),
            LocalStream::Unix(stream) => stream.set_nonblocking(nonblocking),
        }
    }

    /// Sets how long a read may wait. One that waits longer gives `ErrorKind::WouldBlock`. No time
    /// at all is refused as `ErrorKind::InvalidInput`.
    pub fn set_read_timeout(&self, time: Duration) -> io::Result<()>
        ensures { as_nanos time ≡ 0 → IsErrAnd result (λ e. error_kind e ≡ ErrorKind.InvalidInput) }
    {
        match self {
            LocalStream::Tcp(stream) => stream.set_read_timeout(Some(time)),
            LocalStream::Unix(stream) => stream.set_read_timeout(Some(time)),
        }
    }

    /// Sets how long a write may wait. One that waits longer gives `ErrorKind::WouldBlock`. No time
    /// at all is refused as `ErrorKind::InvalidInput`.
    pub fn set_write_timeout(&self, time: Duration) -> io::Result<()>
        ensures { as_nanos time ≡ 0 → IsErrAnd result (λ e. error_kind e ≡ ErrorKind.InvalidInput) }
    {
        match self {
            LocalStream::Tcp(stream) => stream.set_write_timeout(Some(time)),
            LocalStream::Unix(stream) => stream.set_write_timeout(Some(time)),
        }
    }

    /// Ends reading, writing or both, for each holder of the connection. A read that waits returns.
    pub fn shutdown(&self, how: Shutdown) -> io::Result<()> {
        match self {
            LocalStream::Tcp(stream) => stream.shutdown(how),
            LocalStream::Unix(stream) => stream.shutdown(how),
        }
    }
}

// One function for each kind and direction: the borrow checker's proof takes a parameter where it
// doesn't take a field of a variant.
fn read_tcp(stream: &TcpStream, buf: &mut [u8]) -> io::Result<usize>
    ensures { ReadsAtMost result buf.new }
{
    let mut end = stream;
    end.read(buf)
}

fn read_unix(stream: &UnixStream, buf: &mut [u8]) -> io::Result<usize>
    ensures { ReadsAtMost result buf.new }
{
    let mut end = stream;
    end.read(buf)
}

fn write_tcp(stream: &TcpStream, buf: &[u8]) -> io::Result<usize>
    ensures { WritesAtMost result buf.now }
{
    let mut end = stream;
    end.write(buf)
}

fn write_unix(stream: &UnixStream, buf: &[u8]) -> io::Result<usize>
    ensures { WritesAtMost result buf.now }
{
    let mut end = stream;
    end.write(buf)
}

impl LocalStream {
    fn receive(&self, buf: &mut [u8]) -> io::Result<usize>
        ensures { ReadsAtMost result buf.new }
    {
        match self {
            LocalStream::Tcp(stream) => read_tcp(stream, buf),
            LocalStream::Unix(stream) => read_unix(stream, buf),
        }
    }

    fn send(&self, buf: &[u8]) -> io::Result<usize>
        ensures { WritesAtMost result buf.now }
    {
        match self {
            LocalStream::Tcp(stream) => write_tcp(stream, buf),
            LocalStream::Unix(stream) => write_unix(stream, buf),
        }
    }
}

impl Read for &LocalStream {
    fn read(&mut self, buf: &mut [u8]) -> io::Result<usize> {
        self.receive(buf)
    }
}

impl Write for &LocalStream {
    fn write(&mut self, buf: &[u8]) -> io::Result<usize> {
        self.send(buf)
    }

    // Neither kind keeps what is written.
    fn flush(&mut self) -> io::Result<()> {
        Ok(())
    }
}
