//! The time limits of connections: a read and a write wait no longer than theirs.

use std::io::{ErrorKind, Read, Write};
use std::net::{Ipv4Addr, Net, TcpListener, TcpStream};
use std::os::unix::net::{UnixListener, UnixStream};
use std::rt::Files;
use std::test::Fail;
use std::time::Duration;
use std::{fs, io};
use urb_local::LocalStream;

// The path of this test's Unix socket.
const PATH: &str = "urbd_time_limits.sock";

// The limit, in milliseconds.
const LIMIT: u64 = 50;

// A connection over TCP, and its other end.
fn open_tcp<R: Net<Listener = TcpListener, Stream = TcpStream>>(
    rt: &R,
) -> io::Result<(LocalStream, TcpStream)> {
    let listener = TcpListener::bind(rt, (Ipv4Addr::LOCALHOST, 0))?;
    let port = listener.local_addr()?.port();
    let other = TcpStream::connect(rt, (Ipv4Addr::LOCALHOST, port))?;
    let stream = listener.accept()?.0;
    Ok((LocalStream::Tcp(stream), other))
}

// A connection over a Unix socket, and its other end.
fn open_unix<R: Net + Files>(rt: &R) -> io::Result<(LocalStream, UnixStream)> {
    let _ = fs::remove_file(rt, PATH);
    let listener = UnixListener::bind(rt, PATH)?;
    let other = UnixStream::connect(rt, PATH)?;
    let stream = listener.accept()?.0;
    fs::remove_file(rt, PATH)?;
    Ok((LocalStream::Unix(stream), other))
}

// The error that ends writing to a connection from which nobody reads, if it has this limit.
fn end_of_writing(stream: &LocalStream) -> Option<ErrorKind> {
    stream.set_write_timeout(Duration::from_millis(LIMIT)).ok()?;
    let mut end = stream;
    for _ in 0..20_000 {
        if let Err(error) = end.write(&[0u8; 4_096]) {
            return Some(error.kind());
        }
    }
    None
}

// The error that ends reading from a connection to which nobody writes, if it has only this limit.
fn end_of_reading(stream: &LocalStream) -> Option<ErrorKind> {
    stream.set_read_timeout(Duration::from_millis(LIMIT)).ok()?;
    let mut end = stream;
    match end.read(&mut [0u8; 8]) {
        Ok(_) => None,
        Err(error) => Some(error.kind()),
    }
}

// The errors that end reading and writing. `None` if none does.
type Ends = (Option<ErrorKind>, Option<ErrorKind>);

// Both waited for their limit.
const LATE: Ends = (Some(ErrorKind::WouldBlock), Some(ErrorKind::WouldBlock));

// The errors that end reading from and writing to a connection over TCP.
fn ends_over_tcp<R: Net<Listener = TcpListener, Stream = TcpStream>>(rt: &R) -> Ends {
    match open_tcp(rt) {
        Ok((stream, other)) => {
            let ends = (end_of_reading(&stream), end_of_writing(&stream));
            drop(other);
            ends
        }
        Err(_) => (None, None),
    }
}

// The same over a Unix socket.
fn ends_over_unix<R: Net + Files>(rt: &R) -> Ends {
    match open_unix(rt) {
        Ok((stream, other)) => {
            let ends = (end_of_reading(&stream), end_of_writing(&stream));
            drop(other);
            ends
        }
        Err(_) => (None, None),
    }
}

#[test]
fn a_read_and_a_write_over_tcp_wait_no_longer_than_their_limit(
    rt: HostRuntime,
) -> Result<(), Fail> {
    assert_eq!(rt; ends_over_tcp(&rt), LATE);
    Ok(())
}

#[test]
fn a_read_and_a_write_over_a_unix_socket_wait_no_longer_than_their_limit(
    rt: HostRuntime,
) -> Result<(), Fail> {
    assert_eq!(rt; ends_over_unix(&rt), LATE);
    Ok(())
}
