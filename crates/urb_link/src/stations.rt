//! The sockets of a group's nodes, on this machine's loopback.

ghost use Rattle.std.specs.Prelude.{◌≡◌, IfOk, None, Some, is_some, option_map};
ghost use Rattle.urb_link.specs.Doors.{tcp_listener, unix_listener};

use crate::door::{Door, close_door};
use crate::handed::send_datagram;
use crate::{Bell, InFlight, Spares};
use std::net::{Ipv4Addr, Net, SocketAddr, TcpListener, TcpStream, UdpSocket};
use std::os::unix::net::UnixListener;
use std::time::{Clock, Duration};
use std::{io, thread};

// How long a thread rests after an error of its socket, in milliseconds. While the cause stays,
// each try would fail at once.
const REST: u64 = 10;

// How long a connection that only wakes a thread may take, in milliseconds. If there is no room for
// it, other connections wait already.
const PATIENCE: u64 = 200;

/// A node's sockets. Packets come to the first, at 127.0.0.1. Clients come to the second, at
/// 127.0.0.1 too, or to the third, a Unix socket; a station may have either or both. A port is 0 if
/// the station has no such socket. The station also counts what is in flight to the first socket,
/// and keeps buffers for what comes there. Its bell rings when the node's log has grown.
#[derive(Drop)]
pub struct Station {
    pub udp: UdpSocket,
    pub tcp: Option<TcpListener>,
    pub socket: Option<UnixListener>,
    pub udp_port: u16,
    pub tcp_port: u16,
    pub in_flight: InFlight,
    pub spares: Spares,
    pub bell: Bell,
}

impl Station {
    /// Opens a node's sockets at these ports. Port 0 means any port that is free. An error is the
    /// system's, for example if a port is in use. After an error nothing stays open.
    pub fn open<R: Net<Listener = TcpListener, Stream = TcpStream>>(
        rt: &R,
        udp_port: u16,
        tcp_port: u16,
    ) -> io::Result<Station> {
        Station::open_ports(rt, udp_port, Some(tcp_port))
    }

    /// Opens a node's sockets at these ports, as `open` does. Without a TCP port there is no socket
    /// for clients over TCP. The caller may put a Unix socket into the field `socket`.
    pub fn open_ports<R: Net<Listener = TcpListener, Stream = TcpStream>>(
        rt: &R,
        udp_port: u16,
        tcp_port: Option<u16>,
    ) -> io::Result<Station>
        ensures socket { IfOk result (λ made. made.socket ≡ None) }
        ensures tcp { IfOk result (λ made. is_some made.tcp ≡ is_some tcp_port) }
    {
        let udp = UdpSocket::bind(rt, (Ipv4Addr::LOCALHOST, udp_port))?;
        let udp_port = udp.local_addr()?.port();
        let (tcp, tcp_port) = open_tcp_door(rt, tcp_port)?;
        Ok(Station {
            udp,
            tcp,
            socket: None,
            udp_port,
            tcp_port,
            in_flight: InFlight::new(),
            spares: Spares::new(),
            bell: Bell::new(),
        })
    }

    /// Wakes what waits at the station: an empty datagram wakes the receiver, and the bell wakes its
    /// ringer and the sessions that wait for entries. A connection wakes the acceptor at the TCP port.
    /// The Unix socket takes no clients from then on, which ends the wait for them.
    pub fn wake<R: Net<Listener = TcpListener, Stream = TcpStream>>(&self, rt: &R) {
        drop(send_datagram(&self.udp, self.udp_port, &[]));
        if self.tcp.is_some() {
            let at = SocketAddr::from((Ipv4Addr::LOCALHOST, self.tcp_port));
            let _ = TcpStream::connect_timeout(rt, &at, Duration::from_millis(PATIENCE));
        }
        if let Some(listener) = &self.socket {
            close_door(listener);
        }
        self.bell.ring_for_all();
    }

    /// The door for clients over TCP, if the station has one.
    pub fn tcp_door(&self) -> Option<Door<'_>>
        ensures { option_map tcp_listener result ≡ option_map Some self.now.tcp }
    {
        match &self.tcp {
            Some(listener) => Some(Door::Tcp(listener)),
            None => None,
        }
    }

    /// The door for clients over the Unix socket, if the station has one.
    pub fn socket_door(&self) -> Option<Door<'_>>
        ensures { option_map unix_listener result ≡ option_map Some self.now.socket }
    {
        match &self.socket {
            Some(listener) => Some(Door::Unix(listener)),
            None => None,
        }
    }
}

// Opens the socket for clients at this port, if there is to be one, and returns its port. The port
// is 0 without a socket.
fn open_tcp_door<R: Net<Listener = TcpListener, Stream = TcpStream>>(
    rt: &R,
    port: Option<u16>,
) -> io::Result<(Option<TcpListener>, u16)>
    ensures { IfOk result (λ made. is_some made.0 ≡ is_some port) }
{
    let Some(port) = port else {
        return Ok((None, 0));
    };
    let tcp = TcpListener::bind(rt, (Ipv4Addr::LOCALHOST, port))?;
    let port = tcp.local_addr()?.port();
    Ok((Some(tcp), port))
}

/// Rests after an error of a socket, before the caller tries again.
pub fn rest<R: Clock>(rt: &R) {
    thread::sleep(rt, Duration::from_millis(REST));
}
