//! Datagrams that no node sent: a node refuses them, tells nobody, and goes on.

use super::groups::{answers, events_of};
use std::alloc::Global;
use std::net::{Ipv4Addr, Net, TcpListener, TcpStream, UdpSocket};
use std::test::Fail;
use std::thread;
use std::time::{Clock, Duration};
use urb_daemon::Host;
use urb_link::Station;
use urb_turn::Silent;
use urb_worker::Watch;

// Bytes that are no packet (10): another beginning, another version, and a packet that is cut off.
const NO_PACKETS: [&[u8]; 3] = [
    b"GET / HTTP/1.1\r\n\r\n",
    b"UB\x03\x02\x01\x02\x00\x00\x00\x01\x00\x09\x00\x00\x00\x01\x00\x01x",
    b"UB\x01\x02\x01\x02\x00",
];

// A packet from node 2 to node 1 with message 2.1, number 1 of client 9, which node 2 doesn't hold
// (9).
const FORGED: &[u8] = b"UB\x01\x02\x01\x02\x00\x00\x00\x01\x00\x09\x00\x00\x00\x01\x00\x01x";

// A submit of `hi` as number 1 of client 7, and the end of the session.
const SUBMIT: &[u8] = b"\x00\x09\x01\x00\x07\x00\x00\x00\x01hi\x00\x00";

const ACCEPTED: &[u8] = b"\x00\x05\x81\x00\x00\x00\x01\x00\x06\xee\x13\x00\x00\x00\x01";

// A read of the first eight entries, and the end of the session.
const READ: &[u8] = b"\x00\x06\x02\x00\x00\x00\x01\x08\x00\x00";

const EMPTY: &[u8] = b"\x00\x02\x82\x00\x00\x06\xee\x13\x00\x00\x00\x01";

const ONE_ENTRY: &[u8] = b"\x00\x11\x82\x01\x02\x00\x00\x00\x01\x00\x07\x00\x00\x00\x01\x00\x02hi\
\x00\x06\xee\x13\x00\x00\x00\x01";

// Sends all of them to the first node's UDP port.
fn send_strange<R: Net<Listener = TcpListener, Stream = TcpStream>>(
    rt: &R,
    station: &Station,
) -> Option<()> {
    let socket = UdpSocket::bind(rt, (Ipv4Addr::LOCALHOST, 0)).ok()?;
    for bytes in NO_PACKETS {
        socket
            .send_to(bytes, (Ipv4Addr::LOCALHOST, station.udp_port))
            .ok()?;
    }
    socket
        .send_to(FORGED, (Ipv4Addr::LOCALHOST, station.udp_port))
        .ok()?;
    Some(())
}

// What the first node's log shows once it isn't empty. It polls at most 5,000 times, two
// milliseconds apart.
fn shown_at_last<R: Clock + Net<Listener = TcpListener, Stream = TcpStream>>(
    rt: &R,
    alloc: Global,
    station: &Station,
) -> Option<Vec<u8>> {
    for _ in 0..5_000u32 {
        let shown = answers(rt, alloc, station, READ)?;
        if shown.as_slice() != EMPTY {
            return Some(shown);
        }
        thread::sleep(rt, Duration::from_millis(2));
    }
    None
}

/// A stranger to a group of two, a client of its second node, and what the first node then shows.
#[derive(Drop)]
struct Stranger<'a, R: Clock + Net<Listener = TcpListener, Stream = TcpStream>> {
    rt: &'a R,
    alloc: Global,
    /// Whether it sends anything strange.
    is_strange: bool,
    is_accepted: bool,
    shown: Option<Vec<u8>>,
}

impl<'a, R: Clock + Net<Listener = TcpListener, Stream = TcpStream>> Watch for Stranger<'a, R> {
    fn watch(&mut self, stations: &[Station]) {
        let (rt, alloc) = (self.rt, self.alloc);
        if let [first, second] = stations
            && (!self.is_strange || send_strange(rt, first).is_some())
            && let Some(answered) = answers(rt, alloc, second, SUBMIT)
        {
            self.is_accepted = answered.as_slice() == ACCEPTED;
            self.shown = shown_at_last(rt, alloc, first);
        }
    }
}

// Whether a group of two accepts the message at its second node, and its first node then shows that
// message alone. A stranger sends to it or not. `None` if the group doesn't run.
fn shows_one_entry<R>(rt: &R, alloc: Global, is_strange: bool) -> Option<bool>
where
    R: Host + Net<Listener = TcpListener, Stream = TcpStream>,
{
    let mut stranger = Stranger {
        rt,
        alloc,
        is_strange,
        is_accepted: false,
        shown: None,
    };
    events_of(rt, alloc, 2, 60_000, &Silent, &mut stranger)?;
    Some(stranger.is_accepted && stranger.shown?.as_slice() == ONE_ENTRY)
}

// The first node takes its datagrams in their order. So when it shows the message of node 2, it has
// refused the others.
#[test]
fn a_datagram_that_no_node_sent_changes_nothing(rt: HostRuntime) -> Result<(), Fail> {
    assert_eq!(rt; shows_one_entry(&rt, rt.alloc(), false), Some(true));
    assert_eq!(rt; shows_one_entry(&rt, rt.alloc(), true), Some(true));
    Ok(())
}
