//! Groups that run on threads and sockets of this machine, with their stores in memory. Clients use
//! them over TCP.

ghost use Rattle.std.specs.Prelude.{◌≡◌, ◌<◌, ◌≤◌, IfSome, vec_len};

use std::alloc::Global;
use std::io::{Read, Write};
use std::net::{Ipv4Addr, Net, TcpListener, TcpStream, UdpSocket};
use std::rt::Files;
use std::test::Fail;
use std::thread;
use std::time::{Clock, Duration};
use urb_daemon::{Host, Network, NetworkFault, Port, open_link, open_network, run_group_at};
use urb_desk::{ClientLimits, LEAST_CONNECTIONS};
use urb_group::{Config, Group, MemStable};
use urb_link::Station;
use urb_options::{ServeOptions, ServiceOptions};
use urb_turn::{Reporter, Silent};
use urb_worker::Watch;

// What a client sends to a group of one node. It is a submit, a read that shows it, a status, and a
// submit whose number isn't the next. Then come an unknown opcode, a read of the place 0, a read
// after the end, and a bad length.
const SENT: &[u8] = b"\x00\x09\x01\x00\x07\x00\x00\x00\x01hi\
\x00\x06\x02\x00\x00\x00\x01\x08\
\x00\x01\x03\
\x00\x07\x01\x00\x07\x00\x00\x00\x03\
\x00\x01\x09\
\x00\x06\x02\x00\x00\x00\x00\x08\
\x00\x06\x02\x00\x00\x00\x09\x08\
\x00\x00";

const ANSWERED: &[u8] = b"\x00\x05\x81\x00\x00\x00\x01\
\x00\x11\x82\x01\x01\x00\x00\x00\x01\x00\x07\x00\x00\x00\x01\x00\x02hi\
\x00\x0a\x83\x01\x00\x00\x00\x01\x00\x00\x00\x01\
\x00\x06\xee\x07\x00\x00\x00\x02\
\x00\x06\xee\x13\x00\x00\x00\x02\
\x00\x06\xee\x13\x00\x00\x00\x04\
\x00\x02\x82\x00\
\x00\x06\xee\x13\x00\x00\x00\x01";

// The answer to a bad length, which ends a session.
const ENDED: &[u8] = b"\x00\x06\xee\x13\x00\x00\x00\x01";

// Everything that a node answers to these bytes, until it ends the session.
pub(super) fn answers<R: Net<Listener = TcpListener, Stream = TcpStream>>(
    rt: &R,
    alloc: Global,
    station: &Station,
    sent: &[u8],
) -> Option<Vec<u8>> {
    let mut stream = TcpStream::connect(rt, (Ipv4Addr::LOCALHOST, station.tcp_port)).ok()?;
    stream.write_all(sent).ok()?;
    let mut answered = Vec::new(alloc);
    stream.read_to_end(&mut answered).ok()?;
    Some(answered)
}

// The stations of the given number of nodes, at free ports.
fn stations<R: Net<Listener = TcpListener, Stream = TcpStream>>(
    rt: &R,
    alloc: Global,
    nodes: u8,
) -> Option<Vec<Station>>
    ensures { IfSome result (λ all. vec_len all ≡ nodes) }
{
    let mut all = Vec::with_capacity(alloc, usize::from(nodes)).ok()?;
    for _i in 0..nodes {
        all.push_reserved(Station::open(rt, 0, 0).ok()?);
    }
    Some(all)
}

// The given number of empty stores.
fn stores(alloc: Global, nodes: u8) -> Option<Vec<MemStable>>
    ensures { IfSome result (λ all. vec_len all ≡ nodes) }
{
    let mut all = Vec::with_capacity(alloc, usize::from(nodes)).ok()?;
    for _i in 0..nodes {
        all.push_reserved(MemStable::new(alloc));
    }
    Some(all)
}

// Runs a new group until the watch ends. Its nodes resend every `millis` milliseconds. Returns the
// count of its events.
pub(super) fn events_of<R, H: Reporter + Sync, W: Watch>(
    rt: &R,
    alloc: Global,
    nodes: u8,
    millis: u32,
    reporter: &H,
    watch: &mut W,
) -> Option<u64>
where
    R: Host + Net<Listener = TcpListener, Stream = TcpStream>,
    requires { (0 < nodes) × (nodes ≤ 7) }
{
    let config = Config::new(nodes, 100)?;
    let stations = stations(rt, alloc, nodes)?;
    let link = open_link(rt, alloc, 13, stations.as_slice()).ok()?;
    let network = Network {
        stations,
        link,
        every: millis,
        limits: ClientLimits::standard(LEAST_CONNECTIONS),
    };
    let stores = stores(alloc, nodes)?;
    let group = Group::new(alloc, config).ok()?;
    let (_, events) = run_group_at(rt, alloc, group, &network, stores, reporter, watch);
    events
}

// One client of the first node. It sends `SENT`.
#[derive(Drop)]
struct OneClient<'a, R: Net<Listener = TcpListener, Stream = TcpStream>> {
    rt: &'a R,
    alloc: Global,
    is_answered: bool,
}

impl<'a, R: Net<Listener = TcpListener, Stream = TcpStream>> Watch for OneClient<'a, R> {
    fn watch(&mut self, stations: &[Station]) {
        if let [station, ..] = stations
            && let Some(answered) = answers(self.rt, self.alloc, station, SENT)
        {
            self.is_answered = answered.as_slice() == ANSWERED;
        }
    }
}

// Opens the given number of sessions of a node, which all stay open, and asks for its status in
// each. Says whether the last one is answered.
fn is_answered_at_once<R: Net<Listener = TcpListener, Stream = TcpStream>>(
    rt: &R,
    alloc: Global,
    station: &Station,
    count: u8,
) -> Option<bool> {
    let mut sessions = Vec::new(alloc);
    for _i in 0..count {
        let mut stream = TcpStream::connect(rt, (Ipv4Addr::LOCALHOST, station.tcp_port)).ok()?;
        stream
            .set_read_timeout(Some(Duration::from_millis(10_000)))
            .ok()?;
        stream.write_all(&[0, 1, 3]).ok()?;
        sessions.push(stream).ok()?;
    }
    let mut answer = [0u8; 12];
    let last = sessions.last_mut()?;
    last.read_exact(&mut answer).ok()?;
    Some(answer.starts_with(&[0, 10, 0x83, 1]))
}

// As many clients of the first node as it serves at once.
#[derive(Drop)]
struct FourClients<'a, R: Net<Listener = TcpListener, Stream = TcpStream>> {
    rt: &'a R,
    alloc: Global,
    are_answered: bool,
}

impl<'a, R: Net<Listener = TcpListener, Stream = TcpStream>> Watch for FourClients<'a, R> {
    fn watch(&mut self, stations: &[Station]) {
        if let [station, ..] = stations {
            let is_answered = is_answered_at_once(self.rt, self.alloc, station, 4);
            self.are_answered = is_answered == Some(true);
        }
    }
}

#[test]
fn four_sessions_of_a_node_are_answered_at_once(rt: HostRuntime) -> Result<(), Fail> {
    let mut clients = FourClients {
        rt: &rt,
        alloc: rt.alloc(),
        are_answered: false,
    };
    let events = events_of(&rt, rt.alloc(), 1, 20, &Silent, &mut clients);
    assert!(rt; clients.are_answered);
    assert!(rt; events.is_some());
    Ok(())
}

// Whether both ports of a station are free at another address of this machine.
fn is_alone<R: Net<Listener = TcpListener, Stream = TcpStream>>(rt: &R, station: &Station) -> bool {
    let other = Ipv4Addr::new(127, 0, 0, 2);
    UdpSocket::bind(rt, (other, station.udp_port)).is_ok()
        && TcpListener::bind(rt, (other, station.tcp_port)).is_ok()
}

// Whether the stations of seven nodes above this base belong to their nodes, and can't be opened
// twice. `None` if a port is in use.
fn are_of_their_nodes<R: Files + Net<Listener = TcpListener, Stream = TcpStream>>(
    rt: &R,
    alloc: Global,
    base: u16,
) -> Option<bool> {
    let serving = ServeOptions::new(7, 1, ".", base, 1)?;
    let base = serving.base;
    let network = open_network(rt, alloc, serving).ok()?;
    let again = open_network(rt, alloc, serving);
    let mut are = network.stations.len() == 7
        && again.err() == Some(NetworkFault::InUse(Port::Udp(base + 1)));
    for node in 1..8u16 {
        let station = network.stations.get(usize::from(node) - 1)?;
        are = are
            && (station.udp_port, station.tcp_port) == (base + node, base + 10 + node)
            && is_alone(rt, station);
    }
    Some(are)
}

#[test]
fn sockets_are_those_of_their_nodes_at_loopback_alone(rt: HostRuntime) -> Result<(), Fail> {
    for base in [22_350u16, 25_910, 29_470, 31_230] {
        if let Some(are) = are_of_their_nodes(&rt, rt.alloc(), base) {
            assert!(rt; are);
            return Ok(());
        }
    }
    Err("no port is free".into())
}

// The limits of the clients of a group at these ports, if it opens them: the connections, the idle
// time in minutes, and whether clients may crash it.
fn limits_of<R: Files + Net<Listener = TcpListener, Stream = TcpStream>>(
    rt: &R,
    alloc: Global,
    base: u16,
    service: ServiceOptions,
) -> Option<(usize, u32, bool)> {
    let serving = ServeOptions::new(1, 1, ".", base, 1)?.with_service(service);
    let limits = open_network(rt, alloc, serving).ok()?.limits;
    Some((limits.connections, limits.idle_times, limits.may_crash))
}

#[test]
fn clients_have_the_limits_of_the_options(rt: HostRuntime) -> Result<(), Fail> {
    for (connections, minutes, may_crash) in [(4u16, 1u16, false), (9, 3, true), (5, 1440, false)] {
        let service = ServiceOptions::new(connections, minutes, may_crash).ok_or("a range")?;
        let mut limits = None;
        for base in [22_350u16, 25_910, 29_470, 31_230] {
            if limits.is_none() {
                limits = limits_of(&rt, rt.alloc(), base, service);
            }
        }
        let expected = (usize::from(connections), u32::from(minutes), may_crash);
        assert_eq!(rt; limits, Some(expected));
    }
    Ok(())
}

#[test]
fn a_session_over_tcp_is_answered(rt: HostRuntime) -> Result<(), Fail> {
    let mut client = OneClient {
        rt: &rt,
        alloc: rt.alloc(),
        is_answered: false,
    };
    let events = events_of(&rt, rt.alloc(), 1, 20, &Silent, &mut client);
    assert!(rt; client.is_answered);
    assert!(rt; events.is_some());
    Ok(())
}

// Submits ten messages at a node, and says whether they were accepted as 1 to 10.
fn has_accepted_ten<R: Net<Listener = TcpListener, Stream = TcpStream>>(
    rt: &R,
    alloc: Global,
    station: &Station,
) -> Option<bool> {
    let mut sent = Vec::new(alloc);
    let mut expected = Vec::new(alloc);
    for number in 1..11u8 {
        sent.extend_from_slice(&[0, 8, 1, 0, 7, 0, 0, 0, number, b'x'])
            .ok()?;
        expected
            .extend_from_slice(&[0, 5, 0x81, 0, 0, 0, number])
            .ok()?;
    }
    sent.extend_from_slice(&[0, 0]).ok()?;
    expected.extend_from_slice(ENDED).ok()?;
    let answered = answers(rt, alloc, station, sent.as_slice())?;
    Some(answered.as_slice() == expected.as_slice())
}

// Whether a node shows thirty entries at last. It polls at most 10,000 times, a millisecond apart.
fn shows_thirty<R: Clock + Net<Listener = TcpListener, Stream = TcpStream>>(
    rt: &R,
    alloc: Global,
    station: &Station,
) -> Option<bool> {
    for _ in 0..10_000u32 {
        let answered = answers(rt, alloc, station, &[0, 6, 2, 0, 0, 0, 30, 1, 0, 0])?;
        if answered.len() > 4 + ENDED.len() {
            return Some(true);
        }
        thread::sleep(rt, Duration::from_millis(1));
    }
    Some(false)
}

// The answers to reads of the places 1 to 30, one entry each.
fn thirty_entries<R: Net<Listener = TcpListener, Stream = TcpStream>>(
    rt: &R,
    alloc: Global,
    station: &Station,
) -> Option<Vec<u8>> {
    let mut sent = Vec::new(alloc);
    for place in 1..31u8 {
        sent.extend_from_slice(&[0, 6, 2, 0, 0, 0, place, 1]).ok()?;
    }
    sent.extend_from_slice(&[0, 0]).ok()?;
    answers(rt, alloc, station, sent.as_slice())
}

// Whether these entries, of 18 bytes each, show the messages 1 to 10 of a sender in their order.
fn are_in_order(entries: &[u8], sender: u8) -> bool {
    let mut last = 0u8;
    for entry in entries.chunks_exact(18) {
        if let [0, 16, 0x82, 1, of, 0, 0, 0, number, ..] = entry
            && *of == sender
        {
            if *number != last.wrapping_add(1) {
                return false;
            }
            last = *number;
        }
    }
    last == 10
}

// Submits ten messages at each of three nodes. Says whether each log shows them all in the end,
// with those of each sender in order.
fn have_agreed<R: Clock + Net<Listener = TcpListener, Stream = TcpStream>>(
    rt: &R,
    alloc: Global,
    stations: &[Station],
) -> Option<bool> {
    let mut went_well = true;
    for station in stations {
        went_well = went_well && has_accepted_ten(rt, alloc, station)?;
    }
    for station in stations {
        went_well = went_well && shows_thirty(rt, alloc, station)?;
        let entries = thirty_entries(rt, alloc, station)?;
        for sender in 1..4u8 {
            went_well = went_well && are_in_order(entries.as_slice(), sender);
        }
    }
    Some(went_well)
}

// A client of each node.
#[derive(Drop)]
struct ThreeClients<'a, R: Clock + Net<Listener = TcpListener, Stream = TcpStream>> {
    rt: &'a R,
    alloc: Global,
    have_agreed: bool,
}

impl<'a, R: Clock + Net<Listener = TcpListener, Stream = TcpStream>> Watch for ThreeClients<'a, R> {
    fn watch(&mut self, stations: &[Station]) {
        self.have_agreed = have_agreed(self.rt, self.alloc, stations) == Some(true);
    }
}

#[test]
fn three_nodes_over_udp_agree(rt: HostRuntime) -> Result<(), Fail> {
    let mut clients = ThreeClients {
        rt: &rt,
        alloc: rt.alloc(),
        have_agreed: false,
    };
    let events = events_of(&rt, rt.alloc(), 3, 20, &Silent, &mut clients).ok_or("memory")?;
    assert!(rt; clients.have_agreed);
    // Each of the thirty messages is at least two events at each node: an arrival or a submit, and
    // a store. At its own node it is two more.
    assert!(rt; events >= 240);
    Ok(())
}
