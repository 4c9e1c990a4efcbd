//! Nodes whose clients connect at a Unix socket: the same requests, the limit on connections, and
//! how a stop ends what waits.

ghost use Rattle.std.specs.Prelude.{◌≡◌, ◌<◌, ◌≤◌, IfSome, vec_len};

use super::groups::{link_to, make_stores};
use super::open_group;
use std::alloc::Global;
use std::fs;
use std::io::{Read, Write};
use std::marker::Brand;
use std::net::{Net, TcpListener, TcpStream};
use std::os::unix::net::{UnixListener, UnixStream};
use std::rt::Files;
use std::sync::Wait;
use std::sync::ledger::Blank;
use std::test::Fail;
use std::thread::Threads;
use std::time::{Clock, Duration};
use urb_desk::ClientLimits;
use urb_link::{Station, UdpLink};
use urb_stable::MemStable;
use urb_turn::Silent;
use urb_worker::{GroupSetting, Watch, run_group};

// A submit of client 7's first message, `x`, and then a bad length, which ends a session. Then the
// answers: that the message was accepted, and the answer to the bad length.
const SUBMIT: &[u8] = b"\x00\x08\x01\x00\x07\x00\x00\x00\x01x\x00\x00";

const ACCEPTED: &[u8] = b"\x00\x05\x81\x00\x00\x00\x01\x00\x06\xee\x13\x00\x00\x00\x01";

// A question for a node's state, and the length of its answer.
const STATUS: &[u8] = b"\x00\x01\x03";

const STATUS_LENGTH: usize = 12;

// The refusal of a node that serves as many clients as it may.
const BUSY: &[u8] = b"\x00\x06\xee\x04\x00\x00\x00\x00";

// How many clients a node serves at a time.
const CLIENTS: usize = 4;

// A connection over the socket at this path. A read that waits longer than ten seconds fails.
fn connect<R: Net>(rt: &R, path: &str) -> Option<UnixStream> {
    let stream = UnixStream::connect(rt, path).ok()?;
    stream
        .set_read_timeout(Some(Duration::from_millis(10_000)))
        .ok()?;
    Some(stream)
}

// All that a node answers to these bytes, until it ends the session.
fn answers<R: Net>(rt: &R, alloc: Global, path: &str, sent: &[u8]) -> Option<Vec<u8>> {
    let mut stream = connect(rt, path)?;
    stream.write_all(sent).ok()?;
    let mut answered = Vec::new(alloc);
    stream.read_to_end(&mut answered).ok()?;
    Some(answered)
}

// Opens a session over the socket, which has been answered once.
fn open_session<R: Net>(rt: &R, path: &str) -> Option<UnixStream> {
    let mut stream = connect(rt, path)?;
    stream.write_all(STATUS).ok()?;
    stream.read_exact(&mut [0u8; STATUS_LENGTH]).ok()?;
    Some(stream)
}

// A client over the node's socket. It submits a message, takes all places of the node, and is
// refused one more. The sessions stay open until the group has stopped.
#[derive(Drop)]
struct Guest<'a, R: Net<Listener = TcpListener, Stream = TcpStream>> {
    rt: &'a R,
    alloc: Global,
    path: &'a str,
    has_port: bool,
    sessions: Vec<UnixStream>,
    is_served: bool,
}

impl<'a, R: Net<Listener = TcpListener, Stream = TcpStream>> Guest<'a, R> {
    fn visit(&mut self) -> Option<bool> {
        let (rt, alloc, path) = (self.rt, self.alloc, self.path);
        let is_accepted = answers(rt, alloc, path, SUBMIT)?.as_slice() == ACCEPTED;
        // The node frees the place of that session a moment later: so the last one may wait.
        for _i in 0..CLIENTS {
            self.sessions.push(open_session(rt, path)?).ok()?;
        }
        let is_refused = answers(rt, alloc, path, b"")?.as_slice() == BUSY;
        Some(is_accepted && is_refused)
    }
}

impl<'a, R: Net<Listener = TcpListener, Stream = TcpStream>> Watch for Guest<'a, R> {
    fn watch(&mut self, stations: &[Station]) {
        if let [station] = stations {
            let is_served = self.visit();
            self.is_served = is_served == Some(true) && (station.tcp_port != 0) == self.has_port;
        }
    }
}

// Whether the stop has ended each session: it says no more.
fn have_ended(sessions: &mut Vec<UnixStream>) -> bool {
    for session in sessions.iter_mut() {
        if session.read(&mut [0u8; 8]).ok() != Some(0) {
            return false;
        }
    }
    sessions.len() == CLIENTS
}

// The station of the only node, with a Unix socket at this path, and with a TCP port if asked.
fn make_station<R>(rt: &R, alloc: Global, path: &str, has_port: bool) -> Option<Vec<Station>>
where
    R: Files + Net<Listener = TcpListener, Stream = TcpStream>,
    ensures { IfSome result (λ all. vec_len all ≡ 1) }
{
    let _ = fs::remove_file(rt, path);
    let port = if has_port { Some(0) } else { None };
    let mut station = Station::open_ports(rt, 0, port).ok()?;
    station.socket = Some(UnixListener::bind(rt, path).ok()?);
    let mut all = Vec::with_capacity(alloc, 1).ok()?;
    all.push_reserved(station);
    Some(all)
}

// Runs a group of one node while a guest uses its socket, and then removes the socket's file before
// the stop if asked. Returns whether the guest was served and each session ended.
fn serves_a_guest<R>(rt: &R, alloc: Global, path: &str, has_port: bool) -> Option<bool>
where
    R: Threads + Wait + Clock + Sync + Files + Net<Listener = TcpListener, Stream = TcpStream>,
{
    let stations = make_station(rt, alloc, path, has_port)?;
    let stations = stations.as_slice();
    let mut guest = Guest {
        rt,
        alloc,
        path,
        has_port,
        sessions: Vec::new(alloc),
        is_served: false,
    };
    let link = link_to(rt, alloc, stations)?;
    let stores = make_stores(alloc, 1)?;
    let opened = open_group(alloc, 1)?;
    let blank = Blank::new(1);
    let setting = GroupSetting {
        rt,
        alloc,
        link: &link,
        stations,
        tick_millis: 60_000,
        reporter: &Silent,
        limits: ClientLimits::standard(CLIENTS),
    };
    let (_, ended) = run_group::<Brand, Brand, MemStable, Silent, R, Guest<'_, R>>(
        &setting, opened, blank, stores, &mut guest,
    );
    let have_ended = have_ended(&mut guest.sessions);
    let _ = fs::remove_file(rt, path);
    Some(guest.is_served && have_ended && ended.is_some())
}

#[test]
fn a_node_serves_clients_over_its_socket_alone(rt: HostRuntime) -> Result<(), Fail> {
    let outcome = serves_a_guest(&rt, rt.alloc(), "urb_worker_alone.sock", false);
    assert_eq!(rt; outcome, Some(true));
    Ok(())
}

#[test]
fn a_node_serves_clients_over_its_socket_beside_a_port(rt: HostRuntime) -> Result<(), Fail> {
    let outcome = serves_a_guest(&rt, rt.alloc(), "urb_worker_both.sock", true);
    assert_eq!(rt; outcome, Some(true));
    Ok(())
}

// Whether a station's socket refuses clients once the station was woken, though its file is gone
// for others.
fn is_closed_by_a_wake<R>(rt: &R, alloc: Global, path: &str) -> Option<bool>
where
    R: Files + Net<Listener = TcpListener, Stream = TcpStream>,
{
    let stations = make_station(rt, alloc, path, false)?;
    let station = stations.first()?;
    let is_open = UnixStream::connect(rt, path).is_ok();
    station.wake(rt);
    let is_refused = UnixStream::connect(rt, path).is_err();
    let _ = fs::remove_file(rt, path);
    Some(is_open && is_refused && station.tcp.is_none() && station.tcp_port == 0)
}

#[test]
fn a_wake_closes_the_socket(rt: HostRuntime) -> Result<(), Fail> {
    let outcome = is_closed_by_a_wake(&rt, rt.alloc(), "urb_worker_woken.sock");
    assert_eq!(rt; outcome, Some(true));
    Ok(())
}
