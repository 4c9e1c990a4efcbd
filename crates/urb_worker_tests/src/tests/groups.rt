//! Groups that run on threads and sockets of this machine.
//!
//! What ticks bring, clients that break off, and what is counted.

ghost use Rattle.std.specs.Prelude.{◌≡◌, ◌<◌, ◌≤◌, IfSome, vec_len};

use super::open_group;
use std::alloc::Global;
use std::io::{Read, Write};
use std::marker::Brand;
use std::net::{Ipv4Addr, Net, TcpListener, TcpStream, UdpSocket};
use std::sync::Wait;
use std::sync::ledger::Blank;
use std::test::Fail;
use std::thread;
use std::thread::Threads;
use std::time::{Clock, Duration};
use urb_desk::{ClientLimits, IDLE_MINUTES};
use urb_link::{Station, UdpLink};
use urb_stable::MemStable;
use urb_turn::Silent;
use urb_worker::{GroupSetting, Watch, run_group};

// How many clients a node serves at a time.
const CLIENTS: usize = 300;

// A submit of client 7's first message, `x`, and then a bad length, which ends a session. Then the
// answers: that the message was accepted, and the answer to the bad length.
const SUBMIT: &[u8] = b"\x00\x08\x01\x00\x07\x00\x00\x00\x01x\x00\x00";

const ACCEPTED: &[u8] = b"\x00\x05\x81\x00\x00\x00\x01\x00\x06\xee\x13\x00\x00\x00\x01";

// A crash and a restart, and the response that each is done.
const CRASH: &[u8] = b"\x00\x01\x04\x00\x00";

const RESTART: &[u8] = b"\x00\x01\x05\x00\x00";

const DONE: &[u8] = b"\x00\x01\x84\x00\x06\xee\x13\x00\x00\x00\x01";

// A read of the first place, and the answer of a node that shows the message of node 1.
const READ: &[u8] = b"\x00\x06\x02\x00\x00\x00\x01\x01\x00\x00";

const SHOWN: &[u8] = b"\x00\x10\x82\x01\x01\x00\x00\x00\x01\x00\x07\x00\x00\x00\x01\x00\x01x\
\x00\x06\xee\x13\x00\x00\x00\x01";

// The refusal of a node that serves as many clients as it may.
const BUSY: &[u8] = b"\x00\x06\xee\x04\x00\x00\x00\x00";

// The answers of a node that takes no crash and no restart.
const NOT_TAKEN: &[u8] = b"\x00\x06\xee\x13\x00\x00\x00\x02\x00\x06\xee\x13\x00\x00\x00\x01";

// All that a node answers to these bytes, until it ends the session.
pub(super) fn answers<R: Net<Listener = TcpListener, Stream = TcpStream>>(
    rt: &R,
    alloc: Global,
    station: &Station,
    sent: &[u8],
) -> Option<Vec<u8>> {
    let mut stream = TcpStream::connect(rt, (Ipv4Addr::LOCALHOST, station.tcp_port)).ok()?;
    stream.write_all(sent).ok()?;
    let mut answered = Vec::new(alloc);
    stream.read_to_end(&mut answered).ok()?;
    Some(answered)
}

// Whether a node answers these bytes so, until it ends the session.
pub(super) fn is_answered<R: Net<Listener = TcpListener, Stream = TcpStream>>(
    rt: &R,
    alloc: Global,
    station: &Station,
    sent: &[u8],
    answer: &[u8],
) -> Option<bool> {
    Some(answers(rt, alloc, station, sent)?.as_slice() == answer)
}

// Whether a node shows the message of node 1, after at most 10,000 checks, a millisecond apart.
fn shows_it<R: Clock + Net<Listener = TcpListener, Stream = TcpStream>>(
    rt: &R,
    alloc: Global,
    station: &Station,
) -> Option<bool> {
    for _ in 0..10_000u32 {
        if is_answered(rt, alloc, station, READ, SHOWN)? {
            return Some(true);
        }
        thread::sleep(rt, Duration::from_millis(1));
    }
    Some(false)
}

// Has node 1 send a message while node 3 is down. Returns whether node 3 shows it after it is up
// again: its packet was lost, and only a tick resends it.
fn comes_by_a_tick<R: Clock + Net<Listener = TcpListener, Stream = TcpStream>>(
    rt: &R,
    alloc: Global,
    stations: &[Station],
) -> Option<bool> {
    let [first, second, third] = stations else {
        return None;
    };
    let is_down = is_answered(rt, alloc, third, CRASH, DONE)?;
    let is_accepted = is_answered(rt, alloc, first, SUBMIT, ACCEPTED)?;
    let is_shown = shows_it(rt, alloc, second)?;
    let is_up = is_answered(rt, alloc, third, RESTART, DONE)?;
    Some(is_down && is_accepted && is_shown && is_up && shows_it(rt, alloc, third)?)
}

// Breaks off a session in the middle of a request, or of an answer. It reads as many bytes of the
// answer as there is room for. The side that sent the rest gets an error.
fn break_off<R: Net<Listener = TcpListener, Stream = TcpStream>>(
    rt: &R,
    station: &Station,
    sent: &[u8],
    room: &mut [u8],
) -> Option<()> {
    let mut stream = TcpStream::connect(rt, (Ipv4Addr::LOCALHOST, station.tcp_port)).ok()?;
    stream.write_all(sent).ok()?;
    stream.read_exact(room).ok()
}

// Breaks off five sessions in the middle of a request and five in the middle of an answer, one
// after the other. Returns whether the node still accepts a message.
fn outlives_who_breaks_off<R: Net<Listener = TcpListener, Stream = TcpStream>>(
    rt: &R,
    alloc: Global,
    stations: &[Station],
) -> Option<bool> {
    let station = stations.first()?;
    for _ in 0..5u8 {
        break_off(rt, station, b"\x00\x09\x01", &mut [])?;
        break_off(rt, station, b"\x00\x01\x03", &mut [0])?;
    }
    is_answered(rt, alloc, station, SUBMIT, ACCEPTED)
}

// Has node 1 send a message, and returns whether each node shows it.
fn comes_to_all<R: Clock + Net<Listener = TcpListener, Stream = TcpStream>>(
    rt: &R,
    alloc: Global,
    stations: &[Station],
) -> Option<bool> {
    let mut is_shown = is_answered(rt, alloc, stations.first()?, SUBMIT, ACCEPTED)?;
    for station in stations {
        is_shown = is_shown && shows_it(rt, alloc, station)?;
    }
    Some(is_shown)
}

// Sends a message, and returns whether it was accepted.
fn accepts_one<R: Net<Listener = TcpListener, Stream = TcpStream>>(
    rt: &R,
    alloc: Global,
    stations: &[Station],
) -> Option<bool> {
    is_answered(rt, alloc, stations.first()?, SUBMIT, ACCEPTED)
}

// Whether the first node refuses a crash and a restart as requests that it doesn't know, and accepts
// a message after that.
fn refuses_crashes<R: Net<Listener = TcpListener, Stream = TcpStream>>(
    rt: &R,
    alloc: Global,
    stations: &[Station],
) -> Option<bool> {
    let station = stations.first()?;
    let is_refused = is_answered(rt, alloc, station, CRASH, NOT_TAKEN)?
        && is_answered(rt, alloc, station, RESTART, NOT_TAKEN)?;
    Some(is_refused && accepts_one(rt, alloc, stations)?)
}

// Whether a node accepts a message, after at most 10,000 tries, a millisecond apart.
fn is_served_soon<R: Clock + Net<Listener = TcpListener, Stream = TcpStream>>(
    rt: &R,
    alloc: Global,
    station: &Station,
) -> Option<bool> {
    for _ in 0..10_000u32 {
        if is_answered(rt, alloc, station, SUBMIT, ACCEPTED)? {
            return Some(true);
        }
        thread::sleep(rt, Duration::from_millis(1));
    }
    Some(false)
}

// A connection at which the node has begun to report its status.
fn open_served<R: Net<Listener = TcpListener, Stream = TcpStream>>(
    rt: &R,
    station: &Station,
) -> Option<TcpStream> {
    let mut stream = TcpStream::connect(rt, (Ipv4Addr::LOCALHOST, station.tcp_port)).ok()?;
    let limit = stream.set_read_timeout(Some(Duration::from_millis(10_000)));
    let is_served = limit.is_ok()
        && stream.write_all(b"\x00\x01\x03").is_ok()
        && stream.read_exact(&mut [0]).is_ok();
    if is_served { Some(stream) } else { None }
}

// Whether a node serves as many clients at once as it may, and reports its status to each of them.
// One more client is told that the node is busy, and is served once another one has left.
fn serves_all_at_once<R: Clock + Net<Listener = TcpListener, Stream = TcpStream>>(
    rt: &R,
    alloc: Global,
    station: &Station,
) -> Option<bool> {
    let mut streams = Vec::with_capacity(alloc, CLIENTS).ok()?;
    for _i in 0..CLIENTS {
        streams.push(open_served(rt, station)?).ok()?;
    }
    let is_refused = is_answered(rt, alloc, station, b"", BUSY)?;
    drop(streams.pop());
    Some(is_refused && is_served_soon(rt, alloc, station)? && streams.len() + 1 == CLIENTS)
}

// Has a node's listener answer errors for a while, then wait again. Returns whether the node still
// serves all its clients.
fn outlives_errors<R: Clock + Net<Listener = TcpListener, Stream = TcpStream>>(
    rt: &R,
    alloc: Global,
    stations: &[Station],
) -> Option<bool> {
    let station = stations.first()?;
    station.tcp.as_ref()?.set_nonblocking(true).ok()?;
    // The listener takes one more connection, and has errors after it.
    break_off(rt, station, b"\x00\x01\x03", &mut [0])?;
    thread::sleep(rt, Duration::from_millis(50));
    station.tcp.as_ref()?.set_nonblocking(false).ok()?;
    serves_all_at_once(rt, alloc, station)
}

// What a client does with a group that runs.
#[derive(Clone, Copy, Debug)]
enum Course {
    SendsOne,
    BreaksOff,
    HasErrors,
    SendsWhileOneIsDown,
    SendsToAll,
    MayNotCrash,
}

// A client of a group, and whether its actions went well.
#[derive(Drop)]
struct Client<'a, R: Clock + Net<Listener = TcpListener, Stream = TcpStream>> {
    rt: &'a R,
    alloc: Global,
    course: Course,
    went_well: bool,
}

impl<'a, R: Clock + Net<Listener = TcpListener, Stream = TcpStream>> Watch for Client<'a, R> {
    fn watch(&mut self, stations: &[Station]) {
        let (rt, alloc) = (self.rt, self.alloc);
        let went_well = match self.course {
            Course::SendsOne => accepts_one(rt, alloc, stations),
            Course::BreaksOff => outlives_who_breaks_off(rt, alloc, stations),
            Course::HasErrors => outlives_errors(rt, alloc, stations),
            Course::SendsWhileOneIsDown => comes_by_a_tick(rt, alloc, stations),
            Course::SendsToAll => comes_to_all(rt, alloc, stations),
            Course::MayNotCrash => refuses_crashes(rt, alloc, stations),
        };
        self.went_well = went_well == Some(true);
    }
}

// The given number of stations, at free ports.
pub(super) fn make_stations<R: Net<Listener = TcpListener, Stream = TcpStream>>(
    rt: &R,
    alloc: Global,
    nodes: u8,
) -> Option<Vec<Station>>
    ensures { IfSome result (λ all. vec_len all ≡ nodes) }
{
    let mut all = Vec::with_capacity(alloc, usize::from(nodes)).ok()?;
    for _i in 0..nodes {
        all.push_reserved(Station::open(rt, 0, 0).ok()?);
    }
    Some(all)
}

// The given number of empty stores.
pub(super) fn make_stores(alloc: Global, nodes: u8) -> Option<Vec<MemStable>>
    ensures { IfSome result (λ all. vec_len all ≡ nodes) }
{
    let mut all = Vec::with_capacity(alloc, usize::from(nodes)).ok()?;
    for _i in 0..nodes {
        all.push_reserved(MemStable::new(alloc));
    }
    Some(all)
}

// The link to these stations.
pub(super) fn link_to<R: Net<Listener = TcpListener, Stream = TcpStream>>(
    rt: &R,
    alloc: Global,
    stations: &[Station],
) -> Option<UdpLink> {
    let mut ports = Vec::new(alloc);
    for station in stations {
        ports.push(station.udp_port).ok()?;
    }
    let socket = UdpSocket::bind(rt, (Ipv4Addr::LOCALHOST, 0)).ok()?;
    Some(UdpLink::new(socket, ports))
}

// Runs a new group while a client asks it, with a tick at each node every `millis` milliseconds.
// Returns whether that went well, and the count of the group's events.
fn run_with_client<R>(
    rt: &R,
    alloc: Global,
    nodes: u8,
    millis: u32,
    course: Course,
) -> Option<(bool, u64)>
where
    R: Threads + Wait + Clock + Sync + Net<Listener = TcpListener, Stream = TcpStream>,
    requires { (0 < nodes) × (nodes ≤ 7) }
{
    let mut client = Client {
        rt,
        alloc,
        course,
        went_well: false,
    };
    let stations = make_stations(rt, alloc, nodes)?;
    let stations = stations.as_slice();
    let link = link_to(rt, alloc, stations)?;
    let stores = make_stores(alloc, nodes)?;
    let opened = open_group(alloc, nodes)?;
    let blank = Blank::new(u64::from(nodes));
    let may_crash = !matches!(course, Course::MayNotCrash);
    let setting = GroupSetting {
        rt,
        alloc,
        link: &link,
        stations,
        tick_millis: millis,
        reporter: &Silent,
        limits: ClientLimits::new(CLIENTS, IDLE_MINUTES, may_crash),
    };
    let (_, ended) = run_group::<Brand, Brand, MemStable, Silent, R, Client<'_, R>>(
        &setting,
        opened,
        blank,
        stores,
        &mut client,
    );
    Some((client.went_well, ended?))
}

#[test]
fn a_tick_brings_what_a_node_that_was_down_has_missed(rt: HostRuntime) -> Result<(), Fail> {
    let course = Course::SendsWhileOneIsDown;
    let (went_well, _) = run_with_client(&rt, rt.alloc(), 3, 20, course).ok_or("memory")?;
    assert!(rt; went_well);
    Ok(())
}

#[test]
fn a_message_comes_to_each_of_seven_nodes(rt: HostRuntime) -> Result<(), Fail> {
    let ran = run_with_client(&rt, rt.alloc(), 7, 20, Course::SendsToAll);
    let (went_well, _) = ran.ok_or("memory")?;
    assert!(rt; went_well);
    Ok(())
}

#[test]
fn clients_that_may_not_crash_a_node_are_refused(rt: HostRuntime) -> Result<(), Fail> {
    let ran = run_with_client(&rt, rt.alloc(), 1, 20, Course::MayNotCrash);
    let (went_well, _) = ran.ok_or("memory")?;
    assert!(rt; went_well);
    Ok(())
}

#[test]
fn clients_that_break_off_cost_no_thread(rt: HostRuntime) -> Result<(), Fail> {
    let ran = run_with_client(&rt, rt.alloc(), 1, 20, Course::BreaksOff);
    let (went_well, _) = ran.ok_or("memory")?;
    assert!(rt; went_well);
    Ok(())
}

#[test]
fn a_node_serves_on_after_errors_of_its_listener(rt: HostRuntime) -> Result<(), Fail> {
    let ran = run_with_client(&rt, rt.alloc(), 1, 20, Course::HasErrors);
    let (went_well, _) = ran.ok_or("memory")?;
    assert!(rt; went_well);
    Ok(())
}

// Only a submit and its store happen while no tick comes.
#[test]
fn a_run_counts_its_events(rt: HostRuntime) -> Result<(), Fail> {
    let outcome = run_with_client(&rt, rt.alloc(), 1, 60_000, Course::SendsOne);
    assert_eq!(rt; outcome, Some((true, 2)));
    Ok(())
}
