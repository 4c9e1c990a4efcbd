//! The receiver, at a station on loopback, and a thread that sends to it.

use crossbeam_channel::Receiver;
use std::alloc::Global;
use std::marker::Brand;
use std::net::{Ipv4Addr, Net, TcpListener, TcpStream, UdpSocket};
use std::sync::Wait;
use std::test::Fail;
use std::thread;
use std::thread::Threads;
use std::time::{Clock, Duration};
use urb_link::{
    ArrivalQueue, BACKLOG, KEEPING, Link, PacedLink, Station, Stop, Ticket, UdpLink, receive,
};
use urb_names::{MAX_PACKET, NodeId};
use urb_turn::Job;

// The bytes of the longest packet.
const LONGEST: usize = MAX_PACKET;

// The number of tickets that the channel has room for.
const ROOM: usize = 4;

// How long a thread waits for the first arrival, in milliseconds, and for each further one.
const PATIENCE: u64 = 10_000;

const QUIET: u64 = 500;

// What is sent to a receiver.
#[derive(Clone, Copy, Debug)]
enum Course {
    /// One datagram of this length.
    One(usize),
    /// One datagram of this length, after the socket has answered errors for a while.
    AfterErrors(usize),
    /// The given number of datagrams of the greatest length. The channel's other end takes them
    /// only after all were sent.
    Many(u32),
    /// More datagrams than the channel has room for, and then the stop.
    ManyAndTheStop,
}

// What has arrived. These are the number of datagrams, and how many of them came in the order of
// the sends, with no gap before them. Then comes the length of the last one in bytes.
#[derive(Clone, Copy, Debug, PartialEq, Eq)]
struct Arrived {
    count: u32,
    in_order: u32,
    length: usize,
}

// The first bytes of a datagram: its number.
fn number_of(bytes: &[u8]) -> Option<u32> {
    let [a, b, c, d, ..] = bytes else {
        return None;
    };
    Some(u32::from_be_bytes([*a, *b, *c, *d]))
}

// Takes arrivals until the given number has come, or no more come.
fn take<R: Wait + Clock>(rt: &R, jobs: &Receiver<Ticket<Brand>>, most: u32) -> Arrived {
    let mut arrived = Arrived {
        count: 0,
        in_order: 0,
        length: 0,
    };
    let mut patience = PATIENCE;
    for number in 0..most {
        let Ok(ticket) = jobs.recv_timeout(rt, Duration::from_millis(patience)) else {
            break;
        };
        let Job::Arrive { bytes, .. } = &ticket.job else {
            break;
        };
        arrived.count = number.saturating_add(1);
        arrived.length = bytes.len();
        if arrived.in_order == number && number_of(bytes.as_slice()) == Some(number) {
            arrived.in_order = arrived.count;
        }
        patience = QUIET;
    }
    arrived
}

// A datagram of this length that begins with its number.
fn datagram(alloc: Global, number: u32, length: usize) -> Option<Vec<u8>> {
    let mut bytes = Vec::from_slice(alloc, &number.to_be_bytes()).ok()?;
    for _ in 4..length {
        bytes.push(b'x').ok()?;
    }
    Some(bytes)
}

// Sends datagrams of this length over a link that waits for its receiver.
fn send_many<N: Link, R: Clock>(
    rt: &R,
    alloc: Global,
    link: &N,
    stations: &[Station],
    count: u32,
    length: usize,
) -> Option<()> {
    let paced = PacedLink::new(rt, link, stations);
    let node = NodeId::new(1)?;
    for number in 0..count {
        paced.send(node, datagram(alloc, number, length)?.as_slice());
    }
    Some(())
}

// Sends what a test case says, and takes what then arrives.
fn play<R: Wait + Clock>(
    rt: &R,
    alloc: Global,
    stations: &[Station],
    link: &UdpLink,
    jobs: &Receiver<Ticket<Brand>>,
    course: Course,
) -> Option<Arrived> {
    match course {
        Course::One(length) => {
            send_many(rt, alloc, link, stations, 1, length)?;
            Some(take(rt, jobs, 1))
        }
        Course::AfterErrors(length) => {
            thread::sleep(rt, Duration::from_millis(50));
            send_many(rt, alloc, link, stations, 1, length)?;
            Some(take(rt, jobs, 1))
        }
        Course::Many(count) => {
            send_many(rt, alloc, link, stations, count, LONGEST)?;
            Some(take(rt, jobs, count))
        }
        Course::ManyAndTheStop => {
            send_many(rt, alloc, link, stations, 10, LONGEST)?;
            Some(take(rt, jobs, 0))
        }
    }
}

// What arrives at a receiver. It is stopped afterwards.
fn run_receiver<R: Threads + Wait + Clock + Net<Listener = TcpListener, Stream = TcpStream> + Sync>(
    rt: &R,
    alloc: Global,
    course: Course,
) -> Option<Arrived> {
    let node = NodeId::new(1)?;
    let stations = vec![in alloc; Station::open(rt, 0, 0).ok()?].ok()?;
    let station = stations.first()?;
    station
        .udp
        .set_nonblocking(matches!(course, Course::AfterErrors(_)))
        .ok()?;
    let socket = UdpSocket::bind(rt, (Ipv4Addr::LOCALHOST, 0)).ok()?;
    let link = UdpLink::new(socket, vec![in alloc; station.udp_port].ok()?);
    let (line, jobs) = crossbeam_channel::bounded(alloc, ROOM).ok()?;
    let stop = Stop::new();
    let (stop, stations, link, jobs) = (&stop, stations.as_slice(), &link, &jobs);
    let (_, arrived) = thread::join(
        rt,
        move || receive(rt, alloc, stop, station, ArrivalQueue::new(node, &line)),
        move || {
            let arrived = play(rt, alloc, stations, link, jobs, course);
            stop.set();
            station.wake(rt);
            arrived
        },
    );
    arrived
}

// One datagram of this length, whole.
fn one(length: usize) -> Option<Arrived> {
    Some(Arrived {
        count: 1,
        in_order: 1,
        length,
    })
}

#[test]
fn the_longest_packet_arrives_whole(rt: HostRuntime) -> Result<(), Fail> {
    let arrived = run_receiver(&rt, rt.alloc(), Course::One(LONGEST));
    assert_eq!(rt; arrived, one(LONGEST));
    Ok(())
}

// A datagram that was cut to the length of the longest packet might pass for one.
#[test]
fn what_is_longer_than_a_packet_arrives_longer(rt: HostRuntime) -> Result<(), Fail> {
    let arrived = run_receiver(&rt, rt.alloc(), Course::One(LONGEST + 1)).ok_or("nothing")?;
    let length = arrived.length;
    assert!(rt; LONGEST < length, "{length} bytes");
    Ok(())
}

#[test]
fn a_receiver_goes_on_after_errors_of_its_socket(rt: HostRuntime) -> Result<(), Fail> {
    let arrived = run_receiver(&rt, rt.alloc(), Course::AfterErrors(LONGEST));
    assert_eq!(rt; arrived, one(LONGEST));
    Ok(())
}

// These are 3 megabytes, and a socket has room for a fifth of a megabyte.
#[test]
fn what_comes_while_a_channel_is_full_arrives_in_order(rt: HostRuntime) -> Result<(), Fail> {
    let arrived = run_receiver(&rt, rt.alloc(), Course::Many(200));
    let all = Arrived {
        count: 200,
        in_order: 200,
        length: LONGEST,
    };
    assert_eq!(rt; arrived, Some(all));
    Ok(())
}

// The socket's room decides how many arrive beside those in the backlog and the channel. They are
// always the first ones.
#[test]
fn a_full_backlog_keeps_what_came_first(rt: HostRuntime) -> Result<(), Fail> {
    let arrived = run_receiver(&rt, rt.alloc(), Course::Many(300)).ok_or("nothing")?;
    let kept = BACKLOG / (LONGEST + KEEPING) + ROOM;
    let count = arrived.count;
    assert!(rt; kept <= count as usize, "{count} arrived, not {kept}");
    assert_eq!(rt; arrived.in_order, arrived.count);
    Ok(())
}

#[test]
fn a_stop_ends_a_receiver_whose_channel_is_full(rt: HostRuntime) -> Result<(), Fail> {
    let arrived = run_receiver(&rt, rt.alloc(), Course::ManyAndTheStop).ok_or("nothing")?;
    assert_eq!(rt; arrived.count, 0);
    Ok(())
}
