//! What bounds a burst: a backlog at its bound, and senders that wait for a receiver.

use std::alloc::Global;
use std::io;
use std::net::{Net, TcpListener, TcpStream};
use std::sync::Wait;
use std::test::Fail;
use std::time::{Clock, Duration, Instant};
use urb_link::{
    BACKLOG, Backlog, CARRYING, FULL_BACKLOG, InFlight, KEEPING, Link, MOST_IN_FLIGHT, MemoryLink,
    PacedLink, Station,
};
use urb_names::{MAX_PACKET, NodeId};

// The bytes of the longest packet.
const LONGEST: usize = MAX_PACKET;

// How long a sender waits before it gives up, in milliseconds.
const WAIT: u64 = 100;

// A datagram of this length. All of its bytes have this value.
fn datagram(alloc: Global, value: u8, length: usize) -> Result<Vec<u8>, Fail> {
    Ok(Vec::from_elem(alloc, value, length)?)
}

#[test]
fn a_backlog_gives_what_came_first(rt: HostRuntime) -> Result<(), Fail> {
    let mut backlog = Backlog::new(rt.alloc());
    assert!(rt; backlog.is_empty());
    for value in 1..4u8 {
        let length = usize::from(value);
        assert!(rt; backlog.push(datagram(rt.alloc(), value, length)?).is_ok());
    }
    assert_eq!(rt; backlog.bytes(), 6 + 3 * KEEPING);
    for value in 1..4u8 {
        let first = backlog.pop().ok_or("nothing waits")?;
        assert_eq!(rt;
            first.as_slice(),
            datagram(rt.alloc(), value, usize::from(value))?.as_slice()
        );
    }
    assert!(rt; backlog.pop().is_none());
    assert_eq!(rt; (backlog.bytes(), backlog.is_empty()), (0, true));
    Ok(())
}

#[test]
fn a_backlog_has_room_to_its_bound(rt: HostRuntime) -> Result<(), Fail> {
    let mut backlog = Backlog::new(rt.alloc());
    // Four datagrams, each with a quarter of the bound, fill it to the last byte.
    let length = BACKLOG / 4 - KEEPING;
    for value in 1..5u8 {
        assert!(rt; backlog.has_room(length) && !backlog.has_room(BACKLOG));
        assert!(rt; backlog.push(datagram(rt.alloc(), value, length)?).is_ok());
    }
    assert_eq!(rt; backlog.bytes(), BACKLOG);
    let refused = backlog.push(datagram(rt.alloc(), 5, 0)?);
    assert!(rt; refused.is_err_and(|back| back.is_empty()));
    assert_eq!(rt; backlog.bytes(), BACKLOG);
    // Taking one makes room again.
    assert!(rt; backlog.pop().is_some() && backlog.has_room(length));
    assert!(rt; !backlog.has_room(length + 1));
    Ok(())
}

// A stranger may send as many of them as they like.
#[test]
fn empty_datagrams_have_a_bound_too(rt: HostRuntime) -> Result<(), Fail> {
    let mut backlog = Backlog::new(rt.alloc());
    let mut count: usize = 0;
    for _i in 0..=BACKLOG / KEEPING {
        if backlog.push(Vec::new(rt.alloc())).is_ok() {
            count = count.saturating_add(1);
        }
    }
    assert_eq!(rt; count, BACKLOG / KEEPING);
    Ok(())
}

#[test]
fn what_was_sent_and_not_taken_is_in_flight(rt: HostRuntime) -> Result<(), Fail> {
    let flight = InFlight::new();
    let long = LONGEST as u64 + CARRYING;
    flight.enter(&rt, LONGEST);
    assert_eq!(rt; (flight.load(), flight.is_crowded()), (long, false));
    flight.enter(&rt, LONGEST);
    assert_eq!(rt; (flight.load(), flight.is_crowded()), (2 * long, true));
    flight.enter(&rt, 0);
    flight.leave(LONGEST);
    assert_eq!(rt;
        (flight.load(), flight.is_crowded()),
        (long + CARRYING, false)
    );
    // What is gone when the socket is empty no longer counts. What came since then still counts.
    flight.settle(long);
    assert_eq!(rt; flight.load(), CARRYING);
    // A stranger's datagram subtracts what is there.
    flight.leave(LONGEST);
    assert_eq!(rt; flight.load(), 0);
    Ok(())
}

// Sends the given number of packets of the greatest length. Returns how long that took and how many
// packets have arrived.
fn send<R: Wait + Clock>(
    rt: &R,
    alloc: Global,
    link: &MemoryLink<'_, R>,
    stations: &[Station],
    count: u8,
) -> Option<(Duration, usize)> {
    let paced = PacedLink::new(rt, link, stations);
    let node = NodeId::new(1)?;
    let bytes = Vec::from_elem(alloc, b'x', LONGEST).ok()?;
    let began = Instant::now(rt).ok()?;
    for _ in 0..count {
        paced.send(node, bytes.as_slice());
    }
    Some((began.elapsed(rt).ok()?, link.empty(node).len()))
}

// How long senders take if their receiver takes nothing. They send as many packets as may be in
// flight, one more, and a hundred after it.
fn waits<R: Wait + Clock + Net<Listener = TcpListener, Stream = TcpStream>>(
    rt: &R,
    alloc: Global,
) -> Option<[(Duration, usize); 3]> {
    let stations = vec![in alloc; Station::open(rt, 0, 0).ok()?].ok()?;
    let stations = stations.as_slice();
    let link = MemoryLink::new(rt, alloc).ok()?;
    let fitting = send(rt, alloc, &link, stations, 3)?;
    let next = send(rt, alloc, &link, stations, 1)?;
    let others = send(rt, alloc, &link, stations, 100)?;
    Some([fitting, next, others])
}

#[test]
fn nobody_waits_for_a_receiver_that_has_ended(rt: HostRuntime) -> Result<(), Fail> {
    let flight = InFlight::new();
    flight.give_up();
    let began = Instant::now(&rt)?;
    for _ in 0..100u8 {
        flight.enter(&rt, LONGEST);
    }
    let took = began.elapsed(&rt)?;
    assert!(rt; took < Duration::from_millis(50 * WAIT), "{took:?}");
    assert_eq!(rt; flight.load(), 100 * (LONGEST as u64 + CARRYING));
    Ok(())
}

// How long it takes to send 20 packets to a node without room. After each, its receiver takes an
// empty datagram. Its backlog holds `backlog` bytes.
fn time_of_sends<R: Clock>(rt: &R, backlog: u64) -> io::Result<Duration> {
    let flight = InFlight::new();
    flight.keep(backlog);
    let began = Instant::now(rt)?;
    for _ in 0..20u8 {
        flight.enter(rt, LONGEST);
        flight.leave(0);
    }
    began.elapsed(rt)
}

#[test]
fn nobody_waits_at_a_node_whose_backlog_is_full(rt: HostRuntime) -> Result<(), Fail> {
    // Each of them waits.
    let took = time_of_sends(&rt, FULL_BACKLOG)?;
    assert!(rt; Duration::from_millis(15 * WAIT) <= took, "{took:?}");
    // None of them waits.
    let took = time_of_sends(&rt, FULL_BACKLOG + 1)?;
    assert!(rt; took < Duration::from_millis(15 * WAIT), "{took:?}");
    Ok(())
}

#[test]
fn a_sender_waits_in_vain_once(rt: HostRuntime) -> Result<(), Fail> {
    assert_eq!(rt; MOST_IN_FLIGHT / (LONGEST as u64 + CARRYING), 3);
    let [(_, fitting), (wait, next), (meanwhile, others)] = waits(&rt, rt.alloc()).ok_or("memory")?;
    assert_eq!(rt; (fitting, next, others), (3, 1, 100));
    assert!(rt; Duration::from_millis(WAIT) <= wait, "{wait:?}");
    assert!(rt;
        meanwhile < Duration::from_millis(50 * WAIT),
        "{meanwhile:?}"
    );
    Ok(())
}
