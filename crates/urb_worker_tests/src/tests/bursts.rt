//! A burst that comes while a node's store is held back: the node stores and delivers all of it.

ghost use Rattle.std.specs.Prelude.{◌≡◌};
ghost use Rattle.urb_show.specs.Houses.{IsNamed};

use super::{open_group, open_hub, submit};
use crossbeam_channel::{Receiver, Sender};
use std::alloc::Global;
use std::marker::Brand;
use std::net::{Ipv4Addr, Net, TcpListener, TcpStream, UdpSocket};
use std::sync::Wait;
use std::sync::atomic::{AtomicBool, Ordering};
use std::sync::ledger::Blank;
use std::test::Fail;
use std::thread;
use std::thread::Threads;
use std::time::{Clock, Duration};
use urb_group::MemStable;
use urb_link::{
    ArrivalQueue, Link, MemoryLink, PacedLink, Station, Stop, Ticket, UdpLink, receive,
};
use urb_names::{ClientId, MAX_PAYLOAD, NodeId, Payload};
use urb_show::{HouseName, Opened};
use urb_turn::{Gate, HubName, Job, OpenGate};
use urb_worker::serve;

// The number of messages that node 2 has sent: the group's cap.
const BURST: u32 = 100;

// The number of tickets that node 1's channel has room for.
const ROOM: usize = 4;

// How many times a thread checks for a sign or a packet, once a millisecond, before it gives up.
const LOOKS: u32 = 10_000;

// What the gate and the sender signal to each other: a store is held, and it may go on.
#[derive(Drop)]
struct Signs {
    is_held: AtomicBool,
    may_go_on: AtomicBool,
}

// Waits for a sign, and returns whether it came.
fn comes<R: Clock>(rt: &R, sign: &AtomicBool) -> bool {
    for _ in 0..LOOKS {
        if sign.load(Ordering::SeqCst) {
            return true;
        }
        thread::sleep(rt, Duration::from_millis(1));
    }
    false
}

// Holds each store until the sign that it may go on.
#[derive(Drop)]
struct Holds<'a, R: Clock> {
    rt: &'a R,
    signs: &'a Signs,
}

impl<'a, R: Clock> Gate for Holds<'a, R> {
    fn before_store(&self, _node: NodeId) {
        self.signs.is_held.store(true, Ordering::SeqCst);
        let _ = comes(self.rt, &self.signs.may_go_on);
    }
}

// A submit of client 7 at node 2, of 16,384 bytes.
fn long_submit(alloc: Global, number: u32) -> Option<Job> {
    Some(Job::Submit {
        node: NodeId::new(2)?,
        client: ClientId::new(7)?,
        number,
        payload: Payload::copied(alloc, &[b'x'; MAX_PAYLOAD]).ok()?,
    })
}

// The submits of the burst, in the channel of a worker that then closes.
fn submits<K: HouseName, R: Wait>(rt: &R, alloc: Global) -> Option<Receiver<Ticket<K>>> {
    let (line, jobs) = crossbeam_channel::bounded(alloc, BURST as usize).ok()?;
    for number in 1..=BURST {
        let ticket = Ticket {
            job: long_submit(alloc, number)?,
            answer: None,
        };
        line.send(rt, ticket).ok()?;
    }
    Some(jobs)
}

// The number of packets that node 1 sends to node 2, until they reach this count or it takes too
// long.
fn answers<R: Wait + Clock>(rt: &R, link: &MemoryLink<'_, R>, count: usize) -> Option<usize> {
    let node = NodeId::new(2)?;
    let mut sent: usize = 0;
    for _ in 0..LOOKS {
        sent = sent.saturating_add(link.empty(node).len());
        if count <= sent {
            break;
        }
        thread::sleep(rt, Duration::from_millis(1));
    }
    Some(sent)
}

// The packets of a burst, and how they are sent.
#[derive(Drop)]
struct SentBurst<'a> {
    sender: &'a UdpLink,
    stations: &'a [Station],
    packets: &'a [Vec<u8>],
}

// Has node 1 store a message of its own, which is held, and sends it a burst meanwhile.
// Returns whether the store was held, and how many packets node 1 then sends. They are its own
// message, and an answer to each message of the burst.
fn burst<K: HouseName, R: Wait + Clock>(
    rt: &R,
    alloc: Global,
    signs: &Signs,
    sent: &SentBurst<'_>,
    line: &Sender<Ticket<K>>,
    link: &MemoryLink<'_, R>,
) -> Option<(bool, usize)> {
    let node = NodeId::new(1)?;
    let ticket = Ticket {
        job: submit(alloc, node, 1)?,
        answer: None,
    };
    line.send(rt, ticket).ok()?;
    let is_held = comes(rt, &signs.is_held);
    let paced = PacedLink::new(rt, sent.sender, sent.stations);
    for packet in sent.packets {
        paced.send(node, packet.as_slice());
    }
    signs.may_go_on.store(true, Ordering::SeqCst);
    Some((is_held, answers(rt, link, BURST as usize + 1)?))
}

// The station of node 1, and a link to it.
fn station<R: Net<Listener = TcpListener, Stream = TcpStream>>(
    rt: &R,
    alloc: Global,
) -> Option<(Vec<Station>, UdpLink)> {
    let station = Station::open(rt, 0, 0).ok()?;
    let socket = UdpSocket::bind(rt, (Ipv4Addr::LOCALHOST, 0)).ok()?;
    let link = UdpLink::new(socket, vec![in alloc; station.udp_port].ok()?);
    Some((vec![in alloc; station].ok()?, link))
}

// The receiver of the node with this number. It takes the number because a closure that owns
// nothing can't hold the node itself, whose type has an invariant.
fn take_datagrams<K: HouseName, R: Wait + Clock>(
    rt: &R,
    alloc: Global,
    stop: &Stop,
    number: u8,
    station: &Station,
    line: &Sender<Ticket<K>>,
) {
    if let Some(node) = NodeId::new(number) {
        let _ = receive(rt, alloc, stop, station, ArrivalQueue::new(node, line));
    }
}

// The outcome of the burst, and the length of node 1's log at the end.
fn run_burst<K: HouseName + Send + Sync, L: HubName + Send + Sync, R>(
    rt: &R,
    alloc: Global,
    opened: Opened,
    blank: Blank,
    stations: &[Station],
    sender: &UdpLink,
) -> Option<((bool, usize), usize)>
where
    R: Threads + Wait + Clock + Sync + Net<Listener = TcpListener, Stream = TcpStream>,
    requires names { IsNamed opened K.book K.history K.base K.origin }
    requires name { blank.name ≡ L.name }
    requires parts { (blank.parts ≡ L.parts) × (L.parts ≡ 2) × (opened.group.size.n ≡ 2) }
    requires start { L.start ≡ 0 }
{
    let one = NodeId::new(1).unwrap();
    let two = NodeId::new(2).unwrap();
    let (Ok(link), Ok((line, jobs)), Some(station), Some(submits)) = (
        MemoryLink::new(rt, alloc),
        crossbeam_channel::bounded(alloc, ROOM),
        stations.first(),
        submits(rt, alloc),
    ) else {
        drop(opened.close());
        return None;
    };
    let (hub, mut tallies, readers) = open_hub::<K, L, R>(rt, alloc, opened, blank)?;
    drop(readers);
    let second = tallies.pop().unwrap();
    let store = MemStable::new(alloc);
    let second = serve(
        rt, alloc, &hub, two, store, submits, &link, &OpenGate, second,
    );
    let packets = link.empty(one);
    let tally = tallies.pop().unwrap();
    let (stop, signs) = (
        Stop::new(),
        Signs {
            is_held: AtomicBool::new(false),
            may_go_on: AtomicBool::new(false),
        },
    );
    let gate = Holds { rt, signs: &signs };
    let (hub_of, link_of, gate_of, signs_of, stop) = (&hub, &link, &gate, &signs, &stop);
    let packets = packets.as_slice();
    let (tally, ((), came)) = thread::join(
        rt,
        move || {
            let store = MemStable::new(alloc);
            serve(rt, alloc, hub_of, one, store, jobs, link_of, gate_of, tally)
        },
        move || {
            let line = &line;
            thread::join(
                rt,
                move || take_datagrams(rt, alloc, stop, 1, station, line),
                move || {
                    let sent = SentBurst {
                        sender,
                        stations,
                        packets,
                    };
                    let came = burst(rt, alloc, signs_of, &sent, line, link_of);
                    signs_of.may_go_on.store(true, Ordering::SeqCst);
                    stop.set();
                    station.wake(rt);
                    came
                },
            )
        },
    );
    tallies.push_reserved(second);
    tallies.push_reserved(tally);
    let (house, _) = hub.close(tallies);
    let delivered = match house.log(one) {
        Some(entries) => entries.len(),
        None => 0,
    };
    drop(house.close(rt));
    Some((came?, delivered))
}

#[test]
fn what_comes_while_a_store_is_held_is_delivered(rt: HostRuntime) -> Result<(), Fail> {
    let (stations, sender) = station(&rt, rt.alloc()).ok_or("sockets")?;
    let opened = open_group(rt.alloc(), 2).ok_or("memory")?;
    let blank = Blank::new(2);
    let played = run_burst::<Brand, Brand, _>(
        &rt,
        rt.alloc(),
        opened,
        blank,
        stations.as_slice(),
        &sender,
    );
    let all = BURST as usize;
    assert_eq!(rt; played, Some(((true, all + 1), all)));
    Ok(())
}
