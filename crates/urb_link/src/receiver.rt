//! The receiver: a node's datagrams, handed to its worker.
//!
//! A worker's channel has room for few tickets, and the system has room for few datagrams. So while
//! the channel is full, the receiver keeps taking datagrams from its socket, and puts them into a
//! backlog.

ghost use Rattle.std.specs.Prelude.{◌≡◌, ◌⊎◌, ◌++◌, [], ◌∷◌, IfSome};

use crate::arrival_queue::Arrival;
use crate::stations::rest;
use crate::{ArrivalQueue, Backlog, Station, Stop, StopSeen};
use std::alloc::Global;
use std::io::ErrorKind;
use std::sync::Wait;
use std::time::Clock;
use urb_names::{MAX_PACKET, MAX_PAYLOAD};
use urb_show::HouseName;

/// The size of the buffer for a datagram. It is more than the longest packet, so a datagram that is
/// cut off was no packet.
pub(crate) const ROOM: usize = MAX_PAYLOAD + 256;

const _: () = prove!(MAX_PACKET < ROOM);

// The most datagrams that a receiver takes before it checks the stop and the channel again.
const ROUND: u32 = 256;

// Puts a datagram into the backlog, unless there is no room for it or no memory.
fn keep(alloc: Global, backlog: &mut Backlog, datagram: &[u8])
    ensures { (backlog.new ≡ backlog.old) ⊎ (backlog.new ≡ backlog.old ++ datagram.now ∷ []) }
{
    if let Ok(datagram) = Vec::from_slice(alloc, datagram) {
        let _ = backlog.push(datagram);
    }
}

// Moves datagrams from the socket into the backlog while there is room, up to a limit for each
// call. The socket must be non-blocking.
fn empty_socket(alloc: Global, station: &Station, room: &mut [u8; ROOM], backlog: &mut Backlog) {
    for _ in 0..ROUND {
        if !backlog.has_room(ROOM) {
            break;
        }
        let seen = station.in_flight.load();
        match station.udp.recv_from(room) {
            Ok((count, _)) => {
                station.in_flight.leave(count);
                keep(alloc, backlog, &room[..count]);
            }
            Err(error) => {
                if error.kind() == ErrorKind::WouldBlock {
                    station.in_flight.settle(seen);
                }
                break;
            }
        }
    }
}

// What the receiver of a node uses.
#[derive(Drop)]
struct NodeReceiver<'a, K: HouseName, R: Wait> {
    rt: &'a R,
    alloc: Global,
    stop: &'a Stop,
    station: &'a Station,
    queue: ArrivalQueue<'a, K>,
}

// Passes on the datagrams for which the channel had no room, and those that come meanwhile, until
// none is left or the stop is set.
fn catch_up<K: HouseName, R: Wait + Clock>(
    receiver: &NodeReceiver<'_, K, R>,
    room: &mut [u8; ROOM],
    refused: Option<Arrival>,
) {
    let (rt, alloc, queue) = (receiver.rt, receiver.alloc, &receiver.queue);
    let is_ready = receiver.station.udp.set_nonblocking(true).is_ok();
    let mut backlog = Backlog::new(alloc);
    let mut next = refused;
    for _ in rt.forever() {
        if is_ready {
            empty_socket(alloc, receiver.station, room, &mut backlog);
        }
        receiver.station.in_flight.keep(backlog.bytes() as u64);
        if receiver.stop.is_set() {
            break;
        }
        next = match next {
            Some(arrival) => queue.offer_again(rt, arrival).into_arrival(),
            None => match queue.offer_first(rt, &mut backlog) {
                Some(offered) => offered.into_arrival(),
                None => None,
            },
        };
        if next.is_none() && backlog.is_empty() {
            break;
        }
    }
    receiver.station.in_flight.keep(0);
    let _ = receiver.station.udp.set_nonblocking(false);
}

// Passes on a datagram that has come. Its arrival is returned if the channel is full. Without memory
// the datagram is lost.
fn hand_on<K: HouseName, R: Wait>(
    receiver: &NodeReceiver<'_, K, R>,
    datagram: &[u8],
) -> Option<Arrival>
    ensures { IfSome result (λ back. back ≡ datagram.now) }
{
    let (rt, alloc, spares) = (receiver.rt, receiver.alloc, &receiver.station.spares);
    match receiver.queue.hand_on(rt, alloc, spares, datagram) {
        Ok(offered) => offered.into_arrival(),
        Err(_) => None,
    }
}

/// Hands the datagrams of a node's station to its worker, the oldest first, until the stop is set.
/// It checks the stop after each datagram, so an empty datagram wakes it.
///
/// While the channel is full, it keeps new datagrams in a `Backlog`, says how much that holds
/// (`InFlight::keep`), and checks the stop five times a millisecond. Once the backlog is full,
/// datagrams stay in the socket. Datagrams that still wait when the stop is set are dropped. A
/// datagram is lost if memory for it is refused. After an error of the socket, the receiver rests
/// for 10 milliseconds and goes on. While the worker has many tickets, it naps between datagrams.
pub fn receive<'s, K: HouseName, R: Wait + Clock>(
    rt: &R,
    alloc: Global,
    stop: &'s Stop,
    station: &Station,
    queue: ArrivalQueue<'_, K>,
) -> StopSeen<'s> {
    let receiver = NodeReceiver {
        rt,
        alloc,
        stop,
        station,
        queue,
    };
    let mut room = [0u8; ROOM];
    for _ in rt.forever() {
        let received = station.udp.recv_from(&mut room);
        if let Some(seen) = stop.seen() {
            station.in_flight.give_up();
            return seen;
        }
        let refused = match received {
            Ok((count, _)) => {
                station.in_flight.leave(count);
                hand_on(&receiver, &room[..count])
            }
            Err(_) => {
                rest(rt);
                None
            }
        };
        if refused.is_some() || station.in_flight.is_crowded() {
            catch_up(&receiver, &mut room, refused);
        } else {
            receiver.queue.nap_if_busy(rt);
        }
        if let Some(seen) = stop.seen() {
            station.in_flight.give_up();
            return seen;
        }
    }
    unreachable!()
}
