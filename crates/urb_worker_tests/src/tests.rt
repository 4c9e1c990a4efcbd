//! Facts that no contract states.
//!
//! They are the reply of a turn, stores that overlap, and workers over channels and links.

ghost use Rattle.std.specs.Prelude.{◌≡◌, ◌*◌, IfSome, length, vec_len};
ghost use Rattle.urb_show.specs.Houses.{IsNamed};

use crossbeam_channel::Sender;
use std::alloc::Global;
use std::sync::Wait;
use std::sync::ledger::Blank;
use urb_desk::{NodeService, ReaderPool, TicketPlaces};
use urb_group::Group;
use urb_link::{Bell, InFlight, Stop, Throttle, Ticket};
use urb_names::{ClientId, Config, NodeId, Payload};
use urb_show::{House, HouseName, LogReader, Opened, ReadPosition};
use urb_turn::{Hub, HubName, Job, Tally};

mod batches;
mod bursts;
mod cut_feeds;
mod desks;
mod drafts;
mod earlier;
mod feeds;
mod flights;
mod gates;
mod groups;
mod hearing;
mod limits;
mod next_submits;
mod own_jobs;
mod pacing;
mod places;
mod receivers;
mod refusals;
mod reports;
mod sevens;
mod shorts;
mod sockets;
mod spares;
mod stations;
mod steps;
mod strays;
mod throttles;
mod time_limits;
mod timers;
mod turns;

// A new group with the given number of nodes, opened.
fn open_group(alloc: Global, nodes: u8) -> Option<Opened>
    ensures { IfSome result (λ it. it.group.size.n ≡ nodes) }
{
    let config = Config::new(nodes, 100)?;
    let group = Group::new(alloc, config).ok()?;
    House::open(group).ok()
}

// The Hub of the opened group, with its tallies and its readers.
fn open_hub<K: HouseName, L: HubName, R: Wait>(
    rt: &R,
    alloc: Global,
    opened: Opened,
    blank: Blank,
) -> Option<(Hub<K, L>, Vec<Tally<K, L>>, Vec<LogReader<K>>)>
    requires names { IsNamed opened K.book K.history K.base K.origin }
    requires name { blank.name ≡ L.name }
    requires parts { (blank.parts ≡ L.parts) × (L.parts ≡ opened.group.size.n) }
    requires start { L.start ≡ 0 }
    ensures tallies { IfSome result (λ it. vec_len it.1 ≡ L.parts) }
    ensures readers { IfSome result (λ it. length it.2.items ≡ 4 * L.parts) }
    ensures nodes { IfSome result (λ it. L.parts ≡ length K.base) }
{
    let (house, readers) = match opened.parts::<K, R>(rt, alloc) {
        Ok(parts) => parts,
        Err((opened, _)) => {
            drop(opened.close());
            return None;
        }
    };
    house.recall();
    match Hub::new(alloc, house, blank) {
        Ok((hub, tallies)) => Some((hub, tallies, readers)),
        Err((house, _)) => {
            drop(house.close(rt));
            None
        }
    }
}

// What the desks of one node's tests share, besides the queue: a pool of one reader.
#[derive(Drop)]
struct Hall<K: HouseName> {
    places: TicketPlaces,
    readers: ReaderPool<K>,
    bell: Bell,
    in_flight: InFlight,
    stop: Stop,
}

// A hall with this reader, and the position at which sessions there begin.
fn open_hall<K: HouseName>(
    alloc: Global,
    reader: LogReader<K>,
) -> Option<(Hall<K>, ReadPosition<K>)> {
    let position = ReadPosition::at(&reader);
    let mut readers = Vec::new(alloc);
    readers.push(reader).ok()?;
    let hall = Hall {
        places: TicketPlaces::new(1),
        readers: ReaderPool::new(alloc, readers).ok()?,
        bell: Bell::new(),
        in_flight: InFlight::new(),
        stop: Stop::new(),
    };
    Some((hall, position))
}

// What the desks at this queue share.
fn service_of<'a, K: HouseName>(
    queue: &'a Sender<Ticket<K>>,
    hall: &'a Hall<K>,
) -> NodeService<'a, K> {
    NodeService {
        queue,
        places: &hall.places,
        readers: &hall.readers,
        bell: &hall.bell,
        throttle: Throttle::new(&hall.in_flight, &[]),
        stop: &hall.stop,
    }
}

// A submit of client 7 at a node, with an empty payload.
fn submit(alloc: Global, node: NodeId, number: u32) -> Option<Job> {
    Some(Job::Submit {
        node,
        client: ClientId::new(7)?,
        number,
        payload: Payload::copied(alloc, &[]).ok()?,
    })
}
