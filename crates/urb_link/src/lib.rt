//! Links: what brings jobs to a node's worker, and what takes its packets away.
//!
//! A `Station` has a node's sockets. A `Link` gives a packet to the socket, and its result says what
//! it did (`Handed`). A receiver (`receive`) takes the datagrams of a station. It hands them to the
//! node's worker through an `ArrivalQueue`, and keeps them in a `Backlog` while the worker's channel
//! is full. A timer sends ticks through `TickQueues`. Each job goes in a `Ticket`.
//!
//! ```text
//! let station = Station::open(rt, udp_port, tcp_port)?;
//! let (queues, jobs) = open_channels(alloc, nodes, 64)?;          // a channel for each node
//! // on threads of their own:
//! receive(rt, alloc, &stop, &station, queues[place].arrivals());  // a node's datagrams
//! timer(rt, &stop, 100, TickQueues::of(&queues)?);                // a tick at each node each 100 ms
//! // at the end: set the stop, and wake the receivers
//! stop.set();
//! station.wake(rt);
//! ```
//!
//! Nothing here touches a House. No proof says that a message comes or that a wait ends: tests show
//! it.
#![tactic(auto)]

mod arrival_queue;
mod backlog;
mod bell;
mod door;
mod handed;
mod in_flight;
mod links;
mod node_queue;
mod offers;
mod receiver;
mod spares;
mod stations;
mod stop;
mod throttle;
mod tick_queue;
mod tick_timer;
mod ticket;
pub mod worked;

pub use arrival_queue::ArrivalQueue;
pub use backlog::{BACKLOG, Backlog, KEEPING};
pub use bell::{Bell, pass_rings};
pub use door::Door;
pub use handed::Handed;
pub use in_flight::{CARRYING, FULL_BACKLOG, InFlight, LONG_BACKLOG, MOST_IN_FLIGHT};
pub use links::{Link, MemoryLink, PacedLink, UdpLink};
pub use node_queue::{NodeJobs, NodeQueue, open_channels};
pub use receiver::receive;
pub use spares::{SPARES, Spares};
pub use stations::{Station, rest};
pub use stop::{Stop, StopSeen};
pub use throttle::Throttle;
pub use tick_queue::TickQueues;
pub use tick_timer::{Ticking, start_timer, timer};
pub use ticket::Ticket;
