//! Desks: how a node's clients are answered.
//!
//! A `NodeDesk` answers the requests of one session. It does reads itself, from the published lists,
//! and puts every other request into the queue of the node's worker. A `ClientDesk` is the same for
//! a client that may not crash its node. An acceptor starts a session for each client that connects,
//! as long as there is a place for it.
//!
//! ```text
//! let service = NodeService { queue, places, readers, bell, throttle, stop };
//! let desk = NodeDesk::new(rt, alloc, node, service, position);   // for a client's session
//! accept_clients(scope, rt, acceptor, desk);                      // on a thread of its own
//! // at the end: set the stop, and end the inputs of all connections
//! ```
//!
//! A `NodeService` is what the sessions of a node share: the queue of its worker, the readers that
//! they borrow, the bell that wakes those that wait for an entry. A session has a `ReadPosition`
//! and a thread of its own.
//!
//! A desk never touches a House or a store: the worker at the other end of its queue does.
#![tactic(auto)]

mod acceptor;
mod client_desk;
mod client_input;
mod connections;
mod desk;
pub mod desk_laws;
mod desk_queue;
mod frame_progress;
mod house_gone;
mod lost;
mod next_submits;
mod node_service;
mod reader_pool;
mod responses;
mod shared_input;
mod stray_turn;
mod ticket_places;
pub mod worked;
mod worker_gone;

pub use acceptor::{Acceptor, Refusals, accept_clients};
pub use client_desk::ClientDesk;
pub use connections::{
    ClientLimits, Connections, FRAME_MILLIS, IDLE_MILLIS, IDLE_MINUTES, LEAST_CONNECTIONS,
    MOST_CONNECTIONS,
};
pub use desk::NodeDesk;
pub use node_service::NodeService;
pub use reader_pool::ReaderPool;
pub use shared_input::{SharedInput, SharedReader};
pub use ticket_places::{SESSION_TICKETS, TakenPlaces, TicketPlaces, count_places};
