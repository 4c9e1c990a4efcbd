//! Workers: a node's jobs, one after the other, and a group that runs.
//!
//! Each node has one worker, which owns the node's store. The worker takes tickets from its channel,
//! and does each job in a turn on the House (`urb_turn`). Then it gives the answer. What a turn
//! sends or changes goes out through the worker's `WorkerOutlets`, over a link (`urb_link`). Between
//! tickets a worker has jobs of its own: it feeds its node what the node's log lacks, and it ticks
//! early. Sessions of clients put their tickets into the same channel (`urb_desk`). No lock is held
//! while a store works, a packet is sent or an answer is given.
//!
//! How the calls go together, in a function that is generic over the names of the House and of the
//! Hub, `K` and `L`:
//!
//! ```text
//! let (hub, tallies) = Hub::<K, L>::new(alloc, house, blank)?;   // a tally for each node
//! let (queues, jobs) = open_channels(alloc, nodes, 64)?;          // a channel for each node
//! // on threads of their own:
//! let setting = WorkerSetting::new(rt, alloc, &hub, &link, &OpenGate, &Silent);
//! let mut outlets = setting.outlets_for_worker();
//! let (tally, _) = serve_from(&setting, node, &mut store, &mut outlets, jobs, tally); // to the end
//! // at the end: set the stop, wake the receivers, drop the queues, join all
//! let (house, is_known) = hub.close(tallies);
//! ```
//!
//! A queue is the sending end of a worker's channel. `run_group` does all of this for a group that
//! was opened: it starts the threads, and ends them when its `Watch` returns. Workers run in an
//! outer scope. The listeners, which send them tickets, run in an inner scope, which owns the
//! queues. When the inner scope ends, the queues are dropped. So the workers end, and return their
//! stores and tallies.
//!
//! No proof says that a thread runs, that a message comes or that a wait ends: tests show it. A
//! worker waits for tickets and for the lock. The lock's holder waits for readers that are in the
//! middle of a read, and these wait for nobody.
#![tactic(auto)]

mod accepting;
mod acts;
mod feeding;
mod group_room;
mod job_results;
mod listeners;
mod looks;
mod node_listeners;
mod outlets;
mod own_jobs;
mod polling;
mod pulse;
mod receiving;
mod ringing;
mod ticket_batch;
mod tickets;
pub mod worked;
mod worker_group;
mod worker_loop;
mod worker_setting;
mod worker_threads;

pub use listeners::Watch;
pub use outlets::WorkerOutlets;
pub use pulse::{EARLY_TICKS, LEAST_PAUSE};
pub use tickets::Closed;
pub use worker_group::{GroupSetting, run_group};
pub use worker_loop::{serve, serve_from};
pub use worker_setting::WorkerSetting;
