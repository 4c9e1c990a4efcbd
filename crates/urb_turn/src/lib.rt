//! Turns: one job of a node, done on a House that threads share.
//!
//! Each node has one worker, which owns the node's store. The worker does the node's jobs in turns.
//! A turn is an event of the House, then the store's part, then an event of the House with the
//! store's result. The House is under the lock of a `Hub`. A worker holds the lock for the two
//! events. It never holds it while a store works. So the stores of several nodes work at the same
//! time. Each worker has a `Tally`: the number of its events, and when it gave the House back last.
//! Once all tallies are returned, the Hub returns a House that has counted exactly these events.
//!
//! A store may hold several records ahead of their jobs. `Hub::keep_ahead` foresees what waiting
//! calls will draft. If those are two records or more, it has the store keep just them by one call.
//!
//! How the calls go together, in a function that is generic over the names of the House and of the
//! Hub, `K` and `L`:
//!
//! ```text
//! let (hub, tallies) = Hub::<K, L>::new(alloc, house, blank)?;   // a tally for each node
//! // on the thread of a node's worker:
//! let finished = hub.work(rt, alloc, node, job, &mut store, &mut tally, &OpenGate);
//! let change = change_of(&finished);                              // for operators
//! // at the end, with all tallies:
//! let (house, is_known) = hub.close(tallies);
//! ```
//!
//! This crate sends no packet, answers no client and starts no thread: the crates above do.
#![tactic(auto)]

mod change;
mod counting;
mod handled_datagram;
mod hub;
mod job;
pub mod laws;
mod loans;
mod settling;
mod turn;
mod turn_stages;
pub mod worked;

pub use change::{Change, Reporter, Silent, change_of};
pub use counting::tally::{HubName, Tally};
pub use handled_datagram::HandledDatagram;
pub use hub::{Gate, Hub, LEAST_AHEAD, OpenGate};
pub use job::Job;
pub use loans::copy_moment;
pub use settling::{Settling, Unsettled};
pub use turn::{Finished, Turn};
