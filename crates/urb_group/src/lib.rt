//! All nodes of a group in one process.
//!
//! The crate has the group itself, the group with its stores, laws of groups, and worked examples.
//! A *world* is the algorithm's own state: every node's storage and memory, and every packet that
//! was ever sent. `urb_world` has worlds, runs, and the laws of all runs.
//!
//! ```text
//! let mut group = Group::new(alloc, config)?;            // or Group::open(alloc, config, images)
//! let taken = group.submit(alloc, node, client, number, payload)?;
//! let done = group.commit(receipt)?;                     // or group.fail(doubt)
//! let may = group.may_follow(node, &records);            // may a store keep these ahead?
//! group.recall();                                        // states what holds of every group
//!
//! let mut cluster = Cluster::new(alloc, config, stores)?;  // a group with a store for each node
//! let reply = cluster.apply(alloc, &command);            // one event, with the node's store
//! let cluster = Cluster::open(alloc, config, stores)?;   // after a stop: the cluster goes on
//! ```
//!
//! Each call is one step of every world that the group shows (`specs/GroupViews.antt`), or is
//! refused and changes nothing. `play` carries the headline theorem. `laws` has the theorems about
//! all sound groups, `delivering` those about what nodes have delivered. `fairness` says that two
//! lists of commands that are rounds deliver.
//! No call here waits, sends, or reads a clock.
#![tactic(auto)]

mod cluster;
mod command;
mod command_list;
pub mod delivering;
pub mod fairness;
mod group;
mod held_drafts;
pub mod laws;
mod node_moves;
mod opening;
mod packet_arrival;
mod queries;
mod recall;
mod reopening;
mod reply;
mod shared_payloads;
mod state;
mod stores;
mod tail_records;
mod tail_rules;
mod taken;
pub mod worked;

pub use cluster::Cluster;
pub use command::Command;
pub use command_list::play;
pub use group::Group;
pub use reply::Reply;
pub use state::State;
pub use taken::Taken;
pub use urb_names::{
    ClientId, Config, Message, Name, NoMemory, NodeId, PacketFault, Payload, Refusal, Rule,
};
pub use urb_node::{Answer, Done};
pub use urb_stable::{Doubt, Draft, Failure, MemStable, Receipt, Record, Stable, StoreFault};
pub use urb_stubborn::Outbox;
