//! Stubborn links: each timeout (tick) resends up to `NAMES_PER_TICK` pending messages that a node
//! may lack.
//!
//! The textbook (Cachin, Guerraoui and Rodrigues 2011) describes them in section 2.4.
//!
//! ```text
//! // after a store: one packet to every other node
//! let outbox = Outbox::of_pair(alloc, config, node, name, &message, certified, heard)?;
//! // before a message is added: space to note which nodes have certified it
//! resend.reserve(name)?;
//! // a packet said that the node has stored a certificate of the name
//! resend.hear(name, node);
//! // a timeout: the next names that are due, at most NAMES_PER_TICK
//! let outbox = resend.tick(alloc, &pending, &certified)?;
//! for packet in outbox.into_packets() { .. }
//! ```
//!
//! A node hears another node's certificate when a packet from that node reports it. A name is due
//! at a node until every other node has reported to it that it has certified the name. It is sent
//! only to the nodes that haven't reported. Once no name is due, a tick sends nothing. The crate
//! itself never sends: the caller sends an `Outbox`, or drops it.
#![tactic(auto)]

mod due;
mod outbox;
mod resend;

pub use outbox::{OUTBOX_MAX, Outbox};
pub use resend::Resend;
