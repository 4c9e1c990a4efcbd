//! Names, messages and refusals of a group of nodes, and the packets that nodes send each other.
//!
//! A name is a sender and a number: node 2's third broadcast is 2.3. A message is what a client
//! submits: its client, that client's number for it, and a payload. The types keep all of them
//! within their limits, so no layer above checks them again.
//!
//! ```text
//! let config = Config::new(3, 1000)?;                    // three nodes, each with up to a thousand messages
//! let message = Message::copy_of(alloc, client, 1, b"hi")?;
//! let flags = Flags { certified: true, heard: false };  // without flags: version one, at most 1,024 bytes of payload
//! let packet = Packet::new(source, target, name, message, Some(flags));
//! let bytes = encode(alloc, &packet)?;                   // its only encoding
//! let view = parse(&bytes)?;                             // read without a copy; an error is the first fault
//! ```
//!
//! `parse` allocates no memory, so hostile bytes cost none. This crate knows nothing about the
//! state of nodes: a packet that it reads may name a node that the group doesn't have.
#![tactic(auto)]

mod client;
mod config;
mod flags;
mod limits;
mod message;
mod name;
mod node;
mod packet;
mod packet_view;
mod payload;
mod refusal;
mod spelling;

pub use client::ClientId;
pub use config::{Config, is_majority};
pub use flags::Flags;
pub use limits::{MAX_CAP, MAX_NODES, MAX_PAYLOAD, MAX_PLAIN_PAYLOAD, MAX_SENDERS, NAMES_PER_TICK};
pub use message::Message;
pub use name::Name;
pub use node::NodeId;
pub use packet::Packet;
pub use packet_view::PacketView;
pub use payload::Payload;
pub use refusal::{NoMemory, PacketFault, Refusal, Rule};
pub use spelling::{MAX_PACKET, decode, encode, encode_into, parse};
