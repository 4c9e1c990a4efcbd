//! What a node's log lacks, from whom the node can have it, and the packets that bring it.
//!
//! After a stop of the whole process, or after a restart of a node, some logs are shorter than
//! others. Ticks would mend that in time, but a tick offers only sixteen names, and most of these
//! lack nowhere. A feed makes just the packets that are needed. For each name that a node's log
//! lacks, there is one packet from each other node that has stored the message.
//!
//! ```text
//! let mut feed = Feed::begin(&group, target);            // for one node
//! while !feed.is_done() {
//!     for packet in feed.next_portion(alloc, &group)? {  // a bounded number of packets
//!         // let the packet arrive at the target
//!     }
//! }
//! ```
//!
//! The group may change between two portions. Each portion is exact for the group that it is made
//! of. One feed of each node is enough: a name's sender has stored it, and each node that stores a
//! fed message sends it to all others. No portion copies a payload. A feed never changes a group,
//! never waits, and claims no certificate: an arrival may come at any time, so the laws of
//! `urb_world` hold of a fed group too.
#![tactic(auto)]

mod delivered;
mod feed;
mod offers;

pub use feed::{Feed, MOST_PACKETS, PORTION};
