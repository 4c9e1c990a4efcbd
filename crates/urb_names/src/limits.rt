//! The limits of every group. Clauses and definitions cite them by name, and other limits are
//! derived from them.

/// The greatest number of nodes in a group.
///
/// From it follow the greatest number of senders (`MAX_SENDERS`) and the greatest number of packets
/// that one call sends (`OUTBOX_MAX` of `urb_stubborn`). The greatest length of a log is
/// `MAX_NODES` times the cap. A mask has one bit for each node, and is one byte (`mask.rt` of
/// `urb_window`).
pub const MAX_NODES: u8 = 7;

/// The greatest number of senders. Each node is a sender.
///
/// A list with one place for each sender has this length. Such lists are the counts of certified
/// names (`urb_certified`), the rows of windows (`urb_window`) and the counts of settled names
/// (`urb_stubborn`).
pub const MAX_SENDERS: usize = MAX_NODES as usize;

/// The greatest cap. A cap is the number of messages that each node may broadcast.
///
/// So a group has at most `MAX_NODES` times as many names. A place in a log and a position in a
/// storage have four bytes, which must have room for that number.
pub const MAX_CAP: u32 = 1_000_000;

/// The greatest length of a payload, in bytes.
///
/// From it follow the greatest length of a packet (`MAX_PACKET`) and the room for a datagram
/// (`receiver.rt` of `urb_link`). So does the greatest length of a request (`LONGEST_REQUEST` of
/// `urb_client`).
pub const MAX_PAYLOAD: usize = 16_384;

/// The greatest length of a payload in a packet of version one (which has no flags field), in
/// bytes.
pub const MAX_PLAIN_PAYLOAD: usize = 1_024;

/// The greatest number of names that a tick resends.
///
/// From it follows the greatest number of packets that one call sends (`OUTBOX_MAX` of
/// `urb_stubborn`).
pub const NAMES_PER_TICK: u32 = 16;
