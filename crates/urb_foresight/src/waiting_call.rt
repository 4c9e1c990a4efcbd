//! The calls that wait at a node.

use std::alloc::{Allocator, Global};
use urb_names::{ClientId, Payload};

/// A call that waits at a node, as `Group` takes it.
#[derive(Drop)]
pub enum WaitingCall<'c, A: Allocator = Global> {
    /// A client sends a message to the node (`Group::submit`).
    Submit {
        client: ClientId,
        number: u32,
        payload: &'c Payload<A>,
    },
    /// Bytes arrive at the node (`Group::arrive`). Any bytes may come.
    Arrive {
        bytes: &'c [u8],
    },
}
