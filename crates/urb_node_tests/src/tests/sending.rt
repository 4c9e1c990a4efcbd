//! What a node under test sends.

use super::*;
use crate::tests::rows::Sent;
use crate::tests::states::{AnyNode, Went, went};
use urb_names::{NoMemory, Packet};
use urb_stubborn::Outbox;

// Whether a packet carries client 7's message with this number and payload, and its name has the
// same number.
fn carries<A: Allocator + Copy>(packet: &Packet<A>, seq: u32, payload: &[u8]) -> bool {
    let message = packet.message();
    packet.name().seq == seq
        && message.client().number() == 7
        && message.number() == seq
        && message.payload() == payload
}

// Whether a packet comes from this node, carries a message of this sender, and is the expected one.
fn is_sent<A: Allocator + Copy>(
    packet: &Packet<A>,
    source: NodeId,
    sender: NodeId,
    (target, seq, flags): &Sent,
    payload: &[u8],
) -> bool {
    packet.source() == source
        && packet.target().number() == *target
        && packet.name().sender == sender
        && packet.flags() == Some(*flags)
        && carries(packet, *seq, payload)
}

/// Whether the packets come from this node, carry messages of this sender, and are exactly the
/// expected ones in order.
pub(super) fn are_sent<A: Allocator + Copy>(
    packets: &Outbox<A>,
    source: NodeId,
    sender: NodeId,
    expected: &[Sent],
    payload: &[u8],
) -> bool {
    for (index, one) in expected.iter().enumerate() {
        match packets.get(index) {
            Some(packet) => {
                if !is_sent(packet, source, sender, one, payload) {
                    return false;
                }
            }
            None => return false,
        }
    }
    packets.len() == expected.len()
}

// Whether a tick sends these packets.
fn ticks<A: Allocator + Copy>(
    sent: &Result<Outbox<A>, NoMemory>,
    source: NodeId,
    sender: NodeId,
    expected: &[Sent],
    payload: &[u8],
) -> Option<bool> {
    match sent {
        Ok(packets) => went(are_sent(packets, source, sender, expected, payload)),
        Err(_) => Some(false),
    }
}

/// Performs a tick and checks what it sends.
pub(super) fn tick<A: Allocator + Copy>(
    state: AnyNode<A>,
    heap: A,
    sender: NodeId,
    expected: &[Sent],
    payload: &[u8],
) -> Went<A> {
    match state {
        AnyNode::Ready(ready) => {
            let (node, _config) = ready.place();
            let (ready, sent) = ready.tick(heap);
            let told = ticks(&sent, node, sender, expected, payload);
            drop(sent);
            (AnyNode::Ready(ready), told)
        }
        other => (other, None),
    }
}

// Whether a tick sends the given number of packets.
fn sends<A: Allocator + Copy>(sent: &Result<Outbox<A>, NoMemory>, count: usize) -> Option<bool> {
    match sent {
        Ok(packets) => went(packets.len() == count),
        Err(_) => Some(false),
    }
}

/// Performs a tick and checks how many packets it sends.
pub(super) fn send<A: Allocator + Copy>(state: AnyNode<A>, heap: A, count: usize) -> Went<A> {
    match state {
        AnyNode::Ready(ready) => {
            let (ready, sent) = ready.tick(heap);
            let told = sends(&sent, count);
            drop(sent);
            (AnyNode::Ready(ready), told)
        }
        other => (other, None),
    }
}
