//! Packets that may arrive at a node under test.

ghost use Rattle.std.specs.Prelude.{◌≡◌, IfSome, IsTrue};
ghost use Rattle.urb_node.specs.CallEffects.{IsForNode};
ghost use Rattle.urb_node.specs.RecordAdmission.{MayArrive};

use crate::tests::states::AnyNode;
use std::alloc::Allocator;
use urb_names::{
    Flags, MAX_PLAIN_PAYLOAD, Message, Name, NodeId, Packet, PacketView, encode, parse,
};
use urb_node::Ready;

// Whether a packet carries this message.
fn is_of<A: Allocator + Copy>(packet: &PacketView<'_>, sent: &Message<A>) -> bool
    ensures { IsTrue result → packet.now.message ≡ sent.now }
{
    packet.client() == sent.client()
        && packet.number() == sent.number()
        && packet.payload() == sent.payload()
}

// Whether a message may arrive at a node under this name. If the node has a message under the name,
// it must be this one. If the name is the node's own, the node must have it.
fn may_come<A: Allocator + Copy>(ready: &Ready<A>, named: Name, sent: &Message<A>) -> bool
    ensures { IsTrue result
        → MayArrive ready.now.limits ready.now.node ready.now.pairs named sent.now }
{
    let (node, config) = ready.place();
    if named.sender.number() > config.n() || named.seq > config.cap() {
        return false;
    }
    if named.sender == node && !ready.holds(&named, sent) {
        return false;
    }
    match ready.message(named) {
        None => true,
        Some(there) => there.is_same(sent),
    }
}

// Whether a packet that carries this message may arrive at the node.
fn is_for<A: Allocator + Copy>(ready: &Ready<A>, packet: &PacketView<'_>, sent: &Message<A>) -> bool
    ensures { IsTrue result → IsForNode ready.now packet.now }
{
    let (node, config) = ready.place();
    packet.target() == node
        && packet.source().number() <= config.n()
        && is_of(packet, sent)
        && may_come(ready, packet.name(), sent)
}

/// The packet that these bytes encode, if it carries this message and may arrive at the node.
pub(super) fn packet_for<'b, A: Allocator + Copy>(
    ready: &Ready<A>,
    bytes: &'b [u8],
    sent: &Message<A>,
) -> Option<PacketView<'b>>
    ensures { IfSome result (λ packet. IsForNode ready.now packet) }
{
    match parse(bytes) {
        Ok(packet) if is_for(ready, &packet, sent) => Some(packet),
        _ => None,
    }
}

// The bytes of a packet that carries this message. It is of version two if flags are given.
fn bytes_of<A: Allocator + Copy>(
    calm: A,
    (source, target): (NodeId, NodeId),
    named: Name,
    sent: &Message<A>,
    flags: Option<Flags>,
) -> Option<Vec<u8, A>> {
    if source == target || flags.is_none() && MAX_PLAIN_PAYLOAD < sent.payload().len() {
        return None;
    }
    let message = sent.share(calm).ok()?;
    let packet = Packet::new(source, target, named, message, flags);
    let bytes = encode(calm, &packet);
    drop(packet);
    bytes.ok()
}

/// The bytes of a packet that carries this message to a ready node. It is of version two if flags
/// are given.
pub(super) fn letter<A: Allocator + Copy>(
    state: &AnyNode<A>,
    calm: A,
    (source, flags): (u8, Option<Flags>),
    named: Name,
    sent: &Message<A>,
) -> Option<Vec<u8, A>> {
    match (state, NodeId::new(source)) {
        (AnyNode::Ready(ready), Some(source)) => {
            let (target, _config) = ready.place();
            bytes_of(calm, (source, target), named, sent, flags)
        }
        _ => None,
    }
}
