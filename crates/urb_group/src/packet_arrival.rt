//! The arrival of a packet at a group.

ghost use Rattle.std.specs.Prelude.{◌≡◌, false, is_some, MatchOption};
ghost use Rattle.std.specs.Bool.{MatchBool};
ghost use Rattle.std.specs.Option.{ForSome};
ghost use Rattle.urb_names.specs.PacketGrammar.{packet_of};
ghost use Rattle.urb_group.specs.GroupCalls.{Takes};
ghost use Rattle.urb_group.specs.internal.PlaceCalls.{ArrivesAt, MayReach};
ghost use Rattle.urb_group.specs.internal.PacketTargets.{AreEnds, HoldsPair, IsAsCertified, TellsTruth};
ghost use Rattle.urb_group.specs.internal.PacketTargets.{is_for_node};
ghost use Rattle.urb_world.specs.Step.{Arrive};

use crate::node_moves::{Node, move_node, node_after, place_of};
use crate::{Group, Taken};
use std::alloc::Allocator;
use urb_names::{Config, Message, NodeId, PacketView, Refusal, parse};

// Returns the places of a packet's source and of the node that it is for. `None` if the packet is
// for another node, or names a node that the group doesn't have.
fn ends_of(config: Config, node: NodeId, packet: &PacketView<'_>) -> Option<(usize, usize)>
    ensures { MatchOption result (is_for_node config.n node packet.now ≡ false)
        (λ ends. AreEnds config.n node packet.now ends) }
{
    if packet.target() != node {
        return None;
    }
    place_of(config, packet.name().sender)?;
    let source = place_of(config, packet.source())?;
    let at = place_of(config, node)?;
    Some((source, at))
}

// Says whether a message is the one that a packet carries.
fn is_carried<A: Allocator>(message: &Message<A>, packet: &PacketView<'_>) -> bool
    ensures { MatchBool result (message.now ≡ packet.now.message)
        (¬ (message.now ≡ packet.now.message)) }
{
    message.client() == packet.client()
        && message.number() == packet.number()
        && message.payload() == packet.payload()
}

// Returns the message that a node has stored under a packet's name, if the packet carries the same.
fn find_carried<'n, A: Allocator + Copy>(
    node: &'n Node<A>,
    packet: &PacketView<'_>,
) -> Option<&'n Message<A>>
    ensures same { ForSome result (λ m. m.now ≡ packet.now.message) }
    ensures held { HoldsPair node.now packet.now (is_some result) }
{
    let message = node.message(packet.name())?;
    if !is_carried(message, packet) {
        return None;
    }
    Some(message)
}

// Says whether a node has stored a certificate of a packet's name, if the packet claims one.
fn is_as_certified<A: Allocator + Copy>(node: &Node<A>, packet: &PacketView<'_>) -> bool
    ensures { IsAsCertified node.now packet.now result }
{
    match packet.flags() {
        Some(flags) => !flags.certified || node.certified(packet.name()),
        None => true,
    }
}

// Says whether a node's storage confirms what a packet claims. Also returns the packet's message,
// sharing the payload that the node has stored, if the node has stored it and sharing works.
fn confirm_packet<A: Allocator + Copy>(
    alloc: A,
    node: &Node<A>,
    packet: &PacketView<'_>,
) -> (bool, Option<Message<A>>)
    ensures truth { TellsTruth node.now packet.now result.0 }
    ensures known { ForSome result.1 (λ m. m ≡ packet.now.message) }
{
    let Some(message) = find_carried(node, packet) else {
        return (false, None);
    };
    (is_as_certified(node, packet), message.share(alloc).ok())
}

impl<A: Allocator + Copy> Group<A> {
    /// Delivers bytes to a node, as a datagram brings them, from anywhere. The node takes a packet
    /// only if it is for this node and its source has stored the message. A packet that claims a
    /// certificate is taken only if its source has stored that certificate.
    ///
    /// `Packet`: the bytes are no packet. `BadNode`: the packet names a node that the group doesn't
    /// have, or is for another node. `Down`, `Busy`: the node takes no packet now; a later tick may
    /// send it again. `Forged`: the source has not stored the message, or not the certificate that
    /// the packet claims. `NoMemory`: the packet is lost; a later tick may send it again.
    pub fn arrive(&mut self, alloc: A, node: NodeId, bytes: &[u8]) -> Result<Taken<A>, Refusal>
        ensures { Takes self.old node (Arrive node (packet_of bytes.now)) result self.new }
    {
        let packet = parse(bytes)?;
        let Some((source, at)) = ends_of(self.config, node, &packet) else {
            return Err(Refusal::BadNode);
        };
        let (is_truthful, known) = confirm_packet(alloc, &self.nodes[source], &packet);
        move_node(
            &mut self.nodes,
            at,
            |current|
                requires { MayReach current packet is_truthful
                    × ForSome known (λ m. m ≡ packet.message) }
                ensures { ArrivesAt current packet.entry is_truthful result }
            {
                match current {
                    Node::Ready(ready) => {
                        if !is_truthful {
                            return (Node::Ready(ready), Err(Refusal::Forged));
                        }
                        node_after(ready.arrive(alloc, packet, known))
                    }
                    Node::Storing(storing) => (Node::Storing(storing), Err(Refusal::Busy)),
                    Node::Down(down) => (Node::Down(down), Err(Refusal::Down)),
                }
            },
        )
    }
}
