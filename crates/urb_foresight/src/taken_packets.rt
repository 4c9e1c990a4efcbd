//! Whether a packet that waits at a node is one that the node would take now.

ghost use Rattle.std.specs.Prelude.{◌≡◌, ◌≤◌, true, is_some};
ghost use Rattle.std.specs.Bool.{MatchBool};
ghost use Rattle.std.specs.Option.{ForSome};
ghost use Rattle.urb_names.specs.Nodes.{is_majority, is_node};
ghost use Rattle.urb_world.specs.Step.{is_for};
ghost use Rattle.urb_foresight.specs.internal.ReachedWorlds.{InEach, InKept, has_certificate};
ghost use Rattle.urb_foresight.specs.internal.ReachedWorlds.{holders, holds, holds_once};
ghost use Rattle.urb_foresight.specs.internal.ReachedWorlds.{is_as_told, is_borne_out};

use std::alloc::Allocator;
use urb_group::{Group, Message, Name, NodeId, Record};
use urb_names::{PacketView, is_majority};

// Says whether a node of the group has stored this message under this name.
fn holds_message<A: Allocator + Copy>(
    group: &Group<A>,
    node: NodeId,
    name: Name,
    message: &Message<A>,
) -> bool
    ensures { InEach group.now (λ w. result ≡ holds w node name message.now) }
{
    match group.message(node, name) {
        Some(held) => held.is_same(message),
        None => false,
    }
}

// Returns 1 if it has, or else 0.
fn count_holder<A: Allocator + Copy>(
    group: &Group<A>,
    node: NodeId,
    name: Name,
    message: &Message<A>,
) -> u8
    requires { InEach group.now (λ w. is_node w.size.n node ≡ true) }
    ensures count { InEach group.now (λ w. result ≡ holds_once w node name message.now) }
    ensures most { result ≤ 1 }
{
    if holds_message(group, node, name, message) {
        return 1;
    }
    0
}

// Counts the nodes that have stored this message under this name.
fn count_holders<A: Allocator + Copy>(group: &Group<A>, name: Name, message: &Message<A>) -> u8
    ensures { InEach group.now (λ w. result ≡ holders w name message.now) }
{
    let mut count = 0;
    for number in 1..group.config().n() + 1 {
        count += count_holder(group, NodeId::new(number).unwrap(), name, message);
    }
    count
}

// Says whether a node has stored a certificate of a name, if it has stored the message. A majority
// holds each certified pair. So a certificate that may not follow for a pair that a majority holds
// is stored already.
fn has_certified<A: Allocator + Copy>(
    group: &Group<A>,
    node: NodeId,
    name: Name,
    message: &Message<A>,
) -> bool
    requires { InEach group.now (λ w. holds w node name message.now ≡ true) }
    ensures { InKept group.now (λ w. result ≡ has_certificate w node name) }
{
    if group.may_follow(node, &[Record::Cert(name)]) {
        return false;
    }
    is_majority(count_holders(group, name, message), group.config().n())
}

// Says whether a message is the one that a packet carries.
fn is_carried<A: Allocator>(message: &Message<A>, packet: &PacketView<'_>) -> bool
    ensures { MatchBool result (message.now ≡ packet.now.message)
        (¬ (message.now ≡ packet.now.message)) }
{
    message.client() == packet.client()
        && message.number() == packet.number()
        && message.payload() == packet.payload()
}

// Says whether a packet's source has stored a certificate of the packet's name, if the packet says
// so. The source has stored the message.
fn is_as_certified<A: Allocator + Copy>(
    group: &Group<A>,
    packet: &PacketView<'_>,
    message: &Message<A>,
) -> bool
    requires { InEach group.now
        (λ w. holds w packet.now.source packet.now.name message.now ≡ true) }
    ensures { InKept group.now (λ w. result ≡ is_as_told w packet.now) }
{
    match packet.flags() {
        Some(flags) => {
            !flags.certified || has_certified(group, packet.source(), packet.name(), message)
        }
        None => true,
    }
}

// Says whether the group has this node.
fn has_node<A: Allocator + Copy>(group: &Group<A>, node: NodeId) -> bool
    ensures { InEach group.now (λ w. result ≡ is_node w.size.n node) }
{
    group.state(node).is_some()
}

/// Says whether a packet names only nodes of the group, and is for this one. No event changes that.
pub(crate) fn is_meant_for<A: Allocator + Copy>(
    group: &Group<A>,
    node: NodeId,
    packet: &PacketView<'_>,
) -> bool
    ensures { InEach group.now (λ w. result ≡ is_for w node packet.now) }
{
    if packet.target() != node {
        return false;
    }
    if !has_node(group, packet.source()) {
        return false;
    }
    has_node(group, packet.name().sender)
}

/// Returns the message of a packet whose source has stored what the packet says. `None` if the
/// source hasn't, or isn't a node of the group.
pub(crate) fn find_taken<'g, A: Allocator + Copy>(
    group: &'g Group<A>,
    packet: &PacketView<'_>,
) -> Option<&'g Message<A>>
    ensures same { ForSome result (λ m. m.now ≡ packet.now.message) }
    ensures taken { InKept group.now (λ w. is_some result ≡ is_borne_out w packet.now) }
{
    let message = group.message(packet.source(), packet.name())?;
    if !is_carried(message, packet) {
        return None;
    }
    if !is_as_certified(group, packet, message) {
        return None;
    }
    Some(message)
}
