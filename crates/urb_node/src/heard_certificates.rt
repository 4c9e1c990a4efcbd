//! Recording what a node hears about other nodes' certificates.

ghost use Rattle.std.specs.Prelude.{◌≡◌, true, is_some};
ghost use Rattle.urb_names.specs.CarriedPackets.{says_certified};
ghost use Rattle.urb_names.specs.Names.{has_name};
ghost use Rattle.urb_names.specs.Pairs.{message_of};
ghost use Rattle.urb_node.specs.LayerFields.{memory_of};
ghost use Rattle.urb_node.specs.internal.HeldLayers.{IsHeld};
ghost use Rattle.urb_node.specs.internal.LayerAdditions.{heard_with};
ghost use Rattle.urb_node.specs.internal.Outcomes.{hearing};

use crate::held::Held;
use std::alloc::Allocator;
use urb_names::{Flags, Name, NodeId};
use urb_stubborn::Resend;

/// Whether a packet's flags say that its source has stored a certificate.
pub(crate) fn says_certified(flags: Option<Flags>) -> bool
    ensures { result ≡ says_certified flags }
{
    match flags {
        Some(flags) => flags.certified,
        None => false,
    }
}

/// Records the certificate of the node that reported one, if there is such a node.
pub(crate) fn hear<A: Allocator + Copy>(resend: &mut Resend<A>, name: Name, node: Option<NodeId>)
    requires { has_name resend.old.roomy name ≡ true }
    ensures { resend.new ≡ record resend.old { heard = heard_with resend.old.heard name node } }
{
    if let Some(node) = node {
        resend.hear(name, node);
    }
}

/// Records what a packet of a pending name says about its source's certificate.
pub(crate) fn hear_packet<A: Allocator + Copy>(
    held: &mut Held<A>,
    source: NodeId,
    name: Name,
    flags: Option<Flags>,
)
    requires kept { IsHeld held.old }
    requires pending { is_some (message_of held.old.pending.pairs name) ≡ true }
    ensures kept { IsHeld held.new }
    ensures memory { memory_of held.new ≡ hearing (memory_of held.old) source name flags }
    ensures rest { held.new ≡ record held.old { resend = held.new.resend } }
{
    if says_certified(flags) {
        held.resend.hear(name, source);
    }
}
