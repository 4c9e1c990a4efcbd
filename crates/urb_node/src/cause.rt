//! The packet that caused a draft.

ghost use Rattle.std.specs.Prelude.{◌≡◌};
ghost use Rattle.urb_names.specs.CarriedPackets.{says_certified};
ghost use Rattle.urb_node.specs.Part.{packet_from};
ghost use Rattle.urb_node.specs.Steps.{heard_of};

use crate::heard_certificates::says_certified;
use urb_names::{Flags, NodeId};

/// The packet that caused a draft.
#[derive(Clone, Copy, Debug)]
pub(crate) struct Cause {
    /// The node that sent it.
    pub(crate) source: NodeId,
    /// Whether it said that its source has stored a certificate of its name.
    pub(crate) certified: bool,
}

/// The cause recorded for a packet with this source and these flags.
pub(crate) fn cause_of(source: NodeId, flags: Option<Flags>) -> Cause
    ensures { result ≡ packet_from source (says_certified flags) }
{
    Cause {
        source,
        certified: says_certified(flags),
    }
}

/// The source of the packet that caused a draft, if that packet reported a certificate.
pub(crate) fn certified_source(cause: &Option<Cause>) -> Option<NodeId>
    ensures { result ≡ heard_of cause.now }
{
    match cause {
        Some(cause) => if cause.certified {
            Some(cause.source)
        } else {
            None
        },
        None => None,
    }
}
