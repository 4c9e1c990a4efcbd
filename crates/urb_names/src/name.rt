//! Names of messages, and their order.
ghost use Rattle.std.specs.Prelude.{◌≡◌};
ghost use Rattle.urb_names.specs.LabelsAndContents.{IsLabel};
ghost use Rattle.urb_names.specs.Names.{name_lt};

use crate::NodeId;
use std::marker::Model;

/// A message's name: the node that broadcasts it, and its number among that sender's messages, which
/// are numbered 1, 2, 3, .. No two messages of a group have the same name. Names are ordered by
/// sender, then by number.
#[derive(Clone, Copy, Debug, PartialEq, Eq, PartialOrd, Ord)]
pub struct Name {
    /// The node that broadcasts it.
    pub sender: NodeId,
    /// Its number among this sender's messages: 1, 2, 3, ..
    pub seq: u32,
}

impl Model for Name {
    ghost use Rattle.std.specs.Prelude.{◌<◌};
    ghost use Rattle.urb_names.specs.LabelsAndContents.{Label};

    ghost Value = { Label };

    ghost view = { λ a. record { sender = a.sender; seq = a.seq } };

    ghost invariant = { λ a. 0 < a.seq };

    ghost inverse = { λ v. record { sender = v.sender; seq = v.seq } };
}

impl Name {
    /// Whether this name comes before the other: its sender is lower, or the sender is the same and
    /// its number is lower. `<` on names means the same.
    pub fn is_before(self, other: Name) -> bool
        ensures { result ≡ name_lt self other }
    {
        self < other
    }

    /// Does nothing at run time; it brings the value's invariant into the proof: the name is within
    /// its limits.
    pub fn recall(self)
        ensures { IsLabel self }
    {
        self.sender.recall();
        let _seq = self.seq;
    }
}
