//! Node numbers.
ghost use Rattle.std.specs.Prelude.{◌≡◌, ◌<◌, ◌≤◌};
ghost use Rattle.std.specs.Option.{SomeIff};

use crate::MAX_NODES;
use std::marker::Model;

/// A node's number, 1 to `MAX_NODES`. The type doesn't say whether a group has this node: a group's
/// nodes are 1 to `Config::n`.
#[derive(Clone, Copy, Debug, PartialEq, Eq, PartialOrd, Ord)]
pub struct NodeId {
    number: u8,
}

impl Model for NodeId {
    ghost use Rattle.std.specs.Prelude.{ℕ, ◌<◌, ◌≤◌};
    ghost use Rattle.urb_names.specs.declared.limits.TheConstants.{MAX_NODES};

    ghost Value = { ℕ };

    ghost view = { λ a. a.number };

    ghost invariant = { λ a. (0 < a.number) × (a.number ≤ MAX_NODES) };

    ghost inverse = { λ n. record { number = n } };
}

impl NodeId {
    /// The node with this number, or `None` if the number is 0 or over `MAX_NODES`.
    pub fn new(number: u8) -> Option<NodeId>
        ensures { SomeIff result ((0 < number) × (number ≤ MAX_NODES)) number }
    {
        if number == 0 || number > MAX_NODES {
            return None;
        }
        Some(NodeId { number })
    }

    /// The number that it was made from.
    pub fn number(self) -> u8
        ensures number { result ≡ self }
        ensures range { (0 < self) × (self ≤ MAX_NODES) }
    {
        self.number
    }

    /// Does nothing at run time; it brings the value's invariant into the proof: the number is from
    /// 1 to `MAX_NODES`.
    pub fn recall(self)
        ensures { (0 < self) × (self ≤ MAX_NODES) }
    {
        let _number = self.number;
    }
}
