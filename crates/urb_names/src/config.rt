//! The number of nodes in a group, and what counts as a majority of them.
ghost use Rattle.std.specs.Prelude.{◌≡◌, ◌<◌, ◌≤◌};
ghost use Rattle.std.specs.Option.{SomeIff};
ghost use Rattle.urb_names.specs.Nodes.{is_majority};

use crate::{MAX_CAP, MAX_NODES};
use std::marker::Model;

/// The number of nodes in a group, and how many messages each may broadcast. Both are fixed for the
/// life of a group.
#[derive(Clone, Copy, Debug, PartialEq, Eq)]
pub struct Config {
    n: u8,
    cap: u32,
}

impl Model for Config {
    ghost use Rattle.std.specs.Prelude.{◌<◌, ◌≤◌};
    ghost use Rattle.urb_names.specs.LabelsAndContents.{Limits};
    ghost use Rattle.urb_names.specs.declared.limits.TheConstants.{MAX_CAP, MAX_NODES};

    ghost Value = { Limits };

    ghost view = { λ a. record { n = a.n; cap = a.cap } };

    ghost invariant = { λ a. (0 < a.n) × (a.n ≤ MAX_NODES) × (0 < a.cap) × (a.cap ≤ MAX_CAP) };

    ghost inverse = { λ v. record { n = v.n; cap = v.cap } };
}

impl Config {
    ghost use Rattle.urb_names.specs.LabelsAndContents.{IsLimits};

    /// A group of `n` nodes, 1 to `MAX_NODES`, each of which may broadcast `cap` messages, 1 to
    /// `MAX_CAP`. `None` if either is out of range.
    pub fn new(n: u8, cap: u32) -> Option<Config>
        ensures { SomeIff result (IsLimits (record { n = n; cap = cap }))
            (record { n = n; cap = cap }) }
    {
        if n == 0 || n > MAX_NODES || cap == 0 || cap > MAX_CAP {
            return None;
        }
        Some(Config { n, cap })
    }

    /// The number of nodes; they are numbered 1 to `n`.
    pub fn n(self) -> u8
        ensures value { result ≡ self.n }
        ensures range { (0 < self.n) × (self.n ≤ MAX_NODES) }
    {
        self.n
    }

    /// The number of messages that each node may broadcast.
    pub fn cap(self) -> u32
        ensures value { result ≡ self.cap }
        ensures range { (0 < self.cap) × (self.cap ≤ MAX_CAP) }
    {
        self.cap
    }

    /// Does nothing at run time; it brings the value's invariant into the proof: both numbers are
    /// in range.
    pub fn recall(self)
        ensures { IsLimits self }
    {
        let _n = self.n;
    }
}

/// Whether `count` is more than half of `n` nodes. A message may be delivered once a majority has
/// acknowledged it, because any two majorities share a node (section 3.4 of the textbook).
pub fn is_majority(count: u8, n: u8) -> bool
    ensures { result ≡ is_majority count n }
{
    u16::from(n) < 2 * u16::from(count)
}
