//! Doubts: evidence that a store did not confirm that it kept a record.
ghost use Rattle.std.specs.Prelude.{◌≡◌};

use crate::StoreFault;
use std::marker::Model;
use urb_names::NodeId;

/// Evidence that a store did not confirm that it kept a node's record. If the fault is `Place`, the
/// record was not kept. After any other fault it may have been kept or not. If the store was asked
/// to keep several records together, it kept none of them or all. Only `Draft::keep` and
/// `store_ahead` make a doubt.
#[derive(Debug, Drop)]
pub struct Doubt {
    node: NodeId,
    fault: StoreFault,
}

impl Model for Doubt {
    ghost use Rattle.urb_stable.specs.Doubts.{Doubted};

    ghost Value = { Doubted };

    ghost view = { λ a. record { node = a.node; fault = a.fault } };
}

impl Doubt {
    // The doubt after a store answered this fault.
    pub(crate) fn new(node: NodeId, fault: StoreFault) -> Doubt
        ensures { result ≡ record { node = node; fault = fault } }
    {
        Doubt { node, fault }
    }

    /// The node that wanted the record stored.
    pub fn node(&self) -> NodeId
        ensures { result ≡ self.now.node }
    {
        self.node
    }

    /// The fault that the store answered.
    pub fn fault(&self) -> StoreFault
        ensures { result ≡ self.now.fault }
    {
        self.fault
    }
}
