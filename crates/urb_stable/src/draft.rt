//! Drafts: records that a node wants stored.
ghost use Rattle.std.specs.Prelude.{◌≡◌, ◌<◌, MatchResult, IfOk, IfErr, Some};
ghost use Rattle.urb_stable.specs.StoreAnswers.{answer_of};
ghost use Rattle.urb_stable.specs.KeptDrafts.{Keeps};
ghost use Rattle.urb_stable.specs.StoredBatches.{next_of, once_claimed};

use crate::{Doubt, Receipt, Record, Stable, StoreFault, StoredBatch};
use std::alloc::{Allocator, Global};
use std::marker::Model;
use urb_names::{Message, NodeId};

/// A record that a node wants stored, at its position in the node's storage, from 1. It may be
/// dropped. The node then waits for its storage until a failure is reported to it or it crashes.
#[derive(Drop)]
#[derive_where(Debug)]
pub struct Draft<A: Allocator = Global> {
    node: NodeId,
    pos: u32,
    entry: Record<Message<A>>,
}

impl<A: Allocator> Model for Draft<A> {
    ghost use Rattle.std.specs.Prelude.{◌<◌};
    ghost use Rattle.urb_stable.specs.PlacedRecords.{Placed};

    ghost Value = { Placed };

    ghost view = { λ a. record { node = a.node; pos = a.pos; entry = a.entry } };

    ghost invariant = { λ a. 0 < a.pos };
}

impl<A: Allocator> Draft<A> {
    /// A draft of the record. Allocates no memory.
    pub fn new(node: NodeId, pos: u32, entry: Record<Message<A>>) -> Draft<A>
        requires { 0 < pos }
        ensures { result ≡ record { node = node; pos = pos; entry = entry } }
    {
        Draft { node, pos, entry }
    }

    /// The node whose record it is.
    pub fn node(&self) -> NodeId
        ensures { result ≡ self.now.node }
    {
        self.node
    }

    /// The position of the record in the node's storage, from 1.
    pub fn pos(&self) -> u32
        ensures value { result ≡ self.now.pos }
        ensures range { 0 < self.now.pos }
    {
        self.pos
    }

    /// The record.
    pub fn entry(&self) -> &Record<Message<A>>
        ensures { result.now ≡ self.now.entry }
    {
        &self.entry
    }

    /// Stores the record, as the textbook's `store` does before the effects of a step are seen
    /// (section 2.2 of the textbook). A doubt with `Place` means that nothing has changed. After
    /// any other doubt, only a `retrieve` can tell whether the record is kept.
    pub fn keep<S: Stable<Alloc = A>>(self, store: &mut S) -> Result<Receipt<A>, Doubt>
        // A receipt belongs to this draft, and a doubt to its node.
        ensures receipt { MatchResult result (λ receipt. receipt ≡ self)
            (λ doubt. doubt.node ≡ self.node) }
        // A doubt holds exactly the fault that the store answered.
        ensures keeps { Keeps S.Stable store.old self (answer_of result) store.new }
    {
        // For its clause about the next position of an honest store.
        let _next = store.next();
        let Draft { node, pos, entry } = self;
        match store.store(pos, &entry) {
            Ok(()) => Ok(Receipt::new(node, pos, entry)),
            Err(fault) => Err(Doubt::new(node, fault)),
        }
    }

    /// Claims a record that a store kept before the node drafted it, and gives the draft's receipt.
    /// The next record of the batch must be this draft's, at its node and position. Else the draft
    /// comes back, and the batch is unchanged. Stores nothing, and allocates no memory.
    pub fn claim(self, batch: &mut StoredBatch<A>) -> Result<Receipt<A>, Draft<A>>
        // A receipt belongs to this draft, and the batch moves on by one.
        ensures claimed { IfOk result (λ receipt. (receipt ≡ self) × (next_of batch.old ≡ Some self)
            × (batch.new ≡ once_claimed batch.old)) }
        // Only a draft that isn't the batch's next record comes back.
        ensures refused { IfErr result (λ draft. (draft ≡ self) × (¬ (next_of batch.old ≡ Some self))
            × (batch.new ≡ batch.old)) }
    {
        if batch.is_next(self.node, self.pos, &self.entry) {
            batch.move_on();
            let Draft { node, pos, entry } = self;
            Ok(Receipt::new(node, pos, entry))
        } else {
            Err(self)
        }
    }
}
