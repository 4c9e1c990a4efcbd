//! Batches: evidence that several records are stored, before their node drafts them.
ghost use Rattle.std.specs.Prelude.{◌≡◌, ◌<◌, MatchBool, MatchResult, Some, length};
ghost use Rattle.urb_stable.specs.KeptDrafts.{KeepsAll};
ghost use Rattle.urb_stable.specs.StoredBatches.{answer_for_all, next_of, once_claimed};

use crate::{Doubt, Record, Stable};
use std::alloc::{Allocator, Global};
use std::marker::Model;
use urb_names::{Message, NodeId};

/// Evidence that a store kept records of a node, at consecutive positions, before the node drafted
/// them. The node drafts them one after the other, and `Draft::claim` gives a receipt for each.
/// Only `store_ahead` makes a batch. It may be dropped: its records stay stored.
#[derive(Drop)]
#[derive_where(Debug)]
pub struct StoredBatch<A: Allocator = Global> {
    node: NodeId,
    // The position of the next record to be claimed.
    next: u32,
    // All records. The first `claimed` of them are claimed.
    records: Vec<Record<Message<A>>, A>,
    claimed: usize,
}

impl<A: Allocator> Model for StoredBatch<A> {
    ghost use Rattle.std.specs.Prelude.{drop};
    ghost use Rattle.urb_stable.specs.StoredBatches.{Unclaimed};
    ghost use Rattle.urb_stable.specs.internal.BatchInvariant.{IsBatch};

    ghost Value = { Unclaimed };

    ghost view = { λ a.
        record { node = a.node; pos = a.next; entries = drop a.claimed a.records.items } };

    ghost invariant = { IsBatch };
}

impl<A: Allocator> StoredBatch<A> {
    /// The number of records that are still to be claimed.
    pub fn left(&self) -> usize
        ensures { result ≡ length self.now.entries }
    {
        self.records.len() - self.claimed
    }

    // Whether the next record to be claimed is this one; only `Draft::claim` calls it.
    pub(crate) fn is_next(&self, node: NodeId, pos: u32, entry: &Record<Message<A>>) -> bool
        ensures { MatchBool result
            (next_of self.now ≡ Some (record { node = node; pos = pos; entry = entry.now }))
            (¬ (next_of self.now ≡ Some (record { node = node; pos = pos; entry = entry.now }))) }
    {
        match self.records.get(self.claimed) {
            Some(next) => self.node == node && self.next == pos && next.is_same(entry),
            None => false,
        }
    }

    // Counts the next record as claimed; only `Draft::claim` calls it.
    pub(crate) fn move_on(&mut self)
        requires { 0 < length self.old.entries }
        ensures { self.new ≡ once_claimed self.old }
    {
        self.claimed += 1;
        self.next += 1;
    }
}

/// Stores these records of a node together, the first at this position, before the node drafts
/// them. A doubt with `Place` means that nothing has changed. After any other doubt the store needs
/// a `retrieve`, which finds none of them. If the failure has shut the store, a later opening finds
/// none or all.
pub fn store_ahead<S: Stable>(
    node: NodeId,
    pos: u32,
    entries: Vec<Record<Message<S::Alloc>>, S::Alloc>,
    store: &mut S,
) -> Result<StoredBatch<S::Alloc>, Doubt>
    // A batch has exactly these records of the node. A doubt belongs to the node.
    ensures batch { MatchResult result
        (λ batch. batch ≡ record { node = node; pos = pos; entries = entries.items })
        (λ doubt. doubt.node ≡ node) }
    // A doubt holds exactly the fault that the store answered.
    ensures keeps { KeepsAll S.Stable store.old pos entries.items (answer_for_all result) store.new }
{
    // For its clause about the next position of an honest store.
    let _next = store.next();
    match store.store_all(pos, &entries) {
        Ok(()) => Ok(StoredBatch {
            node,
            next: pos,
            records: entries,
            claimed: 0,
        }),
        Err(fault) => Err(Doubt::new(node, fault)),
    }
}
