//! Receipts: evidence that a record is stored.
ghost use Rattle.std.specs.Prelude.{◌≡◌};

use crate::Record;
use std::alloc::{Allocator, Global};
use std::marker::Model;
use urb_names::{Message, NodeId};

/// Evidence that a store kept a node's record. Only `Draft::keep` and `Draft::claim` make one.
#[derive(Drop)]
#[derive_where(Debug)]
pub struct Receipt<A: Allocator = Global> {
    node: NodeId,
    pos: u32,
    entry: Record<Message<A>>,
}

impl<A: Allocator> Model for Receipt<A> {
    ghost use Rattle.urb_stable.specs.PlacedRecords.{Placed};

    ghost Value = { Placed };

    ghost view = { λ a. record { node = a.node; pos = a.pos; entry = a.entry } };
}

impl<A: Allocator> Receipt<A> {
    // The receipt after a store kept this record; only `Draft::keep` and `Draft::claim` call it.
    pub(crate) fn new(node: NodeId, pos: u32, entry: Record<Message<A>>) -> Receipt<A>
        ensures { result ≡ record { node = node; pos = pos; entry = entry } }
    {
        Receipt { node, pos, entry }
    }

    /// The node whose record it is.
    pub fn node(&self) -> NodeId
        ensures { result ≡ self.now.node }
    {
        self.node
    }

    /// The position of the record in the node's storage, from 1.
    pub fn pos(&self) -> u32
        ensures { result ≡ self.now.pos }
    {
        self.pos
    }

    /// The record.
    pub fn entry(&self) -> &Record<Message<A>>
        ensures { result.now ≡ self.now.entry }
    {
        &self.entry
    }
}
