//! What a submit or an arrival leads to.

use std::alloc::{Allocator, Global};
use urb_node::Answer;
use urb_stable::Draft;
use urb_stubborn::Outbox;

/// The outcome of a submit or an arrival that was not refused.
#[derive(Drop)]
#[derive_where(Debug)]
pub enum Taken<A: Allocator = Global> {
    /// No record has to be stored: the node's records stay the same, and the answer is given at
    /// once. If the answer has packets, send them.
    Same(Answer<Outbox<A>>),
    /// The node waits until its store has kept a record. Call `Draft::keep` with the node's store.
    /// Then pass the receipt to `Group::commit`, or the doubt to `Group::fail`.
    Store(Draft<A>),
}
