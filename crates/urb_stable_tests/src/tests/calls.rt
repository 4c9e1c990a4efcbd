//! Calls on a store in memory, with their expected answers.

use super::batches::{keep_ahead, store_copies};
use std::alloc::Allocator;
use urb_names::{Message, NodeId};
use urb_stable::*;

/// A call with its expected answer.
#[derive(Clone, Copy)]
pub(super) enum Call {
    /// The next store is to fail.
    Arm(Failure),
    /// Stores the record at a position.
    Store(u32, Result<(), StoreFault>),
    /// Keeps a draft of the record there.
    Keep(u32, Result<(), StoreFault>),
    /// Stores so many copies of the record together, the first at a position.
    StoreAll(u32, usize, Result<(), StoreFault>),
    /// Stores so many copies ahead of their drafts, the first there, and then claims each of them.
    Ahead(u32, usize, Result<(), StoreFault>),
    /// The next position.
    Next(u32),
    /// Whether a record is in doubt.
    Doubtful(bool),
    /// The retrieve returns the given number of copies of the record and nothing else.
    Retrieve(usize),
}

/// What a retrieve returns.
#[derive(Clone, Copy, PartialEq, Eq)]
pub(super) enum Given {
    Copies(usize),
    Others,
    Refused(StoreFault),
}

// Whether each of these is a copy of the record.
fn are_copies<A: Allocator + Copy>(
    records: &[Record<Message<A>>],
    record: &Record<Message<A>>,
) -> bool {
    for one in records {
        if !one.is_same(record) {
            return false;
        }
    }
    true
}

// What a retrieve returns: how many copies of the record, or something else.
pub(super) fn given_back<A: Allocator + Copy>(
    store: &mut MemStable<A>,
    alloc: A,
    record: &Record<Message<A>>,
) -> Given {
    match store.retrieve(alloc) {
        Ok(records) => {
            let (count, are_copies) = (records.len(), are_copies(&records, record));
            drop(records);
            if are_copies {
                Given::Copies(count)
            } else {
                Given::Others
            }
        }
        Err(fault) => Given::Refused(fault),
    }
}

// Whether a receipt belongs to this node, position and record.
pub(super) fn is_received<A: Allocator + Copy>(
    receipt: Receipt<A>,
    (node, pos): (NodeId, u32),
    record: &Record<Message<A>>,
) -> bool {
    receipt.node() == node && receipt.pos() == pos && receipt.entry().is_same(record)
}

// Keeps a draft of node 2 and returns the result. `None` if the draft, its receipt or its doubt
// doesn't match.
pub(super) fn keep<A: Allocator + Copy>(
    store: &mut MemStable<A>,
    alloc: A,
    record: &Record<Message<A>>,
    pos: u32,
) -> Option<Result<(), StoreFault>> {
    let node = NodeId::new(2)?;
    if pos == 0 {
        return None;
    }
    let draft = Draft::new(node, pos, record.share(alloc).ok()?);
    let is_drafted = draft.node() == node && draft.pos() == pos;
    match draft.keep(store) {
        Ok(receipt) => {
            let is_received = is_received(receipt, (node, pos), record);
            if is_drafted && is_received {
                Some(Ok(()))
            } else {
                None
            }
        }
        Err(doubt) => {
            let (of, fault) = (doubt.node(), doubt.fault());
            drop(doubt);
            if is_drafted && of == node {
                Some(Err(fault))
            } else {
                None
            }
        }
    }
}

// Whether a call gets its expected answer.
fn is_right<A: Allocator + Copy>(
    store: &mut MemStable<A>,
    alloc: A,
    record: &Record<Message<A>>,
    call: Call,
) -> bool {
    match call {
        Call::Arm(failure) => {
            store.arm(failure);
            true
        }
        Call::Store(pos, answer) => store.store(pos, record) == answer,
        Call::Keep(pos, answer) => keep(store, alloc, record, pos) == Some(answer),
        Call::StoreAll(pos, count, answer) => {
            store_copies(store, alloc, record, pos, count) == Some(answer)
        }
        Call::Ahead(pos, count, answer) => {
            keep_ahead(store, alloc, record, pos, count) == Some(answer)
        }
        Call::Next(pos) => store.next() == pos,
        Call::Doubtful(is_doubtful) => store.doubtful() == is_doubtful,
        Call::Retrieve(count) => given_back(store, alloc, record) == Given::Copies(count),
    }
}

// Whether the calls, made in turn, all get their expected answers.
pub(super) fn is_answered<A: Allocator + Copy>(
    store: &mut MemStable<A>,
    alloc: A,
    record: &Record<Message<A>>,
    calls: &[Call],
) -> bool {
    for call in calls {
        if !is_right(store, alloc, record, *call) {
            return false;
        }
    }
    true
}
