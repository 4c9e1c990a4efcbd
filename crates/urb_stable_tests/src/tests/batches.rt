//! Records that are stored together, and the receipts that their drafts claim.

use super::calls::is_received;
use super::rows::{Form, image, record};
use std::alloc::{Allocator, Global};
use std::test::Fail;
use urb_names::{Message, NodeId};
use urb_stable::*;

// So many copies of a record.
fn copies_of<A: Allocator + Copy>(
    alloc: A,
    record: &Record<Message<A>>,
    count: usize,
) -> Option<Vec<Record<Message<A>>, A>> {
    let mut copies = Vec::new(alloc);
    for _ in 0..count {
        copies.push(record.share(alloc).ok()?).ok()?;
    }
    Some(copies)
}

// What a store answers if it is to keep so many copies of the record together.
pub(super) fn store_copies<A: Allocator + Copy>(
    store: &mut MemStable<A>,
    alloc: A,
    record: &Record<Message<A>>,
    pos: u32,
    count: usize,
) -> Option<Result<(), StoreFault>> {
    let copies = copies_of(alloc, record, count)?;
    let answer = store.store_all(pos, &copies);
    drop(copies);
    Some(answer)
}

// Claims a draft of this record for a node, from a batch. Returns whether there is a receipt.
// `None` if the receipt or the draft that comes back doesn't match.
fn claim<A: Allocator + Copy>(
    alloc: A,
    batch: &mut StoredBatch<A>,
    node: NodeId,
    pos: u32,
    record: &Record<Message<A>>,
) -> Option<bool> {
    if pos == 0 {
        return None;
    }
    let draft = Draft::new(node, pos, record.share(alloc).ok()?);
    match draft.claim(batch) {
        Ok(receipt) => is_received(receipt, (node, pos), record).then_some(true),
        Err(draft) => {
            let is_back = draft.node() == node
                && draft.pos() == pos
                && draft.entry().is_same(record);
            drop(draft);
            is_back.then_some(false)
        }
    }
}

// Whether each of the records of a batch of copies can be claimed, from this position on.
fn are_claimed<A: Allocator + Copy>(
    alloc: A,
    batch: &mut StoredBatch<A>,
    node: NodeId,
    from: u32,
    record: &Record<Message<A>>,
) -> bool {
    let mut pos = from;
    for _ in 0..batch.left() {
        if claim(alloc, batch, node, pos, record) != Some(true) {
            return false;
        }
        pos = pos.saturating_add(1);
    }
    batch.left() == 0
}

// Stores copies of node 2 ahead of their drafts, and claims them. Returns the store's answer.
// `None` if the batch, a receipt or the doubt doesn't match.
pub(super) fn keep_ahead<A: Allocator + Copy>(
    store: &mut MemStable<A>,
    alloc: A,
    record: &Record<Message<A>>,
    pos: u32,
    count: usize,
) -> Option<Result<(), StoreFault>> {
    let node = NodeId::new(2)?;
    let copies = copies_of(alloc, record, count)?;
    match store_ahead(node, pos, copies, store) {
        Ok(stored) => {
            let mut batch = stored;
            let is_whole = batch.left() == count;
            let are_claimed = are_claimed(alloc, &mut batch, node, pos, record);
            drop(batch);
            (is_whole && are_claimed).then_some(Ok(()))
        }
        Err(doubt) => {
            let (of, fault) = (doubt.node(), doubt.fault());
            drop(doubt);
            (of == node).then_some(Err(fault))
        }
    }
}

/// The records of the batch whose claims are tried: node 2's first message, and its certificate.
const BATCH: [Form; 2] = [Form::Pend(2, 1), Form::Cert(2, 1)];

/// What is claimed in turn from that batch of node 2, from position 5: why, the node, the position
/// and the record. Then whether there is a receipt, and how many records are left.
static CLAIMS: [(&'static str, u8, u32, Form, bool, usize); 8] = [
    ("another node", 1, 5, Form::Pend(2, 1), false, 2),
    ("the next position", 2, 6, Form::Pend(2, 1), false, 2),
    ("the next record", 2, 5, Form::Cert(2, 1), false, 2),
    ("another form", 2, 5, Form::PendCert(2, 1), false, 2),
    ("the first record", 2, 5, Form::Pend(2, 1), true, 1),
    ("the first record again", 2, 6, Form::Pend(2, 1), false, 1),
    ("the second record", 2, 6, Form::Cert(2, 1), true, 0),
    ("past the last record", 2, 7, Form::Cert(2, 1), false, 0),
];

// Tries the claims in turn. Returns the first one that is answered otherwise.
fn first_wrong(alloc: Global, batch: &mut StoredBatch) -> Option<&'static str> {
    for (name, number, pos, form, is_claimed, left) in &CLAIMS {
        let (Some(node), Some(record)) = (NodeId::new(*number), record(alloc, *form, b'm')) else {
            return Some("no such record");
        };
        let claimed = claim(alloc, batch, node, *pos, &record);
        drop(record);
        if claimed != Some(*is_claimed) || batch.left() != *left {
            return Some(*name);
        }
    }
    None
}

// A batch of node 2, stored behind four other records.
fn batch_behind_four(alloc: Global) -> Option<StoredBatch> {
    let mut store = MemStable::new(alloc);
    let first = record(alloc, Form::Pend(1, 1), b'm')?;
    if store_copies(&mut store, alloc, &first, 1, 4) != Some(Ok(())) {
        return None;
    }
    let records = image(alloc, &BATCH, b"mm")?;
    let node = NodeId::new(2)?;
    store_ahead(node, 5, records, &mut store).ok()
}

#[test]
fn only_the_next_record_of_a_batch_is_claimed(rt: HostRuntime) -> Result<(), Fail> {
    let Some(stored) = batch_behind_four(rt.alloc()) else {
        return Err(Fail::new(format_args!("no batch")));
    };
    let mut batch = stored;
    let wrong = first_wrong(rt.alloc(), &mut batch);
    drop(batch);
    match wrong {
        Some(name) => Err(Fail::new(format_args!("{name}"))),
        None => Ok(()),
    }
}
