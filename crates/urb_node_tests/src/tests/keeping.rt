//! What happens to the draft that a node under test holds.

ghost use Rattle.std.specs.Prelude.{◌+◌, ◌<◌, ◌^◌};

use super::*;
use crate::tests::rows::{Act, Row};
use crate::tests::sending::are_sent;
use crate::tests::states::{AnyNode, Went, went};
use urb_node::{Done, Storing};
use urb_stable::{Draft, Failure, MemStable, Receipt, Stable};

// Whether this is the expected effect of a stored record with this name. If the act isn't `Store`,
// only the name is compared.
fn tells<A: Allocator + Copy>(
    done: &Done<A>,
    node: NodeId,
    named: Name,
    (act, _, payload): &Row,
) -> bool {
    let is_it = done.name == named;
    match act {
        Act::Store(accepted, released, sent) => {
            is_it
                && done.accepted == *accepted
                && done.released == *released
                && are_sent(&done.sent, node, named.sender, sent, payload)
        }
        _ => is_it,
    }
}

// Gives the node the receipt of its draft.
fn confirm<A: Allocator + Copy>(
    storing: Storing<A>,
    receipt: Receipt<A>,
    named: Name,
    row: &Row,
) -> Went<A> {
    let node = receipt.node();
    match storing.confirm(receipt) {
        Ok((ready, done)) => {
            let is_so = tells(&done, node, named, row);
            drop(done);
            (AnyNode::Ready(ready), went(is_so))
        }
        Err((storing, receipt)) => {
            drop(receipt);
            (AnyNode::Down(storing.fail()), None)
        }
    }
}

/// Stores the draft and gives the node its receipt.
pub(super) fn keep<A: Allocator + Copy>(
    state: AnyNode<A>,
    store: &mut MemStable<A>,
    named: Name,
    row: &Row,
) -> Went<A> {
    match state {
        AnyNode::Storing(storing, draft) => match draft.keep(store) {
            Ok(receipt) => confirm(storing, receipt, named, row),
            Err(_doubt) => (AnyNode::Down(storing.fail()), None),
        },
        other => (other, None),
    }
}

/// Makes the store fail in this way, and the node with it.
pub(super) fn doubt<A: Allocator + Copy>(
    state: AnyNode<A>,
    store: &mut MemStable<A>,
    failure: Failure,
) -> Went<A> {
    match state {
        AnyNode::Storing(storing, draft) => {
            store.arm(failure);
            let kept = draft.keep(store);
            let is_kept = kept.is_ok();
            drop(kept);
            (AnyNode::Down(storing.fail()), went(!is_kept))
        }
        other => (other, None),
    }
}

/// Loses the draft: the store fails, or the node crashes.
pub(super) fn lose<A: Allocator + Copy>(state: AnyNode<A>, fails: bool) -> Went<A> {
    match state {
        AnyNode::Storing(storing, draft) => {
            drop(draft);
            let down = if fails {
                storing.fail()
            } else {
                storing.crash()
            };
            (AnyNode::Down(down), Some(true))
        }
        other => (other, None),
    }
}

// Makes the store keep one more record.
fn fill_next<A: Allocator + Copy>(store: &mut MemStable<A>, pos: u32) -> bool {
    match name(1, pos) {
        Some(named) => {
            let record = Record::Cert(named);
            let is_kept = store.store(pos, &record).is_ok();
            drop(record);
            is_kept
        }
        None => false,
    }
}

// The receipt of a draft from a store that holds `before` records already.
fn receipt_behind<A: Allocator + Copy>(
    calm: A,
    node: NodeId,
    before: u32,
    record: Record<Message<A>>,
) -> Option<Receipt<A>>
    requires { before + 1 < 2 ^ 32 }
{
    let mut store = MemStable::new(calm);
    for earlier in 0..before {
        let _is_kept = fill_next(&mut store, earlier + 1);
    }
    let kept = Draft::new(node, before + 1, record).keep(&mut store);
    drop(store);
    kept.ok()
}

// The receipt of a draft with this node and position.
fn receipt_of<A: Allocator + Copy>(
    calm: A,
    (node, pos): (u8, u32),
    form: &Form,
    named: Name,
    payload: &[u8],
) -> Option<Receipt<A>> {
    let node = NodeId::new(node)?;
    let before = pos.checked_sub(1)?;
    let record = record_of(calm, form, named, payload)?;
    receipt_behind(calm, node, before, record)
}

// Whether a node returns the receipt of another draft.
fn comes_back<A: Allocator + Copy>(
    storing: Storing<A>,
    draft: Draft<A>,
    receipt: Receipt<A>,
) -> Went<A> {
    let (node, pos) = (receipt.node(), receipt.pos());
    match storing.confirm(receipt) {
        Ok((ready, done)) => {
            drop(done);
            drop(draft);
            (AnyNode::Ready(ready), None)
        }
        Err((storing, back)) => {
            let is_it = back.node() == node && back.pos() == pos;
            drop(back);
            (AnyNode::Storing(storing, draft), went(is_it))
        }
    }
}

/// Offers a node the receipt of another draft, with this node and position, which it must return.
pub(super) fn give_back<A: Allocator + Copy>(
    state: AnyNode<A>,
    calm: A,
    place: (u8, u32),
    form: &Form,
    named: Name,
    payload: &[u8],
) -> Went<A> {
    match receipt_of(calm, place, form, named, payload) {
        Some(receipt) => match state {
            AnyNode::Storing(storing, draft) => comes_back(storing, draft, receipt),
            other => {
                drop(receipt);
                (other, None)
            }
        },
        None => (state, None),
    }
}
