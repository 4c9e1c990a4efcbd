//! Crashes of a node under test, and restarts with images.

use super::*;
use crate::tests::states::{AnyNode, Went, went};
use urb_names::Refusal;
use urb_stable::{MemStable, Stable};

/// Crashes a node that holds no draft.
pub(super) fn crash<A: Allocator + Copy>(state: AnyNode<A>) -> Went<A> {
    match state {
        AnyNode::Ready(ready) => (AnyNode::Down(ready.crash()), Some(true)),
        other => (other, None),
    }
}

// Appends a record to an image. Returns whether there was one, and memory for it.
fn join<A: Allocator + Copy>(
    image: &mut Vec<Record<Message<A>>, A>,
    record: Option<Record<Message<A>>>,
) -> bool {
    match record {
        Some(record) => image.push(record).is_ok(),
        None => false,
    }
}

// The image of these rows.
fn image_of<A: Allocator + Copy>(calm: A, rows: &[Kept]) -> Option<Vec<Record<Message<A>>, A>> {
    let mut image = Vec::new(calm);
    let mut is_whole = true;
    for row in rows {
        is_whole = is_whole && join(&mut image, kept_record(calm, row));
    }
    if is_whole {
        return Some(image);
    }
    drop(image);
    None
}

// Whether a restart had the expected outcome: accepted, or refused in this way.
fn check_restart(refusal: Option<Refusal>, expected: Option<Refusal>) -> Option<bool> {
    if refusal == Some(Refusal::NoMemory) {
        return Some(false);
    }
    went(refusal == expected)
}

// Restarts a node with an image, and compares the outcome with the expected one.
fn restart<A: Allocator + Copy>(
    state: AnyNode<A>,
    heap: A,
    image: Vec<Record<Message<A>>, A>,
    expected: Option<Refusal>,
) -> Went<A> {
    match state {
        AnyNode::Down(down) => match down.restart(heap, image) {
            Ok(ready) => (AnyNode::Ready(ready), check_restart(None, expected)),
            Err((down, refusal)) => (AnyNode::Down(down), check_restart(Some(refusal), expected)),
        },
        other => {
            drop(image);
            (other, None)
        }
    }
}

// The same, if there is memory for the image.
fn restart_with<A: Allocator + Copy>(
    state: AnyNode<A>,
    heap: A,
    image: Option<Vec<Record<Message<A>>, A>>,
    expected: Option<Refusal>,
) -> Went<A> {
    match image {
        Some(image) => restart(state, heap, image, expected),
        None => (state, None),
    }
}

/// Restarts a node with the records of its store, which it must accept.
pub(super) fn rise<A: Allocator + Copy>(
    state: AnyNode<A>,
    (heap, calm): (A, A),
    store: &mut MemStable<A>,
) -> Went<A> {
    restart_with(state, heap, store.retrieve(calm).ok(), None)
}

/// Restarts a node with another image, which it must refuse.
pub(super) fn refuse<A: Allocator + Copy>(
    state: AnyNode<A>,
    (heap, calm): (A, A),
    rows: &[Kept],
) -> Went<A> {
    restart_with(state, heap, image_of(calm, rows), Some(Refusal::BadImage))
}
