//! A store that holds records ahead, if memory is refused to it.

use super::ahead::{FIRST, SECOND, Step, are_right};
use super::rows::image;
use std::alloc::{Allocator, Global};
use urb_refusing::Refusing;
use urb_stable::*;

// Keeps two records ahead and gives out the first. If a growth of the store is refused, the next
// store fails. After a retrieve, the store keeps them ahead on the next try. Returns whether it was
// refused, or `None` if that isn't so.
fn is_ahead_late<A: Allocator + Copy>(heap: A, calm: A) -> Option<bool> {
    let mut store = AheadStore::new(calm, MemStable::new(heap));
    let mut entries = image(calm, &[FIRST, SECOND], b"")?;
    let answer = store.store_ahead(&mut entries);
    let failing = [
        Step::Left(2),
        Step::Doubtful(false),
        Step::Store(1, FIRST, Err(StoreFault::Device)),
        Step::Retrieve(&[]),
        Step::Left(0),
        Step::Keep(&[FIRST, SECOND], Ok(())),
    ];
    let mut is_sound = answer == Ok(()) || answer == Err(StoreFault::NoMemory);
    if answer.is_err() {
        is_sound = is_sound && are_right(&mut store, calm, &failing);
    }
    let rest = [
        Step::Left(2),
        Step::Store(1, FIRST, Ok(())),
        Step::Retrieve(&[FIRST]),
        Step::Store(2, SECOND, Ok(())),
        Step::Next(3),
    ];
    let is_right = is_sound && are_right(&mut store, calm, &rest);
    drop(store);
    is_right.then_some(answer.is_err())
}

// The same, with growth number `refused` refused. Also `None` if the result doesn't match whether
// that growth was requested.
fn is_ahead_late_at(alloc: Global, refused: u64) -> Option<bool> {
    let calm = Refusing::new(alloc, 0);
    let heap = Refusing::new(alloc, refused);
    let is_late = is_ahead_late(&heap, &calm);
    let has_met = heap.has_failed();
    drop(heap);
    drop(calm);
    if is_late == Some(has_met) {
        is_late
    } else {
        None
    }
}

// The number of growths, after each was refused in turn; 0 if anything else happens.
fn growths(alloc: Global) -> u64 {
    for refused in 1..100 {
        match is_ahead_late_at(alloc, refused) {
            Some(true) => {}
            Some(false) => return refused.saturating_sub(1),
            None => return 0,
        }
    }
    0
}

#[test]
fn each_growth_refused_fails_the_next_store(rt: HostRuntime) {
    assert!(rt; 1 < growths(rt.alloc()));
}
