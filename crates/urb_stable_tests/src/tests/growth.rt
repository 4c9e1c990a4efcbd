//! Refuses each allocation in turn: of a store, and of the index and the images that judge records.

use super::batches::store_copies;
use super::calls::{Call, Given, given_back, is_answered, keep};
use super::fitting::images;
use super::index::{LETTERS, TWICE};
use super::rows::{Form, image, record};
use std::alloc::{Allocator, Global};
use urb_names::Message;
use urb_refusing::Refusing;
use urb_stable::*;

/// What allocates memory.
#[derive(Clone, Copy)]
enum Taker {
    Store,
    Together,
    Index,
    Images,
}

// Keeps the first record of a store. If an allocation is refused, nothing is left, and the record
// is kept on the next try. Returns whether it was refused, or `None` if that isn't so.
fn is_kept_late<A: Allocator + Copy>(
    store: &mut MemStable<A>,
    calm: A,
    record: &Record<Message<A>>,
) -> Option<bool> {
    if keep(store, calm, record, 1)?.is_ok() {
        return Some(false);
    }
    let calls = [
        Call::Doubtful(true),
        Call::Next(1),
        Call::Retrieve(0),
        Call::Store(1, Ok(())),
    ];
    if is_answered(store, calm, record, &calls) {
        Some(true)
    } else {
        None
    }
}

// Retrieves the record. A retrieve whose allocation is refused changes nothing, and the next one
// returns the record.
fn is_given_late<A: Allocator + Copy>(
    store: &mut MemStable<A>,
    alloc: A,
    record: &Record<Message<A>>,
) -> Option<bool> {
    match given_back(store, alloc, record) {
        Given::Copies(1) => Some(false),
        Given::Refused(StoreFault::NoMemory) => {
            let calls = [Call::Next(2), Call::Retrieve(1)];
            if is_answered(store, alloc, record, &calls) {
                Some(true)
            } else {
                None
            }
        }
        _ => None,
    }
}

// Both on a new store.
fn is_late<A: Allocator + Copy>(heap: A, calm: A, record: &Record<Message<A>>) -> Option<bool> {
    let mut store = MemStable::new(heap);
    let is_kept_late = is_kept_late(&mut store, calm, record);
    let is_given_late = is_given_late(&mut store, heap, record);
    drop(store);
    Some(is_kept_late? || is_given_late?)
}

// Keeps three records of a new store together. If an allocation is refused, none of them is left,
// and they are kept on the next try. Returns whether it was refused, or `None` if that isn't so.
fn are_late<A: Allocator + Copy>(heap: A, calm: A, record: &Record<Message<A>>) -> Option<bool> {
    let mut store = MemStable::new(heap);
    let is_refused = match store_copies(&mut store, calm, record, 1, 3) {
        Some(Err(StoreFault::NoMemory)) => {
            let calls = [
                Call::Doubtful(true),
                Call::Next(1),
                Call::Retrieve(0),
                Call::StoreAll(1, 3, Ok(())),
            ];
            is_answered(&mut store, calm, record, &calls).then_some(true)
        }
        Some(Ok(())) => Some(false),
        _ => None,
    };
    let are_kept = is_answered(
        &mut store,
        calm,
        record,
        &[Call::Next(4), Call::Retrieve(3)],
    );
    drop(store);
    if are_kept { is_refused } else { None }
}

// Whether one of these calls is refused memory from this heap; `None` if anything else happens.
fn is_refused<A: Allocator + Copy>(heap: A, calm: A, taker: Taker) -> Option<bool> {
    match taker {
        Taker::Store => {
            let record = record(calm, Form::Pend(1, 1), b'm')?;
            let is_late = is_late(heap, calm, &record);
            drop(record);
            is_late
        }
        Taker::Together => {
            let record = record(calm, Form::Pend(1, 1), b'm')?;
            let are_late = are_late(heap, calm, &record);
            drop(record);
            are_late
        }
        Taker::Index => {
            let image = image(calm, &TWICE, LETTERS)?;
            let is_refused = Index::new(heap, &image).is_err();
            drop(image);
            Some(is_refused)
        }
        Taker::Images => {
            let first = [Form::PendCert(1, 1), Form::Pend(2, 1), Form::Cert(2, 1)];
            let second = [Form::Pend(2, 1), Form::PendCert(1, 1)];
            let images = images(calm, &[&first, &second])?;
            let is_refused = Images::new(heap, &images).is_err();
            drop(images);
            Some(is_refused)
        }
    }
}

// The same, with growth number `refused` refused. Also `None` if the result doesn't match whether
// that growth was requested.
fn is_refused_at(alloc: Global, refused: u64, taker: Taker) -> Option<bool> {
    let calm = Refusing::new(alloc, 0);
    let heap = Refusing::new(alloc, refused);
    let told = is_refused(&heap, &calm, taker);
    let met = heap.has_failed();
    drop(heap);
    drop(calm);
    if told == Some(met) { told } else { None }
}

// The number of growths, after each was refused in turn; 0 if anything else happens.
fn growths(alloc: Global, taker: Taker) -> u64 {
    for refused in 1..100 {
        match is_refused_at(alloc, refused, taker) {
            Some(true) => {}
            Some(false) => return refused.saturating_sub(1),
            None => return 0,
        }
    }
    0
}

#[test]
fn each_growth_refused_is_want_of_memory(rt: HostRuntime) {
    assert!(rt; 1 < growths(rt.alloc(), Taker::Store));
}

#[test]
fn each_growth_refused_keeps_none_of_several(rt: HostRuntime) {
    assert!(rt; 1 < growths(rt.alloc(), Taker::Together));
}

#[test]
fn each_growth_of_an_index_may_be_refused(rt: HostRuntime) {
    assert!(rt; 1 < growths(rt.alloc(), Taker::Index));
}

#[test]
fn each_growth_of_what_judges_may_be_refused(rt: HostRuntime) {
    assert!(rt; 1 < growths(rt.alloc(), Taker::Images));
}
