//! Calls on a store in memory, with and without failures, and refused allocations.

mod ahead;
mod ahead_growth;
mod batches;
mod calls;
mod fitting;
mod growth;
mod index;
mod rows;

use calls::{Call, is_answered};
use rows::{Form, record};
use std::alloc::{Allocator, Global};
use urb_names::{NodeId, Refusal};
use urb_refusing::Refusing;
use urb_stable::*;

// Whether a new store gives these answers, with the first message of node 1 as each record.
fn answers<A: Allocator + Copy>(heap: A, calm: A, calls: &[Call]) -> bool {
    let Some(record) = record(calm, Form::Pend(1, 1), b'm') else {
        return false;
    };
    let mut store = MemStable::new(heap);
    let answers = is_answered(&mut store, calm, &record, calls);
    drop(store);
    drop(record);
    answers
}

#[test]
fn a_record_at_another_position_is_refused(rt: HostRuntime) {
    let calls = [Call::Store(2, Err(StoreFault::Place(1)))];
    assert!(rt; answers(rt.alloc(), rt.alloc(), &calls));
}

#[test]
fn a_failure_with_the_record_kept_gives_it_back(rt: HostRuntime) {
    let calls = [
        Call::Arm(Failure::New),
        Call::Store(1, Err(StoreFault::Device)),
        Call::Next(1),
        Call::Store(1, Err(StoreFault::Place(1))),
        Call::Retrieve(1),
        Call::Next(2),
    ];
    assert!(rt; answers(rt.alloc(), rt.alloc(), &calls));
}

#[test]
fn a_failure_with_nothing_kept_leaves_the_place_free(rt: HostRuntime) {
    let calls = [
        Call::Arm(Failure::Old),
        Call::Store(1, Err(StoreFault::Device)),
        Call::Doubtful(true),
        Call::Retrieve(0),
        Call::Store(1, Ok(())),
        Call::Next(2),
    ];
    assert!(rt; answers(rt.alloc(), rt.alloc(), &calls));
}

#[test]
fn an_armed_store_stays_armed_after_a_place(rt: HostRuntime) {
    let calls = [
        Call::Arm(Failure::Old),
        Call::Store(2, Err(StoreFault::Place(1))),
        Call::Store(1, Err(StoreFault::Device)),
    ];
    assert!(rt; answers(rt.alloc(), rt.alloc(), &calls));
}

#[test]
fn a_draft_becomes_a_receipt_or_a_doubt(rt: HostRuntime) {
    let calls = [
        Call::Keep(1, Ok(())),
        Call::Arm(Failure::New),
        Call::Keep(2, Err(StoreFault::Device)),
        Call::Keep(2, Err(StoreFault::Place(2))),
        Call::Retrieve(2),
    ];
    assert!(rt; answers(rt.alloc(), rt.alloc(), &calls));
}

#[test]
fn a_failure_that_keeps_the_record_needs_memory_for_it(rt: HostRuntime) {
    let calls = [
        Call::Arm(Failure::New),
        Call::Store(1, Err(StoreFault::NoMemory)),
        Call::Retrieve(0),
        Call::Store(1, Ok(())),
        Call::Retrieve(1),
    ];
    let calm = Refusing::new(rt.alloc(), 0);
    let heap = Refusing::new(rt.alloc(), 1);
    assert!(rt; answers(&heap, &calm, &calls));
}

#[test]
fn records_stored_together_are_all_kept(rt: HostRuntime) {
    let calls = [
        Call::StoreAll(1, 3, Ok(())),
        Call::Next(4),
        Call::Store(4, Ok(())),
        Call::StoreAll(5, 2, Ok(())),
        Call::Doubtful(false),
        Call::Next(7),
        Call::Retrieve(6),
    ];
    assert!(rt; answers(rt.alloc(), rt.alloc(), &calls));
}

#[test]
fn records_out_of_place_are_refused_together(rt: HostRuntime) {
    let calls = [
        Call::StoreAll(2, 3, Err(StoreFault::Place(1))),
        Call::StoreAll(2, 0, Err(StoreFault::Place(1))),
        Call::Doubtful(false),
        Call::StoreAll(1, 0, Ok(())),
        Call::Next(1),
        Call::Retrieve(0),
    ];
    assert!(rt; answers(rt.alloc(), rt.alloc(), &calls));
}

#[test]
fn either_failure_keeps_no_record_of_several(rt: HostRuntime) {
    for failure in [Failure::Old, Failure::New] {
        let calls = [
            Call::Store(1, Ok(())),
            Call::Arm(failure),
            Call::StoreAll(1, 3, Err(StoreFault::Place(2))),
            Call::StoreAll(2, 0, Ok(())),
            Call::StoreAll(2, 3, Err(StoreFault::Device)),
            Call::Doubtful(true),
            Call::Next(2),
            Call::StoreAll(2, 3, Err(StoreFault::Place(2))),
            Call::StoreAll(2, 0, Err(StoreFault::Place(2))),
            Call::Retrieve(1),
            Call::StoreAll(2, 3, Ok(())),
            Call::Retrieve(4),
        ];
        assert!(rt; answers(rt.alloc(), rt.alloc(), &calls));
    }
}

#[test]
fn records_kept_ahead_become_receipts_or_a_doubt(rt: HostRuntime) {
    let calls = [
        Call::Ahead(1, 3, Ok(())),
        Call::Ahead(4, 0, Ok(())),
        Call::Arm(Failure::New),
        Call::Ahead(4, 2, Err(StoreFault::Device)),
        Call::Ahead(4, 2, Err(StoreFault::Place(4))),
        Call::Retrieve(3),
    ];
    assert!(rt; answers(rt.alloc(), rt.alloc(), &calls));
}

// Whether a copy of a record is the same record, and its certificate is a different one.
fn is_same_as_its_copy<A: Allocator + Copy>(
    alloc: A,
    record: &Record<urb_names::Message<A>>,
) -> bool {
    let Ok(copy) = record.share(alloc) else {
        return false;
    };
    let is_same = copy.is_same(record);
    drop(copy);
    is_same && !record.is_same(&Record::Cert(record.name()))
}

#[test]
fn records_are_the_same_where_form_name_and_message_are(rt: HostRuntime) {
    let record = record(rt.alloc(), Form::Pend(1, 1), b'm');
    let is_same = match &record {
        Some(record) => is_same_as_its_copy(rt.alloc(), record),
        None => false,
    };
    drop(record);
    assert!(rt; is_same);
}

#[test]
fn a_fault_is_told_by_its_refusal(rt: HostRuntime) {
    let cases = [
        (StoreFault::NoMemory, Refusal::NoMemory),
        (StoreFault::Device, Refusal::Device),
        (StoreFault::Place(3), Refusal::Place(3)),
        (StoreFault::BadRow(4), Refusal::BadRow(4)),
    ];
    for (fault, refusal) in cases {
        assert_eq!(rt; fault.refusal(), refusal);
    }
}
