//! A store that holds records ahead: what it gives out, what ends that, and what the inner store
//! has.

use super::rows::{Form, image, record};
use std::alloc::{Allocator, Global};
use std::test::Fail;
use urb_names::Message;
use urb_stable::*;

/// A call with its expected answer.
#[derive(Clone, Copy)]
pub(super) enum Step {
    /// Keeps these records ahead.
    Keep(&'static [Form], Result<(), StoreFault>),
    /// Stores this record at a position.
    Store(u32, Form, Result<(), StoreFault>),
    /// Stores these records together, the first at a position.
    StoreAll(u32, &'static [Form], Result<(), StoreFault>),
    /// The retrieve gives these records.
    Retrieve(&'static [Form]),
    /// The number of records ahead.
    Left(usize),
    /// The next position.
    Next(u32),
    /// Whether a record is in doubt.
    Doubtful(bool),
    /// The process stops: only the inner store is left, and a new store begins over it.
    Stop,
}

/// The records of the tests: three pairs of node 1, and the certificates of two of them.
pub(super) const FIRST: Form = Form::Pend(1, 1);

pub(super) const SECOND: Form = Form::Pend(1, 2);

const THIRD: Form = Form::Pend(1, 3);

const CERTIFIED: Form = Form::Cert(1, 1);

// Whether two lists have the same records.
fn are_same<A: Allocator>(xs: &[Record<Message<A>>], ys: &[Record<Message<A>>]) -> bool {
    if xs.len() != ys.len() {
        return false;
    }
    for (x, y) in xs.iter().zip(ys) {
        if !x.is_same(y) {
            return false;
        }
    }
    true
}

// What a store answers to a record at a position. `None` if there is no such record.
fn store_one<S: Stable>(
    store: &mut AheadStore<S>,
    calm: S::Alloc,
    pos: u32,
    form: Form,
) -> Option<Result<(), StoreFault>> {
    let entry = record(calm, form, b'm')?;
    let answer = store.store(pos, &entry);
    drop(entry);
    Some(answer)
}

// What it answers to several records.
fn store_several<S: Stable>(
    store: &mut AheadStore<S>,
    calm: S::Alloc,
    pos: u32,
    forms: &[Form],
) -> Option<Result<(), StoreFault>> {
    let entries = image(calm, forms, b"")?;
    let answer = store.store_all(pos, &entries);
    drop(entries);
    Some(answer)
}

// Whether it gives these records.
fn gives<S: Stable>(store: &mut AheadStore<S>, calm: S::Alloc, forms: &[Form]) -> Option<bool> {
    let wanted = image(calm, forms, b"")?;
    let are_same = match store.retrieve(calm) {
        Ok(given) => {
            let are_same = are_same(&given, &wanted);
            drop(given);
            are_same
        }
        Err(_) => false,
    };
    drop(wanted);
    Some(are_same)
}

// Whether a step gets its expected answer.
fn is_right<S: Stable>(store: &mut AheadStore<S>, calm: S::Alloc, step: Step) -> bool {
    match step {
        Step::Keep(forms, answer) => match image(calm, forms, b"") {
            Some(mut entries) => store.store_ahead(&mut entries) == answer,
            None => false,
        },
        Step::Store(pos, form, answer) => store_one(store, calm, pos, form) == Some(answer),
        Step::StoreAll(pos, forms, answer) => {
            store_several(store, calm, pos, forms) == Some(answer)
        }
        Step::Retrieve(forms) => gives(store, calm, forms) == Some(true),
        Step::Left(left) => store.left() == left,
        Step::Next(pos) => store.next() == pos,
        Step::Doubtful(is_doubtful) => store.doubtful() == is_doubtful,
        Step::Stop => true,
    }
}

// Takes the steps over a store. Returns the number of the first one that is answered otherwise.
fn first_wrong<A: Allocator + Copy>(inner: MemStable<A>, calm: A, steps: &[Step]) -> Option<usize> {
    let mut store = AheadStore::new(calm, inner);
    let mut wrong = None;
    for (index, step) in steps.iter().enumerate() {
        if let Step::Stop = step {
            store = AheadStore::new(calm, store.into_inner());
        }
        if wrong.is_none() && !is_right(&mut store, calm, *step) {
            wrong = Some(index);
        }
    }
    drop(store);
    wrong
}

// Whether the steps over this store all get their expected answers.
fn take_steps_over(inner: MemStable, alloc: Global, steps: &[Step]) -> Result<(), Fail> {
    match first_wrong(inner, alloc, steps) {
        Some(index) => Err(Fail::new(format_args!("step {index}, from 0"))),
        None => Ok(()),
    }
}

// Whether the steps over a new store all get their expected answers.
fn take_steps(alloc: Global, steps: &[Step]) -> Result<(), Fail> {
    take_steps_over(MemStable::new(alloc), alloc, steps)
}

#[test]
fn records_ahead_are_given_out_one_by_one(rt: HostRuntime) -> Result<(), Fail> {
    let steps = [
        Step::Keep(&[FIRST, SECOND, CERTIFIED], Ok(())),
        Step::Left(3),
        Step::Next(1),
        Step::Doubtful(false),
        Step::Store(1, FIRST, Ok(())),
        Step::Left(2),
        Step::Next(2),
        Step::Store(2, SECOND, Ok(())),
        Step::Store(3, CERTIFIED, Ok(())),
        Step::Left(0),
        Step::Next(4),
        Step::Retrieve(&[FIRST, SECOND, CERTIFIED]),
        Step::Store(4, THIRD, Ok(())),
        Step::Keep(&[CERTIFIED], Ok(())),
        Step::Next(5),
        Step::Store(5, CERTIFIED, Ok(())),
        Step::Retrieve(&[FIRST, SECOND, CERTIFIED, THIRD, CERTIFIED]),
    ];
    take_steps(rt.alloc(), &steps)
}

#[test]
fn another_record_takes_the_place_of_those_ahead(rt: HostRuntime) -> Result<(), Fail> {
    let steps = [
        Step::Keep(&[FIRST, SECOND, CERTIFIED], Ok(())),
        Step::Store(1, FIRST, Ok(())),
        Step::Store(2, THIRD, Ok(())),
        Step::Left(0),
        Step::Doubtful(false),
        Step::Next(3),
        Step::Retrieve(&[FIRST, THIRD]),
        Step::Keep(&[SECOND, CERTIFIED], Ok(())),
        Step::Store(3, SECOND, Ok(())),
        Step::Stop,
        Step::Retrieve(&[FIRST, THIRD, SECOND, CERTIFIED]),
    ];
    take_steps(rt.alloc(), &steps)
}

#[test]
fn a_store_that_cannot_take_records_out_keeps_those_ahead(rt: HostRuntime) -> Result<(), Fail> {
    let alloc = rt.alloc();
    // A store that may hold records ahead itself refuses to take records out.
    let inner = AheadStore::new(alloc, MemStable::new(alloc));
    let mut store = AheadStore::new(alloc, inner);
    let steps = [
        Step::Keep(&[FIRST, SECOND], Ok(())),
        Step::Store(1, THIRD, Err(StoreFault::Device)),
        Step::Left(2),
        Step::Doubtful(true),
        Step::Store(1, FIRST, Err(StoreFault::Place(1))),
        Step::StoreAll(1, &[FIRST], Err(StoreFault::Place(1))),
        Step::Keep(&[FIRST], Err(StoreFault::Place(1))),
        Step::Retrieve(&[]),
        Step::Doubtful(false),
        Step::Store(1, THIRD, Err(StoreFault::Device)),
        Step::Retrieve(&[]),
        Step::Store(1, FIRST, Ok(())),
        Step::Store(2, SECOND, Ok(())),
        Step::Store(3, THIRD, Ok(())),
        Step::Retrieve(&[FIRST, SECOND, THIRD]),
    ];
    let are_right = are_right(&mut store, alloc, &steps);
    drop(store);
    assert!(rt; are_right);
    Ok(())
}

#[test]
fn several_records_wait_for_those_ahead(rt: HostRuntime) -> Result<(), Fail> {
    let steps = [
        Step::Keep(&[FIRST, SECOND], Ok(())),
        Step::StoreAll(1, &[], Ok(())),
        Step::StoreAll(2, &[FIRST], Err(StoreFault::Place(1))),
        Step::Left(2),
        Step::StoreAll(1, &[FIRST, SECOND], Err(StoreFault::Device)),
        Step::Store(1, FIRST, Err(StoreFault::Place(1))),
        Step::Retrieve(&[]),
        Step::Store(1, FIRST, Ok(())),
        Step::Stop,
        Step::Retrieve(&[FIRST, SECOND]),
    ];
    take_steps(rt.alloc(), &steps)
}

#[test]
fn a_record_at_another_position_leaves_those_ahead(rt: HostRuntime) -> Result<(), Fail> {
    let steps = [
        Step::Keep(&[FIRST], Ok(())),
        Step::Store(2, FIRST, Err(StoreFault::Place(1))),
        Step::Store(0, THIRD, Err(StoreFault::Place(1))),
        Step::Keep(&[SECOND], Err(StoreFault::Place(1))),
        Step::Left(1),
        Step::Store(1, FIRST, Ok(())),
    ];
    take_steps(rt.alloc(), &steps)
}

#[test]
fn records_ahead_are_not_retrieved(rt: HostRuntime) -> Result<(), Fail> {
    let steps = [
        Step::Store(1, FIRST, Ok(())),
        Step::Keep(&[SECOND, CERTIFIED, THIRD], Ok(())),
        Step::Retrieve(&[FIRST]),
        Step::Store(2, SECOND, Ok(())),
        Step::Retrieve(&[FIRST, SECOND]),
        Step::Left(2),
        Step::Next(3),
    ];
    take_steps(rt.alloc(), &steps)
}

#[test]
fn an_empty_list_is_not_ahead(rt: HostRuntime) -> Result<(), Fail> {
    let steps = [
        Step::Keep(&[], Ok(())),
        Step::Left(0),
        Step::Store(1, FIRST, Ok(())),
        Step::StoreAll(2, &[SECOND, THIRD], Ok(())),
        Step::Keep(&[], Ok(())),
        Step::Next(4),
        Step::Retrieve(&[FIRST, SECOND, THIRD]),
    ];
    take_steps(rt.alloc(), &steps)
}

#[test]
fn a_stop_leaves_the_records_ahead(rt: HostRuntime) -> Result<(), Fail> {
    let steps = [
        Step::Store(1, FIRST, Ok(())),
        Step::Keep(&[SECOND, CERTIFIED, THIRD], Ok(())),
        Step::Store(2, SECOND, Ok(())),
        Step::Stop,
        Step::Left(0),
        Step::Next(5),
        Step::Retrieve(&[FIRST, SECOND, CERTIFIED, THIRD]),
    ];
    take_steps(rt.alloc(), &steps)
}

// The same over a store whose first call fails.
fn take_steps_failing(alloc: Global, steps: &[Step]) -> Result<(), Fail> {
    let mut inner = MemStable::new(alloc);
    inner.arm(Failure::New);
    take_steps_over(inner, alloc, steps)
}

#[test]
fn a_failure_stays_hidden_until_the_next_store(rt: HostRuntime) -> Result<(), Fail> {
    let steps = [
        Step::Keep(&[FIRST, SECOND], Err(StoreFault::Device)),
        Step::Doubtful(false),
        Step::Next(1),
        Step::Keep(&[FIRST], Err(StoreFault::Place(1))),
        Step::Store(1, FIRST, Err(StoreFault::Device)),
        Step::Doubtful(true),
        Step::Store(1, FIRST, Err(StoreFault::Place(1))),
        Step::Retrieve(&[]),
        Step::Left(0),
        Step::Doubtful(false),
        Step::Store(1, THIRD, Ok(())),
        Step::Keep(&[FIRST, SECOND], Ok(())),
        Step::Stop,
        Step::Retrieve(&[THIRD, FIRST, SECOND]),
    ];
    take_steps_failing(rt.alloc(), &steps)
}

#[test]
fn a_failure_ends_the_next_store_of_several_records(rt: HostRuntime) -> Result<(), Fail> {
    let steps = [
        Step::Keep(&[FIRST], Err(StoreFault::Device)),
        Step::StoreAll(1, &[], Ok(())),
        Step::StoreAll(1, &[SECOND, THIRD], Err(StoreFault::Device)),
        Step::Retrieve(&[]),
        Step::StoreAll(1, &[SECOND, THIRD], Ok(())),
        Step::Retrieve(&[SECOND, THIRD]),
    ];
    take_steps_failing(rt.alloc(), &steps)
}

// Whether all steps get their expected answers.
pub(super) fn are_right<S: Stable>(
    store: &mut AheadStore<S>,
    calm: S::Alloc,
    steps: &[Step],
) -> bool {
    for step in steps {
        if !is_right(store, calm, *step) {
            return false;
        }
    }
    true
}

// Whether a value may go to another thread, and be dropped there.
fn may_go<T: Send + Drop>(_value: &T) -> bool {
    true
}

#[test]
fn a_store_with_records_ahead_may_go_to_a_thread(rt: HostRuntime) {
    let store = AheadStore::new(rt.alloc(), MemStable::new(rt.alloc()));
    let may_go = may_go(&store);
    drop(store);
    assert!(rt; may_go);
}
