//! Journals that share the messages of a pool.

use super::kept::{journal_of, write_records};
use super::records::{Form, Kept, Load, are_kept};
use sqlite::Alter;
use std::alloc::{Allocator, Global};
use std::sync::Arc;
use urb_names::{ClientId, MAX_PAYLOAD, Message, Name, NodeId};
use urb_refusing::Refusing;
use urb_sqlite::{MessagePool, SqlStable};
use urb_stable::{Record, Stable};

// What the pool gives to a journal that has this payload under the name 1.1. `None`: memory was
// refused.
fn read<A: Allocator + Copy>(
    pool: &MessagePool<A>,
    alloc: A,
    payload: &[u8],
) -> Option<Message<A>> {
    if payload.len() > MAX_PAYLOAD {
        return None;
    }
    let sender = NodeId::new(1).unwrap();
    let name = Name { sender, seq: 1 };
    let client = ClientId::new(7).unwrap();
    pool.message(alloc, name, client, 1, payload).ok()
}

// Whether it is a message with this payload.
fn has<A: Allocator>(message: &Option<Message<A>>, payload: &[u8]) -> bool {
    match message {
        Some(message) => message.payload() == payload,
        None => false,
    }
}

// How many growths the second of two reads under one name asks for. `None`: a read gave another
// message than its payload's.
fn growths_of_second(alloc: Global, first: &[u8], second: &[u8]) -> Option<u64> {
    let heap = Refusing::new(alloc, 0);
    let pool = MessagePool::new(&heap);
    let one = read(&pool, &heap, first);
    let before = heap.growths();
    let other = read(&pool, &heap, second);
    let more = heap.growths().saturating_sub(before);
    let is_right = has(&one, first) && has(&other, second);
    drop(one);
    drop(other);
    drop(pool);
    drop(heap);
    if is_right { Some(more) } else { None }
}

#[test]
fn the_same_message_takes_no_memory_again(rt: HostRuntime) {
    assert_eq!(rt; growths_of_second(rt.alloc(), b"same", b"same"), Some(0));
}

#[test]
fn another_message_under_the_name_is_its_own(rt: HostRuntime) {
    // The payload, and its count of owners.
    assert_eq!(rt; growths_of_second(rt.alloc(), b"one", b"two"), Some(2));
}

// Two journals read the same message while this growth is refused. Returns whether it was refused.
// `None` if a read gave something wrong: the first gives nothing if it was refused, and the second
// gives the message.
fn with_refused(alloc: Global, refused: u64) -> Option<bool> {
    let heap = Refusing::new(alloc, refused);
    let pool = MessagePool::new(&heap);
    let first = read(&pool, &heap, b"same");
    let second = read(&pool, &heap, b"same");
    let met = heap.has_failed();
    let is_right = has(&first, b"same") != met && has(&second, b"same");
    drop(first);
    drop(second);
    drop(pool);
    drop(heap);
    if is_right { Some(met) } else { None }
}

#[test]
fn a_refused_growth_leaves_the_pool_as_it_was(rt: HostRuntime) {
    let mut growths = 0u64;
    for refused in 1..20 {
        match with_refused(rt.alloc(), refused) {
            Some(true) => growths = refused,
            Some(false) => {}
            None => assert!(rt; false, "growth {refused}"),
        }
    }
    // The payload, its count of owners, and the pool's own place for it.
    assert!(rt; growths == 3, "{growths} growths");
}

// The payload of the first record of a journal that holds these rows, which reads them with the
// pool. `None` if it reads others.
fn first_payload<S: Alter + Drop>(
    alloc: Global,
    journal: SqlStable<S>,
    pool: Arc<MessagePool>,
    rows: &[Kept],
) -> Option<Message> {
    let mut journal = journal;
    journal.share_with(pool);
    let mut records = journal.retrieve(alloc).ok()?;
    drop(journal);
    if !are_kept(alloc, &records, rows) {
        return None;
    }
    records.truncate(1);
    match records.pop() {
        Some(Record::Pend(_, message)) | Some(Record::PendCert(_, message)) => Some(message),
        _ => None,
    }
}

// The same of a new journal.
fn payload_read(alloc: Global, pool: &Arc<MessagePool>, rows: &[Kept]) -> Option<Message> {
    let bytes = write_records(alloc, rows)?;
    let pool = Arc::try_clone(pool).ok()?;
    match journal_of(alloc, (&bytes.log, u64::MAX), (&bytes.db, u64::MAX)) {
        Some(journal) => first_payload(alloc, journal, pool, rows),
        None => None,
    }
}

#[test]
fn journals_let_go_of_a_pool_when_they_have_read(rt: HostRuntime) {
    let alloc = rt.alloc();
    let sender = [
        (Form::Pending, 1, Load::Long(2000)),
        (Form::Certificate, 1, Load::Of(b"")),
    ];
    let other = [(Form::Certified, 1, Load::Long(2000))];
    let Ok(pool) = Arc::new(alloc, MessagePool::new(alloc)) else {
        return;
    };
    let first = payload_read(alloc, &pool, &sender);
    let second = payload_read(alloc, &pool, &other);
    // Each journal has let go of the pool, so it ends here.
    assert!(rt; Arc::strong_count(&pool) == 1);
    drop(pool);
    assert!(rt; first.is_some() && second.is_some());
}
