//! Records that may follow the stored ones of a node, and records that may not.

use super::{client, two};
use std::alloc::Global;
use std::test::Fail;
use urb_group::*;

/// A record's kind, sender and number. Its message is the client's with the same number.
#[derive(Clone, Copy)]
enum Form {
    Pend(u8, u32),
    PendCert(u8, u32),
    Cert(u8, u32),
}

fn record(alloc: Global, form: Form) -> Option<Record> {
    let (Form::Pend(sender, seq) | Form::PendCert(sender, seq) | Form::Cert(sender, seq)) = form;
    if seq == 0 {
        return None;
    }
    let sender = NodeId::new(sender)?;
    let name = Name { sender, seq };
    if matches!(form, Form::Cert(_, _)) {
        return Some(Record::Cert(name));
    }
    let message = Message::copy_of(alloc, client(), seq, b"a").ok()?;
    if matches!(form, Form::Pend(_, _)) {
        return Some(Record::Pend(name, message));
    }
    Some(Record::PendCert(name, message))
}

fn records(alloc: Global, forms: &[Form]) -> Option<Vec<Record>> {
    let mut records = Vec::new(alloc);
    for form in forms {
        records.push(record(alloc, *form)?).ok()?;
    }
    Some(records)
}

// Says whether these records may follow at a node of the group of these images, with a cap of 3.
fn may_follow(alloc: Global, images: &[&[Form]], node: u8, forms: &[Form]) -> Option<bool> {
    let mut stored = Vec::new(alloc);
    for image in images {
        stored.push(records(alloc, image)?).ok()?;
    }
    let config = Config::new(u8::try_from(stored.len()).ok()?, 3)?;
    let group = Group::open(alloc, config, stored).ok()?;
    Some(group.may_follow(NodeId::new(node)?, &records(alloc, forms)?))
}

/// Three nodes: node 1 has stored two messages of its own, and node 2 the first of them.
const THREE: [&[Form]; 3] = [
    &[Form::Pend(1, 1), Form::Pend(1, 2)],
    &[Form::Pend(1, 1)],
    &[],
];

/// Records at a node of the three, and whether they may follow.
const ROWS: [(u8, &[Form], bool); 20] = [
    (1, &[], true),
    (1, &[Form::Pend(1, 3)], true),
    (1, &[Form::Cert(1, 1), Form::Pend(1, 3)], true),
    (3, &[Form::PendCert(1, 1), Form::Pend(1, 2)], true),
    (3, &[Form::Pend(1, 2), Form::Cert(1, 2)], true),
    (
        3,
        &[Form::Pend(3, 1), Form::Pend(3, 2), Form::Pend(1, 1)],
        true,
    ),
    // No such node.
    (4, &[], false),
    // Known already, stored or in the list.
    (1, &[Form::Pend(1, 2)], false),
    (3, &[Form::Pend(1, 1), Form::Pend(1, 1)], false),
    // Above the cap, and of a node that the group doesn't have.
    (1, &[Form::Pend(1, 3), Form::Pend(1, 4)], false),
    (1, &[Form::Pend(4, 1)], false),
    // A certificate without its record, before it, or twice.
    (2, &[Form::Cert(1, 2)], false),
    (3, &[Form::Cert(1, 1), Form::Pend(1, 1)], false),
    (1, &[Form::Cert(1, 1), Form::Cert(1, 1)], false),
    (3, &[Form::PendCert(1, 1), Form::Cert(1, 1)], false),
    // A number of its own is left out.
    (3, &[Form::Pend(3, 1), Form::Pend(3, 3)], false),
    (2, &[Form::Pend(2, 2)], false),
    // The sender lacks the pair.
    (3, &[Form::Pend(2, 1)], false),
    // One of three has stored it.
    (1, &[Form::Cert(1, 2)], false),
    (3, &[Form::Pend(3, 1), Form::Cert(3, 1)], false),
];

#[test]
fn records_follow_if_each_keeps_the_rules(rt: HostRuntime) -> Result<(), Fail> {
    for row in &ROWS {
        assert_eq!(rt; may_follow(rt.alloc(), &THREE, row.0, row.1), Some(row.2));
    }
    Ok(())
}

// A group of one whose node has stored a message of the client's. The numbers of two clients: may
// the second one's message follow?
fn follow_another(alloc: Global, number: u32) -> Option<bool> {
    let mut stored = Vec::new(alloc);
    stored.push(records(alloc, &[Form::Pend(1, 1)])?).ok()?;
    let group = Group::open(alloc, Config::new(1, 3)?, stored).ok()?;
    let sender = NodeId::new(1)?;
    if number == 0 {
        return None;
    }
    let message = Message::copy_of(alloc, ClientId::new(8)?, number, b"a").ok()?;
    let mut tail = Vec::new(alloc);
    tail.push(Record::Pend(Name { sender, seq: 2 }, message))
        .ok()?;
    Some(group.may_follow(sender, &tail))
}

#[test]
fn each_client_has_numbers_of_its_own(rt: HostRuntime) -> Result<(), Fail> {
    assert_eq!(rt; follow_another(rt.alloc(), 1), Some(true));
    assert_eq!(rt; follow_another(rt.alloc(), 2), Some(false));
    Ok(())
}

// Crashes node 2 of a new group of three. May a message of its own follow?
fn follow_at_a_crashed_node(alloc: Global) -> Option<bool> {
    let mut group = Group::new(alloc, Config::new(3, 3)?).ok()?;
    group.crash(two()).ok()?;
    Some(group.may_follow(two(), &records(alloc, &[Form::Pend(2, 1)])?))
}

#[test]
fn a_node_that_is_down_is_asked_too(rt: HostRuntime) -> Result<(), Fail> {
    assert_eq!(rt; follow_at_a_crashed_node(rt.alloc()), Some(true));
    Ok(())
}
