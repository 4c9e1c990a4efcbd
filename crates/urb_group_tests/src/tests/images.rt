//! Groups that are opened from images, and images that are refused.
//!
//! Some images don't fit together. Another one lacks a record, and a restart gets it.

use super::{client, one, two};
use std::alloc::Global;
use std::test::Fail;
use urb_group::*;

/// A record of node 1's name with this number. Its message is the client's message with the same
/// number.
#[derive(Clone, Copy)]
enum Form {
    Pend(u32),
    PendCert(u32),
    Cert(u32),
}

/// The result of an opening.
#[derive(Clone, Copy, PartialEq, Eq, Debug)]
enum Outcome {
    /// The number of names in the log of node 1, and in that of node 2 if there is one.
    Open(usize, Option<usize>),
    /// The first record to break the rule: it is this node's, about node 1's name with this number.
    Misfit(Rule, u8, u32),
    /// Anything else.
    Refused(Refusal),
}

fn record(alloc: Global, form: Form) -> Option<Record> {
    let (Form::Pend(seq) | Form::PendCert(seq) | Form::Cert(seq)) = form;
    if seq == 0 {
        return None;
    }
    let name = Name { sender: one(), seq };
    if matches!(form, Form::Cert(_)) {
        return Some(Record::Cert(name));
    }
    let message = Message::copy_of(alloc, client(), seq, b"a").ok()?;
    if matches!(form, Form::Pend(_)) {
        return Some(Record::Pend(name, message));
    }
    Some(Record::PendCert(name, message))
}

fn image(alloc: Global, forms: &[Form]) -> Option<Vec<Record>> {
    let mut records = Vec::new(alloc);
    for form in forms {
        records.push(record(alloc, *form)?).ok()?;
    }
    Some(records)
}

fn images(alloc: Global, forms: &[&[Form]]) -> Option<Vec<Vec<Record>>> {
    let mut images = Vec::new(alloc);
    for form in forms {
        images.push(image(alloc, form)?).ok()?;
    }
    Some(images)
}

// Opens a group with this cap from these images, one for each node.
fn open_under(alloc: Global, cap: u32, forms: &[&[Form]]) -> Option<Result<Group, Refusal>> {
    let images = images(alloc, forms)?;
    let config = Config::new(u8::try_from(images.len()).ok()?, cap)?;
    Some(Group::open(alloc, config, images))
}

// Does the same with a cap of 10.
fn open_images(alloc: Global, forms: &[&[Form]]) -> Option<Result<Group, Refusal>> {
    open_under(alloc, 10, forms)
}

// Returns the result in short.
fn outcome_of(opened: &Result<Group, Refusal>) -> Option<Outcome> {
    match opened {
        Ok(group) => {
            let second = group.log(two()).map(|names| names.len());
            Some(Outcome::Open(group.log(one())?.len(), second))
        }
        Err(Refusal::Inconsistent { rule, node, name }) if name.sender == one() => {
            Some(Outcome::Misfit(*rule, node.number(), name.seq))
        }
        Err(refusal) => Some(Outcome::Refused(*refusal)),
    }
}

fn open_and_judge(alloc: Global, forms: &[&[Form]]) -> Option<Outcome> {
    outcome_of(&open_images(alloc, forms)?)
}

/// Images, and the results of opening them.
const ROWS: [(&[&[Form]], Outcome); 8] = [
    // A lone node delivers what it had certified, and so does a relay.
    (&[&[Form::PendCert(1)]], Outcome::Open(1, None)),
    (&[&[], &[], &[]], Outcome::Open(0, Some(0))),
    (
        &[&[Form::Pend(1)], &[Form::PendCert(1)], &[]],
        Outcome::Open(0, Some(1)),
    ),
    // Its sender lost the message.
    (
        &[&[], &[Form::PendCert(1)], &[]],
        Outcome::Misfit(Rule::C, 2, 1),
    ),
    // One of three has stored what is certified.
    (
        &[&[Form::PendCert(1)], &[], &[]],
        Outcome::Misfit(Rule::D, 1, 1),
    ),
    // A number is skipped.
    (
        &[&[Form::Pend(2)], &[], &[]],
        Outcome::Misfit(Rule::B, 1, 2),
    ),
    // A certificate has no message.
    (
        &[&[Form::Cert(1)], &[], &[]],
        Outcome::Misfit(Rule::A, 1, 1),
    ),
    // Half of the nodes have stored what is certified.
    (
        &[&[Form::PendCert(1)], &[Form::Pend(1)], &[], &[]],
        Outcome::Misfit(Rule::D, 1, 1),
    ),
];

#[test]
fn images_open_where_they_fit_together(rt: HostRuntime) -> Result<(), Fail> {
    for (forms, wanted) in ROWS {
        assert_eq!(rt; open_and_judge(rt.alloc(), forms), Some(wanted));
    }
    Ok(())
}

/// What three nodes hold that have all certified a message, and what new nodes hold.
const ALL: &[Form] = &[Form::PendCert(1)];

const HELD: &[Form] = &[Form::Pend(1)];

const NEW: &[Form] = &[];

/// Caps and images of a group that starts with other limits, and the results of opening them.
const OTHER_LIMITS: [(u32, &[&[Form]], Outcome); 10] = [
    // Two messages fit under a cap of two or more.
    (
        1,
        &[&[Form::PendCert(1), Form::PendCert(2)]],
        Outcome::Misfit(Rule::A, 1, 2),
    ),
    (
        2,
        &[&[Form::PendCert(1), Form::PendCert(2)]],
        Outcome::Open(2, None),
    ),
    (
        1_000_000,
        &[&[Form::PendCert(1), Form::PendCert(2)]],
        Outcome::Open(2, None),
    ),
    // A smaller cap counts the messages of each sender alone.
    (1, &[ALL, ALL, ALL], Outcome::Open(1, Some(1))),
    // Three nodes are a majority of four and five, and not of six.
    (10, &[ALL, ALL, ALL, NEW], Outcome::Open(1, Some(1))),
    (10, &[ALL, ALL, ALL, NEW, NEW], Outcome::Open(1, Some(1))),
    (
        10,
        &[ALL, ALL, ALL, NEW, NEW, NEW],
        Outcome::Misfit(Rule::D, 1, 1),
    ),
    // Two nodes are no majority of four.
    (10, &[ALL, HELD, NEW, NEW], Outcome::Misfit(Rule::D, 1, 1)),
    // What isn't certified yet needs no majority.
    (10, &[HELD, NEW, NEW, NEW], Outcome::Open(0, Some(0))),
    // A lone node that grows.
    (10, &[ALL, NEW], Outcome::Misfit(Rule::D, 1, 1)),
];

#[test]
fn images_open_under_other_limits_with_room_and_majorities(rt: HostRuntime) -> Result<(), Fail> {
    for (cap, forms, wanted) in OTHER_LIMITS {
        let opened = open_under(rt.alloc(), cap, forms).ok_or("memory")?;
        assert_eq!(rt; outcome_of(&opened), Some(wanted));
    }
    Ok(())
}

// Returns how a restart of node 2 with no records is refused: while the node is up, and once it is
// down.
fn refusals(group: &mut Group, alloc: Global) -> Option<(Refusal, Refusal)> {
    let up = group.restart(alloc, two(), Vec::new(alloc)).err()?;
    group.crash(two()).ok()?;
    let down = group.restart(alloc, two(), Vec::new(alloc)).err()?;
    Some((up, down))
}

// Does the same if node 2 has a record.
fn refusals_of_an_empty_image(alloc: Global) -> Option<(Refusal, Refusal)> {
    match open_images(alloc, &[&[Form::Pend(1)], &[Form::PendCert(1)], &[]])? {
        Ok(mut group) => refusals(&mut group, alloc),
        Err(_) => None,
    }
}

#[test]
fn an_image_that_lost_a_record_is_refused(rt: HostRuntime) -> Result<(), Fail> {
    assert_eq!(rt;
        refusals_of_an_empty_image(rt.alloc()),
        Some((Refusal::NotDown, Refusal::BadImage))
    );
    Ok(())
}
