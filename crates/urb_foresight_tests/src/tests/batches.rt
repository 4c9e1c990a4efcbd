//! What is foreseen of a list of calls, and what they do once the foreseen records are stored.

use super::{Coming, Form, Waiting, group_of, make_waiting, records};
use std::alloc::Global;
use std::test::Fail;
use urb_foresight::{Foreseen, Foresight, MAX_BATCH, foresee, foresee_calls};
use urb_group::*;
use urb_names::MAX_PAYLOAD;
use urb_stable::{StoredBatch, store_ahead};

/// A group, calls that come to one of its nodes, and what is foreseen of each.
struct Row {
    fact: &'static str,
    images: &'static [&'static [Form]],
    node: u8,
    calls: &'static [Coming],
    foreseen: &'static [Foreseen],
}

const DRAFT: Foreseen = Foreseen::Draft;

const NONE: Foreseen = Foreseen::NoDraft;

const UNSURE: Foreseen = Foreseen::Unsure;

// Node 1 has stored two messages of its own, and node 2 the first of them.
const THREE: &[&[Form]] = &[
    &[Form::Pend(1, 1), Form::Pend(1, 2)],
    &[Form::PendCert(1, 1)],
    &[],
];

const FIVE: &[&[Form]] = &[&[Form::Pend(1, 1)], &[Form::Pend(1, 1)], &[], &[], &[]];

const ROWS: [Row; 13] = [
    Row {
        fact: "a client's submits are drafted in order",
        images: &[&[]],
        node: 1,
        calls: &[
            Coming::Submit(7, 1, b"a"),
            Coming::Submit(7, 2, b"b"),
            Coming::Submit(7, 3, b"c"),
        ],
        foreseen: &[DRAFT, DRAFT, DRAFT],
    },
    Row {
        fact: "a repeat drafts nothing, also of a message in the batch, and with another payload",
        images: THREE,
        node: 1,
        calls: &[
            Coming::Submit(7, 2, b"a"),
            Coming::Submit(7, 3, b"c"),
            Coming::Submit(7, 3, b"c"),
            Coming::Submit(7, 3, b"d"),
        ],
        foreseen: &[NONE, DRAFT, NONE, NONE],
    },
    Row {
        fact: "a gap drafts nothing, and neither does number 0",
        images: &[&[], &[], &[]],
        node: 2,
        calls: &[
            Coming::Submit(7, 2, b"b"),
            Coming::Submit(7, 1, b"a"),
            Coming::Submit(7, 3, b"c"),
            Coming::Submit(7, 0, b"c"),
            Coming::Submit(7, 2, b"b"),
        ],
        foreseen: &[NONE, DRAFT, NONE, NONE, DRAFT],
    },
    Row {
        fact: "each client counts by itself",
        images: &[&[], &[], &[]],
        node: 3,
        calls: &[
            Coming::Submit(7, 1, b"a"),
            Coming::Submit(8, 1, b"a"),
            Coming::Submit(8, 2, b"b"),
            Coming::Submit(7, 2, b"b"),
        ],
        foreseen: &[DRAFT, DRAFT, DRAFT, DRAFT],
    },
    Row {
        fact: "a name that is new to the node is drafted, once",
        images: THREE,
        node: 3,
        calls: &[
            Coming::Arrive(1, 1, 1, false),
            Coming::Arrive(2, 1, 1, true),
            Coming::Arrive(1, 1, 1, false),
            Coming::Arrive(1, 1, 2, false),
        ],
        foreseen: &[DRAFT, NONE, NONE, DRAFT],
    },
    Row {
        fact: "a certificate of a pending name is drafted, once",
        images: THREE,
        node: 1,
        calls: &[Coming::Arrive(2, 1, 1, true), Coming::Arrive(2, 1, 1, true)],
        foreseen: &[DRAFT, NONE],
    },
    Row {
        fact: "arrivals and submits mix",
        images: THREE,
        node: 3,
        calls: &[
            Coming::Submit(7, 1, b"a"),
            Coming::Arrive(1, 1, 1, false),
            Coming::Submit(7, 2, b"b"),
            Coming::Arrive(1, 1, 2, false),
        ],
        foreseen: &[DRAFT, DRAFT, DRAFT, DRAFT],
    },
    Row {
        fact: "a packet for another node drafts nothing, nor does one of a node that isn't there",
        images: THREE,
        node: 3,
        calls: &[
            Coming::Stray(1, 2, 1, 1),
            Coming::Stray(1, 2, 1, 2),
            Coming::Arrive(4, 1, 1, false),
            Coming::Arrive(1, 4, 1, false),
        ],
        foreseen: &[NONE, NONE, NONE, NONE],
    },
    Row {
        fact: "bytes that are no packet draft nothing",
        images: THREE,
        node: 3,
        calls: &[Coming::Bytes(b""), Coming::Bytes(b"no packet")],
        foreseen: &[NONE, NONE],
    },
    Row {
        fact: "of five nodes, a new name is drafted as pending",
        images: FIVE,
        node: 3,
        calls: &[Coming::Arrive(1, 1, 1, false), Coming::Submit(7, 1, b"a")],
        foreseen: &[DRAFT, DRAFT],
    },
    Row {
        fact: "of five nodes, two holders are no majority",
        images: FIVE,
        node: 1,
        calls: &[Coming::Arrive(2, 1, 1, false), Coming::Submit(7, 2, b"b")],
        foreseen: &[NONE, DRAFT],
    },
    Row {
        fact: "a payload that is too long drafts nothing",
        images: &[&[]],
        node: 1,
        calls: &[
            Coming::Submit(7, 1, &[0; MAX_PAYLOAD + 1]),
            Coming::Submit(7, 1, &[0; MAX_PAYLOAD]),
        ],
        foreseen: &[NONE, DRAFT],
    },
    Row {
        fact: "a group foresees nothing for a node that it doesn't have",
        images: &[&[]],
        node: 2,
        calls: &[],
        foreseen: &[],
    },
];

// What is foreseen of these calls, and the records.
fn foresee_all(
    alloc: Global,
    group: &Group,
    node: NodeId,
    calls: &[Waiting],
) -> Option<(Vec<Foreseen>, Vec<Record>)> {
    let mut foresight = Foresight::new(alloc);
    let mut all = Vec::new(alloc);
    for call in calls {
        let foreseen = foresee(group, alloc, node, &mut foresight, &call.call()).ok()?;
        all.push(foreseen).ok()?;
    }
    Some((all, foresight.into_records()))
}

// The group takes a call, and its draft claims its receipt from the batch.
fn take(
    alloc: Global,
    group: &mut Group,
    node: NodeId,
    call: &Waiting,
    batch: &mut StoredBatch,
) -> Option<Foreseen> {
    let taken = match call {
        Waiting::Submit(client, number, payload) => {
            group.submit(alloc, node, *client, *number, payload)
        }
        Waiting::Arrive(bytes) => group.arrive(alloc, node, bytes),
    };
    let Ok(Taken::Store(draft)) = taken else {
        return Some(Foreseen::NoDraft);
    };
    let receipt = draft.claim(batch).ok()?;
    group.commit(receipt).ok()?;
    Some(Foreseen::Draft)
}

// What these calls do, if a store keeps the foreseen records before them.
fn replay(
    alloc: Global,
    group: &mut Group,
    node: NodeId,
    image: Vec<Record>,
    ahead: Vec<Record>,
    calls: &[Waiting],
) -> Option<Vec<Foreseen>> {
    let mut store = MemStable::new(alloc);
    store.store_all(1, &image).ok()?;
    let mut batch = store_ahead(node, store.next(), ahead, &mut store).ok()?;
    let mut all = Vec::new(alloc);
    for call in calls {
        all.push(take(alloc, group, node, call, &mut batch)?).ok()?;
    }
    if batch.left() == 0 { Some(all) } else { None }
}

// What is foreseen of a row's calls, if they do just that.
fn foreseen_of(alloc: Global, row: &Row) -> Option<Vec<Foreseen>> {
    let mut group = group_of(alloc, row.images)?;
    let node = NodeId::new(row.node)?;
    let mut calls = Vec::new(alloc);
    for coming in row.calls {
        calls.push(make_waiting(alloc, node, *coming)?).ok()?;
    }
    let (foreseen, ahead) = foresee_all(alloc, &group, node, &calls)?;
    if calls.len() == 0 {
        return Some(foreseen);
    }
    let image = records(
        alloc,
        row.images.get(usize::from(row.node).checked_sub(1)?)?,
    )?;
    let done = replay(alloc, &mut group, node, image, ahead, &calls)?;
    if done.as_slice() == foreseen.as_slice() {
        Some(foreseen)
    } else {
        None
    }
}

#[test]
fn calls_do_what_is_foreseen(rt: HostRuntime) -> Result<(), Fail> {
    for row in &ROWS {
        let foreseen = foreseen_of(rt.alloc(), row);
        let is_right = match &foreseen {
            Some(foreseen) => foreseen.as_slice() == row.foreseen,
            None => false,
        };
        assert!(rt; is_right, "{}", row.fact);
    }
    Ok(())
}

// What is foreseen of one call at a node of the group of these images.
fn foresee_at(
    alloc: Global,
    images: &[&[Form]],
    node: u8,
    is_down: bool,
    coming: Coming,
) -> Option<Foreseen> {
    let mut group = group_of(alloc, images)?;
    let node = NodeId::new(node)?;
    if is_down {
        group.crash(node).ok()?;
    }
    let mut foresight = Foresight::new(alloc);
    let call = make_waiting(alloc, node, coming)?;
    foresee(&group, alloc, node, &mut foresight, &call.call()).ok()
}

#[test]
fn some_calls_are_left_unsure(rt: HostRuntime) -> Result<(), Fail> {
    let submit = Coming::Submit(7, 1, b"a");
    // Node 4 isn't there, and node 3 is down.
    assert_eq!(rt;
        foresee_at(rt.alloc(), THREE, 4, false, submit),
        Some(UNSURE)
    );
    assert_eq!(rt;
        foresee_at(rt.alloc(), THREE, 3, true, submit),
        Some(UNSURE)
    );
    // Three of five nodes hold the name, but a group doesn't tell whom node 1 has counted.
    let images: [&[Form]; 5] = [
        &[Form::Pend(1, 1)],
        &[Form::Pend(1, 1)],
        &[Form::Pend(1, 1)],
        &[],
        &[],
    ];
    let arrival = Coming::Arrive(2, 1, 1, false);
    assert_eq!(rt;
        foresee_at(rt.alloc(), &images, 1, false, arrival),
        Some(UNSURE)
    );
    Ok(())
}

// Node 2 has stored the second message too, and both nodes have certified the first one.
const MORE: &[&[Form]] = &[
    &[Form::PendCert(1, 1), Form::Pend(1, 2)],
    &[Form::PendCert(1, 1), Form::PendCert(1, 2)],
    &[],
];

#[test]
fn a_packet_is_unsure_until_its_source_has_stored_what_it_says(
    rt: HostRuntime,
) -> Result<(), Fail> {
    let message = Coming::Arrive(2, 1, 2, false);
    assert_eq!(rt;
        foresee_at(rt.alloc(), THREE, 3, false, message),
        Some(UNSURE)
    );
    assert_eq!(rt;
        foresee_at(rt.alloc(), MORE, 3, false, message),
        Some(DRAFT)
    );
    let certificate = Coming::Arrive(1, 1, 1, true);
    assert_eq!(rt;
        foresee_at(rt.alloc(), THREE, 3, false, certificate),
        Some(UNSURE)
    );
    assert_eq!(rt;
        foresee_at(rt.alloc(), MORE, 3, false, certificate),
        Some(DRAFT)
    );
    Ok(())
}

// How many records are foreseen of these calls of node 3 together, and whether memory was refused.
fn foresee_together(alloc: Global, comings: &[Coming]) -> Option<(usize, bool)> {
    let group = group_of(alloc, THREE)?;
    let node = NodeId::new(3)?;
    let mut all = Vec::new(alloc);
    for coming in comings {
        let waiting = make_waiting(alloc, node, *coming)?;
        all.reserve(1).ok()?;
        all.push_reserved(waiting);
    }
    let mut calls = Vec::new(alloc);
    for waiting in &all {
        calls.reserve(1).ok()?;
        calls.push_reserved(waiting.call());
    }
    let (foresight, refused) = foresee_calls(&group, alloc, node, &calls);
    Some((foresight.records().len(), refused.is_some()))
}

#[test]
fn calls_are_foreseen_up_to_the_first_unsure_one(rt: HostRuntime) -> Result<(), Fail> {
    let sure = [
        Coming::Submit(7, 1, b"a"),
        Coming::Bytes(b""),
        Coming::Submit(7, 2, b"b"),
    ];
    assert_eq!(rt; foresee_together(rt.alloc(), &sure), Some((2, false)));
    let unsure = [
        Coming::Submit(7, 1, b"a"),
        Coming::Arrive(2, 1, 2, false),
        Coming::Submit(7, 2, b"b"),
    ];
    assert_eq!(rt; foresee_together(rt.alloc(), &unsure), Some((1, false)));
    assert_eq!(rt; foresee_together(rt.alloc(), &[]), Some((0, false)));
    Ok(())
}

// What is foreseen of the last of `count` submits of one client, and how many records there are.
fn foresee_many(alloc: Global, count: u32) -> Option<(Foreseen, usize)> {
    let group = group_of(alloc, &[&[]])?;
    let node = NodeId::new(1)?;
    let mut foresight = Foresight::new(alloc);
    let mut last = Foreseen::Unsure;
    for before in 0..count {
        let call = make_waiting(alloc, node, Coming::Submit(7, before.checked_add(1)?, b"a"))?;
        last = foresee(&group, alloc, node, &mut foresight, &call.call()).ok()?;
    }
    Some((last, foresight.records().len()))
}

#[test]
fn a_batch_has_a_greatest_number_of_records(rt: HostRuntime) -> Result<(), Fail> {
    assert_eq!(rt; MAX_BATCH, 16);
    assert_eq!(rt; foresee_many(rt.alloc(), 16), Some((DRAFT, 16)));
    assert_eq!(rt; foresee_many(rt.alloc(), 17), Some((UNSURE, 16)));
    Ok(())
}
