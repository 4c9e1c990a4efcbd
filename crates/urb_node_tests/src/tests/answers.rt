//! What a node hears about the others' certificates, and what it answers.

use super::*;
use crate::tests::playing::{count_growths, play_all, plays_each, take_no_more};
use crate::tests::rows::{
    Act, BOTH, CAP, CERTIFICATE, CERTIFIED, Form, IS_CERTIFIED, IS_HEARD, List, NEITHER, PENDING,
    Row, Start, What,
};
use std::alloc::Global;

const FIRST: (u8, u32) = (1, 1);

/// Node 1 of three, once its first message is certified. It never answers a packet of version one.
/// It answers one of version two unless that says that the certificate was heard. The answer says
/// whether the other node's certificate was heard.
static ANSWERS: [List; 1] = [List {
    start: Start::New(3, 1, CAP),
    parts: &[&[
        (Act::Submit(1, PENDING), FIRST, b"m"),
        (Act::Arrive(2, CERTIFICATE), FIRST, b"m"),
        (Act::Arrive(2, What::Again), FIRST, b"m"),
        (Act::Arrive(3, What::Again), FIRST, b"m"),
        (Act::Tell(2, NEITHER, What::Answered(2, false)), FIRST, b"m"),
        (Act::Tell(2, IS_HEARD, What::Again), FIRST, b"m"),
        (Act::Tell(2, NEITHER, What::Answered(2, false)), FIRST, b"m"),
        (
            Act::Tell(2, IS_CERTIFIED, What::Answered(2, true)),
            FIRST,
            b"m",
        ),
        (Act::Tell(2, NEITHER, What::Answered(2, true)), FIRST, b"m"),
        (Act::Tell(2, BOTH, What::Again), FIRST, b"m"),
        (Act::Tell(3, NEITHER, What::Answered(3, false)), FIRST, b"m"),
        (Act::Tell(3, BOTH, What::Again), FIRST, b"m"),
        (Act::Tell(3, NEITHER, What::Answered(3, true)), FIRST, b"m"),
        (Act::Arrive(3, What::Again), FIRST, b"m"),
    ]],
}];

#[test]
fn a_certified_name_is_answered_to_who_did_not_hear_of_it(rt: HostRuntime) {
    play_all(&rt, &ANSWERS);
}

/// Node 1 of five hears a certificate from each of three packets. One packet is noted, one adds
/// nothing else, and one makes the node draft its own certificate.
static HEARS: [List; 3] = [
    List {
        start: Start::New(5, 1, CAP),
        parts: &[&[
            (Act::Submit(1, PENDING), FIRST, b"m"),
            (Act::Tell(2, IS_CERTIFIED, What::Noted), FIRST, b"m"),
            (Act::Arrive(3, CERTIFICATE), FIRST, b"m"),
            (Act::Tell(3, NEITHER, What::Answered(3, false)), FIRST, b"m"),
            (Act::Tell(2, NEITHER, What::Answered(2, true)), FIRST, b"m"),
        ]],
    },
    List {
        start: Start::New(5, 1, CAP),
        parts: &[&[
            (Act::Submit(1, PENDING), FIRST, b"m"),
            (Act::Arrive(2, What::Noted), FIRST, b"m"),
            (Act::Tell(2, IS_CERTIFIED, What::Again), FIRST, b"m"),
            (Act::Arrive(3, CERTIFICATE), FIRST, b"m"),
            (Act::Tell(2, NEITHER, What::Answered(2, true)), FIRST, b"m"),
        ]],
    },
    List {
        start: Start::New(5, 1, CAP),
        parts: &[&[
            (Act::Submit(1, PENDING), FIRST, b"m"),
            (Act::Arrive(2, What::Noted), FIRST, b"m"),
            (Act::Tell(3, IS_CERTIFIED, CERTIFICATE), FIRST, b"m"),
            (Act::Tell(2, NEITHER, What::Answered(2, false)), FIRST, b"m"),
            (Act::Tell(3, NEITHER, What::Answered(3, true)), FIRST, b"m"),
        ]],
    },
];

#[test]
fn a_certificate_is_heard_whatever_its_packet_leads_to(rt: HostRuntime) {
    play_all(&rt, &HEARS);
}

/// A message with a certificate comes to node 3 from node 2. Node 3 tells node 2 that the
/// certificate was heard, and resends nothing to it.
static RELAYS: [List; 2] = [
    List {
        start: Start::New(4, 3, CAP),
        parts: &[&[
            (
                Act::Tell(2, IS_CERTIFIED, What::Drafted(Form::Pending, 1)),
                FIRST,
                b"m",
            ),
            (
                Act::Store(
                    false,
                    0,
                    &[(1, 1, NEITHER), (2, 1, IS_HEARD), (4, 1, NEITHER)],
                ),
                FIRST,
                b"m",
            ),
            (Act::Tick(&[(1, 1, NEITHER), (4, 1, NEITHER)]), FIRST, b"m"),
        ]],
    },
    List {
        start: Start::New(3, 3, CAP),
        parts: &[&[
            (
                Act::Tell(2, IS_CERTIFIED, What::Drafted(Form::Certified, 1)),
                FIRST,
                b"m",
            ),
            (
                Act::Store(false, 1, &[(1, 1, IS_CERTIFIED), (2, 1, BOTH)]),
                FIRST,
                b"m",
            ),
            (Act::Tick(&[(1, 1, IS_CERTIFIED)]), FIRST, b"m"),
        ]],
    },
];

#[test]
fn a_relay_tells_its_source_that_the_certificate_was_heard(rt: HostRuntime) {
    play_all(&rt, &RELAYS);
}

/// Node 1 of three, up to the point at which it has heard node 2.
const TOLD: &[Row] = &[
    (Act::Submit(1, PENDING), FIRST, b"m"),
    (Act::Tell(2, IS_CERTIFIED, CERTIFICATE), FIRST, b"m"),
    (Act::Tell(2, NEITHER, What::Answered(2, true)), FIRST, b"m"),
];

static ENDS: [List; 1] = [List {
    start: Start::New(3, 1, CAP),
    parts: &[
        TOLD,
        &[
            (Act::Tick(&[(3, 1, IS_CERTIFIED)]), FIRST, b"m"),
            (Act::Tell(3, BOTH, What::Again), FIRST, b"m"),
            (Act::Tick(&[]), FIRST, b"m"),
        ],
    ],
}];

#[test]
fn ticks_end_where_nothing_is_left_to_say(rt: HostRuntime) {
    play_all(&rt, &ENDS);
}

/// Nothing was heard from node 2 until its packet reports its certificate.
const HEARD_ANEW: &[Row] = &[
    (Act::Tell(2, NEITHER, What::Answered(2, false)), FIRST, b"m"),
    (
        Act::Tell(2, IS_CERTIFIED, What::Answered(2, true)),
        FIRST,
        b"m",
    ),
];

static CRASHES: [List; 1] = [List {
    start: Start::New(3, 1, CAP),
    parts: &[
        TOLD,
        &[(Act::Crash, FIRST, b"m"), (Act::Rise, FIRST, b"m")],
        HEARD_ANEW,
    ],
}];

#[test]
fn what_was_heard_is_lost_with_a_crash(rt: HostRuntime) {
    play_all(&rt, &CRASHES);
}

/// Node 1 of three certifies its first message and hears nothing.
const CERTIFIES: &[Row] = &[
    (Act::Submit(1, PENDING), FIRST, b"m"),
    (Act::Arrive(2, CERTIFICATE), FIRST, b"m"),
];

static CERTIFIES_ALONE: List = List {
    start: Start::New(3, 1, CAP),
    parts: &[CERTIFIES],
};

/// Then it answers a packet that reports a certificate ..
static ANSWERS_THEN: List = List {
    start: Start::New(3, 1, CAP),
    parts: &[
        CERTIFIES,
        &[(
            Act::Tell(2, IS_CERTIFIED, What::Answered(2, true)),
            FIRST,
            b"m",
        )],
    ],
};

/// .. or the answer is refused for memory. Then nothing was heard, and the same packet is answered
/// the second time.
static ANSWERS_LATER: List = List {
    start: Start::New(3, 1, CAP),
    parts: &[
        CERTIFIES,
        &[(Act::Tell(2, IS_CERTIFIED, What::NoMemory), FIRST, b"m")],
        HEARD_ANEW,
    ],
};

// Whether an answer needs several growths, and nothing is heard if any of them is refused.
fn hears_nothing(alloc: Global) -> bool {
    match (
        count_growths(alloc, &CERTIFIES_ALONE),
        count_growths(alloc, &ANSWERS_THEN),
    ) {
        (Some(before), Some(count)) => {
            before.saturating_add(1) < count
                && plays_each(alloc, &ANSWERS_LATER, before, count, false)
        }
        _ => false,
    }
}

#[test]
fn an_answer_that_is_refused_for_memory_hears_nothing(rt: HostRuntime) {
    assert!(rt; hears_nothing(rt.alloc()));
}

/// The certificate of a packet that wants no answer is heard ..
const HEARS_ALONE: &[Row] = &[(Act::Tell(2, BOTH, What::Again), FIRST, b"m")];

static HEARS_CALMLY: [(List, List); 1] = [(
    List {
        start: Start::New(3, 1, CAP),
        parts: &[CERTIFIES],
    },
    List {
        start: Start::New(3, 1, CAP),
        parts: &[CERTIFIES, HEARS_ALONE],
    },
)];

/// .. as the next answer says.
static HEARD: [List; 1] = [List {
    start: Start::New(3, 1, CAP),
    parts: &[
        CERTIFIES,
        HEARS_ALONE,
        &[(Act::Tell(2, NEITHER, What::Answered(2, true)), FIRST, b"m")],
    ],
}];

#[test]
fn what_wants_no_answer_is_heard_without_memory(rt: HostRuntime) {
    assert!(rt; take_no_more(rt.alloc(), &HEARS_CALMLY));
    play_all(&rt, &HEARD);
}
