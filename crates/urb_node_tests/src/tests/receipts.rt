//! What a node holds back until its store has kept a record, and what is left if the store has not.

use super::*;
use crate::tests::playing::play_all;
use crate::tests::rows::{
    Act, CAP, CERTIFIED, DELIVERED, Form, HELD, List, NEITHER, NOTHING, PENDING, Row, Start, What,
};

/// Node 2 of four, with a message of its own.
static ALL_AT_ONCE: [List; 1] = [List {
    start: Start::New(4, 2, CAP),
    parts: &[&[
        (
            Act::Submit(1, What::Drafted(Form::Pending, 1)),
            (2, 1),
            b"m",
        ),
        (Act::Show(0, &[], NOTHING), (2, 1), b"m"),
        (
            Act::Store(
                true,
                0,
                &[(1, 1, NEITHER), (3, 1, NEITHER), (4, 1, NEITHER)],
            ),
            (2, 1),
            b"m",
        ),
        (Act::Show(1, &[], HELD), (2, 1), b"m"),
    ]],
}];

#[test]
fn packets_of_a_draft_come_all_with_its_receipt(rt: HostRuntime) {
    play_all(&rt, &ALL_AT_ONCE);
}

/// Node 3 of four, with a message of node 1 that comes from node 2.
static RELAYED: [List; 1] = [List {
    start: Start::New(4, 3, CAP),
    parts: &[&[
        (
            Act::Arrive(2, What::Drafted(Form::Pending, 1)),
            (1, 2),
            b"hi",
        ),
        (
            Act::Store(
                false,
                0,
                &[(1, 2, NEITHER), (2, 2, NEITHER), (4, 2, NEITHER)],
            ),
            (1, 2),
            b"hi",
        ),
    ]],
}];

#[test]
fn a_relayed_packet_carries_the_very_payload(rt: HostRuntime) {
    play_all(&rt, &RELAYED);
}

/// Node 1 of three, with the certificate of its first message, which it knows after a crash too.
static CERTIFIED_LATER: [List; 1] = [List {
    start: Start::New(3, 1, CAP),
    parts: &[&[
        (Act::Submit(1, PENDING), (1, 1), b"m"),
        (
            Act::Arrive(2, What::Drafted(Form::Certificate, 2)),
            (1, 1),
            b"m",
        ),
        (Act::Show(1, &[], HELD), (1, 1), b"m"),
        (Act::Store(false, 1, &[]), (1, 1), b"m"),
        (Act::Show(1, &[(1, 1)], DELIVERED), (1, 1), b"m"),
        (Act::Crash, (1, 1), b"m"),
        (Act::Show(1, &[(1, 1)], DELIVERED), (1, 1), b"m"),
    ]],
}];

#[test]
fn a_certificate_sends_nothing_and_releases(rt: HostRuntime) {
    play_all(&rt, &CERTIFIED_LATER);
}

/// Node 2 of four holds a draft. It returns receipts of other drafts, and then accepts its own.
static OTHERS: [List; 1] = [List {
    start: Start::New(4, 2, CAP),
    parts: &[&[
        (
            Act::Submit(1, What::Drafted(Form::Pending, 1)),
            (2, 1),
            b"m",
        ),
        (Act::GiveBack(3, 1, Form::Pending), (2, 1), b"m"),
        (Act::GiveBack(2, 2, Form::Pending), (2, 1), b"m"),
        (Act::GiveBack(2, 1, Form::Pending), (2, 1), b"n"),
        (Act::GiveBack(2, 1, Form::Certified), (2, 1), b"m"),
        (Act::GiveBack(2, 1, Form::Certificate), (2, 1), b"m"),
        (
            Act::Store(
                true,
                0,
                &[(1, 1, NEITHER), (3, 1, NEITHER), (4, 1, NEITHER)],
            ),
            (2, 1),
            b"m",
        ),
    ]],
}];

#[test]
fn a_receipt_of_another_draft_comes_back(rt: HostRuntime) {
    play_all(&rt, &OTHERS);
}

/// A node shows only the first of two messages.
const THE_FIRST: &[Row] = &[
    (Act::Show(1, &[(1, 1)], DELIVERED), (1, 1), b"a"),
    (Act::Show(1, &[(1, 1)], NOTHING), (1, 2), b"b"),
];

const STORES_THE_FIRST: &[Row] = &[(Act::Submit(1, CERTIFIED), (1, 1), b"a")];

const DRAFTS_THE_SECOND: &[Row] = &[(
    Act::Submit(2, What::Drafted(Form::Certified, 2)),
    (1, 2),
    b"b",
)];

/// A node alone drafts its second message, and then its store fails, or it crashes.
static FALLS: [List; 2] = [
    List {
        start: Start::New(1, 1, CAP),
        parts: &[
            STORES_THE_FIRST,
            THE_FIRST,
            DRAFTS_THE_SECOND,
            THE_FIRST,
            &[(Act::Lose(true), (1, 2), b"b")],
            THE_FIRST,
        ],
    },
    List {
        start: Start::New(1, 1, CAP),
        parts: &[
            STORES_THE_FIRST,
            THE_FIRST,
            DRAFTS_THE_SECOND,
            THE_FIRST,
            &[(Act::Lose(false), (1, 2), b"b")],
            THE_FIRST,
        ],
    },
];

#[test]
fn a_failed_store_and_a_crash_leave_nothing_of_a_draft(rt: HostRuntime) {
    play_all(&rt, &FALLS);
}
