//! Restarts of one node: which images it accepts, and what it still holds afterwards.

use super::*;
use crate::tests::playing::{count_growths, gives_back, play_all};
use crate::tests::rows::{
    Act, CAP, CERTIFICATE, DELIVERED, Form, HELD, List, NOTHING, PENDING, Row, Start, What,
};
use std::alloc::Global;
use urb_stable::Failure;

/// What node 1 of five stores before it crashes.
const STORES: &[Row] = &[
    (Act::Submit(1, PENDING), (1, 1), b"m"),
    (Act::Arrive(2, PENDING), (2, 1), b"m"),
    (Act::Arrive(3, CERTIFICATE), (2, 1), b"m"),
    (Act::Arrive(2, What::Noted), (1, 1), b"m"),
    (Act::Arrive(2, What::Again), (1, 1), b"m"),
    (Act::Arrive(3, CERTIFICATE), (1, 1), b"m"),
    (Act::Arrive(4, PENDING), (3, 1), b"m"),
    (Act::Crash, (1, 1), b"m"),
];

/// The node accepts its image, and it has delivered what it had stored.
const RISES: &[Row] = &[
    (Act::Rise, (1, 1), b"m"),
    (Act::Show(1, &[(2, 1), (1, 1)], DELIVERED), (1, 1), b"m"),
];

/// Node 4 was counted for the message of node 3, and no longer is.
const COUNTED_ANEW: &[Row] = &[
    (Act::Arrive(2, What::Noted), (3, 1), b"m"),
    (Act::Arrive(2, What::Again), (3, 1), b"m"),
    (Act::Arrive(4, CERTIFICATE), (3, 1), b"m"),
    (Act::Submit(1, What::Accepted), (1, 1), b"m"),
];

static TAKEN: [List; 1] = [List {
    start: Start::New(5, 1, CAP),
    parts: &[STORES, RISES, COUNTED_ANEW],
}];

#[test]
fn the_image_of_what_was_stored_is_taken_and_acknowledgements_are_lost(rt: HostRuntime) {
    play_all(&rt, &TAKEN);
}

/// Images that are not what node 1 of five has stored. One lacks a record; one has another record
/// twice in its place; one has an extra record. Others have a different payload, a different order
/// of certificates, or a different form of a record. One certifies a message that no node of the
/// group can have sent.
static OTHERS: [List; 1] = [List {
    start: Start::New(5, 1, CAP),
    parts: &[
        STORES,
        &[
            (
                Act::Refuse(&[
                    (Form::Pending, 1, b"m"),
                    (Form::Pending, 2, b"m"),
                    (Form::Certificate, 2, b""),
                    (Form::Certificate, 1, b""),
                ]),
                (1, 1),
                b"m",
            ),
            (
                Act::Refuse(&[
                    (Form::Pending, 1, b"m"),
                    (Form::Pending, 2, b"m"),
                    (Form::Certificate, 2, b""),
                    (Form::Certificate, 1, b""),
                    (Form::Pending, 2, b"m"),
                ]),
                (1, 1),
                b"m",
            ),
            (
                Act::Refuse(&[
                    (Form::Pending, 1, b"m"),
                    (Form::Pending, 2, b"m"),
                    (Form::Certificate, 2, b""),
                    (Form::Certificate, 1, b""),
                    (Form::Pending, 3, b"m"),
                    (Form::Pending, 4, b"m"),
                ]),
                (1, 1),
                b"m",
            ),
            (
                Act::Refuse(&[
                    (Form::Pending, 1, b"m"),
                    (Form::Pending, 2, b"n"),
                    (Form::Certificate, 2, b""),
                    (Form::Certificate, 1, b""),
                    (Form::Pending, 3, b"m"),
                ]),
                (1, 1),
                b"m",
            ),
            (
                Act::Refuse(&[
                    (Form::Pending, 1, b"m"),
                    (Form::Pending, 2, b"m"),
                    (Form::Certificate, 1, b""),
                    (Form::Certificate, 2, b""),
                    (Form::Pending, 3, b"m"),
                ]),
                (1, 1),
                b"m",
            ),
            (
                Act::Refuse(&[
                    (Form::Pending, 1, b"m"),
                    (Form::Certified, 2, b"m"),
                    (Form::Certificate, 1, b""),
                    (Form::Pending, 3, b"m"),
                ]),
                (1, 1),
                b"m",
            ),
            (
                Act::Refuse(&[
                    (Form::Pending, 1, b"m"),
                    (Form::Pending, 2, b"m"),
                    (Form::Certificate, 2, b""),
                    (Form::Certificate, 7, b""),
                    (Form::Pending, 3, b"m"),
                ]),
                (1, 1),
                b"m",
            ),
            (Act::Show(1, &[(2, 1), (1, 1)], DELIVERED), (1, 1), b"m"),
        ],
        RISES,
    ],
}];

#[test]
fn another_image_is_refused_and_the_right_one_is_taken_then(rt: HostRuntime) {
    play_all(&rt, &OTHERS);
}

/// Node 1 of three has stored its first message and holds the draft of its second one.
const DRAFTS_THE_SECOND: &[Row] = &[
    (Act::Submit(1, PENDING), (1, 1), b"a"),
    (
        Act::Submit(2, What::Drafted(Form::Pending, 2)),
        (1, 2),
        b"b",
    ),
];

static LOST: [List; 1] = [List {
    start: Start::New(3, 1, CAP),
    parts: &[
        DRAFTS_THE_SECOND,
        &[
            (Act::Doubt(Failure::Old), (1, 2), b"b"),
            (Act::Show(1, &[], NOTHING), (1, 2), b"b"),
            (Act::Rise, (1, 2), b"b"),
            (Act::Show(1, &[], NOTHING), (1, 2), b"b"),
            (Act::Submit(2, PENDING), (1, 2), b"b"),
        ],
    ],
}];

#[test]
fn a_doubtful_record_that_was_lost_is_drafted_again(rt: HostRuntime) {
    play_all(&rt, &LOST);
}

static KEPT: [List; 1] = [List {
    start: Start::New(3, 1, CAP),
    parts: &[
        DRAFTS_THE_SECOND,
        &[
            (Act::Doubt(Failure::New), (1, 2), b"b"),
            (Act::Show(1, &[], NOTHING), (1, 2), b"b"),
            (Act::Rise, (1, 2), b"b"),
            (Act::Show(2, &[], HELD), (1, 2), b"b"),
            (Act::Submit(2, What::Accepted), (1, 2), b"b"),
        ],
    ],
}];

#[test]
fn a_doubtful_record_that_the_image_has_counts_as_stored(rt: HostRuntime) {
    play_all(&rt, &KEPT);
}

/// Node 1 of three crashes with its first draft.
static UNSENT: [List; 1] = [List {
    start: Start::New(3, 1, CAP),
    parts: &[&[
        (
            Act::Submit(1, What::Drafted(Form::Pending, 1)),
            (1, 1),
            b"m",
        ),
        (Act::Lose(false), (1, 1), b"m"),
        (Act::Rise, (1, 1), b"m"),
        (Act::Tick(&[]), (1, 1), b"m"),
    ]],
}];

#[test]
fn a_draft_that_was_lost_is_never_sent(rt: HostRuntime) {
    play_all(&rt, &UNSENT);
}

static DOWN: List = List {
    start: Start::New(5, 1, CAP),
    parts: &[STORES],
};

static UP: List = List {
    start: Start::New(5, 1, CAP),
    parts: &[STORES, RISES],
};

// Whether a restart allocates memory, and each of its growths may be refused.
fn restarts_again(alloc: Global) -> bool {
    match count_growths(alloc, &DOWN) {
        Some(before) => gives_back(alloc, &UP, before),
        None => false,
    }
}

#[test]
fn a_restart_that_is_refused_for_memory_may_be_made_again(rt: HostRuntime) {
    assert!(rt; restarts_again(rt.alloc()));
}
