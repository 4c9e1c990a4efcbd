//! The number that a client must use next at a node, in each state of the node.

use super::*;
use crate::tests::playing::play_all;
use crate::tests::rows::{Act, CAP, CERTIFIED, Form, List, NEITHER, PENDING, Row, Start, What};
use urb_stable::Failure;

/// Node 1 of three stores a message of client 7 and one of node 2, which is also of client 7.
const STORES_TWO: &[Row] = &[
    (Act::Next(7, 1), (1, 1), b"a"),
    (Act::Submit(1, PENDING), (1, 1), b"a"),
    (Act::Next(7, 2), (1, 1), b"a"),
    (Act::Next(8, 1), (1, 1), b"a"),
    (Act::Arrive(2, CERTIFIED), (2, 1), b"o"),
    (Act::Next(7, 2), (2, 1), b"o"),
];

/// Then it holds the draft of the client's second message.
const DRAFTS_ANOTHER: &[Row] = &[
    (
        Act::Submit(2, What::Drafted(Form::Pending, 3)),
        (1, 2),
        b"b",
    ),
    (Act::Next(7, 2), (1, 2), b"b"),
    (Act::Next(8, 1), (1, 2), b"b"),
];

static READY: [List; 1] = [List {
    start: Start::New(3, 1, CAP),
    parts: &[STORES_TWO],
}];

#[test]
fn a_ready_node_counts_what_each_client_has_broadcast_at_it(rt: HostRuntime) {
    play_all(&rt, &READY);
}

static STORING: [List; 1] = [List {
    start: Start::New(3, 1, CAP),
    parts: &[
        STORES_TWO,
        DRAFTS_ANOTHER,
        &[
            (
                Act::Store(true, 0, &[(2, 2, NEITHER), (3, 2, NEITHER)]),
                (1, 2),
                b"b",
            ),
            (Act::Next(7, 3), (1, 2), b"b"),
        ],
    ],
}];

#[test]
fn a_held_draft_counts_for_its_client_once_it_is_stored(rt: HostRuntime) {
    play_all(&rt, &STORING);
}

static LOST: [List; 1] = [List {
    start: Start::New(3, 1, CAP),
    parts: &[
        STORES_TWO,
        DRAFTS_ANOTHER,
        &[
            (Act::Doubt(Failure::Old), (1, 2), b"b"),
            (Act::Next(7, 2), (1, 2), b"b"),
            (Act::Next(8, 1), (1, 2), b"b"),
            (Act::Rise, (1, 2), b"b"),
            (Act::Next(7, 2), (1, 2), b"b"),
        ],
    ],
}];

static KEPT: [List; 1] = [List {
    start: Start::New(3, 1, CAP),
    parts: &[
        STORES_TWO,
        DRAFTS_ANOTHER,
        &[
            (Act::Doubt(Failure::New), (1, 2), b"b"),
            (Act::Next(7, 2), (1, 2), b"b"),
            (Act::Next(8, 1), (1, 2), b"b"),
            (Act::Rise, (1, 2), b"b"),
            (Act::Next(7, 3), (1, 2), b"b"),
        ],
    ],
}];

#[test]
fn a_doubtful_record_counts_for_its_client_if_the_image_has_it(rt: HostRuntime) {
    play_all(&rt, &LOST);
    play_all(&rt, &KEPT);
}
