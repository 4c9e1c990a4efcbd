//! Calls of one node with each of its allocations refused in turn, and calls that allocate nothing.

use super::*;
use crate::tests::playing::{gives_back, take_no_more};
use crate::tests::rows::{
    Act, CAP, CERTIFICATE, DELIVERED, Form, HELD, IS_CERTIFIED, List, NEITHER, NOTHING, PENDING,
    Row, Start, What,
};

// The calls at node 1 of five about the messages of nodes 1 and 2 with this number.
macro_rules! calls {
    ($number:literal) => {
        &[
            (Act::Submit($number, PENDING), (1, $number), b"m"),
            (Act::Submit($number, What::Accepted), (1, $number), b"m"),
            (Act::Arrive(2, What::Noted), (1, $number), b"m"),
            (Act::Arrive(2, What::Again), (1, $number), b"m"),
            (Act::Arrive(3, CERTIFICATE), (1, $number), b"m"),
            (Act::Arrive(2, What::Again), (1, $number), b"m"),
            (Act::Arrive(3, PENDING), (2, $number), b"m"),
        ]
    };
}

/// All calls, a tick, and the expected state.
static ALL: List = List {
    start: Start::New(5, 1, CAP),
    parts: &[
        calls![1],
        calls![2],
        calls![3],
        calls![4],
        calls![5],
        calls![6],
        &[
            (Act::Send(48), (1, 6), b"m"),
            (
                Act::Show(
                    6,
                    &[(1, 1), (1, 2), (1, 3), (1, 4), (1, 5), (1, 6)],
                    DELIVERED,
                ),
                (1, 6),
                b"m",
            ),
        ],
    ],
};

#[test]
fn a_refused_growth_gives_the_node_back_as_it_was(rt: HostRuntime) {
    assert!(rt; gives_back(rt.alloc(), &ALL, 40));
}

/// Calls of node 1 of five that note an acknowledgement and certify a name, followed by calls that
/// allocate nothing.
const BEFORE: &[Row] = &[
    (Act::Submit(1, PENDING), (1, 1), b"m"),
    (Act::Arrive(2, What::Noted), (1, 1), b"m"),
    (Act::Arrive(2, PENDING), (2, 1), b"m"),
    (Act::Arrive(3, CERTIFICATE), (2, 1), b"m"),
];

const REPEATS: &[Row] = &[
    (Act::Submit(1, What::Accepted), (1, 1), b"m"),
    (Act::Arrive(2, What::Again), (1, 1), b"m"),
    (Act::Arrive(4, What::Again), (2, 1), b"m"),
    (Act::Crash, (1, 1), b"m"),
    (Act::Show(1, &[(2, 1)], HELD), (1, 1), b"m"),
];

static REPEATED: [(List, List); 1] = [(
    List {
        start: Start::New(5, 1, CAP),
        parts: &[BEFORE],
    },
    List {
        start: Start::New(5, 1, CAP),
        parts: &[BEFORE, REPEATS],
    },
)];

#[test]
fn a_repeat_takes_no_memory(rt: HostRuntime) {
    assert!(rt; take_no_more(rt.alloc(), &REPEATED));
}

/// Drafts of node 1 of three and their receipts. They are a message of its own, its certificate,
/// and a message of node 2 that is certified at once.
const DRAFTS_FIRST: &[Row] = &[(
    Act::Submit(1, What::Drafted(Form::Pending, 1)),
    (1, 1),
    b"m",
)];

const STORES_FIRST: &[Row] = &[(
    Act::Store(true, 0, &[(2, 1, NEITHER), (3, 1, NEITHER)]),
    (1, 1),
    b"m",
)];

const DRAFTS_SECOND: &[Row] = &[(
    Act::Arrive(2, What::Drafted(Form::Certificate, 2)),
    (1, 1),
    b"m",
)];

const STORES_SECOND: &[Row] = &[(Act::Store(false, 1, &[]), (1, 1), b"m")];

const DRAFTS_THIRD: &[Row] = &[(
    Act::Arrive(2, What::Drafted(Form::Certified, 3)),
    (2, 1),
    b"m",
)];

const STORES_THIRD: &[Row] = &[
    (
        Act::Store(false, 1, &[(2, 1, IS_CERTIFIED), (3, 1, IS_CERTIFIED)]),
        (2, 1),
        b"m",
    ),
    (Act::Show(1, &[(1, 1), (2, 1)], DELIVERED), (2, 1), b"m"),
];

static RECEIPTS: [(List, List); 3] = [
    (
        List {
            start: Start::New(3, 1, CAP),
            parts: &[DRAFTS_FIRST],
        },
        List {
            start: Start::New(3, 1, CAP),
            parts: &[DRAFTS_FIRST, STORES_FIRST],
        },
    ),
    (
        List {
            start: Start::New(3, 1, CAP),
            parts: &[DRAFTS_FIRST, STORES_FIRST, DRAFTS_SECOND],
        },
        List {
            start: Start::New(3, 1, CAP),
            parts: &[DRAFTS_FIRST, STORES_FIRST, DRAFTS_SECOND, STORES_SECOND],
        },
    ),
    (
        List {
            start: Start::New(3, 1, CAP),
            parts: &[
                DRAFTS_FIRST,
                STORES_FIRST,
                DRAFTS_SECOND,
                STORES_SECOND,
                DRAFTS_THIRD,
            ],
        },
        List {
            start: Start::New(3, 1, CAP),
            parts: &[
                DRAFTS_FIRST,
                STORES_FIRST,
                DRAFTS_SECOND,
                STORES_SECOND,
                DRAFTS_THIRD,
                STORES_THIRD,
            ],
        },
    ),
];

#[test]
fn a_receipt_takes_no_memory(rt: HostRuntime) {
    assert!(rt; take_no_more(rt.alloc(), &RECEIPTS));
}

/// A node that holds a draft goes down: its store fails, or it crashes.
static FALLS: [(List, List); 2] = [
    (
        List {
            start: Start::New(3, 1, CAP),
            parts: &[DRAFTS_FIRST],
        },
        List {
            start: Start::New(3, 1, CAP),
            parts: &[
                DRAFTS_FIRST,
                &[
                    (Act::Lose(true), (1, 1), b"m"),
                    (Act::Show(0, &[], NOTHING), (1, 1), b"m"),
                ],
            ],
        },
    ),
    (
        List {
            start: Start::New(3, 1, CAP),
            parts: &[DRAFTS_FIRST],
        },
        List {
            start: Start::New(3, 1, CAP),
            parts: &[
                DRAFTS_FIRST,
                &[
                    (Act::Lose(false), (1, 1), b"m"),
                    (Act::Show(0, &[], NOTHING), (1, 1), b"m"),
                ],
            ],
        },
    ),
];

#[test]
fn a_failed_store_takes_no_memory(rt: HostRuntime) {
    assert!(rt; take_no_more(rt.alloc(), &FALLS));
}
