//! The results of calls of one node, one after the other.

use super::*;
use crate::tests::playing::play_all;
use crate::tests::rows::{Act, CAP, CERTIFICATE, CERTIFIED, List, PENDING, Start, What};

static COUNTED: [List; 2] = [
    List {
        start: Start::New(7, 3, CAP),
        parts: &[&[
            (Act::Arrive(2, PENDING), (1, 1), b"m"),
            (Act::Arrive(2, What::Again), (1, 1), b"m"),
            (Act::Arrive(4, What::Noted), (1, 1), b"m"),
            (Act::Arrive(1, CERTIFICATE), (1, 1), b"m"),
        ]],
    },
    List {
        start: Start::New(5, 3, CAP),
        parts: &[&[
            (Act::Arrive(2, PENDING), (1, 1), b"m"),
            (Act::Arrive(2, What::Again), (1, 1), b"m"),
            (Act::Arrive(1, CERTIFICATE), (1, 1), b"m"),
        ]],
    },
];

#[test]
fn an_arrival_counts_its_source_and_the_node_but_not_the_sender(rt: HostRuntime) {
    play_all(&rt, &COUNTED);
}

static MAJORITIES: [List; 6] = [
    List {
        start: Start::New(1, 1, CAP),
        parts: &[&[(Act::Submit(1, CERTIFIED), (1, 1), b"m")]],
    },
    List {
        start: Start::New(2, 2, CAP),
        parts: &[&[
            (Act::Arrive(1, CERTIFIED), (1, 1), b"m"),
            (Act::Arrive(1, What::Again), (1, 1), b"m"),
        ]],
    },
    List {
        start: Start::New(3, 2, CAP),
        parts: &[&[(Act::Arrive(1, CERTIFIED), (1, 1), b"m")]],
    },
    List {
        start: Start::New(3, 1, CAP),
        parts: &[&[
            (Act::Submit(1, PENDING), (1, 1), b"m"),
            (Act::Arrive(2, CERTIFICATE), (1, 1), b"m"),
            (Act::Arrive(3, What::Again), (1, 1), b"m"),
        ]],
    },
    List {
        start: Start::New(4, 1, CAP),
        parts: &[&[
            (Act::Submit(1, PENDING), (1, 1), b"m"),
            (Act::Arrive(2, What::Noted), (1, 1), b"m"),
            (Act::Arrive(2, What::Again), (1, 1), b"m"),
            (Act::Arrive(3, CERTIFICATE), (1, 1), b"m"),
            (Act::Arrive(4, What::Again), (1, 1), b"m"),
        ]],
    },
    List {
        start: Start::New(5, 1, CAP),
        parts: &[&[
            (Act::Submit(1, PENDING), (1, 1), b"m"),
            (Act::Arrive(2, What::Noted), (1, 1), b"m"),
            (Act::Arrive(2, What::Again), (1, 1), b"m"),
            (Act::Arrive(3, CERTIFICATE), (1, 1), b"m"),
            (Act::Arrive(4, What::Again), (1, 1), b"m"),
        ]],
    },
];

#[test]
fn a_certificate_is_drafted_exactly_at_the_majority(rt: HostRuntime) {
    play_all(&rt, &MAJORITIES);
}

static NOTED: [List; 2] = [
    List {
        start: Start::New(7, 1, CAP),
        parts: &[&[
            (Act::Submit(1, PENDING), (1, 1), b"m"),
            (Act::Arrive(2, What::Noted), (1, 1), b"m"),
            (Act::Arrive(3, What::Noted), (1, 1), b"m"),
            (Act::Arrive(3, What::Again), (1, 1), b"m"),
            (Act::Arrive(2, What::Again), (1, 1), b"m"),
            (Act::Arrive(7, CERTIFICATE), (1, 1), b"m"),
        ]],
    },
    // Each certificate is for one name.
    List {
        start: Start::New(5, 1, CAP),
        parts: &[&[
            (Act::Submit(1, PENDING), (1, 1), b"m"),
            (Act::Arrive(2, What::Noted), (1, 1), b"m"),
            (Act::Arrive(3, PENDING), (2, 1), b"m"),
            (Act::Arrive(3, CERTIFICATE), (1, 1), b"m"),
            (Act::Arrive(2, CERTIFICATE), (2, 1), b"m"),
        ]],
    },
];

#[test]
fn a_new_acknowledgement_is_not_dropped(rt: HostRuntime) {
    play_all(&rt, &NOTED);
}

static REPEATS: [List; 1] = [List {
    start: Start::New(3, 1, CAP),
    parts: &[&[
        (Act::Submit(1, PENDING), (1, 1), b"a"),
        (Act::Submit(2, PENDING), (1, 2), b"b"),
        (Act::Submit(1, What::Accepted), (1, 1), b"a"),
        (Act::Submit(2, What::Accepted), (1, 2), b"b"),
        (Act::Submit(1, What::Conflict), (1, 1), b"b"),
        (Act::Submit(2, What::Conflict), (1, 2), b"a"),
        (Act::Submit(3, PENDING), (1, 3), b"a"),
    ]],
}];

#[test]
fn a_repeat_is_accepted_under_its_name_and_another_payload_is_a_conflict(rt: HostRuntime) {
    play_all(&rt, &REPEATS);
}

/// The longest possible payload, and one byte more.
const LONGEST: &[u8] = &[b'x'; 16384];

const TOO_LONG: &[u8] = &[b'x'; 16385];

// A node that may broadcast two messages, and has broadcast both.
static FAULTS: [List; 1] = [List {
    start: Start::New(3, 1, 2),
    parts: &[&[
        (Act::Submit(2, What::Gap(1)), (1, 1), b"a"),
        (Act::Submit(0, What::Gap(1)), (1, 1), b"a"),
        (Act::Submit(1, What::TooLong), (1, 1), TOO_LONG),
        (Act::Submit(1, PENDING), (1, 1), LONGEST),
        (Act::Submit(2, PENDING), (1, 2), b""),
        (Act::Submit(1, What::TooLong), (1, 1), TOO_LONG),
        (Act::Submit(4, What::TooLong), (1, 1), TOO_LONG),
        (Act::Submit(1, What::Conflict), (1, 1), b"a"),
        (Act::Submit(4, What::Gap(3)), (1, 1), b"a"),
        (Act::Submit(3, What::Full), (1, 1), b"a"),
        (Act::Submit(1, What::Accepted), (1, 1), LONGEST),
    ]],
}];

#[test]
fn a_submit_is_refused_for_the_first_of_its_faults(rt: HostRuntime) {
    play_all(&rt, &FAULTS);
}
