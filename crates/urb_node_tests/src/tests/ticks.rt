//! What a node sends at its ticks.

use super::*;
use crate::tests::playing::play_all;
use crate::tests::rows::{Act, CAP, List, NEITHER, PENDING, Row, Start};

// Submits of the messages with these numbers.
macro_rules! submits {
    ($($number:literal)*) => {
        &[$((Act::Submit($number, PENDING), (1, $number), b"m")),*]
    };
}

// A tick that sends the messages with these numbers to node 2.
macro_rules! sends {
    ($($number:literal)*) => {
        (Act::Tick(&[$((2, $number, NEITHER)),*]), (1, 1), b"m")
    };
}

/// Node 1 of two broadcasts seventeen messages.
const SEVENTEEN: &[Row] = submits![1 2 3 4 5 6 7 8 9 10 11 12 13 14 15 16 17];

static ROUND: [List; 1] = [List {
    start: Start::New(2, 1, CAP),
    parts: &[
        SEVENTEEN,
        &[
            sends![1 2 3 4 5 6 7 8 9 10 11 12 13 14 15 16],
            sends![17 1 2 3 4 5 6 7 8 9 10 11 12 13 14 15],
            sends![16 17 1 2 3 4 5 6 7 8 9 10 11 12 13 14],
        ],
    ],
}];

#[test]
fn a_tick_sends_the_next_sixteen_names_and_goes_round(rt: HostRuntime) {
    play_all(&rt, &ROUND);
}

static ANEW: [List; 1] = [List {
    start: Start::New(2, 1, CAP),
    parts: &[
        SEVENTEEN,
        &[
            sends![1 2 3 4 5 6 7 8 9 10 11 12 13 14 15 16],
            (Act::Crash, (1, 1), b"m"),
            (Act::Rise, (1, 1), b"m"),
            sends![1 2 3 4 5 6 7 8 9 10 11 12 13 14 15 16],
        ],
    ],
}];

#[test]
fn resends_begin_anew_with_a_restart(rt: HostRuntime) {
    play_all(&rt, &ANEW);
}
