//! What ticks send once certificates have been heard.

use super::*;

// All packets of node 2's names 1 to 3.
const ALL: [(u8, u8, u32); 6] = [
    (2, 2, 1),
    (3, 2, 1),
    (2, 2, 2),
    (3, 2, 2),
    (2, 2, 3),
    (3, 2, 3),
];

#[test]
fn a_tick_sends_to_the_nodes_that_were_not_heard(rt: HostRuntime) {
    // The tick after it sends as many.
    let cases: [&[Step]; 5] = [
        &[Step::Tick(Sent::Packets(&ALL)), Step::Tick(Sent::Count(6))],
        // A certificate of the node itself doesn't count for another node.
        &[
            Step::Hear(2, 1, 1),
            Step::Hear(2, 2, 1),
            Step::Hear(2, 3, 1),
            Step::Tick(Sent::Packets(&ALL)),
            Step::Tick(Sent::Count(6)),
        ],
        &[
            Step::Hear(2, 1, 2),
            Step::Hear(2, 2, 3),
            Step::Hear(2, 2, 3),
            Step::Tick(Sent::Packets(&[(3, 2, 1), (2, 2, 2), (2, 2, 3), (3, 2, 3)])),
            Step::Tick(Sent::Count(4)),
        ],
        &[
            Step::Hear(2, 1, 2),
            Step::Hear(2, 1, 3),
            Step::Hear(2, 3, 3),
            Step::Hear(2, 3, 2),
            Step::Tick(Sent::Packets(&[(2, 2, 2), (3, 2, 2)])),
            Step::Tick(Sent::Count(2)),
        ],
        &[
            Step::Hear(2, 3, 2),
            Step::Hear(2, 2, 3),
            Step::Hear(2, 1, 2),
            Step::Hear(2, 2, 2),
            Step::Hear(2, 1, 3),
            Step::Hear(2, 3, 3),
            Step::Tick(Sent::Packets(&[])),
            Step::Tick(Sent::Count(0)),
        ],
    ];
    for steps in cases {
        assert!(rt; plays(rt.alloc(), 3, &[(2, 3)], steps));
    }
}

#[test]
fn what_was_heard_is_forgotten_and_the_cursor_stays(rt: HostRuntime) {
    let steps = [
        Step::Tick(Sent::Count(16)),
        Step::HearAll(&FIRST_TICK),
        Step::Hear(2, 17, 2),
        Step::Heard(2, 17, 2, true),
        Step::Tick(Sent::Count(0)),
        Step::Forget,
        Step::Heard(2, 17, 2, false),
        Step::Tick(Sent::Names(&SECOND_TICK)),
    ];
    assert!(rt; plays(rt.alloc(), 2, &[(2, 17)], &steps));
}

const RISING: [u32; 20] = [
    1, 2, 3, 4, 5, 6, 7, 8, 9, 10, 11, 12, 13, 14, 15, 16, 17, 18, 19, 20,
];

const FALLING: [u32; 20] = [
    20, 19, 18, 17, 16, 15, 14, 13, 12, 11, 10, 9, 8, 7, 6, 5, 4, 3, 2, 1,
];

const ODD_FIRST: [u32; 20] = [
    1, 3, 5, 7, 9, 11, 13, 15, 17, 19, 2, 4, 6, 8, 10, 12, 14, 16, 18, 20,
];

#[test]
fn forty_names_are_heard_in_three_orders(rt: HostRuntime) {
    for seqs in [&RISING, &FALLING, &ODD_FIRST] {
        let steps = [Step::Quiet(seqs)];
        assert!(rt; plays(rt.alloc(), 3, &[(2, 20), (3, 20)], &steps));
    }
}
