//! A client's messages, by its own numbers.

use super::*;

#[test]
fn own_messages_are_found_by_number(rt: HostRuntime) {
    let script = Script {
        node: 1,
        reserving: true,
        rows: &[
            (2, 1, 7, 1),
            (1, 1, 7, 1),
            (1, 2, 8, 1),
            (3, 5, 8, 2),
            (1, 3, 7, 2),
        ],
        checks: &[
            Check::Goes(1, 3, 0),
            Check::Numbers(7, &[1, 3]),
            Check::Numbers(8, &[2]),
            Check::Numbers(9, &[]),
            Check::Has((1, 2, 8, 1), true),
            Check::Has((1, 1, 8, 1), false),
            Check::Lacks(1, 4),
        ],
    };
    assert_eq!(rt; play(rt.alloc(), 0, script), Some(false));
}
