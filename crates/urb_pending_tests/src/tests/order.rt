//! Names in cyclic order, after a gap, and added in any order.

use super::*;

// Plays a script on a node's set, without reservations.
fn plays(alloc: Global, node: u8, rows: &[Row], checks: &[Check]) -> bool {
    let script = Script {
        node,
        reserving: false,
        rows,
        checks,
    };
    play(alloc, 0, script) == Some(false)
}

#[test]
fn the_next_name_goes_round(rt: HostRuntime) {
    assert!(rt; plays(rt.alloc(), 3, &[], &[Check::Next(None, None)]));
    let rows = [(2, 1, 7, 1), (1, 3, 7, 3), (1, 1, 7, 1)];
    let round = [
        Check::Next(None, Some((1, 1))),
        Check::Next(Some((1, 1)), Some((1, 3))),
        Check::Next(Some((1, 2)), Some((1, 3))),
        Check::Next(Some((2, 1)), Some((1, 1))),
    ];
    assert!(rt; plays(rt.alloc(), 3, &rows, &round));
}

#[test]
fn a_gap_is_told_until_it_closes(rt: HostRuntime) {
    let rows = [
        (1, 1, 7, 1),
        (1, 2, 7, 2),
        (1, 5, 7, 5),
        (1, 3, 7, 3),
        (1, 4, 7, 4),
    ];
    for (count, low, above) in [
        (0, 0, 0),
        (1, 1, 0),
        (2, 2, 0),
        (3, 2, 1),
        (4, 3, 1),
        (5, 5, 0),
    ] {
        let first = &rows[..rows.len().min(count)];
        let checks = [Check::Goes(1, low, above), Check::Goes(3, 0, 0)];
        assert!(rt; plays(rt.alloc(), 2, first, &checks), "after {count}");
    }
}

#[test]
fn a_window_fills_in_any_order(rt: HostRuntime) {
    for way in [Way::Rising, Way::Falling, Way::OddFirst] {
        let checks = [Check::Goes(2, 40, 0), Check::Goes(1, 0, 0)];
        assert!(rt; plays(rt.alloc(), 1, &forty(way), &checks));
    }
}
