//! Refuses each allocation in turn.

use super::*;

// The number of growths in a script, after each was refused in turn; 0 if a check fails.
fn growths(alloc: Global, script: Script) -> u64 {
    for refused in 1..100 {
        match play(alloc, refused, script) {
            Some(true) => {}
            Some(false) => return refused.saturating_sub(1),
            None => return 0,
        }
    }
    0
}

#[test]
fn a_refused_growth_changes_nothing(rt: HostRuntime) {
    let rows = forty(Way::Rising);
    for reserving in [true, false] {
        let script = Script {
            node: 1,
            reserving,
            rows: &rows,
            checks: &[Check::Goes(2, 40, 0)],
        };
        assert!(rt; 1 < growths(rt.alloc(), script));
    }
}

#[test]
fn a_growth_refused_while_a_gap_closes_changes_nothing(rt: HostRuntime) {
    let rows = [
        (2, 9, 7, 9),
        (2, 3, 7, 3),
        (2, 8, 7, 8),
        (2, 2, 7, 2),
        (2, 7, 7, 7),
        (2, 5, 7, 5),
        (2, 4, 7, 4),
        (2, 1, 7, 1),
        (2, 6, 7, 6),
        (1, 1, 9, 1),
        (1, 2, 7, 1),
        (1, 3, 8, 1),
        (1, 4, 7, 2),
        (1, 5, 9, 2),
    ];
    for reserving in [true, false] {
        let script = Script {
            node: 1,
            reserving,
            rows: &rows,
            checks: &[
                Check::Goes(2, 9, 0),
                Check::Numbers(7, &[2, 4]),
                Check::Numbers(8, &[3]),
                Check::Numbers(9, &[1, 5]),
            ],
        };
        assert!(rt; 5 < growths(rt.alloc(), script));
    }
}
