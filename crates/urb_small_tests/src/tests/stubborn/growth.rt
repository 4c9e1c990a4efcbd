//! Space reserved in advance, and each allocation refused in turn.

use super::*;

#[test]
fn hearing_takes_the_room_that_was_made(rt: HostRuntime) {
    let script = Script {
        nodes: 3,
        names: &[],
        certified: &[],
        steps: &[Step::Hear(2, 1, 2), Step::Hear(2, 9, 2)],
        // This holds also after everything heard was dropped.
        calm: &[
            Step::Hear(2, 1, 3),
            Step::Forget,
            Step::Hear(2, 9, 3),
            Step::Heard(2, 9, 3, true),
        ],
    };
    assert_eq!(rt; play(rt.alloc(), 0, script), Some(false));
}

// The number of growths in a script, after each was refused in turn; 0 if a check fails.
fn growths(alloc: Global, script: Script) -> u64 {
    for refused in 1..100 {
        match play(alloc, refused, script) {
            Some(true) => {}
            Some(false) => return refused.saturating_sub(1),
            None => return 0,
        }
    }
    0
}

#[test]
fn a_refused_growth_changes_nothing(rt: HostRuntime) {
    let hearing = Script {
        nodes: 3,
        names: &[],
        certified: &[],
        steps: &[
            Step::Hear(2, 1, 3),
            Step::Hear(2, 2, 3),
            Step::Hear(2, 3, 3),
        ],
        calm: &[],
    };
    assert!(rt; 1 <= growths(rt.alloc(), hearing));
    // The cursor stays too.
    let ticking = Script {
        nodes: 2,
        names: &[(2, 17)],
        certified: &[],
        steps: &[
            Step::Tick(Sent::Names(&FIRST_TICK)),
            Step::Tick(Sent::Names(&SECOND_TICK)),
        ],
        calm: &[],
    };
    assert!(rt; 2 < growths(rt.alloc(), ticking));
}
