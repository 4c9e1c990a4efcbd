//! A tick resends the next sixteen names; after the last name the first one follows.

use super::*;

#[test]
fn a_tick_resends_the_next_sixteen_names(rt: HostRuntime) {
    // Node 1 of two has the names 1 to 17 of node 2 pending. The first tick sends 1 to 16, the
    // second one 17 and then 1 to 15.
    let steps = [
        Step::Tick(Sent::Names(&FIRST_TICK)),
        Step::Tick(Sent::Names(&SECOND_TICK)),
        // After `rewind` a tick begins at the first name again.
        Step::Rewind,
        Step::Tick(Sent::Names(&FIRST_TICK)),
    ];
    assert!(rt; plays(rt.alloc(), 2, &[(2, 17)], &steps));
}
