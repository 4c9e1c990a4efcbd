//! What ticks send: at most `NAMES_PER_TICK` pending names, in cyclic order.
//!
//! Each name goes to every other node, except those that were heard to have certified it.
ghost use Rattle.std.specs.Prelude.{[], ◌∷◌, ◌++◌};
ghost use Rattle.urb_names.specs.Names.{name};
ghost use Rattle.urb_world.specs.World.{image_of};
ghost use Rattle.urb_world.specs.internal.Scripts.{◌⇒◌, Plays, PlaysOpened, Drafts, Accepts};
ghost use Rattle.urb_world.specs.internal.Scripts.{Sends, down, up, message, submit, store, crash};
ghost use Rattle.urb_world.specs.internal.Scripts.{restart, tick};
ghost use Rattle.urb_world.specs.internal.Examples.{pending, certified, limits, stored_from};
ghost use Rattle.urb_world.specs.internal.Examples.{to_two};

/// Ticks of nodes with few names.
pub fn ticks()
    ensures all_names_each_time { Plays 2 20 (
        stored_from 1 3
        ++ tick 1 ⇒ Sends ((2, name 1 1) ∷ (2, name 1 2) ∷ (2, name 1 3) ∷ [])
        ∷ tick 1 ⇒ Sends ((2, name 1 1) ∷ (2, name 1 2) ∷ (2, name 1 3) ∷ [])
        ∷ tick 2 ⇒ Sends []
        ∷ []) }
    ensures names_rise_and_then_targets { PlaysOpened (limits 3 10)
        (image_of ((pending 1 1 ∷ pending 1 2 ∷ [])
        ∷ (certified 1 2 ∷ pending 2 1 ∷ pending 1 1 ∷ []) ∷ [] ∷ [])) (
        tick 2 ⇒ Sends ((1, name 1 1) ∷ (3, name 1 1) ∷ (1, name 1 2) ∷ (3, name 1 2) ∷ (1, name 2 1) ∷ (3, name 2 1) ∷ [])
        ∷ []) }
    ensures a_lone_node_sends_to_none { PlaysOpened (limits 1 10)
        (image_of ((certified 1 1 ∷ []) ∷ [])) (tick 1 ⇒ Sends [] ∷ []) }
    ensures those_after_the_cursor_go_first { Plays 2 20 (
        submit 1 (message 7 1 "a") ⇒ Drafts (name 1 1) 1
        ∷ store 1 ⇒ Accepts (name 1 1) 1 0
        ∷ tick 1 ⇒ Sends ((2, name 1 1) ∷ [])
        ∷ submit 1 (message 7 2 "b") ⇒ Drafts (name 1 2) 2
        ∷ store 1 ⇒ Accepts (name 1 2) 1 0
        ∷ tick 1 ⇒ Sends ((2, name 1 2) ∷ (2, name 1 1) ∷ [])
        ∷ tick 1 ⇒ Sends ((2, name 1 2) ∷ (2, name 1 1) ∷ [])
        ∷ []) }
    ensures a_restart_forgets_the_cursor { Plays 2 20 (
        submit 1 (message 7 1 "a") ⇒ Drafts (name 1 1) 1
        ∷ store 1 ⇒ Accepts (name 1 1) 1 0
        ∷ tick 1 ⇒ Sends ((2, name 1 1) ∷ [])
        ∷ submit 1 (message 7 2 "b") ⇒ Drafts (name 1 2) 2
        ∷ store 1 ⇒ Accepts (name 1 2) 1 0
        ∷ crash 1 ⇒ down 1
        ∷ restart 1 ⇒ up 1
        ∷ tick 1 ⇒ Sends ((2, name 1 1) ∷ (2, name 1 2) ∷ [])
        ∷ []) }
    ensures a_tick_of_none_leaves_the_cursor { Plays 2 20 (
        tick 1 ⇒ Sends []
        ∷ submit 1 (message 7 1 "a") ⇒ Drafts (name 1 1) 1
        ∷ store 1 ⇒ Accepts (name 1 1) 1 0
        ∷ tick 1 ⇒ Sends ((2, name 1 1) ∷ [])
        ∷ []) }
{}

/// Seventeen names: a tick sends sixteen of them.
pub fn sixteen_a_tick()
    ensures { Plays 2 20 (
        stored_from 1 17
        ++ tick 1 ⇒ Sends (to_two 1 16)
        ∷ tick 1 ⇒ Sends ((2, name 1 17) ∷ to_two 1 15)
        ∷ tick 2 ⇒ Sends []
        ∷ []) }
{}
