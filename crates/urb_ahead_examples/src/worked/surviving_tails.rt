//! What a stop may leave of a node whose store may hold records ahead, and which worlds survive it.
//!
//! A stop may leave any beginning of a tail that may follow the node's records.
ghost use Rattle.std.specs.Prelude.{[], ◌∷◌, None, Some, ℕ};
ghost use Rattle.urb_node.specs.Part.{Down, Storing};
ghost use Rattle.urb_ahead_examples.specs.internal.ExampleStores.{two_pending};
ghost use Rattle.urb_world.specs.StoresAhead.{MayLeaveAhead, SurvivesAhead};
ghost use Rattle.urb_world.specs.World.{image_of, opened, started};
ghost use Rattle.urb_world.specs.internal.Examples.{certified, limits, node_in, pending, world_of};

/// What a stop may leave: the records with or without what is held or in doubt, or with a tail.
pub fn what_a_stop_may_leave()
    ensures nothing_of_a_new_node { (n : ℕ) → MayLeaveAhead (started (limits n 10)) 1 [] }
    ensures one_in_three { MayLeaveAhead (started (limits 3 10)) 1 (pending 1 1 ∷ []) }
    ensures two_in_four { MayLeaveAhead (started (limits 4 10)) 1 two_pending }
    ensures one_of_the_fourth { MayLeaveAhead (started (limits 4 10)) 4 (pending 4 1 ∷ []) }
    ensures behind_a_record_in_seven { MayLeaveAhead
        (opened (limits 7 10) (image_of ((pending 1 1 ∷ []) ∷ []))) 1 two_pending }
    ensures the_held_record { MayLeaveAhead
        (world_of (node_in (Storing (pending 1 1) None) [])) 1 (pending 1 1 ∷ []) }
    ensures the_doubtful_record_in_four { MayLeaveAhead (record (started (limits 4 10))
        { node = λ p. node_in (Down (Some (certified 1 1))) [] }) 1 (certified 1 1 ∷ []) }
    ensures one_of_a_node_that_is_down { MayLeaveAhead (world_of (node_in (Down None) [])) 1
        (pending 1 1 ∷ []) }
{}

/// What no stop leaves: a record that may not follow, or less than the node's records.
pub fn what_no_stop_may_leave()
    ensures a_misfit_of_three { MayLeaveAhead (started (limits 3 10)) 1 (certified 1 1 ∷ []) → ⊥ }
    ensures a_misfit_of_four { MayLeaveAhead (started (limits 4 10)) 1 (certified 1 1 ∷ []) → ⊥ }
    ensures the_second_alone_of_six { MayLeaveAhead (started (limits 6 10)) 1 (pending 1 2 ∷ [])
        → ⊥ }
    ensures a_pair_of_another { MayLeaveAhead (started (limits 4 10)) 1 (pending 2 1 ∷ []) → ⊥ }
    ensures less_of_three { MayLeaveAhead
        (opened (limits 3 10) (image_of ((pending 1 1 ∷ []) ∷ []))) 1 [] → ⊥ }
    ensures less_of_four { MayLeaveAhead
        (opened (limits 4 10) (image_of ((pending 1 1 ∷ []) ∷ []))) 1 [] → ⊥ }
    ensures less_of_seven { MayLeaveAhead
        (opened (limits 7 10) (image_of ((pending 1 1 ∷ []) ∷ []))) 1 [] → ⊥ }
{}

/// A new group survives if nobody may broadcast: a stop leaves nothing of it.
pub fn worlds_that_survive()
    ensures of_any_size { (n : ℕ) → SurvivesAhead (started (limits n 0)) }
    ensures of_three { SurvivesAhead (started (limits 3 0)) }
    ensures of_four { SurvivesAhead (started (limits 4 0)) }
    ensures of_seven { SurvivesAhead (started (limits 7 0)) }
{}

/// In these worlds a stop leaves a misfit: a record that a node has stored, or one that it holds.
pub fn worlds_that_do_not_survive()
    ensures of_three { SurvivesAhead
        (opened (limits 3 10) (image_of ((certified 1 1 ∷ []) ∷ []))) → ⊥ }
    ensures of_four { SurvivesAhead
        (opened (limits 4 10) (image_of ((certified 1 1 ∷ []) ∷ []))) → ⊥ }
    ensures of_seven { SurvivesAhead
        (opened (limits 7 10) (image_of ((certified 1 1 ∷ []) ∷ []))) → ⊥ }
    ensures held_in_four { SurvivesAhead (record (started (limits 4 10))
        { node = λ p. node_in (Storing (certified 1 1) None) [] }) → ⊥ }
{}
