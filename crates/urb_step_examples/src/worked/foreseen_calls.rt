//! What is foreseen of the calls that wait, one after the other.
//!
//! A new group shows the new world of its size, and a run leads to that world: the rows that name
//! these suppose it.
ghost use Rattle.std.specs.Prelude.{[], ◌∷◌, None, Some};
ghost use Rattle.urb_foresight.specs.ForeseenDrafts.{EndsAt, Foresees, ForeseesCalls, MayBeNext};
ghost use Rattle.urb_foresight.specs.ForeseenDrafts.{MayBeStored};
ghost use Rattle.urb_foresight.specs.declared.foreseen.Foreseen.TheVariants as foreseen;
ghost use Rattle.urb_foresight.specs.internal.ForesightExamples.{all_down, four_nodes, the_first};
ghost use Rattle.urb_group.specs.GroupViews.{Shows};
ghost use Rattle.urb_names.specs.declared.refusal.NoMemory.{NoMemory};
ghost use Rattle.urb_step_examples.specs.internal.ForeseenExamples.{sixteen};
ghost use Rattle.urb_step_examples.specs.internal.GroupExamples.{fallen, new_group};
ghost use Rattle.urb_world.specs.Step.{IsReached, Submit, Tick};
ghost use Rattle.urb_world.specs.World.{World};
ghost use Rattle.urb_world.specs.internal.Examples.{pending};
ghost use Rattle.urb_world.specs.internal.Scripts.{message};

/// A draft is foreseen with its record, and no draft without one.
pub fn what_is_foreseen_of_an_event()
    ensures a_draft { Foresees (new_group 4) 1 [] (Submit 1 (message 7 1 "")) foreseen.Draft
        the_first }
    ensures no_draft_without_a_record { Foresees (new_group 4) 1 [] (Submit 1 (message 7 1 ""))
        foreseen.Draft [] → ⊥ }
    ensures no_draft_of_a_tick { Shows (new_group 4) four_nodes → IsReached four_nodes
        → Foresees (new_group 4) 1 [] (Tick 1) foreseen.Draft the_first → ⊥ }
    ensures nothing_of_a_tick { Foresees (new_group 4) 1 [] (Tick 1) foreseen.NoDraft [] }
    ensures no_record_without_a_draft { Foresees (new_group 4) 1 [] (Tick 1) foreseen.NoDraft
        the_first → ⊥ }
    ensures a_draft_of_a_submit { Shows (new_group 4) four_nodes → IsReached four_nodes
        → Foresees (new_group 4) 1 [] (Submit 1 (message 7 1 "")) foreseen.NoDraft [] → ⊥ }
    ensures unsure_behind_sixteen { Foresees (new_group 4) 1 sixteen (Tick 1) foreseen.Unsure
        sixteen }
    ensures no_record_less_if_unsure { Foresees (new_group 4) 1 sixteen (Tick 1) foreseen.Unsure []
        → ⊥ }
    ensures not_unsure_of_a_tick { Shows (new_group 4) four_nodes → IsReached four_nodes
        → Foresees (new_group 4) 1 [] (Tick 1) foreseen.Unsure [] → ⊥ }
{}

/// A ready node may store records that meet the rules.
pub fn what_may_be_stored_next()
    ensures nothing { MayBeNext (new_group 4) 1 [] }
    ensures not_the_second_record { Shows (new_group 4) four_nodes
        → MayBeNext (new_group 4) 1 (pending 1 2 ∷ []) → ⊥ }
    ensures nothing_at_a_node_that_is_down { (w : World) → Shows (fallen 4) w
        → MayBeNext (fallen 4) 1 [] → ⊥ }
    ensures nothing_of_a_draft { MayBeStored (new_group 4) 1 [] foreseen.Draft }
    ensures not_the_second_record_of_a_draft { Shows (new_group 4) four_nodes
        → MayBeStored (new_group 4) 1 (pending 1 2 ∷ []) foreseen.Draft → ⊥ }
    ensures anything_without_a_draft { MayBeStored (new_group 4) 1 (pending 1 2 ∷ [])
        foreseen.NoDraft }
{}

/// It ends at an event of which nothing is foreseen, or if memory is refused.
pub fn where_foresight_ends()
    ensures behind_sixteen { EndsAt (new_group 4) 1 sixteen (Tick 1) None }
    ensures not_at_a_tick { Shows (new_group 4) four_nodes → IsReached four_nodes
        → EndsAt (new_group 4) 1 [] (Tick 1) None → ⊥ }
    ensures without_memory { (refused : NoMemory) → EndsAt (new_group 4) 1 [] (Tick 1)
        (Some refused) }
{}

/// Calls are foreseen behind the records of those before them.
pub fn what_is_foreseen_of_calls()
    ensures nothing_of_no_calls { ForeseesCalls (new_group 4) 1 [] [] [] None }
    ensures no_record_of_no_calls { ForeseesCalls (new_group 4) 1 [] [] the_first None → ⊥ }
    ensures no_refusal_of_no_calls { (refused : NoMemory)
        → ForeseesCalls (new_group 4) 1 [] [] [] (Some refused) → ⊥ }
    ensures nothing_without_memory { (refused : NoMemory)
        → ForeseesCalls (new_group 4) 1 (Tick 1 ∷ []) [] [] (Some refused) }
    ensures no_two_records_of_one_call { ForeseesCalls (new_group 4) 1 (Tick 1 ∷ []) []
        (pending 1 1 ∷ pending 1 2 ∷ []) None → ⊥ }
{}
