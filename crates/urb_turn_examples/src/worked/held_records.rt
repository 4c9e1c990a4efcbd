//! Which records a store is asked to hold ahead, and when.
//!
//! Of a group that shows no world any records are foreseen. A new group shows the new world of its
//! size: the row that names both supposes it.
ghost use Rattle.std.specs.Prelude.{[], ◌∷◌, ◌≡◌, None, Some, suc};
ghost use Rattle.urb_group.specs.GroupViews.{Shows};
ghost use Rattle.urb_names.specs.Names.{name};
ghost use Rattle.urb_names.specs.declared.limits.TheConstants.{MAX_PAYLOAD};
ghost use Rattle.urb_names.specs.declared.refusal.NoMemory.{NoMemory};
ghost use Rattle.urb_show.specs.internal.ReaderExamples.{new_four, shows_none};
ghost use Rattle.urb_stable.specs.MemoryStores.{empty_memory};
ghost use Rattle.urb_stable.specs.declared.record.Record.TheVariants.{Pend};
ghost use Rattle.urb_turn.specs.KeptTails.{AsksToHold, HoldsForeseen, IsReadyIn, MayHold, Prepares};
ghost use Rattle.urb_turn.specs.internal.TurnExamples.{all_ahead, four, holding, holding_both};
ghost use Rattle.urb_turn.specs.internal.TurnExamples.{in_doubt, memory, two_submits};
ghost use Rattle.urb_turn_examples.specs.internal.TurnWords.{full_group};
ghost use Rattle.urb_world.specs.MemoryStores.{in_memory};
ghost use Rattle.urb_world.specs.World.{World};
ghost use Rattle.urb_world.specs.internal.Examples.{filled, pending};

/// A node is ready if it is so in each world that the group shows.
pub fn nodes_ready_in_a_group()
    ensures a_new_one { IsReadyIn new_four 1 }
    ensures not_one_that_is_down { (w : World) → Shows in_doubt w → IsReadyIn in_doubt 1 → ⊥ }
{}

/// A ready node may hold records that may follow, and that have short payloads.
pub fn records_that_may_be_held()
    ensures no_records { MayHold new_four 1 [] }
    ensures the_first { MayHold new_four 1 (pending 1 1 ∷ []) }
    ensures none_of_a_node_that_is_down { (w : World) → Shows in_doubt w → MayHold in_doubt 1 []
        → ⊥ }
    ensures not_the_second { Shows new_four four → MayHold new_four 1 (pending 1 2 ∷ []) → ⊥ }
    ensures none_with_a_long_payload { MayHold new_four 1
        (Pend (name 1 1) (filled 7 1 (suc MAX_PAYLOAD)) ∷ []) → ⊥ }
    ensures none_that_becomes_certain { AsksToHold memory new_four 1 [] empty_memory holding → ⊥ }
{}

/// A store is asked to hold what is foreseen, if that is two records or more.
pub fn records_that_are_foreseen()
    ensures two_of_no_world { HoldsForeseen all_ahead shows_none 1 two_submits None empty_memory
        holding_both }
    ensures none_of_a_node_that_is_down { HoldsForeseen memory in_doubt 1 [] None empty_memory
        empty_memory }
    ensures no_refused_memory_for_no_calls { (refused : NoMemory)
        → HoldsForeseen memory new_four 1 [] (Some refused) empty_memory empty_memory → ⊥ }
    ensures no_change_for_no_calls { HoldsForeseen memory new_four 1 [] None empty_memory holding
        → ⊥ }
    ensures not_one_of_two { (h : HoldsForeseen (in_memory (Unit {0})) new_four 1 two_submits None
        empty_memory holding) → h.records ≡ pending 1 1 ∷ pending 1 2 ∷ [] → ⊥ }
{}

/// This happens in a group that a run led to.
pub fn records_that_are_prepared()
    ensures no_change_for_no_calls { Prepares memory new_four 1 [] None empty_memory holding → ⊥ }
    ensures none_in_a_full_group { (w : World) → Shows full_group w
        → Prepares all_ahead full_group 1 two_submits None empty_memory holding_both → ⊥ }
{}
