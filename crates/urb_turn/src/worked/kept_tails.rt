//! Worked examples of what a store is asked to hold ahead for the calls that wait.
//!
//! Each of the rows that end in ⊥ breaks one rule alone.
ghost use Rattle.std.specs.Prelude.{[], ◌∷◌, None, Some};
ghost use Rattle.urb_names.specs.declared.refusal.NoMemory.{NoMemory};
ghost use Rattle.urb_world.specs.Step.{Submit};
ghost use Rattle.urb_world.specs.internal.Scripts.{message};
ghost use Rattle.urb_stable.specs.MemoryStores.{empty_memory};
ghost use Rattle.urb_show.specs.internal.ReaderExamples.{new_four};
ghost use Rattle.urb_turn.specs.KeptTails.{HoldsForeseen, Prepares};
ghost use Rattle.urb_turn.specs.internal.TurnExamples.{all_ahead, holding, holding_both};
ghost use Rattle.urb_turn.specs.internal.TurnExamples.{holding_others, two_submits};

/// A store is asked to hold just the records that are foreseen, if they are two or more.
pub fn stores_that_were_prepared()
    ensures both_records { HoldsForeseen all_ahead new_four 1 two_submits None empty_memory
        holding_both }
    ensures of_a_run { Prepares all_ahead new_four 1 two_submits None empty_memory holding_both }
    ensures not_the_first_alone { HoldsForeseen all_ahead new_four 1 two_submits None empty_memory
        holding → ⊥ }
    ensures not_other_records { HoldsForeseen all_ahead new_four 1 two_submits None empty_memory
        holding_others → ⊥ }
    // It can hold them, so it was asked.
    ensures not_as_before { HoldsForeseen all_ahead new_four 1 two_submits None empty_memory
        empty_memory → ⊥ }
    ensures for_no_calls { HoldsForeseen all_ahead new_four 1 [] None empty_memory empty_memory }
    ensures no_records_for_no_calls { HoldsForeseen all_ahead new_four 1 [] None empty_memory
        holding_both → ⊥ }
    ensures not_one_record { HoldsForeseen all_ahead new_four 1 (Submit 1 (message 7 1 "") ∷ [])
        None empty_memory holding → ⊥ }
    ensures no_refusal_without_a_call { (refused : NoMemory) → HoldsForeseen all_ahead new_four 1 []
        (Some refused) empty_memory empty_memory → ⊥ }
{}
