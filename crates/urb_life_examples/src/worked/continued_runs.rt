//! Runs over what a stop had left of a group of four, and how they end.
//!
//! Each of the rows that end in ⊥ breaks one rule alone.
ghost use Rattle.std.specs.Prelude.{[], ◌∷◌, ◌<◌, Err, List, Ok, false, length, true, ℕ};
ghost use Rattle.urb_daemon.specs.RunsAfterStop.{EndsContinued, EndsStopped};
ghost use Rattle.urb_daemon.specs.declared.serve_fault.ServeFault.TheVariants as fault;
ghost use Rattle.urb_life_examples.specs.internal.RunExamples.{ahead_of_another, forgetful};
ghost use Rattle.urb_life_examples.specs.internal.RunExamples.{one_has_delivered, store_with};
ghost use Rattle.urb_names.specs.declared.limits.TheConstants.{MAX_PAYLOAD};
ghost use Rattle.urb_names.specs.declared.refusal.Refusal.TheVariants.{NoMemory};
ghost use Rattle.urb_stable.specs.MemoryStores.{empty_memory};
ghost use Rattle.urb_turn.specs.internal.TurnExamples.{four, four_views, lying, memory};
ghost use Rattle.urb_world.specs.internal.Examples.{limits};

/// A run whose group could not be opened again ends with that refusal.
pub fn runs_that_stay_stopped()
    ensures without_memory { EndsStopped memory four_views four (limits 4 10) []
        (Err (fault.Unopened NoMemory)) [] }
    ensures not_with_a_count { EndsStopped memory four_views four (limits 4 10) [] (Ok 0) [] → ⊥ }
{}

/// A group that was opened again goes on over intact stores, and they serve it.
pub fn runs_that_go_on()
    ensures over_no_stores { EndsContinued memory four (limits 4 10) [] true (Ok 0) [] }
    ensures not_unreported { EndsContinued memory four (limits 4 10) [] false (Ok 0) [] → ⊥ }
    ensures not_with_a_store_more { EndsContinued memory four (limits 4 10) [] true
        (Err fault.NoMemory) (empty_memory ∷ []) → ⊥ }
    ensures not_without_what_was_delivered { EndsContinued memory one_has_delivered (limits 4 10) []
        true (Err fault.NoMemory) [] → ⊥ }
    ensures over_a_store_that_is_not_honest { EndsContinued forgetful one_has_delivered
        (limits 4 10) (empty_memory ∷ []) true (Ok 0) (empty_memory ∷ []) }
    ensures over_a_store_with_a_record_ahead { EndsContinued ahead_of_another four (limits 4 10)
        (empty_memory ∷ []) true (Ok 0) (empty_memory ∷ []) }
    ensures not_with_a_long_payload { (payload : List ℕ) → MAX_PAYLOAD < length payload
        → EndsContinued lying four (limits 4 10) (store_with payload ∷ []) true
        (Err fault.NoMemory) (store_with payload ∷ []) → ⊥ }
{}
