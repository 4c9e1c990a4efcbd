//! Runs over stores in memory, whose group was opened or not, and how they end.
//!
//! Each of the rows that end in ⊥ breaks one rule alone.
ghost use Rattle.std.specs.Prelude.{[], ◌∷◌, ◌<◌, Err, List, Ok, false, length, true, ℕ};
ghost use Rattle.urb_daemon.specs.Runs.{EndsFrom, EndsOpened, EndsUnopened};
ghost use Rattle.urb_daemon.specs.declared.serve_fault.ServeFault.TheVariants as fault;
ghost use Rattle.urb_life_examples.specs.internal.RunExamples.{ahead_of_another, forgetful};
ghost use Rattle.urb_life_examples.specs.internal.RunExamples.{store_with};
ghost use Rattle.urb_names.specs.declared.limits.TheConstants.{MAX_PAYLOAD};
ghost use Rattle.urb_names.specs.declared.refusal.Refusal.TheVariants.{NoMemory};
ghost use Rattle.urb_stable.specs.MemoryStores.{empty_memory};
ghost use Rattle.urb_turn.specs.internal.TurnExamples.{memory};
ghost use Rattle.urb_world.specs.internal.Examples.{limits};

/// A run whose group could not be opened ends with that refusal.
pub fn runs_without_a_group()
    ensures without_memory { EndsUnopened memory (limits 4 10) [] (Err (fault.Unopened NoMemory))
        [] }
    ensures not_with_a_store_more { EndsUnopened memory (limits 4 10) []
        (Err (fault.Unopened NoMemory)) (empty_memory ∷ []) → ⊥ }
    ensures not_with_a_count { EndsUnopened memory (limits 4 10) [] (Ok 0) [] → ⊥ }
    ensures from_no_stores { EndsFrom memory (limits 4 10) [] false
        (Err (fault.Unopened NoMemory)) [] }
    ensures not_from_no_stores_with_a_count { EndsFrom memory (limits 4 10) [] false (Ok 0) []
        → ⊥ }
{}

/// The stores of an opened group serve it to its end. What they hold then is known only of stores
/// that were honest, and held no records ahead.
pub fn runs_of_an_opened_group()
    ensures over_no_stores { EndsOpened memory (limits 4 10) [] true (Ok 0) [] }
    ensures not_unreported { EndsOpened memory (limits 4 10) [] false (Ok 0) [] → ⊥ }
    ensures not_with_a_store_more { EndsOpened memory (limits 4 10) [] true (Err fault.NoMemory)
        (empty_memory ∷ []) → ⊥ }
    ensures over_a_store_that_is_not_honest { EndsOpened forgetful (limits 4 10)
        (empty_memory ∷ []) true (Ok 0) (empty_memory ∷ []) }
    ensures over_a_store_with_a_record_ahead { EndsOpened ahead_of_another (limits 4 10)
        (empty_memory ∷ []) true (Ok 0) (empty_memory ∷ []) }
    ensures not_with_a_long_payload { (payload : List ℕ) → MAX_PAYLOAD < length payload
        → EndsOpened memory (limits 4 10) (store_with payload ∷ []) true (Ok 0)
        (store_with payload ∷ []) → ⊥ }
{}
