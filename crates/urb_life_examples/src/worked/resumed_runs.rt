//! Runs over files that a stop had left of a group of four, and how they end.
//!
//! Each of the rows that end in ⊥ breaks one rule alone.
ghost use Rattle.std.specs.Prelude.{[], ◌∷◌, ◌<◌, Err, List, Ok, length, true, ℕ};
ghost use Rattle.urb_daemon.specs.RunsAfterStop.{EndsRefused, EndsResumed};
ghost use Rattle.urb_daemon.specs.declared.serve_fault.ServeFault.TheVariants as fault;
ghost use Rattle.urb_life_examples.specs.internal.RunExamples.{broken, one_has_delivered};
ghost use Rattle.urb_life_examples.specs.internal.RunExamples.{store_with};
ghost use Rattle.urb_names.specs.declared.limits.TheConstants.{MAX_PAYLOAD};
ghost use Rattle.urb_names.specs.declared.refusal.Refusal.TheVariants.{Busy, NoMemory};
ghost use Rattle.urb_show.specs.internal.ReaderExamples.{new_four};
ghost use Rattle.urb_stable.specs.MemoryStores.{empty_memory};
ghost use Rattle.urb_turn.specs.internal.TurnExamples.{four, four_views, memory, one_has_stored};
ghost use Rattle.urb_world.specs.internal.Examples.{limits};

/// A group that may start, over stores that return what was written, is refused only without memory
/// or by a device. The stores still hold what the stop had left.
pub fn runs_that_are_refused()
    ensures without_memory { EndsRefused memory four_views four (limits 4 10)
        (Err (fault.Unopened NoMemory)) [] }
    ensures not_with_a_count { EndsRefused memory four_views four (limits 4 10) (Ok 0) [] → ⊥ }
    ensures not_after_a_group_without_nodes { EndsRefused memory new_four four (limits 4 10)
        (Err (fault.Unopened NoMemory)) [] → ⊥ }
    ensures not_as_busy { EndsRefused memory four_views four (limits 4 10)
        (Err (fault.Unopened Busy)) [] → ⊥ }
    ensures as_busy_under_too_low_a_cap { EndsRefused memory four_views one_has_stored (limits 4 0)
        (Err (fault.Unopened Busy)) [] }
    ensures as_busy_over_a_broken_store { EndsRefused broken four_views four (limits 4 10)
        (Err (fault.Unopened Busy)) (empty_memory ∷ []) }
{}

/// A group that was opened goes on if its disks returned what was written. Its stores serve it, and
/// hold what the next start takes.
pub fn runs_that_resume()
    ensures over_a_broken_store { EndsResumed broken one_has_delivered (limits 4 10)
        (empty_memory ∷ []) true (Err fault.NoMemory) (empty_memory ∷ []) }
    ensures not_without_its_store { EndsResumed broken one_has_delivered (limits 4 10)
        (empty_memory ∷ []) true (Err fault.NoMemory) [] → ⊥ }
    ensures not_reported_and_untold { EndsResumed broken one_has_delivered (limits 4 10)
        (empty_memory ∷ []) true (Err fault.Untold) (empty_memory ∷ []) → ⊥ }
    ensures not_without_an_image_for_each { EndsResumed memory four (limits 4 10) [] true
        (Err fault.NoMemory) [] → ⊥ }
    ensures not_with_a_long_payload { (payload : List ℕ) → MAX_PAYLOAD < length payload
        → EndsResumed broken one_has_delivered (limits 4 10) (store_with payload ∷ []) true (Ok 0)
        (store_with payload ∷ []) → ⊥ }
{}
