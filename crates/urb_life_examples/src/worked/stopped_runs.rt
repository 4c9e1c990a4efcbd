//! What the stores of a run hold when it has ended, and where its history has led.
//!
//! Each of the rows that end in ⊥ breaks one rule alone.
ghost use Rattle.std.specs.Prelude.{[], ◌∷◌, Err, Ok};
ghost use Rattle.urb_daemon.specs.Runs.{ComeBack, HaveServed, MayAllBeAsked, StopsAfter};
ghost use Rattle.urb_daemon.specs.Runs.{StopsIfEnded};
ghost use Rattle.urb_daemon.specs.declared.serve_fault.ServeFault.{ServeFault};
ghost use Rattle.urb_life_examples.specs.internal.RunExamples.{ahead_of_another, forgetful};
ghost use Rattle.urb_stable.specs.MemoryStores.{empty_memory};
ghost use Rattle.urb_turn.specs.internal.TurnExamples.{failed_once, four, four_views, memory};
ghost use Rattle.urb_world.specs.World.{started};
ghost use Rattle.urb_world.specs.internal.Examples.{limits};

/// The stores of a run come back in their order, after requests for their records and jobs.
pub fn stores_that_come_back()
    ensures as_they_were { ComeBack memory (empty_memory ∷ []) (empty_memory ∷ []) }
    ensures not_with_a_store_more { ComeBack memory [] (empty_memory ∷ []) → ⊥ }
    ensures not_asked_without_a_failure { MayAllBeAsked memory (failed_once ∷ [])
        (empty_memory ∷ []) → ⊥ }
    ensures not_asked_with_a_store_more { MayAllBeAsked memory (empty_memory ∷ [])
        (empty_memory ∷ empty_memory ∷ []) → ⊥ }
    ensures served_by_no_job { HaveServed memory four_views (empty_memory ∷ [])
        (empty_memory ∷ []) }
    ensures not_served_with_a_store_more { HaveServed memory four_views [] (empty_memory ∷ [])
        → ⊥ }
{}

/// A run that came to its end has led to a group, and its stores hold what a stop leaves of that.
pub fn what_a_run_leaves()
    ensures of_four_new_nodes { StopsIfEnded memory (Ok 0) (limits 4 10) four_views four [] }
    ensures anything_after_a_fault { (why : ServeFault) → StopsIfEnded memory (Err why)
        (limits 4 10) four_views (started (limits 3 10)) [] }
    ensures nothing_of_three_nodes { StopsIfEnded memory (Ok 0) (limits 4 10) four_views
        (started (limits 3 10)) [] → ⊥ }
    ensures not_where_it_did_not_lead { StopsAfter memory (limits 4 10) four_views
        (started (limits 3 10)) [] → ⊥ }
    ensures not_for_a_node_less { StopsAfter memory (limits 3 10) four_views four [] → ⊥ }
    ensures not_any_records { StopsAfter forgetful (limits 4 10) four_views four
        (empty_memory ∷ []) → ⊥ }
    ensures not_a_record_ahead_of_another { StopsAfter ahead_of_another (limits 4 10) four_views four
        (empty_memory ∷ []) → ⊥ }
{}
