//! Worked examples of kills at any moment: which stores a kill finds, and what is left of a batch.
//!
//! Each of the rows that end in ⊥ breaks one rule alone.
ghost use Rattle.std.specs.Prelude.{[], ◌∷◌, ◌≡◌};
ghost use Rattle.urb_world.specs.Step.{Tick};
ghost use Rattle.urb_world.specs.internal.Examples.{pending};
ghost use Rattle.urb_stable.specs.MemoryStores.{Memory, empty_memory};
ghost use Rattle.urb_show.specs.internal.ReaderExamples.{new_four};
ghost use Rattle.urb_turn.specs.KilledBatches.{AreKilledAt, IsHoldingAt, IsKilledAt};
ghost use Rattle.urb_turn.specs.KilledBatches.{LeavesAllOrNone};
ghost use Rattle.urb_turn.specs.NodeStores.{IsStoreAfter};
ghost use Rattle.urb_turn.specs.Views.{FinishedView};
ghost use Rattle.urb_turn.specs.WholeTurns.{IsTurnAt};
ghost use Rattle.urb_turn.specs.declared.job.Job.TheVariants as job;
ghost use Rattle.urb_turn.specs.internal.TurnExamples.{ahead_of, failed_once, four, holding};
ghost use Rattle.urb_turn.specs.internal.TurnExamples.{memory, one_has_stored};

/// A kill leaves all records of a batch behind those of the node, or none of them.
pub fn batches_that_a_kill_leaves()
    ensures none_of_two { LeavesAllOrNone memory four 1 (pending 1 1 ∷ pending 1 2 ∷ [])
        empty_memory }
    ensures both { LeavesAllOrNone memory four 1 (pending 1 1 ∷ pending 1 2 ∷ [])
        (record empty_memory { certain = pending 1 1 ∷ pending 1 2 ∷ [] }) }
    ensures none_behind_a_record { LeavesAllOrNone memory one_has_stored 1 (pending 1 2 ∷ [])
        holding }
    ensures not_the_first_alone { LeavesAllOrNone memory four 1 (pending 1 1 ∷ pending 1 2 ∷ [])
        holding → ⊥ }
    ensures not_another_record { LeavesAllOrNone memory four 1 (pending 1 2 ∷ []) holding → ⊥ }
    ensures not_without_the_nodes_record { LeavesAllOrNone memory one_has_stored 1
        (pending 1 2 ∷ []) empty_memory → ⊥ }
{}

/// A store that is asked to hold a batch matched its node, which rests. The batch may follow the
/// node's records.
pub fn stores_that_hold_a_batch()
    ensures the_first_record { IsHoldingAt (ahead_of [] (pending 1 1 ∷ [])) new_four four [] 1
        (pending 1 1 ∷ []) empty_memory empty_memory }
    ensures while_another_node_ticks { IsHoldingAt (ahead_of [] (pending 1 1 ∷ [])) new_four four
        (Tick 2 ∷ []) 1 (pending 1 1 ∷ []) empty_memory empty_memory }
    ensures not_a_gap { IsHoldingAt memory new_four four [] 1 (pending 1 2 ∷ []) empty_memory
        empty_memory → ⊥ }
    ensures not_one_that_failed_before { IsHoldingAt memory new_four four [] 1 (pending 1 1 ∷ [])
        failed_once empty_memory → ⊥ }
    ensures not_one_with_a_pair { IsHoldingAt memory new_four four [] 1 [] holding holding → ⊥ }
{}

/// A kill finds a store idle, in a turn, or asked to hold a batch.
pub fn stores_that_a_kill_finds()
    ensures an_idle_one { (store : Memory)
        → IsStoreAfter memory four [] 1 store
        → IsKilledAt memory new_four four (Tick 2 ∷ []) 1 store }
    ensures in_a_turn { (before store : Memory) (came : FinishedView)
        (at : IsTurnAt memory new_four 1 (job.Tick 1) before store came)
        → IsStoreAfter memory four at.turn.lent.past 1 before
        → IsKilledAt memory new_four four at.turn.given_back.past 1 store }
    ensures with_a_batch { (before store : Memory)
        → IsHoldingAt memory new_four four (Tick 2 ∷ []) 1 (pending 1 1 ∷ []) before store
        → IsKilledAt memory new_four four (Tick 2 ∷ []) 1 store }
    ensures not_one_with_a_pair { IsKilledAt memory new_four four [] 1 holding → ⊥ }
    ensures no_stores { AreKilledAt memory new_four four [] [] }
    ensures the_first_as_it_is { AreKilledAt memory new_four four [] (holding ∷ [])
        → IsKilledAt memory new_four four [] 1 holding }
    ensures not_the_first_with_a_pair { AreKilledAt memory new_four four [] (holding ∷ []) → ⊥ }
{}
