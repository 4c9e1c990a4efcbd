//! Worked examples of what a store does that is asked to keep one record, or several together.
//!
//! Each of the rows that end in ⊥ breaks one rule alone.
ghost use Rattle.std.specs.Prelude.{[], ◌∷◌, Err, Ok, Some, true};
ghost use Rattle.urb_stable.specs.KeptDrafts.{Keeps, KeepsAll};
ghost use Rattle.urb_stable.specs.declared.stable.StoreFault.TheVariants.{Device, NoMemory, Place};
ghost use Rattle.urb_store_examples.specs.internal.SeenStores.{draft, in_doubt, pending, seen};
ghost use Rattle.urb_store_examples.specs.internal.SeenStores.{storing, suspect, with_one, with_two};

/// A store keeps a record at its next position, or it refuses the record.
pub fn what_a_store_keeps()
    ensures at_the_next_position { Keeps seen with_one (draft 2 2) (Ok tt) with_two }
    ensures nothing_elsewhere { Keeps seen with_one (draft 3 2) (Err (Place 2)) with_one }
    ensures perhaps_after_a_failure { Keeps seen with_one (draft 2 2) (Err Device)
        (record in_doubt { doubt = Some (pending 2) }) }
    ensures elsewhere { Keeps seen suspect (draft 3 2) (Ok tt) suspect → ⊥ }
    ensures out_of_place_with_a_failure { Keeps seen with_one (draft 3 2) (Err (Place 2))
        (record with_one { failures = 1 }) → ⊥ }
    ensures at_another_position_than_the_next { Keeps seen (storing (pending 1 ∷ []) 5)
        (draft 5 2) (Ok tt) with_two → ⊥ }
    ensures without_the_record { Keeps seen with_one (draft 2 2) (Ok tt) with_one → ⊥ }
    ensures still_in_doubt { Keeps seen with_one (draft 2 2) (Ok tt)
        (record with_two { doubtful = true }) → ⊥ }
    ensures a_failure_that_is_not_counted { Keeps seen with_one (draft 2 2) (Err Device)
        (record with_one { doubtful = true }) → ⊥ }
    ensures trust_that_comes_back { Keeps seen suspect (draft 2 2) (Ok tt) with_two → ⊥ }
    ensures a_record_ahead_of_it { Keeps seen with_one (draft 2 2) (Ok tt)
        (record with_two { ahead = pending 3 ∷ [] }) → ⊥ }
{}

/// A store keeps all records of a list, or none.
pub fn what_a_store_keeps_together()
    ensures two { KeepsAll seen (storing [] 1) 1 (pending 1 ∷ pending 2 ∷ []) (Ok tt) with_two }
    ensures none { KeepsAll seen with_one 2 [] (Ok tt) with_one }
    ensures nothing_elsewhere { KeepsAll seen with_one 1 (pending 2 ∷ []) (Err (Place 2)) with_one }
    ensures none_elsewhere { KeepsAll seen with_one 3 [] (Ok tt) with_one → ⊥ }
    ensures out_of_place_with_a_failure { KeepsAll seen with_one 3 (pending 2 ∷ [])
        (Err (Place 2)) (record with_one { failures = 1 }) → ⊥ }
    ensures none_with_a_failure { KeepsAll seen with_one 2 [] (Ok tt)
        (record with_one { failures = 1 }) → ⊥ }
    ensures at_another_position_than_the_next { KeepsAll seen (storing (pending 1 ∷ []) 5) 5
        (pending 2 ∷ []) (Ok tt) (storing (pending 1 ∷ pending 2 ∷ []) 6) → ⊥ }
    ensures without_the_record { KeepsAll seen with_one 2 (pending 2 ∷ []) (Ok tt)
        (record with_one { place = 3 }) → ⊥ }
    ensures a_record_in_doubt { KeepsAll seen with_one 2 (pending 2 ∷ []) (Err NoMemory)
        (record with_one { doubtful = true; doubt = Some (pending 2) }) → ⊥ }
    ensures at_the_same_position { KeepsAll seen with_one 2 (pending 2 ∷ []) (Ok tt)
        (record with_two { place = 2 }) → ⊥ }
    ensures a_failure_that_is_not_counted { KeepsAll seen with_one 2 (pending 2 ∷ []) (Err Device)
        (record with_one { doubtful = true }) → ⊥ }
    ensures trust_that_comes_back { KeepsAll seen suspect 2 (pending 2 ∷ []) (Ok tt) with_two → ⊥ }
    ensures a_record_ahead_of_them { KeepsAll seen with_one 2 (pending 2 ∷ []) (Ok tt)
        (record with_two { ahead = pending 3 ∷ [] }) → ⊥ }
{}
