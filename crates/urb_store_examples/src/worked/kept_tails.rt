//! Worked examples of stores that are asked to hold records ahead.
//!
//! Each of the rows that end in ⊥ breaks one rule alone.
ghost use Rattle.std.specs.Prelude.{[], ◌∷◌, Err, None, Ok, Some, false, true};
ghost use Rattle.urb_stable.specs.KeptTails.{KeepsTail};
ghost use Rattle.urb_stable.specs.RecordsAhead.{HoldsAhead, IsHoldRefused, StandsStill};
ghost use Rattle.urb_stable.specs.declared.stable.StoreFault.TheVariants.{Device, NoMemory, Place};
ghost use Rattle.urb_store_examples.specs.internal.SeenStores.{both, pending, seen, with_one};
ghost use Rattle.urb_store_examples.specs.internal.SeenStores.{with_two};

/// A store holds all of the records ahead, and gives none of them out.
pub fn what_a_store_holds_ahead()
    ensures one { KeepsTail seen with_one (pending 2 ∷ []) (Ok tt)
        (record with_one { ahead = pending 2 ∷ []; base = pending 1 ∷ [] }) }
    ensures perhaps_after_a_failure { KeepsTail seen with_one (pending 2 ∷ []) (Err NoMemory)
        (record with_one { ahead = pending 2 ∷ []; base = pending 1 ∷ [] }) }
    ensures nothing_without_room { KeepsTail seen (record with_one { room = false })
        (pending 2 ∷ []) (Err (Place 2)) (record with_one { room = false }) }
    ensures one_without_room { KeepsTail seen (record with_one { room = false }) (pending 2 ∷ [])
        (Ok tt) (record with_one { ahead = pending 2 ∷ []; base = pending 1 ∷ [] }) → ⊥ }
    ensures at_a_later_position { KeepsTail seen with_one (pending 2 ∷ []) (Ok tt)
        (record with_one { ahead = pending 2 ∷ []; base = pending 1 ∷ []; place = 3 }) → ⊥ }
    ensures given_out { KeepsTail seen with_one (pending 2 ∷ []) (Ok tt)
        (record with_two { ahead = pending 2 ∷ []; base = pending 1 ∷ []; place = 2 }) → ⊥ }
    ensures a_failure_that_is_not_counted { KeepsTail seen with_one (pending 2 ∷ []) (Err Device)
        (record with_one { ahead = pending 2 ∷ []; base = pending 1 ∷ [] }) → ⊥ }
    ensures none { KeepsTail seen with_one (pending 2 ∷ []) (Ok tt) with_one → ⊥ }
    ensures trust_that_comes_back { KeepsTail seen (record with_one { honest = false })
        (pending 2 ∷ []) (Ok tt) (record with_one { ahead = pending 2 ∷ [] }) → ⊥ }
{}

/// A call that holds records ahead moves no position, and settles no doubt.
pub fn what_stands_still()
    ensures everything { StandsStill 2 true (Some (pending 2)) 2 true (Some (pending 2)) }
    ensures not_another_position { StandsStill 2 false None 3 false None → ⊥ }
    ensures not_a_retrieve_to_come { StandsStill 2 false None 2 true None → ⊥ }
    ensures not_a_record_in_doubt { StandsStill 2 true (Some (pending 2)) 2 true None → ⊥ }
{}

/// The records ahead are those that were asked for, and they follow the certain ones.
pub fn what_is_held_ahead()
    ensures two_behind_none { HoldsAhead both both [] [] (Unit {0}) (Unit {0}) }
    ensures behind_any_records_if_it_lied { HoldsAhead both both [] both ⊥ (Unit {0}) }
    ensures not_the_first_alone { HoldsAhead both (pending 1 ∷ []) [] [] (Unit {0}) (Unit {0}) → ⊥ }
    ensures not_behind_others { HoldsAhead both both [] (pending 3 ∷ []) (Unit {0}) (Unit {0}) → ⊥ }
    ensures not_if_a_stop_leaves_more { HoldsAhead both both [] [] (Unit {0}) ⊥ → ⊥ }
{}

/// A store refuses to hold records ahead if it can't, and for that reason alone.
pub fn refusals_to_hold()
    ensures not_if_it_can { IsHoldRefused true (Ok tt) }
    ensures if_it_can_not { IsHoldRefused false (Err (Place 2)) }
    ensures never_if_it_can { IsHoldRefused true (Err (Place 2)) → ⊥ }
    ensures always_if_it_can_not { IsHoldRefused false (Ok tt) → ⊥ }
{}
