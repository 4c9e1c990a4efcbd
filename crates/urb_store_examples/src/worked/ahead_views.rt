//! Worked examples of a store that holds records ahead, over another store.
//!
//! Each of the rows that end in ⊥ breaks one rule alone.
ghost use Rattle.std.specs.Prelude.{[], ◌∷◌, ◌≡◌, ◌^◌, Err, Ok, Some, false, true};
ghost use Rattle.urb_stable.specs.AheadStores.{AnswersFirst, IsInside, IsSound, IsWhole};
ghost use Rattle.urb_stable.specs.AheadStores.{LeavesInside, RetrievesLess, fresh, given_out, may_hold};
ghost use Rattle.urb_stable.specs.AheadStores.{must_retrieve, place_before};
ghost use Rattle.urb_stable.specs.declared.stable.StoreFault.TheVariants.{Device, Place};
ghost use Rattle.urb_store_examples.specs.internal.SeenStores.{both, failing_ahead, in_doubt};
ghost use Rattle.urb_store_examples.specs.internal.SeenStores.{one_ahead, pending, seen, suspect};
ghost use Rattle.urb_store_examples.specs.internal.SeenStores.{with_one, with_two};

/// Stores of which a rule is true that holds of each store with records ahead.
pub fn sound_stores()
    ensures new { IsSound seen (fresh seen with_one) }
    ensures with_one_ahead { IsSound seen one_ahead }
    ensures that_failed_to_keep_one { IsSound seen failing_ahead }
    ensures that_must_retrieve { IsSound seen (record one_ahead { spent = true; failures = 1 }) }
    ensures over_a_record_in_doubt { IsSound seen (fresh seen
        (record in_doubt { doubt = Some (pending 2) })) }
    ensures with_another_base { IsSound seen (record (fresh seen with_two) { base = [] }) }
    ensures that_began_without_trust { IsSound seen (record (fresh seen with_one) { start = suspect }) }
    ensures that_lost_trust { IsSound seen (record (fresh seen with_one) { store = suspect }) }
    ensures without_trust { IsSound seen (record one_ahead
        { store = record with_two { honest = false; left = [] ∷ [] } }) }
{}

/// Stores of which it isn't true.
pub fn unsound_stores()
    ensures spent_with_none_ahead { IsSound seen (record (fresh seen with_one) { spent = true }) → ⊥ }
    ensures failing_with_none_ahead { IsSound seen (record (fresh seen with_one) { failing = true })
        → ⊥ }
    ensures with_too_many_failures { IsSound seen (record (fresh seen with_one)
        { failures = 2 ^ 64 }) → ⊥ }
    ensures over_a_record_in_doubt { IsSound seen (record one_ahead
        { store = record with_two { doubt = Some (pending 3) } }) → ⊥ }
    ensures over_one_that_must_retrieve { IsSound seen (record one_ahead
        { store = record with_two { doubtful = true } }) → ⊥ }
    ensures over_one_without_the_record_ahead { IsSound seen (record one_ahead
        { store = record with_two { certain = pending 1 ∷ [] } }) → ⊥ }
    ensures failing_over_one_that_has_it { IsSound seen (record failing_ahead
        { store = record in_doubt { certain = both; left = (pending 1 ∷ []) ∷ both ∷ [] } }) → ⊥ }
    ensures failing_with_new_trust { IsSound seen (record failing_ahead { start = suspect }) → ⊥ }
    ensures failing_without_trust { IsSound seen (record failing_ahead { store = suspect }) → ⊥ }
    ensures failing_at_a_later_place { IsSound seen (record failing_ahead
        { store = record in_doubt { place = 3; left = (pending 1 ∷ []) ∷ both ∷ [] } }) → ⊥ }
    ensures of_which_a_stop_leaves_less { IsSound seen (record one_ahead
        { store = record with_two { left = [] ∷ [] } }) → ⊥ }
{}

/// A stop leaves the base of the store, and of the inner one the base and all records ahead.
pub fn what_a_stop_leaves_inside()
    ensures the_base { LeavesInside seen one_ahead (λ list. list ≡ pending 1 ∷ []) }
    ensures the_records { LeavesInside seen (record (fresh seen with_one) { base = [] })
        (λ list. list ≡ pending 1 ∷ []) }
    ensures not_less_than_the_records { LeavesInside seen (fresh seen with_one) (λ list. list ≡ [])
        → ⊥ }
    ensures not_less_than_the_base { LeavesInside seen one_ahead (λ list. list ≡ []) → ⊥ }
{}

/// What a store with records ahead has given out, where it is, and whether it must retrieve.
pub fn stores_over_others()
    ensures all_of_the_inner_store { given_out both [] [] ≡ both }
    ensures the_base_of_one_ahead { given_out both (pending 1 ∷ []) (pending 2 ∷ []) ≡ pending 1 ∷ [] }
    ensures its_place { place_before 4 [] false ≡ 4 }
    ensures the_place_before_one_ahead { place_before 4 (pending 2 ∷ []) false ≡ 3 }
    ensures its_place_if_it_is_failing { place_before 4 (pending 2 ∷ []) true ≡ 4 }
    ensures no_retrieve_with_none_ahead { must_retrieve [] true false ≡ false }
    ensures a_retrieve_with_one_ahead { must_retrieve (pending 2 ∷ []) true false ≡ true }
    ensures room_with_none_ahead { may_hold [] false ≡ true }
    ensures no_room_out_of_place { may_hold [] true ≡ false }
    ensures no_room_behind_one { may_hold (pending 2 ∷ []) true ≡ false }
{}

/// What the inner store is and holds, and what a store over it answers.
pub fn answers_over_others()
    ensures trust_from_before { IsWhole true (Unit {0}) (Unit {0}) ⊥ }
    ensures trust_of_now { IsWhole false ⊥ ⊥ (Unit {0}) }
    ensures no_trust_that_was_not_there { IsWhole true ⊥ (Unit {0}) (Unit {0}) → ⊥ }
    ensures no_trust_that_is_not_clean { IsWhole true (Unit {0}) ⊥ (Unit {0}) → ⊥ }
    ensures just_the_base_after_a_failure { IsInside true (pending 1 ∷ []) (pending 2 ∷ [])
        (pending 1 ∷ []) }
    ensures all_of_them { IsInside false (pending 1 ∷ []) (pending 2 ∷ []) both }
    ensures not_just_the_base { IsInside false (pending 1 ∷ []) (pending 2 ∷ []) (pending 1 ∷ [])
        → ⊥ }
    ensures out_of_place { AnswersFirst true true 2 0 (pending 2) (pending 2) (Err (Place 2)) }
    ensures a_failure { AnswersFirst false true 2 0 (pending 2) (pending 2) (Err Device) }
    ensures the_record_ahead { AnswersFirst false false 2 0 (pending 2) (pending 2) (Ok tt) }
    ensures what_it_retrieved { RetrievesLess (λ answer. answer ≡ Ok (pending 1 ∷ []))
        (pending 2 ∷ []) true (Ok (pending 1 ∷ [])) }
    ensures that_without_the_record_ahead { RetrievesLess (λ answer. answer ≡ Ok both)
        (pending 2 ∷ []) false (Ok (pending 1 ∷ [])) }
    ensures no_less_than_that { RetrievesLess (λ answer. answer ≡ Ok both) (pending 2 ∷ []) false
        (Ok []) → ⊥ }
{}
