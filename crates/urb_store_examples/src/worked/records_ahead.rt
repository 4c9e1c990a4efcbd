//! Worked examples of what a call does to the records that a store holds ahead.
//!
//! Each of the rows that end in ⊥ breaks one rule alone.
ghost use Rattle.std.specs.Prelude.{[], ◌∷◌, Err, None, Ok, Some};
ghost use Rattle.urb_stable.specs.RecordsAhead.{IsMissed, IsRefused, IsReplaced, IsTaken};
ghost use Rattle.urb_stable.specs.RecordsAhead.{KeepsAhead, SparesAhead};
ghost use Rattle.urb_stable.specs.declared.stable.StoreFault.TheVariants.{Device, NoMemory, Place};
ghost use Rattle.urb_store_examples.specs.internal.SeenStores.{both, pending};

/// A call keeps the records ahead, and those that they follow.
pub fn what_keeps_the_records_ahead()
    ensures both_behind_none { KeepsAhead both [] both [] }
    ensures not_one_of_them { KeepsAhead both [] (pending 2 ∷ []) [] → ⊥ }
    ensures not_behind_others { KeepsAhead (pending 2 ∷ []) [] (pending 2 ∷ []) (pending 1 ∷ [])
        → ⊥ }
{}

/// A store takes the first record ahead, if that is the one to be stored.
pub fn what_a_store_takes()
    ensures the_first { IsTaken (pending 1) (pending 2 ∷ []) [] (pending 2 ∷ []) (pending 1 ∷ [])
        (pending 1) (Ok tt) }
    ensures not_for_another_one { IsTaken (pending 1) (pending 2 ∷ []) [] (pending 2 ∷ [])
        (pending 1 ∷ []) (pending 3) (Ok tt) → ⊥ }
    ensures not_with_a_failure { IsTaken (pending 1) (pending 2 ∷ []) [] (pending 2 ∷ [])
        (pending 1 ∷ []) (pending 1) (Err Device) → ⊥ }
    ensures not_the_rest { IsTaken (pending 1) (pending 2 ∷ []) [] [] (pending 1 ∷ []) (pending 1)
        (Ok tt) → ⊥ }
    ensures not_without_giving_it_out { IsTaken (pending 1) (pending 2 ∷ []) [] (pending 2 ∷ []) []
        (pending 1) (Ok tt) → ⊥ }
{}

/// A store takes all records ahead out again, if another one is to be stored.
pub fn what_a_store_replaces()
    ensures all_for_another_one { IsReplaced (pending 1) [] (pending 3) }
    ensures none_for_the_first_itself { IsReplaced (pending 1) [] (pending 1) → ⊥ }
    ensures not_the_first_alone { IsReplaced (pending 1) (pending 2 ∷ []) (pending 3) → ⊥ }
{}

/// A store in place fails and keeps the records ahead, or it is out of place and keeps them.
pub fn what_a_store_refuses()
    ensures in_place { IsRefused both [] both [] None (Err Device) }
    ensures not_with_ok { IsRefused both [] both [] None (Ok tt) → ⊥ }
    ensures not_out_of_place { IsRefused both [] both [] None (Err (Place 1)) → ⊥ }
    ensures not_with_a_record_in_doubt { IsRefused both [] both [] (Some (pending 1)) (Err Device)
        → ⊥ }
    ensures not_with_one_record_less { IsRefused both [] (pending 2 ∷ []) [] None (Err Device) → ⊥ }
    ensures out_of_place { IsMissed both [] both [] (Err (Place 1)) }
    ensures not_missed_with_another_failure { IsMissed both [] both [] (Err NoMemory) → ⊥ }
    ensures not_missed_with_one_record_less { IsMissed both [] (pending 2 ∷ []) []
        (Err (Place 1)) → ⊥ }
{}

/// No list of records is stored in place of the records ahead.
pub fn what_a_list_spares()
    ensures an_empty_list { SparesAhead both [] both [] [] (Ok tt) }
    ensures a_list_if_none_are_ahead { SparesAhead [] [] [] [] both (Ok tt) }
    ensures a_list_that_fails { SparesAhead both [] both [] both (Err Device) }
    ensures not_with_one_record_less { SparesAhead both [] (pending 2 ∷ []) [] [] (Ok tt) → ⊥ }
    ensures not_a_list_that_is_stored { SparesAhead both [] both [] both (Ok tt) → ⊥ }
{}
