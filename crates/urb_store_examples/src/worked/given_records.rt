//! Worked examples of what a store does that is asked for its records.
//!
//! Each of the rows that end in ⊥ breaks one rule alone.
ghost use Rattle.std.specs.Prelude.{[], ◌∷◌, Err, None, Ok, Some, false, true};
ghost use Rattle.urb_stable.specs.RetrievedRecords.{Gives};
ghost use Rattle.urb_stable.specs.StableStorage.{IsAllowedFault, IsRetrieved, SettlesDoubt, StaysShut};
ghost use Rattle.urb_stable.specs.declared.stable.StoreFault.TheVariants.{BadRow, Device, NoMemory};
ghost use Rattle.urb_stable.specs.declared.stable.StoreFault.TheVariants.{Place};
ghost use Rattle.urb_store_examples.specs.internal.SeenStores.{both, closed, in_doubt, pending, seen};
ghost use Rattle.urb_store_examples.specs.internal.SeenStores.{suspect, with_one};

/// A store gives all of its records, or it fails and changes nothing but its count of failures.
pub fn what_a_store_gives()
    ensures its_record { Gives seen with_one (Ok (pending 1 ∷ [])) with_one }
    ensures nothing_if_it_is_shut { Gives seen closed (Err NoMemory) closed }
    ensures anything_if_it_was_neither_honest_nor_shut { Gives seen suspect (Ok both)
        (record suspect { left = [] ∷ both ∷ [] }) }
    ensures less_than_its_record { Gives seen with_one (Ok []) with_one → ⊥ }
    ensures with_a_doubt_that_stays { Gives seen in_doubt (Ok (pending 1 ∷ [])) in_doubt → ⊥ }
    ensures a_bad_row_of_an_honest_store { Gives seen with_one (Err (BadRow 1)) with_one → ⊥ }
    ensures a_failure_that_is_not_counted { Gives seen with_one (Err Device) with_one → ⊥ }
    ensures trust_that_comes_back { Gives seen (record suspect { clean = false })
        (Ok (pending 1 ∷ [])) suspect → ⊥ }
    ensures its_record_although_it_is_shut { Gives seen closed (Ok (pending 1 ∷ [])) closed → ⊥ }
    ensures more_that_a_stop_leaves { Gives seen closed (Err NoMemory)
        (record closed { left = both ∷ [] }) → ⊥ }
    ensures another_record_ahead { Gives seen with_one (Ok (pending 1 ∷ []))
        (record with_one { ahead = pending 2 ∷ [] }) → ⊥ }
{}

/// What is returned is certain from then on. A failure leaves the certain records as they were.
pub fn what_is_retrieved()
    ensures the_certain_record { IsRetrieved (pending 1 ∷ []) None (pending 1 ∷ [])
        (Ok (pending 1 ∷ [])) }
    ensures the_record_in_doubt_too { IsRetrieved (pending 1 ∷ []) (Some (pending 2)) both (Ok both) }
    ensures no_other_record { IsRetrieved (pending 1 ∷ []) None both (Ok both) → ⊥ }
    ensures nothing_that_stays_uncertain { IsRetrieved (pending 1 ∷ []) (Some (pending 2))
        (pending 1 ∷ []) (Ok both) → ⊥ }
    ensures nothing_by_a_failure { IsRetrieved (pending 1 ∷ []) None [] (Err NoMemory) → ⊥ }
{}

/// A retrieve settles what was in doubt. If it fails, all stays as it was.
pub fn what_settles_a_doubt()
    ensures a_retrieve { SettlesDoubt true (Some (pending 2)) 2 false None 3 (Ok both) }
    ensures no_failure { SettlesDoubt true (Some (pending 2)) 2 true (Some (pending 2)) 2
        (Err NoMemory) }
    ensures none_with_a_retrieve_to_come { SettlesDoubt true None 2 true None 2 (Ok both) → ⊥ }
    ensures none_with_a_record_in_doubt { SettlesDoubt true (Some (pending 2)) 2 false
        (Some (pending 2)) 2 (Ok both) → ⊥ }
    ensures not_a_failure { SettlesDoubt true None 2 false None 2 (Err NoMemory) → ⊥ }
    ensures no_position_by_a_failure { SettlesDoubt false None 2 false None 3 (Err NoMemory) → ⊥ }
{}

/// A retrieve never says Place. A store that has been honest never says that a row is bad.
pub fn which_faults_a_retrieve_has()
    ensures no_memory { IsAllowedFault (Unit {0}) ⊥ (Unit {0}) (Unit {0}) (Err NoMemory) }
    ensures a_bad_row_of_a_store_that_lied { IsAllowedFault ⊥ ⊥ (Unit {0}) ⊥ (Err (BadRow 1)) }
    ensures not_a_place { IsAllowedFault ⊥ ⊥ ⊥ ⊥ (Err (Place 2)) → ⊥ }
    ensures no_bad_row_of_an_honest_store { IsAllowedFault ⊥ ⊥ ⊥ (Unit {0}) (Err (BadRow 1)) → ⊥ }
    ensures no_bad_row_of_a_shut_store { IsAllowedFault ⊥ (Unit {0}) (Unit {0}) ⊥ (Err (BadRow 1))
        → ⊥ }
{}

/// A store that is shut gives nothing, and stays shut.
pub fn what_a_shut_store_gives()
    ensures nothing { StaysShut (Unit {0}) (Unit {0}) (Unit {0}) (Err Device) }
    ensures no_records { StaysShut (Unit {0}) (Unit {0}) (Unit {0}) (Ok both) → ⊥ }
    ensures no_way_back { StaysShut (Unit {0}) (Unit {0}) ⊥ (Err Device) → ⊥ }
{}
