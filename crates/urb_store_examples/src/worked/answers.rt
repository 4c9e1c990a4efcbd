//! Worked examples of answers of a store, and what each says of the records and of what is in doubt.
//!
//! Each of the rows that end in ⊥ breaks one rule alone.
ghost use Rattle.std.specs.Prelude.{[], ◌∷◌, ◌≡◌, Err, None, Some, false, true};
ghost use Rattle.urb_names.specs.declared.refusal.Refusal.TheVariants as refusal;
ghost use Rattle.urb_stable.specs.StableStorage.{CountsFailures, IsAppended, KeepsTrust, LeavesDoubt};
ghost use Rattle.urb_stable.specs.StableStorage.{is_bad_row, is_place, refusal_of};
ghost use Rattle.urb_stable.specs.StoredTogether.{AreAppended, LeavesNoRecord, MovesPlace};
ghost use Rattle.urb_stable.specs.StoredTogether.{StoresNothing};
ghost use Rattle.urb_stable.specs.WithdrawnRecords.{AreWithdrawn, KeepsDoubt, Withdraws};
ghost use Rattle.urb_stable.specs.declared.stable.StoreFault.TheVariants.{BadRow, Device, NoMemory};
ghost use Rattle.urb_stable.specs.declared.stable.StoreFault.TheVariants.{Place};
ghost use Rattle.urb_store_examples.specs.internal.SeenStores.{both, failed, kept, pending};

/// Each fault is reported by the refusal of the same name.
pub fn what_faults_say()
    ensures no_memory { refusal_of NoMemory ≡ refusal.NoMemory }
    ensures a_device { refusal_of Device ≡ refusal.Device }
    ensures a_place { refusal_of (Place 3) ≡ refusal.Place 3 }
    ensures a_bad_row { refusal_of (BadRow 2) ≡ refusal.BadRow 2 }
    ensures place_is_one { is_place (Place 3) ≡ true }
    ensures device_is_no_place { is_place Device ≡ false }
    ensures bad_row_is_one { is_bad_row (BadRow 2) ≡ true }
    ensures place_is_no_bad_row { is_bad_row (Place 3) ≡ false }
{}

/// After Ok the record, or all records of a list, follow the certain ones. After a fault none does.
pub fn what_is_appended()
    ensures the_record { IsAppended (pending 1 ∷ []) both (pending 2) kept }
    ensures no_other_record { IsAppended (pending 1 ∷ []) (pending 1 ∷ []) (pending 2) kept → ⊥ }
    ensures nothing_by_a_fault { IsAppended (pending 1 ∷ []) both (pending 2) failed → ⊥ }
    ensures the_list { AreAppended [] both both kept }
    ensures not_the_first_alone { AreAppended [] (pending 1 ∷ []) both kept → ⊥ }
    ensures no_list_by_a_fault { AreAppended [] both both failed → ⊥ }
    ensures an_empty_list { StoresNothing false both kept both }
    ensures whatever_is_out_of_place { StoresNothing true both (Err (Place 3)) [] }
    ensures no_failing_empty_list { StoresNothing false both failed both → ⊥ }
    ensures no_change_by_an_empty_list { StoresNothing false both kept [] → ⊥ }
{}

/// After Ok nothing is in doubt. After a failure one record may be, but no list of them.
pub fn what_is_left_in_doubt()
    ensures nothing { LeavesDoubt false None (pending 1) kept }
    ensures the_record { LeavesDoubt true (Some (pending 1)) (pending 1) failed }
    ensures no_retrieve_after_ok { LeavesDoubt true None (pending 1) kept → ⊥ }
    ensures no_record_after_ok { LeavesDoubt false (Some (pending 1)) (pending 1) kept → ⊥ }
    ensures not_without_a_retrieve { LeavesDoubt false None (pending 1) failed → ⊥ }
    ensures no_other_record { LeavesDoubt true (Some (pending 2)) (pending 1) failed → ⊥ }
    ensures no_list { LeavesNoRecord true None failed }
    ensures no_retrieve_after_a_list { LeavesNoRecord true None kept → ⊥ }
    ensures no_list_without_a_retrieve { LeavesNoRecord false None failed → ⊥ }
    ensures no_record_of_a_list { LeavesNoRecord true (Some (pending 1)) failed → ⊥ }
    ensures as_before { KeepsDoubt true (Some (pending 1)) true (Some (pending 1)) }
    ensures not_with_a_retrieve_to_come { KeepsDoubt false None true None → ⊥ }
    ensures not_with_a_record_less { KeepsDoubt true (Some (pending 1)) true None → ⊥ }
{}

/// The count of failures never falls, and each failure of the device is counted.
pub fn how_failures_are_counted()
    ensures none { CountsFailures 2 2 kept }
    ensures one { CountsFailures 2 3 failed }
    ensures not_by_no_count { CountsFailures 2 2 failed → ⊥ }
    ensures not_backwards { CountsFailures 2 1 kept → ⊥ }
    ensures by_two { MovesPlace 1 3 2 kept }
    ensures not_the_place_by_less { MovesPlace 1 2 2 kept → ⊥ }
    ensures not_the_place_by_a_fault { MovesPlace 1 3 2 failed → ⊥ }
{}

/// A clean store that was honest stays so after Ok. A failure may shut it, and nothing else.
pub fn what_keeps_trust()
    ensures an_honest_store { KeepsTrust (Unit {0}) (Unit {0}) (Unit {0}) (Unit {0}) ⊥ kept }
    ensures a_store_that_a_failure_shut { KeepsTrust (Unit {0}) (Unit {0}) (Unit {0}) ⊥ (Unit {0})
        failed }
    ensures none_that_ok_shut { KeepsTrust (Unit {0}) (Unit {0}) (Unit {0}) ⊥ (Unit {0}) kept → ⊥ }
    ensures none_that_is_just_dishonest { KeepsTrust (Unit {0}) (Unit {0}) (Unit {0}) ⊥ ⊥ failed
        → ⊥ }
    ensures none_that_gets_clean { KeepsTrust ⊥ ⊥ (Unit {0}) ⊥ ⊥ kept → ⊥ }
    ensures none_that_gets_honest { KeepsTrust (Unit {0}) ⊥ (Unit {0}) (Unit {0}) ⊥ kept → ⊥ }
{}

/// The last records are taken out together, or none of them.
pub fn what_is_withdrawn()
    ensures the_last { AreWithdrawn both (pending 1 ∷ []) 1 kept }
    ensures not_the_first { AreWithdrawn both (pending 2 ∷ []) 1 kept → ⊥ }
    ensures not_more { AreWithdrawn both [] 1 kept → ⊥ }
    ensures nothing_by_a_fault { AreWithdrawn both (pending 1 ∷ []) 1 failed → ⊥ }
    ensures the_last_of_a_store { Withdraws both (pending 1 ∷ []) None 1 kept (Unit {0}) (Unit {0})
        (Unit {0}) (λ P. P (pending 1 ∷ [])) }
    ensures nothing_of_a_store_that_fails { Withdraws both both None 1 failed (Unit {0}) (Unit {0})
        (Unit {0}) (λ P. P both) }
    ensures nothing_of_a_store { Withdraws both both None 1 kept ⊥ ⊥ (Unit {0}) (λ P. P both) → ⊥ }
    ensures more_by_a_stop { Withdraws both (pending 1 ∷ []) None 1 kept (Unit {0}) (Unit {0}) ⊥
        (λ P. P []) → ⊥ }
    ensures more_by_a_later_stop { Withdraws both (pending 1 ∷ []) None 1 kept ⊥ ⊥ (Unit {0})
        (λ P. P []) → ⊥ }
{}
