//! Worked examples of stores and loans: which store matches its node, and since when a node rests.
//!
//! Each of the rows that end in ⊥ breaks one rule alone.
ghost use Rattle.std.specs.Prelude.{[], ◌∷◌, ◌≡◌, None, Some, false, suc, true};
ghost use Rattle.urb_world.specs.Step.{Crash, Tick};
ghost use Rattle.urb_world.specs.internal.Examples.{filled, pending};
ghost use Rattle.urb_names.specs.Names.{name};
ghost use Rattle.urb_names.specs.declared.limits.TheConstants.{MAX_PAYLOAD};
ghost use Rattle.urb_stable.specs.MemoryStores.{empty_memory};
ghost use Rattle.urb_stable.specs.declared.record.Record.TheVariants.{Pend};
ghost use Rattle.urb_turn.specs.KilledStores.{AreCutAt, IsCutAt};
ghost use Rattle.urb_turn.specs.LastLoans.{AllBegin, AllRestSince};
ghost use Rattle.urb_turn.specs.Loans.{AreLoans, AreLoansOf, IsLoan};
ghost use Rattle.urb_turn.specs.NodeStores.{AreElsewhere, AreStoresAfter, HasRested, IsStoreAfter};
ghost use Rattle.urb_turn.specs.NodeStores.{HasTail, HaveTails, HoldNoneAhead, MayHaveTail};
ghost use Rattle.urb_turn.specs.NodeStores.{WouldHaveTail, is_own};
ghost use Rattle.urb_turn.specs.internal.TurnExamples.{ahead_of, doubtful, four, holding};
ghost use Rattle.urb_turn.specs.internal.TurnExamples.{house_of_four, in_two_minds, one_has_stored};
ghost use Rattle.urb_turn.specs.internal.TurnExamples.{lying, memory};

/// An event is a node's own if it is at this node and no crash. A node rests while it has no event
/// of its own.
pub fn nodes_that_rest()
    ensures a_tick { is_own 4 (Tick 4) ≡ true }
    ensures a_tick_elsewhere { is_own 4 (Tick 3) ≡ false }
    ensures a_crash { is_own 4 (Crash 4) ≡ false }
    ensures a_tick_of_the_first { is_own 1 (Tick 1) ≡ true }
    ensures others_events { AreElsewhere 1 (Tick 2 ∷ Crash 1 ∷ Tick 7 ∷ []) }
    ensures no_tick { AreElsewhere 1 (Tick 1 ∷ []) → ⊥ }
    ensures no_tick_behind_a_crash { AreElsewhere 1 (Crash 1 ∷ Tick 1 ∷ []) → ⊥ }
    ensures while_others_work { HasRested 1 [] (Tick 2 ∷ Crash 1 ∷ []) }
    ensures no_lost_event { HasRested 1 (Tick 2 ∷ []) [] → ⊥ }
    ensures no_tick_of_it { HasRested 1 [] (Tick 1 ∷ []) → ⊥ }
{}

/// A new node's store is empty, is not in doubt, and is honest unless it is shut.
pub fn stores_of_new_nodes()
    ensures an_empty_one { IsStoreAfter memory four [] 1 empty_memory }
    ensures none_in_doubt { IsStoreAfter memory four [] 1 doubtful → ⊥ }
    ensures none_that_lies { IsStoreAfter lying four [] 1 empty_memory → ⊥ }
    ensures empty_ones { AreStoresAfter memory four [] 1 (empty_memory ∷ empty_memory ∷ []) }
    ensures not_one_with_a_pair { AreStoresAfter memory four [] 1 (holding ∷ []) → ⊥ }
    ensures one_with_a_record_ahead { IsStoreAfter (ahead_of [] (pending 1 1 ∷ [])) four [] 1
        empty_memory }
    ensures not_one_with_a_gap_ahead { IsStoreAfter (ahead_of [] (pending 1 2 ∷ [])) four [] 1
        empty_memory → ⊥ }
    ensures not_the_second_with_a_pair { AreStoresAfter memory four [] 1 (empty_memory ∷ holding ∷ []) → ⊥ }
{}

/// The records that a store holds ahead may follow those of its node.
pub fn tails_of_new_nodes()
    ensures two_records { HasTail (ahead_of [] (pending 1 1 ∷ pending 1 2 ∷ [])) four 1
        empty_memory }
    ensures the_second_of_two { HasTail (ahead_of (pending 1 1 ∷ []) (pending 1 2 ∷ [])) four 1
        holding }
    ensures a_gap { HasTail (ahead_of [] (pending 1 1 ∷ pending 1 3 ∷ [])) four 1 empty_memory
        → ⊥ }
    ensures behind_a_lost_record { HasTail (ahead_of [] (pending 1 2 ∷ [])) one_has_stored 1 holding
        → ⊥ }
    ensures behind_a_record_that_is_not_certain { HasTail
        (ahead_of (pending 1 1 ∷ []) (pending 1 2 ∷ [])) four 1 empty_memory → ⊥ }
    ensures behind_a_doubtful_record { HasTail (ahead_of [] (pending 1 1 ∷ [])) four 1 in_two_minds
        → ⊥ }
    ensures none { MayHaveTail memory four 1 holding }
    ensures not_a_gap { MayHaveTail (ahead_of [] (pending 1 2 ∷ [])) four 1 empty_memory → ⊥ }
    ensures a_gap_at_a_store_that_lies { WouldHaveTail
        (record (ahead_of [] (pending 1 2 ∷ [])) { is_clean = λ s. ⊥ }) four 1 empty_memory }
    ensures no_gap_at_a_clean_store { WouldHaveTail (ahead_of [] (pending 1 2 ∷ [])) four 1
        empty_memory → ⊥ }
    ensures a_long_payload { HasTail
        (ahead_of [] (Pend (name 1 1) (filled 7 1 (suc MAX_PAYLOAD)) ∷ [])) four 1 empty_memory
        → ⊥ }
{}

/// Each store of a group may hold records ahead that may follow those of its own node.
pub fn tails_of_all_new_nodes()
    ensures of_no_stores { HaveTails (ahead_of [] (pending 1 2 ∷ [])) four [] }
    ensures of_the_first { HaveTails (ahead_of [] (pending 1 1 ∷ [])) four (empty_memory ∷ []) }
    ensures not_a_gap { HaveTails (ahead_of [] (pending 1 2 ∷ [])) four (empty_memory ∷ []) → ⊥ }
    ensures not_the_same_of_the_second { HaveTails (ahead_of [] (pending 1 1 ∷ [])) four
        (empty_memory ∷ empty_memory ∷ []) → ⊥ }
    ensures none_is_ahead { HoldNoneAhead memory (holding ∷ holding ∷ []) }
    ensures none_is_ahead_of_no_stores { HoldNoneAhead (ahead_of [] (pending 1 1 ∷ [])) [] }
    ensures one_is_ahead { HoldNoneAhead (ahead_of [] (pending 1 1 ∷ [])) (empty_memory ∷ [])
        → ⊥ }
{}

/// A stop leaves in a store what it may leave of the node since the node rests.
pub fn stores_of_killed_groups()
    ensures an_empty_one { IsCutAt memory four [] 1 empty_memory }
    ensures not_one_with_a_pair { IsCutAt memory four [] 1 holding → ⊥ }
    ensures no_stores { AreCutAt memory four [] [] }
    ensures not_the_first_with_a_pair { AreCutAt memory four [] (holding ∷ []) → ⊥ }
{}

/// Nodes rest since the ends of their workers' last loans, if these are known.
pub fn nodes_since_their_last_loans()
    ensures one_that_rests { AllRestSince 1 (record { events = 0; last = Some [] } ∷ [])
        (Tick 2 ∷ []) }
    ensures an_unknown_end { AllRestSince 1 (record { events = 0; last = None } ∷ []) [] → ⊥ }
    ensures a_second_unknown_end { AllRestSince 1 (record { events = 0; last = Some [] }
        ∷ record { events = 0; last = None } ∷ []) [] → ⊥ }
    ensures no_loan_yet { AllBegin (record { events = 0; last = Some [] } ∷ []) [] }
    ensures a_loan_before { AllBegin (record { events = 0; last = Some (Tick 1 ∷ []) } ∷ []) [] → ⊥ }
    ensures a_second_loan_before { AllBegin (record { events = 0; last = Some [] }
        ∷ record { events = 0; last = Some (Tick 1 ∷ []) } ∷ []) [] → ⊥ }
{}

/// A loan begins and ends with the past of its House. A turn's last loan comes after its first.
pub fn loans_of_a_turn()
    ensures one { IsLoan (house_of_four []) (house_of_four (Tick 1 ∷ []))
        (record { lent = []; back = Tick 1 ∷ [] }) }
    ensures that_begins_later { IsLoan (house_of_four []) (house_of_four (Tick 1 ∷ []))
        (record { lent = Tick 1 ∷ []; back = Tick 1 ∷ [] }) → ⊥ }
    ensures that_ends_earlier { IsLoan (house_of_four []) (house_of_four (Tick 1 ∷ []))
        (record { lent = []; back = [] }) → ⊥ }
    ensures without_a_first_one { AreLoans None (house_of_four []) (house_of_four [])
        (record { first = record { lent = []; back = [] }; last = record { lent = []; back = [] } })
        → ⊥ }
    ensures with_another_last_one { AreLoans (Some (record { lent = []; back = [] }))
        (house_of_four []) (house_of_four (Tick 1 ∷ []))
        (record { first = record { lent = []; back = [] }; last = record { lent = []; back = [] } })
        → ⊥ }
    ensures with_a_last_one_before { AreLoans (Some (record { lent = []; back = Tick 1 ∷ [] }))
        (house_of_four []) (house_of_four [])
        (record {
          first = record { lent = []; back = Tick 1 ∷ [] };
          last = record { lent = []; back = [] };
        }) → ⊥ }
    ensures of_another_first_loan { AreLoansOf (house_of_four []) (house_of_four (Tick 1 ∷ []))
        (house_of_four (Tick 1 ∷ [])) (house_of_four (Tick 1 ∷ []))
        (record {
          first = record { lent = []; back = [] };
          last = record { lent = Tick 1 ∷ []; back = Tick 1 ∷ [] };
        }) → ⊥ }
    ensures of_another_last_loan { AreLoansOf (house_of_four []) (house_of_four [])
        (house_of_four []) (house_of_four (Tick 1 ∷ []))
        (record {
          first = record { lent = []; back = [] };
          last = record { lent = []; back = [] };
        }) → ⊥ }
    ensures of_a_past_that_shrank { AreLoansOf (house_of_four []) (house_of_four (Tick 1 ∷ []))
        (house_of_four []) (house_of_four [])
        (record {
          first = record { lent = []; back = Tick 1 ∷ [] };
          last = record { lent = []; back = [] };
        }) → ⊥ }
{}
