//! Worked examples of readers: what a read and a token may change, and what a refused read leaves.
//!
//! Each of the rows that end in ⊥ breaks one rule alone.
ghost use Rattle.std.specs.Prelude.{[], ◌∷◌};
ghost use Rattle.urb_world.specs.Step.{Tick};
ghost use Rattle.urb_names.specs.declared.refusal.NoMemory.{NoMemory as Cause};
ghost use Rattle.urb_show.specs.ReadFaults.{Leaves};
ghost use Rattle.urb_show.specs.Readers.{AreOfOneHistory, Learns, LearnsPast, Takes};
ghost use Rattle.urb_show.specs.declared.reader.ReadFault.TheVariants.{Gone, NoMemory};
ghost use Rattle.urb_show.specs.internal.Examples.{told};
ghost use Rattle.urb_show.specs.internal.ReaderExamples.{knowing, new_four, shows_none, token_of};

/// A read takes lists that agree and were delivered, and that begin with all that was seen and
/// learnt.
pub fn what_a_read_takes()
    ensures nothing_new { Takes shows_none (knowing [] [] []) (knowing [] [] []) }
    ensures lists_that_disagree { Takes shows_none (knowing [] [] [])
        (knowing ((told 1 2 "a" ∷ []) ∷ []) [] []) → ⊥ }
    ensures less_than_it_saw { Takes shows_none (knowing ((told 1 1 "a" ∷ []) ∷ []) [] [])
        (knowing ([] ∷ []) [] []) → ⊥ }
    ensures less_than_it_learnt { Takes shows_none (knowing [] ((told 1 1 "a" ∷ []) ∷ []) [])
        (knowing ([] ∷ []) ((told 1 1 "a" ∷ []) ∷ []) []) → ⊥ }
    ensures it_forgets_what_it_learnt { Takes shows_none (knowing [] ([] ∷ []) [])
        (knowing ([] ∷ []) [] []) → ⊥ }
    ensures it_forgets_an_event { Takes shows_none (knowing [] [] (Tick 1 ∷ []))
        (knowing [] [] []) → ⊥ }
    ensures what_no_node_delivered { Takes new_four (knowing [] [] [])
        (knowing ((told 1 1 "a" ∷ []) ∷ []) [] []) → ⊥ }
{}

/// A reader that learns a token knows the longer of two: what it knew, and what the token names.
pub fn what_a_token_tells()
    ensures what_nobody_told { Learns (token_of [] []) (knowing [] [] [])
        (knowing [] ([] ∷ []) []) → ⊥ }
    ensures less_than_it_knew { Learns (token_of ([] ∷ []) [])
        (knowing [] ((told 1 1 "a" ∷ []) ∷ []) []) (knowing [] ([] ∷ []) []) → ⊥ }
    ensures less_than_the_token { Learns (token_of ((told 1 1 "a" ∷ []) ∷ []) [])
        (knowing [] ([] ∷ []) []) (knowing [] ([] ∷ []) []) → ⊥ }
    ensures other_lists_are_seen { Learns (token_of [] []) (knowing [] [] [])
        (knowing ([] ∷ []) [] []) → ⊥ }
    ensures an_earlier_moment { Learns (token_of [] []) (knowing [] [] (Tick 1 ∷ []))
        (knowing [] [] []) → ⊥ }
    ensures a_moment_of_nobody { LearnsPast [] [] (Tick 1 ∷ []) → ⊥ }
    ensures less_than_its_moment { LearnsPast [] (Tick 1 ∷ []) [] → ⊥ }
    ensures less_than_the_tokens_moment { LearnsPast (Tick 1 ∷ []) [] [] → ⊥ }
{}

/// Lists of one history agree, and those of one value begin with those of the other.
pub fn what_one_history_has()
    ensures first_lists_that_disagree { AreOfOneHistory ((told 1 2 "a" ∷ []) ∷ []) ([] ∷ []) → ⊥ }
    ensures second_lists_that_disagree { AreOfOneHistory ([] ∷ []) ((told 1 2 "a" ∷ []) ∷ [])
        → ⊥ }
    ensures each_is_ahead_at_a_node { AreOfOneHistory ((told 1 1 "a" ∷ []) ∷ [] ∷ [])
        ([] ∷ (told 1 1 "a" ∷ []) ∷ []) → ⊥ }
{}

/// Without memory the read may have taken lists or not. If the house is gone, nothing changes.
pub fn what_a_fault_leaves()
    ensures all_as_it_was { (cause : Cause) → Leaves shows_none (NoMemory cause)
        (knowing [] [] (Tick 1 ∷ [])) (knowing [] [] (Tick 1 ∷ [])) }
    ensures what_a_read_takes { (cause : Cause) → Leaves shows_none (NoMemory cause)
        (knowing [] [] []) (knowing [] [] (Tick 1 ∷ [])) }
    ensures less_than_there_was { (cause : Cause) → Leaves shows_none (NoMemory cause)
        (knowing [] [] (Tick 1 ∷ [])) (knowing [] [] []) → ⊥ }
    ensures all_of_a_closed_house { Leaves shows_none Gone (knowing [] [] []) (knowing [] [] []) }
    ensures a_closed_house_is_not_read { Leaves shows_none Gone (knowing [] [] [])
        (knowing [] [] (Tick 1 ∷ [])) → ⊥ }
{}
