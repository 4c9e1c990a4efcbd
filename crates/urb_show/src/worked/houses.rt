//! Worked examples of houses: what a settling publishes, and what names an opened house.
//!
//! Each of the rows that end in ⊥ breaks one rule alone.
ghost use Rattle.std.specs.Prelude.{[], ◌∷◌, ◌≡◌};
ghost use Rattle.logbook.specs.Pages.{Book};
ghost use Rattle.urb_world.specs.Step.{Tick};
ghost use Rattle.urb_world.specs.internal.Examples.{limits};
ghost use Rattle.urb_show.specs.Houses.{IsNamed, Settled};
ghost use Rattle.urb_show.specs.internal.Examples.{told};
ghost use Rattle.urb_show.specs.internal.HouseExamples.{both_lists, first_of_one, settled, unsettled};
ghost use Rattle.urb_show.specs.internal.ReaderExamples.{token_of};

/// A settling of node 1 publishes its own entries, and what was prepared of node 2. The token names
/// just these lists and the present moment.
pub fn what_a_settling_publishes()
    ensures each_list { Settled 0 unsettled settled (token_of both_lists (Tick 1 ∷ [])) }
    ensures of_another_group { Settled 0 unsettled
        (record settled { group = record first_of_one { size = limits 4 10 } })
        (token_of both_lists (Tick 1 ∷ [])) → ⊥ }
    ensures with_an_event_more { Settled 0 unsettled (record settled { events = 4 })
        (token_of both_lists (Tick 1 ∷ [])) → ⊥ }
    ensures with_another_past { Settled 0 unsettled (record settled { past = [] })
        (token_of both_lists []) → ⊥ }
    ensures without_its_own_entry { Settled 0 unsettled (record settled
        { published = [] ∷ (told 2 1 "b" ∷ []) ∷ []; prepared = [] ∷ (told 2 1 "b" ∷ []) ∷ [] })
        (token_of ([] ∷ (told 2 1 "b" ∷ []) ∷ []) (Tick 1 ∷ [])) → ⊥ }
    ensures without_what_was_prepared { Settled 0 unsettled (record settled
        { published = (told 1 1 "a" ∷ []) ∷ [] ∷ []; prepared = (told 1 1 "a" ∷ []) ∷ [] ∷ [] })
        (token_of ((told 1 1 "a" ∷ []) ∷ [] ∷ []) (Tick 1 ∷ [])) → ⊥ }
    ensures of_another_node { Settled 1 unsettled settled (token_of both_lists (Tick 1 ∷ [])) → ⊥ }
    ensures with_other_lists_prepared { Settled 0 unsettled (record settled { prepared = [] })
        (token_of both_lists (Tick 1 ∷ [])) → ⊥ }
    ensures with_a_token_of_less { Settled 0 unsettled settled (token_of [] (Tick 1 ∷ [])) → ⊥ }
    ensures with_a_token_of_an_earlier_moment { Settled 0 unsettled settled
        (token_of both_lists []) → ⊥ }
{}

/// What was opened is named by its two books, its lists and its group.
pub fn what_names_a_house()
    ensures as_opened { (additions events : Book) →
        IsNamed (record { group = first_of_one; book = additions; history = events })
        additions events ((told 1 1 "a" ∷ []) ∷ []) first_of_one }
    ensures another_book { (additions events : Book) → (additions ≡ events → ⊥) →
        IsNamed (record { group = first_of_one; book = additions; history = events })
        events events ((told 1 1 "a" ∷ []) ∷ []) first_of_one → ⊥ }
    ensures another_history { (additions events : Book) → (events ≡ additions → ⊥) →
        IsNamed (record { group = first_of_one; book = additions; history = events })
        additions additions ((told 1 1 "a" ∷ []) ∷ []) first_of_one → ⊥ }
    ensures other_lists { (additions events : Book) →
        IsNamed (record { group = first_of_one; book = additions; history = events })
        additions events ([] ∷ []) first_of_one → ⊥ }
    ensures another_group { (additions events : Book) →
        IsNamed (record { group = first_of_one; book = additions; history = events })
        additions events ((told 1 1 "a" ∷ []) ∷ [])
        (record first_of_one { size = limits 4 10 }) → ⊥ }
{}
