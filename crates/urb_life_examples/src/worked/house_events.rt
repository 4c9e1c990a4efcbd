//! What events do to a House, what is prepared in it, and how it counts.
//!
//! Each of the rows that end in ⊥ breaks one rule alone.
ghost use Rattle.std.specs.Prelude.{[], ◌∷◌, ◌-◌, ◌^◌, ◌≡◌};
ghost use Rattle.logbook.specs.Pages.{Book};
ghost use Rattle.urb_show.specs.Houses.{Grew, IsEvent, IsNamed, next_count};
ghost use Rattle.urb_show.specs.internal.Examples.{told};
ghost use Rattle.urb_show.specs.internal.HouseExamples.{both_lists, first_of_one, unsettled};
ghost use Rattle.urb_world.specs.Step.{Tick};
ghost use Rattle.urb_world.specs.internal.Examples.{limits};

/// Events are counted up to the greatest number of 64 bits.
pub fn counts_of_events()
    ensures one_more { next_count 3 ≡ 4 }
    ensures no_more { next_count (2 ^ 64 - 1) ≡ 2 ^ 64 - 1 }
{}

/// An event of a House is the last one of its past, and is counted.
pub fn what_an_event_changes()
    ensures a_tick { IsEvent (Tick 2) unsettled
        (record unsettled { events = 4; past = Tick 1 ∷ Tick 2 ∷ [] }) }
    ensures not_what_is_published { IsEvent (Tick 2) unsettled (record unsettled
        { published = both_lists; events = 4; past = Tick 1 ∷ Tick 2 ∷ [] }) → ⊥ }
    ensures not_what_is_prepared { IsEvent (Tick 2) unsettled (record unsettled
        { prepared = []; events = 4; past = Tick 1 ∷ Tick 2 ∷ [] }) → ⊥ }
    ensures not_uncounted { IsEvent (Tick 2) unsettled
        (record unsettled { past = Tick 1 ∷ Tick 2 ∷ [] }) → ⊥ }
    ensures not_before_the_past { IsEvent (Tick 2) unsettled
        (record unsettled { events = 4; past = Tick 2 ∷ Tick 1 ∷ [] }) → ⊥ }
{}

/// What is prepared of one node changes nothing else in a House.
pub fn what_is_prepared_of_a_node()
    ensures its_entry { Grew 0 unsettled (record unsettled { prepared = both_lists }) }
    ensures not_in_another_group { Grew 0 unsettled (record unsettled
        { group = record first_of_one { size = limits 4 10 }; prepared = both_lists }) → ⊥ }
    ensures not_with_an_event_more { Grew 0 unsettled
        (record unsettled { events = 4; prepared = both_lists }) → ⊥ }
    ensures not_with_another_past { Grew 0 unsettled
        (record unsettled { past = []; prepared = both_lists }) → ⊥ }
    ensures not_published { Grew 0 unsettled
        (record unsettled { published = both_lists; prepared = both_lists }) → ⊥ }
    ensures not_the_entry_of_another { Grew 1 unsettled (record unsettled
        { prepared = both_lists }) → ⊥ }
{}

/// What was opened of four nodes is named by its two books, its lists and its group.
pub fn what_names_four_nodes()
    ensures as_opened { (additions events : Book) → IsNamed (record
        { group = record first_of_one { size = limits 4 10 }; book = additions; history = events })
        additions events ((told 1 1 "a" ∷ []) ∷ []) (record first_of_one { size = limits 4 10 }) }
    ensures not_with_other_lists { (additions events : Book) → IsNamed (record
        { group = record first_of_one { size = limits 4 10 }; book = additions; history = events })
        additions events ([] ∷ []) (record first_of_one { size = limits 4 10 }) → ⊥ }
{}
