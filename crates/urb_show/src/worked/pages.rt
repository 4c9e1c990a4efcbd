//! Worked examples of pages and lists: what a page shows, which lists begin others, what was
//! delivered, and what a place of a history tells.
ghost use Rattle.std.specs.Prelude.{[], ◌∷◌, ◌≡◌, None, Ok, ℕ};
ghost use Rattle.std.specs.declared.alloc.Global.{Global};
ghost use Rattle.urb_names.specs.declared.refusal.Refusal.TheVariants as refusal;
ghost use Rattle.urb_node.specs.Replies.{Refused, Sent};
ghost use Rattle.urb_world.specs.Step.{Crash, Tick};
ghost use Rattle.urb_world.specs.World.{started};
ghost use Rattle.urb_world.specs.internal.Examples.{limits};
ghost use Rattle.urb_show.specs.DeliveredLists.{AreDeliveredBy, HaveDelivered};
ghost use Rattle.urb_show.specs.Lists.{Begins, list_at};
ghost use Rattle.urb_show.specs.Pages.{IsPageOf, NeverContradict};
ghost use Rattle.urb_show.specs.Pasts.{IsLedTo, IsReachedBy, IsRecorded, IsToldAt};
ghost use Rattle.urb_show.specs.Statuses.{TellsStatus};
ghost use Rattle.urb_show.specs.declared.entry.Page.{Page};
ghost use Rattle.urb_show.specs.internal.Examples.{told};
ghost use Rattle.urb_show.specs.internal.ReaderExamples.{house_after, new_four, shows_none};

/// A page has the entries from a place on, at most as many as were asked for, and the list's length.
pub fn pages_of_three_entries()
    ensures the_second { (page : Page Global) →
        IsPageOf (told 1 1 "a" ∷ told 1 2 "b" ∷ told 1 3 "c" ∷ []) 2 1 page →
        page.entries.items ≡ told 1 2 "b" ∷ [] }
    ensures of_three { (page : Page Global) →
        IsPageOf (told 1 1 "a" ∷ told 1 2 "b" ∷ told 1 3 "c" ∷ []) 2 1 page → page.total ≡ 3 }
{}

/// Two pages contradict each other if they show two messages under one name, and only then.
pub fn pages_of_two_readers()
    ensures two_messages { (a b : Page Global) → a.entries.items ≡ told 1 1 "a" ∷ [] →
        b.entries.items ≡ told 1 1 "b" ∷ [] → NeverContradict a b → ⊥ }
    ensures the_same_message { (a b : Page Global) → a.entries.items ≡ told 1 1 "a" ∷ [] →
        b.entries.items ≡ told 1 1 "a" ∷ [] → NeverContradict a b }
    ensures two_names { (a b : Page Global) → a.entries.items ≡ told 1 1 "a" ∷ [] →
        b.entries.items ≡ told 1 2 "b" ∷ [] → NeverContradict a b }
{}

/// Lists are compared as prefixes node by node. The empty value, with no lists, begins all others.
pub fn lists_of_two_nodes()
    ensures no_lists { Begins [] ([] ∷ []) }
    ensures the_first_is_longer { Begins ((told 1 1 "a" ∷ []) ∷ [] ∷ []) ([] ∷ [] ∷ []) → ⊥ }
    ensures the_second_is_longer { Begins ([] ∷ (told 1 1 "a" ∷ []) ∷ []) ([] ∷ [] ∷ []) → ⊥ }
    ensures a_list_more { Begins ([] ∷ [] ∷ []) ([] ∷ []) → ⊥ }
    ensures all_of_a_node { list_at ((told 1 1 "a" ∷ told 1 2 "b" ∷ []) ∷ []) 0
        ≡ told 1 1 "a" ∷ told 1 2 "b" ∷ [] }
{}

/// A new group of four has delivered nothing. A group that shows no world has delivered anything.
pub fn what_four_nodes_delivered()
    ensures nothing { HaveDelivered (started (limits 4 10)) ([] ∷ []) }
    ensures no_entry { HaveDelivered (started (limits 4 10)) ((told 1 1 "a" ∷ []) ∷ []) → ⊥ }
    ensures no_entry_by_a_new_group { AreDeliveredBy new_four [] ((told 1 1 "a" ∷ []) ∷ []) → ⊥ }
    ensures anything_by_none { AreDeliveredBy shows_none [] ((told 1 1 "a" ∷ []) ∷ []) }
{}

/// Events lead from each world that a group shows, and from no other one.
pub fn where_events_lead()
    ensures from_no_world { IsLedTo shows_none [] new_four }
    ensures to_no_world { IsLedTo new_four [] shows_none → ⊥ }
    ensures to_a_reached_world { IsReachedBy new_four [] }
{}

/// A place of a history tells its event, and the reply that the event gets there.
pub fn what_a_place_tells()
    ensures from_no_world { IsToldAt shows_none (Tick 1 ∷ []) 0 (Tick 1) (Refused refusal.Down) }
    ensures another_event { IsToldAt shows_none (Tick 1 ∷ []) 0 (Crash 1) (Refused refusal.Down)
        → ⊥ }
    ensures another_reply { IsToldAt new_four (Tick 1 ∷ []) 0 (Tick 1) (Refused refusal.Down) → ⊥ }
    ensures what_is_recorded { IsRecorded {T = ℕ} {E = ℕ} shows_none (Tick 1) (λ n. Sent []) (Ok 0)
        (house_after []) (house_after (Tick 1 ∷ [])) }
    ensures what_is_not_recorded { IsRecorded {T = ℕ} {E = ℕ} shows_none (Tick 1) (λ n. Sent []) (Ok 0)
        (house_after []) (house_after []) → ⊥ }
{}

/// A status is of each world that a group shows, and of no other one.
pub fn statuses_of_four_nodes()
    ensures of_no_world { TellsStatus shows_none 1 None }
    ensures no_status_of_a_node { TellsStatus new_four 1 None → ⊥ }
{}
