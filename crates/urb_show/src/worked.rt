//! Worked examples of the definitions: small lists, pages and counts, each with its result.
ghost use Rattle.std.specs.Prelude.{◌≡◌, ◌∷◌, ◌-◌, ◌^◌, []};
ghost use Rattle.urb_world.specs.internal.Scripts.{message};
ghost use Rattle.urb_names.specs.Names.{name};
ghost use Rattle.urb_show.specs.internal.Examples.{entry, group_of, told};
ghost use Rattle.urb_world.specs.World.{started};
ghost use Rattle.urb_names.specs.LabelsAndContents.{Limits};
ghost use Rattle.urb_show.specs.DeliveredLists.{HaveDelivered};
ghost use Rattle.urb_show.specs.Houses.{next_count};
ghost use Rattle.urb_show.specs.Lists.{Agree, Begins, list_at, lists_in};

pub mod houses;
pub mod pages;
pub mod readers;
pub mod service;
pub mod service_acts;
pub mod shown_events;

/// A node's list has the names of its log, in the log's order, each with its message. If there is
/// no such node, the list is empty.
pub fn lists_of_a_group()
    ensures in_order_of_the_log { lists_in (group_of
        ((name 1 1, message 7 1 "a")
        ∷ (name 1 2, message 7 2 "b")
        ∷ (name 2 1, message 8 1 "c")
        ∷ []) (name 2 1 ∷ name 1 1 ∷ []))
        ≡ (entry 2 1 (message 8 1 "c") ∷ entry 1 1 (message 7 1 "a") ∷ []) ∷ [] }
    ensures beyond { list_at ((told 1 1 "a" ∷ []) ∷ []) 1 ≡ [] }
{}

/// Lists are compared as prefixes node by node. The empty value, with no lists, counts as a prefix
/// of all others.
pub fn beginnings()
    ensures each { Begins ((told 1 1 "a" ∷ []) ∷ [] ∷ [])
        ((told 1 1 "a" ∷ told 1 2 "b" ∷ []) ∷ (told 1 1 "a" ∷ []) ∷ []) }
    ensures none { Begins [] ([] ∷ []) }
    ensures one_is_longer { Begins ([] ∷ (told 1 1 "a" ∷ []) ∷ []) ((told 1 1 "a" ∷ []) ∷ [] ∷ [])
        → ⊥ }
    ensures a_list_more { Begins ([] ∷ [] ∷ []) ([] ∷ []) → ⊥ }
    ensures another_message { Begins ((told 1 1 "a" ∷ []) ∷ []) ((told 1 1 "b" ∷ []) ∷ []) → ⊥ }
{}

/// Lists don't agree if two have different messages under one name. They don't agree if a number is
/// missing, comes twice or comes too early.
pub fn disagreements()
    ensures two_messages { Agree ((told 1 1 "a" ∷ []) ∷ (told 1 1 "b" ∷ []) ∷ []) → ⊥ }
    ensures a_number_is_missing { Agree ((told 1 2 "a" ∷ []) ∷ []) → ⊥ }
    ensures a_number_twice { Agree ((told 1 1 "a" ∷ told 1 1 "a" ∷ []) ∷ []) → ⊥ }
    ensures too_early { Agree ([] ∷ (told 1 2 "b" ∷ told 1 1 "a" ∷ []) ∷ []) → ⊥ }
{}

/// In a new world no node has delivered anything. So its logs have no list with an entry, and each
/// list without entries is a prefix of them.
pub fn deliveries_of_a_new_world()
    ensures nothing { (size : Limits) → HaveDelivered (started size) ([] ∷ [] ∷ []) }
    ensures something { (size : Limits) →
        HaveDelivered (started size) ([] ∷ (told 1 1 "a" ∷ []) ∷ []) → ⊥ }
{}

/// The count of events goes up by one, and stays at its greatest value.
pub fn counts()
    ensures first { next_count 0 ≡ 1 }
    ensures last { next_count (2 ^ 64 - 2) ≡ 2 ^ 64 - 1 }
    ensures stays { next_count (2 ^ 64 - 1) ≡ 2 ^ 64 - 1 }
{}
