//! What each node of a group has delivered, and when nodes agree on it.
ghost use Rattle.std.specs.Prelude.{[], ◌∷◌, ◌≡◌, ◌≤◌, ◌^◌, map, ℕ};
ghost use Rattle.urb_names.specs.Names.{name};
ghost use Rattle.urb_names.specs.Nodes.{numbers_from};
ghost use Rattle.urb_group.specs.DeliveredMessages.{Agree, Follows, deliveries, delivered_at};
ghost use Rattle.urb_group.specs.DeliveredMessages.{sent_by};
ghost use Rattle.urb_group.specs.GroupViews.{Shows};
ghost use Rattle.urb_step_examples.specs.internal.GroupExamples.{group_with, new_group, of_no_world};
ghost use Rattle.urb_step_examples.specs.internal.GroupExamples.{two_delivered};
ghost use Rattle.urb_world.specs.Step.{Tick};
ghost use Rattle.urb_world.specs.World.{World, started};
ghost use Rattle.urb_world.specs.internal.Examples.{limits};
ghost use Rattle.urb_world.specs.internal.Scripts.{message};

/// A node delivers each name of its log, with its message.
pub fn what_a_node_delivers()
    ensures two_messages { deliveries two_delivered
        ≡ (name 1 1, message 7 1 "") ∷ (name 1 2, message 7 2 "") ∷ [] }
    ensures two_messages_at_node_1 { delivered_at (group_with 3 two_delivered) 1
        ≡ (name 1 1, message 7 1 "") ∷ (name 1 2, message 7 2 "") ∷ [] }
    ensures two_of_one_sender { sent_by 1 ((name 1 1, message 7 1 "")
        ∷ (name 2 1, message 7 1 "") ∷ (name 1 2, message 7 2 "") ∷ [])
        ≡ (name 1 1, message 7 1 "") ∷ (name 1 2, message 7 2 "") ∷ [] }
{}

/// Nodes agree if each delivers the messages of a sender by number, and all the same ones. None
/// delivers as many as 2^32.
pub fn when_nodes_agree()
    ensures on_nothing { Agree (λ p. []) }
    ensures not_without_the_first { Agree (λ p. (name 1 2, message 7 2 "") ∷ []) → ⊥ }
    ensures not_on_different_messages { Agree (λ p. (name 1 1, message p 1 "") ∷ []) → ⊥ }
    ensures not_on_too_many { (count : ℕ) → 2 ^ 32 ≤ count
        → Agree (λ p. map (λ number. (name 1 number, message 7 number ""))
        (numbers_from 1 count)) → ⊥ }
{}

/// A group follows an event if it shows every world after it.
pub fn what_groups_follow()
    ensures a_refused_tick { Follows (new_group 4) (Tick 0) (new_group 4) }
    ensures anything_in_no_world { Follows (of_no_world 4) (Tick 1) (new_group 3) }
    ensures not_with_other_nodes { Shows (new_group 4) (started (limits 4 10))
        → Follows (new_group 4) (Tick 0) (new_group 3) → ⊥ }
{}
