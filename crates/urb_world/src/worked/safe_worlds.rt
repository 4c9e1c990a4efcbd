//! Worlds that are safe, and worlds that aren't, in groups of any size.
//!
//! A promise that no world could keep, or that says nothing of larger groups or of long payloads,
//! is refused here.
ghost use Rattle.std.specs.Prelude.{[], ◌∷◌, ℕ};
ghost use Rattle.urb_names.specs.LabelsAndContents.{Limits};
ghost use Rattle.urb_names.specs.Names.{name};
ghost use Rattle.urb_node.specs.Part.{Ready};
ghost use Rattle.urb_stable.specs.declared.record.Record.TheVariants.{Pend, PendCert};
ghost use Rattle.urb_world.specs.PromisedWorlds.{IsPromised};
ghost use Rattle.urb_world.specs.SafetyProperties.{IsHeldByMajority, IsInOrder, OneMessage, Safe};
ghost use Rattle.urb_world.specs.World.{image_of, opened, started};
ghost use Rattle.urb_world.specs.internal.Examples.{certified, filled, held_by_three, limits};
ghost use Rattle.urb_world.specs.internal.Examples.{node_in, pending, world_of};
ghost use Rattle.urb_world.specs.internal.Scripts.{message};

/// A new group of any size is safe, has one message per name, and keeps all that is promised.
pub fn new_worlds()
    ensures safe { (size : Limits) → Safe (started size) }
    ensures one_message { (size : Limits) → OneMessage (started size) }
    ensures promised { (size : Limits) → IsPromised (started size) }
    ensures the_same_message_at_all { OneMessage (world_of (node_in Ready (pending 1 1 ∷ []))) }
{}

/// More than half of the nodes hold the message that node 1 has delivered.
pub fn held_by_more_than_half()
    ensures one_of_one { IsHeldByMajority
        (opened (limits 1 10) (image_of ((certified 1 1 ∷ []) ∷ []))) 1 (name 1 1) }
    ensures two_of_three { IsHeldByMajority
        (opened (limits 3 10) (image_of ((certified 1 1 ∷ []) ∷ (pending 1 1 ∷ []) ∷ [] ∷ []))) 1
        (name 1 1) }
    ensures three_of_four { IsHeldByMajority
        (opened (limits 4 10) (image_of (held_by_three ([] ∷ [])))) 1 (name 1 1) }
    ensures four_of_six { IsHeldByMajority
        (opened (limits 6 10) (image_of (held_by_three ((pending 1 1 ∷ []) ∷ [] ∷ [] ∷ [])))) 1
        (name 1 1) }
    ensures four_of_seven { IsHeldByMajority
        (opened (limits 7 10) (image_of (held_by_three ((pending 1 1 ∷ []) ∷ [] ∷ [] ∷ [] ∷ [])))) 1
        (name 1 1) }
{}

/// Too few nodes hold it, or they hold another message under its name.
pub fn not_held_by_more_than_half()
    ensures one_of_three { IsHeldByMajority
        (opened (limits 3 10) (image_of ((certified 1 1 ∷ []) ∷ [] ∷ [] ∷ []))) 1 (name 1 1) → ⊥ }
    ensures two_of_four { IsHeldByMajority (opened (limits 4 10)
        (image_of ((certified 1 1 ∷ []) ∷ (pending 1 1 ∷ []) ∷ [] ∷ [] ∷ []))) 1 (name 1 1) → ⊥ }
    ensures three_of_six { IsHeldByMajority (opened (limits 6 10)
        (image_of (held_by_three ([] ∷ [] ∷ [] ∷ [])))) 1 (name 1 1) → ⊥ }
    ensures three_of_seven { IsHeldByMajority (opened (limits 7 10)
        (image_of (held_by_three ([] ∷ [] ∷ [] ∷ [] ∷ [])))) 1 (name 1 1) → ⊥ }
    ensures another_message { IsHeldByMajority
        (opened (limits 3 10) (image_of ((PendCert (name 1 1) (message 7 1 "a") ∷ [])
        ∷ (pending 1 1 ∷ []) ∷ (pending 1 1 ∷ []) ∷ []))) 1 (name 1 1) → ⊥ }
    ensures no_message { IsHeldByMajority (started (limits 1 10)) 1 (name 1 1) → ⊥ }
{}

/// A log is in order in groups of any size.
pub fn logs_in_order()
    ensures of_one { IsInOrder (opened (limits 1 10) (image_of ((certified 1 1 ∷ []) ∷ []))) 1 1 }
    ensures of_three { IsInOrder (opened (limits 3 10) (image_of (held_by_three []))) 3 1 }
    ensures of_four { IsInOrder (opened (limits 4 10) (image_of (held_by_three ([] ∷ [])))) 3 1 }
    ensures of_six { IsInOrder
        (opened (limits 6 10) (image_of (held_by_three ([] ∷ [] ∷ [] ∷ [])))) 3 1 }
    ensures of_seven { IsInOrder
        (opened (limits 7 10) (image_of (held_by_three ([] ∷ [] ∷ [] ∷ [] ∷ [])))) 3 1 }
{}

/// Node 2 has delivered a message that node 1 has never broadcast, in groups of any size.
pub fn logs_of_others_words()
    ensures of_three { IsInOrder (opened (limits 3 10)
        (image_of ([] ∷ (certified 1 1 ∷ []) ∷ [] ∷ []))) 2 1 → ⊥ }
    ensures of_four { IsInOrder (opened (limits 4 10)
        (image_of ([] ∷ (certified 1 1 ∷ []) ∷ [] ∷ [] ∷ []))) 2 1 → ⊥ }
    ensures of_six { IsInOrder (opened (limits 6 10)
        (image_of ([] ∷ (certified 1 1 ∷ []) ∷ [] ∷ [] ∷ [] ∷ [] ∷ []))) 2 1 → ⊥ }
    ensures of_seven { IsInOrder (opened (limits 7 10)
        (image_of ([] ∷ (certified 1 1 ∷ []) ∷ [] ∷ [] ∷ [] ∷ [] ∷ [] ∷ []))) 2 1 → ⊥ }
{}

/// Nodes hold two messages under one name, in groups of any size, and with long payloads.
pub fn two_messages()
    ensures of_three { OneMessage (opened (limits 3 10)
        (image_of ((pending 1 1 ∷ []) ∷ [] ∷ (Pend (name 1 1) (message 7 2 "") ∷ []) ∷ []))) → ⊥ }
    ensures of_four { OneMessage (opened (limits 4 10)
        (image_of ((pending 1 1 ∷ []) ∷ [] ∷ [] ∷ (Pend (name 1 1) (message 7 2 "") ∷ []) ∷ [])))
        → ⊥ }
    ensures of_six { OneMessage (opened (limits 6 10)
        (image_of ((pending 1 1 ∷ []) ∷ [] ∷ [] ∷ [] ∷ [] ∷ (Pend (name 1 1) (message 7 2 "") ∷ [])
        ∷ []))) → ⊥ }
    ensures of_seven { OneMessage (opened (limits 7 10)
        (image_of ((pending 1 1 ∷ []) ∷ [] ∷ [] ∷ [] ∷ [] ∷ [] ∷ (Pend (name 1 1) (message 7 2 "")
        ∷ []) ∷ []))) → ⊥ }
    ensures of_long_payloads { OneMessage (opened (limits 2 10)
        (image_of ((Pend (name 1 1) (filled 7 1 1001) ∷ [])
        ∷ (Pend (name 1 1) (filled 7 2 1001) ∷ []) ∷ []))) → ⊥ }
{}

/// What isn't safe isn't promised, in groups of any size.
pub fn broken_promises()
    ensures of_three { IsPromised
        (opened (limits 3 10) (image_of ((certified 1 1 ∷ []) ∷ [] ∷ [] ∷ []))) → ⊥ }
    ensures of_four { IsPromised
        (opened (limits 4 10) (image_of ((certified 1 1 ∷ []) ∷ [] ∷ [] ∷ [] ∷ []))) → ⊥ }
    ensures of_seven { IsPromised (opened (limits 7 10)
        (image_of ((certified 1 1 ∷ []) ∷ [] ∷ [] ∷ [] ∷ [] ∷ [] ∷ [] ∷ []))) → ⊥ }
    ensures of_two_messages { IsPromised (opened (limits 2 10)
        (image_of ((pending 1 1 ∷ []) ∷ (Pend (name 1 1) (message 7 2 "") ∷ []) ∷ []))) → ⊥ }
{}
