//! Worlds that are not safe.
ghost use Rattle.std.specs.Prelude.{[], ◌∷◌};
ghost use Rattle.urb_names.specs.Names.{name};
ghost use Rattle.urb_stable.specs.declared.record.Record.TheVariants.{Pend};
ghost use Rattle.urb_world.specs.World.{opened, image_of};
ghost use Rattle.urb_world.specs.SafetyProperties.{Safe, OneMessage};
ghost use Rattle.urb_world.specs.internal.Scripts.{message};
ghost use Rattle.urb_world.specs.internal.Examples.{pending, certified, limits};

/// What a safe group doesn't deliver, and what its nodes don't hold.
pub fn dangers()
    ensures delivered_by_too_few { Safe
        (opened (limits 3 10) (image_of ((certified 1 1 ∷ []) ∷ [] ∷ [] ∷ []))) → ⊥ }
    ensures delivered_by_half { Safe
        (opened (limits 4 10) (image_of ((certified 1 1 ∷ []) ∷ (pending 1 1 ∷ []) ∷ [] ∷ [] ∷ [])))
        → ⊥ }
    ensures delivered_by_three_of_six { Safe
        (opened (limits 6 10) (image_of ((certified 1 1 ∷ []) ∷ (pending 1 1 ∷ [])
        ∷ (pending 1 1 ∷ []) ∷ [] ∷ [] ∷ [] ∷ []))) → ⊥ }
    ensures delivered_by_three_of_seven { Safe
        (opened (limits 7 10) (image_of ((certified 1 1 ∷ []) ∷ (pending 1 1 ∷ [])
        ∷ (pending 1 1 ∷ []) ∷ [] ∷ [] ∷ [] ∷ [] ∷ []))) → ⊥ }
    ensures delivered_and_never_broadcast { Safe
        (opened (limits 3 10) (image_of ([] ∷ (certified 1 1 ∷ []) ∷ (certified 1 1 ∷ []) ∷ [])))
        → ⊥ }
    ensures two_messages_under_one_name { OneMessage
        (opened (limits 2 10) (image_of
        ((pending 1 1 ∷ []) ∷ (Pend (name 1 1) (message 7 1 "a") ∷ []) ∷ []))) → ⊥ }
{}
