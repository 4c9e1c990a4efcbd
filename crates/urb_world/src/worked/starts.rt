//! Groups that start again with other limits: a greater cap, a smaller one, or more nodes.
ghost use Rattle.std.specs.Prelude.{[], ◌∷◌, None, ◌≡◌};
ghost use Rattle.urb_names.specs.declared.refusal.Rule.TheVariants.{A, D};
ghost use Rattle.urb_world.specs.RecoveredWorlds.{IsNotStranded};
ghost use Rattle.urb_world.specs.StartLimits.{AreOfGroup, AreWithinCap, HaveMajorities};
ghost use Rattle.urb_world.specs.StartLimits.{MayStartWith};
ghost use Rattle.urb_world.specs.World.{image_of, opened};
ghost use Rattle.urb_world.specs.internal.Examples.{certified, held_by_three, limits, pending};
ghost use Rattle.urb_world.specs.internal.Examples.{Judged, misfit, two_of_one};

/// Images that fit under one cap or number of nodes, under others.
pub fn judged_under_other_limits()
    ensures the_cap { Judged 1 2 (two_of_one ∷ []) None }
    ensures a_greater_cap { Judged 1 3 (two_of_one ∷ []) None }
    ensures a_smaller_cap { Judged 1 1 (two_of_one ∷ []) (misfit A 1 1 2) }
    ensures three_of_three { Judged 3 10 (held_by_three []) None }
    ensures three_of_five { Judged 5 10 (held_by_three ([] ∷ [] ∷ [])) None }
    ensures three_of_six { Judged 6 10 (held_by_three ([] ∷ [] ∷ [] ∷ [])) (misfit D 1 1 1) }
    ensures three_of_seven { Judged 7 10 (held_by_three ([] ∷ [] ∷ [] ∷ [] ∷ []))
        (misfit D 1 1 1) }
    ensures one_of_two { Judged 2 10 ((certified 1 1 ∷ []) ∷ [] ∷ []) (misfit D 1 1 1) }
    ensures pending_at_one_of_seven { Judged 7 10
        ((pending 1 1 ∷ []) ∷ [] ∷ [] ∷ [] ∷ [] ∷ [] ∷ [] ∷ []) None }
{}

/// What decides that, of the images alone.
pub fn caps_and_majorities()
    ensures as_many_as_the_cap { AreWithinCap 2 (image_of (two_of_one ∷ [])) }
    ensures more_than_the_cap { AreWithinCap 1 (image_of (two_of_one ∷ [])) → ⊥ }
    ensures only_own_messages_count { AreWithinCap 1
        (image_of ((certified 1 1 ∷ []) ∷ (pending 1 1 ∷ pending 2 1 ∷ []) ∷ [])) }
    ensures more_than_half { HaveMajorities 5 (image_of (held_by_three ([] ∷ [] ∷ []))) }
    ensures half { HaveMajorities 6 (image_of (held_by_three ([] ∷ [] ∷ [] ∷ []))) → ⊥ }
    ensures no_certificate { HaveMajorities 7
        (image_of ((pending 1 1 ∷ []) ∷ [] ∷ [] ∷ [] ∷ [] ∷ [] ∷ [] ∷ [])) }
    ensures no_further_node { AreOfGroup 1 (image_of (two_of_one ∷ [])) }
    ensures a_further_node { AreOfGroup 1 (image_of ([] ∷ (pending 1 1 ∷ []) ∷ [])) → ⊥ }
{}

/// Worlds that may start with other limits, and worlds that may not.
pub fn starts()
    ensures a_greater_cap { MayStartWith (limits 1 3)
        (opened (limits 1 2) (image_of (two_of_one ∷ []))) }
    ensures a_cap_that_is_reached { MayStartWith (limits 1 2)
        (opened (limits 1 3) (image_of (two_of_one ∷ []))) }
    ensures a_cap_that_is_too_small { MayStartWith (limits 1 1)
        (opened (limits 1 3) (image_of (two_of_one ∷ []))) → ⊥ }
    ensures five_nodes { MayStartWith (limits 5 10)
        (opened (limits 3 10) (image_of (held_by_three []))) }
    ensures six_nodes { MayStartWith (limits 6 10)
        (opened (limits 3 10) (image_of (held_by_three []))) → ⊥ }
    ensures fewer_nodes { MayStartWith (limits 2 10)
        (opened (limits 3 10) (image_of (held_by_three []))) → ⊥ }
{}

/// A lone node that was alone isn't stranded, and one that was not alone is.
pub fn lone_nodes()
    ensures alone { IsNotStranded (opened (limits 1 10) (image_of ((certified 1 1 ∷ []) ∷ []))) }
    ensures not_alone { IsNotStranded (opened (limits 1 10) (image_of ((pending 1 1 ∷ []) ∷ [])))
        → ⊥ }
    ensures of_two { IsNotStranded (opened (limits 2 10) (image_of ((pending 1 1 ∷ []) ∷ []))) }
{}
