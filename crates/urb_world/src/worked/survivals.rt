//! How an opened group goes on after a stop, and how it doesn't, in groups of any size.
//!
//! Each row of the second table loses one thing that a stop has to keep.
ghost use Rattle.std.specs.Prelude.{[], ◌∷◌, ◌≡◌, ℕ};
ghost use Rattle.urb_names.specs.Names.{name};
ghost use Rattle.urb_stable.specs.Fitting.{Fits, Kept, Rules};
ghost use Rattle.urb_stable.specs.declared.record.Record.TheVariants.{Pend, PendCert};
ghost use Rattle.urb_world.specs.ProcessStops.{AlwaysLeaves, GoesOnIn, GoesOnUnder, SurvivesStop};
ghost use Rattle.urb_world.specs.RecoveredWorlds.{IsNotStranded};
ghost use Rattle.urb_world.specs.StartLimits.{HaveMajorities, MayStartWith};
ghost use Rattle.urb_world.specs.World.{image_of, opened, started};
ghost use Rattle.urb_world.specs.internal.Examples.{certified, filled, held_by_three, limits};
ghost use Rattle.urb_world.specs.internal.Examples.{pending, two_of_one};
ghost use Rattle.urb_world.specs.internal.Scripts.{message};

/// Nothing is lost of a new group, whatever its size.
pub fn what_goes_on()
    ensures in_one { GoesOnIn (started (limits 1 10)) (image_of []) }
    ensures in_three { GoesOnIn (started (limits 3 10)) (image_of []) }
    ensures in_four { GoesOnIn (started (limits 4 10)) (image_of []) }
    ensures in_six { GoesOnIn (started (limits 6 10)) (image_of []) }
    ensures in_seven { GoesOnIn (started (limits 7 10)) (image_of []) }
    ensures under_more_nodes { GoesOnUnder (limits 7 10) (started (limits 4 10)) (image_of []) }
{}

/// What a stop must not leave: a misfit, less of a log, or less than what was accepted.
pub fn what_does_not_go_on()
    ensures a_misfit { GoesOnUnder (limits 4 10) (started (limits 4 10))
        (image_of ((certified 1 1 ∷ []) ∷ [])) → ⊥ }
    ensures a_misfit_of_seven { GoesOnUnder (limits 7 10) (started (limits 7 10))
        (image_of ((certified 1 1 ∷ []) ∷ [])) → ⊥ }
    ensures no_log_of_four { GoesOnUnder (limits 4 10)
        (opened (limits 4 10) (image_of ((certified 1 1 ∷ []) ∷ []))) (image_of []) → ⊥ }
    ensures another_message { GoesOnIn (opened (limits 7 10) (image_of ((certified 1 1 ∷ []) ∷ [])))
        (image_of ((PendCert (name 1 1) (message 7 1 "a") ∷ []) ∷ [])) → ⊥ }
    ensures another_message_of_another { GoesOnIn
        (opened (limits 2 10) (image_of ([] ∷ (certified 1 1 ∷ []) ∷ [])))
        (image_of ((PendCert (name 1 1) (message 7 1 "a") ∷ [])
        ∷ (PendCert (name 1 1) (message 7 1 "a") ∷ []) ∷ [])) → ⊥ }
    ensures no_accepted_message { GoesOnUnder (limits 4 10)
        (opened (limits 4 10) (image_of ((pending 1 1 ∷ []) ∷ []))) (image_of []) → ⊥ }
    ensures no_accepted_message_of_seven { GoesOnUnder (limits 7 10)
        (opened (limits 7 10) (image_of ((pending 1 1 ∷ []) ∷ []))) (image_of []) → ⊥ }
    ensures no_long_message { GoesOnUnder (limits 2 10)
        (opened (limits 2 10) (image_of ((Pend (name 1 1) (filled 7 1 1001) ∷ []) ∷ [])))
        (image_of []) → ⊥ }
    ensures misfits_of_four_survive { SurvivesStop
        (opened (limits 4 10) (image_of ((certified 1 1 ∷ []) ∷ []))) → ⊥ }
    ensures misfits_of_seven_survive { SurvivesStop
        (opened (limits 7 10) (image_of ((certified 1 1 ∷ []) ∷ []))) → ⊥ }
    ensures what_is_always_left { AlwaysLeaves (started (limits 7 10))
        (λ images. images 1 ≡ pending 1 1 ∷ []) → ⊥ }
{}

/// What is always left of a new group, and when a group may start with other limits.
pub fn what_is_left()
    ensures nothing { (n : ℕ) → AlwaysLeaves (started (limits n 10)) (λ images. images 1 ≡ []) }
    ensures the_same_limits { (n : ℕ) → MayStartWith (limits n 10) (started (limits n 10)) }
    ensures more_of_both { MayStartWith (limits 7 20) (started (limits 7 10)) }
    ensures fewer_nodes { MayStartWith (limits 4 10) (started (limits 7 10)) → ⊥ }
    ensures a_smaller_cap { MayStartWith (limits 7 1)
        (opened (limits 7 10) (image_of (two_of_one ∷ []))) → ⊥ }
    ensures too_many_nodes { MayStartWith (limits 6 10)
        (opened (limits 5 10) (image_of (held_by_three []))) → ⊥ }
    ensures a_long_message_of_too_few { HaveMajorities 3
        (image_of ((PendCert (name 1 1) (filled 7 1 1001) ∷ []) ∷ [])) → ⊥ }
    ensures a_stranded_node { IsNotStranded
        (opened (limits 1 10) (image_of ((pending 1 1 ∷ []) ∷ []))) → ⊥ }
    ensures two_are_not_stranded { IsNotStranded
        (opened (limits 2 10) (image_of ((pending 1 1 ∷ []) ∷ []))) }
    ensures seven_are_not_stranded { IsNotStranded
        (opened (limits 7 10) (image_of ((pending 1 1 ∷ []) ∷ []))) }
    ensures none_is_stranded_with_nothing { IsNotStranded (started (limits 1 10)) }
{}

/// Images fit together if their records keep the four rules, in groups of any size.
pub fn what_fits()
    ensures in_one { Fits (limits 1 10) (image_of (two_of_one ∷ [])) }
    ensures in_three { Fits (limits 3 10) (image_of (held_by_three [])) }
    ensures in_four { Fits (limits 4 10) (image_of (held_by_three [])) }
    ensures in_five { Fits (limits 5 10) (image_of (held_by_three [])) }
    ensures not_in_six { Fits (limits 6 10) (image_of (held_by_three [])) → ⊥ }
    ensures not_in_seven { Fits (limits 7 10) (image_of (held_by_three [])) → ⊥ }
    ensures a_record_of_four { Rules (limits 4 10) (image_of (held_by_three [])) 2 []
        (certified 1 1) }
    ensures a_second_pair { Rules (limits 4 10) (image_of (held_by_three [])) 2 (certified 1 1 ∷ [])
        (pending 1 1) → ⊥ }
    ensures out_of_turn { Rules (limits 4 10) (image_of (held_by_three [])) 2 [] (pending 2 2) → ⊥ }
    ensures unknown_to_its_sender { Rules (limits 4 10) (image_of []) 2 [] (pending 1 1) → ⊥ }
    ensures held_by_too_few { Rules (limits 7 10) (image_of (held_by_three [])) 2 [] (certified 1 1)
        → ⊥ }
    ensures all_of_four { Kept (limits 4 10) (image_of (held_by_three [])) 2 []
        (certified 1 1 ∷ pending 2 1 ∷ []) }
    ensures the_first_is_not_kept { Kept (limits 7 10) (image_of (held_by_three [])) 2 []
        (certified 1 1 ∷ []) → ⊥ }
    ensures the_second_is_not_kept { Kept (limits 4 10) (image_of (held_by_three [])) 2 []
        (certified 1 1 ∷ pending 2 2 ∷ []) → ⊥ }
{}
