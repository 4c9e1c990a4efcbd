//! Which records may follow the stored records of a node, and what a stop leaves of a store that
//! holds them ahead of their events.
//!
//! A tail is a list of such records. Each row is a tail, or what a stop leaves of one.
ghost use Rattle.std.specs.Prelude.{[], ◌∷◌, ℕ};
ghost use Rattle.urb_names.specs.Names.{name};
ghost use Rattle.urb_stable.specs.declared.record.Record.TheVariants.{Cert, Pend};
ghost use Rattle.urb_stable.specs.MemoryStores.{empty_memory};
ghost use Rattle.urb_stable.specs.internal.MemoryCalls.{with_record};
ghost use Rattle.urb_world.specs.MemoryStores.{in_memory};
ghost use Rattle.urb_world.specs.StoresAhead.{IsAhead, IsAheadOf, MayFollow, MayLeaveAhead};
ghost use Rattle.urb_world.specs.StoresAhead.{SurvivesAhead};
ghost use Rattle.urb_world.specs.World.{image_of, opened, started};
ghost use Rattle.urb_world.specs.internal.Examples.{certified, held_by_three, limits, pending};
ghost use Rattle.urb_world.specs.internal.Examples.{two_of_one};
ghost use Rattle.urb_world.specs.internal.Scripts.{message};

/// Tails that may follow: each record keeps the four rules behind those before it.
pub fn what_may_follow()
    ensures nothing { (n : ℕ) → MayFollow (limits n 10) (image_of []) 1 [] [] }
    ensures two_of_its_own { MayFollow (limits 3 10) (image_of []) 1 []
        (pending 1 1 ∷ pending 1 2 ∷ []) }
    ensures two_clients { MayFollow (limits 3 10) (image_of []) 1 []
        (pending 1 1 ∷ Pend (name 1 2) (message 8 1 "") ∷ []) }
    ensures a_certificate_behind_its_record { MayFollow (limits 1 10) (image_of []) 1 []
        (pending 1 1 ∷ Cert (name 1 1) ∷ []) }
    ensures a_third_behind_two { MayFollow (limits 1 10) (image_of (two_of_one ∷ [])) 1 two_of_one
        (pending 1 3 ∷ Cert (name 1 3) ∷ []) }
    ensures a_pair_of_another { MayFollow (limits 4 10) (image_of (held_by_three [])) 4 []
        (certified 1 1 ∷ pending 4 1 ∷ []) }
{}

/// Tails whose second record may not follow, though the first may.
pub fn what_may_not_follow()
    ensures a_certificate_before_its_record { MayFollow (limits 1 10) (image_of []) 1 []
        (pending 1 1 ∷ Cert (name 1 2) ∷ pending 1 2 ∷ []) → ⊥ }
    ensures a_certificate_twice { MayFollow (limits 1 10) (image_of []) 1 []
        (certified 1 1 ∷ Cert (name 1 1) ∷ []) → ⊥ }
    ensures a_record_twice { MayFollow (limits 3 10) (image_of []) 1 []
        (pending 1 1 ∷ pending 1 1 ∷ []) → ⊥ }
    ensures a_gap { MayFollow (limits 3 10) (image_of []) 1 [] (pending 1 1 ∷ pending 1 3 ∷ [])
        → ⊥ }
    ensures a_gap_of_its_client { MayFollow (limits 3 10) (image_of []) 1 []
        (pending 1 1 ∷ Pend (name 1 2) (message 8 2 "") ∷ []) → ⊥ }
    ensures over_the_cap { MayFollow (limits 3 1) (image_of []) 1 []
        (pending 1 1 ∷ pending 1 2 ∷ []) → ⊥ }
    ensures unknown_to_its_sender { MayFollow (limits 3 10) (image_of []) 1 []
        (pending 1 1 ∷ pending 2 1 ∷ []) → ⊥ }
    ensures held_by_too_few_of_three { MayFollow (limits 3 10) (image_of []) 1 []
        (pending 1 1 ∷ Cert (name 1 1) ∷ []) → ⊥ }
    ensures held_by_too_few_of_seven { MayFollow (limits 7 10) (image_of (held_by_three [])) 2
        (certified 1 1 ∷ []) (pending 2 1 ∷ Cert (name 2 1) ∷ []) → ⊥ }
{}

/// What a stop may leave of a store with two records ahead: none, the first, or both.
pub fn what_is_ahead()
    ensures none_of_two { IsAhead (pending 1 1 ∷ []) (pending 1 2 ∷ pending 1 3 ∷ [])
        (pending 1 1 ∷ []) }
    ensures one_of_two { IsAhead (pending 1 1 ∷ []) (pending 1 2 ∷ pending 1 3 ∷ [])
        (pending 1 1 ∷ pending 1 2 ∷ []) }
    ensures both { IsAhead (pending 1 1 ∷ []) (pending 1 2 ∷ pending 1 3 ∷ [])
        (pending 1 1 ∷ pending 1 2 ∷ pending 1 3 ∷ []) }
    ensures the_second_alone { IsAhead [] (pending 1 1 ∷ pending 1 2 ∷ []) (pending 1 2 ∷ []) → ⊥ }
    ensures more_than_both { IsAhead [] (pending 1 1 ∷ pending 1 2 ∷ [])
        (pending 1 1 ∷ pending 1 2 ∷ pending 1 3 ∷ []) → ⊥ }
    ensures less_than_the_records { IsAhead (pending 1 1 ∷ []) (pending 1 2 ∷ []) [] → ⊥ }
{}

/// What a stop may leave of a node whose store is ahead, and what it may not.
pub fn what_a_stop_leaves()
    ensures both { MayLeaveAhead (started (limits 3 10)) 1 (pending 1 1 ∷ pending 1 2 ∷ []) }
    ensures nothing_ahead { MayLeaveAhead (started (limits 3 10)) 1 [] }
    ensures a_misfit_of_four { MayLeaveAhead (started (limits 4 10)) 1 (certified 1 1 ∷ []) → ⊥ }
    ensures a_misfit_of_seven { MayLeaveAhead (started (limits 7 10)) 1 (certified 1 1 ∷ []) → ⊥ }
    ensures less_than_the_records { MayLeaveAhead
        (opened (limits 3 10) (image_of ((pending 1 1 ∷ []) ∷ []))) 1 [] → ⊥ }
    ensures misfits_of_four_survive { SurvivesAhead
        (opened (limits 4 10) (image_of ((certified 1 1 ∷ []) ∷ []))) → ⊥ }
    ensures misfits_of_seven_survive { SurvivesAhead
        (opened (limits 7 10) (image_of ((certified 1 1 ∷ []) ∷ []))) → ⊥ }
{}

/// A store in memory that holds two records ahead of a new node, and stores that don't.
pub fn stores_ahead()
    ensures of_both { IsAheadOf (in_memory (Unit {0})) (started (limits 3 10)) 1
        (pending 1 1 ∷ pending 1 2 ∷ [])
        (with_record (pending 1 2) (with_record (pending 1 1) empty_memory)) }
    ensures of_nothing { IsAheadOf (in_memory (Unit {0})) (started (limits 3 10)) 1 []
        empty_memory }
    ensures of_less_than_both { IsAheadOf (in_memory (Unit {0})) (started (limits 3 10)) 1
        (pending 1 1 ∷ pending 1 2 ∷ []) (with_record (pending 1 1) empty_memory) → ⊥ }
    ensures of_a_misfit { IsAheadOf (in_memory (Unit {0})) (started (limits 3 10)) 1
        (certified 1 1 ∷ []) (with_record (certified 1 1) empty_memory) → ⊥ }
{}
