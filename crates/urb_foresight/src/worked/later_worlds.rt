//! Worked examples of the worlds in which a prediction holds: once the records foreseen so far are
//! stored.
//!
//! Each of the rows that end in ⊥ breaks one rule alone.
ghost use Rattle.std.specs.Prelude.{[], ◌∷◌};
ghost use Rattle.urb_foresight.specs.ForeseenDrafts.{IsOnceStored};
ghost use Rattle.urb_foresight.specs.internal.ForesightExamples.{all_down, four_nodes};
ghost use Rattle.urb_foresight.specs.internal.ForesightExamples.{having_counted, having_stored};
ghost use Rattle.urb_foresight.specs.internal.ForesightExamples.{the_first};
ghost use Rattle.urb_world.specs.World.{started};
ghost use Rattle.urb_world.specs.internal.Examples.{limits, pending};

/// Node 1 has stored these records, and is ready. Other nodes may have stored more.
pub fn worlds_once_records_are_stored()
    ensures nothing_new { IsOnceStored four_nodes 1 [] four_nodes }
    ensures its_first_record { IsOnceStored four_nodes 1 the_first (having_stored (the_first ∷ [])) }
    ensures more_of_another { IsOnceStored four_nodes 1 []
        (having_stored ([] ∷ (pending 2 1 ∷ []) ∷ [])) }
    ensures more_of_a_third { IsOnceStored (having_stored (the_first ∷ the_first ∷ [])) 1 []
        (having_counted (the_first ∷ the_first ∷ the_first ∷ [])) }
    ensures no_new_holder_counted { IsOnceStored (having_stored (the_first ∷ [])) 1 []
        (having_counted (the_first ∷ the_first ∷ [])) → ⊥ }
    ensures not_without_it { IsOnceStored four_nodes 1 the_first four_nodes → ⊥ }
    ensures not_less_of_another { IsOnceStored (having_stored ([] ∷ (pending 2 1 ∷ []) ∷ [])) 1 []
        four_nodes → ⊥ }
    ensures no_gap { IsOnceStored four_nodes 1 (pending 1 2 ∷ [])
        (having_stored ((pending 1 2 ∷ []) ∷ [])) → ⊥ }
    ensures not_down { IsOnceStored four_nodes 1 [] all_down → ⊥ }
    ensures no_other_limits { IsOnceStored four_nodes 1 [] (started (limits 4 11)) → ⊥ }
{}
