//! Groups that open after a stop, each from images of its nodes.
//!
//! Each of the rows that end in ⊥ breaks one rule alone.
ghost use Rattle.std.specs.Prelude.{[], ◌∷◌, ◌<◌, List, length, ℕ};
ghost use Rattle.urb_daemon.specs.Lives.{OpensAfter};
ghost use Rattle.urb_life_examples.specs.internal.RunExamples.{four_with, three_views, with_payload};
ghost use Rattle.urb_life_examples.specs.internal.RunExamples.{world_with};
ghost use Rattle.urb_names.specs.declared.limits.TheConstants.{MAX_PAYLOAD};
ghost use Rattle.urb_turn.specs.internal.TurnExamples.{four, four_views, stored_four};
ghost use Rattle.urb_world.specs.internal.Examples.{limits, pending};

/// A group opens from just what a stop may leave, with as many nodes as before or more.
pub fn what_opens_after_a_stop()
    ensures four_new_nodes { OpensAfter four (limits 4 10) ([] ∷ [] ∷ [] ∷ [] ∷ []) four_views }
    ensures not_a_node_less { OpensAfter four (limits 3 10) ([] ∷ [] ∷ [] ∷ []) three_views → ⊥ }
    ensures not_without_an_image_for_each { OpensAfter four (limits 4 10) [] four_views → ⊥ }
    ensures not_with_a_record_more { OpensAfter four (limits 4 10)
        ((pending 1 1 ∷ []) ∷ [] ∷ [] ∷ [] ∷ []) stored_four → ⊥ }
    ensures not_as_another_group { OpensAfter four (limits 4 10) ([] ∷ [] ∷ [] ∷ [] ∷ [])
        three_views → ⊥ }
    ensures not_with_a_long_payload { (payload : List ℕ) → MAX_PAYLOAD < length payload
        → OpensAfter (world_with payload) (limits 4 10)
        ((with_payload payload ∷ []) ∷ [] ∷ [] ∷ [] ∷ []) (four_with payload) → ⊥ }
{}
