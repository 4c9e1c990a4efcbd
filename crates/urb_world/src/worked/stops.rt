//! What a stop of the process may leave of a node's storage.
ghost use Rattle.std.specs.Prelude.{[], ◌∷◌, None, Some};
ghost use Rattle.urb_node.specs.Part.{Ready, Storing, Down};
ghost use Rattle.urb_world.specs.ProcessStops.{MayLeave};
ghost use Rattle.urb_world.specs.internal.Examples.{pending, certified, node_in};

/// The stored records, with or without the record that is held or in doubt.
pub fn left_records()
    ensures stored_by_a_ready_node { MayLeave (node_in Ready (pending 1 1 ∷ []))
        (pending 1 1 ∷ []) }
    ensures without_the_held_one { MayLeave
        (node_in (Storing (pending 1 2) None) (pending 1 1 ∷ [])) (pending 1 1 ∷ []) }
    ensures with_the_held_one { MayLeave (node_in (Storing (pending 1 2) None) (pending 1 1 ∷ []))
        (pending 1 1 ∷ pending 1 2 ∷ []) }
    ensures without_the_doubtful_one { MayLeave
        (node_in (Down (Some (pending 1 2))) (pending 1 1 ∷ [])) (pending 1 1 ∷ []) }
    ensures with_the_doubtful_one { MayLeave
        (node_in (Down (Some (pending 1 2))) (pending 1 1 ∷ [])) (pending 1 1 ∷ pending 1 2 ∷ []) }
    ensures stored_by_a_node_that_is_down { MayLeave (node_in (Down None) (pending 1 1 ∷ []))
        (pending 1 1 ∷ []) }
{}

/// Nothing else: no record is lost, no record is made up, and no record comes before another.
pub fn records_never_left()
    ensures less_of_a_ready_node { MayLeave (node_in Ready (pending 1 1 ∷ [])) [] → ⊥ }
    ensures more_of_a_ready_node { MayLeave (node_in Ready []) (pending 1 1 ∷ []) → ⊥ }
    ensures the_held_one_alone { MayLeave (node_in (Storing (pending 1 2) None) (pending 1 1 ∷ []))
        (pending 1 2 ∷ []) → ⊥ }
    ensures the_held_one_before { MayLeave (node_in (Storing (pending 1 2) None) (pending 1 1 ∷ []))
        (pending 1 2 ∷ pending 1 1 ∷ []) → ⊥ }
    ensures another_than_the_held_one { MayLeave
        (node_in (Storing (pending 1 2) None) (pending 1 1 ∷ [])) (pending 1 1 ∷ certified 1 2 ∷ [])
        → ⊥ }
    ensures the_held_one_twice { MayLeave (node_in (Storing (pending 1 2) None) (pending 1 1 ∷ []))
        (pending 1 1 ∷ pending 1 2 ∷ pending 1 2 ∷ []) → ⊥ }
    ensures more_where_none_is_in_doubt { MayLeave (node_in (Down None) (pending 1 1 ∷ []))
        (pending 1 1 ∷ pending 1 2 ∷ []) → ⊥ }
{}
