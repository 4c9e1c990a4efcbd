//! Stores that hold a tail behind the records of a ready node.
//!
//! The node has yet to draft the tail. Each row is true or false of a store in memory.
ghost use Rattle.std.specs.Prelude.{[], ◌∷◌, None, Some, true, ℕ};
ghost use Rattle.urb_names.specs.Names.{name};
ghost use Rattle.urb_node.specs.Part.{Down, Storing};
ghost use Rattle.urb_stable.specs.MemoryStores.{empty_memory};
ghost use Rattle.urb_stable.specs.declared.record.Record.TheVariants.{Cert};
ghost use Rattle.urb_ahead_examples.specs.internal.ExampleStores.{dishonest, holding, resting};
ghost use Rattle.urb_ahead_examples.specs.internal.ExampleStores.{storing_together, two_pending};
ghost use Rattle.urb_world.specs.StoresAhead.{IsAheadOf};
ghost use Rattle.urb_world.specs.World.{image_of, opened, started};
ghost use Rattle.urb_world.specs.internal.Examples.{certified, held_by_three, limits, node_in};
ghost use Rattle.urb_world.specs.internal.Examples.{pending, world_of};

/// Stores that hold their tail: for certain, behind all records of the node.
pub fn stores_with_their_tail()
    ensures nothing_in_one { IsAheadOf resting (started (limits 1 10)) 1 [] empty_memory }
    ensures a_certificate_in_one { IsAheadOf resting (started (limits 1 10)) 1
        (pending 1 1 ∷ Cert (name 1 1) ∷ []) (holding (pending 1 1 ∷ Cert (name 1 1) ∷ [])) }
    ensures two_in_three { IsAheadOf resting (started (limits 3 10)) 1 two_pending
        (holding two_pending) }
    ensures two_in_four { IsAheadOf resting (started (limits 4 10)) 1 two_pending
        (holding two_pending) }
    ensures two_in_seven { IsAheadOf resting (started (limits 7 10)) 1 two_pending
        (holding two_pending) }
    ensures behind_a_record_in_six { IsAheadOf resting
        (opened (limits 6 10) (image_of ((pending 1 1 ∷ []) ∷ []))) 1 (pending 1 2 ∷ [])
        (holding two_pending) }
    ensures a_pair_of_another_in_four { IsAheadOf resting
        (opened (limits 4 10) (image_of (held_by_three []))) 4 (certified 1 1 ∷ [])
        (holding (certified 1 1 ∷ [])) }
    ensures of_a_dishonest_store { IsAheadOf dishonest (started (limits 4 10)) 1 two_pending
        empty_memory }
{}

/// Stores that don't. Each row is wrong in one thing.
pub fn stores_without_their_tail()
    ensures of_a_node_that_is_down { IsAheadOf resting (world_of (node_in (Down None) [])) 1
        two_pending (holding two_pending) → ⊥ }
    ensures of_a_node_that_stores { IsAheadOf resting
        (world_of (node_in (Storing (pending 1 1) None) [])) 1 two_pending (holding two_pending)
        → ⊥ }
    ensures four_that_are_down { IsAheadOf resting
        (record (started (limits 4 10)) { node = λ p. node_in (Down None) [] }) 1 two_pending
        (holding two_pending) → ⊥ }
    ensures a_misfit_of_three { IsAheadOf resting (started (limits 3 10)) 1 (certified 1 1 ∷ [])
        (holding (certified 1 1 ∷ [])) → ⊥ }
    ensures a_misfit_of_four { IsAheadOf resting (started (limits 4 10)) 1 (certified 1 1 ∷ [])
        (holding (certified 1 1 ∷ [])) → ⊥ }
    ensures a_gap_in_three { IsAheadOf resting (started (limits 3 10)) 1
        (pending 1 1 ∷ pending 1 3 ∷ []) (holding (pending 1 1 ∷ pending 1 3 ∷ [])) → ⊥ }
    ensures a_gap_in_four { IsAheadOf resting (started (limits 4 10)) 1
        (pending 1 1 ∷ pending 1 3 ∷ []) (holding (pending 1 1 ∷ pending 1 3 ∷ [])) → ⊥ }
    ensures less_of_three { IsAheadOf resting (started (limits 3 10)) 1 two_pending
        (holding (pending 1 1 ∷ [])) → ⊥ }
    ensures less_of_four { IsAheadOf resting (started (limits 4 10)) 1 two_pending
        (holding (pending 1 1 ∷ [])) → ⊥ }
    ensures more_of_six { IsAheadOf resting (started (limits 6 10)) 1 (pending 1 1 ∷ [])
        (holding two_pending) → ⊥ }
    ensures the_tail_alone_of_seven { IsAheadOf resting
        (opened (limits 7 10) (image_of ((pending 1 1 ∷ []) ∷ []))) 1 (pending 1 2 ∷ [])
        (holding (pending 1 2 ∷ [])) → ⊥ }
    ensures that_needs_a_retrieve { IsAheadOf resting (started (limits 3 10)) 1 two_pending
        (record (holding two_pending) { doubtful = true }) → ⊥ }
    ensures with_a_doubtful_record { IsAheadOf resting (started (limits 4 10)) 1 (pending 1 1 ∷ [])
        (record (holding (pending 1 1 ∷ [])) { doubt = Some (pending 1 2) }) → ⊥ }
    ensures inside_a_call { IsAheadOf (storing_together (pending 1 2 ∷ []))
        (started (limits 4 10)) 1 (pending 1 1 ∷ []) (holding (pending 1 1 ∷ [])) → ⊥ }
{}
