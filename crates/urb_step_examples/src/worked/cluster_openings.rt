//! What stores give when a cluster is opened over them, and how it goes on.
//!
//! A new group shows the new world of its size: the rows that name both suppose it.
ghost use Rattle.std.specs.Prelude.{[], ◌∷◌, ◌≡◌, Err, Ok, Vec, ℕ};
ghost use Rattle.urb_names.specs.Names.{name};
ghost use Rattle.urb_names.specs.declared.refusal.Refusal.TheVariants as refusal;
ghost use Rattle.urb_node.specs.NodeViews.{no_view};
ghost use Rattle.urb_stable.specs.MemoryStores.{Memory, empty_memory};
ghost use Rattle.urb_stable.specs.declared.stable.StoreFault.TheVariants as fault;
ghost use Rattle.urb_group.specs.GroupViews.{Shows};
ghost use Rattle.urb_group.specs.StoreOpenings.{AllGive, Continues, ContinuesFrom, FirstFails};
ghost use Rattle.urb_group.specs.StoreOpenings.{HasStopped, OpensFrom, OpensGiven, OpensStores};
ghost use Rattle.urb_group.specs.StoreOpenings.{stores_in};
ghost use Rattle.urb_step_examples.specs.internal.GroupExamples.{clustered, counted_group};
ghost use Rattle.urb_step_examples.specs.internal.GroupExamples.{group_with, new_group, of_no_world};
ghost use Rattle.urb_step_examples.specs.internal.StoreExamples.{dishonest, one_stored};
ghost use Rattle.urb_world.specs.MemoryStores.{in_memory};
ghost use Rattle.urb_world.specs.World.{World, image_of, opened, started};
ghost use Rattle.urb_world.specs.internal.Examples.{certified, limits, pending};

/// Each store is asked and gives its list, up to the first one that fails.
pub fn what_stores_give()
    ensures not_what_they_lack { AllGive (in_memory (Unit {0})) (empty_memory ∷ [])
        ((pending 1 1 ∷ []) ∷ []) (one_stored ∷ []) → ⊥ }
    ensures not_without_the_second { AllGive (in_memory (Unit {0}))
        (empty_memory ∷ empty_memory ∷ []) ([] ∷ []) (empty_memory ∷ []) → ⊥ }
    ensures no_store_more { FirstFails (in_memory (Unit {0})) (empty_memory ∷ []) fault.NoMemory
        (empty_memory ∷ empty_memory ∷ []) → ⊥ }
    ensures no_failed_device_of_memory { FirstFails (in_memory (Unit {0})) (empty_memory ∷ [])
        fault.Device (empty_memory ∷ []) → ⊥ }
    ensures no_failure_of_no_store { FirstFails (in_memory (Unit {0})) [] fault.NoMemory
        (empty_memory ∷ []) → ⊥ }
    ensures no_failure_that_takes_a_store { FirstFails (in_memory (Unit {0})) (empty_memory ∷ [])
        fault.NoMemory [] → ⊥ }
    ensures all_stores_of_a_cluster { stores_in {S = ℕ} {A = Unit {0}}
        (Ok (clustered (new_group 3) (1 ∷ 2 ∷ []))) ≡ 1 ∷ 2 ∷ [] }
{}

/// A group is opened from what the stores give.
pub fn what_stores_open()
    ensures not_with_a_store_more { OpensGiven (in_memory (Unit {0})) (limits 3 10) []
        (empty_memory ∷ []) (Ok (new_group 3)) → ⊥ }
    ensures not_another_group { OpensGiven (in_memory (Unit {0})) (limits 3 10) [] []
        (Ok (new_group 4)) → ⊥ }
    ensures a_group_from_no_stores { Shows (new_group 4) (opened (limits 4 10) (image_of []))
        → OpensFrom (in_memory (Unit {0})) (limits 4 10) [] (Ok (new_group 4)) [] }
    ensures not_another_group_of_four { OpensFrom (in_memory (Unit {0})) (limits 4 10) []
        (Ok (new_group 3)) [] → ⊥ }
    ensures without_memory { OpensFrom (in_memory (Unit {0})) (limits 4 10) []
        (Err refusal.NoMemory) [] }
    ensures not_refused_as_busy { OpensFrom (in_memory (Unit {0})) (limits 4 10) []
        (Err refusal.Busy) [] → ⊥ }
    ensures a_cluster { Shows (new_group 4) (opened (limits 4 10) (image_of []))
        → OpensStores (in_memory (Unit {0})) (limits 4 10) []
        (Ok (clustered (new_group 4) [])) }
    ensures not_another_cluster { OpensStores (in_memory (Unit {0})) (limits 4 10) []
        (Ok (clustered (new_group 3) [])) → ⊥ }
    ensures all_stores_returned { (returned : Vec Memory (Unit {0})) → returned.items ≡ []
        → OpensStores (in_memory (Unit {0})) (limits 4 10) []
        (Err (returned, refusal.NoMemory)) }
    ensures not_returned_as_busy { (returned : Vec Memory (Unit {0})) → returned.items ≡ []
        → OpensStores (in_memory (Unit {0})) (limits 4 10) []
        (Err (returned, refusal.Busy)) → ⊥ }
{}

/// A process has stopped whose group was sound, and had a place for each node. It starts with as
/// many nodes or more, and its stores hold what the stop left.
pub fn what_has_stopped()
    ensures a_group_of_four { Shows (counted_group 4) (started (limits 4 10))
        → HasStopped (in_memory (Unit {0})) (counted_group 4) (started (limits 4 10))
        (limits 4 10) [] }
    ensures no_unsound_group { (w : World) → HasStopped (in_memory (Unit {0}))
        (group_with 1 (record no_view { acks = (name 1 1, 2) ∷ [] })) w (limits 1 10) [] → ⊥ }
    ensures no_group_without_nodes { (w : World) → HasStopped (in_memory (Unit {0})) (new_group 3)
        w (limits 3 10) [] → ⊥ }
    ensures not_with_fewer_nodes { (w : World) → HasStopped (in_memory (Unit {0}))
        (counted_group 4) w (limits 3 10) [] → ⊥ }
    ensures not_another_world { HasStopped (in_memory (Unit {0})) (counted_group 3)
        (started (limits 4 10)) (limits 4 10) [] → ⊥ }
    ensures not_with_a_record_more { HasStopped (in_memory (Unit {0})) (counted_group 3)
        (started (limits 3 10)) (limits 3 10) (one_stored ∷ []) → ⊥ }
{}

/// A cluster goes on from a world with what its stores held.
pub fn how_a_cluster_goes_on()
    ensures from_a_new_world { Shows (new_group 4) (opened (limits 4 10) (image_of []))
        → ContinuesFrom (in_memory (Unit {0})) (started (limits 4 10)) [] (new_group 4) }
    ensures not_without_a_record { ContinuesFrom (in_memory (Unit {0})) (started (limits 3 10))
        (one_stored ∷ []) (new_group 3) → ⊥ }
    ensures not_without_a_delivered_message { ContinuesFrom (in_memory (Unit {0}))
        (opened (limits 3 10) (image_of ((certified 1 1 ∷ []) ∷ []))) (empty_memory ∷ [])
        (new_group 3) → ⊥ }
    ensures not_as_a_group_of_no_world { ContinuesFrom (in_memory (Unit {0}))
        (started (limits 3 10)) [] (of_no_world 3) → ⊥ }
    ensures not_as_four_of_no_world { ContinuesFrom (in_memory (Unit {0}))
        (started (limits 4 10)) [] (of_no_world 4) → ⊥ }
{}

/// Over honest stores a cluster that is opened goes on. A refusal says that memory was refused or
/// that a device failed, if the group may start.
pub fn how_a_cluster_continues()
    ensures anyhow_over_dishonest_stores { Continues dishonest (new_group 4)
        (started (limits 4 10)) (limits 4 10) []
        (Ok (clustered (of_no_world 3) (empty_memory ∷ []))) }
    ensures not_as_a_group_of_no_world { Continues (in_memory (Unit {0})) (new_group 4)
        (started (limits 4 10)) (limits 4 10) [] (Ok (clustered (of_no_world 3) [])) → ⊥ }
    ensures not_without_memory { (returned : Vec Memory (Unit {0})) → returned.items ≡ []
        → Shows (counted_group 4) (started (limits 4 10))
        → Continues (in_memory (Unit {0})) (counted_group 4) (started (limits 4 10))
        (limits 4 10) [] (Err (returned, refusal.NoMemory)) }
    ensures no_group_without_nodes { (returned : Vec Memory (Unit {0})) → returned.items ≡ []
        → Continues (in_memory (Unit {0})) (new_group 4) (started (limits 4 10))
        (limits 4 10) [] (Err (returned, refusal.NoMemory)) → ⊥ }
    ensures no_refusal_as_busy { (returned : Vec Memory (Unit {0})) → returned.items ≡ []
        → Continues (in_memory (Unit {0})) (counted_group 3) (started (limits 3 10))
        (limits 3 10) [] (Err (returned, refusal.Busy)) → ⊥ }
{}
