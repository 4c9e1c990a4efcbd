//! What a store does with a draft, and with a request for its records.
//!
//! A new group shows the new world of its size: the rows that name both suppose it. An event of a
//! group that shows no world may have any reply.
ghost use Rattle.std.specs.Prelude.{[], ◌∷◌, Some};
ghost use Rattle.urb_node.specs.Replies.{Refused, Up, WentDown};
ghost use Rattle.urb_names.specs.declared.refusal.Refusal.TheVariants as refusal;
ghost use Rattle.urb_stable.specs.MemoryStores.{Memory, armed_with, empty_memory};
ghost use Rattle.urb_stable.specs.declared.memory.Failure.TheVariants as failure;
ghost use Rattle.urb_stable.specs.internal.MemoryCalls.{with_record};
ghost use Rattle.urb_group.specs.ClusterCalls.{AsksStore, FailsDraft, Reads, Stores, StoresDraft};
ghost use Rattle.urb_group.specs.GroupViews.{Shows};
ghost use Rattle.urb_group.specs.InPlaceDrafts.{FailsInPlace, StoresInPlace};
ghost use Rattle.urb_step_examples.specs.internal.GroupExamples.{clustered, draft, fallen, first_draft};
ghost use Rattle.urb_step_examples.specs.internal.GroupExamples.{new_group, of_no_world};
ghost use Rattle.urb_world.specs.MemoryStores.{in_memory};
ghost use Rattle.urb_world.specs.World.{started};
ghost use Rattle.urb_world.specs.internal.Examples.{limits, pending};

/// A draft goes to its node's store, and the store's answer makes the event.
pub fn what_a_store_keeps()
    ensures the_draft { Stores (in_memory (Unit {0})) (of_no_world 4) empty_memory first_draft
        (Up 1) (new_group 4) (with_record (pending 1 1) empty_memory) }
    ensures another_record { Stores (in_memory (Unit {0})) (of_no_world 3) empty_memory first_draft
        (Up 1) (new_group 3) (with_record (pending 1 2) empty_memory) → ⊥ }
    ensures another_record_in_four { Stores (in_memory (Unit {0})) (of_no_world 4) empty_memory
        first_draft (Up 1) (new_group 4) (with_record (pending 1 2) empty_memory) → ⊥ }
    ensures a_draft_that_nobody_holds { Shows (new_group 4) (started (limits 4 10))
        → Stores (in_memory (Unit {0})) (new_group 4) empty_memory first_draft
        (Up 1) (new_group 4) (with_record (pending 1 1) empty_memory) → ⊥ }
    ensures a_store_less { StoresDraft (in_memory (Unit {0}))
        (clustered (of_no_world 3) (empty_memory ∷ [])) first_draft (Up 1)
        (clustered (new_group 3) []) → ⊥ }
    ensures a_draft_of_a_new_group { Shows (new_group 4) (started (limits 4 10))
        → StoresDraft (in_memory (Unit {0}))
        (clustered (new_group 4) (empty_memory ∷ [])) first_draft (Up 1)
        (clustered (new_group 4) (with_record (pending 1 1) empty_memory ∷ [])) → ⊥ }
{}

/// A store that is asked for its records gives them, and has no others afterwards.
pub fn what_a_store_gives()
    ensures no_record_that_it_lacked { Reads (in_memory (Unit {0})) (of_no_world 3) empty_memory 1
        (Up 1) (new_group 3) (with_record (pending 1 1) empty_memory) → ⊥ }
    ensures nothing_to_a_ready_node { Shows (new_group 4) (started (limits 4 10))
        → Reads (in_memory (Unit {0})) (new_group 4) empty_memory 1
        (Up 1) (new_group 4) empty_memory → ⊥ }
    ensures a_store_less { AsksStore (in_memory (Unit {0}))
        (clustered (of_no_world 3) (empty_memory ∷ [])) 1 (Up 1)
        (clustered (new_group 3) []) → ⊥ }
    ensures nothing_to_a_ready_node_of_a_cluster { Shows (new_group 4) (started (limits 4 10))
        → AsksStore (in_memory (Unit {0}))
        (clustered (new_group 4) (empty_memory ∷ [])) 1 (Up 1)
        (clustered (new_group 4) (empty_memory ∷ [])) → ⊥ }
{}

/// A store that fails for a draft has failed, and its node goes down.
pub fn how_a_draft_fails()
    ensures a_store_less { FailsDraft (clustered (of_no_world 3) (empty_memory ∷ [])) first_draft
        failure.Old (WentDown 1) (clustered (fallen 3) []) → ⊥ }
    ensures a_store_without_a_failure { FailsDraft
        (clustered (of_no_world 3) (empty_memory ∷ [])) first_draft
        failure.Old (WentDown 1) (clustered (fallen 3) (empty_memory ∷ [])) → ⊥ }
    ensures a_node_that_stays_up { Shows (new_group 3) (started (limits 3 10))
        → FailsDraft (clustered (new_group 3) (empty_memory ∷ [])) first_draft failure.Old
        (WentDown 1) (clustered (new_group 3) (empty_memory ∷ [])) → ⊥ }
{}

/// The draft that a node holds is in place for the node's store.
pub fn drafts_in_place()
    ensures not_the_second { StoresInPlace (in_memory (Unit {0}))
        (clustered (of_no_world 3) (empty_memory ∷ [])) (Some (draft 1 2 (pending 1 2))) (Up 1)
        (clustered (new_group 3) (empty_memory ∷ [])) → ⊥ }
    ensures not_the_second_of_a_store_that_fails { FailsInPlace
        (clustered (of_no_world 3) (empty_memory ∷ [])) (Some (draft 1 2 (pending 1 2)))
        failure.Old (WentDown 1)
        (clustered (fallen 3) (armed_with failure.Old empty_memory ∷ [])) → ⊥ }
{}
