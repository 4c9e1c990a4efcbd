//! What the stores of a group hold, and what a stop leaves of them.
//!
//! A new group shows the new world of its size: the rows that name both suppose it.
ghost use Rattle.std.specs.Prelude.{[], ◌∷◌, None, Some, true};
ghost use Rattle.urb_names.specs.Names.{name};
ghost use Rattle.urb_node.specs.NodeViews.{no_view};
ghost use Rattle.urb_node.specs.Part.{Down, Ready, Storing};
ghost use Rattle.urb_stable.specs.MemoryStores.{after_failure, empty_memory};
ghost use Rattle.urb_stable.specs.internal.MemoryCalls.{with_record};
ghost use Rattle.urb_group.specs.BlankStores.{IsBlank};
ghost use Rattle.urb_group.specs.GroupViews.{IsSound, Shows};
ghost use Rattle.urb_group.specs.StoreContents.{AllHold, AreChosen, AreStoresOf, ContentsFit};
ghost use Rattle.urb_group.specs.StoreContents.{IsSecured, IsStocked, IsStoreOf, RestLeaves};
ghost use Rattle.urb_group.specs.StoreContents.{StopLeaves, WouldLeave};
ghost use Rattle.urb_step_examples.specs.internal.GroupExamples.{clustered, group_with, new_group};
ghost use Rattle.urb_step_examples.specs.internal.GroupExamples.{of_no_world};
ghost use Rattle.urb_step_examples.specs.internal.StoreExamples.{dishonest, one_stored, unwatched};
ghost use Rattle.urb_world.specs.MemoryStores.{in_memory};
ghost use Rattle.urb_world.specs.World.{started};
ghost use Rattle.urb_world.specs.internal.Examples.{certified, limits, node_in, pending};

/// A blank store has no record, and none in doubt.
pub fn blank_stores()
    ensures an_empty_store { IsBlank (in_memory (Unit {0})) empty_memory }
    ensures not_with_a_record { IsBlank unwatched one_stored → ⊥ }
    ensures not_before_a_retrieve { IsBlank (in_memory (Unit {0}))
        (record empty_memory { doubtful = true }) → ⊥ }
    ensures not_with_a_doubtful_record { IsBlank unwatched
        (record empty_memory { doubt = Some (pending 1 1) }) → ⊥ }
{}

/// The stores of a world's nodes hold what the nodes have stored. A node without a store is left
/// out.
pub fn what_stores_of_four_hold()
    ensures no_stores { AllHold (in_memory (Unit {0})) (started (limits 4 10)) [] }
    ensures no_store_more_than_its_node { AllHold (in_memory (Unit {0})) (started (limits 4 10))
        (one_stored ∷ []) → ⊥ }
    ensures nothing_of_no_stores { RestLeaves (in_memory (Unit {0})) (started (limits 4 10)) [] }
    ensures nothing_more_between_calls { RestLeaves (in_memory (Unit {0})) (started (limits 4 10))
        (one_stored ∷ []) → ⊥ }
    ensures nothing_of_no_earlier_stores { StopLeaves (in_memory (Unit {0}))
        (started (limits 4 10)) [] (one_stored ∷ []) }
    ensures nothing_of_no_later_stores { StopLeaves (in_memory (Unit {0}))
        (started (limits 4 10)) (one_stored ∷ []) [] }
    ensures nothing_more_inside_a_call { StopLeaves (in_memory (Unit {0})) (started (limits 4 10))
        (empty_memory ∷ []) (one_stored ∷ []) → ⊥ }
    ensures none_of_no_stores { AreStoresOf (in_memory (Unit {0})) (started (limits 4 10)) [] }
    ensures none_with_more_than_its_node { AreStoresOf (in_memory (Unit {0}))
        (started (limits 4 10)) (one_stored ∷ []) → ⊥ }
    ensures nothing_of_no_clean_stores { WouldLeave (in_memory (Unit {0}))
        (started (limits 4 10)) [] }
    ensures nothing_more_of_a_clean_store { WouldLeave (in_memory (Unit {0}))
        (started (limits 4 10)) (one_stored ∷ []) → ⊥ }
{}

/// The store of a node has the node's records. While the node is up, no record is in doubt.
pub fn stores_of_nodes()
    ensures of_a_node_that_is_down { IsStoreOf (in_memory (Unit {0}))
        (node_in (Down (Some (pending 1 1))) []) (after_failure (Some (pending 1 1)) empty_memory) }
    ensures not_with_another_record { IsStoreOf unwatched (node_in (Down None) []) one_stored → ⊥ }
    ensures not_with_a_doubt_of_a_node_that_is_up { IsStoreOf (in_memory (Unit {0}))
        (node_in (Storing (pending 1 2) None) (pending 1 1 ∷ []))
        (record one_stored { doubt = Some (pending 1 2) }) → ⊥ }
    ensures not_before_a_retrieve { IsStoreOf (in_memory (Unit {0})) (node_in Ready [])
        (record empty_memory { doubtful = true }) → ⊥ }
{}

/// The stores of a cluster belong to the nodes of a world that its group shows.
pub fn stocked_clusters()
    ensures not_of_no_world { IsStocked (in_memory (Unit {0})) (clustered (of_no_world 3) []) → ⊥ }
    ensures not_with_a_record_more { IsStocked (in_memory (Unit {0}))
        (clustered (new_group 3) (one_stored ∷ [])) → ⊥ }
    ensures secured_without_stores { Shows (new_group 3) (started (limits 3 10))
        → IsSecured (in_memory (Unit {0})) (clustered (new_group 3) []) }
    ensures not_secured_by_a_dishonest_store { IsSecured dishonest
        (clustered (new_group 3) (empty_memory ∷ [])) → ⊥ }
{}

/// Images are chosen from stores, one of each. What stores hold fits if all such images open a group
/// that goes on.
pub fn images_of_stores()
    ensures no_record_of_an_empty_store { AreChosen (in_memory (Unit {0})) (empty_memory ∷ [])
        ([] ∷ []) }
    ensures not_of_one_alone { AreChosen (in_memory (Unit {0})) (empty_memory ∷ []) [] → ⊥ }
    ensures not_a_record_that_the_store_lacks { AreChosen (in_memory (Unit {0}))
        (empty_memory ∷ []) ((pending 1 1 ∷ []) ∷ []) → ⊥ }
    ensures nothing_fits { Shows (new_group 3) (started (limits 3 10))
        → ContentsFit (in_memory (Unit {0})) (clustered (new_group 3) []) }
    ensures nothing_fits_no_world { ContentsFit (in_memory (Unit {0}))
        (clustered (of_no_world 3) []) → ⊥ }
    ensures a_misfit { ContentsFit (in_memory (Unit {0}))
        (clustered (new_group 3) (with_record (certified 1 1) empty_memory ∷ [])) → ⊥ }
{}

/// A sound group shows a world that keeps the rules.
pub fn sound_groups()
    ensures not_of_no_world { IsSound (of_no_world 3) → ⊥ }
    ensures not_with_an_acknowledgement_of_nothing { IsSound
        (group_with 3 (record no_view { acks = (name 1 1, 2) ∷ [] })) → ⊥ }
{}
