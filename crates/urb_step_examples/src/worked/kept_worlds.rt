//! The invariant of runs: which records may join, what nodes have counted, and how long payloads are.
ghost use Rattle.std.specs.Prelude.{[], ◌∷◌, None, Some, false};
ghost use Rattle.urb_names.specs.Names.{name};
ghost use Rattle.urb_node.specs.Part.{Down, Ready, Storing, opened_node, packet_from};
ghost use Rattle.urb_step_examples.specs.internal.WorldExamples.{long_pending};
ghost use Rattle.urb_world.specs.RunInvariant.{AcksKept, AreShort, DoubtKept, IsKept, MayJoin};
ghost use Rattle.urb_world.specs.RunInvariant.{NodeKept, NodeShort, NodesKept, NodesShort, StateKept};
ghost use Rattle.urb_world.specs.World.{image_of, opened, started};
ghost use Rattle.urb_world.specs.internal.Examples.{certified, filled, limits, node_in, pending};
ghost use Rattle.urb_world.specs.internal.Examples.{world_of};
ghost use Rattle.urb_world.specs.internal.Scripts.{message};

/// Which record may join those of a node, and which one a node may hold, or have in doubt.
pub fn records_that_may_join()
    ensures the_first_of_four { MayJoin (limits 4 10) (λ p. []) 1 [] (pending 1 1) }
    ensures not_the_second_of_four { MayJoin (limits 4 10) (λ p. []) 1 [] (pending 1 2) → ⊥ }
    ensures no_doubt_of_four { DoubtKept (limits 4 10) (λ p. []) 1 [] None }
    ensures a_doubt_of_four { DoubtKept (limits 4 10) (λ p. []) 1 [] (Some (pending 1 1)) }
    ensures not_a_doubt_of_the_second { DoubtKept (limits 4 10) (λ p. []) 1 [] (Some (pending 1 2))
        → ⊥ }
    ensures a_ready_node_of_four { StateKept (limits 4 10) (λ p. []) 1 [] Ready }
    ensures a_draft_of_four { StateKept (limits 4 10) (λ p. []) 1 [] (Storing (pending 1 1) None) }
    ensures not_a_draft_of_the_second { StateKept (limits 4 10) (λ p. []) 1 []
        (Storing (pending 1 2) None) → ⊥ }
    ensures not_a_draft_of_the_second_in_three { StateKept (limits 3 10) (λ p. []) 1 []
        (Storing (pending 1 2) None) → ⊥ }
    ensures not_a_draft_without_its_cause { StateKept (limits 3 10)
        (image_of ([] ∷ (pending 2 1 ∷ []) ∷ [])) 1 []
        (Storing (pending 2 1) (Some (packet_from 3 false))) → ⊥ }
    ensures a_fallen_node_of_four { StateKept (limits 4 10) (λ p. []) 1 [] (Down None) }
    ensures not_a_fallen_node_with_the_second { StateKept (limits 4 10) (λ p. []) 1 []
        (Down (Some (pending 1 2))) → ⊥ }
{}

/// Whoever is counted for a name that isn't certified has its message, and so does the node.
pub fn what_nodes_have_counted()
    ensures nothing { AcksKept (λ p. []) [] [] }
    ensures of_a_certified_name { AcksKept (λ p. []) (certified 1 1 ∷ []) ((name 1 1, 2) ∷ []) }
    ensures not_of_a_name_that_it_lacks { AcksKept (λ p. pending 1 1 ∷ []) []
        ((name 1 1, 2) ∷ []) → ⊥ }
    ensures not_a_node_that_lacks_the_name { AcksKept (λ p. []) (pending 1 1 ∷ [])
        ((name 1 1, 2) ∷ []) → ⊥ }
{}

/// A node's records meet the rules, and what it holds, has counted and has broadcast is true.
pub fn kept_nodes()
    ensures a_new_node_of_four { NodeKept (limits 4 10) (λ p. []) 1 (opened_node 1 []) }
    ensures not_with_the_second_alone { NodeKept (limits 3 10) (λ p. []) 1
        (record (node_in Ready (pending 1 2 ∷ [])) { broadcast = message 7 2 "" ∷ [] }) → ⊥ }
    ensures not_with_a_draft_of_the_second { NodeKept (limits 3 10) (λ p. []) 1
        (node_in (Storing (pending 1 2) None) []) → ⊥ }
    ensures not_with_a_draft_of_the_second_in_four { NodeKept (limits 4 10) (λ p. []) 1
        (node_in (Storing (pending 1 2) None) []) → ⊥ }
    ensures not_with_a_count_of_nothing { NodeKept (limits 3 10) (λ p. []) 1
        (record (node_in Ready []) { acks = (name 1 1, 2) ∷ [] }) → ⊥ }
    ensures not_without_its_broadcast { NodeKept (limits 3 10) (λ p. []) 1
        (node_in Ready (pending 1 1 ∷ [])) → ⊥ }
    ensures all_of_four { NodesKept (started (limits 4 10)) }
    ensures not_all_of_four { NodesKept (record (started (limits 4 10))
        { node = λ p. node_in (Storing (pending 1 2) None) [] }) → ⊥ }
    ensures not_a_world_with_a_draft_of_the_second { IsKept
        (world_of (node_in (Storing (pending 1 2) None) [])) → ⊥ }
{}

/// No payload is over the limit: none that is stored, and none in doubt.
pub fn short_payloads()
    ensures of_no_pairs { AreShort [] }
    ensures not_a_long_one { AreShort ((name 1 1, filled 7 1 16385) ∷ []) → ⊥ }
    ensures not_a_long_one_that_is_stored { NodeShort (opened_node 1 (long_pending ∷ [])) → ⊥ }
    ensures not_a_long_one_in_doubt { NodeShort (node_in (Down (Some long_pending)) []) → ⊥ }
    ensures in_a_new_group_of_four { NodesShort (started (limits 4 10)) }
    ensures not_a_long_one_in_four { NodesShort (record (started (limits 4 10))
        { node = λ p. opened_node 1 (long_pending ∷ []) }) → ⊥ }
    ensures not_a_world_with_a_long_one { IsKept
        (opened (limits 3 10) (image_of ((long_pending ∷ []) ∷ []))) → ⊥ }
{}
