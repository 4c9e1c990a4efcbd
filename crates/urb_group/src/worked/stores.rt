//! What a node's store holds, and what a stop of the process may leave in it.
ghost use Rattle.std.specs.Prelude.{[], ◌∷◌, None, Some, false};
ghost use Rattle.urb_stable.specs.MemoryStores.{after_failure, empty_memory};
ghost use Rattle.urb_stable.specs.internal.MemoryCalls.{with_record};
ghost use Rattle.urb_node.specs.Part.{Ready, Storing, Down, packet_from};
ghost use Rattle.urb_world.specs.MemoryStores.{in_memory};
ghost use Rattle.urb_group.specs.StoreContents.{HoldsOf, IsLasting, IsStoreOf, LeavesOf};
ghost use Rattle.urb_group.specs.StoreContents.{StopLeaves};
ghost use Rattle.urb_world.specs.internal.Examples.{pending, node_in, shut_by_failures, world_of};

/// A store may have taken a record before its commit.
pub fn left_records()
    ensures taken_before_its_commit { HoldsOf (in_memory (Unit {0}))
        (node_in (Storing (pending 1 1) (Some (packet_from 2 false))) [])
        (with_record (pending 1 1) empty_memory) }
{}

/// What stores leave. A store that a failure shut, in a call or before it, leaves what its node may
/// leave. The same holds for a store between two calls. No store leaves a record that its node
/// doesn't have. A store that is shut can't be that of a node that is up.
pub fn stores()
    ensures shut_inside_a_call { StopLeaves shut_by_failures
        (world_of (node_in (Storing (pending 1 1) None) [])) (empty_memory ∷ [])
        (after_failure (Some (pending 1 1)) empty_memory ∷ [])
        → LeavesOf shut_by_failures (node_in (Storing (pending 1 1) None) []) (after_failure (Some (pending 1 1)) empty_memory) }
    ensures at_rest { IsStoreOf shut_by_failures (node_in Ready (pending 1 1 ∷ []))
        (with_record (pending 1 1) empty_memory)
        → LeavesOf shut_by_failures (node_in Ready (pending 1 1 ∷ [])) (with_record (pending 1 1) empty_memory) }
    ensures shut_and_its_node_down { IsLasting shut_by_failures
        (node_in (Down (Some (pending 1 1))) []) (after_failure (Some (pending 1 1)) empty_memory) }
    ensures shut_while_its_node_is_up { IsLasting shut_by_failures (node_in Ready [])
        (after_failure None empty_memory) → ⊥ }
    ensures a_record_that_the_node_lacks { LeavesOf shut_by_failures (node_in Ready [])
        (with_record (pending 1 1) empty_memory) → ⊥ }
    ensures no_record_where_the_node_has_one { LeavesOf shut_by_failures
        (node_in Ready (pending 1 1 ∷ [])) empty_memory → ⊥ }
{}
