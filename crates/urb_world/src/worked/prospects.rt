//! What may still become of a world: what it can deliver, what a stop leaves, and which worlds no run
//! reaches.
ghost use Rattle.std.specs.Prelude.{[], ◌∷◌, None};
ghost use Rattle.urb_node.specs.Part.{Down, Ready};
ghost use Rattle.urb_world.specs.ProcessStops.{SurvivesStop};
ghost use Rattle.urb_world.specs.RecoveredWorlds.{CanDeliver};
ghost use Rattle.urb_world.specs.Step.{IsReached};
ghost use Rattle.urb_world.specs.World.{started};
ghost use Rattle.urb_world.specs.internal.Examples.{limits, node_in};
ghost use Rattle.urb_world.specs.internal.Scripts.{message};

/// A new group has delivered all that it has. What no node has stored can't be delivered.
pub fn what_can_be_delivered()
    ensures all_of_a_new_group { CanDeliver (started (limits 4 10)) }
    ensures nothing_that_was_not_stored { CanDeliver (record (started (limits 4 10)) {
      node = λ p. record (node_in Ready []) { broadcast = message 7 1 "" ∷ [] };
    }) → ⊥ }
{}

/// A new group loses nothing at a stop.
pub fn what_survives()
    ensures a_new_group_of_four { SurvivesStop (started (limits 4 10)) }
    ensures a_new_group_of_seven { SurvivesStop (started (limits 7 10)) }
{}

/// A run reaches the world in which it begins. No run brings down what has the number 0, since that
/// is no node.
pub fn what_no_run_reaches()
    ensures where_a_run_begins { IsReached (started (limits 4 10)) }
    ensures a_node_zero_that_is_down { IsReached (record (started (limits 4 10))
        { node = λ p. node_in (Down None) [] }) → ⊥ }
{}
