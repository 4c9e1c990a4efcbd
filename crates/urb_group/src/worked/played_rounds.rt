//! What the laws of played rounds suppose.
ghost use Rattle.std.specs.Prelude.{[], map, replicate};
ghost use Rattle.urb_names.specs.Nodes.{nodes};
ghost use Rattle.urb_node.specs.Replies.{Sent};
ghost use Rattle.urb_group.specs.PlayedRounds.{IsPlayedBusyRound, IsPlayedRound};
ghost use Rattle.urb_world.specs.Step.{Tick};
ghost use Rattle.urb_world.specs.World.{started};
ghost use Rattle.urb_group.specs.declared.command.Command.TheVariants as command;
ghost use Rattle.urb_world.specs.internal.Examples.{limits};

use std::alloc::Allocator;

/// The premises of the laws of played rounds are true of these commands.
pub fn what_laws_suppose<A: Allocator>()
    ensures seven_play_a_round { IsPlayedRound {A = A} (map (λ p. command.Tick p) (nodes 7))
        (replicate 7 (Sent [])) (started (limits 7 10)) }
    ensures seven_play_a_busy_round { IsPlayedBusyRound {A = A} (map (λ p. command.Tick p) (nodes 7))
        (replicate 7 (Sent [])) (started (limits 7 10)) }
{}
