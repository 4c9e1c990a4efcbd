//! The words of commands: which event a command is, and what it counts as in a round.
//!
//! Each row is one case of a word.
ghost use Rattle.std.specs.Prelude.{[], ◌∷◌, ◌≡◌};
ghost use Rattle.urb_names.specs.declared.refusal.Refusal.TheVariants as refusal;
ghost use Rattle.urb_node.specs.Replies.{Refused, Sent, Up, WentDown};
ghost use Rattle.urb_group.specs.Commands.{IsEventOf, IsUnread};
ghost use Rattle.urb_group.specs.PlayedRounds.{act_of_command};
ghost use Rattle.urb_world.specs.Rounds.{Breaks, Ticks};
ghost use Rattle.urb_world.specs.Step.{Commit, Crash, Fail, Restart, Tick};
ghost use Rattle.urb_group.specs.declared.command.Command.TheVariants as command;
ghost use Rattle.urb_world.specs.internal.Examples.{pending};

use std::alloc::Allocator;

/// Which event a command is, and what it counts as in a round.
pub fn commands<A: Allocator>()
    ensures a_tick { IsEventOf {A = A} (command.Tick 2) (Tick 2) }
    ensures a_stored_record { IsEventOf {A = A} (command.Store 2) (Commit 2 1 (pending 2 1)) }
    ensures a_failed_store { IsEventOf {A = A} (command.Store 2) (Fail 2) }
    ensures a_crash { IsEventOf {A = A} (command.Crash 2) (Crash 2) }
    ensures a_restart { IsEventOf {A = A} (command.Restart 2) (Restart 2 []) }
    ensures no_tick { IsEventOf {A = A} (command.Tick 2) (Crash 2) → ⊥ }
    ensures no_crash { IsEventOf {A = A} (command.Crash 2) (Tick 2) → ⊥ }
    ensures no_restart { IsEventOf {A = A} (command.Restart 2) (Crash 2) → ⊥ }
    ensures unread { IsUnread {A = A} (command.Restart 2) (Refused refusal.Device) }
    ensures read { IsUnread {A = A} (command.Restart 2) (Up 2) → ⊥ }
    ensures a_refused_tick { IsUnread {A = A} (command.Tick 2) (Refused refusal.Device) → ⊥ }
    ensures a_counted_tick { act_of_command {A = A} (command.Tick 2) (Sent []) ≡ Ticks 2 [] ∷ [] }
    ensures a_counted_failure { act_of_command {A = A} (command.Store 2) (WentDown 2)
        ≡ Breaks ∷ [] }
    ensures a_counted_crash { act_of_command {A = A} (command.Crash 2) (WentDown 2) ≡ Breaks ∷ [] }
{}
