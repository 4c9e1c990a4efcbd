//! Laws of delivery for commands: two lists of commands that were played, and are rounds, deliver.
//!
//! Each law is the contract of a function that does nothing. `specs/PlayedRounds.antt` says which
//! commands with their replies are a round.

ghost use Rattle.std.specs.Prelude.{List, ◌<◌};
ghost use Rattle.urb_world.specs.RecoveredWorlds.{AllDelivered, IsNotStranded};
ghost use Rattle.urb_world.specs.RecoveryPlans.{after};
ghost use Rattle.urb_world.specs.Rounds.{AllUp, ReadyHaveDelivered};
ghost use Rattle.urb_world.specs.Step.{IsReached};
ghost use Rattle.urb_group.specs.PlayedRounds.{IsPlayedBusyRound, IsPlayedRound};
ghost use Rattle.urb_group.specs.PlayedCommands.{Runs};
ghost use Rattle.urb_group.specs.GroupViews.{GroupView};
ghost use Rattle.urb_world.specs.World.{World};
ghost use Rattle.urb_group.specs.declared.command.Command.{Command};
ghost use Rattle.urb_node.specs.Replies.{Reply};

use std::alloc::Allocator;

/// Two played rounds deliver: the same law for two lists of commands that were played, each with
/// the replies that came back. If these replies make both lists rounds, every node has delivered
/// all that each sender's storage took. `Runs` is what `play` promises.
pub fn two_played_rounds_deliver<A: Allocator>()
    ensures { (w : World) (first second : List (Command A)) (told answered : List Reply)
        (between behind : GroupView)
        → (one : Runs w first told between)
        → (two : Runs one.after second answered behind)
        → IsReached w
        → IsNotStranded w
        → AllUp w
        → IsPlayedRound first told one.after
        → IsPlayedRound second answered two.after
        → AllDelivered two.after }
{}

/// Two busy rounds that are played deliver: the same law for two lists of commands that were
/// played, each with the replies that came back.
pub fn two_played_busy_rounds_deliver<A: Allocator>()
    ensures { (w : World) (first second : List (Command A)) (told answered : List Reply)
        (between behind : GroupView)
        → (one : Runs w first told between)
        → (two : Runs one.after second answered behind)
        → IsReached w
        → IsNotStranded w
        → AllUp w
        → IsPlayedBusyRound first told one.after
        → IsPlayedBusyRound second answered two.after
        → ReadyHaveDelivered w two.after }
{}
