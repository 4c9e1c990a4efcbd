//! Lists of commands.

ghost use Rattle.std.specs.Prelude.{◌≡◌, is_some};
ghost use Rattle.urb_group.specs.Commands.{is_no_memory};
ghost use Rattle.urb_group.specs.PlayedCommands.{Plays, Runs, told_in};
ghost use Rattle.urb_world.specs.PromisedWorlds.{IsPromised};
ghost use Rattle.urb_group.specs.GroupViews.{Shows};
ghost use Rattle.urb_group.specs.StoreContents.{IsSecured, IsStocked};
ghost use Rattle.urb_world.specs.World.{World};

use crate::{Cluster, Command, Reply};
use std::alloc::Allocator;
use urb_names::{NoMemory, Refusal};
use urb_stable::Stable;

// Returns the refused allocation, if memory was refused to the command.
fn refused_memory<A: Allocator>(reply: &Reply<A>) -> Option<NoMemory>
    ensures { is_some result ≡ is_no_memory reply.now }
{
    match reply {
        Reply::Refused(refusal) => refusal.as_no_memory(),
        _ => None,
    }
}

// Plays the commands one after the other, until memory is refused.
fn play_commands<S: Stable>(
    alloc: S::Alloc,
    cluster: &mut Cluster<S>,
    commands: &[Command<S::Alloc>],
) -> Result<Vec<Reply<S::Alloc>, S::Alloc>, (Vec<Reply<S::Alloc>, S::Alloc>, NoMemory)>
    ensures { Plays S.Stable cluster.old commands.now result cluster.new }
{
    let mut replies = Vec::new(alloc);
    for command in commands {
        if let Err(refused) = replies.reserve(1) {
            return Err((replies, NoMemory::from(refused)));
        }
        let reply = cluster.apply(alloc, command);
        if let Some(refused) = refused_memory(&reply) {
            return Err((replies, refused));
        }
        replies.push_reserved(reply);
    }
    Ok(replies)
}

/// Plays the commands one after the other. If memory is refused to a command, or to its reply
/// before the command is done, the call returns the replies to the earlier commands. A store that
/// is refused memory takes its node down, and the play goes on.
///
/// This is the whole promise of the broadcast. It is logged uniform reliable broadcast (section 3.7
/// of the textbook) with FIFO order (section 3.9; Hadzilacos and Toueg 1994, uniform FIFO order).
/// It holds whatever was lost, repeated or reordered, and whatever failed.
pub fn play<S: Stable>(
    alloc: S::Alloc,
    cluster: &mut Cluster<S>,
    commands: &[Command<S::Alloc>],
) -> Result<Vec<Reply<S::Alloc>, S::Alloc>, (Vec<Reply<S::Alloc>, S::Alloc>, NoMemory)>
    ensures played { Plays S.Stable cluster.old commands.now result cluster.new }
    ensures stocked { IsStocked S.Stable cluster.old → IsStocked S.Stable cluster.new }
    ensures secured { IsSecured S.Stable cluster.old → IsSecured S.Stable cluster.new }
    ensures runs { (w : World)
        → Shows cluster.old.group w
        → Runs w commands.now (told_in result) cluster.new.group }
    ensures headline { (w : World) → Shows cluster.new.group w → IsPromised w }
{
    cluster.group().recall();
    play_commands(alloc, cluster, commands)
}
