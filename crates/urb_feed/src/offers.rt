//! The packets in which nodes offer a name to a node that lacks it.

ghost use Rattle.std.specs.Prelude.{◌≡◌, ◌≤◌, ◌-◌, ◌++◌, OnOk, suc};
ghost use Rattle.urb_group.specs.GroupViews.{Shows};
ghost use Rattle.urb_world.specs.World.{World};
ghost use Rattle.urb_feed.specs.MissingNames.{needed_of, offer, offers};
ghost use Rattle.urb_feed.specs.internal.SenderRows.{IsRow};

use std::alloc::Allocator;
use urb_group::Group;
use urb_names::{Flags, Name, NoMemory, NodeId, Packet};

// Appends the packet in which a node offers a name to the target, if it is another node that has
// stored the message.
fn push_offer<A: Allocator + Copy>(
    packets: &mut Vec<Packet<A>, A>,
    alloc: A,
    group: &Group<A>,
    target: NodeId,
    name: Name,
    source: NodeId,
) -> Result<(), NoMemory>
    requires { source ≤ group.now.size.n }
    ensures { OnOk result ((w : World) → Shows group.now w →
        packets.new.items ≡ packets.old.items ++ offer w target name source) }
{
    if source == target {
        return Ok(());
    }
    let Some(message) = group.message(source, name) else {
        return Ok(());
    };
    let flags = Flags {
        certified: false,
        heard: false,
    };
    packets.push(Packet::new(source, target, name, message.share(alloc)?, Some(flags)))?;
    Ok(())
}

// Appends the packets in which the other nodes offer a name to the target.
fn push_offers<A: Allocator + Copy>(
    packets: &mut Vec<Packet<A>, A>,
    alloc: A,
    group: &Group<A>,
    target: NodeId,
    name: Name,
) -> Result<(), NoMemory>
    ensures { OnOk result ((w : World) → Shows group.now w →
        packets.new.items ≡ packets.old.items ++ offers w target name) }
{
    for number in 1..group.config().n() + 1 {
        let source = NodeId::new(number).unwrap();
        push_offer(packets, alloc, group, target, name, source)?;
    }
    Ok(())
}

// Which names of a sender a node lacks: those with numbers above `delivered`, up to `own`.
#[derive(Clone, Copy, Drop)]
pub(crate) struct Row {
    pub(crate) sender: NodeId,
    pub(crate) delivered: u32,
    pub(crate) own: u32,
}

// Appends what the target needs of a sender's names with numbers above `from`, up to `upto`.
pub(crate) fn push_needed_of<A: Allocator + Copy>(
    packets: &mut Vec<Packet<A>, A>,
    alloc: A,
    group: &Group<A>,
    target: NodeId,
    row: Row,
    from: u32,
    upto: u32,
) -> Result<(), NoMemory>
    requires range { from ≤ upto }
    requires row { (w : World) → Shows group.now w →
        IsRow w target row.sender row.delivered row.own }
    ensures { OnOk result ((w : World) → Shows group.now w → packets.new.items
        ≡ packets.old.items ++ needed_of w target (suc from) (upto - from) row.sender) }
{
    let Row {
        sender,
        delivered,
        own,
    } = row;
    for before in from..upto {
        let seq = before + 1;
        if delivered < seq && seq <= own {
            push_offers(packets, alloc, group, target, Name { sender, seq })?;
        }
    }
    Ok(())
}
