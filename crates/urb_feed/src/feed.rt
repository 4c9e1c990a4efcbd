//! A feed of one node, in portions.

ghost use Rattle.std.specs.Prelude.{◌≡◌, ◌≤◌, ◌==◌, ◌-◌, ◌<◌, IfOk, OnErr, suc};
ghost use Rattle.urb_group.specs.GroupViews.{Shows};
ghost use Rattle.urb_world.specs.World.{World};
ghost use Rattle.urb_feed.specs.Feeds.{IsPortion, most_broadcast, whole_feed};
ghost use Rattle.urb_feed.specs.MissingNames.{needed_from};
ghost use Rattle.urb_feed.specs.internal.SenderRows.{HasWorld, IsRow, LacksNoneUpTo};

use crate::delivered::delivered_of;
use crate::offers::{Row, push_needed_of};
use std::alloc::Allocator;
use std::marker::Model;
use urb_group::Group;
use urb_names::{MAX_SENDERS, NoMemory, NodeId, Packet};

/// How many numbers a portion goes through. There are up to `MAX_NODES` names with each number.
pub const PORTION: u32 = 32;

/// The greatest number of packets in a portion: one from each node for each name.
pub const MOST_PACKETS: usize = PORTION as usize * MAX_SENDERS * MAX_SENDERS;

/// A feed of one node. It has done the names with numbers up to `after`; those up to `end` follow.
#[derive(Clone, Copy, Debug, Drop)]
pub struct Feed {
    target: NodeId,
    after: u32,
    end: u32,
}

impl Model for Feed {
    ghost use Rattle.std.specs.Prelude.{◌≤◌};
    ghost use Rattle.urb_feed.specs.Feeds.{FeedView};

    ghost Value = { FeedView };

    ghost view = { λ f. record { target = f.target; after = f.after; end = f.end } };

    ghost invariant = { λ f. f.after ≤ f.end };

    ghost inverse = { λ v. record { target = v.target; after = v.after; end = v.end } };
}

impl Feed {
    /// A feed of a node, which will go through the names that all nodes have stored of their own
    /// clients by now. Later messages reach the node as usual. It only reads, and allocates
    /// nothing. For a node that the group doesn't have, the feed makes no packet.
    pub fn begin<A: Allocator + Copy>(group: &Group<A>, target: NodeId) -> Feed
        ensures { (w : World) → Shows group.now w → result ≡ whole_feed w target }
    {
        Feed {
            target,
            after: 0,
            end: most_broadcast(group),
        }
    }

    /// The node that is fed.
    pub fn target(&self) -> NodeId
        ensures { result ≡ self.now.target }
    {
        self.target
    }

    /// Whether the feed has gone through all names.
    pub fn is_done(&self) -> bool
        ensures { result ≡ (self.now.after == self.now.end) }
    {
        self.after == self.end
    }

    /// The packets for the next names that the node lacks, at most `MOST_PACKETS`. There is one
    /// packet for each of these names from each other node that has stored its message. Names that
    /// the node has delivered cost little: the feed skips what no sender has to offer. Payloads are
    /// shared, so a portion copies none of them.
    ///
    /// `NoMemory`: an allocation was refused, and the feed is as before; the caller may make the
    /// call again.
    pub fn next_portion<A: Allocator + Copy>(
        &mut self,
        alloc: A,
        group: &Group<A>,
    ) -> Result<Vec<Packet<A>, A>, NoMemory>
        ensures ok { IfOk result
            (λ packets. IsPortion group.now self.old self.new packets.items) }
        ensures err { OnErr result (self.new ≡ self.old) }
    {
        recall_world(group);
        let from = skip_whole(group, self.target, self.after, self.end);
        let upto = portion_end(from, self.end);
        let packets = make_needed(alloc, group, self.target, from, upto)?;
        self.after = upto;
        Ok(packets)
    }
}

// Does nothing at run time; it brings into the proof that the group shows a world, with at most
// `MAX_NODES` nodes.
fn recall_world<A: Allocator + Copy>(group: &Group<A>)
    ensures { HasWorld group.now }
{
    group.recall();
    let _nodes = group.config().n();
}

// Where a portion ends that begins after `from`.
fn portion_end(from: u32, end: u32) -> u32
    requires { from ≤ end }
    ensures range { (from ≤ result) × (result ≤ end) }
    ensures onward { from < end → from < result }
    ensures short { result - from ≤ PORTION }
{
    if end - from > PORTION {
        from + PORTION
    } else {
        end
    }
}

// The greatest number of messages that a node has broadcast.
fn most_broadcast<A: Allocator + Copy>(group: &Group<A>) -> u32
    ensures { (w : World) → Shows group.now w → result ≡ most_broadcast w }
{
    let mut most = 0;
    for number in 1..group.config().n() + 1 {
        let own = group.own_len(NodeId::new(number).unwrap()).unwrap_or(0);
        if most < own {
            most = own;
        }
    }
    most
}

// Which names of a sender the target lacks.
fn row_of<A: Allocator + Copy>(group: &Group<A>, target: NodeId, sender: NodeId) -> Row
    ensures sender { result.sender ≡ sender }
    ensures row { (w : World) → Shows group.now w →
        IsRow w target sender result.delivered result.own }
{
    group.recall();
    let own = group.own_len(sender).unwrap_or(0);
    let Some(log) = group.log(target) else {
        return Row {
            sender,
            delivered: own,
            own,
        };
    };
    if own == 0 {
        return Row {
            sender,
            delivered: 0,
            own,
        };
    }
    let delivered = delivered_of(log, sender);
    Row {
        sender,
        delivered,
        own,
    }
}

// A number from `after` to `end` up to which the target lacks nothing. It is `end` if nothing is
// lacking up to there.
fn skip_whole<A: Allocator + Copy>(group: &Group<A>, target: NodeId, after: u32, end: u32) -> u32
    requires { after ≤ end }
    ensures range { (after ≤ result) × (result ≤ end) }
    ensures whole { (w : World) → Shows group.now w → LacksNoneUpTo w target after result }
{
    let mut from = end;
    for number in 1..group.config().n() + 1 {
        let row = row_of(group, target, NodeId::new(number).unwrap());
        let done = row.delivered.max(after);
        if done < row.own && done < from {
            from = done;
        }
    }
    from
}

// What the target needs of the names with numbers above `from`, up to `upto`.
fn make_needed<A: Allocator + Copy>(
    alloc: A,
    group: &Group<A>,
    target: NodeId,
    from: u32,
    upto: u32,
) -> Result<Vec<Packet<A>, A>, NoMemory>
    requires { from ≤ upto }
    ensures { IfOk result (λ packets. (w : World) → Shows group.now w →
        packets.items ≡ needed_from w target (suc from) (upto - from)) }
{
    let mut packets = Vec::new(alloc);
    let last = group.config().n();
    for number in 1..last + 1 {
        let sender = NodeId::new(number).unwrap();
        let row = row_of(group, target, sender);
        push_needed_of(&mut packets, alloc, group, target, row, from, upto)?;
    }
    Ok(packets)
}
