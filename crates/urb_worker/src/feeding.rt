//! A worker's feed of its node: what the node's log lacks, packet by packet.

ghost use Rattle.std.specs.Prelude.{◌≡◌, ◌++◌, [], IfOk, OnErr, OnOk, length};
ghost use Rattle.std.specs.Prelude.{option_to_list, ◌&&◌, ◌==◌};
ghost use Rattle.urb_names.specs.PacketGrammar.{spelling};
ghost use Rattle.urb_turn.specs.NodeFeeds.{IsFeedOf, IsNextPortion};
ghost use Rattle.urb_worker.specs.internal.OwnJobs.{Comes};
ghost use Rattle.urb_turn.specs.internal.Arrivals.{IsArrival};

use std::alloc::Global;
use std::collections::VecDeque;
use std::marker::Model;
use std::sync::Wait;
use urb_feed::Feed;
use urb_names::{NoMemory, NodeId, Packet, encode};
use urb_show::HouseName;
use urb_turn::{Hub, HubName, Job};

/// A feed of a node that its worker goes through. A portion is made under the lock, and its packets
/// then arrive at the node one by one.
#[derive(Drop)]
pub(crate) struct Feeding {
    feed: Feed,
    waiting: VecDeque<Packet>,
}

impl Model for Feeding {
    ghost use Rattle.urb_worker.specs.internal.OwnJobs.{FeedingView};

    ghost Value = { FeedingView };

    ghost view = { λ f. record { feed = f.feed; waiting = f.waiting.items } };
}

impl Feeding {
    /// A feed of all that the node's log lacks now.
    pub(crate) fn begin<K: HouseName, L: HubName, R: Wait>(
        rt: &R,
        alloc: Global,
        hub: &Hub<K, L>,
        node: NodeId,
    ) -> Feeding
        ensures feed { IsFeedOf K.origin node result.feed }
        ensures waiting { result.waiting ≡ [] }
    {
        Feeding {
            feed: hub.begin_feed(rt, node),
            waiting: VecDeque::new(alloc),
        }
    }

    /// Whether all packets were fed.
    pub(crate) fn is_over(&self) -> bool
        ensures { result ≡ ((self.now.feed.after == self.now.feed.end)
            && (length self.now.waiting == 0)) }
    {
        self.feed.is_done() && self.waiting.is_empty()
    }

    // Makes the next portion.
    fn refill<K: HouseName, L: HubName, R: Wait>(
        &mut self,
        rt: &R,
        alloc: Global,
        hub: &Hub<K, L>,
    ) -> Result<(), NoMemory>
        ensures ok { OnOk result (IsNextPortion K.origin self.old.feed self.new.feed self.new.waiting) }
        ensures err { OnErr result (self.new ≡ self.old) }
    {
        let packets = hub.next_portion(rt, alloc, &mut self.feed)?;
        self.waiting = VecDeque::from_vec(packets);
        Ok(())
    }

    // Makes the next portion if no packet waits.
    #[tactic(auto, using(crate::proofs::NodeFeeds::comes_next, crate::proofs::NodeFeeds::comes_anew))]
    fn fill<K: HouseName, L: HubName, R: Wait>(
        &mut self,
        rt: &R,
        alloc: Global,
        hub: &Hub<K, L>,
    ) -> Result<(), NoMemory>
        ensures ok { OnOk result (Comes K.origin self.old.waiting self.old.feed self.new.feed
            self.new.waiting) }
        ensures err { OnErr result (self.new ≡ self.old) }
    {
        if !self.waiting.is_empty() {
            return Ok(());
        }
        self.refill(rt, alloc, hub)
    }

    /// The next packet. If none waits, it first makes the next portion, which may be empty.
    /// `NoMemory`: there is no memory for a portion, and the feeding is as before.
    #[tactic(auto, using(crate::proofs::NodeFeeds::comes_same))]
    pub(crate) fn next_packet<K: HouseName, L: HubName, R: Wait>(
        &mut self,
        rt: &R,
        alloc: Global,
        hub: &Hub<K, L>,
    ) -> Result<Option<Packet>, NoMemory>
        ensures ok { IfOk result (λ next. Comes K.origin self.old.waiting self.old.feed self.new.feed
            (option_to_list next ++ self.new.waiting)) }
        ensures err { OnErr result (self.new ≡ self.old) }
    {
        self.fill(rt, alloc, hub)?;
        Ok(self.waiting.pop_front())
    }
}

/// The job that lets a packet arrive at its target.
pub(crate) fn arrival_of(alloc: Global, packet: &Packet) -> Result<Job, NoMemory>
    ensures { IfOk result (λ job. IsArrival packet.now.target (spelling packet.now) job) }
{
    let bytes = encode(alloc, packet)?;
    Ok(Job::Arrive {
        node: packet.target(),
        bytes,
    })
}
