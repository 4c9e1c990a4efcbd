//! What the nodes of a group have delivered, for readers of their logs.
//!
//! Most functions here are laws: each is the contract of a function that does nothing. The methods
//! of `Group` state what every group promises.

ghost use Rattle.std.specs.Prelude.{◌≡◌, ◌≢◌, ◌+◌, ℕ, length, map};
ghost use Rattle.urb_names.specs.ListPrefixes.{Begins};
ghost use Rattle.urb_names.specs.LabelsAndContents.{IsLimits};
ghost use Rattle.urb_node.specs.Replies.{Done, Stored};
ghost use Rattle.urb_stable.specs.Entries.{Entry};
ghost use Rattle.urb_stable.specs.DeliveredLogs.{entries};
ghost use Rattle.urb_group.specs.GroupCalls.{Steps};
ghost use Rattle.urb_group.specs.DeliveredMessages.{Agree, Follows, delivered_at, known};
ghost use Rattle.urb_world.specs.EventEffects.{StoresNothing, event_node};
ghost use Rattle.urb_group.specs.GroupViews.{GroupView, IsSound, Shows};
ghost use Rattle.urb_world.specs.Step.{Commit, Event};
ghost use Rattle.urb_world.specs.World.{World, stored};

use crate::{Config, Group};
use std::alloc::Allocator;

/// A sound group holds the deliveries of each node that every world it shows has: the names of the
/// node's log, each with its message. So two worlds that one group shows have the same deliveries.
pub fn a_group_holds_what_its_worlds_deliver()
    ensures held { (group : GroupView) (w : World) (p : ℕ) →
        IsSound group → Shows group w → map known (delivered_at group p) ≡ entries (stored w p) }
    ensures alike { (group : GroupView) (v w : World) (p : ℕ)
        → IsSound group
        → Shows group v
        → Shows group w
        → entries (stored v p) ≡ entries (stored w p) }
{}

/// The deliveries of a sound group's nodes only grow at their end. An event changes the deliveries
/// of its own node only. An event that stores nothing changes no deliveries. A stored record adds
/// as many deliveries as the reply says were released.
pub fn deliveries_only_grow()
    ensures grow { (old new : GroupView) (event : Event) (p : ℕ) →
        IsSound old → Follows old event new → Begins (delivered_at old p) (delivered_at new p) }
    ensures others { (old new : GroupView) (event : Event) (p : ℕ) →
        IsSound old → Follows old event new → event_node event ≢ p →
        delivered_at new p ≡ delivered_at old p }
    ensures nothing { (old new : GroupView) (event : Event) (p : ℕ) →
        IsSound old → Follows old event new → StoresNothing event →
        delivered_at new p ≡ delivered_at old p }
    ensures released { (old new : GroupView) (p position : ℕ) (entry : Entry) (done : Done) →
        IsSound old → Steps old (Commit p position entry) (λ reply. reply ≡ Stored done) new →
        length (delivered_at new p) ≡ length (delivered_at old p) + done.released }
{}

/// The deliveries of a sound group's nodes agree: uniform agreement and FIFO order of the logs
/// (sections 3.7 and 3.9 of the textbook). They are short, since each of at most `MAX_NODES`
/// senders has at most `MAX_CAP` names.
pub fn deliveries_agree()
    ensures { (group : GroupView)
        → IsSound group
        → IsLimits group.size
        → Agree (delivered_at group) }
{}

impl<A: Allocator + Copy> Group<A> {
    /// Returns how many nodes the group has, and how many messages each may broadcast.
    pub fn config(&self) -> Config
        ensures { result ≡ self.now.size }
    {
        self.config
    }

    /// Does nothing at run time; it brings the value's invariant into the proof. The group's size
    /// is within its limits, and the deliveries of its nodes agree.
    pub fn recall_deliveries(&self)
        ensures limits { IsLimits self.now.size }
        ensures counted { length self.now.nodes ≡ self.now.size.n }
        ensures sound { IsSound self.now }
        ensures agree { Agree (delivered_at self.now) }
    {
        let size = self.config;
        size.recall();
    }
}
