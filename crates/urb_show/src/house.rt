//! The House: the group together with its published logs.
ghost use Rattle.std.specs.Prelude.{◌≡◌, ◌<◌, ◌≤◌, ◌-◌, ◌^◌, length, MatchBool, MatchResult};
ghost use Rattle.urb_group.specs.GroupViews.{IsSound};
ghost use Rattle.urb_show.specs.Lists.{Agree, Begins, list_at, lists_in};
ghost use Rattle.urb_show.specs.Houses.{Grew, Settled};
ghost use Rattle.urb_show.specs.Pasts.{IsLedTo, IsReachedBy};
ghost use Rattle.urb_show.specs.internal.PreparedLists.{GrewByOne, Lacks};

use crate::entry::Addition;
use crate::group_entries::{entry_at, entry_count};
use crate::history::calls::Happening;
use crate::history::past::Past;
use crate::history::tokens::{Book, EventToken, HouseName, OfEvents};
use crate::moment::Moment;
use crate::publisher::{Publisher, history_is_full};
use crate::reader::Told;
use std::alloc::{Allocator, Global};
use std::marker::Model;
use std::sync::Wait;
use urb_group::{Group, NoMemory, NodeId};

/// A group, together with what is published of its nodes' logs. Its calls change it one event at a
/// time, so a lock may hold it.
///
/// It can't be dropped, since its readers may be in the middle of a read: end it by `close`. The
/// memory of its nodes and of the published lists comes from `Global`. Everything else comes from
/// an allocator `A`, so that tests can refuse it.
pub struct House<K: HouseName, A: Allocator = Global> {
    pub(crate) group: Group,
    pub(crate) publisher: Publisher<K, A>,
    // The length of each prepared list.
    pub(crate) prepared: Vec<usize>,
    pub(crate) events: u64,
    // All events, in proofs alone.
    pub(crate) past: Past,
    // The history that all threads share, and its events.
    pub(crate) history: Book<Happening, OfEvents<K>>,
    pub(crate) told: EventToken<K>,
}

impl<K: HouseName, A: Allocator> Model for House<K, A> {
    ghost use mathlib.Core.List.{IsPrefix};
    ghost use Rattle.urb_show.specs.Additions.{lists_of};
    ghost use Rattle.urb_show.specs.Houses.{HouseView};
    ghost use Rattle.urb_show.specs.internal.PreparedLists.{HasPast, IsHouse};

    ghost Value = { HouseView };

    ghost view = { λ h. record {
      group = h.group;
      published = lists_of K.base h.publisher.shown;
      prepared = lists_of K.base h.publisher.all;
      events = h.events;
      past = h.past;
    } };

    ghost invariant = { λ h. IsHouse h.group (lists_of K.base h.publisher.all) h.prepared.items
        × HasPast K.origin h.past h.events h.group
        × IsPrefix h.told h.past };
}

impl<K: HouseName, A: Allocator> House<K, A> {
    /// Does nothing at run time; it brings the value's invariant into the proof. The group is
    /// sound, each published list is a prefix of what its node has delivered, and what the nodes
    /// have delivered agrees. The group is what the events have made of the group that was opened.
    pub fn recall(&self)
        ensures sound { IsSound self.now.group }
        // there is a list for each node
        ensures counted { (length self.now.group.nodes ≡ length K.base)
            × (self.now.group.size.n ≡ length K.base) }
        // Each of these is a prefix of the next: the opening lists, what is published, what was
        // prepared, and what is delivered.
        ensures opened { Begins K.base self.now.published }
        ensures published { Begins self.now.published self.now.prepared }
        ensures prepared { Begins self.now.prepared (lists_in self.now.group) }
        ensures begins { Begins self.now.published (lists_in self.now.group) }
        ensures agree { Agree (lists_in self.now.group) }
        // The opened group showed some world. Each such world, after the past, is shown now.
        ensures origin { IsSound K.origin }
        ensures past { IsLedTo K.origin self.now.past self.now.group }
        ensures reached { IsReachedBy K.origin self.now.past }
        ensures events { self.now.events < 2 ^ 64 - 1 → self.now.events ≡ length self.now.past }
    {
        let _ = self.publisher.len();
        self.group.recall_deliveries();
        let _prepared = &self.prepared;
    }

    // Whether some entry of the node is not prepared yet.
    fn has_unprepared(&self, node: NodeId) -> bool
        requires { node ≤ length self.now.group.nodes }
        ensures lacks { MatchBool result (Lacks (node - 1) self.now) (length
            (list_at (lists_in self.now.group) (node - 1)) ≤ length
            (list_at self.now.prepared (node - 1))) }
        ensures begins { Begins self.now.prepared (lists_in self.now.group) }
    {
        let place = usize::from(node.number() - 1);
        self.prepared[place] < entry_count(&self.group, node)
    }

    // Prepares the node's next entry, at the present moment.
    fn prepare(&mut self, node: NodeId, moment: &Moment<K>) -> Result<(), NoMemory>
        requires node { node ≤ length self.old.group.nodes }
        requires moment { moment.now ≡ self.old.past }
        requires lacks { Lacks (node - 1) self.old }
        ensures { MatchResult result
            (λ _. GrewByOne (node - 1) self.old self.new) (λ _. self.new ≡ self.old) }
    {
        self.publisher.flush()?;
        let place = usize::from(node.number() - 1);
        let index = self.prepared[place];
        self.group.recall_deliveries();
        let entry = entry_at(*self.prepared.allocator(), &self.group, node, index)?;
        self.publisher.add(Addition {
            place,
            entry,
            events: moment.token().mark(),
        })?;
        self.prepared[place] = index + 1;
        Ok(())
    }

    /// Publishes what a node has delivered. Call it after names were released. Its cost grows with
    /// what is new. It may wait for a reader that is in the middle of a read. It also publishes
    /// what an earlier refused call had prepared for other nodes.
    ///
    /// What it publishes has its place in the history of events: the present moment, as `mark`
    /// gives it. The token that it returns knows this moment.
    ///
    /// `NoMemory`: the published lists are as before, and a later call completes the work. It is
    /// also the result if the house has no moment.
    pub fn settle<R: Wait>(&mut self, rt: &R, node: NodeId) -> Result<Told<K>, NoMemory>
        requires { node ≤ length K.base }
        ensures { MatchResult result
            (λ told. Settled (node - 1) self.old self.new told)
            (λ _. Grew (node - 1) self.old self.new) }
    {
        self.recall();
        let Some(moment) = self.mark() else {
            return Err(history_is_full());
        };
        while self.has_unprepared(node) {
            self.prepare(node, &moment)?;
        }
        self.publish(rt, moment)
    }

    // Publishes what was prepared. The token knows this moment.
    fn publish<R: Wait>(&mut self, rt: &R, moment: Moment<K>) -> Result<Told<K>, NoMemory>
        ensures { MatchResult result
            (λ told. (self.new ≡ record self.old { published = self.old.prepared })
            × (told ≡ record { lists = self.old.prepared; past = moment }))
            (λ _. self.new ≡ self.old) }
    {
        self.publisher.flush()?;
        self.publisher.publish(rt, moment)
    }

    /// Ends the house, and returns the group in its present state. It allocates nothing, and may
    /// wait for a reader that is in the middle of a read.
    pub fn close<R: Wait>(self, rt: &R) -> Group
        ensures { result ≡ self.group }
    {
        let House {
            group,
            publisher,
            prepared: _,
            events: _,
            past: _,
            history: _,
            told: _,
        } = self;
        publisher.close(rt);
        group
    }
}
