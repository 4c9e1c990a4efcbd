//! Positions of sessions: what a session has seen and learnt, without a reader of its own.
ghost use Rattle.std.specs.Prelude.{◌≡◌, ◌≤◌, ◌-◌, ◌⊎◌, IfOk, OnErr, length};
ghost use Rattle.urb_group.specs.GroupViews.{IsSound};
ghost use Rattle.urb_show.specs.DeliveredLists.{AreDeliveredBy};
ghost use Rattle.urb_show.specs.Readers.{AreOfOneHistory, Learns, LearnsPast, Takes};
ghost use Rattle.urb_show.specs.Lists.{list_at};
ghost use Rattle.urb_show.specs.Pages.{IsPageOf};
ghost use mathlib.Core.List.{IsPrefix};

use crate::entry::Page;
use crate::history::tokens::{HistoryToken, HouseName};
use crate::moment::Moment;
use crate::reader::{LogReader, ReadFault, Told};
use std::alloc::Allocator;
use std::marker::Model;
use urb_group::NodeId;

/// What a session has seen and learnt of the published lists. A publisher visits every reader, so a
/// house has few of them. Sessions share these: each keeps a position, and borrows a reader for
/// each of its reads. A position is three numbers in memory.
///
/// Contracts see the lists that the session's reads took last, and the longest that it learnt, as
/// they see those of a `LogReader`. So any two pages of one session agree for each sender, although
/// different readers read them. Contracts also see all events until the latest moment that the
/// session knows.
#[derive(Drop)]
pub struct ReadPosition<K: HouseName> {
    seen: HistoryToken<K>,
    told: HistoryToken<K>,
    moment: Moment<K>,
}

impl<K: HouseName> Model for ReadPosition<K> {
    ghost use Rattle.urb_show.specs.Additions.{lists_of};
    ghost use Rattle.urb_show.specs.Readers.{ReaderView};
    ghost use Rattle.urb_show.specs.Lists.{Agree};
    ghost use Rattle.urb_show.specs.DeliveredLists.{AreDeliveredBy};
    ghost use Rattle.urb_group.specs.GroupViews.{IsSound};

    ghost Value = { ReaderView };

    ghost view = { λ p. record {
      seen = lists_of K.base p.seen;
      told = lists_of K.base p.told;
      past = p.moment;
    } };

    ghost invariant = { λ p.
        Agree (lists_of K.base p.seen)
        × IsSound K.origin
        × AreDeliveredBy K.origin p.moment (lists_of K.base p.seen) };
}

impl<K: HouseName> ReadPosition<K> {
    /// The position of a session that begins where this reader is.
    pub fn at<A: Allocator>(reader: &LogReader<K, A>) -> ReadPosition<K>
        ensures { result ≡ reader.now }
    {
        reader.recall();
        let (seen, told) = reader.tokens();
        ReadPosition {
            seen,
            told,
            moment: reader.moment().copy(),
        }
    }

    /// Does nothing at run time; it brings the value's invariant into the proof. By the events that
    /// the session knows, the nodes had delivered the lists that its reads took last.
    pub fn recall(&self)
        ensures delivered { AreDeliveredBy K.origin self.now.past self.now.seen }
        ensures origin { IsSound K.origin }
    {
        let _seen = &self.seen;
    }

    /// The same position, for another session.
    pub fn copy(&self) -> ReadPosition<K>
        ensures { result ≡ self.now }
    {
        ReadPosition {
            seen: self.seen.copy(),
            told: self.told.copy(),
            moment: self.moment.copy(),
        }
    }

    /// The latest moment that the session knows.
    pub fn moment(&self) -> &Moment<K>
        ensures { result.now ≡ self.now.past }
    {
        &self.moment
    }

    /// Makes the session know this moment, if it is later than the one that it knows. Its next page
    /// is then of a place of the history behind this moment.
    pub fn learn_moment(&mut self, moment: &Moment<K>)
        ensures same { self.new ≡ record self.old { past = self.new.past } }
        ensures past { LearnsPast moment.now self.old.past self.new.past }
    {
        self.moment.learn(moment);
    }

    /// Reads by a reader that is lent for this one read. It returns the entries of a node from the
    /// place `first` on, at most `max` of them. Places count from 1. If the list is shorter, the
    /// page is empty.
    ///
    /// `NoMemory`: there was no memory for the page; ask again. `Gone`: the house was closed. After
    /// a fault the position is as it was.
    pub fn read<A: Allocator, B: Allocator + Copy>(
        &mut self,
        reader: &mut LogReader<K, A>,
        alloc: B,
        node: NodeId,
        first: u32,
        max: u8,
    ) -> Result<Page<B>, ReadFault>
        requires { (node ≤ length K.base) × (1 ≤ first) }
        // The page comes from lists that agree, and that begin with all that was seen and learnt.
        // It is of what the node had delivered at a place of the history, behind all that the
        // session knew.
        ensures page { IfOk result (λ p.
            Takes K.origin self.old self.new
            × IsPageOf (list_at self.new.seen (node - 1)) first max p) }
        ensures refused { OnErr result (self.new ≡ self.old) }
    {
        reader.learn(Told::new(self.seen.copy(), self.moment.copy()));
        reader.learn(Told::new(self.told.copy(), self.moment.copy()));
        let page = reader.read(alloc, node, first, max)?;
        reader.recall();
        let (seen, _) = reader.tokens();
        self.seen = seen;
        self.moment = reader.moment().copy();
        Ok(page)
    }

    /// Makes this position's reads show no less than this from now on.
    pub fn learn(&mut self, told: Told<K>)
        ensures { Learns told self.old self.new }
    {
        self.told = self.told.longer_of(told.token());
        self.moment.learn(told.moment());
    }

    /// What two sessions saw last belongs to one history, whichever readers they borrowed. So no
    /// page of one contradicts a page of the other. Of the moments that the two know, one is a
    /// prefix of the other. Call this only for proofs, since it does nothing.
    pub fn agrees_with(&self, other: &ReadPosition<K>)
        ensures lists { AreOfOneHistory self.now.seen other.now.seen }
        ensures pasts { IsPrefix self.now.past other.now.past
            ⊎ IsPrefix other.now.past self.now.past }
    {
        let _ = self.seen.longer_of(&other.seen);
        let _ = self.moment.token().longer_of(other.moment.token());
    }
}
