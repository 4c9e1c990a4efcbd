//! Readers of the published logs. They wait for nobody.
ghost use Rattle.std.specs.Prelude.{◌≡◌, ◌≤◌, ◌-◌, ◌⊎◌, [], IfOk, IfErr, length};
ghost use Rattle.urb_group.specs.GroupViews.{IsSound};
ghost use Rattle.urb_show.specs.DeliveredLists.{AreDeliveredBy};
ghost use Rattle.urb_show.specs.Readers.{AreOfOneHistory, Learns, Takes};
ghost use Rattle.urb_show.specs.Lists.{Agree, list_at};
ghost use Rattle.urb_show.specs.Pages.{IsPageOf};
ghost use Rattle.urb_show.specs.ReadFaults.{Leaves};
ghost use Rattle.urb_show.specs.Additions.{lists_of};
ghost use mathlib.Core.List.{IsPrefix};

use crate::entry::Page;
use crate::history::rule::{Grows, Sees};
use crate::history::tokens::{HistoryToken, HouseName, OfAdditions, OfEvents};
use crate::moment::Moment;
use crate::published_lists::PublishedLists;
use left_right::reader::Reader;
use std::alloc::{Allocator, Global};
use std::marker::Model;
use urb_group::{NoMemory, NodeId};

/// Why a read returned no page.
#[derive(Clone, Copy, Debug, PartialEq, Eq)]
pub enum ReadFault {
    /// There was no memory for the page. Ask again.
    NoMemory(NoMemory),
    /// The house was closed: no later read returns a page.
    Gone,
}

/// Reads the published lists of all nodes, on any thread, and waits for nobody. Between two reads
/// it holds none of the lists.
///
/// Contracts see the lists that it took last, and the longest that it learnt. So any two pages of
/// one reader, of any nodes and moments, agree for each sender. Contracts also see all events until
/// the latest moment that the reader knows. By then the nodes had delivered the lists that it took.
#[derive(Drop)]
pub struct LogReader<K: HouseName, A: Allocator = Global> {
    reader: Option<Reader<PublishedLists, u64, Grows<K>, A>>,
    seen: HistoryToken<K>,
    told: HistoryToken<K>,
    // The latest moment that it knows.
    moment: Moment<K>,
}

impl<K: HouseName, A: Allocator> Model for LogReader<K, A> {
    ghost use Rattle.std.specs.Prelude.{◌≤◌, length};
    ghost use Rattle.std.specs.Option.{IsSomeAnd};
    ghost use Rattle.urb_show.specs.Additions.{lists_of};
    ghost use Rattle.urb_show.specs.Readers.{ReaderView};
    ghost use Rattle.urb_show.specs.Lists.{Agree};
    ghost use Rattle.urb_show.specs.DeliveredLists.{AreDeliveredBy};
    ghost use Rattle.urb_group.specs.GroupViews.{IsSound};

    ghost Value = { ReaderView };

    ghost view = { λ r. record {
      seen = lists_of K.base r.seen;
      told = lists_of K.base r.told;
      past = r.moment;
    } };

    ghost invariant = { λ r.
        IsSomeAnd r.reader (λ it. length r.seen ≤ it.place.me.0.client)
        × Agree (lists_of K.base r.seen)
        × IsSound K.origin
        × AreDeliveredBy K.origin r.moment (lists_of K.base r.seen) };
}

/// A token which says that lists were published: all lists of one moment. A reader that learns it
/// reads no less from then on, and knows the moment. The token holds no list, so it is small and
/// can go through a channel. Contracts see the lists, and all events until the moment.
#[derive(Drop)]
pub struct Told<K: HouseName> {
    token: HistoryToken<K>,
    moment: Moment<K>,
}

impl<K: HouseName> Model for Told<K> {
    ghost use Rattle.urb_show.specs.Additions.{lists_of};
    ghost use Rattle.urb_show.specs.Readers.{ToldView};

    ghost Value = { ToldView };

    ghost view = { λ t. record { lists = lists_of K.base t.token; past = t.moment } };
}

impl<K: HouseName> Told<K> {
    pub(crate) fn new(token: HistoryToken<K>, moment: Moment<K>) -> Told<K>
        ensures { result ≡ record { lists = lists_of K.base token; past = moment } }
    {
        Told { token, moment }
    }

    pub(crate) fn token(&self) -> &HistoryToken<K>
        ensures { self.now.lists ≡ lists_of K.base result.now }
    {
        &self.token
    }

    /// The moment that the token knows. If the token came from `House::settle`, it is the moment at
    /// which these lists were published.
    pub fn moment(&self) -> &Moment<K>
        ensures { result.now ≡ self.now.past }
    {
        &self.moment
    }
}

impl<K: HouseName, A: Allocator> LogReader<K, A> {
    pub(crate) fn new(
        reader: Reader<PublishedLists, u64, Grows<K>, A>,
        token: HistoryToken<K>,
        moment: Moment<K>,
    ) -> LogReader<K, A>
        requires empty { token ≡ [] }
        requires agree { Agree K.base }
        requires sound { IsSound K.origin }
        requires delivered { AreDeliveredBy K.origin moment K.base }
        ensures { result ≡ record { seen = K.base; told = K.base; past = moment } }
    {
        let told = token.copy();
        LogReader {
            reader: Some(reader),
            seen: token,
            told,
            moment,
        }
    }

    /// Does nothing at run time; it brings the value's invariant into the proof. By the events that
    /// the reader knows, the nodes had delivered the lists that it took last.
    pub fn recall(&self)
        ensures agree { Agree self.now.seen }
        ensures delivered { AreDeliveredBy K.origin self.now.past self.now.seen }
        ensures origin { IsSound K.origin }
    {
        let _seen = &self.seen;
    }

    /// Takes the published lists of one moment, and returns the entries of a node from the place
    /// `first` on, at most `max` of them. Places count from 1. If the list is shorter, the page is
    /// empty.
    ///
    /// `NoMemory`: there was no memory for the page; ask again. `Gone`: the house was closed.
    pub fn read<B: Allocator + Copy>(
        &mut self,
        alloc: B,
        node: NodeId,
        first: u32,
        max: u8,
    ) -> Result<Page<B>, ReadFault>
        requires { (node ≤ length K.base) × (1 ≤ first) }
        // The page comes from lists that agree, and that begin with all that was seen and learnt.
        // It is of what the node had delivered at a place of the history, behind all that the
        // reader knew.
        ensures page { IfOk result (λ p.
            Takes K.origin self.old self.new
            × IsPageOf (list_at self.new.seen (node - 1)) first max p) }
        // what a fault leaves
        ensures refused { IfErr result (λ fault. Leaves K.origin fault self.old self.new) }
    {
        let Some(reader) = self.reader.take() else {
            unreachable!()
        };
        let reading = match reader.enter_as::<Sees<K>>() {
            Ok(reading) => reading,
            Err(reader) => {
                self.reader = Some(reader);
                return Err(ReadFault::Gone);
            }
        };
        let published = reading.get();
        let token = published
            .mark()
            .token::<OfAdditions<K>>()
            .copy_after(&self.seen);
        if token.len() < self.told.len() {
            self.reader = Some(reading.leave());
            return Err(ReadFault::Gone);
        }
        let token = token.copy_after(&self.told);
        let mut moment = Moment::new(published.events().token::<OfEvents<K>>());
        moment.learn(&self.moment);
        let page = published.page(alloc, usize::from(node.number() - 1), first, max);
        self.reader = Some(reading.leave());
        self.seen = token;
        self.moment = moment;
        match page {
            Ok(page) => Ok(page),
            Err(refused) => Err(ReadFault::NoMemory(refused)),
        }
    }

    /// What two readers of one house saw last belongs to one history. So no page of one contradicts
    /// a page of the other. A reader's earlier pages come from lists that are prefixes of those
    /// that it saw last. Of the moments that the two know, one is a prefix of the other. Call this
    /// only for proofs, since it does nothing.
    pub fn agrees_with(&self, other: &LogReader<K, A>)
        ensures lists { AreOfOneHistory self.now.seen other.now.seen }
        ensures pasts { IsPrefix self.now.past other.now.past
            ⊎ IsPrefix other.now.past self.now.past }
    {
        let _ = self.seen.longer_of(&other.seen);
        let _ = self.moment.token().longer_of(other.moment.token());
    }

    /// The lists that this reader saw last, as a token for another reader. A reader that learns it
    /// then reads no less. So it can be shown that two readers agree even if no function can borrow
    /// both.
    pub fn seen_token(&self) -> Told<K>
        ensures { result ≡ record { lists = self.now.seen; past = self.now.past } }
    {
        Told::new(self.seen.copy(), self.moment.copy())
    }

    /// The latest moment that this reader knows. It is behind all events that made the lists it saw
    /// last.
    pub fn moment(&self) -> &Moment<K>
        ensures { result.now ≡ self.now.past }
    {
        &self.moment
    }

    /// The histories of the lists that this reader saw last, and of the longest that it learnt.
    pub(crate) fn tokens(&self) -> (HistoryToken<K>, HistoryToken<K>)
        ensures seen { self.now.seen ≡ lists_of K.base result.0 }
        ensures told { self.now.told ≡ lists_of K.base result.1 }
        ensures agree { Agree (lists_of K.base result.0) }
    {
        (self.seen.copy(), self.told.copy())
    }

    /// Makes this reader read no less than this from now on.
    pub fn learn(&mut self, told: Told<K>)
        ensures { Learns told self.old self.new }
    {
        self.told = self.told.longer_of(&told.token);
        self.moment.learn(&told.moment);
    }
}
