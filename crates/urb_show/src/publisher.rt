//! The publisher: the writing end of the published logs.
//!
//! It knows what was added to the history, what the writer has of it, and what is published.
ghost use Rattle.std.specs.Prelude.{◌≡◌, [], ◌∷◌, ◌++◌, length, drop, MatchResult};
ghost use mathlib.Core.List.{IsPrefix};
ghost use Rattle.urb_show.specs.Lists.{Agree};
ghost use Rattle.urb_show.specs.Additions.{lists_of};
ghost use Rattle.urb_show.specs.internal.History.{AddsNothing, issue_of};
ghost use Rattle.urb_group.specs.GroupViews.{IsSound};
ghost use Rattle.urb_show.specs.DeliveredLists.{AreDeliveredBy};

use crate::entry::Addition;
use crate::history::rule::{Grows, Sees};
use crate::history::tokens::{Add, Book, HistoryToken, HouseName, OfAdditions};
use crate::moment::Moment;
use crate::published_lists::{Operation, PublishedLists};
use crate::reader::Told;
use left_right::writer::Writer;
use std::alloc::{AllocError, Allocator, Global};
use std::marker::Model;
use std::mem::replace;
use std::sync::Wait;
use urb_group::NoMemory;

pub(crate) type LogWriter<K, A = Global> = Writer<PublishedLists, Operation, u64, Grows<K>, A>;

/// Contracts see four histories, each a prefix of the one before. They are the longest one that the
/// book was seen to have, and all additions of this publisher. Then the additions that the writer
/// has, and the published ones.
pub(crate) struct Publisher<K: HouseName, A: Allocator = Global> {
    book: Book<Addition, OfAdditions<K>>,
    known: HistoryToken<K>,
    all: HistoryToken<K>,
    queued: HistoryToken<K>,
    shown: HistoryToken<K>,
    // The last addition, if the writer had no room for it.
    kept: Option<Operation>,
    writer: Option<LogWriter<K, A>>,
}

impl<K: HouseName, A: Allocator> Model for Publisher<K, A> {
    ghost use Rattle.std.specs.Prelude.{◌≡◌, [], ◌∷◌, ◌++◌, drop, fold};
    ghost use Rattle.std.specs.Option.{IsSomeAnd, MatchOption};
    ghost use mathlib.Core.List.{IsPrefix};
    ghost use Rattle.urb_show.specs.Additions.{lists_of};
    ghost use Rattle.urb_show.specs.internal.History.{PublisherView, issue_of};
    ghost use Rattle.urb_show.specs.internal.Operations.{state_of, applied_to};
    ghost use Rattle.urb_show.specs.internal.PublishingRule.{AreTimely};
    ghost use Rattle.urb_group.specs.GroupViews.{IsSound};
    ghost use Rattle.urb_show.specs.Lists.{Agree};

    ghost Value = { PublisherView };

    ghost view = { λ p.
        record { known = p.known; all = p.all; queued = p.queued; shown = p.shown } };

    ghost invariant = { λ p.
        IsPrefix p.shown p.queued
        × Agree (lists_of K.base p.all)
        × MatchOption p.kept (p.all ≡ p.queued) (λ op.
        (p.all ≡ p.queued ++ op.addition ∷ []) × (op.mark ≡ record { book = K.book; log = p.all }))
        × IsSomeAnd p.writer (λ w.
        (w.desk.shown.value ≡ issue_of K.book K.history K.base p.shown)
        × (fold applied_to (state_of (issue_of K.book K.history K.base p.shown))
        (drop w.behind w.log.items)
        ≡ state_of (issue_of K.book K.history K.base p.queued)))
        × IsPrefix p.all p.known
        × IsSound K.origin
        × AreTimely (record
        { book = K.book; history = K.history; origin = K.origin; base = K.base }) p.all };
}

/// The refusal of a history that takes nothing more.
pub(crate) fn history_is_full() -> NoMemory {
    NoMemory::from(AllocError)
}

impl<K: HouseName, A: Allocator> Publisher<K, A> {
    pub(crate) fn new(
        book: Book<Addition, OfAdditions<K>>,
        token: HistoryToken<K>,
        writer: LogWriter<K, A>,
    ) -> Publisher<K, A>
        requires empty { token ≡ [] }
        requires agree { Agree K.base }
        requires sound { IsSound K.origin }
        requires delivered { AreDeliveredBy K.origin [] K.base }
        requires writer { (writer.desk.shown.value ≡ issue_of K.book K.history K.base [])
            × (drop writer.behind writer.log.items ≡ []) }
        ensures { result ≡ record { known = []; all = []; queued = []; shown = [] } }
    {
        let known = token.copy();
        let queued = token.copy();
        let shown = token.copy();
        Publisher {
            book,
            known,
            all: token,
            queued,
            shown,
            kept: None,
            writer: Some(writer),
        }
    }

    /// Adds to the history. The writer gets the addition by `flush`. This call asks for no memory
    /// itself.
    ///
    /// `NoMemory`: the history is full, or the book has an addition that isn't this publisher's.
    pub(crate) fn add(&mut self, addition: Addition) -> Result<(), NoMemory>
        requires flushed { self.old.queued ≡ self.old.all }
        requires agree { Agree (lists_of K.base (self.old.all ++ addition ∷ [])) }
        requires named { addition.events.book ≡ K.history }
        // the nodes had delivered the lists by the events that come with the addition
        requires delivered { AreDeliveredBy K.origin addition.events.log
            (lists_of K.base (self.old.all ++ addition ∷ [])) }
        ensures { MatchResult result
            (λ _. self.new ≡ record self.old {
              known = self.old.all ++ addition ∷ [];
              all = self.old.all ++ addition ∷ [];
            })
            (λ _. AddsNothing self.old self.new) }
    {
        let mut all = self.all.copy();
        let added = all.add::<Addition, Add>(&self.book, &addition);
        self.known = all.copy();
        if !added {
            return Err(history_is_full());
        }
        self.kept = Some(Operation {
            addition,
            mark: all.mark(),
        });
        self.all = all;
        Ok(())
    }

    /// The number of published additions.
    pub(crate) fn len(&self) -> u64
        ensures length { result ≡ length self.now.shown }
        ensures begins { IsPrefix self.now.shown self.now.all }
    {
        let _ = &self.kept;
        self.shown.len()
    }

    /// Gives the writer what it lacks.
    pub(crate) fn flush(&mut self) -> Result<(), NoMemory>
        ensures { MatchResult result
            (λ _. self.new ≡ record self.old { queued = self.old.all }) (λ _. self.new ≡ self.old) }
    {
        let Some(operation) = self.kept.take() else {
            return Ok(());
        };
        let Some(writer) = &mut self.writer else {
            unreachable!()
        };
        match writer.append(operation) {
            Ok(()) => {
                self.queued = self.all.copy();
                Ok(())
            }
            Err(operation) => {
                self.kept = Some(operation);
                Err(NoMemory::from(AllocError))
            }
        }
    }

    /// Publishes all that was added, and gives a token for it, with this moment. It waits for
    /// readers that still have the older copy.
    pub(crate) fn publish<R: Wait>(
        &mut self,
        rt: &R,
        moment: Moment<K>,
    ) -> Result<Told<K>, NoMemory>
        requires flushed { self.old.queued ≡ self.old.all }
        ensures { MatchResult result
            (λ told. (self.new ≡ record self.old { shown = self.old.all })
            × (told ≡ record { lists = lists_of K.base self.old.all; past = moment }))
            (λ _. self.new ≡ self.old) }
    {
        let Some(writer) = self.writer.take() else {
            unreachable!()
        };
        let (writer, done) = writer.publish_as::<Sees<K>, R>(rt);
        match replace(&mut self.writer, Some(writer)) {
            None => {}
            Some(_other) => unreachable!(),
        }
        match done {
            Ok(()) => {
                self.shown = self.all.copy();
                Ok(Told::new(self.all.copy(), moment))
            }
            Err(refused) => Err(NoMemory::from(refused)),
        }
    }

    /// Ends the publisher. It waits for the readers.
    pub(crate) fn close<R: Wait>(self, rt: &R) {
        let Publisher {
            book: _,
            known: _,
            all: _,
            queued: _,
            shown: _,
            kept: _,
            writer,
        } = self;
        let Some(writer) = writer else { unreachable!() };
        drop(writer.take(rt));
    }
}
