//! The value under a Hub's lock: the House, with the book of its events and the last loans.

ghost use Rattle.std.specs.Prelude.{◌≡◌, ◌+◌, ◌-◌, ◌<◌, ◌≤◌, [], IfOk, IfSome, IsTrue, OnErr, None};
ghost use Rattle.std.specs.Prelude.{if◌then◌else◌, length, List, map, slice_set, true, vec_len};
ghost use Rattle.urb_foresight.specs.ForeseenDrafts.{ForeseesCalls, event_of};
ghost use Rattle.urb_feed.specs.Feeds.{IsPortion};
ghost use Rattle.urb_group.specs.GroupViews.{IsSound};
ghost use Rattle.urb_world.specs.RecoveryPlans.{after};
ghost use Rattle.urb_group.specs.StoreContents.{WouldLeave};
ghost use Rattle.urb_world.specs.World.{World};
ghost use Rattle.urb_show.specs.Pasts.{IsLedTo};
ghost use Rattle.urb_turn.specs.Counting.{count_after, events_in};
ghost use Rattle.urb_turn.specs.Jobs.{runs_at};
ghost use Rattle.urb_turn.specs.Loans.{AreLoans, IsLoan};
ghost use Rattle.urb_turn.specs.NodeFeeds.{BeginsFeed};
ghost use Rattle.urb_turn.specs.Stages.{is_stored};
ghost use Rattle.urb_turn.specs.Turns.{Begins, Finishes};
ghost use Rattle.urb_turn.specs.KeptTails.{MayHold};
ghost use Rattle.urb_turn.specs.LastLoans.{AllRestSince};
ghost use Rattle.urb_turn.specs.internal.CountedHouses.{AreLeftSince};
ghost use Rattle.urb_turn.specs.internal.LoanEnds.{AllRest, IsNextLoan};

use crate::counting::last_loans::LastLoans;
use crate::counting::tally::{HubName, Tally};
use crate::loans::copy_moment;
use crate::{Finished, Job, Turn};
use std::alloc::Global;
use std::marker::Model;
use std::sync::Wait;
use std::sync::ledger::{Book, Share};
use urb_feed::Feed;
use urb_foresight::{WaitingCall, foresee_calls};
use urb_names::{Message, NoMemory, NodeId, Packet};
use urb_show::{House, HouseName, Moment};
use urb_stable::{Record, Stable, recall_records};

// The House, the total of all tallies, and the share that is left when each worker has its part.
// The House's count of events is the count with which the Hub began, plus the total. Each node has
// rested since its worker's last loan.
pub(crate) struct CountedHouse<K: HouseName, L: HubName> {
    house: House<K>,
    book: Book<L>,
    rest: Share<L>,
    last: LastLoans<K>,
    ghost counted: { house.events ≡ count_after book.total L.start },
    ghost spent: { rest.parts ≡ 0 },
}

impl<K: HouseName, L: HubName> Model for CountedHouse<K, L> {
    ghost use Rattle.urb_turn.specs.internal.LoanEnds.{AllRest};
    ghost use Rattle.urb_turn.specs.internal.CountedHouses.{CountedView};

    ghost Value = { CountedView };

    ghost view = { λ c. record { house = c.house; last = c.last } };

    ghost invariant = { λ c. AllRest c.last c.house.past };
}

// The place of a node, which counts from 0.
fn place_of(node: NodeId) -> usize
    ensures { result + 1 ≡ node }
{
    usize::from(node.number() - 1)
}

// Takes note of the end of a loan to the worker of a node. If the end of its last loan was not known,
// the worker doesn't get to know this one.
fn end_loan<K: HouseName, L: HubName>(
    last: &mut LastLoans<K>,
    node: NodeId,
    tally: &mut Tally<K, L>,
    is_known: bool,
    end: Option<Moment<K>>,
)
    ensures last { last.new ≡ slice_set last.old (node - 1) end }
    ensures tally { tally.new ≡ record {
      events = tally.old.events;
      last = if is_known then end else None;
    } }
{
    last.note(place_of(node), copy_moment(&end));
    tally.end_loan(if is_known { end } else { None });
}

impl<K: HouseName, L: HubName> CountedHouse<K, L> {
    // The House, once each part of the ledger is in a tally.
    pub(crate) fn new(
        house: House<K>,
        book: Book<L>,
        rest: Share<L>,
        last: LastLoans<K>,
    ) -> CountedHouse<K, L>
        requires start { house.events ≡ L.start }
        requires total { book.total ≡ 0 }
        requires spent { rest.parts ≡ 0 }
        requires rested { AllRest last house.past }
    {
        CountedHouse {
            house,
            book,
            rest,
            last,
        }
    }

    // The process may be killed whenever the lock is free, and so in the middle of a store's work. The
    // past of the House has led to its group. In each store the kill leaves what it may leave of the
    // node after the whole past, because the node has rested since its worker's last loan. This does
    // nothing; it is for proofs only.
    pub(crate) fn recall_kill<S: Stable<Alloc = Global>>(&self)
        ensures sound { IsSound self.now.house.group }
        ensures leads { IsLedTo K.origin self.now.house.past self.now.house.group }
        ensures left { (start : World) (stores : List S)
            → AreLeftSince S.Stable start self.now.last stores
            → WouldLeave S.Stable (after start self.now.house.past) stores }
    {
        self.house.recall();
    }

    // Begins a turn at the worker of a node, and counts its event.
    #[tactic(auto, using(crate::proofs::EventCounts::count_sum, crate::proofs::LastLoans::begins_on, crate::proofs::LastLoans::begun_end, crate::proofs::LastLoans::is_next_loan))]
    pub(crate) fn begin(
        &mut self,
        alloc: Global,
        node: NodeId,
        job: Job,
        tally: &mut Tally<K, L>,
    ) -> Turn<K>
        requires { runs_at node job ≡ true }
        ensures step { Begins self.old.house job self.new.house result.stage result.events }
        ensures leads { IsLedTo K.origin self.old.house.past self.old.house.group }
        ensures loan { IfSome result.loan (λ l. IsLoan self.old.house self.new.house l) }
        ensures job { result.job ≡ job }
        ensures tally { tally.new.events ≡ tally.old.events + result.events }
        ensures last { IsNextLoan node tally.old.last self.old.house.past self.new.house.past
            tally.new.last }
    {
        let CountedHouse {
            house,
            book,
            rest: _,
            last,
        } = self;
        let is_known = last.has_ended_at(place_of(node), tally.last());
        let turn = Turn::begin(alloc, house, job);
        tally.count(book, turn.events());
        end_loan(last, node, tally, is_known, turn.end_of_loan());
        turn
    }

    // Foresees what these calls will draft at a node. If that is any records, its store may hold
    // them ahead.
    pub(crate) fn foresee(
        &self,
        alloc: Global,
        node: NodeId,
        calls: &[WaitingCall<'_>],
    ) -> (Vec<Record<Message>>, Option<NoMemory>)
        ensures sound { IsSound self.now.house.group }
        ensures leads { IsLedTo K.origin self.now.house.past self.now.house.group }
        ensures foreseen { ForeseesCalls self.now.house.group node (map (event_of node) calls.now)
            [] result.0.items result.1 }
        ensures may { 0 < length result.0.items
            → MayHold self.now.house.group node result.0.items }
    {
        self.house.recall();
        let (foresight, refused) = foresee_calls(self.house.group(), alloc, node, calls);
        let records = foresight.into_records();
        recall_records(&records);
        (records, refused)
    }

    // A loan to the worker of a node, without an event.
    #[tactic(auto, using(crate::proofs::LastLoans::looked_on, crate::proofs::LastLoans::is_next_loan))]
    pub(crate) fn look(&mut self, node: NodeId, tally: &mut Tally<K, L>)
        ensures same { self.new.house ≡ self.old.house }
        ensures tally { tally.new.events ≡ tally.old.events }
        ensures last { IsNextLoan node tally.old.last self.old.house.past self.old.house.past
            tally.new.last }
    {
        let CountedHouse {
            house,
            book: _,
            rest: _,
            last,
        } = self;
        house.recall();
        let is_known = last.has_ended_at(place_of(node), tally.last());
        let end = house.mark();
        end_loan(last, node, tally, is_known, end);
    }

    // Finishes a turn at the worker of a node, and counts its event.
    #[tactic(auto, using(crate::proofs::EventCounts::count_sum, crate::proofs::LastLoans::finishes_on, crate::proofs::LastLoans::finished_end, crate::proofs::LastLoans::is_next_loan))]
    pub(crate) fn finish<R: Wait>(
        &mut self,
        rt: &R,
        alloc: Global,
        node: NodeId,
        turn: Turn<K>,
        tally: &mut Tally<K, L>,
    ) -> Finished<K>
        requires stored { is_stored turn.stage ≡ true }
        requires runs { runs_at node turn.job ≡ true }
        ensures step { Finishes self.old.house turn self.new.house result }
        ensures leads { IsLedTo K.origin self.old.house.past self.old.house.group }
        ensures loans { IfSome result.loans
            (λ l. AreLoans turn.loan self.old.house self.new.house l) }
        ensures sound { IsSound self.new.house.group }
        ensures job { result.job ≡ turn.job }
        ensures ran { result.ran ≡ true }
        ensures tally { tally.new.events + turn.events ≡ tally.old.events + result.events }
        ensures last { IsNextLoan node tally.old.last self.old.house.past self.new.house.past
            tally.new.last }
    {
        let CountedHouse {
            house,
            book,
            rest: _,
            last,
        } = self;
        let is_known = last.has_ended_at(place_of(node), tally.last());
        let before = turn.events();
        let finished = turn.finish(rt, alloc, house);
        tally.count(book, finished.events() - before);
        end_loan(last, node, tally, is_known, finished.end());
        // Does nothing at run time; it brings the house's invariant into the proof.
        house.recall();
        finished
    }

    // A feed of a node, of the group as it is now.
    #[tactic(auto, using(crate::proofs::LentFeeds::begins_feed))]
    pub(crate) fn begin_feed(&self, node: NodeId) -> Feed
        ensures leads { IsLedTo K.origin self.now.house.past self.now.house.group }
        ensures begins { BeginsFeed self.now.house.group node result }
    {
        self.house.recall();
        Feed::begin(self.house.group(), node)
    }

    // The next packets of a feed, of the group as it is now.
    pub(crate) fn next_portion(
        &self,
        alloc: Global,
        feed: &mut Feed,
    ) -> Result<Vec<Packet>, NoMemory>
        ensures leads { IsLedTo K.origin self.now.house.past self.now.house.group }
        ensures sound { IsSound self.now.house.group }
        ensures ok { IfOk result
            (λ packets. IsPortion self.now.house.group feed.old feed.new packets.items) }
        ensures err { OnErr result (feed.new ≡ feed.old) }
    {
        self.house.recall();
        feed.next_portion(alloc, self.house.group())
    }

    // The House, once all tallies are back, and whether the end of each worker's last loan is known.
    #[tactic(auto, using(crate::proofs::LastLoans::known_push, crate::proofs::LastLoans::events_push))]
    pub(crate) fn close(self, tallies: Vec<Tally<K, L>>) -> (House<K>, bool)
        requires { vec_len tallies ≡ L.parts }
        ensures counted { result.0.events ≡ count_after (events_in tallies.items) L.start }
        ensures same { result.0 ≡ self.house }
        ensures rested { IsTrue result.1 → AllRestSince 1 tallies.items result.0.past }
    {
        let CountedHouse {
            house,
            mut book,
            rest,
            last,
        } = self;
        let mut all = rest;
        book.audit(&mut all);
        let mut place = 0;
        let mut is_known = true;
        for tally in tallies {
            let end = tally.last();
            is_known = is_known & last.has_ended_at(place, end);
            all.merge(tally.into_share());
            place += 1;
        }
        book.audit(&mut all);
        (house, is_known)
    }
}
