//! The Hub: the lock around the House, and one job done with it.

ghost use Rattle.std.specs.Prelude.{◌≡◌, ◌+◌, ◌<◌, ◌^◌, IfOk, IfErr, IsTrue, OnErr, map, vec_len};
ghost use Rattle.urb_foresight.specs.ForeseenDrafts.{event_of};
ghost use Rattle.urb_group.specs.GroupViews.{Shows};
ghost use Rattle.urb_world.specs.World.{World};
ghost use Rattle.urb_turn.specs.Counting.{count_after, events_in};
ghost use Rattle.urb_turn.specs.Jobs.{runs_at};
ghost use Rattle.urb_turn.specs.KeptTails.{Prepares};
ghost use Rattle.urb_turn.specs.NodeFeeds.{IsFeedOf, IsNextPortion};
ghost use Rattle.urb_turn.specs.NodeStores.{IsStoreSince};
ghost use Rattle.urb_turn.specs.WholeTurns.{Does};
ghost use Rattle.urb_turn.specs.LastLoans.{AllBegin, AllRestSince};

use crate::counting::counted_house::CountedHouse;
use crate::counting::last_loans::LastLoans;
use crate::counting::tally::{HubName, Tally};
use crate::loans::copy_moment;
use crate::{Finished, Job};
use std::alloc::Global;
use std::hint::spin_loop;
use std::sync::ledger::Blank;
use std::sync::{Mutex, MutexGuard, Wait};
use urb_feed::Feed;
use urb_foresight::WaitingCall;
use urb_names::{NoMemory, NodeId, Packet};
use urb_show::{House, HouseName};
use urb_stable::Stable;

/// The least number of records that a store is asked to hold ahead. A record alone is stored as its
/// node drafts it.
pub const LEAST_AHEAD: usize = 2;

/// A worker calls it before its store keeps a draft, and holds no lock meanwhile. Tests use it to
/// delay a store.
pub trait Gate {
    fn before_store(&self, node: NodeId);
}

/// A gate that is always open.
#[derive(Clone, Copy, Debug, Drop)]
pub struct OpenGate;

impl Gate for OpenGate {
    fn before_store(&self, _node: NodeId) {}
}

/// The House, lent to one worker at a time. It isn't `Drop`, because the House isn't: `close` ends
/// it.
pub struct Hub<K: HouseName, L: HubName> {
    tallied: Mutex<CountedHouse<K, L>>,
}

// How many times a worker tries to get the House before it sleeps. Another worker has it for a few
// microseconds at a time, and these tries take about ten. To sleep and be woken takes longer, and
// keeps a processor busy too. A worker doesn't yield between tries: if there are more workers than
// processors, one that yields gets too few turns.
const TRIES: u32 = 300;

impl<K: HouseName, L: HubName> Hub<K, L> {
    // The House, once no other worker has it.
    fn enter<R: Wait>(&self, rt: &R) -> MutexGuard<'_, CountedHouse<K, L>> {
        for _ in 0..TRIES {
            if let Some(tallied) = self.tallied.try_lock() {
                return tallied;
            }
            spin_loop();
        }
        self.tallied.lock(rt)
    }

    /// Makes a Hub of the House, and a tally for each node's worker. If memory is refused, the
    /// House is returned.
    #[tactic(auto, using(crate::proofs::LastLoans::begin_push, crate::proofs::LastLoans::all_rest_at_first, crate::proofs::LastLoans::events_push))]
    pub fn new(
        alloc: Global,
        house: House<K>,
        blank: Blank,
    ) -> Result<(Hub<K, L>, Vec<Tally<K, L>>), (House<K>, NoMemory)>
        requires name { blank.name ≡ L.name }
        requires parts { (blank.parts ≡ L.parts) × (L.parts ≡ house.group.size.n) }
        requires start { house.events ≡ L.start }
        ensures one_each { IfOk result (λ opened. vec_len opened.1 ≡ L.parts) }
        ensures zero { IfOk result (λ opened. events_in opened.1.items ≡ 0) }
        // No worker has had the House yet.
        ensures begin { IfOk result (λ opened. AllBegin opened.1.items house.past) }
        ensures back { IfErr result (λ refused. refused.0 ≡ house) }
    {
        let mut house = house;
        let nodes = house.config().n();
        let end = house.mark();
        let mut tallies = match Vec::with_capacity(alloc, usize::from(nodes)) {
            Ok(tallies) => tallies,
            Err(refused) => return Err((house, NoMemory::from(refused))),
        };
        let last = match LastLoans::new(alloc, usize::from(nodes), &end) {
            Ok(last) => last,
            Err(refused) => return Err((house, NoMemory::from(refused))),
        };
        let (book, mut rest) = blank.open::<L>();
        for _i in 0..nodes {
            tallies.push_reserved(Tally::split_one(&mut rest, copy_moment(&end)));
        }
        let tallied = Mutex::new(CountedHouse::new(house, book, rest, last));
        Ok((Hub { tallied }, tallies))
    }

    /// Does one job at a node's worker, with the node's store. The House is lent only for the job's
    /// two events: the lock is free while the store works. If the job needs nothing from the store,
    /// both events are done at once.
    ///
    /// The clause `turn` says what these events did to the House, and what the store did in
    /// between. If the reply says that a record is stored, this store took it. The store still
    /// matches its node.
    pub fn work<S: Stable<Alloc = Global>, G: Gate, R: Wait>(
        &self,
        rt: &R,
        alloc: Global,
        node: NodeId,
        job: Job,
        store: &mut S,
        gate: &G,
        tally: Tally<K, L>,
    ) -> (Finished<K>, Tally<K, L>)
        ensures job { result.0.job ≡ job }
        ensures ran { result.0.ran ≡ runs_at node job }
        ensures tally { result.1.events ≡ tally.events + result.0.events }
        // What the turn did to the House and to the store: nothing if the job doesn't run here.
        ensures turn { Does S.Stable K.origin node (runs_at node job) job store.old store.new
            result.0 }
        // Since the last loan, nothing happened to the node but that it may have crashed. So if the
        // store matched the node then, it matches the node after all events until this turn's end.
        ensures keeps { (start : World) → Shows K.origin start
            → IsStoreSince S.Stable start tally.last node store.old
            → IsStoreSince S.Stable start result.1.last node store.new }
    {
        if !job.runs_at(node) {
            return (Finished::misrouted(job), tally);
        }
        let mut tally = tally;
        let mut tallied = self.enter(rt);
        let turn = tallied.begin(alloc, node, job, &mut tally);
        if turn.is_stored() {
            let done = tallied.finish(rt, alloc, node, turn, &mut tally);
            MutexGuard::unlock(tallied);
            return (done, tally);
        }
        MutexGuard::unlock(tallied);
        if turn.is_drafted() {
            gate.before_store(node);
        }
        let turn = turn.store(alloc, store);
        let mut tallied = self.enter(rt);
        let finished = tallied.finish(rt, alloc, node, turn, &mut tally);
        MutexGuard::unlock(tallied);
        (finished, tally)
    }

    /// Foresees what these calls will draft at a node (`foresee_calls`), and has its store hold those
    /// records ahead. Then one sync serves them all. If they are fewer than `LEAST_AHEAD`, the store
    /// isn't asked. It takes the lock once, and the lock is free while the store works.
    ///
    /// Whatever the store answers, it still matches its node. If the storage failed, the node
    /// doesn't know of it: its next turn that drafts a record takes it down. So does a draft that
    /// differs from what was foreseen. Do the calls next, in this order, and nothing else at the
    /// node between them.
    ///
    /// If memory was refused, it returns the refusal, and foresaw no further call. The store holds
    /// what was foreseen before.
    pub fn keep_ahead<S: Stable<Alloc = Global>, G: Gate, R: Wait>(
        &self,
        rt: &R,
        alloc: Global,
        node: NodeId,
        calls: &[WaitingCall<'_>],
        store: &mut S,
        gate: &G,
        tally: Tally<K, L>,
    ) -> (Tally<K, L>, Option<NoMemory>)
        // It counts no event.
        ensures events { result.0.events ≡ tally.events }
        // The store is asked once to hold just what is foreseen of the calls, or it stays as it was.
        ensures prepares { Prepares S.Stable K.origin node (map (event_of node) calls.now) result.1
            store.old store.new }
        // If the store matched the node at the end of the last loan, it matches the node after all
        // events until this one.
        ensures keeps { (start : World) → Shows K.origin start
            → IsStoreSince S.Stable start tally.last node store.old
            → IsStoreSince S.Stable start result.0.last node store.new }
    {
        let mut tally = tally;
        let mut tallied = self.enter(rt);
        let (mut records, refused) = tallied.foresee(alloc, node, calls);
        if records.len() < LEAST_AHEAD {
            MutexGuard::unlock(tallied);
            return (tally, refused);
        }
        tallied.look(node, &mut tally);
        MutexGuard::unlock(tallied);
        gate.before_store(node);
        let _answer = store.store_ahead(&mut records);
        (tally, refused)
    }

    /// A feed of a node, of the group as it is now. It takes the lock once.
    #[tactic(auto, using(crate::proofs::LentFeeds::lends_feed))]
    pub fn begin_feed<R: Wait>(&self, rt: &R, node: NodeId) -> Feed
        ensures { IsFeedOf K.origin node result }
    {
        let tallied = self.enter(rt);
        let feed = tallied.begin_feed(node);
        MutexGuard::unlock(tallied);
        feed
    }

    /// The next packets of a feed, of the group as it is now. It takes the lock once, and changes
    /// nothing but the feed. `NoMemory`: the feed is as before.
    #[tactic(auto, using(crate::proofs::LentFeeds::lends_portion))]
    pub fn next_portion<R: Wait>(
        &self,
        rt: &R,
        alloc: Global,
        feed: &mut Feed,
    ) -> Result<Vec<Packet>, NoMemory>
        ensures ok { IfOk result
            (λ packets. IsNextPortion K.origin feed.old feed.new packets.items) }
        ensures err { OnErr result (feed.new ≡ feed.old) }
    {
        let tallied = self.enter(rt);
        let made = tallied.next_portion(alloc, feed);
        MutexGuard::unlock(tallied);
        match made {
            Ok(packets) => Ok(packets),
            Err(refused) => Err(refused),
        }
    }

    /// The House, once all workers have ended. It has counted the events that the tallies report,
    /// up to its greatest count. The tallies come in the order of the nodes. The second result says
    /// whether the end of each worker's last loan is known, which it is in each run.
    pub fn close(self, tallies: Vec<Tally<K, L>>) -> (House<K>, bool)
        requires { vec_len tallies ≡ L.parts }
        ensures counted { result.0.events ≡ count_after (events_in tallies.items) L.start }
        ensures sum { L.start + events_in tallies.items < 2 ^ 64
            → result.0.events ≡ L.start + events_in tallies.items }
        ensures rested { IsTrue result.1 → AllRestSince 1 tallies.items result.0.past }
    {
        let Hub { tallied } = self;
        tallied.into_inner().close(tallies)
    }
}
