//! A node's worker: its tickets, one after the other.

ghost use Rattle.std.specs.Prelude.{MatchOption, true};
ghost use Rattle.urb_group.specs.GroupViews.{Shows};
ghost use Rattle.urb_world.specs.World.{World};
ghost use Rattle.urb_worker.specs.internal.OwnJobs.{DoesBoth, Learns, LearnsAll, LearnsBatch};
ghost use Rattle.urb_worker.specs.internal.OwnJobs.{MayDoOwn};
ghost use Rattle.urb_turn.specs.NodeStores.{IsStoreSince};
ghost use Rattle.urb_worker.specs.ServedStores.{DoesBatch, HasServed, Works};
ghost use Rattle.urb_worker.specs.internal.ServedStores.{MayWork, each};

use crate::WorkerSetting;
use crate::job_results::{give_answer, is_record_stored, report_change, send_reply};
use crate::outlets::WorkerOutlets;
use crate::own_jobs::OwnJobs;
use crate::ticket_batch::{BatchEnd, BatchHopes, keep_ahead, take_waiting};
use crate::tickets::{Closed, next_ticket};
use crossbeam_channel::Receiver;
use std::alloc::Global;
use std::sync::Wait;
use std::time::Clock;
use urb_link::{Link, Ticket};
use urb_names::{NoMemory, NodeId};
use urb_show::HouseName;
use urb_stable::Stable;
use urb_turn::{Gate, Hub, HubName, Job, Reporter, Settling, Silent, Tally};

// What a worker keeps between two jobs: how often it still polls, how many tickets its last batch
// had, a buffer for packets, and its own jobs.
#[derive(Drop)]
struct LoopState {
    polls: u32,
    batch: usize,
    buffer: Vec<u8>,
    own: OwnJobs,
}

/// Does the jobs of one node, until its channel closes. For each ticket it does the job, sends the
/// packets, answers, and rings the node's bell if it has published entries. It holds nothing while
/// it sends, answers and rings. An answer that can't be sent is lost.
pub fn serve<
    K: HouseName,
    L: HubName,
    S: Stable<Alloc = Global> + Drop,
    N: Link,
    G: Gate,
    R: Wait + Clock,
>(
    rt: &R,
    alloc: Global,
    hub: &Hub<K, L>,
    node: NodeId,
    store: S,
    jobs: Receiver<Ticket<K>>,
    link: &N,
    gate: &G,
    tally: Tally<K, L>,
) -> Tally<K, L> {
    let mut store = store;
    let reporter = Silent;
    let setting = WorkerSetting::new(rt, alloc, hub, link, gate, &reporter);
    let mut outlets = setting.outlets_for_worker();
    let (tally, _) = serve_from(&setting, node, &mut store, &mut outlets, &jobs, tally);
    tally
}

// Does the job of a ticket, or one of the worker's own: sends the packets, answers, and rings the
// node's bell if it has published entries. Reports a node that went down or came back.
#[tactic(auto, using(crate::proofs::ServedStores::works, crate::proofs::NodeFeeds::learns))]
fn do_ticket<
    K: HouseName,
    L: HubName,
    S: Stable<Alloc = Global>,
    N: Link,
    G: Gate,
    H: Reporter,
    R: Wait + Clock,
>(
    setting: &WorkerSetting<'_, K, L, N, G, H, R>,
    node: NodeId,
    store: &mut S,
    outlets: &mut WorkerOutlets<'_, N, H>,
    state: &mut LoopState,
    is_own: bool,
    ticket: Ticket<K>,
    tally: Tally<K, L>,
) -> Tally<K, L>
    ensures work { Works S.Stable K.origin node ticket.job store.old store.new
        outlets.old outlets.new }
    ensures keeps { (start : World) → Shows K.origin start
        → IsStoreSince S.Stable start tally.last node store.old
        → IsStoreSince S.Stable start result.last node store.new }
    ensures own { Learns K.origin setting.now.mends is_own node ticket.job state.old.own state.new.own }
{
    let Ticket { job, answer } = ticket;
    let (rt, alloc) = (setting.rt, setting.alloc);
    let (finished, tally) = setting
        .hub
        .work(rt, alloc, node, job, store, setting.gate, tally);
    report_change(outlets, &finished);
    if is_record_stored(finished.reply()) {
        state.polls = setting.polling.polls();
    }
    send_reply(outlets, finished.reply(), &mut state.buffer);
    state.own.learn(setting, node, is_own, &finished);
    let has_published = matches!(finished.settling(), Settling::Told(_));
    give_answer(rt, setting.link, answer, finished);
    if has_published {
        setting.link.ring(node);
    }
    tally
}

// Does the worker's next job of its own, if there is one. `has_waited` says whether the worker has
// waited for a ticket and none came. If memory was refused for the job, that is returned.
#[tactic(auto, using(crate::proofs::NodeFeeds::does_own, crate::proofs::NodeFeeds::does_none, crate::proofs::NodeFeeds::own_job, crate::proofs::ServedStores::works_some, crate::proofs::ServedStores::works_none))]
fn do_own_job<
    K: HouseName,
    L: HubName,
    S: Stable<Alloc = Global>,
    N: Link,
    G: Gate,
    H: Reporter,
    R: Wait + Clock,
>(
    setting: &WorkerSetting<'_, K, L, N, G, H, R>,
    node: NodeId,
    store: &mut S,
    outlets: &mut WorkerOutlets<'_, N, H>,
    state: &mut LoopState,
    has_waited: bool,
    tally: Tally<K, L>,
) -> (Tally<K, L>, Option<NoMemory>)
    ensures work { MayWork S.Stable K.origin node store.old store.new outlets.old outlets.new }
    ensures keeps { (start : World) → Shows K.origin start
        → IsStoreSince S.Stable start tally.last node store.old
        → IsStoreSince S.Stable start result.0.last node store.new }
    ensures own { MayDoOwn K.origin setting.now.mends node has_waited state.old.own state.new.own
        result.1 }
{
    match state.own.next(setting, node, has_waited) {
        Ok(Some(job)) => {
            let ticket = Ticket { job, answer: None };
            let tally = do_ticket(setting, node, store, outlets, state, true, ticket, tally);
            (tally, None)
        }
        Ok(None) => (tally, None),
        Err(refused) => (tally, Some(refused)),
    }
}

// Does the tickets of a batch, one after the other. Before that, the store is asked to hold ahead
// just what they will draft, as far as it is foreseen.
#[tactic(auto, using(crate::proofs::ServedStores::does_batch, crate::proofs::ServedStores::works_more, crate::proofs::NodeFeeds::learns_more))]
fn do_batch<
    K: HouseName,
    L: HubName,
    S: Stable<Alloc = Global>,
    N: Link,
    G: Gate,
    H: Reporter,
    R: Wait + Clock,
>(
    setting: &WorkerSetting<'_, K, L, N, G, H, R>,
    node: NodeId,
    store: &mut S,
    outlets: &mut WorkerOutlets<'_, N, H>,
    state: &mut LoopState,
    tickets: Vec<Ticket<K>>,
    tally: Tally<K, L>,
) -> Tally<K, L>
    ensures batch { DoesBatch S.Stable K.origin node (each tickets.items (λ ticket. ticket.job))
        store.old store.new outlets.old outlets.new }
    ensures keeps { (start : World) → Shows K.origin start
        → IsStoreSince S.Stable start tally.last node store.old
        → IsStoreSince S.Stable start result.last node store.new }
    ensures own { LearnsAll K.origin setting.now.mends node (each tickets.items (λ ticket. ticket.job))
        state.old.own state.new.own }
{
    let (mut tally, left_out) = keep_ahead(setting, node, store, &tickets, tally);
    outlets.run_short(left_out);
    for ticket in tickets {
        tally = do_ticket(setting, node, store, outlets, state, false, ticket, tally);
    }
    tally
}

// Does a ticket, and those that wait behind it. While the node is fed, it does one ticket alone.
#[tactic(auto, using(crate::proofs::ServedStores::one_ticket, crate::proofs::ServedStores::many_tickets, crate::proofs::NodeFeeds::learns_alone, crate::proofs::NodeFeeds::learns_batch))]
fn do_tickets<
    K: HouseName,
    L: HubName,
    S: Stable<Alloc = Global>,
    N: Link,
    G: Gate,
    H: Reporter,
    R: Wait + Clock,
>(
    setting: &WorkerSetting<'_, K, L, N, G, H, R>,
    node: NodeId,
    store: &mut S,
    outlets: &mut WorkerOutlets<'_, N, H>,
    state: &mut LoopState,
    jobs: &Receiver<Ticket<K>>,
    first: Ticket<K>,
    tally: Tally<K, L>,
) -> Tally<K, L>
    ensures served { HasServed S.Stable K.origin node store.old store.new
        outlets.old outlets.new }
    ensures keeps { (start : World) → Shows K.origin start
        → IsStoreSince S.Stable start tally.last node store.old
        → IsStoreSince S.Stable start result.last node store.new }
    ensures own { LearnsBatch K.origin setting.now.mends node first.job state.old.own state.new.own }
{
    if let Some(feeds) = state.own.feeds() {
        outlets.end_batch(BatchEnd::Feeds(feeds));
        return do_ticket(setting, node, store, outlets, state, false, first, tally);
    }
    let hopes = BatchHopes {
        tickets: state.batch,
        polls: setting.polling.batch_polls(),
    };
    let (taken, end) = take_waiting(setting.rt, setting.alloc, jobs, first, hopes);
    outlets.end_batch(end);
    match taken {
        Ok(tickets) => {
            state.batch = tickets.len();
            do_batch(setting, node, store, outlets, state, tickets, tally)
        }
        Err(alone) => {
            state.batch = 1;
            do_ticket(setting, node, store, outlets, state, false, alone, tally)
        }
    }
}

// One round of a worker: it does the ticket that came, if one came, with those that wait behind it.
// Then it does its next job of its own. So a client's request never waits for more than one packet
// of a feed. If memory was refused for that job, its feed has ended, and the refusal is returned.
#[tactic(auto, using(crate::proofs::ServedStores::one_job, crate::proofs::ServedStores::then_own, crate::proofs::NodeFeeds::does_both))]
fn do_round<
    K: HouseName,
    L: HubName,
    S: Stable<Alloc = Global>,
    N: Link,
    G: Gate,
    H: Reporter,
    R: Wait + Clock,
>(
    setting: &WorkerSetting<'_, K, L, N, G, H, R>,
    node: NodeId,
    store: &mut S,
    outlets: &mut WorkerOutlets<'_, N, H>,
    state: &mut LoopState,
    jobs: &Receiver<Ticket<K>>,
    came: Option<Ticket<K>>,
    tally: Tally<K, L>,
) -> (Tally<K, L>, Option<NoMemory>)
    ensures served { HasServed S.Stable K.origin node store.old store.new
        outlets.old outlets.new }
    ensures keeps { (start : World) → Shows K.origin start
        → IsStoreSince S.Stable start tally.last node store.old
        → IsStoreSince S.Stable start result.0.last node store.new }
    ensures order { MatchOption came
        (MayDoOwn K.origin setting.now.mends node true state.old.own state.new.own result.1)
        (λ ticket. DoesBoth K.origin setting.now.mends node ticket.job state.old.own state.new.own
        result.1) }
{
    match came {
        Some(first) => {
            let tally = do_tickets(setting, node, store, outlets, state, jobs, first, tally);
            do_own_job(setting, node, store, outlets, state, false, tally)
        }
        None => do_own_job(setting, node, store, outlets, state, true, tally),
    }
}

/// Does the same with a borrowed store, for a caller that closes the store afterwards. It also
/// reports each node that goes down or comes back, and polls for tickets after each record that it
/// stored, as the setting says.
///
/// It takes the tickets that wait, at most `MAX_BATCH` at once, and foresees what they will draft.
/// The store holds those records ahead, by one call. So one sync serves many tickets.
///
/// If the setting says so, it feeds its node: at its start, and after each restart, it lets the
/// packets arrive that bring the node what its log lacks. Between two such packets it does a ticket,
/// if one waits. If memory is refused for a packet, the feed ends, which is reported: the timer's
/// ticks bring what is still lacking. And a tick that sent something is followed by early ones
/// (`EARLY_TICKS`), each once no ticket has come for a pause.
#[tactic(auto, using(crate::proofs::ServedStores::not_yet, crate::proofs::ServedStores::served_on))]
pub fn serve_from<
    'q,
    K: HouseName,
    L: HubName,
    S: Stable<Alloc = Global>,
    N: Link,
    G: Gate,
    H: Reporter,
    R: Wait + Clock,
>(
    setting: &WorkerSetting<'_, K, L, N, G, H, R>,
    node: NodeId,
    store: &mut S,
    outlets: &mut WorkerOutlets<'_, N, H>,
    jobs: &'q Receiver<Ticket<K>>,
    tally: Tally<K, L>,
) -> (Tally<K, L>, Closed<'q>)
    // It did some jobs, one after the other, and let out what their results say.
    ensures served { HasServed S.Stable K.origin node store.old store.new
        outlets.old outlets.new }
    // If the store matched the node when the worker gave the House back last, it still does.
    ensures keeps { (start : World) → Shows K.origin start
        → IsStoreSince S.Stable start tally.last node store.old
        → IsStoreSince S.Stable start result.0.last node store.new }
{
    let rt = setting.rt;
    let mut tally = tally;
    let mut state = LoopState {
        polls: 0,
        batch: 1,
        buffer: Vec::new(setting.alloc),
        own: OwnJobs::at_start(setting, node),
    };
    for _ in rt.forever() {
        let patience = state.own.patience();
        let came = match next_ticket(rt, jobs, &mut state.polls, patience) {
            Ok(came) => came,
            Err(closed) => return (tally, closed),
        };
        let (counted, refused) = do_round(
            setting, node, store, outlets, &mut state, jobs, came, tally,
        );
        tally = counted;
        if refused.is_some() {
            setting.reporter.report_cut_feed(node);
        }
    }
    unreachable!()
}
