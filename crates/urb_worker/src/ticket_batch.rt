//! The tickets that a worker takes at once, and the records that its store holds ahead of them.

ghost use Rattle.std.specs.Prelude.{◌≡◌, IfErr, IfOk, length};
ghost use Rattle.urb_group.specs.GroupViews.{Shows};
ghost use Rattle.urb_world.specs.World.{World};
ghost use Rattle.urb_turn.specs.KeptTails.{Prepares};
ghost use Rattle.urb_turn.specs.NodeStores.{IsStoreSince};
ghost use Rattle.urb_worker.specs.TicketBatches.{IsEndOf, calls_ahead};
ghost use Rattle.urb_worker.specs.internal.ServedStores.{each, in_either};
ghost use Rattle.urb_worker.specs.internal.TicketBatches.{AreCalls, IsBatchOf};

use crate::WorkerSetting;
use crate::looks::{NoneWaits, find_none, look};
use crate::own_jobs::Feeds;
use crossbeam_channel::Receiver;
use std::alloc::Global;
use std::sync::Wait;
use std::thread;
use std::time::Clock;
use urb_foresight::{MAX_BATCH, WaitingCall};
use urb_link::{Link, Ticket};
use urb_names::{NoMemory, NodeId};
use urb_show::HouseName;
use urb_stable::Stable;
use urb_turn::{Gate, HubName, Reporter, Tally};

/// What a worker hopes for when it takes a batch: as many tickets as the last one had. Its clients
/// often send their next requests as soon as they are answered. So the worker polls for them for a
/// while, if it polls at all. Without that, small and large batches would take turns.
#[derive(Clone, Copy)]
pub(crate) struct BatchHopes {
    pub(crate) tickets: usize,
    pub(crate) polls: u32,
}

/// Why a worker takes no more tickets at once.
#[derive(Drop)]
pub(crate) enum BatchEnd {
    /// It has taken `MAX_BATCH` tickets.
    Full,
    /// It has looked for one more ticket, and found none.
    NoneWaits(NoneWaits),
    /// Memory for a list of tickets was refused.
    NoMemory(NoMemory),
    /// It feeds its node, and takes one ticket between two packets.
    Feeds(Feeds),
}

/// Takes the tickets that wait behind this one: with it at most `MAX_BATCH`. If none waits and none
/// is hoped for, or if memory for the list is refused, it returns this one alone. It also says why
/// it took no more.
#[tactic(auto, using(crate::proofs::TicketBatches::begins_batch, crate::proofs::TicketBatches::goes_on))]
pub(crate) fn take_waiting<K: HouseName, R: Wait>(
    rt: &R,
    alloc: Global,
    jobs: &Receiver<Ticket<K>>,
    first: Ticket<K>,
    hopes: BatchHopes,
) -> (Result<Vec<Ticket<K>>, Ticket<K>>, BatchEnd)
    ensures batch { IfOk result.0
        (λ tickets. IsBatchOf first.job (each tickets.items (λ ticket. ticket.job))) }
    ensures alone { IfErr result.0 (λ ticket. ticket.job ≡ first.job) }
    ensures end { IsEndOf
        (in_either result.0 (λ tickets. length tickets.items) (λ ticket. 1)) result.1 }
{
    if hopes.tickets < 2 {
        if let Some(none) = find_none(jobs) {
            return (Err(first), BatchEnd::NoneWaits(none));
        }
    }
    let mut tickets = match Vec::with_capacity(alloc, MAX_BATCH) {
        Ok(tickets) => tickets,
        Err(refused) => return (Err(first), BatchEnd::NoMemory(NoMemory::from(refused))),
    };
    tickets.push_reserved(first);
    let mut polls = hopes.polls;
    while tickets.len() < MAX_BATCH {
        match look(rt, jobs) {
            Ok(ticket) => tickets.push_reserved(ticket),
            Err(_) if 0 < polls && tickets.len() < hopes.tickets => {
                polls -= 1;
                thread::yield_now();
            }
            Err(none) => return (Ok(tickets), BatchEnd::NoneWaits(none)),
        }
    }
    (Ok(tickets), BatchEnd::Full)
}

// The calls by which these tickets may draft records at a node, up to the first ticket that crashes
// or restarts a node. If memory is refused, the later calls are left out, and that is returned.
fn calls_of<K: HouseName>(
    alloc: Global,
    node: NodeId,
    tickets: &[Ticket<K>],
) -> (Vec<WaitingCall<'_>>, Option<NoMemory>)
    ensures { AreCalls node (each tickets.now (λ ticket. ticket.job)) result.0.items result.1 }
{
    let mut calls = Vec::new(alloc);
    for ticket in tickets {
        if ticket.job.turns_over() {
            return (calls, None);
        }
        if let Some(call) = ticket.job.call_at(node) {
            if let Err(refused) = calls.reserve(1) {
                return (calls, Some(NoMemory::from(refused)));
            }
            calls.push_reserved(call);
        }
    }
    (calls, None)
}

/// Foresees what these tickets will draft, and has the node's store hold those records ahead. If
/// memory was refused, so that fewer records are foreseen, that is returned.
pub(crate) fn keep_ahead<
    K: HouseName,
    L: HubName,
    S: Stable<Alloc = Global>,
    N: Link,
    G: Gate,
    H: Reporter,
    R: Wait + Clock,
>(
    setting: &WorkerSetting<'_, K, L, N, G, H, R>,
    node: NodeId,
    store: &mut S,
    tickets: &[Ticket<K>],
    tally: Tally<K, L>,
) -> (Tally<K, L>, Option<NoMemory>)
    ensures prepares { Prepares S.Stable K.origin node
        (calls_ahead node (each tickets.now (λ ticket. ticket.job))) result.1
        store.old store.new }
    ensures keeps { (start : World) → Shows K.origin start
        → IsStoreSince S.Stable start tally.last node store.old
        → IsStoreSince S.Stable start result.0.last node store.new }
{
    let (rt, alloc) = (setting.rt, setting.alloc);
    let (calls, left_out) = calls_of(alloc, node, tickets);
    let (tally, unforeseen) = setting
        .hub
        .keep_ahead(rt, alloc, node, &calls, store, setting.gate, tally);
    match left_out {
        Some(refused) => (tally, Some(refused)),
        None => (tally, unforeseen),
    }
}
