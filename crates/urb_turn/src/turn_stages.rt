//! The stages of a turn, and the step from one stage to the next.
//!
//! The steps are the event before the store, the store's part, and the event after it.

ghost use Rattle.std.specs.Prelude.{◌≡◌, ◌≤◌, true, None};
ghost use Rattle.urb_turn.specs.Counting.{count_of};
ghost use Rattle.urb_turn.specs.Stages.{crash_stage, is_stored, restart_stage, state_reply};
ghost use Rattle.urb_turn.specs.Stages.{taken_stage, tick_stage};
ghost use Rattle.urb_turn.specs.Settlings.{NothingNew, published_by};
ghost use Rattle.urb_turn.specs.Turns.{Ends, Stores, logged};

use crate::Job;
use crate::settling::{Settling, settle_released};
use std::alloc::Global;
use std::sync::Wait;
use urb_group::{Doubt, Draft, Outbox, Receipt, Record, Reply, Stable, State, Taken};
use urb_names::{NodeId, Refusal};
use urb_show::{House, HouseName, Status};
use urb_stable::StoreFault;

// The stage of a turn: what its store has to do, or what it did. A stage is the state of a turn, and
// no outcome: those are `Reply` and `Finished`.
#[derive(Drop)]
pub(crate) enum Stage {
    // The store has to keep this draft.
    Drafted(Draft),
    // The store took the draft.
    Kept(Receipt),
    // The store answered a fault.
    Doubtful(Doubt),
    // The store has to give its records.
    Retrieving,
    // The store gave these records.
    Retrieved(Vec<Record>),
    // The store gave no records.
    Unread(StoreFault),
    // The House has to report the node's status.
    Asking,
    // The job is done.
    Answered(Reply),
}

// The stage after a submit or an arrival.
pub(crate) fn stage_after_message(answer: Result<Taken, Refusal>) -> (Stage, u8)
    ensures { result ≡ (taken_stage answer, count_of answer) }
{
    match answer {
        Ok(Taken::Store(draft)) => (Stage::Drafted(draft), 1),
        Ok(Taken::Same(answer)) => (Stage::Answered(Reply::Same(answer)), 1),
        Err(refusal) => (Stage::Answered(Reply::Refused(refusal)), 0),
    }
}

// The stage after a tick.
pub(crate) fn stage_after_tick(sent: Result<Outbox, Refusal>) -> (Stage, u8)
    ensures { result ≡ (tick_stage sent, count_of sent) }
{
    match sent {
        Ok(packets) => (Stage::Answered(Reply::Sent(packets)), 1),
        Err(refusal) => (Stage::Answered(Reply::Refused(refusal)), 0),
    }
}

// The stage after a crash.
pub(crate) fn stage_after_crash(node: NodeId, done: Result<(), Refusal>) -> (Stage, u8)
    ensures { result ≡ (crash_stage node done, count_of done) }
{
    match done {
        Ok(()) => (Stage::Answered(Reply::WentDown(node)), 1),
        Err(refusal) => (Stage::Answered(Reply::Refused(refusal)), 0),
    }
}

// The stage after a restart of a node in this state. If the node is up, the store isn't read: a
// fault would leave the node with a store that returns nothing more.
pub(crate) fn stage_of_restart(state: Option<State>) -> Stage
    ensures { result ≡ restart_stage state }
{
    match state {
        Some(State::Down) => Stage::Retrieving,
        Some(State::Ready | State::Storing) => Stage::Answered(Reply::Refused(Refusal::NotDown)),
        None => Stage::Answered(Reply::Refused(Refusal::BadNode)),
    }
}

// The store's part of a turn.
pub(crate) fn run_store<S: Stable<Alloc = Global>>(
    alloc: Global,
    stage: Stage,
    store: &mut S,
) -> Stage
    ensures step { Stores S.Stable store.old stage store.new result }
    ensures stored { is_stored result ≡ true }
{
    match stage {
        Stage::Drafted(draft) => match draft.keep(store) {
            Ok(receipt) => Stage::Kept(receipt),
            Err(doubt) => Stage::Doubtful(doubt),
        },
        Stage::Retrieving => match store.retrieve(alloc) {
            Ok(image) => Stage::Retrieved(image),
            Err(fault) => Stage::Unread(fault),
        },
        Stage::Kept(receipt) => Stage::Kept(receipt),
        Stage::Doubtful(doubt) => Stage::Doubtful(doubt),
        Stage::Retrieved(image) => Stage::Retrieved(image),
        Stage::Unread(fault) => Stage::Unread(fault),
        Stage::Asking => Stage::Asking,
        Stage::Answered(reply) => Stage::Answered(reply),
    }
}

// The result of a turn's last event.
#[derive(Drop)]
pub(crate) struct Ending<K: HouseName> {
    pub(crate) reply: Reply,
    pub(crate) status: Option<Status>,
    pub(crate) settling: Settling<K>,
    pub(crate) events: u8,
}

// A result without released names and without a status.
fn ending_without_release<K: HouseName>(reply: Reply, events: u8) -> Ending<K>
    ensures { (result.reply ≡ reply)
        × (result.status ≡ None)
        × (published_by result.settling ≡ NothingNew)
        × (result.events ≡ events) }
{
    Ending {
        reply,
        status: None,
        settling: Settling::NothingNew,
        events,
    }
}

// The number of names that a node has delivered.
fn log_length<K: HouseName>(house: &House<K>, node: NodeId) -> usize
    ensures { result ≡ logged house.now.group node }
{
    house.recall();
    match house.log(node) {
        Some(names) => names.len(),
        None => 0,
    }
}

// The store took the draft.
fn commit_receipt<K: HouseName, R: Wait>(
    rt: &R,
    house: &mut House<K>,
    job: &Job,
    receipt: Receipt,
) -> Ending<K>
    ensures step { Ends house.old job.now (Stage.Kept receipt) house.new
        result.reply result.status (published_by result.settling) result.events }
    ensures one { result.events ≤ 1 }
{
    house.recall();
    let node = receipt.node();
    match house.commit(receipt) {
        Ok(done) => {
            let settling = settle_released(rt, house, node, 0 < done.released);
            Ending {
                settling,
                ..ending_without_release(Reply::Stored(done), 1)
            }
        }
        Err(_) => ending_without_release(Reply::Refused(Refusal::Stale), 0),
    }
}

// The store answered a fault.
fn fail_draft<K: HouseName>(house: &mut House<K>, job: &Job, doubt: Doubt) -> Ending<K>
    ensures step { Ends house.old job.now (Stage.Doubtful doubt) house.new
        result.reply result.status (published_by result.settling) result.events }
    ensures one { result.events ≤ 1 }
{
    let fault = doubt.fault();
    match house.fail(doubt) {
        Ok(()) => ending_without_release(Reply::Refused(fault.refusal()), 1),
        Err(_) => ending_without_release(Reply::Refused(Refusal::Stale), 0),
    }
}

// The store gave these records.
fn restart_node<K: HouseName, R: Wait>(
    rt: &R,
    alloc: Global,
    house: &mut House<K>,
    job: &Job,
    image: Vec<Record>,
) -> Ending<K>
    ensures step { Ends house.old job.now (Stage.Retrieved image) house.new
        result.reply result.status (published_by result.settling) result.events }
    ensures one { result.events ≤ 1 }
{
    house.recall();
    let node = job.node();
    let before = log_length(house, node);
    match house.restart(alloc, node, image) {
        Ok(()) => {
            let after = log_length(house, node);
            let settling = settle_released(rt, house, node, before < after);
            Ending {
                settling,
                ..ending_without_release(Reply::Up(node), 1)
            }
        }
        Err(refusal) => ending_without_release(Reply::Refused(refusal), 0),
    }
}

// The reply about a node in this state.
fn reply_for_state(node: NodeId, state: State) -> Reply
    ensures { result ≡ state_reply node state }
{
    match state {
        State::Down => Reply::WentDown(node),
        State::Ready | State::Storing => Reply::Up(node),
    }
}

// The House reports the node's status.
fn report_status<K: HouseName>(house: &House<K>, job: &Job) -> Ending<K>
    ensures step { Ends house.now job.now Stage.Asking house.now
        result.reply result.status (published_by result.settling) result.events }
    ensures none { result.events ≡ 0 }
{
    let node = job.node();
    match house.status(node) {
        Some(status) => Ending {
            status: Some(status),
            ..ending_without_release(reply_for_state(node, status.state), 0)
        },
        None => ending_without_release(Reply::Refused(Refusal::BadNode), 0),
    }
}

// A turn's last event.
pub(crate) fn finish_event<K: HouseName, R: Wait>(
    rt: &R,
    alloc: Global,
    house: &mut House<K>,
    job: &Job,
    stage: Stage,
) -> Ending<K>
    requires { is_stored stage ≡ true }
    ensures step { Ends house.old job.now stage house.new
        result.reply result.status (published_by result.settling) result.events }
    ensures one { result.events ≤ 1 }
{
    match stage {
        Stage::Drafted(_) | Stage::Retrieving => unreachable!(),
        Stage::Kept(receipt) => commit_receipt(rt, house, job, receipt),
        Stage::Doubtful(doubt) => fail_draft(house, job, doubt),
        Stage::Retrieved(image) => restart_node(rt, alloc, house, job, image),
        Stage::Unread(fault) => ending_without_release(Reply::Refused(fault.refusal()), 0),
        Stage::Asking => report_status(house, job),
        Stage::Answered(reply) => ending_without_release(reply, 0),
    }
}
