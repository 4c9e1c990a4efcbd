//! Running a group, from the opened group to the closed house.
//!
//! A running group has its workers, and the threads outside them.

ghost use Rattle.std.specs.Prelude.{◌≡◌, ◌<◌, ◌≤◌, ◌*◌, ◌+◌, IfSome, IsTrue, None, [], length};
ghost use Rattle.std.specs.Prelude.{if◌then◌else◌, option_map, reverse, vec_len, vec_capacity};
ghost use Rattle.urb_names.specs.declared.limits.TheConstants.{MAX_NODES};
ghost use Rattle.urb_show.specs.Houses.{IsNamed};
ghost use Rattle.urb_turn.specs.Counting.{count_after, events_in};
ghost use Rattle.urb_turn.specs.LastLoans.{AllBegin};
ghost use Rattle.urb_worker.specs.ServedStores.{AreServed, EndsWhole, numbers_from};
ghost use Rattle.urb_worker.specs.internal.Listenings.{HasAll};
ghost use Rattle.urb_worker.specs.internal.ServedStores.{AllKeepUp, ClosesAt, each};
ghost use Rattle.urb_show.specs.declared.opened_group.TheConstants.{READERS};

use crate::group_room::{GroupRoom, reserve_room};
use crate::listeners::{GroupListening, ListenerInput, run_listeners};
use crate::polling::Polling;
use crate::worker_threads::{Worker, WorkerInput, join_workers, start_workers};
use crate::{Watch, WorkerSetting};
use std::alloc::Global;
use std::net::{Net, TcpListener, TcpStream};
use std::sync::Wait;
use std::sync::ledger::Blank;
use std::thread;
use std::thread::{Scope, Threads};
use std::time::Clock;
use urb_desk::ClientLimits;
use urb_link::{Link, NodeJobs, PacedLink, Station, UdpLink};
use urb_show::{HouseName, LogReader, Opened};
use urb_stable::Stable;
use urb_turn::{Hub, HubName, OpenGate, Reporter, Tally};

// Makes an input for each store, the last node's first.
#[tactic(auto, using(crate::proofs::ServedStores::takes_up, crate::proofs::ServedStores::reverse_push, urb_turn::proofs::LastLoans::begin_but_last, urb_turn::proofs::LastLoans::begin_last))]
fn make_inputs<K: HouseName, L: HubName, S: Stable<Alloc = Global> + Drop>(
    inputs: Vec<WorkerInput<K, L, S>>,
    stores: Vec<S>,
    jobs: Vec<NodeJobs<K>>,
    tallies: Vec<Tally<K, L>>,
) -> Vec<WorkerInput<K, L, S>>
    requires room { (vec_len inputs ≡ 0) × (vec_len stores ≤ vec_capacity inputs) }
    requires one_each { (vec_len jobs ≡ vec_len stores) × (vec_len tallies ≡ vec_len stores) }
    requires nodes { jobs.items ≡ numbers_from 1 (vec_len stores) }
    requires begin { AllBegin tallies.items [] }
    ensures count { vec_len result ≡ vec_len stores }
    ensures stores { reverse (each result.items (λ input. input.store)) ≡ stores.items }
    ensures nodes { reverse (each result.items (λ input. input.node))
        ≡ numbers_from 1 (vec_len stores) }
{
    let mut inputs = inputs;
    let mut stores = stores;
    let mut jobs = jobs;
    let mut tallies = tallies;
    while let Some(store) = stores.pop() {
        let jobs = jobs.pop().unwrap();
        inputs.push_reserved(WorkerInput {
            node: jobs.node(),
            store,
            jobs,
            tally: tallies.pop().unwrap(),
        });
    }
    inputs
}

// The Hub of the opened group, with its tallies and its readers. `None` if memory was refused.
fn open_hub<K: HouseName, L: HubName, R: Wait>(
    rt: &R,
    alloc: Global,
    opened: Opened,
    blank: Blank,
) -> Option<(Hub<K, L>, Vec<Tally<K, L>>, Vec<LogReader<K>>)>
    requires names { IsNamed opened K.book K.history K.base K.origin }
    requires name { blank.name ≡ L.name }
    requires parts { (blank.parts ≡ L.parts) × (L.parts ≡ opened.group.size.n) }
    requires start { L.start ≡ 0 }
    ensures tallies { IfSome result (λ it. (vec_len it.1 ≡ L.parts) × AllBegin it.1.items []) }
    ensures readers { IfSome result (λ it. length it.2.items ≡ READERS * L.parts) }
    ensures nodes { IfSome result (λ it. (L.parts ≡ length K.base) × (L.parts ≤ MAX_NODES)) }
{
    let (house, readers) = match opened.parts::<K, R>(rt, alloc) {
        Ok(parts) => parts,
        Err((opened, _)) => {
            drop(opened.close());
            return None;
        }
    };
    house.recall();
    house.config().recall();
    match Hub::new(alloc, house, blank) {
        Ok((hub, tallies)) => Some((hub, tallies, readers)),
        Err((house, _)) => {
            drop(house.close(rt));
            None
        }
    }
}

// The count of events of a run, if it had its listeners and the end of each last loan is known.
fn count_if(run: Option<GroupListening>, is_known: bool, events: u64) -> Option<u64>
    ensures { result ≡ option_map (λ ended. events) (if is_known then run else None) }
{
    if !is_known {
        return None;
    }
    match run {
        Some(_) => Some(events),
        None => None,
    }
}

/// What a group runs with, besides the opened group.
#[derive(Drop)]
pub struct GroupSetting<'a, H: Reporter, R> {
    pub rt: &'a R,
    pub alloc: Global,
    /// Carries the nodes' packets.
    pub link: &'a UdpLink,
    /// The stations of the nodes 1, 2, ... Each takes its node's datagrams and clients.
    pub stations: &'a [Station],
    /// The time between two ticks of a node, in milliseconds.
    pub tick_millis: u32,
    /// Reports each node that goes down or comes back.
    pub reporter: &'a H,
    /// How many clients a node serves at a time, and how long they may take.
    pub limits: ClientLimits,
}

// The inputs of a group's workers, and room for the workers and for what they leave.
#[derive(Drop)]
struct WorkerGroup<K: HouseName, L: HubName, S: Stable<Alloc = Global>> {
    inputs: Vec<WorkerInput<K, L, S>>,
    workers: Vec<Worker<K, L, S>>,
    stores: Vec<S>,
    tallies: Vec<Tally<K, L>>,
    ghost room: { (vec_len workers ≡ 0) × (vec_len inputs ≤ vec_capacity workers) },
    ghost store_room: { (vec_len stores ≡ 0) × (vec_len inputs ≤ vec_capacity stores) },
    ghost tally_room: { (vec_len tallies ≡ 0) × (vec_len inputs ≤ vec_capacity tallies) },
}

// Runs the workers in a scope, and the listeners, until the watch ends. Returns all stores and
// tallies, and the witness of the listeners if all threads could be made.
fn run_in_scope<
    's,
    E,
    K: HouseName + Send + Sync,
    L: HubName + Send + Sync,
    S: Stable<Alloc = Global> + Send + Drop + 's,
    N: Link + Sync,
    H: Reporter + Sync,
    R,
    W: Watch,
>(
    scope: &Scope<'s, E>,
    setting: &'s WorkerSetting<'s, K, L, N, OpenGate, H, R>,
    outer: &GroupSetting<'_, H, R>,
    group: WorkerGroup<K, L, S>,
    listening: ListenerInput<K>,
    watch: &mut W,
) -> ((Vec<S>, Vec<Tally<K, L>>), Option<GroupListening>)
where
    R: Threads + Wait + Clock + Sync + Net<Listener = TcpListener, Stream = TcpStream>,
    requires nodes { (length outer.now.stations.now ≤ length K.base) × (length K.base ≤ MAX_NODES) }
    requires queues { vec_len listening.queues ≡ length outer.now.stations.now }
    ensures stores { vec_len result.0.0 ≡ vec_len group.inputs }
    ensures tallies { vec_len result.0.1 ≡ vec_len group.inputs }
    ensures order { AreServed S.Stable K.origin
        (reverse (each group.inputs.items (λ input. input.node)))
        (reverse (each group.inputs.items (λ input. input.store))) result.0.0.items }
    ensures keeps { AllKeepUp S.Stable K.origin
        (reverse (each group.inputs.items (λ input. input.node)))
        (reverse (each group.inputs.items (λ input. input.store))) result.0.0.items
        result.0.1.items }
    ensures all { IfSome result.1
        (λ it. HasAll (length outer.now.stations.now) outer.now.tick_millis it) }
{
    let WorkerGroup {
        inputs,
        workers,
        stores,
        tallies,
    } = group;
    let ListenerInput { queues, readers } = listening;
    let (workers, queues) = start_workers(scope, setting, inputs, workers, queues);
    let run = match queues {
        Some(queues) => run_listeners(outer, ListenerInput { queues, readers }, watch),
        None => None,
    };
    (join_workers(setting.rt, workers, stores, tallies), run)
}

// Does the same in a scope of its own. The workers send no faster than the stations' receivers
// take.
fn run_worker_group<
    K: HouseName + Send + Sync,
    L: HubName + Send + Sync,
    S: Stable<Alloc = Global> + Send + Drop,
    H: Reporter + Sync,
    R,
    W: Watch,
>(
    outer: &GroupSetting<'_, H, R>,
    hub: &Hub<K, L>,
    group: WorkerGroup<K, L, S>,
    listening: ListenerInput<K>,
    watch: &mut W,
) -> ((Vec<S>, Vec<Tally<K, L>>), Option<GroupListening>)
where
    R: Threads + Wait + Clock + Sync + Net<Listener = TcpListener, Stream = TcpStream>,
    requires nodes { (length outer.now.stations.now ≤ length K.base) × (length K.base ≤ MAX_NODES) }
    requires queues { vec_len listening.queues ≡ length outer.now.stations.now }
    ensures stores { vec_len result.0.0 ≡ vec_len group.inputs }
    ensures tallies { vec_len result.0.1 ≡ vec_len group.inputs }
    ensures order { AreServed S.Stable K.origin
        (reverse (each group.inputs.items (λ input. input.node)))
        (reverse (each group.inputs.items (λ input. input.store))) result.0.0.items }
    ensures keeps { AllKeepUp S.Stable K.origin
        (reverse (each group.inputs.items (λ input. input.node)))
        (reverse (each group.inputs.items (λ input. input.store))) result.0.0.items
        result.0.1.items }
    ensures all { IfSome result.1
        (λ it. HasAll (length outer.now.stations.now) outer.now.tick_millis it) }
{
    let rt = outer.rt;
    let link = PacedLink::new(rt, outer.link, outer.stations);
    let gate = OpenGate;
    let setting = WorkerSetting {
        rt,
        alloc: outer.alloc,
        hub,
        link: &link,
        gate: &gate,
        reporter: outer.reporter,
        polling: Polling::for_workers(rt, group.inputs.len()),
        mends: true,
    };
    let setting = &setting;
    thread::scope(
        thread::scope_env(),
        rt,
        move |scope| -> ((Vec<S>, Vec<Tally<K, L>>), Option<GroupListening>)
            requires { (length outer.now.stations.now ≤ length K.base)
                × (length K.base ≤ MAX_NODES)
                × (vec_len listening.queues ≡ length outer.now.stations.now) }
            ensures { (vec_len result.0.0 ≡ vec_len group.inputs)
                × (vec_len result.0.1 ≡ vec_len group.inputs)
                × AreServed S.Stable K.origin
                (reverse (each group.inputs.items (λ input. input.node)))
                (reverse (each group.inputs.items (λ input. input.store))) result.0.0.items
                × AllKeepUp S.Stable K.origin
                (reverse (each group.inputs.items (λ input. input.node)))
                (reverse (each group.inputs.items (λ input. input.store))) result.0.0.items
                result.0.1.items
                × IfSome result.1 (λ it. HasAll (length outer.entry.now.stations.now)
                outer.entry.now.tick_millis it) }
        { run_in_scope(scope, setting, outer, group, listening, watch) },
    )
}

// Closes the house, and returns the count of its events, which is that of all tallies. The second
// result says whether the end of each worker's last loan is known.
#[tactic(auto, using(crate::proofs::EndedRuns::closes_at))]
fn close_hub<K: HouseName, L: HubName, R: Wait>(
    rt: &R,
    hub: Hub<K, L>,
    tallies: Vec<Tally<K, L>>,
) -> (u64, bool)
    requires { vec_len tallies ≡ L.parts }
    ensures count { result.0 ≡ count_after (events_in tallies.items) L.start }
    ensures closes { IsTrue result.1 → ClosesAt K.origin (length K.base) tallies.items }
{
    let (house, is_known) = hub.close(tallies);
    house.recall();
    let events = house.events();
    drop(house.close(rt));
    (events, is_known)
}

/// Runs a group that was opened, until the watch ends. Each node has a worker with its store, and a
/// station. The stores are those of the nodes 1, 2, ... They are returned, with the count of
/// events.
///
/// At the end it ends the sessions of clients, and waits for them. There is no count if memory or a
/// thread was refused. Then nothing runs any more, and the watch was not called. There is also none
/// if the House gave a worker no moment, which no run sees.
#[tactic(auto, using(crate::proofs::ServedStores::unserved))]
pub fn run_group<
    K: HouseName + Send + Sync,
    L: HubName + Send + Sync,
    S: Stable<Alloc = Global> + Send + Drop,
    H: Reporter + Sync,
    R,
    W: Watch,
>(
    setting: &GroupSetting<'_, H, R>,
    opened: Opened,
    blank: Blank,
    stores: Vec<S>,
    watch: &mut W,
) -> (Vec<S>, Option<u64>)
where
    R: Threads + Wait + Clock + Sync + Net<Listener = TcpListener, Stream = TcpStream>,
    requires names { IsNamed opened K.book K.history K.base K.origin }
    requires name { blank.name ≡ L.name }
    requires parts { (blank.parts ≡ L.parts) × (L.parts ≡ opened.group.size.n) }
    requires start { L.start ≡ 0 }
    requires stores { vec_len stores ≡ opened.group.size.n }
    requires stations { length setting.now.stations.now ≡ opened.group.size.n }
    ensures count { vec_len result.0 ≡ vec_len stores }
    // Each store is returned at its place, as jobs of its own node left it. Each job had its whole
    // turn on the House that was opened.
    ensures order { AreServed S.Stable opened.group (numbers_from 1 (vec_len stores)) stores.items
        result.0.items }
    // If there is a count, one history led from the opened group to the end. Each store matches its
    // node after it, if each store matched its node at the opening.
    ensures whole { IfSome result.1
        (λ events. EndsWhole S.Stable opened.group stores.items result.0.items) }
{
    let (rt, alloc) = (setting.rt, setting.alloc);
    let Some(rooms) = reserve_room::<K, L, S>(alloc, setting.stations.len()) else {
        drop(opened.close());
        return (stores, None);
    };
    let Some((hub, cut, readers)) = open_hub::<K, L, R>(rt, alloc, opened, blank) else {
        return (stores, None);
    };
    let GroupRoom {
        queues,
        jobs,
        inputs,
        workers,
        stores: left,
        tallies,
    } = rooms;
    let group = WorkerGroup {
        inputs: make_inputs(inputs, stores, jobs, cut),
        workers,
        stores: left,
        tallies,
    };
    let listening = ListenerInput { queues, readers };
    let ((stores, tallies), run) = run_worker_group(setting, &hub, group, listening, watch);
    let (events, is_known) = close_hub(rt, hub, tallies);
    (stores, count_if(run, is_known, events))
}
