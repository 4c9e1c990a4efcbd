//! The run of a group over its stores, from its opening until standard input ends.

ghost use Rattle.std.specs.Prelude.{◌≡◌, ◌≤◌, IfSome, OnOk, Some, map, slice_get, vec_capacity};
ghost use Rattle.std.specs.Prelude.{vec_len};
ghost use Rattle.std.specs.Io.KnownBytes.{Appends};
ghost use Rattle.urb_stable.specs.AheadStores.{IsSound, fresh};
ghost use Rattle.urb_group.specs.StoreOpenings.{HasStopped};
ghost use Rattle.urb_group.specs.GroupViews.{GroupView};
ghost use Rattle.urb_world.specs.World.{World};
ghost use Rattle.urb_daemon.specs.Endings.{ShowsEnd, closed_line};
ghost use Rattle.urb_daemon.specs.RunsAfterStop.{EndsAfterStop};
ghost use Rattle.urb_daemon.specs.RunsAhead.{RanAhead};
ghost use Rattle.urb_daemon.specs.Runs.{ComeBack, EndsFrom, HaveServed, limits_of};
ghost use Rattle.urb_daemon.specs.internal.Runs.{end_of};
ghost use Rattle.urb_worker.specs.ServedStores.{EndsWhole};

use crate::console::Console;
use crate::serve_fault::{ServeFault, report_serve_fault};
use crate::sockets::{Network, close_doors, open_network};
use sqlite_disk::Disk;
use std::alloc::Global;
use std::io;
use std::io::{Read, Write};
use std::marker::Brand;
use std::net::{Net, TcpListener, TcpStream};
use std::rt::Files;
use std::sync::Wait;
use std::sync::ledger::Blank;
use std::thread::Threads;
use std::time::Clock;
use urb_folder::{Journal, open_group};
use urb_group::{Group, Stable};
use urb_names::Refusal;
use urb_options::{Fault, ServeOptions, report_fault};
use urb_show::House;
use urb_stable::AheadStore;
use urb_turn::Reporter;
use urb_worker::{GroupSetting, Watch, run_group};

/// What the daemon needs of the runtime: threads, waiting, the clock, and files for Unix sockets.
/// Functions that use sockets ask for `Net` as well, because they have to name the types of its
/// sockets.
pub trait Host: Threads + Wait + Clock + Files + Sync {}

impl<R: Threads + Wait + Clock + Files + Sync> Host for R {}

// What a group at this network runs with.
fn setting_at<'a, H: Reporter, R>(
    rt: &'a R,
    alloc: Global,
    network: &'a Network,
    reporter: &'a H,
) -> GroupSetting<'a, H, R>
    ensures stations { result.stations.now ≡ network.now.stations.items }
    ensures limits { (result.tick_millis ≡ network.now.every) × (result.limits ≡ network.now.limits) }
{
    GroupSetting {
        rt,
        alloc,
        link: &network.link,
        stations: network.stations.as_slice(),
        tick_millis: network.every,
        reporter,
        limits: network.limits,
    }
}

/// Runs a group over its stores until the watch ends. It reports each node that goes down or comes
/// back. It returns the stores, and the count of the group's events. There is no count if memory or
/// a thread was refused.
pub fn run_group_at<S: Stable<Alloc = Global> + Send + Drop, R, H: Reporter + Sync, W: Watch>(
    rt: &R,
    alloc: Global,
    group: Group,
    network: &Network,
    stores: Vec<S>,
    reporter: &H,
    watch: &mut W,
) -> (Vec<S>, Option<u64>)
where
    R: Host + Net<Listener = TcpListener, Stream = TcpStream>,
    requires stores { vec_len stores ≡ group.size.n }
    requires stations { vec_len network.now.stations ≡ group.size.n }
    ensures count { vec_len result.0 ≡ vec_len stores }
    // Each store is returned at its place, as jobs of its own node in this group left it.
    ensures order { HaveServed S.Stable group stores.items result.0.items }
    // If there is a count, one history led from the group to its end, and each store matches its
    // node after it.
    ensures whole { IfSome result.1
        (λ events. EndsWhole S.Stable group stores.items result.0.items) }
{
    let blank = Blank::new(u64::from(group.config().n()));
    let Ok(opened) = House::open(group) else {
        unreachable!()
    };
    let setting = setting_at(rt, alloc, network, reporter);
    run_group::<Brand, Brand, S, H, R, W>(&setting, opened, blank, stores, watch)
}

// Reports how many connections each node serves, if that is fewer than were asked for.
fn report_connections<H: Reporter>(reporter: &H, serving: ServeOptions<'_>, each: usize) {
    if each < usize::from(serving.service.connections) {
        reporter.report_connections(each);
    }
}

// How a run has ended, judged by the count of its events, if it has one, and by whether its opening
// was reported.
fn judge_end(events: Option<u64>, is_told: bool) -> Result<u64, ServeFault>
    ensures { result ≡ end_of events is_told }
{
    match events {
        Some(events) if is_told => Ok(events),
        Some(_) => Err(ServeFault::Untold),
        None => Err(ServeFault::NoMemory),
    }
}

/// Opens a group over its stores and its network, and runs it until standard input ends. The
/// console writes `open N` once everything is open. The Unix sockets that it made are removed at the
/// end. The result is the count of the group's events, or the fault. In either case the stores are
/// returned, so nothing that was accepted is lost.
pub fn run_stores<
    S: Stable<Alloc = Global> + Send + Drop,
    R,
    H: Reporter + Sync,
    W: Write,
    I: Read,
>(
    rt: &R,
    alloc: Global,
    serving: ServeOptions<'_>,
    stores: Vec<S>,
    reporter: &H,
    console: &mut Console<'_, W, I>,
) -> (Vec<S>, Result<u64, ServeFault>)
where
    R: Host + Net<Listener = TcpListener, Stream = TcpStream>,
    requires { vec_len stores ≡ serving.nodes }
    ensures count { vec_len result.0 ≡ vec_len stores }
    // The stores are returned in their nodes' order, each as its own node's jobs left it.
    ensures order { ComeBack S.Stable stores.items result.0.items }
    // A count of events comes only from a run whose opening was reported. A fault is the first that
    // there was.
    ensures ends { EndsFrom S.Stable (limits_of serving.entry) stores.items console.new.is_told
        result.1 result.0.items }
    // If the stores hold what a stop of a group of as many nodes, or fewer, left, the group goes on
    // from the world before the stop. The cap may be another one.
    ensures goes_on { (old : GroupView) (w : World)
        → HasStopped S.Stable old w (limits_of serving.entry) stores.items
        → EndsAfterStop S.Stable old w (limits_of serving.entry) stores.items
        console.new.is_told result.1 result.0.items }
{
    let (stores, opened) = open_group(rt, alloc, serving.config(), stores);
    let group = match opened {
        Ok(group) => group,
        Err(refusal) => return (stores, Err(ServeFault::Unopened(refusal))),
    };
    // Does nothing at run time; it brings the group's invariant into the proof.
    group.recall();
    match open_network(rt, alloc, serving) {
        Ok(network) => {
            report_connections(reporter, serving, network.limits.connections);
            let (stores, events) = run_group_at(
                rt, alloc, group, &network, stores, reporter, console,
            );
            close_doors(rt, alloc, serving.doors, serving.nodes);
            (stores, judge_end(events, console.is_told()))
        }
        Err(fault) => (stores, Err(ServeFault::Network(fault))),
    }
}

// Wraps each store in one that may hold records ahead of its node. The emptied list keeps its room.
fn wrap_all<S: Stable<Alloc = Global> + Drop>(
    alloc: Global,
    stores: Vec<S>,
    wrapped: Vec<AheadStore<S>>,
) -> (Vec<S>, Vec<AheadStore<S>>)
    requires { (vec_len wrapped ≡ 0) × (vec_len stores ≤ vec_capacity wrapped) }
    ensures room { (vec_len result.0 ≡ 0) × (vec_len stores ≤ vec_capacity result.0) }
    ensures count { vec_len result.1 ≡ vec_len stores }
    ensures wrapped { result.1.items ≡ map (fresh S.Stable) stores.items }
{
    let mut stores = stores;
    let mut wrapped = wrapped;
    while let Some(store) = stores.pop() {
        wrapped.push_reserved(AheadStore::new(alloc, store));
    }
    wrapped.reverse();
    (stores, wrapped)
}

// Takes each store out of the one that it was wrapped in.
fn unwrap_all<S: Stable<Alloc = Global> + Drop>(
    wrapped: Vec<AheadStore<S>>,
    stores: Vec<S>,
) -> Vec<S>
    requires { (vec_len stores ≡ 0) × (vec_len wrapped ≤ vec_capacity stores) }
    ensures count { vec_len result ≡ vec_len wrapped }
    ensures stores { result.items ≡ map (λ s. s.store) wrapped.items }
    ensures sound { (i : _) (s : _) → slice_get wrapped.items i ≡ Some s → IsSound S.Stable s }
{
    let mut wrapped = wrapped;
    let mut stores = stores;
    while let Some(store) = wrapped.pop() {
        // Does nothing at run time; it brings the store's invariant into the proof.
        store.recall();
        stores.push_reserved(store.into_inner());
    }
    stores.reverse();
    stores
}

/// Runs a group over its stores, as `run_stores` does. Each is wrapped in a store that may hold
/// records ahead of its node, and is taken out of it at the end. If memory for that is refused, no
/// store is asked, and the group can't be opened.
pub fn run_ahead<S: Stable<Alloc = Global> + Send + Drop, R, H: Reporter + Sync, W: Write, I: Read>(
    rt: &R,
    alloc: Global,
    serving: ServeOptions<'_>,
    stores: Vec<S>,
    reporter: &H,
    console: &mut Console<'_, W, I>,
) -> (Vec<S>, Result<u64, ServeFault>)
where
    R: Host + Net<Listener = TcpListener, Stream = TcpStream>,
    requires { vec_len stores ≡ serving.nodes }
    ensures count { vec_len result.0 ≡ vec_len stores }
    // The stores are returned in their nodes' order, each as its own node's jobs left it. The run
    // ends as one over the wrapped stores.
    ensures ran { RanAhead S.Stable (limits_of serving.entry) stores.items console.new.is_told
        result.1 result.0.items }
{
    let Ok(wrapped) = Vec::with_capacity(alloc, stores.len()) else {
        return (stores, Err(ServeFault::Unopened(Refusal::NoMemory)));
    };
    let (stores, wrapped) = wrap_all(alloc, stores, wrapped);
    let (lasts, ended) = run_stores(rt, alloc, serving, wrapped, reporter, console);
    (unwrap_all(lasts, stores), ended)
}

/// Runs a group over its nodes' journals, in files of any kind, as `run_ahead` does. That a journal
/// may go to a thread is proved here, from the one fact that its file may.
pub fn run_journals<D: Disk + Send + Drop, R, H: Reporter + Sync, W: Write, I: Read>(
    rt: &R,
    alloc: Global,
    serving: ServeOptions<'_>,
    journals: Vec<Journal<D>>,
    reporter: &H,
    console: &mut Console<'_, W, I>,
) -> (Vec<Journal<D>>, Result<u64, ServeFault>)
where
    R: Host + Net<Listener = TcpListener, Stream = TcpStream>,
    requires { vec_len journals ≡ serving.nodes }
    ensures count { vec_len result.0 ≡ vec_len journals }
    // The journals are returned in their nodes' order, each as its own node's jobs left it. The run
    // ends as one over the wrapped journals.
    ensures ran { RanAhead ⟦<Journal<D> as Stable>⟧ (limits_of serving.entry) journals.items
        console.new.is_told result.1 result.0.items }
{
    run_ahead(rt, alloc, serving, journals, reporter, console)
}

// Writes the line of a group that ended, with the number of its events.
fn write_closed<W: Write>(output: &mut W, events: u64) -> io::Result<()>
    ensures { OnOk result
        (Appends (W.contents output.old) (W.contents output.new) (closed_line events)) }
{
    write!(output, "closed {events}\n")?;
    output.flush()
}

/// Reports how a run has ended, and returns the program's status. It writes `closed E` with the
/// count of events to the output and returns 0, or it writes the fault to the errors' output and
/// returns 1. If `closed E` can't be written, it reports `write failed` and returns 1, although the
/// group has stopped in order and nothing is lost.
pub fn report_end<W: Write, E: Eprint>(
    output: &mut W,
    errors: &E,
    ended: Result<u64, ServeFault>,
) -> u8
    ensures { ShowsEnd ended (W.contents output.old) (W.contents output.new) result }
{
    match ended {
        Ok(events) => match write_closed(output, events) {
            Ok(()) => 0,
            Err(_) => report_fault(errors, Fault::Write),
        },
        Err(why) => report_serve_fault(errors, why),
    }
}
