//! The listeners of a group that runs: receivers, sessions of clients, and the timer.

ghost use Rattle.std.specs.Prelude.{◌≡◌, ◌-◌, ◌+◌, ◌<◌, ◌≤◌, IfOk, IfSome, Some, length, option_map};
ghost use Rattle.std.specs.Prelude.{slice_get, vec_len};
ghost use Rattle.urb_names.specs.Nodes.{nodes};
ghost use Rattle.urb_names.specs.declared.limits.TheConstants.{MAX_NODES};
ghost use Rattle.urb_worker.specs.internal.Listenings.{HasAll};

use crate::GroupSetting;
use crate::node_listeners::{Listening, NodeListener, start_listeners};
use std::alloc::Global;
use std::net::{Net, TcpListener, TcpStream};
use std::sync::Wait;
use std::thread;
use std::thread::{Scope, Threads};
use std::time::Clock;
use urb_desk::{
    ClientLimits, Connections, NodeDesk, NodeService, ReaderPool, Refusals, TicketPlaces,
};
use urb_link::{NodeQueue, Station, Stop, Throttle, TickQueues, Ticking, start_timer};
use urb_names::NoMemory;
use urb_show::{HouseName, LogReader, ReadPosition};
use urb_turn::Reporter;

/// The group calls `watch` when it runs, and stops when `watch` returns.
pub trait Watch {
    fn watch(&mut self, stations: &[Station]);
}

/// What the sessions of a group need: the readers that they share, the position that each begins
/// at, and for each node its connections and the places for its tickets. All of this is allocated
/// before a thread starts.
#[derive(Drop)]
pub(crate) struct SessionRoom<K: HouseName> {
    readers: ReaderPool<K>,
    start: ReadPosition<K>,
    refusals: Refusals,
    nodes: Vec<(Connections, TicketPlaces)>,
}

impl<K: HouseName> SessionRoom<K> {
    // The room for the sessions of `count` nodes, each with these limits. `None` if there are no
    // readers.
    fn new(
        alloc: Global,
        readers: Vec<LogReader<K>>,
        count: usize,
        limits: ClientLimits,
    ) -> Result<Option<SessionRoom<K>>, NoMemory>
        ensures { IfOk result (λ made. IfSome made (λ room. vec_len room.nodes ≡ count)) }
    {
        let Some(first) = readers.first() else {
            return Ok(None);
        };
        let start = ReadPosition::at(first);
        let refusals = Refusals::new(alloc)?;
        let mut nodes = Vec::with_capacity(alloc, count)?;
        for _i in 0..count {
            nodes.push_reserved((Connections::new(alloc, limits)?, TicketPlaces::new(count)));
        }
        Ok(Some(SessionRoom {
            readers: ReaderPool::new(alloc, readers)?,
            start,
            refusals,
            nodes,
        }))
    }
}

// The listeners of the queue's node, with its station, its connections and a desk. Those of node 1,
// 2, .. are at the places 0, 1, ..
fn listener_of<'s, K: HouseName, H: Reporter, R: Wait + Clock>(
    setting: &GroupSetting<'s, H, R>,
    room: &'s SessionRoom<K>,
    stop: &'s Stop,
    queue: &'s NodeQueue<K>,
) -> NodeListener<'s, K, R>
    requires node { (queue.now ≤ length setting.now.stations.now) × (queue.now ≤ length K.base) }
    requires room { queue.now ≤ vec_len room.now.nodes }
    ensures queue { result.queue.now ≡ queue.now }
    ensures desk { result.desk.node ≡ queue.now }
    ensures station { slice_get setting.now.stations.now (queue.now - 1)
        ≡ Some result.station.now }
    ensures connections { option_map (λ node. node.0)
        (slice_get room.now.nodes.items (queue.now - 1)) ≡ Some result.connections.now }
{
    let (rt, alloc, node) = (setting.rt, setting.alloc, queue.node());
    let place = usize::from(node.number()) - 1;
    let (station, (connections, places)) = (&setting.stations[place], &room.nodes[place]);
    let service = NodeService {
        queue: queue.sender(),
        places,
        readers: &room.readers,
        bell: &station.bell,
        throttle: Throttle::new(&station.in_flight, setting.stations),
        stop,
    };
    NodeListener {
        rt,
        alloc,
        stop,
        station,
        queue,
        connections,
        refusals: &room.refusals,
        desk: NodeDesk::new(rt, alloc, node, service, room.start.copy()),
    }
}

/// The witness that the listeners of nodes 1 to `last` were started, each node's at its own station.
#[derive(Drop)]
pub(crate) struct AllListening {
    last: u8,
}

impl AllListening {
    // No node's listeners were started yet.
    fn none() -> AllListening
        ensures { result.last ≡ 0 }
    {
        AllListening { last: 0 }
    }

    // Those of one node more were started: of the next node, at its station.
    fn with(self, _stations: &[Station], _listening: &Listening<'_>) -> AllListening
        requires room { self.last < MAX_NODES }
        requires next { _listening.now.node ≡ self.last + 1 }
        requires station { slice_get _stations.now self.last ≡ Some _listening.now.station.now }
        ensures { result.last ≡ self.last + 1 }
    {
        AllListening {
            last: self.last + 1,
        }
    }
}

/// The witness that a group's listeners and its timer were started. If it left the scope of their
/// threads, they have also ended.
#[derive(Drop)]
pub(crate) struct GroupListening {
    listening: AllListening,
    ticking: Ticking,
}

// Starts the threads of all nodes and the timer. `None` if it could not.
#[tactic(auto, using(urb_link::proofs::QueuesInOrder::read_at))]
fn start_threads<'s, E, K: HouseName + Send + Sync, H: Reporter, R: Wait + Clock + Sync>(
    scope: &'s Scope<'s, E>,
    setting: &GroupSetting<'s, H, R>,
    room: &'s SessionRoom<K>,
    stop: &'s Stop,
    queues: &'s [NodeQueue<K>],
) -> Option<GroupListening>
    requires nodes { (length setting.now.stations.now ≤ length K.base)
        × (length K.base ≤ MAX_NODES) }
    requires room { (vec_len room.now.nodes ≡ length setting.now.stations.now)
        × (length queues.now ≡ length setting.now.stations.now) }
    requires order { queues.now ≡ nodes (length queues.now) }
    // Every node has its listeners. The timer ticks at every node, as often as the setting says.
    ensures all { IfSome result
        (λ it. HasAll (length setting.now.stations.now) setting.now.tick_millis it) }
{
    let (rt, tick_millis) = (setting.rt, setting.tick_millis);
    let mut listening = AllListening::none();
    for place in 0..queues.len() {
        let listener = listener_of(setting, room, stop, &queues[place]);
        let Some(started) = start_listeners(scope, listener) else {
            return None;
        };
        listening = listening.with(setting.stations, &started);
    }
    let queues = TickQueues::of(queues).unwrap();
    let Some(ticking) = start_timer(scope, rt, stop, tick_millis, queues) else {
        return None;
    };
    Some(GroupListening { listening, ticking })
}

// Ends the waits of all threads, once the stop is set: those for datagrams, clients and entries.
fn end_waits<K: HouseName, H: Reporter, R>(setting: &GroupSetting<'_, H, R>, room: &SessionRoom<K>)
where
    R: Wait + Net<Listener = TcpListener, Stream = TcpStream>,
{
    for (connections, _) in &room.nodes {
        connections.end_inputs(setting.rt);
    }
    for station in setting.stations {
        station.wake(setting.rt);
    }
}

// Runs the threads of all nodes until the watch ends, and then stops them. `None` if they could not
// be started.
fn run_threads<'a, K: HouseName + Send + Sync, H: Reporter + Sync, R, W: Watch>(
    setting: &GroupSetting<'a, H, R>,
    room: &'a SessionRoom<K>,
    stop: &'a Stop,
    queues: &'a [NodeQueue<K>],
    watch: &mut W,
) -> Option<GroupListening>
where
    R: Threads + Wait + Clock + Sync + Net<Listener = TcpListener, Stream = TcpStream>,
    requires nodes { (length setting.now.stations.now ≤ length K.base)
        × (length K.base ≤ MAX_NODES) }
    requires room { (vec_len room.now.nodes ≡ length setting.now.stations.now)
        × (length queues.now ≡ length setting.now.stations.now) }
    requires order { queues.now ≡ nodes (length queues.now) }
    ensures all { IfSome result
        (λ it. HasAll (length setting.now.stations.now) setting.now.tick_millis it) }
{
    thread::scope(
        thread::scope_env(),
        setting.rt,
        move |scope| -> Option<GroupListening>
            requires { (length setting.now.stations.now ≤ length K.base)
                × (length K.base ≤ MAX_NODES)
                × (vec_len room.now.nodes ≡ length setting.now.stations.now)
                × (length queues.now ≡ length setting.now.stations.now)
                × (queues.now ≡ nodes (length queues.now)) }
            ensures { IfSome result (λ it. HasAll (length setting.entry.now.stations.now)
                setting.entry.now.tick_millis it) }
        {
            let started = start_threads(scope, setting, room, stop, queues);
            if started.is_some() {
                watch.watch(setting.stations);
            }
            stop.set();
            end_waits(setting, room);
            started
        },
    )
}

/// What the listeners of a group begin with: the queues of its nodes' workers, and the readers that
/// sessions share.
#[derive(Drop)]
pub(crate) struct ListenerInput<K: HouseName> {
    pub(crate) queues: Vec<NodeQueue<K>>,
    pub(crate) readers: Vec<LogReader<K>>,
    ghost order: { queues.items ≡ nodes (vec_len queues) },
}

/// Takes datagrams and clients at the stations, and sends ticks, until the watch ends. Then it
/// stops the threads that it started, and waits for them. Sessions end too: each answers what it
/// has read, and reads no more. `None` if memory or a thread was refused.
pub(crate) fn run_listeners<K: HouseName + Send + Sync, H: Reporter + Sync, R, W: Watch>(
    setting: &GroupSetting<'_, H, R>,
    input: ListenerInput<K>,
    watch: &mut W,
) -> Option<GroupListening>
where
    R: Threads + Wait + Clock + Sync + Net<Listener = TcpListener, Stream = TcpStream>,
    requires nodes { (length setting.now.stations.now ≤ length K.base)
        × (length K.base ≤ MAX_NODES) }
    requires queues { vec_len input.queues ≡ length setting.now.stations.now }
    // While they ran, every node had its listeners, and its ticks as often as the setting says.
    ensures all { IfSome result
        (λ it. HasAll (length setting.now.stations.now) setting.now.tick_millis it) }
{
    let ListenerInput { queues, readers } = input;
    let (alloc, stations) = (setting.alloc, setting.stations);
    let Ok(Some(room)) = SessionRoom::new(alloc, readers, stations.len(), setting.limits) else {
        return None;
    };
    let stop = Stop::new();
    run_threads(setting, &room, &stop, queues.as_slice(), watch)
}
