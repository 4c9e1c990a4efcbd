//! The listeners of one node: its receiver, its ringer and an acceptor at each of its doors. Each
//! has a witness that it was started.

ghost use Rattle.std.specs.Prelude.{◌≡◌, IfSome, Some, option_map};
ghost use Rattle.urb_link.specs.Doors.{tcp_listener, unix_listener};

use crate::accepting::{Accepting, Welcome, start_acceptor};
use crate::receiving::{Receiving, start_receiver};
use crate::ringing::{Ringing, start_ringer};
use std::alloc::Global;
use std::sync::Wait;
use std::thread::Scope;
use std::time::Clock;
use urb_desk::{Connections, NodeDesk, Refusals};
use urb_link::{NodeQueue, Station, Stop};
use urb_names::NodeId;
use urb_show::HouseName;

/// A node, with what its listeners use.
#[derive(Drop)]
pub(crate) struct NodeListener<'a, K: HouseName, R: Wait + Clock> {
    pub(crate) rt: &'a R,
    pub(crate) alloc: Global,
    pub(crate) stop: &'a Stop,
    pub(crate) station: &'a Station,
    pub(crate) queue: &'a NodeQueue<K>,
    pub(crate) connections: &'a Connections,
    pub(crate) refusals: &'a Refusals,
    pub(crate) desk: NodeDesk<'a, K, R>,
}

/// The witness that a node's listeners were started at its station: a receiver, a ringer, and an
/// acceptor at each door that the station has. Only `start_listeners` makes one.
#[derive(Drop)]
pub(crate) struct Listening<'a> {
    node: NodeId,
    station: &'a Station,
    receiving: Receiving<'a>,
    ringing: Ringing<'a>,
    at_port: Accepting<'a>,
    at_socket: Accepting<'a>,
    ghost receives: { (receiving.node ≡ node) × (receiving.station.now ≡ station.now) },
    ghost rings: { ringing.station.now ≡ station.now },
    ghost accepts: { (at_port.node ≡ node) × (at_socket.node ≡ node) },
    ghost port: { option_map tcp_listener at_port.door ≡ option_map Some station.now.tcp },
    ghost socket: { option_map unix_listener at_socket.door ≡ option_map Some station.now.socket },
}

/// Starts the threads that take a node's datagrams, pass on its bell's rings and accept its clients.
/// `None` if a thread could not be made.
pub(crate) fn start_listeners<'s, E, K: HouseName + Send + Sync, R: Wait + Clock + Sync>(
    scope: &'s Scope<'s, E>,
    listener: NodeListener<'s, K, R>,
) -> Option<Listening<'s>>
    requires { listener.desk.node ≡ listener.queue.now }
    ensures node { IfSome result (λ it. it.node ≡ listener.entry.queue.now) }
    ensures station { IfSome result (λ it. it.station.now ≡ listener.entry.station.now) }
{
    let NodeListener {
        rt,
        alloc,
        stop,
        station,
        queue,
        connections,
        refusals,
        desk,
    } = listener;
    let node = queue.node();
    let Some(receiving) = start_receiver(scope, rt, alloc, stop, station, queue) else {
        return None;
    };
    let Some(ringing) = start_ringer(scope, rt, stop, station) else {
        return None;
    };
    let welcome = Welcome {
        node,
        alloc,
        stop,
        connections,
        refusals,
    };
    let second = desk.copy();
    let Some(at_port) = start_acceptor(scope, rt, &welcome, station.tcp_door(), desk) else {
        return None;
    };
    let Some(at_socket) = start_acceptor(scope, rt, &welcome, station.socket_door(), second) else {
        return None;
    };
    Some(Listening {
        node,
        station,
        receiving,
        ringing,
        at_port,
        at_socket,
    })
}
