//! A node's receiver, with the witness that its thread was started.

ghost use Rattle.std.specs.Prelude.{◌≡◌, IfSome};

use std::alloc::Global;
use std::sync::Wait;
use std::thread::Scope;
use std::time::Clock;
use urb_link::{NodeQueue, Station, Stop, receive};
use urb_names::NodeId;
use urb_show::HouseName;

/// The witness that a thread takes the datagrams of a station for the worker of a node. Only
/// `start_receiver` makes one, since one of its fields is private.
#[derive(Drop)]
pub(crate) struct Receiving<'a> {
    pub(crate) node: NodeId,
    pub(crate) station: &'a Station,
    started: (),
}

/// Starts the thread that takes a station's datagrams for the worker of the queue's node. `None` if
/// no thread could be made.
pub(crate) fn start_receiver<'s, E, K: HouseName + Send + Sync, R: Wait + Clock + Sync>(
    scope: &'s Scope<'s, E>,
    rt: &'s R,
    alloc: Global,
    stop: &'s Stop,
    station: &'s Station,
    queue: &'s NodeQueue<K>,
) -> Option<Receiving<'s>>
    ensures node { IfSome result (λ it. it.node ≡ queue.now) }
    ensures station { IfSome result (λ it. it.station.now ≡ station.now) }
{
    let arrivals = queue.arrivals();
    let work = move || receive(rt, alloc, stop, station, arrivals);
    if scope.spawn(work).is_err() {
        return None;
    }
    Some(Receiving {
        node: queue.node(),
        station,
        started: (),
    })
}
