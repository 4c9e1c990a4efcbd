//! Buffers of datagrams that a node has handled, for its next datagrams.

ghost use Rattle.std.specs.Prelude.{◌≡◌, ◌-◌, IfSome, option_map, slice_get};

use crate::Station;
use std::sync::Mutex;
use urb_names::NodeId;
use urb_turn::HandledDatagram;

/// How many buffers a node keeps. One that carried a datagram of 16,403 bytes has room for twice
/// that at most.
pub const SPARES: usize = 4;

/// Buffers of datagrams that a node's worker has handled. The node's receiver copies the next
/// datagrams into them. So a datagram takes no new memory while few of them wait. No call waits.
#[derive(Drop)]
pub struct Spares {
    kept: Mutex<[Option<Vec<u8>>; SPARES]>,
}

impl Spares {
    /// No buffers. Allocates nothing.
    pub fn new() -> Spares {
        Spares {
            kept: Mutex::new([None, None, None, None]),
        }
    }

    /// Takes a buffer, whatever it holds. `None` if no buffer is kept, or another thread is in the
    /// middle of a call.
    pub fn take(&self) -> Option<Vec<u8>> {
        let mut kept = self.kept.try_lock()?;
        for place in kept.iter_mut() {
            if place.is_some() {
                return place.take();
            }
        }
        None
    }

    // Keeps a buffer, unless enough are kept or another thread is in the middle of a call.
    // Allocates nothing.
    fn put(&self, buffer: Vec<u8>) {
        let Some(mut kept) = self.kept.try_lock() else {
            return;
        };
        for place in kept.iter_mut() {
            if place.is_none() {
                *place = Some(buffer);
                return;
            }
        }
    }
}

/// The buffers of one node, at its station. Only datagrams of this node go into them.
#[derive(Drop)]
pub(crate) struct NodeSpares<'s> {
    node: NodeId,
    station: &'s Station,
}

impl<'s> NodeSpares<'s> {
    /// The buffers of a node, at its station. The stations are those of nodes 1, 2, and so on. `None`
    /// if this node has no station among them.
    pub(crate) fn of(stations: &'s [Station], node: NodeId) -> Option<NodeSpares<'s>>
        ensures node { IfSome result (λ it. it.node ≡ node) }
        // It is the station at the node's place. There is none only if the list ends before it.
        ensures station { option_map (λ it. it.station.now) result
            ≡ slice_get stations.now (node - 1) }
    {
        match stations.get(usize::from(node.number()) - 1) {
            Some(station) => Some(NodeSpares { node, station }),
            None => None,
        }
    }

    /// Keeps the buffer of a datagram of this node, if there is room. It never waits.
    pub(crate) fn put(&self, datagram: HandledDatagram)
        requires { datagram.node ≡ self.now.node }
    {
        self.station.spares.put(datagram.into_bytes());
    }
}
