//! An acceptor at a node's door, with the witness that its thread was started.

ghost use Rattle.std.specs.Prelude.{◌≡◌, IfSome};

use std::alloc::Global;
use std::sync::Wait;
use std::thread::Scope;
use std::time::Clock;
use urb_desk::{Acceptor, Connections, NodeDesk, Refusals, accept_clients};
use urb_link::{Door, Stop};
use urb_names::NodeId;
use urb_show::HouseName;

/// What the acceptors of a node share.
#[derive(Drop)]
pub(crate) struct Welcome<'a> {
    pub(crate) node: NodeId,
    pub(crate) alloc: Global,
    pub(crate) stop: &'a Stop,
    pub(crate) connections: &'a Connections,
    pub(crate) refusals: &'a Refusals,
}

/// The witness that a thread accepts the clients of a node at a door, or that there is no such door.
/// Only `start_acceptor` makes one, since one of its fields is private.
#[derive(Drop)]
pub(crate) struct Accepting<'a> {
    pub(crate) node: NodeId,
    pub(crate) door: Option<Door<'a>>,
    started: (),
}

/// Starts the thread that accepts a node's clients at a door, if there is such a door. `None` if no
/// thread could be made.
pub(crate) fn start_acceptor<'s, E, K: HouseName + Send + Sync, R: Wait + Clock + Sync>(
    scope: &'s Scope<'s, E>,
    rt: &'s R,
    welcome: &Welcome<'s>,
    door: Option<Door<'s>>,
    desk: NodeDesk<'s, K, R>,
) -> Option<Accepting<'s>>
    requires { desk.node ≡ welcome.now.node }
    ensures node { IfSome result (λ it. it.node ≡ welcome.now.node) }
    ensures door { IfSome result (λ it. it.door ≡ door.entry) }
{
    let node = welcome.node;
    if let Some(door) = door {
        let acceptor = Acceptor {
            alloc: welcome.alloc,
            stop: welcome.stop,
            door,
            connections: welcome.connections,
            refusals: welcome.refusals,
        };
        let work = move || accept_clients(scope, rt, acceptor, desk);
        if scope.spawn(work).is_err() {
            return None;
        }
    }
    Some(Accepting {
        node,
        door,
        started: (),
    })
}
