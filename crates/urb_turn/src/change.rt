//! Whether a turn took its node down or brought it back, and the reporter of such changes.

ghost use Rattle.std.specs.Prelude.{◌≡◌};
ghost use Rattle.urb_turn.specs.Changes.{change_of, crash_by, failure_by, return_by};

use crate::{Finished, Job};
use urb_group::Reply;
use urb_names::{NodeId, Refusal};
use urb_show::HouseName;

/// How a turn changed whether its node is up.
#[derive(Clone, Copy, Debug, PartialEq, Eq)]
pub enum Change {
    /// The node's store failed, so the node went down. The refusal reports the fault.
    Failed(NodeId, Refusal),
    /// The node was asked to crash, and went down.
    Crashed(NodeId),
    /// The node was restarted, and is up.
    CameBack(NodeId),
}

/// Reports each node that goes down or comes back, for operators. A running group's workers call it
/// on their threads, after the turn that changed the node and before its answer.
pub trait Reporter {
    fn report(&self, change: Change);

    /// Reports how many connections of clients each node serves at a time, before the group runs, if
    /// that is fewer than were asked for. A reporter that doesn't care does nothing.
    fn report_connections(&self, _each: usize) {}

    /// Reports that a node's feed ended early, because memory was refused. Ticks bring the node
    /// what its log still lacks. A reporter that doesn't care does nothing.
    fn report_cut_feed(&self, _node: NodeId) {}
}

/// A reporter that does nothing.
#[derive(Clone, Copy, Debug, Drop)]
pub struct Silent;

impl Reporter for Silent {
    fn report(&self, _change: Change) {}
}

// Whether a turn that drafts at a node was refused after two events.
fn failure_by(node: NodeId, reply: &Reply, events: u8) -> Option<Change>
    ensures { result ≡ failure_by node reply.now events }
{
    match reply {
        Reply::Refused(refusal) if events == 2 => Some(Change::Failed(node, *refusal)),
        _ => None,
    }
}

// Whether a crash of a node was not refused.
fn crash_by(node: NodeId, reply: &Reply) -> Option<Change>
    ensures { result ≡ crash_by node reply.now }
{
    match reply {
        Reply::WentDown(_) => Some(Change::Crashed(node)),
        _ => None,
    }
}

// Whether a restart of a node was not refused.
fn return_by(node: NodeId, reply: &Reply) -> Option<Change>
    ensures { result ≡ return_by node reply.now }
{
    match reply {
        Reply::Up(_) => Some(Change::CameBack(node)),
        _ => None,
    }
}

/// How a turn changed whether its node is up. `None` if it didn't, or if it didn't run. A turn
/// drafts a record by one event, and a store that fails is a second event. So a refusal after two
/// events comes from the store. A status changes nothing.
pub fn change_of<K: HouseName>(finished: &Finished<K>) -> Option<Change>
    ensures { result ≡ change_of finished.now }
{
    let reply = finished.reply();
    match finished.job() {
        Job::Submit { node, .. } => failure_by(*node, reply, finished.events()),
        Job::Arrive { node, .. } => failure_by(*node, reply, finished.events()),
        Job::Crash(node) => crash_by(*node, reply),
        Job::Restart(node) => return_by(*node, reply),
        Job::Tick(_) | Job::Status(_) => None,
    }
}
