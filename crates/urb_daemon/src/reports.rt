//! What operators read about a running group.

use urb_names::{NodeId, Refusal};
use urb_turn::{Change, Reporter};

/// Reports each node that goes down or comes back, in a line of its own. A line that can't be
/// written is lost. A worker calls it, so the output should be one that never waits.
#[derive(Drop)]
pub struct Reports<'a, E: Eprint> {
    errors: &'a E,
}

impl<'a, E: Eprint> Reports<'a, E> {
    /// Reports to this output: an `ErrorOutput`, in the daemon.
    pub fn new(errors: &'a E) -> Reports<'a, E> {
        Reports { errors }
    }

    // Reports that a node's store failed.
    fn tell_failure(&self, node: NodeId, refusal: Refusal) {
        let (node, number) = (node.number(), refusal.number());
        let _ = eprintln!(self.errors; "urbd: node {node} is down: {refusal} ({number})");
    }
}

impl<'a, E: Eprint> Reporter for Reports<'a, E> {
    fn report(&self, change: Change) {
        match change {
            Change::Failed(node, refusal) => self.tell_failure(node, refusal),
            Change::Crashed(node) => {
                let node = node.number();
                let _ = eprintln!(self.errors; "urbd: node {node} is down: asked to crash");
            }
            Change::CameBack(node) => {
                let node = node.number();
                let _ = eprintln!(self.errors; "urbd: node {node} is back");
            }
        }
    }

    fn report_connections(&self, each: usize) {
        let _ = eprintln!(self.errors;
            "urbd: few descriptors: each node serves {each} connections"
        );
    }

    fn report_cut_feed(&self, node: NodeId) {
        let node = node.number();
        let _ = eprintln!(self.errors;
            "urbd: no memory to feed node {node}: ticks bring what its log lacks"
        );
    }
}
