//! What a worker can be asked to do.

ghost use Rattle.std.specs.Prelude.{◌≡◌};
ghost use Rattle.urb_turn.specs.Jobs.{CallsAt, node_of, runs_at, turns_over};

use urb_foresight::WaitingCall;
use urb_names::{ClientId, NodeId, Payload};

/// One thing to do at a node, for a client, a link, a timer or an operator.
#[derive(Debug, Drop)]
pub enum Job {
    /// A client sends a message to the node.
    Submit {
        node: NodeId,
        client: ClientId,
        number: u32,
        payload: Payload,
    },
    /// Bytes arrive at the node. Any bytes may come.
    Arrive {
        node: NodeId,
        bytes: Vec<u8>,
    },
    /// A timeout at the node.
    Tick(NodeId),
    /// The node stops, and loses what it has not stored. Any worker may do it.
    Crash(NodeId),
    /// The node, which is down, restarts with what its store returns.
    Restart(NodeId),
    /// Asks for the node's status. It is no event.
    Status(NodeId),
}

impl Job {
    /// The node that the job is for.
    pub fn node(&self) -> NodeId
        ensures { result ≡ node_of self.now }
    {
        match self {
            Job::Submit { node, .. } => *node,
            Job::Arrive { node, .. } => *node,
            Job::Tick(node) => *node,
            Job::Crash(node) => *node,
            Job::Restart(node) => *node,
            Job::Status(node) => *node,
        }
    }

    /// Whether the worker of a node does the job: the job is for this node, or is a crash.
    pub fn runs_at(&self, node: NodeId) -> bool
        ensures { result ≡ runs_at node self.now }
    {
        match self {
            Job::Crash(_) => true,
            _ => self.node() == node,
        }
    }

    /// Whether the job crashes or restarts a node. What such a job does to a node isn't foreseen.
    pub fn turns_over(&self) -> bool
        ensures { result ≡ turns_over self.now }
    {
        matches!(self, Job::Crash(_) | Job::Restart(_))
    }

    /// The job's call, if the job is a submit to this node or an arrival there. Such a job may make
    /// the node draft a record. Any other job has no call.
    pub fn call_at(&self, at: NodeId) -> Option<WaitingCall<'_>>
        ensures { CallsAt at self.now result }
    {
        match self {
            Job::Submit {
                node,
                client,
                number,
                payload,
            } if *node == at => Some(WaitingCall::Submit {
                client: *client,
                number: *number,
                payload,
            }),
            Job::Arrive { node, bytes } if *node == at => Some(WaitingCall::Arrive { bytes }),
            _ => None,
        }
    }
}
