//! A datagram that its node's worker has handled.

ghost use Rattle.std.specs.Prelude.{◌≡◌, IfSome};
ghost use Rattle.urb_turn.specs.Jobs.{node_of};
ghost use Rattle.urb_turn.specs.internal.Arrivals.{IsArrival};

use crate::Job;
use urb_names::NodeId;

/// A datagram that its node's worker has handled. Its buffer may be used again, for a datagram of
/// the same node. It keeps its node, so that nobody has to say which one that is.
#[derive(Drop)]
pub struct HandledDatagram {
    node: NodeId,
    bytes: Vec<u8>,
}

impl HandledDatagram {
    /// The datagram of a job, if the job is an arrival.
    pub(crate) fn of_job(job: Job) -> Option<HandledDatagram>
        ensures bytes { IfSome result (λ it. IsArrival it.node it.bytes.items job) }
        ensures node { IfSome result (λ it. it.node ≡ node_of job) }
    {
        match job {
            Job::Arrive { node, bytes } => Some(HandledDatagram { node, bytes }),
            _ => None,
        }
    }

    /// The node at which the datagram arrived.
    pub fn node(&self) -> NodeId
        ensures { result ≡ self.now.node }
    {
        self.node
    }

    /// The buffer, with the bytes.
    pub fn into_bytes(self) -> Vec<u8>
        ensures { result.items ≡ self.bytes.items }
    {
        let HandledDatagram { node: _, bytes } = self;
        bytes
    }
}
