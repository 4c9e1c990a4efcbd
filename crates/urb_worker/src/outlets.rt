//! What a worker lets out of its node: packets over a link, and reports of changes.
//!
//! The outlets also list why each batch of the worker ended, for contracts alone. Nothing of that
//! goes out.
//!
//! The link and the reporter belong to all workers of a group. A worker sends and reports changes
//! only through outlets of its own, and contracts see the list of all that went through them. No
//! other place of this crate may call a link's `send` or a reporter's `report`: a check of the gate
//! holds that.

ghost use Rattle.std.specs.Prelude.{◌≡◌, ◌++◌, ◌∷◌, []};
ghost use Rattle.urb_worker.specs.Acts.{Ended, Lost, Reported, Sent};
ghost use Rattle.urb_worker.specs.ServedStores.{notes_of};

use crate::acts::{ActList, Ending, Losing, Reporting, Sending, Shortage};
use crate::ticket_batch::BatchEnd;
use std::marker::Model;
use urb_link::Link;
use urb_names::{NoMemory, NodeId};
use urb_turn::{Change, Reporter};

/// One worker's way to its group's link and reporter. Contracts see all that it has let out so far.
#[derive(Drop)]
pub struct WorkerOutlets<'a, N: Link, H: Reporter> {
    link: &'a N,
    reporter: &'a H,
    acts: ActList,
}

impl<'a, N: Link, H: Reporter> Model for WorkerOutlets<'a, N, H> {
    ghost use Rattle.std.specs.Prelude.{List};
    ghost use Rattle.urb_worker.specs.Acts.{Act};

    ghost Value = { List Act };

    ghost view = { λ o. o.acts };
}

impl<'a, N: Link, H: Reporter> WorkerOutlets<'a, N, H> {
    /// Outlets for one worker. Nothing went through them yet.
    pub(crate) fn new(link: &'a N, reporter: &'a H) -> WorkerOutlets<'a, N, H>
        ensures { result ≡ [] }
    {
        WorkerOutlets {
            link,
            reporter,
            acts: ActList::new(),
        }
    }

    /// Gives the link bytes for a node.
    pub(crate) fn send(&mut self, target: NodeId, bytes: &[u8])
        ensures { self.new ≡ self.old ++ Sent target bytes.now ∷ [] }
    {
        let handed = self.link.send(target, bytes);
        self.acts = self.acts.with(&Sending { handed });
    }

    /// Loses a packet for a node, because this memory was refused.
    pub(crate) fn lose(&mut self, target: NodeId, _refused: NoMemory)
        ensures { self.new ≡ self.old ++ Lost target ∷ [] }
    {
        self.acts = self.acts.with(&Losing { target });
    }

    /// Reports a change of a node.
    pub(crate) fn report(&mut self, change: &Change)
        ensures { self.new ≡ self.old ++ Reported change.now ∷ [] }
    {
        self.reporter.report(*change);
        self.acts = self.acts.with(&Reporting { change });
    }

    /// Notes why the worker takes no more tickets at once.
    pub(crate) fn end_batch(&mut self, end: BatchEnd)
        ensures { self.new ≡ self.old ++ Ended end ∷ [] }
    {
        self.acts = self.acts.with(&Ending { end: &end });
    }

    /// Notes that less is foreseen of a batch, if memory was refused for that.
    pub(crate) fn run_short(&mut self, left_out: Option<NoMemory>)
        ensures { self.new ≡ self.old ++ notes_of left_out }
    {
        if let Some(_refused) = left_out {
            self.acts = self.acts.with(&Shortage);
        }
    }
}
