//! What a worker does besides its tickets: it feeds its node, and ticks again.

ghost use Rattle.std.specs.Prelude.{◌≡◌, IfOk, None, OnErr, if◌then◌else◌, is_some};
ghost use Rattle.urb_turn.specs.Changes.{change_of};
ghost use Rattle.urb_worker.specs.internal.OwnJobs.{Begins, FeedsAfter, IsNextArrival, IsOwnJob};
ghost use Rattle.urb_worker.specs.internal.OwnJobs.{WaitsFor, left_of};
ghost use Rattle.urb_worker.specs.internal.Pulses.{at_rest, pulse_after};

use crate::WorkerSetting;
use crate::feeding::{Feeding, arrival_of};
use crate::pulse::Pulse;
use crate::tickets::Patience;
use std::marker::Model;
use std::sync::Wait;
use urb_link::Link;
use urb_names::{NoMemory, NodeId};
use urb_show::HouseName;
use urb_turn::{Change, Finished, Gate, HubName, Job, Reporter, change_of};

/// The witness that a worker feeds its node. Only `OwnJobs::feeds` makes one, since its field is
/// private. So a worker takes a ticket alone for this reason only while it feeds.
#[derive(Drop)]
pub(crate) struct Feeds {
    seen: (),
}

/// A worker's jobs of its own: what is left of its node's feed, and the tick that is due.
#[derive(Drop)]
pub(crate) struct OwnJobs {
    feeding: Option<Feeding>,
    pulse: Pulse,
}

impl Model for OwnJobs {
    ghost use Rattle.urb_worker.specs.internal.OwnJobs.{OwnJobsView};

    ghost Value = { OwnJobsView };

    ghost view = { λ o. record { feeding = o.feeding; pulse = o.pulse } };
}

// The next packet of a feed, as a job. `None` if the portion that was made is empty.
#[tactic(auto, using(crate::proofs::NodeFeeds::arrives))]
fn next_arrival<K: HouseName, L: HubName, N: Link, G: Gate, H: Reporter, R: Wait>(
    setting: &WorkerSetting<'_, K, L, N, G, H, R>,
    feeding: &mut Feeding,
) -> Result<Option<Job>, NoMemory>
    ensures { IfOk result (λ own. IsNextArrival K.origin feeding.old feeding.new own) }
{
    let alloc = setting.alloc;
    match feeding.next_packet(setting.rt, alloc, setting.hub)? {
        Some(packet) => {
            let job = arrival_of(alloc, &packet)?;
            Ok(Some(job))
        }
        None => Ok(None),
    }
}

// What is left of a feed: nothing if it has gone through all names and no packet waits.
fn left_of(feeding: Feeding) -> Option<Feeding>
    ensures { result ≡ left_of feeding }
{
    if feeding.is_over() {
        None
    } else {
        Some(feeding)
    }
}

impl OwnJobs {
    /// What a worker has to do of its own when it starts: to feed its node, if the setting says so.
    pub(crate) fn at_start<K: HouseName, L: HubName, N: Link, G: Gate, H: Reporter, R: Wait>(
        setting: &WorkerSetting<'_, K, L, N, G, H, R>,
        node: NodeId,
    ) -> OwnJobs
        ensures feed { Begins K.origin setting.now.mends node None result.feeding }
        ensures pulse { result.pulse ≡ at_rest }
    {
        let mut own = OwnJobs {
            feeding: None,
            pulse: Pulse::at_rest(),
        };
        own.begin_feeding(setting, node);
        own
    }

    // Begins to feed the node with all that its log lacks now, if the setting says so.
    fn begin_feeding<K: HouseName, L: HubName, N: Link, G: Gate, H: Reporter, R: Wait>(
        &mut self,
        setting: &WorkerSetting<'_, K, L, N, G, H, R>,
        node: NodeId,
    )
        ensures feed { Begins K.origin setting.now.mends node self.old.feeding self.new.feeding }
        ensures pulse { self.new.pulse ≡ self.old.pulse }
    {
        if setting.mends {
            self.feeding = Some(Feeding::begin(setting.rt, setting.alloc, setting.hub, node));
        }
    }

    /// The witness that the worker feeds its node, if it does.
    pub(crate) fn feeds(&self) -> Option<Feeds>
        ensures { is_some result ≡ is_some self.now.feeding }
    {
        if self.feeding.is_some() {
            Some(Feeds { seen: () })
        } else {
            None
        }
    }

    /// How long the worker waits for a ticket. While there is something to feed, it doesn't wait.
    pub(crate) fn patience(&self) -> Patience
        ensures { WaitsFor self.now.feeding self.now.pulse result }
    {
        if self.feeding.is_some() {
            Patience::Brief
        } else {
            self.pulse.patience()
        }
    }

    /// Takes note of a job that was done: a node that came back is fed, one that went down isn't.
    /// `is_own` says whether the job was one of these jobs, and no ticket's. Such a tick is early.
    pub(crate) fn learn<K: HouseName, L: HubName, N: Link, G: Gate, H: Reporter, R: Wait>(
        &mut self,
        setting: &WorkerSetting<'_, K, L, N, G, H, R>,
        node: NodeId,
        is_own: bool,
        finished: &Finished<K>,
    )
        ensures feed { FeedsAfter K.origin setting.now.mends node (change_of finished.now)
            self.old.feeding self.new.feeding }
        ensures pulse { self.new.pulse ≡ (if setting.now.mends
            then pulse_after is_own finished.now self.old.pulse else self.old.pulse) }
    {
        self.learn_change(setting, node, change_of(finished));
        if setting.mends {
            self.pulse.learn(is_own, finished);
        }
    }

    // Takes note of how a job changed whether the node is up.
    fn learn_change<K: HouseName, L: HubName, N: Link, G: Gate, H: Reporter, R: Wait>(
        &mut self,
        setting: &WorkerSetting<'_, K, L, N, G, H, R>,
        node: NodeId,
        change: Option<Change>,
    )
        ensures feed { FeedsAfter K.origin setting.now.mends node change
            self.old.feeding self.new.feeding }
        ensures pulse { self.new.pulse ≡ self.old.pulse }
    {
        match change {
            Some(Change::CameBack(_)) => self.begin_feeding(setting, node),
            Some(Change::Crashed(_)) | Some(Change::Failed(_, _)) => self.feeding = None,
            None => {}
        }
    }

    /// The worker's next job of its own: the arrival of a packet that is fed, or else the tick that
    /// is due, if the worker has waited for it. `NoMemory`: there was no memory for the arrival, and
    /// the feed has ended.
    #[tactic(auto, using(crate::proofs::NodeFeeds::goes_on))]
    pub(crate) fn next<K: HouseName, L: HubName, N: Link, G: Gate, H: Reporter, R: Wait>(
        &mut self,
        setting: &WorkerSetting<'_, K, L, N, G, H, R>,
        node: NodeId,
        has_waited: bool,
    ) -> Result<Option<Job>, NoMemory>
        ensures own { IfOk result
            (IsOwnJob K.origin node has_waited self.old.pulse self.old.feeding self.new.feeding) }
        ensures cut { OnErr result (self.new.feeding ≡ None) }
        ensures pulse { self.new.pulse ≡ self.old.pulse }
    {
        let Some(mut feeding) = self.feeding.take() else {
            return if has_waited {
                Ok(self.pulse.tick(node))
            } else {
                Ok(None)
            };
        };
        match next_arrival(setting, &mut feeding) {
            Ok(job) => {
                self.feeding = left_of(feeding);
                Ok(job)
            }
            Err(refused) => Err(refused),
        }
    }
}
