//! A worker's pulse: when its node ticks early, between two ticks of the timer.

ghost use Rattle.std.specs.Prelude.{◌≡◌, ◌≤◌, Some, None, if◌then◌else◌};
ghost use Rattle.urb_worker.specs.internal.Pulses.{IsPauseOf, after_tick, at_rest, is_due};
ghost use Rattle.urb_worker.specs.internal.Pulses.{is_new, is_news, is_tick, pulse_after, sends, tells_heard};
ghost use Rattle.urb_node.specs.Steps.{says_heard};
ghost use Rattle.urb_turn.specs.declared.job.Job.TheVariants.{Tick};
ghost use Rattle.urb_worker.specs.declared.pulse.TheConstants.{EARLY_TICKS};

use crate::job_results::{is_record_stored, packets_in};
use crate::tickets::Patience;
use std::marker::Model;
use std::time::Duration;
use urb_group::{Answer, Reply};
use urb_names::{Flags, NodeId, parse};
use urb_show::HouseName;
use urb_turn::{Finished, Job};

/// How many early ticks a node has at most, one after the other, if it learns nothing new.
pub const EARLY_TICKS: u32 = 8;

/// The pause before the first of these ticks, in milliseconds. Each pause is longer than the one
/// before by this much.
pub const LEAST_PAUSE: u32 = 2;

/// When a node ticks early. What a tick sent may have been lost. So after a tick that sent something
/// another one follows, as soon as no ticket has come for a pause. A tick that sends nothing ends
/// this.
///
/// If the other nodes are down, nobody answers, however often the node ticks. So it has at most
/// `EARLY_TICKS` early ticks after it last learnt something new. Then it is silent until the timer
/// ticks, or something new comes.
#[derive(Drop)]
pub(crate) struct Pulse {
    // Whether the last tick sent something.
    owes: bool,
    // How many early ticks there were since the node learnt something new.
    early: u32,
    ghost bound: { early ≤ EARLY_TICKS },
}

impl Model for Pulse {
    ghost use Rattle.urb_worker.specs.internal.Pulses.{PulseView};

    ghost Value = { PulseView };

    ghost view = { λ p. record { owes = p.owes; early = p.early } };
}

// Whether a reply has packets.
fn sends(reply: &Reply) -> bool
    ensures { result ≡ sends reply.now }
{
    match packets_in(reply) {
        Some(packets) => packets.len() > 0,
        None => false,
    }
}

// Whether these flags say that the packet's source heard the certificate of the packet's target.
fn says_heard(flags: Option<Flags>) -> bool
    ensures { result ≡ says_heard flags }
{
    match flags {
        Some(flags) => flags.heard,
        None => false,
    }
}

// Whether a datagram is a packet whose source heard this node's certificate.
#[tactic(auto, using(crate::proofs::Pulses::said_by_packet, crate::proofs::Pulses::said_by_none))]
fn tells_heard(datagram: &[u8]) -> bool
    ensures { result ≡ tells_heard datagram.now }
{
    match parse(datagram) {
        Ok(packet) => says_heard(packet.flags()),
        Err(_) => false,
    }
}

// Whether a datagram with this reply told a node something new.
fn is_new(datagram: &[u8], reply: &Reply) -> bool
    ensures { result ≡ is_new datagram.now reply.now }
{
    match reply {
        Reply::Stored(_) => true,
        Reply::Same(answer) => match answer {
            Answer::Noted(_) => true,
            Answer::Again(_) => tells_heard(datagram),
            Answer::Accepted(_) | Answer::Answered(_, _) => false,
        },
        Reply::Drafted { .. } | Reply::Sent(_) => false,
        Reply::WentDown(_) | Reply::Up(_) | Reply::Refused(_) => false,
    }
}

// Whether a node learnt something new by a job with this reply.
fn is_news(job: &Job, reply: &Reply) -> bool
    ensures { result ≡ is_news job.now reply.now }
{
    match job {
        Job::Submit { .. } => is_record_stored(reply),
        Job::Arrive { bytes, .. } => is_new(bytes, reply),
        Job::Tick(_) | Job::Crash(_) | Job::Restart(_) | Job::Status(_) => false,
    }
}

// Whether a job is a tick.
fn is_tick(job: &Job) -> bool
    ensures { result ≡ is_tick job.now }
{
    matches!(job, Job::Tick(_))
}

impl Pulse {
    /// No tick is due.
    pub(crate) fn at_rest() -> Pulse
        ensures { result ≡ at_rest }
    {
        Pulse {
            owes: false,
            early: 0,
        }
    }

    // Goes on after a tick, of the timer or early, which sent something or nothing.
    fn learn_tick(&mut self, is_early: bool, sent: bool)
        ensures { self.new ≡ after_tick is_early sent self.old }
    {
        let early = if is_early {
            (self.early + 1).min(EARLY_TICKS)
        } else {
            0
        };
        *self = if sent {
            Pulse { owes: true, early }
        } else {
            Pulse::at_rest()
        };
    }

    /// Goes on after a job. `is_early` says of a tick that it was not the timer's.
    pub(crate) fn learn<K: HouseName>(&mut self, is_early: bool, finished: &Finished<K>)
        ensures { self.new ≡ pulse_after is_early finished.now self.old }
    {
        let (job, reply) = (finished.job(), finished.reply());
        if is_tick(job) {
            self.learn_tick(is_early, sends(reply));
        } else if is_news(job, reply) {
            self.early = 0;
        }
    }

    // Whether an early tick is due.
    fn is_due(&self) -> bool
        ensures { result ≡ is_due self.now }
    {
        self.owes && self.early < EARLY_TICKS
    }

    /// How long the worker waits for a ticket before its node ticks early: for the pause if such a
    /// tick is due, and otherwise without an end.
    pub(crate) fn patience(&self) -> Patience
        ensures { IsPauseOf self.now result }
    {
        if self.is_due() {
            let millis = LEAST_PAUSE * (self.early + 1);
            Patience::For(Duration::from_millis(u64::from(millis)))
        } else {
            Patience::Endless
        }
    }

    /// The tick that is due, if one is.
    pub(crate) fn tick(&self, node: NodeId) -> Option<Job>
        ensures { result ≡ (if is_due self.now then Some (Tick node) else None) }
    {
        if self.is_due() {
            Some(Job::Tick(node))
        } else {
            None
        }
    }
}
