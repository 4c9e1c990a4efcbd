//! One job's turn on the House, and its result.

ghost use Rattle.std.specs.Prelude.{◌≡◌, ◌-◌, ◌≤◌, ◌↔◌, IfSome, IsTrue, true};
ghost use Rattle.urb_turn.specs.Counting.{count_after};
ghost use Rattle.urb_turn.specs.Loans.{AreLoans, Follows, IsLoan, end_of, events_until};
ghost use Rattle.urb_turn.specs.Jobs.{node_of};
ghost use Rattle.urb_turn.specs.Settlings.{published_by, told_in};
ghost use Rattle.urb_turn.specs.Stages.{is_stored};
ghost use Rattle.urb_turn.specs.internal.LoanEnds.{back_of};
ghost use Rattle.urb_turn.specs.internal.Stages.{is_drafted};
ghost use Rattle.urb_turn.specs.Turns.{Begins, Finishes, HasBegun, Stores};
ghost use Rattle.urb_show.specs.Pasts.{IsLedTo};
ghost use Rattle.urb_turn.specs.WholeTurns.{misrouted};

use crate::loans::{Loan, Loans};
use crate::settling::Settling;
use crate::turn_stages::{
    Ending, Stage, finish_event, run_store, stage_after_crash, stage_after_message,
    stage_after_tick, stage_of_restart,
};
use crate::{HandledDatagram, Job};
use std::alloc::Global;
use std::marker::Model;
use std::sync::Wait;
use urb_group::{Reply, Stable};
use urb_names::Refusal;
use urb_show::{House, HouseName, Moment, Status, Told};

/// A job that has begun, on the House that K names. It continues with `store`, which doesn't borrow
/// the House, and ends with `finish`.
#[derive(Drop)]
pub struct Turn<K: HouseName> {
    job: Job,
    stage: Stage,
    // The number of its events so far.
    count: u8,
    // Its first loan of the House. `None` if the House gave no moment, which no run sees.
    loan: Option<Loan<K>>,
}

impl<K: HouseName> Model for Turn<K> {
    ghost use Rattle.std.specs.Prelude.{◌≤◌};
    ghost use Rattle.urb_turn.specs.Turns.{HasBegun};
    ghost use Rattle.urb_turn.specs.Views.{TurnView};

    ghost Value = { TurnView };

    ghost view = { λ t. record {
      job = t.job;
      stage = t.stage;
      events = t.count;
      loan = t.loan;
    } };

    ghost invariant = { λ t. (t.count ≤ 1) × HasBegun K.origin t.job t.stage t.loan };
}

/// The result of a job. If the job ran, it comes from a turn on the House that K names.
#[derive(Drop)]
pub struct Finished<K: HouseName> {
    job: Job,
    reply: Reply,
    status: Option<Status>,
    settling: Settling<K>,
    ran: bool,
    events: u8,
    // Its loans of the House. `None` if it did not run, or if the House gave no moment.
    loans: Option<Loans<K>>,
}

impl<K: HouseName> Model for Finished<K> {
    ghost use Rattle.urb_turn.specs.Settlings.{published_by};
    ghost use Rattle.urb_turn.specs.Turns.{IsOutcome};
    ghost use Rattle.urb_turn.specs.Views.{FinishedView};

    ghost Value = { FinishedView };

    ghost invariant = { λ f. IsOutcome K.origin f.ran f.job f.reply f.status
        (published_by f.settling) f.loans };

    ghost view = { λ f. record {
      job = f.job;
      reply = f.reply;
      status = f.status;
      settling = published_by f.settling;
      ran = f.ran;
      events = f.events;
      loans = f.loans;
    } };
}

impl<K: HouseName> Turn<K> {
    /// The job's event before its store. A restart of a node that is down asks its store first, and
    /// a status is no event: they change nothing here.
    #[tactic(auto, using(crate::proofs::TurnLoans::is_loan, crate::proofs::TurnSteps::just_begun))]
    pub fn begin(alloc: Global, house: &mut House<K>, job: Job) -> Turn<K>
        ensures job { result.job ≡ job }
        // What it did to the House, in full.
        ensures step { Begins house.old job house.new result.stage result.events }
        ensures counted { house.new.events ≡ count_after result.events house.old.events }
        // The past of the House led to its group, and these are the moments of the loan.
        ensures leads { IsLedTo K.origin house.old.past house.old.group }
        ensures loan { IfSome result.loan (λ l. IsLoan house.old house.new l) }
    {
        house.recall();
        let lent = house.mark();
        let (stage, count) = match &job {
            Job::Submit {
                node,
                client,
                number,
                payload,
            } => stage_after_message(house.submit(alloc, *node, *client, *number, payload)),
            Job::Arrive { node, bytes } => stage_after_message(house.arrive(
                alloc,
                *node,
                bytes.as_slice(),
            )),
            Job::Tick(node) => stage_after_tick(house.tick(alloc, *node)),
            Job::Crash(node) => stage_after_crash(*node, house.crash(*node)),
            Job::Restart(node) => (stage_of_restart(house.state(*node)), 0),
            Job::Status(_) => (Stage::Asking, 0),
        };
        let loan = Loan::new(lent, house.mark());
        Turn {
            job,
            stage,
            count,
            loan,
        }
    }

    /// Has the store keep the draft, or return the image for a restart. In other stages it does
    /// nothing. The House isn't locked meanwhile: the node may be crashed, and other nodes may act.
    pub fn store<S: Stable<Alloc = Global>>(self, alloc: Global, store: &mut S) -> Turn<K>
        ensures job { result.job ≡ self.job }
        ensures events { result.events ≡ self.events }
        ensures loan { result.loan ≡ self.loan }
        ensures step { Stores S.Stable store.old self.stage store.new result.stage }
        ensures stored { is_stored result.stage ≡ true }
    {
        let Turn {
            job,
            stage,
            count,
            loan,
        } = self;
        Turn {
            job,
            stage: run_store(alloc, stage, store),
            count,
            loan,
        }
    }

    /// The job's event after its store. If names of the node were released, the node is settled. If
    /// the draft is no longer held, its receipt is dropped and the reply is `Refused(Stale)`. May
    /// wait for a reader.
    #[tactic(auto, using(crate::proofs::EventCounts::ends_count, crate::proofs::TurnLoans::is_loan, crate::proofs::TurnLoans::are_loans, crate::proofs::TurnSteps::came_on))]
    pub fn finish<R: Wait>(self, rt: &R, alloc: Global, house: &mut House<K>) -> Finished<K>
        requires { is_stored self.stage ≡ true }
        ensures job { result.job ≡ self.job }
        ensures ran { result.ran ≡ true }
        // What it did to the House, in full.
        ensures step { Finishes house.old self house.new result }
        // A turn of this job had begun.
        ensures begun { HasBegun K.origin self.job self.stage self.loan }
        ensures events { self.events ≤ result.events }
        ensures counted { house.new.events
            ≡ count_after (result.events - self.events) house.old.events }
        // The past of the House led to its group, and these are the loans of the turn.
        ensures leads { IsLedTo K.origin house.old.past house.old.group }
        ensures loans { IfSome result.loans (λ l. AreLoans self.loan house.old house.new l) }
    {
        let Turn {
            job,
            stage,
            count,
            loan,
        } = self;
        house.recall();
        let lent = house.mark();
        let Ending {
            reply,
            status,
            settling,
            events: more,
        } = finish_event(rt, alloc, house, &job, stage);
        let last = Loan::new(lent, house.mark());
        Finished {
            job,
            reply,
            status,
            settling,
            ran: true,
            events: count + more,
            loans: Loans::new(loan, last),
        }
    }

    // The moment when its first loan ended. `None` if the House gave no moment.
    pub(crate) fn end_of_loan(&self) -> Option<Moment<K>>
        ensures { result ≡ back_of self.now.loan }
    {
        match &self.loan {
            Some(loan) => Some(loan.end()),
            None => None,
        }
    }

    // Whether the store has to keep a draft.
    pub(crate) fn is_drafted(&self) -> bool
        ensures { result ≡ is_drafted self.now.stage }
    {
        matches!(self.stage, Stage::Drafted(_))
    }

    // Whether the store has nothing to do, now or later.
    pub(crate) fn is_stored(&self) -> bool
        ensures { result ≡ is_stored self.now.stage }
    {
        !matches!(self.stage, Stage::Drafted(_) | Stage::Retrieving)
    }

    // The number of its events so far.
    pub(crate) fn events(&self) -> u8
        ensures value { result ≡ self.now.events }
        ensures range { result ≤ 1 }
    {
        self.count
    }
}

impl<K: HouseName> Finished<K> {
    /// The result of a job for another node than its worker's: it did not run.
    pub fn misrouted(job: Job) -> Finished<K>
        ensures { result ≡ misrouted job }
    {
        Finished {
            job,
            reply: Reply::Refused(Refusal::BadNode),
            status: None,
            settling: Settling::NothingNew,
            ran: false,
            events: 0,
            loans: None,
        }
    }

    /// The job.
    pub fn job(&self) -> &Job
        ensures { result.now ≡ self.now.job }
    {
        &self.job
    }

    /// The outcome: the reply to the last event, or a refusal. After a status it is `WentDown` if
    /// the node is down, else `Up`.
    pub fn reply(&self) -> &Reply
        ensures { result.now ≡ self.now.reply }
    {
        &self.reply
    }

    /// Whether it ran. Only `Turn::finish` makes a result of a job that ran.
    pub fn ran(&self) -> bool
        ensures { result ≡ self.now.ran }
    {
        self.ran
    }

    /// The number of its events of the House: its calls there that were not refused.
    pub fn events(&self) -> u8
        ensures { result ≡ self.now.events }
    {
        self.events
    }

    /// Whether the names that it released are published: there were none, or they are, or memory
    /// was refused.
    pub fn settling(&self) -> &Settling<K>
        ensures { published_by result.now ≡ self.now.settling }
    {
        &self.settling
    }

    /// Its reply; the node's status, if the job asked for it; and the published lists, if the node
    /// was settled. A reader that learns these sees the names that were released.
    pub fn into_parts(self) -> (Reply, Option<Status>, Option<Told<K>>)
        ensures { result ≡ (self.reply, self.status, told_in self.settling) }
    {
        let Finished {
            reply,
            status,
            settling,
            ..
        } = self;
        (reply, status, settling.into_told())
    }

    /// Whether its turn got the House at this moment or later. A job that did not run has no place.
    #[tactic(auto, using(crate::proofs::SeenEvents::after_unran, crate::proofs::SeenEvents::after_none, crate::proofs::SeenEvents::after_some))]
    pub fn is_after(&self, moment: &Option<Moment<K>>) -> bool
        ensures { IsTrue result
            ↔ Follows (events_until moment.now) self.now.ran self.now.loans }
    {
        if !self.ran {
            return true;
        }
        match &self.loans {
            Some(loans) => loans.is_after(moment),
            None => false,
        }
    }

    /// The moment when its turn ended. `None` if it did not run, or if the House gave no moment.
    pub fn end(&self) -> Option<Moment<K>>
        ensures { result ≡ end_of self.now.ran self.now.loans }
    {
        if !self.ran {
            return None;
        }
        match &self.loans {
            Some(loans) => Some(loans.end()),
            None => None,
        }
    }

    /// The datagram, if the job was an arrival.
    pub fn into_datagram(self) -> Option<HandledDatagram>
        ensures { IfSome result (λ it. it.node ≡ node_of self.job) }
    {
        let Finished { job, .. } = self;
        HandledDatagram::of_job(job)
    }
}
