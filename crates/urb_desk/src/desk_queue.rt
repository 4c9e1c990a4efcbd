//! The way from a node's desks to its worker: only what a request asks goes through it.

ghost use Rattle.std.specs.Prelude.{◌≡◌, IfOk};
ghost use Rattle.urb_client.specs.Requests.{asked_by};
ghost use Rattle.urb_desk.specs.Desks.{IsJobOf, control_job};
ghost use Rattle.urb_desk.specs.internal.Desks.{IsWork};

use crate::TicketPlaces;
use crate::worker_gone::{WorkerGone, judge_answer, judge_send};
use crossbeam_channel::{Receiver, Sender};
use std::alloc::Global;
use std::marker::Model;
use std::sync::Wait;
use std::time::Clock;
use urb_client::{Control, Request};
use urb_link::{Throttle, Ticket};
use urb_names::{NoMemory, NodeId};
use urb_show::HouseName;
use urb_turn::{Finished, Job};

/// A job with the request that asks it at a node.
#[derive(Drop)]
struct DeskJob<'r> {
    node: NodeId,
    request: &'r Request,
    job: Job,
    ghost asked: { ∥ IsJobOf node (asked_by request.now) job ∥₁ },
}

impl<'r> DeskJob<'r> {
    // The job at this node that does what a request asks.
    fn of(alloc: Global, node: NodeId, request: &'r Request) -> Result<DeskJob<'r>, NoMemory>
        requires { IsWork (asked_by request.now) }
        ensures { IfOk result (λ made. (made.node ≡ node) × (made.request.now ≡ request.now)) }
    {
        let job = job_of(alloc, node, request)?;
        Ok(DeskJob { node, request, job })
    }

    // The ticket for the job. Its result goes to `answer`.
    fn into_ticket<K: HouseName>(self, answer: Sender<Finished<K>>) -> Ticket<K>
        ensures { ∥ IsJobOf self.entry.node (asked_by self.entry.request.now) result.job ∥₁ }
    {
        let DeskJob {
            node: _,
            request: _,
            job,
        } = self;
        Ticket {
            job,
            answer: Some(answer),
        }
    }
}

/// What came of a ticket: its result, or the witness that the worker is gone.
pub(crate) type Came<K> = Result<Finished<K>, WorkerGone>;

/// The most submits that are sent behind a request, before it is answered. With the request they
/// fill one batch of the worker.
pub(crate) const MOST_BEHIND: usize = 15;

/// The queue of a node's worker, as its desks have it. Nothing goes into it but what a request asks
/// at this node.
#[derive(Drop)]
pub(crate) struct DeskQueue<'a, K: HouseName> {
    node: NodeId,
    sender: &'a Sender<Ticket<K>>,
    places: &'a TicketPlaces,
    throttle: Throttle<'a>,
}

impl<'a, K: HouseName> Model for DeskQueue<'a, K> {
    ghost use Rattle.std.specs.Prelude.{ℕ};

    ghost Value = { ℕ };

    ghost view = { λ queue. queue.node };
}

impl<'a, K: HouseName> DeskQueue<'a, K> {
    /// The way to the worker of this node.
    pub(crate) fn new(
        node: NodeId,
        sender: &'a Sender<Ticket<K>>,
        places: &'a TicketPlaces,
        throttle: Throttle<'a>,
    ) -> DeskQueue<'a, K>
        ensures { result ≡ node }
    {
        DeskQueue {
            node,
            sender,
            places,
            throttle,
        }
    }

    /// The same, for another desk of the node.
    pub(crate) fn copy(&self) -> DeskQueue<'a, K>
        ensures { result ≡ self.now }
    {
        DeskQueue {
            node: self.node,
            sender: self.sender,
            places: self.places,
            throttle: self.throttle,
        }
    }

    // Sends the worker what a request asks at the node. Returns the end of the channel at which the
    // result comes, or the witness that the worker is gone.
    fn send<R: Wait>(
        &self,
        rt: &R,
        alloc: Global,
        request: &Request,
    ) -> Result<Result<Receiver<Finished<K>>, WorkerGone>, NoMemory>
        requires { IsWork (asked_by request.now) }
    {
        let asked = DeskJob::of(alloc, self.node, request)?;
        let (to, from) = crossbeam_channel::bounded(alloc, 1)?;
        match send_ticket(rt, self.sender, asked.into_ticket(to))? {
            Ok(()) => Ok(Ok(from)),
            Err(gone) => Ok(Err(gone)),
        }
    }

    // Sends the worker these submits, in their order, up to the first that can't be sent.
    fn send_submits<R: Wait>(
        &self,
        rt: &R,
        alloc: Global,
        submits: &[Request],
    ) -> Vec<Receiver<Finished<K>>> {
        let mut sent = Vec::new(alloc);
        for submit in submits {
            if !matches!(submit, Request::Submit { .. }) || sent.reserve(1).is_err() {
                return sent;
            }
            match self.send(rt, alloc, submit) {
                Ok(Ok(from)) => sent.push_reserved(from),
                Ok(Err(_)) | Err(_) => return sent,
            }
        }
        sent
    }

    // Sends the worker what a request asks, and behind it these submits. Then it waits for all
    // results. It returns the result of the request, and those of the submits in `later`, the last
    // one first. Without memory for one of these, it leaves out that one and those behind it: their
    // submits will be sent again, and the node answers them as repeats.
    fn send_all<R: Wait>(
        &self,
        rt: &R,
        alloc: Global,
        request: &Request,
        submits: &[Request],
        later: &mut Vec<Came<K>>,
    ) -> Result<Came<K>, NoMemory>
        requires { IsWork (asked_by request.now) }
    {
        let from = match self.send(rt, alloc, request)? {
            Ok(from) => from,
            Err(gone) => return Ok(Err(gone)),
        };
        let mut sent = self.send_submits(rt, alloc, submits);
        let came = await_answer(rt, &from);
        while let Some(from) = sent.pop() {
            if later.push(await_answer(rt, &from)).is_err() {
                later.clear();
            }
        }
        Ok(came)
    }

    /// Sends the worker what a request asks at the node, and returns the result, or the witness that
    /// the worker is gone. It waits for a place for the ticket, and for the result. With a submit it
    /// also waits while a node of the group is far behind.
    ///
    /// The submits are those that come behind the request. As many of them as find places are sent
    /// before the request is answered, in their order. Their results are put into `later`, the last
    /// one first.
    pub(crate) fn ask<R: Wait + Clock>(
        &self,
        rt: &R,
        alloc: Global,
        request: &Request,
        submits: &[Request],
        later: &mut Vec<Came<K>>,
    ) -> Result<Came<K>, NoMemory>
        requires { IsWork (asked_by request.now) }
    {
        let most = submits.len().min(MOST_BEHIND);
        let places = self.places.take(rt, most as u32 + 1);
        let behind = places.count() as usize - 1;
        if matches!(request, Request::Submit { .. }) {
            self.throttle.await_calm(rt);
        }
        let came = self.send_all(rt, alloc, request, &submits[..behind], later);
        places.give_back(rt);
        came
    }
}

// Sends the worker a ticket. `NoMemory`: the channel had no memory for it.
fn send_ticket<K: HouseName, R: Wait>(
    rt: &R,
    sender: &Sender<Ticket<K>>,
    ticket: Ticket<K>,
) -> Result<Result<(), WorkerGone>, NoMemory> {
    judge_send(sender.send(rt, ticket))
}

// Waits for the answer to a ticket.
fn await_answer<K: HouseName, R: Wait>(
    rt: &R,
    answer: &Receiver<Finished<K>>,
) -> Result<Finished<K>, WorkerGone> {
    judge_answer(answer.recv(rt))
}

// The job at a node that does what a request asks.
fn job_of(alloc: Global, node: NodeId, request: &Request) -> Result<Job, NoMemory>
    requires { IsWork (asked_by request.now) }
    ensures { IfOk result (λ job. IsJobOf node (asked_by request.now) job) }
{
    match request {
        Request::Read { .. } | Request::Wait { .. } => unreachable!(),
        Request::Submit {
            client,
            number,
            payload,
        } => Ok(Job::Submit {
            node,
            client: *client,
            number: *number,
            payload: payload.share(alloc)?,
        }),
        Request::Ask(control) => Ok(control_job(node, *control)),
    }
}

// The job at a node that does what a request without fields asks.
fn control_job(node: NodeId, control: Control) -> Job
    ensures { result ≡ control_job node control }
{
    match control {
        Control::Status => Job::Status(node),
        Control::Crash => Job::Crash(node),
        Control::Restart => Job::Restart(node),
    }
}
