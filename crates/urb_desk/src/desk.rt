//! The desk of a running node: it passes requests to the node's worker, and does reads itself.

ghost use Rattle.std.specs.Prelude.{◌≡◌, ◌⊎◌, ◌≤◌, ◌-◌, [], Err, IfOk, IsOk, IsTrue, MatchOption};
ghost use Rattle.std.specs.Prelude.{MatchResult, OnErr, false, length};
ghost use Rattle.urb_client.specs.declared.format.TheConstants.{MOST_ENTRIES};
ghost use Rattle.urb_client.specs.Requests.{IsAsked, asked_by};
ghost use Rattle.urb_client.specs.Responses.{said_by};
ghost use Rattle.urb_show.specs.Lists.{list_at};
ghost use Rattle.urb_show.specs.Pages.{IsPageOf};
ghost use Rattle.urb_desk.specs.Desks.{AnswersAt, LearnsTold, Looks, Reads, RefusedAt, Sees};
ghost use Rattle.urb_desk.specs.Desks.{Works, gone};
ghost use Rattle.urb_desk.specs.Desks.{told_of};
ghost use mathlib.Core.List.{IsPrefix};
ghost use Rattle.urb_desk.specs.internal.Desks.{IsTurnFor, IsWork};
ghost use Rattle.urb_turn.specs.Loans.{Follows};
ghost use Rattle.urb_turn.specs.Settlings.{told_in};

use crate::NodeService;
use crate::desk_queue::{Came, DeskQueue};
use crate::house_gone::{HouseGone, judge_read};
use crate::lost::Lost;
use crate::node_service::DeskService;
use crate::responses::{down_response, response_to_read, response_to_turn};
use crate::stray_turn::judge_turn;
use crate::worker_gone::WorkerGone;
use std::alloc::Global;
use std::marker::Model;
use std::sync::Wait;
use std::time::{Clock, Duration, Instant};
use urb_client::{Desk, Request, Response};
use urb_names::{NoMemory, NodeId};
use urb_show::{HouseName, Moment, Page, ReadPosition, Told};
use urb_turn::{Finished, copy_moment};

/// Answers the requests of a client at one node. A desk keeps the position of what its session has
/// seen and learnt, and borrows a reader for each read. It learns what the worker published. So a
/// client that got a response about a message can read the message. Each session has a desk of its
/// own.
#[derive(Drop)]
pub struct NodeDesk<'a, K: HouseName, R: Wait + Clock> {
    rt: &'a R,
    alloc: Global,
    node: NodeId,
    // The way to the node's worker. Only what a request asks at the node goes through it.
    queue: DeskQueue<'a, K>,
    service: DeskService<'a, K>,
    position: ReadPosition<K>,
    // The latest moment of the House that it has seen.
    seen: Option<Moment<K>>,
    // What came of the submits that were sent to the worker before the session read them. The next
    // one is the last of the list.
    results: Vec<Came<K>>,
    // Why it has said that its worker or the House is gone.
    lost: Option<Lost>,
}

impl<'a, K: HouseName, R: Wait + Clock> Model for NodeDesk<'a, K, R> {
    ghost use Rattle.std.specs.Prelude.{◌≡◌, ◌≤◌, is_some, length};
    ghost use Rattle.urb_desk.specs.Desks.{DeskView};
    ghost use Rattle.urb_turn.specs.Loans.{events_until};

    ghost Value = { DeskView };

    ghost view = { λ d. record {
      node = d.node;
      known = d.position;
      past = events_until d.seen;
      has_lost = is_some d.lost;
    } };

    ghost invariant = { λ d. (d.node ≤ length K.base) × (d.queue ≡ d.node) };
}

impl<'a, K: HouseName, R: Wait + Clock> NodeDesk<'a, K, R> {
    /// The desk of a node, for a session that begins at this position and has seen no event. The
    /// node's worker is at the other end of the service's queue.
    pub fn new(
        rt: &'a R,
        alloc: Global,
        node: NodeId,
        service: NodeService<'a, K>,
        position: ReadPosition<K>,
    ) -> NodeDesk<'a, K, R>
        requires { node ≤ length K.base }
        ensures { result ≡ record { node = node; known = position; past = []; has_lost = false } }
    {
        let NodeService {
            queue,
            places,
            readers,
            bell,
            throttle,
            stop,
        } = service;
        let seen = None;
        NodeDesk {
            rt,
            alloc,
            node,
            queue: DeskQueue::new(node, queue, places, throttle),
            service: DeskService {
                readers,
                bell,
                stop,
            },
            position,
            seen,
            results: Vec::new(alloc),
            lost: None,
        }
    }

    /// A desk of the same node, for another session that begins at the same position and has seen
    /// the same events.
    pub fn copy(&self) -> NodeDesk<'a, K, R>
        ensures { result ≡ self.now }
    {
        NodeDesk {
            rt: self.rt,
            alloc: self.alloc,
            node: self.node,
            queue: self.queue.copy(),
            service: self.service.copy(),
            position: self.position.copy(),
            seen: copy_moment(&self.seen),
            results: Vec::new(self.alloc),
            lost: self.lost,
        }
    }

    // Learns what a turn published, if anything, and the moment when it ended, if there was one.
    fn learn(&mut self, lists: Option<Told<K>>, end: Option<Moment<K>>)
        ensures node { self.new.node ≡ self.old.node }
        ensures past { MatchOption end (self.new.past ≡ self.old.past) (λ m. self.new.past ≡ m) }
        ensures learnt { LearnsTold lists self.old.known self.new.known }
    {
        if let Some(end) = end {
            self.seen = Some(end);
        }
        match lists {
            Some(lists) => self.position.learn(lists),
            None => {}
        }
    }

    // Says `Down`, and keeps the witness of the loss.
    fn say_down(&mut self, lost: Lost) -> Response
        ensures same { (self.new.node ≡ self.old.node) × (self.new.known ≡ self.old.known)
            × (self.new.past ≡ self.old.past) }
        ensures lost { IsTrue self.new.has_lost }
        ensures said { said_by result ≡ gone }
    {
        let response = down_response(&lost);
        self.lost = Some(lost);
        response
    }

    // The response for a turn, after the desk has learnt what the turn published, and its end.
    #[tactic(auto, using(crate::proofs::DeskEvents::sees))]
    fn respond_to_turn(&mut self, turn: Finished<K>) -> Response
        requires ran { IsTrue turn.ran }
        requires follows { Follows self.old.past turn.ran turn.loans }
        ensures node { self.new.node ≡ self.old.node }
        ensures learnt { LearnsTold (told_in turn.settling) self.old.known self.new.known }
        ensures said { said_by result ≡ told_of turn.reply turn.status }
        ensures sees { Sees self.old.past turn.loans self.new.past }
    {
        let end = turn.end();
        let (reply, status, lists) = turn.into_parts();
        self.learn(lists, end);
        response_to_turn(&reply, status)
    }

    // The response to a result of the worker. For a turn of the request it is the turn's, after the
    // reader has learnt what the turn published. For another result it is `Down`.
    #[tactic(auto, using(crate::proofs::DeskEvents::works_by_turn))]
    fn respond_if_asked(&mut self, request: &Request, finished: Finished<K>) -> Response
        ensures node { self.new.node ≡ self.old.node }
        ensures works { Works K.origin self.old (asked_by request.now) (said_by result) self.new }
        ensures told { IsTurnFor self.old.node self.old.past (asked_by request.now) finished
            → said_by result ≡ told_of finished.reply finished.status }
    {
        match judge_turn(self.node, request, &self.seen, finished) {
            Ok(turn) => self.respond_to_turn(turn),
            Err(stray) => self.say_down(Lost::Turn(stray)),
        }
    }

    // Turns the worker's result into the client's response. If the worker is gone, it is `Down`.
    fn respond(&mut self, request: &Request, came: Result<Finished<K>, WorkerGone>) -> Response
        ensures node { self.new.node ≡ self.old.node }
        ensures works { Works K.origin self.old (asked_by request.now) (said_by result) self.new }
        // A turn of the request is answered by what it tells.
        ensures told { MatchResult came
            (λ finished. IsTurnFor self.old.node self.old.past (asked_by request.now) finished
            → said_by result ≡ told_of finished.reply finished.status)
            (λ witness. said_by result ≡ gone) }
    {
        match came {
            Ok(finished) => self.respond_if_asked(request, finished),
            Err(witness) => self.say_down(Lost::Worker(witness)),
        }
    }

    // The response to a request that was given to the worker. Memory may be refused.
    fn respond_or_refuse(
        &mut self,
        request: &Request,
        came: Result<Result<Finished<K>, WorkerGone>, NoMemory>,
    ) -> Result<Response, NoMemory>
        // Memory is refused exactly if it was. Then the desk is as it was.
        ensures refused { MatchResult came (λ asked. IsOk result)
            (λ refused. (result ≡ Err refused) × (self.new ≡ self.old)) }
        ensures works { IfOk result (λ response. (self.new.node ≡ self.old.node)
            × Works K.origin self.old (asked_by request.now) (said_by response) self.new) }
        ensures told { IfOk came (λ asked. IfOk result (λ response. MatchResult asked
            (λ finished. IsTurnFor self.old.node self.old.past (asked_by request.now) finished
            → said_by response ≡ told_of finished.reply finished.status)
            (λ witness. said_by response ≡ gone))) }
    {
        match came {
            Ok(asked) => Ok(self.respond(request, asked)),
            Err(refused) => Err(refused),
        }
    }

    // What comes of a request: what came of it already, or what the worker returns. The submits
    // behind it may be sent to the worker together with it.
    fn ask(&mut self, request: &Request, behind: &[Request]) -> Result<Came<K>, NoMemory>
        requires { IsWork (asked_by request.now) }
        ensures { self.new ≡ self.old }
    {
        match self.results.pop() {
            Some(came) => Ok(came),
            None => {
                let (rt, alloc) = (self.rt, self.alloc);
                self.queue
                    .ask(rt, alloc, request, behind, &mut self.results)
            }
        }
    }

    // Has the worker do what a request asks, and learns what the worker published.
    fn work(&mut self, request: &Request, behind: &[Request]) -> Result<Response, NoMemory>
        requires { IsWork (asked_by request.now) }
        ensures answered { IfOk result (λ response.
            AnswersAt K.origin self.old (asked_by request.now) (said_by response) self.new) }
        ensures refused { OnErr result (self.new ≡ self.old) }
    {
        let came = self.ask(request, behind);
        self.respond_or_refuse(request, came)
    }

    /// The desk's allocator.
    pub(crate) fn alloc(&self) -> Global {
        self.alloc
    }

    /// Whether the desk has sent its worker no submit that its session hasn't asked yet.
    pub(crate) fn is_level(&self) -> bool {
        self.results.is_empty()
    }

    /// Answers one request, as `answer` does. The submits are those that the client has sent behind
    /// it. If the request is a submit, they may be sent to the worker together with it. Their
    /// results wait here until the session asks them, in their order.
    pub(crate) fn answer_before(
        &mut self,
        request: &Request,
        behind: &[Request],
    ) -> Result<Response, NoMemory>
        requires { IsAsked (asked_by request.now) }
        ensures answered { IfOk result (λ response.
            AnswersAt K.origin self.old (asked_by request.now) (said_by response) self.new) }
        ensures refused { OnErr result
            (RefusedAt K.origin self.old (asked_by request.now) self.new) }
    {
        match request {
            Request::Read { place, max } => self.read(*place, *max),
            Request::Wait { place, max, millis } => self.wait(*place, *max, *millis),
            Request::Submit { .. } => self.work(request, behind),
            Request::Ask(_) => self.work(request, &[]),
        }
    }

    // The session's position, which also knows the latest moment that the desk has seen.
    fn position_now(&self) -> ReadPosition<K>
        ensures same { result ≡ record self.now.known { past = result.past } }
        ensures known { IsPrefix self.now.known.past result.past }
        ensures seen { IsPrefix self.now.past result.past }
    {
        let mut position = self.position.copy();
        if let Some(seen) = &self.seen {
            position.learn_moment(seen);
        }
        position
    }

    // Takes the published lists, at a place of the history behind all that the desk has seen. It
    // returns the node's page, or the witness that the House is gone.
    fn look(&mut self, place: u32, max: u8) -> Result<Result<Page, HouseGone>, NoMemory>
        requires { 1 ≤ place }
        ensures page { IfOk result (λ looked. IfOk looked (λ page.
            (self.new.node ≡ self.old.node) × Looks K.origin self.old self.new
            × IsPageOf (list_at self.new.known.seen (self.old.node - 1)) place max page)) }
        ensures gone { IfOk result (λ looked. OnErr looked (self.new ≡ self.old)) }
        ensures refused { OnErr result (self.new ≡ self.old) }
    {
        let (rt, alloc, node, readers) = (self.rt, self.alloc, self.node, self.service.readers);
        let mut position = self.position_now();
        let came = readers.read(rt, alloc, &mut position, node, place, max);
        let page = match judge_read(came)? {
            Ok(page) => page,
            Err(witness) => return Ok(Err(witness)),
        };
        self.seen = Some(position.moment().copy());
        self.position = position;
        Ok(Ok(page))
    }

    // Reads the node's published list.
    fn read(&mut self, place: u32, max: u8) -> Result<Response, NoMemory>
        requires { (1 ≤ place) × (max ≤ MOST_ENTRIES) }
        ensures answered { IfOk result (λ response. (self.new.node ≡ self.old.node)
            × Reads K.origin self.old place max (said_by response) self.new) }
        ensures refused { OnErr result ((self.new ≡ self.old)
            ⊎ ((self.new.node ≡ self.old.node) × Looks K.origin self.old self.new)) }
    {
        match self.look(place, max)? {
            Ok(page) => response_to_read(self.alloc, page.entries),
            Err(witness) => Ok(self.say_down(Lost::House(witness))),
        }
    }

    // Whether the node's log has an entry at this place.
    fn has_entry(&self, place: u32) -> bool {
        self.service
            .readers
            .has_entry(self.rt, self.alloc, self.node, place)
    }

    // Waits until the node's log has an entry at this place, for at most `millis` milliseconds, or
    // until the stop is set. It holds no lock and no reader while it sleeps. A wake-up without such
    // an entry doesn't end the wait. If the clock can't be read, it doesn't wait.
    fn await_entry(&self, place: u32, millis: u16) {
        if self.has_entry(place) {
            return;
        }
        let Ok(began) = Instant::now(self.rt) else {
            return;
        };
        let most = Duration::from_millis(u64::from(millis));
        let bell = self.service.bell;
        bell.begin_waiting();
        for _ in self.rt.forever() {
            let passed = bell.passed();
            if self.has_entry(place) || self.service.stop.is_set() {
                break;
            }
            let waited = began.elapsed(self.rt).unwrap_or(most);
            match most.checked_sub(waited) {
                Some(rest) if !rest.is_zero() => bell.sleep(self.rt, passed, rest),
                _ => break,
            }
        }
        bell.end_waiting();
    }

    // Reads the node's published list once it has an entry at this place, or at the end of the
    // time.
    fn wait(&mut self, place: u32, max: u8, millis: u16) -> Result<Response, NoMemory>
        requires { (1 ≤ place) × (max ≤ MOST_ENTRIES) }
        ensures answered { IfOk result (λ response. (self.new.node ≡ self.old.node)
            × Reads K.origin self.old place max (said_by response) self.new) }
        ensures refused { OnErr result ((self.new ≡ self.old)
            ⊎ ((self.new.node ≡ self.old.node) × Looks K.origin self.old self.new)) }
    {
        self.await_entry(place, millis);
        self.read(place, max)
    }
}

impl<'a, K: HouseName, R: Wait + Clock> Desk for NodeDesk<'a, K, R> {
    type Alloc = Global;

    ghost use Rattle.urb_desk.specs.Desks.{AnswersAt, RefusedAt};

    ghost answers = { AnswersAt K.origin };

    ghost refuses = { RefusedAt K.origin };

    fn answer(&mut self, request: &Request) -> Result<Response, NoMemory> {
        self.answer_before(request, &[])
    }
}
