//! The events of a house: the group's calls. Each call that is not refused is counted, and is the
//! last event of the house's past.
ghost use Rattle.std.specs.Prelude.{◌≡◌, if◌then◌else◌, is_ok, length, MatchResult};
ghost use Rattle.urb_names.specs.PacketGrammar.{packet_of};
ghost use Rattle.urb_node.specs.Replies.{Sent, Stored, Up, WentDown};
ghost use Rattle.urb_group.specs.GroupCalls.{ComesUp, Commits, GoesDown, Takes, Ticks};
ghost use Rattle.urb_world.specs.Step.{Arrive, Commit, Crash, Fail, Restart, Submit, Tick};
ghost use Rattle.urb_show.specs.Houses.{IsEvent, next_count};
ghost use Rattle.urb_show.specs.Pasts.{IsRecorded, reply_to};

use crate::history::calls::{
    ArriveCall, CommitCall, CrashCall, FailCall, RestartCall, SubmitCall, TickCall,
};
use crate::history::past::Past;
use crate::history::tokens::HouseName;
use crate::house::House;
use std::alloc::{Allocator, Global};
use urb_group::{ClientId, Done, Doubt, Group, NodeId, Outbox, Receipt, Record, Refusal, Taken};
use urb_names::Payload;

// The number of events after a call of the group: one more, unless the call was refused.
fn events_after<T, E>(group: &Group, events: u64, done: &Result<T, E>) -> u64
    ensures count { result ≡ (if is_ok done.now then next_count events else events) }
    ensures nodes { length group.now.nodes ≡ group.now.size.n }
{
    group.recall_deliveries();
    match done {
        Ok(_) => events.saturating_add(1),
        Err(_) => events,
    }
}

// The past after a call of the group: the longer one, unless the call was refused.
fn past_after<T, E>(past: Past, longer: Past, done: &Result<T, E>) -> Past
    ensures { result ≡ (if is_ok done.now then longer else past) }
{
    match done {
        Ok(_) => longer,
        Err(_) => past,
    }
}

impl<K: HouseName, A: Allocator> House<K, A> {
    /// A client gives a node a message to broadcast, under the client's next number at this node.
    /// The node's message shares the memory of the payload: `Group::submit`, with its refusals.
    pub fn submit(
        &mut self,
        alloc: Global,
        node: NodeId,
        client: ClientId,
        number: u32,
        payload: &Payload,
    ) -> Result<Taken, Refusal>
        ensures step { Takes self.old.group node
            (Submit node (record { client = client; number = number; payload = payload.now }))
            result self.new.group }
        ensures counted { MatchResult result
            (λ _. IsEvent
            (Submit node (record { client = client; number = number; payload = payload.now }))
            self.old self.new)
            (λ _. self.new ≡ self.old) }
        ensures past { IsRecorded K.origin
            (Submit node (record { client = client; number = number; payload = payload.now }))
            reply_to result self.old self.new }
    {
        let longer = self.past.with(&SubmitCall {
            node,
            client,
            number,
            payload,
        });
        let taken = self.group.submit(alloc, node, client, number, payload);
        self.events = events_after(&self.group, self.events, &taken);
        self.past = past_after(self.past.copy(), longer, &taken);
        taken
    }

    /// A packet arrives at a node, as bytes: `Group::arrive`, with its refusals.
    pub fn arrive(&mut self, alloc: Global, node: NodeId, bytes: &[u8]) -> Result<Taken, Refusal>
        ensures step { Takes self.old.group node (Arrive node (packet_of bytes.now))
            result self.new.group }
        ensures counted { MatchResult result
            (λ _. IsEvent (Arrive node (packet_of bytes.now)) self.old self.new)
            (λ _. self.new ≡ self.old) }
        ensures past { IsRecorded K.origin (Arrive node (packet_of bytes.now)) reply_to
            result self.old self.new }
    {
        let longer = self.past.with(&ArriveCall { node, bytes });
        let taken = self.group.arrive(alloc, node, bytes);
        self.events = events_after(&self.group, self.events, &taken);
        self.past = past_after(self.past.copy(), longer, &taken);
        taken
    }

    /// A node's store took the record of its draft: `Group::commit`, with its refusals. If the
    /// result reports released names, `settle` publishes them.
    pub fn commit(&mut self, receipt: Receipt) -> Result<Done, (Receipt, Refusal)>
        ensures step { Commits self.old.group receipt result self.new.group }
        ensures counted { MatchResult result
            (λ _. IsEvent (Commit receipt.node receipt.pos receipt.entry) self.old self.new)
            (λ _. self.new ≡ self.old) }
        ensures past { IsRecorded K.origin (Commit receipt.node receipt.pos receipt.entry) Stored
            result self.old self.new }
    {
        let longer = self.past.with(&CommitCall { receipt: &receipt });
        let done = self.group.commit(receipt);
        self.events = events_after(&self.group, self.events, &done);
        self.past = past_after(self.past.copy(), longer, &done);
        done
    }

    /// A node's store may not have taken the record of its draft: `Group::fail`, with its refusals.
    pub fn fail(&mut self, doubt: Doubt) -> Result<(), Refusal>
        ensures step { GoesDown self.old.group doubt.node (Fail doubt.node) result self.new.group }
        ensures counted { MatchResult result
            (λ _. IsEvent (Fail doubt.node) self.old self.new)
            (λ _. self.new ≡ self.old) }
        ensures past { IsRecorded K.origin (Fail doubt.node) (λ done. WentDown doubt.node)
            result self.old self.new }
    {
        let longer = self.past.with(&FailCall { doubt: &doubt });
        let done = self.group.fail(doubt);
        self.events = events_after(&self.group, self.events, &done);
        self.past = past_after(self.past.copy(), longer, &done);
        done
    }

    /// A node resends pending messages: `Group::tick`, with its refusals.
    pub fn tick(&mut self, alloc: Global, node: NodeId) -> Result<Outbox, Refusal>
        ensures step { Ticks self.old.group (Tick node) result self.new.group }
        ensures counted { MatchResult result
            (λ _. IsEvent (Tick node) self.old self.new)
            (λ _. self.new ≡ self.old) }
        ensures past { IsRecorded K.origin (Tick node) Sent
            result self.old self.new }
    {
        let longer = self.past.with(&TickCall { node });
        let sent = self.group.tick(alloc, node);
        self.events = events_after(&self.group, self.events, &sent);
        self.past = past_after(self.past.copy(), longer, &sent);
        sent
    }

    /// A node stops and loses what it has not stored: `Group::crash`, with its refusals. What is
    /// published stays.
    pub fn crash(&mut self, node: NodeId) -> Result<(), Refusal>
        ensures step { GoesDown self.old.group node (Crash node) result self.new.group }
        ensures counted { MatchResult result
            (λ _. IsEvent (Crash node) self.old self.new)
            (λ _. self.new ≡ self.old) }
        ensures past { IsRecorded K.origin (Crash node) (λ done. WentDown node)
            result self.old self.new }
    {
        let longer = self.past.with(&CrashCall { node });
        let done = self.group.crash(node);
        self.events = events_after(&self.group, self.events, &done);
        self.past = past_after(self.past.copy(), longer, &done);
        done
    }

    /// A node restarts with all records that its storage returned: `Group::restart`, with its
    /// refusals. The restart may release names, and `settle` publishes them.
    pub fn restart(
        &mut self,
        alloc: Global,
        node: NodeId,
        image: Vec<Record>,
    ) -> Result<(), Refusal>
        ensures step { ComesUp self.old.group node (Restart node image.items)
            result self.new.group }
        ensures counted { MatchResult result
            (λ _. IsEvent (Restart node image.items) self.old self.new)
            (λ _. self.new ≡ self.old) }
        ensures past { IsRecorded K.origin (Restart node image.items) (λ done. Up node)
            result self.old self.new }
    {
        let longer = self.past.with(&RestartCall {
            node,
            image: &image,
        });
        let done = self.group.restart(alloc, node, image);
        self.events = events_after(&self.group, self.events, &done);
        self.past = past_after(self.past.copy(), longer, &done);
        done
    }
}
