//! A node that holds no draft.

ghost use Rattle.std.specs.Prelude.{◌≡◌, ◌≤◌, [], IfErr, IfOk, IfSome, OnErr, OnOk};
ghost use Rattle.std.specs.ControlFlow.{continue_value};
ghost use Rattle.std.specs.Option.{ForSome};
ghost use Rattle.urb_names.specs.CarriedPackets.{AreFrom};
ghost use Rattle.urb_stubborn.specs.Resends.{tick_packets, ticked};
ghost use Rattle.urb_node.specs.LayerFields.{memory_of};
ghost use Rattle.urb_node.specs.internal.HeldLayers.{IsHeld};
ghost use Rattle.urb_node.specs.internal.OutcomeSteps.{IsWanted, step_from};
ghost use Rattle.urb_node.specs.CallEffects.{AnswersFrom, AnswersOfStored, Arrives, AreOfStored, Crashes};
ghost use Rattle.urb_node.specs.CallEffects.{IsForNode, Submits, Ticks};
ghost use Rattle.urb_node.specs.Part.{opened_node};
ghost use Rattle.urb_node.specs.NodeMemories.{ShowsReady, new_memory};

use crate::call_outcomes::{Wanted, judge_packet, judge_submit};
use crate::down::take_down;
use crate::held::Held;
use crate::{Answer, Down, Step, Storing};
use std::alloc::{Allocator, Global};
use std::marker::Model;
use std::ops::ControlFlow;
use urb_fifo::Fifo;
use urb_majority::Acks;
use urb_names::{ClientId, Config, Message, NoMemory, NodeId, PacketView, Payload, Refusal};
use urb_pending::Pending;
use urb_stable::Draft;
use urb_stubborn::{Outbox, Resend};

/// A node that holds no draft: it takes submits, packets and ticks.
#[derive(Drop)]
#[derive_where(Debug)]
pub struct Ready<A: Allocator = Global> {
    pub(crate) held: Held<A>,
}

impl<A: Allocator> Model for Ready<A> {
    ghost use Rattle.urb_node.specs.LayerFields.{memory_of};
    ghost use Rattle.urb_node.specs.internal.HeldLayers.{IsHeld};
    ghost use Rattle.urb_node.specs.NodeMemories.{Memory};

    ghost Value = { Memory };

    ghost view = { λ a. memory_of a.held };

    ghost invariant = { λ a. IsHeld a.held };
}

// The step of a call: it breaks off with an answer, or continues with a record to store.
fn step_of<A: Allocator + Copy>(
    held: Held<A>,
    next: ControlFlow<Answer<Outbox<A>>, Wanted<A>>,
) -> Step<A>
    requires kept { IsHeld held }
    requires wanted { IfSome (continue_value next) (IsWanted held) }
    ensures { result ≡ step_from (memory_of held) next }
{
    match next {
        ControlFlow::Break(answer) => Step::Same(Ready { held }, answer),
        ControlFlow::Continue(wanted) => {
            // Only the proof needs these calls: they state the invariants of the layers.
            held.pending.recall();
            held.fifo.recall();
            let draft = Draft::new(held.node, held.stored + 1, wanted.copy);
            let storing = Storing {
                held,
                entry: wanted.entry,
                cause: wanted.cause,
                packets: wanted.packets,
            };
            Step::Store(storing, draft)
        }
    }
}

// The packets of a tick for these pending pairs and certificates.
fn resend_due<A: Allocator + Copy>(
    resend: &mut Resend<A>,
    alloc: A,
    pending: &Pending<A>,
    acks: &Acks<A>,
) -> Result<Outbox<A>, NoMemory>
    ensures packets { IfOk result
        (λ outbox. outbox ≡ tick_packets resend.old pending.now.pairs acks.now.certified) }
    ensures ok { OnOk result (resend.new ≡ ticked resend.old pending.now.pairs) }
    ensures err { OnErr result (resend.new ≡ resend.old) }
{
    resend.tick(alloc, pending, acks.certificates())
}

impl<A: Allocator + Copy> Ready<A> {
    /// A node of a group that has stored nothing: a process of the textbook's logged uniform
    /// reliable broadcast right after its initialization (section 3.7).
    pub fn new(alloc: A, config: Config, node: NodeId) -> Result<Ready<A>, NoMemory>
        requires { node ≤ config.n }
        ensures memory { IfOk result (λ ready. ready ≡ new_memory config node) }

        // The result shows a node that has stored nothing.
        ensures shows { IfOk result (λ ready. ShowsReady ready (opened_node node [])) }
    {
        // Only the proof needs this call: it states the range of a node's number.
        node.recall();
        Ok(Ready {
            held: Held {
                config,
                node,
                stored: 0,
                pending: Pending::new(alloc, config, node),
                acks: Acks::new(alloc, config),
                fifo: Fifo::new(alloc, config),
                resend: Resend::new(alloc, config, node),
            },
        })
    }

    /// Takes a client's message, up to its store. The node's message shares the memory of the
    /// payload. This is the broadcast of the textbook's majority-ack algorithm with logging
    /// (section 3.7), under the node's next number (broadcast with sequence number, section 3.9).
    pub fn submit(
        self,
        alloc: A,
        client: ClientId,
        number: u32,
        payload: &Payload<A>,
    ) -> Result<Step<A>, (Ready<A>, Refusal)>
        ensures event { Submits self
            (record { client = client; number = number; payload = payload.now }) result }

        // After a refusal the node is as it was, whichever world it shows, if any.
        ensures refused { IfErr result (λ e. e.0 ≡ self) }
    {
        let Ready { mut held } = self;
        // Only the proof needs this call: it states the invariant of the pending pairs.
        held.pending.recall();
        match judge_submit(&mut held, alloc, client, number, payload) {
            Ok(next) => Ok(step_of(held, next)),
            Err(refusal) => Err((Ready { held }, refusal)),
        }
    }

    /// Takes a packet of another node of the group, up to its store; its source holds the message.
    /// The node shares the payload of `known` if the caller has another message with the same
    /// content. This is the delivery of a stubborn best-effort broadcast in the textbook's
    /// majority-ack algorithm with logging (section 3.7).
    pub fn arrive(
        self,
        alloc: A,
        packet: PacketView<'_>,
        known: Option<Message<A>>,
    ) -> Result<Step<A>, (Ready<A>, Refusal)>
        requires packet { IsForNode self packet }
        requires known { ForSome known (λ m. m ≡ packet.message) }
        ensures event { Arrives self packet.entry.source packet.entry.name packet.entry.message
            packet.entry.flags result }

        // Its answer carries one of the node's stored pairs, with the node as its source.
        ensures memory { IfOk result AnswersFrom }
        ensures stored { IfOk result AnswersOfStored }

        // After a refusal the node is as it was, whichever world it shows, if any.
        ensures refused { IfErr result (λ e. e.0 ≡ self) }
    {
        let Ready { mut held } = self;
        // Only the proof needs these calls: they state that a packet's nodes differ, and the range
        // of their numbers.
        packet.recall();
        match judge_packet(&mut held, alloc, &packet, known) {
            Ok(next) => Ok(step_of(held, next)),
            Err(refusal) => Err((Ready { held }, refusal)),
        }
    }

    /// A timeout: sends pending messages again to the nodes whose certificates of them were not
    /// heard (stubborn links, section 2.4 of the textbook). If memory is refused, the next tick
    /// sends what this one would have sent.
    pub fn tick(self, alloc: A) -> (Ready<A>, Result<Outbox<A>, NoMemory>)
        ensures event { Ticks self result }

        // Its packets carry the node's stored pairs, with the node as their source.
        ensures memory { IfOk result.1 (AreFrom self.node self.pairs self.certified) }
        ensures stored { IfOk result.1 (AreOfStored (ShowsReady self) self.node) }
    {
        let Ready { mut held } = self;
        // Only the proof needs this call: it states the invariant of the pending pairs.
        held.pending.recall();
        let sent = resend_due(&mut held.resend, alloc, &held.pending, &held.acks);
        (Ready { held }, sent)
    }

    /// Stops the node, which loses what it has not stored.
    pub fn crash(self) -> Down<A>
        ensures { Crashes (ShowsReady self) self result }
    {
        let Ready { held } = self;
        take_down(held, None)
    }
}
