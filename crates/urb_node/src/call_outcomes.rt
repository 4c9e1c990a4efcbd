//! What a ready node finds out about a call, before the node changes state.
//!
//! A call that isn't refused breaks off with an answer, or continues with a record to store.

ghost use Rattle.std.specs.Prelude.{◌≡◌, ◌≤◌, true, false, [], ◌∷◌, Some, IsOk, OnOk, OnErr};
ghost use Rattle.std.specs.Prelude.{IfOk, IfSome, is_some, if◌then◌else◌};
ghost use Rattle.std.specs.ControlFlow.{continue_value};
ghost use Rattle.std.specs.Option.{ForSome};
ghost use Rattle.urb_names.specs.Names.{has_name};
ghost use Rattle.urb_names.specs.Pairs.{message_of};
ghost use Rattle.urb_stable.specs.declared.record.Record.TheVariants.{Pend, PendCert};
ghost use Rattle.urb_node.specs.LayerFields.{memory_of};
ghost use Rattle.urb_node.specs.internal.HeldLayers.{HasRoom, IsHeld, IsNextHeld};
ghost use Rattle.urb_node.specs.internal.OutcomeSteps.{Finds, IsWanted};
ghost use Rattle.urb_node.specs.internal.LayerAdditions.{counted_with};
ghost use Rattle.urb_node.specs.CallEffects.{IsForNode};
ghost use Rattle.urb_node.specs.AnswerPackets.{answer_with};
ghost use Rattle.urb_node.specs.internal.Outcomes.{arrive_outcome, certified_outcome};
ghost use Rattle.urb_node.specs.internal.Outcomes.{counted_outcome, hearing, repeat_outcome};
ghost use Rattle.urb_node.specs.internal.Outcomes.{submit_outcome, wants_answer};
ghost use Rattle.urb_node.specs.NodeMemories.{IsSameNode};

use crate::Answer;
use crate::cause::{Cause, cause_of, certified_source};
use crate::heard_certificates::{hear_packet, says_certified};
use crate::held::Held;
use std::alloc::{Allocator, Global};
use std::ops::ControlFlow;
use urb_majority::Acks;
use urb_names::{
    ClientId, Flags, MAX_PAYLOAD, Message, Name, NoMemory, NodeId, Packet, PacketView, Payload,
    Refusal, is_majority,
};
use urb_stable::Record;
use urb_stubborn::Outbox;

/// A record to store, with its copy for the store, the packet that caused it, and the packets to
/// send once it is stored.
#[derive(Drop)]
#[derive_where(Debug)]
pub(crate) struct Wanted<A: Allocator = Global> {
    pub(crate) entry: Record<Message<A>>,
    pub(crate) copy: Record<Message<A>>,
    pub(crate) cause: Option<Cause>,
    pub(crate) packets: Outbox<A>,
}

// Reserves space for everything that a pending record of this name adds, except for a certificate.
fn make_room_for_pair<A: Allocator + Copy>(
    held: &mut Held<A>,
    name: Name,
    client: ClientId,
) -> Result<(), NoMemory>
    requires kept { IsHeld held.old }
    requires sender { name.sender ≤ held.old.config.n }
    requires seq { name.seq ≤ held.old.config.cap }
    ensures kept { IsHeld held.new }
    ensures same { memory_of held.new ≡ memory_of held.old }
    ensures room { OnOk result ((held.new.pending.reserved ≡ Some (name, client))
        × (held.new.acks.reserved ≡ Some name)
        × (has_name held.new.resend.roomy name ≡ true)) }
{
    held.pending.reserve(name, client)?;
    held.acks.reserve(name)?;
    held.resend.reserve(name)?;
    Ok(())
}

/// Reserves space for everything that a record will add.
pub(crate) fn make_room_for<A: Allocator + Copy>(
    held: &mut Held<A>,
    entry: &Record<Message<A>>,
) -> Result<(), NoMemory>
    requires kept { IsHeld held.old }
    requires next { IsNextHeld held.old entry.now }
    ensures kept { IsHeld held.new }
    ensures same { memory_of held.new ≡ memory_of held.old }
    ensures room { OnOk result (HasRoom held.new entry.now) }
{
    match entry {
        Record::Pend(name, message) => make_room_for_pair(held, *name, message.client()),
        Record::PendCert(name, message) => {
            make_room_for_pair(held, *name, message.client())?;
            held.fifo.reserve(*name)?;
            Ok(())
        }
        Record::Cert(name) => {
            held.acks.reserve(*name)?;
            held.fifo.reserve(*name)?;
            Ok(())
        }
    }
}

// The record of a pending message, certified at once or not.
fn pending_record<A: Allocator>(
    name: Name,
    message: Message<A>,
    is_certified: bool,
) -> Record<Message<A>>
    ensures { result ≡ (if is_certified then PendCert name message else Pend name message) }
{
    if is_certified {
        Record::PendCert(name, message)
    } else {
        Record::Pend(name, message)
    }
}

// Makes all copies of a pending message and reserves space for it.
fn make_wanted<A: Allocator + Copy>(
    held: &mut Held<A>,
    alloc: A,
    name: Name,
    message: Message<A>,
    is_certified: bool,
    cause: Option<Cause>,
) -> Result<Wanted<A>, NoMemory>
    requires kept { IsHeld held.old }
    requires next { IsNextHeld held.old
        (if is_certified then PendCert name message else Pend name message) }
    requires caused { ForSome cause (λ c. (1 ≤ c.source) × (c.source ≤ held.old.config.n)) }
    ensures kept { IsHeld held.new }
    ensures same { memory_of held.new ≡ memory_of held.old }
    ensures wanted { IfOk result (λ w. IsWanted held.new w
        × (w.entry ≡ (if is_certified then PendCert name message else Pend name message))
        × (w.cause ≡ cause)) }
{
    let packets = Outbox::of_pair(
        alloc,
        held.config,
        held.node,
        name,
        &message,
        is_certified,
        certified_source(&cause),
    )?;
    let copy = pending_record(name, message.share(alloc)?, is_certified);
    let entry = pending_record(name, message, is_certified);
    make_room_for(held, &entry)?;
    Ok(Wanted {
        entry,
        copy,
        cause,
        packets,
    })
}

// The outcome for a message whose client has already used its number for the message pending under
// this name.
fn answer_repeat<A: Allocator + Copy>(
    held: &Held<A>,
    name: Name,
    client: ClientId,
    number: u32,
    payload: &[u8],
) -> Result<ControlFlow<Answer<Outbox<A>>, Wanted<A>>, Refusal>
    ensures { Finds (memory_of held.now)
        (repeat_outcome (memory_of held.now)
        (record { client = client; number = number; payload = payload.now }) name
        (message_of held.now.pending.pairs name)) result (memory_of held.now) }
{
    match held.pending.message(name) {
        Some(message) => {
            if message.payload() == payload {
                Ok(ControlFlow::Break(Answer::Accepted(name)))
            } else {
                Err(Refusal::Conflict)
            }
        }
        None => Err(Refusal::Conflict),
    }
}

/// The outcome of a submit: the checks of a submit at a ready node, in their order. The message
/// shares the payload.
pub(crate) fn judge_submit<A: Allocator + Copy>(
    held: &mut Held<A>,
    alloc: A,
    client: ClientId,
    number: u32,
    payload: &Payload<A>,
) -> Result<ControlFlow<Answer<Outbox<A>>, Wanted<A>>, Refusal>
    requires kept { IsHeld held.old }
    ensures kept { IsHeld held.new }
    ensures same { IsSameNode (memory_of held.old) (memory_of held.new) }
    ensures wanted { IfOk result (λ next. IfSome (continue_value next) (IsWanted held.new)) }
    ensures outcome { Finds (memory_of held.old)
        (submit_outcome (memory_of held.old)
        (record { client = client; number = number; payload = payload.now })) result
        (memory_of held.new) }
{
    let bytes = payload.as_slice();
    if bytes.len() > MAX_PAYLOAD {
        return Err(Refusal::TooLong);
    }
    if let Some(name) = held.pending.find(client, number) {
        return answer_repeat(held, name, client, number, bytes);
    }
    let next = held.pending.client_next(client);
    if number != next {
        return Err(Refusal::Gap(next));
    }
    let own = held.pending.own_len();
    if own >= held.config.cap() {
        return Err(Refusal::Full);
    }
    // Only the proof needs this call: it states the invariant of the pending pairs.
    held.pending.recall();
    let name = Name {
        sender: held.node,
        seq: own + 1,
    };
    let message = Message::sharing(alloc, client, number, payload)?;
    let is_certified = is_majority(1, held.config.n());
    Ok(ControlFlow::Continue(make_wanted(held, alloc, name, message, is_certified, None)?))
}

// Counts a node for a name.
pub(crate) fn note<A: Allocator + Copy>(
    acks: &mut Acks<A>,
    name: Name,
    node: NodeId,
) -> Result<(), NoMemory>
    ensures ok { OnOk result ((acks.new.counted ≡ counted_with acks.old.counted name node)
        × (acks.new.limits ≡ acks.old.limits)
        × (acks.new.certified ≡ acks.old.certified)) }
    ensures reserved { acks.old.reserved ≡ Some name → acks.new.reserved ≡ Some name }
    ensures err { OnErr result (acks.new ≡ acks.old) }
    ensures roomy { acks.old.reserved ≡ Some name → IsOk result }
{
    acks.note(name, node)?;
    Ok(())
}

// The outcome of a packet whose name is pending and not certified.
fn judge_uncertified<A: Allocator + Copy>(
    held: &mut Held<A>,
    alloc: A,
    source: NodeId,
    name: Name,
    flags: Option<Flags>,
) -> Result<ControlFlow<Answer<Outbox<A>>, Wanted<A>>, Refusal>
    requires kept { IsHeld held.old }
    requires source { (1 ≤ source) × (source ≤ held.old.config.n) }
    requires sender { name.sender ≤ held.old.config.n }
    requires seq { name.seq ≤ held.old.config.cap }
    requires pending { is_some (message_of held.old.pending.pairs name) ≡ true }
    requires open { has_name held.old.acks.certified name ≡ false }
    ensures kept { IsHeld held.new }
    ensures same { IsSameNode (memory_of held.old) (memory_of held.new) }
    ensures wanted { IfOk result (λ next. IfSome (continue_value next) (IsWanted held.new)) }
    ensures outcome { Finds (memory_of held.old)
        (counted_outcome (memory_of held.old) source name flags) result (memory_of held.new) }
{
    let is_counted = held.acks.noted(name, source);
    if held.acks.majority_with(name, source) {
        held.acks.reserve(name)?;
        held.fifo.reserve(name)?;
        note(&mut held.acks, name, source).unwrap();
        hear_packet(held, source, name, flags);
        return Ok(ControlFlow::Continue(Wanted {
            entry: Record::Cert(name),
            copy: Record::Cert(name),
            cause: Some(cause_of(source, flags)),
            packets: Outbox::empty(alloc),
        }));
    }
    if is_counted {
        hear_packet(held, source, name, flags);
        return Ok(ControlFlow::Break(Answer::Again(name)));
    }
    note(&mut held.acks, name, source)?;
    hear_packet(held, source, name, flags);
    Ok(ControlFlow::Break(Answer::Noted(name)))
}

// The message that a packet carries: the known message, or a copy from the packet.
fn message_in<A: Allocator + Copy>(
    alloc: A,
    packet: &PacketView<'_>,
    known: Option<Message<A>>,
) -> Result<Message<A>, NoMemory>
    requires known { ForSome known (λ m. m ≡ packet.now.message) }
    ensures { IfOk result (λ m. m ≡ packet.now.message) }
{
    match known {
        Some(message) => Ok(message),
        None => Message::copy_of(alloc, packet.client(), packet.number(), packet.payload()),
    }
}

// The answer to a packet's source. It says that this node has stored a certificate of the name, and
// whether this node has heard of the source's certificate.
fn reply_to<A: Allocator + Copy>(
    alloc: A,
    node: NodeId,
    packet: &PacketView<'_>,
    known: Option<Message<A>>,
    heard: bool,
) -> Result<Outbox<A>, NoMemory>
    requires target { packet.now.target ≡ node }
    requires known { ForSome known (λ m. m ≡ packet.now.message) }
    ensures { IfOk result (λ outbox.
        outbox ≡ answer_with node packet.now.source packet.now.name packet.now.message heard ∷ []) }
{
    // Only the proof needs this call: it states that a packet's nodes differ.
    packet.recall();
    let message = message_in(alloc, packet, known)?;
    let flags = Flags {
        certified: true,
        heard,
    };
    let reply = Packet::new(node, packet.source(), packet.name(), message, Some(flags));
    Outbox::one(alloc, reply)
}

// Whether a packet's source wants an answer if the name is certified. It does if the packet is of
// version two and its source hasn't heard of a certificate here.
fn wants_answer(flags: Option<Flags>) -> bool
    ensures { result ≡ wants_answer flags }
{
    match flags {
        Some(flags) => !flags.heard,
        None => false,
    }
}

// The outcome of a packet whose name is certified.
fn judge_certified<A: Allocator + Copy>(
    held: &mut Held<A>,
    alloc: A,
    packet: &PacketView<'_>,
    known: Option<Message<A>>,
) -> Result<ControlFlow<Answer<Outbox<A>>, Wanted<A>>, Refusal>
    requires kept { IsHeld held.old }
    requires target { packet.now.target ≡ held.old.node }
    requires known { ForSome known (λ m. m ≡ packet.now.message) }
    requires pending { is_some (message_of held.old.pending.pairs packet.now.name) ≡ true }
    ensures kept { IsHeld held.new }
    ensures same { IsSameNode (memory_of held.old) (memory_of held.new) }
    ensures wanted { IfOk result (λ next. IfSome (continue_value next) (IsWanted held.new)) }
    ensures outcome { Finds (memory_of held.old)
        (certified_outcome
        (hearing (memory_of held.old) packet.now.source packet.now.name packet.now.flags)
        packet.now.source packet.now.name packet.now.message packet.now.flags) result
        (memory_of held.new) }
{
    let name = packet.name();
    let source = packet.source();
    let flags = packet.flags();
    if !wants_answer(flags) {
        hear_packet(held, source, name, flags);
        return Ok(ControlFlow::Break(Answer::Again(name)));
    }
    let heard = says_certified(flags) || held.resend.heard(name, source);
    let packets = reply_to(alloc, held.node, packet, known, heard)?;
    hear_packet(held, source, name, flags);
    Ok(ControlFlow::Break(Answer::Answered(name, packets)))
}

/// The outcome of a packet at a ready node.
pub(crate) fn judge_packet<A: Allocator + Copy>(
    held: &mut Held<A>,
    alloc: A,
    packet: &PacketView<'_>,
    known: Option<Message<A>>,
) -> Result<ControlFlow<Answer<Outbox<A>>, Wanted<A>>, Refusal>
    requires kept { IsHeld held.old }
    requires packet { IsForNode (memory_of held.old) packet.now }
    requires known { ForSome known (λ m. m ≡ packet.now.message) }
    ensures kept { IsHeld held.new }
    ensures same { IsSameNode (memory_of held.old) (memory_of held.new) }
    ensures wanted { IfOk result (λ next. IfSome (continue_value next) (IsWanted held.new)) }
    ensures outcome { Finds (memory_of held.old)
        (arrive_outcome (memory_of held.old) packet.now.source packet.now.name packet.now.message
        packet.now.flags) result (memory_of held.new) }
{
    let name = packet.name();
    let source = packet.source();
    let flags = packet.flags();
    // Only the proof needs this call: it states the range of a node's number.
    source.recall();
    if held.pending.message(name).is_none() {
        let message = message_in(alloc, packet, known)?;
        let is_certified = is_majority(2, held.config.n());
        let cause = Some(cause_of(source, flags));
        let wanted = make_wanted(held, alloc, name, message, is_certified, cause)?;
        return Ok(ControlFlow::Continue(wanted));
    }
    if held.acks.certified(name) {
        return judge_certified(held, alloc, packet, known);
    }
    judge_uncertified(held, alloc, source, name, flags)
}
