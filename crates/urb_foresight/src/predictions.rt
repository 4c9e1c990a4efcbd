//! Foreseeing what a call drafts.

ghost use Rattle.std.specs.Prelude.{◌≡◌, ◌<◌, [], IfOk, OnErr, length, map};
ghost use Rattle.urb_names.specs.PacketGrammar.{packet_of};
ghost use Rattle.urb_world.specs.Step.{Arrive, Submit};
ghost use Rattle.urb_foresight.specs.ForeseenDrafts.{Foresees, ForeseesCalls, IsReadyNode};
ghost use Rattle.urb_foresight.specs.ForeseenDrafts.{MayBeNext, MayBeStored, event_of};
ghost use Rattle.urb_foresight.specs.internal.ReachedWorlds.{ForeseesCertificate, InEach};
ghost use Rattle.urb_foresight.specs.internal.ReachedWorlds.{TellsReady, pair_record};
ghost use Rattle.urb_foresight.specs.declared.foresight.TheConstants.{MAX_BATCH};

use crate::foresight::count_own;
use crate::taken_packets::{find_taken, is_meant_for};
use crate::{Foreseen, Foresight, WaitingCall};
use std::alloc::Allocator;
use urb_group::{ClientId, Group, Message, Name, NoMemory, NodeId, Payload, Record, State};
use urb_names::{MAX_PAYLOAD, is_majority, parse};

// Says whether the group has a node that is ready.
fn is_ready<A: Allocator + Copy>(group: &Group<A>, node: NodeId) -> bool
    ensures { InEach group.now (TellsReady node result) }
{
    matches!(group.state(node), Some(State::Ready))
}

// Returns the record of a pair, certified at once or not.
fn record_pair<A: Allocator>(
    is_certified: bool,
    name: Name,
    message: Message<A>,
) -> Record<Message<A>>
    ensures { result ≡ pair_record is_certified name message }
{
    if is_certified {
        Record::PendCert(name, message)
    } else {
        Record::Pend(name, message)
    }
}

// Foresees a submit at a node that is ready. Its record would be the node's next own one. If that
// may follow, the message has its client's next number.
fn foresee_submit<A: Allocator + Copy>(
    group: &Group<A>,
    alloc: A,
    node: NodeId,
    foresight: &mut Foresight<A>,
    client: ClientId,
    number: u32,
    payload: &Payload<A>,
) -> Result<Foreseen, NoMemory>
    requires ready { InEach group.now (IsReadyNode node) }
    requires room { length foresight.old < MAX_BATCH }
    ensures foreseen { IfOk result (λ foreseen. Foresees group.now node foresight.old
        (Submit node (record { client = client; number = number; payload = payload.now }))
        foreseen foresight.new) }
    ensures may { IfOk result (MayBeStored group.now node foresight.new) }
    ensures err { OnErr result (foresight.new ≡ foresight.old) }
{
    if number == 0 {
        return Ok(Foreseen::NoDraft);
    }
    let bytes = payload.as_slice();
    if bytes.len() > MAX_PAYLOAD {
        return Ok(Foreseen::NoDraft);
    }
    let config = group.config();
    let Some(stored) = group.own_len(node) else {
        return Ok(Foreseen::NoDraft);
    };
    let cap = config.cap();
    if stored >= cap {
        return Ok(Foreseen::NoDraft);
    }
    let counted = count_own(foresight.records(), node);
    let name = Name {
        sender: node,
        seq: stored + counted + 1,
    };
    let message = Message::sharing(alloc, client, number, payload)?;
    let is_certified = is_majority(1, config.n());
    let entry = record_pair(is_certified, name, message);
    let may = foresight.add(group, node, entry)?;
    if may {
        return Ok(Foreseen::Draft);
    }
    Ok(Foreseen::NoDraft)
}

// Foresees an arrival of a name that is pending at the node. If its certificate may follow, the
// name isn't certified yet.
fn foresee_certificate<A: Allocator + Copy>(
    group: &Group<A>,
    node: NodeId,
    foresight: &mut Foresight<A>,
    name: Name,
    are_two_enough: bool,
) -> Result<Foreseen, NoMemory>
    requires room { length foresight.old < MAX_BATCH }
    ensures foreseen { IfOk result (λ foreseen. ForeseesCertificate group.now node foresight.old
        name are_two_enough foreseen foresight.new) }
    ensures err { OnErr result (foresight.new ≡ foresight.old) }
{
    let certificate = Record::Cert(name);
    if are_two_enough {
        let may = foresight.add(group, node, certificate)?;
        if may {
            return Ok(Foreseen::Draft);
        }
        return Ok(Foreseen::NoDraft);
    }
    let might = foresight.may_add(group, node, certificate)?;
    if might {
        return Ok(Foreseen::Unsure);
    }
    Ok(Foreseen::NoDraft)
}

// Foresees an arrival at a node that is ready. If the packet's pair may follow, it is new to the
// node. If only its certificate may follow, the pair is pending.
fn foresee_arrival<A: Allocator + Copy>(
    group: &Group<A>,
    alloc: A,
    node: NodeId,
    foresight: &mut Foresight<A>,
    bytes: &[u8],
) -> Result<Foreseen, NoMemory>
    requires ready { InEach group.now (IsReadyNode node) }
    requires room { length foresight.old < MAX_BATCH }
    ensures foreseen { IfOk result (λ foreseen. Foresees group.now node foresight.old
        (Arrive node (packet_of bytes.now)) foreseen foresight.new) }
    ensures may { IfOk result (MayBeStored group.now node foresight.new) }
    ensures err { OnErr result (foresight.new ≡ foresight.old) }
{
    let Ok(packet) = parse(bytes) else {
        return Ok(Foreseen::NoDraft);
    };
    if !is_meant_for(group, node, &packet) {
        return Ok(Foreseen::NoDraft);
    }
    let Some(message) = find_taken(group, &packet) else {
        return Ok(Foreseen::Unsure);
    };
    let are_two_enough = is_majority(2, group.config().n());
    let name = packet.name();
    let shared = message.share(alloc)?;
    let pair = record_pair(are_two_enough, name, shared);
    let may = foresight.add(group, node, pair)?;
    if may {
        return Ok(Foreseen::Draft);
    }
    foresee_certificate(group, node, foresight, name, are_two_enough)
}

/// Foresees what a call will draft at a node, behind the records foreseen so far. If it is a draft,
/// its record is put behind them. Call it for the calls that wait, in their order, and let the
/// batch end before the first one that is `Unsure`.
///
/// It is a prediction. It holds if only these calls happen at the node, whatever other nodes store
/// meanwhile. Safety never rests on it. The store that holds the records ahead compares each record
/// that it is to store with the first one ahead. If they differ, it stores nothing more, and the
/// node goes down.
///
/// `Unsure`: there are `MAX_BATCH` records, or the group has no such node, or the node isn't ready.
/// Or the packet's name is pending, and two nodes of the group are no majority: then it depends on
/// which nodes are counted. Or the packet's source hasn't stored what the packet says. It may do so
/// before the packet's turn, and anybody can send such a packet. `NoMemory`: the records are as
/// before; end the batch, or ask again.
pub fn foresee<A: Allocator + Copy>(
    group: &Group<A>,
    alloc: A,
    node: NodeId,
    foresight: &mut Foresight<A>,
    call: &WaitingCall<'_, A>,
) -> Result<Foreseen, NoMemory>
    // Once these records are stored, the call drafts the record that was put behind them, or none.
    ensures foreseen { IfOk result (λ foreseen. Foresees group.now node foresight.old
        (event_of node call.now) foreseen foresight.new) }

    // A store may keep all these records by one call.
    ensures may { IfOk result (MayBeStored group.now node foresight.new) }
    ensures err { OnErr result (foresight.new ≡ foresight.old) }
{
    if foresight.is_full() || !is_ready(group, node) {
        return Ok(Foreseen::Unsure);
    }
    match call {
        WaitingCall::Submit {
            client,
            number,
            payload,
        } => foresee_submit(group, alloc, node, foresight, *client, *number, payload),
        WaitingCall::Arrive { bytes } => foresee_arrival(group, alloc, node, foresight, bytes),
    }
}

/// Foresees what these calls will draft at a node, one after the other: all of them, or those before
/// the first of which nothing is foreseen. If memory is refused, it stops there. Then the refusal is
/// returned too, and what was foreseen so far holds.
pub fn foresee_calls<A: Allocator + Copy>(
    group: &Group<A>,
    alloc: A,
    node: NodeId,
    calls: &[WaitingCall<'_, A>],
) -> (Foresight<A>, Option<NoMemory>)
    ensures foreseen { ForeseesCalls group.now node (map (event_of node) calls.now) [] result.0
        result.1 }

    // If there are any records, a store may keep all of them by one call.
    ensures may { 0 < length result.0 → MayBeNext group.now node result.0 }
{
    let mut foresight = Foresight::new(alloc);
    for call in calls {
        let foreseen = match foresee(group, alloc, node, &mut foresight, call) {
            Ok(foreseen) => foreseen,
            Err(refused) => return (foresight, Some(refused)),
        };
        if foreseen == Foreseen::Unsure {
            return (foresight, None);
        }
    }
    (foresight, None)
}
