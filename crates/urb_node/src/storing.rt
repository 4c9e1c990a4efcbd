//! A node that holds a draft.

ghost use Rattle.std.specs.Prelude.{◌≡◌, ◌≤◌, ◌<◌, ◌+◌, ◌^◌, true, false, length, is_some, IfOk};
ghost use Rattle.std.specs.Prelude.{Some};
ghost use Rattle.std.specs.Bool.{MatchBool};
ghost use Rattle.urb_names.specs.CarriedPackets.{AreFrom};
ghost use Rattle.urb_names.specs.Names.{has_name};
ghost use Rattle.urb_names.specs.Pairs.{message_of};
ghost use Rattle.urb_stable.specs.declared.record.Record.TheVariants.{Pend};
ghost use Rattle.urb_node.specs.LayerFields.{memory_of};
ghost use Rattle.urb_node.specs.internal.HeldLayers.{HasRoom, IsHeld, IsNextHeld};
ghost use Rattle.urb_node.specs.internal.LayerAdditions.{counted_cause, counted_with, with_certificate};
ghost use Rattle.urb_node.specs.internal.LayerAdditions.{with_pair, with_record};
ghost use Rattle.urb_node.specs.CallEffects.{AreOfStored, Confirms, Crashes, Fails};
ghost use Rattle.urb_node.specs.Steps.{is_accepted};
ghost use Rattle.urb_node.specs.NodeMemories.{ShowsReady, ShowsStoring};

use crate::call_outcomes::note;
use crate::cause::{Cause, certified_source};
use crate::down::take_down;
use crate::heard_certificates::hear;
use crate::held::Held;
use crate::{Done, Down, Ready};
use std::alloc::{Allocator, Global};
use std::marker::Model;
use urb_majority::Acks;
use urb_names::{Message, Name, NodeId};
use urb_stable::{Receipt, Record};
use urb_stubborn::Outbox;

/// A node that holds a draft: it waits for its store and takes nothing else.
#[derive(Drop)]
#[derive_where(Debug)]
pub struct Storing<A: Allocator = Global> {
    pub(crate) held: Held<A>,
    pub(crate) entry: Record<Message<A>>,
    pub(crate) cause: Option<Cause>,
    // The packets to send once the record is stored. Only `confirm` gives them out.
    pub(crate) packets: Outbox<A>,
}

impl<A: Allocator> Model for Storing<A> {
    ghost use Rattle.urb_node.specs.LayerFields.{memory_of};
    ghost use Rattle.urb_node.specs.internal.HeldLayers.{IsDrafted};
    ghost use Rattle.urb_node.specs.NodeMemories.{Holding};

    ghost Value = { Holding };

    ghost view = { λ a. record { memory = memory_of a.held; entry = a.entry; cause = a.cause } };

    ghost invariant = { λ a. IsDrafted a.held a.entry a.cause a.packets };
}

// Counts the acknowledgements of a stored message: the node's own, and that of the source of the
// packet that caused it.
fn count_acks<A: Allocator + Copy>(
    acks: &mut Acks<A>,
    name: Name,
    node: NodeId,
    cause: Option<Cause>,
)
    requires { acks.old.reserved ≡ Some name }
    ensures counted { acks.new.counted
        ≡ counted_cause (counted_with acks.old.counted name node) name cause }
    ensures same { (acks.new.limits ≡ acks.old.limits) × (acks.new.certified ≡ acks.old.certified) }
    ensures reserved { acks.new.reserved ≡ Some name }
{
    note(acks, name, node).unwrap();
    if let Some(cause) = cause {
        note(acks, name, cause.source).unwrap();
    }
}

// Adds one more stored pending pair.
fn join_pair<A: Allocator + Copy>(
    held: &mut Held<A>,
    name: Name,
    message: Message<A>,
    cause: Option<Cause>,
)
    requires kept { IsHeld held.old }
    requires next { IsNextHeld held.old (Pend name message) }
    requires room { (held.old.pending.reserved ≡ Some (name, message.client))
        × (held.old.acks.reserved ≡ Some name)
        × (has_name held.old.resend.roomy name ≡ true) }
    requires fits { held.old.stored + 1 < 2 ^ 32 }
    ensures kept { IsHeld held.new }
    ensures memory { memory_of held.new ≡ with_pair (memory_of held.old) name message cause }
    ensures room { (held.new.acks.reserved ≡ Some name) × (held.new.fifo ≡ held.old.fifo) }
{
    let node = held.node;
    let heard = certified_source(&cause);
    held.pending.add(name, message).unwrap();
    count_acks(&mut held.acks, name, node, cause);
    hear(&mut held.resend, name, heard);
    held.stored += 1;
}

// Certifies a pending name and returns how many names this releases.
fn join_certificate<A: Allocator + Copy>(held: &mut Held<A>, name: Name) -> u32
    requires kept { IsHeld held.old }
    requires range { (name.sender ≤ held.old.config.n) × (name.seq ≤ held.old.config.cap) }
    requires pending { is_some (message_of held.old.pending.pairs name) ≡ true }
    requires room { (held.old.acks.reserved ≡ Some name) × (held.old.fifo.reserved ≡ Some name) }
    ensures kept { IsHeld held.new }
    ensures memory { memory_of held.new ≡ with_certificate (memory_of held.old) name }
    ensures released { length held.new.fifo.log ≡ length held.old.fifo.log + result }
    ensures one_more { has_name held.old.acks.certified name ≡ false
        → held.new.stored + 1 ≤ length held.new.pending.pairs + length held.new.acks.certified }
{
    held.acks.certify(name).unwrap();
    held.fifo.certify(name).unwrap()
}

/// What a node holds once its record is stored, and how many names this releases.
pub(crate) fn apply_record<A: Allocator + Copy>(
    mut held: Held<A>,
    entry: Record<Message<A>>,
    cause: Option<Cause>,
) -> (Held<A>, u32)
    requires kept { IsHeld held }
    requires next { IsNextHeld held entry }
    requires room { HasRoom held entry }
    ensures kept { IsHeld result.0 }
    ensures memory { memory_of result.0 ≡ with_record (memory_of held) entry cause }
    ensures released { length (memory_of result.0).log ≡ length (memory_of held).log + result.1 }
{
    // Only the proof needs these calls: they state the invariants of the layers.
    held.pending.recall();
    held.fifo.recall();
    match entry {
        Record::Pend(name, message) => {
            join_pair(&mut held, name, message, cause);
            (held, 0)
        }
        Record::PendCert(name, message) => {
            join_pair(&mut held, name, message, cause);
            let released = join_certificate(&mut held, name);
            (held, released)
        }
        Record::Cert(name) => {
            let released = join_certificate(&mut held, name);
            held.stored += 1;
            (held, released)
        }
    }
}

// Whether a receipt belongs to this record of this node at this position.
fn is_receipt_of<A: Allocator>(
    receipt: &Receipt<A>,
    node: NodeId,
    pos: u32,
    entry: &Record<Message<A>>,
) -> bool
    ensures { MatchBool result (receipt.now ≡ record { node = node; pos = pos; entry = entry.now })
        (¬ (receipt.now ≡ record { node = node; pos = pos; entry = entry.now })) }
{
    receipt.node() == node && receipt.pos() == pos && receipt.entry().is_same(entry)
}

// Whether a record is a pending one of this node's own.
fn is_own_message<A: Allocator>(entry: &Record<Message<A>>, node: NodeId) -> bool
    ensures { result ≡ is_accepted node entry.now }
{
    match entry {
        Record::Pend(name, _) | Record::PendCert(name, _) => {
            let name = *name;
            name.sender == node
        }
        Record::Cert(_) => false,
    }
}

impl<A: Allocator + Copy> Storing<A> {
    /// Continues after the store kept the record, and returns the packets to send. The receipt is
    /// the proof that it is stored, so a receipt of another draft is returned together with the
    /// node. Allocates no memory.
    pub fn confirm(
        self,
        receipt: Receipt<A>,
    ) -> Result<(Ready<A>, Done<A>), (Storing<A>, Receipt<A>)>
        ensures event { Confirms self receipt result }

        // Its packets carry the node's stored pairs, with the node as their source.
        ensures memory { IfOk result (λ r. AreFrom r.0.node r.0.pairs r.0.certified r.1.sent) }
        ensures stored { IfOk result (λ r. AreOfStored (ShowsReady r.0) r.0.node r.1.sent) }
    {
        let Storing {
            held,
            entry,
            cause,
            packets,
        } = self;
        // Only the proof needs these calls: they state the invariants of the layers.
        held.pending.recall();
        held.fifo.recall();
        if !is_receipt_of(&receipt, held.node, held.stored + 1, &entry) {
            let storing = Storing {
                held,
                entry,
                cause,
                packets,
            };
            return Err((storing, receipt));
        }
        let name = entry.name();
        let accepted = is_own_message(&entry, held.node);
        let (held, released) = apply_record(held, entry, cause);
        let done = Done {
            accepted,
            name,
            sent: packets,
            released,
        };
        Ok((Ready { held }, done))
    }

    /// Takes the node down because the store didn't certainly keep the record, which is then in
    /// doubt. Allocates no memory.
    pub fn fail(self) -> Down<A>
        ensures { Fails self result }
    {
        let Storing { held, entry, .. } = self;
        take_down(held, Some(entry))
    }

    /// Stops the node while it holds a draft; same as `fail`.
    pub fn crash(self) -> Down<A>
        ensures { Crashes (ShowsStoring self) self.memory result }
    {
        self.fail()
    }
}
