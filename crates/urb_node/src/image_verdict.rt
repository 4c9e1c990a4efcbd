//! Whether an image says what a node has stored, with or without the record that is in doubt.

ghost use Rattle.std.specs.Prelude.{◌≡◌, ◌≤◌, ◌&&◌, ◌||◌, ℕ, true, false, List, [], ◌∷◌, ◌++◌};
ghost use Rattle.std.specs.Prelude.{reverse, IfOk, IfSome, OnOk, None, Some};
ghost use Rattle.std.specs.Bool.{MatchBool};
ghost use Rattle.std.specs.Option.{ForSome};
ghost use Rattle.urb_names.specs.Acknowledgements.{acked};
ghost use Rattle.urb_names.specs.LabelsAndContents.{Label};
ghost use Rattle.urb_names.specs.Names.{has_name};
ghost use Rattle.urb_fifo.specs.Delivery.{IsReleaseOf};
ghost use Rattle.urb_stable.specs.Fitting.{in_range};
ghost use Rattle.urb_stable.specs.Entries.{name_of};
ghost use Rattle.urb_stable.specs.DeliveredLogs.{log};
ghost use Rattle.urb_stable.specs.Records.{cert};
ghost use Rattle.urb_node.specs.LayerFields.{memory_of};
ghost use Rattle.urb_node.specs.internal.HeldLayers.{HasRoom, IsFallen, IsHeld, IsNextHeld};
ghost use Rattle.urb_node.specs.internal.ImageVerdicts.{certified_by, delivered_by, pairs_with};
ghost use Rattle.urb_node.specs.internal.ImageVerdicts.{CountsItself, IsOther, IsOtherThan};
ghost use Rattle.urb_node.specs.internal.ImageVerdicts.{IsJoined, IsVerdict, Says, SaysWith};
ghost use Rattle.urb_node.specs.Part.{self_acks};
ghost use Rattle.urb_node.specs.Steps.{same_list, same_names, tells};

use crate::call_outcomes::{make_room_for, note};
use crate::held::Held;
use crate::image_pairs::has_same_pairs;
use std::alloc::Allocator;
use urb_fifo::Fifo;
use urb_majority::Acks;
use urb_names::{Config, Message, Name, NoMemory, NodeId};
use urb_pending::Pending;
use urb_stable::{Index, Record};

/// What an image says.
#[derive(Clone, Copy, Debug, PartialEq, Eq)]
pub(crate) enum Verdict {
    /// What is stored.
    Stored,
    /// What is stored, followed by the record in doubt.
    WithDoubtful,
    /// Neither.
    Neither,
}

// ---- certificates

// Whether a group with these limits may have the name.
fn is_in_range(config: Config, name: Name) -> bool
    ensures { result ≡ in_range config name }
{
    name.sender.number() <= config.n() && name.seq <= config.cap()
}

// Certifies the name of a record that certifies one. Returns false if the group can't have that
// name.
fn certify_record<A: Allocator + Copy>(
    fifo: &mut Fifo<A>,
    config: Config,
    entry: &Record<Message<A>>,
) -> Result<bool, NoMemory>
    requires limits { fifo.old.limits ≡ config }
    ensures limits { fifo.new.limits ≡ config }
    ensures released { IfOk result (λ fits. fits ≡ true
        → (older : List Label)
        → IsReleaseOf older fifo.old
        → IsReleaseOf (cert (entry.now ∷ []) ++ older) fifo.new) }
    ensures strange { IfOk result (λ fits. fits ≡ false
        → (x : Label) × (cert (entry.now ∷ []) ≡ x ∷ []) × (in_range config x ≡ false)) }
{
    match entry {
        Record::Pend(_, _) => Ok(true),
        Record::PendCert(name, _) | Record::Cert(name) => {
            if !is_in_range(config, *name) {
                return Ok(false);
            }
            fifo.certify(*name)?;
            Ok(true)
        }
    }
}

// The release of an image's certificates, or `None` if the group can't have one of them.
fn release_certificates<A: Allocator + Copy>(
    alloc: A,
    config: Config,
    image: &[Record<Message<A>>],
) -> Result<Option<Fifo<A>>, NoMemory>
    ensures released { IfOk result
        (λ found. IfSome found (IsReleaseOf (reverse (cert image.now)))) }
    ensures strange { IfOk result (λ found. found ≡ None
        → (x : Label) × (has_name (cert image.now) x ≡ true) × (in_range config x ≡ false)) }
{
    let mut fifo = Fifo::new(alloc, config);
    for record in image {
        if !certify_record(&mut fifo, config, record)? {
            return Ok(None);
        }
    }
    Ok(Some(fifo))
}

// Whether the image has the same certified and delivered names, given the release of its
// certificates.
fn has_same_names<A: Allocator + Copy>(
    image: &Index<'_, A>,
    released: &Fifo<A>,
    fifo: &Fifo<A>,
) -> bool
    requires { IsReleaseOf (reverse (cert image.now)) released.now }
    ensures { result
        ≡ (same_names (cert image.now) fifo.now.certified && same_list (log image.now)
        fifo.now.log) }
{
    // Only the proof needs these calls: they state the invariants of the layers.
    released.recall();
    fifo.recall();
    released.is_same(fifo)
}

// Whether the image says exactly what is known, in `count` records.
#[tactic(auto, using(crate::proofs::ImageNames::parts_tell))]
fn says<A: Allocator + Copy>(
    image: &Index<'_, A>,
    released: &Fifo<A>,
    pending: &Pending<A>,
    fifo: &Fifo<A>,
    doubt: &Option<Record<Message<A>>>,
    count: u32,
) -> bool
    requires { IsReleaseOf (reverse (cert image.now)) released.now }
    ensures { result
        ≡ tells image.now (pairs_with pending.now.pairs doubt.now) fifo.now.certified fifo.now.log
        count }
{
    let pairs = has_same_pairs(image, pending, doubt);
    let names = has_same_names(image, released, fifo);
    pairs && names && image.records().len() == count as usize
}

// ---- with the doubtful record

// Certifies the name of a record that certifies one.
fn certify_doubtful<A: Allocator + Copy>(
    fifo: &mut Fifo<A>,
    entry: &Record<Message<A>>,
) -> Result<(), NoMemory>
    requires sender { (name_of entry.now).sender ≤ fifo.old.limits.n }
    requires seq { (name_of entry.now).seq ≤ fifo.old.limits.cap }
    ensures { OnOk result ((fifo.new.certified ≡ certified_by fifo.old.certified (Some entry.now))
        × (fifo.new.log ≡ delivered_by fifo.old.log fifo.old.certified (Some entry.now))) }
{
    match entry {
        Record::Pend(_, _) => Ok(()),
        Record::PendCert(name, _) | Record::Cert(name) => {
            fifo.certify(*name)?;
            Ok(())
        }
    }
}

// A node's certificates and log together with the doubtful record's, if a record is in doubt.
fn copy_with_doubtful<A: Allocator + Copy>(
    alloc: A,
    fifo: &Fifo<A>,
    doubt: &Option<Record<Message<A>>>,
) -> Result<Option<Fifo<A>>, NoMemory>
    requires { ForSome doubt.now
        (λ r. ((name_of r).sender ≤ fifo.now.limits.n) × ((name_of r).seq ≤ fifo.now.limits.cap)) }
    ensures { IfOk result (IsJoined fifo.now doubt.now) }
{
    match doubt {
        Some(record) => {
            let mut joined = fifo.copy(alloc)?;
            certify_doubtful(&mut joined, record)?;
            Ok(Some(joined))
        }
        None => Ok(None),
    }
}

// ---- acknowledgements

// Counts the node for each of its pending names.
fn count_itself<A: Allocator + Copy>(
    acks: &mut Acks<A>,
    pending: &Pending<A>,
    node: NodeId,
) -> Result<(), NoMemory>
    ensures same { (acks.new.limits ≡ acks.old.limits) × (acks.new.certified ≡ acks.old.certified) }
    ensures counted { OnOk result ((x : Label) (q : ℕ)
        → acked acks.new.counted x q
        ≡ (acked (self_acks node pending.now.pairs) x q || acked acks.old.counted x q)) }
{
    for index in 0..pending.count() as usize {
        if let Some((name, _message)) = pending.get(index) {
            note(acks, name, node)?;
        }
    }
    Ok(())
}

// Reserves space for everything that the doubtful record adds if it counts as stored.
fn make_room_for_doubt<A: Allocator + Copy>(
    held: &mut Held<A>,
    doubt: &Option<Record<Message<A>>>,
) -> Result<(), NoMemory>
    requires kept { IsHeld held.old }
    requires next { ForSome doubt.now (IsNextHeld held.old) }
    ensures kept { IsHeld held.new }
    ensures same { memory_of held.new ≡ memory_of held.old }
    ensures room { OnOk result (ForSome doubt.now (HasRoom held.new)) }
{
    match doubt {
        Some(record) => make_room_for(held, record),
        None => Ok(()),
    }
}

// Makes all allocations of a restart: it counts the node for its pending names, and reserves space
// for what the doubtful record will add.
fn prepare<A: Allocator + Copy>(
    held: &mut Held<A>,
    doubt: &Option<Record<Message<A>>>,
) -> Result<(), NoMemory>
    requires fallen { IsFallen held.old doubt.now }
    ensures kept { IsHeld held.new }
    ensures same { memory_of held.new
        ≡ record (memory_of held.old) { acks = held.new.acks.counted } }
    ensures next { ForSome doubt.now (IsNextHeld held.new) }
    ensures counted { OnOk result (CountsItself (memory_of held.old) held.new.acks.counted) }
    ensures room { OnOk result (ForSome doubt.now (HasRoom held.new)) }
{
    let node = held.node;
    count_itself(&mut held.acks, &held.pending, node)?;
    make_room_for_doubt(held, doubt)
}

// Whether an image says what is stored, given the release of its certificates.
fn says_stored<A: Allocator + Copy>(
    held: &Held<A>,
    image: &Index<'_, A>,
    released: &Fifo<A>,
) -> bool
    requires kept { IsHeld held.now }
    requires released { IsReleaseOf (reverse (cert image.now)) released.now }
    ensures { MatchBool result (Says image.now (memory_of held.now))
        (IsOther image.now (memory_of held.now)) }
{
    says(
        image,
        released,
        &held.pending,
        &held.fifo,
        &None,
        held.stored,
    )
}

// Whether an image says what is stored followed by the doubtful record. `joined` holds the
// certificates and the log with that record.
fn says_joined<A: Allocator + Copy>(
    held: &Held<A>,
    doubt: &Option<Record<Message<A>>>,
    image: &Index<'_, A>,
    released: &Fifo<A>,
    joined: &Option<Fifo<A>>,
) -> bool
    requires kept { IsHeld held.now }
    requires released { IsReleaseOf (reverse (cert image.now)) released.now }
    requires joined { IsJoined held.now.fifo doubt.now joined.now }
    ensures { MatchBool result (SaysWith image.now (memory_of held.now) doubt.now)
        (IsOtherThan image.now (memory_of held.now) doubt.now) }
{
    // Only the proof needs these calls: they state the invariants of the layers.
    held.pending.recall();
    held.fifo.recall();
    match (doubt, joined) {
        (Some(_), Some(joined)) => says(
            image,
            released,
            &held.pending,
            joined,
            doubt,
            held.stored + 1,
        ),
        _ => false,
    }
}

// What an image says, given the release of its certificates and the certificates and log with the
// doubtful record.
fn verdict_of<A: Allocator + Copy>(
    held: &Held<A>,
    doubt: &Option<Record<Message<A>>>,
    image: &Index<'_, A>,
    released: &Fifo<A>,
    joined: &Option<Fifo<A>>,
) -> Verdict
    requires kept { IsHeld held.now }
    requires released { IsReleaseOf (reverse (cert image.now)) released.now }
    requires joined { IsJoined held.now.fifo doubt.now joined.now }
    ensures { IsVerdict image.now (memory_of held.now) doubt.now result }
{
    if says_stored(held, image, released) {
        Verdict::Stored
    } else if says_joined(held, doubt, image, released, joined) {
        Verdict::WithDoubtful
    } else {
        Verdict::Neither
    }
}

// What an image says about what the node holds.
fn judge_image<A: Allocator + Copy>(
    held: &Held<A>,
    alloc: A,
    doubt: &Option<Record<Message<A>>>,
    image: &[Record<Message<A>>],
) -> Result<Verdict, NoMemory>
    requires kept { IsHeld held.now }
    requires next { ForSome doubt.now (IsNextHeld held.now) }
    ensures { IfOk result (IsVerdict image.now (memory_of held.now) doubt.now) }
{
    // Only the proof needs this call: it states the invariant of the certificates and the log.
    held.fifo.recall();
    let joined = copy_with_doubtful(alloc, &held.fifo, doubt)?;
    let index = Index::new(alloc, image)?;
    match release_certificates(alloc, held.config, image)? {
        Some(released) => Ok(verdict_of(held, doubt, &index, &released, &joined)),
        None => Ok(Verdict::Neither),
    }
}

/// What an image says about a node that is down. Everything that a restart needs is allocated
/// before the image is judged.
pub(crate) fn judge_restart<A: Allocator + Copy>(
    held: &mut Held<A>,
    alloc: A,
    doubt: &Option<Record<Message<A>>>,
    image: &[Record<Message<A>>],
) -> Result<Verdict, NoMemory>
    requires fallen { IsFallen held.old doubt.now }
    ensures kept { IsHeld held.new }
    ensures same { memory_of held.new
        ≡ record (memory_of held.old) { acks = held.new.acks.counted } }
    ensures next { ForSome doubt.now (IsNextHeld held.new) }
    ensures verdict { IfOk result (IsVerdict image.now (memory_of held.old) doubt.now) }
    ensures counted { OnOk result (CountsItself (memory_of held.old) held.new.acks.counted) }
    ensures room { OnOk result (ForSome doubt.now (HasRoom held.new)) }
{
    prepare(held, doubt)?;
    judge_image(held, alloc, doubt, image)
}
