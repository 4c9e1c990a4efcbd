//! Whether an image has exactly the pairs that a node knows.
//!
//! An image is the list of records that a storage returned. A pair is a name with its message. A
//! node knows the pairs that it has stored (the pending ones), and that of its doubtful record.
//! `are_known` goes from the image to the node: each pair of the image is known. `has_known` goes
//! the other way: the image has each known pair.

ghost use Rattle.std.specs.Prelude.{◌≡◌, [], ◌∷◌};
ghost use Rattle.std.specs.List.{list_all};
ghost use Rattle.urb_names.specs.Pairs.{has_pair};
ghost use Rattle.urb_stable.specs.Records.{pend};
ghost use Rattle.urb_node.specs.internal.ImageVerdicts.{pairs_with};
ghost use Rattle.urb_node.specs.Steps.{same_pairs};

use std::alloc::Allocator;
use urb_names::{Message, Name};
use urb_pending::Pending;
use urb_stable::{Index, Record};

// Whether a record has this pair.
fn is_of_pair<A: Allocator>(entry: &Record<Message<A>>, name: Name, message: &Message<A>) -> bool
    ensures { result ≡ has_pair (pend (entry.now ∷ [])) name message.now }
{
    match entry {
        Record::Pend(own, other) | Record::PendCert(own, other) => {
            *own == name && other.is_same(message)
        }
        Record::Cert(_) => false,
    }
}

// Whether the node knows this pair: it is pending, or it is the doubtful record's.
#[tactic(auto, using(crate::proofs::ImagePairs::pair_with))]
fn is_known<A: Allocator + Copy>(
    pending: &Pending<A>,
    doubt: &Option<Record<Message<A>>>,
    name: Name,
    message: &Message<A>,
) -> bool
    ensures { result ≡ has_pair (pairs_with pending.now.pairs doubt.now) name message.now }
{
    match doubt {
        Some(record) => pending.has(&name, message) || is_of_pair(record, name, message),
        None => pending.has(&name, message),
    }
}

// Whether a record of the image has no pair, or a known pair.
fn is_record_known<A: Allocator + Copy>(
    entry: &Record<Message<A>>,
    pending: &Pending<A>,
    doubt: &Option<Record<Message<A>>>,
) -> bool
    ensures { result
        ≡ list_all (λ pair. has_pair (pairs_with pending.now.pairs doubt.now) pair.0 pair.1)
        (pend (entry.now ∷ [])) }
{
    match entry {
        Record::Pend(name, message) | Record::PendCert(name, message) => {
            is_known(pending, doubt, *name, message)
        }
        Record::Cert(_) => true,
    }
}

// Whether every pair of the image is known.
#[tactic(auto, using(crate::proofs::ImagePairs::record_all))]
fn are_known<A: Allocator + Copy>(
    image: &[Record<Message<A>>],
    pending: &Pending<A>,
    doubt: &Option<Record<Message<A>>>,
) -> bool
    ensures { result
        ≡ list_all (λ pair. has_pair (pairs_with pending.now.pairs doubt.now) pair.0 pair.1)
        (pend image.now) }
{
    for record in image {
        if !is_record_known(record, pending, doubt) {
            return false;
        }
    }
    true
}

// Whether a record has no pair, or a pair that the image has.
fn is_record_in<A: Allocator + Copy>(entry: &Record<Message<A>>, image: &Index<'_, A>) -> bool
    ensures { result
        ≡ list_all (λ pair. has_pair (pend image.now) pair.0 pair.1) (pend (entry.now ∷ [])) }
{
    match entry {
        Record::Pend(name, message) | Record::PendCert(name, message) => {
            image.has(*name, message)
        }
        Record::Cert(_) => true,
    }
}

// Whether the image has every pending pair.
fn has_pending<A: Allocator + Copy>(image: &Index<'_, A>, pending: &Pending<A>) -> bool
    ensures { result
        ≡ list_all (λ pair. has_pair (pend image.now) pair.0 pair.1) pending.now.pairs }
{
    for index in 0..pending.count() as usize {
        if let Some((name, message)) = pending.get(index) {
            if !image.has(name, message) {
                return false;
            }
        }
    }
    true
}

// Whether the image has every known pair.
#[tactic(auto, using(crate::proofs::ImagePairs::all_with))]
fn has_known<A: Allocator + Copy>(
    image: &Index<'_, A>,
    pending: &Pending<A>,
    doubt: &Option<Record<Message<A>>>,
) -> bool
    ensures { result
        ≡ list_all (λ pair. has_pair (pend image.now) pair.0 pair.1)
        (pairs_with pending.now.pairs doubt.now) }
{
    match doubt {
        Some(record) => has_pending(image, pending) && is_record_in(record, image),
        None => has_pending(image, pending),
    }
}

// Whether the image has exactly the known pairs.
pub(crate) fn has_same_pairs<A: Allocator + Copy>(
    image: &Index<'_, A>,
    pending: &Pending<A>,
    doubt: &Option<Record<Message<A>>>,
) -> bool
    ensures { result ≡ same_pairs (pend image.now) (pairs_with pending.now.pairs doubt.now) }
{
    are_known(image.records(), pending, doubt) && has_known(image, pending, doubt)
}
