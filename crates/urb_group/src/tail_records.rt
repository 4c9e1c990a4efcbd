//! What a few records say that are to follow the stored ones of a node.
//!
//! They are the beginning of a tail, so they are few, and each function reads them all.

ghost use Rattle.std.specs.Prelude.{[], ◌∷◌, ◌≡◌, ◌≤◌, length, option_map};
ghost use Rattle.urb_names.specs.Names.{has_name};
ghost use Rattle.urb_names.specs.Pairs.{message_of, own};
ghost use Rattle.urb_stable.specs.Records.{cert, pend};
ghost use Rattle.urb_group.specs.internal.TailChecks.{of_client};

use std::alloc::Allocator;
use urb_names::{ClientId, Message, Name, NodeId};
use urb_stable::Record;

// Returns the message of a record, if it holds a pair with this name.
fn message_at<A: Allocator>(entry: &Record<Message<A>>, name: Name) -> Option<&Message<A>>
    ensures { option_map (λ m. m.now) result ≡ message_of (pend (entry.now ∷ [])) name }
{
    match entry {
        Record::Pend(other, message) | Record::PendCert(other, message) => {
            if *other == name {
                return Some(message);
            }
            None
        }
        Record::Cert(_) => None,
    }
}

/// Returns the message that these records have under a name: that of the first such pair.
pub(crate) fn find_among<A: Allocator>(
    records: &[Record<Message<A>>],
    name: Name,
) -> Option<&Message<A>>
    ensures { option_map (λ m. m.now) result ≡ message_of (pend records.now) name }
{
    for entry in records {
        if let Some(message) = message_at(entry, name) {
            return Some(message);
        }
    }
    None
}

// Says whether a record certifies this name.
fn certifies<A: Allocator>(entry: &Record<Message<A>>, name: Name) -> bool
    ensures { result ≡ has_name (cert (entry.now ∷ [])) name }
{
    match entry {
        Record::Pend(_, _) => false,
        Record::PendCert(other, _) | Record::Cert(other) => *other == name,
    }
}

/// Says whether one of these records certifies a name.
pub(crate) fn is_certified_among<A: Allocator>(records: &[Record<Message<A>>], name: Name) -> bool
    ensures { result ≡ has_name (cert records.now) name }
{
    for entry in records {
        if certifies(entry, name) {
            return true;
        }
    }
    false
}

// Counts the pairs of the node's own that a record holds, and those whose message is this client's.
fn count_one<A: Allocator>(
    entry: &Record<Message<A>>,
    node: NodeId,
    client: ClientId,
) -> (usize, usize)
    ensures own { result.0 ≡ length (own node (pend (entry.now ∷ []))) }
    ensures of_client { result.1 ≡ of_client client (own node (pend (entry.now ∷ []))) }
    ensures most { (result.0 ≤ 1) × (result.1 ≤ 1) }
{
    match entry {
        Record::Pend(name, message) | Record::PendCert(name, message) => {
            let name = *name;
            if name.sender != node {
                return (0, 0);
            }
            if message.client() != client {
                return (1, 0);
            }
            (1, 1)
        }
        Record::Cert(_) => (0, 0),
    }
}

/// Counts the pairs of the node's own in these records, and those whose message is this client's.
pub(crate) fn count_own<A: Allocator>(
    records: &[Record<Message<A>>],
    node: NodeId,
    client: ClientId,
) -> (usize, usize)
    ensures own { result.0 ≡ length (own node (pend records.now)) }
    ensures of_client { result.1 ≡ of_client client (own node (pend records.now)) }
{
    let mut own = 0;
    let mut of_client = 0;
    for entry in records {
        let (one, one_of_client) = count_one(entry, node, client);
        own += one;
        of_client += one_of_client;
    }
    (own, of_client)
}
