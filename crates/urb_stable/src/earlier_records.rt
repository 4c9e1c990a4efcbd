//! What the earlier records of an image say about each record, found in one pass.
//!
//! It covers what the rules for images need.

ghost use Rattle.std.specs.Prelude.{◌≡◌, ◌≤◌, ◌<◌, ◌+◌, ◌^◌, ◌∷◌, ◌++◌, [], length, take, IfOk, OnOk};
ghost use Rattle.std.specs.Prelude.{List, ℕ};
ghost use Rattle.std.specs.BTreeMap.{get};
ghost use Rattle.urb_names.specs.LabelsAndContents.{Content};
ghost use Rattle.urb_names.specs.Pairs.{own};
ghost use Rattle.urb_stable.specs.internal.EarlierRecords.{AreBefore, HasTold, IsBefore, IsCount};
ghost use Rattle.urb_stable.specs.internal.EarlierRecords.{IsSetOf, by_client, number_found};
ghost use Rattle.urb_stable.specs.Entries.{Entry};
ghost use Rattle.urb_stable.specs.Records.{cert, pend};

use crate::Record;
use std::alloc::Allocator;
use std::collections::{BTreeMap, BTreeSet};
use urb_names::{ClientId, Message, Name, NoMemory};

/// What the records before one say about it.
#[derive(Clone, Copy)]
pub(crate) struct Before {
    /// Whether they certify its name.
    pub(crate) certified: bool,
    /// The number of the node's own messages among them.
    pub(crate) own: usize,
    /// How many of those come from the client of its message; 0 if it has no message.
    pub(crate) of_client: usize,
}

// The number of the node's own messages, and how many of them come from each client.
#[derive(Drop)]
struct Counts<A: Allocator> {
    own: usize,
    clients: BTreeMap<ClientId, usize, A>,
}

// How many of the messages come from this client.
fn count_of<A: Allocator>(counts: &Counts<A>, client: ClientId) -> usize
    ensures { result ≡ number_found (get by_client counts.now.clients client) }
{
    match counts.clients.get(&client) {
        Some(count) => *count,
        None => 0,
    }
}

// Counts one more message from this client.
fn count_message<A: Allocator + Copy>(
    counts: &mut Counts<A>,
    client: ClientId,
) -> Result<(), NoMemory>
    requires room { counts.old.own + 1 < 2 ^ 64 }
    requires part { (c : ℕ) → number_found (get by_client counts.old.clients c) ≤ counts.old.own }
    ensures { (messages : List Content) (m : Content)
        → m.client ≡ client
        → IsCount messages counts.old
        → IfOk result (λ _. IsCount (messages ++ m ∷ []) counts.new) }
{
    let count = count_of(counts, client);
    counts.clients.insert(client, count + 1)?;
    counts.own += 1;
    Ok(())
}

// Counts the message of the record at this place, if its sender is the node with this number.
fn count_next<A: Allocator + Copy>(
    counts: &mut Counts<A>,
    number: usize,
    image: &[Record<Message<A>>],
    place: usize,
) -> Result<(), NoMemory>
    requires within { place < length image.now }
    requires short { length image.now < 2 ^ 64 }
    requires counted { IsCount (own number (pend (take place image.now))) counts.old }
    ensures { IfOk result
        (λ _. IsCount (own number (pend (take (place + 1) image.now))) counts.new) }
{
    match &image[place] {
        Record::Pend(name, message) | Record::PendCert(name, message) => {
            let name = *name;
            if usize::from(name.sender.number()) == number {
                count_message(counts, message.client())?;
            }
        }
        Record::Cert(_) => {}
    }
    Ok(())
}

// Adds the certificate of one more record, if it has one.
fn certify_next<A: Allocator + Copy>(
    certified: &mut BTreeSet<Name, A>,
    entry: &Record<Message<A>>,
) -> Result<(), NoMemory>
    ensures { (earlier : List Entry)
        → IsSetOf (cert earlier) certified.old
        → IfOk result (λ _. IsSetOf (cert (earlier ++ entry.now ∷ [])) certified.new) }
{
    match entry {
        Record::Pend(_, _) => {}
        Record::PendCert(name, _) | Record::Cert(name) => {
            certified.insert(*name)?;
        }
    }
    Ok(())
}

// What the records so far say about the next one.
fn facts_about<A: Allocator>(
    certified: &BTreeSet<Name, A>,
    counts: &Counts<A>,
    entry: &Record<Message<A>>,
) -> Before
    ensures { (p : ℕ) (earlier : List Entry)
        → IsSetOf (cert earlier) certified.now
        → IsCount (own p (pend earlier)) counts.now
        → IsBefore p earlier entry.now result }
{
    let name = entry.name();
    let of_client = match entry {
        Record::Pend(_, message) | Record::PendCert(_, message) => {
            count_of(counts, message.client())
        }
        Record::Cert(_) => 0,
    };
    Before {
        certified: certified.contains(&name),
        own: counts.own,
        of_client,
    }
}

// What the records so far say, and what was found out about each of them.
#[derive(Drop)]
struct Pass<A: Allocator> {
    certified: BTreeSet<Name, A>,
    counts: Counts<A>,
    told: Vec<Before, A>,
}

// Goes one record further.
fn tell_next<A: Allocator + Copy>(
    pass: &mut Pass<A>,
    number: usize,
    image: &[Record<Message<A>>],
    place: usize,
) -> Result<(), NoMemory>
    requires within { place < length image.now }
    requires short { length image.now < 2 ^ 64 }
    requires told { HasTold number image.now place pass.old }
    ensures { OnOk result (HasTold number image.now (place + 1) pass.new) }
{
    let entry = &image[place];
    pass.told
        .push(facts_about(&pass.certified, &pass.counts, entry))?;
    certify_next(&mut pass.certified, entry)?;
    count_next(&mut pass.counts, number, image, place)
}

/// What the earlier records say about each record of an image. The image belongs to the node with
/// this number. Memory comes from `alloc`.
pub(crate) fn facts_about_each<A: Allocator + Copy>(
    alloc: A,
    number: usize,
    image: &[Record<Message<A>>],
) -> Result<Vec<Before, A>, NoMemory>
    ensures { IfOk result (λ told. AreBefore number image.now (length image.now) told.items) }
{
    let mut pass = Pass {
        certified: BTreeSet::new(alloc),
        counts: Counts {
            own: 0,
            clients: BTreeMap::new(alloc),
        },
        told: Vec::new(alloc),
    };
    for place in 0..image.len() {
        tell_next(&mut pass, number, image, place)?;
    }
    let Pass { told, .. } = pass;
    Ok(told)
}
