//! An index of an image, which finds each pair without scanning the image.

ghost use Rattle.std.specs.Prelude.{◌≡◌, ◌<◌, ◌+◌, length, option_map, slice_get, take, IfOk, Some};
ghost use Rattle.urb_names.specs.Pairs.{has_pair, message_of};
ghost use Rattle.urb_stable.specs.Entries.{name_of};
ghost use Rattle.urb_stable.specs.internal.Indexes.{IsIndexOf};
ghost use Rattle.urb_stable.specs.Records.{pend};

use crate::Record;
use crate::fitting::{is_of_pair, message_at};
use std::alloc::Allocator;
use std::collections::BTreeMap;
use std::marker::Model;
use urb_names::{Message, Name, NoMemory};

// The places of the pairs among the first records of an image. `last` holds the place of the last
// pair with each name. `before` holds, for each record, the place of the last pair with its name
// before it. An image that doesn't fit may hold a name twice.
#[derive(Drop)]
pub(crate) struct Places<A: Allocator> {
    last: BTreeMap<Name, usize, A>,
    before: Vec<Option<usize>, A>,
}

/// An index of an image: it finds a pair without scanning all records.
#[derive(Drop)]
pub struct Index<'r, A: Allocator> {
    image: &'r [Record<Message<A>>],
    places: Places<A>,
}

impl<'r, A: Allocator> Model for Index<'r, A> {
    ghost use Rattle.std.specs.Prelude.{List, length};
    ghost use Rattle.urb_stable.specs.Entries.{Entry};
    ghost use Rattle.urb_stable.specs.internal.Indexes.{IsIndexOf};

    ghost Value = { List Entry };

    ghost view = { λ a. a.image.now };

    ghost invariant = { λ a. IsIndexOf a.image.now (length a.image.now) a.places };
}

// Adds the record at this place to the index.
fn index_next<A: Allocator + Copy>(
    index: &mut Places<A>,
    image: &[Record<Message<A>>],
    place: usize,
) -> Result<(), NoMemory>
    requires within { place < length image.now }
    requires indexed { IsIndexOf image.now place index.old }
    ensures { IfOk result (λ _. IsIndexOf image.now (place + 1) index.new) }
{
    let record = &image[place];
    let name = record.name();
    index.before.push(index.last.get(&name).copied())?;
    match record {
        Record::Pend(_, _) | Record::PendCert(_, _) => {
            index.last.insert(name, place)?;
        }
        Record::Cert(_) => {}
    }
    Ok(())
}

// Whether a record of the image holds this pair. It visits the records with the pair's name,
// starting with the last one.
fn has_pair<A: Allocator + Copy>(
    places: &Places<A>,
    image: &[Record<Message<A>>],
    name: Name,
    message: &Message<A>,
) -> bool
    requires { IsIndexOf image.now (length image.now) places.now }
    ensures { result ≡ has_pair (pend image.now) name message.now }
{
    let mut place = places.last.get(&name).copied();
    while let Some(at) = place {
        if is_of_pair(&image[at], name, message) {
            return true;
        }
        place = places.before[at];
    }
    false
}

// The message of the first record before this place that holds a pair with this name. The record at
// this place must have the name. It visits the records with that name, starting with the last one.
fn find_before<'r, A: Allocator + Copy>(
    places: &Places<A>,
    image: &'r [Record<Message<A>>],
    place: usize,
    name: Name,
) -> Option<&'r Message<A>>
    requires named { option_map name_of (slice_get image.now place) ≡ Some name }
    requires indexed { IsIndexOf image.now (length image.now) places.now }
    ensures { option_map (λ m. m.now) result ≡ message_of (pend (take place image.now)) name }
{
    let mut found = None;
    let mut next = places.before[place];
    while let Some(at) = next {
        found = message_at(&image[at], name);
        next = places.before[at];
    }
    found
}

impl<'r, A: Allocator + Copy> Index<'r, A> {
    /// The index of an image. Its memory comes from `alloc`.
    pub fn new(alloc: A, image: &'r [Record<Message<A>>]) -> Result<Index<'r, A>, NoMemory>
        ensures { IfOk result (λ index. index ≡ image.now) }
    {
        let mut places = Places {
            last: BTreeMap::new(alloc),
            before: Vec::new(alloc),
        };
        for place in 0..image.len() {
            index_next(&mut places, image, place)?;
        }
        Ok(Index { image, places })
    }

    /// The records of the image. Allocates no memory.
    pub fn records(&self) -> &[Record<Message<A>>]
        ensures { result.now ≡ self.now }
    {
        self.image
    }

    /// Whether a record of the image holds this pair. Allocates no memory.
    pub fn has(&self, name: Name, message: &Message<A>) -> bool
        ensures { result ≡ has_pair (pend self.now) name message.now }
    {
        has_pair(&self.places, self.image, name, message)
    }

    /// The message of the first record before this place that holds a pair with this name. The
    /// record at this place must have the name. Allocates no memory.
    pub(crate) fn message_before(&self, place: usize, name: Name) -> Option<&Message<A>>
        requires named { option_map name_of (slice_get self.now place) ≡ Some name }
        ensures { option_map (λ m. m.now) result ≡ message_of (pend (take place self.now)) name }
    {
        find_before(&self.places, self.image, place, name)
    }
}
