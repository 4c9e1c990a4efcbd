//! An image that was indexed in one pass, so that each of its records is judged by look-ups.

ghost use Rattle.std.specs.Prelude.{◌≡◌, ◌<◌, length, option_map, slice_get, take, IfOk, Some};
ghost use Rattle.urb_names.specs.Pairs.{has_pair, message_of};
ghost use Rattle.urb_stable.specs.internal.EarlierRecords.{IsBefore};
ghost use Rattle.urb_stable.specs.Entries.{Entry, name_of};
ghost use Rattle.urb_stable.specs.Records.{pend};

use crate::earlier_records::{Before, facts_about_each};
use crate::{Index, Record};
use std::alloc::Allocator;
use std::marker::Model;
use urb_names::{Message, Name, NoMemory};

/// The image of a node, with an index of its pairs, and with what the earlier records say about
/// each record.
#[derive(Drop)]
pub(crate) struct Image<'r, A: Allocator> {
    number: usize,
    index: Index<'r, A>,
    told: Vec<Before, A>,
}

impl<'r, A: Allocator> Model for Image<'r, A> {
    ghost use Rattle.std.specs.Prelude.{length};
    ghost use Rattle.urb_stable.specs.internal.EarlierRecords.{AreBefore};
    ghost use Rattle.urb_stable.specs.internal.NumberedImages.{NodeImage};

    ghost Value = { NodeImage };

    ghost view = { λ a. record { number = a.number; records = a.index } };

    ghost invariant = { λ a. AreBefore a.number a.index (length a.index) a.told.items };
}

impl<'r, A: Allocator + Copy> Image<'r, A> {
    /// The image of the node with this number. Its memory comes from `alloc`.
    pub(crate) fn new(
        alloc: A,
        number: usize,
        records: &'r [Record<Message<A>>],
    ) -> Result<Image<'r, A>, NoMemory>
        ensures { IfOk result (λ image. image ≡ record { number = number; records = records.now }) }
    {
        let index = Index::new(alloc, records)?;
        let told = facts_about_each(alloc, number, records)?;
        Ok(Image {
            number,
            index,
            told,
        })
    }

    pub(crate) fn records(&self) -> &[Record<Message<A>>]
        ensures { result.now ≡ self.now.records }
    {
        self.index.records()
    }

    /// Whether the image has a record that holds this pair.
    pub(crate) fn has(&self, name: Name, message: &Message<A>) -> bool
        ensures { result ≡ has_pair (pend self.now.records) name message.now }
    {
        self.index.has(name, message)
    }

    /// What the records before this place say about the record there.
    pub(crate) fn facts_before(&self, place: usize) -> Before
        requires { place < length self.now.records }
        ensures { (r : Entry)
            → slice_get self.now.records place ≡ Some r
            → IsBefore self.now.number (take place self.now.records) r result }
    {
        self.told[place]
    }

    /// The message of the first record before this place that holds a pair with this name. The
    /// record at this place must have the name.
    pub(crate) fn message_before(&self, place: usize, name: Name) -> Option<&Message<A>>
        requires named { option_map name_of (slice_get self.now.records place) ≡ Some name }
        ensures { option_map (λ m. m.now) result
            ≡ message_of (pend (take place self.now.records)) name }
    {
        self.index.message_before(place, name)
    }
}
