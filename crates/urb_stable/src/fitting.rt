//! Which images of the nodes' storages fit together, and the first misfit of those that don't.

ghost use Rattle.std.specs.Prelude.{◌≡◌, ◌+◌, ◌<◌, ◌≤◌, [], ◌∷◌, ◌++◌, length, map, is_some};
ghost use Rattle.std.specs.Prelude.{count_by, option_map, slice_get, take, IfOk, List, OnOk, Some};
ghost use Rattle.urb_names.specs.LabelsAndContents.{Content};
ghost use Rattle.urb_names.specs.Nodes.{nodes};
ghost use Rattle.urb_names.specs.Pairs.{has_pair, message_of};
ghost use Rattle.urb_stable.specs.internal.EarlierRecords.{client_count};
ghost use Rattle.urb_stable.specs.Entries.{name_of};
ghost use Rattle.urb_stable.specs.Fitting.{first_misfit, first_of_all, held_by_majority, in_range};
ghost use Rattle.urb_stable.specs.Fitting.{is_next_own, keeps_a, keeps_b, keeps_c, keeps_d};
ghost use Rattle.urb_stable.specs.Fitting.{misfits_behind};
ghost use Rattle.urb_stable.specs.internal.BrokenRules.{first_broken};
ghost use Rattle.urb_stable.specs.Images.{image_of};
ghost use Rattle.urb_stable.specs.Records.{pend};

use crate::Record;
use crate::earlier_records::Before;
use crate::image::Image;
use std::alloc::Allocator;
use std::marker::Model;
use urb_names::{Config, Message, Name, NoMemory, NodeId, Rule, is_majority};

/// A record that breaks a rule, and the first rule that it breaks. Images that fit together have
/// none. The record is identified by the node whose image holds it and by the name that it is
/// about.
#[derive(Clone, Copy, Debug, PartialEq, Eq)]
pub struct Misfit {
    pub rule: Rule,
    pub node: NodeId,
    pub name: Name,
}

/// The images of a group's nodes 1, 2, .., indexed in one pass each. So records are judged by
/// look-ups, in n log n steps for n records.
#[derive(Drop)]
pub struct Images<'r, A: Allocator> {
    images: Vec<Image<'r, A>, A>,
}

impl<'r, A: Allocator> Model for Images<'r, A> {
    ghost use Rattle.std.specs.Prelude.{List, map};
    ghost use Rattle.urb_stable.specs.Entries.{Entry};
    ghost use Rattle.urb_stable.specs.internal.NumberedImages.{AreNumbered};

    ghost Value = { List (List Entry) };

    ghost view = { λ a. map (λ image. image.records) a.images.items };

    ghost invariant = { λ a. AreNumbered a.images.items };
}

impl<'r, A: Allocator + Copy> Images<'r, A> {
    /// Indexes the images of the nodes 1, 2, .., without copying their records. All memory needed
    /// to judge them comes from `alloc` and is allocated here.
    pub fn new(
        alloc: A,
        images: &'r [Vec<Record<Message<A>>, A>],
    ) -> Result<Images<'r, A>, NoMemory>
        ensures { IfOk result (λ read. read ≡ map (λ image. image.items) images.now) }
    {
        let mut read = Vec::new(alloc);
        for (i, image) in images.iter().enumerate() {
            read_next(&mut read, alloc, i + 1, image)?;
        }
        Ok(Images { images: read })
    }

    /// The first misfit of the images, by node, then by position, then by rule. `None` means that
    /// they fit together, so a group can continue from them (recovery, sections 2.2 and 3.7 of the
    /// textbook). Allocates no memory.
    pub fn first_misfit(&self, config: Config) -> Option<Misfit>
        requires { length self.now ≡ config.n }
        ensures { result ≡ first_misfit config (image_of self.now) }
    {
        for (i, image) in self.images.iter().enumerate() {
            let node = node_at(config, i);
            if let Some(misfit) = misfit_in(config, &self.images, node, image) {
                return Some(misfit);
            }
        }
        None
    }
}

// Indexes the image of the node with this number.
fn read_next<'r, A: Allocator + Copy>(
    read: &mut Vec<Image<'r, A>, A>,
    alloc: A,
    number: usize,
    image: &'r [Record<Message<A>>],
) -> Result<(), NoMemory>
    ensures { OnOk result (read.new.items
        ≡ read.old.items ++ record { number = number; records = image.now } ∷ []) }
{
    read.push(Image::new(alloc, number, image)?)?;
    Ok(())
}

// The node whose image is at this index.
fn node_at(config: Config, index: usize) -> NodeId
    requires { index < config.n }
    ensures { result ≡ index + 1 }
{
    config.recall();
    NodeId::new(index as u8 + 1).unwrap()
}

// The first misfit of one image.
fn misfit_in<A: Allocator + Copy>(
    config: Config,
    images: &[Image<A>],
    node: NodeId,
    image: &Image<A>,
) -> Option<Misfit>
    requires size { length images.now ≡ config.n }
    requires numbered { image.now.number ≡ node }
    ensures { result
        ≡ first_of_all (misfits_behind config (image_of (map (λ image. image.records) images.now))
        node [] image.now.records) }
{
    let records = image.records();
    for (i, entry) in records.iter().enumerate() {
        if let Some(rule) = broken_rule(config, images, node, image, i, entry) {
            let name = entry.name();
            return Some(Misfit { rule, node, name });
        }
    }
    None
}

// The first rule that the record at this place of the image breaks, given the records before it.
fn broken_rule<A: Allocator + Copy>(
    config: Config,
    images: &[Image<A>],
    node: NodeId,
    image: &Image<A>,
    place: usize,
    entry: &Record<Message<A>>,
) -> Option<Rule>
    requires size { length images.now ≡ config.n }
    requires numbered { image.now.number ≡ node }
    requires here { slice_get image.now.records place ≡ Some entry.now }
    ensures { result
        ≡ first_broken config (image_of (map (λ image. image.records) images.now)) node
        (take place image.now.records) entry.now }
{
    if !is_new(config, image, place, entry) {
        return Some(Rule::A);
    }
    if !is_in_turn(node, image, place, entry) {
        return Some(Rule::B);
    }
    if !is_at_its_sender(images, node, entry) {
        return Some(Rule::C);
    }
    if !is_certified_rightly(config, images, image, place, entry) {
        return Some(Rule::D);
    }
    None
}

fn is_new<A: Allocator + Copy>(
    config: Config,
    image: &Image<A>,
    place: usize,
    entry: &Record<Message<A>>,
) -> bool
    requires here { slice_get image.now.records place ≡ Some entry.now }
    ensures { result ≡ keeps_a config (take place image.now.records) entry.now }
{
    match entry {
        Record::Pend(name, _) | Record::PendCert(name, _) => {
            is_in_range(config, *name) && !is_pending(image, place, *name)
        }
        Record::Cert(name) => {
            is_in_range(config, *name)
                && is_pending(image, place, *name)
                && !image.facts_before(place).certified
        }
    }
}

fn is_in_turn<A: Allocator + Copy>(
    node: NodeId,
    image: &Image<A>,
    place: usize,
    entry: &Record<Message<A>>,
) -> bool
    requires numbered { image.now.number ≡ node }
    requires here { slice_get image.now.records place ≡ Some entry.now }
    ensures { result ≡ keeps_b node (take place image.now.records) entry.now }
{
    match entry {
        Record::Pend(name, message) | Record::PendCert(name, message) => {
            let name = *name;
            name.sender != node || is_next_own(image.facts_before(place), name, message)
        }
        Record::Cert(_) => true,
    }
}

fn is_at_its_sender<A: Allocator + Copy>(
    images: &[Image<A>],
    node: NodeId,
    entry: &Record<Message<A>>,
) -> bool
    ensures { result ≡ keeps_c (image_of (map (λ image. image.records) images.now)) node entry.now }
{
    match entry {
        Record::Pend(name, message) | Record::PendCert(name, message) => {
            let name = *name;
            name.sender == node || is_held_by(images, name.sender, name, message)
        }
        Record::Cert(_) => true,
    }
}

fn is_certified_rightly<A: Allocator + Copy>(
    config: Config,
    images: &[Image<A>],
    image: &Image<A>,
    place: usize,
    entry: &Record<Message<A>>,
) -> bool
    requires size { length images.now ≡ config.n }
    requires here { slice_get image.now.records place ≡ Some entry.now }
    ensures { result
        ≡ keeps_d config.n (image_of (map (λ image. image.records) images.now))
        (take place image.now.records) entry.now }
{
    match entry {
        Record::Pend(_, _) => true,
        Record::PendCert(name, message) => is_held_by_majority(config, images, *name, message),
        Record::Cert(name) => match image.message_before(place, *name) {
            Some(message) => is_held_by_majority(config, images, *name, message),
            None => false,
        },
    }
}

// Whether a group with these limits may have the name.
fn is_in_range(config: Config, name: Name) -> bool
    ensures { result ≡ in_range config name }
{
    name.sender.number() <= config.n() && name.seq <= config.cap()
}

// Whether the pair has the node's next number, and its message has its client's next number, given
// what the earlier records say.
fn is_next_own<A: Allocator>(before: Before, name: Name, message: &Message<A>) -> bool
    ensures { (messages : List Content)
        → before.own ≡ length messages
        → before.of_client ≡ client_count message.now.client messages
        → result ≡ is_next_own messages name message.now }
{
    name.recall();
    message.recall();
    before.own == (name.seq - 1) as usize && before.of_client == (message.number() - 1) as usize
}

// Whether the node's image has the pair.
fn is_held_by<A: Allocator + Copy>(
    images: &[Image<A>],
    node: NodeId,
    name: Name,
    message: &Message<A>,
) -> bool
    ensures { result
        ≡ has_pair (pend (image_of (map (λ image. image.records) images.now) node)) name
        message.now }
{
    match images.get(node.number() as usize - 1) {
        Some(image) => image.has(name, message),
        None => false,
    }
}

// Whether the images of a majority have the pair.
fn is_held_by_majority<A: Allocator + Copy>(
    config: Config,
    images: &[Image<A>],
    name: Name,
    message: &Message<A>,
) -> bool
    requires { length images.now ≡ config.n }
    ensures { result
        ≡ held_by_majority config.n (image_of (map (λ image. image.records) images.now)) name
        message.now }
{
    is_majority(count_holders(images, name, message) as u8, config.n())
}

// The number of images that have the pair.
fn count_holders<A: Allocator + Copy>(
    images: &[Image<A>],
    name: Name,
    message: &Message<A>,
) -> usize
    ensures count { result
        ≡ count_by
        (λ node. has_pair (pend (image_of (map (λ image. image.records) images.now) node)) name
        message.now) (nodes (length images.now)) }
    ensures most { result ≤ length images.now }
{
    images
        .iter()
        .filter(|image| image.has(name, message))
        .count()
}

// Whether a record before this place holds a pair with this name. The record at this place must
// have the name.
fn is_pending<A: Allocator + Copy>(image: &Image<A>, place: usize, name: Name) -> bool
    requires named { option_map name_of (slice_get image.now.records place) ≡ Some name }
    ensures { result ≡ is_some (message_of (pend (take place image.now.records)) name) }
{
    image.message_before(place, name).is_some()
}

// The message of the record, if it holds a pair with this name.
pub(crate) fn message_at<A: Allocator>(
    entry: &Record<Message<A>>,
    name: Name,
) -> Option<&Message<A>>
    ensures { option_map (λ m. m.now) result ≡ message_of (pend (entry.now ∷ [])) name }
{
    match entry {
        Record::Pend(other, message) | Record::PendCert(other, message) => {
            if *other == name {
                return Some(message);
            }
            None
        }
        Record::Cert(_) => None,
    }
}

// Whether a record holds this pair.
pub(crate) fn is_of_pair<A: Allocator>(
    entry: &Record<Message<A>>,
    name: Name,
    message: &Message<A>,
) -> bool
    ensures { result ≡ has_pair (pend (entry.now ∷ [])) name message.now }
{
    match entry {
        Record::Pend(other, content) | Record::PendCert(other, content) => {
            *other == name && content.is_same(message)
        }
        Record::Cert(_) => false,
    }
}
