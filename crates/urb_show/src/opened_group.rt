//! A group that is opened for readers, before its house has a name.
ghost use Rattle.std.specs.Prelude.{◌≡◌, ◌<◌, ◌*◌, ◌^◌, [], length, drop, map, All};
ghost use Rattle.std.specs.Prelude.{MatchResult, IfOk};
ghost use Rattle.urb_group.specs.GroupViews.{IsSound};
ghost use Rattle.urb_show.specs.DeliveredLists.{AreDeliveredBy};
ghost use Rattle.urb_show.specs.Lists.{Agree, lists_in};
ghost use Rattle.urb_show.specs.internal.History.{issue_of};
ghost use Rattle.urb_show.specs.Houses.{IsNamed, opened_house};
ghost use Rattle.urb_show.specs.declared.opened_group.TheConstants.{READERS};

use crate::entry::{Addition, Entry};
use crate::group_entries::entries_of;
use crate::history::calls::Happening;
use crate::history::past::Past;
use crate::history::rule::Grows;
use crate::history::tokens::{HouseName, OfAdditions, OfEvents, UnnamedBook};
use crate::house::House;
use crate::moment::Moment;
use crate::published_lists::PublishedLists;
use crate::publisher::{LogWriter, Publisher};
use crate::reader::LogReader;
use left_right::reader::{Factory, Reader};
use left_right::writer::Writer;
use std::alloc::{Allocator, Global};
use std::marker::{Brand, Model};
use std::sync::Wait;
use urb_group::{Group, NoMemory, NodeId, Refusal};

/// The number of readers that a house has for each of its nodes. So it is also the number of reads
/// of a node that can be under way at a time. All sessions of clients share the readers.
pub const READERS: usize = 4;

/// A group with an open book, which is not published yet. `parts` gives it a name and makes a house
/// of it. Until then it can't be dropped: end it by `close`.
pub struct Opened {
    group: Group,
    unnamed: UnnamedBook<Addition>,
    events: UnnamedBook<Happening>,
}

impl Model for Opened {
    ghost use Rattle.urb_show.specs.Houses.{OpenedView};

    ghost Value = { OpenedView };

    ghost view = { λ o. record {
      group = o.group;
      book = o.unnamed.seen.book;
      history = o.events.seen.book;
    } };
}

impl House<Brand> {
    /// Opens a group for readers. It takes no memory and is never refused: `Opened::parts` copies
    /// what is published.
    pub fn open(group: Group) -> Result<Opened, (Group, Refusal)>
        ensures { MatchResult result (λ opened. opened.group ≡ group) (λ _. ⊥) }
    {
        Ok(Opened {
            group,
            unnamed: UnnamedBook::new(),
            events: UnnamedBook::new(),
        })
    }
}

impl Opened {
    /// Ends it, and returns the group. It takes no memory.
    pub fn close(self) -> Group
        ensures { result ≡ self.group }
    {
        let Opened {
            group,
            unnamed: _,
            events: _,
        } = self;
        group
    }

    /// The house under its name, and `READERS` readers for each node, those of node 1 first. All
    /// that the nodes have delivered is published. Each reader reads the lists of all nodes.
    ///
    /// `NoMemory`: what was opened is returned as it was.
    pub fn parts<K: HouseName, R: Wait>(
        self,
        rt: &R,
        alloc: Global,
    ) -> Result<(House<K>, Vec<LogReader<K>>), (Opened, NoMemory)>
        requires names { IsNamed self K.book K.history K.base K.origin }
        ensures house { MatchResult result
            (λ t. t.0 ≡ opened_house self.group K.base) (λ e. e.0 ≡ self) }
        ensures readers { IfOk result (λ t. length t.1.items ≡ READERS * self.group.size.n) }
        ensures known { IfOk result (λ t.
            All (λ r. r ≡ record { seen = K.base; told = K.base; past = [] }) t.1.items) }
    {
        self.parts_in::<K, R, Global>(rt, alloc, alloc)
    }

    /// Does what `parts` does. The lists are at `alloc`. The rest is in `memory`: the room for the
    /// readers, and the queue of what isn't published yet.
    ///
    /// `NoMemory`: what was opened is returned as it was, and the same call may be made again.
    pub fn parts_in<K: HouseName, R: Wait, A: Allocator + Copy>(
        self,
        rt: &R,
        alloc: Global,
        memory: A,
    ) -> Result<(House<K, A>, Vec<LogReader<K, A>, A>), (Opened, NoMemory)>
        requires names { IsNamed self K.book K.history K.base K.origin }
        ensures house { MatchResult result
            (λ t. t.0 ≡ opened_house self.group K.base) (λ e. e.0 ≡ self) }
        ensures readers { IfOk result (λ t. length t.1.items ≡ READERS * self.group.size.n) }
        ensures known { IfOk result (λ t.
            All (λ r. r ≡ record { seen = K.base; told = K.base; past = [] }) t.1.items) }
    {
        let Opened {
            group,
            unnamed,
            events,
        } = self;
        group.recall_deliveries();
        let count = READERS * usize::from(group.config().n());
        let made = make_writer::<K, A>(alloc, memory, &group, &unnamed, &events, count);
        let (writer, prepared) = match made {
            Ok(made) => made,
            Err(refused) => return Err((
                Opened {
                    group,
                    unnamed,
                    events,
                },
                refused,
            )),
        };
        let factory = writer.factory();
        let readers = match make_readers::<K, A>(memory, &factory, &unnamed, &events, count) {
            Ok(readers) => readers,
            Err(refused) => {
                drop(writer.take(rt));
                return Err((
                    Opened {
                        group,
                        unnamed,
                        events,
                    },
                    refused,
                ));
            }
        };
        let (book, token) = unnamed.parts::<OfAdditions<K>>();
        let (history, told) = events.parts::<OfEvents<K>>();
        let house = House {
            group,
            publisher: Publisher::new(book, token, writer),
            prepared,
            events: 0,
            past: Past::new(),
            history,
            told,
        };
        Ok((house, readers))
    }
}

// The writer with two copies of the nodes' entries, and the length of each list.
fn make_writer<K: HouseName, A: Allocator + Copy>(
    alloc: Global,
    memory: A,
    group: &Group,
    unnamed: &UnnamedBook<Addition>,
    events: &UnnamedBook<Happening>,
    count: usize,
) -> Result<(LogWriter<K, A>, Vec<usize>), NoMemory>
    requires names { (unnamed.now.seen.book ≡ K.book) × (events.now.seen.book ≡ K.history)
        × (group.now ≡ K.origin) × (lists_in group.now ≡ K.base) }
    requires count { (0 < count) × (count < 2 ^ 32) }
    ensures { IfOk result (λ t.
        (t.0.desk.shown.value ≡ issue_of K.book K.history K.base [])
        × (drop t.0.behind t.0.log.items ≡ [])
        × (t.1.items ≡ map length K.base)) }
{
    group.recall_deliveries();
    let (first, prepared) = copy_lists(alloc, group)?;
    let (second, _) = copy_lists(alloc, group)?;
    let first = PublishedLists::new(first, unnamed.mark(), events.mark());
    let second = PublishedLists::new(second, unnamed.mark(), events.mark());
    let writer = Writer::new(memory, first, second, count)?;
    Ok((writer, prepared))
}

// Copies of all nodes' entries, and the number of each node's entries.
fn copy_lists(alloc: Global, group: &Group) -> Result<(Vec<Vec<Entry>>, Vec<usize>), NoMemory>
    ensures { IfOk result (λ t.
        (map (λ l. l.items) t.0.items ≡ lists_in group.now)
        × (t.1.items ≡ map length (lists_in group.now))) }
{
    let mut lists = Vec::new(alloc);
    let mut counts = Vec::new(alloc);
    group.recall_deliveries();
    for place in 0..group.config().n() {
        let node = NodeId::new(place + 1).unwrap();
        counts.reserve(1)?;
        lists.reserve(1)?;
        let list = entries_of(alloc, group, node)?;
        counts.push_reserved(list.len());
        lists.push_reserved(list);
    }
    Ok((lists, counts))
}

// A reader at the opening: it has seen the empty history, and knows no event.
fn begin_reader<K: HouseName, A: Allocator>(
    reader: Reader<PublishedLists, u64, Grows<K>, A>,
    unnamed: &UnnamedBook<Addition>,
    events: &UnnamedBook<Happening>,
) -> LogReader<K, A>
    requires name { (unnamed.now.seen.book ≡ K.book) × (events.now.seen.book ≡ K.history) }
    requires agree { Agree K.base }
    requires sound { IsSound K.origin }
    requires delivered { AreDeliveredBy K.origin [] K.base }
    ensures { result ≡ record { seen = K.base; told = K.base; past = [] } }
{
    let token = unnamed.mark().token::<OfAdditions<K>>();
    let moment = Moment::new(events.mark().token::<OfEvents<K>>());
    LogReader::new(reader, token, moment)
}

// `count` readers, which have seen the empty history.
fn make_readers<K: HouseName, A: Allocator + Copy>(
    alloc: A,
    factory: &Factory<PublishedLists, u64, Grows<K>, A>,
    unnamed: &UnnamedBook<Addition>,
    events: &UnnamedBook<Happening>,
    count: usize,
) -> Result<Vec<LogReader<K, A>, A>, NoMemory>
    requires name { (unnamed.now.seen.book ≡ K.book) × (events.now.seen.book ≡ K.history) }
    requires agree { Agree K.base }
    requires sound { IsSound K.origin }
    requires delivered { AreDeliveredBy K.origin [] K.base }
    ensures count { IfOk result (λ v. length v.items ≡ count) }
    ensures known { IfOk result (λ v.
        All (λ r. r ≡ record { seen = K.base; told = K.base; past = [] }) v.items) }
{
    let mut readers = Vec::new(alloc);
    readers.reserve(count)?;
    for _ in 0..count {
        let reader = factory.reader()?;
        readers.push_reserved(begin_reader::<K, A>(reader, unnamed, events));
    }
    Ok(readers)
}
