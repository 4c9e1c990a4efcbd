//! Each growth that opening, settling or reading asks for is refused in turn.
//!
//! The test then makes the same call again, with memory. It gives what the first one would have
//! given.
ghost use Rattle.std.specs.Prelude.{◌≡◌, ◌≤◌, IfOk, length};
ghost use Rattle.urb_show.specs.Houses.{IsNamed};

use super::readers::agrees;
use super::writer::{answer, broadcast, node, three_stores};
use std::alloc::Global;
use std::sync::Wait;
use urb_group::{Group, MemStable};
use urb_refusing::Refusing;
use urb_show::{House, HouseName, LogReader, Opened, ReadFault, Told};

/// The number of messages that node 2 delivers.
pub const MESSAGES: u32 = 12;

/// The number of calls that were refused memory.
#[derive(Clone, Copy, PartialEq, Eq, Debug)]
pub struct Tally {
    pub opening: u32,
    pub settling: u32,
    pub reading: u32,
}

impl Tally {
    /// No call was refused.
    pub fn none() -> Tally {
        Tally {
            opening: 0,
            settling: 0,
            reading: 0,
        }
    }

    /// The calls of both tallies.
    pub fn plus(self, other: Tally) -> Tally {
        Tally {
            opening: self.opening.saturating_add(other.opening),
            settling: self.settling.saturating_add(other.settling),
            reading: self.reading.saturating_add(other.reading),
        }
    }

    /// The number of all calls.
    pub fn all(self) -> u32 {
        let both = self.opening.saturating_add(self.settling);
        both.saturating_add(self.reading)
    }
}

// Memory that is refused once.
type Heap<'a> = &'a Refusing<Global>;

// The house of three nodes, and how often opening was refused memory. After a refusal, this opens
// what was returned.
fn site_of<'a, K: HouseName, R: Wait>(
    rt: &R,
    alloc: Global,
    heap: Heap<'a>,
    opened: Opened,
) -> Result<
    (
        House<K, Heap<'a>>,
        Vec<LogReader<K, Heap<'a>>, Heap<'a>>,
        u32,
    ),
    &'static str,
>
    requires names { IsNamed opened K.book K.history K.base K.origin }
    requires nodes { opened.group.size.n ≡ 3 }
    ensures { IfOk result (λ it. length it.1.items ≡ 12) }
{
    let opened = match opened.parts_in::<K, R, Heap<'a>>(rt, alloc, heap) {
        Ok((house, readers)) => return Ok((house, readers, 0)),
        Err((opened, _)) => opened,
    };
    match opened.parts_in::<K, R, Heap<'a>>(rt, alloc, heap) {
        Ok((house, readers)) => Ok((house, readers, 1)),
        Err((opened, _)) => {
            drop(opened.close());
            Err("no house")
        }
    }
}

// Whether node 2's list has `total` entries, which agree. The memory for this read isn't refused.
fn has<K: HouseName>(alloc: Global, reader: &mut LogReader<K, Heap<'_>>, total: u32) -> bool
    requires { 3 ≤ length K.base }
{
    match reader.read(alloc, node(2), 1, 255) {
        Ok(page) => agrees(&page) && page.total == total,
        Err(_) => false,
    }
}

// Settles node 2, and returns how often that was refused memory. After a refusal, readers still
// read the `before` entries that were published before.
fn settle<K: HouseName, R: Wait>(
    rt: &R,
    alloc: Global,
    house: &mut House<K, Heap<'_>>,
    reader: &mut LogReader<K, Heap<'_>>,
    before: u32,
) -> Option<(Told<K>, u32)>
    requires { 3 ≤ length K.base }
{
    let two = node(2);
    match house.settle(rt, two) {
        Ok(told) => Some((told, 0)),
        Err(_) => {
            if !has(alloc, reader, before) {
                return None;
            }
            Some((house.settle(rt, two).ok()?, 1))
        }
    }
}

// Reads node 2's list into memory that may be refused, and returns how often it was. The list has
// `total` entries, which agree.
fn read<'a, K: HouseName>(
    heap: Heap<'a>,
    reader: &mut LogReader<K, Heap<'a>>,
    total: u32,
) -> Option<u32>
    requires { 3 ≤ length K.base }
{
    let two = node(2);
    let (page, refused) = match reader.read(heap, two, 1, 255) {
        Ok(page) => (page, 0),
        Err(ReadFault::NoMemory(_)) => (reader.read(heap, two, 1, 255).ok()?, 1),
        Err(ReadFault::Gone) => return None,
    };
    if agrees(&page) && page.total == total {
        Some(refused)
    } else {
        None
    }
}

// Node 1 broadcasts its message of this number, and node 2 delivers it.
fn send<K: HouseName>(
    alloc: Global,
    house: &mut House<K, Heap<'_>>,
    stores: &mut [MemStable],
    number: u32,
) -> Option<()> {
    let sent = broadcast(alloc, house, stores, node(1), number)?;
    answer(alloc, house, stores, node(2), &sent)?;
    Some(())
}

// Node 2 delivers the messages after the first `before`, up to this one.
fn send_to<K: HouseName>(
    alloc: Global,
    house: &mut House<K, Heap<'_>>,
    stores: &mut [MemStable],
    before: u32,
    total: u32,
) -> Option<()> {
    for number in before..total {
        send(alloc, house, stores, number.saturating_add(1))?;
    }
    Some(())
}

// Settles node 2's new messages, learns them and reads them.
fn settle_and_read<'a, K: HouseName, R: Wait>(
    rt: &R,
    alloc: Global,
    heap: Heap<'a>,
    house: &mut House<K, Heap<'a>>,
    reader: &mut LogReader<K, Heap<'a>>,
    counts: (u32, u32),
) -> Result<Tally, &'static str>
    requires { 3 ≤ length K.base }
{
    let (before, total) = counts;
    let (told, settling) = settle(rt, alloc, house, reader, before).ok_or("settling")?;
    reader.learn(told);
    let reading = read(heap, reader, total).ok_or("reading")?;
    Ok(Tally {
        opening: 0,
        settling,
        reading,
    })
}

// Node 2 delivers all messages: one, one more, and all others. Each time they are settled and read.
fn send_all<'a, K: HouseName, R: Wait>(
    rt: &R,
    alloc: Global,
    heap: Heap<'a>,
    house: &mut House<K, Heap<'a>>,
    reader: &mut LogReader<K, Heap<'a>>,
) -> Result<Tally, &'static str>
    requires { 3 ≤ length K.base }
{
    let mut stores = three_stores(alloc);
    let mut tally = Tally::none();
    for counts in [(0, 1), (1, 2), (2, MESSAGES)] {
        let (before, total) = counts;
        let sent = send_to(alloc, house, &mut stores, before, total);
        sent.ok_or("a node was refused memory")?;
        tally = tally.plus(settle_and_read(rt, alloc, heap, house, reader, counts)?);
    }
    Ok(tally)
}

/// Node 2 delivers all messages, in a house of three nodes that was just opened. Returns the group,
/// and how many calls were refused memory.
pub fn deliver<K: HouseName, R: Wait>(
    rt: &R,
    alloc: Global,
    heap: &Refusing<Global>,
    opened: Opened,
) -> Result<(Group, Tally), &'static str>
    requires names { IsNamed opened K.book K.history K.base K.origin }
    requires nodes { opened.group.size.n ≡ 3 }
{
    let (mut house, mut readers, opening) = site_of::<K, R>(rt, alloc, heap, opened)?;
    house.recall();
    let told = send_all(rt, alloc, heap, &mut house, &mut readers[0]);
    let group = house.close(rt);
    let mut tally = told?;
    tally.opening = opening;
    Ok((group, tally))
}

/// Opens the group again. Its first reader and its last one read all messages at once. Returns how
/// many calls were refused memory.
pub fn open_again<K: HouseName, R: Wait>(
    rt: &R,
    alloc: Global,
    heap: &Refusing<Global>,
    opened: Opened,
) -> Result<Tally, &'static str>
    requires names { IsNamed opened K.book K.history K.base K.origin }
    requires nodes { opened.group.size.n ≡ 3 }
{
    let (house, mut readers, opening) = site_of::<K, R>(rt, alloc, heap, opened)?;
    house.recall();
    let first = read(heap, &mut readers[0], MESSAGES);
    let last = read(heap, &mut readers[11], MESSAGES);
    drop(house.close(rt));
    let reading = first.ok_or("the first reader")?;
    Ok(Tally {
        opening,
        settling: 0,
        reading: reading.saturating_add(last.ok_or("the last reader")?),
    })
}
