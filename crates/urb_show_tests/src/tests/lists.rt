//! Lists of entries whose memory is refused, each growth in turn.
//!
//! After a refusal the entry is returned, the lists are as before, and the second call gives what
//! the first one would have given.

use super::writer::node;
use std::alloc::Global;
use std::test::*;
use urb_group::{ClientId, Message, Name};
use urb_refusing::Refusing;
use urb_show::Entry;
use urb_show::entry_lists::{copy_entries, push_at, push_entry};

// The entries have the numbers 1 to this.
const ENTRIES: u32 = 20;

// Memory that is refused once.
type Heap<'a> = &'a Refusing<Global>;

// A list with memory of such a heap.
type List<'a> = Vec<Entry, Heap<'a>>;

// The call that is refused memory.
#[derive(Clone, Copy)]
enum Call {
    // Appends all entries to one list.
    PushEntry,
    // Appends all entries to three lists in turn.
    PushAt,
    // Copies a list of all entries.
    CopyEntries,
}

// The entry of this number.
fn make_entry(alloc: Global, number: u32) -> Option<Entry> {
    if number == 0 {
        return None;
    }
    let sender = node(2);
    let payload = [(number % 256) as u8];
    let message = Message::copy_of(alloc, ClientId::new(7)?, number, &payload).ok()?;
    Some(Entry {
        name: Name {
            sender,
            seq: number,
        },
        message,
    })
}

// Whether this is the entry of this number.
fn is_entry(entry: &Entry, number: u32) -> bool {
    entry.name.seq == number
        && entry.message.number() == number
        && entry.message.payload() == [(number % 256) as u8].as_slice()
}

// Whether the list has the entries of the numbers `first`, `first + step`, .. up to `last`, and no
// others.
fn is_list(list: &[Entry], first: u32, step: u32, last: u32) -> bool {
    let mut number = first;
    for entry in list {
        if !is_entry(entry, number) {
            return false;
        }
        number = number.saturating_add(step);
    }
    last < number && number <= last.saturating_add(step)
}

// Whether the three lists have the entries up to this one in turn.
fn are_lists(lists: &[List<'_>], last: u32) -> bool {
    let [first, second, third] = lists else {
        return false;
    };
    is_list(first, 1, 3, last) && is_list(second, 2, 3, last) && is_list(third, 3, 3, last)
}

// Appends the entry after the first `before` to a list of these. Returns how often that was refused
// memory.
fn push(list: &mut List<'_>, entry: Entry, before: u32) -> Option<u32> {
    let Err(entry) = push_entry(list, entry) else {
        return Some(0);
    };
    let is_kept = is_entry(&entry, before.saturating_add(1)) && is_list(list, 1, 1, before);
    if is_kept && push_entry(list, entry).is_ok() {
        Some(1)
    } else {
        None
    }
}

// Appends the entry after the first `before` to the list whose turn it is. Returns how often that
// was refused memory.
fn push_in_turn(lists: &mut [List<'_>], entry: Entry, before: u32) -> Option<u32> {
    let place = (before % 3) as usize;
    let Err(entry) = push_at(lists, place, entry) else {
        return Some(0);
    };
    let is_kept = is_entry(&entry, before.saturating_add(1)) && are_lists(lists, before);
    if is_kept && push_at(lists, place, entry).is_ok() {
        Some(1)
    } else {
        None
    }
}

// Appends all entries to a list. Returns how often that was refused memory.
fn push_all(alloc: Global, list: &mut List<'_>) -> Option<u32> {
    let mut refusals = 0u32;
    for before in 0..ENTRIES {
        let entry = make_entry(alloc, before + 1)?;
        refusals = refusals.saturating_add(push(list, entry, before)?);
    }
    if is_list(list, 1, 1, ENTRIES) {
        Some(refusals)
    } else {
        None
    }
}

// Appends all entries to three lists in turn. An entry for a fourth list changes nothing. Returns
// how often an entry was refused memory.
fn push_all_in_turn(alloc: Global, lists: &mut [List<'_>]) -> Option<u32> {
    let mut refusals = 0u32;
    for before in 0..ENTRIES {
        let entry = make_entry(alloc, before + 1)?;
        refusals = refusals.saturating_add(push_in_turn(lists, entry, before)?);
    }
    let beyond = push_at(lists, 3, make_entry(alloc, 99)?).is_ok();
    if beyond && are_lists(lists, ENTRIES) {
        Some(refusals)
    } else {
        None
    }
}

// Copies a list of all entries. Returns how often the copy was refused memory.
fn copy_all(alloc: Global, heap: Heap<'_>, list: &[Entry]) -> Option<u32> {
    let (copy, refusals) = match copy_entries(alloc, heap, list) {
        Ok(copy) => (copy, 0),
        Err(_) => (copy_entries(alloc, heap, list).ok()?, 1),
    };
    if is_list(&copy, 1, 1, ENTRIES) && is_list(list, 1, 1, ENTRIES) {
        Some(refusals)
    } else {
        None
    }
}

// Makes a list of all entries, and copies it. Returns how often the copy was refused memory.
fn make_and_copy_all(alloc: Global, heap: Heap<'_>) -> Option<u32> {
    let steady = Refusing::new(alloc, 0);
    let mut list = Vec::new(&steady);
    if push_all(alloc, &mut list) == Some(0) {
        copy_all(alloc, heap, &list)
    } else {
        None
    }
}

// Makes the call with memory of this heap. Returns how often it was refused memory.
fn count_refusals(alloc: Global, call: Call, heap: Heap<'_>) -> Option<u32> {
    match call {
        Call::PushEntry => push_all(alloc, &mut Vec::new(heap)),
        Call::PushAt => {
            let mut lists = [Vec::new(heap), Vec::new(heap), Vec::new(heap)];
            push_all_in_turn(alloc, &mut lists)
        }
        Call::CopyEntries => make_and_copy_all(alloc, heap),
    }
}

// Makes the call while this growth is refused. Returns whether the call was refused memory if and
// only if that growth was requested, and whether it was requested.
fn outlives(alloc: Global, call: Call, refused: u64) -> (bool, bool) {
    let heap = Refusing::new(alloc, refused);
    let refusals = count_refusals(alloc, call, &heap);
    let met = heap.has_failed();
    (refusals == Some(u32::from(met)), met)
}

#[test]
fn each_growth_of_a_list_of_entries_may_be_refused(rt: HostRuntime) {
    for (call, least) in [
        (Call::PushEntry, 3),
        (Call::PushAt, 6),
        (Call::CopyEntries, 1),
    ] {
        let mut growths = 0;
        for refused in 0..50u64 {
            let (is_well, met) = outlives(rt.alloc(), call, refused);
            assert!(rt; is_well, "growth {refused}");
            if met {
                growths = refused;
            }
        }
        assert!(rt; least <= growths, "{growths} growths");
    }
}
