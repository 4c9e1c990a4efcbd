//! Lists of entries: appending an entry to a node's list, and copying a part of a list.
//!
//! A house publishes its nodes' logs as such lists, and a page is a copy of a part of one. A list
//! may ask its allocator for memory as it grows. If that is refused, no entry is lost: the entry
//! is returned, the lists are as before, and the same call may be made again.
ghost use Rattle.std.specs.Prelude.{◌≡◌, [], ◌∷◌, ◌++◌, map, IfOk, MatchResult};
ghost use Rattle.urb_show.specs.Lists.{add_at};

use crate::entry::Entry;
use std::alloc::{Allocator, Global};
use urb_group::NoMemory;

/// Appends an entry to a list.
///
/// An error is the same entry: the list's memory was refused, and the list is as before.
pub fn push_entry<A: Allocator>(list: &mut Vec<Entry, A>, entry: Entry) -> Result<(), Entry>
    ensures { MatchResult result
        (λ _. list.new.items ≡ list.old.items ++ entry ∷ [])
        (λ e. (e ≡ entry) × (list.new.items ≡ list.old.items)) }
{
    match list.push(entry) {
        Ok(()) => Ok(()),
        Err(failed) => Err(failed.value),
    }
}

/// Appends an entry to the list at a place; places count from 0. If there is no such list, the
/// lists are as before.
///
/// An error is the same entry: the list's memory was refused, and all lists are as before.
pub fn push_at<A: Allocator>(
    lists: &mut [Vec<Entry, A>],
    place: usize,
    entry: Entry,
) -> Result<(), Entry>
    ensures { MatchResult result
        (λ _. map (λ l. l.items) lists.new ≡ add_at (map (λ l. l.items) lists.old) place entry)
        (λ e. (e ≡ entry) × (map (λ l. l.items) lists.new ≡ map (λ l. l.items) lists.old)) }
{
    if place >= lists.len() {
        return Ok(());
    }
    push_entry(&mut lists[place], entry)
}

/// Copies entries into a new list, whose memory comes from `memory`. The copies share the payloads.
/// If a payload can't be shared, it is copied to memory of `alloc`.
///
/// `NoMemory`: there is no new list. The entries are only read, so the same call may be made again.
pub fn copy_entries<A: Allocator + Copy>(
    alloc: Global,
    memory: A,
    entries: &[Entry],
) -> Result<Vec<Entry, A>, NoMemory>
    ensures { IfOk result (λ v. v.items ≡ entries.now) }
{
    let mut copies = Vec::new(memory);
    copies.reserve(entries.len())?;
    for entry in entries {
        let copy = entry.share(alloc)?;
        copies.push_reserved(copy);
    }
    Ok(copies)
}
