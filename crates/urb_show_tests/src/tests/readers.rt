//! Readers, and checks that what they read agrees.
ghost use Rattle.std.specs.Prelude.{◌≤◌, length};

use super::writer::{Board, News, ROUNDS, node};
use std::alloc::{Allocator, Global};
use std::sync::{Mutex, MutexGuard, Wait};
use urb_group::NodeId;
use urb_show::{HouseName, LogReader, Page, ReadFault};

/// Whether a page from the first entry on has the numbers 1, 2, 3, .. of each sender, each with its
/// message.
pub fn agrees<A: Allocator>(page: &Page<A>) -> bool {
    let mut first = 0u32;
    let mut second = 0u32;
    for entry in &page.entries {
        let sender = entry.name.sender.number();
        let before = if sender == 1 { first } else { second };
        let seq = before.saturating_add(1);
        if entry.name.seq != seq
            || entry.message.number() != seq
            || entry.message.payload() != [sender, (seq % 256) as u8].as_slice()
        {
            return false;
        }
        if sender == 1 {
            first = seq;
        } else {
            second = seq;
        }
    }
    page.total as usize == page.entries.len()
}

/// Reads a node's list. If memory is refused, it reads the list again.
pub fn page_of<K: HouseName>(alloc: Global, reader: &mut LogReader<K>, node: NodeId) -> Option<Page>
    requires { node ≤ length K.base }
{
    match reader.read(alloc, node, 1, 255) {
        Err(ReadFault::NoMemory(_)) => reader.read(alloc, node, 1, 255).ok(),
        page => page.ok(),
    }
}

// The length of a node's list, if its page agrees.
fn length_of<K: HouseName>(alloc: Global, reader: &mut LogReader<K>, node: NodeId) -> Option<u32>
    requires { node ≤ length K.base }
{
    let page = page_of(alloc, reader, node)?;
    if agrees(&page) {
        Some(page.total)
    } else {
        None
    }
}

// The length of each node's list, node 1's first, if their pages agree.
fn lengths<K: HouseName>(alloc: Global, reader: &mut LogReader<K>) -> Option<[u32; 3]>
    requires { 3 ≤ length K.base }
{
    let one = length_of(alloc, reader, node(1))?;
    let two = length_of(alloc, reader, node(2))?;
    let three = length_of(alloc, reader, node(3))?;
    Some([one, two, three])
}

/// Whether each node's list has this length, and agrees.
pub fn reads<K: HouseName>(alloc: Global, reader: &mut LogReader<K>, total: u32) -> bool
    requires { 3 ≤ length K.base }
{
    lengths(alloc, reader) == Some([total; 3])
}

// Whether the writer has ended. If so, each later page has everything that the writer settled.
fn has_ended<K: HouseName, R: Wait>(rt: &R, board: &Mutex<Board<K>>) -> bool {
    let guard = board.lock(rt);
    let ended = guard.has_ended();
    MutexGuard::unlock(guard);
    ended
}

/// Reads all nodes in turn until each list is whole, and once more after the writer has ended.
/// Returns whether all pages agreed, no list became shorter, and each was whole in the end.
pub fn read_all<K: HouseName, R: Wait>(
    rt: &R,
    alloc: Global,
    reader: &mut LogReader<K>,
    board: &Mutex<Board<K>>,
) -> bool
    requires { 3 ≤ length K.base }
{
    let mut before = [0u32; 3];
    for _ in rt.forever() {
        let ended = has_ended(rt, board);
        let Some(after) = lengths(alloc, reader) else {
            return false;
        };
        if after[0] < before[0] || after[1] < before[1] || after[2] < before[2] {
            return false;
        }
        before = after;
        if ended || after == [2 * ROUNDS; 3] {
            return after == [2 * ROUNDS; 3];
        }
    }
    unreachable!()
}

// Takes the next report of a settling, if there is one. Also returns whether no more will come.
fn next<K: HouseName, R: Wait>(rt: &R, board: &Mutex<Board<K>>) -> (Option<News<K>>, bool) {
    let mut guard = board.lock(rt);
    let taken = guard.take();
    MutexGuard::unlock(guard);
    taken
}

// Learns the token. Returns whether the reader then reads at least that much, in a page that
// agrees.
fn learns<K: HouseName>(alloc: Global, reader: &mut LogReader<K>, news: News<K>) -> bool
    requires { 3 ≤ length K.base }
{
    let News { told, node, total } = news;
    reader.learn(told);
    if node.number() > 3 {
        return false;
    }
    match length_of(alloc, reader, node) {
        Some(length) => total <= length,
        None => false,
    }
}

/// Learns each settling, until the writer has ended and nothing is left to learn. Returns whether
/// the reader read at least that each time, in pages that agree, and whole lists in the end.
pub fn learn_all<K: HouseName, R: Wait>(
    rt: &R,
    alloc: Global,
    reader: &mut LogReader<K>,
    board: &Mutex<Board<K>>,
) -> bool
    requires { 3 ≤ length K.base }
{
    for _ in rt.forever() {
        match next(rt, board) {
            (Some(news), _) => {
                if !learns(alloc, reader, news) || lengths(alloc, reader).is_none() {
                    return false;
                }
            }
            (None, true) => return reads(alloc, reader, 2 * ROUNDS),
            (None, false) => {}
        }
    }
    unreachable!()
}
