//! Plays rows at a node under test, on request with each of its allocations refused in turn.

use super::*;
use crate::tests::calling::{arrive, submit};
use crate::tests::keeping::{doubt, give_back, keep, lose};
use crate::tests::opening::opened_at_last;
use crate::tests::rising::{crash, refuse, rise};
use crate::tests::rows::{Act, Known, List, Row, Start, What};
use crate::tests::sending::{send, tick};
use crate::tests::states::{AnyNode, Went, went};
use std::alloc::Global;
use std::process::Abort;
use urb_names::Config;
use urb_node::Ready;
use urb_refusing::Refusing;
use urb_stable::MemStable;

// Stores the draft of a call, if the row says so.
fn keep_draft<A: Allocator + Copy>(
    (state, told): Went<A>,
    store: &mut MemStable<A>,
    named: Name,
    row: &Row,
) -> Went<A> {
    match (what_of(&row.0), told) {
        (Some(What::Stored(_)), Some(true)) => keep(state, store, named, row),
        _ => (state, told),
    }
}

// The expected result of a call.
fn what_of(act: &Act) -> Option<&What> {
    match act {
        Act::Submit(_, what) | Act::Arrive(_, what) | Act::Tell(_, _, what) => Some(what),
        _ => None,
    }
}

// Whether a row leaves what a node has stored unchanged.
fn is_to_stay(act: &Act) -> bool {
    match act {
        Act::Refuse(_) => true,
        _ => match what_of(act) {
            Some(What::Stored(_)) | None => false,
            Some(_) => true,
        },
    }
}

// Whether the log is exactly these names in order.
fn are_names(log: &[Name], names: &[(u8, u32)]) -> bool {
    for (index, (sender, seq)) in names.iter().enumerate() {
        match log.get(index) {
            Some(named) if named.sender.number() == *sender && named.seq == *seq => {}
            _ => return false,
        }
    }
    log.len() == names.len()
}

// Whether a node knows about a message exactly what is expected.
fn knows<A: Allocator + Copy>(
    state: &AnyNode<A>,
    named: Name,
    sent: &Message<A>,
    (held, there, certified): Known,
) -> bool {
    state.holds(named, sent) == held
        && state.has(named) == there
        && state.certified(named) == certified
}

// The same for a message of client 7.
fn tells_of<A: Allocator + Copy>(
    state: &AnyNode<A>,
    calm: A,
    named: Name,
    payload: &[u8],
    known: Known,
) -> bool {
    match message(calm, 7, named.seq, payload) {
        Some(sent) => {
            let is_so = knows(state, named, &sent, known);
            drop(sent);
            is_so
        }
        None => false,
    }
}

// Calls a ready node.
fn call<A: Allocator + Copy>(
    state: AnyNode<A>,
    memory: (A, A),
    (act, _, payload): &Row,
    named: Name,
) -> Went<A> {
    match act {
        Act::Submit(number, what) => submit(state, memory, *number, payload, what, named),
        Act::Arrive(source, what) => arrive(state, memory, (*source, None), payload, what, named),
        Act::Tell(source, flags, what) => {
            arrive(state, memory, (*source, Some(*flags)), payload, what, named)
        }
        _ => (state, None),
    }
}

// Plays a row that uses a draft.
fn play_draft<A: Allocator + Copy>(
    state: AnyNode<A>,
    store: &mut MemStable<A>,
    calm: A,
    row: &Row,
    named: Name,
) -> Went<A> {
    let (act, _, payload) = row;
    match act {
        Act::Store(_, _, _) => keep(state, store, named, row),
        Act::GiveBack(node, pos, form) => {
            give_back(state, calm, (*node, *pos), form, named, payload)
        }
        Act::Doubt(failure) => doubt(state, store, *failure),
        Act::Lose(fails) => lose(state, *fails),
        _ => (state, None),
    }
}

// Plays a crash or a restart.
fn play_fall<A: Allocator + Copy>(
    state: AnyNode<A>,
    store: &mut MemStable<A>,
    memory: (A, A),
    act: &Act,
) -> Went<A> {
    match act {
        Act::Crash => crash(state),
        Act::Rise => rise(state, memory, store),
        Act::Refuse(rows) => refuse(state, memory, rows),
        _ => (state, None),
    }
}

// Plays a tick or a query.
fn play_told<A: Allocator + Copy>(
    state: AnyNode<A>,
    (heap, calm): (A, A),
    (act, _, payload): &Row,
    named: Name,
) -> Went<A> {
    match act {
        Act::Tick(sent) => tick(state, heap, named.sender, sent, payload),
        Act::Send(count) => send(state, heap, *count),
        Act::Show(own, log, known) => {
            let is_so = state.own_len() == *own
                && are_names(state.log(), log)
                && tells_of(&state, calm, named, payload, *known);
            (state, went(is_so))
        }
        Act::Next(client, number) => {
            let is_so = state.client_next(*client) == Some(*number);
            (state, went(is_so))
        }
        _ => (state, None),
    }
}

// Plays a row.
fn play_act<A: Allocator + Copy>(
    state: AnyNode<A>,
    store: &mut MemStable<A>,
    memory: (A, A),
    row: &Row,
    named: Name,
) -> Went<A> {
    match &row.0 {
        Act::Submit(_, _) | Act::Arrive(_, _) | Act::Tell(_, _, _) => {
            keep_draft(call(state, memory, row, named), store, named, row)
        }
        Act::Tick(_) | Act::Send(_) | Act::Show(_, _, _) | Act::Next(_, _) => {
            play_told(state, memory, row, named)
        }
        Act::Crash | Act::Rise | Act::Refuse(_) => play_fall(state, store, memory, &row.0),
        _ => play_draft(state, store, memory.1, row, named),
    }
}

// How many messages a node has broadcast and delivered, and whether it has one with this name.
fn ask<A: Allocator + Copy>(state: &AnyNode<A>, named: Name) -> (u32, usize, bool) {
    (state.own_len(), state.log().len(), state.has(named))
}

// Plays the same row again, which must not be refused again.
fn play_again<A: Allocator + Copy>(
    state: AnyNode<A>,
    store: &mut MemStable<A>,
    memory: (A, A),
    row: &Row,
    named: Name,
) -> Went<A> {
    match play_act(state, store, memory, row, named) {
        (state, Some(true)) => (state, Some(true)),
        (state, _) => (state, None),
    }
}

// Plays a row. If it is refused for memory, nothing has changed, and it succeeds the second time.
// Returns whether it was refused.
fn play_named<A: Allocator + Copy>(
    state: AnyNode<A>,
    store: &mut MemStable<A>,
    memory: (A, A),
    row: &Row,
    named: Name,
) -> Went<A> {
    let before = ask(&state, named);
    let (state, gone) = play_act(state, store, memory, row, named);
    let is_same = ask(&state, named) == before;
    match gone {
        Some(true) if is_same || !is_to_stay(&row.0) => (state, Some(false)),
        Some(false) if is_same => play_again(state, store, memory, row, named),
        _ => (state, None),
    }
}

// The same, with the name of the row.
fn play_row<A: Allocator + Copy>(
    state: AnyNode<A>,
    store: &mut MemStable<A>,
    memory: (A, A),
    row: &Row,
) -> Went<A> {
    let (sender, seq) = row.1;
    match name(sender, seq) {
        Some(named) => play_named(state, store, memory, row, named),
        None => (state, None),
    }
}

// Whether a row was refused for memory, or the part and the place of the first row with an
// unexpected result.
type Played = Result<bool, (usize, usize)>;

// Plays rows, which are this part of a list.
fn play_part<A: Allocator + Copy>(
    mut state: AnyNode<A>,
    store: &mut MemStable<A>,
    memory: (A, A),
    (part, rows): (usize, &[Row]),
) -> (AnyNode<A>, Played) {
    let mut refused = false;
    for (place, row) in rows.iter().enumerate() {
        let (next, gone) = play_row(state, store, memory, row);
        state = next;
        match gone {
            Some(is_refused) => refused = refused || is_refused,
            None => return (state, Err((part, place))),
        }
    }
    (state, Ok(refused))
}

// Plays the parts of a list.
fn play_parts<A: Allocator + Copy>(
    mut state: AnyNode<A>,
    store: &mut MemStable<A>,
    memory: (A, A),
    parts: &[&[Row]],
) -> (AnyNode<A>, Played) {
    let mut refused = false;
    for (part, rows) in parts.iter().enumerate() {
        let (next, played) = play_part(state, store, memory, (part, rows));
        state = next;
        match played {
            Ok(is_refused) => refused = refused || is_refused,
            Err(place) => return (state, Err(place)),
        }
    }
    (state, Ok(refused))
}

// The same at a node with a new store.
fn play_from<A: Allocator + Copy>(ready: Ready<A>, memory: (A, A), parts: &[&[Row]]) -> Played {
    let mut store = MemStable::new(memory.1);
    let (state, played) = play_parts(AnyNode::Ready(ready), &mut store, memory, parts);
    drop(state);
    drop(store);
    played
}

// A node that has stored nothing.
fn new<A: Allocator + Copy>(alloc: A, n: u8, number: u8, cap: u32) -> Option<Ready<A>> {
    let config = Config::new(n, cap)?;
    let node = NodeId::new(number)?;
    if node.number() > config.n() {
        return None;
    }
    Ready::new(alloc, config, node).ok()
}

// The node under test, and whether creating it was refused for memory the first time.
fn begin<A: Allocator + Copy>(start: &Start, heap: A, calm: A) -> Option<(Ready<A>, bool)> {
    match start {
        Start::New(n, number, cap) => Some((new(heap, *n, *number, *cap)?, false)),
        Start::Opened => opened_at_last(heap, calm),
    }
}

// Plays a list. A row that is refused for memory changes nothing and succeeds the second time.
fn plays<A: Allocator + Copy>(list: &List, heap: A, calm: A) -> Played {
    match begin(&list.start, heap, calm) {
        Some((ready, was_refused)) => {
            let refused = play_from(ready, (heap, calm), list.parts)?;
            Ok(refused || was_refused)
        }
        None => Err((0, 0)),
    }
}

// The first row of these lists with an unexpected result: its list, part and place.
fn first_astray(alloc: Global, lists: &[List]) -> Option<(usize, usize, usize)> {
    for (index, list) in lists.iter().enumerate() {
        if let Err((part, place)) = plays(list, alloc, alloc) {
            return Some((index, part, place));
        }
    }
    None
}

/// Plays lists, each row of which must have its expected result.
pub(super) fn play_all(rt: &(impl Abort + AllocGlobal), lists: &[List]) {
    assert_eq!(rt; first_astray(rt.alloc(), lists), None);
}

// Plays a list while this growth is refused, or none if it is 0. Returns the result and the number
// of growths.
fn plays_refusing(alloc: Global, list: &List, number: u64) -> (Played, u64) {
    let calm = Refusing::new(alloc, 0);
    let heap = Refusing::new(alloc, number);
    let played = plays(list, &heap, &calm);
    (played, heap.growths())
}

/// The number of growths in a list; `None` if a row has an unexpected result.
pub(super) fn count_growths(alloc: Global, list: &List) -> Option<u64> {
    match plays_refusing(alloc, list, 0) {
        (Ok(false), count) => Some(count),
        _ => None,
    }
}

/// Whether a list has its expected results with each of these growths refused, and reports a
/// refusal as `ask` says.
pub(super) fn plays_each(alloc: Global, list: &List, before: u64, last: u64, told: bool) -> bool {
    for growth in before..last {
        match plays_refusing(alloc, list, growth + 1).0 {
            Ok(refused) if refused == told => {}
            _ => return false,
        }
    }
    true
}

/// Whether each growth of a list may be refused, and there are more than `least` of them.
pub(super) fn gives_back(alloc: Global, list: &List, least: u64) -> bool {
    match count_growths(alloc, list) {
        Some(count) => least < count && plays_each(alloc, list, 0, count, true),
        None => false,
    }
}

// Whether the later list needs as many growths as the earlier one, and at least one.
fn takes_no_more(alloc: Global, (earlier, later): &(List, List)) -> bool {
    match (count_growths(alloc, earlier), count_growths(alloc, later)) {
        (Some(before), Some(after)) => 0 < before && before == after,
        _ => false,
    }
}

/// Whether each later list needs as many growths as its earlier one, and at least one.
pub(super) fn take_no_more(alloc: Global, pairs: &[(List, List)]) -> bool {
    for pair in pairs {
        if !takes_no_more(alloc, pair) {
            return false;
        }
    }
    true
}
