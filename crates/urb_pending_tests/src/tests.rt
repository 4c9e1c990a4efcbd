//! The pending set by example, and with each allocation refused in turn.

ghost use Rattle.std.specs.Prelude.{◌≡◌};

mod growth;
mod numbers;
mod order;
mod told;

use std::alloc::{Allocator, Global};
use told::{Check, are_told, holds};
use urb_names::{ClientId, Config, Message, Name, NodeId};
use urb_pending::*;
use urb_refusing::Refusing;

const CAP: u32 = 40;

/// A message to add: the sender and number of its name, its client, and the client's number for it.
type Row = (u8, u32, u16, u32);

/// The messages to add to a node's set, whether space is reserved for each of them first, and the
/// checks to make afterwards.
#[derive(Clone, Copy)]
struct Script<'a> {
    node: u8,
    reserving: bool,
    rows: &'a [Row],
    checks: &'a [Check<'a>],
}

// A name, or `None` if there is no such sender or number.
fn name(sender: u8, seq: u32) -> Option<Name> {
    if seq == 0 {
        return None;
    }
    let sender = NodeId::new(sender)?;
    Some(Name { sender, seq })
}

/// The pending set of one of three nodes. It tests the preconditions of `add` before each call.
#[derive(Drop)]
struct Tested<A: Allocator> {
    config: Config,
    node: NodeId,
    pending: Pending<A>,
    ghost limits: { pending.limits ≡ config },
    ghost own: { pending.node ≡ node },
}

impl<A: Allocator + Copy> Tested<A> {
    fn new(alloc: A, number: u8) -> Option<Tested<A>> {
        let config = Config::new(3, CAP)?;
        let node = NodeId::new(number)?;
        Some(Tested {
            config,
            node,
            pending: Pending::new(alloc, config, node),
        })
    }

    // Adds a message, with its number as the payload, after those before it. If the allocation is
    // refused, checks that nothing has changed, and adds the returned message again. Returns
    // whether it was refused, or `None` if a check fails or the message can't be added.
    fn add(&mut self, messages: A, row: Row, before: &[Row]) -> Option<bool> {
        let (sender, seq, client, number) = row;
        let (name, client) = (name(sender, seq)?, ClientId::new(client)?);
        if number == 0 || self.pending.message(name).is_some() {
            return None;
        }
        if name.sender.number() > self.config.n() || name.seq > self.config.cap() {
            return None;
        }
        let own = name.sender == self.node;
        if own && name.seq != self.pending.own_len() + 1 {
            return None;
        }
        if own && number != self.pending.client_next(client) {
            return None;
        }
        let message = Message::copy_of(messages, client, number, &number.to_be_bytes()).ok()?;
        let Err((back, _)) = self.pending.add(name, message) else {
            return Some(false);
        };
        if !holds(&self.pending, before) {
            return None;
        }
        match self.pending.add(name, back) {
            Ok(()) => Some(true),
            Err(_refused) => None,
        }
    }

    // Reserves space for a message, in the same way.
    fn reserve(&mut self, row: Row, before: &[Row]) -> Option<bool> {
        let (sender, seq, client, _number) = row;
        let (name, client) = (name(sender, seq)?, ClientId::new(client)?);
        if self.pending.reserve(name, client).is_ok() {
            return Some(false);
        }
        if !holds(&self.pending, before) {
            return None;
        }
        self.pending.reserve(name, client).ok()?;
        Some(true)
    }

    // Adds a message. If `reserving`, it reserves space first, and the add must not allocate.
    fn put(
        &mut self,
        messages: A,
        heap: &Refusing<Global>,
        reserving: bool,
        row: Row,
        before: &[Row],
    ) -> Option<bool> {
        let refused = reserving && self.reserve(row, before)?;
        let asked = heap.growths();
        let again = self.add(messages, row, before)?;
        if reserving && heap.growths() != asked {
            return None;
        }
        Some(refused || again)
    }

    // Adds the messages one after the other, and returns whether a call was refused.
    fn put_all(&mut self, messages: A, heap: &Refusing<Global>, script: Script) -> Option<bool> {
        let mut refused = false;
        for (index, row) in script.rows.iter().enumerate() {
            let before = &script.rows[..index];
            refused |= self.put(messages, heap, script.reserving, *row, before)?;
        }
        Some(refused)
    }
}

// Plays a script on a new set. Returns whether a call was refused, or `None` if a check fails.
fn is_refused<A: Allocator + Copy>(
    alloc: A,
    messages: A,
    heap: &Refusing<Global>,
    script: Script,
) -> Option<bool> {
    let mut set = Tested::new(alloc, script.node)?;
    let refused = set.put_all(messages, heap, script);
    let is_told = holds(&set.pending, script.rows)
        && are_told(&set.pending, messages, script.checks);
    drop(set);
    if is_told { refused } else { None }
}

// Plays a script while allocation (growth) number `refused` is refused, or none if that is 0.
// Returns whether it was refused. `None` means that a check failed or a different call was refused.
fn play(alloc: Global, refused: u64, script: Script) -> Option<bool> {
    let calm = Refusing::new(alloc, 0);
    let heap = Refusing::new(alloc, refused);
    let told = is_refused(&heap, &calm, &heap, script);
    let met = heap.has_failed();
    drop(heap);
    drop(calm);
    if told == Some(met) { told } else { None }
}

// An order of the numbers 1 to 40.
#[derive(Clone, Copy)]
enum Way {
    Rising,
    Falling,
    OddFirst,
}

// The number that comes after `before` others.
fn number_in(way: Way, before: u32) -> u32 {
    match way {
        Way::Rising => before.saturating_add(1),
        Way::Falling => CAP.saturating_sub(before),
        Way::OddFirst if before < 20 => 2 * before + 1,
        Way::OddFirst => before.saturating_sub(19).saturating_mul(2),
    }
}

// Node 2's messages 1 to 40 in this order, all from client 7.
fn forty(way: Way) -> [Row; 40] {
    let mut rows = [(2, 0, 7, 0); 40];
    for before in 0..40u32 {
        let seq = number_in(way, before);
        rows[before as usize] = (2, seq, 7, seq);
    }
    rows
}
