//! Checks of a pending set.

use super::*;

/// A check with its expected result.
#[derive(Clone, Copy)]
pub(super) enum Check<'a> {
    /// For a sender: the last number before the first gap, and how many numbers it has after that
    /// gap.
    Goes(u8, u32, u32),
    /// The client's messages 1, 2, 3, .. at node 1 have names with these numbers. The client's next
    /// number is one more than their count.
    Numbers(u16, &'a [u32]),
    /// After the first name, the second comes next in cyclic order. `None` as the first means
    /// before all names.
    Next(Option<(u8, u32)>, Option<(u8, u32)>),
    /// The row's message is there under its name (true), or isn't (false).
    Has(Row, bool),
    /// No message has this name.
    Lacks(u8, u32),
}

// Whether a message is the one in a row (`Row` of tests.rt).
fn fits<A: Allocator + Copy>(message: Option<&Message<A>>, row: Row) -> bool {
    let (_sender, _seq, client, number) = row;
    match message {
        Some(message) => {
            message.client().number() == client
                && message.number() == number
                && message.payload() == number.to_be_bytes().as_slice()
        }
        None => false,
    }
}

// Whether the message of a row is there. If no number of its sender below its own is missing, it
// has to be in the sender's gapless part (`window`) too.
fn has_row<A: Allocator + Copy>(pending: &Pending<A>, row: Row) -> bool {
    let (sender, seq, _client, _number) = row;
    let Some(name) = name(sender, seq) else {
        return false;
    };
    let window = pending.window(name.sender);
    fits(pending.message(name), row)
        && (pending.low(name.sender) < name.seq || fits(window.get(name.seq as usize - 1), row))
}

// Whether the messages are exactly those of these rows.
pub(super) fn holds<A: Allocator + Copy>(pending: &Pending<A>, rows: &[Row]) -> bool {
    for row in rows {
        if !has_row(pending, *row) {
            return false;
        }
    }
    pending.count() as usize == rows.len()
}

// Whether `Check::Goes` holds.
fn goes<A: Allocator + Copy>(pending: &Pending<A>, sender: u8, low: u32, above: u32) -> bool {
    match NodeId::new(sender) {
        Some(sender) => {
            pending.low(sender) == low
                && pending.above(sender) == above
                && pending.window(sender).len() == low as usize
        }
        None => false,
    }
}

// Whether `Check::Numbers` holds.
fn is_numbered<A: Allocator + Copy>(pending: &Pending<A>, client: u16, owns: &[u32]) -> bool {
    let Some(client) = ClientId::new(client) else {
        return false;
    };
    let mut next: u32 = 1;
    for own in owns {
        if pending.find(client, next) != name(1, *own) {
            return false;
        }
        next = next.saturating_add(1);
    }
    pending.client_next(client) == next && pending.find(client, next).is_none()
}

// The name with this sender and number, if they are given.
fn name_of(pair: Option<(u8, u32)>) -> Option<Name> {
    let (sender, seq) = pair?;
    name(sender, seq)
}

// Makes the row's message anew, with memory from `messages`, and says whether the pending set has
// it under its name. `None` if the row is out of range, or there is no memory.
fn has<A: Allocator + Copy>(pending: &Pending<A>, messages: A, row: Row) -> Option<bool> {
    let (sender, seq, client, number) = row;
    let (name, client) = (name(sender, seq)?, ClientId::new(client)?);
    if number == 0 {
        return None;
    }
    let there = Message::copy_of(messages, client, number, &number.to_be_bytes()).ok()?;
    let has_it = pending.has(&name, &there);
    drop(there);
    Some(has_it)
}

// Whether `Check::Lacks` holds.
fn lacks<A: Allocator + Copy>(pending: &Pending<A>, sender: u8, seq: u32) -> bool {
    match name(sender, seq) {
        Some(name) => pending.message(name).is_none(),
        None => false,
    }
}

// Whether this check passes. `messages` is the allocator of the messages to compare with.
fn is_told<A: Allocator + Copy>(pending: &Pending<A>, messages: A, check: Check) -> bool {
    match check {
        Check::Goes(sender, low, above) => goes(pending, sender, low, above),
        Check::Numbers(client, owns) => is_numbered(pending, client, owns),
        Check::Next(from, to) => pending.after(name_of(from)) == name_of(to),
        Check::Has(row, there) => has(pending, messages, row) == Some(there),
        Check::Lacks(sender, seq) => lacks(pending, sender, seq),
    }
}

// Whether all checks pass.
pub(super) fn are_told<A: Allocator + Copy>(
    pending: &Pending<A>,
    messages: A,
    checks: &[Check],
) -> bool {
    pending.recall();
    for check in checks {
        if !is_told(pending, messages, *check) {
            return false;
        }
    }
    true
}
