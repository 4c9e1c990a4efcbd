//! Records by row, and images made of them.

use std::alloc::Allocator;
use urb_names::{ClientId, Message, Name, NodeId};
use urb_stable::Record;

/// A record given by its form and name. Its message comes from client 7, with the name's number.
#[derive(Clone, Copy)]
pub(super) enum Form {
    Pend(u8, u32),
    PendCert(u8, u32),
    Cert(u8, u32),
}

// A name, or `None` if there is no such sender or number.
pub(super) fn name(sender: u8, seq: u32) -> Option<Name> {
    if seq == 0 {
        return None;
    }
    let sender = NodeId::new(sender)?;
    Some(Name { sender, seq })
}

// A message with this letter as its payload.
pub(super) fn message<A: Allocator + Copy>(
    alloc: A,
    number: u32,
    letter: u8,
) -> Option<Message<A>> {
    if number == 0 {
        return None;
    }
    let client = ClientId::new(7)?;
    Message::copy_of(alloc, client, number, &[letter]).ok()
}

// A record whose message has this letter.
pub(super) fn record<A: Allocator + Copy>(
    alloc: A,
    form: Form,
    letter: u8,
) -> Option<Record<Message<A>>> {
    match form {
        Form::Pend(sender, seq) => {
            let name = name(sender, seq)?;
            Some(Record::Pend(name, message(alloc, seq, letter)?))
        }
        Form::PendCert(sender, seq) => {
            let name = name(sender, seq)?;
            Some(Record::PendCert(name, message(alloc, seq, letter)?))
        }
        Form::Cert(sender, seq) => Some(Record::Cert(name(sender, seq)?)),
    }
}

// Appends a record, and returns whether there was memory and the name exists.
fn is_pushed<A: Allocator + Copy>(
    image: &mut Vec<Record<Message<A>>, A>,
    alloc: A,
    form: Form,
    letter: u8,
) -> bool {
    match record(alloc, form, letter) {
        Some(record) => image.push(record).is_ok(),
        None => false,
    }
}

// An image with these records, each with its letter. Records beyond the last letter get m.
pub(super) fn image<A: Allocator + Copy>(
    alloc: A,
    forms: &[Form],
    letters: &[u8],
) -> Option<Vec<Record<Message<A>>, A>> {
    let mut image = Vec::new(alloc);
    let mut is_whole = true;
    for (index, form) in forms.iter().enumerate() {
        let letter = match letters.get(index) {
            Some(letter) => *letter,
            None => b'm',
        };
        is_whole = is_whole && is_pushed(&mut image, alloc, *form, letter);
    }
    if is_whole { Some(image) } else { None }
}
