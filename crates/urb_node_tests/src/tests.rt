//! One node under test, with its store in memory.

ghost use Rattle.std.specs.Prelude.{◌≡◌, IfSome};
ghost use Rattle.urb_names.specs.Names.{name};

mod answers;
mod calling;
mod calls;
mod forty;
mod keeping;
mod numbers;
mod opening;
mod packets;
mod playing;
mod receipts;
mod refused;
mod restarts;
mod rising;
mod rows;
mod sending;
mod states;
mod ticks;

use crate::tests::rows::{Form, Kept};
use std::alloc::Allocator;
use urb_names::{ClientId, MAX_PAYLOAD, Message, Name, NodeId};
use urb_stable::Record;

// The name with this sender and number, or `None` if there is no such name.
fn name(sender: u8, seq: u32) -> Option<Name>
    ensures { IfSome result (λ x. x ≡ name sender seq) }
{
    if seq == 0 {
        return None;
    }
    let sender = NodeId::new(sender)?;
    Some(Name { sender, seq })
}

// A message of this client, with a copy of the payload. `None` if a part is out of range, or there
// is no memory.
fn message<A: Allocator + Copy>(
    alloc: A,
    client: u16,
    number: u32,
    payload: &[u8],
) -> Option<Message<A>>
    ensures { IfSome result
        (λ m. m ≡ record { client = client; number = number; payload = payload.now }) }
{
    if number == 0 || payload.len() > MAX_PAYLOAD {
        return None;
    }
    let client = ClientId::new(client)?;
    Message::copy_of(alloc, client, number, payload).ok()
}

// A record of this form. Its message is from client 7, and the client's number for it is the number
// of its name. `calm` is an allocator that refuses nothing. `None` if the payload is too long, or
// there is no memory.
fn record_of<A: Allocator + Copy>(
    calm: A,
    form: &Form,
    named: Name,
    payload: &[u8],
) -> Option<Record<Message<A>>> {
    Some(match form {
        Form::Pending => Record::Pend(named, message(calm, 7, named.seq, payload)?),
        Form::Certified => Record::PendCert(named, message(calm, 7, named.seq, payload)?),
        Form::Certificate => Record::Cert(named),
    })
}

// The record of a row of an image (`Kept`), about the sender's message 1. `calm` refuses nothing.
fn kept_record<A: Allocator + Copy>(
    calm: A,
    (form, sender, payload): &Kept,
) -> Option<Record<Message<A>>> {
    record_of(calm, form, name(*sender, 1)?, payload)
}
