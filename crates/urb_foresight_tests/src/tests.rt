//! What a group foresees of the calls that wait at its nodes.

mod batches;
mod refused_memory;

use std::alloc::Global;
use urb_foresight::WaitingCall;
use urb_group::*;
use urb_names::{Flags, Packet, encode};

/// A record's kind, sender and number. Its message is the client's with the same number.
#[derive(Clone, Copy)]
enum Form {
    Pend(u8, u32),
    PendCert(u8, u32),
}

/// What comes to the node. A client's message has the client, its number and its payload. A packet
/// has its source, its name's sender and number, and whether it reports a certificate. A stray packet
/// is for another node. It has that node, its source, and its name's sender and number.
#[derive(Clone, Copy)]
enum Coming {
    Submit(u16, u32, &'static [u8]),
    Arrive(u8, u8, u32, bool),
    Stray(u8, u8, u8, u32),
    Bytes(&'static [u8]),
}

// The client's message with this number.
fn message(alloc: Global, number: u32) -> Option<Message> {
    if number == 0 {
        return None;
    }
    Message::copy_of(alloc, ClientId::new(7)?, number, b"a").ok()
}

// The name with this sender and number.
fn name_of(sender: u8, seq: u32) -> Option<Name> {
    if seq == 0 {
        return None;
    }
    Some(Name {
        sender: NodeId::new(sender)?,
        seq,
    })
}

fn record(alloc: Global, form: Form) -> Option<Record> {
    let (Form::Pend(sender, seq) | Form::PendCert(sender, seq)) = form;
    let message = message(alloc, seq)?;
    let name = name_of(sender, seq)?;
    if matches!(form, Form::Pend(_, _)) {
        return Some(Record::Pend(name, message));
    }
    Some(Record::PendCert(name, message))
}

fn records(alloc: Global, forms: &[Form]) -> Option<Vec<Record>> {
    let mut records = Vec::new(alloc);
    for form in forms {
        records.push(record(alloc, *form)?).ok()?;
    }
    Some(records)
}

// The group of these images, with a cap of 20.
fn group_of(alloc: Global, images: &[&[Form]]) -> Option<Group> {
    let mut stored = Vec::new(alloc);
    for image in images {
        stored.push(records(alloc, image)?).ok()?;
    }
    let config = Config::new(u8::try_from(stored.len()).ok()?, 20)?;
    Group::open(alloc, config, stored).ok()
}

// The bytes of a packet for a node.
fn packet_bytes(
    alloc: Global,
    target: NodeId,
    source: NodeId,
    name: Name,
    is_certified: bool,
) -> Option<Vec<u8>> {
    if source == target {
        return None;
    }
    let flags = Flags {
        certified: is_certified,
        heard: false,
    };
    let packet = Packet::new(source, target, name, message(alloc, name.seq)?, Some(flags));
    encode(alloc, &packet).ok()
}

/// A call that waits, with what it borrows.
#[derive(Drop)]
enum Waiting {
    Submit(ClientId, u32, Payload),
    Arrive(Vec<u8>),
}

impl Waiting {
    fn call(&self) -> WaitingCall<'_> {
        match self {
            Waiting::Submit(client, number, payload) => WaitingCall::Submit {
                client: *client,
                number: *number,
                payload,
            },
            Waiting::Arrive(bytes) => WaitingCall::Arrive {
                bytes: bytes.as_slice(),
            },
        }
    }
}

fn make_waiting(alloc: Global, node: NodeId, coming: Coming) -> Option<Waiting> {
    match coming {
        Coming::Submit(client, number, bytes) => {
            let payload = Payload::copied(alloc, bytes).ok()?;
            Some(Waiting::Submit(ClientId::new(client)?, number, payload))
        }
        Coming::Arrive(source, sender, seq, is_certified) => {
            let source = NodeId::new(source)?;
            let name = name_of(sender, seq)?;
            Some(Waiting::Arrive(packet_bytes(alloc, node, source, name, is_certified)?))
        }
        Coming::Stray(target, source, sender, seq) => {
            let (target, source) = (NodeId::new(target)?, NodeId::new(source)?);
            let name = name_of(sender, seq)?;
            Some(Waiting::Arrive(packet_bytes(alloc, target, source, name, false)?))
        }
        Coming::Bytes(bytes) => Some(Waiting::Arrive(Vec::from_slice(alloc, bytes).ok()?)),
    }
}
