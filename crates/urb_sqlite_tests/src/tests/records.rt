//! The records of journals under test, as plain data.

use std::alloc::Global;
use urb_names::{ClientId, MAX_PAYLOAD, Message, Name, NodeId};
use urb_stable::Record;

/// The kind of record.
#[derive(Clone, Copy)]
pub enum Form {
    Pending,
    Certified,
    Certificate,
}

/// The payload of a message: these bytes, or the given number of bytes that differ from their
/// neighbours.
#[derive(Clone, Copy)]
pub enum Load {
    Of(&'static [u8]),
    Long(usize),
}

/// A record about the message with this number of node 1, and its payload. The message is that of
/// client 7 with the same number.
pub type Kept = (Form, u32, Load);

/// The first message, pending, and its certificate.
pub const TWO: &[Kept] = &[
    (Form::Pending, 1, Load::Of(b"hi")),
    (Form::Certificate, 1, Load::Of(b"")),
];

/// The bytes of a payload.
pub fn bytes_of(alloc: Global, load: Load) -> Option<Vec<u8>> {
    match load {
        Load::Of(bytes) => Vec::from_slice(alloc, bytes).ok(),
        Load::Long(count) => {
            let mut bytes = Vec::new(alloc);
            for i in 0..count {
                bytes.push((i % 251) as u8).ok()?;
            }
            Some(bytes)
        }
    }
}

/// The record that the row describes.
pub fn record_of(alloc: Global, (form, seq, load): Kept) -> Option<Record> {
    let bytes = bytes_of(alloc, load)?;
    if seq == 0 || bytes.len() > MAX_PAYLOAD {
        return None;
    }
    let sender = NodeId::new(1).unwrap();
    let name = Name { sender, seq };
    let message = Message::new(alloc, ClientId::new(7).unwrap(), seq, bytes).ok()?;
    match form {
        Form::Pending => Some(Record::Pend(name, message)),
        Form::Certified => Some(Record::PendCert(name, message)),
        Form::Certificate => Some(Record::Cert(name)),
    }
}

/// The records that the rows describe.
pub fn records_of(alloc: Global, rows: &[Kept]) -> Option<Vec<Record>> {
    let mut records = Vec::new(alloc);
    for row in rows {
        records.push(record_of(alloc, *row)?).ok()?;
    }
    Some(records)
}

// Whether the record is that of the row.
fn is_kept(alloc: Global, record: &Record, row: Kept) -> bool {
    match record_of(alloc, row) {
        Some(wanted) => {
            let is_same = record.is_same(&wanted);
            drop(wanted);
            is_same
        }
        None => false,
    }
}

/// Whether these are the records of the rows.
pub fn are_kept(alloc: Global, records: &[Record], rows: &[Kept]) -> bool {
    for (record, row) in records.iter().zip(rows) {
        if !is_kept(alloc, record, *row) {
            return false;
        }
    }
    records.len() == rows.len()
}
