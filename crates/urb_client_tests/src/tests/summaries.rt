//! Requests and responses in short, so that a row of a table says what its bytes mean.

use std::alloc::Allocator;
use urb_client::*;
use urb_names::Refusal;

/// What a request asks. A submit has its client, its number and its payload.
#[derive(Clone, Copy, PartialEq, Eq)]
pub(super) enum Asked<'a> {
    Submit(u16, u32, &'a [u8]),
    Read(u32, u8),
    Wait(u32, u8, u16),
    Ask(Control),
}

/// Returns what a request asks.
pub(super) fn asked_by<A: Allocator>(request: &Request<A>) -> Asked<'_> {
    match request {
        Request::Submit {
            client,
            number,
            payload,
        } => Asked::Submit(client.number(), *number, payload.as_slice()),
        Request::Read { place, max } => Asked::Read(*place, *max),
        Request::Wait { place, max, millis } => Asked::Wait(*place, *max, *millis),
        Request::Ask(control) => Asked::Ask(*control),
    }
}

/// What a response says. A single entry has the sender and number of its name, the client and the
/// client's number for the message, and the payload. More entries have their count. A status has
/// the node's state, the count of its own messages, and the length of its log.
#[derive(Clone, Copy, PartialEq, Eq)]
pub(super) enum Said<'a> {
    Accepted(u32),
    NoEntries,
    Entry(u8, u32, u16, u32, &'a [u8]),
    Entries(usize),
    Status(NodeState, u32, u32),
    Done,
    Refused(u8, u32),
}

// Returns what entries say.
fn say_entries<A: Allocator>(entries: &Entries<A>) -> Said<'_> {
    match entries.as_slice() {
        [] => Said::NoEntries,
        [(name, message)] => Said::Entry(
            name.sender.number(),
            name.seq,
            message.client().number(),
            message.number(),
            message.payload(),
        ),
        more => Said::Entries(more.len()),
    }
}

/// Returns what a response says.
pub(super) fn said_by<A: Allocator>(response: &Response<A>) -> Said<'_> {
    match response {
        Response::Accepted(seq) => Said::Accepted(*seq),
        Response::Entries(entries) => say_entries(entries),
        Response::Status { state, own, logged } => Said::Status(*state, *own, *logged),
        Response::Done => Said::Done,
        Response::Refused { number, detail } => Said::Refused(*number, *detail),
    }
}
