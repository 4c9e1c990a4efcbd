//! Frames of requests and responses, both ways.

ghost use Rattle.std.specs.Prelude.{◌≤◌, length};
ghost use Rattle.urb_client.specs.Requests.{IsAsked, IsShort, asked_by};
ghost use Rattle.urb_names.specs.declared.limits.TheConstants.{MAX_PAYLOAD as longest};

use super::summaries::{Asked, Said, asked_by, said_by};
use std::alloc::{Allocator, Global};
use urb_client::*;
use urb_names::{ClientId, MAX_PAYLOAD, Message, Name, NoMemory, NodeId, Payload, Refusal};

// Says whether the request has this frame.
fn is_frame_of(alloc: Global, request: Request, frame: &[u8]) -> bool
    requires values { IsAsked (asked_by request) }
    requires short { IsShort (asked_by request) }
{
    match encode_request(alloc, &request) {
        Ok(encoded) => encoded.as_slice() == frame,
        Err(_) => false,
    }
}

// Says whether a submit of client 7 has this frame.
fn is_frame_of_submit(alloc: Global, frame: &[u8]) -> bool {
    let Ok(payload) = Payload::copied(alloc, b"hi") else {
        return false;
    };
    let submit = Request::Submit {
        client: ClientId::new(7).unwrap(),
        number: 1,
        payload,
    };
    is_frame_of(alloc, submit, frame)
}

#[test]
fn requests_are_encoded(rt: HostRuntime) {
    let alloc = rt.alloc();
    let read = Request::Read { place: 1, max: 8 };
    let wait = Request::Wait {
        place: 258,
        max: 8,
        millis: 772,
    };
    let encoded = [
        is_frame_of_submit(alloc, b"\x00\x09\x01\x00\x07\x00\x00\x00\x01hi"),
        is_frame_of(alloc, read, b"\x00\x06\x02\x00\x00\x00\x01\x08"),
        is_frame_of(alloc, Request::Ask(Control::Status), b"\x00\x01\x03"),
        is_frame_of(alloc, Request::Ask(Control::Crash), b"\x00\x01\x04"),
        is_frame_of(alloc, Request::Ask(Control::Restart), b"\x00\x01\x05"),
        is_frame_of(alloc, wait, b"\x00\x08\x06\x00\x00\x01\x02\x08\x03\x04"),
    ];
    assert_eq!(rt; encoded, [true; 6]);
}

/// Requests without their length, and what they ask; `None` if there is no request.
const REQUESTS: [(&[u8], Option<Asked<'_>>); 8] = [
    (
        b"\x01\x00\x07\x00\x00\x00\x01hi",
        Some(Asked::Submit(7, 1, b"hi")),
    ),
    (b"\x02\x00\x00\x00\x01\x08", Some(Asked::Read(1, 8))),
    (b"\x03", Some(Asked::Ask(Control::Status))),
    (b"\x04", Some(Asked::Ask(Control::Crash))),
    (b"\x05", Some(Asked::Ask(Control::Restart))),
    (
        b"\x06\x00\x00\x01\x02\x08\x03\x04",
        Some(Asked::Wait(258, 8, 772)),
    ),
    (b"\x07", None),
    (b"", None),
];

// Says whether these bytes are read as a request that asks this. `None` means an unknown opcode.
fn asks(alloc: Global, bytes: &[u8], asked: Option<Asked<'_>>) -> bool {
    match parse_request(alloc, bytes) {
        Ok(request) => Some(asked_by(&request)) == asked,
        Err(refusal) => refusal == Refusal::Frame(2) && asked.is_none(),
    }
}

#[test]
fn requests_are_read(rt: HostRuntime) {
    for (bytes, asked) in &REQUESTS {
        assert!(rt; asks(rt.alloc(), *bytes, *asked), "{bytes:?}");
    }
}

/// Responses, and what they say.
const RESPONSES: [(&[u8], Said<'_>); 7] = [
    (b"\x00\x05\x81\x00\x00\x00\x01", Said::Accepted(1)),
    (
        b"\x00\x11\x82\x01\x01\x00\x00\x00\x01\x00\x07\x00\x00\x00\x01\x00\x02hi",
        Said::Entry(1, 1, 7, 1, b"hi"),
    ),
    (
        b"\x00\x0a\x83\x01\x00\x00\x00\x01\x00\x00\x00\x01",
        Said::Status(NodeState::Ready, 1, 1),
    ),
    (
        b"\x00\x0a\x83\x02\x00\x00\x00\x01\x00\x00\x00\x00",
        Said::Status(NodeState::Storing, 1, 0),
    ),
    (b"\x00\x06\xee\x07\x00\x00\x00\x02", Said::Refused(7, 2)),
    (b"\x00\x01\x84", Said::Done),
    (b"\x00\x02\x82\x00", Said::NoEntries),
];

// Says whether the response has this frame.
fn is_frame<A: Allocator + Copy>(
    alloc: A,
    response: &Response<A>,
    frame: &[u8],
) -> Result<bool, NoMemory> {
    Ok(encode_response(alloc, response)?.as_slice() == frame)
}

// Says whether the response of this frame says this, and has the frame.
fn says(alloc: Global, frame: &[u8], said: Said<'_>) -> bool {
    let [_, _, bytes @ ..] = frame else {
        return false;
    };
    match parse_response(alloc, bytes) {
        Ok(Some(response)) => {
            said_by(&response) == said && is_frame(alloc, &response, frame) == Ok(true)
        }
        _ => false,
    }
}

#[test]
fn responses_are_read_and_encoded(rt: HostRuntime) {
    for (frame, said) in &RESPONSES {
        assert!(rt; says(rt.alloc(), *frame, *said), "{frame:?}");
    }
}

/// Bytes that are no response.
const OTHERS: [&[u8]; 14] = [
    b"",
    b"\x80",
    b"\x81\x00\x00\x00",
    b"\x81\x00\x00\x00\x01\x00",
    b"\x82",
    b"\x82\x09",
    b"\x82\x01",
    b"\x82\x00\x00",
    b"\x82\x01\x00\x00\x00\x00\x01\x00\x07\x00\x00\x00\x01\x00\x00",
    b"\x82\x01\x01\x00\x00\x00\x01\x00\x07\x00\x00\x00\x01\x00\x02h",
    b"\x83\x03\x00\x00\x00\x01\x00\x00\x00\x01",
    b"\x84\x00",
    b"\xee\x13\x00\x00\x00",
    b"\xee\x13\x00\x00\x00\x02\x00",
];

// Says whether these bytes are read as no response.
fn is_no_response(alloc: Global, bytes: &[u8]) -> bool {
    matches!(parse_response(alloc, bytes), Ok(None))
}

#[test]
fn other_bytes_are_no_response(rt: HostRuntime) {
    for bytes in &OTHERS {
        assert!(rt; is_no_response(rt.alloc(), *bytes), "{bytes:?}");
    }
}

// Returns the first entry of node 1: a message of client 7 with this payload.
fn first_entry<A: Allocator + Copy>(
    alloc: A,
    payload: &[u8],
) -> Result<(Name, Message<A>), NoMemory>
    requires { length payload.now ≤ longest }
{
    let (sender, client) = (NodeId::new(1).unwrap(), ClientId::new(7).unwrap());
    let message = Message::copy_of(alloc, client, 1, payload)?;
    Ok((Name { sender, seq: 1 }, message))
}

// Returns the frame of a page that has this entry eight times, as far as there is room.
fn frame_of_eight<A: Allocator + Copy>(alloc: A, payload: &[u8]) -> Result<Vec<u8, A>, NoMemory>
    requires { length payload.now ≤ longest }
{
    let mut page = Vec::new(alloc);
    for _ in 0..8u8 {
        page.push(first_entry(alloc, payload)?)?;
    }
    page.truncate(8);
    encode_response(alloc, &Response::entries(page)?)
}

// Says whether the response of these bytes has this frame.
fn is_read_again<A: Allocator + Copy>(
    alloc: A,
    bytes: &[u8],
    frame: &[u8],
) -> Result<bool, NoMemory> {
    match parse_response(alloc, bytes)? {
        Some(response) => is_frame(alloc, &response, frame),
        None => Ok(false),
    }
}

// Writes the frame of a page that has this entry eight times. Says whether it begins with this
// length, opcode and count, and is read again.
fn are_read_again<A: Allocator + Copy>(
    alloc: A,
    payload: &[u8],
    head: [u8; 4],
) -> Result<bool, NoMemory>
    requires { length payload.now ≤ longest }
{
    let frame = frame_of_eight(alloc, payload)?;
    match frame.as_slice() {
        [_, _, bytes @ ..] => {
            Ok(frame.starts_with(&head) && is_read_again(alloc, bytes, frame.as_slice())?)
        }
        _ => Ok(false),
    }
}

/// Says whether eight entries with a thousand letters each are read from their frame again.
pub(super) fn eight_entries<A: Allocator + Copy>(alloc: A) -> Result<bool, NoMemory> {
    are_read_again(alloc, &[b'x'; 1024], [0x20, 0x6a, 0x82, 8])
}

#[test]
fn a_frame_has_room_for_eight_entries_or_seven_or_three_of_the_longest(rt: HostRuntime) {
    let longest = [b'x'; MAX_PAYLOAD];
    // Their lengths are 65,530, 57,346 and 49,193.
    let eight = are_read_again(rt.alloc(), &longest[..8178], [0xff, 0xfa, 0x82, 8]);
    assert_eq!(rt; eight, Ok(true));
    let seven = are_read_again(rt.alloc(), &longest[..8179], [0xe0, 0x02, 0x82, 7]);
    assert_eq!(rt; seven, Ok(true));
    let three = are_read_again(rt.alloc(), &longest, [0xc0, 0x29, 0x82, 3]);
    assert_eq!(rt; three, Ok(true));
}
