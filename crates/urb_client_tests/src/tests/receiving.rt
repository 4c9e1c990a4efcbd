//! Responses as they come in: whole, cut, and of no form.

use super::summaries::{Said, said_by};
use std::alloc::{Allocator, Global};
use std::io::Read;
use urb_client::*;

// Says whether a reader has at its front a response that says this.
fn is_received(alloc: Global, reader: &mut &[u8], said: Said<'_>) -> bool {
    match read_response(alloc, reader) {
        Ok(response) => said_by(&response) == said,
        Err(_) => false,
    }
}

#[test]
fn a_response_is_read_and_no_byte_behind_it(rt: HostRuntime) {
    let mut reader = b"\x00\x05\x81\x00\x00\x00\x07\x00\x01\x84".as_slice();
    assert!(rt; is_received(rt.alloc(), &mut reader, Said::Accepted(7)));
    assert_eq!(rt; reader, b"\x00\x01\x84".as_slice());
    assert!(rt; is_received(rt.alloc(), &mut reader, Said::Done));
    assert_eq!(rt; reader, b"".as_slice());
}

/// Says whether the response that a reader has at its front has entries.
pub(super) fn has_entries<A: Allocator + Copy, R: Read>(
    alloc: A,
    reader: &mut R,
) -> Result<bool, ResponseFault> {
    match read_response(alloc, reader)? {
        Response::Entries(_) => Ok(true),
        _ => Ok(false),
    }
}

/// What comes in if there is no response.
const NO_RESPONSES: [&[u8]; 9] = [
    b"",
    b"\x00",
    // A length of 0; a response that is cut.
    b"\x00\x00",
    b"\x00\x05",
    b"\x00\x05\x81\x00\x00\x00",
    // A request; a response with a byte after it, or with a byte too few.
    b"\x00\x01\x03",
    b"\x00\x06\x81\x00\x00\x00\x01x",
    b"\x00\x04\x81\x00\x00\x00",
    // Entries; the second one is missing.
    b"\x00\x11\x82\x02\x01\x00\x00\x00\x01\x00\x07\x00\x00\x00\x01\x00\x02hi",
];

#[test]
fn what_is_no_response_is_told(rt: HostRuntime) {
    for sent in &NO_RESPONSES {
        let mut reader = *sent;
        let read = has_entries(rt.alloc(), &mut reader);
        assert!(rt; read == Err(ResponseFault::NoResponse), "{sent:?}");
    }
}
