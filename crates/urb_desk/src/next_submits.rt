//! The submits that a client has sent next: those at the front of the bytes that its session hasn't
//! read yet.

ghost use Rattle.std.specs.Prelude.{◌≡◌, ◌≤◌, ◌++◌, IfSome, length, map};
ghost use Rattle.urb_client.specs.Requests.{asked_by};
ghost use Rattle.urb_client.specs.Responses.{frame};
ghost use Rattle.urb_desk.specs.internal.NextSubmits.{AreNext, BeginsWith, is_short_submit};

use byteorder::{BigEndian, ByteOrder};
use std::alloc::Global;
use urb_client::{Request, parse_request};
use urb_names::MAX_PAYLOAD;

// The number of bytes of a frame's length.
const LENGTH_BYTES: usize = 2;

/// The submits at the front of these bytes, at most `most` of them. The list ends before the first
/// frame that isn't whole, is no submit with a payload within the limit, or for which memory is
/// refused.
pub(crate) fn submits_in(alloc: Global, bytes: &[u8], most: usize) -> Vec<Request>
    ensures next { AreNext bytes.now (map asked_by result.items) }
    ensures most { length result.items ≤ most }
{
    let mut submits = Vec::new(alloc);
    let mut rest = bytes;
    while submits.len() < most {
        let Some((request, others)) = first_submit(alloc, rest) else {
            return submits;
        };
        if submits.push(request).is_err() {
            return submits;
        }
        rest = others;
    }
    submits
}

// The submit whose frame is the first of these bytes, and the bytes behind it.
fn first_submit(alloc: Global, bytes: &[u8]) -> Option<(Request, &[u8])>
    ensures { IfSome result (λ found. BeginsWith bytes.now (asked_by found.0) found.1.now) }
{
    let (body, others) = split_frame(bytes)?;
    let Ok(request) = parse_request(alloc, body) else {
        return None;
    };
    if !is_short_submit(&request) {
        return None;
    }
    Some((request, others))
}

// Whether a request is a submit whose payload isn't too long.
fn is_short_submit(request: &Request) -> bool
    ensures { result ≡ is_short_submit (asked_by request.now) }
{
    match request {
        Request::Submit { payload, .. } => payload.as_slice().len() <= MAX_PAYLOAD,
        _ => false,
    }
}

// The bytes of the first frame, after its length, and the bytes behind it. `None` if it isn't whole.
fn split_frame(bytes: &[u8]) -> Option<(&[u8], &[u8])>
    ensures { IfSome result (λ parts. bytes.now ≡ frame parts.0.now ++ parts.1.now) }
{
    if bytes.len() < LENGTH_BYTES {
        return None;
    }
    let (head, others) = bytes.split_at(LENGTH_BYTES);
    let length = usize::from(BigEndian::read_u16(head));
    if others.len() < length {
        return None;
    }
    Some(others.split_at(length))
}
