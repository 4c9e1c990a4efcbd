//! Parses the bytes of a response, from left to right.

ghost use Rattle.std.specs.Prelude.{◌≡◌, ◌<◌, ◌≤◌, Option, Some, length, IfOk, OnErr, IfSome};
ghost use Rattle.std.specs.Option.{option_map};
ghost use Rattle.urb_client.specs.Responses.{Said, IsSaid, IsListing, response_body, said_by};
ghost use Rattle.urb_client.specs.internal.ParsedResponses.{byte_at, number_at, name_at};
ghost use Rattle.urb_client.specs.internal.ParsedResponses.{message_at, entry_at, entries_at};
ghost use Rattle.urb_client.specs.internal.ParsedResponses.{state_of, accepted_of, entries_of};
ghost use Rattle.urb_client.specs.internal.ParsedResponses.{status_of, refused_of, said_of, at_end};

use crate::format::{
    LONGEST_FRAME, MOST_ENTRIES, SAY_ACCEPTED, SAY_DONE, SAY_ENTRIES, SAY_REFUSED, SAY_STATUS,
};
use crate::{Entries, NodeState, Response};
use byteorder::{BigEndian, ByteOrder};
use std::alloc::Allocator;
use urb_names::{ClientId, MAX_PAYLOAD, Message, Name, NoMemory, NodeId};

fn u8_at(bytes: &[u8]) -> Option<(u8, &[u8])>
    ensures { option_map (λ x. (x.0, x.1.now)) result ≡ byte_at bytes.now }
{
    match bytes {
        [] => None,
        [byte, rest @ ..] => Some((*byte, rest)),
    }
}

fn u16_at(bytes: &[u8]) -> Option<(u16, &[u8])>
    ensures { option_map (λ x. (x.0, x.1.now)) result ≡ number_at 2 bytes.now }
{
    if bytes.len() < 2 {
        return None;
    }
    let number = BigEndian::read_u16(bytes);
    let (_, rest) = bytes.split_at(2);
    Some((number, rest))
}

fn u32_at(bytes: &[u8]) -> Option<(u32, &[u8])>
    ensures { option_map (λ x. (x.0, x.1.now)) result ≡ number_at 4 bytes.now }
{
    if bytes.len() < 4 {
        return None;
    }
    let number = BigEndian::read_u32(bytes);
    let (_, rest) = bytes.split_at(4);
    Some((number, rest))
}

#[tactic(auto, unfolding(crate::specs::internal::ParsedResponses::name_at))]
fn name_of(bytes: &[u8]) -> Option<(Name, &[u8])>
    ensures { option_map (λ x. (x.0, x.1.now)) result ≡ name_at bytes.now }
{
    let (sender, rest) = u8_at(bytes)?;
    let (seq, rest) = u32_at(rest)?;
    let sender = NodeId::new(sender)?;
    if seq == 0 {
        return None;
    }
    Some((Name { sender, seq }, rest))
}

#[tactic(auto, unfolding(crate::specs::internal::ParsedResponses::message_at))]
fn message_of<A: Allocator + Copy>(
    alloc: A,
    bytes: &[u8],
) -> Result<Option<(Message<A>, &[u8])>, NoMemory>
    ensures { IfOk result (λ read. option_map (λ x. (x.0, x.1.now)) read ≡ message_at bytes.now) }
{
    let Some((client, number, payload, rest)) = content_of(bytes) else {
        return Ok(None);
    };
    let message = Message::copy_of(alloc, client, number, payload)?;
    Ok(Some((message, rest)))
}

#[tactic(auto, unfolding(crate::specs::internal::ParsedResponses::message_at))]
fn content_of(bytes: &[u8]) -> Option<(ClientId, u32, &[u8], &[u8])>
    ensures read { option_map
        (λ x. (record { client = x.0; number = x.1; payload = x.2.now }, x.3.now)) result
        ≡ message_at bytes.now }
    ensures limits { IfSome result (λ x. (0 < x.1) × (length x.2.now ≤ MAX_PAYLOAD)) }
{
    let (client, rest) = u16_at(bytes)?;
    let (number, rest) = u32_at(rest)?;
    let (size, rest) = u16_at(rest)?;
    let client = ClientId::new(client)?;
    let size = size as usize;
    if number == 0 || MAX_PAYLOAD < size || rest.len() < size {
        return None;
    }
    let (payload, rest) = rest.split_at(size);
    Some((client, number, payload, rest))
}

#[tactic(auto, unfolding(crate::specs::internal::ParsedResponses::entry_at))]
fn entry_of<A: Allocator + Copy>(
    alloc: A,
    bytes: &[u8],
) -> Result<Option<((Name, Message<A>), &[u8])>, NoMemory>
    ensures { IfOk result (λ read. option_map (λ x. (x.0, x.1.now)) read ≡ entry_at bytes.now) }
{
    let Some((name, rest)) = name_of(bytes) else {
        return Ok(None);
    };
    let Some((message, rest)) = message_of(alloc, rest)? else {
        return Ok(None);
    };
    Ok(Some(((name, message), rest)))
}

fn list_of<A: Allocator + Copy>(
    alloc: A,
    count: u8,
    bytes: &[u8],
) -> Result<Option<(Vec<(Name, Message<A>), A>, &[u8])>, NoMemory>
    ensures read { IfOk result
        (λ read. option_map (λ x. (x.0.items, x.1.now)) read ≡ entries_at count bytes.now) }
    ensures count { IfOk result (λ read. IfSome read (λ x. length x.0.items ≡ count)) }
{
    let mut entries = Vec::new(alloc);
    let mut rest = bytes;
    for _ in 0..count {
        let Some((entry, after)) = entry_of(alloc, rest)? else {
            return Ok(None);
        };
        entries.push(entry)?;
        rest = after;
    }
    Ok(Some((entries, rest)))
}

#[tactic(auto, unfolding(crate::specs::internal::ParsedResponses::entries_of))]
fn page_of<A: Allocator + Copy>(alloc: A, fields: &[u8]) -> Result<Option<Response<A>>, NoMemory>
    requires { length fields.now < LONGEST_FRAME }
    ensures { IfOk result (λ read. option_map said_by read ≡ entries_of fields.now) }
{
    let Some((count, rest)) = u8_at(fields) else {
        return Ok(None);
    };
    if MOST_ENTRIES < count as usize {
        return Ok(None);
    }
    let Some((entries, rest)) = list_of(alloc, count, rest)? else {
        return Ok(None);
    };
    if !rest.is_empty() {
        return Ok(None);
    }
    Ok(Some(Response::Entries(Entries::of(entries))))
}

fn state_of(byte: u8) -> Option<NodeState>
    ensures { result ≡ state_of byte }
{
    match byte {
        0 => Some(NodeState::Down),
        1 => Some(NodeState::Ready),
        2 => Some(NodeState::Storing),
        _ => None,
    }
}

#[tactic(auto, unfolding(crate::specs::internal::ParsedResponses::accepted_of))]
fn accepted_of<A: Allocator>(fields: &[u8]) -> Option<Response<A>>
    ensures { option_map said_by result ≡ accepted_of fields.now }
{
    let (seq, rest) = u32_at(fields)?;
    require_end(Response::Accepted(seq), rest)
}

#[tactic(auto, unfolding(crate::specs::internal::ParsedResponses::status_of))]
fn status_of<A: Allocator>(fields: &[u8]) -> Option<Response<A>>
    ensures { option_map said_by result ≡ status_of fields.now }
{
    let (byte, rest) = u8_at(fields)?;
    let state = state_of(byte)?;
    let (own, rest) = u32_at(rest)?;
    let (logged, rest) = u32_at(rest)?;
    require_end(Response::Status { state, own, logged }, rest)
}

#[tactic(auto, unfolding(crate::specs::internal::ParsedResponses::refused_of))]
fn refused_of<A: Allocator>(fields: &[u8]) -> Option<Response<A>>
    ensures { option_map said_by result ≡ refused_of fields.now }
{
    let (number, rest) = u8_at(fields)?;
    let (detail, rest) = u32_at(rest)?;
    require_end(Response::Refused { number, detail }, rest)
}

fn require_end<A: Allocator>(response: Response<A>, left: &[u8]) -> Option<Response<A>>
    ensures { option_map said_by result ≡ at_end (said_by response) left.now }
{
    if !left.is_empty() {
        return None;
    }
    Some(response)
}

fn response_of<A: Allocator + Copy>(alloc: A, bytes: &[u8]) -> Result<Option<Response<A>>, NoMemory>
    requires { length bytes.now ≤ LONGEST_FRAME }
    ensures read { IfOk result (λ read. option_map said_by read ≡ said_of bytes.now) }
    ensures memory { OnErr result (IsListing bytes.now) }
{
    match bytes {
        [SAY_ACCEPTED, fields @ ..] => Ok(accepted_of(fields)),
        [SAY_ENTRIES, fields @ ..] => page_of(alloc, fields),
        [SAY_STATUS, fields @ ..] => Ok(status_of(fields)),
        [SAY_DONE, fields @ ..] => Ok(require_end(Response::Done, fields)),
        [SAY_REFUSED, fields @ ..] => Ok(refused_of(fields)),
        _ => Ok(None),
    }
}

/// Parses the bytes of a frame after its length, and returns the response that they encode. `None`:
/// they encode no response. If these bytes were sent to a client, that means that the other side
/// isn't a node of this kind.
pub fn parse_response<A: Allocator + Copy>(
    alloc: A,
    bytes: &[u8],
) -> Result<Option<Response<A>>, NoMemory>
    // If a response is returned, the bytes are exactly its encoding.
    ensures found { IfOk result (λ read. IfSome read (λ response.
        IsSaid (said_by response) × (bytes.now ≡ response_body (said_by response)))) }
    // The encoding of a response is always read as that response. So the result is `None` exactly
    // if the bytes encode no response.
    ensures only { IfOk result (λ read. (said : Said)
        → IsSaid said
        → bytes.now ≡ response_body said
        → option_map said_by read ≡ Some said) }
    // Only entries allocate memory.
    ensures memory { OnErr result (IsListing bytes.now) }
{
    if LONGEST_FRAME < bytes.len() {
        return Ok(None);
    }
    response_of(alloc, bytes)
}
