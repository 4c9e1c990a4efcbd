//! Requests of clients, and their frames.

ghost use Rattle.std.specs.Prelude.{◌≡◌, ◌<◌, [], ◌∷◌, IfOk, IfSome, Ok, Some};
ghost use Rattle.urb_client.specs.Requests.{Asked, Gives, IsAsked, IsShort, request_of, asked_by};
ghost use Rattle.urb_client.specs.Requests.{submit_fields, read_fields, wait_fields, request_body};
ghost use Rattle.urb_client.specs.Requests.{control_fields, control_of, opcode_of};
ghost use Rattle.urb_client.specs.Responses.{frame};
ghost use Rattle.urb_client.specs.Sessions.{Begins, Asks};

use crate::format::{
    ASK_CRASH, ASK_READ, ASK_RESTART, ASK_STATUS, ASK_SUBMIT, ASK_WAIT, BAD_VALUE, MOST_ENTRIES,
    READ_FIELDS, SUBMIT_HEAD, UNKNOWN_OPCODE, WAIT_FIELDS, WRONG_LENGTH,
};
use byteorder::{BigEndian, ByteOrder};
use std::alloc::{Allocator, Global};
use urb_names::{ClientId, NoMemory, Payload, Refusal};

/// A request without fields, about the node itself. Its frame is an opcode alone.
#[derive(Clone, Copy, Debug, PartialEq, Eq)]
pub enum Control {
    /// Show the node's state.
    Status,
    /// Stop the node, as if it crashed.
    Crash,
    /// Start the node again from its storage.
    Restart,
}

impl Control {
    // Returns the request that has this opcode, if any has.
    fn of(opcode: u8) -> Option<Control>
        ensures exact { result ≡ control_of opcode }
        ensures found { IfSome result (λ control. opcode ≡ opcode_of control) }
        ensures only { (control : _) → opcode ≡ opcode_of control → result ≡ Some control }
    {
        match opcode {
            ASK_STATUS => Some(Control::Status),
            ASK_CRASH => Some(Control::Crash),
            ASK_RESTART => Some(Control::Restart),
            _ => None,
        }
    }

    // Returns its opcode.
    fn opcode(self) -> u8
        ensures exact { result ≡ opcode_of self }
        ensures back { control_of result ≡ Some self }
    {
        match self {
            Control::Status => ASK_STATUS,
            Control::Crash => ASK_CRASH,
            Control::Restart => ASK_RESTART,
        }
    }
}

/// A request of a client to a node.
#[derive(Drop)]
#[derive_where(Debug)]
pub enum Request<A: Allocator = Global> {
    /// Broadcast this payload, under the number that the client gave it.
    Submit {
        client: ClientId,
        number: u32,
        payload: Payload<A>,
    },
    /// Show the entries of the node's log from `place` on (from 1), at most `max` of them (1 to
    /// `MOST_ENTRIES`).
    Read {
        place: u32,
        max: u8,
    },
    /// Show the same as a `Read`. If the log has no entry there yet, wait for one, at most `millis`
    /// milliseconds.
    Wait {
        place: u32,
        max: u8,
        millis: u16,
    },
    /// Show the node's state, stop the node, or start it again.
    Ask(Control),
}

/// Parses the bytes of a frame after its length, and returns the request that they encode.
///
/// `Refusal::Frame` has the code of the first fault. 2: an unknown opcode, or no bytes at all. 3: a
/// length that the opcode doesn't have. 4: a value outside its range. `Refusal::NoMemory` comes
/// only if there was no memory for a submit's payload. A payload of any length and a number 0 are
/// passed on, for the node to refuse.
pub fn parse_request<A: Allocator + Copy>(alloc: A, bytes: &[u8]) -> Result<Request<A>, Refusal>
    // The result is the request that the bytes encode, or their first fault.
    ensures exact { Gives asked_by result (request_of bytes.now) }
    // If a request is returned, the bytes are exactly its encoding.
    ensures found { IfOk result
        (λ request. IsAsked (asked_by request) × (bytes.now ≡ request_body (asked_by request))) }
    // The encoding of a request is always read as that request.
    ensures only { (asked : Asked)
        → IsAsked asked
        → bytes.now ≡ request_body asked
        → Gives asked_by result (Ok asked) }
{
    parse_by_opcode(alloc, bytes)
}

fn parse_by_opcode<A: Allocator + Copy>(alloc: A, bytes: &[u8]) -> Result<Request<A>, Refusal>
    ensures { Gives asked_by result (request_of bytes.now) }
{
    match bytes {
        [ASK_SUBMIT, fields @ ..] => submit_of(alloc, fields),
        [ASK_READ, fields @ ..] => read_of(fields),
        [ASK_WAIT, fields @ ..] => wait_of(fields),
        [opcode, fields @ ..] => control_without_fields(*opcode, fields),
        [] => Err(Refusal::Frame(UNKNOWN_OPCODE)),
    }
}

fn submit_of<A: Allocator + Copy>(alloc: A, fields: &[u8]) -> Result<Request<A>, Refusal>
    ensures { Gives asked_by result (submit_fields fields.now) }
{
    if fields.len() < SUBMIT_HEAD {
        return Err(Refusal::Frame(WRONG_LENGTH));
    }
    let Some(client) = ClientId::new(BigEndian::read_u16(fields)) else {
        return Err(Refusal::Frame(BAD_VALUE));
    };
    let (_, rest) = fields.split_at(2);
    let number = BigEndian::read_u32(rest);
    let (_, payload) = rest.split_at(4);
    Ok(Request::Submit {
        client,
        number,
        payload: Payload::copied(alloc, payload)?,
    })
}

fn read_of<A: Allocator>(fields: &[u8]) -> Result<Request<A>, Refusal>
    ensures { Gives asked_by result (read_fields fields.now) }
{
    if fields.len() != READ_FIELDS {
        return Err(Refusal::Frame(WRONG_LENGTH));
    }
    let place = BigEndian::read_u32(fields);
    if place == 0 {
        return Err(Refusal::Frame(BAD_VALUE));
    }
    let max = fields[4];
    if max == 0 || MOST_ENTRIES < max as usize {
        return Err(Refusal::Frame(BAD_VALUE));
    }
    Ok(Request::Read { place, max })
}

fn wait_of<A: Allocator>(fields: &[u8]) -> Result<Request<A>, Refusal>
    ensures { Gives asked_by result (wait_fields fields.now) }
{
    if fields.len() != WAIT_FIELDS {
        return Err(Refusal::Frame(WRONG_LENGTH));
    }
    let place = BigEndian::read_u32(fields);
    if place == 0 {
        return Err(Refusal::Frame(BAD_VALUE));
    }
    let max = fields[4];
    if max == 0 || max as usize > MOST_ENTRIES {
        return Err(Refusal::Frame(BAD_VALUE));
    }
    let (_, time) = fields.split_at(5);
    let millis = BigEndian::read_u16(time);
    Ok(Request::Wait { place, max, millis })
}

fn control_without_fields<A: Allocator>(opcode: u8, fields: &[u8]) -> Result<Request<A>, Refusal>
    ensures { Gives asked_by result (control_fields opcode fields.now) }
{
    let Some(control) = Control::of(opcode) else {
        return Err(Refusal::Frame(UNKNOWN_OPCODE));
    };
    if !fields.is_empty() {
        return Err(Refusal::Frame(WRONG_LENGTH));
    }
    Ok(Request::Ask(control))
}

/// Returns the whole frame of a request, for a client to send. The request's place must be 1 or
/// more, its `max` 1 to `MOST_ENTRIES`, and its payload at most `MAX_PAYLOAD` bytes long.
pub fn encode_request<A: Allocator>(alloc: A, request: &Request<A>) -> Result<Vec<u8, A>, NoMemory>
    requires values { IsAsked (asked_by request.now) }
    requires short { IsShort (asked_by request.now) }
    ensures bytes { IfOk result (λ v. v.items ≡ frame (request_body (asked_by request.now))) }
    // A session that reads these bytes reads this one request, and nothing after it.
    ensures reads { IfOk result (λ v. Begins v.items (Asks (asked_by request.now) ∷ []) []) }
{
    build_frame(alloc, request)
}

fn build_frame<A: Allocator>(alloc: A, request: &Request<A>) -> Result<Vec<u8, A>, NoMemory>
    requires values { IsAsked (asked_by request.now) }
    requires short { IsShort (asked_by request.now) }
    ensures { IfOk result (λ v. v.items ≡ frame (request_body (asked_by request.now))) }
{
    let mut frame = Vec::new(alloc);
    match request {
        Request::Submit {
            client,
            number,
            payload,
        } => {
            let payload = payload.as_slice();
            let mut head = [0, 0, ASK_SUBMIT, 0, 0, 0, 0, 0, 0];
            BigEndian::write_u16(&mut head, (1 + SUBMIT_HEAD + payload.len()) as u16);
            BigEndian::write_u16(&mut head[3..], client.number());
            BigEndian::write_u32(&mut head[5..], *number);
            frame.extend_from_slice(&head)?;
            frame.extend_from_slice(payload)?;
        }
        Request::Read { place, max } => {
            let mut head = [0, 1 + READ_FIELDS as u8, ASK_READ, 0, 0, 0, 0, *max];
            BigEndian::write_u32(&mut head[3..], *place);
            frame.extend_from_slice(&head)?;
        }
        Request::Wait { place, max, millis } => {
            let mut head = [0, 1 + WAIT_FIELDS as u8, ASK_WAIT, 0, 0, 0, 0, *max, 0, 0];
            BigEndian::write_u32(&mut head[3..], *place);
            BigEndian::write_u16(&mut head[8..], *millis);
            frame.extend_from_slice(&head)?;
        }
        Request::Ask(control) => frame.extend_from_slice(&[0, 1, control.opcode()])?,
    }
    Ok(frame)
}
