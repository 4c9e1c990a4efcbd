//! Receives a response at a client's end of a connection.

ghost use Rattle.std.specs.Prelude.{◌≡◌, ◌≢◌, ◌<◌, ◌^◌, IfOk, IfErr, IfSome, IfNone, Err, length};
ghost use Rattle.std.specs.Io.KnownBytes.{Consumes};
ghost use Rattle.urb_client.specs.Responses.{frame, encoding, said_by};
ghost use Rattle.urb_client.specs.MissingResponses.{HasNoResponse};
ghost use Rattle.urb_client.specs.internal.MissingFrames.{HasNoFrame};

use crate::full_read::{ReadFailed, read_full};
use crate::sessions::length_of;
use crate::{Response, parse_response};
use std::alloc::Allocator;
use std::io::Read;
use thiserror::Error;
use urb_names::NoMemory;

/// Why there is no response: the reader failed, memory was refused, or what came is no response.
/// The first two have their witnesses, so a body that met no such failure can't return them.
#[derive(Clone, Copy, Debug, PartialEq, Eq, Error)]
pub enum ResponseFault {
    #[error("read failed")]
    Read(ReadFailed),
    #[error("no memory")]
    NoMemory(NoMemory),
    #[error("bad reply")]
    NoResponse,
}

impl From<NoMemory> for ResponseFault {
    ghost use Rattle.std.specs.Prelude.{◌≡◌};
    ghost use Rattle.urb_client.specs.declared.response_receiver.ResponseFault.TheVariants.{NoMemory as no_memory};

    ghost from_gives = { λ refused e. e ≡ no_memory refused };

    fn from(refused: NoMemory) -> ResponseFault {
        ResponseFault::NoMemory(refused)
    }
}

impl From<ReadFailed> for ResponseFault {
    ghost use Rattle.std.specs.Prelude.{◌≡◌};
    ghost use Rattle.urb_client.specs.declared.response_receiver.ResponseFault.TheVariants.{Read as read};

    ghost from_gives = { λ failed e. e ≡ read failed };

    fn from(failed: ReadFailed) -> ResponseFault {
        ResponseFault::Read(failed)
    }
}

// Returns a buffer of `len` bytes, all 0.
fn make_room<A: Allocator>(alloc: A, len: usize) -> Result<Vec<u8, A>, NoMemory>
    ensures { IfOk result (λ room. length room.items ≡ len) }
{
    Ok(vec![in alloc; 0u8; len]?)
}

// Reads the bytes of one frame after its length. `None` if no whole frame comes, or an empty one.
fn read_body<A: Allocator, R: Read>(
    alloc: A,
    reader: &mut R,
) -> Result<Option<Vec<u8, A>>, ResponseFault>
    ensures whole { IfOk result (λ body. IfSome body
        (λ v. Consumes (R.remaining reader.old) (R.remaining reader.new) (frame v.items))) }
    ensures short { IfOk result (λ body. IfSome body (λ v. length v.items < 2 ^ 16)) }
    ensures none { IfOk result (λ body. IfNone body (IfSome (R.remaining reader.old) HasNoFrame)) }
    ensures err { IfErr result (λ fault. fault ≢ ResponseFault.NoResponse) }
{
    let mut length = [0u8; 2];
    let got = read_full(reader, &mut length)?;
    if got < 2 {
        return Ok(None);
    }
    let len = length_of(&length) as usize;
    if len == 0 {
        return Ok(None);
    }
    let mut body = make_room(alloc, len)?;
    let got = read_full(reader, body.as_mut_slice())?;
    if got < len {
        return Ok(None);
    }
    Ok(Some(body))
}

/// Reads one response from the front of a reader, for a client that has sent its request.
///
/// `Read`: the reader failed. `NoMemory`: memory was refused; the response may have come, so the
/// request may have been done. `NoResponse`: what came is no response, or ended before it was
/// whole.
pub fn read_response<A: Allocator + Copy, R: Read>(
    alloc: A,
    reader: &mut R,
) -> Result<Response<A>, ResponseFault>
    // What is read is the whole frame of this response, and no byte after it.
    ensures read { IfOk result (λ response.
        Consumes (R.remaining reader.old) (R.remaining reader.new) (encoding (said_by response))) }
    // The result says that there is no response only if what the reader had doesn't begin with one.
    ensures none { result ≡ Err ResponseFault.NoResponse
        → IfSome (R.remaining reader.old) HasNoResponse }
{
    let Some(body) = read_body(alloc, reader)? else {
        return Err(ResponseFault::NoResponse);
    };
    match parse_response(alloc, body.as_slice())? {
        Some(response) => Ok(response),
        None => Err(ResponseFault::NoResponse),
    }
}
