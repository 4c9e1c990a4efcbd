//! One call over a connection: a request and its response.

ghost use Rattle.std.specs.Prelude.{◌≡◌, Err, IfOk, IfErr, IfSome};
ghost use Rattle.std.specs.Io.KnownBytes.{Appends, Consumes};
ghost use Rattle.urb_client.specs.Requests.{IsAsked, IsShort, asked_by, request_body};
ghost use Rattle.urb_client.specs.Responses.{encoding, frame, said_by};
ghost use Rattle.urb_client.specs.MissingResponses.{HasNoResponse};
ghost use Rattle.urb_cli.specs.CallFaults.{IsUnconnected};

use crate::client::call_fault::CallFault;
use std::alloc::Global;
use std::io::{Read, Write};
use urb_client::{Request, Response, encode_request, read_response, write_frame};

/// Sends a request over a connection, and reads its response. Each fault but `BadReply` has the
/// witness of its cause. `BadReply`: what came is no response.
pub fn exchange<R: Read, W: Write>(
    alloc: Global,
    reader: &mut R,
    writer: &mut W,
    request: &Request,
) -> Result<Response, CallFault>
    requires values { IsAsked (asked_by request.now) }
    requires short { IsShort (asked_by request.now) }
    // The frame of this request is sent, and nothing else.
    ensures sent { IfOk result (λ response. Appends (W.contents writer.old) (W.contents writer.new)
        (frame (request_body (asked_by request.now)))) }
    ensures read { IfOk result (λ response.
        Consumes (R.remaining reader.old) (R.remaining reader.new) (encoding (said_by response))) }
    ensures bad { result ≡ Err CallFault.BadReply → IfSome (R.remaining reader.old) HasNoResponse }
    ensures connected { IfErr result (λ fault. ¬ (IsUnconnected fault)) }
{
    let frame = encode_request(alloc, request)?;
    write_frame(writer, frame.as_slice())?;
    Ok(read_response(alloc, reader)?)
}
