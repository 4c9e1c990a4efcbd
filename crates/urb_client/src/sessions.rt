//! Sessions: frames in, frames out.

ghost use Rattle.std.specs.Prelude.{◌≡◌, IfOk, IfErr, OnOk, OnErr, IfSome, IsSomeAnd, length};
ghost use Rattle.std.specs.Io.KnownBytes.{Appends};
ghost use Rattle.byteorder.specs.Endian.{big_bytes};
ghost use Rattle.urb_client.specs.Requests.{Asked, IsAsked, asked_by, request_of};
ghost use Rattle.urb_client.specs.Responses.{Said, said_by, encoding};
ghost use Rattle.urb_client.specs.internal.SessionPieces.{ReadsPiece, PartRead, Answers, GoesUnanswered};
ghost use Rattle.urb_client.specs.internal.SessionPieces.{GoesUnwritten};
ghost use Rattle.urb_client.specs.Sessions.{WholeSession, BreaksOff, IsReadOnce};

use crate::format::{BAD_LENGTH, CUT, LONGEST_REQUEST};
use crate::frame_write::{WriteFailed, write_frame};
use crate::full_read::{ReadFailed, read_full};
use crate::{Request, Response, encode_response, parse_request};
use byteorder::{BigEndian, ByteOrder};
use std::alloc::Allocator;
use std::io::{Read, Write};
use std::marker::Model;
use thiserror::Error;
use urb_names::{NoMemory, Refusal};

/// How a session ended: the client closed it between two frames, or what came was no frame.
#[derive(Clone, Copy, Debug, PartialEq, Eq)]
pub enum Ended {
    Closed,
    BadFrame,
}

/// The most frames of one session.
pub const MOST_FRAMES: u64 = u64::MAX;

/// Why a session broke off: the reader failed, the writer failed, memory was refused, or it has
/// answered `MOST_FRAMES` frames. The first three have the witness of their cause.
#[derive(Clone, Copy, Debug, PartialEq, Eq, Error)]
pub enum SessionFault {
    #[error("read failed")]
    Read(ReadFailed),
    #[error("write failed")]
    Write(WriteFailed),
    #[error("no memory")]
    NoMemory(NoMemory),
    #[error("too many frames")]
    TooMany,
}

impl From<NoMemory> for SessionFault {
    ghost use Rattle.std.specs.Prelude.{◌≡◌};
    ghost use Rattle.urb_client.specs.declared.sessions.SessionFault.TheVariants.{NoMemory as no_memory};

    ghost from_gives = { λ refused e. e ≡ no_memory refused };

    fn from(refused: NoMemory) -> SessionFault {
        SessionFault::NoMemory(refused)
    }
}

impl From<ReadFailed> for SessionFault {
    ghost use Rattle.std.specs.Prelude.{◌≡◌};
    ghost use Rattle.urb_client.specs.declared.sessions.SessionFault.TheVariants.{Read as read};

    ghost from_gives = { λ failed e. e ≡ read failed };

    fn from(failed: ReadFailed) -> SessionFault {
        SessionFault::Read(failed)
    }
}

impl From<WriteFailed> for SessionFault {
    ghost use Rattle.std.specs.Prelude.{◌≡◌};
    ghost use Rattle.urb_client.specs.declared.sessions.SessionFault.TheVariants.{Write as write};

    ghost from_gives = { λ failed e. e ≡ write failed };

    fn from(failed: WriteFailed) -> SessionFault {
        SessionFault::Write(failed)
    }
}

/// The witness that a session ran to its end, and how it ended. Only `serve_session` makes one.
#[derive(Drop)]
pub struct SessionEnd {
    how: Result<Ended, SessionFault>,
}

impl Model for SessionEnd {
    ghost use Rattle.std.specs.Prelude.{Result};
    ghost use Rattle.urb_client.specs.declared.sessions.Ended.{Ended};
    ghost use Rattle.urb_client.specs.declared.sessions.SessionFault.{SessionFault};

    ghost Value = { Result Ended SessionFault };

    ghost view = { λ end. end.how };
}

impl SessionEnd {
    /// How the session ended.
    pub fn how(&self) -> Result<Ended, SessionFault>
        ensures { result ≡ self.now }
    {
        self.how
    }
}

/// What answers the requests of a session.
pub trait Desk {
    /// The allocator of payloads and entries.
    type Alloc: Allocator + Copy;

    /// In the first state the desk may give a request this answer. Then it is in the second state.
    ghost answers: { Self → Asked → Said → Self → Type 0 };

    /// If memory is refused for a request in the first state, the desk may be in the second state
    /// afterwards.
    ghost refuses: { Self → Asked → Self → Type 0 };

    /// Answers one request. The request's values are in range, except that its payload may be too
    /// long for a message, and its number may be 0. `NoMemory` ends the session: the desk is asked
    /// nothing more in that session, and the next session may get the same desk.
    fn answer(&mut self, request: &Request<Self::Alloc>) -> Result<Response<Self::Alloc>, NoMemory>
        requires { IsAsked (asked_by request.now) }
        ensures answered { IfOk result
            (λ response. answers self.old (asked_by request.now) (said_by response) self.new) }
        ensures refused { OnErr result (refuses self.old (asked_by request.now) self.new) };
}

// The front of the input.
pub enum Piece {
    // Nothing.
    End,
    // No whole frame, with the code of the fault.
    Broken(u8),
    // A frame, with the number of bytes after its length.
    Whole(usize),
}

/// Returns the number in the two bytes of a length.
pub fn length_of(bytes: &[u8]) -> u16
    requires { length bytes.now ≡ 2 }
    ensures { bytes.now ≡ big_bytes 2 result }
{
    BigEndian::read_u16(bytes)
}

// Reads one frame into `body`.
fn read_frame<R: Read>(reader: &mut R, body: &mut [u8]) -> Result<Piece, ReadFailed>
    requires { length body.old ≡ LONGEST_REQUEST }
    ensures piece { IfOk result
        (λ piece. ReadsPiece (R.remaining reader.old) (R.remaining reader.new) body.new piece) }
    ensures err { OnErr result (PartRead (R.remaining reader.old) (R.remaining reader.new)) }
{
    let mut length = [0u8; 2];
    let got = read_full(reader, &mut length)?;
    if got == 0 {
        return Ok(Piece::End);
    }
    if got == 1 {
        return Ok(Piece::Broken(CUT));
    }
    let len = length_of(&length) as usize;
    if len == 0 {
        return Ok(Piece::Broken(BAD_LENGTH));
    }
    if LONGEST_REQUEST < len {
        return Ok(Piece::Broken(BAD_LENGTH));
    }
    let got = read_full(reader, &mut body[..len])?;
    if got < len {
        return Ok(Piece::Broken(CUT));
    }
    Ok(Piece::Whole(len))
}

// Writes the frame of a response.
fn write_response<A: Allocator + Copy, W: Write>(
    alloc: A,
    writer: &mut W,
    response: &Response<A>,
) -> Result<(), SessionFault>
    ensures ok { OnOk result (Appends (W.contents writer.old) (W.contents writer.new)
        (encoding (said_by response.now))) }
    ensures err { IfErr result (λ fault. GoesUnwritten fault writer.old writer.new) }
{
    let frame = encode_response(alloc, response)?;
    write_frame(writer, frame.as_slice())?;
    Ok(())
}

// Returns the answer to the bytes of a whole frame.
fn respond<D: Desk>(
    alloc: D::Alloc,
    desk: &mut D,
    body: &[u8],
) -> Result<Response<D::Alloc>, NoMemory>
    ensures answered { IfOk result
        (λ response. Answers D.answers desk.old (request_of body.now) (said_by response) desk.new) }
    ensures refused { OnErr result
        (GoesUnanswered D.refuses desk.old (request_of body.now) desk.new) }
{
    match parse_request(alloc, body) {
        Ok(request) => desk.answer(&request),
        Err(refusal) => match refusal.as_no_memory() {
            Some(refused) => Err(refused),
            None => Ok(Response::refused(&refusal)),
        },
    }
}

// Answers the frames of a client until the input ends, or is no frame.
fn answer_frames<R: Read, W: Write, D: Desk>(
    alloc: D::Alloc,
    reader: &mut R,
    writer: &mut W,
    desk: &mut D,
) -> Result<Ended, SessionFault>
    ensures ended { IfOk result (λ ended. IfSome (R.remaining reader.old) (λ input.
        IsSomeAnd (R.remaining reader.new) (λ left. WholeSession D.answers input ended left
        desk.old desk.new (W.contents writer.old) (W.contents writer.new)))) }
    ensures broken_off { IfErr result (λ fault. IfSome (R.remaining reader.old) (λ input.
        IsSomeAnd (R.remaining reader.new) (λ left. BreaksOff D.answers D.refuses input fault left
        desk.old desk.new (W.contents writer.old) (W.contents writer.new)))) }
{
    let mut body = [0u8; LONGEST_REQUEST];
    for _ in 0..MOST_FRAMES {
        match read_frame(reader, &mut body)? {
            Piece::End => return Ok(Ended::Closed),
            Piece::Broken(code) => {
                let refused = Response::refused(&Refusal::Frame(code));
                write_response(alloc, writer, &refused)?;
                return Ok(Ended::BadFrame);
            }
            Piece::Whole(len) => {
                let response = respond(alloc, desk, &body[..len])?;
                write_response(alloc, writer, &response)?;
            }
        }
    }
    Err(SessionFault::TooMany)
}

/// Answers the requests of a client until the input ends, or is no frame. It flushes each response.
/// After `MOST_FRAMES` frames it ends with `TooMany`. After a fault it reads and writes no further
/// byte. The result is a witness, for a caller that has to show that the session ran to its end.
pub fn serve_session<R: Read, W: Write, D: Desk>(
    alloc: D::Alloc,
    reader: &mut R,
    writer: &mut W,
    desk: &mut D,
) -> SessionEnd
    // All that the reader held is read as these requests and faults, and they are answered in
    // order.
    ensures ended { IfOk result (λ ended. IfSome (R.remaining reader.old) (λ input.
        IsSomeAnd (R.remaining reader.new) (λ left. WholeSession D.answers input ended left
        desk.old desk.new (W.contents writer.old) (W.contents writer.new)))) }
    // The frames that were read whole are answered, except perhaps the last one. The desk is as
    // that one leaves it. `TooMany` says that `MOST_FRAMES` frames are answered.
    ensures broken_off { IfErr result (λ fault. IfSome (R.remaining reader.old) (λ input.
        IsSomeAnd (R.remaining reader.new) (λ left. BreaksOff D.answers D.refuses input fault left
        desk.old desk.new (W.contents writer.old) (W.contents writer.new)))) }
{
    SessionEnd {
        how: answer_frames(alloc, reader, writer, desk),
    }
}

/// Does the same, and returns how the session ended.
pub fn session<R: Read, W: Write, D: Desk>(
    alloc: D::Alloc,
    reader: &mut R,
    writer: &mut W,
    desk: &mut D,
) -> Result<Ended, SessionFault>
    // All that the reader held is read as these requests and faults, and they are answered in
    // order.
    ensures ended { IfOk result (λ ended. IfSome (R.remaining reader.old) (λ input.
        IsSomeAnd (R.remaining reader.new) (λ left. WholeSession D.answers input ended left
        desk.old desk.new (W.contents writer.old) (W.contents writer.new)))) }
    // The frames that were read whole are answered, except perhaps the last one. The desk is as
    // that one leaves it. `TooMany` says that `MOST_FRAMES` frames are answered.
    ensures broken_off { IfErr result (λ fault. IfSome (R.remaining reader.old) (λ input.
        IsSomeAnd (R.remaining reader.new) (λ left. BreaksOff D.answers D.refuses input fault left
        desk.old desk.new (W.contents writer.old) (W.contents writer.new)))) }
{
    serve_session(alloc, reader, writer, desk).how()
}

/// States that an input is read in only one way. This call does nothing: it is for proofs only.
pub fn one_reading()
    ensures { IsReadOnce }
{}
