//! Reading one whole line at a time from a reader.

ghost use Rattle.std.specs.Prelude.{◌≡◌, ◌<◌, ◌≤◌, IfOk, None, option_to_list};
ghost use Rattle.std.specs.Prelude.{vec_capacity, OnOk, OnErr};
ghost use Rattle.std.specs.Io.KnownBytes.{Consumes, IsAtEnd, Keeps};
ghost use Rattle.urb_script.specs.Lines.{IsOneLine, IsPlain};
ghost use Rattle.urb_script.specs.internal.LineReads.{ReadsLine, TookPart};

use std::alloc::Allocator;
use std::io::{ErrorKind, Read};
use urb_names::{MAX_PACKET, MAX_PAYLOAD};

/// The reader failed.
#[derive(Clone, Copy)]
pub struct InputFailed;

/// The longest line, in bytes, without its LF: two hexadecimal digits for each byte of the longest
/// payload, and as much again.
pub const LONGEST_LINE: usize = 4 * MAX_PAYLOAD;

// The number of bytes of a line before the digits of a packet: `raw`, a digit, and two spaces.
const RAW_HEAD: usize = 6;

// A line has room for the longest packet.
const _: () = prove!(RAW_HEAD + 2 * MAX_PACKET <= LONGEST_LINE);

/// One more byte than a line may have.
pub const TOO_LONG: usize = LONGEST_LINE + 1;

/// The result of reading a line.
pub enum LineRead {
    /// The input has ended.
    End,
    /// A line.
    Whole,
    /// The front of a line that is too long.
    Long,
}

// Returns the next byte, or `None` at the end. A read that a signal interrupts is tried again.
fn read_byte<R: Read>(reader: &mut R) -> Result<Option<u8>, InputFailed>
    ensures bytes { IfOk result
        (λ next. Consumes (R.remaining reader.old) (R.remaining reader.new) (option_to_list next)) }
    ensures end { IfOk result (λ next. next ≡ None → IsAtEnd (R.remaining reader.new)) }
    ensures err { OnErr result (Keeps (R.remaining reader.old) (R.remaining reader.new)) }
{
    let mut byte = [0u8; 1];
    for _ in 0..u64::MAX {
        match reader.read(&mut byte) {
            Ok(0) => return Ok(None),
            Ok(_) => return Ok(Some(byte[0])),
            Err(error) => {
                if error.kind() != ErrorKind::Interrupted {
                    return Err(InputFailed);
                }
            }
        }
    }
    Err(InputFailed)
}

/// Reads a line into `line`, which has room for it. Reads nothing of the line after it.
pub fn read_line<R: Read, A: Allocator>(
    reader: &mut R,
    line: &mut Vec<u8, A>,
) -> Result<LineRead, InputFailed>
    requires { TOO_LONG ≤ vec_capacity line.old }
    ensures line { IfOk result
        (λ read. ReadsLine (R.remaining reader.old) (R.remaining reader.new) line.new.items read) }
    ensures took { OnOk result
        (TookPart IsOneLine (R.remaining reader.old) (R.remaining reader.new)) }
    ensures err { OnErr result
        (TookPart IsPlain (R.remaining reader.old) (R.remaining reader.new)) }
    ensures room { vec_capacity line.new ≡ vec_capacity line.old }
{
    line.clear();
    for _ in 0..TOO_LONG {
        match read_byte(reader)? {
            None => {
                return if line.is_empty() {
                    Ok(LineRead::End)
                } else {
                    Ok(LineRead::Whole)
                };
            }
            Some(byte) => {
                if byte == b'\n' {
                    return Ok(LineRead::Whole);
                }
                line.push_reserved(byte);
            }
        }
    }
    Ok(LineRead::Long)
}
