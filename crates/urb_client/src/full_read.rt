//! One read that fills a buffer, as far as the input goes.

ghost use Rattle.std.specs.Prelude.{◌≡◌, ◌<◌, ◌≤◌, take, length, IfOk, IfSome, IsErr, IsNone};
ghost use Rattle.std.specs.Prelude.{None, Ok, OnErr, option_to_list};
ghost use Rattle.std.specs.Io.KnownBytes.{Consumes, IsAtEnd, Keeps};
ghost use Rattle.urb_client.specs.internal.SessionPieces.{ReadsUnder};

use std::io;
use std::io::{ErrorKind, Read};

/// The witness that a read failed. Its field is private, and only the error of a read makes one. So
/// a session that has seen no such error can't end with it.
#[derive(Clone, Copy, Debug, PartialEq, Eq)]
pub struct ReadFailed {
    failed: (),
}

// The number of bytes that a read gave, or `None` if a signal interrupted it.
fn after_read(came: io::Result<usize>) -> Result<Option<usize>, ReadFailed>
    ensures bytes { IfOk result (λ read. IfSome read (λ n. came ≡ Ok n)) }
    ensures interrupted { IfOk result (λ read. IsNone read → IsErr came) }
    // It says that the reader failed only if the read did.
    ensures failed { OnErr result (IsErr came) }
{
    match came {
        Ok(n) => Ok(Some(n)),
        Err(error) if error.kind() == ErrorKind::Interrupted => Ok(None),
        Err(_) => Err(ReadFailed { failed: () }),
    }
}

// The number of bytes that a read gave. It isn't tried again.
fn after_last_read(came: io::Result<usize>) -> Result<usize, ReadFailed>
    ensures bytes { IfOk result (λ n. came ≡ Ok n) }
    ensures failed { OnErr result (IsErr came) }
{
    match came {
        Ok(n) => Ok(n),
        Err(_) => Err(ReadFailed { failed: () }),
    }
}

// Reads once. A read that a signal interrupts is tried again.
fn read_some<R: Read>(reader: &mut R, buffer: &mut [u8]) -> Result<usize, ReadFailed>
    requires { 0 < length buffer.old }
    ensures bound { IfOk result (λ n. n ≤ length buffer.new) }
    ensures bytes { IfOk result
        (λ n. Consumes (R.remaining reader.old) (R.remaining reader.new) (take n buffer.new)) }
    ensures end { IfOk result (λ n. n ≡ 0 → IsAtEnd (R.remaining reader.new)) }
    ensures err { OnErr result (Keeps (R.remaining reader.old) (R.remaining reader.new)) }
{
    for _ in 0..u64::MAX {
        if let Some(n) = after_read(reader.read(buffer))? {
            return Ok(n);
        }
    }
    after_last_read(reader.read(buffer))
}

/// Fills the buffer as far as the input goes, and returns how many bytes it read. A read that a
/// signal interrupts is tried again.
pub fn read_full<R: Read>(reader: &mut R, buffer: &mut [u8]) -> Result<usize, ReadFailed>
    requires { 0 < length buffer.old }
    ensures bound { IfOk result (λ n. n ≤ length buffer.old) }
    ensures bytes { IfOk result
        (λ n. Consumes (R.remaining reader.old) (R.remaining reader.new) (take n buffer.new)) }
    ensures end { IfOk result (λ n. n < length buffer.old → IsAtEnd (R.remaining reader.new)) }
    ensures err { OnErr result
        (ReadsUnder (length buffer.old) (R.remaining reader.old) (R.remaining reader.new)) }
{
    let mut filled = 0;
    while filled < buffer.len() {
        let n = read_some(reader, &mut buffer[filled..])?;
        if n == 0 {
            return Ok(filled);
        }
        filled += n;
    }
    Ok(filled)
}

/// Reads the next byte, or returns `None` at the end. A read that a signal interrupts is tried
/// again.
pub fn read_byte<R: Read>(reader: &mut R) -> Result<Option<u8>, ReadFailed>
    ensures bytes { IfOk result
        (λ next. Consumes (R.remaining reader.old) (R.remaining reader.new) (option_to_list next)) }
    ensures end { IfOk result (λ next. next ≡ None → IsAtEnd (R.remaining reader.new)) }
{
    let mut byte = [0u8; 1];
    if read_full(reader, &mut byte)? == 0 {
        return Ok(None);
    }
    Ok(Some(byte[0]))
}
