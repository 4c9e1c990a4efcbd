//! Writing a whole frame.

ghost use Rattle.std.specs.Prelude.{IsErr, IsOk, OnErr, OnOk};
ghost use Rattle.std.specs.Io.KnownBytes.{Appends};

use std::io;
use std::io::Write;

/// The witness that a write or a flush failed. Its field is private, and only the error of a write
/// or a flush makes one.
#[derive(Clone, Copy, Debug, PartialEq, Eq)]
pub struct WriteFailed {
    failed: (),
}

// The result of a write or a flush, with a witness if it failed.
fn after_write(came: io::Result<()>) -> Result<(), WriteFailed>
    ensures done { OnOk result (IsOk came) }
    // It says that the writer failed only if the write did.
    ensures failed { OnErr result (IsErr came) }
{
    match came {
        Ok(()) => Ok(()),
        Err(_) => Err(WriteFailed { failed: () }),
    }
}

/// Writes a whole frame.
pub fn write_frame<W: Write>(writer: &mut W, frame: &[u8]) -> Result<(), WriteFailed>
    ensures { OnOk result (Appends (W.contents writer.old) (W.contents writer.new) frame.now) }
{
    after_write(writer.write_all(frame))?;
    after_write(writer.flush())
}
