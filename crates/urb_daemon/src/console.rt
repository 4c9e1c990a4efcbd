//! The console of a run. It says that the group is open, and waits until its input ends.

ghost use Rattle.std.specs.Prelude.{◌≡◌, OnOk, false};
ghost use Rattle.std.specs.Io.KnownBytes.{Appends};
ghost use Rattle.urb_daemon.specs.internal.Openings.{open_line};

use std::io;
use std::io::{ErrorKind, Read, Write};
use urb_link::Station;
use urb_worker::Watch;

/// Says once that the group runs, and watches until the input ends. If it can't say so, it doesn't
/// wait.
#[derive(Drop)]
pub struct Console<'a, W: Write, I: Read> {
    output: &'a mut W,
    input: &'a mut I,
    is_told: bool,
}

// Writes the line of a group that runs with so many nodes.
fn write_open<W: Write>(output: &mut W, nodes: usize) -> io::Result<()>
    ensures { OnOk result (Appends (W.contents output.old) (W.contents output.new) (open_line nodes)) }
{
    write!(output, "open {nodes}\n")?;
    output.flush()
}

impl<'a, W: Write, I: Read> Console<'a, W, I> {
    /// A console that writes to this output and reads this input. It has said nothing yet.
    pub fn new(output: &'a mut W, input: &'a mut I) -> Console<'a, W, I>
        ensures { result.is_told ≡ false }
    {
        Console {
            output,
            input,
            is_told: false,
        }
    }

    /// Whether it has said that the group runs.
    pub fn is_told(&self) -> bool
        ensures { result ≡ self.now.is_told }
    {
        self.is_told
    }
}

impl<'a, W: Write, I: Read> Watch for Console<'a, W, I> {
    fn watch(&mut self, stations: &[Station]) {
        self.is_told = write_open(self.output, stations.len()).is_ok();
        if self.is_told {
            read_to_end(self.input);
        }
    }
}

// Reads an input to its end. A read that fails is an end too, unless it was only interrupted.
fn read_to_end<I: Read>(input: &mut I) {
    let mut buffer = [0u8; 256];
    for _ in 0..u64::MAX {
        match input.read(&mut buffer) {
            Ok(0) => return,
            Ok(_) => {}
            Err(error) if error.kind() == ErrorKind::Interrupted => {}
            Err(_) => return,
        }
    }
}
