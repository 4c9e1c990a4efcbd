//! Standard input, which tells a person at a terminal how to end it.

ghost use Rattle.std.specs.Prelude.{◌≡◌, false};

use std::io;
use std::io::{IsTerminal, Read};

/// An input that a run reads to its end. If it is a terminal, it says once how to end it, and at its
/// end what the run still waits for. Otherwise it says nothing.
#[derive(Drop)]
pub struct PromptedInput<'a, I: Read + IsTerminal + Drop, E: Eprint> {
    input: I,
    errors: &'a E,
    is_told: bool,
}

impl<'a, I: Read + IsTerminal + Drop, E: Eprint> PromptedInput<'a, I, E> {
    /// This input. It says what it says to this output.
    pub fn new(input: I, errors: &'a E) -> PromptedInput<'a, I, E>
        ensures { result.is_told ≡ false }
    {
        PromptedInput {
            input,
            errors,
            is_told: false,
        }
    }

    // Says this, if the input is a terminal. A line that can't be written is lost.
    fn tell(&self, line: &str) {
        if self.input.is_terminal() {
            let _ = eprintln!(self.errors; "urbd: {line}");
        }
    }
}

impl<'a, I: Read + IsTerminal + Drop, E: Eprint> Read for PromptedInput<'a, I, E> {
    fn read(&mut self, buf: &mut [u8]) -> io::Result<usize> {
        if !self.is_told {
            self.is_told = true;
            self.tell("press Ctrl-D to stop");
        }
        let count = self.input.read(buf)?;
        if count == 0 {
            self.tell("stopping: the sessions of clients end");
        }
        Ok(count)
    }
}
