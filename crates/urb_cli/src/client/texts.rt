//! The messages that `publish` takes from the command line, or from the lines of an input.

ghost use Rattle.std.specs.Prelude.{◌≡◌, ◌++◌, ◌∷◌, [], ℕ, List, IfOk, None, OnOk, Some};
ghost use Rattle.std.specs.Prelude.{option_map};
ghost use Rattle.urb_cli.specs.Publishing.{Gives, HasEnded, TakesLine};

use crate::client::stream_fault::TextFault;
use std::io::Read;
use urb_client::read_byte;
use urb_names::{MAX_PAYLOAD, NoMemory};

/// Gives texts, one after the other.
pub trait Texts {
    /// In the first state it may give this text. Then it is in the second state.
    ghost gives: { Self → List ℕ → Self → Type 0 };

    /// In the first state it may have no text left. Then it is in the second state.
    ghost ends: { Self → Self → Type 0 };

    /// Puts the next text into `text`. `false`: there is none left. A text may be longer than a
    /// message may be, by one byte.
    fn next_text(&mut self, text: &mut Vec<u8>) -> Result<bool, TextFault>
        ensures { IfOk result (Gives gives ends self.old text.new.items self.new) };
}

/// One text, or none.
#[derive(Drop)]
pub struct OneText<'a> {
    text: Option<&'a str>,
}

impl<'a> OneText<'a> {
    /// This text and no other.
    pub fn new(text: &'a str) -> OneText<'a>
        ensures { result.text ≡ Some text.entry }
    {
        OneText { text: Some(text) }
    }
}

// Writes a text.
fn push_text(text: &mut Vec<u8>, given: &str) -> Result<(), NoMemory>
    ensures { OnOk result (text.new.items ≡ text.old.items ++ given.now) }
{
    text.extend_from_slice(given.as_bytes())?;
    Ok(())
}

impl Texts for OneText<'_> {
    ghost gives = { λ old text new. (option_map (λ s. s.now) old.text ≡ Some text) × (new.text ≡ None) };

    ghost ends = { λ old new. (old.text ≡ None) × (new.text ≡ None) };

    fn next_text(&mut self, text: &mut Vec<u8>) -> Result<bool, TextFault> {
        text.clear();
        match self.text.take() {
            Some(given) => {
                push_text(text, given)?;
                Ok(true)
            }
            None => Ok(false),
        }
    }
}

/// The lines of an input, each ended by LF. The last line may lack it.
#[derive(Drop)]
pub struct InputLines<I: Read + Drop> {
    input: I,
}

impl<I: Read + Drop> InputLines<I> {
    /// The lines of this input.
    pub fn new(input: I) -> InputLines<I>
        ensures { result.input ≡ input }
    {
        InputLines { input }
    }
}

// Adds a byte to a line.
fn push_byte(line: &mut Vec<u8>, byte: u8) -> Result<(), NoMemory>
    ensures { OnOk result (line.new.items ≡ line.old.items ++ byte ∷ []) }
{
    line.push(byte)?;
    Ok(())
}

// Reads a line into `line`: at most one byte more than a message may have. `false`: the input has
// ended.
fn read_line<R: Read>(reader: &mut R, line: &mut Vec<u8>) -> Result<bool, TextFault>
    ensures { IfOk result (Gives TakesLine HasEnded (R.remaining reader.old)
        line.new.items (R.remaining reader.new)) }
{
    line.clear();
    for _ in 0..MAX_PAYLOAD + 1 {
        match read_byte(reader)? {
            None => return Ok(!line.is_empty()),
            Some(b'\n') => return Ok(true),
            Some(byte) => push_byte(line, byte)?,
        }
    }
    Ok(true)
}

impl<I: Read + Drop> Texts for InputLines<I> {
    ghost gives = { λ old line new. TakesLine (I.remaining old.input) line (I.remaining new.input) };

    ghost ends = { λ old new. HasEnded (I.remaining old.input) (I.remaining new.input) };

    fn next_text(&mut self, text: &mut Vec<u8>) -> Result<bool, TextFault> {
        read_line(&mut self.input, text)
    }
}
