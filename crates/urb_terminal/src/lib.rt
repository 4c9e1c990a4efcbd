//! A terminal in memory, for tests.
//!
//! It gives a program its arguments and its input, and keeps the program's output.
//!
//! ```text
//! let words = [b"urbd".as_slice(), b"replay"];
//! let terminal = Terminal::new(alloc, words.as_slice(), b"group 1 1\n", true);
//! let status = program(&terminal);                       // it is the program's runtime
//! let shown = terminal.into_shown(status);
//! assert!(shown.is(0, b"group 1 1\n", b"", b""));
//! ```
//!
//! No program uses it.
#![tactic(auto)]

ghost use Rattle.std.specs.Prelude.{◌≡◌, ◌≤◌, IsTrue, length};

use std::alloc::{Allocator, Global};
use std::cell::RefCell;
use std::env::{Env, FillError};
use std::fmt::Display;
use std::io;
use std::io::{BufRead, ErrorKind, Lines, Write};

/// The arguments and the input of a run, and its output.
#[derive(Drop)]
pub struct Terminal<'a> {
    alloc: Global,
    words: &'a [&'a [u8]],
    input: &'a [u8],
    /// Whether writes to standard output succeed.
    open: bool,
    output: RefCell<Vec<u8>>,
    errors: RefCell<Vec<u8>>,
}

impl<'a> Terminal<'a> {
    /// A terminal with these arguments and this input. If `open`, writes to its standard output
    /// succeed; otherwise they fail. No contract can name what its cells hold.
    pub fn new(alloc: Global, words: &'a [&'a [u8]], input: &'a [u8], open: bool) -> Terminal<'a>
        ensures words { result.words ≡ words.entry }
        ensures input { result.input ≡ input.entry }
        ensures output { result.«open» ≡ «open» }
    {
        Terminal {
            alloc,
            words,
            input,
            open,
            output: RefCell::new(Vec::new(alloc)),
            errors: RefCell::new(Vec::new(alloc)),
        }
    }

    /// The output of a run that ended with this status.
    pub fn into_shown(self, status: u8) -> Shown
        ensures { result.status ≡ status }
    {
        Shown {
            status,
            output: self.output.into_inner(),
            errors: self.errors.into_inner(),
        }
    }
}

fn failed() -> io::Error {
    io::Error::from(ErrorKind::Other)
}

/// Appends the text of a value.
fn show<D: Display + Drop>(shown: &RefCell<Vec<u8>>, value: D, end: &str) -> io::Result<()> {
    let Ok(mut text) = shown.try_borrow_mut() else {
        return Err(failed());
    };
    match write!(*text, "{value}{end}") {
        Ok(()) => Ok(()),
        Err(_) => Err(failed()),
    }
}

impl Print for Terminal<'_> {
    fn print<D: Display + Drop>(&self, value: D) -> io::Result<()> {
        if !self.open {
            return Err(failed());
        }
        show(&self.output, value, "")
    }

    fn println<D: Display + Drop>(&self, value: D) -> io::Result<()> {
        if !self.open {
            return Err(failed());
        }
        show(&self.output, value, "\n")
    }

    fn write_all(&self, bytes: &[u8]) -> io::Result<()> {
        if !self.open {
            return Err(failed());
        }
        match self.output.try_borrow_mut() {
            Ok(mut text) => text.extend_from_slice(bytes).or(Err(failed())),
            Err(_) => Err(failed()),
        }
    }
}

impl Eprint for Terminal<'_> {
    fn eprint<D: Display + Drop>(&self, value: D) -> io::Result<()> {
        show(&self.errors, value, "")
    }

    fn eprintln<D: Display + Drop>(&self, value: D) -> io::Result<()> {
        show(&self.errors, value, "\n")
    }
}

impl Alloc for Terminal<'_> {
    type A = Global;

    fn alloc(&self) -> Global {
        self.alloc
    }
}

impl Env for Terminal<'_> {
    fn arg(&self, i: usize, buf: &mut [u8]) -> Result<usize, FillError> {
        let Some(word) = self.words.get(i) else {
            return Err(FillError::NotPresent);
        };
        if buf.len() < word.len() {
            return Err(FillError::TooLong);
        }
        buf[..word.len()].copy_from_slice(word);
        Ok(word.len())
    }

    fn var(&self, _name: &str, _buf: &mut [u8]) -> Result<usize, FillError> {
        Err(FillError::NotPresent)
    }

    fn var_at(&self, _i: usize, _buf: &mut [u8]) -> Result<usize, FillError> {
        Err(FillError::NotPresent)
    }
}

impl<'a> Input for Terminal<'a> {
    type Reader = &'a [u8];

    fn read_line<A: Allocator + Clone>(&self, buf: &mut String<A>) -> io::Result<usize> {
        let mut reader = self.input;
        reader.read_line(buf)
    }

    fn lines<A: Allocator>(&self, alloc: A) -> Lines<&'a [u8], A> {
        self.input.lines(alloc)
    }

    fn reader(&self) -> &'a [u8] {
        self.input
    }
}

/// The output of a run of the program, and its status.
#[derive(Drop)]
pub struct Shown {
    /// The status that it ended with.
    pub status: u8,
    /// What was written to standard output.
    pub output: Vec<u8>,
    /// What was written to standard error.
    pub errors: Vec<u8>,
}

impl Shown {
    /// Whether a run ended with this status and wrote exactly this to standard output, and its
    /// errors begin and end with these texts.
    pub fn is(&self, status: u8, output: &[u8], begins: &[u8], ends: &[u8]) -> bool
        ensures status { IsTrue result → self.now.status ≡ status }
        ensures output { IsTrue result → self.now.output.items ≡ output.now }
        ensures errors { IsTrue result → (length begins.now ≤ length self.now.errors.items)
            × (length ends.now ≤ length self.now.errors.items) }
    {
        let errors = self.errors.as_slice();
        self.status == status
            && self.output.as_slice() == output
            && errors.starts_with(begins)
            && errors.ends_with(ends)
    }
}
