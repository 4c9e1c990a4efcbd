//! The program over a terminal of the tests' own: command lines, scripts, and outputs that fail.

mod clients;
mod doors;
mod lines;
mod scripts;
mod serving;
mod stream_lines;
mod streams;

use std::alloc::Global;
use urb_cli::{replay, report_script_end};
use urb_options::{Errand, Line, parse_line, read_words};
use urb_terminal::{Shown, Terminal};

/// The status of a command line that asks for a network. No terminal has one.
const WANTS_A_NETWORK: u8 = 9;

/// The program, except for the parts that need a network.
fn program(terminal: &Terminal<'_>) -> u8 {
    let words = match read_words(terminal) {
        Ok(words) => words,
        Err(status) => return status,
    };
    match parse_line(terminal, terminal.alloc(), words.as_slice()) {
        Ok(Line::Errand(Errand::Replay)) => report_script_end(terminal, replay(terminal)),
        Ok(_) => WANTS_A_NETWORK,
        Err(status) => status,
    }
}

/// Runs the program on this command line.
fn shown_by(alloc: Global, words: &[&[u8]], input: &[u8], open: bool) -> Shown {
    let terminal = Terminal::new(alloc, words, input, open);
    let status = program(&terminal);
    terminal.into_shown(status)
}
