//! Reads the words of the command line: what they ask for, or the status of a line that is refused.

ghost use Rattle.std.specs.Prelude.{◌≡◌, ◌⊎◌, [], Some, map, IfOk, IfErr, OnOk};
ghost use Rattle.clap.specs.Words.{kind_of, subcommand_of};
ghost use Rattle.urb_options.specs.CommandLine.{urbd_app, faults_of, IsToldBy};
ghost use Rattle.urb_options.specs.Tasks.{IsRefused, task_named, task_of};

use crate::faults::{Fault, report_fault};
use crate::grammar::make_command_line;
use crate::task::Line;
use crate::values::read_matches;
use clap::Error;
use clap::error::ErrorKind;
use std::alloc::Global;
use std::convert::AsStr;
use std::rt::Env;
use std::{env, io};

/// The status of a command line that isn't the program's.
const BAD_COMMAND_LINE: u8 = 3;

// Prints the parser's text, and returns the status.
fn report_parser_error<R: Print + Eprint>(rt: &R, error: &Error) -> u8
    ensures { IsToldBy (kind_of error.now) result }
{
    match error.kind() {
        ErrorKind::OutOfMemory => report_fault(rt, Fault::NoMemory),
        ErrorKind::DisplayHelp | ErrorKind::DisplayVersion => match error.print(rt) {
            Ok(()) => 0,
            Err(_) => report_fault(rt, Fault::Write),
        },
        _ => {
            let _ = error.print(rt);
            BAD_COMMAND_LINE
        }
    }
}

// What a line lacks that the parser accepts, and that asks for nothing.
const UNFIT: &str =
    "give --port or --socket, or give --base-port and --nodes; a format is text, hex or \
json; --no-tcp and --socket-mode need --socket-dir; a mode is octal, as 660";

// What is said of a word that isn't UTF-8.
const NOT_TEXT: &str = "invalid UTF-8 was detected in one or more arguments";

// Prints a mistake in the parser's form, and returns the status.
fn report_mistake<R: Print + Eprint>(rt: &R, alloc: Global, message: &str) -> u8
    ensures { (result ≡ 1) ⊎ (result ≡ 3) }
{
    let Ok(mut command) = make_command_line(alloc) else {
        return report_fault(rt, Fault::NoMemory);
    };
    match command.error(ErrorKind::ValueValidation, message) {
        Ok(error) => report_parser_error(rt, &error),
        Err(_) => report_fault(rt, Fault::NoMemory),
    }
}

/// Reads a command line. Its first word is the program's name. If the line isn't the program's,
/// this prints the parser's text and returns the status. Help or the version that was asked for
/// goes to standard output, with status 0. A mistake goes to standard error, with status 3.
///
/// Two faults are reported with status 1: memory is refused (`no memory`), or help can't be written
/// (`write failed`).
pub fn parse_line<'a, S: AsStr, R: Print + Eprint>(
    rt: &R,
    alloc: Global,
    words: &'a [S],
) -> Result<Line<'a>, u8>
    // A line is accepted only if the parser finds no fault in it.
    ensures taken { OnOk result (faults_of (map S.text words.entry.now) ≡ []) }
    // The line asks for the subcommand that the words name. The values of its options are in their
    // ranges.
    ensures asked { IfOk result (λ line.
        task_named (subcommand_of urbd_app (map S.text words.entry.now)) ≡ Some (task_of line)) }
    // The status of a refused line is that of its first fault, or of refused memory. If its options
    // don't fit together, it is 3.
    ensures refused { IfErr result (IsRefused (map S.text words.entry.now)) }
{
    let Ok(command) = make_command_line(alloc) else {
        return Err(report_fault(rt, Fault::NoMemory));
    };
    match command.try_get_matches_from(words) {
        Ok(matches) => match read_matches(&matches) {
            Some(line) => Ok(line),
            None => Err(report_mistake(rt, alloc, UNFIT)),
        },
        Err(error) => Err(report_parser_error(rt, &error)),
    }
}

/// The words of the command line. If they can't be read, this says so on standard error and returns
/// the status: 3 if one of them is not UTF-8, else 1.
pub fn read_words<R: Env + AllocGlobal + Print + Eprint>(rt: &R) -> Result<Vec<String>, u8>
    ensures { IfErr result (λ status. (status ≡ 1) ⊎ (status ≡ 3)) }
{
    let args = match env::args(rt) {
        Ok(args) => args,
        Err(error) => {
            return Err(match error.kind() {
                io::ErrorKind::OutOfMemory => report_fault(rt, Fault::NoMemory),
                io::ErrorKind::InvalidData => report_mistake(rt, rt.alloc(), NOT_TEXT),
                _ => report_fault(rt, Fault::Read),
            });
        }
    };
    match args.collect::<Vec<String>>(rt.alloc()) {
        Ok(words) => Ok(words),
        Err(_) => Err(report_fault(rt, Fault::NoMemory)),
    }
}
