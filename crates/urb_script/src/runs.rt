//! Runs of scripts.

ghost use Rattle.std.specs.Prelude.{◌≡◌, [], Some, None, IfOk, IfErr, OnOk, IfSome, IsSomeAnd, ◌⊎◌};
ghost use Rattle.std.specs.Io.KnownBytes.{Appends};
ghost use Rattle.urb_script.specs.Commands.{Group, InRange};
ghost use Rattle.urb_script.specs.internal.CommandLines.{command};
ghost use Rattle.urb_world.specs.Scenes.{Scene};
ghost use Rattle.urb_script.specs.Steps.{IsLater, Takes};
ghost use Rattle.urb_script.specs.LogLines.{LogsAgree, LogsAreSafe};
ghost use Rattle.urb_script.specs.Scripts.{WholeScript, BreaksOff, StaysSafe, HasOneOutcome};
ghost use Rattle.urb_script.specs.Scripts.{bad_line};
ghost use Rattle.urb_script.specs.internal.LineAnswers.{AnsweredFrom, OpensWith, TakesFrom};

use crate::commands::{CommandLine, parse_command};
use crate::input::{InputFailed, LineRead, TOO_LONG, read_line};
use crate::mem_cluster::MemCluster;
use std::alloc::{AllocError, Allocator};
use std::io::{Read, Write};
use thiserror::Error;
use urb_names::{Config, NoMemory};

/// Room for every answer line except those of `log` and `tick`. So a `stored` line allocates memory
/// for its record only.
const ANSWER_ROOM: usize = 128;

/// How a script ended.
#[derive(Clone, Copy, Debug, PartialEq, Eq)]
pub enum RunEnd {
    /// Each line was a command, and is answered.
    Whole,
    /// The line with this number, from 1, is no command that may come there. The lines before it
    /// are answered.
    BadLine(u64),
}

/// Why a run broke off before the end of its script.
#[derive(Clone, Copy, Debug, PartialEq, Eq, Error)]
pub enum RunFault {
    /// The reader failed, or has more lines than can be counted. The lines that were read whole are
    /// answered.
    #[error("read failed")]
    Read,
    /// The writer failed. It isn't known how much of the last answer went out.
    #[error("write failed")]
    Write,
    /// A growth was refused. All lines before the one that needed it are answered.
    #[error("no memory")]
    NoMemory,
}

impl From<InputFailed> for RunFault {
    ghost use Rattle.std.specs.Prelude.{◌≡◌};
    ghost use Rattle.urb_script.specs.declared.runs.RunFault.TheVariants.{Read as read};

    ghost from_gives = { λ _ e. e ≡ read };

    fn from(_: InputFailed) -> RunFault {
        RunFault::Read
    }
}

impl From<NoMemory> for RunFault {
    ghost use Rattle.std.specs.Prelude.{◌≡◌};
    ghost use Rattle.urb_script.specs.declared.runs.RunFault.TheVariants.{NoMemory as no_memory};

    ghost from_gives = { λ _ e. e ≡ no_memory };

    fn from(_: NoMemory) -> RunFault {
        RunFault::NoMemory
    }
}

impl From<AllocError> for RunFault {
    ghost use Rattle.std.specs.Prelude.{◌≡◌};
    ghost use Rattle.urb_script.specs.declared.runs.RunFault.TheVariants.{NoMemory as no_memory};

    ghost from_gives = { λ _ e. e ≡ no_memory };

    fn from(_: AllocError) -> RunFault {
        RunFault::NoMemory
    }
}

/// What a script runs over.
pub trait Play<A: Allocator>: Drop {
    // The scenes that it shows.
    ghost shows: { Self → Scene → Type 0 };

    // What it keeps from line to line.
    ghost keeps: { Self → Type 0 };

    /// Makes the group, and writes the answer.
    fn open(alloc: A, config: Config, text: &mut Vec<u8, A>) -> Result<Self, NoMemory>
    where
        Self: Sized,
        requires { text.old.items ≡ [] }
        ensures shown { IfOk result (λ new. OpensWith shows config text.new.items new) }
        ensures kept { IfOk result (λ new. keeps new) };

    /// Does one command, writes the answer, and returns the next state.
    fn play(self, found: CommandLine<'_>, text: &mut Vec<u8, A>) -> Result<Self, NoMemory>
    where
        Self: Sized,
        requires fresh { text.old.items ≡ [] }
        requires later { IsLater (command found) }
        requires range { InRange (command found) }
        requires kept { keeps self }
        ensures shown { IfOk result
            (λ new. TakesFrom shows self (command found.entry) text.new.items new) }
        ensures kept { IfOk result (λ new. keeps new) };
}

// Answers a line, and returns the next state. `None` if the line is no command that may come now.
fn answer_line<A: Allocator, P: Play<A>>(
    alloc: A,
    state: Option<P>,
    line: &[u8],
    text: &mut Vec<u8, A>,
) -> Result<Option<P>, NoMemory>
    requires { IfSome state (λ it. P.keeps it) }
    ensures answered { IfOk result
        (λ next. AnsweredFrom P.shows state line.now text.new.items next) }
    ensures kept { IfOk result (λ next. IfSome next (λ it. P.keeps it)) }
{
    text.clear();
    let Some(found) = parse_command(line) else {
        return Ok(None);
    };
    match found {
        CommandLine::Group(config) => match state {
            None => Ok(Some(P::open(alloc, config, text)?)),
            Some(_) => Ok(None),
        },
        found => match state {
            None => Ok(None),
            Some(state) => Ok(Some(state.play(found, text)?)),
        },
    }
}

// Writes bytes, and flushes them so that they are seen at once.
fn write_and_flush<W: Write>(writer: &mut W, bytes: &[u8]) -> Result<(), RunFault>
    ensures ok { OnOk result (Appends (W.contents writer.old) (W.contents writer.new) bytes.now) }
    ensures err { IfErr result (λ fault. fault ≡ RunFault.Write) }
{
    writer.write_all(bytes).map_err(|_| RunFault::Write)?;
    writer.flush().map_err(|_| RunFault::Write)
}

// Writes that a line is no command. Without memory it writes nothing.
fn write_bad_line<A: Allocator, W: Write>(
    writer: &mut W,
    text: &mut Vec<u8, A>,
    number: u64,
) -> Result<(), RunFault>
    ensures ok { OnOk result
        (Appends (W.contents writer.old) (W.contents writer.new) (bad_line number)) }
    ensures err { IfErr result (λ fault.
        (fault ≡ RunFault.Write) ⊎ ((fault ≡ RunFault.NoMemory) × (writer.new ≡ writer.old))) }
{
    text.clear();
    writeln!(text, "bad line {number}").map_err(|_| RunFault::NoMemory)?;
    write_and_flush(writer, text.as_slice())
}

// Runs the script that the reader has, over the state that its first line makes.
fn run_lines<A: Allocator + Copy, P: Play<A>, R: Read, W: Write>(
    alloc: A,
    reader: &mut R,
    writer: &mut W,
) -> Result<RunEnd, RunFault>
    ensures whole { IfOk result (λ ended. IfSome (R.remaining reader.old) (λ input.
        IsSomeAnd (R.remaining reader.new) (λ unread. WholeScript Takes input ended unread
        (W.contents writer.old) (W.contents writer.new)))) }
    ensures broken_off { IfErr result (λ fault. IfSome (R.remaining reader.old) (λ input.
        IsSomeAnd (R.remaining reader.new) (λ unread.
        BreaksOff fault input unread (W.contents writer.old) (W.contents writer.new)))) }
{
    let mut line = Vec::with_capacity(alloc, TOO_LONG)?;
    let mut text = Vec::with_capacity(alloc, ANSWER_ROOM)?;
    let mut state: Option<P> = None;
    for before in 0..u64::MAX {
        let number = before + 1;
        match read_line(reader, &mut line)? {
            LineRead::Whole => {}
            LineRead::End => {
                if state.is_some() {
                    return Ok(RunEnd::Whole);
                }
                write_bad_line(writer, &mut text, number)?;
                return Ok(RunEnd::BadLine(number));
            }
            LineRead::Long => {
                write_bad_line(writer, &mut text, number)?;
                return Ok(RunEnd::BadLine(number));
            }
        }
        let Some(next) = answer_line(alloc, state, line.as_slice(), &mut text)? else {
            write_bad_line(writer, &mut text, number)?;
            return Ok(RunEnd::BadLine(number));
        };
        text.extend_from_slice(b"\n")?;
        write_and_flush(writer, text.as_slice())?;
        state = Some(next);
    }
    Err(RunFault::Read)
}

/// Runs the script that the reader has, line by line, over a new cluster whose stores are in
/// memory. Each answer line is written and flushed before the next line is read. The run keeps the
/// messages of the script and one line in memory. After a fault it reads and writes no further
/// byte. After 18,446,744,073,709,551,615 lines it ends with `Read`.
pub fn run<A: Allocator + Copy, R: Read, W: Write>(
    alloc: A,
    reader: &mut R,
    writer: &mut W,
) -> Result<RunEnd, RunFault>
    // What was written is the answers to all lines that the reader held. If a line is bad, it is
    // the answers to the lines before the first bad line, and that line's own answer. Nothing was
    // read after that line.
    ensures whole { IfOk result (λ ended. IfSome (R.remaining reader.old) (λ input.
        IsSomeAnd (R.remaining reader.new) (λ unread. WholeScript Takes input ended unread
        (W.contents writer.old) (W.contents writer.new)))) }
    // After a refused allocation or a failed read, the earlier lines are answered, and nothing else
    // is written. After a failed write they are answered too, and the clause doesn't say what was
    // written. At most one line was read after them.
    ensures broken_off { IfErr result (λ fault. IfSome (R.remaining reader.old) (λ input.
        IsSomeAnd (R.remaining reader.new) (λ unread.
        BreaksOff fault input unread (W.contents writer.old) (W.contents writer.new)))) }
    // In every world that answered lines lead to, each log has, for each sender, the first messages
    // that its storage took, in order and once. A majority's storages hold each of them.
    ensures safe { StaysSafe }
    // The same holds for every log that a `log` line shows. For each sender, what one of two `log`
    // lines shows is a prefix of what the other shows. The lines may show any nodes, and any lines
    // may be between them.
    ensures shown { LogsAreSafe }
    ensures agree { LogsAgree }
    // If no store is refused memory, everything that the reader held determines the end, and what
    // was written.
    ensures one { HasOneOutcome }
{
    run_lines::<A, MemCluster<A>, R, W>(alloc, reader, writer)
}
