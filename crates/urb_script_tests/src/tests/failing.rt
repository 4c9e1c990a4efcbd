//! Scripts in which memory is refused, or the reader or the writer fails.

use super::{SHORT, SHORT_ANSWERS, spell_outcome};
use crate::scripts::{
    FORGOTTEN, HALF, LONG_PAYLOADS, MAJORITY, ONE_NODE, REOPENED, RESENT, Rows, TOLD, answers_of,
    script_of,
};
use std::alloc::Global;
use std::test::Fail;
use urb_refusing::{FailingReader, FailingWriter, Refusing};
use urb_script::*;

/// Says whether a text is whole lines and a prefix of the other.
fn begins_lines(text: &[u8], whole: &[u8]) -> bool {
    whole.starts_with(text) && (text.is_empty() || text.ends_with(b"\n"))
}

/// Returns the number of the first line, from 0, that is not the same.
fn first_other(text: &[u8], whole: &[u8]) -> usize {
    let mut line: usize = 0;
    for (byte, other) in text.iter().zip(whole) {
        if *byte != *other {
            break;
        }
        if *byte == b'\n' {
            line = line.saturating_add(1);
        }
    }
    line
}

/// Returns the line with this number, from 0.
fn line_at(text: &[u8], number: usize) -> Option<&[u8]> {
    text.split(|byte| *byte == b'\n').nth(number)
}

/// Says whether the line is to store a record, and the answer says that the record's node is down.
fn is_failed_store(line: Option<&[u8]>, answer: Option<&[u8]>) -> bool {
    match (line, answer) {
        (
            Some([b's', b't', b'o', b'r', b'e', b'd', b' ', node]),
            Some([b'd', b'o', b'w', b'n', b' ', down]),
        ) => { *node == *down }
        _ => false,
    }
}

/// The messages of a worked script, and more, as a log shows them.
const MESSAGES: &[u8] =
    b" 1.1=a 1.2=a 1.3=a 1.4=a 1.5=a 1.6=a 1.7=a 1.8=a 1.9=a 1.10=a 1.11=a 1.12=a 1.13=a 1.14=a \
1.15=a 1.16=a 1.17=a";

/// Says whether a line that shows a log shows the first of these messages, and nothing else.
fn shows_a_beginning(line: &[u8], messages: &[u8]) -> bool {
    match line {
        [b'l', b'o', b'g', b' ', _, b':', entries @ ..] => match messages.strip_prefix(entries) {
            Some(others) => others.is_empty() || others.starts_with(b" "),
            None => false,
        },
        _ => true,
    }
}

/// The permitted results of a run in which one allocation (growth) was refused.
#[derive(Clone, Copy, PartialEq, Eq, Debug)]
enum Outcome {
    /// The run ended there. What it wrote are whole answers, and a prefix of all answers.
    Ended,
    /// A store failed that would have succeeded, and each log is a prefix of the full one.
    Failed,
    /// The run was answered as without the refusal.
    Same,
}

/// Returns which of the three results it is, if it is one of them.
fn outcome_of(
    ended: &Result<RunEnd, RunFault>,
    script: &[u8],
    written: &[u8],
    answers: &[u8],
    messages: &[u8],
) -> Option<Outcome> {
    match ended {
        Err(RunFault::NoMemory) if begins_lines(written, answers) => Some(Outcome::Ended),
        Ok(RunEnd::Whole) if written == answers => Some(Outcome::Same),
        Ok(RunEnd::Whole) => {
            let at = first_other(written, answers);
            if !is_failed_store(line_at(script, at), line_at(written, at)) {
                return None;
            }
            let mut lines = written.split(|byte| *byte == b'\n');
            if !lines.all(|line| shows_a_beginning(line, messages)) {
                return None;
            }
            Some(Outcome::Failed)
        }
        _ => None,
    }
}

/// The result of a run, how many growths it asked for, and whether the refused one was among them.
#[derive(Clone, Copy)]
struct Ran {
    outcome: Option<Outcome>,
    asked: u64,
    met: bool,
}

/// Runs a script with this growth refused.
fn run_refused(alloc: Global, refused: u64, script: &[u8], answers: &[u8], messages: &[u8]) -> Ran {
    let heap = Refusing::new(alloc, refused);
    let mut room = [0u8; 20_000];
    let mut writer = FailingWriter::new(&mut room, 700, 0);
    let mut input = script;
    let ended = run(&heap, &mut input, &mut writer);
    let outcome = outcome_of(&ended, script, writer.written(), answers, messages);
    Ran {
        outcome,
        asked: heap.growths(),
        met: heap.has_failed(),
    }
}

/// Runs with each growth refused in turn, until a run meets no refusal. Returns how many runs ended
/// early, and in how many a store failed. `None` if a run had another result than these three.
fn counts(alloc: Global, script: &[u8], answers: &[u8], messages: &[u8]) -> Option<(u64, u64)> {
    let mut ended: u64 = 0;
    let mut failed: u64 = 0;
    for refused in 1..2000u64 {
        let ran = run_refused(alloc, refused, script, answers, messages);
        match (ran.met, ran.outcome) {
            (true, Some(Outcome::Ended)) if ran.asked == refused => ended = ended.saturating_add(1),
            (true, Some(Outcome::Failed)) => failed = failed.saturating_add(1),
            (true, Some(Outcome::Same)) => {}
            (false, Some(Outcome::Same)) if ran.asked == refused.saturating_sub(1) => {
                return Some((ended, failed));
            }
            _ => return None,
        }
    }
    None
}

/// Does the same with the script of these rows.
fn spell_run(alloc: Global, rows: Rows, messages: &[u8]) -> Result<Option<(u64, u64)>, Fail> {
    let script = spell_outcome(alloc, &script_of(alloc, rows)?)?;
    let answers = spell_outcome(alloc, &answers_of(alloc, rows)?)?;
    let messages = spell_outcome(alloc, messages)?;
    Ok(counts(alloc, &script, &answers, &messages))
}

/// Scripts with their answers, and messages. Each of their logs shows a prefix of these messages.
const REFUSED: [(Rows, &[u8]); 8] = [
    (ONE_NODE, b" 1.1=hi"),
    (LONG_PAYLOADS, b" 1.1=- 1.2=@"),
    (MAJORITY, MESSAGES),
    (HALF, MESSAGES),
    (FORGOTTEN, MESSAGES),
    (RESENT, MESSAGES),
    (REOPENED, MESSAGES),
    (TOLD, MESSAGES),
];

#[test]
fn each_refused_growth_ends_the_run_or_fails_a_store(rt: HostRuntime) -> Result<(), Fail> {
    for (rows, messages) in REFUSED {
        let ran = spell_run(rt.alloc(), rows, messages)?;
        assert!(rt;
            matches!(ran, Some((ended, failed)) if 0 < ended && 0 < failed),
            "{ran:?}"
        );
    }
    Ok(())
}

/// The result of a run whose reader or writer is set to fail. It says whether the failing call
/// happened, and whether the run ended as expected.
#[derive(Clone, Copy)]
struct Failed {
    met: bool,
    right: bool,
}

/// Runs a script and makes this read fail.
fn run_read(alloc: Global, failing: u64) -> Failed {
    let mut reader = FailingReader::new(SHORT, 5, failing);
    let mut room = [0u8; 300];
    let mut writer = FailingWriter::new(&mut room, 300, 0);
    let ended = run(alloc, &mut reader, &mut writer);
    let written = writer.written();
    let met = reader.has_failed();
    let right = match ended {
        Err(RunFault::Read) => {
            met && reader.failed_last()
                && begins_lines(written, SHORT_ANSWERS)
                && writer.is_flushed()
        }
        // One byte per read, and one more read at the end.
        Ok(RunEnd::Whole) => {
            !met && written == SHORT_ANSWERS && reader.reads() == SHORT.len() as u64 + 1
        }
        _ => false,
    };
    Failed { met, right }
}

/// Returns the first read that isn't asked for any more. An error is a read after whose failure the
/// run ended otherwise than it should.
fn first_unread(alloc: Global) -> Result<u64, u64> {
    for failing in 1..500u64 {
        let failed = run_read(alloc, failing);
        if !failed.right {
            return Err(failing);
        }
        if !failed.met {
            return Ok(failing);
        }
    }
    Err(500)
}

#[test]
fn each_failing_read_ends_the_run(rt: HostRuntime) -> Result<(), Fail> {
    assert_eq!(rt; first_unread(rt.alloc()), Ok(44));
    Ok(())
}

/// The writer's call `failing` failed after `reads` bytes were read. Says whether the next line was
/// read neither before the answer was flushed, nor after the fault.
fn is_read_so_far(reads: u64, failing: u64) -> bool {
    match SHORT.get(..reads as usize) {
        Some(read) => {
            let lines = read.split(|byte| *byte == b'\n').count() as u64;
            read.ends_with(b"\n") && lines == failing.saturating_add(3) / 2
        }
        None => false,
    }
}

/// Runs a script and makes this write or flush fail.
fn run_write(alloc: Global, failing: u64) -> Failed {
    // One byte per read, so that the reads count the bytes.
    let mut reader = FailingReader::new(SHORT, 1, 0);
    let mut room = [0u8; 300];
    let mut writer = FailingWriter::new(&mut room, 300, failing);
    let ended = run(alloc, &mut reader, &mut writer);
    let met = writer.has_failed();
    let right = match ended {
        Err(RunFault::Write) => {
            met && writer.failed_last() && is_read_so_far(reader.reads(), failing)
        }
        // Each answer takes a write, and a flush after it.
        Ok(RunEnd::Whole) => {
            !met && writer.written() == SHORT_ANSWERS
                && writer.calls() == 8
                && writer.flushes() == 4
                && writer.is_flushed()
        }
        _ => false,
    };
    Failed { met, right }
}

/// Returns the first write or flush that isn't asked for any more. An error is one after whose
/// failure the run ended otherwise than it should.
fn first_unwritten(alloc: Global) -> Result<u64, u64> {
    for failing in 1..500u64 {
        let failed = run_write(alloc, failing);
        if !failed.right {
            return Err(failing);
        }
        if !failed.met {
            return Ok(failing);
        }
    }
    Err(500)
}

#[test]
fn each_failing_write_and_each_failing_flush_ends_the_run(rt: HostRuntime) -> Result<(), Fail> {
    assert_eq!(rt; first_unwritten(rt.alloc()), Ok(9));
    Ok(())
}

#[test]
fn faults_have_their_texts(rt: HostRuntime) -> Result<(), Fail> {
    for (fault, text) in [
        (RunFault::Read, "read failed"),
        (RunFault::Write, "write failed"),
        (RunFault::NoMemory, "no memory"),
    ] {
        assert_eq!(rt; format!(in rt.alloc(); "{fault}")?.as_str(), text);
    }
    Ok(())
}
