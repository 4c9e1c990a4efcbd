//! Whole scripts, bad lines, and the words of refusals.

mod failing;

use crate::scripts::{answers_of, script_of};
use std::alloc::Global;
use std::process::Abort;
use std::test::Fail;
use urb_names::{Config, Name, NodeId, PacketFault, Refusal, Rule};
use urb_script::*;

// A short script and its answers, for ends that fail.
const SHORT: &[u8] = b"group 1 10\nsubmit 1 7 1 hi\nstored 1\nlog 1\n";

const SHORT_ANSWERS: &[u8] =
    b"group 1 10\ndraft 1.1 at 1\naccepted 1.1 sent 0 released 1\nlog 1: 1.1=hi\n";

/// Returns the text with each `@` replaced by 16,384 letters x.
fn spell_outcome(alloc: Global, text: &[u8]) -> Result<Vec<u8>, Fail> {
    let mut whole = Vec::new(alloc);
    for byte in text {
        if *byte == b'@' {
            whole.extend_from_slice(Vec::from_elem(alloc, b'x', 16384)?.as_slice())?;
        } else {
            whole.push(*byte)?;
        }
    }
    Ok(whole)
}

/// Runs a script into a new text, and compares the text. `@` is as in `spell_outcome`.
pub fn gives(
    rt: &(impl Abort + AllocGlobal),
    script: &[u8],
    answers: &[u8],
    wanted: RunEnd,
) -> Result<(), Fail> {
    let script = spell_outcome(rt.alloc(), script)?;
    let answers = spell_outcome(rt.alloc(), answers)?;
    let mut input = script.as_slice();
    let mut output = Vec::new(rt.alloc());
    let ended = run(rt.alloc(), &mut input, &mut output)?;
    assert_eq!(rt; ended, wanted);
    let came = str::from_utf8(output.as_slice()).ok();
    assert_eq!(rt; came, str::from_utf8(answers.as_slice()).ok());
    Ok(())
}

/// Runs the script of these rows, and compares its answers with theirs.
pub fn gives_rows(
    rt: &(impl Abort + AllocGlobal),
    rows: &[(&str, &str)],
    wanted: RunEnd,
) -> Result<(), Fail> {
    let script = script_of(rt.alloc(), rows)?;
    let answers = answers_of(rt.alloc(), rows)?;
    gives(rt, &script, &answers, wanted)
}

#[test]
fn whole_scripts_are_answered(rt: HostRuntime) -> Result<(), Fail> {
    // A message is sent to each other node, and no node releases it before a majority has it.
    gives(
        &rt,
        b"group 3 10\nsubmit 2 7 1 a\nstored 2\nlog 2\nlog 1",
        b"group 3 10\ndraft 2.1 at 1\naccepted 2.1 sent 2 released 0\nlog 2:\nlog 1:\n",
        RunEnd::Whole,
    )?;
    // If several refusals apply, the answer is the first one.
    gives_rows(
        &rt,
        &[
            ("group 2 10", "group 2 10"),
            ("stored 1", "refused stale"),
            ("stored 3", "refused badnode"),
            ("submit 3 7 1 @x", "refused badnode"),
            ("log 3", "refused badnode"),
            ("submit 1 7 1 a", "draft 1.1 at 1"),
            ("submit 1 7 9 @x", "refused busy"),
            ("stored 1", "accepted 1.1 sent 1 released 0"),
            ("submit 1 7 1 b", "refused conflict"),
            ("submit 1 8 1 b", "draft 1.2 at 2"),
            ("stored 1", "accepted 1.2 sent 1 released 0"),
            ("submit 1 7 2 c", "draft 1.3 at 3"),
            ("stored 1", "accepted 1.3 sent 1 released 0"),
            ("submit 1 7 1 a", "accepted 1.1"),
            ("submit 1 8 3 c", "refused gap 2"),
        ],
        RunEnd::Whole,
    )?;
    // A log, and the holders of a name, are shown in every state of a node. Digits may be of either
    // case.
    gives_rows(
        &rt,
        &[
            ("group 2 10", "group 2 10"),
            ("submit 1 7 1 hi", "draft 1.1 at 1"),
            ("held 1.1", "held 1.1:"),
            ("log 1", "log 1:"),
            ("stored 1", "accepted 1.1 sent 1 released 0"),
            (
                "raw 2 5542010102010000000100070000000100026869",
                "draft 1.1 at 1",
            ),
            ("crash 2", "down 2"),
            ("held 1.1", "held 1.1: 1"),
            ("log 2", "log 2:"),
            ("restart 2", "up 2"),
            ("raw 2 -", "refused packet short"),
            (
                "raw 2 5542010102010000000100070000000100026A6b",
                "refused forged",
            ),
            ("held 3.1", "refused badnode"),
            ("held 2.7", "held 2.7:"),
            ("log 3", "refused badnode"),
            ("tick 2", "sent"),
        ],
        RunEnd::Whole,
    )
}

/// Runs a bad line after a first line that is answered.
fn is_bad(rt: &(impl Abort + AllocGlobal), line: &[u8]) -> Result<(), Fail> {
    let mut script = Vec::new(rt.alloc());
    script.extend_from_slice(b"group 1 10\n")?;
    script.extend_from_slice(line)?;
    script.extend_from_slice(b"\nlog 1\n")?;
    gives(
        rt,
        script.as_slice(),
        b"group 1 10\nbad line 2\n",
        RunEnd::BadLine(2),
    )
}

/// Scripts whose first line is bad.
const BAD_FIRST: [&[u8]; 12] = [
    b"",
    b"\n",
    b"log 1\n",
    b"stored 1\ngroup 1 10\n",
    b"group 0 10\n",
    b"group 8 10\n",
    b"group 1 0\n",
    b"group 1 1000001\n",
    b"group 1\n",
    b"group 1 10 \n",
    b" group 1 10\n",
    b"Group 1 10\n",
];

/// Lines that are bad after a first one.
const BAD: [&[u8]; 66] = [
    b"",
    b"group 1 10",
    b"log  1",
    b" log 1",
    b"log 1 ",
    b"log",
    b"log 01",
    b"log +1",
    b"log -1",
    b"log 0",
    b"log 8",
    b"log 1 1",
    b"log 18446744073709551617",
    b"stored",
    b"stored x",
    b"stored 1\r",
    b"submit 1 7",
    b"submit 1 7 1",
    b"submit 1 7 1 ",
    b"submit 1 7 1 a b",
    b"submit 1 7 1 a\tb",
    b"submit 1 07 1 a",
    b"submit 1 0 1 a",
    b"submit 1 65536 1 a",
    b"submit 1 7 4294967296 a",
    b"submit 1 7 1 \x7f",
    b"submit 1 7 1 \xc3\xa9",
    b"submit 8 7 1 a",
    b"reopen 1",
    b"reopen ",
    b"fail 1",
    b"fail 1 Old",
    b"fail 1 old new",
    b"crash",
    b"restart 0",
    b"tick 1 1",
    b"arrive 1 1 1 1",
    b"arrive 0 2 1 1",
    b"arrive 1 2 1",
    b"arrive 1 2 8 1",
    b"arrive 1 2 1 0",
    b"arrive 1 2 1 4294967296",
    b"arrive 1 2 1.1",
    b"arrive2 1 2 1 1",
    b"arrive2 1 2 1 1 4",
    b"arrive2 1 2 1 1 00",
    b"arrive2 1 2 1 1 1 1",
    b"arrive2 1 1 1 1 1",
    b"arrive2 1 2 1.1 1",
    b"arrive3 1 2 1 1 1",
    b"raw 1",
    b"raw 1 ",
    b"raw 1 --",
    b"raw 8 -",
    b"raw 1 5",
    b"raw 1 5g",
    b"raw 1 55 42",
    b"held 1",
    b"held 1 1",
    b"held 1.0",
    b"held 0.1",
    b"held 1.01",
    b"held 1.4294967296",
    b"held 8.1",
    b"held .1",
    b"held 1.1.1",
];

#[test]
fn bad_lines_end_the_run(rt: HostRuntime) -> Result<(), Fail> {
    for script in BAD_FIRST {
        gives(&rt, script, b"bad line 1\n", RunEnd::BadLine(1))?;
    }
    for line in BAD {
        is_bad(&rt, line)?;
    }
    Ok(())
}

/// Returns a script whose second line has 13 bytes, then `times` times 1,024 letters, and `more`
/// letters.
fn long_script(alloc: Global, times: usize, more: usize) -> Result<Vec<u8>, Fail> {
    let mut script = Vec::new(alloc);
    script.extend_from_slice(b"group 1 10\nsubmit 1 7 1 ")?;
    for _ in 0..times {
        script.extend_from_slice([b'x'; 1024].as_slice())?;
    }
    for _ in 0..more {
        script.push(b'x')?;
    }
    Ok(script)
}

/// Lengths of its second line, and whether it is too long: 64,525 bytes, 65,536 and 65,537.
const LENGTHS: [(usize, usize, bool); 4] = [
    (63, 0, false),
    (63, 1011, false),
    (63, 1012, true),
    (64, 1024, true),
];

#[test]
fn a_line_has_at_most_its_greatest_length(rt: HostRuntime) -> Result<(), Fail> {
    for (times, more, too_long) in LENGTHS {
        let script = long_script(rt.alloc(), times, more)?;
        if too_long {
            gives(
                &rt,
                &script,
                b"group 1 10\nbad line 2\n",
                RunEnd::BadLine(2),
            )?;
        } else {
            gives(
                &rt,
                &script,
                b"group 1 10\nrefused toolong\n",
                RunEnd::Whole,
            )?;
        }
    }
    Ok(())
}

#[test]
fn a_script_cut_within_its_last_line_has_a_shorter_line(rt: HostRuntime) -> Result<(), Fail> {
    let script = b"group 1 10\nsubmit 1 7 1 hi".as_slice();
    for (cut, byte) in script.iter().enumerate() {
        // The lines before the cut in the last line.
        let (answers, ended) = match cut {
            0..=10 => continue,
            11 => (b"group 1 10\n".as_slice(), RunEnd::Whole),
            25 => (b"group 1 10\ndraft 1.1 at 1\n".as_slice(), RunEnd::Whole),
            _ => (b"group 1 10\nbad line 2\n".as_slice(), RunEnd::BadLine(2)),
        };
        let Some(front) = script.get(..cut) else {
            return Err("a cut behind the end".into());
        };
        gives(&rt, front, answers, ended)?;
        assert!(rt; *byte != b'\n');
    }
    Ok(())
}

#[test]
fn a_last_line_may_lack_its_end(rt: HostRuntime) -> Result<(), Fail> {
    gives(&rt, b"group 1 10", b"group 1 10\n", RunEnd::Whole)?;
    gives(
        &rt,
        b"group 1 10\nstored 1",
        b"group 1 10\nrefused stale\n",
        RunEnd::Whole,
    )?;
    for script in [
        b"group 1 10\nstored".as_slice(),
        b"group 1 10\nsubmit 1 7",
        b"group 1 10\n\n",
    ] {
        gives(&rt, script, b"group 1 10\nbad line 2\n", RunEnd::BadLine(2))?;
    }
    Ok(())
}
