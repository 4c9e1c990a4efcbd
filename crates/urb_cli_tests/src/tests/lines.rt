//! Command lines: those that are accepted, those that are mistakes, and help.

use super::{WANTS_A_NETWORK, shown_by};
use std::alloc::Global;
use std::test::Fail;
use urb_options::{Errand, Line, NodeAddress, VERSION, parse_line};
use urb_terminal::Terminal;

#[test]
fn mistakes_are_told_on_standard_error(rt: HostRuntime) -> Result<(), Fail> {
    for words in [
        [].as_slice(),
        &[b"urbd".as_slice()],
        &[b"urbd", b""],
        &[b"urbd", b"Replay"],
        &[b"urbd", b"play"],
        &[b"urbd", b"--versions"],
        &[b"urbd", b"read", b"--version"],
        &[b"urbd", b"-x"],
        &[b"urbd", b"replay", b"more"],
        &[b"urbd", b"replay", b"--cap", b"1"],
        &[b"urbd", b"replay", b"replay"],
        &[b"urbd", b"--", b"replay"],
        &[b"urbd", b"serve"],
        &[b"urbd", b"submit", b"hi"],
        &[b"urbd", b"read", b"replay"],
        &[b"urbd", b"submit", b"-x"],
        &[b"urbd", b"status"],
        &[b"urbd", b"status", b"--nodes", b"3"],
        &[b"urbd", b"status", b"--base-port", b"7400"],
        &[b"urbd", b"status", b"--port", b"7411", b"--nodes", b"3"],
        &[b"urbd", b"publish", b"hi"],
        &[b"urbd", b"follow", b"--port", b"7411", b"--format", b"xml"],
    ] {
        let shown = shown_by(rt.alloc(), words, b"group 1 1\n", true);
        assert!(rt;
            shown.is(
                3,
                b"",
                b"error: ",
                b"\n\nFor more information, try '--help'.\n"
            ),
            "{words:?}"
        );
    }
    let shown = shown_by(rt.alloc(), &[b"urbd", b"\xff"], b"", true);
    let text =
        b"error: invalid UTF-8 was detected in one or more arguments\n\nUsage: urbd <COMMAND>\n";
    assert!(rt; shown.is(3, b"", text, b"\n\nFor more information, try '--help'.\n"));
    Ok(())
}

const TOP_HELP: &[u8] = b"Logged uniform FIFO broadcast\n\nUsage: urbd <COMMAND>\n\nCommands:\n";

const REPLAY_HELP: &[u8] = b"Runs a script from standard input\n\nUsage: urbd replay\n\nOptions:\n";

#[test]
fn help_goes_to_standard_output(rt: HostRuntime) -> Result<(), Fail> {
    for (words, begins) in [
        ([b"urbd".as_slice(), b"--help"].as_slice(), TOP_HELP),
        (&[b"urbd", b"-h"], TOP_HELP),
        (&[b"urbd", b"help"], TOP_HELP),
        (&[b"urbd", b"help", b"replay"], REPLAY_HELP),
        (&[b"urbd", b"replay", b"--help"], REPLAY_HELP),
        (&[b"urbd", b"replay", b"-h"], REPLAY_HELP),
    ] {
        let shown = shown_by(rt.alloc(), words, b"", true);
        assert_eq!(rt; shown.status, 0);
        assert!(rt; shown.output.as_slice().starts_with(begins), "{words:?}");
        assert_eq!(rt; shown.errors.len(), 0);
        // If help can't be written, that is reported.
        let shown = shown_by(rt.alloc(), words, b"", false);
        assert!(rt; shown.is(1, b"", b"urbd: write failed\n", b"urbd: write failed\n"));
    }
    Ok(())
}

#[test]
fn the_version_goes_to_standard_output(rt: HostRuntime) -> Result<(), Fail> {
    let text = format!(in rt.alloc(); "urbd {VERSION}\n")?;
    for word in [b"--version".as_slice(), b"-V"] {
        let shown = shown_by(rt.alloc(), &[b"urbd", word], b"", true);
        assert!(rt; shown.is(0, text.as_bytes(), b"", b""));
        let shown = shown_by(rt.alloc(), &[b"urbd", word], b"", false);
        assert!(rt; shown.is(1, b"", b"urbd: write failed\n", b"urbd: write failed\n"));
    }
    let begins = b"urbd 0.2.0\npackets: ".as_slice();
    assert!(rt; text.as_bytes().starts_with(begins));
    Ok(())
}

/// A whole command line for each command that has options.
const SERVE: [&[u8]; 12] = [
    b"urbd",
    b"serve",
    b"--nodes",
    b"3",
    b"--cap",
    b"10",
    b"--dir",
    b"journals",
    b"--base-port",
    b"20000",
    b"--tick-ms",
    b"50",
];

const SUBMIT: [&[u8]; 9] = [
    b"urbd",
    b"submit",
    b"--port",
    b"20011",
    b"--client",
    b"7",
    b"--number",
    b"1",
    b"hi",
];

const READ: [&[u8]; 8] = [
    b"urbd", b"read", b"--port", b"20011", b"--from", b"1", b"--max", b"8",
];

const STATUS: [&[u8]; 4] = [b"urbd", b"status", b"--port", b"20011"];

const GROUP_STATUS: [&[u8]; 6] = [
    b"urbd",
    b"status",
    b"--base-port",
    b"20000",
    b"--nodes",
    b"3",
];

const PUBLISH: [&[u8]; 6] = [b"urbd", b"publish", b"--port", b"20011", b"--client", b"7"];

const FOLLOW: [&[u8]; 6] = [b"urbd", b"follow", b"--from", b"1", b"--port", b"20011"];

/// The status of these words, and whether the terminal showed the matching output. For a mistake
/// this is the parser's text on standard error, and nothing else.
fn status_of(alloc: Global, words: &[&[u8]]) -> Option<u8> {
    let shown = shown_by(alloc, words, b"", true);
    let fits = if shown.status == 3 {
        shown.is(
            3,
            b"",
            b"error: ",
            b"\n\nFor more information, try '--help'.\n",
        )
    } else {
        shown.is(shown.status, b"", b"", b"") && shown.errors.is_empty()
    };
    if fits { Some(shown.status) } else { None }
}

/// The words without the option at this place and its value.
fn leave_out(
    alloc: Global,
    words: &[&'static [u8]],
    at: usize,
) -> Result<Vec<&'static [u8]>, Fail> {
    let mut left = Vec::new(alloc);
    for (place, word) in words.iter().enumerate() {
        if place != at && place != at.saturating_add(1) {
            left.push(*word)?;
        }
    }
    Ok(left)
}

/// The words with the option at this place, and its value, once more at the end.
fn repeat_option(
    alloc: Global,
    words: &[&'static [u8]],
    at: usize,
) -> Result<Vec<&'static [u8]>, Fail> {
    let mut more = Vec::from_slice(alloc, words)?;
    for word in words.iter().skip(at).take(2) {
        more.push(*word)?;
    }
    Ok(more)
}

/// The words with the word at this place replaced.
fn replace_word(
    alloc: Global,
    words: &[&'static [u8]],
    at: usize,
    new: &'static [u8],
) -> Result<Vec<&'static [u8]>, Fail> {
    let mut other = Vec::new(alloc);
    for (place, word) in words.iter().enumerate() {
        other.push(if place == at { new } else { *word })?;
    }
    Ok(other)
}

#[test]
fn each_option_stands_once(rt: HostRuntime) -> Result<(), Fail> {
    for (words, options) in [
        (SERVE.as_slice(), [2usize, 4, 6, 8, 10].as_slice()),
        (&SUBMIT, &[2, 4, 6]),
        (&READ, &[2, 4, 6]),
        (&STATUS, &[2]),
        (&GROUP_STATUS, &[2, 4]),
        (&PUBLISH, &[2, 4]),
        (&FOLLOW, &[4]),
    ] {
        assert_eq!(rt; status_of(rt.alloc(), words), Some(WANTS_A_NETWORK));
        for at in options {
            let missing = leave_out(rt.alloc(), words, *at)?;
            assert_eq!(rt; status_of(rt.alloc(), missing.as_slice()), Some(3), "{at}");
            let twice = repeat_option(rt.alloc(), words, *at)?;
            assert_eq!(rt; status_of(rt.alloc(), twice.as_slice()), Some(3), "{at}");
        }
    }
    // A folder must have a name.
    let nowhere = replace_word(rt.alloc(), &SERVE, 7, b"")?;
    assert_eq!(rt; status_of(rt.alloc(), nowhere.as_slice()), Some(3));
    // The text of a submit is required too, and is one word.
    assert_eq!(rt; status_of(rt.alloc(), &SUBMIT[..8]), Some(3));
    let two = replace_word(rt.alloc(), &SUBMIT, 7, b"1 2")?;
    assert_eq!(rt; status_of(rt.alloc(), two.as_slice()), Some(3));
    Ok(())
}

#[test]
fn each_number_has_its_range(rt: HostRuntime) -> Result<(), Fail> {
    for (words, at, taken, refused) in [
        (
            SERVE.as_slice(),
            3usize,
            [b"1".as_slice(), b"7"],
            [b"0".as_slice(), b"8"],
        ),
        (&SERVE, 5, [b"1", b"1000000"], [b"0", b"1000001"]),
        (&SERVE, 9, [b"1024", b"65000"], [b"1023", b"65001"]),
        (&SERVE, 11, [b"1", b"60000"], [b"0", b"60001"]),
        (&SUBMIT, 3, [b"1", b"65535"], [b"0", b"65536"]),
        (&SUBMIT, 5, [b"1", b"65535"], [b"0", b"65536"]),
        (&SUBMIT, 7, [b"0", b"4294967295"], [b"-1", b"4294967296"]),
        (&READ, 3, [b"1", b"65535"], [b"0", b"65536"]),
        (&READ, 5, [b"1", b"4294967295"], [b"0", b"4294967296"]),
        (&READ, 7, [b"1", b"8"], [b"0", b"9"]),
        (&STATUS, 3, [b"1", b"65535"], [b"0", b"65536"]),
        (&GROUP_STATUS, 3, [b"1024", b"65000"], [b"1023", b"65001"]),
        (&GROUP_STATUS, 5, [b"1", b"7"], [b"0", b"8"]),
        (&PUBLISH, 3, [b"1", b"65535"], [b"0", b"65536"]),
        (&PUBLISH, 5, [b"1", b"65535"], [b"0", b"65536"]),
        (&FOLLOW, 3, [b"1", b"4294967295"], [b"0", b"4294967296"]),
        (&FOLLOW, 5, [b"1", b"65535"], [b"0", b"65536"]),
    ] {
        for new in &taken {
            let other = replace_word(rt.alloc(), words, at, *new)?;
            assert_eq!(rt;
                status_of(rt.alloc(), other.as_slice()),
                Some(WANTS_A_NETWORK),
                "{at}"
            );
        }
        for new in &refused {
            let other = replace_word(rt.alloc(), words, at, *new)?;
            assert_eq!(rt; status_of(rt.alloc(), other.as_slice()), Some(3), "{at}");
        }
        for new in [b"".as_slice(), b"x", b"1.5", b"0x1", b"1_000", b" 1"] {
            let other = replace_word(rt.alloc(), words, at, new)?;
            assert_eq!(rt; status_of(rt.alloc(), other.as_slice()), Some(3), "{at}");
        }
    }
    Ok(())
}

#[test]
fn a_line_has_its_values(rt: HostRuntime) -> Result<(), Fail> {
    let terminal = Terminal::new(rt.alloc(), &[], b"", true);
    let words = [
        "urbd",
        "serve",
        "--nodes",
        "3",
        "--cap",
        "10",
        "--dir",
        "a b",
        "--base-port",
        "2000",
        "--tick-ms",
        "50",
    ];
    match parse_line(&terminal, rt.alloc(), words.as_slice()) {
        Ok(Line::Serve(serving)) => {
            assert_eq!(rt; (serving.nodes, serving.cap, serving.dir), (3, 10, "a b"));
            assert_eq!(rt; (serving.base, serving.every), (2000, 50));
        }
        _ => return Err("a group to run")?,
    }
    let words = [
        "urbd",
        "submit",
        "hi",
        "--number",
        "2",
        "--client=7",
        "--port",
        "+11",
    ];
    match parse_line(&terminal, rt.alloc(), words.as_slice()) {
        Ok(Line::Errand(Errand::Submit(submitting))) => {
            assert_eq!(rt;
                (submitting.at, submitting.client),
                (NodeAddress::Port(11), 7)
            );
            assert_eq!(rt; (submitting.number, submitting.text), (2, "hi"));
        }
        _ => return Err("a message to submit")?,
    }
    let words = ["urbd", "read", "--port", "12", "--from", "3", "--max", "4"];
    match parse_line(&terminal, rt.alloc(), words.as_slice()) {
        Ok(Line::Errand(Errand::Read(reading))) => {
            assert_eq!(rt; reading.at, NodeAddress::Port(12));
            assert_eq!(rt; (reading.from, reading.max), (3, 4));
        }
        _ => return Err("entries to read")?,
    }
    for (words, port, count) in [
        (["--port", "12"].as_slice(), 12, 1),
        (&["--base-port", "65000", "--nodes", "7"], 65_011, 7),
    ] {
        let mut line = Vec::from_slice(rt.alloc(), &["urbd", "status"])?;
        line.extend_from_slice(words)?;
        match parse_line(&terminal, rt.alloc(), line.as_slice()) {
            Ok(Line::Errand(Errand::Status(asking))) => {
                assert_eq!(rt; (asking.at, asking.count), (NodeAddress::Port(port), count));
            }
            _ => return Err("nodes to ask")?,
        }
    }
    let shown = terminal.into_shown(0);
    assert!(rt; shown.output.is_empty() && shown.errors.is_empty());
    Ok(())
}
