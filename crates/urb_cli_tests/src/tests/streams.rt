//! `publish` and `follow`, over a node that answers from a list.

ghost use Rattle.std.specs.Prelude.{⊤};

use std::alloc::{AllocError, Global};
use std::test::Fail;
use urb_cli::{
    CallFault, Caller, InputLines, OneText, StreamEnd, StreamFault, TRIES, Texts, follow_over,
    publish_over, report_stream_end,
};
use urb_client::{Request, Response, encode_request, parse_response, write_frame};
use urb_names::{MAX_PAYLOAD, NoMemory};
use urb_options::{EntryForm, NodeAddress};
use urb_terminal::Terminal;

/// A node that gives these responses, in their order, and none after them. No bytes stand for a
/// connection that breaks. It notes the frames that it was sent.
#[derive(Drop)]
struct Script<'a> {
    alloc: Global,
    responses: &'a [&'a [u8]],
    given: usize,
    asked: Vec<u8>,
}

impl<'a> Script<'a> {
    fn new(alloc: Global, responses: &'a [&'a [u8]]) -> Script<'a> {
        Script {
            alloc,
            responses,
            given: 0,
            asked: Vec::new(alloc),
        }
    }
}

impl Caller for Script<'_> {
    ghost calls = { λ old asked answer new. ⊤ };

    fn call(&mut self, request: &Request) -> Result<Response, CallFault> {
        let frame = encode_request(self.alloc, request)?;
        write_frame(&mut self.asked, frame.as_slice())?;
        let Some(bytes) = self.responses.get(self.given) else {
            return Err(CallFault::BadReply);
        };
        self.given = self.given.saturating_add(1);
        match parse_response(self.alloc, *bytes)? {
            Some(response) => Ok(response),
            None => Err(CallFault::BadReply),
        }
    }

    fn pause(&self) {}
}

/// What a run printed, what the node was sent, and how it ended.
#[derive(Drop)]
struct Run {
    output: Vec<u8>,
    asked: Vec<u8>,
    ended: Result<StreamEnd, StreamFault>,
}

/// Publishes texts as client 7.
fn publish<T: Texts>(alloc: Global, texts: &mut T, responses: &[&[u8]]) -> Run {
    let mut script = Script::new(alloc, responses);
    let mut output = Vec::new(alloc);
    let ended = publish_over(alloc, texts, &mut script, &mut output, 7);
    Run {
        output,
        asked: script.asked,
        ended,
    }
}

/// Publishes the lines of an input as client 7.
fn publish_lines(alloc: Global, input: &[u8], responses: &[&[u8]]) -> Run {
    publish(alloc, &mut InputLines::new(input), responses)
}

/// Follows a log from place 1 on.
fn follow(alloc: Global, form: EntryForm, responses: &[&[u8]]) -> Run {
    let mut script = Script::new(alloc, responses);
    let mut output = Vec::new(alloc);
    let ended = follow_over(alloc, &mut script, &mut output, form, 1);
    Run {
        output,
        asked: script.asked,
        ended,
    }
}

/// A connection that breaks.
const BROKEN: &[u8] = b"";

/// The next number is 3.
const NEXT_IS_3: &[u8] = b"\xee\x07\x00\x00\x00\x03";

const ACCEPTED_5: &[u8] = b"\x81\x00\x00\x00\x05";

const ACCEPTED_6: &[u8] = b"\x81\x00\x00\x00\x06";

const CONFLICT: &[u8] = b"\xee\x06\x00\x00\x00\x00";

const FULL: &[u8] = b"\xee\x08\x00\x00\x00\x00";

const DOWN: &[u8] = b"\xee\x03\x00\x00\x00\x00";

/// The node knows no such request.
const UNKNOWN: &[u8] = b"\xee\x13\x00\x00\x00\x02";

/// The question for the next number, and the messages 3 and 4.
const ASKED_NEXT: &[u8] = b"\x00\x07\x01\x00\x07\x00\x00\x00\x00";

const ASKED_3: &[u8] = b"\x00\x0a\x01\x00\x07\x00\x00\x00\x03one";

const ASKED_4: &[u8] = b"\x00\x0a\x01\x00\x07\x00\x00\x00\x04two";

/// These pieces, one after the other.
fn joined(alloc: Global, pieces: &[&[u8]]) -> Result<Vec<u8>, Fail> {
    let mut whole = Vec::new(alloc);
    for piece in pieces {
        whole.extend_from_slice(*piece)?;
    }
    Ok(whole)
}

#[test]
fn lines_are_numbered_from_the_next_number_on(rt: HostRuntime) -> Result<(), Fail> {
    let asked = joined(rt.alloc(), &[ASKED_NEXT, ASKED_3, ASKED_4])?;
    for input in [b"one\ntwo\n".as_slice(), b"one\ntwo"] {
        let run = publish_lines(rt.alloc(), input, &[NEXT_IS_3, ACCEPTED_5, ACCEPTED_6]);
        assert_eq!(rt;
            run.output.as_slice(),
            b"accepted 5\naccepted 6\n".as_slice()
        );
        assert_eq!(rt; run.asked.as_slice(), asked.as_slice());
        assert_eq!(rt; run.ended, Ok(StreamEnd::Done));
    }
    // An empty line is an empty message, and no line is none.
    let run = publish_lines(rt.alloc(), b"\n", &[NEXT_IS_3, ACCEPTED_5]);
    assert_eq!(rt; run.output.as_slice(), b"accepted 5\n".as_slice());
    let run = publish_lines(rt.alloc(), b"", &[NEXT_IS_3]);
    assert_eq!(rt; run.output.as_slice(), b"".as_slice());
    assert_eq!(rt; run.ended, Ok(StreamEnd::Done));
    // A text on the command line is the only message.
    let run = publish(
        rt.alloc(),
        &mut OneText::new("one"),
        &[NEXT_IS_3, ACCEPTED_5],
    );
    let asked = joined(rt.alloc(), &[ASKED_NEXT, ASKED_3])?;
    assert_eq!(rt; run.asked.as_slice(), asked.as_slice());
    assert_eq!(rt; run.ended, Ok(StreamEnd::Done));
    Ok(())
}

#[test]
fn a_message_without_a_response_is_sent_again(rt: HostRuntime) -> Result<(), Fail> {
    let responses = [BROKEN, NEXT_IS_3, ACCEPTED_5, BROKEN, BROKEN, ACCEPTED_6];
    let run = publish_lines(rt.alloc(), b"one\ntwo\n", &responses);
    let asked = joined(
        rt.alloc(),
        &[ASKED_NEXT, ASKED_NEXT, ASKED_3, ASKED_4, ASKED_4, ASKED_4],
    )?;
    assert_eq!(rt;
        run.output.as_slice(),
        b"accepted 5\naccepted 6\n".as_slice()
    );
    assert_eq!(rt; run.asked.as_slice(), asked.as_slice());
    assert_eq!(rt; run.ended, Ok(StreamEnd::Done));
    // A node that never answers ends it, after so many tries and one more.
    let run = publish_lines(rt.alloc(), b"one\n", &[]);
    let calls = TRIES.saturating_add(1) as usize;
    assert_eq!(rt; run.asked.len(), calls.saturating_mul(ASKED_NEXT.len()));
    assert_eq!(rt; run.ended, Err(StreamFault::Call(CallFault::BadReply)));
    Ok(())
}

#[test]
fn a_refusal_ends_a_publish(rt: HostRuntime) -> Result<(), Fail> {
    for (refusal, line) in [
        (NEXT_IS_3, b"refused 7 3: the next number is 3\n".as_slice()),
        (
            CONFLICT,
            b"refused 6 0: the number has another message: another program uses this client\n",
        ),
        (
            FULL,
            b"refused 8 0: the node has as many messages as its cap: start it with a greater one\n",
        ),
        (
            DOWN,
            b"refused 3 0: the node is down: restart it, and send the same again\n",
        ),
    ] {
        let responses = [NEXT_IS_3, ACCEPTED_5, refusal, ACCEPTED_6];
        let run = publish_lines(rt.alloc(), b"one\ntwo\nthree\n", &responses);
        let output = joined(rt.alloc(), &[b"accepted 5\n", line])?;
        let asked = joined(rt.alloc(), &[ASKED_NEXT, ASKED_3, ASKED_4])?;
        assert_eq!(rt; run.output.as_slice(), output.as_slice());
        assert_eq!(rt; run.asked.as_slice(), asked.as_slice());
        assert_eq!(rt; run.ended, Ok(StreamEnd::Refused));
    }
    // A node that is down refuses the question too.
    let run = publish_lines(rt.alloc(), b"one\n", &[DOWN]);
    assert!(rt; run.output.as_slice().starts_with(b"refused 3 0: "));
    assert_eq!(rt; run.asked.as_slice(), ASKED_NEXT);
    assert_eq!(rt; run.ended, Ok(StreamEnd::Refused));
    Ok(())
}

#[test]
fn a_line_that_is_too_long_is_not_sent(rt: HostRuntime) -> Result<(), Fail> {
    let mut input = Vec::from_elem(rt.alloc(), b'x', MAX_PAYLOAD)?;
    let run = publish_lines(rt.alloc(), input.as_slice(), &[NEXT_IS_3, ACCEPTED_5]);
    assert_eq!(rt; run.ended, Ok(StreamEnd::Done));
    input.push(b'x')?;
    let run = publish_lines(rt.alloc(), input.as_slice(), &[NEXT_IS_3, ACCEPTED_5]);
    let line = b"refused 5 0: the message is too long: it has more than 16384 bytes\n".as_slice();
    assert_eq!(rt; run.output.as_slice(), line);
    assert_eq!(rt; run.asked.as_slice(), ASKED_NEXT);
    assert_eq!(rt; run.ended, Ok(StreamEnd::Refused));
    Ok(())
}

#[test]
fn a_response_of_another_kind_ends_a_publish(rt: HostRuntime) -> Result<(), Fail> {
    for responses in [[ACCEPTED_5].as_slice(), &[NEXT_IS_3, b"\x82\x00"]] {
        let run = publish_lines(rt.alloc(), b"one\n", responses);
        let bad = StreamFault::Call(CallFault::BadReply);
        assert_eq!(rt; run.output.as_slice(), b"".as_slice());
        assert_eq!(rt; run.ended, Err(bad));
    }
    Ok(())
}

/// Pages of a log: `hi`, then two entries, `a"\` and one byte that is no text, then one with an LF.
const HI: &[u8] = b"\x82\x01\x01\x00\x00\x00\x01\x00\x07\x00\x00\x00\x01\x00\x02hi";

const TWO: &[u8] = b"\x82\x02\x02\x00\x00\x00\x01\x00\x09\x00\x00\x00\x0c\x00\x03a\"\\\
\x03\x00\x00\x01\x00\x00\x09\x00\x00\x00\x0d\x00\x01\xff";

const LINE_FEED: &[u8] = b"\x82\x01\x01\x00\x00\x00\x02\x00\x07\x00\x00\x00\x02\x00\x02a\n";

const EMPTY: &[u8] = b"\x82\x00";

/// A request to wait for the entries from a place on, at most eight, for five seconds.
const WAIT_1: &[u8] = b"\x00\x08\x06\x00\x00\x00\x01\x08\x13\x88";

const WAIT_2: &[u8] = b"\x00\x08\x06\x00\x00\x00\x02\x08\x13\x88";

const WAIT_4: &[u8] = b"\x00\x08\x06\x00\x00\x00\x04\x08\x13\x88";

const WAIT_5: &[u8] = b"\x00\x08\x06\x00\x00\x00\x05\x08\x13\x88";

#[test]
fn each_entry_of_each_page_is_printed_once(rt: HostRuntime) -> Result<(), Fail> {
    for (form, output) in [
        (
            EntryForm::Text,
            b"1.1 7 1 text hi\n2.1 9 12 text a\"\\\n3.256 9 13 hex ff\n1.2 7 2 hex 610a\n".as_slice(),
        ),
        (
            EntryForm::Hex,
            b"1.1 7 1 6869\n2.1 9 12 61225c\n3.256 9 13 ff\n1.2 7 2 610a\n",
        ),
        (
            EntryForm::Json,
            b"{\"name\":\"1.1\",\"client\":7,\"number\":1,\"text\":\"hi\"}\n\
{\"name\":\"2.1\",\"client\":9,\"number\":12,\"text\":\"a\\\"\\\\\"}\n\
{\"name\":\"3.256\",\"client\":9,\"number\":13,\"hex\":\"ff\"}\n\
{\"name\":\"1.2\",\"client\":7,\"number\":2,\"hex\":\"610a\"}\n",
        ),
    ] {
        let run = follow(rt.alloc(), form, &[HI, EMPTY, BROKEN, TWO, LINE_FEED, DOWN]);
        assert!(rt; run.output.as_slice().starts_with(output), "{form:?}");
        let refused = b"refused 3 0: the node is down: restart it, and send the same again\n";
        assert!(rt; run.output.as_slice().ends_with(refused));
        assert_eq!(rt;
            run.output.len(),
            output.len().saturating_add(refused.len())
        );
        let asked = joined(
            rt.alloc(),
            &[WAIT_1, WAIT_2, WAIT_2, WAIT_2, WAIT_4, WAIT_5],
        )?;
        assert_eq!(rt; run.asked.as_slice(), asked.as_slice());
        assert_eq!(rt; run.ended, Ok(StreamEnd::Refused));
    }
    Ok(())
}

#[test]
fn a_node_without_waits_is_asked_by_reads(rt: HostRuntime) -> Result<(), Fail> {
    let run = follow(rt.alloc(), EntryForm::Text, &[UNKNOWN, HI, EMPTY, UNKNOWN]);
    let refused = b"refused 19 2: the node does not know this request\n";
    let output = joined(rt.alloc(), &[b"1.1 7 1 text hi\n", refused])?;
    let asked = joined(
        rt.alloc(),
        &[
            WAIT_1,
            b"\x00\x06\x02\x00\x00\x00\x01\x08",
            b"\x00\x06\x02\x00\x00\x00\x02\x08",
            b"\x00\x06\x02\x00\x00\x00\x02\x08",
        ],
    )?;
    assert_eq!(rt; run.output.as_slice(), output.as_slice());
    assert_eq!(rt; run.asked.as_slice(), asked.as_slice());
    assert_eq!(rt; run.ended, Ok(StreamEnd::Refused));
    Ok(())
}

#[test]
fn a_follow_ends_without_responses_or_an_output(rt: HostRuntime) -> Result<(), Fail> {
    let run = follow(rt.alloc(), EntryForm::Text, &[HI]);
    assert_eq!(rt; run.output.as_slice(), b"1.1 7 1 text hi\n".as_slice());
    assert_eq!(rt; run.ended, Err(StreamFault::Call(CallFault::BadReply)));
    let run = follow(rt.alloc(), EntryForm::Text, &[HI, ACCEPTED_5]);
    let bad = StreamFault::Call(CallFault::BadReply);
    assert_eq!(rt; run.ended, Err(bad));
    // An output with room for four bytes.
    let mut room = [0u8; 4];
    let mut output = room.as_mut_slice();
    let mut script = Script::new(rt.alloc(), &[HI]);
    let ended = follow_over(rt.alloc(), &mut script, &mut output, EntryForm::Text, 1);
    assert!(rt; matches!(&ended, Err(StreamFault::Output(_))));
    Ok(())
}

#[test]
fn control_characters_are_not_printed_as_text(rt: HostRuntime) -> Result<(), Fail> {
    for (page, line) in [
        // No bytes, a space, and an o with two dots (U+00F6).
        (
            b"\x82\x01\x01\x00\x00\x00\x01\x00\x07\x00\x00\x00\x01\x00\x00".as_slice(),
            b"1.1 7 1 text \n".as_slice(),
        ),
        (
            b"\x82\x01\x01\x00\x00\x00\x01\x00\x07\x00\x00\x00\x01\x00\x03 \xc3\xb6",
            b"1.1 7 1 text  \xc3\xb6\n",
        ),
        // U+001B, U+007F, U+009B and a byte that is cut from a character.
        (
            b"\x82\x01\x01\x00\x00\x00\x01\x00\x07\x00\x00\x00\x01\x00\x02a\x1b",
            b"1.1 7 1 hex 611b\n",
        ),
        (
            b"\x82\x01\x01\x00\x00\x00\x01\x00\x07\x00\x00\x00\x01\x00\x01\x7f",
            b"1.1 7 1 hex 7f\n",
        ),
        (
            b"\x82\x01\x01\x00\x00\x00\x01\x00\x07\x00\x00\x00\x01\x00\x02\xc2\x9b",
            b"1.1 7 1 hex c29b\n",
        ),
        (
            b"\x82\x01\x01\x00\x00\x00\x01\x00\x07\x00\x00\x00\x01\x00\x01\xc3",
            b"1.1 7 1 hex c3\n",
        ),
    ] {
        let run = follow(rt.alloc(), EntryForm::Text, &[page]);
        assert_eq!(rt; run.output.as_slice(), line);
    }
    Ok(())
}

#[test]
fn an_end_has_its_status(rt: HostRuntime) -> Result<(), Fail> {
    for (outcome, status, errors) in [
        (Ok(StreamEnd::Done), 0, b"".as_slice()),
        (Ok(StreamEnd::Refused), 4, b""),
        (
            Err(StreamFault::NoMemory(NoMemory::from(AllocError))),
            1,
            b"urbd: no memory\n",
        ),
        (Err(StreamFault::AtEnd), 1, b"urbd: bad reply\n"),
        (
            Err(StreamFault::Call(CallFault::BadReply)),
            1,
            b"urbd: bad reply: no whole response came from 127.0.0.1:7411\n",
        ),
    ] {
        let terminal = Terminal::new(rt.alloc(), &[], b"", true);
        let status_told = report_stream_end(&terminal, NodeAddress::Port(7411), outcome);
        let shown = terminal.into_shown(status_told);
        assert_eq!(rt; shown.status, status);
        assert_eq!(rt; shown.errors.as_slice(), errors);
    }
    Ok(())
}
