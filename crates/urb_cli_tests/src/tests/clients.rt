//! The commands of a client, over bytes in memory and over a socket.

ghost use Rattle.std.specs.Prelude.{◌<◌, ◌≤◌, ⊤, length};

use std::alloc::{AllocError, Global};
use std::io::{Read, Write};
use std::net::{Ipv4Addr, Net, TcpListener, TcpStream};
use std::test::Fail;
use std::thread;
use std::thread::Threads;
use urb_cli::{
    Asker, CallFault, Printed, exchange, read_at, read_by, show, status_at, status_by, submit_at,
    submit_by,
};
use urb_client::{Control, Request, Response};
use urb_names::{MAX_PAYLOAD, NoMemory};
use urb_options::{NodeAddress, ReadOptions, SubmitOptions};
use urb_refusing::{FailingReader, FailingWriter};
use urb_terminal::Terminal;

/// The address of the node that a terminal is told of.
const NODE: NodeAddress<'static> = NodeAddress::Port(7411);

/// What client 7 submits as its first message.
fn hi(port: u16) -> SubmitOptions<'static>
    requires { 0 < port }
    ensures { length result.text.now ≤ MAX_PAYLOAD }
{
    SubmitOptions {
        at: NodeAddress::Port(port),
        client: 7,
        number: 1,
        text: "hi",
    }
}

/// The first page of a log.
fn page(port: u16) -> ReadOptions<'static>
    requires { 0 < port }
{
    ReadOptions {
        at: NodeAddress::Port(port),
        from: 1,
        max: 8,
    }
}

/// Asks a node over an input and an output in memory.
#[derive(Drop)]
struct Wire<'a> {
    alloc: Global,
    input: &'a [u8],
    output: Vec<u8>,
}

impl<'a> Wire<'a> {
    fn new(alloc: Global, input: &'a [u8]) -> Wire<'a> {
        Wire {
            alloc,
            input,
            output: Vec::new(alloc),
        }
    }
}

impl Asker for Wire<'_> {
    ghost answers = { λ old at asked answer new. ⊤ };

    fn ask(&mut self, _at: NodeAddress<'_>, request: &Request) -> Result<Response, CallFault> {
        exchange(self.alloc, &mut self.input, &mut self.output, request)
    }
}

/// What is shown, with its status, or the fault.
fn told<E: Copy>(outcome: &Result<Printed, E>) -> Result<(&[u8], u8), E> {
    match outcome {
        Ok(shown) => Ok((shown.text.as_slice(), shown.status)),
        Err(fault) => Err(*fault),
    }
}

const ACCEPTED: &[u8] = b"\x00\x05\x81\x00\x00\x00\x01";

const GAP: &[u8] = b"\x00\x06\xee\x07\x00\x00\x00\x02";

/// Two entries: `hi`, and one without a payload.
const ENTRIES: &[u8] =
    b"\x00\x1e\x82\x02\x01\x00\x00\x00\x01\x00\x07\x00\x00\x00\x01\x00\x02hi\x03\x00\x00\x01\x00\
\x00\x09\x00\x00\x00\x0c\x00\x00";

const ENTRIES_TEXT: &[u8] = b"1.1 7 1 6869\n3.256 9 12 -\n";

/// Bytes that are no response, are cut, or answer neither a submit nor a read.
const BAD: [&[u8]; 6] = [
    b"",
    b"\x00",
    b"\x00\x05\x81\x00\x00\x00",
    b"\x00\x00",
    b"\x00\x01\x84",
    b"\x00\x0a\x83\x01\x00\x00\x00\x01\x00\x00\x00\x01",
];

#[test]
fn a_submit_shows_its_response(rt: HostRuntime) -> Result<(), Fail> {
    let submitting = hi(1);
    for (sent, text, status) in [
        (ACCEPTED, b"accepted 1\n".as_slice(), 0),
        (GAP, b"refused 7 2\n", 4),
        (b"\x00\x06\xee\x13\x00\x00\x00\x04", b"refused 19 4\n", 4),
        (
            b"\x00\x05\x81\xff\xff\xff\xffmore",
            b"accepted 4294967295\n",
            0,
        ),
    ] {
        let mut wire = Wire::new(rt.alloc(), sent);
        let outcome = submit_by(rt.alloc(), &mut wire, submitting);
        assert_eq!(rt; told(&outcome), Ok((text, status)));
        assert_eq!(rt;
            wire.output.as_slice(),
            b"\x00\x09\x01\x00\x07\x00\x00\x00\x01hi".as_slice()
        );
    }
    for sent in &BAD {
        let mut wire = Wire::new(rt.alloc(), *sent);
        let outcome = submit_by(rt.alloc(), &mut wire, submitting);
        assert_eq!(rt; told(&outcome), Err(CallFault::BadReply));
    }
    let mut wire = Wire::new(rt.alloc(), ENTRIES);
    let outcome = submit_by(rt.alloc(), &mut wire, submitting);
    assert_eq!(rt; told(&outcome), Err(CallFault::BadReply));
    Ok(())
}

#[test]
fn a_read_shows_its_response(rt: HostRuntime) -> Result<(), Fail> {
    for (sent, text, status) in [
        (ENTRIES, ENTRIES_TEXT, 0),
        (b"\x00\x02\x82\x00", b"", 0),
        (b"\x00\x06\xee\x03\x00\x00\x00\x00", b"refused 3 0\n", 4),
    ] {
        let mut wire = Wire::new(rt.alloc(), sent);
        let outcome = read_by(rt.alloc(), &mut wire, page(1));
        assert_eq!(rt; told(&outcome), Ok((text, status)));
        assert_eq!(rt;
            wire.output.as_slice(),
            b"\x00\x06\x02\x00\x00\x00\x01\x08".as_slice()
        );
    }
    for sent in &BAD {
        let mut wire = Wire::new(rt.alloc(), *sent);
        let outcome = read_by(rt.alloc(), &mut wire, page(1));
        assert_eq!(rt; told(&outcome), Err(CallFault::BadReply));
    }
    let mut wire = Wire::new(rt.alloc(), ACCEPTED);
    let outcome = read_by(rt.alloc(), &mut wire, page(1));
    assert_eq!(rt; told(&outcome), Err(CallFault::BadReply));
    Ok(())
}

#[test]
fn what_is_shown_goes_to_standard_output(rt: HostRuntime) -> Result<(), Fail> {
    for (open, status, output, errors) in [
        (true, 4, b"refused 5 0\n".as_slice(), b"".as_slice()),
        (false, 1, b"", b"urbd: write failed\n"),
    ] {
        let terminal = Terminal::new(rt.alloc(), &[], b"", open);
        let text = Vec::from_slice(rt.alloc(), b"refused 5 0\n")?;
        let told = show(&terminal, NODE, Ok(Printed { text, status: 4 }));
        let shown = terminal.into_shown(told);
        assert!(rt; shown.is(status, output, errors, errors));
    }
    Ok(())
}

/// The fault of a question for the state over this input and this output.
fn fault_over<R: Read, W: Write>(
    alloc: Global,
    reader: &mut R,
    writer: &mut W,
) -> Option<CallFault> {
    exchange(alloc, reader, writer, &Request::Ask(Control::Status)).err()
}

/// What is reported of a fault, and whether the status is 1.
fn is_reported(alloc: Global, fault: Option<CallFault>, line: &[u8]) -> bool {
    let Some(fault) = fault else {
        return false;
    };
    let terminal = Terminal::new(alloc, &[], b"", true);
    let told = show(&terminal, NODE, Err(fault));
    terminal.into_shown(told).is(1, b"", line, line)
}

#[test]
fn a_fault_says_what_is_wrong(rt: HostRuntime) -> Result<(), Fail> {
    let alloc = rt.alloc();
    let listener = TcpListener::bind(&rt, (Ipv4Addr::LOCALHOST, 0))?;
    let port = listener.local_addr()?.port();
    drop(listener);
    let nobody = status_at(&rt, alloc, NodeAddress::Port(port)).err();
    // A path that is longer than the system takes.
    let long = Vec::from_elem(alloc, b'x', 200)?;
    let path = str::from_utf8(long.as_slice()).or(Err("a path"))?;
    let unconnected = status_at(&rt, alloc, NodeAddress::Socket(path)).err();
    let mut written = Vec::new(alloc);
    let mut failing = FailingReader::new(ACCEPTED, 1, 1);
    let unread = fault_over(alloc, &mut failing, &mut written);
    let (mut reader, mut room) = (ACCEPTED, [0u8; 8]);
    let unsent = fault_over(alloc, &mut reader, &mut FailingWriter::new(&mut room, 1, 1));
    for (fault, line) in [
        (
            nobody,
            b"urbd: network failed: nobody listens at 127.0.0.1:7411\n".as_slice(),
        ),
        (
            unconnected,
            b"urbd: network failed: the system made no connection to 127.0.0.1:7411\n",
        ),
        (
            unread,
            b"urbd: read failed: the connection broke, or no answer came from 127.0.0.1:7411\n",
        ),
        (
            unsent,
            b"urbd: write failed: the request was not sent whole to 127.0.0.1:7411\n",
        ),
        (
            Some(CallFault::BadReply),
            b"urbd: bad reply: no whole response came from 127.0.0.1:7411\n",
        ),
        (
            Some(CallFault::from(NoMemory::from(AllocError))),
            b"urbd: no memory: the call ended early, of 127.0.0.1:7411\n",
        ),
    ] {
        assert!(rt; is_reported(alloc, fault, line), "{fault:?}");
    }
    Ok(())
}

#[test]
fn a_state_is_shown_in_a_line(rt: HostRuntime) -> Result<(), Fail> {
    for (sent, text, status) in [
        (
            b"\x00\x0a\x83\x01\x00\x00\x00\x0c\x00\x00\x00\x24".as_slice(),
            b"7411 ready accepted 12 shown 36\n".as_slice(),
            0,
        ),
        (
            b"\x00\x0a\x83\x00\x00\x00\x00\x00\x00\x00\x00\x00",
            b"7411 down accepted 0 shown 0\n",
            0,
        ),
        (
            b"\x00\x0a\x83\x02\xff\xff\xff\xff\x00\x00\x00\x01",
            b"7411 storing accepted 4294967295 shown 1\n",
            0,
        ),
        (
            b"\x00\x06\xee\x13\x00\x00\x00\x02",
            b"7411 refused 19 2: the node does not know this request\n",
            4,
        ),
        (
            b"\x00\x06\xee\x07\x00\x00\x00\x03",
            b"7411 refused 7 3: the next number is 3\n",
            4,
        ),
    ] {
        let mut wire = Wire::new(rt.alloc(), sent);
        let outcome = status_by(rt.alloc(), &mut wire, NODE);
        assert_eq!(rt; told(&outcome), Ok((text, status)));
        assert_eq!(rt; wire.output.as_slice(), b"\x00\x01\x03".as_slice());
    }
    for sent in [b"".as_slice(), b"\x00\x01\x84", ACCEPTED, ENTRIES] {
        let mut wire = Wire::new(rt.alloc(), sent);
        let outcome = status_by(rt.alloc(), &mut wire, NODE);
        assert_eq!(rt; told(&outcome), Err(CallFault::BadReply));
    }
    Ok(())
}

/// Takes one connection, reads as many bytes as a request has, and sends these bytes.
fn serve_once(
    alloc: Global,
    listener: &TcpListener,
    request: usize,
    answer: &[u8],
) -> Option<Vec<u8>> {
    let (mut stream, _) = listener.accept().ok()?;
    let mut asked = Vec::new(alloc);
    let mut byte = [0u8; 1];
    for _ in 0..request {
        if stream.read(&mut byte).ok()? != 1 {
            return None;
        }
        asked.push(byte[0]).ok()?;
    }
    stream.write_all(answer).ok()?;
    Some(asked)
}

/// A submit, beside a node that gives it this answer. Returns what the node was asked, and the
/// outcome of the submit.
fn submit_beside<R>(
    rt: &R,
    alloc: Global,
    listener: &TcpListener,
    answer: &[u8],
    submitting: SubmitOptions<'_>,
) -> (Option<Vec<u8>>, Result<Printed, CallFault>)
where
    R: Threads + Net<Listener = TcpListener, Stream = TcpStream> + Sync,
{
    thread::join(
        rt,
        move || serve_once(alloc, listener, 11, answer),
        move || submit_at(rt, alloc, submitting),
    )
}

/// Does this for a read.
fn read_beside<R>(
    rt: &R,
    alloc: Global,
    listener: &TcpListener,
    answer: &[u8],
    reading: ReadOptions<'_>,
) -> (Option<Vec<u8>>, Result<Printed, CallFault>)
where
    R: Threads + Net<Listener = TcpListener, Stream = TcpStream> + Sync,
{
    thread::join(
        rt,
        move || serve_once(alloc, listener, 8, answer),
        move || read_at(rt, alloc, reading),
    )
}

#[test]
fn a_submit_goes_over_a_socket(rt: HostRuntime) -> Result<(), Fail> {
    let listener = TcpListener::bind(&rt, (Ipv4Addr::LOCALHOST, 0))?;
    let port = listener.local_addr()?.port();
    if port == 0 {
        return Err("a port")?;
    }
    let submitting = hi(port);
    let asked = b"\x00\x09\x01\x00\x07\x00\x00\x00\x01hi".as_slice();
    for (answer, text, status) in [
        (ACCEPTED, b"accepted 1\n".as_slice(), 0),
        (GAP, b"refused 7 2\n", 4),
    ] {
        let (seen, outcome) = submit_beside(&rt, rt.alloc(), &listener, answer, submitting);
        assert_eq!(rt; told(&outcome), Ok((text, status)));
        assert_eq!(rt; seen.ok_or("a request")?.as_slice(), asked);
    }
    for answer in [b"".as_slice(), b"\x00\x05\x81\x00", ENTRIES] {
        let (_, outcome) = submit_beside(&rt, rt.alloc(), &listener, answer, submitting);
        assert_eq!(rt; told(&outcome), Err(CallFault::BadReply));
    }
    // A text over 16,384 bytes isn't sent.
    let long = Vec::from_elem(rt.alloc(), b'x', MAX_PAYLOAD + 1)?;
    let text = str::from_utf8(long.as_slice()).or(Err("a text"))?;
    let submitting = SubmitOptions {
        at: NodeAddress::Port(port),
        client: 7,
        number: 1,
        text,
    };
    let outcome = submit_at(&rt, rt.alloc(), submitting);
    assert_eq!(rt; told(&outcome), Ok((b"refused 5 0\n".as_slice(), 4)));
    Ok(())
}

#[test]
fn a_read_goes_over_a_socket(rt: HostRuntime) -> Result<(), Fail> {
    let listener = TcpListener::bind(&rt, (Ipv4Addr::LOCALHOST, 0))?;
    let port = listener.local_addr()?.port();
    if port == 0 {
        return Err("a port")?;
    }
    let (seen, outcome) = read_beside(&rt, rt.alloc(), &listener, ENTRIES, page(port));
    assert_eq!(rt; told(&outcome), Ok((ENTRIES_TEXT, 0)));
    let asked = b"\x00\x06\x02\x00\x00\x00\x01\x08".as_slice();
    assert_eq!(rt; seen.ok_or("a request")?.as_slice(), asked);
    let (_, outcome) = read_beside(&rt, rt.alloc(), &listener, ACCEPTED, page(port));
    assert_eq!(rt; told(&outcome), Err(CallFault::BadReply));
    // If no node listens, that is reported.
    drop(listener);
    let outcome = read_at(&rt, rt.alloc(), page(port));
    assert!(rt; matches!(told(&outcome), Err(CallFault::NobodyListens(_))));
    let outcome = status_at(&rt, rt.alloc(), NodeAddress::Port(port));
    assert!(rt; matches!(told(&outcome), Err(CallFault::NobodyListens(_))));
    Ok(())
}
