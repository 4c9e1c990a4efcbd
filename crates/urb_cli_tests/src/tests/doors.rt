//! Where nodes take their clients: the options of `serve`, and the address that a client's command
//! names.

use std::alloc::Global;
use std::io::{Read, Write};
use std::net::{Net, TcpListener, TcpStream};
use std::os::unix::net::{UnixListener, UnixStream};
use std::test::Fail;
use std::thread::Threads;
use std::{fs, thread};
use urb_cli::{CallFault, report_call_fault, status_at};
use urb_options::{
    DoorOptions, Errand, Line, MAX_SOCKET_MODE, NodeAddress, STANDARD_SOCKET_MODE, SocketOptions,
    parse_line,
};
use urb_terminal::Terminal;

/// A whole command line without these options.
const SERVE: [&str; 12] = [
    "urbd",
    "serve",
    "--nodes",
    "3",
    "--cap",
    "10",
    "--dir",
    "d",
    "--base-port",
    "2000",
    "--tick-ms",
    "50",
];

/// What options ask for: whether there is TCP, and the folder of the sockets with their mode.
type Asked = (bool, Option<(&'static str, u16)>);

/// What a line with these further words asks for. `None` if it is refused.
fn asked_by(alloc: Global, more: &[&'static str]) -> Result<Option<Asked>, Fail> {
    let terminal = Terminal::new(alloc, &[], b"", true);
    let mut words = Vec::from_slice(alloc, &SERVE)?;
    words.extend_from_slice(more)?;
    match parse_line(&terminal, alloc, words.as_slice()) {
        Ok(Line::Serve(serving)) => {
            let mut sockets = None;
            if let Some(asked) = serving.doors.sockets {
                let dir = if asked.dir == "/run/s" { "/run/s" } else { "?" };
                sockets = Some((dir, asked.mode));
            }
            Ok(Some((serving.doors.takes_tcp, sockets)))
        }
        _ => Ok(None),
    }
}

#[test]
fn options_say_where_nodes_take_their_clients(rt: HostRuntime) -> Result<(), Fail> {
    for (more, asked) in [
        ([].as_slice(), (true, None)),
        (&["--socket-dir", "/run/s"], (true, Some(("/run/s", 0o660)))),
        (
            &["--no-tcp", "--socket-dir", "/run/s"],
            (false, Some(("/run/s", 0o660))),
        ),
        (
            &["--socket-dir=/run/s", "--socket-mode", "600"],
            (true, Some(("/run/s", 0o600))),
        ),
        (
            &["--socket-dir=/run/s", "--socket-mode=0777", "--no-tcp"],
            (false, Some(("/run/s", 0o777))),
        ),
        (
            &["--socket-dir=/run/s", "--socket-mode=000"],
            (true, Some(("/run/s", 0))),
        ),
    ] {
        assert_eq!(rt; asked_by(rt.alloc(), more)?, Some(asked), "{more:?}");
    }
    for more in [
        ["--no-tcp"].as_slice(),
        &["--socket-mode", "660"],
        &["--no-tcp", "--socket-mode", "660"],
        &["--socket-dir", ""],
        &["--socket-dir"],
        &["--socket-dir", "/run/s", "--socket-dir", "/run/s"],
        &["--socket-dir=/run/s", "--socket-mode", "66"],
        &["--socket-dir=/run/s", "--socket-mode", "680"],
        &["--socket-dir=/run/s", "--socket-mode", "6600"],
        &["--socket-dir=/run/s", "--socket-mode", "1660"],
        &["--socket-dir=/run/s", "--socket-mode", "00660"],
        &["--socket-dir=/run/s", "--socket-mode", "0o660"],
        &["--socket-dir=/run/s", "--socket-mode", "+66"],
        &["--socket-dir=/run/s", "--socket-mode", "rw-"],
        &["--socket-dir=/run/s", "--no-tcp", "--no-tcp"],
    ] {
        assert_eq!(rt; asked_by(rt.alloc(), more)?, None, "{more:?}");
    }
    Ok(())
}

#[test]
fn doors_have_their_ranges(rt: HostRuntime) -> Result<(), Fail> {
    assert_eq!(rt; (MAX_SOCKET_MODE, STANDARD_SOCKET_MODE), (0o777, 0o660));
    assert!(rt; SocketOptions::new("s", 0o1000).is_none());
    let sockets = SocketOptions::new("s", 0o777).ok_or("refused")?;
    assert_eq!(rt; (sockets.dir, sockets.mode), ("s", 0o777));
    let doors = DoorOptions::with_sockets(false, sockets);
    assert!(rt; !doors.takes_tcp && doors.sockets.is_some());
    let doors = DoorOptions::tcp_alone();
    assert!(rt; doors.takes_tcp && doors.sockets.is_none());
    Ok(())
}

/// The address that a client's command names. `None` if the line is refused, or is no client's.
fn address_in<'a>(alloc: Global, words: &'a [&'a str]) -> Option<NodeAddress<'a>> {
    let terminal = Terminal::new(alloc, &[], b"", true);
    match parse_line(&terminal, alloc, words) {
        Ok(Line::Errand(Errand::Submit(submitting))) => Some(submitting.at),
        Ok(Line::Errand(Errand::Read(reading))) => Some(reading.at),
        Ok(Line::Errand(Errand::Status(asking))) if asking.count == 1 => Some(asking.at),
        Ok(Line::Errand(Errand::Publish(publishing))) => Some(publishing.at),
        Ok(Line::Errand(Errand::Follow(following))) => Some(following.at),
        _ => None,
    }
}

#[test]
fn each_command_takes_a_port_or_a_socket(rt: HostRuntime) -> Result<(), Fail> {
    for command in [
        ["urbd", "submit", "--client=7", "--number=1", "hi"].as_slice(),
        &["urbd", "read", "--from=1", "--max=8"],
        &["urbd", "status"],
        &["urbd", "publish", "--client=7"],
        &["urbd", "follow"],
    ] {
        for (more, address) in [
            (["--port", "7411"].as_slice(), Some(NodeAddress::Port(7411))),
            (&["--socket", "s/n"], Some(NodeAddress::Socket("s/n"))),
            (&["--port", "7411", "--socket", "s/n"], None),
            (&["--socket", "s/n", "--socket", "s/n"], None),
            (&["--socket", ""], None),
            (&[], None),
        ] {
            let mut words = Vec::from_slice(rt.alloc(), command)?;
            words.extend_from_slice(more)?;
            assert_eq!(rt;
                address_in(rt.alloc(), words.as_slice()),
                address,
                "{words:?}"
            );
        }
    }
    for more in [
        ["--socket", "s", "--base-port", "7400", "--nodes", "3"].as_slice(),
        &["--socket", "s", "--nodes", "3"],
        &["--socket", "s", "--base-port", "7400"],
    ] {
        let mut words = Vec::from_slice(rt.alloc(), &["urbd", "status"])?;
        words.extend_from_slice(more)?;
        assert_eq!(rt; address_in(rt.alloc(), words.as_slice()), None, "{words:?}");
    }
    Ok(())
}

/// The path of this test's socket.
const PATH: &str = "urb_cli_node.sock";

/// The answer of a node that is ready: it has accepted two messages, and shows three.
const READY: &[u8] = b"\x00\x0a\x83\x01\x00\x00\x00\x02\x00\x00\x00\x03";

/// Takes one connection, reads a question for the state, and sends the answer.
fn answer_once(listener: &UnixListener) -> Option<()> {
    let (mut stream, _) = listener.accept().ok()?;
    stream.read_exact(&mut [0u8; 3]).ok()?;
    stream.write_all(READY).ok()
}

/// The line of a status over the socket, beside a node that answers it.
fn status_beside<R>(rt: &R, alloc: Global, listener: &UnixListener) -> Option<bool>
where
    R: Threads + Sync + Net<Listener = TcpListener, Stream = TcpStream>,
{
    let (_, outcome) = thread::join(
        rt,
        move || answer_once(listener),
        move || status_at(rt, alloc, NodeAddress::Socket(PATH)),
    );
    let shown = outcome.ok()?;
    let line = b"urb_cli_node.sock ready accepted 2 shown 3\n".as_slice();
    Some(shown.text.as_slice() == line && shown.status == 0)
}

#[test]
fn a_status_goes_over_a_unix_socket(rt: HostRuntime) -> Result<(), Fail> {
    let _ = fs::remove_file(&rt, PATH);
    let missing = status_at(&rt, rt.alloc(), NodeAddress::Socket(PATH));
    assert!(rt; matches!(&missing, Err(CallFault::NobodyListens(_))));
    let listener = UnixListener::bind(&rt, PATH)?;
    assert_eq!(rt; status_beside(&rt, rt.alloc(), &listener), Some(true));
    drop(listener);
    let ended = status_at(&rt, rt.alloc(), NodeAddress::Socket(PATH));
    fs::remove_file(&rt, PATH)?;
    assert!(rt; matches!(&ended, Err(CallFault::NobodyListens(_))));
    assert!(rt; UnixStream::connect(&rt, PATH).is_err());
    Ok(())
}

#[test]
fn a_fault_names_the_socket(rt: HostRuntime) -> Result<(), Fail> {
    let terminal = Terminal::new(rt.alloc(), &[], b"", true);
    let at = NodeAddress::Socket("/run/urbd/node-1.sock");
    let status = report_call_fault(&terminal, at, CallFault::BadReply);
    let shown = terminal.into_shown(status);
    let line = b"urbd: bad reply: no whole response came from /run/urbd/node-1.sock\n".as_slice();
    assert_eq!(rt; (shown.status, shown.errors.as_slice()), (1, line));
    Ok(())
}
