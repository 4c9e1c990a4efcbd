//! Errands: scripts, and a client's commands at a port where a group runs or none does.

ghost use Rattle.std.specs.Prelude.{◌<◌};

use super::groups::events_of;
use std::alloc::{Allocator, Global};
use std::fmt::Display;
use std::io;
use std::io::Lines;
use std::net::{Ipv4Addr, Net, SocketAddr, TcpListener, TcpStream};
use std::test::Fail;
use std::time::{Clock, Duration};
use urb_cli::run_errand;
use urb_link::Station;
use urb_options::{Errand, NodeAddress, PublishOptions, ReadOptions, SubmitOptions};
use urb_terminal::{Shown, Terminal};
use urb_turn::Silent;
use urb_worker::Watch;

/// A terminal for these tests, together with the network of the runtime.
#[derive(Drop)]
struct Wired<'a, N: Net<Listener = TcpListener, Stream = TcpStream>> {
    terminal: Terminal<'a>,
    net: &'a N,
}

impl<N: Net<Listener = TcpListener, Stream = TcpStream>> Print for Wired<'_, N> {
    fn print<D: Display + Drop>(&self, value: D) -> io::Result<()> {
        self.terminal.print(value)
    }

    fn println<D: Display + Drop>(&self, value: D) -> io::Result<()> {
        self.terminal.println(value)
    }

    fn write_all(&self, bytes: &[u8]) -> io::Result<()> {
        self.terminal.write_all(bytes)
    }
}

impl<N: Net<Listener = TcpListener, Stream = TcpStream>> Eprint for Wired<'_, N> {
    fn eprint<D: Display + Drop>(&self, value: D) -> io::Result<()> {
        self.terminal.eprint(value)
    }

    fn eprintln<D: Display + Drop>(&self, value: D) -> io::Result<()> {
        self.terminal.eprintln(value)
    }
}

impl<N: Net<Listener = TcpListener, Stream = TcpStream>> Alloc for Wired<'_, N> {
    type A = Global;

    fn alloc(&self) -> Global {
        self.terminal.alloc()
    }
}

impl<'a, N: Net<Listener = TcpListener, Stream = TcpStream>> Input for Wired<'a, N> {
    type Reader = &'a [u8];

    fn read_line<A: Allocator + Clone>(&self, buf: &mut String<A>) -> io::Result<usize> {
        self.terminal.read_line(buf)
    }

    fn lines<A: Allocator>(&self, alloc: A) -> Lines<&'a [u8], A> {
        self.terminal.lines(alloc)
    }

    fn reader(&self) -> &'a [u8] {
        self.terminal.reader()
    }
}

impl<N: Net<Listener = TcpListener, Stream = TcpStream>> Net for Wired<'_, N> {
    type Stream = TcpStream;

    type Listener = TcpListener;

    fn bind(&self, addr: SocketAddr) -> io::Result<TcpListener> {
        self.net.bind(addr)
    }

    fn connect(&self, addr: SocketAddr) -> io::Result<TcpStream> {
        self.net.connect(addr)
    }
}

impl<N: Clock + Net<Listener = TcpListener, Stream = TcpStream>> Clock for Wired<'_, N> {
    fn monotonic(&self) -> io::Result<Duration> {
        self.net.monotonic()
    }

    fn since_1970(&self) -> io::Result<Duration> {
        self.net.since_1970()
    }

    fn sleep(&self, duration: Duration) {
        self.net.sleep(duration)
    }
}

// Runs an errand at a terminal with this input, whose output is open or not. Returns what it shows,
// and its status.
fn shown_of<'a, N: Clock + Net<Listener = TcpListener, Stream = TcpStream>>(
    net: &'a N,
    alloc: Global,
    errand: Errand<'_>,
    input: &'a [u8],
    open: bool,
) -> Shown {
    let wired = Wired {
        terminal: Terminal::new(alloc, &[], input, open),
        net,
    };
    let status = run_errand(&wired, errand);
    let Wired { terminal, net: _ } = wired;
    terminal.into_shown(status)
}

// Whether it ended with this status, and wrote exactly this to standard output and this to standard
// error.
fn is_all(shown: &Shown, status: u8, output: &[u8], errors: &[u8]) -> bool {
    shown.status == status && shown.output.as_slice() == output && shown.errors.as_slice() == errors
}

// A message that client 7 submits.
fn submit(port: u16, number: u32, text: &str) -> Errand<'_>
    requires { 0 < port }
{
    Errand::Submit(SubmitOptions {
        at: NodeAddress::Port(port),
        client: 7,
        number,
        text,
    })
}

// A page of a log, from this place on.
fn read(port: u16, from: u32) -> Errand<'static>
    requires { (0 < port) × (0 < from) }
{
    Errand::Read(ReadOptions {
        at: NodeAddress::Port(port),
        from,
        max: 8,
    })
}

// Texts that client 7 publishes: this one, or the lines of the input.
fn publish(port: u16, text: Option<&str>) -> Errand<'_>
    requires { 0 < port }
{
    Errand::Publish(PublishOptions {
        at: NodeAddress::Port(port),
        client: 7,
        text,
    })
}

const WRITE_FAILED: &[u8] = b"urbd: write failed\n";

const NETWORK_FAILED: &[u8] = b"urbd: network failed: nobody listens at 127.0.0.1:";

// Whether errands at the port of a new node, one after the other, show and end as expected.
fn show_its_answers<N: Clock + Net<Listener = TcpListener, Stream = TcpStream>>(
    net: &N,
    alloc: Global,
    port: u16,
) -> bool
    requires { 0 < port }
{
    let mut show = true;
    for (errand, open, status, output, errors) in [
        (
            submit(port, 1, "jo"),
            true,
            0,
            b"accepted 1\n".as_slice(),
            b"".as_slice(),
        ),
        (submit(port, 2, ""), true, 0, b"accepted 2\n", b""),
        // The same message again gets the number that it already has.
        (submit(port, 1, "jo"), true, 0, b"accepted 1\n", b""),
        (submit(port, 1, "jok"), true, 4, b"refused 6 0\n", b""),
        (submit(port, 4, "jo"), true, 4, b"refused 7 3\n", b""),
        (read(port, 1), true, 0, b"1.1 7 1 6a6f\n1.2 7 2 -\n", b""),
        (read(port, 3), true, 0, b"", b""),
        (submit(port, 1, "jo"), false, 1, b"", WRITE_FAILED),
        (read(port, 1), false, 1, b"", WRITE_FAILED),
    ] {
        let shown = shown_of(net, alloc, errand, b"", open);
        show = show && is_all(&shown, status, output, errors);
    }
    // The program numbers what it publishes: messages 3 and 4, and then 5.
    let shown = shown_of(net, alloc, publish(port, None), b"a\nb\n", true);
    show = show && is_all(&shown, 0, b"accepted 3\naccepted 4\n", b"");
    let shown = shown_of(net, alloc, publish(port, Some("c")), b"", true);
    show = show && is_all(&shown, 0, b"accepted 5\n", b"");
    let shown = shown_of(net, alloc, read(port, 3), b"", true);
    show && is_all(&shown, 0, b"1.3 7 3 61\n1.4 7 4 62\n1.5 7 5 63\n", b"")
}

// A client of the first node, by errands.
#[derive(Drop)]
struct Errands<'a, N: Clock + Net<Listener = TcpListener, Stream = TcpStream>> {
    net: &'a N,
    alloc: Global,
    show_its_answers: bool,
}

impl<'a, N: Clock + Net<Listener = TcpListener, Stream = TcpStream>> Watch for Errands<'a, N> {
    fn watch(&mut self, stations: &[Station]) {
        if let [station, ..] = stations
            && 0 < station.tcp_port
        {
            self.show_its_answers = show_its_answers(self.net, self.alloc, station.tcp_port);
        }
    }
}

#[test]
fn a_submit_and_a_read_show_what_a_node_answers(rt: HostRuntime) -> Result<(), Fail> {
    let mut errands = Errands {
        net: &rt,
        alloc: rt.alloc(),
        show_its_answers: false,
    };
    let events = events_of(&rt, rt.alloc(), 1, 20, &Silent, &mut errands);
    assert!(rt; errands.show_its_answers);
    assert!(rt; events.is_some());
    Ok(())
}

#[test]
fn where_nobody_listens_that_is_told(rt: HostRuntime) -> Result<(), Fail> {
    let listener = TcpListener::bind(&rt, (Ipv4Addr::LOCALHOST, 0))?;
    let port = listener.local_addr()?.port();
    if port == 0 {
        return Err("a port")?;
    }
    drop(listener);
    for errand in [submit(port, 1, "jo"), read(port, 1)] {
        let shown = shown_of(&rt, rt.alloc(), errand, b"", true);
        assert!(rt; shown.is(1, b"", NETWORK_FAILED, b"\n"));
    }
    Ok(())
}

#[test]
fn a_script_is_an_errand(rt: HostRuntime) -> Result<(), Fail> {
    for (input, open, status, output, errors) in [
        (
            b"group 1 1\n".as_slice(),
            true,
            0,
            b"group 1 1\n".as_slice(),
            b"".as_slice(),
        ),
        (b"group 0 1\n", true, 2, b"bad line 1\n", b""),
        (b"group 1 1\n", false, 1, b"", WRITE_FAILED),
    ] {
        let shown = shown_of(&rt, rt.alloc(), Errand::Replay, input, open);
        assert!(rt; is_all(&shown, status, output, errors));
    }
    Ok(())
}
