//! The program by its words, over a folder, sockets and streams of a test.

use super::visits::is_cleared;
use crossbeam_channel::Sender;
use std::alloc::Global;
use std::fmt::Display;
use std::io::{IsTerminal, Read};
use std::marker::Brand;
use std::net::{Net, TcpListener, TcpStream};
use std::rt::HostRuntime;
use std::sync::Wait;
use std::sync::atomic::{AtomicU64, Ordering};
use std::test::Fail;
use std::{fs, io};
use urb_cli::{CallFault, Printed, read_at, submit_at};
use urb_daemon::{Host, run_program};
use urb_folder::{FolderClaim, NodeFile};
use urb_options::{NodeAddress, ReadOptions, SubmitOptions};
use urb_terminal::{Shown, Terminal};

/// An output for errors that keeps what it shows.
#[derive(Drop)]
struct Kept<R: Wait> {
    rt: R,
    alloc: Global,
    shown: Sender<String>,
}

impl<R: Wait> Kept<R> {
    fn keep(&self, text: String) -> io::Result<()> {
        let _ = self.shown.send(&self.rt, text);
        Ok(())
    }
}

impl<R: Wait> Eprint for Kept<R> {
    fn eprint<D: Display + Drop>(&self, value: D) -> io::Result<()> {
        self.keep(format!(in self.alloc; "{value}")?)
    }

    fn eprintln<D: Display + Drop>(&self, value: D) -> io::Result<()> {
        self.keep(format!(in self.alloc; "{value}\n")?)
    }
}

/// An input that ends at once, and isn't a terminal.
#[derive(Drop)]
struct ClosedInput;

impl Read for ClosedInput {
    fn read(&mut self, _buf: &mut [u8]) -> io::Result<usize> {
        Ok(0)
    }
}

impl IsTerminal for ClosedInput {
    fn is_terminal(&self) -> bool {
        false
    }
}

// Whether this is no line that says how far a start or a stop is. A slow machine has some.
fn is_kept(text: &str) -> bool {
    !text.starts_with("urbd: starting for ") && !text.starts_with("urbd: stopping for ")
}

// Runs the program with these words until this input ends, and returns what it shows. Its output can
// be written or not. What a group reports on standard error comes after what an errand does.
fn run_with<R, I: Read + IsTerminal + Drop>(
    rt: R,
    files: &HostRuntime,
    words: &[&[u8]],
    open: bool,
    input: I,
) -> Option<Shown>
where
    R: Host + Net<Listener = TcpListener, Stream = TcpStream> + Copy + Send + Drop + 'static,
{
    let alloc = files.alloc();
    let (sends, errors) = crossbeam_channel::unbounded(alloc).ok()?;
    let output = Kept {
        rt,
        alloc,
        shown: sends,
    };
    let terminal = Terminal::new(alloc, words, b"", open);
    let claim = FolderClaim::new();
    let status = run_program::<NodeFile<Brand>, _, _, _, _>(
        rt, files, &terminal, input, output, claim,
    );
    let mut shown = terminal.into_shown(status);
    for text in errors.iter(&rt) {
        if is_kept(text.as_str()) {
            shown.errors.extend_from_slice(text.as_bytes()).ok()?;
        }
    }
    Some(shown)
}

/// Which calls a client makes.
#[derive(Clone, Copy)]
enum Visit {
    First,
    Second,
}

/// The client of a group, which is its input. The input ends once the client has made its calls at
/// this port, and has counted those that showed what they have to.
#[derive(Drop)]
struct Client<'r, 'c, R: Net<Listener = TcpListener, Stream = TcpStream>> {
    rt: &'r R,
    alloc: Global,
    port: u16,
    shown: &'c AtomicU64,
    visit: Visit,
}

impl<'r, 'c, R: Net<Listener = TcpListener, Stream = TcpStream>> IsTerminal for Client<'r, 'c, R> {
    fn is_terminal(&self) -> bool {
        false
    }
}

impl<'r, 'c, R: Net<Listener = TcpListener, Stream = TcpStream>> Client<'r, 'c, R> {
    // Counts a call that showed this.
    fn count(&self, called: Result<Printed, CallFault>, output: &[u8]) {
        if let Ok(printed) = called
            && printed.text.as_slice() == output
        {
            self.shown.fetch_add(1, Ordering::SeqCst);
        }
    }

    // Submits a message of client 7, and counts the call if it showed this.
    fn submit(&self, number: u32, text: &str, output: &[u8]) {
        if 0 < self.port {
            let submitting = SubmitOptions {
                at: NodeAddress::Port(self.port),
                client: 7,
                number,
                text,
            };
            self.count(submit_at(self.rt, self.alloc, submitting), output);
        }
    }

    // Reads the log, and counts the call if it showed this.
    fn read_log(&self, output: &[u8]) {
        if 0 < self.port {
            let reading = ReadOptions {
                at: NodeAddress::Port(self.port),
                from: 1,
                max: 8,
            };
            self.count(read_at(self.rt, self.alloc, reading), output);
        }
    }
}

impl<'r, 'c, R: Net<Listener = TcpListener, Stream = TcpStream>> Read for Client<'r, 'c, R> {
    fn read(&mut self, _buf: &mut [u8]) -> io::Result<usize> {
        match self.visit {
            Visit::First => {
                self.submit(1, "a", b"accepted 1\n");
                self.submit(2, "b", b"accepted 2\n");
                self.read_log(b"1.1 7 1 61\n1.2 7 2 62\n");
            }
            Visit::Second => {
                self.read_log(b"1.1 7 1 61\n1.2 7 2 62\n");
                self.submit(1, "a", b"accepted 1\n");
                self.submit(3, "c", b"accepted 3\n");
            }
        }
        Ok(0)
    }
}

const FOLDER: &str = "urbd_programs";

// What a group of one node over the folder shows at these ports, and how many calls of its client
// showed what they have to.
fn serve_at<R>(
    rt: R,
    files: &HostRuntime,
    base: &[u8],
    port: u16,
    visit: Visit,
) -> Option<(Shown, u64)>
where
    R: Host + Net<Listener = TcpListener, Stream = TcpStream> + Copy + Send + Drop + 'static,
{
    let words = [
        b"urbd".as_slice(),
        b"serve",
        b"--nodes=1",
        b"--cap=100",
        b"--dir=urbd_programs",
        b"--tick-ms=60000",
        b"--base-port",
        base,
    ];
    let count = AtomicU64::new(0);
    let client = Client {
        rt: &rt,
        alloc: files.alloc(),
        port,
        shown: &count,
        visit,
    };
    let shown = run_with(rt, files, words.as_slice(), true, client)?;
    Some((shown, count.load(Ordering::SeqCst)))
}

// The same, at ports that are free.
fn serve_with<R>(rt: R, files: &HostRuntime, visit: Visit) -> Option<(Shown, u64)>
where
    R: Host + Net<Listener = TcpListener, Stream = TcpStream> + Copy + Send + Drop + 'static,
{
    for (base, port) in [
        (b"23750".as_slice(), 23_761u16),
        (b"25910", 25_921),
        (b"29170", 29_181),
    ] {
        let (shown, count) = serve_at(rt, files, base, port, visit)?;
        if !shown.is(1, b"", b"urbd: network failed", b"") {
            return Some((shown, count));
        }
    }
    None
}

#[test]
fn the_program_runs_a_group_and_is_its_client(rt: HostRuntime) -> Result<(), Fail> {
    assert!(rt; is_cleared(&rt, FOLDER));
    let (shown, count) = serve_with(rt, &rt, Visit::First).ok_or("memory")?;
    assert_eq!(rt; count, 3);
    assert!(rt; shown.is(0, b"open 1\nclosed 4\n", b"", b""));
    assert!(rt; shown.errors.is_empty());
    // The next run goes on from the journals.
    let (shown, count) = serve_with(rt, &rt, Visit::Second).ok_or("memory")?;
    assert_eq!(rt; count, 3);
    assert_eq!(rt; shown.status, 0);
    assert!(rt; shown.output.as_slice().starts_with(b"open 1\nclosed "));
    fs::remove_dir_all(&rt, FOLDER)?;
    Ok(())
}

#[test]
fn the_program_ends_with_the_status_of_what_its_words_ask_for(rt: HostRuntime) -> Result<(), Fail> {
    for (words, status, output, begins) in [
        (
            [b"urbd".as_slice(), b"sing"].as_slice(),
            3,
            b"".as_slice(),
            b"error: ".as_slice(),
        ),
        (&[b"urbd", b"\xff"], 3, b"", b"error: "),
        (&[b"urbd", b"replay"], 2, b"bad line 1\n", b""),
        (
            &[b"urbd", b"read", b"--port=1", b"--from=1", b"--max=1"],
            1,
            b"",
            b"urbd: network failed: nobody listens at 127.0.0.1:1",
        ),
        (
            &[
                b"urbd",
                b"serve",
                b"--nodes=1",
                b"--cap=1",
                b"--dir=urbd_no_folder",
                b"--base-port=23750",
                b"--tick-ms=20",
            ],
            1,
            b"",
            b"urbd: refused 15 0: urbd_no_folder/node-1.db: ",
        ),
    ] {
        let shown = run_with(rt, &rt, words, true, ClosedInput).ok_or("memory")?;
        assert_eq!(rt; shown.status, status);
        assert_eq!(rt; shown.output.as_slice(), output);
        let errors = str::from_utf8(shown.errors.as_slice()).or(Err("a text"))?;
        assert!(rt; errors.as_bytes().starts_with(begins), "{errors}");
    }
    // The help can't be written.
    let shown = run_with(rt, &rt, &[b"urbd", b"--help"], false, ClosedInput).ok_or("memory")?;
    assert!(rt; shown.is(1, b"", b"urbd: write failed\n", b""));
    Ok(())
}
