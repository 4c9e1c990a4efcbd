//! Groups over the files of a folder. A client of each node uses them until they end.

use std::alloc::Global;
use std::cell::RefCell;
use std::io::{Read, Write};
use std::marker::Brand;
use std::net::{Ipv4Addr, Net, TcpListener, TcpStream};
use std::rt::HostRuntime;
use std::thread::Threads;
use std::time::{Clock, Duration};
use std::{fs, io, thread};
use urb_daemon::{Console, Host, fault_of_folder, fault_of_serve, run_journals};
use urb_folder::{FolderClaim, NodeFile, close_journals, open_journals};
use urb_options::{Fault, ServeOptions};
use urb_terminal::Terminal;
use urb_turn::Silent;

/// How a group leaves its journals at its end. They are closed, so that only one file is left of
/// each; or they are dropped, as after a kill.
#[derive(Clone, Copy, PartialEq, Eq)]
pub enum Leave {
    Closed,
    Dropped,
}

/// What the clients of a group saw. They saw the log of each node, right after the group was opened
/// and at the end, and whether each submit was accepted under its number.
#[derive(Drop)]
pub struct Seen {
    pub first: Vec<Vec<u8>>,
    pub last: Vec<Vec<u8>>,
    pub are_accepted: bool,
}

// The bytes that end a session, and the answer to them.
const END: [u8; 2] = [0, 0];

const ENDED: &[u8] = b"\x00\x06\xee\x13\x00\x00\x00\x01";

// Everything that the node at this port answers to these bytes, up to the end of the session.
fn answers<R: Net<Listener = TcpListener, Stream = TcpStream>>(
    rt: &R,
    alloc: Global,
    port: u16,
    sent: &[u8],
) -> Option<Vec<u8>> {
    let mut stream = TcpStream::connect(rt, (Ipv4Addr::LOCALHOST, port)).ok()?;
    stream.write_all(sent).ok()?;
    stream.write_all(&END).ok()?;
    let mut answered = Vec::new(alloc);
    stream.read_to_end(&mut answered).ok()?;
    if !answered.as_slice().ends_with(ENDED) {
        return None;
    }
    let length = answered.len().checked_sub(ENDED.len())?;
    answered.truncate(length);
    Some(answered)
}

// Whether a node accepts client 7's messages from 1 to this number, under the same numbers.
fn accepts<R: Net<Listener = TcpListener, Stream = TcpStream>>(
    rt: &R,
    alloc: Global,
    port: u16,
    node: u8,
    number: u8,
) -> Option<bool> {
    let mut sent = Vec::new(alloc);
    let mut expected = Vec::new(alloc);
    for number in 1..=number {
        sent.extend_from_slice(&[0, 9, 1, 0, 7, 0, 0, 0, number, node, number])
            .ok()?;
        expected
            .extend_from_slice(&[0, 5, 0x81, 0, 0, 0, number])
            .ok()?;
    }
    let answered = answers(rt, alloc, port, sent.as_slice())?;
    Some(answered.as_slice() == expected.as_slice())
}

// The length of the answer that shows an entry of two bytes.
const ENTRY: usize = 19;

// The answers to reads of the places 1 to this one, one entry each.
fn log_of<R: Net<Listener = TcpListener, Stream = TcpStream>>(
    rt: &R,
    alloc: Global,
    port: u16,
    count: u8,
) -> Option<Vec<u8>> {
    let mut sent = Vec::new(alloc);
    for place in 1..=count {
        sent.extend_from_slice(&[0, 6, 2, 0, 0, 0, place, 1]).ok()?;
    }
    answers(rt, alloc, port, sent.as_slice())
}

// The same, once the log has this number of entries. It polls at most 1,000 times, five
// milliseconds apart.
fn whole_log_of<R: Clock + Net<Listener = TcpListener, Stream = TcpStream>>(
    rt: &R,
    alloc: Global,
    port: u16,
    count: u8,
) -> Option<Vec<u8>> {
    for _ in 0..1_000u32 {
        let log = log_of(rt, alloc, port, count)?;
        if log.len() == usize::from(count).checked_mul(ENTRY)? {
            return Some(log);
        }
        thread::sleep(rt, Duration::from_millis(5));
    }
    None
}

/// The clients of a group, one of each node. They are the group's input, which ends when they are
/// done.
#[derive(Drop)]
struct Clients<'a, R: Clock + Net<Listener = TcpListener, Stream = TcpStream>> {
    rt: &'a R,
    alloc: Global,
    serving: ServeOptions<'a>,
    number: u8,
    seen: &'a RefCell<Option<Seen>>,
}

impl<R: Clock + Net<Listener = TcpListener, Stream = TcpStream>> Clients<'_, R> {
    // The port of a node.
    fn port(&self, node: u8) -> Option<u16> {
        self.serving
            .base
            .checked_add(10)?
            .checked_add(u16::from(node))
    }

    // How many entries each log has when this number of messages of each node is delivered.
    fn entries(&self, number: u8) -> Option<u8> {
        self.serving.nodes.checked_mul(number)
    }

    // Reads each log, submits at each node, and waits until each log shows everything.
    fn visit(&self) -> Option<Seen> {
        let (rt, alloc) = (self.rt, self.alloc);
        let (mut first, mut last) = (Vec::new(alloc), Vec::new(alloc));
        let nodes = self.serving.nodes;
        let before = self.entries(self.number.checked_sub(1)?)?;
        for node in 1..=nodes {
            first
                .push(log_of(rt, alloc, self.port(node)?, before)?)
                .ok()?;
        }
        let mut are_accepted = true;
        for node in 1..=nodes {
            let is_accepted = accepts(rt, alloc, self.port(node)?, node, self.number)?;
            are_accepted = are_accepted && is_accepted;
        }
        let count = self.entries(self.number)?;
        for node in 1..=nodes {
            last.push(whole_log_of(rt, alloc, self.port(node)?, count)?)
                .ok()?;
        }
        Some(Seen {
            first,
            last,
            are_accepted,
        })
    }
}

impl<R: Clock + Net<Listener = TcpListener, Stream = TcpStream>> Read for Clients<'_, R> {
    fn read(&mut self, _buf: &mut [u8]) -> io::Result<usize> {
        let seen = self.visit();
        if let Ok(mut place) = self.seen.try_borrow_mut() {
            *place = seen;
        }
        Ok(0)
    }
}

// A run of the program over the folder at the ports above this base, with clients.
fn visit_at<R>(
    threads: &R,
    rt: &HostRuntime,
    serving: ServeOptions<'_>,
    number: u8,
    leave: Leave,
) -> Result<Seen, Fault>
where
    R: Host + Net<Listener = TcpListener, Stream = TcpStream>,
{
    let (dir, nodes) = (serving.dir, serving.nodes);
    let journals = match open_journals::<NodeFile<Brand>, R>(
        threads,
        rt,
        dir,
        nodes,
        FolderClaim::new(),
    ) {
        Ok(journals) => journals,
        Err(why) => return Err(fault_of_folder(why)),
    };
    let seen = RefCell::new(None);
    let terminal = Terminal::new(rt.alloc(), &[], b"", true);
    let mut clients = Clients {
        rt: threads,
        alloc: rt.alloc(),
        serving,
        number,
        seen: &seen,
    };
    let mut output = io::writer(&terminal);
    let mut console = Console::new(&mut output, &mut clients);
    let (journals, ended) = run_journals(
        threads,
        rt.alloc(),
        serving,
        journals,
        &Silent,
        &mut console,
    );
    drop(console);
    match leave {
        Leave::Closed => close_journals(rt, dir, journals),
        Leave::Dropped => drop(journals),
    }
    match ended {
        Ok(_) => seen.into_inner().ok_or(Fault::BadReply),
        Err(why) => Err(fault_of_serve(why)),
    }
}

/// How many nodes a group has, and how many messages each of them may accept.
#[derive(Clone, Copy)]
pub struct Limits {
    pub nodes: u8,
    pub cap: u32,
}

/// Runs a group with these limits over the folder. Each node has a client, which reads the log and
/// submits its messages from 1 to the given number. Then it waits until the log shows those of all
/// nodes.
pub fn visit_under<R>(
    threads: &R,
    rt: &HostRuntime,
    folder: &str,
    limits: Limits,
    number: u8,
    leave: Leave,
) -> Result<Seen, Fault>
where
    R: Host + Net<Listener = TcpListener, Stream = TcpStream>,
{
    let mut seen = Err(Fault::Network);
    for base in [22_510, 26_070, 27_330, 30_290] {
        if seen.as_ref().err() == Some(&Fault::Network) {
            seen = match ServeOptions::new(limits.nodes, limits.cap, folder, base, 50) {
                Some(serving) => visit_at(threads, rt, serving, number, leave),
                None => Err(Fault::BadReply),
            };
        }
    }
    seen
}

/// Does the same with a cap of 100.
pub fn visit<R>(
    threads: &R,
    rt: &HostRuntime,
    folder: &str,
    nodes: u8,
    number: u8,
    leave: Leave,
) -> Result<Seen, Fault>
where
    R: Host + Net<Listener = TcpListener, Stream = TcpStream>,
{
    let limits = Limits { nodes, cap: 100 };
    visit_under(threads, rt, folder, limits, number, leave)
}

/// Opens the journals of the given number of nodes in the folder, and leaves them in this way.
pub fn open_and_leave<R: Threads + Sync>(
    threads: &R,
    rt: &HostRuntime,
    folder: &str,
    nodes: u8,
    leave: Leave,
) -> Result<(), Fault> {
    let journals = match open_journals::<NodeFile<Brand>, R>(
        threads,
        rt,
        folder,
        nodes,
        FolderClaim::new(),
    ) {
        Ok(journals) => journals,
        Err(why) => return Err(fault_of_folder(why)),
    };
    match leave {
        Leave::Closed => close_journals(rt, folder, journals),
        Leave::Dropped => drop(journals),
    }
    Ok(())
}

/// Makes the folder anew, and says whether that worked.
pub fn is_cleared(rt: &HostRuntime, folder: &str) -> bool {
    let _ = fs::remove_dir_all(rt, folder);
    fs::create_dir(rt, folder).is_ok()
}

/// The files of the nodes 1 to 7 in the folder, each node's journal before its log. `None` stands
/// for a file that doesn't exist.
pub fn contents(rt: &HostRuntime, folder: &str) -> Option<Vec<Option<Vec<u8>>>> {
    let mut all = Vec::new(rt.alloc());
    for node in 1..8u8 {
        let path = format!(in rt.alloc(); "{folder}/node-{node}.db").ok()?;
        all.push(fs::read(rt, path.as_str()).ok()).ok()?;
        let log = format!(in rt.alloc(); "{}-wal", path.as_str()).ok()?;
        all.push(fs::read(rt, log.as_str()).ok()).ok()?;
    }
    Some(all)
}
