//! The Unix sockets of a group: who may connect, what may stand at their places, and what is left
//! of them.

use std::alloc::Global;
use std::fs::Permissions;
use std::io::{ErrorKind, Read, Write};
use std::net::{Ipv4Addr, Net, TcpListener, TcpStream};
use std::os::unix::fs::{FileTypeExt, MetadataExt, PermissionsExt};
use std::os::unix::net::{UnixListener, UnixStream};
use std::rt::Files;
use std::test::Fail;
use std::time::Duration;
use std::{fs, io, thread};
use urb_daemon::{
    Console, Host, MAX_SOCKET_PATH, NetworkFault, ServeFault, SocketCause, judge_making,
    judge_probe, make_socket_path, open_network, open_socket, remove_sockets, run_stores,
};
use urb_group::MemStable;
use urb_options::{DoorOptions, ServeOptions, SocketOptions};
use urb_terminal::Terminal;
use urb_turn::Silent;

// A folder of this test's own, new and empty, whose socket of node 1 has this path.
const FOLDER: &str = "urbd_sockets";

const FIRST: &str = "urbd_sockets/node-1.sock";

const SECOND: &str = "urbd_sockets/node-2.sock";

// Makes the folder anew, and says whether that worked.
fn is_cleared<R: Files>(rt: &R, alloc: Global) -> bool {
    let _ = rt.remove_dir_all(alloc, FOLDER);
    fs::create_dir(rt, FOLDER).is_ok()
}

// Sockets in the folder with this mode.
fn sockets(mode: u16) -> Option<SocketOptions<'static>> {
    SocketOptions::new(FOLDER, mode)
}

// The fault of a socket of node 1, if it can't be opened.
fn fault_of<R: Files + Net>(rt: &R, alloc: Global) -> Option<SocketCause> {
    open_socket(rt, alloc, sockets(0o600)?, 1).err()
}

#[test]
fn a_socket_waits_for_its_clients(rt: HostRuntime) -> Result<(), Fail> {
    assert!(rt; is_cleared(&rt, rt.alloc()));
    let sockets = sockets(0o600).ok_or("a mode")?;
    let Ok(listener) = open_socket(&rt, rt.alloc(), sockets, 1) else {
        return Err("a socket")?;
    };
    let (rt, listener) = (&rt, &listener);
    let (has_come, ()) = thread::join(
        rt,
        move || listener.accept().is_ok(),
        move || {
            thread::sleep(rt, Duration::from_millis(100));
            let _ = UnixStream::connect(rt, FIRST);
        },
    );
    assert!(rt; has_come);
    Ok(())
}

#[test]
fn a_socket_has_its_mode(rt: HostRuntime) -> Result<(), Fail> {
    assert!(rt; is_cleared(&rt, rt.alloc()));
    for mode in [0o660u16, 0o600, 0o666, 0o000] {
        let sockets = sockets(mode).ok_or("a mode")?;
        let Ok(listener) = open_socket(&rt, rt.alloc(), sockets, 1) else {
            return Err("a socket")?;
        };
        let found = fs::symlink_metadata(&rt, FIRST)?;
        assert!(rt; found.file_type().is_socket());
        assert_eq!(rt; found.mode() & 0o777, u32::from(mode));
        drop(listener);
        fs::remove_file(&rt, FIRST)?;
    }
    Ok(())
}

#[test]
fn only_the_socket_of_an_ended_program_is_replaced(rt: HostRuntime) -> Result<(), Fail> {
    let alloc = rt.alloc();
    assert!(rt; is_cleared(&rt, alloc));
    let sockets = sockets(0o600).ok_or("a mode")?;
    let Ok(listener) = open_socket(&rt, alloc, sockets, 1) else {
        return Err("a socket")?;
    };
    // As long as a program takes clients there, no other one does, and the first one goes on.
    assert_eq!(rt; fault_of(&rt, alloc), Some(SocketCause::InUse));
    drop(listener.accept()?);
    let client = UnixStream::connect(&rt, FIRST)?;
    drop((listener.accept()?, client));
    drop(listener);
    // The file is left, and its program has ended.
    assert!(rt; fs::symlink_metadata(&rt, FIRST).is_ok());
    let Ok(again) = open_socket(&rt, alloc, sockets, 1) else {
        return Err("a socket again")?;
    };
    drop(UnixStream::connect(&rt, FIRST)?);
    drop(again);
    fs::remove_file(&rt, FIRST)?;
    // What is no socket stays as it is.
    fs::write(&rt, FIRST, "a letter")?;
    assert_eq!(rt; fault_of(&rt, alloc), Some(SocketCause::NotASocket));
    assert_eq!(rt; fs::read_to_string(&rt, FIRST)?.as_str(), "a letter");
    remove_sockets(&rt, alloc, sockets, 1);
    assert!(rt; fs::symlink_metadata(&rt, FIRST).is_ok());
    fs::remove_file(&rt, FIRST)?;
    fs::create_dir(&rt, FIRST)?;
    assert_eq!(rt; fault_of(&rt, alloc), Some(SocketCause::NotASocket));
    Ok(())
}

#[test]
fn a_socket_that_cannot_be_made_has_its_cause(rt: HostRuntime) -> Result<(), Fail> {
    let alloc = rt.alloc();
    let missing = SocketOptions::new("urbd_sockets_missing", 0o600).ok_or("a mode")?;
    let made = open_socket(&rt, alloc, missing, 1);
    assert_eq!(rt; made.err(), Some(SocketCause::NoFolder));
    // The longest path that the system takes, and one byte more.
    for (slashes, is_made) in [(94usize, true), (95, false)] {
        let long = Vec::from_elem(alloc, b'/', slashes)?;
        let mut dir = Vec::from_slice(alloc, b".")?;
        dir.extend_from_slice(long.as_slice())?;
        let dir = str::from_utf8(dir.as_slice()).or(Err("a text"))?;
        let path = make_socket_path(alloc, dir, 1)?;
        assert_eq!(rt; path.len() <= MAX_SOCKET_PATH, is_made);
        let made = open_socket(
            &rt,
            alloc,
            SocketOptions::new(dir, 0o600).ok_or("a mode")?,
            1,
        );
        let _ = fs::remove_file(&rt, "node-1.sock");
        assert_eq!(rt; made.is_ok(), is_made);
        if !is_made {
            assert_eq!(rt; made.err(), Some(SocketCause::PathTooLong));
        }
    }
    let path = make_socket_path(alloc, "/run/urbd", 7)?;
    assert_eq!(rt; path.as_str(), "/run/urbd/node-7.sock");
    Ok(())
}

// The options of a group of so many nodes above this base, with sockets in the folder.
fn serving(nodes: u8, base: u16, takes_tcp: bool) -> Option<ServeOptions<'static>> {
    let doors = DoorOptions::with_sockets(takes_tcp, sockets(0o600)?);
    Some(ServeOptions::new(nodes, 100, ".", base, 60_000)?.with_doors(doors))
}

// Whether the nodes of a network have sockets, and TCP ports if asked; and whether a second network
// can't be opened, and leaves the sockets of the first. `None` if a port is in use.
fn has_its_doors<R>(rt: &R, alloc: Global, base: u16, takes_tcp: bool) -> Option<bool>
where
    R: Files + Net<Listener = TcpListener, Stream = TcpStream>,
{
    let network = open_network(rt, alloc, serving(2, base, takes_tcp)?).ok()?;
    let mut has = network.stations.len() == 2;
    for station in &network.stations {
        has = has && station.socket.is_some() && station.tcp.is_some() == takes_tcp;
        has = has && (station.tcp_port == 0) != takes_tcp;
    }
    let is_free = TcpListener::bind(rt, (Ipv4Addr::LOCALHOST, base.checked_add(11)?)).is_ok();
    // Another base, so that its ports are free.
    let second = open_network(rt, alloc, serving(2, base.checked_add(100)?, takes_tcp)?);
    let in_use = Some(NetworkFault::Socket(1, SocketCause::InUse));
    let is_whole = UnixStream::connect(rt, FIRST).is_ok()
        && UnixStream::connect(rt, SECOND).is_ok();
    Some(has && is_free != takes_tcp && second.err() == in_use && is_whole)
}

#[test]
fn nodes_have_the_doors_that_are_asked_for(rt: HostRuntime) -> Result<(), Fail> {
    for takes_tcp in [true, false] {
        let mut seen = None;
        for base in [22_750u16, 26_310, 29_870, 31_630] {
            assert!(rt; is_cleared(&rt, rt.alloc()));
            seen = has_its_doors(&rt, rt.alloc(), base, takes_tcp);
            if seen.is_some() {
                break;
            }
        }
        assert_eq!(rt; seen, Some(true));
    }
    Ok(())
}

// Whether a network whose second socket can't be made leaves nothing of the first.
fn leaves_nothing<R>(rt: &R, alloc: Global, base: u16) -> Option<bool>
where
    R: Files + Net<Listener = TcpListener, Stream = TcpStream>,
{
    fs::write(rt, SECOND, "a letter").ok()?;
    let fault = open_network(rt, alloc, serving(2, base, true)?).err()?;
    if matches!(fault, NetworkFault::InUse(_)) {
        return None;
    }
    let is_gone = fs::symlink_metadata(rt, FIRST).is_err();
    let stays = fs::symlink_metadata(rt, SECOND).is_ok();
    Some(fault == NetworkFault::Socket(2, SocketCause::NotASocket) && is_gone && stays)
}

#[test]
fn a_network_that_fails_leaves_no_socket(rt: HostRuntime) -> Result<(), Fail> {
    for base in [22_950u16, 26_510, 30_070, 31_830] {
        assert!(rt; is_cleared(&rt, rt.alloc()));
        if let Some(leaves_nothing) = leaves_nothing(&rt, rt.alloc(), base) {
            assert!(rt; leaves_nothing);
            return Ok(());
        }
    }
    Err("no port is free".into())
}

// All that a node answers to these bytes over the socket at this path, until it ends the session.
fn answers<R: Net>(rt: &R, alloc: Global, path: &str, sent: &[u8]) -> Option<Vec<u8>> {
    let mut stream = UnixStream::connect(rt, path).ok()?;
    stream.write_all(sent).ok()?;
    let mut answered = Vec::new(alloc);
    stream.read_to_end(&mut answered).ok()?;
    Some(answered)
}

// An input that ends at its first read. Before that, a client submits a message over the socket.
#[derive(Drop)]
struct Client<'a, R: Net> {
    rt: &'a R,
    alloc: Global,
}

// A submit of client 7's first message, `x`, and then a bad length, which ends a session.
const SUBMIT: &[u8] = b"\x00\x08\x01\x00\x07\x00\x00\x00\x01x\x00\x00";

impl<'a, R: Net> Read for Client<'a, R> {
    fn read(&mut self, _buf: &mut [u8]) -> io::Result<usize> {
        let _ = answers(self.rt, self.alloc, FIRST, SUBMIT);
        Ok(0)
    }
}

// Runs a group of one node without TCP, whose client submits a message. Returns the count of its
// events, and whether its socket is gone.
fn run_once<R>(rt: &R, alloc: Global, base: u16) -> Option<(Result<u64, ServeFault>, bool)>
where
    R: Host + Net<Listener = TcpListener, Stream = TcpStream>,
{
    let mut stores = Vec::with_capacity(alloc, 1).ok()?;
    stores.push_reserved(MemStable::new(alloc));
    let serving = serving(1, base, false)?;
    if stores.len() != usize::from(serving.nodes) {
        return None;
    }
    let terminal = Terminal::new(alloc, &[], b"", true);
    let mut output = io::writer(&terminal);
    let mut client = Client { rt, alloc };
    let mut console = Console::new(&mut output, &mut client);
    let (_, ended) = run_stores(rt, alloc, serving, stores, &Silent, &mut console);
    Some((ended, fs::symlink_metadata(rt, FIRST).is_err()))
}

// Only a submit and its store happen while no tick comes.
#[test]
fn a_run_without_tcp_serves_and_removes_its_socket(rt: HostRuntime) -> Result<(), Fail> {
    for base in [23_150u16, 26_710, 30_270, 32_030] {
        assert!(rt; is_cleared(&rt, rt.alloc()));
        let (ended, is_gone) = run_once(&rt, rt.alloc(), base).ok_or("memory")?;
        if !matches!(ended, Err(ServeFault::Network(NetworkFault::InUse(_)))) {
            assert_eq!(rt; ended, Ok(2));
            assert!(rt; is_gone);
            return Ok(());
        }
    }
    Err("no port is free".into())
}

#[test]
fn errors_are_judged_by_their_kinds(rt: HostRuntime) -> Result<(), Fail> {
    for (kind, cause) in [
        (ErrorKind::OutOfMemory, SocketCause::NoMemory),
        (ErrorKind::NotFound, SocketCause::NoFolder),
        (ErrorKind::NotADirectory, SocketCause::NoFolder),
        (ErrorKind::PermissionDenied, SocketCause::NotAllowed),
        (ErrorKind::ReadOnlyFilesystem, SocketCause::NotAllowed),
        (ErrorKind::AddrInUse, SocketCause::InUse),
        (ErrorKind::AlreadyExists, SocketCause::InUse),
        (ErrorKind::Other, SocketCause::NotMade),
    ] {
        assert_eq!(rt; judge_making(kind), cause);
    }
    for (error, cause) in [
        (None, Some(SocketCause::InUse)),
        (Some(ErrorKind::ConnectionRefused), None),
        (Some(ErrorKind::OutOfMemory), Some(SocketCause::NoMemory)),
        (
            Some(ErrorKind::PermissionDenied),
            Some(SocketCause::Unclear),
        ),
        (Some(ErrorKind::Other), Some(SocketCause::Unclear)),
    ] {
        assert_eq!(rt; judge_probe(error), cause);
    }
    Ok(())
}
