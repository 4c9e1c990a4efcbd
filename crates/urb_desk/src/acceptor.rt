//! The acceptor of a node: a thread for each client that connects.

use crate::client_input::ClientInput;
use crate::connections::Connections;
use crate::shared_input::SharedInput;
use crate::{ClientDesk, NodeDesk};
use std::alloc::Global;
use std::io;
use std::io::{Read, Write};
use std::net::Shutdown;
use std::sync::{Arc, Wait};
use std::thread::{Builder, Scope};
use std::time::{Clock, Duration};
use urb_client::{BufferedAnswers, Response, SessionEnd, encode_response, serve_session};
use urb_link::{Door, Stop, StopSeen, rest};
use urb_local::LocalStream;
use urb_names::{MAX_PAYLOAD, NoMemory, Refusal};
use urb_show::HouseName;

// The size of the stack of a session's thread, in bytes.
const STACK: usize = 262_144;

// A session has the longest request on its stack. That has little more than the longest payload, and
// leaves three quarters of the stack free.
const _: () = prove!(4 * MAX_PAYLOAD <= STACK);

// How long a client may leave an answer unread before its connection is closed, in milliseconds.
const UNREAD_MILLIS: u64 = 10_000;

/// The answers to clients that get no session. They are made before they are needed, since memory
/// may be what is missing.
#[derive(Drop)]
pub struct Refusals {
    busy: Vec<u8>,
    no_memory: Vec<u8>,
}

impl Refusals {
    /// The frames of both refusals.
    pub fn new(alloc: Global) -> Result<Refusals, NoMemory> {
        let busy = encode_response(alloc, &Response::refused(&Refusal::Busy))?;
        let no_memory = encode_response(alloc, &Response::refused(&Refusal::NoMemory))?;
        Ok(Refusals { busy, no_memory })
    }
}

// Sends a client this answer, and closes its connection. What the client has sent already is read
// first, without waiting: the system would drop the answer if bytes were left unread.
fn refuse(stream: &LocalStream, answer: &[u8]) {
    let mut ends = stream;
    let _ = stream.set_nonblocking(true);
    let _ = ends.read(&mut [0u8; 512]);
    let _ = ends.write_all(answer);
    let _ = stream.shutdown(Shutdown::Write);
}

/// What an acceptor of a node uses. Each door of the node has its own.
#[derive(Drop)]
pub struct Acceptor<'a> {
    pub alloc: Global,
    pub stop: &'a Stop,
    pub door: Door<'a>,
    pub connections: &'a Connections,
    pub refusals: &'a Refusals,
}

// A client's connection, with its place among the connections.
#[derive(Drop)]
struct Visit<'a> {
    alloc: Global,
    stop: &'a Stop,
    connections: &'a Connections,
    stream: Arc<LocalStream>,
    place: usize,
}

// Runs one client's session to its end, and returns the witness of the end. The answers to requests
// that came together are sent together. An error of the system, or refused memory, before the
// session begins is returned too.
fn run_session<K: HouseName, R: Wait + Clock>(
    rt: &R,
    visit: &Visit<'_>,
    desk: NodeDesk<'_, K, R>,
) -> io::Result<SessionEnd> {
    let alloc = visit.alloc;
    let stream = &*visit.stream;
    let input = ClientInput::new(rt, stream, visit.stop, visit.connections)?;
    let answers = BufferedAnswers::new(alloc, stream)?;
    let shared = SharedInput::new(answers.reader(alloc, input)?);
    let may_crash = visit.connections.limits().may_crash;
    let mut desk = ClientDesk::new(desk, &shared, &answers, may_crash);
    let end = serve_session(
        alloc,
        &mut shared.reader(),
        &mut answers.writer(),
        &mut desk,
    );
    let _ = answers.send_all();
    Ok(end)
}

// Serves one client, and then frees its place. Returns how the session ended.
fn serve_client<K: HouseName, R: Wait + Clock>(
    rt: &R,
    visit: Visit<'_>,
    desk: NodeDesk<'_, K, R>,
) -> io::Result<SessionEnd> {
    let end = run_session(rt, &visit, desk);
    visit.connections.leave(rt, visit.place);
    end
}

// Starts a session for a client that has connected. If there is no place for it, no memory or no
// thread, the client is told so, and its connection is closed.
fn admit<'s, E, K: HouseName + Send + Sync, R: Wait + Clock + Sync>(
    scope: &Scope<'s, E>,
    rt: &'s R,
    acceptor: &Acceptor<'s>,
    desk: NodeDesk<'s, K, R>,
    stream: LocalStream,
) {
    let (alloc, connections, refusals) = (acceptor.alloc, acceptor.connections, acceptor.refusals);
    let _ = stream.send_at_once();
    let _ = stream.set_write_timeout(Duration::from_millis(UNREAD_MILLIS));
    let stream = match Arc::new(alloc, stream) {
        Ok(stream) => stream,
        Err(failed) => return refuse(&failed.value, refusals.no_memory.as_slice()),
    };
    let Ok(listed) = Arc::try_clone(&stream) else {
        return refuse(&stream, refusals.no_memory.as_slice());
    };
    let Some(place) = connections.enter(rt, listed) else {
        return refuse(&stream, refusals.busy.as_slice());
    };
    let visit = Visit {
        alloc,
        stop: acceptor.stop,
        connections,
        stream,
        place,
    };
    let work = move || serve_client(rt, visit, desk);
    let thread = Builder::new().stack_size(STACK).spawn_scoped(scope, work);
    if thread.is_err()
        && let Some(stream) = connections.leave(rt, place)
    {
        refuse(&stream, refusals.no_memory.as_slice());
    }
}

/// Starts a session for each client that connects at a door of a node, until the stop is set. It
/// checks the stop after each client, so a connection wakes it, and after each error of its socket.
/// After an error it rests for 10 milliseconds and goes on.
pub fn accept_clients<'s, E, K: HouseName + Send + Sync, R: Wait + Clock + Sync>(
    scope: &Scope<'s, E>,
    rt: &'s R,
    acceptor: Acceptor<'s>,
    desk: NodeDesk<'s, K, R>,
) -> StopSeen<'s> {
    for _ in rt.forever() {
        match acceptor.door.accept() {
            Ok(stream) if !acceptor.stop.is_set() => {
                admit(scope, rt, &acceptor, desk.copy(), stream);
            }
            Ok(_) => {}
            Err(_) => rest(rt),
        }
        if let Some(seen) = acceptor.stop.seen() {
            return seen;
        }
    }
    unreachable!()
}
