//! The connections of a node's clients: how many there are, and how a stop ends them.

ghost use Rattle.std.specs.Prelude.{◌≡◌, IfOk, true};
ghost use Rattle.urb_desk.specs.ClientLimits.{limits_of_clients};
ghost use Rattle.urb_desk.specs.internal.IdleTimes.{idle_times_of};
ghost use Rattle.urb_desk.specs.declared.connections.TheConstants.{IDLE_MINUTES};

use std::alloc::{AllocError, Global};
use std::net::Shutdown;
use std::sync::atomic::{AtomicU64, Ordering};
use std::sync::{Arc, Mutex, Wait};
use urb_local::LocalStream;

/// How many connections of clients a node serves at a time, if there are enough descriptors.
pub const MOST_CONNECTIONS: usize = 1_000;

/// With how few connections a node starts, if there are few descriptors.
pub const LEAST_CONNECTIONS: usize = 4;

/// How long a client may take from the first byte of a frame to its last, in milliseconds.
pub const FRAME_MILLIS: u32 = 10_000;

/// A minute, in milliseconds: after this time without a byte a connection is closed if the node
/// serves as many as it may.
pub const IDLE_MILLIS: u32 = 60_000;

/// After how many minutes without a byte a connection is closed if nothing else is said.
pub const IDLE_MINUTES: u32 = 10;

/// How many clients a node serves at a time, how long they may take, and whether they may crash it.
#[derive(Clone, Copy, Debug)]
pub struct ClientLimits {
    /// The most connections at a time.
    pub connections: usize,
    /// How long a client may take from the first byte of a frame to its last, in milliseconds.
    pub frame_millis: u32,
    /// After this time without a byte a connection is closed if the node serves as many as it may,
    /// in milliseconds.
    pub idle_millis: u32,
    /// After how many of these times it is closed if the node has room for more.
    pub idle_times: u32,
    /// Whether clients may crash and restart the node.
    pub may_crash: bool,
}

impl ClientLimits {
    /// At most this many connections, `FRAME_MILLIS` for a frame, and so many minutes without a
    /// byte, or one if the node serves as many connections as it may.
    pub fn new(connections: usize, idle_minutes: u32, may_crash: bool) -> ClientLimits
        ensures { result ≡ limits_of_clients connections idle_minutes may_crash }
    {
        ClientLimits {
            connections,
            frame_millis: FRAME_MILLIS,
            idle_millis: IDLE_MILLIS,
            idle_times: idle_minutes,
            may_crash,
        }
    }

    /// At most this many connections, and else what holds if nothing is said: `IDLE_MINUTES`, and
    /// clients may crash and restart the node.
    pub fn standard(connections: usize) -> ClientLimits
        ensures { result ≡ limits_of_clients connections IDLE_MINUTES true }
    {
        ClientLimits::new(connections, IDLE_MINUTES, true)
    }

    /// After how many idle times a connection is closed: one if the node serves as many connections
    /// as it may.
    pub(crate) fn times_until_closed(&self, is_full: bool) -> u32
        ensures { result ≡ idle_times_of self.now is_full }
    {
        if is_full { 1 } else { self.idle_times }
    }
}

/// The connections that a node serves. Each has a place. A stop ends them through this list.
#[derive(Drop)]
pub struct Connections {
    places: Mutex<Vec<Option<Arc<LocalStream>>>>,
    live: AtomicU64,
    limits: ClientLimits,
}

impl Connections {
    /// No connections, with places for as many as the limits say.
    pub fn new(alloc: Global, limits: ClientLimits) -> Result<Connections, AllocError>
        ensures { IfOk result (λ made. made.limits ≡ limits) }
    {
        let mut places = Vec::with_capacity(alloc, limits.connections)?;
        for _ in 0..limits.connections {
            places.push(None)?;
        }
        Ok(Connections {
            places: Mutex::new(places),
            live: AtomicU64::new(0),
            limits,
        })
    }

    /// How long clients may take.
    pub(crate) fn limits(&self) -> ClientLimits
        ensures { result ≡ self.now.limits }
    {
        self.limits
    }

    /// Gives a connection a place. `None` if no place is free.
    pub(crate) fn enter<R: Wait>(&self, rt: &R, stream: Arc<LocalStream>) -> Option<usize> {
        let mut places = self.places.lock(rt);
        let place = places.iter().position(|place| place.is_none())?;
        if let Some(free) = places.get_mut(place) {
            *free = Some(stream);
        }
        self.live.fetch_add(1, Ordering::SeqCst);
        Some(place)
    }

    /// Frees a connection's place, and returns the connection.
    pub(crate) fn leave<R: Wait>(&self, rt: &R, place: usize) -> Option<Arc<LocalStream>> {
        let mut places = self.places.lock(rt);
        let left = places.get_mut(place)?.take();
        if left.is_some() {
            self.live.fetch_sub(1, Ordering::SeqCst);
        }
        left
    }

    /// Whether no place is free.
    pub(crate) fn is_full(&self) -> bool {
        self.limits.connections as u64 <= self.live.load(Ordering::SeqCst)
    }

    /// Ends the input of each connection. What a client has sent is still read; its session then
    /// ends. Call it after the stop was set.
    pub fn end_inputs<R: Wait>(&self, rt: &R) {
        let places = self.places.lock(rt);
        for place in &*places {
            if let Some(stream) = place {
                let _ = stream.shutdown(Shutdown::Read);
            }
        }
    }
}
