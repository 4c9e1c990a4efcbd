//! What is in flight to a node: datagrams that were sent and that its receiver hasn't taken yet.

ghost use Rattle.std.specs.Prelude.{◌≡◌, ◌<◌, ◌≤◌, ◌+◌, ◌^◌, ◌↔◌, IsTrue};

use crate::receiver::ROOM;
use crate::{BACKLOG, KEEPING};
use std::sync::atomic::{AtomicBool, AtomicU64, Ordering};
use std::thread;
use std::time::{Clock, Duration};
use urb_names::{MAX_PACKET, MAX_PAYLOAD};

/// How much may be in flight to one node before its senders wait, in bytes: four of the longest
/// payloads. By default Linux gives a socket 212,992 bytes (`SOCKET_ROOM`). It counts more than a
/// datagram's length: at most twice the length of a long one, and some 800 bytes for a short one.
/// So what is in flight fits with a margin.
pub const MOST_IN_FLIGHT: u64 = 4 * MAX_PAYLOAD as u64;

/// How much is added to a datagram's length when it is counted, in bytes. Linux adds less than this
/// to a short one. What it adds to a long one is within the margin of `MOST_IN_FLIGHT`.
pub const CARRYING: u64 = 1_024;

// If more than half is in flight, that isn't one datagram alone, however long.
const _: () = prove!(MAX_PACKET as u64 + CARRYING <= MOST_IN_FLIGHT / 2);

// The bytes that Linux gives a socket by default.
const SOCKET_ROOM: u64 = 212_992;

// What is in flight fits in a socket that counts twice each length.
const _: () = prove!(2 * MOST_IN_FLIGHT <= SOCKET_ROOM);

// How long a sender sleeps before it checks again, in microseconds.
const PAUSE: u64 = 100;

// How many times a sender checks for room. After that it sends anyway.
const PATIENCE: u32 = 1_000;

/// How much a receiver's backlog may hold before sessions wait with their submits, in bytes. Some 520
/// short datagrams have this size. A worker does them in some twenty milliseconds.
pub const LONG_BACKLOG: u64 = 65_536;

/// How much a receiver's backlog may hold before nobody waits for room in the node's socket, in
/// bytes. With more, it has no room for another datagram of the greatest length.
pub const FULL_BACKLOG: u64 = (BACKLOG - ROOM - KEEPING) as u64;

const _: () = prove!(LONG_BACKLOG < FULL_BACKLOG);

// The load of a datagram of this length: the length plus `CARRYING`.
fn load_of(length: usize) -> u64
    requires { length < 2 ^ 63 }
    ensures { result ≡ length + CARRYING }
{
    length as u64 + CARRYING
}

// Whether there is room for this load in addition to what is in flight (`there`).
fn fits(there: u64, load: u64) -> bool
    ensures { IsTrue result ↔ (there + load ≤ MOST_IN_FLIGHT) }
{
    load <= MOST_IN_FLIGHT && there <= MOST_IN_FLIGHT - load
}

// Whether sessions wait with their submits while a backlog holds this much, in bytes.
fn is_long(backlog: u64) -> bool
    ensures { IsTrue result ↔ (LONG_BACKLOG < backlog) }
{
    LONG_BACKLOG < backlog
}

// Whether a backlog that holds this much, in bytes, has no room for another long datagram.
fn is_full(backlog: u64) -> bool
    ensures { IsTrue result ↔ (FULL_BACKLOG < backlog) }
{
    FULL_BACKLOG < backlog
}

/// Counts what is in flight to one node, so that its senders wait before they send more than its
/// socket has room for. Senders add to the count, and the node's one receiver subtracts.
///
/// A datagram that was lost stays counted until the receiver finds its socket empty. A datagram
/// that somebody else sent is subtracted too, but never more than the count.
///
/// The receiver also says how much its backlog holds. If that is much, the node's worker can't keep
/// up with the other nodes. Then sessions wait with their submits, as `Throttle` says. Without that,
/// workers whose backlogs are full would wait for each other's sockets.
#[derive(Drop)]
pub struct InFlight {
    load: AtomicU64,
    is_stuck: AtomicBool,
    backlog: AtomicU64,
    is_left_behind: AtomicBool,
}

impl InFlight {
    /// A count of nothing in flight.
    pub fn new() -> InFlight {
        InFlight {
            load: AtomicU64::new(0),
            is_stuck: AtomicBool::new(false),
            backlog: AtomicU64::new(0),
            is_left_behind: AtomicBool::new(false),
        }
    }

    /// How much is in flight, in bytes.
    pub fn load(&self) -> u64 {
        self.load.load(Ordering::SeqCst)
    }

    // Adds this load to the count if it fits, and says whether it did.
    fn admit(&self, load: u64) -> bool {
        let there = self.load();
        fits(there, load)
            && self
                .load
                .compare_exchange(there, there + load, Ordering::SeqCst, Ordering::SeqCst)
                .is_ok()
    }

    // Whether it is of no use to wait for room: the receiver hangs, or its backlog is full.
    fn is_hopeless(&self) -> bool {
        self.is_stuck.load(Ordering::SeqCst) || is_full(self.backlog.load(Ordering::SeqCst))
    }

    /// Counts a datagram of this length that is about to be sent. While there is no room for the
    /// datagram, the call waits. It waits for at most a tenth of a second, or somewhat more if
    /// the machine is busy, and not at all while the receiver's backlog is full. After a wait that
    /// found no room, no sender waits until the receiver takes a datagram again. So a node that
    /// hangs delays its senders for about a tenth of a second in all.
    pub fn enter<R: Clock>(&self, rt: &R, length: usize)
        requires { length < 2 ^ 63 }
    {
        let load = load_of(length);
        for _ in 0..PATIENCE {
            if self.is_hopeless() {
                break;
            }
            if self.admit(load) {
                return;
            }
            thread::sleep(rt, Duration::from_micros(PAUSE));
        }
        self.give_up();
        self.load.fetch_add(load, Ordering::SeqCst);
    }

    /// Stops the waiting of senders, until the receiver takes a datagram again. A receiver calls
    /// this when it ends, so that from then on no sender waits for it.
    pub fn give_up(&self) {
        self.is_stuck.store(true, Ordering::SeqCst);
    }

    // Subtracts this load, or all that is counted if that is less.
    fn take_off(&self, load: u64) {
        self.load.fetch_sub(load.min(self.load()), Ordering::SeqCst);
    }

    /// Subtracts a datagram of this length, which the receiver has taken. From now on senders wait
    /// again if there is no room.
    pub fn leave(&self, length: usize)
        requires { length < 2 ^ 63 }
    {
        self.take_off(load_of(length));
        if self.is_stuck.load(Ordering::SeqCst) {
            self.is_stuck.store(false, Ordering::SeqCst);
        }
    }

    /// Subtracts `seen`: the count that the receiver read before it looked into its socket and
    /// found it empty. All of that was taken or lost.
    pub fn settle(&self, seen: u64) {
        self.take_off(seen);
    }

    /// Takes down how much the receiver's backlog holds, in bytes. If that isn't much, sessions of
    /// other nodes wait for this node again, should it fall behind.
    pub fn keep(&self, backlog: u64) {
        self.backlog.store(backlog, Ordering::SeqCst);
        if !is_long(backlog) && self.is_left_behind.load(Ordering::SeqCst) {
            self.is_left_behind.store(false, Ordering::SeqCst);
        }
    }

    // Whether the node is far behind: its receiver's backlog is long.
    pub(crate) fn is_behind(&self) -> bool {
        is_long(self.backlog.load(Ordering::SeqCst))
    }

    // Whether the node is far behind, and sessions of other nodes wait for it.
    pub(crate) fn is_awaited(&self) -> bool {
        self.is_behind() && !self.is_left_behind.load(Ordering::SeqCst)
    }

    // If the node is far behind, sessions of other nodes wait for it no longer, until its backlog is
    // short again.
    pub(crate) fn leave_behind(&self) {
        if self.is_behind() {
            self.is_left_behind.store(true, Ordering::SeqCst);
        }
    }

    /// Whether so much is in flight that more than one long datagram may wait in the socket.
    pub fn is_crowded(&self) -> bool {
        MOST_IN_FLIGHT / 2 < self.load()
    }
}
