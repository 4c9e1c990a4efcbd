//! What is reported about a node that goes down and comes back while its group runs.

ghost use Rattle.std.specs.Prelude.{◌≡◌, ◌<◌, ◌≤◌, IfSome, vec_len};

use super::groups::{is_answered, link_to, make_stations};
use super::open_group;
use std::alloc::Global;
use std::marker::Brand;
use std::net::{Net, TcpListener, TcpStream};
use std::sync::Wait;
use std::sync::atomic::{AtomicU64, Ordering};
use std::sync::ledger::Blank;
use std::test::Fail;
use std::thread;
use std::thread::Threads;
use std::time::{Clock, Duration};
use urb_desk::{ClientLimits, LEAST_CONNECTIONS};
use urb_link::Station;
use urb_names::{NodeId, Refusal};
use urb_stable::{Failure, MemStable};
use urb_turn::{Change, Reporter};
use urb_worker::{GroupSetting, Watch, run_group};

// A submit, a status, a restart and a crash, each followed by a bad length, by which a session
// ends.
const SUBMIT: &[u8] = b"\x00\x08\x01\x00\x07\x00\x00\x00\x01x\x00\x00";

const STATUS: &[u8] = b"\x00\x01\x03\x00\x00";

const RESTART: &[u8] = b"\x00\x01\x05\x00\x00";

const CRASH: &[u8] = b"\x00\x01\x04\x00\x00";

// A submit that the store refuses with a failed device.
const FAILED: &[u8] = b"\x00\x06\xee\x0f\x00\x00\x00\x00\x00\x06\xee\x13\x00\x00\x00\x01";

// The status of a node that is down and has stored nothing.
const DOWN: &[u8] = b"\x00\x0a\x83\x00\x00\x00\x00\x00\x00\x00\x00\x00\
\x00\x06\xee\x13\x00\x00\x00\x01";

const DONE: &[u8] = b"\x00\x01\x84\x00\x06\xee\x13\x00\x00\x00\x01";

const ACCEPTED: &[u8] = b"\x00\x05\x81\x00\x00\x00\x01\x00\x06\xee\x13\x00\x00\x00\x01";

// The reports about one node, a digit each: 1 says that its device failed, 2 that it crashed, 3
// that it is back. Any other report is 9, also a report about another node.
#[derive(Drop)]
struct Heard {
    node: u8,
    digits: AtomicU64,
}

impl Heard {
    // No report about this node yet.
    fn of(node: u8) -> Heard {
        Heard {
            node,
            digits: AtomicU64::new(0),
        }
    }

    // The digit of a change, if it is a change of this node.
    fn digit(&self, node: NodeId, digit: u64) -> u64 {
        if node.number() == self.node { digit } else { 9 }
    }
}

// The digit of a failed store.
fn failure(refusal: Refusal) -> u64 {
    match refusal {
        Refusal::Device => 1,
        _ => 9,
    }
}

impl Reporter for Heard {
    fn report(&self, change: Change) {
        let digit = match change {
            Change::Failed(node, refusal) => self.digit(node, failure(refusal)),
            Change::Crashed(node) => self.digit(node, 2),
            Change::CameBack(node) => self.digit(node, 3),
        };
        let before = self.digits.load(Ordering::SeqCst);
        let digits = before.saturating_mul(10).saturating_add(digit);
        self.digits.store(digits, Ordering::SeqCst);
    }
}

// Whether each request to a node is answered as it should: its store fails, and it is restarted,
// crashed and restarted again.
fn goes_down_and_back<R: Net<Listener = TcpListener, Stream = TcpStream>>(
    rt: &R,
    alloc: Global,
    station: &Station,
) -> Option<bool> {
    let mut are_right = true;
    for (sent, answered) in [
        (SUBMIT, FAILED),
        (STATUS, DOWN),
        (RESTART, DONE),
        (SUBMIT, ACCEPTED),
        (CRASH, DONE),
        (RESTART, DONE),
    ] {
        are_right = are_right && is_answered(rt, alloc, station, sent, answered)?;
    }
    Some(are_right)
}

// Whether a node goes down. It polls at most 10,000 times, a millisecond apart.
fn comes_down<R: Clock + Net<Listener = TcpListener, Stream = TcpStream>>(
    rt: &R,
    alloc: Global,
    station: &Station,
) -> Option<bool> {
    for _ in 0..10_000u32 {
        if is_answered(rt, alloc, station, STATUS, DOWN)? {
            return Some(true);
        }
        thread::sleep(rt, Duration::from_millis(1));
    }
    Some(false)
}

// Has the first node accept a message, and says whether the second node then goes down.
fn takes_the_second_down<R: Clock + Net<Listener = TcpListener, Stream = TcpStream>>(
    rt: &R,
    alloc: Global,
    first: &Station,
    second: &Station,
) -> Option<bool> {
    let is_accepted = is_answered(rt, alloc, first, SUBMIT, ACCEPTED)?;
    Some(is_accepted && comes_down(rt, alloc, second)?)
}

// A client of a group of one node, or of two, and whether all its requests were answered as
// expected.
#[derive(Drop)]
struct Client<'a, R: Clock + Net<Listener = TcpListener, Stream = TcpStream>> {
    rt: &'a R,
    alloc: Global,
    went_well: bool,
}

impl<'a, R: Clock + Net<Listener = TcpListener, Stream = TcpStream>> Watch for Client<'a, R> {
    fn watch(&mut self, stations: &[Station]) {
        let (rt, alloc) = (self.rt, self.alloc);
        let went_well = match stations {
            [only] => goes_down_and_back(rt, alloc, only),
            [first, second] => takes_the_second_down(rt, alloc, first, second),
            _ => None,
        };
        self.went_well = went_well == Some(true);
    }
}

// The given number of stores. The last one fails at its next record.
fn make_failing_stores(alloc: Global, nodes: u8) -> Option<Vec<MemStable>>
    requires { 0 < nodes }
    ensures { IfSome result (λ all. vec_len all ≡ nodes) }
{
    let mut all = Vec::with_capacity(alloc, usize::from(nodes)).ok()?;
    for _i in 1..nodes {
        all.push_reserved(MemStable::new(alloc));
    }
    let mut last = MemStable::new(alloc);
    last.arm(Failure::Old);
    all.push_reserved(last);
    Some(all)
}

// Runs a group of the given number of nodes over these stores. Returns whether all requests of its
// client were answered as expected, the reports about its last node, and the count of its events.
fn run_with_client<R>(rt: &R, alloc: Global, nodes: u8) -> Option<(bool, u64, u64)>
where
    R: Threads + Wait + Clock + Sync + Net<Listener = TcpListener, Stream = TcpStream>,
    requires { (0 < nodes) × (nodes ≤ 7) }
{
    let mut client = Client {
        rt,
        alloc,
        went_well: false,
    };
    let heard = Heard::of(nodes);
    let stations = make_stations(rt, alloc, nodes)?;
    let stations = stations.as_slice();
    let link = link_to(rt, alloc, stations)?;
    let stores = make_failing_stores(alloc, nodes)?;
    let opened = open_group(alloc, nodes)?;
    let blank = Blank::new(u64::from(nodes));
    let setting = GroupSetting {
        rt,
        alloc,
        link: &link,
        stations,
        tick_millis: 60_000,
        reporter: &heard,
        limits: ClientLimits::standard(LEAST_CONNECTIONS),
    };
    let (_, ended) = run_group::<Brand, Brand, MemStable, Heard, R, Client<'_, R>>(
        &setting,
        opened,
        blank,
        stores,
        &mut client,
    );
    Some((
        client.went_well,
        heard.digits.load(Ordering::SeqCst),
        ended?,
    ))
}

// Of seven events, the failed store, the crash and the two restarts are reported, once each and in
// their order. A status changes nothing, and isn't reported.
#[test]
fn a_failed_store_a_crash_and_each_restart_are_reported(rt: HostRuntime) -> Result<(), Fail> {
    let outcome = run_with_client(&rt, rt.alloc(), 1);
    assert_eq!(rt; outcome, Some((true, 1323, 7)));
    Ok(())
}

// No client asked the second node for anything: its store fails when a message of the first one
// arrives.
#[test]
fn a_store_that_fails_at_an_arrival_is_reported(rt: HostRuntime) -> Result<(), Fail> {
    let outcome = run_with_client(&rt, rt.alloc(), 2);
    assert_eq!(rt; outcome, Some((true, 1, 4)));
    Ok(())
}
