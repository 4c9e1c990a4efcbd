//! A running group feeds each of its nodes what the node's log lacks, without a tick of its timer.

ghost use Rattle.std.specs.Prelude.{◌≡◌, ◌<◌, ◌≤◌, IfSome, vec_len};

use super::groups::{answers, is_answered, link_to, make_stations};
use std::alloc::Global;
use std::marker::Brand;
use std::net::{Net, TcpListener, TcpStream};
use std::sync::Wait;
use std::sync::ledger::Blank;
use std::test::Fail;
use std::thread;
use std::thread::Threads;
use std::time::{Clock, Duration};
use urb_desk::{ClientLimits, LEAST_CONNECTIONS};
use urb_group::Group;
use urb_link::{Station, UdpLink};
use urb_names::{ClientId, Config, Message, Name, NodeId};
use urb_show::{House, Opened};
use urb_stable::{MemStable, Record, Stable};
use urb_turn::Silent;
use urb_worker::{GroupSetting, Watch, run_group};

// How many messages of node 1 are stored before a group starts.
const MESSAGES: u32 = 100;

// A status, a restart, a crash and a submit, each followed by a bad length, which ends a session.
const STATUS: &[u8] = b"\x00\x01\x03\x00\x00";

const RESTART: &[u8] = b"\x00\x01\x05\x00\x00";

const CRASH: &[u8] = b"\x00\x01\x04\x00\x00";

const SUBMIT: &[u8] = b"\x00\x08\x01\x00\x07\x00\x00\x00\x01x\x00\x00";

// The answers to a restart or a crash, and to the submit that comes after `MESSAGES` others.
const DONE: &[u8] = b"\x00\x01\x84\x00\x06\xee\x13\x00\x00\x00\x01";

const ACCEPTED: &[u8] = b"\x00\x05\x81\x00\x00\x00\x65\x00\x06\xee\x13\x00\x00\x00\x01";

// Where the length of the log is in the answer to a status.
const LENGTH_AT: usize = 11;

// The message of node 1 with this number, which is not 0.
fn message_of(alloc: Global, seq: u32) -> Option<Message> {
    if seq == 0 {
        return None;
    }
    Message::copy_of(alloc, ClientId::new(8)?, seq, b"m").ok()
}

// A store that has the first `count` messages of node 1, each with its certificate.
pub(super) fn make_store(alloc: Global, count: u32) -> Option<MemStable> {
    let mut store = MemStable::new(alloc);
    for before in 0..count {
        let seq = before.checked_add(1)?;
        let sender = NodeId::new(1)?;
        let record = Record::PendCert(Name { sender, seq }, message_of(alloc, seq)?);
        store.store(store.next(), &record).ok()?;
    }
    Some(store)
}

// The stores of `nodes` nodes. All have `stored` messages, but the last one has only `held` of them.
pub(super) fn make_stores(
    alloc: Global,
    nodes: u8,
    stored: u32,
    held: u32,
) -> Option<Vec<MemStable>>
    requires { 0 < nodes }
    ensures { IfSome result (λ all. vec_len all ≡ nodes) }
{
    let mut all = Vec::new(alloc);
    for _ in 1..nodes {
        all.push(make_store(alloc, stored)?).ok()?;
    }
    all.push(make_store(alloc, held)?).ok()?;
    if all.len() != usize::from(nodes) {
        return None;
    }
    Some(all)
}

// The group that is opened over these stores.
pub(super) fn open_over(alloc: Global, nodes: u8, stores: &mut [MemStable]) -> Option<Opened>
    requires { (0 < nodes) × (nodes ≤ 7) }
    ensures { IfSome result (λ it. it.group.size.n ≡ nodes) }
{
    let mut images = Vec::new(alloc);
    for store in stores {
        images.push(store.retrieve(alloc).ok()?).ok()?;
    }
    if images.len() != usize::from(nodes) {
        return None;
    }
    let config = Config::new(nodes, 1_000)?;
    let group = Group::open(alloc, config, images).ok()?;
    House::open(group).ok()
}

// The length of a node's log. `None` if there is no answer.
fn log_length<R: Net<Listener = TcpListener, Stream = TcpStream>>(
    rt: &R,
    alloc: Global,
    station: &Station,
) -> Option<u8> {
    let answered = answers(rt, alloc, station, STATUS)?;
    answered.get(LENGTH_AT).copied()
}

// Whether a node's log has this length soon: after at most 10,000 looks, a millisecond apart.
fn is_whole_soon<R: Clock + Net<Listener = TcpListener, Stream = TcpStream>>(
    rt: &R,
    alloc: Global,
    station: &Station,
    length: u8,
) -> Option<bool> {
    for _ in 0..10_000u32 {
        if log_length(rt, alloc, station)? == length {
            return Some(true);
        }
        thread::sleep(rt, Duration::from_millis(1));
    }
    Some(false)
}

// Whether all nodes' logs are whole soon.
fn are_whole_soon<R: Clock + Net<Listener = TcpListener, Stream = TcpStream>>(
    rt: &R,
    alloc: Global,
    stations: &[Station],
) -> Option<bool> {
    let mut are_whole = true;
    for station in stations {
        are_whole = are_whole && is_whole_soon(rt, alloc, station, 100)?;
    }
    Some(are_whole)
}

// Has node 1 send a message while the last node is down. Returns whether that node's log is whole
// soon after a restart.
fn is_whole_after_restart<R: Clock + Net<Listener = TcpListener, Stream = TcpStream>>(
    rt: &R,
    alloc: Global,
    stations: &[Station],
) -> Option<bool> {
    let [first, second, third] = stations else {
        return None;
    };
    let is_whole = is_whole_soon(rt, alloc, third, 100)?;
    let is_down = is_answered(rt, alloc, third, CRASH, DONE)?;
    let is_accepted = is_answered(rt, alloc, first, SUBMIT, ACCEPTED)?;
    let is_shown = is_whole_soon(rt, alloc, second, 101)?;
    // The packet to node 3 has been dropped by now, since its node is down.
    thread::sleep(rt, Duration::from_millis(50));
    let is_up = is_answered(rt, alloc, third, RESTART, DONE)?;
    let is_whole_again = is_whole_soon(rt, alloc, third, 101)?;
    Some(is_whole && is_down && is_accepted && is_shown && is_up && is_whole_again)
}

// What a client of a group does.
#[derive(Clone, Copy)]
enum Deed {
    // It waits until all logs are whole.
    Waits,
    // It crashes the last node, and restarts it after a message.
    Restarts,
}

// A client of a group, and whether what it saw is as it should be.
#[derive(Drop)]
struct Client<'a, R: Clock + Net<Listener = TcpListener, Stream = TcpStream>> {
    rt: &'a R,
    alloc: Global,
    deed: Deed,
    went_well: bool,
}

impl<'a, R: Clock + Net<Listener = TcpListener, Stream = TcpStream>> Watch for Client<'a, R> {
    fn watch(&mut self, stations: &[Station]) {
        let (rt, alloc) = (self.rt, self.alloc);
        let went_well = match self.deed {
            Deed::Waits => are_whole_soon(rt, alloc, stations),
            Deed::Restarts => is_whole_after_restart(rt, alloc, stations),
        };
        self.went_well = went_well == Some(true);
    }
}

// Runs a group whose last node has only `held` of the messages. The timer ticks after a minute, so
// it doesn't. Returns whether all went well, and the count of the group's events.
fn run_fed<R>(rt: &R, alloc: Global, nodes: u8, held: u32, deed: Deed) -> Option<(bool, u64)>
where
    R: Threads + Wait + Clock + Sync + Net<Listener = TcpListener, Stream = TcpStream>,
    requires { (0 < nodes) × (nodes ≤ 7) }
{
    let mut client = Client {
        rt,
        alloc,
        deed,
        went_well: false,
    };
    let stations = make_stations(rt, alloc, nodes)?;
    let stations = stations.as_slice();
    let link: UdpLink = link_to(rt, alloc, stations)?;
    let mut stores = make_stores(alloc, nodes, MESSAGES, held)?;
    let opened = open_over(alloc, nodes, stores.as_mut_slice())?;
    let blank = Blank::new(u64::from(nodes));
    let setting = GroupSetting {
        rt,
        alloc,
        link: &link,
        stations,
        tick_millis: 60_000,
        reporter: &Silent,
        limits: ClientLimits::standard(LEAST_CONNECTIONS),
    };
    let (_, ended) = run_group::<Brand, Brand, MemStable, Silent, R, Client<'_, R>>(
        &setting,
        opened,
        blank,
        stores,
        &mut client,
    );
    Some((client.went_well, ended?))
}

// Nothing is fed to a node that is alone.
#[test]
fn a_node_that_is_alone_is_fed_nothing(rt: HostRuntime) -> Result<(), Fail> {
    let outcome = run_fed(&rt, rt.alloc(), 1, MESSAGES, Deed::Waits);
    assert_eq!(rt; outcome, Some((true, 0)));
    Ok(())
}

// Of two nodes that hold all, each offers each of the 60 names.
#[test]
fn a_group_of_three_nodes_is_whole_without_a_tick(rt: HostRuntime) -> Result<(), Fail> {
    let (went_well, _) = run_fed(&rt, rt.alloc(), 3, 40, Deed::Waits).ok_or("memory")?;
    assert!(rt; went_well);
    Ok(())
}

#[test]
fn an_emptied_node_of_seven_is_filled_without_a_tick(rt: HostRuntime) -> Result<(), Fail> {
    let (went_well, _) = run_fed(&rt, rt.alloc(), 7, 0, Deed::Waits).ok_or("memory")?;
    assert!(rt; went_well);
    Ok(())
}

#[test]
fn a_restarted_node_is_whole_without_a_tick(rt: HostRuntime) -> Result<(), Fail> {
    let (went_well, _) = run_fed(&rt, rt.alloc(), 3, MESSAGES, Deed::Restarts).ok_or("memory")?;
    assert!(rt; went_well);
    Ok(())
}
