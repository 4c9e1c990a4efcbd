//! Groups that are opened over stores in memory. The stores hold what a stop left.

ghost use Rattle.std.specs.Prelude.{◌≡◌};

use std::alloc::Global;
use std::test::Fail;
use std::thread::Threads;
use urb_folder::open_group;
use urb_group::{Answer, Config, Group, MemStable, Record, Stable, State, Taken};
use urb_names::{ClientId, Message, Name, NodeId, Payload};

/// What the store of a node holds for the name 1.1.
#[derive(Clone, Copy)]
enum Held {
    Nothing,
    /// The message with this text.
    Pending(u8),
    /// The same, certified.
    Certified(u8),
}

/// The refusal's number if stores don't fit together.
const INCONSISTENT: u8 = 14;

/// What a group of three reports. It has how many names each node has delivered, whether all nodes
/// are ready, and whether node 1 accepts the message again, as 1.1.
type Report = ([usize; 3], bool, bool);

// The node with this number, the client whose message was sent, and the limits of a group of three.
fn node(number: u8) -> Option<NodeId> {
    NodeId::new(number)
}

fn client() -> Option<ClientId> {
    ClientId::new(7)
}

fn three() -> Config
    ensures { result.n ≡ 3 }
{
    Config::new(3, 10).unwrap()
}

fn name() -> Option<Name> {
    Some(Name {
        sender: node(1)?,
        seq: 1,
    })
}

fn message(alloc: Global, text: u8) -> Option<Message> {
    let payload = Vec::from_elem(alloc, text, 1).ok()?;
    Message::new(alloc, client()?, 1, payload).ok()
}

// A store with these contents.
fn store_of(alloc: Global, held: Held) -> Option<MemStable> {
    let mut store = MemStable::new(alloc);
    let record = match held {
        Held::Nothing => return Some(store),
        Held::Pending(text) => Record::Pend(name()?, message(alloc, text)?),
        Held::Certified(text) => Record::PendCert(name()?, message(alloc, text)?),
    };
    store.store(1, &record).ok()?;
    Some(store)
}

// The stores of three nodes.
fn stores_of(alloc: Global, held: [Held; 3]) -> Option<Vec<MemStable>> {
    let mut stores = Vec::new(alloc);
    for one in held {
        stores.push(store_of(alloc, one)?).ok()?;
    }
    Some(stores)
}

// The number in an answer that accepts a message, or 0 for any other answer.
fn accepted_as<O>(answer: &Answer<O>) -> u32 {
    match answer {
        Answer::Accepted(name) => name.seq,
        _ => 0,
    }
}

// Whether node 1 accepts the message again, as 1.1.
fn accepts_again(alloc: Global, group: &mut Group) -> Option<bool> {
    let payload = Payload::copied(alloc, b"a").ok()?;
    match group.submit(alloc, node(1)?, client()?, 1, &payload) {
        Ok(Taken::Same(answer)) => Some(accepted_as(&answer) == 1),
        _ => Some(false),
    }
}

// The report of a group.
fn report_of(alloc: Global, group: &mut Group) -> Option<Report> {
    let mut logs = [0; 3];
    let mut are_ready = true;
    for (number, log) in (1u8..4).zip(logs.iter_mut()) {
        *log = group.log(node(number)?)?.len();
        are_ready = are_ready && matches!(group.state(node(number)?)?, State::Ready);
    }
    let is_accepted = accepts_again(alloc, group)?;
    Some((logs, are_ready, is_accepted))
}

// The report of the group that is opened over stores of three nodes, or the number of its refusal.
fn open_stores<R: Threads + Sync>(
    rt: &R,
    alloc: Global,
    held: [Held; 3],
) -> Option<Result<Report, u8>> {
    let stores = stores_of(alloc, held)?;
    if stores.len() != 3 {
        return None;
    }
    let (_, group) = open_group(rt, alloc, three(), stores);
    match group {
        Ok(mut group) => Some(Ok(report_of(alloc, &mut group)?)),
        Err(refusal) => Some(Err(refusal.number())),
    }
}

#[test]
fn a_group_goes_on_from_what_its_stores_hold(rt: HostRuntime) -> Result<(), Fail> {
    let a = Held::Pending(b'a');
    let certified = Held::Certified(b'a');
    for (held, expected) in [
        // The message reached storage, and the process stopped before it was reported to anybody.
        ([a, Held::Nothing, Held::Nothing], ([0, 0, 0], true, true)),
        ([a, a, Held::Nothing], ([0, 0, 0], true, true)),
        // Two nodes had delivered it.
        (
            [certified, certified, Held::Nothing],
            ([1, 1, 0], true, true),
        ),
        ([a, certified, a], ([0, 1, 0], true, true)),
        // No store had it, because its draft was lost.
        ([Held::Nothing; 3], ([0, 0, 0], true, false)),
    ] {
        assert_eq!(rt; open_stores(&rt, rt.alloc(), held), Some(Ok(expected)));
    }
    Ok(())
}

#[test]
fn stores_that_no_stop_leaves_are_inconsistent(rt: HostRuntime) -> Result<(), Fail> {
    let (a, b) = (Held::Pending(b'a'), Held::Pending(b'b'));
    for held in [
        // Two nodes hold different messages under the name 1.1.
        [a, b, Held::Nothing],
        // Node 2 has a message of node 1, which doesn't have it.
        [Held::Nothing, a, Held::Nothing],
    ] {
        assert_eq!(rt; open_stores(&rt, rt.alloc(), held), Some(Err(INCONSISTENT)));
    }
    Ok(())
}
