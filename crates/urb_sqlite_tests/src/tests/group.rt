//! A group of three whose first two nodes deliver one message, over stores of any kind.
ghost use Rattle.std.specs.Prelude.{◌≡◌};

use std::alloc::Global;
use urb_group::{Answer, Cluster, Command, Reply, play};
use urb_names::{ClientId, Config, Name, NodeId, Payload, Refusal, Rule};
use urb_stable::{Stable, StoreFault};

/// Three nodes, each of which may broadcast ten messages.
pub fn three() -> Config
    ensures { result.n ≡ 3 }
{
    Config::new(3, 10).unwrap()
}

/// What happens to the group.
#[derive(Clone, Copy)]
pub enum Event {
    /// Client 7 sends its first message to node 1.
    Submit,
    /// A packet of it comes from node 1 to node 2, or from node 2 to node 1.
    Relay,
    Hear,
    /// The store of node 1, or of node 2, takes the node's draft.
    StoreOne,
    StoreTwo,
}

/// Nodes 1 and 2 store the message, and node 1 hears that node 2 did.
pub static DELIVERY: [Event; 6] = [
    Event::Submit,
    Event::StoreOne,
    Event::Relay,
    Event::StoreTwo,
    Event::Hear,
    Event::StoreOne,
];

/// The client sends the message again.
pub static REPEAT: [Event; 1] = [Event::Submit];

/// The packets of the message.
const RELAYED: &[u8] = b"UB\x02\x01\x02\x00\x01\x00\x00\x00\x01\x00\x07\x00\x00\x00\x01\x00\x01a";

const HEARD: &[u8] = b"UB\x02\x02\x01\x00\x01\x00\x00\x00\x01\x00\x07\x00\x00\x00\x01\x00\x01a";

/// The command that an event is for a cluster.
pub fn command(alloc: Global, event: Event) -> Option<Command> {
    let (one, two) = (NodeId::new(1).unwrap(), NodeId::new(2).unwrap());
    match event {
        Event::Submit => Some(Command::Submit {
            node: one,
            client: ClientId::new(7).unwrap(),
            number: 1,
            payload: Payload::copied(alloc, b"a").ok()?,
        }),
        Event::Relay => Some(Command::Arrive {
            node: two,
            bytes: Vec::from_slice(alloc, RELAYED).ok()?,
        }),
        Event::Hear => Some(Command::Arrive {
            node: one,
            bytes: Vec::from_slice(alloc, HEARD).ok()?,
        }),
        Event::StoreOne => Some(Command::Store(one)),
        Event::StoreTwo => Some(Command::Store(two)),
    }
}

fn commands(alloc: Global, events: &[Event]) -> Option<Vec<Command>> {
    let mut commands = Vec::new(alloc);
    for event in events {
        commands.push(command(alloc, *event)?).ok()?;
    }
    Some(commands)
}

// Whether it is the first name of node 1, which is that of the message.
fn is_first(name: Name) -> bool {
    name.sender.number() == 1 && name.seq == 1
}

/// What an event led to.
#[derive(Clone, Copy)]
pub enum Led {
    /// The message is accepted under its name: by this store, or because it was stored before.
    Stored,
    Same,
    /// The node is down.
    Down,
    Other,
}

/// What a reply says about it.
pub fn outcome_of(reply: &Reply) -> Led {
    match reply {
        Reply::Stored(done) if done.accepted && is_first(done.name) => Led::Stored,
        Reply::Same(Answer::Accepted(name)) if is_first(*name) => Led::Same,
        Reply::WentDown(_) => Led::Down,
        _ => Led::Other,
    }
}

fn apply_event<S: Stable<Alloc = Global>>(
    alloc: Global,
    cluster: &mut Cluster<S>,
    event: Event,
) -> Led {
    match command(alloc, event) {
        Some(command) => {
            let reply = cluster.apply(alloc, &command);
            let led = outcome_of(&reply);
            drop(reply);
            drop(command);
            led
        }
        None => Led::Other,
    }
}

/// What a group reports: which of its nodes have delivered the message, whether it was accepted,
/// also as a repeat, and whether a store failed.
#[derive(Clone, Copy, Debug, PartialEq, Eq)]
pub struct Told {
    pub logs: [bool; 3],
    pub is_accepted: bool,
    pub is_same: bool,
    pub is_down: bool,
}

/// What a group over stores reports, or why there is no group.
#[derive(Clone, Copy, PartialEq, Eq)]
pub enum Said {
    Told(Told),
    /// Node 2 holds the message, but node 1, whose name the message has, doesn't.
    Unsent,
    /// The journal of this node is refused.
    Fault(u8, StoreFault),
    /// There is no group, for another reason.
    Refused,
    /// A log has another message.
    Other,
}

// Whether a node has delivered the message. `None` if it has delivered another.
fn has_delivered<S: Stable<Alloc = Global>>(cluster: &Cluster<S>, number: u8) -> Option<bool> {
    match cluster.group().log(NodeId::new(number)?)? {
        [] => Some(false),
        [name] if is_first(*name) => Some(true),
        _ => None,
    }
}

/// What the group reports about these events. If a store fails, the remaining events don't happen.
pub fn play_events<S: Stable<Alloc = Global>>(
    alloc: Global,
    cluster: &mut Cluster<S>,
    events: &[Event],
) -> Option<Told> {
    let (mut is_accepted, mut is_same, mut is_down) = (false, false, false);
    for event in events {
        match apply_event(alloc, cluster, *event) {
            Led::Stored => is_accepted = true,
            Led::Same => is_same = true,
            Led::Down => {
                is_down = true;
                break;
            }
            Led::Other => {}
        }
    }
    Some(Told {
        logs: [
            has_delivered(cluster, 1)?,
            has_delivered(cluster, 2)?,
            has_delivered(cluster, 3)?,
        ],
        is_accepted: is_accepted || is_same,
        is_same,
        is_down,
    })
}

// Why there is no group.
fn judge_refusal(refusal: Refusal) -> Said {
    let unsent = Refusal::Inconsistent {
        rule: Rule::C,
        node: NodeId::new(2).unwrap(),
        name: Name {
            sender: NodeId::new(1).unwrap(),
            seq: 1,
        },
    };
    if refusal == unsent {
        Said::Unsent
    } else {
        Said::Refused
    }
}

/// A list of three stores. `None`: one is missing, or memory was refused.
pub fn list_of<S: Drop>(
    alloc: Global,
    one: Option<S>,
    two: Option<S>,
    three: Option<S>,
) -> Option<Vec<S>> {
    let mut stores = Vec::new(alloc);
    stores.push(one?).ok()?;
    stores.push(two?).ok()?;
    stores.push(three?).ok()?;
    Some(stores)
}

/// What the group over these stores says about the events, and the stores.
pub fn run<S: Stable<Alloc = Global> + Drop>(
    alloc: Global,
    stores: Vec<S>,
    events: &[Event],
) -> (Vec<S>, Said) {
    if stores.len() != 3 {
        return (stores, Said::Refused);
    }
    match Cluster::open(alloc, three(), stores) {
        Ok(mut cluster) => {
            let said = match play_events(alloc, &mut cluster, events) {
                Some(told) => Said::Told(told),
                None => Said::Other,
            };
            (cluster.into_stores(), said)
        }
        Err((stores, refusal)) => (stores, judge_refusal(refusal)),
    }
}

// Whether a group plays the commands of a delivery, each with its reply.
fn is_delivered<S: Stable<Alloc = Global>>(alloc: Global, cluster: &mut Cluster<S>) -> bool {
    let Some(commands) = commands(alloc, &DELIVERY) else {
        return false;
    };
    match play(alloc, cluster, &commands) {
        Ok(replies) => replies.len() == DELIVERY.len(),
        Err(_) => false,
    }
}

/// The report of a group that delivers the message, after all its nodes stop and are opened again.
pub fn deliver_and_reopen<S: Stable<Alloc = Global> + Drop>(
    alloc: Global,
    stores: Vec<S>,
) -> Option<Told> {
    if stores.len() != 3 {
        return None;
    }
    let Ok(mut cluster) = Cluster::open(alloc, three(), stores) else {
        return None;
    };
    let is_delivered = is_delivered(alloc, &mut cluster);
    match cluster.reopen(alloc) {
        Ok(mut cluster) if is_delivered => play_events(alloc, &mut cluster, &REPEAT),
        _ => None,
    }
}
