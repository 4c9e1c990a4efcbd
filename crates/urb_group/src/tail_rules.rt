//! Whether records may follow the stored ones of a node: the fitting rules, one record at a time.
//!
//! A tail is a list of records that a store is to keep by one call, before the events that draft
//! them. Each record is judged as if those before it were stored. `before` are those.

ghost use Rattle.std.specs.Prelude.{◌+◌, ◌<◌, ◌≡◌, ◌≤◌, option_map, suc};
ghost use Rattle.std.specs.Bool.{MatchBool};
ghost use Rattle.urb_stable.specs.Fitting.{in_range};
ghost use Rattle.urb_node.specs.CallEffects.{Holds as HoldsAt};
ghost use Rattle.urb_group.specs.PlaceViews.{memory_in};
ghost use Rattle.urb_group.specs.TailQuestions.{TellsTail};
ghost use Rattle.urb_group.specs.internal.PlaceInvariant.{IsGroup, ShowsAt};
ghost use Rattle.urb_group.specs.internal.TailChecks.{CountsClient, CountsHolder, CountsHolders};
ghost use Rattle.urb_group.specs.internal.TailChecks.{FindsBehind, IsNamedBehind, IsNextBehind};
ghost use Rattle.urb_group.specs.internal.TailChecks.{Joins, KeepsA, KeepsB, KeepsC, KeepsD};
ghost use Rattle.urb_group.specs.internal.TailChecks.{SenderHolds, WouldHold, WouldPass};

use crate::Group;
use crate::node_moves::{Node, place_of};
use crate::tail_records::{count_own, find_among, is_certified_among};
use std::alloc::Allocator;
use urb_names::{ClientId, Config, Message, Name, NodeId, is_majority};
use urb_stable::Record;

impl<A: Allocator + Copy> Node<A> {
    // Says whether the node has stored this message under this name.
    fn has(&self, name: Name, message: &Message<A>) -> bool
        ensures { HoldsAt (ShowsAt self.now) name message.now result }
    {
        match self {
            Node::Ready(ready) => ready.holds(&name, message),
            Node::Storing(storing) => storing.holds(&name, message),
            Node::Down(down) => down.holds(&name, message),
        }
    }
}

// Counts the node's own messages that are this client's.
fn count_client<A: Allocator + Copy>(current: &Node<A>, client: ClientId) -> u32
    ensures { CountsClient current.now client result }
{
    current.client_next(client) - 1
}

// Returns the message that the node would have under a name.
fn find_message<'n, A: Allocator + Copy>(
    current: &'n Node<A>,
    before: &'n [Record<Message<A>>],
    name: Name,
) -> Option<&'n Message<A>>
    ensures { FindsBehind current.now before.now name (option_map (λ m. m.now) result) }
{
    match current.message(name) {
        Some(message) => Some(message),
        None => find_among(before, name),
    }
}

// Says whether the node would have certified a name.
fn is_certified<A: Allocator + Copy>(
    current: &Node<A>,
    before: &[Record<Message<A>>],
    name: Name,
) -> bool
    ensures { IsNamedBehind current.now before.now name result }
{
    if current.certified(name) {
        return true;
    }
    is_certified_among(before, name)
}

// Says whether a group with these limits may have the name.
fn is_in_range(config: Config, name: Name) -> bool
    ensures { result ≡ in_range config name }
{
    name.sender.number() <= config.n() && name.seq <= config.cap()
}

// Says whether a record keeps rule A: it is new to the node.
fn is_new<A: Allocator + Copy>(
    config: Config,
    current: &Node<A>,
    before: &[Record<Message<A>>],
    entry: &Record<Message<A>>,
) -> bool
    ensures { KeepsA config current.now before.now entry.now result }
{
    let name = entry.name();
    if !is_in_range(config, name) {
        return false;
    }
    let found = find_message(current, before, name);
    match entry {
        Record::Pend(_, _) | Record::PendCert(_, _) => found.is_none(),
        Record::Cert(_) => {
            if !found.is_some() {
                return false;
            }
            !is_certified(current, before, name)
        }
    }
}

// Says whether two numbers add up to a third one.
fn add_up(first: u32, second: usize, sum: u32) -> bool
    ensures { MatchBool result (first + second ≡ sum) (¬ (first + second ≡ sum)) }
{
    first <= sum && (sum - first) as usize == second
}

// Says whether a pair would be the node's next one, with its client's next number.
fn is_next<A: Allocator + Copy>(
    current: &Node<A>,
    node: NodeId,
    before: &[Record<Message<A>>],
    name: Name,
    message: &Message<A>,
) -> bool
    requires { (memory_in current.now).node ≡ node }
    ensures { IsNextBehind current.now node before.now name message.now result }
{
    name.recall();
    message.recall();
    let (own, of_client) = count_own(before, node, message.client());
    if !add_up(current.own_len(), own, name.seq - 1) {
        return false;
    }
    add_up(
        count_client(current, message.client()),
        of_client,
        message.number() - 1,
    )
}

// Says whether a record keeps rule B: a pair of the node's own comes in its turn.
fn is_in_turn<A: Allocator + Copy>(
    current: &Node<A>,
    node: NodeId,
    before: &[Record<Message<A>>],
    entry: &Record<Message<A>>,
) -> bool
    requires { (memory_in current.now).node ≡ node }
    ensures { KeepsB node current.now before.now entry.now result }
{
    match entry {
        Record::Pend(name, message) | Record::PendCert(name, message) => {
            let name = *name;
            if name.sender != node {
                return true;
            }
            is_next(current, node, before, name, message)
        }
        Record::Cert(_) => true,
    }
}

// Says whether the sender of a name has stored the pair.
fn sender_holds<A: Allocator + Copy>(
    config: Config,
    nodes: &[Node<A>],
    name: Name,
    message: &Message<A>,
) -> bool
    requires { IsGroup config nodes.now }
    ensures { SenderHolds config nodes.now name message.now result }
{
    match place_of(config, name.sender) {
        Some(at) => nodes[at].has(name, message),
        None => false,
    }
}

// Says whether a record keeps rule C: the sender of another's pair has stored it.
fn is_at_its_sender<A: Allocator + Copy>(
    config: Config,
    nodes: &[Node<A>],
    node: NodeId,
    entry: &Record<Message<A>>,
) -> bool
    requires { IsGroup config nodes.now }
    ensures { KeepsC config nodes.now node entry.now result }
{
    match entry {
        Record::Pend(name, message) | Record::PendCert(name, message) => {
            let name = *name;
            if name.sender == node {
                return true;
            }
            sender_holds(config, nodes, name, message)
        }
        Record::Cert(_) => true,
    }
}

// Says whether the node in a place would hold a pair if the one in the place `at` did.
fn would_hold<A: Allocator + Copy>(
    config: Config,
    nodes: &[Node<A>],
    at: usize,
    place: usize,
    name: Name,
    message: &Message<A>,
) -> bool
    requires group { IsGroup config nodes.now }
    requires within { place < config.n }
    ensures { WouldHold config nodes.now (suc at) place name message.now result }
{
    if place == at {
        return true;
    }
    nodes[place].has(name, message)
}

// Returns 1 if it would, or else 0.
fn count_holder<A: Allocator + Copy>(
    config: Config,
    nodes: &[Node<A>],
    at: usize,
    place: usize,
    name: Name,
    message: &Message<A>,
) -> u8
    requires group { IsGroup config nodes.now }
    requires within { place < config.n }
    ensures count { CountsHolder config nodes.now (suc at) place name message.now result }
    ensures most { result ≤ 1 }
{
    if would_hold(config, nodes, at, place, name, message) {
        return 1;
    }
    0
}

// Counts the nodes that would hold a pair if the one in this place did.
fn count_holders<A: Allocator + Copy>(
    config: Config,
    nodes: &[Node<A>],
    at: usize,
    name: Name,
    message: &Message<A>,
) -> u8
    requires { IsGroup config nodes.now }
    ensures { CountsHolders config nodes.now (suc at) name message.now result }
{
    config.recall();
    let mut count = 0;
    for place in 0..usize::from(config.n()) {
        count += count_holder(config, nodes, at, place, name, message);
    }
    count
}

// Says whether these nodes are a majority.
fn would_pass<A: Allocator + Copy>(
    config: Config,
    nodes: &[Node<A>],
    at: usize,
    name: Name,
    message: &Message<A>,
) -> bool
    requires { IsGroup config nodes.now }
    ensures { WouldPass config nodes.now (suc at) name message.now result }
{
    is_majority(count_holders(config, nodes, at, name, message), config.n())
}

// Says whether a record of the node in this place keeps rule D: a majority would hold a certified
// pair.
fn is_certified_rightly<A: Allocator + Copy>(
    config: Config,
    nodes: &[Node<A>],
    at: usize,
    before: &[Record<Message<A>>],
    entry: &Record<Message<A>>,
) -> bool
    requires group { IsGroup config nodes.now }
    requires within { at < config.n }
    ensures { KeepsD config nodes.now (suc at) before.now entry.now result }
{
    match entry {
        Record::Pend(_, _) => true,
        Record::PendCert(name, message) => would_pass(config, nodes, at, *name, message),
        Record::Cert(name) => match find_message(&nodes[at], before, *name) {
            Some(message) => would_pass(config, nodes, at, *name, message),
            None => false,
        },
    }
}

// Says whether a record of the node in this place keeps the four rules.
fn may_join<A: Allocator + Copy>(
    config: Config,
    nodes: &[Node<A>],
    at: usize,
    node: NodeId,
    before: &[Record<Message<A>>],
    entry: &Record<Message<A>>,
) -> bool
    requires group { IsGroup config nodes.now }
    requires within { at < config.n }
    requires place { node ≡ suc at }
    ensures { Joins config nodes.now node before.now entry.now result }
{
    let current = &nodes[at];
    if !is_new(config, current, before, entry) {
        return false;
    }
    if !is_in_turn(current, node, before, entry) {
        return false;
    }
    if !is_at_its_sender(config, nodes, node, entry) {
        return false;
    }
    is_certified_rightly(config, nodes, at, before, entry)
}

impl<A: Allocator + Copy> Group<A> {
    /// Says whether these records may follow the stored ones of a node, one after the other. If so,
    /// the node's store may keep them by one call, before the events that draft them. A stop is
    /// survived then, whatever beginning of them it leaves (`laws::every_stop_ahead_is_survived`).
    ///
    /// `true`: each record keeps the fitting rules A to D, as if those before it were stored. It
    /// stays so while other nodes store more. `false`: the group has no such node, or a record
    /// breaks a rule. The answer doesn't say that the node's next events draft these records.
    ///
    /// Allocates no memory. It looks up each record by its name, and reads the records before it in
    /// the list. If a pair is the node's own, it also looks up the client's next number.
    pub fn may_follow(&self, node: NodeId, records: &[Record<Message<A>>]) -> bool
        ensures { TellsTail self.now node records.now result }
    {
        let Some(at) = place_of(self.config, node) else {
            return false;
        };
        for (i, entry) in records.iter().enumerate() {
            if !may_join(self.config, &self.nodes, at, node, &records[..i], entry) {
                return false;
            }
        }
        true
    }
}
