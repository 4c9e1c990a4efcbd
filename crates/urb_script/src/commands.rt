//! The commands of a script.

ghost use Rattle.std.specs.Prelude.{◌≡◌, ◌≢◌, ℕ, ◌∷◌, List, codes, IfSome, IfNone, IsTrue, ◌↔◌};
ghost use Rattle.std.specs.List.{AllByRecursion};
ghost use Rattle.std.specs.Fmt.{decimal};
ghost use Rattle.urb_names.specs.LabelsAndContents.{Limits, Label, IsLabel};
ghost use Rattle.urb_names.specs.declared.flags.Flags.{Flags};
ghost use Rattle.urb_stable.specs.declared.memory.Failure.{Failure};
ghost use Rattle.urb_script.specs.internal.LineReads.{words_left};
ghost use Rattle.urb_script.specs.ValueWords.{HasWord, IsPrinted, payload_word};
ghost use Rattle.urb_script.specs.ValueWords.{failure_word, name_text};
ghost use Rattle.urb_script.specs.Commands.{Command, AreArguments, IsRoute, InRange, IsSpelled};
ghost use Rattle.urb_script.specs.Commands.{Spells, Group, Submit, Fail, Reopen, Arrive};
ghost use Rattle.urb_script.specs.Commands.{ArriveFlagged, Raw, Held};
ghost use Rattle.urb_script.specs.internal.CommandLines.{command, HasNodeAlone};

use crate::hex::HexBytes;
use crate::input::LONGEST_LINE;
use crate::words::{LAST_NODE, first_word, is_word, last_node, last_word, number_in, number_word};
use urb_names::{ClientId, Config, Flags, MAX_CAP, MAX_NODES, Name, NodeId};
use urb_stable::Failure;

// The greatest cap, as a number of the type that is parsed from words.
const LAST_CAP: u64 = MAX_CAP as u64;

// A name is written with one digit for its sender.
const _: () = prove!(MAX_NODES <= 9);

/// A command. Its payload and its digits are borrowed from the line.
#[derive(Drop)]
pub enum CommandLine<'a> {
    /// Make the group.
    Group(Config),
    /// Submit a client's message at a node.
    Submit {
        node: NodeId,
        client: ClientId,
        number: u32,
        payload: &'a [u8],
    },
    /// Store the record that a node holds.
    Stored(NodeId),
    /// Make a node's store fail on the record that the node holds.
    Fail {
        node: NodeId,
        failure: Failure,
    },
    /// Crash a node.
    Crash(NodeId),
    /// Restart a node with what its storage holds.
    Restart(NodeId),
    /// Stop all nodes at once, and open them again with what their storages hold.
    Reopen,
    /// Deliver to a node the message that the source has stored under a name. The packet is of
    /// version one. If the payload has more than 1,024 bytes, it is of version two with all flags
    /// clear.
    Arrive {
        source: NodeId,
        node: NodeId,
        name: Name,
    },
    /// Deliver the message in a packet of version two, with these flags.
    ArriveFlagged {
        source: NodeId,
        node: NodeId,
        name: Name,
        flags: Flags,
    },
    /// Deliver bytes to a node.
    Raw {
        node: NodeId,
        bytes: HexBytes<'a>,
    },
    /// Make a node resend.
    Tick(NodeId),
    /// Show a node's log.
    Log(NodeId),
    /// Show which nodes have stored a name.
    Held(Name),
}

/// Parses a line, and returns its command.
pub fn parse_command(line: &[u8]) -> Option<CommandLine<'_>>
    ensures some { IfSome result (λ found. Spells line.now (command found)) }
    ensures none { IfNone result ((asked : Command) → Spells line.now asked → ⊥) }
{
    if LONGEST_LINE < line.len() {
        return None;
    }
    let (word, rest) = first_word(line);
    parse_words(word, rest)
}

// Parses a command from its first word and what follows it.
fn parse_words<'a>(word: &[u8], rest: Option<&'a [u8]>) -> Option<CommandLine<'a>>
    ensures some { IfSome result (λ found.
        IsSpelled (word.now ∷ words_left rest.entry) (command found) × InRange (command found)) }
    ensures none { IfNone result ((asked : Command)
        → IsSpelled (word.now ∷ words_left rest.entry) asked
        → InRange asked
        → ⊥) }
{
    if is_word(word, "group") {
        return parse_group(rest);
    }
    if is_word(word, "submit") {
        return parse_submit(rest);
    }
    if is_word(word, "fail") {
        return parse_fail(rest);
    }
    if is_word(word, "reopen") {
        return parse_reopen(rest);
    }
    if is_word(word, "arrive") {
        return parse_arrive(rest);
    }
    if is_word(word, "arrive2") {
        return parse_arrive_flagged(rest);
    }
    if is_word(word, "raw") {
        return parse_raw(rest);
    }
    if is_word(word, "held") {
        return parse_held(rest);
    }
    parse_node_command(word, rest)
}

// Parses a command that has a node and nothing else.
fn parse_node_command<'a>(word: &[u8], rest: Option<&[u8]>) -> Option<CommandLine<'a>>
    ensures some { IfSome result (λ found.
        IsSpelled (word.now ∷ words_left rest.entry) (command found) × InRange (command found)) }
    ensures none { IfNone result ((asked : Command)
        → HasNodeAlone asked
        → IsSpelled (word.now ∷ words_left rest.entry) asked
        → InRange asked
        → ⊥) }
{
    let node = last_node(rest)?;
    if is_word(word, "stored") {
        return Some(CommandLine::Stored(node));
    }
    if is_word(word, "crash") {
        return Some(CommandLine::Crash(node));
    }
    if is_word(word, "restart") {
        return Some(CommandLine::Restart(node));
    }
    if is_word(word, "tick") {
        return Some(CommandLine::Tick(node));
    }
    if is_word(word, "log") {
        return Some(CommandLine::Log(node));
    }
    None
}

fn parse_group<'a>(rest: Option<&[u8]>) -> Option<CommandLine<'a>>
    ensures some { IfSome result (λ found.
        IsSpelled (codes "group" ∷ words_left rest.entry) (command found)
        × InRange (command found)) }
    ensures none { IfNone result ((limits : Limits)
        → InRange (Group limits)
        → AreArguments (Group limits) (words_left rest.entry)
        → ⊥) }
{
    let (n, rest) = number_word(rest, 1, LAST_NODE)?;
    let (cap, rest) = number_word(rest, 1, LAST_CAP)?;
    if rest.is_some() {
        return None;
    }
    let config = Config::new(n as u8, cap as u32).unwrap();
    Some(CommandLine::Group(config))
}

fn parse_submit(rest: Option<&[u8]>) -> Option<CommandLine<'_>>
    ensures some { IfSome result (λ found.
        IsSpelled (codes "submit" ∷ words_left rest.entry) (command found)
        × InRange (command found)) }
    ensures none { IfNone result ((node client number : ℕ) (payload : List ℕ)
        → InRange (Submit node client number payload)
        → AreArguments (Submit node client number payload) (words_left rest.entry)
        → ⊥) }
{
    let (node, rest) = number_word(rest, 1, LAST_NODE)?;
    let (client, rest) = number_word(rest, 1, 65_535)?;
    let (number, rest) = number_word(rest, 0, 4_294_967_295)?;
    let payload = parse_payload(last_word(rest)?)?;
    let node = NodeId::new(node as u8).unwrap();
    let client = ClientId::new(client as u16).unwrap();
    Some(CommandLine::Submit {
        node,
        client,
        number: number as u32,
        payload,
    })
}

// Parses a word as a payload.
fn parse_payload(word: &[u8]) -> Option<&[u8]>
    ensures some { IfSome result
        (λ payload. (word.now ≡ payload_word payload.now) × HasWord payload.now) }
    ensures none { IfNone result
        ((payload : List ℕ) → HasWord payload → word.now ≢ payload_word payload) }
{
    if word.len() == 1 && word[0] == b'-' {
        return Some(&word[..0]);
    }
    if word.is_empty() || !is_printable(word) {
        return None;
    }
    Some(word)
}

fn is_printable(word: &[u8]) -> bool
    ensures { IsTrue result ↔ AllByRecursion IsPrinted word.now }
{
    word.iter().all(|byte| matches!(*byte, b'!'..=b'~'))
}

fn parse_fail<'a>(rest: Option<&[u8]>) -> Option<CommandLine<'a>>
    ensures some { IfSome result (λ found.
        IsSpelled (codes "fail" ∷ words_left rest.entry) (command found)
        × InRange (command found)) }
    ensures none { IfNone result ((node : ℕ) (failure : Failure)
        → InRange (Fail node failure)
        → AreArguments (Fail node failure) (words_left rest.entry)
        → ⊥) }
{
    let (number, rest) = number_word(rest, 1, LAST_NODE)?;
    let failure = parse_failure(last_word(rest)?)?;
    let node = NodeId::new(number as u8).unwrap();
    Some(CommandLine::Fail { node, failure })
}

fn parse_failure(word: &[u8]) -> Option<Failure>
    ensures some { IfSome result (λ failure. word.now ≡ failure_word failure) }
    ensures none { IfNone result ((failure : Failure) → word.now ≢ failure_word failure) }
{
    if is_word(word, "old") {
        return Some(Failure::Old);
    }
    if is_word(word, "new") {
        return Some(Failure::New);
    }
    None
}

fn parse_reopen<'a>(rest: Option<&[u8]>) -> Option<CommandLine<'a>>
    ensures some { IfSome result (λ found.
        IsSpelled (codes "reopen" ∷ words_left rest.entry) (command found)
        × InRange (command found)) }
    ensures none { IfNone result (AreArguments Reopen (words_left rest.entry) → ⊥) }
{
    match rest {
        None => Some(CommandLine::Reopen),
        Some(_) => None,
    }
}

// The source of a packet, its target, and its name.
#[derive(Clone, Copy)]
struct Route {
    source: NodeId,
    node: NodeId,
    name: Name,
}

// Parses the next words as a route. Also returns what follows them.
fn parse_route(rest: Option<&[u8]>) -> Option<(Route, Option<&[u8]>)>
    ensures some { IfSome result (λ r. (words_left rest.entry
        ≡ decimal r.0.source
        ∷ decimal r.0.node
        ∷ decimal r.0.name.sender
        ∷ decimal r.0.name.seq
        ∷ words_left r.1)
        × IsRoute r.0.source r.0.node
        × IsLabel r.0.name) }
    ensures none { IfNone result ((source node : ℕ) (name : Label) (words : List (List ℕ))
        → IsRoute source node
        → IsLabel name
        → words_left rest.entry
        ≢ decimal source ∷ decimal node ∷ decimal name.sender ∷ decimal name.seq ∷ words) }
{
    let (source, rest) = number_word(rest, 1, LAST_NODE)?;
    let (node, rest) = number_word(rest, 1, LAST_NODE)?;
    let (sender, rest) = number_word(rest, 1, LAST_NODE)?;
    let (seq, rest) = number_word(rest, 1, 4_294_967_295)?;
    if source == node {
        return None;
    }
    let source = NodeId::new(source as u8).unwrap();
    let node = NodeId::new(node as u8).unwrap();
    let sender = NodeId::new(sender as u8).unwrap();
    let name = Name {
        sender,
        seq: seq as u32,
    };
    Some((Route { source, node, name }, rest))
}

fn parse_arrive<'a>(rest: Option<&[u8]>) -> Option<CommandLine<'a>>
    ensures some { IfSome result (λ found.
        IsSpelled (codes "arrive" ∷ words_left rest.entry) (command found)
        × InRange (command found)) }
    ensures none { IfNone result ((source node : ℕ) (name : Label)
        → InRange (Arrive source node name)
        → AreArguments (Arrive source node name) (words_left rest.entry)
        → ⊥) }
{
    let Some((route, rest)) = parse_route(rest) else {
        return None;
    };
    if rest.is_some() {
        return None;
    }
    Some(CommandLine::Arrive {
        source: route.source,
        node: route.node,
        name: route.name,
    })
}

fn parse_arrive_flagged<'a>(rest: Option<&[u8]>) -> Option<CommandLine<'a>>
    ensures some { IfSome result (λ found.
        IsSpelled (codes "arrive2" ∷ words_left rest.entry) (command found)
        × InRange (command found)) }
    ensures none { IfNone result ((source node : ℕ) (name : Label) (flags : Flags)
        → InRange (ArriveFlagged source node name flags)
        → AreArguments (ArriveFlagged source node name flags) (words_left rest.entry)
        → ⊥) }
{
    let Some((route, rest)) = parse_route(rest) else {
        return None;
    };
    let (number, rest) = number_word(rest, 0, 3)?;
    if rest.is_some() {
        return None;
    }
    Some(CommandLine::ArriveFlagged {
        source: route.source,
        node: route.node,
        name: route.name,
        flags: Flags::of_number(number as u8).unwrap(),
    })
}

fn parse_raw(rest: Option<&[u8]>) -> Option<CommandLine<'_>>
    ensures some { IfSome result (λ found.
        IsSpelled (codes "raw" ∷ words_left rest.entry) (command found) × InRange (command found)) }
    ensures none { IfNone result ((node : ℕ) (bytes : List ℕ)
        → InRange (Raw node bytes)
        → AreArguments (Raw node bytes) (words_left rest.entry)
        → ⊥) }
{
    let (number, rest) = number_word(rest, 1, LAST_NODE)?;
    let word = last_word(rest)?;
    let node = NodeId::new(number as u8).unwrap();
    match HexBytes::new(word) {
        Some(bytes) => Some(CommandLine::Raw { node, bytes }),
        None => None,
    }
}

fn parse_held<'a>(rest: Option<&[u8]>) -> Option<CommandLine<'a>>
    ensures some { IfSome result (λ found.
        IsSpelled (codes "held" ∷ words_left rest.entry) (command found)
        × InRange (command found)) }
    ensures none { IfNone result ((name : Label)
        → InRange (Held name)
        → AreArguments (Held name) (words_left rest.entry)
        → ⊥) }
{
    let name = parse_name(last_word(rest)?)?;
    Some(CommandLine::Held(name))
}

// Parses a word as a name: a node's digit, a full stop, and the number.
fn parse_name(word: &[u8]) -> Option<Name>
    ensures some { IfSome result (λ name. (word.now ≡ name_text name) × IsLabel name) }
    ensures none { IfNone result ((name : Label) → IsLabel name → word.now ≢ name_text name) }
{
    if word.len() < 2 {
        return None;
    }
    if word[1] != b'.' {
        return None;
    }
    let sender = number_in(&word[..1], 1, LAST_NODE)?;
    let seq = number_in(&word[2..], 1, 4_294_967_295)?;
    let sender = NodeId::new(sender as u8).unwrap();
    Some(Name {
        sender,
        seq: seq as u32,
    })
}
