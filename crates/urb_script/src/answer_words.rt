//! The answer lines of a script.

ghost use Rattle.std.specs.Prelude.{◌≡◌, ◌++◌, OnOk};
ghost use Rattle.urb_script.specs.Texts.{told_text};

use std::alloc::{AllocError, Allocator};
use std::io::Write;
use std::{fmt, io};
use urb_names::{Config, Name, NoMemory, NodeId, PacketFault, Refusal, Rule};

/// An answer in fixed words to a command.
#[derive(Clone, Copy)]
pub enum FixedAnswer {
    /// The group is made.
    Grouped(Config),
    /// A node holds a record under this name, for this position of its storage.
    Drafted { name: Name, position: u32 },
    /// The message is stored already, under this name.
    Accepted(Name),
    /// The packet's source is counted for this name.
    Noted(Name),
    /// The packet said nothing new of this name.
    Again(Name),
    /// The name is certified, and a packet that says so goes back.
    Answered(Name),
    /// The record of an own message is stored. Says how many packets it sends, and by how many
    /// names the log grew.
    Stored { name: Name, sent: u8, released: u32 },
    /// Any other record is stored. Says the same of it.
    Taken { name: Name, sent: u8, released: u32 },
    /// The node is down.
    Down(NodeId),
    /// The node is ready again.
    Up(NodeId),
    /// The group is opened again.
    Opened,
    /// The command did nothing.
    Refused(Refusal),
}

/// A name as a word, such as `1.7`.
#[derive(Clone, Copy)]
pub struct NameWord(pub Name);

impl fmt::Display for NameWord {
    ghost use Rattle.urb_script.specs.ValueWords.{name_text};
    ghost use Rattle.std.specs.Prelude.{Some};

    ghost output = { λ word. Some (name_text word.0) };

    fn fmt<W: fmt::Write>(&self, f: &mut fmt::Formatter<W>) -> fmt::Result {
        let Name { sender, seq } = self.0;
        let sender = sender.number();
        write!(f, "{sender}.{seq}")
    }
}

#[derive(Clone, Copy)]
struct FaultWord(PacketFault);

impl fmt::Display for FaultWord {
    ghost use Rattle.urb_script.specs.Texts.{fault_word};
    ghost use Rattle.std.specs.Prelude.{Some};

    ghost output = { λ word. Some (fault_word word.0) };

    fn fmt<W: fmt::Write>(&self, f: &mut fmt::Formatter<W>) -> fmt::Result {
        match self.0 {
            PacketFault::Short => write!(f, "short"),
            PacketFault::Magic => write!(f, "magic"),
            PacketFault::Version => write!(f, "version"),
            PacketFault::Length => write!(f, "length"),
            PacketFault::Range => write!(f, "range"),
        }
    }
}

#[derive(Clone, Copy)]
struct RuleLetter(Rule);

impl fmt::Display for RuleLetter {
    ghost use Rattle.urb_script.specs.Texts.{rule_letter};
    ghost use Rattle.std.specs.Prelude.{Some};

    ghost output = { λ letter. Some (rule_letter letter.0) };

    fn fmt<W: fmt::Write>(&self, f: &mut fmt::Formatter<W>) -> fmt::Result {
        match self.0 {
            Rule::A => write!(f, "a"),
            Rule::B => write!(f, "b"),
            Rule::C => write!(f, "c"),
            Rule::D => write!(f, "d"),
        }
    }
}

// The words of a refusal. Three refusals appear in no answer, and have no words.
#[derive(Clone, Copy)]
struct RefusalWords(Refusal);

impl fmt::Display for RefusalWords {
    ghost use Rattle.urb_script.specs.Texts.{refusal_words};
    ghost use Rattle.std.specs.Prelude.{Some};

    ghost output = { λ words. Some (refusal_words words.0) };

    fn fmt<W: fmt::Write>(&self, f: &mut fmt::Formatter<W>) -> fmt::Result {
        match self.0 {
            Refusal::NoMemory => write!(f, ""),
            Refusal::BadNode => write!(f, "badnode"),
            Refusal::Down => write!(f, "down"),
            Refusal::Busy => write!(f, "busy"),
            Refusal::TooLong => write!(f, "toolong"),
            Refusal::Conflict => write!(f, "conflict"),
            Refusal::Gap(expected) => write!(f, "gap {expected}"),
            Refusal::Full => write!(f, "full"),
            Refusal::Forged => write!(f, "forged"),
            Refusal::Packet(fault) => {
                let fault = FaultWord(fault);
                write!(f, "packet {fault}")
            }
            Refusal::Stale => write!(f, "stale"),
            Refusal::NotDown => write!(f, "notdown"),
            Refusal::BadImage => write!(f, "badimage"),
            Refusal::Inconsistent { rule, node, name } => {
                let rule = RuleLetter(rule);
                let node = node.number();
                let name = NameWord(name);
                write!(f, "inconsistent {rule} {node} {name}")
            }
            Refusal::Device => write!(f, "device"),
            Refusal::Place(next) => write!(f, "place {next}"),
            Refusal::BadRow(place) => write!(f, "badrow {place}"),
            Refusal::BadLine(_) => write!(f, ""),
            Refusal::Frame(_) => write!(f, ""),
        }
    }
}

impl fmt::Display for FixedAnswer {
    ghost use Rattle.urb_script.specs.Texts.{told_text};
    ghost use Rattle.std.specs.Prelude.{Some};

    ghost output = { λ reply. Some (told_text reply) };

    fn fmt<W: fmt::Write>(&self, f: &mut fmt::Formatter<W>) -> fmt::Result {
        match self {
            FixedAnswer::Grouped(config) => {
                let n = config.n();
                let cap = config.cap();
                write!(f, "group {n} {cap}")
            }
            FixedAnswer::Drafted { name, position } => {
                let name = NameWord(*name);
                write!(f, "draft {name} at {position}")
            }
            FixedAnswer::Accepted(name) => {
                let name = NameWord(*name);
                write!(f, "accepted {name}")
            }
            FixedAnswer::Noted(name) => {
                let name = NameWord(*name);
                write!(f, "noted {name}")
            }
            FixedAnswer::Again(name) => {
                let name = NameWord(*name);
                write!(f, "again {name}")
            }
            FixedAnswer::Answered(name) => {
                let name = NameWord(*name);
                write!(f, "answered {name}")
            }
            FixedAnswer::Stored {
                name,
                sent,
                released,
            } => {
                let name = NameWord(*name);
                write!(f, "accepted {name} sent {sent} released {released}")
            }
            FixedAnswer::Taken {
                name,
                sent,
                released,
            } => {
                let name = NameWord(*name);
                write!(f, "taken {name} sent {sent} released {released}")
            }
            FixedAnswer::Down(node) => {
                let node = node.number();
                write!(f, "down {node}")
            }
            FixedAnswer::Up(node) => {
                let node = node.number();
                write!(f, "up {node}")
            }
            FixedAnswer::Opened => write!(f, "open"),
            FixedAnswer::Refused(refusal) => {
                let words = RefusalWords(*refusal);
                write!(f, "refused {words}")
            }
        }
    }
}

/// The refused allocation behind a failed write to memory. Memory is all that such a write can lack.
pub(crate) fn refused_write(_: io::Error) -> NoMemory {
    NoMemory::from(AllocError)
}

/// Writes an answer at the end of a text.
pub fn push_told<A: Allocator>(text: &mut Vec<u8, A>, reply: FixedAnswer) -> Result<(), NoMemory>
    ensures { OnOk result (text.new.items ≡ text.old.items ++ told_text reply) }
{
    write!(text, "{reply}").map_err(refused_write)
}
