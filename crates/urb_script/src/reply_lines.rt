//! The answer lines of a group's replies, and of questions about the group.

ghost use Rattle.std.specs.Prelude.{◌≡◌, ◌++◌, ◌∷◌, [], OnOk, Some, codes, flat_map, option_map};
ghost use Rattle.std.specs.Fmt.{decimal};
ghost use Rattle.urb_node.specs.Replies.{Same, Sent};
ghost use Rattle.urb_group.specs.Commands.{reply_of};
ghost use Rattle.urb_script.specs.Texts.{answer_text, done_text, entry_text, packet_text};
ghost use Rattle.urb_script.specs.Texts.{reply_text};
ghost use Rattle.urb_script.specs.internal.ReplyTexts.{IsToldAs};
ghost use Rattle.urb_script.specs.ValueWords.{name_text, payload_word};

use crate::answer_words::{FixedAnswer, NameWord, push_told, refused_write};
use std::alloc::Allocator;
use std::io::Write;
use urb_group::Reply;
use urb_names::{Message, Name, NoMemory, NodeId, Packet, Refusal};
use urb_node::{Answer, Done};
use urb_stubborn::Outbox;

// Writes a packet that is sent in answer, by its target and its flags.
fn push_answer_packet<A: Allocator>(
    text: &mut Vec<u8, A>,
    packet: &Packet<A>,
) -> Result<(), NoMemory>
    ensures { OnOk result (text.new.items ≡ text.old.items ++ answer_text packet.now) }
{
    let node = packet.target().number();
    match packet.flags() {
        Some(flags) => {
            let flags = flags.number();
            write!(text, " to {node} flags {flags}").map_err(refused_write)
        }
        None => write!(text, " to {node}").map_err(refused_write),
    }
}

// Writes the packets that are sent in answer.
fn push_answer_packets<A: Allocator + Copy>(
    text: &mut Vec<u8, A>,
    packets: &Outbox<A>,
) -> Result<(), NoMemory>
    ensures { OnOk result (text.new.items ≡ text.old.items ++ flat_map answer_text packets.now) }
{
    for at in 0..packets.len() {
        push_answer_packet(text, packets.get(at).unwrap())?;
    }
    Ok(())
}

// Writes an answer that was given at once.
fn push_answer<A: Allocator + Copy>(
    text: &mut Vec<u8, A>,
    answer: &Answer<Outbox<A>>,
) -> Result<(), NoMemory>
    ensures { OnOk result (text.new.items ≡ text.old.items ++ reply_text (Same answer.now)) }
{
    match answer {
        Answer::Accepted(name) => push_told(text, FixedAnswer::Accepted(*name)),
        Answer::Noted(name) => push_told(text, FixedAnswer::Noted(*name)),
        Answer::Again(name) => push_told(text, FixedAnswer::Again(*name)),
        Answer::Answered(name, packets) => {
            push_told(text, FixedAnswer::Answered(*name))?;
            push_answer_packets(text, packets)
        }
    }
}

// Writes that a record is stored.
fn push_done<A: Allocator + Copy>(text: &mut Vec<u8, A>, done: &Done<A>) -> Result<(), NoMemory>
    ensures { OnOk result (text.new.items ≡ text.old.items ++ done_text done.now) }
{
    let name = done.name;
    let sent = done.sent.len() as u8;
    let released = done.released;
    if done.accepted {
        push_told(
            text,
            FixedAnswer::Stored {
                name,
                sent,
                released,
            },
        )
    } else {
        push_told(
            text,
            FixedAnswer::Taken {
                name,
                sent,
                released,
            },
        )
    }
}

// Writes a packet by its target and its name.
fn push_packet<A: Allocator>(text: &mut Vec<u8, A>, packet: &Packet<A>) -> Result<(), NoMemory>
    ensures { OnOk result (text.new.items ≡ text.old.items ++ packet_text packet.now) }
{
    let target = packet.target().number();
    let name = NameWord(packet.name());
    write!(text, " {target}:{name}").map_err(refused_write)
}

// Writes packets, one after the other.
fn push_packets<A: Allocator + Copy>(
    text: &mut Vec<u8, A>,
    packets: &Outbox<A>,
) -> Result<(), NoMemory>
    ensures { OnOk result (text.new.items ≡ text.old.items ++ flat_map packet_text packets.now) }
{
    for at in 0..packets.len() {
        push_packet(text, packets.get(at).unwrap())?;
    }
    Ok(())
}

// Writes the packets of a tick.
fn push_sent<A: Allocator + Copy>(
    text: &mut Vec<u8, A>,
    packets: &Outbox<A>,
) -> Result<(), NoMemory>
    ensures { OnOk result (text.new.items ≡ text.old.items ++ reply_text (Sent packets.now)) }
{
    text.extend_from_slice(b"sent")?;
    push_packets(text, packets)
}

/// Writes the answer line of a reply, without its LF, at the end of a text.
pub fn push_reply<A: Allocator + Copy>(
    text: &mut Vec<u8, A>,
    reply: &Reply<A>,
) -> Result<(), NoMemory>
    ensures { OnOk result (text.new.items ≡ text.old.items ++ reply_text (reply_of reply.now)) }
{
    match reply {
        Reply::Drafted { name, pos } => {
            let (name, position) = (*name, *pos);
            push_told(text, FixedAnswer::Drafted { name, position })
        }
        Reply::Same(answer) => push_answer(text, answer),
        Reply::Stored(done) => push_done(text, done),
        Reply::Sent(packets) => push_sent(text, packets),
        Reply::WentDown(node) => push_told(text, FixedAnswer::Down(*node)),
        Reply::Up(node) => push_told(text, FixedAnswer::Up(*node)),
        Reply::Refused(refusal) => push_told(text, FixedAnswer::Refused(*refusal)),
    }
}

/// Writes the reply to a command, unless the command was refused memory.
pub fn push_told_reply<A: Allocator + Copy>(
    text: &mut Vec<u8, A>,
    reply: &Reply<A>,
) -> Result<(), NoMemory>
    ensures { OnOk result (IsToldAs (reply_of reply.now) text.old.items text.new.items) }
{
    if let Reply::Refused(refusal) = reply {
        if let Some(refused) = refusal.as_no_memory() {
            return Err(refused);
        }
    }
    push_reply(text, reply)
}

/// Writes an entry of a log at the end of a text.
pub fn push_entry<A: Allocator>(
    text: &mut Vec<u8, A>,
    name: Name,
    message: Option<&Message<A>>,
) -> Result<(), NoMemory>
    ensures { OnOk result (text.new.items
        ≡ text.old.items ++ entry_text (name, option_map (λ m. m.now) message.entry)) }
{
    let Name { sender, seq } = name;
    let sender = sender.number();
    write!(text, " {sender}.{seq}=").map_err(refused_write)?;
    match message {
        Some(message) => push_payload(text, message),
        None => Ok(()),
    }
}

// Writes the payload of a message as a word.
fn push_payload<A: Allocator>(text: &mut Vec<u8, A>, message: &Message<A>) -> Result<(), NoMemory>
    ensures { OnOk result (text.new.items ≡ text.old.items ++ payload_word message.now.payload) }
{
    let payload = message.payload();
    let word = if payload.is_empty() {
        b"-".as_slice()
    } else {
        payload
    };
    text.extend_from_slice(word)?;
    Ok(())
}

/// Writes the head of a shown log at the end of a text.
pub fn push_log_head<A: Allocator>(text: &mut Vec<u8, A>, node: NodeId) -> Result<(), NoMemory>
    ensures { OnOk result
        (text.new.items ≡ text.old.items ++ (codes "log " ++ (decimal node ++ 58 ∷ []))) }
{
    let node = node.number();
    write!(text, "log {node}:").map_err(refused_write)
}

/// Writes the head of the list of nodes that have a name stored, at the end of a text.
pub fn push_held_head<A: Allocator>(text: &mut Vec<u8, A>, name: Name) -> Result<(), NoMemory>
    ensures { OnOk result
        (text.new.items ≡ text.old.items ++ (codes "held " ++ (name_text name ++ 58 ∷ []))) }
{
    let name = NameWord(name);
    write!(text, "held {name}:").map_err(refused_write)
}

/// Writes a node that has a name stored, at the end of a text.
pub fn push_holder<A: Allocator>(text: &mut Vec<u8, A>, node: NodeId) -> Result<(), NoMemory>
    ensures { OnOk result (text.new.items ≡ text.old.items ++ 32 ∷ decimal node) }
{
    let node = node.number();
    write!(text, " {node}").map_err(refused_write)
}
