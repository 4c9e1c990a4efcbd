//! What is fed to a node of groups with one, three and seven nodes.

mod portions;
mod tables;

use std::alloc::Global;
use urb_feed::Feed;
use urb_group::Group;
use urb_names::{ClientId, Config, Message, Name, NodeId, Packet};
use urb_stable::Record;

// How many of a sender's messages a node has stored, and how many of these are certified there.
#[derive(Clone, Copy)]
struct Held {
    stored: u32,
    certified: u32,
}

// The message of a name: its client has the sender's number, and its payload is that number.
fn message_of(alloc: Global, name: Name) -> Option<Message> {
    let client = ClientId::new(u16::from(name.sender.number()))?;
    if name.seq == 0 {
        return None;
    }
    Message::copy_of(alloc, client, name.seq, &[name.sender.number()]).ok()
}

// The records of what a node holds of each sender.
fn image_of(alloc: Global, holds: &[Held]) -> Option<Vec<Record>> {
    let mut records = Vec::new(alloc);
    for (number, held) in (1u8..).zip(holds) {
        let sender = NodeId::new(number)?;
        for before in 0..held.stored {
            let name = Name {
                sender,
                seq: before.checked_add(1)?,
            };
            let message = message_of(alloc, name)?;
            let record = if before < held.certified {
                Record::PendCert(name, message)
            } else {
                Record::Pend(name, message)
            };
            records.push(record).ok()?;
        }
    }
    Some(records)
}

// A group whose nodes hold this: for each node, a part of each sender's messages.
fn group_of(alloc: Global, nodes: &[&[Held]]) -> Option<Group> {
    let mut images = Vec::new(alloc);
    for holds in nodes {
        images.push(image_of(alloc, holds)?).ok()?;
    }
    let config = Config::new(u8::try_from(images.len()).ok()?, 1_000)?;
    Group::open(alloc, config, images).ok()
}

// An offer of a name: the node that sends it, the name's sender and its number.
type Offer = (u8, u8, u32);

// What a packet offers to the target. `None` if it is for another node, reports a certificate, or
// carries another message.
fn offer_in(alloc: Global, packet: &Packet, target: NodeId) -> Option<Offer> {
    let name = packet.name();
    let flags = packet.flags()?;
    let is_plain = !flags.certified && !flags.heard;
    let is_message = packet.message().is_same(&message_of(alloc, name)?);
    if packet.target() == target && is_plain && is_message {
        Some((packet.source().number(), name.sender.number(), name.seq))
    } else {
        None
    }
}

// All offers of a feed, portion by portion.
fn offers_to(alloc: Global, group: &Group, target: NodeId) -> Option<Vec<Offer>> {
    let mut feed = Feed::begin(group, target);
    let mut offers = Vec::new(alloc);
    for _ in 0..1_000u32 {
        if feed.is_done() {
            return Some(offers);
        }
        for packet in feed.next_portion(alloc, group).ok()? {
            offers.push(offer_in(alloc, &packet, target)?).ok()?;
        }
    }
    None
}
