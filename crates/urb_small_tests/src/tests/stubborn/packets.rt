//! What packets say, and which nodes they go to.

use super::*;
use urb_names::{Flags, Packet};

#[test]
fn a_packet_says_what_is_certified_here(rt: HostRuntime) {
    let script = Script {
        nodes: 2,
        names: &[(2, 2)],
        certified: &[2],
        steps: &[Step::Tick(Sent::Certified(&[false, true]))],
        calm: &[],
    };
    assert_eq!(rt; play(rt.alloc(), 0, script), Some(false));
}

// A message of client 7.
fn message<A: Allocator + Copy>(alloc: A) -> Option<Message<A>> {
    let client = ClientId::new(7)?;
    Message::copy_of(alloc, client, 1, b"a").ok()
}

// Whether the packet at a place goes to this node with this message, and its flags say `heard` as
// given.
fn carries<A: Allocator + Copy>(
    outbox: &Outbox<A>,
    (index, target, heard): (usize, u8, bool),
    sent: &Message<A>,
) -> bool {
    let certified = true;
    match outbox.get(index) {
        Some(packet) => {
            packet.target().number() == target
                && packet.message().is_same(sent)
                && packet.flags() == Some(Flags { certified, heard })
        }
        None => false,
    }
}

// Whether these are two packets with the message, to nodes 1 and 3, and only node 3 was heard.
fn are_two<A: Allocator + Copy>(outbox: &Outbox<A>, sent: &Message<A>) -> bool {
    outbox.len() == 2
        && outbox.get(2).is_none()
        && carries(outbox, (0, 1, false), sent)
        && carries(outbox, (1, 3, true), sent)
}

// The packets of a certified message at its sender, node 2, which has heard node 3.
fn outbox_of_two<A: Allocator + Copy>(alloc: A, sent: &Message<A>) -> Option<Outbox<A>> {
    let (config, name) = (Config::new(3, CAP)?, name(2, 1)?);
    let (node, heard) = (NodeId::new(2)?, NodeId::new(3)?);
    Outbox::of_pair(alloc, config, node, name, sent, true, Some(heard)).ok()
}

// Whether they go to nodes 1 and 3, and how many packets the outbox gives.
fn goes_to_others<A: Allocator + Copy>(alloc: A, sent: &Message<A>) -> Option<(bool, usize)> {
    let outbox = outbox_of_two(alloc, sent)?;
    let are_two = are_two(&outbox, sent);
    let packets = outbox.into_packets();
    let count = packets.len();
    drop(packets);
    Some((are_two, count))
}

fn sends_to_others(alloc: Global) -> Option<(bool, usize)> {
    let sent = message(alloc)?;
    let goes = goes_to_others(alloc, &sent);
    drop(sent);
    goes
}

// Whether an empty outbox has no packets.
fn is_empty(alloc: Global) -> bool {
    let outbox = Outbox::empty(alloc);
    let is_empty = outbox.len() == 0;
    drop(outbox);
    is_empty
}

#[test]
fn a_message_goes_to_every_other_node(rt: HostRuntime) {
    assert!(rt; sends_to_others(rt.alloc()) == Some((true, 2)) && is_empty(rt.alloc()));
}

// A packet from node 2 to node 3.
fn packet(alloc: Global) -> Option<Packet> {
    let (source, target) = (NodeId::new(2)?, NodeId::new(3)?);
    let (name, client) = (name(2, 1)?, ClientId::new(7)?);
    if source == target {
        return None;
    }
    match Message::copy_of(alloc, client, 1, b"a") {
        Ok(message) => Some(Packet::new(source, target, name, message, None)),
        Err(_no_memory) => None,
    }
}

// Whether an outbox can hold this packet alone.
fn is_one(alloc: Global) -> Option<bool> {
    let outbox = Outbox::one(alloc, packet(alloc)?).ok()?;
    let is_one = match outbox.get(0) {
        Some(packet) => outbox.len() == 1 && packet.target().number() == 3,
        None => false,
    };
    drop(outbox);
    Some(is_one)
}

#[test]
fn one_packet_is_an_outbox(rt: HostRuntime) {
    assert_eq!(rt; is_one(rt.alloc()), Some(true));
}
