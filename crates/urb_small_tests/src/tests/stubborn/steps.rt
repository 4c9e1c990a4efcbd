//! Steps that tests make with resends.

use super::*;
use urb_names::{NoMemory, Packet};

/// What a tick sends.
#[derive(Clone, Copy)]
pub(super) enum Sent<'a> {
    /// These packets, each a target with a sender and its number.
    Packets(&'a [(u8, u8, u32)]),
    /// One packet of each of these names of node 2, to node 2.
    Names(&'a [u32]),
    /// As many packets as this number.
    Count(usize),
    /// Packets that say this about certificates here.
    Certified(&'a [bool]),
}

/// A step with its expected effect.
#[derive(Clone, Copy)]
pub(super) enum Step<'a> {
    /// Hears a node's certificate of the name with this sender and number.
    Hear(u8, u32, u8),
    /// Hears node 2's certificates of these names of its own.
    HearAll(&'a [u32]),
    /// Whether a node's certificate of the name with this sender and number was heard.
    Heard(u8, u32, u8, bool),
    /// For each of these numbers in turn, hears the certificates of nodes 2 and 3 for both their
    /// names. A tick after each sends what is left of 80 packets.
    Quiet(&'a [u32]),
    Forget,
    Rewind,
    Tick(Sent<'a>),
}

// Whether node 1 sends this packet to this node under this name, without saying that a certificate
// was heard.
fn is_packet<A: Allocator + Copy>(
    packet: Option<&Packet<A>>,
    (target, sender, seq): (u8, u8, u32),
) -> bool {
    let Some(packet) = packet else {
        return false;
    };
    let name = packet.name();
    let heard = match packet.flags() {
        Some(flags) => flags.heard,
        None => true,
    };
    packet.source().number() == 1
        && packet.target().number() == target
        && name.sender.number() == sender
        && name.seq == seq
        && !heard
}

// Whether a packet says this about a certificate here, and doesn't say that one was heard.
fn is_certified<A: Allocator + Copy>(packet: Option<&Packet<A>>, certified: bool) -> bool {
    let Some(packet) = packet else {
        return false;
    };
    match packet.flags() {
        Some(flags) => flags.certified == certified && !flags.heard,
        None => false,
    }
}

fn are_packets<A: Allocator + Copy>(outbox: &Outbox<A>, wanted: &[(u8, u8, u32)]) -> bool {
    for (index, one) in wanted.iter().enumerate() {
        if !is_packet(outbox.get(index), *one) {
            return false;
        }
    }
    outbox.len() == wanted.len()
}

fn are_names<A: Allocator + Copy>(outbox: &Outbox<A>, seqs: &[u32]) -> bool {
    for (index, seq) in seqs.iter().enumerate() {
        if !is_packet(outbox.get(index), (2, 2, *seq)) {
            return false;
        }
    }
    outbox.len() == seqs.len()
}

fn are_certified<A: Allocator + Copy>(outbox: &Outbox<A>, wanted: &[bool]) -> bool {
    for (index, certified) in wanted.iter().enumerate() {
        if !is_certified(outbox.get(index), *certified) {
            return false;
        }
    }
    outbox.len() == wanted.len()
}

// Whether a tick sent these packets.
fn is_sent<A: Allocator + Copy>(outbox: Outbox<A>, sent: Sent) -> bool {
    let is_sent = match sent {
        Sent::Packets(packets) => are_packets(&outbox, packets),
        Sent::Names(seqs) => are_names(&outbox, seqs),
        Sent::Count(count) => outbox.len() == count,
        Sent::Certified(certified) => are_certified(&outbox, certified),
    };
    drop(outbox);
    is_sent
}

// Performs a tick, again if it is refused. Returns whether it was refused, or `None` if it sends
// something else.
fn ticks<A: Allocator + Copy>(
    resend: &mut Resend<A>,
    alloc: A,
    stored: &Stored<A>,
    sent: Sent,
) -> Option<bool> {
    if let Ok(outbox) = resend.tick(alloc, &stored.pending, &stored.certified) {
        return if is_sent(outbox, sent) {
            Some(false)
        } else {
            None
        };
    }
    match resend.tick(alloc, &stored.pending, &stored.certified) {
        Ok(outbox) => if is_sent(outbox, sent) {
            Some(true)
        } else {
            None
        },
        Err(_) => None,
    }
}

// Reserves space for a name and hears a node's certificate of it.
fn hear<A: Allocator + Copy>(
    resend: &mut Resend<A>,
    name: Name,
    node: NodeId,
) -> Result<(), NoMemory> {
    resend.reserve(name)?;
    resend.hear(name, node);
    Ok(())
}

// The same, tried again if it is refused, which must change nothing. Returns whether it was
// refused, or `None` if that isn't so.
fn hears_of<A: Allocator + Copy>(resend: &mut Resend<A>, name: Name, node: NodeId) -> Option<bool> {
    let known = resend.heard(name, node);
    if hear(resend, name, node).is_ok() {
        return if resend.heard(name, node) {
            Some(false)
        } else {
            None
        };
    }
    let is_unchanged = resend.heard(name, node) == known;
    let is_heard = hear(resend, name, node).is_ok() && resend.heard(name, node);
    if is_unchanged && is_heard {
        Some(true)
    } else {
        None
    }
}

// The same for the name with this sender and number.
fn hears<A: Allocator + Copy>(
    resend: &mut Resend<A>,
    sender: u8,
    seq: u32,
    number: u8,
) -> Option<bool> {
    hears_of(resend, name(sender, seq)?, NodeId::new(number)?)
}

fn hears_all<A: Allocator + Copy>(resend: &mut Resend<A>, seqs: &[u32]) -> Option<bool> {
    let mut refused = false;
    for seq in seqs {
        refused |= hears(resend, 2, *seq, 2)?;
    }
    Some(refused)
}

// Hears the certificates of nodes 2 and 3 for the names of both with this number.
fn hears_both<A: Allocator + Copy>(resend: &mut Resend<A>, seq: u32) -> Option<bool> {
    let mut refused = false;
    for (sender, number) in [(2, 2), (2, 3), (3, 2), (3, 3)] {
        refused |= hears(resend, sender, seq, number)?;
    }
    Some(refused)
}

fn is_quiet<A: Allocator + Copy>(
    resend: &mut Resend<A>,
    alloc: A,
    stored: &Stored<A>,
    seqs: &[u32],
) -> Option<bool> {
    let mut refused = false;
    let mut left: usize = 80;
    for seq in seqs {
        left = left.saturating_sub(4);
        refused |= hears_both(resend, *seq)?;
        refused |= ticks(resend, alloc, stored, Sent::Count(left.min(32)))?;
    }
    if left == 0 { Some(refused) } else { None }
}

// Whether a node's certificate of the name with this sender and number was heard.
fn has_heard<A: Allocator + Copy>(
    resend: &Resend<A>,
    sender: u8,
    seq: u32,
    number: u8,
) -> Option<bool> {
    let (name, node) = (name(sender, seq)?, NodeId::new(number)?);
    Some(resend.heard(name, node))
}

// Performs a step. Returns whether a call was refused, or `None` if it has another effect.
fn is_step_refused<A: Allocator + Copy>(
    resend: &mut Resend<A>,
    alloc: A,
    stored: &Stored<A>,
    step: Step,
) -> Option<bool> {
    match step {
        Step::Hear(sender, seq, number) => hears(resend, sender, seq, number),
        Step::HearAll(seqs) => hears_all(resend, seqs),
        Step::Heard(sender, seq, number, heard) => {
            if has_heard(resend, sender, seq, number)? == heard {
                Some(false)
            } else {
                None
            }
        }
        Step::Quiet(seqs) => is_quiet(resend, alloc, stored, seqs),
        Step::Forget => {
            resend.forget();
            Some(false)
        }
        Step::Rewind => {
            resend.rewind();
            Some(false)
        }
        Step::Tick(sent) => ticks(resend, alloc, stored, sent),
    }
}

// Performs steps one after the other.
pub(super) fn is_refused_in<A: Allocator + Copy>(
    resend: &mut Resend<A>,
    alloc: A,
    stored: &Stored<A>,
    steps: &[Step],
) -> Option<bool> {
    let mut refused = false;
    for step in steps {
        refused |= is_step_refused(resend, alloc, stored, *step)?;
    }
    Some(refused)
}
