//! The packets that a call of a node returns for sending.

ghost use Rattle.std.specs.Prelude.{◌≡◌, ◌≤◌, ◌∷◌, ◌++◌, false, filter, not, [], length, slice_get};
ghost use Rattle.std.specs.Prelude.{option_map, vec_len, IfOk, OnOk};
ghost use Rattle.urb_names.specs.Acknowledgements.{acked};
ghost use Rattle.urb_names.specs.CarriedPackets.{is_heard_of, others, packets_to, to_others};

use crate::due::is_unheard;
use std::alloc::{Allocator, Global};
use std::marker::Model;
use urb_names::{
    Config, Flags, MAX_SENDERS, Message, NAMES_PER_TICK, Name, NoMemory, NodeId, Packet,
};
use urb_window::Marks;

/// The greatest number of packets in an outbox: a tick sends `NAMES_PER_TICK` names to each other
/// node.
pub const OUTBOX_MAX: usize = NAMES_PER_TICK as usize * (MAX_SENDERS - 1);

// A name that a node sends to the others of its group, and whether the node has stored a
// certificate of it.
#[derive(Clone, Copy, Drop)]
pub(crate) struct Sending {
    pub(crate) config: Config,
    pub(crate) node: NodeId,
    pub(crate) name: Name,
    pub(crate) certified: bool,
}

/// Packets for the other nodes, at most `OUTBOX_MAX`.
#[derive(Drop)]
#[derive_where(Debug)]
pub struct Outbox<A: Allocator = Global> {
    packets: Vec<Packet<A>, A>,
}

impl<A: Allocator> Model for Outbox<A> {
    ghost use Rattle.std.specs.Prelude.{◌≤◌, List, vec_len};
    ghost use Rattle.urb_names.specs.Acknowledgements.{acked};
    ghost use Rattle.urb_names.specs.CarriedPackets.{Carried};
    ghost use Rattle.urb_stubborn.specs.declared.outbox.TheConstants.{OUTBOX_MAX};

    ghost Value = { List Carried };

    ghost view = { λ a. a.packets.items };

    ghost invariant = { λ a. vec_len a.packets ≤ OUTBOX_MAX };
}

impl<A: Allocator + Copy> Outbox<A> {
    /// No packets. Allocates no memory.
    pub fn empty(alloc: A) -> Outbox<A>
        ensures { result ≡ [] }
    {
        Outbox {
            packets: Vec::new(alloc),
        }
    }

    /// A single packet, such as an answer.
    pub fn one(alloc: A, packet: Packet<A>) -> Result<Outbox<A>, NoMemory>
        ensures { IfOk result (λ outbox. outbox ≡ packet ∷ []) }
    {
        let mut packets = Vec::new(alloc);
        packets.push(packet)?;
        Ok(Outbox { packets })
    }

    /// One packet of a message to every other node of the group. This is a best-effort broadcast
    /// (section 3.2 of the textbook) without the node itself. Each packet says whether the node has
    /// also stored a certificate of the name. The packet to the node `heard` also says that its
    /// certificate was heard.
    pub fn of_pair(
        alloc: A,
        config: Config,
        node: NodeId,
        name: Name,
        message: &Message<A>,
        certified: bool,
        heard: Option<NodeId>,
    ) -> Result<Outbox<A>, NoMemory>
        ensures { IfOk result
            (λ outbox. outbox ≡ to_others config.n node certified heard (name, message.now)) }
    {
        let mut packets = Vec::new(alloc);
        let sending = Sending {
            config,
            node,
            name,
            certified,
        };
        push_to_others(&mut packets, alloc, message, heard, sending)?;
        Ok(Outbox { packets })
    }

    /// The number of packets.
    pub fn len(&self) -> usize
        ensures value { result ≡ length self.now }
        ensures range { result ≤ OUTBOX_MAX }
    {
        self.packets.len()
    }

    /// The packet at a place, from 0.
    pub fn get(&self, index: usize) -> Option<&Packet<A>>
        ensures { option_map (λ packet. packet.now) result ≡ slice_get self.now index }
    {
        self.packets.get(index)
    }

    /// The packets themselves, in order, without a copy.
    pub fn into_packets(self) -> Vec<Packet<A>, A>
        ensures { result.items ≡ self }
    {
        let Outbox { packets } = self;
        packets
    }
}

impl<A: Allocator> Outbox<A> {
    // An outbox of these packets.
    pub(crate) fn of(packets: Vec<Packet<A>, A>) -> Outbox<A>
        requires { vec_len packets ≤ OUTBOX_MAX }
        ensures { result ≡ packets.items }
    {
        Outbox { packets }
    }
}

// Appends one packet of the message for every other node whose certificate of the name was not
// heard.
pub(crate) fn push_to_unheard<A: Allocator + Copy>(
    packets: &mut Vec<Packet<A>, A>,
    alloc: A,
    message: &Message<A>,
    heard: &Marks<A>,
    sending: Sending,
) -> Result<(), NoMemory>
    ensures { OnOk result (packets.new.items
        ≡ packets.old.items
        ++ packets_to sending.node (λ q. record { certified = sending.certified; heard = false })
        (filter (λ q. not (acked heard.now.marks sending.name q))
        (others sending.config.n sending.node))
        (sending.name, message.now)) }
{
    let Sending {
        config,
        node,
        name,
        certified,
    } = sending;
    for number in 1..config.n() + 1 {
        let target = NodeId::new(number).unwrap();
        if is_unheard(heard, node, name, target) {
            let flags = Flags {
                certified,
                heard: false,
            };
            packets.push(Packet::new(node, target, name, message.share(alloc)?, Some(flags)))?;
        }
    }
    Ok(())
}

// Appends one packet of the message for every other node. The packet to the node `heard` says that
// its certificate was heard.
fn push_to_others<A: Allocator + Copy>(
    packets: &mut Vec<Packet<A>, A>,
    alloc: A,
    message: &Message<A>,
    heard: Option<NodeId>,
    sending: Sending,
) -> Result<(), NoMemory>
    ensures { OnOk result (packets.new.items
        ≡ packets.old.items
        ++ to_others sending.config.n sending.node sending.certified heard
        (sending.name, message.now)) }
{
    let Sending {
        config,
        node,
        name,
        certified,
    } = sending;
    let end = config.n() + 1;
    for number in 1..end {
        let target = NodeId::new(number).unwrap();
        if target != node {
            let flags = Flags {
                certified,
                heard: is_heard_of(heard, target),
            };
            packets.push(Packet::new(node, target, name, message.share(alloc)?, Some(flags)))?;
        }
    }
    Ok(())
}

// Whether this is the node that was heard, if there is one.
fn is_heard_of(heard: Option<NodeId>, target: NodeId) -> bool
    ensures { result ≡ is_heard_of heard target }
{
    match heard {
        Some(node) => target == node,
        None => false,
    }
}
