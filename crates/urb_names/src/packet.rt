//! Packets: what one node sends to another.
ghost use Rattle.std.specs.Prelude.{◌≡◌, ◌≢◌};
ghost use Rattle.urb_names.specs.PacketGrammar.{IsPacket, FitsVersion};

use crate::{Flags, Message, Name, NodeId};
use std::alloc::{Allocator, Global};
use std::marker::Model;

/// What a datagram carries: a message under its name, from one node to another. A packet of version
/// two also says what its source knows about certificates.
#[derive(Drop)]
#[derive_where(Debug)]
pub struct Packet<A: Allocator = Global> {
    source: NodeId,
    target: NodeId,
    name: Name,
    message: Message<A>,
    flags: Option<Flags>,
}

impl<A: Allocator> Model for Packet<A> {
    ghost use Rattle.std.specs.Prelude.{◌≢◌};
    ghost use Rattle.urb_names.specs.CarriedPackets.{Carried};
    ghost use Rattle.urb_names.specs.PacketGrammar.{FitsVersion};

    ghost Value = { Carried };

    ghost view = { λ a. record {
      source = a.source;
      target = a.target;
      name = a.name;
      message = a.message;
      flags = a.flags;
    } };

    ghost invariant = { λ a. (a.source ≢ a.target) × FitsVersion a.flags a.message.payload };
}

impl<A: Allocator> Packet<A> {
    /// The packet made of these parts. With flags it is of version two. Without flags it is of
    /// version one, and its payload has at most `MAX_PLAIN_PAYLOAD` bytes. Allocates no memory.
    pub fn new(
        source: NodeId,
        target: NodeId,
        name: Name,
        message: Message<A>,
        flags: Option<Flags>,
    ) -> Packet<A>
        requires apart { source ≢ target }
        requires version { FitsVersion flags message.payload }
        ensures { result
            ≡ record {
              source = source;
              target = target;
              name = name;
              message = message;
              flags = flags;
            } }
    {
        Packet {
            source,
            target,
            name,
            message,
            flags,
        }
    }

    /// The node that sends it.
    pub fn source(&self) -> NodeId
        ensures { result ≡ self.now.source }
    {
        self.source
    }

    /// The node that receives it; never its source.
    pub fn target(&self) -> NodeId
        ensures value { result ≡ self.now.target }
        ensures apart { self.now.source ≢ self.now.target }
    {
        self.target
    }

    /// The name of its message.
    pub fn name(&self) -> Name
        ensures { result ≡ self.now.name }
    {
        self.name
    }

    /// Its message.
    pub fn message(&self) -> &Message<A>
        ensures { result.now ≡ self.now.message }
    {
        &self.message
    }

    /// What its source says about certificates; `None` in a packet of version one.
    pub fn flags(&self) -> Option<Flags>
        ensures { result ≡ self.now.flags }
    {
        self.flags
    }

    /// Does nothing at run time; it brings the value's invariant into the proof: the packet meets
    /// the grammar.
    pub fn recall(&self)
        ensures { IsPacket self.now }
    {
        self.source.recall();
        self.target.recall();
        self.name.recall();
        self.message.recall();
    }
}
