//! Packets whose payload is borrowed.
ghost use Rattle.std.specs.Prelude.{◌≡◌, ◌≢◌, ◌<◌, ◌≤◌, length, IfOk};
ghost use Rattle.urb_names.specs.PacketGrammar.{IsPacket};

use crate::{ClientId, Flags, MAX_PAYLOAD, Message, Name, NoMemory, NodeId, Packet};
use std::alloc::Allocator;
use std::marker::Model;

/// A packet whose payload is borrowed: what `parse` finds in a datagram, without a copy.
#[derive(Debug, Drop)]
pub struct PacketView<'a> {
    pub(crate) source: NodeId,
    pub(crate) target: NodeId,
    pub(crate) name: Name,
    pub(crate) client: ClientId,
    pub(crate) number: u32,
    pub(crate) payload: &'a [u8],
    pub(crate) flags: Option<Flags>,
}

impl<'a> Model for PacketView<'a> {
    ghost use Rattle.std.specs.Prelude.{◌≢◌, ◌<◌, ◌≤◌, length};
    ghost use Rattle.urb_names.specs.CarriedPackets.{Carried};
    ghost use Rattle.urb_names.specs.PacketGrammar.{FitsVersion};
    ghost use Rattle.urb_names.specs.declared.limits.TheConstants.{MAX_PAYLOAD};

    ghost Value = { Carried };

    ghost view = { λ a. record {
      source = a.source;
      target = a.target;
      name = a.name;
      message = record { client = a.client; number = a.number; payload = a.payload.now };
      flags = a.flags;
    } };

    ghost invariant = { λ a. (a.source ≢ a.target)
        × (0 < a.number)
        × (length a.payload.now ≤ MAX_PAYLOAD)
        × FitsVersion a.flags a.payload.now };
}

impl<'a> PacketView<'a> {
    /// The node that sent it.
    pub fn source(&self) -> NodeId
        ensures { result ≡ self.now.source }
    {
        self.source
    }

    /// The node that it was sent to; never its source.
    pub fn target(&self) -> NodeId
        ensures value { result ≡ self.now.target }
        ensures apart { self.now.source ≢ self.now.target }
    {
        self.target
    }

    /// The name of its message.
    pub fn name(&self) -> Name
        ensures { result ≡ self.now.name }
    {
        self.name
    }

    /// The client that submitted its message.
    pub fn client(&self) -> ClientId
        ensures { result ≡ self.now.message.client }
    {
        self.client
    }

    /// The number that the client gave the message.
    pub fn number(&self) -> u32
        ensures value { result ≡ self.now.message.number }
        ensures range { 0 < self.now.message.number }
    {
        self.number
    }

    /// The bytes that the client sent.
    pub fn payload(&self) -> &[u8]
        ensures value { result.now ≡ self.now.message.payload }
        ensures limit { length self.now.message.payload ≤ MAX_PAYLOAD }
    {
        self.payload
    }

    /// What its source says about certificates; `None` in a packet of version one.
    pub fn flags(&self) -> Option<Flags>
        ensures { result ≡ self.now.flags }
    {
        self.flags
    }

    /// The packet, with a copy of the payload allocated from `alloc`.
    pub fn to_packet<A: Allocator + Copy>(&self, alloc: A) -> Result<Packet<A>, NoMemory>
        ensures { IfOk result (λ p. p ≡ self.now) }
    {
        let message = Message::copy_of(alloc, self.client, self.number, self.payload)?;
        Ok(Packet::new(self.source, self.target, self.name, message, self.flags))
    }

    /// Does nothing at run time; it brings the value's invariant into the proof: the packet meets
    /// the grammar.
    pub fn recall(&self)
        ensures { IsPacket self.now }
    {
        self.source.recall();
        self.target.recall();
        self.name.recall();
        let _client = self.client.number();
        let _number = self.number;
        let _payload = self.payload;
    }
}
