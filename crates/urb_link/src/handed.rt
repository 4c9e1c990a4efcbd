//! What a link did with a packet, with a witness of the port and the bytes.

ghost use Rattle.std.specs.Prelude.{◌≡◌, IfOk};

use std::alloc::Global;
use std::net::{Ipv4Addr, UdpSocket};
use std::snapshot::Snapshot;
use std::sync::{Mutex, Wait};
use urb_names::{NoMemory, NodeId};

/// The witness that these bytes were given to a socket, as one datagram for this port of this
/// machine's loopback. Only `send_datagram` makes one.
#[derive(Drop)]
pub(crate) struct SentDatagram<'b> {
    port: u16,
    bytes: &'b [u8],
}

/// Sends bytes from a socket to a port of this machine's loopback, as one datagram. It is lost if
/// the system can't send it. No other place of this crate may call `send_to`: a check of the gate
/// holds that.
pub(crate) fn send_datagram<'b>(socket: &UdpSocket, port: u16, bytes: &'b [u8]) -> SentDatagram<'b>
    ensures port { result.port ≡ port }
    ensures bytes { result.bytes.now ≡ bytes.now }
{
    let _ = socket.send_to(bytes, (Ipv4Addr::LOCALHOST, port));
    SentDatagram { port, bytes }
}

/// The witness that a copy of these bytes was put into a mailbox. Only `keep` makes one.
#[derive(Drop)]
pub(crate) struct KeptPacket<'b> {
    bytes: &'b [u8],
    copy: Snapshot<Vec<u8>>,
    ghost same: { copy.value.items ≡ bytes.now },
}

/// Puts a copy of these bytes into a mailbox, after those that it has.
pub(crate) fn keep<'b, R: Wait>(
    rt: &R,
    alloc: Global,
    mailbox: &Mutex<Vec<Vec<u8>>>,
    bytes: &'b [u8],
) -> Result<KeptPacket<'b>, NoMemory>
    ensures { IfOk result (λ kept. kept.bytes.now ≡ bytes.now) }
{
    let packet = Vec::from_slice(alloc, bytes)?;
    let copy = Snapshot::of(&packet);
    mailbox.lock(rt).push(packet)?;
    Ok(KeptPacket { bytes, copy })
}

/// Which way a packet took.
#[derive(Drop)]
pub(crate) enum Way {
    /// To this port.
    ToPort(u16),
    /// Into its node's mailbox.
    ToMailbox,
    /// The link has no such node.
    ToNobody,
    /// Memory was refused, and the packet is lost.
    Refused(NoMemory),
}

/// The witness of what a link did with a packet for a node. Whoever has none can't say that a link
/// got the packet. Only links of this crate make one, and other links pass on that of the link over
/// which they send.
#[derive(Drop)]
pub struct Handed<'b> {
    target: NodeId,
    bytes: &'b [u8],
    way: Way,
}

impl<'b> Handed<'b> {
    ghost use Rattle.urb_link.specs.Links.{IsOf, IsRefused, IsToMailbox, IsToNobody, IsToPort};

    /// It went to a port.
    pub(crate) fn sent(target: NodeId, datagram: SentDatagram<'b>) -> Handed<'b>
        ensures of { IsOf target datagram.entry.bytes.now result }
        ensures way { IsToPort datagram.entry.port result.way }
    {
        let SentDatagram { port, bytes } = datagram;
        Handed {
            target,
            bytes,
            way: Way::ToPort(port),
        }
    }

    /// It went into a mailbox.
    pub(crate) fn kept(target: NodeId, packet: KeptPacket<'b>) -> Handed<'b>
        ensures of { IsOf target packet.entry.bytes.now result }
        ensures way { IsToMailbox result.way }
    {
        let KeptPacket { bytes, copy: _ } = packet;
        Handed {
            target,
            bytes,
            way: Way::ToMailbox,
        }
    }

    /// The link has no such node.
    pub(crate) fn to_nobody(target: NodeId, bytes: &'b [u8]) -> Handed<'b>
        ensures of { IsOf target bytes.now result }
        ensures way { IsToNobody result.way }
    {
        Handed {
            target,
            bytes,
            way: Way::ToNobody,
        }
    }

    /// Memory was refused.
    pub(crate) fn refused(target: NodeId, bytes: &'b [u8], no_memory: NoMemory) -> Handed<'b>
        ensures of { IsOf target bytes.now result }
        ensures way { IsRefused result.way }
    {
        Handed {
            target,
            bytes,
            way: Way::Refused(no_memory),
        }
    }
}
