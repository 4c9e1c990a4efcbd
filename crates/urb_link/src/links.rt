//! Links, which carry packets to nodes.

ghost use Rattle.std.specs.Prelude.{◌≡◌, ◌-◌, slice_get, vec_len};

use crate::handed::{keep, send_datagram};
use crate::spares::NodeSpares;
use crate::{Handed, Station};
use std::alloc::Global;
use std::net::UdpSocket;
use std::sync::{Mutex, Wait};
use std::time::Clock;
use urb_names::{MAX_NODES, MAX_SENDERS, NoMemory, NodeId};
use urb_turn::HandledDatagram;

/// Carries packets to nodes, as the textbook's fair-loss links do (section 2.4 of the textbook). A
/// packet that can't be sent is lost, also if the cause is refused memory. A later tick may resend
/// it.
pub trait Link {
    ghost use Rattle.std.specs.Prelude.{List, ℕ};
    ghost use Rattle.urb_link.specs.Links.{IsOf};
    ghost use Rattle.urb_link.specs.declared.handed.Handed.{Handed};

    /// What the link may have done with these bytes for this node.
    ghost hands: { Self → ℕ → List ℕ → Handed → Type 0 };

    /// Sends bytes to a node. The result is the witness of what was done with them.
    fn send<'b>(&self, target: NodeId, bytes: &'b [u8]) -> Handed<'b>
        ensures of { IsOf target bytes.now result }
        ensures hands { hands self.now target bytes.now result };

    /// Takes back the buffer of a datagram that its node has handled, so that a later datagram of
    /// that node can use it. A link that keeps no buffers drops it.
    fn take_back(&self, _datagram: HandledDatagram) {}

    /// Says that entries of a node's log were published, after the worker has answered for them. A
    /// link without a bell does nothing.
    fn ring(&self, _node: NodeId) {}
}

/// Sends packets over UDP on this machine's loopback, each packet as one datagram.
#[derive(Drop)]
pub struct UdpLink {
    socket: UdpSocket,
    ports: Vec<u16>,
}

impl UdpLink {
    /// A link that sends from this socket. The ports are those at which nodes 1, 2, .. receive.
    pub fn new(socket: UdpSocket, ports: Vec<u16>) -> UdpLink
        ensures socket { result.socket ≡ socket }
        ensures ports { result.ports ≡ ports }
    {
        UdpLink { socket, ports }
    }

    // The port at which a node receives, if the link has one for it.
    fn port_of(&self, target: NodeId) -> Option<u16>
        ensures { result ≡ slice_get self.now.ports.items (target - 1) }
    {
        self.ports.get(usize::from(target.number()) - 1).copied()
    }
}

impl Link for UdpLink {
    ghost use Rattle.urb_link.specs.Links.{IsByPorts};

    ghost hands = { λ link target bytes handed. IsByPorts link.ports.items target handed.way };

    fn send<'b>(&self, target: NodeId, bytes: &'b [u8]) -> Handed<'b> {
        match self.port_of(target) {
            Some(port) => Handed::sent(target, send_datagram(&self.socket, port, bytes)),
            None => Handed::to_nobody(target, bytes),
        }
    }
}

/// Sends over another link. Before a packet it waits while too much is in flight to the packet's
/// node, as `InFlight::enter` says. The receivers of the stations must take what arrives there.
#[derive(Drop)]
pub struct PacedLink<'a, N: Link, R: Clock> {
    rt: &'a R,
    link: &'a N,
    stations: &'a [Station],
}

impl<'a, N: Link, R: Clock> PacedLink<'a, N, R> {
    /// A link to nodes 1, 2, .. with these stations.
    pub fn new(rt: &'a R, link: &'a N, stations: &'a [Station]) -> PacedLink<'a, N, R>
        ensures link { result.link.now ≡ link.now }
        ensures stations { result.stations.now ≡ stations.now }
    {
        PacedLink { rt, link, stations }
    }
}

impl<'a, N: Link, R: Clock> Link for PacedLink<'a, N, R> {
    ghost hands = { λ paced target bytes handed. N.hands paced.link.now target bytes handed };

    fn send<'b>(&self, target: NodeId, bytes: &'b [u8]) -> Handed<'b> {
        if let Some(station) = self.stations.get(usize::from(target.number()) - 1) {
            station.in_flight.enter(self.rt, bytes.len());
        }
        self.link.send(target, bytes)
    }

    fn take_back(&self, datagram: HandledDatagram) {
        if let Some(spares) = NodeSpares::of(self.stations, datagram.node()) {
            spares.put(datagram);
        }
    }

    fn ring(&self, node: NodeId) {
        if let Some(station) = self.stations.get(usize::from(node.number()) - 1) {
            station.bell.ring();
        }
    }
}

/// Puts packets into mailboxes in memory, one for each node. Tests use it, and empty the mailboxes.
#[derive(Drop)]
pub struct MemoryLink<'a, R: Wait> {
    rt: &'a R,
    alloc: Global,
    mailboxes: Vec<Mutex<Vec<Vec<u8>>>>,
}

impl<'a, R: Wait> MemoryLink<'a, R> {
    /// A link to nodes 1 to `MAX_NODES` with empty mailboxes.
    pub fn new(rt: &'a R, alloc: Global) -> Result<MemoryLink<'a, R>, NoMemory> {
        let mut mailboxes = Vec::with_capacity(alloc, MAX_SENDERS)?;
        for _ in 0..MAX_NODES {
            mailboxes.push(Mutex::new(Vec::new(alloc)))?;
        }
        Ok(MemoryLink {
            rt,
            alloc,
            mailboxes,
        })
    }

    /// What was sent to a node since the last such call, in the order of the sends.
    pub fn empty(&self, node: NodeId) -> Vec<Vec<u8>> {
        let mut sent = Vec::new(self.alloc);
        if let Some(mailbox) = self.mailboxes.get(usize::from(node.number()) - 1) {
            std::mem::swap(&mut *mailbox.lock(self.rt), &mut sent);
        }
        sent
    }
}

impl<'a, R: Wait> Link for MemoryLink<'a, R> {
    ghost use Rattle.urb_link.specs.Links.{IsByMailboxes};

    ghost hands = { λ link target bytes handed.
        IsByMailboxes (vec_len link.mailboxes) target handed.way };

    fn send<'b>(&self, target: NodeId, bytes: &'b [u8]) -> Handed<'b> {
        let Some(mailbox) = self.mailboxes.get(usize::from(target.number()) - 1) else {
            return Handed::to_nobody(target, bytes);
        };
        match keep(self.rt, self.alloc, mailbox, bytes) {
            Ok(packet) => Handed::kept(target, packet),
            Err(refused) => Handed::refused(target, bytes, refused),
        }
    }
}
