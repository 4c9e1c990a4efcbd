//! The set of pending pairs, each a name with its message.

ghost use Rattle.std.specs.Prelude.{◌≡◌, ◌≤◌, ◌+◌, ◌*◌, ◌==◌, [], length, IsOk, OnOk, OnErr};
ghost use Rattle.std.specs.Prelude.{IfErr, None, Some, option_map, slice_get, filter};
ghost use Rattle.urb_names.specs.Pairs.{has_pair, message_of, own, next_number};
ghost use Rattle.urb_names.specs.CyclicOrder.{cyclic, is_after};
ghost use Rattle.urb_window.specs.Entries.{above_of, low_of, window_of};
ghost use Rattle.urb_pending.specs.PendingSet.{IsPendingSet, added, name_given, first_name};

use crate::clients::Clients;
use std::alloc::{Allocator, Global};
use std::marker::Model;
use urb_names::{ClientId, Config, Message, Name, NoMemory, NodeId};
use urb_window::Windows;

/// The pending messages of a node, each under its name. For each sender, one vector holds those
/// with numbers 1, 2, 3, .. without a gap. Those above the gap are kept separately.
#[derive(Drop)]
#[derive_where(Debug)]
pub struct Pending<A: Allocator = Global> {
    config: Config,
    node: NodeId,
    windows: Windows<Message<A>, A>,
    clients: Clients<A>,
    reserved: Option<(Name, ClientId)>,
}

impl<A: Allocator> Model for Pending<A> {
    ghost use Rattle.urb_pending.specs.PendingSet.{PendingSet};

    ghost Value = { PendingSet };

    ghost use Rattle.urb_pending.specs.PendingFields.{view_of};
    ghost use Rattle.urb_pending.specs.internal.FieldInvariant.{IsKept};

    ghost view = { view_of };

    ghost invariant = { IsKept };
}

impl<A: Allocator + Copy> Pending<A> {
    /// The empty set of a node in a group. Allocates no memory; later growth comes from `alloc`.
    pub fn new(alloc: A, config: Config, node: NodeId) -> Pending<A>
        ensures { result ≡ record { limits = config; node = node; pairs = []; reserved = None } }
    {
        Pending {
            config,
            node,
            windows: Windows::new(alloc),
            clients: Clients::new(alloc),
            reserved: None,
        }
    }

    /// Reserves space for a message of this client under this name, so that its `add` allocates
    /// nothing, even if it closes a gap. The space is kept until the next `add` or `reserve`.
    pub fn reserve(&mut self, name: Name, client: ClientId) -> Result<(), NoMemory>
        ensures ok { OnOk result (self.new ≡ record self.old { reserved = Some (name, client) }) }
        ensures err { OnErr result (self.new ≡ self.old) }
    {
        let own = name.sender == self.node;
        self.clients.make_room_if(own, client)?;
        self.windows.reserve(name)?;
        self.reserved = Some((name, client));
        Ok(())
    }

    /// Adds a message under a name that is not pending, as a node does once it has stored the
    /// record (section 3.7 of the textbook). If memory is refused, the message is returned.
    pub fn add(&mut self, name: Name, message: Message<A>) -> Result<(), (Message<A>, NoMemory)>
        requires absent { message_of self.old.pairs name ≡ None }
        requires sender { name.sender ≤ self.old.limits.n }
        requires cap { name.seq ≤ self.old.limits.cap }

        // A message of the node's own takes the node's next name and has its client's next number.
        requires own { name.sender ≡ self.old.node
            → (name.seq ≡ length (own self.old.node self.old.pairs) + 1)
            × (message.number ≡ next_number message.client (own self.old.node self.old.pairs)) }
        ensures ok { OnOk result (self.new ≡ added name message self.old) }
        ensures err { IfErr result (λ e. (e.0 ≡ message) × (self.new ≡ self.old)) }
        ensures reserved { self.old.reserved ≡ Some (name, message.client) → IsOk result }
    {
        name.recall();
        let own = name.sender == self.node;
        let client = message.client();
        if let Err(refused) = self.clients.make_room_if(own, client) {
            return Err((message, refused));
        }
        self.windows.insert(name, message)?;
        self.clients.add_if(own, client, name.seq);
        self.reserved = None;
        Ok(())
    }

    /// Whether this message is pending under this name.
    pub fn has(&self, name: &Name, message: &Message<A>) -> bool
        ensures { result ≡ has_pair self.now.pairs name.now message.now }
    {
        match self.windows.get(*name) {
            Some(there) => there.is_same(message),
            None => false,
        }
    }

    /// The message that is pending under a name.
    pub fn message(&self, name: Name) -> Option<&Message<A>>
        ensures { option_map (λ m. m.now) result ≡ message_of self.now.pairs name }
    {
        self.windows.get(name)
    }

    /// The pending message at a place in the order of names, from 0, with its name.
    pub fn get(&self, index: usize) -> Option<(Name, &Message<A>)>
        ensures { option_map (λ pair. (pair.0, pair.1.now)) result
            ≡ slice_get self.now.pairs index }
    {
        self.windows.entry(index)
    }

    /// The number of pending messages.
    pub fn count(&self) -> u32
        ensures value { result ≡ length self.now.pairs }
        ensures range { result ≤ self.now.limits.n * self.now.limits.cap }
    {
        self.windows.count() as u32
    }

    /// The number of messages that the node itself has broadcast.
    pub fn own_len(&self) -> u32
        ensures value { result ≡ length (own self.now.node self.now.pairs) }
        ensures range { result ≤ self.now.limits.cap }
    {
        self.windows.low(self.node)
    }

    /// The number that a client must give its next message at this node, from 1.
    pub fn client_next(&self, client: ClientId) -> u32
        ensures { result ≡ next_number client (own self.now.node self.now.pairs) }
    {
        self.clients.count(client) as u32 + 1
    }

    /// The name that the node gave to this client's message with this number.
    pub fn find(&self, client: ClientId, number: u32) -> Option<Name>
        ensures { result
            ≡ name_given self.now.node client number (own self.now.node self.now.pairs) }
    {
        let seq = self.clients.find(client, number)?;
        let sender = self.node;
        Some(Name { sender, seq })
    }

    /// The next pending name after a cursor; after the last name comes the first again. `None` only
    /// if nothing is pending.
    pub fn after(&self, cursor: Option<Name>) -> Option<Name>
        ensures { result ≡ first_name (cyclic cursor self.now.pairs) }
    {
        match cursor {
            None => self.windows.first(),
            Some(name) => self.windows.after(name).or(self.windows.first()),
        }
    }

    /// The first pending name after a cursor, without starting over. `None` if there is no name
    /// after it.
    pub fn behind(&self, cursor: Option<Name>) -> Option<Name>
        ensures { result ≡ first_name (filter (λ pair. is_after cursor pair.0) self.now.pairs) }
    {
        match cursor {
            None => self.windows.first(),
            Some(name) => self.windows.after(name),
        }
    }

    /// How far the sender's names are pending from 1 on without a gap: the greatest k such that 1
    /// to k are pending, or 0.
    pub fn low(&self, sender: NodeId) -> u32
        ensures { result ≡ low_of sender self.now.pairs }
    {
        self.windows.low(sender)
    }

    /// The messages of the sender's names 1 to `low` in order, borrowed in place.
    pub fn window(&self, sender: NodeId) -> &[Message<A>]
        ensures { result.now ≡ window_of sender self.now.pairs }
    {
        self.windows.window(sender)
    }

    /// How many of the sender's names are pending after the first gap: those above `low`.
    pub fn above(&self, sender: NodeId) -> u32
        ensures { result ≡ above_of sender self.now.pairs }
    {
        self.windows.above(sender)
    }

    /// Does nothing at run time; it brings the value's invariant into the proof.
    pub fn recall(&self)
        ensures { IsPendingSet self.now }
    {
        let _windows = &self.windows;
    }
}
