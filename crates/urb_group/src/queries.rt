//! Queries about a node of a group, whatever state the node is in.

ghost use Rattle.std.specs.Prelude.{◌<◌, ◌≡◌, Some, option_map};
ghost use Rattle.urb_node.specs.CallEffects.{CountsOwn as CountsOwnAt, FindsMessage as FindsMessageAt};
ghost use Rattle.urb_node.specs.CallEffects.{IsCertified, TellsLog as TellsLogAt, TellsNext};
ghost use Rattle.urb_group.specs.GroupCalls.{Answers, CountsOwn, FindsMessage, Holds, TellsLog};
ghost use Rattle.urb_group.specs.PlaceViews.{state_in};
ghost use Rattle.urb_group.specs.internal.PlaceInvariant.{ShowsAt};
ghost use Rattle.urb_group.specs.ReportedStates.{state_of};

use crate::node_moves::{Node, place_of};
use crate::{Group, State};
use std::alloc::Allocator;
use urb_names::{ClientId, Message, Name, NodeId};

impl<A: Allocator + Copy> Node<A> {
    // Returns the node's state.
    fn state(&self) -> State
        ensures { result ≡ state_of (state_in self.now) }
    {
        match self {
            Node::Ready(_) => State::Ready,
            Node::Storing(_) => State::Storing,
            Node::Down(_) => State::Down,
        }
    }

    // Returns the names that the node has delivered.
    fn log(&self) -> &[Name]
        ensures { TellsLogAt (ShowsAt self.now) result.now }
    {
        match self {
            Node::Ready(ready) => ready.log(),
            Node::Storing(storing) => storing.log(),
            Node::Down(down) => down.log(),
        }
    }

    /// Returns the message that the node has stored under a name.
    pub(crate) fn message(&self, name: Name) -> Option<&Message<A>>
        ensures { FindsMessageAt (ShowsAt self.now) name (option_map (λ m. m.now) result) }
    {
        match self {
            Node::Ready(ready) => ready.message(name),
            Node::Storing(storing) => storing.message(name),
            Node::Down(down) => down.message(name),
        }
    }

    /// Says whether the node has stored a certificate for a name.
    pub(crate) fn certified(&self, name: Name) -> bool
        ensures { IsCertified (ShowsAt self.now) name result }
    {
        match self {
            Node::Ready(ready) => ready.certified(name),
            Node::Storing(storing) => storing.certified(name),
            Node::Down(down) => down.certified(name),
        }
    }

    /// Returns how many messages of its own the node has stored.
    pub(crate) fn own_len(&self) -> u32
        ensures { CountsOwnAt (ShowsAt self.now) result }
    {
        match self {
            Node::Ready(ready) => ready.own_len(),
            Node::Storing(storing) => storing.own_len(),
            Node::Down(down) => down.own_len(),
        }
    }

    /// Returns the number that a client must give its next message at the node.
    pub(crate) fn client_next(&self, client: ClientId) -> u32
        ensures value { TellsNext (ShowsAt self.now) client result }
        ensures range { 0 < result }
    {
        match self {
            Node::Ready(ready) => ready.client_next(client),
            Node::Storing(storing) => storing.client_next(client),
            Node::Down(down) => down.client_next(client),
        }
    }
}

impl<A: Allocator + Copy> Group<A> {
    /// Returns a node's state, or `None` if the group has no such node.
    pub fn state(&self, node: NodeId) -> Option<State>
        ensures { Answers (λ w. Some (state_of (w.node node).state)) self.now node result }
    {
        let at = place_of(self.config, node)?;
        Some(self.nodes[at].state())
    }

    /// Returns the names that a node has delivered, in the order of their delivery. This works for
    /// a node that is down too. Returns `None` if the group has no such node. A record that the
    /// node's store hasn't confirmed, or that is in doubt, doesn't count.
    pub fn log(&self, node: NodeId) -> Option<&[Name]>
        ensures { TellsLog self.now node (option_map (λ names. names.now) result) }
    {
        let at = place_of(self.config, node)?;
        Some(self.nodes[at].log())
    }

    /// Returns the message that a node has stored under a name. Returns `None` if the node has
    /// stored no such message, or the group has no such node. A record that the node's store hasn't
    /// confirmed, or that is in doubt, doesn't count.
    pub fn message(&self, node: NodeId, name: Name) -> Option<&Message<A>>
        ensures { FindsMessage self.now node name (option_map (λ m. m.now) result) }
    {
        let at = place_of(self.config, node)?;
        self.nodes[at].message(name)
    }

    /// Says whether a node has stored a message under a name. `false` also means that the group has
    /// no such node.
    pub fn holds(&self, node: NodeId, name: Name) -> bool
        ensures { Holds self.now node name result }
    {
        self.message(node, name).is_some()
    }

    /// Returns how many messages of its own clients a node has stored. Returns `None` if the group
    /// has no such node.
    pub fn own_len(&self, node: NodeId) -> Option<u32>
        ensures { CountsOwn self.now node result }
    {
        let at = place_of(self.config, node)?;
        Some(self.nodes[at].own_len())
    }
}
