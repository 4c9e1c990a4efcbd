//! What a house reports about its nodes.
ghost use Rattle.std.specs.Prelude.{◌≡◌, Some, option_map};
ghost use Rattle.urb_group.specs.GroupCalls.{Answers, CountsOwn, FindsMessage, Holds, TellsLog};
ghost use Rattle.urb_group.specs.ReportedStates.{state_of};
ghost use Rattle.urb_show.specs.Statuses.{TellsStatus};

use crate::history::tokens::HouseName;
use crate::house::House;
use crate::status::Status;
use std::alloc::Allocator;
use urb_group::{Config, Group, Message, Name, NodeId, State};

impl<K: HouseName, A: Allocator> House<K, A> {
    /// The number of events since the house was opened. A refused call is no event. The count stays
    /// at its greatest value, 18,446,744,073,709,551,615.
    pub fn events(&self) -> u64
        ensures { result ≡ self.now.events }
    {
        self.events
    }

    /// The group, as it is now. What only reads a group, a feed for example, reads it here.
    pub fn group(&self) -> &Group
        ensures { result.now ≡ self.now.group }
    {
        &self.group
    }

    /// The number of nodes in the group, and how many messages each node may broadcast.
    pub fn config(&self) -> Config
        ensures { result ≡ self.now.group.size }
    {
        self.group.config()
    }

    /// A node's state, how many messages it has broadcast, and how many names it has delivered.
    /// `None` if there is no such node.
    pub fn status(&self, node: NodeId) -> Option<Status>
        ensures { TellsStatus self.now.group node result }
    {
        self.group.recall_deliveries();
        let state = self.group.state(node)?;
        let own = self.group.own_len(node)?;
        let logged = self.group.log(node)?.len() as u32;
        Some(Status { state, own, logged })
    }

    /// A node's state. `None` if there is no such node.
    pub fn state(&self, node: NodeId) -> Option<State>
        ensures { Answers (λ w. Some (state_of (w.node node).state)) self.now.group node result }
    {
        self.group.state(node)
    }

    /// The names that a node has delivered, published or not. `None` if there is no such node.
    pub fn log(&self, node: NodeId) -> Option<&[Name]>
        ensures { TellsLog self.now.group node (option_map (λ names. names.now) result) }
    {
        self.group.log(node)
    }

    /// The message that a node has stored under a name. `None` if it has stored no message under
    /// the name, or if there is no such node.
    pub fn message(&self, node: NodeId, name: Name) -> Option<&Message>
        ensures { FindsMessage self.now.group node name (option_map (λ m. m.now) result) }
    {
        self.group.message(node, name)
    }

    /// Whether a node has stored a message under a name.
    pub fn holds(&self, node: NodeId, name: Name) -> bool
        ensures { Holds self.now.group node name result }
    {
        self.group.holds(node, name)
    }

    /// How many messages a node has broadcast. `None` if there is no such node.
    pub fn own_len(&self, node: NodeId) -> Option<u32>
        ensures { CountsOwn self.now.group node result }
    {
        self.group.own_len(node)
    }
}
