//! A group has all nodes in one process. Each call is one event at one node.

ghost use Rattle.std.specs.Prelude.{IfOk};
ghost use Rattle.urb_group.specs.GroupCalls.{ComesUp, Commits, GoesDown, Takes, Ticks};
ghost use Rattle.urb_group.specs.GroupViews.{Shows};
ghost use Rattle.urb_world.specs.Step.{Crash, Fail, Restart, Submit, Tick};
ghost use Rattle.urb_group.specs.internal.PlaceCalls.{SubmitsAt};
ghost use Rattle.urb_world.specs.World.{started};

use crate::Taken;
use crate::node_moves::{
    Node, commit_at, crash_at, fail_at, move_node, node_after, place_of, restart_at, tick_at,
};
use crate::shared_payloads::share_image;
use std::alloc::{Allocator, Global};
use std::marker::Model;
use urb_names::{ClientId, Config, Message, NoMemory, NodeId, Payload, Refusal};
use urb_node::{Done, Ready};
use urb_stable::{Doubt, Receipt, Record};
use urb_stubborn::Outbox;

/// All nodes of a group, 1 to `Config::n`, held by one process. Each call is one event at one node,
/// and changes that node only.
#[derive(Drop)]
#[derive_where(Debug)]
pub struct Group<A: Allocator = Global> {
    pub(crate) config: Config,
    pub(crate) nodes: Vec<Node<A>, A>,
}

impl<A: Allocator> Model for Group<A> {
    ghost use Rattle.urb_group.specs.PlaceViews.{shown};
    ghost use Rattle.urb_group.specs.internal.PlaceInvariant.{IsGroup};
    ghost use Rattle.urb_group.specs.GroupViews.{GroupView};

    ghost Value = { GroupView };

    ghost view = { λ g. shown g.config g.nodes.items };

    ghost invariant = { λ g. IsGroup g.config g.nodes.items };
}

impl<A: Allocator + Copy> Group<A> {
    /// Makes a group whose nodes are ready and have stored nothing.
    pub fn new(alloc: A, config: Config) -> Result<Group<A>, NoMemory>
        ensures { IfOk result (λ group. Shows group (started config)) }
    {
        let n = config.n();
        let mut nodes = Vec::with_capacity(alloc, usize::from(n))?;
        for at in 0..n {
            let node = NodeId::new(at + 1).unwrap();
            let ready = Ready::new(alloc, config, node)?;
            nodes.push_reserved(Node::Ready(ready));
        }
        Ok(Group { config, nodes })
    }

    /// Submits a client's message to a node for broadcast, with the client's next number at this
    /// node. The node's message shares the memory of the payload.
    ///
    /// `BadNode`: the group has no such node. `Down`, `Busy`: ask again when the node is up, or has
    /// stored its record. `TooLong`: the payload has over `MAX_PAYLOAD` bytes. `Conflict`: the
    /// number was used with another payload. `Gap`: the number isn't the next one; the refusal says
    /// which is. `Full`: the node has broadcast as many messages as it may. `NoMemory`: ask again.
    pub fn submit(
        &mut self,
        alloc: A,
        node: NodeId,
        client: ClientId,
        number: u32,
        payload: &Payload<A>,
    ) -> Result<Taken<A>, Refusal>
        ensures { Takes self.old node
            (Submit node (record { client = client; number = number; payload = payload.now }))
            result self.new }
    {
        let Some(at) = place_of(self.config, node) else {
            return Err(Refusal::BadNode);
        };
        move_node(
            &mut self.nodes,
            at,
            |current|
                ensures { SubmitsAt current
                    (record { client = client; number = number; payload = payload.entry.now })
                    result }
            {
                match current {
                    Node::Ready(ready) => node_after(ready.submit(alloc, client, number, payload)),
                    Node::Storing(storing) => (Node::Storing(storing), Err(Refusal::Busy)),
                    Node::Down(down) => (Node::Down(down), Err(Refusal::Down)),
                }
            },
        )
    }

    /// Takes the receipt for a draft: the node's store has kept the draft's record. The node goes
    /// on, and its packets may be sent. Allocates no memory.
    ///
    /// `BadNode`: the receipt belongs to no node of this group. `Down`: the node crashed in
    /// between. `Stale`: the node holds no draft, or another one. A refused receipt is returned.
    pub fn commit(&mut self, receipt: Receipt<A>) -> Result<Done<A>, (Receipt<A>, Refusal)>
        ensures { Commits self.old receipt result self.new }
    {
        let Some(at) = place_of(self.config, receipt.node()) else {
            return Err((receipt, Refusal::BadNode));
        };
        move_node(&mut self.nodes, at, |current| commit_at(current, receipt))
    }

    /// Takes the doubt about a draft: the node's store may or may not have kept the draft's record.
    /// The node goes down, and the record is in doubt. Allocates no memory.
    ///
    /// `BadNode`: the doubt belongs to no node of this group. `Down`: the node crashed in between.
    /// `Stale`: the node holds no draft.
    pub fn fail(&mut self, doubt: Doubt) -> Result<(), Refusal>
        ensures { GoesDown self.old doubt.node (Fail doubt.node) result self.new }
    {
        let Some(at) = place_of(self.config, doubt.node()) else {
            return Err(Refusal::BadNode);
        };
        move_node(&mut self.nodes, at, fail_at)
    }

    /// Makes a node send pending messages again, as on each timeout of its links.
    ///
    /// `BadNode`: the group has no such node. `Down`, `Busy`: the node is down, or is storing a
    /// record. `NoMemory`: nothing is sent; the next tick sends the same.
    pub fn tick(&mut self, alloc: A, node: NodeId) -> Result<Outbox<A>, Refusal>
        ensures { Ticks self.old (Tick node) result self.new }
    {
        let Some(at) = place_of(self.config, node) else {
            return Err(Refusal::BadNode);
        };
        move_node(&mut self.nodes, at, |current| tick_at(current, alloc))
    }

    /// Stops a node, which loses what it has not stored. Allocates no memory.
    ///
    /// `BadNode`: the group has no such node. `Down`: the node is down already.
    pub fn crash(&mut self, node: NodeId) -> Result<(), Refusal>
        ensures { GoesDown self.old node (Crash node) result self.new }
    {
        let Some(at) = place_of(self.config, node) else {
            return Err(Refusal::BadNode);
        };
        move_node(&mut self.nodes, at, crash_at)
    }

    /// Brings a node up again with all the records that its storage returned. The node sends
    /// nothing. If another node has stored the same message too, the two share one payload, unless
    /// memory for that is refused.
    ///
    /// `BadNode`: the group has no such node. `NotDown`: the node is up. `BadImage`: the image is
    /// neither what the node had stored, nor that plus the record in doubt. `NoMemory`: read the
    /// image again, and ask again.
    pub fn restart(
        &mut self,
        alloc: A,
        node: NodeId,
        image: Vec<Record<Message<A>>, A>,
    ) -> Result<(), Refusal>
        ensures { ComesUp self.old node (Restart node image.items) result self.new }
    {
        let Some(at) = place_of(self.config, node) else {
            return Err(Refusal::BadNode);
        };
        let shared = share_image(&self.nodes, alloc, image);
        move_node(
            &mut self.nodes,
            at,
            |current| restart_at(current, alloc, shared),
        )
    }
}
