//! A cluster: a group with its stores.

ghost use Rattle.std.specs.List.{All};
ghost use Rattle.std.specs.Prelude.{◌≡◌, length, IfOk};
ghost use Rattle.urb_names.specs.PacketGrammar.{packet_of};
ghost use Rattle.urb_group.specs.BlankStores.{IsBlank};
ghost use Rattle.urb_group.specs.GroupStores.{held_draft};
ghost use Rattle.urb_group.specs.ClusterCalls.{Alone, Applies, FailsHeld, RestartsBy, Starts};
ghost use Rattle.urb_group.specs.ClusterCalls.{StoresHeld, is_fallen};
ghost use Rattle.urb_group.specs.Commands.{reply_of};
ghost use Rattle.urb_world.specs.MemoryStores.{in_memory};
ghost use Rattle.urb_group.specs.InPlaceDrafts.{AppliesInPlace, FailsInPlace};
ghost use Rattle.urb_group.specs.GroupViews.{IsSound};
ghost use Rattle.urb_group.specs.StoreContents.{ContentsFit, IsGenuine, IsSecured, IsStocked, StopLeaves};
ghost use Rattle.urb_group.specs.StoreContents.{WouldLeave};
ghost use Rattle.urb_world.specs.Step.{Arrive, Crash, Submit, Tick};

use crate::held_drafts::{drop_draft, hold_draft, no_drafts, take_draft};
use crate::stores::{
    break_store, refusal_to_restart, refusal_to_store, restart_from_store, store_draft, take_down,
};
use crate::{Command, Group, Reply};
use std::alloc::Allocator;
use std::marker::Model;
use urb_names::{ClientId, Config, NoMemory, NodeId, Payload};
use urb_stable::{Draft, Failure, MemStable, Stable};

/// All nodes of a group, each with its store, and the drafts that they hold.
#[derive(Drop)]
pub struct Cluster<S: Stable> {
    pub(crate) group: Group<S::Alloc>,
    pub(crate) stores: Vec<S, S::Alloc>,
    pub(crate) drafts: Vec<Option<Draft<S::Alloc>>, S::Alloc>,
}

impl<S: Stable> Model for Cluster<S> {
    ghost use Rattle.std.specs.Prelude.{length};
    ghost use Rattle.urb_group.specs.GroupStores.{Clustered};
    ghost use Rattle.urb_group.specs.internal.ClusterTies.{IsTied};

    ghost Value = { Clustered S };

    ghost view = { λ a. record { group = a.group; stores = a.stores.items } };

    ghost invariant = { λ a. IsTied a.group (length a.stores.items) a.drafts.items };
}

impl<S: Stable> Cluster<S> {
    /// Makes a cluster of a new group. Takes a store for each node; nothing was stored in any of
    /// them. A refusal returns the stores.
    pub fn new(
        alloc: S::Alloc,
        config: Config,
        stores: Vec<S, S::Alloc>,
    ) -> Result<Cluster<S>, (Vec<S, S::Alloc>, NoMemory)>
        requires counted { length stores.items ≡ config.n }
        requires blank { All (IsBlank S.Stable) stores.items }
        ensures started { Starts config stores.items stores result }
        ensures stocked { IfOk result (λ cluster. IsStocked S.Stable cluster) }
        ensures secured { All (IsGenuine S.Stable) stores.items
            → IfOk result (λ cluster. IsSecured S.Stable cluster) }
    {
        Cluster::start(alloc, config, stores)
    }

    // Does the same; its contract speaks only of the group.
    fn start(
        alloc: S::Alloc,
        config: Config,
        stores: Vec<S, S::Alloc>,
    ) -> Result<Cluster<S>, (Vec<S, S::Alloc>, NoMemory)>
        requires { length stores.items ≡ config.n }
        ensures { Starts config stores.items stores result }
    {
        let group = match Group::new(alloc, config) {
            Ok(group) => group,
            Err(refused) => return Err((stores, refused)),
        };
        match no_drafts(alloc, config.n()) {
            Ok(drafts) => Ok(Cluster {
                group,
                stores,
                drafts,
            }),
            Err(refused) => Err((stores, refused)),
        }
    }

    /// Returns the group: its logs, messages and states.
    pub fn group(&self) -> &Group<S::Alloc>
        ensures value { result.now ≡ self.now.group }
        ensures sound { IsSound self.now.group }
    {
        &self.group
    }

    /// Does nothing at run time; it brings into the proof that a stop of the process loses nothing
    /// (sections 2.2 and 3.7 of the textbook).
    ///
    /// Whatever the stores of a stocked cluster may turn out to hold fits together, and opens a
    /// group that goes on from this one. A new cluster is stocked, and each call keeps it so.
    pub fn recall_contents(&self)
        ensures { IsStocked S.Stable self.now → ContentsFit S.Stable self.now }
    {
        self.group.recall();
    }

    // Submits a client's message.
    fn submit(
        &mut self,
        alloc: S::Alloc,
        node: NodeId,
        client: ClientId,
        number: u32,
        payload: &Payload<S::Alloc>,
    ) -> Reply<S::Alloc>
        ensures { Alone self.old
            (Submit node (record { client = client; number = number; payload = payload.now }))
            (reply_of result) self.new }
    {
        let taken = self.group.submit(alloc, node, client, number, payload);
        hold_draft(&mut self.drafts, taken)
    }

    // Delivers bytes to a node.
    fn arrive(&mut self, alloc: S::Alloc, node: NodeId, bytes: &[u8]) -> Reply<S::Alloc>
        ensures { Alone self.old (Arrive node (packet_of bytes.now)) (reply_of result) self.new }
    {
        let taken = self.group.arrive(alloc, node, bytes);
        hold_draft(&mut self.drafts, taken)
    }

    // Makes a node send again.
    fn tick(&mut self, alloc: S::Alloc, node: NodeId) -> Reply<S::Alloc>
        ensures { Alone self.old (Tick node) (reply_of result) self.new }
    {
        match self.group.tick(alloc, node) {
            Ok(outbox) => Reply::Sent(outbox),
            Err(refusal) => Reply::Refused(refusal),
        }
    }

    // Stops a node, and drops the draft that it holds.
    fn crash(&mut self, node: NodeId) -> Reply<S::Alloc>
        ensures { Alone self.old (Crash node) (reply_of result) self.new }
    {
        match self.group.crash(node) {
            Ok(()) => {
                drop_draft(&mut self.drafts, node);
                Reply::WentDown(node)
            }
            Err(refusal) => Reply::Refused(refusal),
        }
    }

    // Asks a node's store to keep the draft that the node holds.
    fn store(&mut self, node: NodeId) -> Reply<S::Alloc>
        ensures { StoresHeld S.Stable self.old node (held_draft self.old.group node)
            (reply_of result) self.new }
    {
        if let Some(refusal) = refusal_to_store(&self.group, node) {
            return Reply::Refused(refusal);
        }
        let draft = take_draft(&mut self.drafts, node);
        let at = usize::from(node.number()) - 1;
        store_draft(&mut self.group, draft, &mut self.stores[at])
    }

    // Brings a node back with the records that its store gives.
    fn restart(&mut self, alloc: S::Alloc, node: NodeId) -> Reply<S::Alloc>
        ensures { RestartsBy S.Stable (is_fallen self.old.group node) self.old node
            (reply_of result) self.new }
    {
        if let Some(refusal) = refusal_to_restart(&self.group, node) {
            return Reply::Refused(refusal);
        }
        let at = usize::from(node.number()) - 1;
        restart_from_store(&mut self.group, alloc, node, &mut self.stores[at])
    }

    /// Does one command, with the store of its node. On `Store`, the store is asked to keep the
    /// draft that the node holds. On `Restart`, it is asked for its records. A refused command
    /// changes nothing, except what a restart's store did. A store that fails takes its node down.
    pub fn apply(&mut self, alloc: S::Alloc, command: &Command<S::Alloc>) -> Reply<S::Alloc>
        ensures applied { Applies S.Stable self.old command.now (reply_of result) self.new }
        // A stop inside the call, or after it, leaves stores over which an opened cluster goes on.
        ensures stocked { IsStocked S.Stable self.old → IsStocked S.Stable self.new }
        ensures stop { (stocked : IsStocked S.Stable self.old)
            → StopLeaves S.Stable stocked.world self.old.stores self.new.stores }
        // The same holds while failures have shut some stores, before the call or inside it.
        ensures secured { IsSecured S.Stable self.old → IsSecured S.Stable self.new }
        ensures leaves { (secured : IsSecured S.Stable self.old)
            → WouldLeave S.Stable secured.stocked.world self.new.stores }
        // An honest store takes the draft of its node or fails. It never returns `Place`.
        ensures in_place { IsStocked S.Stable self.old
            → AppliesInPlace S.Stable self.old command.now (reply_of result) self.new }
    {
        // This call is for its clause about the limits of the group.
        self.group().recall_deliveries();
        self.apply_command(alloc, command)
    }

    // Does a command, by its kind.
    fn apply_command(&mut self, alloc: S::Alloc, command: &Command<S::Alloc>) -> Reply<S::Alloc>
        ensures { Applies S.Stable self.old command.now (reply_of result) self.new }
    {
        match command {
            Command::Submit {
                node,
                client,
                number,
                payload,
            } => self.submit(alloc, *node, *client, *number, payload),
            Command::Arrive { node, bytes } => self.arrive(alloc, *node, bytes),
            Command::Tick(node) => self.tick(alloc, *node),
            Command::Store(node) => self.store(*node),
            Command::Crash(node) => self.crash(*node),
            Command::Restart(node) => self.restart(alloc, *node),
        }
    }
}

impl<A: Allocator + Copy> Cluster<MemStable<A>> {
    /// Makes the store of a node fail when it is asked to keep the draft that the node holds. For
    /// tests, and for scripts that play failures.
    pub fn fail(&mut self, node: NodeId, failure: Failure) -> Reply<A>
        ensures failed { FailsHeld self.old node (held_draft self.old.group node) failure
            (reply_of result) self.new }
        // A stop inside the call, or after it, leaves stores over which an opened cluster goes on.
        ensures stocked { IsStocked (in_memory A) self.old → IsStocked (in_memory A) self.new }
        ensures stop { (stocked : IsStocked (in_memory A) self.old)
            → StopLeaves (in_memory A) stocked.world self.old.stores self.new.stores }
        // The draft was in place for the store, so the store did fail.
        ensures in_place { IsStocked (in_memory A) self.old
            → FailsInPlace self.old (held_draft self.old.group node) failure (reply_of result)
            self.new }
    {
        // This call is for its clause about the limits of the group.
        self.group().recall_deliveries();
        self.fail_store(node, failure)
    }

    // Does the same; its contract speaks only of the group and the one store.
    fn fail_store(&mut self, node: NodeId, failure: Failure) -> Reply<A>
        ensures { FailsHeld self.old node (held_draft self.old.group node) failure (reply_of result)
            self.new }
    {
        if let Some(why) = refusal_to_store(&self.group, node) {
            return Reply::Refused(why);
        }
        let draft = take_draft(&mut self.drafts, node);
        let at = usize::from(node.number()) - 1;
        break_store(&mut self.stores[at], &draft, failure);
        take_down(&mut self.group, draft)
    }
}
