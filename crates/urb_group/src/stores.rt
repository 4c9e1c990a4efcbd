//! What a group and the store of one node do together.

ghost use Rattle.std.specs.Prelude.{◌≡◌, None, Some};
ghost use Rattle.urb_stable.specs.PlacedRecords.{Placed};
ghost use Rattle.urb_group.specs.GroupCalls.{Steps};
ghost use Rattle.urb_group.specs.GroupStores.{held_draft};
ghost use Rattle.urb_group.specs.ClusterCalls.{BreaksArmed, Reacts, Reads, Stores};
ghost use Rattle.urb_group.specs.Commands.{reply_of};
ghost use Rattle.urb_group.specs.internal.CallReplies.{IsUnfallen, IsUnstored, unfallen_in, unstored_in};
ghost use Rattle.urb_group.specs.GroupViews.{IsSound};
ghost use Rattle.urb_world.specs.Step.{Commit, Fail, Restart};

use crate::{Group, Reply, State};
use std::alloc::Allocator;
use urb_names::{Message, NodeId, Refusal};
use urb_stable::{Doubt, Draft, Failure, MemStable, Receipt, Record, Stable};

// Says why a node in this state has nothing for its store.
fn refusal_to_store_in(state: Option<State>) -> Option<Refusal>
    ensures { result ≡ unstored_in state }
{
    match state {
        None => Some(Refusal::BadNode),
        Some(State::Down) => Some(Refusal::Down),
        Some(State::Ready) => Some(Refusal::Stale),
        Some(State::Storing) => None,
    }
}

// Says why a node in this state can't be restarted.
fn refusal_to_restart_in(state: Option<State>) -> Option<Refusal>
    ensures { result ≡ unfallen_in state }
{
    match state {
        None => Some(Refusal::BadNode),
        Some(State::Down) => None,
        Some(State::Ready) | Some(State::Storing) => Some(Refusal::NotDown),
    }
}

// Says why a node has nothing for its store. `None` if it holds a draft.
pub(crate) fn refusal_to_store<A: Allocator + Copy>(
    group: &Group<A>,
    node: NodeId,
) -> Option<Refusal>
    requires { IsSound group.now }
    ensures { IsUnstored group.now node result }
{
    refusal_to_store_in(group.state(node))
}

// Says why a node can't be restarted. `None` if it is down.
pub(crate) fn refusal_to_restart<A: Allocator + Copy>(
    group: &Group<A>,
    node: NodeId,
) -> Option<Refusal>
    requires { IsSound group.now }
    ensures { IsUnfallen group.now node result }
{
    refusal_to_restart_in(group.state(node))
}

// Commits the draft that the node holds, since the store took it.
fn commit_draft<A: Allocator + Copy>(group: &mut Group<A>, receipt: Receipt<A>) -> Reply<A>
    requires sound { IsSound group.old }
    requires held { held_draft group.old receipt.node ≡ Some receipt }
    ensures event { Steps group.old (Commit receipt.node receipt.pos receipt.entry)
        (λ told. told ≡ reply_of result) group.new }
    ensures free { held_draft group.new receipt.node ≡ None }
{
    Reply::Stored(group.commit(receipt).unwrap())
}

// Takes the node down: the store failed, and the node holds a draft.
fn fail_draft<A: Allocator + Copy>(group: &mut Group<A>, doubt: Doubt) -> Reply<A>
    requires sound { IsSound group.old }
    requires held { (draft : Placed)
        × (draft.node ≡ doubt.node)
        × (held_draft group.old draft.node ≡ Some draft) }
    ensures event { Steps group.old (Fail doubt.node) (λ told. told ≡ reply_of result) group.new }
    ensures free { held_draft group.new doubt.node ≡ None }
{
    let node = doubt.node();
    group.fail(doubt).unwrap();
    Reply::WentDown(node)
}

// Asks a store to keep the draft that its node holds.
pub(crate) fn store_draft<S: Stable>(
    group: &mut Group<S::Alloc>,
    draft: Draft<S::Alloc>,
    store: &mut S,
) -> Reply<S::Alloc>
    requires sound { IsSound group.old }
    requires held { held_draft group.old draft.node ≡ Some draft }
    ensures stores { Stores S.Stable group.old store.old draft (reply_of result) group.new
        store.new }
    ensures free { held_draft group.new draft.node ≡ None }
{
    match draft.keep(store) {
        Ok(receipt) => commit_draft(group, receipt),
        Err(doubt) => fail_draft(group, doubt),
    }
}

// Brings a node back with these records.
fn restart_with<A: Allocator + Copy>(
    group: &mut Group<A>,
    alloc: A,
    node: NodeId,
    image: Vec<Record<Message<A>>, A>,
) -> Reply<A>
    requires sound { IsSound group.old }
    requires free { held_draft group.old node ≡ None }
    ensures event { Reacts group.old (Restart node image.items) (reply_of result) group.new }
    ensures free { held_draft group.new node ≡ None }
{
    match group.restart(alloc, node, image) {
        Ok(()) => Reply::Up(node),
        Err(refusal) => Reply::Refused(refusal),
    }
}

// Brings a node back with the records that its store gives.
pub(crate) fn restart_from_store<S: Stable>(
    group: &mut Group<S::Alloc>,
    alloc: S::Alloc,
    node: NodeId,
    store: &mut S,
) -> Reply<S::Alloc>
    requires sound { IsSound group.old }
    requires free { held_draft group.old node ≡ None }
    ensures reads { Reads S.Stable group.old store.old node (reply_of result) group.new store.new }
    ensures free { held_draft group.new node ≡ None }
{
    match store.retrieve(alloc) {
        Ok(image) => restart_with(group, alloc, node, image),
        Err(fault) => Reply::Refused(fault.refusal()),
    }
}

// Takes a node down whose store failed on its draft. For a node that holds a draft, a crash is the
// same.
pub(crate) fn take_down<A: Allocator + Copy>(group: &mut Group<A>, draft: Draft<A>) -> Reply<A>
    requires sound { IsSound group.old }
    requires held { held_draft group.old draft.node ≡ Some draft }
    ensures event { Steps group.old (Fail draft.node) (λ told. told ≡ reply_of result) group.new }
    ensures free { held_draft group.new draft.node ≡ None }
{
    let node = draft.node();
    group.crash(node).unwrap();
    Reply::WentDown(node)
}

// Asks a store in memory to keep a draft, and makes it fail in this way.
pub(crate) fn break_store<A: Allocator + Copy>(
    store: &mut MemStable<A>,
    draft: &Draft<A>,
    failure: Failure,
)
    ensures { BreaksArmed failure store.old draft.now store.new }
{
    store.arm(failure);
    let _answer = store.store(draft.pos(), draft.entry());
}
