//! The nodes of a group, each in its place. A call moves a node to its next state, or leaves it.

ghost use Rattle.std.specs.Prelude.{◌<◌, ◌≡◌, Some, length, slice_get, suc};
ghost use Rattle.std.specs.Option.{MatchOption};
ghost use Rattle.urb_group.specs.internal.PlaceCalls.{CommitsAt, CrashesAt, FailsAt, MovesNode};
ghost use Rattle.urb_group.specs.internal.PlaceCalls.{RestartsAt, TicksAt, after_step};

use crate::Taken;
use std::alloc::{Allocator, Global};
use urb_names::{Config, Message, NoMemory, NodeId, Refusal};
use urb_node::{Done, Down, Ready, Step, Storing};
use urb_stable::{Receipt, Record};
use urb_stubborn::Outbox;

/// Returns the place of a node in its group, if the group has this node.
pub(crate) fn place_of(config: Config, node: NodeId) -> Option<usize>
    ensures { MatchOption result (config.n < node) (λ at. (at < config.n) × (node ≡ suc at)) }
{
    let number = node.number();
    if number > config.n() {
        return None;
    }
    Some(usize::from(number) - 1)
}

/// A node in one of its three states.
#[derive(Drop)]
#[derive_where(Debug)]
pub(crate) enum Node<A: Allocator = Global> {
    Ready(Ready<A>),
    Storing(Storing<A>),
    Down(Down<A>),
}

/// Moves the node in one place: takes it out, applies a step to it, and puts it back. Returns what
/// the step gives.
pub(crate) fn move_node<N, T, A: Allocator, F: FnOnce(N) -> (N, T)>(
    nodes: &mut Vec<N, A>,
    at: usize,
    step: F,
) -> T
    requires within { at < length nodes.old.items }
    requires callable { (node : _) → slice_get nodes.old.items at ≡ Some node → F.pre step node }
    ensures { MovesNode (F.post step) at nodes.old.items result nodes.new.items }
{
    let (moved, told) = step(nodes.remove(at));
    nodes.insert(at, moved).unwrap();
    told
}

/// Returns the node after a ready node's step, with what the step gives.
pub(crate) fn node_after<A: Allocator + Copy>(
    outcome: Result<Step<A>, (Ready<A>, Refusal)>,
) -> (Node<A>, Result<Taken<A>, Refusal>)
    ensures { result ≡ after_step outcome }
{
    match outcome {
        Ok(Step::Same(ready, answer)) => (Node::Ready(ready), Ok(Taken::Same(answer))),
        Ok(Step::Store(storing, draft)) => (Node::Storing(storing), Ok(Taken::Store(draft))),
        Err((ready, refusal)) => (Node::Ready(ready), Err(refusal)),
    }
}

/// Applies a receipt to a node. The node takes it, or stays as it is and returns it with a refusal.
pub(crate) fn commit_at<A: Allocator + Copy>(
    node: Node<A>,
    receipt: Receipt<A>,
) -> (Node<A>, Result<Done<A>, (Receipt<A>, Refusal)>)
    ensures { CommitsAt node receipt result }
{
    match node {
        Node::Ready(ready) => (Node::Ready(ready), Err((receipt, Refusal::Stale))),
        Node::Storing(storing) => match storing.confirm(receipt) {
            Ok((ready, done)) => (Node::Ready(ready), Ok(done)),
            Err((storing, receipt)) => (Node::Storing(storing), Err((receipt, Refusal::Stale))),
        },
        Node::Down(down) => (Node::Down(down), Err((receipt, Refusal::Down))),
    }
}

/// Applies a failed store to a node: the store did not take the node's record.
pub(crate) fn fail_at<A: Allocator + Copy>(node: Node<A>) -> (Node<A>, Result<(), Refusal>)
    ensures { FailsAt node result }
{
    match node {
        Node::Ready(ready) => (Node::Ready(ready), Err(Refusal::Stale)),
        Node::Storing(storing) => (Node::Down(storing.fail()), Ok(())),
        Node::Down(down) => (Node::Down(down), Err(Refusal::Down)),
    }
}

/// Crashes a node that isn't down.
pub(crate) fn crash_at<A: Allocator + Copy>(node: Node<A>) -> (Node<A>, Result<(), Refusal>)
    ensures { CrashesAt node result }
{
    match node {
        Node::Ready(ready) => (Node::Down(ready.crash()), Ok(())),
        Node::Storing(storing) => (Node::Down(storing.crash()), Ok(())),
        Node::Down(down) => (Node::Down(down), Err(Refusal::Down)),
    }
}

/// Makes a node that is ready send again.
pub(crate) fn tick_at<A: Allocator + Copy>(
    node: Node<A>,
    alloc: A,
) -> (Node<A>, Result<Outbox<A>, Refusal>)
    ensures { TicksAt node result }
{
    match node {
        Node::Ready(ready) => {
            let (ready, sent) = ready.tick(alloc);
            match sent {
                Ok(packets) => (Node::Ready(ready), Ok(packets)),
                Err(NoMemory) => (Node::Ready(ready), Err(Refusal::NoMemory)),
            }
        }
        Node::Storing(storing) => (Node::Storing(storing), Err(Refusal::Busy)),
        Node::Down(down) => (Node::Down(down), Err(Refusal::Down)),
    }
}

/// Brings a node that is down up with its image.
pub(crate) fn restart_at<A: Allocator + Copy>(
    node: Node<A>,
    alloc: A,
    image: Vec<Record<Message<A>>, A>,
) -> (Node<A>, Result<(), Refusal>)
    ensures { RestartsAt node image.items result }
{
    match node {
        Node::Ready(ready) => (Node::Ready(ready), Err(Refusal::NotDown)),
        Node::Storing(storing) => (Node::Storing(storing), Err(Refusal::NotDown)),
        Node::Down(down) => match down.restart(alloc, image) {
            Ok(ready) => (Node::Ready(ready), Ok(())),
            Err((down, refusal)) => (Node::Down(down), Err(refusal)),
        },
    }
}
