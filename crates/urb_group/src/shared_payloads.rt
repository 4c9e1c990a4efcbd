//! Messages of an image that share their payloads with open nodes.

ghost use Rattle.std.specs.Prelude.{◌≡◌, ◌≤◌, [], IfOk};
ghost use Rattle.std.specs.Option.{ForSome};
ghost use Rattle.urb_node.specs.Part.{opened_node};
ghost use Rattle.urb_node.specs.NodeMemories.{ShowsReady};
ghost use Rattle.urb_stable.specs.Fitting.{KeepsOwn};

use crate::node_moves::Node;
use std::alloc::Allocator;
use urb_names::{Config, Message, Name, NoMemory, NodeId};
use urb_node::Ready;
use urb_stable::Record;

// Returns another message of the same content, which shares the payload that a node has stored
// under this name. `None` if the node has not stored the same message, or if sharing fails.
fn share_from<A: Allocator + Copy>(
    node: &Node<A>,
    alloc: A,
    name: Name,
    message: &Message<A>,
) -> Option<Message<A>>
    ensures { ForSome result (λ m. m ≡ message.now) }
{
    let known = node.message(name)?;
    if !known.is_same(message) {
        return None;
    }
    known.share(alloc).ok()
}

// Does the same with the first of these nodes that has stored the message.
fn share_from_any<A: Allocator + Copy>(
    nodes: &[Node<A>],
    alloc: A,
    name: Name,
    message: &Message<A>,
) -> Option<Message<A>>
    ensures { ForSome result (λ m. m ≡ message.now) }
{
    for node in nodes {
        if let Some(known) = share_from(node, alloc, name, message) {
            return Some(known);
        }
    }
    None
}

// Replaces the message's own payload by that of a node which has stored the same message.
fn share_payload<A: Allocator + Copy>(
    nodes: &[Node<A>],
    alloc: A,
    name: Name,
    message: &mut Message<A>,
)
    ensures { message.new ≡ message.old }
{
    if let Some(known) = share_from_any(nodes, alloc, name, message) {
        *message = known;
    }
}

// Does the same for the message of a record, if it has one.
fn share_payload_of<A: Allocator + Copy>(
    nodes: &[Node<A>],
    alloc: A,
    entry: &mut Record<Message<A>>,
)
    ensures { entry.new ≡ entry.old }
{
    match entry {
        Record::Pend(name, message) => share_payload(nodes, alloc, *name, message),
        Record::PendCert(name, message) => share_payload(nodes, alloc, *name, message),
        Record::Cert(_) => {}
    }
}

// Does the same for each record of an image.
fn share_payloads<A: Allocator + Copy>(
    nodes: &[Node<A>],
    alloc: A,
    records: &mut [Record<Message<A>>],
)
    ensures { records.new ≡ records.old }
{
    for entry in records.iter_mut() {
        share_payload_of(nodes, alloc, entry);
    }
}

/// Returns the same image. Its messages share the payloads that one of these nodes has stored under
/// the same names.
pub(crate) fn share_image<A: Allocator + Copy>(
    nodes: &[Node<A>],
    alloc: A,
    image: Vec<Record<Message<A>>, A>,
) -> Vec<Record<Message<A>>, A>
    ensures { result.items ≡ image.items }
{
    let mut image = image;
    share_payloads(nodes, alloc, &mut image);
    image
}

/// Opens one more node, after those that are open already. If one of them has stored the same
/// message under the same name, both share its payload, unless memory for that is refused.
pub(crate) fn open_beside<A: Allocator + Copy>(
    nodes: &[Node<A>],
    alloc: A,
    config: Config,
    node: NodeId,
    image: Vec<Record<Message<A>>, A>,
) -> Result<Ready<A>, NoMemory>
    requires node { node ≤ config.n }
    requires rules { KeepsOwn config node [] image.items }
    ensures { IfOk result (λ ready. (ready.limits ≡ config)
        × (ready.node ≡ node)
        × ShowsReady ready (opened_node node image.items)) }
{
    let mut image = image;
    share_payloads(nodes, alloc, &mut image);
    Ready::open(alloc, config, node, image)
}
