//! A node under test, in any of its states, and queries about it.

use std::alloc::Allocator;
use urb_names::{ClientId, Message, Name};
use urb_node::{Down, Ready, Storing};
use urb_stable::Draft;

/// A node, with its draft if it holds one.
#[derive(Drop)]
pub(super) enum AnyNode<A: Allocator> {
    Ready(Ready<A>),
    Storing(Storing<A>, Draft<A>),
    Down(Down<A>),
}

/// The node after a row. The flag is true if the row succeeded, false if it was refused for memory,
/// and `None` if it had another result.
pub(super) type Went<A> = (AnyNode<A>, Option<bool>);

/// The outcome of a row that is never refused for memory.
pub(super) fn went(is_so: bool) -> Option<bool> {
    if is_so { Some(true) } else { None }
}

impl<A: Allocator + Copy> AnyNode<A> {
    pub(super) fn own_len(&self) -> u32 {
        match self {
            AnyNode::Ready(ready) => ready.own_len(),
            AnyNode::Storing(storing, _) => storing.own_len(),
            AnyNode::Down(down) => down.own_len(),
        }
    }

    /// The number that this client must use next; `None` if there is no such client.
    pub(super) fn client_next(&self, client: u16) -> Option<u32> {
        let client = ClientId::new(client)?;
        Some(match self {
            AnyNode::Ready(ready) => ready.client_next(client),
            AnyNode::Storing(storing, _) => storing.client_next(client),
            AnyNode::Down(down) => down.client_next(client),
        })
    }

    pub(super) fn log(&self) -> &[Name] {
        match self {
            AnyNode::Ready(ready) => ready.log(),
            AnyNode::Storing(storing, _) => storing.log(),
            AnyNode::Down(down) => down.log(),
        }
    }

    pub(super) fn holds(&self, named: Name, sent: &Message<A>) -> bool {
        match self {
            AnyNode::Ready(ready) => ready.holds(&named, sent),
            AnyNode::Storing(storing, _) => storing.holds(&named, sent),
            AnyNode::Down(down) => down.holds(&named, sent),
        }
    }

    /// Whether a message has this name.
    pub(super) fn has(&self, named: Name) -> bool {
        match self {
            AnyNode::Ready(ready) => ready.message(named).is_some(),
            AnyNode::Storing(storing, _) => storing.message(named).is_some(),
            AnyNode::Down(down) => down.message(named).is_some(),
        }
    }

    pub(super) fn certified(&self, named: Name) -> bool {
        match self {
            AnyNode::Ready(ready) => ready.certified(named),
            AnyNode::Storing(storing, _) => storing.certified(named),
            AnyNode::Down(down) => down.certified(named),
        }
    }
}
