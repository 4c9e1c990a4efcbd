//! Whether the names that a turn released were published.

ghost use Rattle.std.specs.Prelude.{◌≡◌, ◌≤◌, true, length};
ghost use Rattle.urb_turn.specs.Settlings.{Settles, published_by, told_in};

use std::sync::Wait;
use urb_names::{NoMemory, NodeId};
use urb_show::{House, HouseName, Told};

/// Memory was refused to the settling of a node. Only a refused settling makes one.
#[derive(Drop)]
pub struct Unsettled {
    cause: NoMemory,
}

impl Unsettled {
    /// What the House returned.
    pub fn cause(&self) -> NoMemory
        ensures { result ≡ self.now.cause }
    {
        self.cause
    }
}

/// Whether the names that a turn released are published.
#[derive(Drop)]
pub enum Settling<K: HouseName> {
    /// The turn released no names.
    NothingNew,
    /// They are published. A reader that learns this sees them.
    Told(Told<K>),
    /// Memory was refused. They are delivered, and the published lists stay; the next settling of
    /// the node that succeeds publishes them.
    OutOfMemory(Unsettled),
}

impl<K: HouseName> Settling<K> {
    /// What a reader can learn from it: the published lists, if the node was settled.
    pub fn into_told(self) -> Option<Told<K>>
        ensures { result ≡ told_in (published_by self) }
    {
        match self {
            Settling::Told(told) => Some(told),
            Settling::NothingNew | Settling::OutOfMemory(_) => None,
        }
    }
}

// Settles a node if names were released there.
pub(crate) fn settle_released<K: HouseName, R: Wait>(
    rt: &R,
    house: &mut House<K>,
    node: NodeId,
    has_released: bool,
) -> Settling<K>
    requires { has_released ≡ true → node ≤ length K.base }
    ensures { Settles has_released node house.old house.new (published_by result) }
{
    if !has_released {
        return Settling::NothingNew;
    }
    match house.settle(rt, node) {
        Ok(told) => Settling::Told(told),
        Err(cause) => Settling::OutOfMemory(Unsettled { cause }),
    }
}
