//! Entries of a node's log, and pages of them.
ghost use Rattle.std.specs.Prelude.{◌≡◌, IfOk};

use crate::history::calls::Happening;
use crate::history::tokens::Mark;
use std::alloc::{Allocator, Global};
use urb_group::{Message, Name, NoMemory};

/// A name that a node has delivered, and its message.
#[derive(Debug, Drop)]
pub struct Entry {
    /// Which message it is: its sender, and its number among the sender's messages.
    pub name: Name,
    /// What the sender broadcast under this name.
    pub message: Message,
}

impl Entry {
    /// Another entry with the same content. It shares the payload's memory.
    pub(crate) fn share(&self, alloc: Global) -> Result<Entry, NoMemory>
        ensures { IfOk result (λ e. e ≡ self.now) }
    {
        let message = self.message.share(alloc)?;
        Ok(Entry {
            name: self.name,
            message,
        })
    }
}

/// Some entries of a node's published list. The list's memory comes from an allocator `A`.
#[derive(Drop)]
#[derive_where(Debug)]
pub struct Page<A: Allocator = Global> {
    /// The entries, in the order of their delivery.
    pub entries: Vec<Entry, A>,
    /// The number of entries that the whole list had when it was read.
    pub total: u32,
}

/// One more entry of a node, with the node's place in the lists, and all events until the node had
/// delivered it, or more.
#[derive(Drop)]
pub(crate) struct Addition {
    pub(crate) place: usize,
    pub(crate) entry: Entry,
    pub(crate) events: Mark<Happening>,
}
