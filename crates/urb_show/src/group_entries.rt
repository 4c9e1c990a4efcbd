//! A node's entries, one by one, as its group reports them.
ghost use Rattle.std.specs.Prelude.{◌≡◌, ◌<◌, ◌≤◌, ◌-◌, IfOk, length, slice_index_or};
ghost use Rattle.urb_show.specs.Lists.{list_at, lists_in};

use crate::entry::Entry;
use std::alloc::Global;
use urb_group::{Group, NoMemory, NodeId};

/// The number of a node's entries.
pub(crate) fn entry_count(group: &Group, node: NodeId) -> usize
    requires { node ≤ group.now.size.n }
    ensures { result ≡ length (list_at (lists_in group.now) (node - 1)) }
{
    node.recall();
    group.recall_deliveries();
    match group.log(node) {
        Some(log) => log.len(),
        None => unreachable!(),
    }
}

/// A copy of one of a node's entries; `index` counts from 0. Its memory comes from `alloc`.
pub(crate) fn entry_at(
    alloc: Global,
    group: &Group,
    node: NodeId,
    index: usize,
) -> Result<Entry, NoMemory>
    requires node { node ≤ group.now.size.n }
    requires index { index < length (list_at (lists_in group.now) (node - 1)) }
    ensures { IfOk result (λ e.
        e ≡ slice_index_or (list_at (lists_in group.now) (node - 1)) index e) }
{
    node.recall();
    group.recall_deliveries();
    let Some(log) = group.log(node) else {
        unreachable!()
    };
    let name = log[index];
    let Some(message) = group.message(node, name) else {
        unreachable!()
    };
    let message = message.share(alloc)?;
    Ok(Entry { name, message })
}

/// A copy of all of a node's entries.
pub(crate) fn entries_of(alloc: Global, group: &Group, node: NodeId) -> Result<Vec<Entry>, NoMemory>
    requires { node ≤ group.now.size.n }
    ensures { IfOk result (λ v. v.items ≡ list_at (lists_in group.now) (node - 1)) }
{
    let mut entries = Vec::new(alloc);
    let count = entry_count(group, node);
    entries.reserve(count)?;
    for index in 0..count {
        let entry = entry_at(alloc, group, node, index)?;
        entries.push_reserved(entry);
    }
    Ok(entries)
}
