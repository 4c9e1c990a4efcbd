//! The two parts of the certified names, as plain fields: those without a gap, and those above it.

ghost use Rattle.std.specs.Prelude.{◌≡◌, ◌+◌, ◌-◌, ◌<◌, ◌≤◌, true, false, ◌∷◌, filter, length};
ghost use Rattle.std.specs.Prelude.{vec_len, vec_capacity, OnOk, OnErr, IsOk, IsTrue};
ghost use Rattle.urb_names.specs.LabelsAndContents.{Label};
ghost use Rattle.urb_names.specs.Names.{has_name, name_lt, same_name};
ghost use Rattle.urb_names.specs.RisingLists.{is_rising, placed};
ghost use Rattle.urb_names.specs.Release.{beginning};
ghost use Rattle.urb_certified.specs.Parts.{all_names};
ghost use Rattle.urb_certified.specs.internal.PartInvariant.{IsJoined, IsParts, is_left, low_of};
ghost use Rattle.urb_certified.specs.ListSets.{set_of};

use crate::row::{drop_to, holds, place_of, run_end};
use std::alloc::Allocator;
use urb_names::{MAX_SENDERS, Name, NoMemory, NodeId};

// The number up to which a sender's names have no gap.
pub(crate) fn low_of(low: &[u32; MAX_SENDERS], sender: NodeId) -> u32
    ensures { result ≡ low_of low.now sender }
{
    low[sender.number() as usize - 1]
}

// Whether a name is in one of the parts.
pub(crate) fn has(low: &[u32; MAX_SENDERS], above: &[Name], name: Name) -> bool
    requires { IsParts low.now above.now }
    ensures { result ≡ has_name (all_names low.now above.now) name }
{
    name.recall();
    name.seq <= low_of(low, name.sender) || holds(above, name)
}

// Whether a name is its sender's next one after those without a gap.
pub(crate) fn is_next(low: &[u32; MAX_SENDERS], name: Name) -> bool
    ensures cases { result ≡ true → name.seq ≡ low_of low.now name.sender + 1 }
    ensures other { result ≡ false → name.seq ≡ low_of low.now name.sender + 1 → ⊥ }
{
    name.recall();
    name.seq - 1 == low_of(low, name.sender)
}

// How far the sender's names would go without a gap if this name were among them.
pub(crate) fn reach_with(low: &[u32; MAX_SENDERS], above: &[Name], name: Name) -> u32
    requires { IsParts low.now above.now }
    ensures { result
        ≡ length (beginning name.sender
        (name ∷ set_of name_lt same_name (all_names low.now above.now))) }
{
    name.recall();
    if is_next(low, name) {
        return run_end(above, name);
    }
    low_of(low, name.sender)
}

// Adds the next name to the lower part, together with the names that follow it without a gap.
pub(crate) fn close_gap<A: Allocator>(
    low: &mut [u32; MAX_SENDERS],
    above: &mut Vec<Name, A>,
    name: Name,
)
    requires parts { IsParts low.old above.old.items }
    requires next { name.seq ≡ low_of low.old name.sender + 1 }
    ensures joined { IsJoined low.old above.old.items name low.new above.new.items }
{
    name.recall();
    let end = run_end(above, name);
    drop_run(above, name, end);
    low[name.sender.number() as usize - 1] = end;
}

// Removes the names after this one up to number `end`, if there are any.
fn drop_run<A: Allocator>(above: &mut Vec<Name, A>, name: Name, end: u32)
    requires from { name.seq ≤ end }
    requires behind { (y : Label)
        → has_name above.old.items y ≡ true
        → y.sender ≡ name.sender
        → name.seq < y.seq }
    ensures items { above.new.items ≡ filter (is_left name.sender end) above.old.items }
{
    if name.seq < end {
        drop_to(above, name.sender, end);
    }
}

// Inserts a name at its place above the gap. `NoMemory` means that the allocation was refused, and
// nothing has changed.
pub(crate) fn put_above<A: Allocator>(above: &mut Vec<Name, A>, name: Name) -> Result<(), NoMemory>
    requires { IsTrue (is_rising name_lt above.old.items) }
    ensures ok { OnOk result (above.new.items ≡ placed name_lt above.old.items name) }
    ensures err { OnErr result ((above.new.items ≡ above.old.items)
        × (vec_len above.new ≡ vec_len above.old)
        × (vec_capacity above.old ≤ vec_capacity above.new)) }
    ensures roomy { vec_len above.old < vec_capacity above.old → IsOk result }
{
    let place = place_of(above, name);
    above.insert(place, name)?;
    Ok(())
}

// Adds a name that is in neither part to the part where it belongs. `NoMemory` means that the
// allocation was refused, and nothing has changed.
pub(crate) fn join<A: Allocator>(
    low: &mut [u32; MAX_SENDERS],
    above: &mut Vec<Name, A>,
    name: Name,
) -> Result<(), NoMemory>
    requires parts { IsParts low.old above.old.items }
    requires absent { has_name (all_names low.old above.old.items) name ≡ false }
    ensures ok { OnOk result (IsJoined low.old above.old.items name low.new above.new.items) }
    ensures err { OnErr result ((low.new ≡ low.old)
        × (above.new.items ≡ above.old.items)
        × (vec_len above.new ≡ vec_len above.old)
        × (vec_capacity above.old ≤ vec_capacity above.new)) }
    ensures roomy { vec_len above.old < vec_capacity above.old → IsOk result }
{
    name.recall();
    if is_next(low, name) {
        close_gap(low, above, name);
        return Ok(());
    }
    put_above(above, name)?;
    Ok(())
}
