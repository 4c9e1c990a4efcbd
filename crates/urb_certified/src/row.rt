//! Names in rising order, in a vector, found by binary search.

ghost use Rattle.std.specs.Prelude.{◌≡◌, ℕ, suc, ◌+◌, ◌^◌, ◌≤◌, ◌<◌, ◌-◌, true, false, ◌&&◌};
ghost use Rattle.std.specs.Prelude.{◌==◌, IsTrue, length, filter, vec_len, vec_capacity};
ghost use Rattle.std.specs.Bool.{Decides};
ghost use Rattle.std.specs.List.{prefix_len};
ghost use Rattle.urb_names.specs.Names.{has_name, name, name_lt};
ghost use Rattle.urb_names.specs.RisingLists.{is_rising};
ghost use Rattle.urb_certified.specs.internal.PartInvariant.{is_left};

use std::alloc::Allocator;
use urb_names::{Name, NodeId};

fn precedes(first: &Name, second: Name) -> bool
    ensures { result ≡ name_lt first.now second }
{
    *first < second
}

// The place of a name among sorted names, or the place where it would be inserted.
pub(crate) fn place_of(names: &[Name], name: Name) -> usize
    requires { IsTrue (is_rising name_lt names.now) }
    ensures place { result ≡ prefix_len (λ other. name_lt other name) names.now }
    ensures within { result ≤ length names.now }
{
    names.partition_point(|other| precedes(other, name))
}

// Whether a name is among sorted names.
pub(crate) fn holds(names: &[Name], name: Name) -> bool
    requires { IsTrue (is_rising name_lt names.now) }
    ensures { result ≡ has_name names.now name }
{
    let place = place_of(names, name);
    place < names.len() && names[place] == name
}

// The last number of the unbroken run of names that begins at `start`.
pub(crate) fn run_end(names: &[Name], start: Name) -> u32
    requires { IsTrue (is_rising name_lt names.now) }
    ensures from { start.seq ≤ result }
    ensures held { (i : ℕ)
        → start.seq < i
        → i ≤ result
        → has_name names.now (name start.sender i) ≡ true }
    ensures stops { result < 2 ^ 32 - 1
        → has_name names.now (name start.sender (suc result)) ≡ false }
{
    let mut end = start.seq;
    while end < u32::MAX && holds_next(names, start, end) {
        end += 1;
    }
    end
}

// Whether the same sender's name with number `end + 1` is among sorted names.
fn holds_next(names: &[Name], start: Name, end: u32) -> bool
    requires order { IsTrue (is_rising name_lt names.now) }
    requires last { end < 2 ^ 32 - 1 }
    ensures { result ≡ has_name names.now (name start.sender (suc end)) }
{
    let next = Name {
        sender: start.sender,
        seq: end + 1,
    };
    holds(names, next)
}

fn is_left(name: &Name, sender: NodeId, end: u32) -> bool
    ensures { result ≡ is_left sender end name.now }
{
    let name = *name;
    !(name.sender == sender && name.seq <= end)
}

// Removes a sender's names up to number `end`.
pub(crate) fn drop_to<A: Allocator>(names: &mut Vec<Name, A>, sender: NodeId, end: u32)
    ensures items { names.new.items ≡ filter (is_left sender end) names.old.items }
    ensures len { vec_len names.new ≤ vec_len names.old }
    ensures capacity { vec_capacity names.new ≡ vec_capacity names.old }
{
    names.retain(|name| is_left(name, sender, end));
}

pub(crate) fn are_same(first: &[Name], second: &[Name]) -> bool
    ensures { Decides result (first.now ≡ second.now) }
{
    first == second
}
