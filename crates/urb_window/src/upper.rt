//! The upper part of a row: pairs of a number and its value, sorted by number.

ghost use Rattle.std.specs.Prelude.{◌≡◌, ◌<◌, ◌≤◌, ◌+◌, ◌∷◌, IfSome, IfNone, length, nat_lt, false};
ghost use Rattle.std.specs.VecDeque.{deque_len, deque_capacity};
ghost use Rattle.std.specs.List.{prefix_len};
ghost use Rattle.urb_window.specs.internal.RowOperations.{AreOver, holds_at};

use std::alloc::{AllocFailed, Allocator};
use std::collections::VecDeque;

fn is_below<T>(pair: &(u32, T), number: u32) -> bool
    ensures { result ≡ nat_lt pair.now.0 number }
{
    pair.0 < number
}

// The place of a number, or the place where it would be inserted.
pub(crate) fn place_of<T, A: Allocator>(above: &VecDeque<(u32, T), A>, number: u32) -> usize
    requires { AreOver 0 above.now.items }
    ensures place { result ≡ prefix_len (λ pair. nat_lt pair.0 number) above.now.items }
    ensures within { result ≤ length above.now.items }
{
    above.partition_point(|pair| is_below(pair, number))
}

// Whether the pair at this place has this number.
pub(crate) fn is_at<T, A: Allocator>(
    above: &VecDeque<(u32, T), A>,
    place: usize,
    number: u32,
) -> bool
    ensures { result ≡ holds_at above.now.items place number }
{
    match above.get(place) {
        Some(pair) => pair.0 == number,
        None => false,
    }
}

// Removes the first value if it has this number.
pub(crate) fn take_first<T, A: Allocator>(
    above: &mut VecDeque<(u32, T), A>,
    number: usize,
) -> Option<T>
    ensures some { IfSome result (λ v. above.old.items ≡ (number, v) ∷ above.new.items) }
    ensures none { IfNone result
        ((above.new.items ≡ above.old.items) × (holds_at above.old.items 0 number ≡ false)) }
    ensures len { IfSome result (λ _. deque_len above.new + 1 ≡ deque_len above.old) }
    ensures rest { IfNone result (deque_len above.new ≡ deque_len above.old) }
    ensures capacity { deque_capacity above.new ≡ deque_capacity above.old }
{
    let (first, _) = above.front()?;
    if *first as usize != number {
        return None;
    }
    let (_, value) = above.pop_front()?;
    Some(value)
}
