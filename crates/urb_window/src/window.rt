//! One sender's values, by number.

ghost use Rattle.std.specs.Prelude.{◌≡◌, ◌<◌, ◌≤◌, ◌+◌, ◌^◌, [], None, Some, IsOk, IsSome, IfErr};
ghost use Rattle.std.specs.Prelude.{OnOk, OnErr, length, find, option_map, slice_get, nat_lt, ◌++◌};
ghost use Rattle.std.specs.Prelude.{vec_len, vec_capacity};
ghost use Rattle.std.specs.Bool.{Decides};
ghost use Rattle.std.specs.VecDeque.{deque_len, deque_capacity};
ghost use Rattle.urb_names.specs.RisingLists.{placed};
ghost use Rattle.urb_window.specs.Row.{counted_from, pairs_of};
ghost use Rattle.urb_window.specs.internal.RowOperations.{AreOver, IsInserted, IsReplaced, IsRow, number_lt};
ghost use Rattle.urb_window.specs.internal.RowOperations.{numbered};

use crate::upper::{is_at, place_of, take_first};
use std::alloc::{Allocator, Global};
use std::collections::VecDeque;
use std::marker::Model;
use std::mem::replace;
use urb_names::NoMemory;

/// One sender's values, by number.
#[derive(Drop)]
#[derive_where(Debug; T)]
pub(crate) struct Window<T, A: Allocator = Global> {
    low: Vec<T, A>,
    above: VecDeque<(u32, T), A>,
    reserved: Option<u32>,
}

impl<T, A: Allocator> Model for Window<T, A> {
    ghost use Rattle.urb_window.specs.Row.{Row};
    ghost use Rattle.urb_window.specs.internal.RowOperations.{row_code};

    ghost Value = { Row T };

    ghost coded = { row_code T.code };

    ghost use Rattle.urb_window.specs.internal.RowInvariant.{row_of, IsRoomy};

    ghost view = { row_of };

    ghost invariant = { IsRoomy };
}

impl<T, A: Allocator + Copy> Window<T, A> {
    // No values. Allocates no memory.
    pub(crate) fn new(alloc: A) -> Window<T, A>
        ensures { result ≡ record { low = []; above = []; reserved = None } }
    {
        Window {
            low: Vec::new(alloc),
            above: VecDeque::new(alloc),
            reserved: None,
        }
    }

    // Does nothing at run time; it brings the value's invariant into the proof.
    pub(crate) fn recall(&self)
        ensures { IsRow self.now }
    {
        let _low = &self.low;
    }

    // How many numbers, from 1 on, there are without a gap.
    pub(crate) fn low(&self) -> u32
        ensures { result ≡ length self.now.low }
    {
        self.low.len() as u32
    }

    // The values of the numbers without a gap.
    pub(crate) fn window(&self) -> &[T]
        ensures { result.now ≡ self.now.low }
    {
        &self.low
    }

    // How many numbers are above the gap.
    pub(crate) fn above(&self) -> u32
        ensures { result ≡ length self.now.above }
    {
        self.above.len() as u32
    }

    // The number of values.
    pub(crate) fn count(&self) -> usize
        ensures value { result ≡ length (pairs_of self.now) }
        ensures few { result < 2 ^ 33 }
    {
        self.low.len() + self.above.len()
    }

    // The value under a number.
    pub(crate) fn get(&self, number: u32) -> Option<&T>
        requires { 0 < number }
        ensures { option_map (λ v. v.now) result ≡ numbered (pairs_of self.now) number }
    {
        let index = number as usize - 1;
        if index < self.low.len() {
            return Some(&self.low[index]);
        }
        let place = place_of(&self.above, number);
        if is_at(&self.above, place, number) {
            return Some(&self.above[place].1);
        }
        None
    }

    // The pair at a place in the order of numbers, from 0.
    pub(crate) fn pair(&self, index: usize) -> Option<(u32, &T)>
        ensures { option_map (λ pair. (pair.0, pair.1.now)) result
            ≡ slice_get (pairs_of self.now) index }
    {
        if index < self.low.len() {
            return Some((index as u32 + 1, &self.low[index]));
        }
        match self.above.get(index - self.low.len()) {
            Some(pair) => Some((pair.0, &pair.1)),
            None => None,
        }
    }

    // The first number greater than this one.
    pub(crate) fn after(&self, number: u32) -> Option<u32>
        ensures { result
            ≡ option_map (λ pair. pair.0)
            (find (λ pair. nat_lt number pair.0) (pairs_of self.now)) }
    {
        if (number as usize) < self.low.len() {
            return Some(number + 1);
        }
        if number == u32::MAX {
            return None;
        }
        match self.above.get(place_of(&self.above, number + 1)) {
            Some(pair) => Some(pair.0),
            None => None,
        }
    }

    // Replaces the value of a number that has one, and returns the old value.
    pub(crate) fn replace(&mut self, number: u32, value: T) -> T
        requires from { 0 < number }
        requires present { IsSome (numbered (pairs_of self.old) number) }
        ensures old { numbered (pairs_of self.old) number ≡ Some result }
        ensures new { IsReplaced self.old number value self.new }
    {
        let index = number as usize - 1;
        if index < self.low.len() {
            return replace(&mut self.low[index], value);
        }
        let place = place_of(&self.above, number);
        replace(&mut self.above[place].1, value)
    }

    // Reserves space for a value under this number.
    pub(crate) fn reserve(&mut self, number: u32) -> Result<(), NoMemory>
        ensures ok { OnOk result (self.new ≡ record self.old { reserved = Some number }) }
        ensures err { OnErr result (self.new ≡ self.old) }
    {
        if is_next(self.low.len(), number) {
            self.low.reserve(self.above.len() + 1)?;
        } else {
            self.above.reserve(1)?;
        }
        self.reserved = Some(number);
        Ok(())
    }

    // Inserts a value under a number that has none. If memory is refused, the value is returned.
    pub(crate) fn insert(&mut self, number: u32, value: T) -> Result<(), T>
        requires from { 0 < number }
        requires absent { numbered (pairs_of self.old) number ≡ None }
        ensures ok { OnOk result (IsInserted self.old number value self.new) }
        ensures err { IfErr result (λ v. (v ≡ value) × (self.new ≡ self.old)) }
        ensures reserved { self.old.reserved ≡ Some number → IsOk result }
    {
        if is_next(self.low.len(), number) {
            extend(&mut self.low, &mut self.above, value)?;
            self.reserved = None;
            return Ok(());
        }
        put_above(&mut self.above, number, value)?;
        self.reserved = None;
        Ok(())
    }
}

// Whether a number is the next one after those without a gap.
fn is_next(low: usize, number: u32) -> bool
    requires { low < 2 ^ 32 }
    ensures { Decides result (number ≡ low + 1) }
{
    number as usize == low + 1
}

// Appends the next number's value to the lower part, together with the values that follow it
// without a gap.
fn extend<T, A: Allocator>(
    low: &mut Vec<T, A>,
    above: &mut VecDeque<(u32, T), A>,
    value: T,
) -> Result<(), T>
    requires row { IsRow
        (record { low = low.old.items; above = above.old.items; reserved = None }) }
    requires few { length low.old.items + 1 < 2 ^ 32 }
    ensures row { OnOk result
        (IsRow (record { low = low.new.items; above = above.new.items; reserved = None })) }
    ensures pairs { OnOk result (counted_from 1 low.new.items ++ above.new.items
        ≡ placed number_lt (counted_from 1 low.old.items ++ above.old.items)
        (length low.old.items + 1, value)) }
    ensures err { IfErr result
        (λ v. (v ≡ value) × (low.new.items ≡ low.old.items) × (above.new ≡ above.old)) }
    ensures room { OnErr result
        ((vec_len low.new ≡ vec_len low.old) × (vec_capacity low.old ≤ vec_capacity low.new)) }
    ensures roomy { vec_len low.old + deque_len above.old + 1 ≤ vec_capacity low.old → IsOk result }
{
    if low.reserve(above.len() + 1).is_err() {
        return Err(value);
    }
    low.push_reserved(value);
    close_gap(low, above);
    Ok(())
}

// Moves the values that continue the lower part into it, each once.
fn close_gap<T, A: Allocator>(low: &mut Vec<T, A>, above: &mut VecDeque<(u32, T), A>)
    requires over { AreOver (length low.old.items) above.old.items }
    requires few { length low.old.items < 2 ^ 32 }
    requires room { vec_len low.old + deque_len above.old ≤ vec_capacity low.old }
    ensures row { IsRow (record { low = low.new.items; above = above.new.items; reserved = None }) }
    ensures pairs { counted_from 1 low.new.items ++ above.new.items
        ≡ counted_from 1 low.old.items ++ above.old.items }
{
    while let Some(value) = take_first(above, low.len() + 1) {
        low.push_reserved(value);
    }
}

// Inserts a value above the gap, at the place of its number.
fn put_above<T, A: Allocator>(
    above: &mut VecDeque<(u32, T), A>,
    number: u32,
    value: T,
) -> Result<(), T>
    requires { AreOver 0 above.old.items }
    ensures ok { OnOk result (above.new.items ≡ placed number_lt above.old.items (number, value)) }
    ensures err { IfErr result (λ v. (v ≡ value)
        × (above.new.items ≡ above.old.items)
        × (deque_len above.new ≡ deque_len above.old)
        × (deque_capacity above.old ≤ deque_capacity above.new)) }
    ensures roomy { deque_len above.old < deque_capacity above.old → IsOk result }
{
    let place = place_of(above, number);
    match above.insert(place, (number, value)) {
        Ok(()) => Ok(()),
        Err(refused) => Err(refused.value.1),
    }
}
