//! Values inserted under names in several orders, reads of them, and refused allocations.

ghost use Rattle.std.specs.Prelude.{◌≤◌};

use std::alloc::{Allocator, Global};
use std::test::Fail;
use urb_names::{Name, NodeId};
use urb_refusing::Refusing;
use urb_window::*;

fn node(number: u8) -> Result<NodeId, Fail> {
    Ok(NodeId::new(number).ok_or("a node")?)
}

fn name(sender: u8, seq: u32) -> Result<Name, Fail> {
    if seq == 0 {
        return Err(Fail::from("a number from 1"));
    }
    let sender = node(sender)?;
    Ok(Name { sender, seq })
}

// Reserves a new name and inserts its value. If an allocation is refused, nothing has changed, and
// the same call succeeds the second time.
fn put<A: Allocator + Copy>(windows: &mut Windows<u32, A>, name: Name) -> Result<(), Fail> {
    if windows.get(name).is_some() {
        return Err(Fail::from("the name is new"));
    }
    let low = windows.low(name.sender);
    let count = windows.count();
    if let Err(_) = windows.reserve(name) {
        if windows.get(name).is_some()
            || windows.low(name.sender) != low
            || windows.count() != count
        {
            return Err(Fail::from("a refused reservation changed something"));
        }
        windows.reserve(name)?;
    }
    let value = name.seq;
    if windows.insert(name, value).is_err() {
        return Err(Fail::from("room was reserved"));
    }
    Ok(())
}

// The same without a reservation.
fn put_unreserved<A: Allocator + Copy>(
    windows: &mut Windows<u32, A>,
    name: Name,
) -> Result<(), Fail> {
    if windows.get(name).is_some() {
        return Err(Fail::from("the name is new"));
    }
    let low = windows.low(name.sender);
    let count = windows.count();
    let seq = name.seq;
    if let Err((value, _)) = windows.insert(name, seq) {
        if value != seq || windows.low(name.sender) != low || windows.count() != count {
            return Err(Fail::from("a refused value changed something"));
        }
        if windows.get(name).is_some() {
            return Err(Fail::from("a refused value is there"));
        }
        if windows.insert(name, value).is_err() {
            return Err(Fail::from("only one growth is refused"));
        }
    }
    Ok(())
}

// An order of the numbers 1 to 40.
#[derive(Clone, Copy)]
enum Order {
    Rising,
    Falling,
    OddFirst,
}

// The number at a step, from 1 to 40.
fn number_at(order: Order, step: u32) -> u32 {
    match order {
        Order::Rising => step,
        Order::Falling => 41_u32.saturating_sub(step),
        Order::OddFirst if step <= 20 => (2 * step).saturating_sub(1),
        Order::OddFirst => step.saturating_sub(20).saturating_mul(2),
    }
}

// Whether node 2 has the values 1 to 40 without a gap, and no other node has any.
fn is_full<A: Allocator + Copy>(windows: &Windows<u32, A>) -> Result<bool, Fail> {
    let (first, second) = (node(1)?, node(2)?);
    let window = windows.window(second);
    for i in 0..window.len() {
        if window[i] as usize != i + 1 {
            return Ok(false);
        }
    }
    Ok(
        window.len() == 40
            && windows.count() == 40
            && windows.low(second) == 40
            && windows.above(second) == 0
            && windows.low(first) == 0,
    )
}

fn fill<A: Allocator + Copy>(windows: &mut Windows<u32, A>, order: Order) -> Result<bool, Fail> {
    for step in 1..41 {
        put(windows, name(2, number_at(order, step))?)?;
    }
    is_full(windows)
}

fn fills(alloc: Global, order: Order) -> Result<bool, Fail> {
    let mut windows = Windows::new(alloc);
    fill(&mut windows, order)
}

#[test]
fn a_gap_closes_in_any_order(rt: HostRuntime) -> Result<(), Fail> {
    for order in [Order::Rising, Order::Falling, Order::OddFirst] {
        assert!(rt; fills(rt.alloc(), order)?);
    }
    Ok(())
}

// Whether a sender's numbers go exactly to `low` without a gap, with `above` of them above it.
fn goes_to<A: Allocator + Copy>(
    windows: &Windows<u32, A>,
    sender: u8,
    low: u32,
    above: u32,
) -> Result<bool, Fail> {
    let sender = node(sender)?;
    Ok(windows.low(sender) == low && windows.above(sender) == above)
}

// Whether the names are exactly these, in this order, whichever way they are read.
fn reads<A: Allocator + Copy>(
    windows: &Windows<u32, A>,
    order: &[(u8, u32)],
) -> Result<bool, Fail> {
    let mut cursor = windows.first();
    for i in 0..order.len() {
        let (sender, seq) = order[i];
        let here = name(sender, seq)?;
        if cursor != Some(here)
            || windows.get(here) != Some(&seq)
            || windows.entry(i) != Some((here, &seq))
        {
            return Ok(false);
        }
        cursor = windows.after(here);
    }
    Ok(cursor.is_none() && windows.entry(order.len()).is_none())
}

fn put_each<A: Allocator + Copy>(
    windows: &mut Windows<u32, A>,
    names: &[(u8, u32)],
) -> Result<(), Fail> {
    for (sender, seq) in names {
        put(windows, name(*sender, *seq)?)?;
    }
    Ok(())
}

fn puts_and_reads<A: Allocator + Copy>(windows: &mut Windows<u32, A>) -> Result<bool, Fail> {
    let is_empty = windows.first().is_none() && windows.after(name(1, 1)?).is_none();
    put_each(windows, &[(3, 7), (7, 4), (3, 1), (1, 2), (3, 2)])?;
    let is_read = reads(windows, &[(1, 2), (3, 1), (3, 2), (3, 7), (7, 4)])?;
    let over_a_gap = windows.after(name(3, 3)?) == Some(name(3, 7)?);
    Ok(
        is_empty
            && is_read
            && over_a_gap
            && goes_to(windows, 3, 2, 1)?
            && goes_to(windows, 1, 0, 1)?,
    )
}

#[test]
fn reads_follow_the_order_of_names(rt: HostRuntime) -> Result<(), Fail> {
    let mut windows = Windows::new(rt.alloc());
    assert!(rt; puts_and_reads(&mut windows)?);
    Ok(())
}

// Whether node 4's value equals its number, and then the replacement.
fn is_replaced<A: Allocator + Copy>(
    windows: &mut Windows<u32, A>,
    seq: u32,
    value: u32,
) -> Result<bool, Fail> {
    let here = name(4, seq)?;
    if windows.get(here).is_none() {
        return Ok(false);
    }
    let was = windows.replace(here, value);
    Ok(was == seq && windows.get(here) == Some(&value))
}

fn replaces_and_clears<A: Allocator + Copy>(windows: &mut Windows<u32, A>) -> Result<bool, Fail> {
    put_each(windows, &[(4, 1), (4, 3)])?;
    let is_replaced = is_replaced(windows, 1, 11)? && is_replaced(windows, 3, 13)?;
    let had = windows.count();
    windows.clear();
    Ok(is_replaced && had == 2 && windows.count() == 0 && windows.get(name(4, 1)?).is_none())
}

#[test]
fn a_value_is_replaced_in_either_part(rt: HostRuntime) -> Result<(), Fail> {
    let mut windows = Windows::new(rt.alloc());
    assert!(rt; replaces_and_clears(&mut windows)?);
    Ok(())
}

// Inserts names of two nodes in an order with gaps, with or without reservations.
fn put_with_gaps<A: Allocator + Copy>(
    windows: &mut Windows<u32, A>,
    reserved: bool,
) -> Result<bool, Fail> {
    for (sender, seq) in [
        (1, 7),
        (1, 3),
        (3, 2),
        (1, 2),
        (1, 9),
        (1, 1),
        (1, 4),
        (3, 1),
    ] {
        let here = name(sender, seq)?;
        if reserved {
            put(windows, here)?;
        } else {
            put_unreserved(windows, here)?;
        }
    }
    Ok(goes_to(windows, 1, 4, 2)? && goes_to(windows, 3, 2, 0)?)
}

// Whether everything succeeds if one growth is refused, and whether that growth was requested.
fn outlives(alloc: Global, refused: u64, reserved: bool) -> Result<(bool, bool), Fail> {
    let heap = Refusing::new(alloc, refused);
    let mut windows = Windows::new(&heap);
    let is_well = put_with_gaps(&mut windows, reserved)?;
    Ok((is_well, heap.has_failed()))
}

#[test]
fn each_growth_may_be_refused(rt: HostRuntime) -> Result<(), Fail> {
    let mut last = 0;
    for refused in 1..12 {
        for reserved in [false, true] {
            let (is_well, met) = outlives(rt.alloc(), refused, reserved)?;
            assert!(rt; is_well);
            if met {
                last = refused;
            }
        }
    }
    assert!(rt; 3 <= last, "growths were refused");
    Ok(())
}

// Reserves number 1 of node 1, which closes a gap. Returns the number of allocations so far.
fn reserve_first<'heap, A: Allocator>(
    windows: &mut Windows<u32, &'heap Refusing<A>>,
    heap: &'heap Refusing<A>,
) -> Result<u64, Fail> {
    put_each(windows, &[(1, 6), (1, 5), (1, 4), (1, 3), (1, 2)])?;
    windows.recall();
    windows.reserve(name(1, 1)?)?;
    Ok(heap.growths())
}

// Whether the reserved value is inserted and closes the gap.
fn insert_first<A: Allocator + Copy>(windows: &mut Windows<u32, A>) -> Result<bool, Fail> {
    let first = name(1, 1)?;
    if windows.get(first).is_some() {
        return Ok(false);
    }
    let is_in = windows.insert(first, 1).is_ok();
    Ok(is_in && goes_to(windows, 1, 6, 0)?)
}

#[test]
fn what_was_reserved_takes_no_memory(rt: HostRuntime) -> Result<(), Fail> {
    let heap = Refusing::new(rt.alloc(), 0);
    let mut windows = Windows::new(&heap);
    assert_eq!(rt; heap.growths(), 0);
    let asked = reserve_first(&mut windows, &heap)?;
    assert!(rt; insert_first(&mut windows)?);
    assert_eq!(rt; heap.growths(), asked);
    Ok(())
}

// Marks a node for a name that it isn't marked for. If an allocation is refused, it isn't marked,
// and the same call succeeds the second time.
fn mark<A: Allocator + Copy>(marks: &mut Marks<A>, name: Name, node: NodeId) -> Result<(), Fail> {
    if marks.has(name, node) {
        return Err(Fail::from("the mark is new"));
    }
    if marks.add(name, node).is_err() {
        if marks.has(name, node) {
            return Err(Fail::from("a refused mark is there"));
        }
        marks.add(name, node)?;
    }
    if !marks.has(name, node) || !marks.is_roomy(name) {
        return Err(Fail::from("the node is marked"));
    }
    Ok(())
}

// How many of the first n nodes are marked for node 1's name 3.
fn count_marked<A: Allocator + Copy>(marks: &Marks<A>, n: u8) -> Result<u8, Fail>
    requires { n ≤ 7 }
{
    Ok(marks.count_of(name(1, 3)?, n))
}

// Makes space for node 1's name 3 and for no other name.
fn make_room<A: Allocator + Copy>(marks: &mut Marks<A>) -> Result<bool, Fail> {
    let third = name(1, 3)?;
    marks.make_room(third)?;
    Ok(marks.is_roomy(third) && !marks.is_roomy(name(1, 2)?) && count_marked(marks, 7)? == 0)
}

// Marks nodes for the name, then removes the marks.
fn mark_and_forget<A: Allocator + Copy>(marks: &mut Marks<A>) -> Result<bool, Fail> {
    let third = name(1, 3)?;
    mark(marks, third, node(7)?)?;
    mark(marks, third, node(2)?)?;
    let are_counted = count_marked(marks, 7)? == 2 && count_marked(marks, 6)? == 1;
    marks.forget();
    let are_forgotten = count_marked(marks, 7)? == 0;
    mark(marks, third, node(1)?)?;
    Ok(are_counted && are_forgotten)
}

// Whether `clear` removes the space that was allocated and reserved.
fn clears<A: Allocator + Copy>(marks: &mut Marks<A>) -> Result<bool, Fail> {
    marks.reserve(name(2, 1)?)?;
    marks.clear();
    Ok(!marks.is_roomy(name(1, 3)?))
}

#[test]
fn marks_are_forgotten_and_their_room_stays(rt: HostRuntime) -> Result<(), Fail> {
    let heap = Refusing::new(rt.alloc(), 0);
    let mut marks = Marks::new(&heap);
    assert!(rt; make_room(&mut marks)?);
    let asked = heap.growths();
    assert!(rt; mark_and_forget(&mut marks)?);
    assert_eq!(rt; heap.growths(), asked);
    assert!(rt; clears(&mut marks)?);
    Ok(())
}

// Marks node 3 for three names of node 2, after making space for the first.
fn mark_three<A: Allocator + Copy>(marks: &mut Marks<A>) -> Result<bool, Fail> {
    let first = name(2, 1)?;
    if marks.make_room(first).is_err() {
        if marks.is_roomy(first) {
            return Ok(false);
        }
        marks.make_room(first)?;
    }
    for seq in [1, 2, 9] {
        mark(marks, name(2, seq)?, node(3)?)?;
    }
    Ok(true)
}

// Whether everything succeeds if one growth is refused, and whether that growth was requested.
fn marks_outlive(alloc: Global, refused: u64) -> Result<(bool, bool), Fail> {
    let heap = Refusing::new(alloc, refused);
    let mut marks = Marks::new(&heap);
    let is_well = mark_three(&mut marks)?;
    Ok((is_well, heap.has_failed()))
}

#[test]
fn a_refused_mark_changes_nothing(rt: HostRuntime) -> Result<(), Fail> {
    let mut last = 0;
    for refused in 1..9 {
        let (is_well, met) = marks_outlive(rt.alloc(), refused)?;
        assert!(rt; is_well);
        if met {
            last = refused;
        }
    }
    assert!(rt; 2 <= last, "growths were refused");
    Ok(())
}
