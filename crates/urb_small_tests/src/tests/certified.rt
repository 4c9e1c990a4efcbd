//! Certified names in several orders, and refused allocations.

ghost use Rattle.std.specs.Prelude.{◌≤◌, ◌<◌};

use std::alloc::Allocator;
use std::test::Fail;
use urb_certified::Certified;
use urb_names::{Name, NodeId};
use urb_refusing::Refusing;

// A name, or `None` if there is no such sender or number.
fn name(sender: u8, seq: u32) -> Option<Name> {
    if seq == 0 {
        return None;
    }
    let sender = NodeId::new(sender)?;
    Some(Name { sender, seq })
}

// Adds a new name. If the allocation is refused, nothing has changed, and the same call succeeds
// the second time. Returns whether all of this holds.
fn adds<A: Allocator + Copy>(names: &mut Certified<A>, name: Name) -> bool {
    if names.has(name) {
        return false;
    }
    let reach = names.reach(name.sender);
    let foretold = names.reach_with(name);
    if let Err(_) = names.add(name) {
        if names.has(name) || names.reach(name.sender) != reach || names.add(name).is_err() {
            return false;
        }
    }
    names.has(name) && names.reach(name.sender) == foretold
}

// Adds names in this way, one after the other.
fn adds_all<A: Allocator + Copy>(names: &mut Certified<A>, added: &[(u8, u32)]) -> bool {
    for (sender, seq) in added {
        match name(*sender, *seq) {
            Some(name) if adds(names, name) => {}
            _ => return false,
        }
    }
    true
}

// An order of the numbers 1 to 40.
#[derive(Clone, Copy)]
enum Order {
    Rising,
    Falling,
    OddFirst,
}

fn number_in(order: Order, k: u32) -> u32
    requires least { 1 ≤ k }
    requires most { k ≤ 40 }
{
    match order {
        Order::Rising => k,
        Order::Falling => 41 - k,
        Order::OddFirst if k <= 20 => 2 * k - 1,
        Order::OddFirst => 2 * (k - 20),
    }
}

// Adds node 2's names 1 to 40 in this order.
fn adds_forty<A: Allocator + Copy>(names: &mut Certified<A>, order: Order) -> bool {
    for k in 1..41 {
        match name(2, number_in(order, k)) {
            Some(name) if adds(names, name) => {}
            _ => return false,
        }
    }
    true
}

// Whether a sender's names go exactly this far without a gap.
fn reaches<A: Allocator + Copy>(names: &Certified<A>, sender: u8, reach: u32) -> bool {
    match NodeId::new(sender) {
        Some(sender) => names.reach(sender) == reach,
        None => false,
    }
}

// Whether a name is in the set.
fn has<A: Allocator + Copy>(names: &Certified<A>, sender: u8, seq: u32) -> bool {
    match name(sender, seq) {
        Some(name) => names.has(name),
        None => false,
    }
}

// Whether the set has the forty names and no others near them.
fn has_forty<A: Allocator + Copy>(names: &Certified<A>) -> bool {
    reaches(names, 2, 40)
        && reaches(names, 1, 0)
        && has(names, 2, 40)
        && !has(names, 2, 41)
        && !has(names, 1, 1)
}

// Whether adding the forty names in this order gives the same set.
fn is_the_same_in<A: Allocator + Copy>(alloc: A, rising: &Certified<A>, order: Order) -> bool {
    let mut names = Certified::new(alloc);
    let is_added = adds_forty(&mut names, order) && has_forty(&names);
    let is_same = names.is_same(rising);
    drop(names);
    is_added && is_same
}

fn copies_and_clears<A: Allocator + Copy>(alloc: A, names: &Certified<A>) -> bool {
    let Ok(mut copy) = names.copy(alloc) else {
        return false;
    };
    let is_same = copy.is_same(names);
    copy.clear();
    let is_clear = !copy.is_same(names) && !has(&copy, 2, 1);
    drop(copy);
    is_same && is_clear
}

#[test]
fn a_gap_closes_in_any_order(rt: HostRuntime) -> Result<(), Fail> {
    let mut rising = Certified::new(rt.alloc());
    let is_added = adds_forty(&mut rising, Order::Rising) && has_forty(&rising);
    let is_falling = is_the_same_in(rt.alloc(), &rising, Order::Falling);
    let is_odd_first = is_the_same_in(rt.alloc(), &rising, Order::OddFirst);
    let is_copied = copies_and_clears(rt.alloc(), &rising);
    drop(rising);
    assert!(rt; is_added && is_falling && is_odd_first && is_copied);
    Ok(())
}

#[test]
fn each_growth_may_be_refused(rt: HostRuntime) -> Result<(), Fail> {
    let mut met = 0;
    for refused in 1..6 {
        let heap = Refusing::new(rt.alloc(), refused);
        let mut names = Certified::new(&heap);
        let is_added = adds_all(
            &mut names,
            &[
                (1, 7),
                (1, 3),
                (3, 2),
                (1, 2),
                (1, 9),
                (1, 1),
                (1, 4),
                (3, 1),
            ],
        );
        let is_reached = reaches(&names, 1, 4) && reaches(&names, 3, 2);
        drop(names);
        assert!(rt; is_added && is_reached);
        if heap.has_failed() {
            met = refused;
        }
    }
    assert!(rt; 1 <= met, "a growth was refused");
    Ok(())
}

// Whether two names are added without an allocation once space is reserved.
fn asks_for_nothing<'a, A: Allocator>(
    names: &mut Certified<&'a Refusing<A>>,
    heap: &'a Refusing<A>,
) -> bool {
    if names.make_room().is_err() {
        return false;
    }
    names.recall();
    let asked = heap.growths();
    adds_all(names, &[(1, 5), (1, 1)]) && heap.growths() == asked
}

#[test]
fn where_there_is_room_no_memory_is_asked_for(rt: HostRuntime) -> Result<(), Fail> {
    let heap = Refusing::new(rt.alloc(), 0);
    let mut names = Certified::new(&heap);
    let asks_for_nothing = asks_for_nothing(&mut names, &heap);
    drop(names);
    assert!(rt; asks_for_nothing);
    Ok(())
}
