//! Counting to a majority, refused allocations, and calls with space reserved for them.

use std::alloc::Allocator;
use std::test::Fail;
use urb_majority::{Acks, Noted};
use urb_names::{Config, Name, NodeId};
use urb_refusing::Refusing;

// Node 1's name with this number.
fn name(seq: u32) -> Option<Name> {
    if seq == 0 {
        return None;
    }
    let sender = NodeId::new(1)?;
    Some(Name { sender, seq })
}

// Counts a node for a name. If the allocation is refused, nothing has changed, and the same call
// succeeds the second time. Returns whether the first call was refused, or `None` if the answer
// isn't `want`.
fn note<A: Allocator + Copy>(
    acks: &mut Acks<A>,
    name: Name,
    node: NodeId,
    want: Noted,
) -> Option<bool> {
    let known = acks.noted(name, node);
    let foretold = acks.answer(name, node);
    let (noted, refused) = match acks.note(name, node) {
        Ok(noted) => (noted, false),
        Err(_) if acks.noted(name, node) != known => return None,
        Err(_) => (acks.note(name, node).ok()?, true),
    };
    if noted != want || noted != foretold || !acks.noted(name, node) {
        return None;
    }
    Some(refused)
}

// Counts nodes for names in this way, and returns whether a call was refused.
fn note_all<A: Allocator + Copy>(acks: &mut Acks<A>, steps: &[(u32, u8, Noted)]) -> Option<bool> {
    let mut refused = false;
    for (seq, number, want) in steps {
        let name = name(*seq)?;
        let node = NodeId::new(*number)?;
        refused |= note(acks, name, node, *want)?;
    }
    Some(refused)
}

// Certifies names, in the same way.
fn certify_all<A: Allocator + Copy>(acks: &mut Acks<A>, numbers: &[u32]) -> Option<bool> {
    let mut refused = false;
    for seq in numbers {
        let name = name(*seq)?;
        let known = acks.certified(name);
        if acks.certify(name).is_err() {
            refused = true;
            if acks.certified(name) != known {
                return None;
            }
            acks.certify(name).ok()?;
        }
        if !acks.certified(name) {
            return None;
        }
    }
    Some(refused)
}

// Whether a name is certified.
fn is_certified<A: Allocator + Copy>(acks: &Acks<A>, seq: u32) -> bool {
    match name(seq) {
        Some(name) => acks.certified(name),
        None => false,
    }
}

// Whether a node is counted for a name.
fn is_noted<A: Allocator + Copy>(acks: &Acks<A>, seq: u32, number: u8) -> bool {
    match (name(seq), NodeId::new(number)) {
        (Some(name), Some(node)) => acks.noted(name, node),
        _ => false,
    }
}

fn config(n: u8) -> Result<Config, Fail> {
    Ok(Config::new(n, 10).ok_or("a config")?)
}

#[test]
fn the_third_of_five_nodes_makes_a_majority(rt: HostRuntime) -> Result<(), Fail> {
    let config = config(5)?;
    let mut acks = Acks::new(rt.alloc(), config);
    let noted = note_all(
        &mut acks,
        &[
            (1, 1, Noted::Counted),
            (1, 2, Noted::Counted),
            (1, 2, Noted::Again),
            (1, 3, Noted::Reached),
            (1, 4, Noted::Counted),
        ],
    );
    let is_early = is_certified(&acks, 1);
    let certified = certify_all(&mut acks, &[1]);
    drop(acks);
    assert_eq!(rt; noted, Some(false));
    assert_eq!(rt; certified, Some(false));
    assert!(rt; !is_early);
    Ok(())
}

// Whether each node, counted from 1 on, completes or extends a majority exactly if its number is
// above `half`.
fn is_enough_behind<A: Allocator + Copy>(acks: &mut Acks<A>, half: u8) -> Option<bool> {
    let name = name(1)?;
    let mut is_so = true;
    for number in 1..8 {
        let node = NodeId::new(number)?;
        is_so &= acks.majority_with(name, node) == (half < number);
        acks.note(name, node).ok()?;
    }
    Some(is_so)
}

#[test]
fn half_of_the_nodes_are_no_majority(rt: HostRuntime) -> Result<(), Fail> {
    for (n, half) in [(1, 0), (2, 1), (3, 1), (4, 2), (5, 2), (6, 3), (7, 3)] {
        let config = config(n)?;
        let mut acks = Acks::new(rt.alloc(), config);
        let is_enough = is_enough_behind(&mut acks, half);
        drop(acks);
        assert_eq!(rt; is_enough, Some(true), "of {n}");
    }
    Ok(())
}

#[test]
fn acknowledgements_are_lost_and_certificates_stay(rt: HostRuntime) -> Result<(), Fail> {
    let config = config(3)?;
    let mut acks = Acks::new(rt.alloc(), config);
    let before = note_all(&mut acks, &[(2, 1, Noted::Counted), (2, 2, Noted::Reached)]);
    let certified = certify_all(&mut acks, &[2]);
    acks.forget();
    let is_kept = is_certified(&acks, 2) && !is_certified(&acks, 1) && !is_noted(&acks, 2, 2);
    let after = note_all(&mut acks, &[(2, 2, Noted::Counted), (2, 1, Noted::Reached)]);
    drop(acks);
    assert_eq!(rt;
        (before, certified, after),
        (Some(false), Some(false), Some(false))
    );
    assert!(rt; is_kept);
    Ok(())
}

// Reserves space for the first name. Returns whether certifying it, counting all nodes for it, and
// certifying it again allocate nothing.
fn asks_for_nothing<'a, A: Allocator>(
    acks: &mut Acks<&'a Refusing<A>>,
    heap: &'a Refusing<A>,
) -> Option<bool> {
    note_all(acks, &[(3, 1, Noted::Counted), (1, 7, Noted::Counted)])?;
    certify_all(acks, &[3])?;
    acks.reserve(name(1)?).ok()?;
    let asked = heap.growths();
    certify_all(acks, &[1])?;
    for number in 1..8 {
        acks.note(name(1)?, NodeId::new(number)?).ok()?;
    }
    certify_all(acks, &[1])?;
    Some(heap.growths() == asked)
}

#[test]
fn what_was_reserved_takes_no_memory(rt: HostRuntime) -> Result<(), Fail> {
    let config = config(2)?;
    let heap = Refusing::new(rt.alloc(), 0);
    let mut acks = Acks::new(&heap, config);
    let asks_for_nothing = asks_for_nothing(&mut acks, &heap);
    drop(acks);
    assert_eq!(rt; asks_for_nothing, Some(true));
    Ok(())
}

// Counts and certifies while an allocation may be refused. Returns whether a call was refused, or
// `None` if a refused call changed something.
fn counts_on<A: Allocator + Copy>(acks: &mut Acks<A>) -> Option<bool> {
    let mut told = note_all(acks, &[(2, 2, Noted::Counted)])?;
    if acks.reserve(name(1)?).is_err() {
        told = true;
        if !is_noted(acks, 2, 2) {
            return None;
        }
    }
    told |= note_all(acks, &[(1, 1, Noted::Counted), (1, 3, Noted::Reached)])?;
    told |= certify_all(acks, &[1, 2])?;
    Some(told)
}

#[test]
fn each_growth_may_be_refused(rt: HostRuntime) -> Result<(), Fail> {
    let config = config(3)?;
    let mut met = 0;
    for refused in 1..9 {
        let heap = Refusing::new(rt.alloc(), refused);
        let mut acks = Acks::new(&heap, config);
        let told = counts_on(&mut acks);
        drop(acks);
        assert_eq!(rt; told, Some(heap.has_failed()));
        if heap.has_failed() {
            met = refused;
        }
    }
    assert!(rt; 2 <= met, "a growth was refused");
    Ok(())
}
