//! Tests that refuse each allocation in turn. A growth is an allocation.

use super::*;
use std::alloc::Allocator;
use urb_refusing::Refusing;

// Decodes the first test vector. If an allocation is refused, the error says so, and the same call
// succeeds the second time.
fn read<A: Allocator + Copy>(alloc: A) -> Option<Packet<A>> {
    match decode(alloc, WITH_PAYLOAD) {
        Ok(packet) => Some(packet),
        Err(Refusal::NoMemory) => decode(alloc, WITH_PAYLOAD).ok(),
        Err(_other) => None,
    }
}

// A packet that shares this one's message, or `None` if an allocation was refused.
fn remake<A: Allocator + Copy>(alloc: A, packet: &Packet<A>) -> Option<Packet<A>> {
    packet.recall();
    match packet.message().share(alloc) {
        Ok(message) => {
            let (source, target) = (packet.source(), packet.target());
            Some(Packet::new(source, target, packet.name(), message, packet.flags()))
        }
        Err(_) => None,
    }
}

// Whether a packet encodes to the first vector, even if one allocation is refused.
fn is_spelled_late<A: Allocator + Copy>(alloc: A, packet: &Packet<A>) -> bool {
    let spelled = match encode(alloc, packet) {
        Ok(bytes) => Ok(bytes),
        Err(_) => encode(alloc, packet),
    };
    match spelled {
        Ok(bytes) => bytes.as_slice() == WITH_PAYLOAD,
        Err(_) => false,
    }
}

// Whether a packet that shares this one's message encodes to the first vector, even if one
// allocation is refused. `None` if no such packet can be made.
fn is_remade_late<A: Allocator + Copy>(alloc: A, packet: &Packet<A>) -> Option<bool> {
    let again = match remake(alloc, packet) {
        Some(again) => again,
        None => remake(alloc, packet)?,
    };
    let is_spelled = is_spelled_late(alloc, &again);
    drop(again);
    Some(is_spelled)
}

// Whether the first vector is decoded, shared and encoded again, even if one allocation is refused.
fn goes_through<A: Allocator + Copy>(alloc: A) -> Option<bool> {
    let packet = read(alloc)?;
    let is_remade = is_remade_late(alloc, &packet);
    drop(packet);
    is_remade
}

// If that works although growth number `refused` is refused: whether that growth was requested, and
// the number of growths.
fn count_growths(alloc: Global, refused: u64) -> Option<(bool, u64)> {
    let heap = Refusing::new(alloc, refused);
    let goes_through = goes_through(&heap);
    let (met, asked) = (heap.has_failed(), heap.growths());
    drop(heap);
    if goes_through == Some(true) {
        Some((met, asked))
    } else {
        None
    }
}

// The number of growths, after each was refused in turn; 0 if some run fails.
fn growths(alloc: Global) -> u64 {
    for refused in 1..100 {
        match count_growths(alloc, refused) {
            Some((true, _)) => {}
            Some((false, asked)) => return asked,
            None => return 0,
        }
    }
    0
}

// Why decoding the first vector fails if the first growth is refused.
fn first_refusal(alloc: Global) -> Option<Refusal> {
    let heap = Refusing::new(alloc, 1);
    let refusal = decode(&heap, WITH_PAYLOAD).err();
    drop(heap);
    refusal
}

#[test]
fn each_growth_refused_is_a_refusal_for_memory(rt: HostRuntime) {
    assert_eq!(rt; growths(rt.alloc()), 3);
    assert_eq!(rt; first_refusal(rt.alloc()), Some(Refusal::NoMemory));
}
