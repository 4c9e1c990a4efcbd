//! Two nodes of three deliver a message, with each allocation (growth) refused in turn.

use super::{client, one, three, two};
use std::alloc::{Allocator, Global};
use std::test::Fail;
use urb_group::*;
use urb_names::encode;
use urb_refusing::Refusing;

/// A group, and the bytes of the packet that travels. All memory of the group comes from `heap`.
/// `calm` never refuses; the stores and the packet use it.
#[derive(Drop)]
struct Walk<A: Allocator + Copy> {
    heap: A,
    calm: A,
    group: Group<A>,
    packet: Vec<u8, A>,
}

/// The result of a node's step.
#[derive(Clone, Copy)]
struct Step {
    /// How many names the step released.
    released: u32,
    /// Whether an allocation of the step was refused at first. Then the same call was made again,
    /// and had to succeed.
    refused: bool,
}

// Makes a group of three, and makes it again if its allocation is refused. Says whether it was
// refused.
fn group<A: Allocator + Copy>(alloc: A) -> Option<(Group<A>, bool)> {
    match Group::new(alloc, three()) {
        Ok(group) => Some((group, false)),
        Err(_) => Some((Group::new(alloc, three()).ok()?, true)),
    }
}

// Returns the draft, or `None` if the node has nothing to store.
fn draft_of<A: Allocator>(taken: Taken<A>) -> Option<Draft<A>> {
    match taken {
        Taken::Store(draft) => Some(draft),
        Taken::Same(_) => None,
    }
}

impl<A: Allocator + Copy> Walk<A> {
    // With `None`, the client submits its message at node 1. With a node, the packet arrives at it.
    fn take(&mut self, node: Option<NodeId>) -> Result<Taken<A>, Refusal> {
        match node {
            None => {
                let payload = Payload::copied(self.calm, b"a")?;
                self.group.submit(self.heap, one(), client(), 1, &payload)
            }
            Some(node) => self.group.arrive(self.heap, node, &self.packet),
        }
    }

    // Keeps the bytes of the first packet in `sent`: it is the one that arrives next.
    fn send(&mut self, sent: &Outbox<A>) -> Option<()> {
        let packet = sent.get(0)?;
        self.packet = encode(self.calm, packet).ok()?;
        Some(())
    }

    // Gives the group a receipt, and returns how many names are released. Returns `None` if the
    // group asked for memory.
    fn commit(&mut self, receipt: Receipt<A>, counted: &Refusing<Global>) -> Option<u32> {
        let asked = counted.growths();
        let done = self.group.commit(receipt).ok()?;
        let is_free = counted.growths() == asked;
        self.send(&done.sent);
        if is_free { Some(done.released) } else { None }
    }

    // Has a store keep what was drafted, and returns how many names are released.
    fn store(
        &mut self,
        taken: Taken<A>,
        store: &mut MemStable<A>,
        counted: &Refusing<Global>,
    ) -> Option<u32> {
        let receipt = draft_of(taken)?.keep(store).ok()?;
        self.commit(receipt, counted)
    }

    // Lets a node take the client's message or the packet, and store the record. If memory is
    // refused, makes the same call again. Returns the result, or `None` if something else went
    // wrong.
    fn step(
        &mut self,
        node: Option<NodeId>,
        store: &mut MemStable<A>,
        counted: &Refusing<Global>,
    ) -> Option<Step> {
        let (taken, refused) = match self.take(node) {
            Err(Refusal::NoMemory) => (self.take(node).ok()?, true),
            taken => (taken.ok()?, false),
        };
        let released = self.store(taken, store, counted)?;
        Some(Step { released, refused })
    }

    // Does the three steps: the client's message, its way to node 2, and back to node 1.
    fn steps(&mut self, counted: &Refusing<Global>) -> [Option<Step>; 3] {
        let mut first = MemStable::new(self.calm);
        let mut second = MemStable::new(self.calm);
        let sent = self.step(None, &mut first, counted);
        let relayed = self.step(Some(two()), &mut second, counted);
        let certified = self.step(Some(one()), &mut first, counted);
        [sent, relayed, certified]
    }
}

// Returns how many names nodes 1 and 2 release in the end, and whether memory was refused at some
// step.
fn summary_of(steps: [Option<Step>; 3]) -> Option<(u32, u32, bool)> {
    let [sent, relayed, certified] = steps;
    let (sent, relayed, certified) = (sent?, relayed?, certified?);
    let refused = sent.refused || relayed.refused || certified.refused;
    Some((certified.released, relayed.released, refused))
}

// Makes a group, does the three steps, and returns what `summary_of` returns. The allocation for
// the group may be refused too.
fn count_released<A: Allocator + Copy>(
    heap: A,
    calm: A,
    counted: &Refusing<Global>,
) -> Option<(u32, u32, bool)> {
    let (group, new) = group(heap)?;
    let mut walk = Walk {
        heap,
        calm,
        group,
        packet: Vec::new(calm),
    };
    let (at_first, at_second, refused) = summary_of(walk.steps(counted))?;
    Some((at_first, at_second, new || refused))
}

#[test]
fn each_growth_may_be_refused(rt: HostRuntime) -> Result<(), Fail> {
    let calm = Refusing::new(rt.alloc(), 0);
    let mut growths = 0;
    for refused in 1..100 {
        let heap = Refusing::new(rt.alloc(), refused);
        assert_eq!(rt;
            count_released(&heap, &calm, &heap),
            Some((1, 1, heap.has_failed()))
        );
        if !heap.has_failed() {
            growths = heap.growths();
            break;
        }
    }
    assert!(rt; 5 < growths, "{growths} growths");
    Ok(())
}
