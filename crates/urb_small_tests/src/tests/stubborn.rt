//! Ticks by example, what is heard between them, and each allocation refused in turn.

ghost use Rattle.std.specs.Prelude.{◌≡◌};

mod growth;
mod heard;
mod packets;
mod steps;
mod ticks;

use std::alloc::{Allocator, Global};
use steps::{Sent, Step, is_refused_in};
use urb_certified::Certified;
use urb_names::{ClientId, Config, Message, Name, NodeId};
use urb_pending::Pending;
use urb_refusing::Refusing;
use urb_stubborn::{Outbox, Resend};

const CAP: u32 = 40;

/// What node 1 of a group has stored, and what happens then to its resends.
#[derive(Clone, Copy)]
struct Script<'a> {
    nodes: u8,
    /// For each sender, its names from 1 to this number are pending.
    names: &'a [(u8, u32)],
    /// These names of node 2 are certified.
    certified: &'a [u32],
    steps: &'a [Step<'a>],
    /// Further steps, after `steps`. They must not allocate.
    calm: &'a [Step<'a>],
}

// A name, or `None` if there is no such sender or number.
fn name(sender: u8, seq: u32) -> Option<Name> {
    if seq == 0 {
        return None;
    }
    let sender = NodeId::new(sender)?;
    Some(Name { sender, seq })
}

/// What node 1 of a group has pending and certified.
#[derive(Drop)]
struct Stored<A: Allocator> {
    config: Config,
    node: NodeId,
    pending: Pending<A>,
    certified: Certified<A>,
    ghost limits: { pending.limits ≡ config },
    ghost own: { pending.node ≡ node },
}

impl<A: Allocator + Copy> Stored<A> {
    fn new(alloc: A, nodes: u8) -> Option<Stored<A>> {
        let config = Config::new(nodes, CAP)?;
        let node = NodeId::new(1)?;
        Some(Stored {
            config,
            node,
            pending: Pending::new(alloc, config, node),
            certified: Certified::new(alloc),
        })
    }

    // Adds a message of another node under this name, and returns whether that was possible.
    fn adds(&mut self, alloc: A, name: Name) -> bool {
        if name.sender == self.node
            || name.sender.number() > self.config.n()
            || name.seq > self.config.cap()
            || self.pending.message(name).is_some()
        {
            return false;
        }
        let Some(client) = ClientId::new(7) else {
            return false;
        };
        match Message::copy_of(alloc, client, 1, b"a") {
            Ok(message) => self.pending.add(name, message).is_ok(),
            Err(_no_memory) => false,
        }
    }

    // Adds a node's names 1 to count.
    fn adds_names(&mut self, alloc: A, sender: u8, count: u32) -> bool {
        for before in 0..count {
            match name(sender, before + 1) {
                Some(name) if self.adds(alloc, name) => {}
                _ => return false,
            }
        }
        true
    }

    // Certifies names of node 2.
    fn certifies(&mut self, seqs: &[u32]) -> bool {
        for seq in seqs {
            match name(2, *seq) {
                Some(name) if self.certified.add(name).is_ok() => {}
                _ => return false,
            }
        }
        true
    }

    // Stores what a script needs.
    fn stores(&mut self, alloc: A, script: Script) -> bool {
        for (sender, count) in script.names {
            if !self.adds_names(alloc, *sender, *count) {
                return false;
            }
        }
        self.certifies(script.certified)
    }
}

// Plays a script on new resends. Returns whether a call was refused, or `None` if the outcome is
// not the expected one.
fn is_refused_over<A: Allocator + Copy>(
    alloc: A,
    heap: &Refusing<Global>,
    stored: &Stored<A>,
    script: Script,
) -> Option<bool> {
    if stored.node.number() > stored.config.n() {
        return None;
    }
    let mut resend = Resend::new(alloc, stored.config, stored.node);
    let refused = is_refused_in(&mut resend, alloc, stored, script.steps);
    let asked = heap.growths();
    let again = is_refused_in(&mut resend, alloc, stored, script.calm);
    let is_calm = heap.growths() == asked;
    drop(resend);
    if is_calm {
        Some(refused? || again?)
    } else {
        None
    }
}

// The same, after storing what the script needs in other memory.
fn is_refused<A: Allocator + Copy>(
    alloc: A,
    messages: A,
    heap: &Refusing<Global>,
    script: Script,
) -> Option<bool> {
    let mut stored = Stored::new(messages, script.nodes)?;
    let refused = if stored.stores(messages, script) {
        is_refused_over(alloc, heap, &stored, script)
    } else {
        None
    };
    drop(stored);
    refused
}

// The same while allocation (growth) number `refused` is refused, or none if that is 0. Also `None`
// if another call was refused.
fn play(alloc: Global, refused: u64, script: Script) -> Option<bool> {
    let calm = Refusing::new(alloc, 0);
    let heap = Refusing::new(alloc, refused);
    let told = is_refused(&heap, &calm, &heap, script);
    let met = heap.has_failed();
    drop(heap);
    drop(calm);
    if told == Some(met) { told } else { None }
}

// Plays steps of node 1 of a group in which other nodes' names are pending.
fn plays(alloc: Global, nodes: u8, names: &[(u8, u32)], steps: &[Step]) -> bool {
    let script = Script {
        nodes,
        names,
        certified: &[],
        steps,
        calm: &[],
    };
    play(alloc, 0, script) == Some(false)
}

const FIRST_TICK: [u32; 16] = [1, 2, 3, 4, 5, 6, 7, 8, 9, 10, 11, 12, 13, 14, 15, 16];

const SECOND_TICK: [u32; 16] = [17, 1, 2, 3, 4, 5, 6, 7, 8, 9, 10, 11, 12, 13, 14, 15];
