//! Forty names of a sender, added in three orders, give the same reach, messages and log.

ghost use Rattle.std.specs.Prelude.{◌≡◌};

use super::name;
use std::alloc::Global;
use urb_fifo::Fifo;
use urb_names::{ClientId, Config, Message, Name, NodeId};
use urb_pending::Pending;

const COUNT: u32 = 40;

/// An order of the names.
#[derive(Clone, Copy)]
enum Way {
    Rising,
    Falling,
    OddFirst,
}

/// What a node of three has stored, and what it has delivered of that.
#[derive(Drop)]
struct Held {
    config: Config,
    node: NodeId,
    pending: Pending<Global>,
    fifo: Fifo<Global>,
    ghost own: { pending.node ≡ node },
    ghost limits: { (pending.limits ≡ config) × (fifo.limits ≡ config) },
}

impl Held {
    fn new(alloc: Global) -> Option<Held> {
        let config = Config::new(3, COUNT)?;
        let node = NodeId::new(1)?;
        Some(Held {
            config,
            node,
            pending: Pending::new(alloc, config, node),
            fifo: Fifo::new(alloc, config),
        })
    }

    // Stores a message of another node, with its number as the payload, and certifies it. Returns
    // how many names that releases.
    fn take(&mut self, alloc: Global, name: Name) -> Option<u32> {
        let client = ClientId::new(7)?;
        let (n, cap) = (self.config.n(), self.config.cap());
        if name.sender.number() > n || name.seq > cap || name.seq == 0 {
            return None;
        }
        if name.sender == self.node || self.pending.message(name).is_some() {
            return None;
        }
        let message = Message::copy_of(alloc, client, name.seq, &name.seq.to_be_bytes()).ok()?;
        self.pending.add(name, message).ok()?;
        self.fifo.certify(name).ok()
    }

    // Whether the sender's messages are in the window in the order of their numbers.
    fn lends_in_order(&self, sender: NodeId) -> bool {
        let mut before = 0u32;
        for message in self.pending.window(sender) {
            before = before.saturating_add(1);
            if message.number() != before || message.payload() != before.to_be_bytes().as_slice() {
                return false;
            }
        }
        before == COUNT
    }

    // Whether the log is the sender's names in the order of their numbers.
    fn logs_in_order(&self, sender: NodeId) -> bool {
        let mut before = 0u32;
        for name in self.fifo.log() {
            before = before.saturating_add(1);
            if name.sender != sender || name.seq != before {
                return false;
            }
        }
        before == COUNT
    }

    // Whether all forty are there without a gap, and are in order in the window and in the log.
    fn is_whole(&self, sender: NodeId) -> bool {
        self.pending.low(sender) == COUNT
            && self.lends_in_order(sender)
            && self.logs_in_order(sender)
    }
}

// The number of the name that comes after `before` others.
fn number_in(way: Way, before: u32) -> u32 {
    match way {
        Way::Rising => before.saturating_add(1),
        Way::Falling => COUNT.saturating_sub(before),
        Way::OddFirst if before < 20 => 2 * before + 1,
        Way::OddFirst => before.saturating_sub(19).saturating_mul(2),
    }
}

// Stores all forty of node 2 in this order. Returns whether all of them were released in the end,
// in the order of their numbers.
fn takes_all(alloc: Global, way: Way) -> Option<bool> {
    let mut held = Held::new(alloc)?;
    let sender = NodeId::new(2)?;
    let mut released = 0u32;
    for before in 0..COUNT {
        if held.is_whole(sender) {
            return None;
        }
        let more = held.take(alloc, name(2, number_in(way, before))?)?;
        released = released.saturating_add(more);
    }
    Some(held.is_whole(sender) && released == COUNT)
}

#[test]
fn forty_names_in_three_orders_are_lent_and_delivered_in_one(rt: HostRuntime) {
    for way in [Way::Rising, Way::Falling, Way::OddFirst] {
        assert_eq!(rt; takes_all(rt.alloc(), way), Some(true));
    }
}
