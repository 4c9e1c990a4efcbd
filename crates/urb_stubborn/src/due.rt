//! Which names are due: a name is due if some other node's certificate of it has not been heard.

ghost use Rattle.std.specs.Prelude.{◌≡◌, ◌==◌, ◌&&◌, ℕ, ◌<◌, ◌≤◌, false, not};
ghost use Rattle.urb_names.specs.Acknowledgements.{acked};
ghost use Rattle.urb_names.specs.CarriedPackets.{is_due};
ghost use Rattle.urb_names.specs.Names.{name};

use std::alloc::Allocator;
use urb_names::{Config, Name, NodeId};
use urb_window::Marks;

// Whether this is another node whose certificate of a name has not been heard.
pub(crate) fn is_unheard<A: Allocator + Copy>(
    heard: &Marks<A>,
    node: NodeId,
    name: Name,
    other: NodeId,
) -> bool
    ensures { result ≡ (not (other == node) && not (acked heard.now.marks name other)) }
{
    other != node && !heard.has(name, other)
}

// Whether a name is due.
pub(crate) fn is_due<A: Allocator + Copy>(
    heard: &Marks<A>,
    config: Config,
    node: NodeId,
    name: Name,
) -> bool
    ensures { result ≡ is_due config.n node heard.now.marks name }
{
    for number in 1..config.n() + 1 {
        let other = NodeId::new(number).unwrap();
        if is_unheard(heard, node, name, other) {
            return true;
        }
    }
    false
}

// The end of the sender's unbroken run of numbers after `from`, as far as each name has space and
// is not due.
pub(crate) fn settle_from<A: Allocator + Copy>(
    heard: &Marks<A>,
    config: Config,
    node: NodeId,
    sender: NodeId,
    from: u32,
) -> u32
    ensures from { from ≤ result }
    ensures settled { (k : ℕ)
        → from < k
        → k ≤ result
        → is_due config.n node heard.now.marks (name sender k) ≡ false }
{
    let mut end = from;
    while end < u32::MAX {
        let next = Name {
            sender,
            seq: end + 1,
        };
        if !heard.is_roomy(next) || is_due(heard, config, node, next) {
            return end;
        }
        end += 1;
    }
    end
}
