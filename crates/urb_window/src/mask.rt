//! A set of nodes as one byte, with one bit for each node.

ghost use Rattle.std.specs.Prelude.{◌≡◌, ◌<◌, ◌≤◌, ◌+◌, ◌-◌, ◌^◌, false, count_by};
ghost use Rattle.urb_names.specs.Nodes.{nodes};
ghost use Rattle.urb_window.specs.NodeMasks.{has_bit};

use urb_names::MAX_NODES;

// A mask has one bit for each node.
const _: () = prove!(MAX_NODES <= 8);

// The mask of this node alone.
fn bit_of(number: u8) -> u8
    requires { (0 < number) × (number ≤ MAX_NODES) }
    ensures { result ≡ 2 ^ (number - 1) }
{
    1 << (number - 1)
}

// Whether a node's bit is set.
pub(crate) fn has_bit(mask: u8, number: u8) -> bool
    requires { (0 < number) × (number ≤ MAX_NODES) }
    ensures { result ≡ has_bit mask number }
{
    (mask >> (number - 1)) % 2 == 1
}

// The mask with this node's bit set, which must be clear before.
pub(crate) fn with_bit(mask: u8, number: u8) -> u8
    requires range { (0 < number) × (number ≤ MAX_NODES) }
    requires new { has_bit mask number ≡ false }
    ensures { result ≡ mask + 2 ^ (number - 1) }
{
    mask + bit_of(number)
}

#[tactic(auto, using(crate::proofs::NodeCounts::count_of_next, crate::proofs::NodeCounts::count_of_none))]
// How many of the nodes 1 to n have their bits set.
pub(crate) fn bits_up_to(mask: u8, n: u8) -> u8
    requires { n ≤ MAX_NODES }
    ensures count { result ≡ count_by (has_bit mask) (nodes n) }
    ensures most { result ≤ n }
{
    let mut count = 0;
    for number in 1..=n {
        if has_bit(mask, number) {
            count += 1;
        }
    }
    count
}
