//! How many of a sender's names a log has.

ghost use Rattle.std.specs.Prelude.{◌≡◌, length};
ghost use Rattle.urb_names.specs.Names.{names};
ghost use Rattle.urb_names.specs.Release.{part_of};

use urb_names::{Name, NodeId};

/// How many names of a sender a log has. A log has them in the order of their numbers, so this is
/// the number of the last one. It is usually near the end of the log.
pub(crate) fn delivered_of(log: &[Name], sender: NodeId) -> u32
    requires { part_of sender log.now ≡ names sender (length (part_of sender log.now)) }
    ensures { result ≡ length (part_of sender log.now) }
{
    let mut left = log.len();
    while 0 < left {
        left -= 1;
        let name = log[left];
        if name.sender == sender {
            return name.seq;
        }
    }
    0
}
