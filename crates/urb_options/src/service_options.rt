//! How the nodes of a group serve their clients.

ghost use Rattle.std.specs.Prelude.{◌≡◌, true, IsSome, IfSome};
ghost use Rattle.urb_options.specs.OptionRanges.{AreServiceRanges};
ghost use Rattle.urb_options.specs.declared.limits.TheConstants.{MAX_CONNECTIONS};
ghost use Rattle.urb_options.specs.declared.limits.TheConstants.{STANDARD_IDLE_MINUTES};

use crate::limits::{MAX_CONNECTIONS, MAX_IDLE_MINUTES, MIN_CONNECTIONS, STANDARD_IDLE_MINUTES};

/// How each node serves its clients: how many at a time, how long they may be idle, and whether they
/// may crash and restart it.
#[derive(Clone, Copy, Debug)]
pub struct ServiceOptions {
    /// The most connections of a node at a time, `MIN_CONNECTIONS` to `MAX_CONNECTIONS`.
    pub connections: u16,
    /// After how many minutes without a byte a connection is closed, 1 to `MAX_IDLE_MINUTES`.
    pub idle_minutes: u16,
    /// Whether clients may crash and restart the node.
    pub may_crash: bool,
    ghost within: { AreServiceRanges connections idle_minutes },
}

impl ServiceOptions {
    /// Nodes that serve their clients so. `None` exactly if a number is outside its range.
    pub fn new(connections: u16, idle_minutes: u16, may_crash: bool) -> Option<ServiceOptions>
        ensures some { AreServiceRanges connections idle_minutes → IsSome result }
        ensures fields { IfSome result (λ s. (s.connections ≡ connections)
            × (s.idle_minutes ≡ idle_minutes)
            × (s.may_crash ≡ may_crash)) }
    {
        if connections < MIN_CONNECTIONS || MAX_CONNECTIONS < connections {
            return None;
        }
        if idle_minutes == 0 || MAX_IDLE_MINUTES < idle_minutes {
            return None;
        }
        Some(ServiceOptions {
            connections,
            idle_minutes,
            may_crash,
        })
    }

    /// What holds if nothing else is said: the most connections, `STANDARD_IDLE_MINUTES`, and
    /// clients may crash and restart nodes.
    pub fn standard() -> ServiceOptions
        ensures { (result.connections ≡ MAX_CONNECTIONS)
            × (result.idle_minutes ≡ STANDARD_IDLE_MINUTES)
            × (result.may_crash ≡ true) }
    {
        ServiceOptions {
            connections: MAX_CONNECTIONS,
            idle_minutes: STANDARD_IDLE_MINUTES,
            may_crash: true,
        }
    }
}
