//! A counter of calls, one of which fails.

ghost use Rattle.std.specs.Prelude.{◌≡◌, ◌↔◌, IsTrue};

/// The number of calls requested so far, and the number of the call that fails. Calls are counted
/// from 1; with 0 no call fails.
#[derive(Clone, Copy)]
pub struct Fuse {
    asked: u64,
    refused: u64,
}

impl Fuse {
    ghost use Rattle.urb_refusing.specs.Fuses.{IsLast, IsMet};
    ghost use Rattle.urb_refusing.specs.internal.FuseCounts.{one_more};

    /// A counter with no call requested yet.
    pub fn new(refused: u64) -> Fuse
        ensures { result ≡ record { asked = 0; refused = refused } }
    {
        Fuse { asked: 0, refused }
    }

    /// The number of calls requested so far.
    pub fn calls(self) -> u64
        ensures { result ≡ self.asked }
    {
        self.asked
    }

    /// The counter after one more call.
    pub fn next(self) -> Fuse
        ensures { result ≡ one_more self }
    {
        Fuse {
            asked: self.asked.saturating_add(1),
            refused: self.refused,
        }
    }

    /// Whether the failing call has been requested.
    pub fn has_failed(self) -> bool
        ensures { IsTrue result ↔ IsMet self }
    {
        0 < self.refused && self.refused <= self.asked
    }

    /// Whether the call requested last is the one that fails.
    pub fn failed_last(self) -> bool
        ensures { IsTrue result ↔ IsLast self }
    {
        0 < self.refused && self.asked == self.refused
    }
}
