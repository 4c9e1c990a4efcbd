//! The past of a house: a list of events that exists in proofs alone.
ghost use Rattle.std.specs.Prelude.{◌≡◌, [], ◌∷◌, ◌++◌};

use crate::history::calls::{Call, Happening};
use crate::history::tokens::Add;
use logbook::{Opening, Plain, Rule, Seen, Start};
use std::marker::Model;

/// The rule of a book that may hold any list.
pub(crate) struct Free;

impl Rule<Happening, u64> for Free {
    ghost use Rattle.std.specs.Prelude.{[]};
    ghost use base.Fml.{ftrue};

    ghost holds = { λ cells log. Unit {0} };

    ghost first = { [] };

    ghost hinted = { λ n log. Unit {0} };

    ghost shows = { λ log. [] };

    ghost keeps = { λ names log. ftrue };

    ghost moves = { λ ask before after answer. Unit {0} };
}

/// All events so far. Only its owner makes it longer, and that takes no memory. It has no bytes.
#[derive(Drop)]
pub(crate) struct Past {
    seen: Seen<Happening, u64, Free>,
}

impl Model for Past {
    ghost use Rattle.std.specs.Prelude.{List};
    ghost use Rattle.urb_world.specs.Step.{Event};

    ghost Value = { List Event };

    ghost view = { λ p. p.seen.log };
}

/// A past, and a call that comes next.
#[derive(Drop)]
pub(crate) struct Next<'a, C> {
    past: &'a Past,
    call: &'a C,
}

/// The book of the past that is one event longer.
pub(crate) struct Longer;

impl<'a, C: Call> Opening<Next<'a, C>, Happening> for Longer {
    ghost use Rattle.std.specs.Prelude.{◌++◌, ◌∷◌, []};

    ghost log = { λ count next. next.past.now ++ C.event next.call.now ∷ [] };
}

/// An event of a past, by its place.
#[derive(Drop)]
pub(crate) struct At {
    pub(crate) past: Past,
    pub(crate) place: u64,
}

impl Plain<At, Happening, u64> for Add {
    ghost use Rattle.std.specs.Prelude.{None};
    ghost use Rattle.urb_show.specs.internal.Pasts.{event_at};

    ghost ask = { λ at. event_at at.past at.place };

    ghost state = { λ at. None };
}

impl Past {
    /// No event so far.
    pub(crate) fn new() -> Past
        ensures { result ≡ [] }
    {
        let (seen, _first, _second) = Seen::open(Start::alone(), 0, 0);
        Past { seen }
    }

    /// A copy.
    pub(crate) fn copy(&self) -> Past
        ensures { result ≡ self.now }
    {
        Past {
            seen: self.seen.again(),
        }
    }

    /// The past after this call's event.
    pub(crate) fn with<C: Call>(&self, call: &C) -> Past
        ensures { result ≡ self.now ++ C.event call.now ∷ [] }
    {
        let next = Next { past: self, call };
        let (seen, _pens) = Seen::open_row::<Next<'_, C>, Longer>(&next, Start::alone(), 0);
        Past { seen }
    }
}
