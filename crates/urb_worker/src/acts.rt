//! The list of a worker's acts, which exists in proofs alone.

ghost use Rattle.std.specs.Prelude.{◌≡◌, [], ◌∷◌, ◌++◌};

use crate::ticket_batch::BatchEnd;
use logbook::{Opening, Rule, Seen, Start};
use std::marker::Model;
use urb_link::Handed;
use urb_names::NodeId;
use urb_turn::Change;

// The rule of a book that may hold any list.
struct Free;

impl Rule<ListedAct, u64> for Free {
    ghost use Rattle.std.specs.Prelude.{[]};
    ghost use base.Fml.{ftrue};

    ghost holds = { λ cells log. Unit {0} };

    ghost first = { [] };

    ghost hinted = { λ n log. Unit {0} };

    ghost shows = { λ log. [] };

    ghost keeps = { λ names log. ftrue };

    ghost moves = { λ ask before after answer. Unit {0} };
}

// An act in the list. No value of this type is made: it exists in proofs.
struct ListedAct {
    target: u64,
}

impl Model for ListedAct {
    ghost use Rattle.urb_worker.specs.Acts.{Act, Lost};

    ghost Value = { Act };

    ghost view = { λ a. Lost a.target };
}

/// What a worker does next: which act it is.
pub(crate) trait NextAct {
    ghost use Rattle.urb_worker.specs.Acts.{Act};

    ghost act: { Self → Act };
}

/// Bytes for a node, with what a link did with them.
#[derive(Drop)]
pub(crate) struct Sending<'a> {
    pub(crate) handed: Handed<'a>,
}

impl<'a> NextAct for Sending<'a> {
    ghost use Rattle.urb_worker.specs.Acts.{Sent};

    ghost act = { λ a. Sent a.handed.target a.handed.bytes.now };
}

/// A packet for a node, which is lost.
#[derive(Drop)]
pub(crate) struct Losing {
    pub(crate) target: NodeId,
}

impl NextAct for Losing {
    ghost use Rattle.urb_worker.specs.Acts.{Lost};

    ghost act = { λ a. Lost a.target };
}

/// A report of a change.
#[derive(Drop)]
pub(crate) struct Reporting<'a> {
    pub(crate) change: &'a Change,
}

impl<'a> NextAct for Reporting<'a> {
    ghost use Rattle.urb_worker.specs.Acts.{Reported};

    ghost act = { λ a. Reported a.change.now };
}

/// The end of a batch, for this reason.
#[derive(Drop)]
pub(crate) struct Ending<'a> {
    pub(crate) end: &'a BatchEnd,
}

impl<'a> NextAct for Ending<'a> {
    ghost use Rattle.urb_worker.specs.Acts.{Ended};

    ghost act = { λ a. Ended a.end.now };
}

/// A lack of memory for what the tickets of a batch will draft.
#[derive(Drop)]
pub(crate) struct Shortage;

impl NextAct for Shortage {
    ghost use Rattle.urb_worker.specs.Acts.{RanShort};

    ghost act = { λ a. RanShort };
}

// A list, and the act that comes next.
#[derive(Drop)]
struct Next<'a, C> {
    acts: &'a ActList,
    act: &'a C,
}

// The book of the list that is one act longer.
struct Longer;

impl<'a, C: NextAct> Opening<Next<'a, C>, ListedAct> for Longer {
    ghost use Rattle.std.specs.Prelude.{◌++◌, ◌∷◌, []};

    ghost log = { λ count next. next.acts.now ++ C.act next.act.now ∷ [] };
}

/// All acts so far. It has no bytes, and a longer one takes no memory.
#[derive(Drop)]
pub(crate) struct ActList {
    seen: Seen<ListedAct, u64, Free>,
}

impl Model for ActList {
    ghost use Rattle.std.specs.Prelude.{List};
    ghost use Rattle.urb_worker.specs.Acts.{Act};

    ghost Value = { List Act };

    ghost view = { λ a. a.seen.log };
}

impl ActList {
    /// No act so far.
    pub(crate) fn new() -> ActList
        ensures { result ≡ [] }
    {
        let (seen, _first, _second) = Seen::open(Start::alone(), 0, 0);
        ActList { seen }
    }

    /// The list after this act.
    pub(crate) fn with<C: NextAct>(&self, act: &C) -> ActList
        ensures { result ≡ self.now ++ C.act act.now ∷ [] }
    {
        let next = Next { acts: self, act };
        let (seen, _pens) = Seen::open_row::<Next<'_, C>, Longer>(&next, Start::alone(), 0);
        ActList { seen }
    }
}
