//! What workers keep of their turns: tokens that count events, and the ends of their last loans.

ghost use Rattle.std.specs.Prelude.{◌≡◌, ◌+◌, ◌<◌};

use std::marker::{Brand, Model};
use std::sync::ledger::{Book, Ledger, Share};
use urb_show::{HouseName, Moment};

/// Names one Hub's ledger, and the count of events with which the Hub began.
pub trait HubName: Ledger {
    ghost use Rattle.std.specs.Prelude.{ℕ};

    ghost start: { ℕ };
}

impl HubName for Brand {
    ghost start = { 0 };
}

/// What a worker keeps of its turns. The number of their events is one part of the Hub's ledger.
/// The end of its last loan is the moment at which it gave the House back. Only a Hub makes a tally,
/// and it takes all of them back in the end.
#[derive(Drop)]
pub struct Tally<K: HouseName, L: HubName> {
    share: Share<L>,
    // `None` if it isn't known, which no run sees.
    last: Option<Moment<K>>,
}

impl<K: HouseName, L: HubName> Model for Tally<K, L> {
    ghost use Rattle.std.specs.Prelude.{◌≡◌};
    ghost use Rattle.urb_turn.specs.Counting.{TallyView};

    ghost Value = { TallyView };

    ghost view = { λ t. record { events = t.share.amount; last = t.last } };

    ghost invariant = { λ t. t.share.parts ≡ 1 };
}

impl<K: HouseName, L: HubName> Tally<K, L> {
    // Takes one part from what is left of a ledger, at this moment.
    pub(crate) fn split_one(rest: &mut Share<L>, last: Option<Moment<K>>) -> Tally<K, L>
        requires parts { 0 < rest.old.parts }
        requires amount { rest.old.amount ≡ 0 }
        ensures tally { result ≡ record { events = 0; last = last } }
        ensures parts { rest.new.parts + 1 ≡ rest.old.parts }
        ensures amount { rest.new.amount ≡ 0 }
    {
        Tally {
            share: rest.split_off(1, 0),
            last,
        }
    }

    // Adds this number of events, in the ledger's book too.
    pub(crate) fn count(&mut self, book: &mut Book<L>, events: u8)
        ensures tally { self.new.events ≡ self.old.events + events }
        ensures last { self.new.last ≡ self.old.last }
        ensures book { book.new.total ≡ book.old.total + events }
    {
        book.add(&mut self.share, u64::from(events));
    }

    // The end of the last loan.
    pub(crate) fn last(&self) -> &Option<Moment<K>>
        ensures { result.now ≡ self.now.last }
    {
        &self.last
    }

    // Takes note of the end of a loan.
    pub(crate) fn end_loan(&mut self, end: Option<Moment<K>>)
        ensures { self.new ≡ record { events = self.old.events; last = end } }
    {
        self.last = end;
    }

    // The part, for the ledger to take back.
    pub(crate) fn into_share(self) -> Share<L>
        ensures parts { result.parts ≡ 1 }
        ensures amount { result.amount ≡ self.events }
    {
        let Tally { share, last: _ } = self;
        share
    }
}
