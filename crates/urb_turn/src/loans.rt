//! The loans of the House in a turn: a worker locks it, and gives it back, twice.
ghost use Rattle.std.specs.Prelude.{◌≡◌, ◌↔◌, IfSome, IsTrue, Some};
ghost use mathlib.Core.List.{IsPrefix};
ghost use Rattle.urb_turn.specs.Loans.{events_until};

use std::marker::Model;
use urb_show::{HouseName, Moment};

/// A copy of a moment, if there is one.
pub fn copy_moment<K: HouseName>(moment: &Option<Moment<K>>) -> Option<Moment<K>>
    ensures { result ≡ moment.now }
{
    match moment {
        Some(moment) => Some(moment.copy()),
        None => None,
    }
}

/// One loan of the House: the moment when a worker got it, and the moment when the worker gave it
/// back.
#[derive(Drop)]
pub(crate) struct Loan<K: HouseName> {
    lent: Moment<K>,
    back: Moment<K>,
}

impl<K: HouseName> Model for Loan<K> {
    ghost use Rattle.urb_turn.specs.Loans.{LoanView};

    ghost Value = { LoanView };

    ghost view = { λ l. record { lent = l.lent; back = l.back } };
}

impl<K: HouseName> Loan<K> {
    /// The moment when it ended.
    pub(crate) fn end(&self) -> Moment<K>
        ensures { result ≡ self.now.back }
    {
        self.back.copy()
    }

    /// The loan between two moments. `None` if one of them is missing.
    pub(crate) fn new(lent: Option<Moment<K>>, back: Option<Moment<K>>) -> Option<Loan<K>>
        ensures { IfSome result (λ l. (lent ≡ Some l.lent) × (back ≡ Some l.back)) }
    {
        match (lent, back) {
            (Some(lent), Some(back)) => Some(Loan { lent, back }),
            _ => None,
        }
    }
}

/// The two loans of a turn.
#[derive(Drop)]
pub(crate) struct Loans<K: HouseName> {
    first: Loan<K>,
    last: Loan<K>,
}

impl<K: HouseName> Model for Loans<K> {
    ghost use Rattle.urb_turn.specs.Loans.{LoansView};

    ghost Value = { LoansView };

    ghost view = { λ l. record { first = l.first; last = l.last } };
}

impl<K: HouseName> Loans<K> {
    /// The loans of a turn. `None` if one of them is missing, or if the last one began before the
    /// first one ended, which no run does.
    pub(crate) fn new(first: Option<Loan<K>>, last: Option<Loan<K>>) -> Option<Loans<K>>
        ensures { IfSome result (λ l. (first ≡ Some l.first) × (last ≡ Some l.last)
            × IsPrefix l.first.back l.last.lent) }
    {
        let (Some(first), Some(last)) = (first, last) else {
            return None;
        };
        if !last.lent.is_after(&first.back) {
            return None;
        }
        Some(Loans { first, last })
    }

    /// Whether the turn got the House at this moment or later. No moment is the earliest one.
    #[tactic(auto, using(crate::proofs::SeenEvents::after_nothing))]
    pub(crate) fn is_after(&self, moment: &Option<Moment<K>>) -> bool
        ensures { IsTrue result ↔ IsPrefix (events_until moment.now) self.now.first.lent }
    {
        match moment {
            Some(moment) => self.first.lent.is_after(moment),
            None => true,
        }
    }

    /// The moment when the turn ended.
    pub(crate) fn end(&self) -> Moment<K>
        ensures { result ≡ self.now.last.back }
    {
        self.last.back.copy()
    }
}
