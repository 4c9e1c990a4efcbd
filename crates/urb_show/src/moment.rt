//! Moments of a house: places in the history of its events.
ghost use Rattle.std.specs.Prelude.{◌≡◌, ◌⊎◌, ◌↔◌, IsTrue, length};
ghost use mathlib.Core.List.{IsPrefix};

use crate::history::tokens::{EventToken, HouseName};
use std::marker::Model;

/// All events of a house until some moment. A moment is a number in memory, and can go through a
/// channel. Contracts see the events, which are a prefix of the one history that the house has. So
/// of any two moments of a house, one is a prefix of the other.
#[derive(Drop)]
pub struct Moment<K: HouseName> {
    token: EventToken<K>,
}

impl<K: HouseName> Model for Moment<K> {
    ghost use Rattle.std.specs.Prelude.{List};
    ghost use Rattle.urb_world.specs.Step.{Event};

    ghost Value = { List Event };

    ghost view = { λ m. m.token };
}

impl<K: HouseName> Moment<K> {
    pub(crate) fn new(token: EventToken<K>) -> Moment<K>
        ensures { result ≡ token }
    {
        Moment { token }
    }

    pub(crate) fn token(&self) -> &EventToken<K>
        ensures { result.now ≡ self.now }
    {
        &self.token
    }

    /// The number of events until then. It is the place of the event that comes next.
    pub fn place(&self) -> u64
        ensures { result ≡ length self.now }
    {
        self.token.len()
    }

    /// The same moment.
    pub fn copy(&self) -> Moment<K>
        ensures { result ≡ self.now }
    {
        Moment {
            token: self.token.copy(),
        }
    }

    /// Whether this is the same moment or a later one: the earlier one is then a prefix of it.
    #[tactic(auto, using(crate::proofs::PastPrefixes::is_prefix, crate::proofs::PastPrefixes::is_no_prefix))]
    pub fn is_after(&self, earlier: &Moment<K>) -> bool
        ensures { IsTrue result ↔ IsPrefix earlier.now self.now }
    {
        if self.token.len() < earlier.token.len() {
            return false;
        }
        let _ = self.token.copy_after(&earlier.token);
        true
    }

    /// Makes this the later one of the two moments. Both are prefixes of it.
    pub fn learn(&mut self, other: &Moment<K>)
        ensures one { (self.new ≡ self.old) ⊎ (self.new ≡ other.now) }
        ensures earlier { IsPrefix self.old self.new }
        ensures told { IsPrefix other.now self.new }
    {
        self.token = self.token.longer_of(&other.token);
    }
}
