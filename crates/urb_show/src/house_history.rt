//! The moments of a house: the part of its past that the history of all threads has.
ghost use Rattle.std.specs.Prelude.{◌≡◌, IfSome, length};
ghost use mathlib.Core.List.{IsPrefix};

use crate::history::calls::Happening;
use crate::history::past::{At, Past};
use crate::history::tokens::{Add, Book, EventToken, HouseName, OfEvents};
use crate::house::House;
use crate::moment::Moment;
use std::alloc::Allocator;

// Adds to the history what the past has and the token lacks. `None`: the history is full, or it has
// an event that isn't in this past.
#[tactic(auto, using(crate::proofs::Prefixes::prefix_whole, crate::proofs::PastPrefixes::next_begins))]
fn catch_up<K: HouseName>(
    told: &EventToken<K>,
    book: &Book<Happening, OfEvents<K>>,
    past: &Past,
    events: u64,
) -> Option<EventToken<K>>
    requires begins { IsPrefix told.now past.now }
    requires counted { events ≡ length past.now }
    ensures { IfSome result (λ t. t ≡ past.now) }
{
    let mut told = told.copy();
    while told.len() < events {
        let at = At {
            past: past.copy(),
            place: told.len(),
        };
        if !told.add::<At, Add>(book, &at) {
            return None;
        }
    }
    Some(told)
}

impl<K: HouseName, A: Allocator> House<K, A> {
    /// The present moment: the past with all its events, as a token that may leave the lock. Call
    /// it after the events of a turn. It makes one atomic exchange for each event since the last
    /// call.
    ///
    /// `None`: the history is full, at 2^62 events. In a run nothing else gives `None`, but no
    /// clause says so: a book's rules don't say that only the house adds to it.
    #[tactic(auto, using(crate::proofs::PastPrefixes::prefix_same))]
    pub fn mark(&mut self) -> Option<Moment<K>>
        ensures same { self.new ≡ self.old }
        ensures moment { IfSome result (λ m. m ≡ self.old.past) }
    {
        if self.events == u64::MAX {
            return None;
        }
        let token = catch_up(&self.told, &self.history, &self.past, self.events)?;
        let moment = Moment::new(token.copy());
        self.told = token;
        Some(moment)
    }
}
