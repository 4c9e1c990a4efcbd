//! When the worker of each node gave the House back last.

ghost use Rattle.std.specs.Prelude.{◌≡◌, IfOk, IsTrue, List, None, Some, replicate, slice_index_or};
ghost use Rattle.std.specs.Prelude.{slice_set};
ghost use Rattle.urb_world.specs.Step.{Event};

use crate::loans::copy_moment;
use std::alloc::{AllocError, Global};
use std::marker::Model;
use urb_show::{HouseName, Moment};

// Whether both moments are known, and the same.
#[tactic(auto, using(crate::proofs::LastLoans::same_moment))]
fn are_same<K: HouseName>(one: &Option<Moment<K>>, other: &Option<Moment<K>>) -> bool
    ensures { IsTrue result → (m : List Event) × (one.now ≡ Some m) × (other.now ≡ Some m) }
{
    match (one, other) {
        (Some(one), Some(other)) => one.place() == other.place() && one.is_after(other),
        _ => false,
    }
}

/// For each node, the end of the last loan of its worker. `None` if it isn't known.
#[derive(Drop)]
pub(crate) struct LastLoans<K: HouseName> {
    ends: Vec<Option<Moment<K>>>,
}

impl<K: HouseName> Model for LastLoans<K> {
    ghost use Rattle.urb_turn.specs.internal.LoanEnds.{LoanEnds};

    ghost Value = { LoanEnds };

    ghost view = { λ l. l.ends.items };
}

impl<K: HouseName> LastLoans<K> {
    /// The same end for each of `count` nodes.
    pub(crate) fn new(
        alloc: Global,
        count: usize,
        end: &Option<Moment<K>>,
    ) -> Result<LastLoans<K>, AllocError>
        ensures { IfOk result (λ made. made ≡ replicate count end.now) }
    {
        let mut ends = Vec::new(alloc);
        for _ in 0..count {
            ends.push(copy_moment(end))?;
        }
        Ok(LastLoans { ends })
    }

    /// Whether the last loan at this place ended at this moment. Places count from 0.
    pub(crate) fn has_ended_at(&self, place: usize, moment: &Option<Moment<K>>) -> bool
        ensures { IsTrue result → (m : List Event)
            × (moment.now ≡ Some m) × (slice_index_or self.now place None ≡ Some m) }
    {
        match self.ends.get(place) {
            Some(end) => are_same(moment, end),
            None => false,
        }
    }

    /// Takes note of the end of a loan.
    pub(crate) fn note(&mut self, place: usize, end: Option<Moment<K>>)
        ensures { self.new ≡ slice_set self.old place end }
    {
        if place < self.ends.len() {
            self.ends[place] = end;
        }
    }
}
