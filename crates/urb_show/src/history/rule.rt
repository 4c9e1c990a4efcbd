//! The rule for publishing: nothing that a reader has seen is taken back.
//!
//! A reader's view is the length of the history that it has seen.
use crate::history::tokens::HouseName;
use crate::published_lists::PublishedLists;
use crossbeam_utils::rule::{Outcome, Protocol};
use std::marker::PhantomData;

/// The published history is no shorter than any that a reader has seen.
pub struct Grows<K> {
    of: PhantomData<K>,
}

impl<K: HouseName> Protocol<PublishedLists, u64> for Grows<K> {
    ghost use Rattle.urb_show.specs.internal.PublishingRule.{Keeps};

    ghost holds = { Keeps (record
        { book = K.book; history = K.history; origin = K.origin; base = K.base }) };

    ghost first = { 0 };
}

/// Before the step, the reader's view is no longer than the published history. After the step, it
/// equals the history that is published then.
pub struct Sees<K> {
    of: PhantomData<K>,
}

impl<K: HouseName> Outcome<PublishedLists, u64> for Sees<K> {
    ghost use Rattle.urb_show.specs.internal.PublishingRule.{Rises};

    ghost then = { Rises (record
        { book = K.book; history = K.history; origin = K.origin; base = K.base }) };
}
