//! The results of a node's calls.

use crate::{Answer, Ready, Storing};
use std::alloc::{Allocator, Global};
use std::marker::Model;
use urb_names::Name;
use urb_stable::Draft;
use urb_stubborn::Outbox;

/// The result of a submit or an arrival that was not refused.
#[derive(Drop)]
#[derive_where(Debug)]
pub enum Step<A: Allocator = Global> {
    /// The node stays ready, and nothing has to be stored.
    Same(Ready<A>, Answer<Outbox<A>>),
    /// The node holds a record that its store must keep first: give the draft to the store.
    Store(Storing<A>, Draft<A>),
}

/// The effect of a stored record.
#[derive(Drop)]
#[derive_where(Debug)]
pub struct Done<A: Allocator = Global> {
    /// Whether this accepted a client's message.
    pub accepted: bool,
    /// The name that the record is about.
    pub name: Name,
    /// The packets to send now.
    pub sent: Outbox<A>,
    /// How many names were added to the log.
    pub released: u32,
}

impl<A: Allocator> Model for Done<A> {
    ghost use Rattle.urb_node.specs.Replies.{Done as DoneView};

    ghost Value = { DoneView };

    ghost view = { λ a.
        record { accepted = a.accepted; name = a.name; sent = a.sent; released = a.released } };
}
