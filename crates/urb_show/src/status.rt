//! A node's status at one moment.

use urb_group::State;

/// What a house reports about a node: its state, how many messages it has broadcast, and how many
/// names it has delivered.
#[derive(Clone, Copy, Debug, PartialEq, Eq)]
pub struct Status {
    /// Down, ready or storing.
    pub state: State,
    /// How many messages of its own the node has stored.
    pub own: u32,
    /// The number of names in its log. The published list may be shorter, until the node is
    /// settled.
    pub logged: u32,
}
