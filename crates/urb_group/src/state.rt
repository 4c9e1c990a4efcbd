//! The states of a node.

/// A node's state, without its contents.
#[derive(Clone, Copy, Debug, PartialEq, Eq)]
pub enum State {
    /// The node has crashed, or its store has failed. It takes no event but a restart. Queries
    /// about it still work.
    Down,
    /// The node takes submits, packets and ticks.
    Ready,
    /// The node has returned a draft of a record to its caller, and waits for its store's receipt
    /// or doubt.
    Storing,
}
