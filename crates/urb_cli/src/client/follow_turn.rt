//! What a turn of `follow` comes to.
//!
//! It has a file of its own, because definitions that `follow.rt` imports name this type.

/// What a turn of `follow` comes to.
#[derive(Clone, Copy, Debug, PartialEq, Eq)]
pub(crate) enum FollowTurn {
    /// A page was printed. The next turn asks for this place.
    Page(u32),
    /// The node is older than the request to wait.
    Older,
    /// The node refused, and the refusal was printed.
    Refused,
}
