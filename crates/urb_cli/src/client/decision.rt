//! What a node decides about a message.
//!
//! It has a file of its own, because definitions that `publish.rt` imports name this type.

/// What a node decided about a message.
#[derive(Clone, Copy, Debug, PartialEq, Eq)]
pub(crate) enum Decision {
    /// It is stored, under a name with this number.
    Accepted(u32),
    /// It is refused: the refusal's number, and its detail.
    Refused(u8, u32),
}
