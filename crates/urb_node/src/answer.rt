//! What a node answers at once if nothing has to be stored.

use urb_names::Name;

/// An answer without a draft: the event changed nothing that is stored. The parameter is the type
/// that holds packets.
#[derive(Debug, Drop)]
pub enum Answer<O> {
    /// The submit is a repeat: its message was broadcast under this name before.
    Accepted(Name),
    /// The packet's source is now counted for this name, and the counted nodes are not a majority
    /// yet.
    Noted(Name),
    /// The packet said nothing new about this name, and its source wants no answer.
    Again(Name),
    /// The name is certified here, and the packet's source doesn't know that. The outbox holds the
    /// packet that tells it.
    Answered(Name, O),
}
