//! What is foreseen of a call.

/// What one call will do after those that were foreseen before it.
#[derive(Clone, Copy, Debug, PartialEq, Eq)]
pub enum Foreseen {
    /// It drafts the record that was put behind the others.
    Draft,
    /// It drafts no record.
    NoDraft,
    /// Nothing is foreseen of it: it may draft a record or none. The batch ends before it.
    Unsure,
}
