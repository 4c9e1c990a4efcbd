//! What exists for proofs: the histories of all additions to the published lists, and of all
//! events.
//!
//! No caller needs them in order to run. By the first one, contracts say that lists of two moments
//! are of one history. By the second one, they say where in the history an event happened. While
//! the program runs, they keep one number for each token. They make one atomic exchange for each
//! entry that is published, and for each event that is marked.

pub(crate) mod calls;
pub(crate) mod past;
pub(crate) mod rule;
pub(crate) mod tokens;
