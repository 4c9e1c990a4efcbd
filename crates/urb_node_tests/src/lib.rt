//! Tests of `urb_node`, in a separate crate.
//!
//! They see what its users see, and what they call is proved only once.
#![tactic(auto)]

#[cfg(test)]
mod tests;
