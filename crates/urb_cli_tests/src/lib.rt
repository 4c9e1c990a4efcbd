//! Tests of `urb_cli`, in a crate of their own.
//!
//! So `urb_cli` is proved once, and not again with its tests. The tests see what users of the
//! crate see.
#![tactic(auto)]

#[cfg(test)]
mod tests;
