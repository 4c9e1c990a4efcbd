//! Tests of `urb_group`, in a crate of their own.
//!
//! So `urb_group` is proved once, and not again with its tests. The tests see what users of the
//! crate see.
#![tactic(auto)]

#[cfg(test)]
mod tests;
