//! Tests of `urb_script`, in a crate of their own.
//!
//! So `urb_script` is proved once, and not again with its tests. The tests see what users of the
//! crate see.
#![tactic(auto)]

#[cfg(test)]
mod scripts;
#[cfg(test)]
mod tests;
#[cfg(test)]
mod worked;
