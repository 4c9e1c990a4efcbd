//! Tests of five small crates: `urb_refusing`, `urb_certified`, `urb_majority`, `urb_fifo` and
//! `urb_stubborn`.
//!
//! They see what the crates' users see, and what they call is proved only once.
#![tactic(auto)]

#[cfg(test)]
mod tests;
