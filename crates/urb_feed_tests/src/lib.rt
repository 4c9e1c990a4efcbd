//! Tests of `urb_feed`.
#![tactic(auto)]

#[cfg(test)]
mod tests;
