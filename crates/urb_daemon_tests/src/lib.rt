//! Tests of `urb_daemon`. They are a crate of their own, so that what they call is proved only
//! once. They use nothing but public functions.
#![tactic(auto)]

#[cfg(test)]
mod tests;
