//! Tests of `urb_foresight`.
#![tactic(auto)]

#[cfg(test)]
mod tests;
