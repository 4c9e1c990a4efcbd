//! Tests of `urb_sqlite`. They are a crate of their own, so that what they call is proved only
//! once. They use only what every user may call.
//!
//! Each plays rows of plain data at one kind of place for a journal. The journal's files are in
//! memory, or stop at one of their calls, or are real. The tests show what is stored and what is
//! refused, and what a stop at each call leaves. They show which refusal a damaged or exchanged
//! file gets, and what is left of a group of three that delivers one message.
#![tactic(auto)]

#[cfg(test)]
mod tests;
