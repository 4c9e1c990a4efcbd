//! Worked examples of turns: which jobs are calls, which records a store may hold for them, which
//! feeds a node has, and which group a turn leaves.
//!
//! The examples are about definitions of `urb_turn`. Each row is true or false of a small group,
//! store or feed.
//!
//! No program calls these functions. A wrong definition makes one of their clauses false, and then
//! the prover refuses it.
#![tactic(auto)]

pub mod worked;
