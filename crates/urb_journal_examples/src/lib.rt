//! Worked examples of journals: tables and rows, what an opening finds, and what a stop leaves.
//!
//! No program calls these functions. A wrong definition makes one of their clauses false, and then
//! the prover refuses it.
#![tactic(auto)]

pub mod worked;
