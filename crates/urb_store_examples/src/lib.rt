//! Worked examples of stores: what a store keeps, gives back and refuses. And of the counter by
//! which an allocator, a reader or a writer fails in tests.
//!
//! No program calls these functions. A wrong definition makes one of their clauses false, and then
//! the prover refuses it.
#![tactic(auto)]

pub mod worked;
