//! Worked examples of words: the lines of scripts and their answers, and what commands print.
//!
//! Each row says how something small is written, or is true or false of a small script.
//!
//! No program calls these functions. A wrong definition makes one of their clauses false, and then
//! the prover refuses it.
#![tactic(auto)]

pub mod worked;
