//! Worked examples of formats: what packets and the frames of clients say, byte by byte.
//!
//! The examples also say what names a node's small parts hold: windows, certified names, pending
//! messages, acknowledgements and logs. Each row is true or false of small values.
//!
//! No program calls these functions. A wrong definition makes one of their clauses false, and then
//! the prover refuses it.
#![tactic(auto)]

pub mod worked;
