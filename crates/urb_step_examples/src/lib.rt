//! Worked examples of the steps of a group, of what its stores hold after them, of what runs keep,
//! and of what is foreseen and fed.
//!
//! The examples are about definitions of `urb_node`, `urb_world`, `urb_group`, `urb_stubborn`,
//! `urb_foresight` and `urb_feed`. Each row is true or false of a small group, list or store.
//!
//! No program calls these functions. A wrong definition makes one of their clauses false, and then
//! the prover refuses it.
#![tactic(auto)]

pub mod worked;
