//! Worked examples of stores that hold records ahead of their events.
//!
//! A store may hold a tail behind the records that the group has counted as stored. The examples say
//! which nodes and worlds its node may stand for (`StoresAhead` of `urb_world`), and what a stop
//! leaves of it (`StoreContents` of `urb_group`). Each row is true or false of small lists of records.
//!
//! No program calls these functions. A wrong definition makes one of their clauses false, and then
//! the prover refuses it.
#![tactic(auto)]

pub mod worked;
