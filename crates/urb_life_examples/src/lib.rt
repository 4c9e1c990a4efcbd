//! Worked examples of the life of a group over any number of starts (`Lives` of `urb_daemon`), and of
//! its runs.
//!
//! The process may be killed while stores hold records ahead of their events. Then the life goes on
//! from the world as the stores have it. The examples say which worlds it reaches in this way, and
//! which it never reaches. Others say how a run opens its group, how it ends, and what its stores
//! then hold. The rest are of a run's parts: the House, the workers, the desks, the links, and the
//! faults that the program reports.
//!
//! No program calls these functions. A wrong definition makes one of their clauses false, and then
//! the prover refuses it.
#![tactic(auto)]

pub mod worked;
