//! Worked examples of the definitions: turns, stores, loans and desks, and what none of them can be.

pub mod kept_tails;
pub mod killed_batches;
pub mod node_stores;
pub mod stages;
pub mod turn_ends;
pub mod turns;
pub mod whole_turns;
