//! What waits at a node, what its store holds for it, and what its turns leave.
#![tactic(auto, unfolding(urb_world::specs::Step::step, urb_world::specs::Step::run))]

pub mod feeds_of_nodes;
pub mod held_records;
pub mod turns_and_jobs;
