//! Nodes, worlds and stores that hold a few records ahead, each with what is so of it.
#![tactic(auto, unfolding(urb_world::specs::Step::step, urb_world::specs::Step::run))]

pub mod stops;
pub mod stored_tails;
pub mod stores_ahead;
pub mod surviving_tails;
pub mod worlds_as_stored;
