//! Lives and runs of small groups, each with what it reaches or leaves, or never does.
#![tactic(auto, unfolding(urb_world::specs::Step::step, urb_world::specs::Step::run))]

pub mod continued_runs;
pub mod daemon_faults;
pub mod desk_claims;
pub mod house_events;
pub mod link_ways;
pub mod lives;
pub mod opened_runs;
pub mod openings;
pub mod program_ends;
pub mod resumed_runs;
pub mod stopped_runs;
pub mod worker_jobs;
