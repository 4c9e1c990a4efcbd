//! Stores with a few records, each with what is so of it.
#![tactic(auto)]

pub mod ahead_views;
pub mod answers;
pub mod fuses;
pub mod given_records;
pub mod kept_drafts;
pub mod kept_tails;
pub mod memory_stores;
pub mod records_ahead;
