//! What events, commands and stores do in small groups, and what they can't do.
#![tactic(auto, unfolding(urb_world::specs::Step::step, urb_world::specs::Step::run))]

pub mod cluster_events;
pub mod cluster_openings;
pub mod delivered_messages;
pub mod foreseen_calls;
pub mod foreseen_drafts;
pub mod group_calls;
pub mod group_questions;
pub mod group_stores;
pub mod kept_worlds;
pub mod needed_packets;
pub mod node_calls;
pub mod node_questions;
pub mod plan_words;
pub mod played_commands;
pub mod stored_drafts;
