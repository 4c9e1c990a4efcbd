//! Lines and answers of scripts, and lines of commands, each with what is so of it.
#![tactic(auto, unfolding(urb_world::specs::Step::step, urb_cli::specs::EntryForms::json_head))]

pub mod answer_texts;
pub mod command_calls;
pub mod command_statuses;
pub mod command_texts;
pub mod follower_lines;
pub mod option_words;
pub mod publisher_lines;
pub mod script_claims;
pub mod script_commands;
pub mod script_ends;
pub mod script_lines;
pub mod script_scenes;
pub mod session_claims;
