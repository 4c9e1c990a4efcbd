//! Packets, frames and small sets of names, each with what is so of it.
#![tactic(auto, unfolding(urb_names::specs::PacketGrammar::judged))]

pub mod certified_names;
pub mod client_pages;
pub mod client_requests;
pub mod client_responses;
pub mod client_sessions;
pub mod counted_acks;
pub mod fault_reports;
pub mod name_releases;
pub mod name_windows;
pub mod node_marks;
pub mod packet_bytes;
pub mod packet_rules;
pub mod pending_sets;
pub mod rising_names;
pub mod session_breaks;
