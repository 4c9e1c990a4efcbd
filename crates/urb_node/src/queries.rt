//! Queries about a node's stored records, in every state; held or doubtful records don't count.

mod down;
mod ready;
mod storing;
