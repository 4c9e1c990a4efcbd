//! One journal for each node: a SQLite database with a row for each stored record.
//!
//! It is a `Stable` of `urb_stable`.
//!
//! ```text
//! let journal = open_node::<D>(rt, path, claim)?;       // makes absent tables, and reads all rows
//! let receipt = draft.keep(&mut journal)?;              // one INSERT, one commit, one sync
//! let batch = store_ahead(node, pos, records, &mut journal)?; // an INSERT each, one commit, one sync
//! close_node(rt, path, journal)?;                       // one file is left
//! ```
//!
//! `open_nodes` and `close_nodes` do this for all nodes of a group, `open_node_in` and
//! `close_node_in` for one node. `adopt` takes over a connection. `stop_and_open` carries the
//! theorem from a stop inside any call to the next opening. A stored row is never changed or
//! removed.
#![tactic(auto)]

mod claims;
mod counting;
mod journal;
mod journal_close;
mod journal_open;
mod journal_stop;
pub mod laws;
mod message_pool;
mod new_file;
mod node_file;
mod node_journals;
mod records;
mod rows;
mod sql;
mod table_shape;
mod withdrawing;

pub use claims::{FolderClaim, Named, NodeClaim, NodeClaims, Opening};
pub use journal::SqlStable;
pub use journal_close::Copied;
pub use message_pool::MessagePool;
pub use node_file::{Contents, NodeDisk, NodeFile, Unnamed};
pub use node_journals::{
    NodeJournal, close_node, close_node_in, close_nodes, open_node, open_node_in, open_nodes,
};
