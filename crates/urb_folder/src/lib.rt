//! The folder of a group: opens and closes its nodes' journal files, and opens the group over them.
//!
//! ```text
//! let journals = open_journals::<D, _>(&rt, &rt, dir, 3, claim)?;      // node-1.db to node-3.db
//! let (journals, opened) = open_group(&rt, rt.alloc(), config, journals);
//! let group = opened?;                                   // goes on from before the last stop
//! ..                                                     // the journals serve the group
//! close_journals(&rt, dir, journals);                    // leaves one file of each
//! ```
//!
//! Existing journals are opened in parallel, each on a thread of its own if one can be made, or one
//! after the other if their files are long. Missing ones are made in the order of the nodes. Then
//! all journals are asked in parallel for their records. If these are what a stop of such a group
//! left, the group goes on from there. A folder with records of a node that the group doesn't have
//! is refused before any file is made.
//!
//! No proof says that a thread runs: tests show it.
#![tactic(auto)]

mod first_fault;
mod folder;
mod folder_fault;
mod foreign_journals;
mod group;
mod images;
mod journal;
mod node_journal;
mod obstacle;
mod parallel;

pub use first_fault::{Outcomes, collect_opened};
pub use folder::{close_journals, open_journals};
pub use folder_fault::FolderFault;
pub use group::open_group;
pub use journal::{FileId, Journal};
pub use obstacle::{Obstacle, find_obstacle};
pub use urb_sqlite::{FolderClaim, NodeDisk, NodeFile};
