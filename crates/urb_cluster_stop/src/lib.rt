//! A stop of the machine under a whole cluster over journals, and the opening after it.
//!
//! It proves what a restart of the machine means: the new cluster goes on from the world that the
//! old one showed, as far as the disks have returned what was written.
//!
//! ```text
//! let cluster = stop_and_reopen(alloc, cluster, config, options)?;      // between two commands
//! let (reply, again) = apply_and_stop(alloc, cluster, &command, config, options);
//! let cluster = stop_and_open_all(alloc, config, journals, options)?;   // the journals alone
//! ```
//!
//! No program calls these functions, because a program can't stop its machine. Tests call them over
//! disks that stop at one of their calls.
#![tactic(auto)]

mod cluster_stop;

pub use cluster_stop::{apply_and_stop, stop_and_open_all, stop_and_reopen};
