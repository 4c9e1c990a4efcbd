//! What `urbd` does by itself: scripts, and the commands of a client.
//!
//! `run_errand` does what a command line asks for (`parse_line` of `urb_options` reads it), unless it
//! asks for a group to run, which is the daemon's part. It writes what a fault shows, and returns the
//! program's status.
//!
//! ```text
//! match parse_line(&rt, rt.alloc(), words.as_slice()) {
//!     Ok(Line::Serve(serving)) => ..,                    // run a group with these limits
//!     Ok(Line::Errand(errand)) => run_errand(&rt, errand),
//!     Err(status) => status,
//! }
//! ```
//!
//! What the program's `submit`, `read` and `status` show is a stated function of the response
//! (`specs/ClientOutput.antt`). No call opens a file, and no call starts a thread.
#![tactic(auto)]

mod client;
mod errands;
mod script;

pub use client::asker::Asker;
pub use client::call_fault::{CallFault, report_call_fault};
pub use client::caller::{Caller, TRIES};
pub use client::calls::exchange;
pub use client::follow::follow_over;
pub use client::node_stream::NoConnection;
pub use client::printed::Printed;
pub use client::publish::publish_over;
pub use client::run::{read_at, read_by, show, submit_at, submit_by};
pub use client::status::{ask_each, status_at, status_by};
pub use client::stream_end::report_stream_end;
pub use client::stream_fault::{StreamEnd, StreamFault, TextFault};
pub use client::texts::{InputLines, OneText, Texts};
pub use errands::{report_script_end, run_errand};
pub use script::replay;
