//! The command line of `urbd`, and the faults that end the program.
//!
//! `read_words` takes the words of the command line, and `parse_line` reads them. A line asks for a
//! group to run, or for an errand: something that the program does by itself, once. If the line is
//! refused, `parse_line` writes what the mistake shows, and returns the program's status.
//!
//! ```text
//! let words = match read_words(&rt) { Ok(words) => words, Err(status) => return status };
//! match parse_line(&rt, rt.alloc(), words.as_slice()) {
//!     Ok(Line::Serve(serving)) => ..,                    // run a group with these limits
//!     Ok(Line::Errand(errand)) => ..,                    // do this, and end
//!     Err(status) => status,
//! }
//! ```
//!
//! Each option's value is in its range (`specs/OptionRanges.antt`). No call opens a file.
#![tactic(auto)]

mod door_options;
mod door_values;
mod entry_form_kind;
mod faults;
mod grammar;
mod limits;
mod node_address;
mod parse;
mod serve_options;
mod service_options;
mod stream_grammar;
mod stream_options;
mod stream_values;
mod task;
mod values;
mod version;

pub use door_options::{DoorOptions, SocketOptions};
pub use entry_form_kind::EntryForm;
pub use faults::{FAULT, Fault, report_fault};
pub use limits::{
    CLIENT_PORT_OFFSET, MAX_BASE_PORT, MAX_CONNECTIONS, MAX_IDLE_MINUTES, MAX_SOCKET_MODE,
    MAX_TICK_MILLIS, MIN_BASE_PORT, MIN_CONNECTIONS, STANDARD_IDLE_MINUTES, STANDARD_SOCKET_MODE,
};
pub use node_address::NodeAddress;
pub use parse::{parse_line, read_words};
pub use serve_options::ServeOptions;
pub use service_options::ServiceOptions;
pub use stream_options::{FollowOptions, PublishOptions};
pub use task::{Errand, Line, ReadOptions, StatusOptions, SubmitOptions};
pub use version::VERSION;
