//! The daemon: a group of nodes that runs on this machine, with a journal in a file for each node.
//!
//! ```text
//! // `main`, with the runtime as threads, files and streams; tests pass streams of their own
//! let claim = FolderClaim::new();
//! ExitCode::from(run_program::<NodeFile<Brand>, _, _, _, _>(rt, &rt, &rt, rt.reader(), rt, claim))
//!
//! // what `run_words` does if the words ask for a group
//! let errors = ErrorOutput::start(rt, alloc, errors)?;   // a full pipe makes nobody wait
//! let status = serve_folder(&rt, files, &mut output, input, &errors, serving, claim);
//! errors.finish();
//! ```
//!
//! `serve_folder` opens the journals by `urb_folder`, runs the group over them, and closes them. The
//! group runs until the input ends. However the run ends, the journals are closed, in their nodes'
//! order. What ends the program is a clause: from the words to the status (`run_program`), and for a
//! group also to the last line of standard output (`serve_folder`).
//!
//! No proof says that a thread runs or that a wait ends: tests show it.
#![tactic(auto)]

mod console;
mod error_output;
pub mod laws;
mod network_fault;
mod opening_fault;
mod program;
mod prompted_input;
mod reports;
mod run;
mod serve_fault;
mod socket_fault;
mod socket_files;
mod sockets;
mod stage;
mod standard_streams;
mod surroundings;
pub mod worked;

pub use console::Console;
pub use error_output::{ErrorOutput, FIRST_SECOND, LAST_WAIT, TEXT_ROOM};
pub use network_fault::{
    COMMON_DESCRIPTORS, NODE_DESCRIPTORS, NetworkFault, Port, SECOND_DOOR_DESCRIPTORS,
    count_all_descriptors, count_descriptors, fault_of_socket, judge_socket,
};
pub use opening_fault::{fault_of_folder, report_folder_fault};
pub use program::{run_program, run_words, serve_folder};
pub use prompted_input::PromptedInput;
pub use reports::Reports;
pub use run::{Host, report_end, run_ahead, run_group_at, run_journals, run_stores};
pub use serve_fault::{ServeFault, fault_of_serve, report_serve_fault};
pub use socket_fault::{SocketCause, judge_making, judge_probe};
pub use socket_files::{MAX_SOCKET_PATH, make_socket_path, open_socket, remove_sockets};
pub use sockets::{Network, open_link, open_network};
pub use stage::{ProgramStage, StageReports};
pub use standard_streams::Streams;
