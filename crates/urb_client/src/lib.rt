//! The protocol between clients and a node.
//!
//! Requests and responses are frames of bytes. A session is the loop that serves one connection.
//!
//! ```text
//! // The node's side.
//! let ended = session(alloc, &mut reader, &mut writer, &mut desk)?;
//!
//! // The client's side.
//! let frame = encode_request(alloc, &request)?;
//! let response = parse_response(alloc, &bytes)?;
//! ```
//!
//! A `Desk` answers the requests. `NodeDesk` of `urb_desk` is the desk of a running node. A
//! session runs over the input and the output of a connection (`reader`, `writer`). It reads a
//! frame, asks the desk, writes the response and flushes it. Then it reads the next frame. It sends
//! one response for each frame and nothing else, and holds at most one frame and its response in
//! memory. It ends when the client closes the connection, after bytes that are no frame, or at a
//! fault.
//!
//! `BufferedAnswers` is for code that answers frames or lines: it sends the answers together, and
//! before a read that may wait.
//!
//! `one_reading` and `one_page_after_another` are laws: functions that do nothing, and whose
//! contracts are proved statements.
#![tactic(auto)]

mod buffered_answers;
mod format;
mod frame_write;
mod full_read;
mod pages;
mod request;
mod response;
mod response_parser;
mod response_receiver;
mod sessions;

pub use buffered_answers::{BufferedAnswers, BufferedWriter, FlushingInput};
pub use format::{MOST_ENTRIES, UNKNOWN_OPCODE};
pub use frame_write::{WriteFailed, write_frame};
pub use full_read::{ReadFailed, read_byte};
pub use pages::one_page_after_another;
pub use request::{Control, Request, encode_request, parse_request};
pub use response::{Entries, NodeState, Response, encode_response};
pub use response_parser::parse_response;
pub use response_receiver::{ResponseFault, read_response};
pub use sessions::{
    Desk, Ended, MOST_FRAMES, SessionEnd, SessionFault, one_reading, serve_session, session,
};
