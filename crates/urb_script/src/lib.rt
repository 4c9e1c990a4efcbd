//! Scripts: lines of commands in, answer lines out, over a cluster whose stores are in memory.
//!
//! ```text
//! let ended = run(alloc, &mut reader, &mut writer)?;     // Whole, or BadLine with its number
//! ```
//!
//! The bytes written are a stated function of the bytes read (`specs/Steps.antt`), as long as no
//! store is refused memory. Each answer is written whole and flushed before the next line is read.
//! The crate opens no file and knows no socket.
#![tactic(auto)]

mod answer_words;
mod commands;
mod hex;
mod input;
mod mem_cluster;
mod reply_lines;
mod runs;
mod words;

pub use runs::{RunEnd, RunFault, run};
