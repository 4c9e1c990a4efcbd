//! Release by sequence number: a name joins the log once it and all lower ones are certified.
//!
//! This is broadcast with sequence number, section 3.9 of the textbook (Cachin, Guerraoui and
//! Rodrigues 2011). The lower names are those of the same sender.
//!
//! ```text
//! fifo.reserve(name)?;
//! let released = fifo.certify(name)?;                    // how many names joined the log
//! let log = fifo.log();
//! ```
//!
//! A log only grows, and only at its end.
#![tactic(auto)]

mod fifo;

pub use fifo::Fifo;
