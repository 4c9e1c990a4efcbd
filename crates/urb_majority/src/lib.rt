//! Acknowledgements and certificates: which nodes hold a message, and which ones a majority holds.
//!
//! ```text
//! acks.reserve(name)?;                                   // space for a name's acknowledgements and its certificate
//! match acks.note(name, node)? {
//!     Noted::Reached => { /* store the certificate, then: acks.certify(name)?; */ }
//!     Noted::Counted | Noted::Again => {}
//! }
//! acks.forget();                                         // a crash: certificates stay, because they are stored
//! ```
//!
//! The crate certifies nothing by itself. It reports that a majority was reached; only a stored
//! certificate counts.
#![tactic(auto)]

mod acks;

pub use acks::{Acks, Noted};
