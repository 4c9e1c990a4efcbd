//! What the calls that wait at a node will draft, before any of them runs.
//!
//! While a node's store syncs, requests and datagrams wait. If it is known which records they will
//! draft, the store can keep all of these by the next sync:
//!
//! ```text
//! let call = WaitingCall::Submit { client, number, payload: &payload };
//! let (foresight, refused) = foresee_calls(&group, alloc, node, &[call, ..]);
//! let records = foresight.into_records();                // for `store_ahead` of `urb_stable`
//! ```
//!
//! It foresees each call by `foresee`:
//!
//! ```text
//! match foresee(&group, alloc, node, &mut foresight, &call)? {
//!     Foreseen::Draft => ..,                             // a record was put behind the others
//!     Foreseen::NoDraft => ..,                           // the call drafts nothing
//!     Foreseen::Unsure => ..,                            // the batch ends before this call
//! }
//! ```
//!
//! A prediction is exact if the calls run in this order, and nothing else happens at the node. Other
//! nodes may store more meanwhile: no prediction rests on what a node has yet to store. So a packet
//! whose source hasn't stored what the packet says is `Unsure`.
//!
//! If a prediction fails, nothing false follows. The store that holds the records ahead compares each
//! record that it is to store with the first one ahead. But if they differ, the node goes down.
//!
//! Nothing here changes a group, stores a record, or waits. No payload is copied.
#![tactic(auto)]

mod foreseen;
mod foresight;
mod predictions;
mod taken_packets;
mod waiting_call;
pub mod worked;

pub use foreseen::Foreseen;
pub use foresight::{Foresight, MAX_BATCH};
pub use predictions::{foresee, foresee_calls};
pub use waiting_call::WaitingCall;
