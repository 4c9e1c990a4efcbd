//! One node of a group, as a machine of three typed states that its calls move between.
//!
//! It implements logged majority-acknowledgement uniform reliable broadcast with sequence numbers.
//!
//! ```text
//! let ready = Ready::new(alloc, config, node)?;
//! match ready.submit(alloc, client, number, payload)? {  // or arrive(alloc, packet, known)
//!     Step::Same(ready, answer) => ..,                   // nothing has to be stored
//!     Step::Store(storing, draft) => ..,                 // the caller's store must keep the draft first
//! }
//! let receipt = draft.keep(&mut store)?;
//! let (ready, done) = storing.confirm(receipt)?;         // it is stored: packets, and how many names were released
//! let down = storing.fail();                             // or the store failed
//! let ready = down.restart(alloc, image)?;               // from what the store holds
//! ```
//!
//! A node that is storing takes no other event, and a node that is down takes only a restart: the
//! types have no such call. A refused call returns the node as it was. The node never touches a
//! store, a socket or a clock.
#![tactic(auto)]

mod answer;
mod call_outcomes;
mod cause;
mod down;
mod heard_certificates;
mod held;
mod image_pairs;
mod image_verdict;
pub mod laws;
mod opening;
mod queries;
mod ready;
mod step;
mod storing;

pub use answer::Answer;
pub use down::Down;
pub use ready::Ready;
pub use step::{Done, Step};
pub use storing::Storing;
