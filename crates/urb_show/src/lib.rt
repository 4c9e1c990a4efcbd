//! The logs of a group, published: readers on threads of their own read them, and never wait.
//!
//! A `House` is a group together with what it has published, in one value that a lock may hold. It
//! has each of the group's calls, with the group's promises. It adds `settle`, which publishes what
//! a node has delivered. A `LogReader` reads the published lists of all nodes without waiting for
//! anybody. So a client that reads never holds up the nodes. What it reads from two nodes never
//! contradicts itself: for each sender, what one node delivered is a prefix of what the other
//! delivered.
//!
//! How the calls go together, in a function that is generic over the house's name `K: HouseName`:
//!
//! ```text
//! let opened = House::open(group)?;                      // the group, not yet published
//! let (mut house, readers) = opened.parts::<K, R>(rt, alloc)?;   // READERS for each node
//! let taken = house.submit(alloc, node, client, number, payload)?;   // each call is one event
//! let done = house.commit(receipt)?;                     // a stored draft may release names
//! let told = house.settle(rt, node)?;                    // publishes the names
//! let moment = house.mark();                             // the place in the one history of events
//! reader.learn(told);                                    // on any thread: it reads no less then
//! let page = reader.read(alloc, node, 1, 8)?;            // its first eight entries
//! let group = house.close(rt);                           // the group again, in its present state
//! ```
//!
//! `parts` is called with std's `Brand` in place of `K`. The caller's proof then ties the name to
//! what was opened. So a `Told` that came through a channel belongs to its reader's house by its
//! type.
//!
//! The house never takes anything out of a published list. `read` and `learn` wait for nobody.
//! `settle`, `parts` and `close` may wait for a reader that is in the middle of a read.
#![tactic(auto)]

mod entry;
pub mod entry_lists;
mod group_entries;
mod history;
mod house;
mod house_events;
mod house_history;
mod house_queries;
pub mod laws;
mod moment;
mod opened_group;
mod published_lists;
mod publisher;
mod read_position;
mod reader;
pub mod service_laws;
mod status;
pub mod worked;

pub use entry::{Entry, Page};
pub use history::tokens::HouseName;
pub use house::House;
pub use moment::Moment;
pub use opened_group::{Opened, READERS};
pub use read_position::ReadPosition;
pub use reader::{LogReader, ReadFault, Told};
pub use status::Status;
