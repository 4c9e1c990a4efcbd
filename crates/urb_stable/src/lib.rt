//! A node's stable storage: records, drafts, receipts and doubts.
//!
//! Sections 2.2 and 3.7 of the textbook describe it (Cachin, Guerraoui and Rodrigues 2011). A
//! record says that a message is pending, that it is certified, or both at once. A `Draft` is a
//! record that isn't stored yet. Only a store that kept the record turns it into a `Receipt`:
//!
//! ```text
//! match draft.keep(&mut store) {
//!     Ok(receipt) => ..,                                 // the record is stored for good
//!     Err(doubt) => ..,                                  // it may be stored or not: the node goes down and retrieves
//! }
//! let image = store.retrieve(alloc)?;                    // everything that it holds; no doubt is left
//! let images = Images::new(alloc, &images)?;             // the images of all nodes
//! let misfit = images.first_misfit(config);              // `None` if they fit together
//! ```
//!
//! Records that a node will draft one after the other may also be stored together, before it drafts
//! them. One sync then serves them all:
//!
//! ```text
//! let mut batch = store_ahead(node, pos, records, &mut store)?; // all of them are stored, or none
//! match draft.claim(&mut batch) {
//!     Ok(receipt) => ..,                                 // the draft was the batch's next record
//!     Err(draft) => ..,                                  // it was another one
//! }
//! ```
//!
//! An `AheadStore` does the same inside a store. Whoever stores the records later needs no batch:
//!
//! ```text
//! let mut store = AheadStore::new(alloc, store);         // over any other store
//! store.store_ahead(&mut records)?;                      // all of them are stored, or none
//! draft.keep(&mut store)                                 // the first record ahead is stored already
//! ```
//!
//! `Stable` is the contract of every storage. `MemStable` is a storage in memory, which can be
//! armed to fail. Nothing changes a stored record. Only `Stable::withdraw` removes records: those
//! that an `AheadStore` holds ahead, if its node drafts another one. No client knows of them.
#![tactic(auto)]

mod ahead_calls;
mod ahead_store;
mod doubt;
mod draft;
mod earlier_records;
mod fitting;
mod image;
mod index;
mod memory;
mod receipt;
mod record;
mod record_queue;
mod stable;
mod stored_batch;

pub use ahead_store::AheadStore;
pub use doubt::Doubt;
pub use draft::Draft;
pub use fitting::{Images, Misfit};
pub use index::Index;
pub use memory::{Failure, MemStable};
pub use receipt::Receipt;
pub use record::{Record, recall_records};
pub use stable::{Stable, StoreFault};
pub use stored_batch::{StoredBatch, store_ahead};
