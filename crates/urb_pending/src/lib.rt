//! A node's pending messages.
//!
//! They are `pending` of logged uniform reliable broadcast (Cachin, Guerraoui and Rodrigues 2011,
//! section 3.7).
//!
//! ```text
//! pending.reserve(name, client)?;                        // before the pair is stored
//! pending.add(name, message)?;                           // after it is stored; allocates nothing after a reserve
//! pending.message(name);                                 // Some(&message)
//! pending.find(client, number);                          // the name that answers a repeated submit
//! pending.client_next(client);                           // the number that the client must use next
//! pending.after(cursor);                                 // the next name in cyclic order
//! ```
//!
//! Messages are never removed. The crate doesn't see records: its caller has stored each pair
//! before adding it.
#![tactic(auto)]

mod clients;
mod pending;
mod row;

pub use pending::Pending;
