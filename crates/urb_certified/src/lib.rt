//! Certified names: for each sender the number up to which they have no gap, and the names above
//! it.
//!
//! ```text
//! certified.make_room()?;
//! certified.add(name)?;                                  // doesn't fail once space is reserved
//! let there = certified.has(name);
//! let reach = certified.reach(sender);                   // this sender's numbers 1 to reach are all certified
//! ```
//!
//! Its cost grows with the number of names above a gap, not with those below. Only `clear` removes
//! names.
#![tactic(auto)]

mod certified;
mod parts;
mod row;

pub use certified::Certified;
