//! Values stored under names, with fast look-ups however long the history is.
//!
//! For each sender, one vector holds the values of its numbers 1, 2, 3, .. up to the first gap. A
//! queue holds the values above the gap.
//!
//! ```text
//! let mut windows = Windows::new(alloc);
//! windows.reserve(name)?;                 // the only call here that may fail to allocate
//! windows.insert(name, value)?;           // allocates nothing, and closes a gap if this number was missing
//! windows.get(name);                      // Some(&value)
//! windows.low(name.sender);               // how far the sender's numbers go from 1 on without a gap
//! windows.window(name.sender);            // their values, borrowed in place
//! ```
#![tactic(auto)]

mod marks;
mod mask;
mod rows;
mod upper;
mod window;
mod windows;

pub use marks::Marks;
pub use windows::Windows;
