//! What a failed write to memory says.

use std::alloc::AllocError;
use std::io;
use urb_names::NoMemory;

/// The refused allocation behind a failed write to memory. Memory is all that such a write can lack.
pub(crate) fn refused_write(_: io::Error) -> NoMemory {
    NoMemory::from(AllocError)
}
