//! Why the journals of a folder can't be opened.

use urb_stable::StoreFault;

/// Why the journals of a group's folder can't be opened.
#[derive(Clone, Copy, Debug, PartialEq, Eq)]
pub enum FolderFault {
    /// Memory for the list of journals was refused.
    NoMemory,
    /// The journal of the node with this number can't be opened.
    Journal(usize, StoreFault),
    /// The folder has records of the node with this number, which the group doesn't have.
    ForeignRecords(usize),
}
