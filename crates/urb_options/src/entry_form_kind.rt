//! The forms of an entry on the output of `follow`.

/// How `follow` prints an entry.
#[derive(Clone, Copy, Debug, PartialEq, Eq)]
pub enum EntryForm {
    /// As `read` does. The payload is text if it is UTF-8 without control characters, else
    /// hexadecimal, and the word `text` or `hex` before it says which.
    Text,
    /// As `read` does: the payload in hexadecimal.
    Hex,
    /// An object of JSON, on a line of its own.
    Json,
}
