//! Scripts as tables, and the scripts that several tests run.
//!
//! A row has a line of the script, and the line that answers it. `@` stands for 16,384 letters x.
//! docs/FORMATS.md explains the commands and their answers.

use std::alloc::Global;
use std::test::Fail;

/// The lines of a script, each with the line that answers it. An empty answer means that there is
/// none.
pub type Rows = &'static [(&'static str, &'static str)];

/// Returns the script of these rows.
pub fn script_of(alloc: Global, rows: &[(&str, &str)]) -> Result<Vec<u8>, Fail> {
    let mut text = Vec::new(alloc);
    for (line, _) in rows {
        text.extend_from_slice(line.as_bytes())?;
        text.push(b'\n')?;
    }
    Ok(text)
}

/// Returns the answers of these rows.
pub fn answers_of(alloc: Global, rows: &[(&str, &str)]) -> Result<Vec<u8>, Fail> {
    let mut text = Vec::new(alloc);
    for (_, answer) in rows {
        if !answer.is_empty() {
            text.extend_from_slice(answer.as_bytes())?;
            text.push(b'\n')?;
        }
    }
    Ok(text)
}

/// Payloads of the greatest length, and of one byte more.
pub const LONG_PAYLOADS: Rows = &[
    ("group 1 3", "group 1 3"),
    ("submit 1 7 1 -", "draft 1.1 at 1"),
    ("stored 1", "accepted 1.1 sent 0 released 1"),
    ("submit 1 7 2 @", "draft 1.2 at 2"),
    ("stored 1", "accepted 1.2 sent 0 released 1"),
    ("submit 1 7 3 @x", "refused toolong"),
    ("log 1", "log 1: 1.1=- 1.2=@"),
];

/// A group of one node delivers at once.
pub const ONE_NODE: Rows = &[
    ("group 1 10", "group 1 10"),
    ("submit 1 7 1 hi", "draft 1.1 at 1"),
    ("stored 1", "accepted 1.1 sent 0 released 1"),
    ("log 1", "log 1: 1.1=hi"),
];

/// A message that two of three nodes have stored is delivered by both, and by no other.
pub const MAJORITY: Rows = &[
    ("group 3 10", "group 3 10"),
    ("submit 1 7 1 a", "draft 1.1 at 1"),
    ("stored 1", "accepted 1.1 sent 2 released 0"),
    ("arrive 1 2 1 1", "draft 1.1 at 1"),
    ("stored 2", "taken 1.1 sent 2 released 1"),
    ("log 1", "log 1:"),
    ("arrive 2 1 1 1", "draft 1.1 at 2"),
    ("stored 1", "taken 1.1 sent 0 released 1"),
    ("log 1", "log 1: 1.1=a"),
    ("log 2", "log 2: 1.1=a"),
    ("log 3", "log 3:"),
];

/// Half of four nodes are no majority.
pub const HALF: Rows = &[
    ("group 4 10", "group 4 10"),
    ("submit 1 7 1 a", "draft 1.1 at 1"),
    ("stored 1", "accepted 1.1 sent 3 released 0"),
    ("arrive 1 2 1 1", "draft 1.1 at 1"),
    ("stored 2", "taken 1.1 sent 3 released 0"),
    ("arrive 1 3 1 1", "draft 1.1 at 1"),
    ("stored 3", "taken 1.1 sent 3 released 0"),
    ("arrive 2 1 1 1", "noted 1.1"),
    ("arrive 3 1 1 1", "draft 1.1 at 2"),
    ("stored 1", "taken 1.1 sent 0 released 1"),
    ("log 1", "log 1: 1.1=a"),
    ("log 2", "log 2:"),
    ("log 3", "log 3:"),
    ("log 4", "log 4:"),
];

/// A crash loses the acknowledgements.
pub const FORGOTTEN: Rows = &[
    ("group 5 10", "group 5 10"),
    ("submit 1 7 1 a", "draft 1.1 at 1"),
    ("stored 1", "accepted 1.1 sent 4 released 0"),
    ("arrive 1 2 1 1", "draft 1.1 at 1"),
    ("stored 2", "taken 1.1 sent 4 released 0"),
    ("arrive 1 3 1 1", "draft 1.1 at 1"),
    ("stored 3", "taken 1.1 sent 4 released 0"),
    ("arrive 2 1 1 1", "noted 1.1"),
    ("crash 1", "down 1"),
    ("restart 1", "up 1"),
    ("arrive 3 1 1 1", "noted 1.1"),
    ("arrive 2 1 1 1", "draft 1.1 at 2"),
    ("log 1", "log 1:"),
    ("log 2", "log 2:"),
    ("log 3", "log 3:"),
    ("log 4", "log 4:"),
    ("log 5", "log 5:"),
];

/// Each tick resends the next sixteen names that are due, in a cycle: 1 to 16, then 17 and 1 to 15.
pub const RESENT: Rows = &[
    ("group 2 20", "group 2 20"),
    ("submit 1 7 1 a", "draft 1.1 at 1"),
    ("stored 1", "accepted 1.1 sent 1 released 0"),
    ("submit 1 7 2 a", "draft 1.2 at 2"),
    ("stored 1", "accepted 1.2 sent 1 released 0"),
    ("submit 1 7 3 a", "draft 1.3 at 3"),
    ("stored 1", "accepted 1.3 sent 1 released 0"),
    ("submit 1 7 4 a", "draft 1.4 at 4"),
    ("stored 1", "accepted 1.4 sent 1 released 0"),
    ("submit 1 7 5 a", "draft 1.5 at 5"),
    ("stored 1", "accepted 1.5 sent 1 released 0"),
    ("submit 1 7 6 a", "draft 1.6 at 6"),
    ("stored 1", "accepted 1.6 sent 1 released 0"),
    ("submit 1 7 7 a", "draft 1.7 at 7"),
    ("stored 1", "accepted 1.7 sent 1 released 0"),
    ("submit 1 7 8 a", "draft 1.8 at 8"),
    ("stored 1", "accepted 1.8 sent 1 released 0"),
    ("submit 1 7 9 a", "draft 1.9 at 9"),
    ("stored 1", "accepted 1.9 sent 1 released 0"),
    ("submit 1 7 10 a", "draft 1.10 at 10"),
    ("stored 1", "accepted 1.10 sent 1 released 0"),
    ("submit 1 7 11 a", "draft 1.11 at 11"),
    ("stored 1", "accepted 1.11 sent 1 released 0"),
    ("submit 1 7 12 a", "draft 1.12 at 12"),
    ("stored 1", "accepted 1.12 sent 1 released 0"),
    ("submit 1 7 13 a", "draft 1.13 at 13"),
    ("stored 1", "accepted 1.13 sent 1 released 0"),
    ("submit 1 7 14 a", "draft 1.14 at 14"),
    ("stored 1", "accepted 1.14 sent 1 released 0"),
    ("submit 1 7 15 a", "draft 1.15 at 15"),
    ("stored 1", "accepted 1.15 sent 1 released 0"),
    ("submit 1 7 16 a", "draft 1.16 at 16"),
    ("stored 1", "accepted 1.16 sent 1 released 0"),
    ("submit 1 7 17 a", "draft 1.17 at 17"),
    ("stored 1", "accepted 1.17 sent 1 released 0"),
    (
        "tick 1",
        "sent 2:1.1 2:1.2 2:1.3 2:1.4 2:1.5 2:1.6 2:1.7 2:1.8 2:1.9 2:1.10 2:1.11 2:1.12 2:1.13 \
2:1.14 2:1.15 2:1.16",
    ),
    (
        "tick 1",
        "sent 2:1.17 2:1.1 2:1.2 2:1.3 2:1.4 2:1.5 2:1.6 2:1.7 2:1.8 2:1.9 2:1.10 2:1.11 2:1.12 \
2:1.13 2:1.14 2:1.15",
    ),
    ("tick 2", "sent"),
    ("log 1", "log 1:"),
    ("log 2", "log 2:"),
];

/// Logs survive a stop of the whole process, and a repeat is accepted.
pub const REOPENED: Rows = &[
    ("group 3 10", "group 3 10"),
    ("submit 1 7 1 a", "draft 1.1 at 1"),
    ("stored 1", "accepted 1.1 sent 2 released 0"),
    ("arrive 1 2 1 1", "draft 1.1 at 1"),
    ("stored 2", "taken 1.1 sent 2 released 1"),
    ("log 1", "log 1:"),
    ("arrive 2 1 1 1", "draft 1.1 at 2"),
    ("stored 1", "taken 1.1 sent 0 released 1"),
    ("reopen", "open"),
    ("log 1", "log 1: 1.1=a"),
    ("log 2", "log 2: 1.1=a"),
    ("submit 1 7 1 a", "accepted 1.1"),
    ("log 3", "log 3:"),
];

/// Nodes report to each other what they have certified. A tick sends a message only to the nodes
/// that haven't reported that they certified it.
pub const TOLD: Rows = &[
    ("group 3 10", "group 3 10"),
    ("submit 1 7 1 a", "draft 1.1 at 1"),
    ("stored 1", "accepted 1.1 sent 2 released 0"),
    (
        "raw 2 5542020102010100000001000700000001000161",
        "refused forged",
    ),
    (
        "raw 2 5542020102040100000001000700000001000161",
        "refused packet range",
    ),
    (
        "raw 2 554202010201010000000100070000000100",
        "refused packet short",
    ),
    ("arrive2 1 2 1 1 0", "draft 1.1 at 1"),
    ("stored 2", "taken 1.1 sent 2 released 1"),
    ("arrive 1 2 1 1", "again 1.1"),
    ("arrive2 1 2 1 1 0", "answered 1.1 to 1 flags 1"),
    ("arrive2 2 1 1 1 1", "draft 1.1 at 2"),
    ("stored 1", "taken 1.1 sent 0 released 1"),
    ("tick 1", "sent 3:1.1"),
    ("arrive2 1 2 1 1 1", "answered 1.1 to 1 flags 3"),
    ("arrive2 2 1 1 1 3", "again 1.1"),
    ("tick 2", "sent 3:1.1"),
    ("arrive2 2 3 1 1 1", "draft 1.1 at 1"),
    ("stored 3", "taken 1.1 sent 2 released 1"),
    ("tick 3", "sent 1:1.1"),
    ("crash 1", "down 1"),
    ("restart 1", "up 1"),
    ("tick 1", "sent 2:1.1 3:1.1"),
    ("log 1", "log 1: 1.1=a"),
    ("log 2", "log 2: 1.1=a"),
    ("log 3", "log 3: 1.1=a"),
];
