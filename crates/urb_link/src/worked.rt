//! Worked examples of the definitions: what links do with packets, and what backlogs hold.

pub mod links;
