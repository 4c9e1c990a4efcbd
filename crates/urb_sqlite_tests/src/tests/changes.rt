//! Rows that SQL has changed: which of them are records, and which one a refusal names.

use super::steps::{Case, Start, Step};
use urb_stable::StoreFault;

/// What SQL did to the rows of a journal with two records, and which row is no longer a record.
pub static BAD: [Case; 20] = [
    (
        "",
        Start::Stored,
        "DELETE FROM journal2 WHERE pos = 1",
        &[Step::Adopt(Err(StoreFault::BadRow(1)))],
    ),
    (
        "",
        Start::Stored,
        "UPDATE journal2 SET pos = 0 WHERE pos = 1",
        &[Step::Adopt(Err(StoreFault::BadRow(1)))],
    ),
    (
        "",
        Start::Stored,
        "UPDATE journal2 SET pos = 3 WHERE pos = 2",
        &[Step::Adopt(Err(StoreFault::BadRow(2)))],
    ),
    (
        "",
        Start::Stored,
        "UPDATE journal2 SET kind = 4 WHERE pos = 2",
        &[Step::Adopt(Err(StoreFault::BadRow(2)))],
    ),
    (
        "",
        Start::Stored,
        "UPDATE journal2 SET kind = 0 WHERE pos = 1",
        &[Step::Adopt(Err(StoreFault::BadRow(1)))],
    ),
    (
        "",
        Start::Stored,
        "UPDATE journal2 SET kind = 3 WHERE pos = 1",
        &[Step::Adopt(Err(StoreFault::BadRow(1)))],
    ),
    (
        "",
        Start::Stored,
        "UPDATE journal2 SET kind = 1 WHERE pos = 2",
        &[Step::Adopt(Err(StoreFault::BadRow(2)))],
    ),
    (
        "",
        Start::Stored,
        "UPDATE journal2 SET kind = 2 WHERE pos = 2",
        &[Step::Adopt(Err(StoreFault::BadRow(2)))],
    ),
    (
        "",
        Start::Stored,
        "UPDATE journal2 SET payload = x'61' WHERE pos = 2",
        &[Step::Adopt(Err(StoreFault::BadRow(2)))],
    ),
    (
        "",
        Start::Stored,
        "UPDATE journal2 SET client = 7 WHERE pos = 2",
        &[Step::Adopt(Err(StoreFault::BadRow(2)))],
    ),
    (
        "",
        Start::Stored,
        "UPDATE journal2 SET number = 1 WHERE pos = 2",
        &[Step::Adopt(Err(StoreFault::BadRow(2)))],
    ),
    (
        "",
        Start::Stored,
        "UPDATE journal2 SET sender = 0",
        &[Step::Adopt(Err(StoreFault::BadRow(1)))],
    ),
    (
        "",
        Start::Stored,
        "UPDATE journal2 SET sender = 8 WHERE pos = 2",
        &[Step::Adopt(Err(StoreFault::BadRow(2)))],
    ),
    (
        "",
        Start::Stored,
        "UPDATE journal2 SET seq = 0 WHERE pos = 1",
        &[Step::Adopt(Err(StoreFault::BadRow(1)))],
    ),
    (
        "",
        Start::Stored,
        "UPDATE journal2 SET seq = 4294967296 WHERE pos = 1",
        &[Step::Adopt(Err(StoreFault::BadRow(1)))],
    ),
    (
        "",
        Start::Stored,
        "UPDATE journal2 SET client = 0 WHERE pos = 1",
        &[Step::Adopt(Err(StoreFault::BadRow(1)))],
    ),
    (
        "",
        Start::Stored,
        "UPDATE journal2 SET client = -1 WHERE pos = 1",
        &[Step::Adopt(Err(StoreFault::BadRow(1)))],
    ),
    (
        "",
        Start::Stored,
        "UPDATE journal2 SET client = 65536 WHERE pos = 1",
        &[Step::Adopt(Err(StoreFault::BadRow(1)))],
    ),
    (
        "",
        Start::Stored,
        "UPDATE journal2 SET number = 0 WHERE pos = 1",
        &[Step::Adopt(Err(StoreFault::BadRow(1)))],
    ),
    (
        "",
        Start::Stored,
        "UPDATE journal2 SET number = 4294967296 WHERE pos = 1",
        &[Step::Adopt(Err(StoreFault::BadRow(1)))],
    ),
];

/// What SQL did to the rows if they are still records, and the next position after it.
pub static GOOD: [Case; 5] = [
    (
        "",
        Start::Stored,
        "DELETE FROM journal2 WHERE pos = 2",
        &[Step::Adopt(Ok(2))],
    ),
    (
        "",
        Start::Stored,
        "DELETE FROM journal2",
        &[Step::Adopt(Ok(1))],
    ),
    (
        "",
        Start::Stored,
        "UPDATE journal2 SET sender = 7, seq = 4294967295",
        &[Step::Adopt(Ok(3))],
    ),
    (
        "",
        Start::Stored,
        "UPDATE journal2 SET client = 65535, number = 4294967295 WHERE pos = 1",
        &[Step::Adopt(Ok(3))],
    ),
    (
        "",
        Start::Stored,
        "UPDATE journal2 SET kind = 2, payload = x'' WHERE pos = 1",
        &[Step::Adopt(Ok(3))],
    ),
];

/// The same for a journal with rows in both tables. Places are counted over both.
pub static OVER_BOTH: [Case; 6] = [
    (
        "",
        Start::Both,
        "UPDATE journal2 SET pos = 4",
        &[Step::Adopt(Err(StoreFault::BadRow(3)))],
    ),
    (
        "",
        Start::Both,
        "UPDATE journal2 SET kind = 4",
        &[Step::Adopt(Err(StoreFault::BadRow(3)))],
    ),
    (
        "",
        Start::Both,
        "UPDATE journal2 SET pos = 1",
        &[Step::Adopt(Err(StoreFault::BadRow(3)))],
    ),
    (
        "",
        Start::Both,
        "UPDATE journal SET kind = 4 WHERE pos = 2",
        &[Step::Adopt(Err(StoreFault::BadRow(2)))],
    ),
    (
        "",
        Start::Both,
        "DELETE FROM journal WHERE pos = 2",
        &[Step::Adopt(Err(StoreFault::BadRow(2)))],
    ),
    (
        "",
        Start::Both,
        "DELETE FROM journal2",
        &[Step::Adopt(Ok(3))],
    ),
];
