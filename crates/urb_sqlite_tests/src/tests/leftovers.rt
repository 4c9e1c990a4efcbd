//! What is at the place of a node's files before they are opened, byte by byte or made by SQL.

use sqlite::Connection;
use std::alloc::Global;
use std::fs;
use std::rt::HostRuntime;

/// The database file of node 1, in the folder of these tests, and its log.
pub const FILE: &str = "urb_sqlite_first/node-1.db";

const LOG: &str = "urb_sqlite_first/node-1.db-wal";

/// The bytes of a file that are not zero, their offsets, and the file's length.
#[derive(Clone, Copy)]
pub struct Content {
    pub parts: &'static [(usize, &'static [u8])],
    pub len: usize,
}

pub const NONE: Content = Content { parts: &[], len: 0 };

/// The header of a log that a first start writes before the first page, for pages of 1,024 bytes.
pub const BEGUN: Content = Content {
    parts: &[(
        0,
        b"7\x7f\x06\x82\x00-\xe2\x18\x00\x00\x04\x00\xff\xff\xff\xff\x00\x00\x00\x00\x00\x00\x00\x00\
\xd4\xcf\x03\x12\x8c\xaa\xda\xb6",
    )],
    len: 32,
};

/// The same for pages of 4,096 bytes, as an older program wrote it.
pub const BEGUN_BEFORE: Content = Content {
    parts: &[(
        0,
        b"7\x7f\x06\x82\x00-\xe2\x18\x00\x00\x10\x00\xff\xff\xff\xff\x00\x00\x00\x00\x00\x00\x00\x00\
\xd4\xe7\x03\x12\x8c\xce\xda\xb6",
    )],
    len: 32,
};

/// The first page of a database without a table yet, except for its first byte, which is written
/// last.
pub const PAGE: Content = Content {
    parts: &[
        (1, b"QLite format 3\x00\x04\x00\x02\x02\x00@  "),
        (31, b"\x01"),
        (43, b"\x01\x00\x00\x00\x04"),
        (59, b"\x01"),
        (97, b".v\x88\x0d\x00\x00\x00\x00\x04\x00"),
    ],
    len: 1024,
};

/// The same page, complete: a database without a table.
pub const EMPTY: Content = Content {
    parts: &[
        (0, b"SQLite format 3\x00\x04\x00\x02\x02\x00@  "),
        (31, b"\x01"),
        (43, b"\x01\x00\x00\x00\x04"),
        (59, b"\x01"),
        (97, b".v\x88\x0d\x00\x00\x00\x00\x04\x00"),
    ],
    len: 1024,
};

/// The first page that an older program made, except for its first byte.
pub const PAGE_BEFORE: Content = Content {
    parts: &[
        (1, b"QLite format 3\x00\x10\x00\x02\x02\x00@  "),
        (31, b"\x01"),
        (43, b"\x01\x00\x00\x00\x04"),
        (59, b"\x01"),
        (97, b".v\x88\x0d\x00\x00\x00\x00\x10\x00"),
    ],
    len: 4096,
};

/// What is at the place of a node's files before it is opened.
#[derive(Clone, Copy)]
pub enum Left {
    /// The database file and its log hold these bytes.
    Files(Content, Content),
    /// There is only a log, with these bytes.
    Log(Content),
    /// A database with pages of 4,096 bytes, which SQL has made.
    Sql(&'static str),
}

// The bytes of a file.
fn bytes_of(alloc: Global, content: Content) -> Option<Vec<u8>> {
    let mut bytes = Vec::new(alloc);
    for (at, part) in content.parts {
        bytes.resize(*at, 0).ok()?;
        bytes.extend_from_slice(part).ok()?;
    }
    bytes.resize(content.len, 0).ok()?;
    Some(bytes)
}

// Writes a file of these bytes, and says whether that worked.
fn is_written(rt: &HostRuntime, path: &str, content: Content) -> bool {
    match bytes_of(rt.alloc(), content) {
        Some(bytes) => fs::write(rt, path, bytes.as_slice()).is_ok(),
        None => false,
    }
}

/// Makes a database there by SQL, and says whether that worked.
pub fn is_made(rt: &HostRuntime, sql: &str) -> bool {
    let Ok(mut conn) = Connection::open(rt, FILE) else {
        return false;
    };
    let is_done = conn.execute_batch(sql).is_ok();
    is_done && conn.close().is_ok()
}

/// Puts in place what the case says, and says whether that worked.
pub fn is_left(rt: &HostRuntime, left: Left) -> bool {
    match left {
        Left::Files(file, log) => is_written(rt, FILE, file) && is_written(rt, LOG, log),
        Left::Log(log) => is_written(rt, LOG, log),
        Left::Sql(sql) => is_made(rt, sql),
    }
}
