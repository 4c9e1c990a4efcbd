//! The two files of a database, in memory or real. They become a connection or a journal, and come
//! back.

use super::kept::Bytes;
use sqlite::{Alter, Connection, FileStore, Files, Options};
use sqlite_disk::{Crash, Disk, Fuse, Memory};
use std::alloc::Global;
use urb_sqlite::SqlStable;

pub type Journal<D> = SqlStable<FileStore<D>>;

/// New files in memory. Each one fails after the given number of calls.
pub fn make_files(alloc: Global, log: u64, db: u64) -> Files<Fuse<Memory>> {
    Files {
        log: Fuse::new(Memory::new(alloc), log),
        db: Fuse::new(Memory::new(alloc), db),
    }
}

// A file in memory with these bytes, which fails after the given number of calls.
fn file_of(alloc: Global, bytes: &[u8], calls: u64) -> Option<Fuse<Memory>> {
    let mut file = Memory::new(alloc);
    if file.may_be_used() && file.write_at(0, bytes).is_ok() && file.sync().is_ok() {
        Some(Fuse::new(file, calls))
    } else {
        None
    }
}

/// Files with these bytes. Each one fails after the given number of calls.
pub fn files_with(
    alloc: Global,
    log: (&[u8], u64),
    db: (&[u8], u64),
) -> Option<Files<Fuse<Memory>>> {
    Some(Files {
        log: file_of(alloc, log.0, log.1)?,
        db: file_of(alloc, db.0, db.1)?,
    })
}

/// What the files hold.
pub fn bytes_of(alloc: Global, files: &Files<Fuse<Memory>>) -> Option<Bytes> {
    Some(Bytes {
        log: Vec::from_slice(alloc, files.log.inner().bytes()).ok()?,
        db: Vec::from_slice(alloc, files.db.inner().bytes()).ok()?,
    })
}

// Whether a disk has taken all the calls that it takes.
fn is_spent<D: Disk>(disk: &mut D) -> bool {
    !disk.may_be_used() || disk.len().is_err()
}

/// Whether one of the files has taken all the calls that it takes.
pub fn are_spent<D: Disk>(files: &mut Files<D>) -> bool {
    is_spent(&mut files.log) || is_spent(&mut files.db)
}

/// The machine stops: both files crash.
pub fn stop<D: Crash>(files: &mut Files<D>) {
    files.log.crash();
    files.db.crash();
}

/// A connection over these files. They are returned if they can't be used.
pub fn connect<D: Disk + Drop>(
    alloc: Global,
    files: Files<D>,
) -> Result<Connection<FileStore<D>>, Files<D>> {
    if !files.may_be_used() {
        return Err(files);
    }
    match Connection::open_files(alloc, files, Options::new(1)) {
        Ok(conn) => Ok(conn),
        Err((_error, left)) => Err(left.into_files()),
    }
}

/// The files of a connection.
pub fn files_of<D: Disk + Drop>(conn: Connection<FileStore<D>>) -> Files<D> {
    conn.into_store().close()
}

/// The journal in these files, which one call opens.
pub fn open_over<D: Disk + Drop>(alloc: Global, files: Files<D>, seed: u64) -> Option<Journal<D>> {
    if !files.may_be_used() {
        return None;
    }
    SqlStable::open_files(alloc, files, Options::new(seed)).ok()
}

// The journal over a connection, or the connection.
fn adopt<S: Alter + Drop>(
    alloc: Global,
    conn: Connection<S>,
) -> Result<SqlStable<S>, Connection<S>> {
    match SqlStable::adopt(alloc, conn) {
        Ok(journal) => Ok(journal),
        Err((conn, _fault)) => Err(conn),
    }
}

/// The journal over a connection to these files. The files are returned if no journal opens.
pub fn open_journal<D: Disk + Drop>(
    alloc: Global,
    files: Files<D>,
) -> Result<Journal<D>, Files<D>> {
    match connect(alloc, files) {
        Ok(conn) => match adopt(alloc, conn) {
            Ok(journal) => Ok(journal),
            Err(conn) => Err(files_of(conn)),
        },
        Err(files) => Err(files),
    }
}

/// The files of a journal.
pub fn leave<D: Disk + Drop>(journal: Journal<D>) -> Files<D> {
    files_of(journal.into_connection())
}
