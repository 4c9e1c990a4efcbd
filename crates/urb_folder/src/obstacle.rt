//! What stands in the way of a journal that can't be opened, as the system shows it afterwards.

use os::RangeLock;
use std::fs::OpenOptions;
use std::io::ErrorKind;
use std::os::fd::AsRawFd;
use std::os::unix::fs::MetadataExt;
use std::rt::HostRuntime;
use std::{fs, io};
use thiserror::Error;

/// What stands in the way of a journal. The texts follow the path of its file.
#[derive(Clone, Copy, Debug, PartialEq, Eq, Error)]
pub enum Obstacle {
    /// The folder doesn't exist.
    #[error("the folder doesn't exist")]
    NoFolder,
    /// The folder's name is that of a file.
    #[error("the folder's name is that of a file")]
    NotAFolder,
    /// The program may not use the folder, or may not read and write the file.
    #[error("the program has no rights to it")]
    NoRights,
    /// The file doesn't exist, and couldn't be made.
    #[error("the file can't be made, for lack of rights or of room")]
    NotMade,
    /// The file's name is that of a folder or a device.
    #[error("the name is not that of a file")]
    NotAFile,
    /// The file has a second name, so somebody might use it by that.
    #[error("the file has a second name (a hard link)")]
    SecondName,
    /// Another process holds the file.
    #[error("another process holds it")]
    Held,
}

// What the system says of a name, in its error.
fn judge_error(error: &io::Error, missing: Obstacle) -> Option<Obstacle> {
    match error.kind() {
        ErrorKind::NotFound => Some(missing),
        ErrorKind::NotADirectory => Some(Obstacle::NotAFolder),
        ErrorKind::PermissionDenied | ErrorKind::ReadOnlyFilesystem => Some(Obstacle::NoRights),
        _ => None,
    }
}

// What stands in the way of a folder.
fn judge_folder(rt: &HostRuntime, dir: &str) -> Option<Obstacle> {
    match fs::metadata(rt, dir) {
        Ok(found) if found.is_dir() => None,
        Ok(_) => Some(Obstacle::NotAFolder),
        Err(error) => judge_error(&error, Obstacle::NoFolder),
    }
}

// What stands in the way of a file: its kind, its names, the program's rights or another process.
// The bytes that a journal's holder locks are those that SQLite locks.
fn judge_file(rt: &HostRuntime, path: &str) -> Option<Obstacle> {
    match fs::metadata(rt, path) {
        Ok(found) if !found.is_file() => return Some(Obstacle::NotAFile),
        Ok(found) if found.nlink() != 1 => return Some(Obstacle::SecondName),
        Ok(_) => {}
        Err(error) => return judge_error(&error, Obstacle::NotMade),
    }
    let mut options = OpenOptions::new();
    options.read(true).write(true);
    match options.open(rt, path) {
        Ok(file) => {
            if os::try_lock_range(file.as_raw_fd(), RangeLock::Exclusive, 1 << 30, 512) != 0 {
                Some(Obstacle::Held)
            } else {
                None
            }
        }
        Err(error) => judge_error(&error, Obstacle::NotMade),
    }
}

/// What stands in the way of the journal of the node with this number, after it couldn't be opened
/// (`Device`). It makes no file and changes none. `None`: nothing that the system shows, so the file
/// is no journal, or its device failed, or what was in the way is gone.
pub fn find_obstacle(rt: &HostRuntime, dir: &str, number: usize) -> Option<Obstacle> {
    if let Some(obstacle) = judge_folder(rt, dir) {
        return Some(obstacle);
    }
    let path = format!(in rt.alloc(); "{dir}/node-{number}.db").ok()?;
    judge_file(rt, path.as_str())
}
