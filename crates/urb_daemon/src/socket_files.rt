//! The files of a group's Unix sockets: how they are made at their places, and removed.

ghost use Rattle.std.specs.Prelude.{◌≡◌, ◌<◌, ◌⊎◌, IfOk, IsErrAnd, length};
ghost use Rattle.std.specs.String.{string_bytes};
ghost use Rattle.urb_daemon.specs.SocketFiles.{socket_path};
ghost use Rattle.urb_daemon.specs.declared.socket_fault.SocketCause.TheVariants.{NoMemory};
ghost use Rattle.urb_daemon.specs.declared.socket_fault.SocketCause.TheVariants.{PathTooLong};

use crate::socket_fault::{SocketCause, judge_making, judge_probe};
use std::alloc::{AllocError, Global};
use std::fs::Permissions;
use std::io::ErrorKind;
use std::net::Net;
use std::os::unix::fs::{FileTypeExt, PermissionsExt};
use std::os::unix::net::{UnixListener, UnixStream};
use std::rt::Files;
use std::{fs, io};
use urb_options::SocketOptions;

/// The longest path of a Unix socket, in bytes: the system keeps 108, and the last one is zero.
pub const MAX_SOCKET_PATH: usize = 107;

/// The path of a node's socket in this folder.
pub fn make_socket_path(alloc: Global, dir: &str, node: u8) -> Result<String, AllocError>
    ensures { IfOk result (λ path. string_bytes path ≡ socket_path dir.now node) }
{
    format!(in alloc; "{dir}/node-{node}.sock")
}

// Whether a file stands at this path, of any kind. A fault: it is no socket, or the system doesn't
// say what it is.
fn find_socket<R: Files>(rt: &R, path: &str) -> Result<bool, SocketCause> {
    match fs::symlink_metadata(rt, path) {
        Ok(found) if found.file_type().is_socket() => Ok(true),
        Ok(_) => Err(SocketCause::NotASocket),
        Err(error) if error.kind() == ErrorKind::NotFound => Ok(false),
        Err(error) => Err(judge_making(error.kind())),
    }
}

// Makes the place at this path free: it removes a socket whose program has ended. It removes
// nothing else.
fn clear_place<R: Files + Net>(rt: &R, path: &str) -> Result<(), SocketCause> {
    if !find_socket(rt, path)? {
        return Ok(());
    }
    let error = UnixStream::connect(rt, path).err();
    if let Some(cause) = judge_probe(error.map(|error| error.kind())) {
        return Err(cause);
    }
    remove_socket(rt, path).map_err(|error| judge_making(error.kind()))
}

// Removes the socket at this path. No other function here removes a file.
fn remove_socket<R: Files>(rt: &R, path: &str) -> io::Result<()> {
    fs::remove_file(rt, path)
}

// Gives a new socket's file its mode, and closes the connections that were made before: until then
// more people might connect. It waits for nobody.
fn restrict_socket<R: Files>(
    rt: &R,
    listener: &UnixListener,
    path: &str,
    mode: u16,
) -> io::Result<()> {
    fs::set_permissions(rt, path, Permissions::from_mode(u32::from(mode)))?;
    listener.set_nonblocking(true)?;
    for _ in 0..u32::MAX {
        match listener.accept() {
            Ok(_) => {}
            Err(error) if error.kind() == ErrorKind::WouldBlock => break,
            Err(error) => return Err(error),
        }
    }
    listener.set_nonblocking(false)
}

// Makes a socket at this path, whose place is free, with this mode.
fn make_socket<R: Files + Net>(rt: &R, path: &str, mode: u16) -> Result<UnixListener, SocketCause> {
    let listener = match UnixListener::bind(rt, path) {
        Ok(listener) => listener,
        Err(error) => return Err(judge_making(error.kind())),
    };
    match restrict_socket(rt, &listener, path, mode) {
        Ok(()) => Ok(listener),
        Err(error) => {
            let _ = remove_socket(rt, path);
            Err(judge_making(error.kind()))
        }
    }
}

/// Makes the Unix socket of a node in its folder, which takes clients from then on. Only those who
/// may write its file by its mode get a session. A socket that an ended program left is replaced.
/// After a fault no file was made, and none was removed but such a socket.
pub fn open_socket<R: Files + Net>(
    rt: &R,
    alloc: Global,
    sockets: SocketOptions<'_>,
    node: u8,
) -> Result<UnixListener, SocketCause>
    // A path that is too long is a fault before anything is made.
    ensures long { MAX_SOCKET_PATH < length (socket_path sockets.entry.dir.now node)
        → IsErrAnd result (λ cause. (cause ≡ PathTooLong) ⊎ (cause ≡ NoMemory)) }
{
    let path = make_socket_path(alloc, sockets.dir, node)?;
    let path = path.as_str();
    if MAX_SOCKET_PATH < path.len() {
        return Err(SocketCause::PathTooLong);
    }
    clear_place(rt, path)?;
    make_socket(rt, path, sockets.mode)
}

/// Removes the sockets of this many nodes from their folder, and no other file. Call it while they
/// are open, so that no other program has taken their places. A socket that can't be removed stays,
/// and one for whose path memory is refused: the next start replaces it.
pub fn remove_sockets<R: Files>(rt: &R, alloc: Global, sockets: SocketOptions<'_>, nodes: u8) {
    for place in 0..nodes {
        if let Ok(path) = make_socket_path(alloc, sockets.dir, place + 1)
            && matches!(find_socket(rt, path.as_str()), Ok(true))
        {
            let _ = remove_socket(rt, path.as_str());
        }
    }
}
