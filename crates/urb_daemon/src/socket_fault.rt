//! Why the Unix socket of a node can't be made.

ghost use Rattle.std.specs.Prelude.{◌≡◌};
ghost use Rattle.urb_daemon.specs.SocketFaults.{cause_of, probe_says};

use std::alloc::AllocError;
use std::io::ErrorKind;
use thiserror::Error;

/// Why the Unix socket of a node can't be made, in words for a person.
#[derive(Clone, Copy, Debug, PartialEq, Eq, Error)]
pub enum SocketCause {
    /// Memory was refused.
    #[error("no memory")]
    NoMemory,
    /// The path has more than `MAX_SOCKET_PATH` bytes: take a folder with a shorter name.
    #[error("its path has more than 107 bytes")]
    PathTooLong,
    /// The folder of the sockets isn't there, or isn't a folder.
    #[error("its folder isn't there")]
    NoFolder,
    /// The program may not make files in the folder.
    #[error("the program has no rights to make it")]
    NotAllowed,
    /// A program that runs takes clients there.
    #[error("a program that runs uses it")]
    InUse,
    /// A file that is no socket has this name. It stays as it is.
    #[error("a file with this name is no socket, and stays")]
    NotASocket,
    /// A socket has this name, and the system doesn't say whether its program runs. It stays.
    #[error("the system doesn't say whether a program uses it")]
    Unclear,
    /// The system made no socket, for another reason.
    #[error("the system makes no socket there")]
    NotMade,
}

impl From<AllocError> for SocketCause {
    ghost use Rattle.std.specs.Prelude.{◌≡◌};
    ghost use Rattle.urb_daemon.specs.declared.socket_fault.SocketCause.TheVariants.{NoMemory};

    ghost from_gives = { λ _ e. e ≡ NoMemory };

    fn from(_: AllocError) -> SocketCause {
        SocketCause::NoMemory
    }
}

/// What an error of this kind says, when a socket is made.
pub fn judge_making(kind: ErrorKind) -> SocketCause
    ensures { result ≡ cause_of kind }
{
    match kind {
        ErrorKind::OutOfMemory => SocketCause::NoMemory,
        ErrorKind::NotFound | ErrorKind::NotADirectory => SocketCause::NoFolder,
        ErrorKind::PermissionDenied | ErrorKind::ReadOnlyFilesystem => SocketCause::NotAllowed,
        ErrorKind::AddrInUse | ErrorKind::AlreadyExists => SocketCause::InUse,
        _ => SocketCause::NotMade,
    }
}

/// What a connection to a socket that is there says: no error, or one of this kind. `None` if its
/// program has ended, so that the socket may be replaced. Only a refused connection says that.
pub fn judge_probe(error: Option<ErrorKind>) -> Option<SocketCause>
    ensures { result ≡ probe_says error }
{
    match error {
        None => Some(SocketCause::InUse),
        Some(ErrorKind::ConnectionRefused) => None,
        Some(ErrorKind::OutOfMemory) => Some(SocketCause::NoMemory),
        Some(_) => Some(SocketCause::Unclear),
    }
}
