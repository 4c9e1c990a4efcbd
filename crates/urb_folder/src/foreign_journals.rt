//! Journals of nodes that a group doesn't have. A start that would ignore their records is refused.

ghost use Rattle.std.specs.Prelude.{◌≡◌, false, IfErr, IfOk, IfSome, IsTrue};
ghost use Rattle.sqlite_disk.specs.Memory.{memory_bytes, memory_is_usable};
ghost use Rattle.urb_stable.specs.StableStorage.{is_place};
ghost use Rattle.urb_folder.specs.OpenedJournals.{IsOfOpening};
ghost use Rattle.urb_folder.specs.internal.ForeignJournals.{TellsRecords};

use crate::folder_fault::FolderFault;
use sqlite::{Files, Options};
use sqlite_disk::{Disk, Memory};
use std::alloc::Global;
use std::fs;
use std::io::ErrorKind;
use std::rt::HostRuntime;
use urb_names::NodeId;
use urb_sqlite::SqlStable;
use urb_stable::{Stable, StoreFault};

// A file in memory with these bytes.
fn copy_to_memory(alloc: Global, bytes: &[u8]) -> Result<Memory, StoreFault>
    ensures bytes { IfOk result (λ file. memory_bytes file ≡ bytes.now) }
    ensures usable { IfOk result (λ file. IsTrue (memory_is_usable file)) }
    ensures fault { IfErr result (λ fault. fault ≡ StoreFault.NoMemory) }
{
    let mut file = Memory::new(alloc);
    match file.write_at(0, bytes) {
        Ok(()) => Ok(file),
        Err(_) => Err(StoreFault::NoMemory),
    }
}

// Whether a journal whose log and database file have these bytes has records. It is opened in
// memory, as a start opens a journal.
fn has_records(alloc: Global, log: &[u8], db: &[u8]) -> Result<bool, StoreFault>
    ensures tells { IfOk result (TellsRecords log.now db.now) }
    ensures fault { IfErr result (λ fault. is_place fault ≡ false) }
{
    let files = Files {
        log: copy_to_memory(alloc, log)?,
        db: copy_to_memory(alloc, db)?,
    };
    let journal = SqlStable::open_files(alloc, files, Options::new(0))?;
    Ok(1 < journal.next())
}

// The bytes of a file. They are empty if there is no file of this name.
fn read_bytes(rt: &HostRuntime, path: &str) -> Result<Vec<u8>, StoreFault>
    ensures fault { IfErr result (λ fault. is_place fault ≡ false) }
{
    match fs::metadata(rt, path) {
        Ok(found) if found.is_file() => match fs::read(rt, path) {
            Ok(bytes) => Ok(bytes),
            Err(error) if error.kind() == ErrorKind::OutOfMemory => Err(StoreFault::NoMemory),
            Err(_) => Err(StoreFault::Device),
        },
        Ok(_) => Err(StoreFault::Device),
        Err(error) => match error.kind() {
            ErrorKind::NotFound | ErrorKind::NotADirectory => Ok(Vec::new(rt.alloc())),
            _ => Err(StoreFault::Device),
        },
    }
}

// Whether the files of this node have records. The files stay as they are.
fn has_foreign_records(rt: &HostRuntime, dir: &str, node: NodeId) -> Result<bool, StoreFault>
    ensures fault { IfErr result (λ fault. is_place fault ≡ false) }
{
    let path = format!(in rt.alloc(); "{dir}/node-{}.db", node.number())?;
    let db = read_bytes(rt, path.as_str())?;
    let path = format!(in rt.alloc(); "{dir}/node-{}.db-wal", node.number())?;
    let log = read_bytes(rt, path.as_str())?;
    has_records(rt.alloc(), log.as_slice(), db.as_slice())
}

/// Why a group with `nodes` nodes may not run in this folder, or `None` if it may. The folder may
/// have records of a node above that number, which no log of the group would show. Or it has a
/// journal of such a node that can't be read (`NoMemory` or `Device`). No file is changed, and none
/// is made.
pub fn check_foreign_journals(rt: &HostRuntime, dir: &str, nodes: u8) -> Option<FolderFault>
    ensures { IfSome result (IsOfOpening nodes) }
{
    for number in 1..=u8::MAX {
        let node = NodeId::new(number)?;
        if nodes < number {
            match has_foreign_records(rt, dir, node) {
                Ok(false) => {}
                // A group may not ignore a row that is no record, either.
                Ok(true) | Err(StoreFault::BadRow(_)) => {
                    return Some(FolderFault::ForeignRecords(usize::from(number)));
                }
                Err(fault) => return Some(FolderFault::Journal(usize::from(number), fault)),
            }
        }
    }
    None
}
