//! The journal of one node in its folder: finds it, makes it, and closes it.

ghost use Rattle.std.specs.Prelude.{◌≡◌, ℕ, suc, false, true, length, IfErr, IfOk, IfSome};
ghost use Rattle.std.specs.Fs.{asks_create_new, asks_write};
ghost use Rattle.urb_stable.specs.StableStorage.{is_place};
ghost use Rattle.urb_sqlite.specs.FoundJournals.{IsFoundIn};
ghost use Rattle.urb_folder.specs.internal.JournalOutcomes.{OpensIn};
ghost use Rattle.urb_folder.specs.internal.OpenedPlaces.{AreOpened, IsFoundAt};

use crate::journal::{FileId, Journal};
use sqlite::FileStore;
use sqlite_disk::Disk;
use std::fs;
use std::fs::{Metadata, OpenOptions};
use std::os::unix::fs::{MetadataExt, OpenOptionsExt};
use std::rt::HostRuntime;
use std::sync::Arc;
use urb_names::NodeId;
use urb_sqlite::{MessagePool, NodeClaim, NodeDisk, SqlStable, close_node_in, open_node_in};
use urb_stable::{Stable, StoreFault};

// The mode of the files of a new journal: only their owner may read and write them.
const JOURNAL_MODE: u32 = 0o600;

/// The result of looking for a journal: the outcome of opening it, or the claim of its node, whose
/// files were not opened yet.
pub(crate) type FoundJournal<D> = Result<Result<Journal<D>, StoreFault>, NodeClaim<D>>;

/// A folder with the journals of a group. That of node P is `node-P.db`, and its place is P - 1. If
/// there is a pool, the journals that are opened share their messages with it.
#[derive(Clone, Copy)]
pub(crate) struct Folder<'a> {
    pub rt: &'a HostRuntime,
    pub dir: &'a str,
    pub pool: &'a Option<Arc<MessagePool>>,
}

// The node at this place.
fn node_at(place: usize) -> Option<NodeId>
    ensures { IfSome result (λ node. node ≡ suc place) }
{
    NodeId::new(u8::try_from(place.checked_add(1)?).ok()?)
}

// The path of a node's journal in this folder. `None` if memory for it was refused.
fn path_of(rt: &HostRuntime, dir: &str, node: NodeId) -> Option<String> {
    format!(in rt.alloc(); "{dir}/node-{}.db", node.number()).ok()
}

// What the system says of the file with the name of a node's journal in this folder. `None` if no
// file has that name.
fn metadata_of(rt: &HostRuntime, dir: &str, node: NodeId) -> Option<Metadata> {
    fs::metadata(rt, path_of(rt, dir, node)?.as_str()).ok()
}

// The file with the name of a node's journal in this folder. `None` if no file has that name.
fn file_of(rt: &HostRuntime, dir: &str, node: NodeId) -> Option<FileId> {
    let found = metadata_of(rt, dir, node)?;
    Some(FileId {
        device: found.dev(),
        number: found.ino(),
    })
}

// The same journal. If there is a pool, it shares its messages with it.
fn sharing<D: Disk + Drop>(
    journal: SqlStable<FileStore<D>>,
    pool: &Option<Arc<MessagePool>>,
) -> SqlStable<FileStore<D>>
    ensures { result ≡ journal }
{
    let Some(pool) = pool else {
        return journal;
    };
    let Ok(pool) = Arc::try_clone(pool) else {
        return journal;
    };
    let mut journal = journal;
    journal.share_with(pool);
    journal
}

// Opens the journal of the claim's node.
fn open_claimed<D: NodeDisk>(
    folder: &Folder<'_>,
    claim: NodeClaim<D>,
) -> Result<Journal<D>, StoreFault>
    ensures fault { IfErr result (λ fault. is_place fault ≡ false) }
    ensures node { IfOk result (λ j. j.node ≡ claim) }
    // A journal that was in this node's files is found with its records. If the database file was
    // empty, the journal has no record.
    ensures found { IfOk result (λ j. IsFoundIn (D.NodeDisk.held claim)
        (⟦<Journal<D> as Stable>⟧.is_clean j) (⟦<Journal<D> as Stable>⟧.is_honest j)
        (⟦<Journal<D> as Stable>⟧.certain j)) }
{
    let node = claim.node();
    let opened = open_node_in::<D>(folder.rt, folder.dir, claim)?;
    let journal = sharing::<D>(opened, folder.pool);
    match file_of(folder.rt, folder.dir, node) {
        Some(file) => Ok(Journal {
            node,
            file,
            journal,
        }),
        None => Err(StoreFault::Device),
    }
}

// How a new journal's file is made: with `JOURNAL_MODE`, and never in place of an existing file. The
// standard library's `mode` has no clause. So a test shows the mode, and no clause here does.
fn options_of_new() -> OpenOptions
    ensures { (asks_create_new result ≡ true) × (asks_write result ≡ true) }
{
    let mut options = OpenOptions::new();
    options.mode(JOURNAL_MODE);
    options.write(true).create_new(true);
    options
}

// Makes the database file of a node in this folder. The log beside it gets its mode. If it can't be
// made, the opening that follows says why.
fn make_file(rt: &HostRuntime, dir: &str, node: NodeId) {
    if let Some(path) = path_of(rt, dir, node) {
        let _ = options_of_new().open(rt, path.as_str());
    }
}

/// How many bytes the database file at this place has. `None` if there is no such file.
pub(crate) fn length_at(folder: &Folder<'_>, place: usize) -> Option<usize> {
    let found = metadata_of(folder.rt, folder.dir, node_at(place)?)?;
    usize::try_from(found.len()).ok()
}

/// Opens a journal that was not opened yet, if it exists. It makes nothing.
pub(crate) fn find<D: NodeDisk>(folder: &Folder<'_>, found: FoundJournal<D>) -> FoundJournal<D>
    // It is found at the place where the claim was.
    ensures { (place : ℕ) → IsFoundAt (OpensIn D.Disk D.NodeDisk.held) place found
        → IsFoundAt (OpensIn D.Disk D.NodeDisk.held) place result }
{
    let claim = match found {
        Ok(outcome) => return Ok(outcome),
        Err(claim) => claim,
    };
    match file_of(folder.rt, folder.dir, claim.node()) {
        Some(_) => Ok(open_claimed(folder, claim)),
        None => Err(claim),
    }
}

/// Makes the missing journal of the claim's node, at the place after the given ones. All of these
/// have to be open, because nothing is made after a place that was refused.
pub(crate) fn make_next<D: NodeDisk>(
    folder: &Folder<'_>,
    claim: NodeClaim<D>,
    earlier: &[Journal<D>],
) -> Result<Journal<D>, StoreFault>
    requires earlier { AreOpened (OpensIn D.Disk D.NodeDisk.held) (length earlier.now) earlier.now }
    requires claim { claim ≡ suc (length earlier.now) }
    ensures { OpensIn D.Disk D.NodeDisk.held (length earlier.now) result }
{
    make_file(folder.rt, folder.dir, claim.node());
    open_claimed(folder, claim)
}

/// Closes a journal by its name, so only if the name still leads to the journal's file. Otherwise
/// the log beside the file of that name belongs to another journal. A journal that is dropped loses
/// nothing.
pub(crate) fn close_journal<D: Disk + Drop>(folder: &Folder<'_>, journal: Journal<D>) {
    let (node, file, journal) = journal.into_parts();
    if file_of(folder.rt, folder.dir, node) == Some(file) {
        let _ = close_node_in(folder.rt, folder.dir, node, journal);
    }
}
