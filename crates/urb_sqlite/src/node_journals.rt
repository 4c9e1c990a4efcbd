//! The journals of a group's nodes in one list. Each is found with what its files held.

ghost use Rattle.std.specs.Prelude.{◌≡◌, ◌⊎◌, length, false, IfOk, IfErr, IsTrue};
ghost use Rattle.sqlite_wal.specs.Format.{be32};
ghost use Rattle.sqlite_wal.specs.PageSize.{size_in_file};
ghost use Rattle.sqlite_wal.specs.Reads.{AreClean, OnlyReads};
ghost use Rattle.sqlite_wal.specs.Recovery.{IsIgnored};
ghost use Rattle.urb_stable.specs.StableStorage.{is_place};
ghost use Rattle.urb_sqlite.specs.FoundJournals.{AreFoundIn, IsFoundIn};
ghost use Rattle.urb_sqlite.specs.internal.LogLengths.{AreLogPages};

use crate::journal_close::close_and_remove_log;
use crate::new_file::PAGE_BYTES;
use crate::{FolderClaim, NodeClaim, NodeDisk, SqlStable};
use sqlite::{FileStore, Files, Options};
use sqlite_disk::Disk;
use sqlite_wal::probe_page_size;
use std::hash::{BuildHasher, RandomState};
use std::rt::HostRuntime;
use urb_names::{Config, NodeId};
use urb_stable::{Stable, StoreFault};

/// The journal of a node with any number. The journals of all nodes have this one type, so they can
/// be in one list.
pub type NodeJournal<D> = SqlStable<FileStore<D>>;

/// A node's log is copied into its database file when the log's pages have this number of bytes.
/// That is 16,000 pages of a new journal, and 4,000 of an old one, whose pages have 4,096 bytes. A
/// record takes two pages, and a message in a group of three takes four records. So one message in
/// two thousand waits for such a copy.
const LOG_BYTES: usize = 16_384_000;

/// The same limit in pages, for files that hold no database yet. They get pages of `PAGE_BYTES`.
const NEW_LOG_PAGES: usize = LOG_BYTES / PAGE_BYTES;

/// The limit of the log in pages, by the page size of these files. It writes nothing. `Device`: a
/// file can't be read.
fn log_pages<D: Disk>(files: &mut Files<D>) -> Result<usize, StoreFault>
    requires log { IsTrue (D.Disk.is_usable files.old.log) }
    requires db { IsTrue (D.Disk.is_usable files.old.db) }
    ensures fault { IfErr result (λ e. e ≡ StoreFault.Device) }
    ensures log { OnlyReads D.Disk files.old.log files.new.log }
    ensures db { OnlyReads D.Disk files.old.db files.new.db }
    // If the log will be read, its pages have the size that its header gives. Otherwise they have
    // the size of the database file's pages.
    ensures by_log { IfOk result (λ pages. AreClean D.Disk files.new.log files.new.db
        → ¬ IsIgnored (D.Disk.seen files.old.log)
        → AreLogPages (be32 (D.Disk.seen files.old.log) 8) pages) }
    ensures by_file { IfOk result (λ pages. AreClean D.Disk files.new.log files.new.db
        → IsIgnored (D.Disk.seen files.old.log)
        → AreLogPages (size_in_file (D.Disk.seen files.old.db)) pages) }
{
    match probe_page_size(files) {
        Ok(Some(size)) => Ok(LOG_BYTES / size.bytes()),
        Ok(None) => Ok(NEW_LOG_PAGES),
        Err(_) => Err(StoreFault::Device),
    }
}

/// Opens the journal of the claim's node at this path, as `SqlStable::open` does. It is for a
/// program that opens one journal for each node, and continues with what it stored before.
pub fn open_node<D: NodeDisk>(
    rt: &HostRuntime,
    path: &str,
    claim: NodeClaim<D>,
) -> Result<NodeJournal<D>, StoreFault>
    ensures fault { IfErr result (λ e. is_place e ≡ false) }
    // A journal that was in the node's files is found with its records. If the database file was
    // empty, the journal has none.
    ensures found { IfOk result (λ j. IsFoundIn (D.NodeDisk.held claim)
        (⟦<NodeJournal<D> as Stable>⟧.is_clean j) (⟦<NodeJournal<D> as Stable>⟧.is_honest j)
        (⟦<NodeJournal<D> as Stable>⟧.certain j)) }
{
    // SQLite doesn't take these as names of files.
    if path == ":memory:" || path.starts_with("file:") {
        return Err(StoreFault::Device);
    }
    let Ok(random) = RandomState::new(rt) else {
        return Err(StoreFault::Device);
    };
    let mut options = Options::new(random.hash_one(&0u8));
    let mut files = D::open_files(rt, path, claim)?;
    options.checkpoint_frames = log_pages(&mut files)?;
    SqlStable::open_files(rt.alloc(), files, options)
}

/// What to put before the path of a directory so that SQLite takes it as a path. SQLite takes a
/// path that begins with `file:` as a URI.
fn prefix_of(directory: &str) -> &'static str {
    if directory.starts_with("file:") {
        "./"
    } else {
        ""
    }
}

/// Opens the journal of the claim's node in this directory, `node-P.db`, as `open_node` does. It is
/// for a program that opens the journals of its nodes in parallel. `open_nodes` opens them one after
/// the other.
pub fn open_node_in<D: NodeDisk>(
    rt: &HostRuntime,
    directory: &str,
    claim: NodeClaim<D>,
) -> Result<NodeJournal<D>, StoreFault>
    ensures fault { IfErr result (λ e. is_place e ≡ false) }
    ensures found { IfOk result (λ j. IsFoundIn (D.NodeDisk.held claim)
        (⟦<NodeJournal<D> as Stable>⟧.is_clean j) (⟦<NodeJournal<D> as Stable>⟧.is_honest j)
        (⟦<NodeJournal<D> as Stable>⟧.certain j)) }
{
    let prefix = prefix_of(directory);
    let number = claim.node().number();
    let path = format!(in rt.alloc(); "{prefix}{directory}/node-{number}.db")?;
    open_node(rt, path.as_str(), claim)
}

/// Opens the journals of all nodes of a group, `node-1.db`, `node-2.db` and so on, in this
/// directory, which has to exist. It is for a program's start. The first fault ends it and is
/// returned with its node. Then the journals that were open are closed.
pub fn open_nodes<D: NodeDisk>(
    rt: &HostRuntime,
    directory: &str,
    config: Config,
    claim: FolderClaim<D>,
) -> Result<Vec<NodeJournal<D>>, (NodeId, StoreFault)>
    ensures fault { IfErr result (λ e. is_place e.1 ≡ false) }
    // There is one for each node, in order.
    ensures count { IfOk result (λ journals. length journals.items ≡ config.n) }
    // A journal that was in a node's files is found with its records. If the database file was
    // empty, the journal has none.
    ensures found { IfOk result (λ journals. AreFoundIn ⟦<NodeJournal<D> as Stable>⟧
        D.NodeDisk.held journals.items) }
{
    let n = config.n();
    let Ok(mut journals) = Vec::with_capacity(rt.alloc(), usize::from(n)) else {
        return Err((NodeId::new(1).unwrap(), StoreFault::NoMemory));
    };
    let mut claims = claim.into_nodes();
    for _ in 0..n {
        let claim = claims.take_next().unwrap();
        let node = claim.node();
        match open_node_in(rt, directory, claim) {
            Ok(journal) => journals.push_reserved(journal),
            Err(fault) => {
                let _ = close_nodes(rt, directory, journals);
                return Err((node, fault));
            }
        }
    }
    Ok(journals)
}

/// Closes the journal that was opened at this path, as `SqlStable::close_at` does. It is for a
/// program that ends.
pub fn close_node<D: Disk + Drop>(
    rt: &HostRuntime,
    path: &str,
    journal: NodeJournal<D>,
) -> Result<(), StoreFault>
    ensures { IfErr result (λ e. (e ≡ StoreFault.NoMemory) ⊎ (e ≡ StoreFault.Device)) }
{
    close_and_remove_log(rt, path, journal)
}

/// Closes the journal of a node in this directory.
fn close_in<D: Disk + Drop>(
    rt: &HostRuntime,
    directory: &str,
    number: usize,
    journal: NodeJournal<D>,
) -> Result<(), StoreFault>
    ensures { IfErr result (λ e. (e ≡ StoreFault.NoMemory) ⊎ (e ≡ StoreFault.Device)) }
{
    let prefix = prefix_of(directory);
    let path = format!(in rt.alloc(); "{prefix}{directory}/node-{number}.db")?;
    close_and_remove_log(rt, path.as_str(), journal)
}

/// Closes the journal of one node that `open_node_in` opened in this directory, as `close_node`
/// does. It is for a program that opened some journals but not all.
pub fn close_node_in<D: Disk + Drop>(
    rt: &HostRuntime,
    directory: &str,
    node: NodeId,
    journal: NodeJournal<D>,
) -> Result<(), StoreFault>
    ensures { IfErr result (λ e. (e ≡ StoreFault.NoMemory) ⊎ (e ≡ StoreFault.Device)) }
{
    close_in(rt, directory, usize::from(node.number()), journal)
}

/// The first of two outcomes if it is a fault, and otherwise the second.
fn keep_first_fault(
    first: Result<(), StoreFault>,
    second: Result<(), StoreFault>,
) -> Result<(), StoreFault>
    ensures { (result ≡ first) ⊎ (result ≡ second) }
{
    match first {
        Ok(()) => second,
        Err(fault) => Err(fault),
    }
}

/// Closes the journals that `open_nodes` opened in this directory, so that only one file is left of
/// each. It is for a program that ends. If a journal can't be closed, both of its files are left,
/// and no record is lost. The others are closed nevertheless. Returns the fault of the first node
/// that has one.
pub fn close_nodes<D: Disk + Drop>(
    rt: &HostRuntime,
    directory: &str,
    journals: Vec<NodeJournal<D>>,
) -> Result<(), StoreFault>
    ensures { IfErr result (λ e. (e ≡ StoreFault.NoMemory) ⊎ (e ≡ StoreFault.Device)) }
{
    let mut journals = journals;
    let mut outcome = Ok(());
    while let Some(journal) = journals.pop() {
        let number = journals.len() + 1;
        outcome = keep_first_fault(close_in(rt, directory, number, journal), outcome);
    }
    outcome
}
