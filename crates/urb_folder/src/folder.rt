//! The folder of a group's journals: opens all of them, and closes them.

ghost use Rattle.std.specs.Prelude.{◌≡◌, IfErr, IfOk, vec_len};
ghost use Rattle.urb_sqlite.specs.FoundJournals.{AreFoundIn};
ghost use Rattle.urb_folder.specs.OpenedJournals.{AreOfNodes, IsOfOpening};

use crate::folder_fault::FolderFault;
use crate::foreign_journals::check_foreign_journals;
use crate::journal::Journal;
use crate::node_journal::Folder;
use crate::parallel::{close_all, open_all};
use sqlite_disk::Disk;
use std::rt::HostRuntime;
use std::sync::Arc;
use std::thread::Threads;
use urb_sqlite::{FolderClaim, MessagePool, NodeDisk};
use urb_stable::Stable;

// Opens the journals of all nodes of a group, as `open_journals` does, in a folder without records
// of nodes that the group doesn't have. The journals share their messages with one pool, until each
// has been asked for its records once. If memory for the pool is refused, they do without it.
fn open_in_folder<D: NodeDisk + Send, R: Threads + Sync>(
    threads: &R,
    rt: &HostRuntime,
    dir: &str,
    nodes: u8,
    claim: FolderClaim<D>,
) -> Result<Vec<Journal<D>>, FolderFault>
    ensures count { IfOk result (λ journals. vec_len journals ≡ nodes) }
    ensures nodes { IfOk result (λ journals. AreOfNodes (λ j. j.node) journals.items) }
    ensures found { IfOk result
        (λ journals. AreFoundIn ⟦<Journal<D> as Stable>⟧ D.NodeDisk.held journals.items) }
    ensures fault { IfErr result (IsOfOpening nodes) }
{
    let pool = Arc::new(rt.alloc(), MessagePool::new(rt.alloc())).ok();
    let folder = Folder {
        rt,
        dir,
        pool: &pool,
    };
    match open_all::<D, R>(threads, rt.alloc(), folder, usize::from(nodes), claim) {
        Ok(journals) => Ok(journals),
        Err(fault) => Err(fault),
    }
}

/// Opens the journals of a group's `nodes` nodes, `node-1.db`, `node-2.db` and so on in the folder
/// `dir`. Those that exist are opened in parallel, or one after the other if their files are long.
/// Missing ones are made in the order of the nodes. The fault is that of the first node that is
/// refused. Then no journal is made for a node after it, and those that were opened are closed. If
/// the folder has records of a node that this group doesn't have, that is the fault, and no file is
/// changed. `threads` and `rt` are the same runtime: one is used for threads, the other for files.
/// `D` names what the files held: `NodeFile<K>` is such a type for each `K`. The call uses up the
/// folder's claim, so under one `D` the files of a node are opened once.
pub fn open_journals<D: NodeDisk + Send, R: Threads + Sync>(
    threads: &R,
    rt: &HostRuntime,
    dir: &str,
    nodes: u8,
    claim: FolderClaim<D>,
) -> Result<Vec<Journal<D>>, FolderFault>
    // There is one for each node.
    ensures count { IfOk result (λ journals. vec_len journals ≡ nodes) }
    // Each belongs to the node at its place.
    ensures nodes { IfOk result (λ journals. AreOfNodes (λ j. j.node) journals.items) }
    // A journal that was in its node's files is found with its records. If the database file was
    // empty, the journal has no record.
    ensures found { IfOk result
        (λ journals. AreFoundIn ⟦<Journal<D> as Stable>⟧ D.NodeDisk.held journals.items) }
    // A fault names a node of the group, or a node that the group doesn't have and whose records
    // are there.
    ensures fault { IfErr result (IsOfOpening nodes) }
{
    match check_foreign_journals(rt, dir, nodes) {
        None => open_in_folder::<D, R>(threads, rt, dir, nodes, claim),
        Some(fault) => Err(fault),
    }
}

/// Closes the journals that `open_journals` opened, so that only one file is left of each. A
/// journal that can't be closed has lost nothing, and neither has one whose name leads to another
/// file by now. The next opening reads what is in the log.
pub fn close_journals<D: Disk + Drop>(rt: &HostRuntime, dir: &str, journals: Vec<Journal<D>>) {
    let folder = Folder {
        rt,
        dir,
        pool: &None,
    };
    close_all(&folder, journals);
}
