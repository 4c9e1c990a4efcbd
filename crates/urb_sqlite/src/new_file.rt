//! Makes a new journal: a database with small pages, in files that hold no database yet.

ghost use Rattle.std.specs.Prelude.{◌≡◌, [], false, IfOk, IfErr, IsTrue};
ghost use Rattle.sqlite_trees.specs.Objects.{catalog_tree};
ghost use Rattle.sqlite_trees.specs.Tree.{Trees};
ghost use Rattle.sqlite_store.specs.FileStore.{state as store_state, view};
ghost use Rattle.sqlite_store.specs.Unopened.{state_of, files_of, wanted_by, AreUsable};
ghost use Rattle.sqlite_pool.specs.Opening.{IsBlankFile};
ghost use Rattle.sqlite_wal.specs.PageSize.{bytes_of};
ghost use Rattle.sqlite_wal.specs.Reads.{AreClean, OnlyReads};
ghost use Rattle.sqlite.specs.Files.{file_state, image_of, HoldsDatabase};
ghost use Rattle.sqlite.specs.State.{HasCleanDisk};
ghost use Rattle.sqlite.specs.Steps.{IsFresh};
ghost use Rattle.urb_stable.specs.StableStorage.{is_place};
ghost use Rattle.urb_sqlite.specs.internal.JournalStatements.{no_schema};

use crate::journal_open::fault_of;
use sqlite::{Connection, FileStore, Files, Options};
use sqlite_disk::Disk;
use sqlite_pager::Pager;
use sqlite_pool::probe_blank;
use sqlite_store::{OpenError, Unopened};
use sqlite_wal::PageSize;
use std::alloc::Global;
use urb_stable::StoreFault;

/// The size of a page of a new journal, in bytes. A record takes two pages of the log. So the log
/// holds four times as many records as with SQLite's own page size, 4,096 bytes.
pub(crate) const PAGE_BYTES: usize = 1024;

/// The size of the pages of a new journal.
fn page_size() -> PageSize
    ensures bytes { bytes_of result ≡ 1024 }
{
    PageSize::new(PAGE_BYTES).unwrap()
}

/// Whether the files hold no database yet, so that a caller may make one there. It writes nothing.
pub fn is_blank<D: Disk>(alloc: Global, files: &mut Files<D>) -> Result<bool, StoreFault>
    requires log { IsTrue (D.Disk.is_usable files.old.log) }
    requires db { IsTrue (D.Disk.is_usable files.old.db) }
    ensures fault { IfErr result (λ e. is_place e ≡ false) }
    ensures log { OnlyReads D.Disk files.old.log files.new.log }
    ensures db { OnlyReads D.Disk files.old.db files.new.db }
    // Files are blank if the database file is empty, whatever the log holds, or if it has only a
    // part of its first page.
    ensures empty { IfOk result (λ blank. AreClean D.Disk files.new.log files.new.db
        → IsBlankFile 1024 (image_of D.Disk files.old)
        → IsTrue blank) }
    // If this returns true, the files hold no database of any page size.
    ensures none { IfOk result (λ blank. AreClean D.Disk files.new.log files.new.db
        → IsTrue blank
        → (db : Trees)
        → ¬ HoldsDatabase (image_of D.Disk files.old) db) }
{
    match probe_blank(alloc, files, page_size(), false) {
        Ok(blank) => Ok(blank),
        Err(sqlite_wal::Error::OutOfMemory) => Err(StoreFault::NoMemory),
        Err(_) => Err(StoreFault::Device),
    }
}

/// The files as a pair for which no database is open yet. The database that will be made there has
/// no table. This call writes and reads nothing.
fn pair_files<D: Disk + Drop>(
    alloc: Global,
    files: Files<D>,
    options: Options,
) -> Result<Unopened<D>, StoreFault>
    ensures fault { IfErr result (λ e. is_place e ≡ false) }
    ensures files { IfOk result (λ it. files_of it ≡ (files.log, files.db)) }
    ensures size { IfOk result (λ it. (state_of it).page_size ≡ 1024) }
    ensures none { IfOk result (λ it. wanted_by it ≡ []) }
{
    let Ok(pager) = Pager::new(alloc, files, page_size(), options) else {
        return Err(StoreFault::NoMemory);
    };
    match Unopened::new(alloc, pager, &[]) {
        Ok(it) => Ok(it),
        Err(_) => Err(StoreFault::NoMemory),
    }
}

/// Makes the database of such a pair, which has no table.
fn create_database<D: Disk + Drop>(it: Unopened<D>) -> Result<FileStore<D>, StoreFault>
    requires usable { AreUsable it }
    requires none { wanted_by it ≡ [] }
    ensures fault { IfErr result (λ e. is_place e ≡ false) }
    ensures honest { IfOk result (λ store. IsTrue (view store).is_clean
        → IsTrue (state_of it).is_clean) }
    ensures fresh { IfOk result (λ store. IsTrue (view store).is_clean → IsFresh (view store)) }
    ensures size { IfOk result (λ store. IsTrue (view store).is_clean
        → (store_state store).page_size ≡ (state_of it).page_size) }
    ensures bare { IfOk result
        (λ store. IsTrue (view store).is_clean → (view store).trees catalog_tree ≡ []) }
{
    match it.create() {
        Ok(store) => Ok(store),
        Err((OpenError::OutOfMemory, _)) => Err(StoreFault::NoMemory),
        Err(_) => Err(StoreFault::Device),
    }
}

/// Makes a database without a table in files that hold no database, and opens it. Its pages have
/// 1,024 bytes.
pub fn make_database<D: Disk + Drop>(
    alloc: Global,
    files: Files<D>,
    options: Options,
) -> Result<Connection<FileStore<D>>, StoreFault>
    requires log { IsTrue (D.Disk.is_usable files.log) }
    requires db { IsTrue (D.Disk.is_usable files.db) }
    ensures fault { IfErr result (λ e. is_place e ≡ false) }
    ensures honest { IfOk result
        (λ conn. HasCleanDisk (file_state conn) → AreClean D.Disk files.log files.db) }
    ensures bare { IfOk result
        (λ conn. HasCleanDisk (file_state conn) → (file_state conn).now.schema ≡ no_schema) }
{
    let it = pair_files(alloc, files, options)?;
    let store = create_database(it)?;
    match Connection::over(alloc, store) {
        Ok(conn) => Ok(conn),
        Err((error, _)) => Err(fault_of(error)),
    }
}
