//! Opens a journal, at a path or over a pair of files.

ghost use Rattle.std.specs.Prelude.{◌≡◌, ◌⊎◌, [], false, IfOk, IfErr, IsTrue};
ghost use Rattle.sqlite.specs.State.{HasCleanDisk};
ghost use Rattle.sqlite.specs.Files.{file_state, image_of, IsNothing};
ghost use Rattle.sqlite.specs.WalFiles.{image_at};
ghost use Rattle.sqlite_wal.specs.Reads.{AreClean};
ghost use Rattle.urb_stable.specs.StableStorage.{is_place};
ghost use Rattle.urb_sqlite.specs.internal.Blame.{blamed};
ghost use Rattle.urb_sqlite.specs.RowReadings.{records_of};
ghost use Rattle.urb_sqlite.specs.OpenJournal.{IsHonestJournal, IsSafeAtRest, IsTakenOver};
ghost use Rattle.urb_sqlite.specs.FoundJournals.{IsFoundIf, IsFoundIn};

use crate::{SqlStable, new_file, records};
use sqlite::{Connection, Error, File, FileFrom, FileStore, Files, Options, Start, Unknown};
use sqlite_disk::Disk;
use std::alloc::Global;
use std::rt::HostRuntime;
use urb_stable::StoreFault;

/// Why the database could not be opened or closed: `NoMemory` if memory was refused, else `Device`.
pub fn fault_of(error: Error) -> StoreFault
    ensures value { result ≡ (blamed error 0).0 }
    ensures known { (result ≡ StoreFault.NoMemory) ⊎ (result ≡ StoreFault.Device) }
{
    let mut failures = 0;
    records::blame(&mut failures, error)
}

impl<D: Disk + Drop> SqlStable<FileStore<D>> {
    /// Takes over an open connection to a pair of files, as `adopt` does. If it refuses, the
    /// connection is dropped.
    fn adopt_files(
        alloc: Global,
        conn: Connection<FileStore<D>>,
    ) -> Result<SqlStable<FileStore<D>>, StoreFault>
        ensures fault { IfErr result (λ e. is_place e ≡ false) }
        ensures new { IfOk result (λ s. (s.doubtful ≡ false) × (s.failures ≡ 0)) }
        ensures rest { IfOk result (λ s. IsSafeAtRest (file_state s.conn)) }
        ensures taken { IfOk result
            (λ s. IsTakenOver (file_state conn) (file_state s.conn)) }
    {
        match SqlStable::adopt(alloc, conn) {
            Ok(journal) => Ok(journal),
            Err((_, fault)) => Err(fault),
        }
    }
}

impl SqlStable<FileStore<File>> {
    /// Opens the journal at this path. It makes the file and its tables if they are absent. The
    /// directory has to exist. The refusals are those of `adopt`. No clause speaks of what an
    /// existing file held. `open_from` has such clauses, for a caller that names what the file
    /// held.
    pub fn open(rt: &HostRuntime, path: &str) -> Result<SqlStable<FileStore<File>>, StoreFault>
        ensures fault { IfErr result (λ e. is_place e ≡ false) }
        ensures new { IfOk result (λ s. (s.doubtful ≡ false) × (s.failures ≡ 0)) }
        ensures rest { IfOk result (λ s. IsSafeAtRest (file_state s.conn)) }
        // If there was no file, or an empty one, the journal has no record.
        ensures fresh { IfOk result (λ s. HasCleanDisk (file_state s.conn)
            → IsHonestJournal (file_state s.conn) × (records_of (file_state s.conn).now ≡ [])) }
    {
        SqlStable::open_from(rt, path, Unknown)
    }
}

impl<S: Start> SqlStable<FileStore<FileFrom<S>>> {
    /// The same, with a type `S` that stands for what the files at this path hold. Use this to
    /// state a theorem about a real file.
    pub fn open_from(
        rt: &HostRuntime,
        path: &str,
        start: S,
    ) -> Result<SqlStable<FileStore<FileFrom<S>>>, StoreFault>
        ensures fault { IfErr result (λ e. is_place e ≡ false) }
        ensures new { IfOk result (λ s. (s.doubtful ≡ false) × (s.failures ≡ 0)) }
        ensures rest { IfOk result (λ s. IsSafeAtRest (file_state s.conn)) }
        // What the journal holds, depending on what the files held.
        ensures found { IfOk result (λ s. IsFoundIf (IsNothing (image_at S.Start))
            (image_at S.Start) (HasCleanDisk (file_state s.conn))
            (IsHonestJournal (file_state s.conn)) (records_of (file_state s.conn).now)) }
    {
        match Connection::open_from(rt, path, false, start) {
            Ok(conn) => SqlStable::adopt_files(rt.alloc(), conn),
            Err((error, _)) => Err(fault_of(error)),
        }
    }
}

impl<D: Disk + Drop> SqlStable<FileStore<D>> {
    /// The same over a pair of files. No failed sync may have spoiled them. Files that hold no
    /// database get one with pages of 1,024 bytes. Files that hold one keep its page size.
    pub fn open_files(
        alloc: Global,
        files: Files<D>,
        options: Options,
    ) -> Result<SqlStable<FileStore<D>>, StoreFault>
        requires log { IsTrue (D.Disk.is_usable files.log) }
        requires db { IsTrue (D.Disk.is_usable files.db) }
        ensures fault { IfErr result (λ e. is_place e ≡ false) }
        ensures new { IfOk result (λ s. (s.doubtful ≡ false) × (s.failures ≡ 0)) }
        ensures rest { IfOk result (λ s. IsSafeAtRest (file_state s.conn)) }
        // If the journal's disk is clean, the files were clean when it was opened.
        ensures clean { IfOk result
            (λ s. HasCleanDisk (file_state s.conn) → AreClean D.Disk files.log files.db) }
        // What the journal holds, depending on what the files held.
        ensures found { IfOk result (λ s. IsFoundIn (image_of D.Disk files)
            (HasCleanDisk (file_state s.conn)) (IsHonestJournal (file_state s.conn))
            (records_of (file_state s.conn).now)) }
    {
        let mut files = files;
        match new_file::is_blank(alloc, &mut files) {
            Ok(is_blank) => {
                if is_blank {
                    SqlStable::make_files(alloc, files, options)
                } else {
                    SqlStable::open_there(alloc, files, options)
                }
            }
            Err(fault) => Err(fault),
        }
    }

    /// Makes a journal without a record, in files that hold no database.
    fn make_files(
        alloc: Global,
        files: Files<D>,
        options: Options,
    ) -> Result<SqlStable<FileStore<D>>, StoreFault>
        requires log { IsTrue (D.Disk.is_usable files.log) }
        requires db { IsTrue (D.Disk.is_usable files.db) }
        ensures fault { IfErr result (λ e. is_place e ≡ false) }
        ensures new { IfOk result (λ s. (s.doubtful ≡ false) × (s.failures ≡ 0)) }
        ensures rest { IfOk result (λ s. IsSafeAtRest (file_state s.conn)) }
        ensures clean { IfOk result
            (λ s. HasCleanDisk (file_state s.conn) → AreClean D.Disk files.log files.db) }
        ensures fresh { IfOk result (λ s. HasCleanDisk (file_state s.conn)
            → IsHonestJournal (file_state s.conn) × (records_of (file_state s.conn).now ≡ [])) }
    {
        match new_file::make_database(alloc, files, options) {
            Ok(conn) => SqlStable::adopt_files(alloc, conn),
            Err(fault) => Err(fault),
        }
    }

    /// Opens the journal in files that hold a database of any page size.
    fn open_there(
        alloc: Global,
        files: Files<D>,
        options: Options,
    ) -> Result<SqlStable<FileStore<D>>, StoreFault>
        requires log { IsTrue (D.Disk.is_usable files.log) }
        requires db { IsTrue (D.Disk.is_usable files.db) }
        ensures fault { IfErr result (λ e. is_place e ≡ false) }
        ensures new { IfOk result (λ s. (s.doubtful ≡ false) × (s.failures ≡ 0)) }
        ensures rest { IfOk result (λ s. IsSafeAtRest (file_state s.conn)) }
        // If the journal's disk is clean, the files were clean when it was opened.
        ensures clean { IfOk result
            (λ s. HasCleanDisk (file_state s.conn) → AreClean D.Disk files.log files.db) }
        // What the journal holds, depending on what the files held.
        ensures found { IfOk result (λ s. IsFoundIf (IsNothing (image_of D.Disk files))
            (image_of D.Disk files) (HasCleanDisk (file_state s.conn))
            (IsHonestJournal (file_state s.conn)) (records_of (file_state s.conn).now)) }
    {
        match Connection::open_files(alloc, files, options) {
            Ok(conn) => SqlStable::adopt_files(alloc, conn),
            Err((error, _)) => Err(fault_of(error)),
        }
    }
}
