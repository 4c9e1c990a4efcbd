//! Closes a journal, so that its database file alone holds the records.

ghost use Rattle.std.specs.Prelude.{◌≡◌, ◌⊎◌, IfOk, IfErr, IsTrue};
ghost use Rattle.sqlite.specs.Closing.{IsCopied};
ghost use Rattle.sqlite.specs.Files.{file_state};
ghost use Rattle.sqlite_wal.specs.Reads.{AreClean};
ghost use Rattle.urb_sqlite.specs.ClosedFiles.{LeavesNoMore};

use crate::SqlStable;
use crate::journal_open::fault_of;
use sqlite::{FileFrom, FileStore, Files, Start};
use sqlite_disk::Disk;
use std::fs;
use std::marker::Model;
use std::rt::HostRuntime;
use urb_stable::StoreFault;

/// The two files of a journal after its log was copied: the database file holds all records by
/// itself. Only `SqlStable::close` makes such a value, and no log is removed without one.
pub struct Copied<D: Disk> {
    files: Files<D>,
}

impl<D: Disk> Model for Copied<D> {
    ghost use Rattle.sqlite_disk.specs.declared.Files.{Files};
    ghost use Rattle.sqlite_wal.specs.Reads.{AreClean};
    ghost use Rattle.urb_sqlite.specs.internal.StandaloneDatabases.{StandsAlone};

    ghost Value = { Files D };

    ghost view = { λ c. c.files };

    // As long as the disks have returned what was written, the database file alone holds a
    // database.
    ghost invariant = { λ c.
        AreClean D.Disk c.files.log c.files.db → ∥ StandsAlone D.Disk c.files ∥₁ };
}

impl<D: Disk + Drop> Drop for Copied<D> {
    fn drop(self) {
        let Copied { files: _ } = self;
    }
}

impl<D: Disk> Copied<D> {
    /// The files, whose log is no longer needed. It is for a caller who opens the journal again
    /// over them.
    pub fn into_files(self) -> Files<D>
        ensures { result ≡ self }
    {
        let Copied { files } = self;
        files
    }

    /// Removes the log beside the database file at this path. The files of this value have to be
    /// the ones at the path.
    fn remove_log(&self, rt: &HostRuntime, path: &str) -> Result<(), StoreFault>
        ensures { IfErr result (λ e. (e ≡ StoreFault.NoMemory) ⊎ (e ≡ StoreFault.Device)) }
    {
        let Ok(real) = fs::canonicalize(rt, path) else {
            return Err(StoreFault::Device);
        };
        let log = format!(in rt.alloc(); "{}-wal", real.as_str())?;
        match fs::remove_file(rt, log.as_str()) {
            Ok(()) => Ok(()),
            Err(_) => Err(StoreFault::Device),
        }
    }
}

impl<D: Disk + Drop> SqlStable<FileStore<D>> {
    /// Copies the log into the database file, and returns both files. A journal that is dropped
    /// instead loses nothing, because its next opening reads the log.
    ///
    /// `NoMemory`, `Device`: the copy was refused or failed. The files are returned with the fault.
    /// Only together do they hold all records, so keep both.
    pub fn close(self) -> Result<Copied<D>, (StoreFault, Files<D>)>
        // The database file without a log holds the last commit, both as it is now and after a
        // crash.
        ensures copied { IfOk result
            (λ files. AreClean D.Disk files.log files.db → IsCopied self.conn files) }
        ensures usable { IfOk result
            (λ files. IsTrue (D.Disk.is_usable files.log) × IsTrue (D.Disk.is_usable files.db)) }
        ensures fault { IfErr result (λ e. (e.0 ≡ StoreFault.NoMemory) ⊎ (e.0 ≡ StoreFault.Device)) }
        // After a copy that failed, a stop leaves no database that a stop before the copy could not
        // leave.
        ensures left { IfErr result (λ e. LeavesNoMore D.Disk (file_state self.conn) e.1) }
    {
        match self.into_file_connection().close_files() {
            Ok(files) => Ok(Copied { files }),
            Err((error, store)) => {
                let files = store.close();
                Err((fault_of(error), files))
            }
        }
    }
}

/// Closes a journal that was opened at this path, and removes its log.
pub fn close_and_remove_log<D: Disk + Drop>(
    rt: &HostRuntime,
    path: &str,
    journal: SqlStable<FileStore<D>>,
) -> Result<(), StoreFault>
    ensures { IfErr result (λ e. (e ≡ StoreFault.NoMemory) ⊎ (e ≡ StoreFault.Device)) }
{
    match journal.close() {
        Ok(copied) => {
            let removed = copied.remove_log(rt, path);
            // The files have been locked until now, so nobody has begun another log.
            drop(copied);
            removed
        }
        Err((fault, files)) => {
            // Both files stay as they are.
            drop(files);
            Err(fault)
        }
    }
}

impl<S: Start> SqlStable<FileStore<FileFrom<S>>> {
    /// Closes the journal at the path where it was opened, and removes its log, so that only one
    /// file is left. After a fault both files are left, and no record is lost.
    pub fn close_at(self, rt: &HostRuntime, path: &str) -> Result<(), StoreFault>
        ensures { IfErr result (λ e. (e ≡ StoreFault.NoMemory) ⊎ (e ≡ StoreFault.Device)) }
    {
        close_and_remove_log(rt, path, self)
    }
}
