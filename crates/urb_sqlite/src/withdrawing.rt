//! How a journal takes out its last records.

ghost use Rattle.std.specs.Prelude.{◌≡◌, ◌⊎◌, ◌<◌, ◌≤◌, ◌++◌, ◌+◌, Err, IfErr, List, None, OnErr, OnOk};
ghost use Rattle.std.specs.Prelude.{length};
ghost use Rattle.sqlite.specs.State.{HasCleanDisk};
ghost use Rattle.sqlite.specs.Held.{state};
ghost use Rattle.urb_stable.specs.Entries.{Entry};
ghost use Rattle.urb_stable.specs.StoredTogether.{IsContentsOrAll};
ghost use Rattle.urb_sqlite.specs.RowReadings.{records_of};
ghost use Rattle.urb_sqlite.specs.OpenJournal.{IsHonestJournal, IsSafeAtRest, LeavesOnly};
ghost use Rattle.urb_sqlite.specs.internal.JournalChanges.{IsInStep, IsLeft};
ghost use Rattle.urb_sqlite.specs.internal.TableReferences.{RefersToNone};
ghost use Rattle.urb_sqlite.specs.internal.TransactionChanges.{AreTakenOut};

use crate::records::blame;
use crate::sql;
use sqlite::{Alter, Connection, Error, ErrorCode};
use urb_stable::StoreFault;

/// Takes out the last `count` records, the first at this place, in one transaction: all of them or
/// none. If the older table has some of them, it is refused.
pub fn remove_last<S: Alter>(
    conn: &mut Connection<S>,
    failures: &mut u64,
    first: u32,
    count: usize,
) -> Result<(), StoreFault>
    requires apart { RefersToNone (state S.Store conn.old).now.schema }
    ensures ok { IsInStep (state S.Store conn.old) (first + count)
        → OnOk result
        (AreTakenOut (state S.Store conn.old) (state S.Store conn.new) first count) }
    ensures err { IsInStep (state S.Store conn.old) (first + count)
        → OnErr result
        (IsLeft (state S.Store conn.old) (state S.Store conn.new) (first + count)) }
    ensures stop { IsInStep (state S.Store conn.old) (first + count)
        → IsHonestJournal (state S.Store conn.old)
        → HasCleanDisk (state S.Store conn.new)
        → (kept : List Entry) (gone : List Entry)
        → records_of (state S.Store conn.old).now ≡ kept ++ gone
        → length gone ≡ count
        → LeavesOnly (state S.Store conn.new) (IsContentsOrAll gone kept None) }
    ensures rest { IsInStep (state S.Store conn.old) (first + count)
        → IsSafeAtRest (state S.Store conn.new) }
    ensures clean { HasCleanDisk (state S.Store conn.new) → HasCleanDisk (state S.Store conn.old) }
    ensures known { IfErr result (λ e. (e ≡ StoreFault.NoMemory) ⊎ (e ≡ StoreFault.Device)) }
    ensures device { result ≡ Err StoreFault.Device → failures.old < failures.new }
    ensures counts { failures.old ≤ failures.new }
{
    // Called for its clause that the database obeys its schema, before the call and after it.
    let _before = conn.schema();
    let is_inside = !conn.is_autocommit();
    if is_inside {
        // While the disk is clean, no open journal is inside a transaction.
        return Err(blame(failures, Error::SqliteFailure(ErrorCode::TransactionState)));
    }
    let deleted = sql::delete_from(conn, first, count);
    let _after = conn.schema();
    match deleted {
        Ok(()) => Ok(()),
        Err(error) => Err(blame(failures, error)),
    }
}
