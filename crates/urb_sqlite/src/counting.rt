//! Counts the records of a table. An opening needs only their number, so none of them stays in
//! memory.

ghost use Rattle.std.specs.Prelude.{◌≡◌, ◌<◌, ◌≤◌, ◌+◌, ℕ, List, [], length, IfOk};
ghost use Rattle.std.specs.Prelude.{IfErr, OnOk, OnErr, Ok, Err};
ghost use Rattle.sqlite.specs.State.{HasCleanDisk, IsUnchanged, Shown, Begins, Survives};
ghost use Rattle.sqlite.specs.Held.{state};
ghost use Rattle.urb_names.specs.declared.limits.TheConstants.{MAX_PAYLOAD};
ghost use Rattle.urb_stable.specs.Entries.{Entry};
ghost use Rattle.urb_sqlite.specs.JournalTables.{HasTable};
ghost use Rattle.urb_sqlite.specs.internal.JournalStatements.{select_of, name_of};
ghost use Rattle.urb_sqlite.specs.internal.JournalChanges.{RollsBackAtMost};
ghost use Rattle.urb_sqlite.specs.internal.PartOpening.{IsRead, ReadsPart};
ghost use Rattle.urb_sqlite.specs.RowReadings.{read_from};

use crate::records::{fault_of, limit_of};
use crate::rows::{TableFault, record_at};
use crate::sql;
use crate::sql::Part;
use sqlite::{Alter, Connection};
use std::alloc::Global;
use urb_names::MAX_PAYLOAD;
use urb_stable::StoreFault;

/// Reads the rows of a table one by one, as `read_rows` does, and returns the place after the last
/// one.
fn count_rows<S: Alter>(
    alloc: Global,
    conn: &mut Connection<S>,
    part: Part,
    limit: usize,
    first: u32,
) -> Result<u32, TableFault>
    requires { limit ≤ MAX_PAYLOAD }
    ensures counted { HasCleanDisk (state S.Store conn.new)
        → IfOk result (λ next. (rows : _)
        × Shown (select_of part) [] (state S.Store conn.old) (state S.Store conn.new) rows
        × (records : List Entry)
        × (read_from limit first rows ≡ Ok records)
        × (next ≡ first + length records)) }
    ensures bad { HasCleanDisk (state S.Store conn.new)
        → IfErr result (λ e. (place : ℕ)
        → e ≡ TableFault.BadRow place
        → (rows : _)
        × Begins (select_of part) [] (state S.Store conn.old) rows
        × (read_from limit first rows ≡ Err place)
        × IsUnchanged (state S.Store conn.old) (state S.Store conn.new)) }
    ensures left { HasCleanDisk (state S.Store conn.new)
        → OnErr result (RollsBackAtMost (state S.Store conn.old) (state S.Store conn.new)) }
    ensures stop { Survives (state S.Store conn.old) (state S.Store conn.new) (λ _. ⊥) }
{
    let mut place = first;
    let mut rows = conn.query(sql::select(part), &[])?;
    'rows: loop {
        rows.advance()?;
        let Some(row) = rows.get() else {
            return Ok(place);
        };
        match record_at(alloc, None, limit, place, row)? {
            Some(record) => drop(record),
            None => return Err(TableFault::BadRow(place)),
        }
        place += 1;
    }
}

/// Reads the records of one table by one SELECT. The first record is at the place `first`. Returns
/// the place after the last one. At most one record is in memory at a time.
pub fn count_part<S: Alter>(
    alloc: Global,
    conn: &mut Connection<S>,
    failures: &mut u64,
    part: Part,
    first: u32,
) -> Result<u32, StoreFault>
    requires { first ≤ 4294967295 }
    ensures reads { ReadsPart (state S.Store conn.old) (state S.Store conn.new) part first result }
    ensures found { HasCleanDisk (state S.Store conn.new)
        → HasTable (state S.Store conn.old).now.schema (name_of part)
        → IfOk result (λ next. IsRead (state S.Store conn.old).now part first next) }
    ensures calm { OnOk result (failures.new ≡ failures.old) }
{
    let _before = conn.schema();
    let counted = count_rows(alloc, conn, part, limit_of(part), first);
    let _after = conn.schema();
    match counted {
        Ok(next) => Ok(next),
        Err(fault) => Err(fault_of(failures, fault)),
    }
}
