//! The calls of a journal: what each statement does to its records.

ghost use Rattle.std.specs.Prelude.{ℕ, ◌≡◌, ◌⊎◌, ◌<◌, ◌≤◌, ◌∷◌, ◌++◌, [], ◌+◌, length, true};
ghost use Rattle.std.specs.Prelude.{false, IfOk, IfErr, OnOk, OnErr, IsTrue, Ok, Err};
ghost use Rattle.sqlite.specs.State.{HasCleanDisk, IsLive, IsUnchanged, KeepsCommit};
ghost use Rattle.sqlite.specs.State.{Survives, CommitsBy};
ghost use Rattle.sqlite.specs.Held.{state};
ghost use Rattle.urb_stable.specs.StableStorage.{is_place};
ghost use Rattle.urb_sqlite.specs.internal.Blame.{is_memory, blamed};
ghost use Rattle.urb_names.specs.declared.limits.TheConstants.{MAX_PAYLOAD};
ghost use Rattle.urb_sqlite.specs.JournalTables as journal;
ghost use Rattle.urb_sqlite.specs.internal.JournalStatements as texts;
ghost use Rattle.urb_sqlite.specs.JournalTables.{second_name, limit_of, Lacks, HasTable, HasBoth};
ghost use Rattle.urb_sqlite.specs.internal.JournalStatements.{create_of, name_of};
ghost use Rattle.urb_sqlite.specs.declared.sql.Part.TheVariants.{First};
ghost use Rattle.urb_sqlite.specs.RecordRows.{table_rows, StandsFor};
ghost use Rattle.urb_sqlite.specs.RowReadings.{read_from, records_of};
ghost use Rattle.urb_sqlite.specs.TableShapes.{has_table};
ghost use Rattle.urb_sqlite.specs.OpenJournal.{IsHonestJournal, IsShutJournal, IsSafeAtRest};
ghost use Rattle.urb_sqlite.specs.OpenJournal.{LeavesOnly, IsTakenOver, IsGivenBack};
ghost use Rattle.urb_sqlite.specs.internal.JournalChanges.{IsInStep, CommitsAtMost, IsAppended};
ghost use Rattle.urb_sqlite.specs.internal.JournalChanges.{IsLeft, RollsBackAtMost, StaysSafe};
ghost use Rattle.urb_sqlite.specs.internal.JournalChanges.{FindsNoBadRow, TakesRecords};
ghost use Rattle.urb_sqlite.specs.internal.TransactionChanges.{AreAdded};
ghost use Rattle.urb_sqlite.specs.internal.PartOpening.{ReadsPart, IsPrepared, IsPartOpened};
ghost use Rattle.urb_sqlite.specs.internal.PartOpening.{IsPartRefused};

use crate::counting::count_part;
use crate::rows::TableFault;
use crate::sql::{LONGEST_IN_FIRST, LONGEST_IN_SECOND, Part};
use crate::{MessagePool, rows, sql, table_shape};
use sqlite::{Alter, Connection, Error, ErrorCode};
use std::alloc::Global;
use urb_stable::{Record, StoreFault};

fn is_memory(error: Error) -> bool
    ensures { result ≡ is_memory error }
{
    match error {
        Error::SqliteFailure(ErrorCode::OutOfMemory) => true,
        _ => false,
    }
}

/// The fault for an error of the database: `NoMemory` if memory was refused, else `Device`, which
/// raises the count of failures. If the count is at its greatest value, the next failure returns
/// `NoMemory`.
pub fn blame(failures: &mut u64, error: Error) -> StoreFault
    ensures exact { (result, failures.new) ≡ blamed error failures.old }
    ensures known { (result ≡ StoreFault.NoMemory) ⊎ (result ≡ StoreFault.Device) }
    ensures device { result ≡ StoreFault.Device → failures.old < failures.new }
    ensures counts { failures.old ≤ failures.new }
{
    if is_memory(error) || *failures == u64::MAX {
        return StoreFault::NoMemory;
    }
    *failures += 1;
    StoreFault::Device
}

/// Adds the record, by one INSERT.
pub fn append<S: Alter>(
    conn: &mut Connection<S>,
    failures: &mut u64,
    place: u32,
    entry: &Record,
) -> Result<(), StoreFault>
    requires low { place < 4294967295 }
    ensures ok { IsInStep (state S.Store conn.old) place
        → OnOk result
        (IsAppended (state S.Store conn.old) (state S.Store conn.new) place entry.now) }
    ensures err { IsInStep (state S.Store conn.old) place
        → OnErr result (IsLeft (state S.Store conn.old) (state S.Store conn.new) place) }
    ensures stop { IsInStep (state S.Store conn.old) place
        → IsHonestJournal (state S.Store conn.old)
        → HasCleanDisk (state S.Store conn.new)
        → LeavesOnly (state S.Store conn.new) (λ records.
        (records ≡ records_of (state S.Store conn.old).now)
        ⊎ (records ≡ records_of (state S.Store conn.old).now ++ entry.now ∷ [])) }
    ensures rest { IsInStep (state S.Store conn.old) place → IsSafeAtRest (state S.Store conn.new) }
    ensures clean { HasCleanDisk (state S.Store conn.new) → HasCleanDisk (state S.Store conn.old) }
    ensures known { IfErr result (λ e. (e ≡ StoreFault.NoMemory) ⊎ (e ≡ StoreFault.Device)) }
    ensures device { result ≡ Err StoreFault.Device → failures.old < failures.new }
    ensures counts { failures.old ≤ failures.new }
{
    entry.recall();
    // Called for its clause that the database obeys its schema, before the call and after it.
    let _before = conn.schema();
    let inserted = sql::insert(conn, place, entry);
    let _after = conn.schema();
    match inserted {
        Ok(_) => Ok(()),
        Err(error) => Err(blame(failures, error)),
    }
}

/// Adds several records, the first at this place, in one transaction: all of them or none.
fn append_in_transaction<S: Alter>(
    conn: &mut Connection<S>,
    failures: &mut u64,
    place: u32,
    entries: &[Record],
) -> Result<(), StoreFault>
    requires low { place + length entries.now ≤ 4294967295 }
    ensures ok { IsInStep (state S.Store conn.old) place
        → OnOk result
        (AreAdded (state S.Store conn.old) (state S.Store conn.new) place entries.now) }
    ensures err { IsInStep (state S.Store conn.old) place
        → OnErr result (IsLeft (state S.Store conn.old) (state S.Store conn.new) place) }
    ensures stop { IsInStep (state S.Store conn.old) place
        → IsHonestJournal (state S.Store conn.old)
        → HasCleanDisk (state S.Store conn.new)
        → LeavesOnly (state S.Store conn.new) (λ records.
        (records ≡ records_of (state S.Store conn.old).now)
        ⊎ (records ≡ records_of (state S.Store conn.old).now ++ entries.now)) }
    ensures rest { IsInStep (state S.Store conn.old) place → IsSafeAtRest (state S.Store conn.new) }
    ensures clean { HasCleanDisk (state S.Store conn.new) → HasCleanDisk (state S.Store conn.old) }
    ensures known { IfErr result (λ e. (e ≡ StoreFault.NoMemory) ⊎ (e ≡ StoreFault.Device)) }
    ensures device { result ≡ Err StoreFault.Device → failures.old < failures.new }
    ensures counts { failures.old ≤ failures.new }
{
    // Called for its clause that the database obeys its schema, before the call and after it.
    let _before = conn.schema();
    let is_inside = !conn.is_autocommit();
    if is_inside {
        // While the disk is clean, no open journal is inside a transaction.
        return Err(blame(failures, Error::SqliteFailure(ErrorCode::TransactionState)));
    }
    let inserted = sql::insert_all(conn, place, entries);
    let _after = conn.schema();
    match inserted {
        Ok(()) => Ok(()),
        Err(error) => Err(blame(failures, error)),
    }
}

/// Adds the records, the first at this place: all of them or none. One record alone is added by one
/// INSERT outside any transaction, and several by one transaction.
pub fn append_many<S: Alter>(
    conn: &mut Connection<S>,
    failures: &mut u64,
    place: u32,
    entries: &[Record],
) -> Result<(), StoreFault>
    requires low { place + length entries.now ≤ 4294967295 }
    ensures ok { IsInStep (state S.Store conn.old) place
        → OnOk result
        (AreAdded (state S.Store conn.old) (state S.Store conn.new) place entries.now) }
    ensures err { IsInStep (state S.Store conn.old) place
        → OnErr result (IsLeft (state S.Store conn.old) (state S.Store conn.new) place) }
    ensures stop { IsInStep (state S.Store conn.old) place
        → IsHonestJournal (state S.Store conn.old)
        → HasCleanDisk (state S.Store conn.new)
        → LeavesOnly (state S.Store conn.new) (λ records.
        (records ≡ records_of (state S.Store conn.old).now)
        ⊎ (records ≡ records_of (state S.Store conn.old).now ++ entries.now)) }
    ensures rest { IsInStep (state S.Store conn.old) place → IsSafeAtRest (state S.Store conn.new) }
    ensures clean { HasCleanDisk (state S.Store conn.new) → HasCleanDisk (state S.Store conn.old) }
    ensures known { IfErr result (λ e. (e ≡ StoreFault.NoMemory) ⊎ (e ≡ StoreFault.Device)) }
    ensures device { result ≡ Err StoreFault.Device → failures.old < failures.new }
    ensures counts { failures.old ≤ failures.new }
{
    match entries {
        [entry] => append(conn, failures, place, entry),
        _ => append_in_transaction(conn, failures, place, entries),
    }
}

/// The most bytes that a payload has in this table.
pub fn limit_of(part: Part) -> usize
    ensures is { result ≡ journal.limit_of part }
    ensures low { result ≤ MAX_PAYLOAD }
{
    match part {
        Part::First => LONGEST_IN_FIRST,
        Part::Second => LONGEST_IN_SECOND,
    }
}

/// The fault that a store reports for a fault of reading. `blame` judges an error of the database.
pub fn fault_of(failures: &mut u64, fault: TableFault) -> StoreFault
    ensures row { (place : ℕ)
        → result ≡ StoreFault.BadRow place
        → fault ≡ TableFault.BadRow place }
    ensures placed { is_place result ≡ false }
    ensures device { result ≡ StoreFault.Device → failures.old < failures.new }
    ensures counts { failures.old ≤ failures.new }
{
    match fault {
        TableFault::Sqlite(error) => blame(failures, error),
        TableFault::NoMemory => StoreFault::NoMemory,
        TableFault::BadRow(place) => StoreFault::BadRow(place),
    }
}

/// Reads the records of one table by one SELECT. Its first record has the position `first`.
fn read_part<S: Alter>(
    alloc: Global,
    pool: Option<&MessagePool>,
    conn: &mut Connection<S>,
    failures: &mut u64,
    part: Part,
    first: u32,
) -> Result<Vec<Record>, StoreFault>
    requires { first ≤ 4294967295 }
    ensures short { IfOk result (λ records. first + length records.items ≤ 4294967295) }
    ensures reads { ReadsPart (state S.Store conn.old) (state S.Store conn.new) part first result }
    ensures unchanged { HasCleanDisk (state S.Store conn.new)
        → IfErr result (λ e. (place : ℕ)
        → e ≡ StoreFault.BadRow place
        → IsUnchanged (state S.Store conn.old) (state S.Store conn.new)) }
    ensures found { HasCleanDisk (state S.Store conn.new)
        → HasTable (state S.Store conn.old).now.schema (name_of part)
        → IfOk result (λ records.
        read_from (limit_of part) first (table_rows (state S.Store conn.old).now (name_of part))
        ≡ Ok records.items) }
    ensures live_before { IsLive (state S.Store conn.old) }
    ensures device { result ≡ Err StoreFault.Device → failures.old < failures.new }
    ensures counts { failures.old ≤ failures.new }
    ensures calm { OnOk result (failures.new ≡ failures.old) }
{
    let _before = conn.schema();
    let read = rows::read_rows(alloc, pool, conn, part, limit_of(part), first);
    let _after = conn.schema();
    match read {
        Ok(records) => Ok(records),
        Err(fault) => Err(fault_of(failures, fault)),
    }
}

/// Appends the records of one list to another.
fn append_all(mut records: Vec<Record>, more: Vec<Record>) -> Result<Vec<Record>, StoreFault>
    ensures all { IfOk result (λ all. all.items ≡ records.items ++ more.items) }
    ensures fault { IfErr result (λ e. e ≡ StoreFault.NoMemory) }
{
    if records.is_empty() {
        return Ok(more);
    }
    for record in more {
        records.push(record)?;
    }
    Ok(records)
}

/// Reads all records, by one SELECT for each table. The records of the first table come first, and
/// the positions of the second go on from there. If there is a
/// pool, messages may be shared with it.
pub fn read<S: Alter>(
    alloc: Global,
    pool: Option<&MessagePool>,
    conn: &mut Connection<S>,
    failures: &mut u64,
) -> Result<Vec<Record>, StoreFault>
    ensures same { HasCleanDisk (state S.Store conn.new)
        → OnOk result (IsUnchanged (state S.Store conn.old) (state S.Store conn.new)) }
    ensures left { HasCleanDisk (state S.Store conn.new)
        → RollsBackAtMost (state S.Store conn.old) (state S.Store conn.new) }
    ensures found { HasCleanDisk (state S.Store conn.new)
        → HasBoth (state S.Store conn.old).now.schema
        → IfOk result (λ records. StandsFor (state S.Store conn.old).now records.items) }
    ensures sound { HasCleanDisk (state S.Store conn.new)
        → TakesRecords (state S.Store conn.old) result }
    ensures shut { HasCleanDisk (state S.Store conn.new)
        → IsShutJournal (state S.Store conn.old)
        → FindsNoBadRow result }
    ensures stop { Survives (state S.Store conn.old) (state S.Store conn.new) (λ _. ⊥) }
    ensures rest { StaysSafe (state S.Store conn.old) (state S.Store conn.new) }
    ensures live_before { IsLive (state S.Store conn.old) }
    ensures live { IsLive (state S.Store conn.new) }
    ensures placed { IfErr result (λ e. is_place e ≡ false) }
    ensures device { result ≡ Err StoreFault.Device → failures.old < failures.new }
    ensures counts { failures.old ≤ failures.new }
    ensures calm { OnOk result (failures.new ≡ failures.old) }
{
    let records = read_part(alloc, pool, conn, failures, Part::First, 1)?;
    let first = records.len() as u32 + 1;
    let more = read_part(alloc, pool, conn, failures, Part::Second, first)?;
    append_all(records, more)
}

/// The name of this table.
fn name_of(part: Part) -> &'static [u8]
    ensures { result.now ≡ texts.name_of part }
{
    match part {
        Part::First => b"journal",
        Part::Second => b"journal2",
    }
}

/// Whether no transaction is open and the table is there.
fn is_ready<S: Alter>(conn: &Connection<S>, part: Part) -> bool
    ensures auto { IsTrue result → (state S.Store conn.now).in_transaction ≡ false }
    ensures settled { IsTrue result
        → IsTrue (state S.Store conn.now).is_open
        → (state S.Store conn.now).now ≡ (state S.Store conn.now).committed }
    ensures table { IsTrue result
        → has_table (name_of part) (state S.Store conn.now).now.schema ≡ true }
{
    conn.is_autocommit() && table_shape::has_table(conn.schema(), name_of(part))
}

/// Makes the table if it is absent. It refuses a connection with an open transaction, and then
/// changes nothing. It also refuses a connection in which another table, or a view, has the table's
/// name.
pub fn prepare<S: Alter>(
    conn: &mut Connection<S>,
    failures: &mut u64,
    part: Part,
) -> Result<(), StoreFault>
    ensures busy { IsTrue (state S.Store conn.old).in_transaction
        → (conn.new ≡ conn.old) × (result ≡ Err StoreFault.Device) }
    ensures prepared { OnOk result
        (IsPrepared (state S.Store conn.old) (state S.Store conn.new) part) }
    ensures kept { HasCleanDisk (state S.Store conn.new)
        → HasTable (state S.Store conn.old).now.schema (name_of part)
        → KeepsCommit (state S.Store conn.old) (state S.Store conn.new) }
    ensures err { HasCleanDisk (state S.Store conn.new)
        → OnErr result
        (CommitsAtMost (state S.Store conn.old) (state S.Store conn.new) (name_of part)) }
    ensures apart { HasCleanDisk (state S.Store conn.new)
        → part ≡ First
        → Lacks (state S.Store conn.old).now.schema second_name
        → OnOk result (Lacks (state S.Store conn.new).now.schema second_name) }
    ensures stop { Survives (state S.Store conn.old) (state S.Store conn.new)
        (CommitsBy (create_of part) [] (state S.Store conn.old)) }
    ensures known { IfErr result (λ e. (e ≡ StoreFault.NoMemory) ⊎ (e ≡ StoreFault.Device)) }
    ensures calm { OnOk result (failures.new ≡ failures.old) }
{
    if !conn.is_autocommit() {
        return Err(StoreFault::Device);
    }
    match sql::create(conn, part) {
        Ok(_) if is_ready(conn, part) => Ok(()),
        Ok(_) => Err(StoreFault::Device),
        Err(error) => Err(blame(failures, error)),
    }
}

/// Makes one table if it is absent, and reads its rows once, from the position `first` on. It
/// returns the position after the last row.
fn open_part<S: Alter>(
    alloc: Global,
    conn: &mut Connection<S>,
    failures: &mut u64,
    part: Part,
    first: u32,
) -> Result<u32, StoreFault>
    ensures busy { IsTrue (state S.Store conn.old).in_transaction
        → (conn.new ≡ conn.old) × (result ≡ Err StoreFault.Device) }
    ensures opened { IfOk result (λ next. HasCleanDisk (state S.Store conn.new)
        → IsPartOpened (state S.Store conn.old) (state S.Store conn.new) part first next) }
    ensures refused { IfErr result (λ e. HasCleanDisk (state S.Store conn.new)
        → IsPartRefused (state S.Store conn.old) (state S.Store conn.new) part first e) }
    ensures apart { HasCleanDisk (state S.Store conn.new)
        → part ≡ First
        → Lacks (state S.Store conn.old).now.schema second_name
        → OnOk result (Lacks (state S.Store conn.new).now.schema second_name) }
    ensures placed { IfErr result (λ e. is_place e ≡ false) }
    ensures stop { Survives (state S.Store conn.old) (state S.Store conn.new)
        (CommitsBy (create_of part) [] (state S.Store conn.old)) }
    ensures live { OnOk result (IsLive (state S.Store conn.new)) }
    ensures calm { OnOk result (failures.new ≡ failures.old) }
{
    prepare(conn, failures, part)?;
    let next = count_part(alloc, conn, failures, part, first)?;
    Ok(next)
}

/// Makes both tables if they are absent, and reads their rows once. It returns the next position.
/// It reads the first table before it makes the second. So a file that is refused because of the
/// first table is left as it was.
pub fn take_over<S: Alter>(
    alloc: Global,
    conn: &mut Connection<S>,
    failures: &mut u64,
) -> Result<u32, StoreFault>
    ensures busy { IsTrue (state S.Store conn.old).in_transaction
        → (conn.new ≡ conn.old) × (result ≡ Err StoreFault.Device) }
    ensures taken { OnOk result (IsTakenOver (state S.Store conn.old) (state S.Store conn.new)) }
    ensures kept { IfOk result (λ next. IsInStep (state S.Store conn.new) next) }
    ensures refused { IfErr result (λ e. IsGivenBack (state S.Store conn.old)
        (state S.Store conn.new) e) }
    ensures live { OnOk result (IsLive (state S.Store conn.new)) }
    ensures calm { OnOk result (failures.new ≡ failures.old) }
{
    let place = open_part(alloc, conn, failures, Part::First, 1)?;
    open_part(alloc, conn, failures, Part::Second, place)
}
