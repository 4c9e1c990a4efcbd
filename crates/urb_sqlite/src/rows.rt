//! The rows of a table of records, and their records.

ghost use Rattle.std.specs.Prelude.{◌≡◌, ◌⊎◌, ◌<◌, ◌≤◌, ◌+◌, ℕ, [], length, IfOk, IfErr, OnErr, Ok};
ghost use Rattle.std.specs.Prelude.{Err, option_map, Option, Some, None, IsTrue};
ghost use Rattle.sqlite.specs.State.{HasCleanDisk, IsUnchanged, IsRolledBack, Shown, Begins};
ghost use Rattle.sqlite.specs.State.{Survives};
ghost use Rattle.sqlite.specs.Held.{state};
ghost use Rattle.sqlite.specs.Order.{column};
ghost use Rattle.urb_sqlite.specs.internal.JournalStatements.{select_of};
ghost use Rattle.urb_sqlite.specs.RowReadings as reading;
ghost use Rattle.urb_sqlite.specs.RowReadings.{read_from};
ghost use Rattle.urb_names.specs.declared.limits.TheConstants.{MAX_PAYLOAD};

use crate::sql::Part;
use crate::{MessagePool, sql};
use sqlite::types::ValueRef;
use sqlite::{Alter, Connection, Error, Row};
use std::alloc::{AllocFailed, Global};
use urb_names::{ClientId, MAX_NODES, MAX_PAYLOAD, Message, Name, NoMemory, NodeId};
use urb_stable::Record;

// The first number after the numbers of nodes.
const NODES_END: u32 = MAX_NODES as u32 + 1;

/// The numbers in a row.
#[derive(Clone, Copy, Drop)]
pub struct Columns {
    pub pos: u32,
    pub kind: u32,
    pub sender: u32,
    pub seq: u32,
    pub client: u32,
    pub number: u32,
}

/// The number in a column, if it is one of 32 bits.
fn number_at(row: &Row, at: usize) -> Option<u32>
    ensures { result ≡ reading.number_in (column row.now at) }
{
    match row.get_ref(at) {
        Ok(ValueRef::Int(n)) => u32::try_from(n).ok(),
        _ => None,
    }
}

fn numbers_in(row: &Row) -> Option<Columns>
    ensures { result ≡ reading.numbers_in row.now }
{
    Some(Columns {
        pos: number_at(row, 0)?,
        kind: number_at(row, 1)?,
        sender: number_at(row, 2)?,
        seq: number_at(row, 3)?,
        client: number_at(row, 4)?,
        number: number_at(row, 5)?,
    })
}

fn payload_at(row: &Row) -> Option<&[u8]>
    ensures { option_map (λ b. b.now) result ≡ reading.bytes_in (column row.now 6) }
{
    match row.get_ref(6) {
        Ok(ValueRef::Blob(bytes)) => Some(bytes),
        _ => None,
    }
}

fn is_name(columns: Columns) -> bool
    ensures { result ≡ reading.is_name columns.sender columns.seq }
{
    0 < columns.sender && columns.sender < NODES_END && 0 < columns.seq
}

fn is_message(limit: usize, columns: Columns, payload: &[u8]) -> bool
    ensures { result ≡ reading.is_message limit columns.client columns.number payload.now }
{
    0 < columns.client && columns.client < 65536 && 0 < columns.number && payload.len() <= limit
}

fn is_bare(columns: Columns, payload: &[u8]) -> bool
    ensures { result ≡ reading.is_bare columns payload.now }
{
    columns.client == 0 && columns.number == 0 && payload.is_empty()
}

fn name_in(columns: Columns) -> Name
    requires { IsTrue (reading.is_name columns.sender columns.seq) }
    ensures { result ≡ reading.name_in columns }
{
    Name {
        sender: NodeId::new(columns.sender as u8).unwrap(),
        seq: columns.seq,
    }
}

/// The message in these columns. If there is a pool, it may share its payload with a message of the
/// pool.
fn message_in(
    alloc: Global,
    pool: Option<&MessagePool>,
    name: Name,
    columns: Columns,
    payload: &[u8],
) -> Result<Message, NoMemory>
    requires { IsTrue (reading.is_message MAX_PAYLOAD columns.client columns.number payload.now) }
    ensures { IfOk result (λ m. m ≡ reading.message_in columns payload.now) }
{
    let client = ClientId::new(columns.client as u16).unwrap();
    match pool {
        Some(pool) => pool.message(alloc, name, client, columns.number, payload),
        None => Message::copy_of(alloc, client, columns.number, payload),
    }
}

fn record_in(
    alloc: Global,
    pool: Option<&MessagePool>,
    limit: usize,
    place: u32,
    columns: Columns,
    payload: &[u8],
) -> Result<Option<Record>, NoMemory>
    requires { limit ≤ MAX_PAYLOAD }
    ensures { IfOk result (λ found. found ≡ reading.record_in limit place columns payload.now) }
{
    if columns.pos != place || place == u32::MAX || !is_name(columns) {
        return Ok(None);
    }
    let name = name_in(columns);
    match columns.kind {
        1 if is_message(limit, columns, payload) => {
            let message = message_in(alloc, pool, name, columns, payload)?;
            Ok(Some(Record::Pend(name, message)))
        }
        2 if is_message(limit, columns, payload) => {
            let message = message_in(alloc, pool, name, columns, payload)?;
            Ok(Some(Record::PendCert(name, message)))
        }
        3 if is_bare(columns, payload) => Ok(Some(Record::Cert(name))),
        _ => Ok(None),
    }
}

/// The record of the row at this place, if the row is a record. If there is a pool, its message may
/// be shared with it.
pub fn record_at(
    alloc: Global,
    pool: Option<&MessagePool>,
    limit: usize,
    place: u32,
    row: &Row,
) -> Result<Option<Record>, NoMemory>
    requires { limit ≤ MAX_PAYLOAD }
    ensures { IfOk result (λ found. found ≡ reading.record_at limit place row.now) }
{
    let Some(columns) = numbers_in(row) else {
        return Ok(None);
    };
    let Some(payload) = payload_at(row) else {
        return Ok(None);
    };
    record_in(alloc, pool, limit, place, columns, payload)
}

/// Why reading a table stopped before its end.
#[derive(Drop)]
pub enum TableFault {
    /// The database refused.
    Sqlite(Error),
    /// An allocation was refused.
    NoMemory,
    /// The row at this place is no record.
    BadRow(u32),
}

impl From<Error> for TableFault {
    ghost use Rattle.std.specs.Prelude.{◌≡◌};
    ghost use Rattle.urb_sqlite.specs.declared.rows.TableFault.TheVariants.{Sqlite};

    ghost from_gives = { λ e fault. fault ≡ Sqlite e };

    fn from(error: Error) -> TableFault {
        TableFault::Sqlite(error)
    }
}

impl From<NoMemory> for TableFault {
    ghost use Rattle.std.specs.Prelude.{◌≡◌};
    ghost use Rattle.urb_sqlite.specs.declared.rows.TableFault.TheVariants.{NoMemory as no_memory};

    ghost from_gives = { λ _ fault. fault ≡ no_memory };

    fn from(_: NoMemory) -> TableFault {
        TableFault::NoMemory
    }
}

impl<T: Drop> From<AllocFailed<T>> for TableFault {
    ghost use Rattle.std.specs.Prelude.{◌≡◌};
    ghost use Rattle.urb_sqlite.specs.declared.rows.TableFault.TheVariants.{NoMemory as no_memory};

    ghost from_gives = { λ _ fault. fault ≡ no_memory };

    fn from(_: AllocFailed<T>) -> TableFault {
        TableFault::NoMemory
    }
}

/// Reads the records of a table row by row, so that only a batch of rows is in memory besides them.
/// The first row is at the place `first`, and a payload has at most `limit` bytes. The rows after a
/// bad row are not read. If there is a pool, messages may be shared with it.
pub fn read_rows<S: Alter>(
    alloc: Global,
    pool: Option<&MessagePool>,
    conn: &mut Connection<S>,
    part: Part,
    limit: usize,
    first: u32,
) -> Result<Vec<Record>, TableFault>
    requires { limit ≤ MAX_PAYLOAD }
    ensures records { HasCleanDisk (state S.Store conn.new)
        → IfOk result (λ records. (rows : _)
        × Shown (select_of part) [] (state S.Store conn.old) (state S.Store conn.new) rows
        × (read_from limit first rows ≡ Ok records.items)) }
    ensures short { IfOk result (λ records. first + length records.items ≤ 4294967295) }
    ensures bad { HasCleanDisk (state S.Store conn.new)
        → IfErr result (λ e. (place : ℕ)
        → e ≡ TableFault.BadRow place
        → (rows : _)
        × Begins (select_of part) [] (state S.Store conn.old) rows
        × (read_from limit first rows ≡ Err place)) }
    ensures unchanged { HasCleanDisk (state S.Store conn.new)
        → IfErr result (λ e. (place : ℕ)
        → e ≡ TableFault.BadRow place
        → IsUnchanged (state S.Store conn.old) (state S.Store conn.new)) }
    ensures left { HasCleanDisk (state S.Store conn.new)
        → OnErr result (IsUnchanged (state S.Store conn.old) (state S.Store conn.new)
        ⊎ IsRolledBack (state S.Store conn.old) (state S.Store conn.new)) }
    ensures stop { Survives (state S.Store conn.old) (state S.Store conn.new) (λ _. ⊥) }
{
    let mut records = Vec::new(alloc);
    let mut place = first;
    let mut rows = conn.query(sql::select(part), &[])?;
    'rows: loop {
        rows.advance()?;
        let Some(row) = rows.get() else {
            return Ok(records);
        };
        match record_at(alloc, pool, limit, place, row)? {
            Some(record) => records.push(record)?,
            None => return Err(TableFault::BadRow(place)),
        }
        place += 1;
    }
}
