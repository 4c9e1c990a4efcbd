//! The SQL statements of a journal, each in a call of its own.

ghost use Rattle.std.specs.Prelude.{◌≡◌, ◌+◌, ◌∷◌, ◌≤◌, [], IsTrue, OnErr, OnOk, false, length};
ghost use Rattle.std.specs.Prelude.{pos};
ghost use Rattle.sqlite.specs.declared.types.Value.TheVariants.{Int};
ghost use Rattle.sqlite.specs.State.{HasCleanDisk, Executes, ExecutesInside, Survives, CommitsBy};
ghost use Rattle.sqlite.specs.Held.{state};
ghost use Rattle.urb_sqlite.specs.internal.JournalStatements.{create_of, delete_text};
ghost use Rattle.urb_sqlite.specs.internal.JournalStatements.{insert_text, select_of};
ghost use Rattle.urb_sqlite.specs.internal.TransactionChanges.{EmptiesTo, FillsTo, IsEmptied};
ghost use Rattle.urb_sqlite.specs.internal.TransactionChanges.{IsFilled, IsUndone};
ghost use Rattle.urb_sqlite.specs.internal.TableReferences.{RefersToNone};
ghost use Rattle.urb_sqlite.specs.RecordRows.{columns_of, row_of};

use crate::rows::Columns;
use sqlite::{Alter, Connection, Error, Transaction, params};
use urb_names::{MAX_PAYLOAD, Message, Name};
use urb_stable::Record;

/// A table of a journal: the older one, and the one that takes new records.
#[derive(Clone, Copy, Drop)]
pub enum Part {
    First,
    Second,
}

/// The most bytes that a payload has in the older table.
pub const LONGEST_IN_FIRST: usize = 1_024;

/// The most bytes that a payload has in the table that takes new records. Older programs read that
/// table too, so this number stays if `MAX_PAYLOAD` changes. Longer payloads need a table of their
/// own.
pub const LONGEST_IN_SECOND: usize = 16_384;

// The second table takes each payload.
const _: () = prove!(MAX_PAYLOAD <= LONGEST_IN_SECOND);

/// Makes the table if it is absent.
pub fn create<S: Alter>(conn: &mut Connection<S>, part: Part) -> Result<usize, Error>
    ensures runs { HasCleanDisk (state S.Store conn.new)
        → Executes (create_of part) [] (state S.Store conn.old) (state S.Store conn.new) result }
    ensures survives { Survives (state S.Store conn.old) (state S.Store conn.new)
        (CommitsBy (create_of part) [] (state S.Store conn.old)) }
{
    match part {
        Part::First => conn.execute(
            "CREATE TABLE IF NOT EXISTS journal(pos INTEGER PRIMARY KEY, kind INTEGER NOT NULL, sender INTEGER NOT NULL, seq INTEGER NOT NULL, client INTEGER NOT NULL, number INTEGER NOT NULL, payload BLOB NOT NULL) STRICT",
            &[],
        ),
        Part::Second => conn.execute(
            "CREATE TABLE IF NOT EXISTS journal2(pos INTEGER PRIMARY KEY, kind INTEGER NOT NULL, sender INTEGER NOT NULL, seq INTEGER NOT NULL, client INTEGER NOT NULL, number INTEGER NOT NULL, payload BLOB NOT NULL) STRICT",
            &[],
        ),
    }
}

// The numbers of the row of a message's record.
fn columns_with(place: u32, kind: u32, name: Name, m: &Message) -> Columns
    ensures { result
        ≡ record {
          pos = place;
          kind = kind;
          sender = name.sender;
          seq = name.seq;
          client = m.now.client;
          number = m.now.number;
        } }
{
    Columns {
        pos: place,
        kind,
        sender: u32::from(name.sender.number()),
        seq: name.seq,
        client: u32::from(m.client().number()),
        number: m.number(),
    }
}

// Adds a row with these numbers and this payload.
fn insert_row<S: Alter>(
    conn: &mut Connection<S>,
    columns: Columns,
    payload: &[u8],
) -> Result<usize, Error>
    ensures runs { HasCleanDisk (state S.Store conn.new)
        → Executes insert_text
        (columns_of columns.pos columns.kind columns.sender columns.seq columns.client
        columns.number payload.now) (state S.Store conn.old) (state S.Store conn.new) result }
    ensures survives { Survives (state S.Store conn.old) (state S.Store conn.new)
        (CommitsBy insert_text
        (columns_of columns.pos columns.kind columns.sender columns.seq columns.client
        columns.number payload.now) (state S.Store conn.old)) }
{
    let (place, kind, sender) = (columns.pos, columns.kind, columns.sender);
    let (seq, client, number) = (columns.seq, columns.client, columns.number);
    conn.execute(
        "INSERT INTO journal2 VALUES (?1, ?2, ?3, ?4, ?5, ?6, ?7)",
        params![place, kind, sender, seq, client, number, payload],
    )
}

/// Adds the record's row.
pub fn insert<S: Alter>(
    conn: &mut Connection<S>,
    place: u32,
    entry: &Record,
) -> Result<usize, Error>
    ensures runs { HasCleanDisk (state S.Store conn.new)
        → Executes insert_text (row_of place entry.now) (state S.Store conn.old)
        (state S.Store conn.new) result }
    ensures survives { Survives (state S.Store conn.old) (state S.Store conn.new)
        (CommitsBy insert_text (row_of place entry.now) (state S.Store conn.old)) }
{
    match entry {
        Record::Pend(name, m) => { insert_row(conn, columns_with(place, 1, *name, m), m.payload()) }
        Record::PendCert(name, m) => {
            insert_row(conn, columns_with(place, 2, *name, m), m.payload())
        }
        Record::Cert(name) => {
            let columns = Columns {
                pos: place,
                kind: 3,
                sender: u32::from(name.sender.number()),
                seq: name.seq,
                client: 0,
                number: 0,
            };
            insert_row(conn, columns, &[])
        }
    }
}

// Adds a row with these numbers and this payload, inside a transaction.
fn insert_row_inside<S: Alter>(
    tx: &mut Transaction<'_, S>,
    columns: Columns,
    payload: &[u8],
) -> Result<usize, Error>
    ensures same_reference { tx.new.conn.ghost_name ≡ tx.old.conn.ghost_name }
    ensures runs { HasCleanDisk (state S.Store tx.new.conn.now)
        → IsTrue (state S.Store tx.old.conn.now).in_transaction
        → ExecutesInside 0 insert_text
        (columns_of columns.pos columns.kind columns.sender columns.seq columns.client
        columns.number payload.now) (state S.Store tx.old.conn.now)
        (state S.Store tx.new.conn.now) result }
    ensures survives { Survives (state S.Store tx.old.conn.now) (state S.Store tx.new.conn.now)
        (λ _. ⊥) }
{
    let (pos, kind, sender) = (columns.pos, columns.kind, columns.sender);
    let (seq, client, number) = (columns.seq, columns.client, columns.number);
    let text = "INSERT INTO journal2 VALUES (?1, ?2, ?3, ?4, ?5, ?6, ?7)";
    tx.execute(
        text,
        params![pos, kind, sender, seq, client, number, payload],
    )
}

// Adds the record's row, inside a transaction.
fn insert_inside<S: Alter>(
    tx: &mut Transaction<'_, S>,
    place: u32,
    entry: &Record,
) -> Result<usize, Error>
    ensures same_reference { tx.new.conn.ghost_name ≡ tx.old.conn.ghost_name }
    ensures runs { HasCleanDisk (state S.Store tx.new.conn.now)
        → IsTrue (state S.Store tx.old.conn.now).in_transaction
        → ExecutesInside 0 insert_text (row_of place entry.now) (state S.Store tx.old.conn.now)
        (state S.Store tx.new.conn.now) result }
    ensures survives { Survives (state S.Store tx.old.conn.now) (state S.Store tx.new.conn.now)
        (λ _. ⊥) }
{
    match entry {
        Record::Pend(name, m) => {
            insert_row_inside(tx, columns_with(place, 1, *name, m), m.payload())
        }
        Record::PendCert(name, m) => {
            insert_row_inside(tx, columns_with(place, 2, *name, m), m.payload())
        }
        Record::Cert(name) => {
            let columns = Columns {
                pos: place,
                kind: 3,
                sender: u32::from(name.sender.number()),
                seq: name.seq,
                client: 0,
                number: 0,
            };
            insert_row_inside(tx, columns, &[])
        }
    }
}

/// Adds the rows of all these records, the first at this place, in one transaction, which one
/// commit ends. After an error none of them is added.
pub fn insert_all<S: Alter>(
    conn: &mut Connection<S>,
    place: u32,
    entries: &[Record],
) -> Result<(), Error>
    requires auto { conn.old.in_transaction ≡ false }
    requires low { place + length entries.now ≤ 4294967295 }
    ensures ok { HasCleanDisk (state S.Store conn.new)
        → OnOk result
        (IsFilled (state S.Store conn.old) (state S.Store conn.new) place entries.now) }
    ensures err { HasCleanDisk (state S.Store conn.new)
        → OnErr result (IsUndone (state S.Store conn.old) (state S.Store conn.new)) }
    ensures survives { Survives (state S.Store conn.old) (state S.Store conn.new)
        (FillsTo (state S.Store conn.old) place entries.now) }
{
    let mut at = place;
    let mut tx = conn.transaction();
    for entry in entries {
        entry.recall();
        insert_inside(&mut tx, at, entry)?;
        at += 1;
    }
    tx.commit()?;
    Ok(())
}

// Takes out the rows from this place on, inside a transaction.
fn delete_inside<S: Alter>(tx: &mut Transaction<'_, S>, first: u32) -> Result<usize, Error>
    ensures same_reference { tx.new.conn.ghost_name ≡ tx.old.conn.ghost_name }
    ensures runs { HasCleanDisk (state S.Store tx.new.conn.now)
        → IsTrue (state S.Store tx.old.conn.now).in_transaction
        → ExecutesInside 0 delete_text (Int (pos first) ∷ []) (state S.Store tx.old.conn.now)
        (state S.Store tx.new.conn.now) result }
    ensures survives { Survives (state S.Store tx.old.conn.now) (state S.Store tx.new.conn.now)
        (λ _. ⊥) }
{
    tx.execute("DELETE FROM journal2 WHERE pos >= ?1", params![first])
}

/// Takes out the rows from this place on in one transaction, which one commit ends. After an error
/// all rows are still there. It is an error if the rows aren't as many as `count`.
pub fn delete_from<S: Alter>(
    conn: &mut Connection<S>,
    first: u32,
    count: usize,
) -> Result<(), Error>
    requires auto { conn.old.in_transaction ≡ false }
    requires apart { RefersToNone (state S.Store conn.old).now.schema }
    ensures ok { HasCleanDisk (state S.Store conn.new)
        → OnOk result (IsEmptied (state S.Store conn.old) (state S.Store conn.new) first count) }
    ensures err { HasCleanDisk (state S.Store conn.new)
        → OnErr result (IsUndone (state S.Store conn.old) (state S.Store conn.new)) }
    ensures survives { Survives (state S.Store conn.old) (state S.Store conn.new)
        (EmptiesTo (state S.Store conn.old) first count) }
{
    let mut change = conn.transaction();
    let gone = delete_inside(&mut change, first)?;
    if gone != count {
        // The older table has some of these records. Nothing is committed.
        return Err(Error::QueryReturnedNoRows);
    }
    change.commit()?;
    Ok(())
}

/// The text of the SELECT that reads the rows of a table, in order of `pos`.
pub fn select(part: Part) -> &'static str
    ensures { result.now ≡ select_of part }
{
    match part {
        Part::First => {
            "SELECT pos, kind, sender, seq, client, number, payload FROM journal ORDER BY pos"
        }
        Part::Second => {
            "SELECT pos, kind, sender, seq, client, number, payload FROM journal2 ORDER BY pos"
        }
    }
}
