//! Whether a database has a table of records under a name. A table of another kind or a view
//! doesn't count.

ghost use Rattle.std.specs.Prelude.{◌≡◌, ◌↔◌, IsTrue};
ghost use Rattle.urb_sqlite.specs.TableShapes as shape;
ghost use Rattle.urb_sqlite.specs.internal.TableReferences.{RefersToNone};

use sqlite_schema::schema::{Column, Kind, Schema, Table};
use sqlite_value::keys::Collation;
use sqlite_value::value::Value;

fn is_null(value: &Value) -> bool
    ensures { result ≡ shape.is_null value.now }
{
    matches!(value, Value::Null)
}

fn is_binary(collation: Collation) -> bool
    ensures { result ≡ shape.is_binary collation }
{
    matches!(collation, Collation::Binary)
}

fn is_integer(kind: Kind) -> bool
    ensures { result ≡ shape.is_integer kind }
{
    matches!(kind, Kind::Integer)
}

fn is_blob(kind: Kind) -> bool
    ensures { result ≡ shape.is_blob kind }
{
    matches!(kind, Kind::Blob)
}

fn is_plain(column: &Column, name: &[u8]) -> bool
    ensures { result ≡ shape.is_plain name.now column.now }
{
    column.name.as_slice() == name
        && column.is_strict
        && is_null(&column.default)
        && is_binary(column.collation)
}

fn is_rowid(columns: &[Column], at: usize, name: &[u8]) -> bool
    ensures { result ≡ shape.passes_at (shape.is_rowid name.now) columns.now at }
{
    match columns.get(at) {
        Some(column) => is_plain(column, name) && is_integer(column.kind) && !column.not_null,
        None => false,
    }
}

fn is_count(columns: &[Column], at: usize, name: &[u8]) -> bool
    ensures { result ≡ shape.passes_at (shape.is_count name.now) columns.now at }
{
    match columns.get(at) {
        Some(column) => is_plain(column, name) && is_integer(column.kind) && column.not_null,
        None => false,
    }
}

fn is_bytes(columns: &[Column], at: usize, name: &[u8]) -> bool
    ensures { result ≡ shape.passes_at (shape.is_bytes name.now) columns.now at }
{
    match columns.get(at) {
        Some(column) => is_plain(column, name) && is_blob(column.kind) && column.not_null,
        None => false,
    }
}

fn are_columns(columns: &[Column]) -> bool
    ensures { result ≡ shape.are_columns columns.now }
{
    columns.len() == 7
        && is_rowid(columns, 0, b"pos")
        && is_count(columns, 1, b"kind")
        && is_count(columns, 2, b"sender")
        && is_count(columns, 3, b"seq")
        && is_count(columns, 4, b"client")
        && is_count(columns, 5, b"number")
        && is_bytes(columns, 6, b"payload")
}

fn is_keyed(table: &Table) -> bool
    ensures { result ≡ shape.is_keyed table.now }
{
    let is_first = match table.key {
        Some(at) => at == 0,
        None => false,
    };
    is_first
        && table.primary.len() == 1
        && match table.primary.get(0) {
            Some(at) => *at == 0,
            None => false,
        }
}

fn is_free(table: &Table) -> bool
    ensures { result ≡ shape.is_free table.now }
{
    table.uniques.len() == 0
        && table.orders.len() == 0
        && table.checks.roots.len() == 0
        && table.references.len() == 0
}

fn is_written(table: &Table) -> bool
    ensures { result ≡ shape.is_written table.now }
{
    table.computed.len() == 0
        && table.stamps.places.len() == 0
        && table.stamps.terms.roots.len() == 0
        && table.stamps.formats.len() == 0
        && !table.is_counted
}

fn is_journal(table: &Table, name: &[u8]) -> bool
    ensures { result ≡ shape.is_journal name.now table.now }
{
    table.name.as_slice() == name
        && are_columns(table.columns.as_slice())
        && is_keyed(table)
        && is_free(table)
        && is_written(table)
}

/// Whether the table with this name is a table of records.
pub fn has_table(schema: &Schema, name: &[u8]) -> bool
    ensures { result ≡ shape.has_table name.now schema.now }
{
    match schema.table_named(name) {
        Some(at) => match schema.tables.get(at) {
            Some(table) => is_journal(table, name),
            None => false,
        },
        None => false,
    }
}

/// Whether no table refers to another one by a foreign key.
pub fn is_apart(schema: &Schema) -> bool
    ensures { IsTrue result ↔ RefersToNone schema.now }
{
    schema
        .tables
        .as_slice()
        .iter()
        .all(|table| table.references.len() == 0)
}
