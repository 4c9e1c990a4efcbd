//! The two tables of a journal: a file that has only the first one, and what else may have the name
//! of either.

use super::records::{Form, Kept, Load, TWO};
use super::steps::{Case, Start, Step};
use urb_stable::StoreFault;

/// The first table.
const CREATE: &str = "CREATE TABLE journal(pos INTEGER PRIMARY KEY, kind INTEGER NOT NULL, \
sender INTEGER NOT NULL, seq INTEGER NOT NULL, client INTEGER NOT NULL, \
number INTEGER NOT NULL, payload BLOB NOT NULL) STRICT";

/// Only the table `journal` with two rows, after another table, as in a journal from before there
/// were two tables.
pub const OLD: &[Step] = &[
    Step::Sql("CREATE TABLE other(x INTEGER)", 0),
    Step::Sql(CREATE, 0),
    Step::Sql("INSERT INTO journal VALUES (1, 1, 1, 1, 7, 1, x'6869')", 0),
    Step::Sql("INSERT INTO journal VALUES (2, 3, 1, 1, 0, 0, x'')", 0),
    Step::Shows("SELECT name FROM sqlite_schema", 2),
];

/// The second message, pending.
pub const THIRD: Kept = (Form::Pending, 2, Load::Of(b"third"));

/// The first two records, and then that one.
pub const THREE: &[Kept] = &[
    (Form::Pending, 1, Load::Of(b"hi")),
    (Form::Certificate, 1, Load::Of(b"")),
    THIRD,
];

/// That file as a journal, with a record in its second table.
pub const BOTH: &[Step] = &[
    Step::Sql("CREATE TABLE other(x INTEGER)", 0),
    Step::Sql(CREATE, 0),
    Step::Sql("INSERT INTO journal VALUES (1, 1, 1, 1, 7, 1, x'6869')", 0),
    Step::Sql("INSERT INTO journal VALUES (2, 3, 1, 1, 0, 0, x'')", 0),
    Step::Adopt(Ok(3)),
    Step::Store(3, THIRD, Ok(())),
];

const GROWN: &[Step] = &[
    Step::Adopt(Ok(3)),
    Step::Holds(TWO),
    Step::Store(3, THIRD, Ok(())),
    Step::Holds(THREE),
    Step::Leave,
    Step::Shows("SELECT pos FROM journal", 2),
    Step::Shows("SELECT pos FROM journal WHERE pos < 3", 2),
    Step::Shows("SELECT pos FROM journal2", 1),
    Step::Shows("SELECT pos FROM journal2 WHERE pos = 3 AND seq = 2", 1),
    Step::Adopt(Ok(4)),
    Step::Holds(THREE),
];

const UNTOUCHED: &[Step] = &[
    Step::Adopt(Err(StoreFault::BadRow(2))),
    Step::Shows("SELECT name FROM sqlite_schema WHERE name = 'journal2'", 0),
    Step::Shows("SELECT name FROM sqlite_schema", 2),
    Step::Shows("SELECT pos FROM journal", 2),
];

/// Its first message has a payload of the greatest length that the first table takes.
const LONG: &[Kept] = &[
    (Form::Pending, 1, Load::Long(1024)),
    (Form::Certificate, 1, Load::Of(b"")),
];

const FIRST_LIMIT: &[Step] = &[
    Step::Sql("UPDATE journal SET payload = ?1 WHERE pos = 1", 1024),
    Step::Adopt(Ok(3)),
    Step::Holds(LONG),
    Step::Leave,
    Step::Sql("UPDATE journal SET payload = ?1 WHERE pos = 1", 1025),
    Step::Adopt(Err(StoreFault::BadRow(1))),
    Step::Sql("UPDATE journal SET payload = x'' WHERE pos = 1", 0),
    Step::Sql(
        "UPDATE journal SET kind = 2, client = 7, number = 1, payload = ?1 WHERE pos = 2",
        1025,
    ),
    Step::Adopt(Err(StoreFault::BadRow(2))),
];

const SECOND_LIMIT: &[Step] = &[
    Step::Adopt(Ok(2)),
    Step::Store(2, (Form::Certified, 2, Load::Of(b"")), Ok(())),
    Step::Leave,
    Step::Sql("UPDATE journal2 SET payload = ?1 WHERE pos = 2", 16384),
    Step::Adopt(Ok(3)),
    Step::Leave,
    Step::Sql("UPDATE journal2 SET payload = ?1 WHERE pos = 2", 16385),
    Step::Adopt(Err(StoreFault::BadRow(2))),
];

/// What is done with an old file, and what it holds afterwards.
pub static OLD_FILES: [Case; 4] = [
    (
        "a new record goes into the second table",
        Start::Old,
        "",
        GROWN,
    ),
    (
        "a file that is refused gets no second table",
        Start::Old,
        "UPDATE journal SET kind = 4 WHERE pos = 2",
        UNTOUCHED,
    ),
    (
        "a payload of the first table is no longer than its limit",
        Start::Old,
        "",
        FIRST_LIMIT,
    ),
    (
        "and one of the second table no longer than that one's",
        Start::Old,
        "DELETE FROM journal WHERE pos = 2",
        SECOND_LIMIT,
    ),
];

/// Other things that have the name of a table, so that there is no journal. For each, a query shows
/// one row as long as it is there.
pub static OTHERS: [Case; 8] = [
    (
        "",
        Start::Empty,
        "CREATE TABLE journal(x INTEGER)",
        &[Step::Refused(
            "SELECT name FROM sqlite_schema WHERE name = 'journal' AND sql LIKE '%(x INTEGER)'",
        )],
    ),
    (
        "",
        Start::Empty,
        "CREATE TABLE journal2(x INTEGER)",
        &[Step::Refused(
            "SELECT name FROM sqlite_schema WHERE name = 'journal2' AND sql LIKE '%(x INTEGER)'",
        )],
    ),
    (
        "",
        Start::Empty,
        "CREATE VIEW journal AS SELECT 1 AS pos",
        &[Step::Refused("SELECT name FROM sqlite_schema WHERE name = 'journal' AND type = 'view'")],
    ),
    (
        "",
        Start::Empty,
        "CREATE VIEW journal2 AS SELECT 1 AS pos",
        &[Step::Refused(
            "SELECT name FROM sqlite_schema WHERE name = 'journal2' AND type = 'view'",
        )],
    ),
    (
        "",
        Start::Empty,
        "CREATE TABLE journal(pos INTEGER PRIMARY KEY, kind INTEGER NOT NULL, \
sender INTEGER NOT NULL, seq INTEGER NOT NULL, client INTEGER NOT NULL, \
number INTEGER NOT NULL, payload BLOB NOT NULL)",
        &[Step::Refused(
            "SELECT name FROM sqlite_schema WHERE name = 'journal' AND sql LIKE '%NOT NULL)'",
        )],
    ),
    (
        "",
        Start::Empty,
        "CREATE TABLE journal2(pos INTEGER PRIMARY KEY, kind INTEGER NOT NULL, \
sender INTEGER NOT NULL, seq INTEGER NOT NULL, client INTEGER NOT NULL, \
number INTEGER NOT NULL, payload BLOB NOT NULL)",
        &[Step::Refused(
            "SELECT name FROM sqlite_schema WHERE name = 'journal2' AND sql LIKE '%NOT NULL)'",
        )],
    ),
    (
        "",
        Start::Empty,
        "CREATE TABLE journal(pos INTEGER PRIMARY KEY, kind INTEGER NOT NULL, \
sender INTEGER NOT NULL, seq INTEGER NOT NULL, client INTEGER NOT NULL, \
number INTEGER NOT NULL, payload BLOB) STRICT",
        &[Step::Refused(
            "SELECT name FROM sqlite_schema WHERE name = 'journal' AND sql LIKE '%payload BLOB) STRICT'",
        )],
    ),
    (
        "",
        Start::Empty,
        "CREATE TABLE journal2(pos INTEGER PRIMARY KEY, sender INTEGER NOT NULL, \
kind INTEGER NOT NULL, seq INTEGER NOT NULL, client INTEGER NOT NULL, \
number INTEGER NOT NULL, payload BLOB NOT NULL) STRICT",
        &[Step::Refused(
            "SELECT name FROM sqlite_schema WHERE name = 'journal2' AND sql LIKE '%sender INTEGER NOT \
NULL, kind%'",
        )],
    ),
];
