//! What a journal does when its last records are taken out.

use super::records::{Form, Kept, Load, TWO};
use super::steps::{Case, Start, Step};
use super::tables::THREE;
use urb_stable::StoreFault;

/// Three records that are stored together after the first two.
const MORE: &[Kept] = &[
    (Form::Certified, 2, Load::Of(b"")),
    (Form::Pending, 3, Load::Of(b"ho")),
    (Form::Certificate, 3, Load::Of(b"")),
];

/// The first two records, and one that is stored in place of the three.
const OTHER: &[Kept] = &[
    (Form::Pending, 1, Load::Of(b"hi")),
    (Form::Certificate, 1, Load::Of(b"")),
    (Form::Pending, 2, Load::Of(b"third")),
];

const LAST: &[Step] = &[
    Step::StoreAll(3, MORE, Ok(())),
    Step::Withdraw(3, Ok(())),
    Step::Stands(3, false),
    Step::Holds(TWO),
    Step::Store(3, (Form::Pending, 2, Load::Of(b"third")), Ok(())),
    Step::Leave,
    Step::Shows("SELECT pos FROM journal2", 3),
    Step::Adopt(Ok(4)),
    Step::Holds(OTHER),
];

const EACH: &[Step] = &[
    Step::Withdraw(0, Ok(())),
    Step::Holds(TWO),
    Step::Withdraw(2, Ok(())),
    Step::Stands(1, false),
    Step::Holds(&[]),
    Step::Leave,
    Step::Shows("SELECT pos FROM journal2", 0),
    Step::Adopt(Ok(1)),
    Step::Holds(&[]),
];

const FEWER: &[Step] = &[
    Step::Withdraw(3, Err(StoreFault::Place(3))),
    Step::Stands(3, false),
    Step::Holds(TWO),
];

/// What the first two records are changed to.
const CHANGED: &[Kept] = &[
    (Form::Pending, 2, Load::Of(b"hi")),
    (Form::Certificate, 2, Load::Of(b"")),
];

/// An index refuses a record, which is in doubt until the records are returned.
const DOUBTFUL: &[Step] = &[
    Step::Sql("UPDATE journal2 SET number = 2 WHERE pos = 1", 0),
    Step::Sql("CREATE UNIQUE INDEX once ON journal2(seq, kind)", 0),
    Step::Adopt(Ok(3)),
    Step::Store(
        3,
        (Form::Certificate, 2, Load::Of(b"")),
        Err(StoreFault::Device),
    ),
    Step::Stands(3, true),
    Step::Withdraw(1, Err(StoreFault::Place(3))),
    Step::Holds(CHANGED),
    Step::Withdraw(1, Ok(())),
    Step::Stands(2, false),
];

const REFERRED: &[Step] = &[
    Step::Adopt(Ok(3)),
    Step::Withdraw(1, Err(StoreFault::Place(3))),
    Step::Stands(3, false),
    Step::Holds(TWO),
];

/// The older table has the second record.
const OLDER: &[Step] = &[
    Step::Withdraw(2, Err(StoreFault::Device)),
    Step::Stands(4, false),
    Step::Holds(THREE),
    Step::Withdraw(1, Ok(())),
    Step::Stands(3, false),
    Step::Holds(TWO),
];

/// What a journal does when its last records are taken out.
pub static WITHDRAWN: [Case; 6] = [
    ("the last records are taken out", Start::Stored, "", LAST),
    (
        "no record and all records are taken out",
        Start::Stored,
        "",
        EACH,
    ),
    (
        "a journal with fewer records refuses",
        Start::Stored,
        "",
        FEWER,
    ),
    (
        "a journal with a record in doubt refuses",
        Start::Stored,
        "UPDATE journal2 SET seq = 2",
        DOUBTFUL,
    ),
    (
        "a journal that a table refers to refuses",
        Start::Stored,
        "CREATE TABLE other(at INTEGER REFERENCES journal2(pos))",
        REFERRED,
    ),
    ("records of the older table stay", Start::Both, "", OLDER),
];
