//! What a journal stores and returns, over files in memory.

use super::records::{Form, Kept, Load, TWO};
use super::steps::{Case, Start, Step};
use urb_stable::StoreFault;

/// The first two records, and one that is certified at once.
const CERTIFIED: &[Kept] = &[
    (Form::Pending, 1, Load::Of(b"hi")),
    (Form::Certificate, 1, Load::Of(b"")),
    (Form::Certified, 2, Load::Of(b"")),
];

const GIVEN: &[Step] = &[
    Step::Adopt(Ok(1)),
    Step::Stands(1, false),
    Step::Store(1, (Form::Pending, 1, Load::Of(b"hi")), Ok(())),
    Step::Store(2, (Form::Certificate, 1, Load::Of(b"")), Ok(())),
    Step::Store(3, (Form::Certified, 2, Load::Of(b"")), Ok(())),
    Step::Stands(4, false),
    Step::Holds(CERTIFIED),
    Step::Leave,
    Step::Adopt(Ok(4)),
    Step::Holds(CERTIFIED),
];

const BEHIND: &[Step] = &[
    Step::Sql("CREATE TABLE other(pos INTEGER PRIMARY KEY)", 0),
    Step::Sql("INSERT INTO other VALUES (1)", 0),
    Step::Adopt(Ok(1)),
    Step::Store(1, (Form::Pending, 1, Load::Of(b"hi")), Ok(())),
    Step::Store(2, (Form::Certificate, 1, Load::Of(b"")), Ok(())),
    Step::Leave,
    Step::Adopt(Ok(3)),
    Step::Holds(TWO),
];

/// The first message with a payload of the greatest length, and its certificate.
const LONGEST: &[Kept] = &[
    (Form::Pending, 1, Load::Long(16384)),
    (Form::Certificate, 1, Load::Of(b"")),
];

const GREATEST: &[Step] = &[
    Step::Adopt(Ok(1)),
    Step::Store(1, (Form::Pending, 1, Load::Long(16384)), Ok(())),
    Step::Store(2, (Form::Certificate, 1, Load::Of(b"")), Ok(())),
    Step::Holds(LONGEST),
    Step::Leave,
    Step::Shows("SELECT pos FROM journal2 WHERE length(payload) = 16384", 1),
    Step::Shows("SELECT pos FROM journal", 0),
    Step::Adopt(Ok(3)),
    Step::Holds(LONGEST),
    Step::Stands(3, false),
];

const PLACES: &[Step] = &[
    Step::Store(
        2,
        (Form::Certificate, 1, Load::Of(b"")),
        Err(StoreFault::Place(3)),
    ),
    Step::Store(
        4,
        (Form::Certificate, 1, Load::Of(b"")),
        Err(StoreFault::Place(3)),
    ),
    Step::Holds(TWO),
];

const BUSY: &[Step] = &[
    Step::Adopt(Err(StoreFault::Device)),
    Step::Sql("ROLLBACK", 0),
    Step::Adopt(Ok(3)),
    Step::Holds(TWO),
];

const LIMIT: &[Step] = &[
    Step::Leave,
    Step::Sql("UPDATE journal2 SET payload = ?1 WHERE pos = 1", 16384),
    Step::Adopt(Ok(3)),
    Step::Leave,
    Step::Sql("UPDATE journal2 SET payload = ?1 WHERE pos = 1", 16385),
    Step::Adopt(Err(StoreFault::BadRow(1))),
];

const FIRST: Kept = (Form::Pending, 1, Load::Of(b"hi"));

const SECOND: Kept = (Form::Certificate, 1, Load::Of(b""));

/// The first two records, eight times.
const SIXTEEN: &[Kept] = &[
    FIRST, SECOND, FIRST, SECOND, FIRST, SECOND, FIRST, SECOND, FIRST, SECOND, FIRST, SECOND,
    FIRST, SECOND, FIRST, SECOND,
];

/// The cursor reads two rows ahead at first, and then eight.
const MANY: &[Step] = &[
    Step::Leave,
    Step::Sql(
        "INSERT INTO journal2 SELECT pos + 2, kind, sender, seq, client, number, \
payload FROM journal2",
        0,
    ),
    Step::Sql(
        "INSERT INTO journal2 SELECT pos + 4, kind, sender, seq, client, number, \
payload FROM journal2",
        0,
    ),
    Step::Sql(
        "INSERT INTO journal2 SELECT pos + 8, kind, sender, seq, client, number, \
payload FROM journal2",
        0,
    ),
    Step::Adopt(Ok(17)),
    Step::Holds(SIXTEEN),
    Step::Leave,
    Step::Sql("UPDATE journal2 SET number = 0 WHERE pos = 11", 0),
    Step::Adopt(Err(StoreFault::BadRow(11))),
];

/// What the first two records are changed to.
const CHANGED: &[Kept] = &[
    (Form::Pending, 2, Load::Of(b"hi")),
    (Form::Certificate, 2, Load::Of(b"")),
];

/// An index admits no record twice. The journal doesn't know about the index.
const DOUBTFUL: &[Step] = &[
    Step::Sql("UPDATE journal2 SET number = 2 WHERE pos = 1", 0),
    Step::Sql("CREATE UNIQUE INDEX once ON journal2(seq, kind)", 0),
    Step::Adopt(Ok(3)),
    Step::Store(
        3,
        (Form::Certificate, 2, Load::Of(b"")),
        Err(StoreFault::Device),
    ),
    Step::Stands(3, true),
    Step::Store(
        3,
        (Form::Certificate, 3, Load::Of(b"")),
        Err(StoreFault::Place(3)),
    ),
    Step::Holds(CHANGED),
    Step::Store(3, (Form::Certificate, 3, Load::Of(b"")), Ok(())),
    Step::Stands(4, false),
];

/// What a new journal does, and one with two records. Either only the journal changes its tables,
/// or an SQL statement does too.
pub static STORES: [Case; 8] = [
    ("what is stored is given back", Start::Empty, "", GIVEN),
    ("the same behind another table", Start::Empty, "", BEHIND),
    (
        "a payload of the greatest length comes back",
        Start::Empty,
        "",
        GREATEST,
    ),
    (
        "a position that is not the next is refused",
        Start::Stored,
        "",
        PLACES,
    ),
    (
        "a connection in a transaction is handed back",
        Start::Stored,
        "BEGIN",
        BUSY,
    ),
    (
        "a payload is no longer than its limit",
        Start::Stored,
        "",
        LIMIT,
    ),
    (
        "rows of several batches are read to their end",
        Start::Stored,
        "",
        MANY,
    ),
    (
        "a store that failed waits for a retrieve",
        Start::Stored,
        "UPDATE journal2 SET seq = 2",
        DOUBTFUL,
    ),
];
