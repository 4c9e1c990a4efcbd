//! A node opened from five records, with each allocation refused in turn.

ghost use Rattle.std.specs.Prelude.{◌≡◌, ◌++◌, [], ◌∷◌, IfSome, IsTrue, codes};
ghost use Rattle.urb_names.specs.Names.{name};
ghost use Rattle.urb_stable.specs.declared.record.Record.TheVariants.{Cert, Pend, PendCert};

use super::*;
use crate::tests::playing::{gives_back, play_all};
use crate::tests::rows::{Act, DELIVERED, List, Row, Start, What};
use urb_names::{Config, NoMemory};
use urb_node::Ready;

/// The records of an image.
type Records<A> = Vec<Record<Message<A>>, A>;

// Appends a pending message, with its client and that client's number.
fn join_pending<A: Allocator + Copy>(
    records: &mut Records<A>,
    alloc: A,
    named: (u8, u32),
    of: (u16, u32),
    payload: &[u8],
) -> bool
    ensures { IsTrue result
        → records.new.items
        ≡ records.old.items
        ++ Pend (name named.0 named.1)
        (record { client = of.0; number = of.1; payload = payload.now })
        ∷ [] }
{
    match name(named.0, named.1) {
        Some(named) => match message(alloc, of.0, of.1, payload) {
            Some(sent) => records.push(Record::Pend(named, sent)).is_ok(),
            None => false,
        },
        None => false,
    }
}

// The same, with its certificate.
fn join_certified<A: Allocator + Copy>(
    records: &mut Records<A>,
    alloc: A,
    named: (u8, u32),
    of: (u16, u32),
    payload: &[u8],
) -> bool
    ensures { IsTrue result
        → records.new.items
        ≡ records.old.items
        ++ PendCert (name named.0 named.1)
        (record { client = of.0; number = of.1; payload = payload.now })
        ∷ [] }
{
    match name(named.0, named.1) {
        Some(named) => match message(alloc, of.0, of.1, payload) {
            Some(sent) => records.push(Record::PendCert(named, sent)).is_ok(),
            None => false,
        },
        None => false,
    }
}

// Appends a certificate alone.
fn join_certificate<A: Allocator + Copy>(records: &mut Records<A>, named: (u8, u32)) -> bool
    ensures { IsTrue result
        → records.new.items ≡ records.old.items ++ Cert (name named.0 named.1) ∷ [] }
{
    match name(named.0, named.1) {
        Some(named) => records.push(Record::Cert(named)).is_ok(),
        None => false,
    }
}

// The image of node 1 of three: 1.3 waits for its certificate, and all others are delivered.
fn image<A: Allocator + Copy>(alloc: A) -> Option<Records<A>>
    ensures { IfSome result (λ records. records.items ≡
        Pend (name 1 1) (record { client = 7; number = 1; payload = codes "a" })
        ∷ PendCert (name 2 1) (record { client = 7; number = 1; payload = codes "b" })
        ∷ PendCert (name 1 2) (record { client = 8; number = 1; payload = codes "c" })
        ∷ Cert (name 1 1)
        ∷ Pend (name 1 3) (record { client = 7; number = 2; payload = codes "d" })
        ∷ []) }
{
    let mut records = Vec::new(alloc);
    if join_pending(&mut records, alloc, (1, 1), (7, 1), b"a")
        && join_certified(&mut records, alloc, (2, 1), (7, 1), b"b")
        && join_certified(&mut records, alloc, (1, 2), (8, 1), b"c")
        && join_certificate(&mut records, (1, 1))
        && join_pending(&mut records, alloc, (1, 3), (7, 2), b"d")
    {
        return Some(records);
    }
    drop(records);
    None
}

// Opens the node, with its image in other memory.
fn open<A: Allocator + Copy>(heap: A, calm: A) -> Option<Result<Ready<A>, NoMemory>> {
    let config = Config::new(3, 10)?;
    let node = NodeId::new(1)?;
    let records = image(calm)?;
    Some(Ready::open(heap, config, node, records))
}

/// The opened node. If an allocation is refused, the same call succeeds the second time; the flag
/// says whether that happened.
pub(super) fn opened_at_last<A: Allocator + Copy>(heap: A, calm: A) -> Option<(Ready<A>, bool)> {
    match open(heap, calm)? {
        Ok(ready) => Some((ready, false)),
        Err(_) => Some((open(heap, calm)?.ok()?, true)),
    }
}

/// The node is the one that its image describes.
const IS_OPENED: &[Row] = &[
    (
        Act::Show(3, &[(2, 1), (1, 1), (1, 2)], DELIVERED),
        (2, 1),
        b"b",
    ),
    (
        Act::Show(3, &[(2, 1), (1, 1), (1, 2)], (false, true, true)),
        (2, 1),
        b"a",
    ),
];

/// A repeat of a message in the image is accepted under its name, and a new message is drafted
/// under the next one.
const GOES_ON: &[Row] = &[
    (Act::Submit(2, What::Accepted), (1, 3), b"d"),
    (
        Act::Submit(3, What::Drafted(Form::Pending, 6)),
        (1, 4),
        b"e",
    ),
];

static OPENED: [List; 1] = [List {
    start: Start::Opened,
    parts: &[IS_OPENED, GOES_ON],
}];

#[test]
fn an_opened_node_goes_on_from_its_image(rt: HostRuntime) {
    play_all(&rt, &OPENED);
}

static REFUSED: List = List {
    start: Start::Opened,
    parts: &[IS_OPENED],
};

#[test]
fn each_growth_may_be_refused(rt: HostRuntime) {
    assert!(rt; gives_back(rt.alloc(), &REFUSED, 3));
}
