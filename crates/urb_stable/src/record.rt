//! What a node keeps in its storage.
ghost use Rattle.std.specs.Prelude.{◌≡◌, IfOk};
ghost use Rattle.std.specs.Bool.{MatchBool};
ghost use Rattle.std.specs.List.{All};
ghost use Rattle.urb_stable.specs.Entries.{name_of, IsEntry};

use std::alloc::Allocator;
use urb_names::{Message, Name, NoMemory};

/// What a node stores. A node's list of records says which messages are pending at the node, and
/// which of them are certified. The textbook calls the certified ones delivered (section 3.7).
#[derive(Debug, Drop)]
pub enum Record<M = Message> {
    /// The message is pending.
    Pend(Name, M),
    /// The message is pending and certified at once.
    PendCert(Name, M),
    /// A pending message is certified.
    Cert(Name),
}

impl<A: Allocator> Record<Message<A>> {
    /// The name that it is about.
    pub fn name(&self) -> Name
        ensures { result ≡ name_of self.now }
    {
        match self {
            Record::Pend(name, _) => *name,
            Record::PendCert(name, _) => *name,
            Record::Cert(name) => *name,
        }
    }

    /// Whether the two records are the same.
    pub fn is_same(&self, other: &Record<Message<A>>) -> bool
        ensures { MatchBool result (self.now ≡ other.now) (¬ (self.now ≡ other.now)) }
    {
        match (self, other) {
            (Record::Pend(a, m), Record::Pend(b, n)) => a == b && m.is_same(n),
            (Record::PendCert(a, m), Record::PendCert(b, n)) => a == b && m.is_same(n),
            (Record::Cert(a), Record::Cert(b)) => a == b,
            _ => false,
        }
    }

    /// Does nothing at run time; it brings the value's invariant into the proof: the record is
    /// within its limits.
    pub fn recall(&self)
        ensures { IsEntry self.now }
    {
        match self {
            Record::Pend(name, message) | Record::PendCert(name, message) => {
                name.recall();
                message.recall();
            }
            Record::Cert(name) => name.recall(),
        }
    }
}

impl<A: Allocator + Copy> Record<Message<A>> {
    /// Another record with the same content, which shares the payload's memory.
    pub fn share(&self, alloc: A) -> Result<Record<Message<A>>, NoMemory>
        ensures { IfOk result (λ r. r ≡ self.now) }
    {
        match self {
            Record::Pend(name, message) => Ok(Record::Pend(*name, message.share(alloc)?)),
            Record::PendCert(name, message) => Ok(Record::PendCert(*name, message.share(alloc)?)),
            Record::Cert(name) => Ok(Record::Cert(*name)),
        }
    }
}

/// Changes nothing; it brings the invariant of each record of a list into the proof. The loop may
/// stay in the program.
pub fn recall_records<A: Allocator>(records: &[Record<Message<A>>])
    ensures { All IsEntry records.now }
{
    for record in records {
        record.recall();
    }
}
