//! The records that are foreseen for one node.

ghost use Rattle.std.specs.Prelude.{◌≡◌, ◌≤◌, ◌<◌, ◌==◌, ◌++◌, ◌∷◌, [], IfOk, OnErr, length};
ghost use Rattle.urb_names.specs.Pairs.{own};
ghost use Rattle.urb_stable.specs.Records.{pend};
ghost use Rattle.urb_group.specs.TailQuestions.{TellsTail};
ghost use Rattle.urb_foresight.specs.internal.ReachedWorlds.{with_more};

use std::alloc::{Allocator, Global};
use std::marker::Model;
use urb_group::{Group, Message, NoMemory, NodeId, Record};

/// The greatest number of records that are foreseen for one batch. To foresee one more record, the
/// group reads all those before it. So the time for a batch grows with the square of this number.
pub const MAX_BATCH: usize = 16;

/// The records that the calls foreseen so far will draft at one node, in their order. There are at
/// most `MAX_BATCH`.
#[derive(Drop)]
#[derive_where(Debug)]
pub struct Foresight<A: Allocator = Global> {
    records: Vec<Record<Message<A>>, A>,
}

impl<A: Allocator> Model for Foresight<A> {
    ghost use Rattle.std.specs.Prelude.{◌≤◌, List, length};
    ghost use Rattle.urb_stable.specs.Entries.{Entry};
    ghost use Rattle.urb_foresight.specs.declared.foresight.TheConstants.{MAX_BATCH};

    ghost Value = { List Entry };

    ghost view = { λ a. a.records.items };

    ghost invariant = { λ a. length a.records.items ≤ MAX_BATCH };
}

impl<A: Allocator> Foresight<A> {
    /// Returns a foresight with no records. Allocates no memory.
    pub fn new(alloc: A) -> Foresight<A>
        ensures { result ≡ [] }
    {
        Foresight {
            records: Vec::new(alloc),
        }
    }

    /// Returns the records, the first to be drafted first.
    pub fn records(&self) -> &[Record<Message<A>>]
        ensures value { result.now ≡ self.now }
        ensures most { length self.now ≤ MAX_BATCH }
    {
        &self.records
    }

    /// Returns the records, for a store that is to keep them by one call (`store_ahead`).
    pub fn into_records(self) -> Vec<Record<Message<A>>, A>
        ensures value { result.items ≡ self }
        ensures most { length self ≤ MAX_BATCH }
    {
        let Foresight { records } = self;
        records
    }

    // Says whether there are as many records as there may be.
    pub(crate) fn is_full(&self) -> bool
        ensures value { result ≡ (length self.now == MAX_BATCH) }
        ensures most { length self.now ≤ MAX_BATCH }
    {
        self.records.len() == MAX_BATCH
    }
}

// Returns 1 if a record holds a pair of the node's own, or else 0.
fn count_one<A: Allocator>(entry: &Record<Message<A>>, node: NodeId) -> u32
    ensures own { result ≡ length (own node (pend (entry.now ∷ []))) }
    ensures most { result ≤ 1 }
{
    match entry {
        Record::Pend(name, _) | Record::PendCert(name, _) => {
            let name = *name;
            if name.sender == node {
                return 1;
            }
            0
        }
        Record::Cert(_) => 0,
    }
}

/// Counts the pairs of the node's own in these records.
pub(crate) fn count_own<A: Allocator>(records: &[Record<Message<A>>], node: NodeId) -> u32
    requires { length records.now ≤ MAX_BATCH }
    ensures value { result ≡ length (own node (pend records.now)) }
    ensures most { result ≤ MAX_BATCH }
{
    let mut count = 0;
    for entry in records {
        count += count_one(entry, node);
    }
    count
}

impl<A: Allocator + Copy> Foresight<A> {
    // Says whether a record may follow the others at the node. They stay as they are.
    pub(crate) fn may_add(
        &mut self,
        group: &Group<A>,
        node: NodeId,
        entry: Record<Message<A>>,
    ) -> Result<bool, NoMemory>
        requires room { length self.old < MAX_BATCH }
        ensures may { IfOk result
            (λ may. TellsTail group.now node (self.old ++ entry ∷ []) may) }
        ensures same { self.new ≡ self.old }
    {
        self.records.push(entry)?;
        let may = group.may_follow(node, &self.records);
        self.records.pop();
        Ok(may)
    }

    // Puts a record behind the others if it may follow them at the node, and says whether it did.
    pub(crate) fn add(
        &mut self,
        group: &Group<A>,
        node: NodeId,
        entry: Record<Message<A>>,
    ) -> Result<bool, NoMemory>
        requires room { length self.old < MAX_BATCH }
        ensures may { IfOk result
            (λ may. TellsTail group.now node (self.old ++ entry ∷ []) may) }
        ensures added { IfOk result (λ may. self.new ≡ with_more may self.old entry) }
        ensures err { OnErr result (self.new ≡ self.old) }
    {
        self.records.push(entry)?;
        if group.may_follow(node, &self.records) {
            return Ok(true);
        }
        self.records.pop();
        Ok(false)
    }
}
