//! The backlog of a receiver: datagrams that wait for room in its worker's channel.

ghost use Rattle.std.specs.Prelude.{◌≡◌, ◌≤◌, ◌+◌, ◌↔◌, [], ◌∷◌, ◌++◌, IfErr, IsTrue, MatchOption};
ghost use Rattle.std.specs.Prelude.{OnErr, OnOk};
ghost use Rattle.urb_link.specs.Backlogs.{room_of, room_of_all};

use std::alloc::Global;
use std::collections::VecDeque;
use std::marker::Model;

/// The greatest room that the datagrams of a backlog take together, in bytes.
pub const BACKLOG: usize = 4_194_304;

/// The overhead that is counted for each datagram, in bytes. It covers the datagram's place in the
/// queue, which may have twice the places that it needs, and what the allocator adds to a block. So
/// empty datagrams are bounded too.
pub const KEEPING: usize = 64;

/// Datagrams that wait, the oldest first. The bound is on the room that they take, not on their
/// number: a datagram has from no bytes to more than 16,000.
#[derive(Drop)]
pub struct Backlog {
    waiting: VecDeque<Vec<u8>>,
    room: usize,
}

impl Model for Backlog {
    ghost use Rattle.std.specs.Prelude.{List, ℕ, ◌≡◌, ◌≤◌, map};
    ghost use Rattle.urb_link.specs.Backlogs.{room_of_all};
    ghost use Rattle.urb_link.specs.declared.backlog.TheConstants.{BACKLOG};

    ghost Value = { List (List ℕ) };

    ghost view = { λ b. map (λ datagram. datagram.items) b.waiting.items };

    ghost invariant = { λ b. (b.room ≡ room_of_all
        (map (λ datagram. datagram.items) b.waiting.items))
        × (b.room ≤ BACKLOG) };
}

impl Backlog {
    /// An empty backlog. Takes no memory.
    pub fn new(alloc: Global) -> Backlog
        ensures { result ≡ [] }
    {
        Backlog {
            waiting: VecDeque::new(alloc),
            room: 0,
        }
    }

    /// The room that the waiting datagrams take, in bytes: for each, its length and `KEEPING`. At
    /// most `BACKLOG`.
    pub fn bytes(&self) -> usize
        ensures exact { result ≡ room_of_all self.now }
        ensures bound { result ≤ BACKLOG }
    {
        self.room
    }

    /// Whether nothing waits.
    pub fn is_empty(&self) -> bool
        ensures { IsTrue result ↔ (self.now ≡ []) }
    {
        self.waiting.is_empty()
    }

    /// Whether there is room for a datagram of this length.
    pub fn has_room(&self, length: usize) -> bool
        ensures { IsTrue result ↔ (room_of_all self.now + (length + KEEPING) ≤ BACKLOG) }
    {
        let free = BACKLOG - self.room;
        length <= free && KEEPING <= free - length
    }

    /// Puts a datagram after all others. If there is no room for it, or memory is refused, the
    /// datagram is returned and nothing has changed.
    pub fn push(&mut self, datagram: Vec<u8>) -> Result<(), Vec<u8>>
        ensures last { OnOk result (self.new ≡ self.old ++ datagram.items ∷ []) }
        ensures room { OnOk result (room_of_all self.old + room_of datagram.items ≤ BACKLOG) }
        ensures back { IfErr result (λ it. it ≡ datagram) }
        ensures refused { OnErr result (self.new ≡ self.old) }
    {
        if !self.has_room(datagram.len()) {
            return Err(datagram);
        }
        let room = datagram.len() + KEEPING;
        match self.waiting.push_back(datagram) {
            Ok(()) => {
                self.room += room;
                Ok(())
            }
            Err(refused) => Err(refused.value),
        }
    }

    /// Takes the datagram that has waited longest. `None` if nothing waits.
    pub fn pop(&mut self) -> Option<Vec<u8>>
        ensures { MatchOption result ((self.old ≡ []) × (self.new ≡ []))
            (λ datagram. self.old ≡ datagram.items ∷ self.new) }
    {
        let datagram = self.waiting.pop_front()?;
        self.room -= datagram.len() + KEEPING;
        Some(datagram)
    }
}
