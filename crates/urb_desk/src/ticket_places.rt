//! Places in a worker's channel for the tickets of sessions.

ghost use Rattle.std.specs.Prelude.{◌≡◌, ◌<◌, ◌≤◌, ◌+◌, ◌-◌, MatchOption, min};
ghost use Rattle.urb_desk.specs.declared.ticket_places.TheConstants.{SESSION_TICKETS};

use std::sync::{Condvar, Mutex, MutexGuard, Wait};

/// How many tickets of sessions a worker's channel and the worker have at a time, in a group of one
/// node. In a group of several nodes they have fewer.
pub const SESSION_TICKETS: u32 = 32;

/// The most tickets that sessions have at one worker, in a group with `nodes` nodes.
///
/// If each node takes a submit, about 3 packets come to each worker of two nodes, 9 of three, 18 of
/// four, and 63 of seven. The channel has room for `2 * SESSION_TICKETS` tickets. Submits get a part
/// of it that is as large as their share of all tickets, and two places at least. If they had more, a
/// worker would take submits faster than it delivers them.
pub fn count_places(nodes: usize) -> u32
    ensures some { 0 < result }
    ensures most { result ≤ SESSION_TICKETS }
    ensures alone { nodes ≡ 1 → result ≡ SESSION_TICKETS }
{
    match nodes {
        0 | 1 => SESSION_TICKETS,
        2 => 16,
        3 => 6,
        4 => 3,
        _ => 2,
    }
}

// Places that were taken. They aren't `Drop`, so whoever has them must give them back.
struct Places {
    count: u32,
}

// How many places are free, of how many there are.
#[derive(Drop)]
struct FreePlaces {
    count: u32,
    all: u32,
    ghost bound: { count ≤ all },
}

impl FreePlaces {
    // Takes at most this many places, and one at least. `None` if none is free.
    fn take(&mut self, most: u32) -> Option<Places>
        requires { 0 < most }
        ensures taken { MatchOption result ((self.old.count ≡ 0) × (self.new.count ≡ 0))
            (λ places. (0 < places.count) × (places.count ≡ min self.old.count most)
            × (self.new.count + places.count ≡ self.old.count)) }
        ensures all { self.new.all ≡ self.old.all }
    {
        if self.count == 0 {
            return None;
        }
        let count = self.count.min(most);
        self.count -= count;
        Some(Places { count })
    }

    // Gives places back.
    fn give_back(&mut self, places: Places)
        ensures free { self.new.count ≡ min (self.old.count + places.count) self.old.all }
        ensures all { self.new.all ≡ self.old.all }
    {
        let Places { count } = places;
        let room = self.all - self.count;
        self.count += count.min(room);
    }
}

/// The places for sessions' tickets. A session takes places before it sends its worker tickets, and
/// gives them back when the worker has answered. The channel has room for at least twice as many
/// tickets. So packets and ticks always find room, however many clients submit.
#[derive(Drop)]
pub struct TicketPlaces {
    free: Mutex<FreePlaces>,
    given_back: Condvar,
}

/// Places that were taken for tickets. They aren't `Drop`: each path of the code that has them, also
/// one on which memory is refused, must end with `give_back`, or else the code is refused.
pub struct TakenPlaces<'p> {
    places: &'p TicketPlaces,
    taken: Places,
}

impl<'p> TakenPlaces<'p> {
    /// The number of places that were taken.
    pub fn count(&self) -> u32
        ensures { result ≡ self.now.taken.count }
    {
        self.taken.count
    }

    /// Gives the places back, and wakes the sessions that wait for one.
    pub fn give_back<R: Wait>(self, rt: &R) {
        let TakenPlaces { places, taken } = self;
        let is_one = taken.count == 1;
        places.free.lock(rt).give_back(taken);
        if is_one {
            places.given_back.notify_one();
        } else {
            places.given_back.notify_all();
        }
    }
}

impl TicketPlaces {
    /// The places at one node of a group with `nodes` nodes. All of them are free.
    pub fn new(nodes: usize) -> TicketPlaces {
        let all = count_places(nodes);
        TicketPlaces {
            free: Mutex::new(FreePlaces { count: all, all }),
            given_back: Condvar::new(),
        }
    }

    /// Takes as many places as are free, at most this many, and one at least. Waits while none is
    /// free. A session that waits holds no place, so sessions never wait for each other in a circle.
    pub fn take<R: Wait>(&self, rt: &R, most: u32) -> TakenPlaces<'_>
        requires { 0 < most }
        ensures { (0 < result.taken.count) × (result.taken.count ≤ most) }
    {
        let mut free = self.free.lock(rt);
        for _ in rt.forever() {
            match free.take(most) {
                Some(taken) => {
                    MutexGuard::unlock(free);
                    return TakenPlaces {
                        places: self,
                        taken,
                    };
                }
                None => free = self.given_back.wait(rt, free),
            }
        }
        unreachable!()
    }
}
