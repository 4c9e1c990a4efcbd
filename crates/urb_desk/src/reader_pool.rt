//! The readers that the sessions of a group share.

ghost use Rattle.std.specs.Prelude.{◌≡◌, ◌≤◌, ◌-◌, IfOk, OnErr, length};
ghost use Rattle.urb_show.specs.Readers.{Takes};
ghost use Rattle.urb_show.specs.Lists.{list_at};
ghost use Rattle.urb_show.specs.Pages.{IsPageOf};

use std::alloc::{AllocError, Global};
use std::sync::{Mutex, MutexGuard, Wait};
use std::thread;
use urb_names::NodeId;
use urb_show::{HouseName, LogReader, Page, ReadFault, ReadPosition};

/// Readers that sessions borrow, each for one read. A publisher visits every reader each time, so a
/// reader for each connection would cost more than all else. A session waits only for reads of
/// other sessions, never for a worker, a store or the House.
#[derive(Drop)]
pub struct ReaderPool<K: HouseName> {
    seats: Vec<Mutex<LogReader<K>>>,
}

impl<K: HouseName> ReaderPool<K> {
    /// A pool of these readers. With no readers, each read would wait forever.
    pub fn new(alloc: Global, readers: Vec<LogReader<K>>) -> Result<ReaderPool<K>, AllocError> {
        let mut seats = Vec::with_capacity(alloc, readers.len())?;
        for reader in readers {
            seats.push(Mutex::new(reader))?;
        }
        Ok(ReaderPool { seats })
    }

    // A reader that nobody uses. If each is in use, other threads run first, and it looks again.
    fn borrow<R: Wait>(&self, rt: &R) -> MutexGuard<'_, LogReader<K>> {
        for _ in rt.forever() {
            for seat in &self.seats {
                if let Some(reader) = seat.try_lock() {
                    return reader;
                }
            }
            thread::yield_now();
        }
        unreachable!()
    }

    /// Reads for a session at this position, by a reader of the pool. It returns the entries of a
    /// node from the place `first` on, at most `max` of them. Places count from 1.
    ///
    /// `NoMemory`: there was no memory for the page; ask again. `Gone`: the house was closed. After
    /// a fault the position is as it was.
    pub fn read<R: Wait>(
        &self,
        rt: &R,
        alloc: Global,
        position: &mut ReadPosition<K>,
        node: NodeId,
        first: u32,
        max: u8,
    ) -> Result<Page, ReadFault>
        requires { (node ≤ length K.base) × (1 ≤ first) }
        // The page comes from lists that agree, and that begin with all that was seen and learnt. It
        // is of what the node had delivered at a place of the history, behind all that the session
        // knew.
        ensures page { IfOk result (λ p. Takes K.origin position.old position.new
            × IsPageOf (list_at position.new.seen (node - 1)) first max p) }
        ensures refused { OnErr result (position.new ≡ position.old) }
    {
        let mut reader = self.borrow(rt);
        let page = position.read(&mut *reader, alloc, node, first, max);
        MutexGuard::unlock(reader);
        page
    }

    /// Whether a node's log has an entry at this place. It also says yes after a fault, so that a
    /// read of that place then tells the fault.
    pub fn has_entry<R: Wait>(&self, rt: &R, alloc: Global, node: NodeId, place: u32) -> bool
        requires { node ≤ length K.base }
    {
        let mut reader = self.borrow(rt);
        let page = reader.read(alloc, node, 1, 0);
        MutexGuard::unlock(reader);
        match page {
            Ok(page) => place <= page.total,
            Err(_) => true,
        }
    }
}
