//! The value that readers take: a list of entries for each node, the history behind the lists, and
//! the events until then.
ghost use Rattle.std.specs.Prelude.{◌≡◌, ◌≤◌, ◌<◌, [], map, IfOk};
ghost use Rattle.urb_show.specs.Lists.{Agree, list_at};
ghost use Rattle.urb_show.specs.internal.History.{Issue};
ghost use Rattle.urb_show.specs.Pages.{IsPageOf};

use crate::entry::{Addition, Entry, Page};
use crate::entry_lists::{copy_entries, push_at};
use crate::history::calls::Happening;
use crate::history::tokens::Mark;
use left_right::Absorb;
use std::alloc::{AllocError, Allocator};
use std::marker::Model;
use urb_group::NoMemory;

/// A list of entries for each node, the history behind the lists, and the events until the last
/// addition.
#[derive(Drop)]
pub(crate) struct PublishedLists {
    lists: Vec<Vec<Entry>>,
    mark: Mark<Addition>,
    events: Mark<Happening>,
}

impl Model for PublishedLists {
    ghost use Rattle.std.specs.Prelude.{map};
    ghost use Rattle.urb_show.specs.internal.History.{Issue};

    ghost Value = { Issue };

    ghost view = { λ p. record {
      lists = map (λ l. l.items) p.lists.items;
      mark = p.mark;
      events = p.events;
    } };
}

/// One more entry of a node, and the history with this entry.
#[derive(Drop)]
pub(crate) struct Operation {
    pub(crate) addition: Addition,
    pub(crate) mark: Mark<Addition>,
}

/// What the two published copies have in common. No value of this type is made.
pub(crate) struct ListsState {
    pub(crate) lists: [[Entry; 0]; 0],
    pub(crate) mark: Mark<Addition>,
    pub(crate) events: Mark<Happening>,
}

impl Absorb<Operation> for PublishedLists {
    ghost use Rattle.urb_show.specs.internal.Operations.{state_of, applied_to};

    type State = ListsState;

    ghost state = { state_of };

    ghost applied = { applied_to };

    fn absorb_first(
        &mut self,
        operation: &Operation,
        _other: &PublishedLists,
    ) -> Result<(), AllocError> {
        let Ok(copy) = operation.addition.entry.share(*self.lists.allocator()) else {
            return Err(AllocError);
        };
        if push_at(&mut self.lists, operation.addition.place, copy).is_err() {
            return Err(AllocError);
        }
        self.mark = operation.mark.copy();
        self.events = operation.addition.events.copy();
        Ok(())
    }

    fn absorb_second(
        &mut self,
        operation: Operation,
        _other: &PublishedLists,
    ) -> Result<(), Operation> {
        let Operation { addition, mark } = operation;
        let Addition {
            place,
            entry,
            events,
        } = addition;
        match push_at(&mut self.lists, place, entry) {
            Ok(()) => {
                self.mark = mark;
                self.events = events;
                Ok(())
            }
            Err(entry) => Err(Operation {
                addition: Addition {
                    place,
                    entry,
                    events,
                },
                mark,
            }),
        }
    }
}

impl PublishedLists {
    pub(crate) fn new(
        lists: Vec<Vec<Entry>>,
        mark: Mark<Addition>,
        events: Mark<Happening>,
    ) -> PublishedLists
        ensures { result ≡ record
            { lists = map (λ l. l.items) lists.items; mark = mark; events = events } }
    {
        PublishedLists {
            lists,
            mark,
            events,
        }
    }

    /// The history behind the lists.
    pub(crate) fn mark(&self) -> &Mark<Addition>
        ensures { result.now ≡ self.now.mark }
    {
        &self.mark
    }

    /// The events until the last addition.
    pub(crate) fn events(&self) -> &Mark<Happening>
        ensures { result.now ≡ self.now.events }
    {
        &self.events
    }

    // A node's list.
    fn list(&self, place: usize) -> &[Entry]
        ensures { result.now ≡ list_at self.now.lists place }
    {
        match self.lists.get(place) {
            Some(list) => list.as_slice(),
            None => &[],
        }
    }

    /// The entries of a node from the place `first` on, which counts from 1, at most `max` of them.
    /// The list's memory comes from `alloc`.
    pub(crate) fn page<B: Allocator + Copy>(
        &self,
        alloc: B,
        place: usize,
        first: u32,
        max: u8,
    ) -> Result<Page<B>, NoMemory>
        requires first { 1 ≤ first }
        requires agree { Agree self.now.lists }
        ensures { IfOk result (λ p. IsPageOf (list_at self.now.lists place) first max p) }
    {
        let list = self.list(place);
        let from = list.len().min(first as usize - 1);
        let to = list.len().min(from + max as usize);
        let entries = copy_entries(*self.lists.allocator(), alloc, &list[from..to])?;
        Ok(Page {
            entries,
            total: list.len() as u32,
        })
    }
}
