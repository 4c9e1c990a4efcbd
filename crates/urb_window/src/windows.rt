//! The values of all senders, under their names.

ghost use Rattle.std.specs.Prelude.{◌≡◌, ◌<◌, [], None, Some, IsOk, IsSome, IfErr, OnOk};
ghost use Rattle.std.specs.Prelude.{OnErr, length, find, option_map, slice_get};
ghost use Rattle.urb_names.specs.Names.{name_lt};
ghost use Rattle.urb_window.specs.Entries.{above_of, low_of, value_of, window_of, with_value};
ghost use Rattle.urb_window.specs.WindowSet.{IsWindowSet, with_entry};

use crate::rows::{after_in, count_of, entry_of, fill, first_from, index_of, row_of};
use crate::window::Window;
use std::alloc::{AllocError, Allocator, Global};
use std::marker::Model;
use urb_names::{Name, NoMemory, NodeId};

/// Values under names, in order of name. For each sender, one vector holds the values of its
/// numbers 1, 2, 3, .. without a gap, and a queue holds those above the gap.
#[derive(Drop)]
#[derive_where(Debug; T)]
pub struct Windows<T, A: Allocator = Global> {
    rows: Vec<Window<T, A>, A>,
    reserved: Option<Name>,
}

impl<T, A: Allocator> Model for Windows<T, A> {
    ghost use Rattle.urb_window.specs.WindowSet.{WindowSet, set_code};

    ghost Value = { WindowSet T };

    ghost coded = { set_code T.code };

    ghost use Rattle.urb_window.specs.WindowFields.{view_of};
    ghost use Rattle.urb_window.specs.internal.WindowInvariant.{IsKept};

    ghost view = { view_of };

    ghost invariant = { IsKept };
}

impl<T, A: Allocator + Copy> Windows<T, A> {
    /// No values. Allocates no memory; later growth comes from `alloc`.
    pub fn new(alloc: A) -> Windows<T, A>
        ensures { result ≡ record { entries = []; reserved = None } }
    {
        Windows {
            rows: Vec::new(alloc),
            reserved: None,
        }
    }

    /// Does nothing at run time; it brings the value's invariant into the proof.
    pub fn recall(&self)
        ensures { IsWindowSet self.now }
    {
        let _rows = &self.rows;
    }

    /// The value under a name.
    pub fn get(&self, name: Name) -> Option<&T>
        ensures { option_map (λ v. v.now) result ≡ value_of self.now.entries name }
    {
        name.recall();
        match row_of(&self.rows, name.sender) {
            Some(row) => row.get(name.seq),
            None => None,
        }
    }

    /// Replaces the value of a name that has one, and returns the old value.
    pub fn replace(&mut self, name: Name, value: T) -> T
        requires { IsSome (value_of self.old.entries name) }
        ensures old { value_of self.old.entries name ≡ Some result }
        ensures new { self.new
            ≡ record self.old { entries = with_value self.old.entries name value } }
    {
        name.recall();
        let row = &mut self.rows[index_of(name.sender)];
        let old = row.replace(name.seq, value);
        row.recall();
        old
    }

    /// Reserves space for a value under this name, so that its `insert` allocates nothing, even if
    /// it closes a gap. The space is kept until the next `insert` or `reserve`. `NoMemory` means
    /// that an allocation was refused; the caller may make the call again.
    pub fn reserve(&mut self, name: Name) -> Result<(), NoMemory>
    where
        T: Drop,
        ensures ok { OnOk result (self.new ≡ record self.old { reserved = Some name }) }
        ensures err { OnErr result (self.new ≡ self.old) }
    {
        name.recall();
        fill(&mut self.rows)?;
        let row = &mut self.rows[index_of(name.sender)];
        row.reserve(name.seq)?;
        row.recall();
        self.reserved = Some(name);
        Ok(())
    }

    /// Inserts a value under a name that has none. If it closes a gap, the values that follow it
    /// join the part without a gap, and each of them is moved once. If memory is refused, the value
    /// is returned.
    pub fn insert(&mut self, name: Name, value: T) -> Result<(), (T, NoMemory)>
    where
        T: Drop,
        requires absent { value_of self.old.entries name ≡ None }
        ensures ok { OnOk result (self.new ≡ with_entry name value self.old) }
        ensures err { IfErr result (λ e. (e.0 ≡ value) × (self.new ≡ self.old)) }
        ensures reserved { self.old.reserved ≡ Some name → IsOk result }
    {
        name.recall();
        if let Err(refused) = fill(&mut self.rows) {
            return Err((value, refused));
        }
        let row = &mut self.rows[index_of(name.sender)];
        if let Err(value) = row.insert(name.seq, value) {
            return Err((value, NoMemory::from(AllocError)));
        }
        row.recall();
        self.reserved = None;
        Ok(())
    }

    /// How far the sender's numbers go from 1 on without a gap.
    pub fn low(&self, sender: NodeId) -> u32
        ensures { result ≡ low_of sender self.now.entries }
    {
        match row_of(&self.rows, sender) {
            Some(row) => row.low(),
            None => 0,
        }
    }

    /// The values of the sender's numbers 1 to `low`, in order.
    pub fn window(&self, sender: NodeId) -> &[T]
        ensures { result.now ≡ window_of sender self.now.entries }
    {
        match row_of(&self.rows, sender) {
            Some(row) => row.window(),
            None => &[],
        }
    }

    /// How many of the sender's numbers are above the first gap.
    pub fn above(&self, sender: NodeId) -> u32
        ensures { result ≡ above_of sender self.now.entries }
    {
        match row_of(&self.rows, sender) {
            Some(row) => row.above(),
            None => 0,
        }
    }

    /// The number of values.
    pub fn count(&self) -> usize
        ensures { result ≡ length self.now.entries }
    {
        count_of(&self.rows)
    }

    /// The entry at a place in the order of names, from 0.
    pub fn entry(&self, index: usize) -> Option<(Name, &T)>
        ensures { option_map (λ entry. (entry.0, entry.1.now)) result
            ≡ slice_get self.now.entries index }
    {
        entry_of(&self.rows, index)
    }

    /// The first name.
    pub fn first(&self) -> Option<Name>
        ensures { result ≡ option_map (λ entry. entry.0) (slice_get self.now.entries 0) }
    {
        first_from(&self.rows, 0)
    }

    /// The first name after this one in the order of names.
    pub fn after(&self, name: Name) -> Option<Name>
        ensures { result
            ≡ option_map (λ entry. entry.0)
            (find (λ entry. name_lt name entry.0) self.now.entries) }
    {
        after_in(&self.rows, name)
    }

    /// Removes all values.
    pub fn clear(&mut self)
    where
        T: Drop,
        ensures { self.new ≡ record { entries = []; reserved = None } }
    {
        self.rows.clear();
        self.reserved = None;
    }
}
