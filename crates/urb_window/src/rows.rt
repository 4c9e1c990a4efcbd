//! The rows of the senders, in order of their numbers.

ghost use Rattle.std.specs.Prelude.{◌≡◌, ◌+◌, ◌-◌, ◌≤◌, ◌<◌, IfSome, IfNone, OnOk, IsOk};
ghost use Rattle.std.specs.Prelude.{length, find, option_map, slice_get, drop};
ghost use Rattle.std.specs.List.{AllByRecursion};
ghost use Rattle.urb_names.specs.Names.{name_lt};
ghost use Rattle.urb_window.specs.internal.RowOperations.{IsRow};
ghost use Rattle.urb_window.specs.RowEntries.{entries_from};
ghost use Rattle.urb_window.specs.internal.SenderRows.{no_row, row_at};

use crate::window::Window;
use std::alloc::Allocator;
use urb_names::{MAX_SENDERS, Name, NoMemory, NodeId};

// The index of a sender's row.
pub(crate) fn index_of(sender: NodeId) -> usize
    ensures place { result + 1 ≡ sender }
    ensures within { result < MAX_SENDERS }
{
    sender.number() as usize - 1
}

// The row of a sender, if there is one yet.
pub(crate) fn row_of<T, A: Allocator>(
    rows: &[Window<T, A>],
    sender: NodeId,
) -> Option<&Window<T, A>>
    ensures some { IfSome result (λ row. row.now ≡ row_at rows.now sender) }
    ensures none { IfNone result (row_at rows.now sender ≡ no_row) }
{
    rows.get(index_of(sender))
}

// The sender whose row is at this index.
fn sender_at(index: usize) -> NodeId
    requires { index < MAX_SENDERS }
    ensures { result ≡ index + 1 }
{
    NodeId::new(index as u8 + 1).unwrap()
}

// Appends empty rows until there is one for each sender.
pub(crate) fn fill<T: Drop, A: Allocator + Copy>(
    rows: &mut Vec<Window<T, A>, A>,
) -> Result<(), NoMemory>
    requires { length rows.old.items ≤ MAX_SENDERS }
    ensures entries { entries_from 1 rows.new.items ≡ entries_from 1 rows.old.items }
    ensures rows { AllByRecursion IsRow rows.old.items → AllByRecursion IsRow rows.new.items }
    ensures most { length rows.new.items ≤ MAX_SENDERS }
    ensures ok { OnOk result (length rows.new.items ≡ MAX_SENDERS) }
    ensures full { length rows.old.items ≡ MAX_SENDERS
        → (rows.new.items ≡ rows.old.items) × IsOk result }
{
    let alloc = *rows.allocator();
    while rows.len() < MAX_SENDERS {
        rows.push(Window::new(alloc))?;
    }
    Ok(())
}

// The number of values in the rows.
pub(crate) fn count_of<T, A: Allocator + Copy>(rows: &[Window<T, A>]) -> usize
    requires { length rows.now ≤ MAX_SENDERS }
    ensures { result ≡ length (entries_from 1 rows.now) }
{
    let mut count = 0;
    for row in rows {
        count += row.count();
    }
    count
}

// The entry at a place in the order of names.
pub(crate) fn entry_of<T, A: Allocator + Copy>(
    rows: &[Window<T, A>],
    index: usize,
) -> Option<(Name, &T)>
    requires { length rows.now ≤ MAX_SENDERS }
    ensures { option_map (λ entry. (entry.0, entry.1.now)) result
        ≡ slice_get (entries_from 1 rows.now) index }
{
    let mut left = index;
    for i in 0..rows.len() {
        let row = &rows[i];
        let count = row.count();
        if left < count {
            row.recall();
            let (seq, value) = row.pair(left)?;
            let sender = sender_at(i);
            return Some((Name { sender, seq }, value));
        }
        left -= count;
    }
    None
}

// The first name in the rows from this index on.
pub(crate) fn first_from<T, A: Allocator + Copy>(
    rows: &[Window<T, A>],
    start: usize,
) -> Option<Name>
    requires { length rows.now ≤ MAX_SENDERS }
    ensures { result
        ≡ option_map (λ entry. entry.0)
        (slice_get (entries_from (start + 1) (drop start rows.now)) 0) }
{
    for i in start..rows.len() {
        let row = &rows[i];
        row.recall();
        if let Some((seq, _)) = row.pair(0) {
            let sender = sender_at(i);
            return Some(Name { sender, seq });
        }
    }
    None
}

// The first name after this one.
pub(crate) fn after_in<T, A: Allocator + Copy>(rows: &[Window<T, A>], name: Name) -> Option<Name>
    requires { length rows.now ≤ MAX_SENDERS }
    ensures { result
        ≡ option_map (λ entry. entry.0)
        (find (λ entry. name_lt name entry.0) (entries_from 1 rows.now)) }
{
    let index = index_of(name.sender);
    match rows.get(index) {
        Some(row) => match row.after(name.seq) {
            Some(seq) => {
                let sender = name.sender;
                Some(Name { sender, seq })
            }
            None => first_from(rows, index + 1),
        },
        None => None,
    }
}
