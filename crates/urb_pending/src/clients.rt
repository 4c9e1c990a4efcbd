//! The index of a node's own messages by client, found by binary search.

ghost use Rattle.std.specs.Prelude.{◌≡◌, ◌+◌, ◌<◌, ◌≤◌, ◌&&◌, ◌==◌, ℕ, true, nat_lt, IsTrue};
ghost use Rattle.std.specs.Prelude.{IsOk, OnOk, [], ◌∷◌, ◌++◌, length, if◌then◌else◌, Some};
ghost use Rattle.std.specs.Prelude.{None, option_map, is_some};
ghost use Rattle.std.specs.List.{prefix_len};
ghost use Rattle.urb_pending.specs.internal.ClientRows.{row_of, are_in_order};
ghost use Rattle.urb_pending.specs.internal.ClientIndex.{given_to, has_room, nth};

use crate::row::ClientRow;
use std::alloc::{Allocator, Global};
use std::marker::Model;
use urb_names::{ClientId, NoMemory};

/// The clients of a node, each with the numbers of the names that the node gave to its messages.
#[derive(Drop)]
#[derive_where(Debug)]
pub(crate) struct Clients<A: Allocator = Global> {
    rows: Vec<ClientRow<A>, A>,
}

impl<A: Allocator> Model for Clients<A> {
    ghost use Rattle.std.specs.Prelude.{List, IsTrue};
    ghost use Rattle.urb_pending.specs.internal.ClientRows.{Row, are_in_order};

    ghost Value = { List Row };

    ghost view = { λ a. a.rows.items };

    ghost invariant = { λ a. IsTrue (are_in_order a.rows.items) };
}

impl<A: Allocator + Copy> Clients<A> {
    /// No client has a message yet. Allocates no memory.
    pub(crate) fn new(alloc: A) -> Clients<A>
        ensures { result ≡ [] }
    {
        Clients {
            rows: Vec::new(alloc),
        }
    }

    /// How many messages of the client have a name.
    pub(crate) fn count(&self, client: ClientId) -> usize
        ensures { result ≡ length (given_to client self.now) }
    {
        match row_of(&self.rows, client) {
            Some(row) => row.numbers().len(),
            None => 0,
        }
    }

    /// The number of the name given to this client's message with this number.
    pub(crate) fn find(&self, client: ClientId, number: u32) -> Option<u32>
        ensures { result ≡ nth (given_to client self.now) number }
    {
        if number == 0 {
            return None;
        }
        let row = row_of(&self.rows, client)?;
        row.numbers().get(number as usize - 1).copied()
    }

    /// Reserves space for one more message of the client.
    pub(crate) fn make_room(&mut self, client: ClientId) -> Result<(), NoMemory>
        ensures given { (c : ℕ) → given_to c self.new ≡ given_to c self.old }
        ensures kept { (c : ℕ) → has_room c self.old ≡ true → has_room c self.new ≡ true }
        ensures ok { OnOk result (has_room client self.new ≡ true) }
        ensures roomy { has_room client self.old ≡ true → IsOk result }
    {
        let place = place_of(&self.rows, client);
        if is_at(&self.rows, place, client) {
            self.rows[place].make_room()?;
            return Ok(());
        }
        let mut row = ClientRow::new(*self.rows.allocator(), client);
        row.make_room()?;
        self.rows.insert(place, row)?;
        Ok(())
    }

    /// Records that the client's next message has the name with number `seq`.
    pub(crate) fn add(&mut self, client: ClientId, seq: u32)
        requires { has_room client self.old ≡ true }
        ensures { (c : ℕ)
            → given_to c self.new
            ≡ (if c == client then given_to c self.old ++ seq ∷ [] else given_to c self.old) }
    {
        let place = place_of(&self.rows, client);
        self.rows[place].push(seq);
    }

    /// Reserves space for one more message of the client if the message is the node's own.
    pub(crate) fn make_room_if(&mut self, own: bool, client: ClientId) -> Result<(), NoMemory>
        ensures given { (c : ℕ) → given_to c self.new ≡ given_to c self.old }
        ensures kept { (c : ℕ) → has_room c self.old ≡ true → has_room c self.new ≡ true }
        ensures ok { OnOk result (own ≡ true → has_room client self.new ≡ true) }
        ensures roomy { (own ≡ true → has_room client self.old ≡ true) → IsOk result }
    {
        if own {
            return self.make_room(client);
        }
        Ok(())
    }

    /// Records that the client's next message has the name with number `seq`, if it is the node's
    /// own.
    pub(crate) fn add_if(&mut self, own: bool, client: ClientId, seq: u32)
        requires { own ≡ true → has_room client self.old ≡ true }
        ensures { (c : ℕ)
            → given_to c self.new
            ≡ (if own && (c == client) then given_to c self.old
            ++ seq ∷ [] else given_to c self.old) }
    {
        if own {
            self.add(client, seq);
        }
    }
}

fn is_before<A: Allocator + Copy>(row: &ClientRow<A>, client: ClientId) -> bool
    ensures { result ≡ nat_lt row.now.client client }
{
    row.client() < client
}

// The place of a client's row among sorted rows, or the place where it would be inserted.
fn place_of<A: Allocator + Copy>(rows: &[ClientRow<A>], client: ClientId) -> usize
    requires { IsTrue (are_in_order rows.now) }
    ensures place { result ≡ prefix_len (λ row. nat_lt row.client client) rows.now }
    ensures within { result ≤ length rows.now }
{
    rows.partition_point(|row| is_before(row, client))
}

// The client's row, if it has one.
fn row_of<A: Allocator + Copy>(rows: &[ClientRow<A>], client: ClientId) -> Option<&ClientRow<A>>
    requires { IsTrue (are_in_order rows.now) }
    ensures { option_map (λ row. row.now) result ≡ row_of client rows.now }
{
    let row = rows.get(place_of(rows, client))?;
    if row.client() == client {
        return Some(row);
    }
    None
}

// Whether the client has a row; the row is then at `place`.
fn is_at<A: Allocator + Copy>(rows: &[ClientRow<A>], place: usize, client: ClientId) -> bool
    requires order { IsTrue (are_in_order rows.now) }
    requires place { place ≡ prefix_len (λ row. nat_lt row.client client) rows.now }
    ensures { result ≡ is_some (row_of client rows.now) }
{
    place < rows.len() && rows[place].client() == client
}
