//! A client's row: the numbers of the names that the node gave to its messages, in order.

ghost use Rattle.std.specs.Prelude.{◌≡◌, ◌++◌, ◌∷◌, [], nat_lt, true, IsOk, OnOk, OnErr};
ghost use Rattle.urb_pending.specs.internal.ClientRows.{Row};

use std::alloc::{Allocator, Global};
use std::marker::Model;
use urb_names::{ClientId, NoMemory};

/// A client and the numbers of the names given to its messages. The number at place k belongs to
/// the message that the client numbered k.
#[derive(Drop)]
#[derive_where(Debug)]
pub(crate) struct ClientRow<A: Allocator = Global> {
    client: ClientId,
    given: Vec<u32, A>,
}

impl<A: Allocator> Model for ClientRow<A> {
    ghost use Rattle.std.specs.Prelude.{vec_len, vec_capacity, nat_lt};
    ghost use Rattle.urb_pending.specs.internal.ClientRows.{Row};

    ghost Value = { Row };

    ghost view = { λ a. record {
      client = a.client;
      given = a.given.items;
      room = nat_lt (vec_len a.given) (vec_capacity a.given);
    } };
}

impl<A: Allocator + Copy> ClientRow<A> {
    // No message of the client has a name yet. Allocates no memory.
    pub(crate) fn new(alloc: A, client: ClientId) -> ClientRow<A>
        ensures client { result.client ≡ client }
        ensures given { result.given ≡ [] }
    {
        ClientRow {
            client,
            given: Vec::new(alloc),
        }
    }

    pub(crate) fn client(&self) -> ClientId
        ensures { result ≡ self.now.client }
    {
        self.client
    }

    pub(crate) fn numbers(&self) -> &[u32]
        ensures { result.now ≡ self.now.given }
    {
        &self.given
    }

    // Reserves space for one more number.
    pub(crate) fn make_room(&mut self) -> Result<(), NoMemory>
        ensures client { self.new.client ≡ self.old.client }
        ensures given { self.new.given ≡ self.old.given }
        ensures ok { OnOk result (self.new.room ≡ true) }
        ensures err { OnErr result (self.new ≡ self.old) }
        ensures roomy { self.old.room ≡ true → IsOk result }
    {
        self.given.reserve(1)?;
        Ok(())
    }

    // Appends the number of the name of the client's next message.
    pub(crate) fn push(&mut self, seq: u32)
        requires { self.old.room ≡ true }
        ensures client { self.new.client ≡ self.old.client }
        ensures given { self.new.given ≡ self.old.given ++ seq ∷ [] }
    {
        let pushed = self.given.push(seq);
        prove!(pushed.is_ok());
    }
}
