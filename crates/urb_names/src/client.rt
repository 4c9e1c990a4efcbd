//! The numbers that identify clients.
ghost use Rattle.std.specs.Prelude.{◌≡◌, ◌<◌};
ghost use Rattle.std.specs.Option.{SomeIff};

use std::marker::Model;

/// The number that identifies a client, 1 to 65,535. Each program chooses its own, and no two
/// clients may share one. (A client's messages have numbers too: 1, 2, 3, .. at each node. They are
/// not of this type.)
#[derive(Clone, Copy, Debug, PartialEq, Eq, PartialOrd, Ord)]
pub struct ClientId {
    number: u16,
}

impl Model for ClientId {
    ghost use Rattle.std.specs.Prelude.{ℕ, ◌<◌};

    ghost Value = { ℕ };

    ghost view = { λ a. a.number };

    ghost invariant = { λ a. 0 < a.number };

    ghost inverse = { λ n. record { number = n } };
}

impl ClientId {
    /// The client with this number, or `None` if the number is 0.
    pub fn new(number: u16) -> Option<ClientId>
        ensures { SomeIff result (0 < number) number }
    {
        if number == 0 {
            return None;
        }
        Some(ClientId { number })
    }

    /// The client's number, 1 to 65,535.
    pub fn number(self) -> u16
        ensures number { result ≡ self }
        ensures range { 0 < self }
    {
        self.number
    }
}
