//! What no script says of groups and clusters; `urb_script` runs scripts, and its tests have worked
//! ones.
ghost use Rattle.std.specs.Prelude.{◌≡◌};

mod clusters;
mod growths;
mod images;
mod plays;
mod starts;
mod stops;
mod tails;

use urb_group::{ClientId, Config, Name, NodeId};

// Returns node 1, to which the client sends.
fn one() -> NodeId {
    NodeId::new(1).unwrap()
}

// Returns node 2, which relays.
fn two() -> NodeId {
    NodeId::new(2).unwrap()
}

// Returns the client whose messages are sent.
fn client() -> ClientId {
    ClientId::new(7).unwrap()
}

// Returns the name of the client's first message.
fn first() -> Name {
    Name {
        sender: one(),
        seq: 1,
    }
}

// Returns the limits of a group of three.
fn three() -> Config
    ensures { result.n ≡ 3 }
{
    Config::new(3, 10).unwrap()
}
