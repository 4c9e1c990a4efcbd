//! What a command line asks for.

ghost use Rattle.std.specs.Prelude.{◌<◌, ◌≤◌, ◌+◌};
ghost use Rattle.urb_options.specs.internal.Addresses.{AreAddresses, AreAddresses-prop, IsAddress};
ghost use Rattle.urb_options.specs.internal.Addresses.{IsAddress-prop};
ghost use Rattle.urb_client.specs.declared.format.TheConstants.{MOST_ENTRIES};

use crate::node_address::NodeAddress;
use crate::serve_options::ServeOptions;
use crate::stream_options::{FollowOptions, PublishOptions};

/// A message to submit: the node's address, the client, the message's number, and its text.
#[derive(Clone, Copy, Debug)]
pub struct SubmitOptions<'a> {
    /// Where the node takes its clients.
    pub at: NodeAddress<'a>,
    /// The client's number, from 1.
    pub client: u16,
    /// Which of the client's messages it is: 0 to 4,294,967,295. The first one is 1. A node refuses
    /// 0 as a gap.
    pub number: u32,
    /// The message. A message over `MAX_PAYLOAD` bytes is refused before it is sent.
    pub text: &'a str,
    ghost address: { IsAddress at } by { IsAddress-prop at },
    ghost within: { 0 < client },
}

/// Entries to read: the node's address, the first place in the log, and the greatest number of
/// entries.
#[derive(Clone, Copy, Debug)]
pub struct ReadOptions<'a> {
    /// Where the node takes its clients.
    pub at: NodeAddress<'a>,
    /// The first place, from 1.
    pub from: u32,
    /// The most entries, 1 to `MOST_ENTRIES`.
    pub max: u8,
    ghost address: { IsAddress at } by { IsAddress-prop at },
    ghost within: { (0 < from) × (0 < max) × (max ≤ MOST_ENTRIES) },
}

/// Nodes to ask for their state: the first one's address, and how many ports from it on.
#[derive(Clone, Copy, Debug)]
pub struct StatusOptions<'a> {
    /// Where the first node takes its clients.
    pub at: NodeAddress<'a>,
    /// How many nodes. Their ports follow each other, and are below 65,536. At a socket there is one
    /// at most.
    pub count: u8,
    ghost within: { AreAddresses at count } by { AreAddresses-prop at count },
}

/// Something that the program does by itself, once.
#[derive(Clone, Copy, Debug)]
pub enum Errand<'a> {
    /// Run a script from standard input to standard output.
    Replay,
    /// Send one message to a node.
    Submit(SubmitOptions<'a>),
    /// Show entries of a node's log.
    Read(ReadOptions<'a>),
    /// Show the state of nodes.
    Status(StatusOptions<'a>),
    /// Send messages to a node, numbered by the program.
    Publish(PublishOptions<'a>),
    /// Show a node's log as it grows.
    Follow(FollowOptions<'a>),
}

/// What the program should do.
#[derive(Clone, Copy, Debug)]
pub enum Line<'a> {
    /// Run a group of nodes until standard input ends.
    Serve(ServeOptions<'a>),
    /// Do one thing, and end.
    Errand(Errand<'a>),
}
