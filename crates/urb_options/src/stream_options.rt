//! The settings of `publish` and `follow`.

ghost use Rattle.std.specs.Prelude.{◌<◌};
ghost use Rattle.urb_options.specs.internal.Addresses.{IsAddress, IsAddress-prop};

use crate::entry_form_kind::EntryForm;
use crate::node_address::NodeAddress;

/// Messages to publish: the node's address, the client, and the only message, or none for standard
/// input.
#[derive(Clone, Copy, Debug)]
pub struct PublishOptions<'a> {
    /// Where the node takes its clients.
    pub at: NodeAddress<'a>,
    /// The client's number, from 1. No other program may use it meanwhile.
    pub client: u16,
    /// The message. `None`: each line of standard input is one.
    pub text: Option<&'a str>,
    ghost address: { IsAddress at } by { IsAddress-prop at },
    ghost within: { 0 < client },
}

/// A log to follow: the node's address, the first place, and the form of its entries.
#[derive(Clone, Copy, Debug)]
pub struct FollowOptions<'a> {
    /// Where the node takes its clients.
    pub at: NodeAddress<'a>,
    /// The first place in the log, from 1.
    pub from: u32,
    /// How an entry is printed.
    pub form: EntryForm,
    ghost address: { IsAddress at } by { IsAddress-prop at },
    ghost within: { 0 < from },
}
