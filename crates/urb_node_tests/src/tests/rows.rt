//! Actions on a node under test and their expected results, as rows of plain data.

use urb_names::Flags;
use urb_stable::Failure;

/// The form of the drafted record.
pub(super) enum Form {
    Pending,
    Certified,
    Certificate,
}

/// The expected result of a call.
pub(super) enum What {
    Accepted,
    Noted,
    Again,
    /// An answer to this node, and whether its certificate was heard.
    Answered(u8, bool),
    TooLong,
    Conflict,
    Gap(u32),
    Full,
    NoMemory,
    /// A draft of this form at this position, which isn't stored yet.
    Drafted(Form, u32),
    /// A draft of this form, which is then stored.
    Stored(Form),
}

pub(super) const PENDING: What = What::Stored(Form::Pending);

pub(super) const CERTIFIED: What = What::Stored(Form::Certified);

pub(super) const CERTIFICATE: What = What::Stored(Form::Certificate);

/// The flags of a packet: whether its source has stored a certificate, and whether it heard the
/// target's.
pub(super) const NEITHER: Flags = Flags {
    certified: false,
    heard: false,
};

pub(super) const IS_CERTIFIED: Flags = Flags {
    certified: true,
    heard: false,
};

pub(super) const IS_HEARD: Flags = Flags {
    certified: false,
    heard: true,
};

pub(super) const BOTH: Flags = Flags {
    certified: true,
    heard: true,
};

/// A packet that is sent: its target, the number of its message, and its flags.
pub(super) type Sent = (u8, u32, Flags);

/// A record of an image: its form, the node whose first message it is about, and that message's
/// payload.
pub(super) type Kept = (Form, u8, &'static [u8]);

/// Whether a node holds a message under a name, has any message there, and has certified the name.
pub(super) type Known = (bool, bool, bool);

pub(super) const NOTHING: Known = (false, false, false);

pub(super) const HELD: Known = (true, true, false);

pub(super) const DELIVERED: Known = (true, true, true);

/// An action on a node, with a message of client 7.
pub(super) enum Act {
    /// A submit of the message with this number.
    Submit(u32, What),
    /// A packet of version one from this node.
    Arrive(u8, What),
    /// A packet of version two from this node, with these flags.
    Tell(u8, Flags, What),
    /// Stores the node's draft. The fields say whether this accepts a client's message, how many
    /// names it releases, and what it sends.
    Store(bool, u32, &'static [Sent]),
    /// Offers the receipt of another draft, with this node, position and form, which the node
    /// returns.
    GiveBack(u8, u32, Form),
    /// The store fails in this way, so the node goes down.
    Doubt(Failure),
    /// The draft is lost: the store fails (true), or the node crashes (false).
    Lose(bool),
    /// The packets that a tick sends.
    Tick(&'static [Sent]),
    /// How many packets a tick sends.
    Send(usize),
    Crash,
    /// A restart with the records of its store, which it accepts.
    Rise,
    /// A restart with another image, which it refuses.
    Refuse(&'static [Kept]),
    /// How many messages it has broadcast, the names that it has delivered, and what it knows about
    /// the row's message.
    Show(u32, &'static [(u8, u32)], Known),
    /// The number that this client must use next.
    Next(u16, u32),
}

/// The action, the name of the message, and its payload. In a packet a message has the number of
/// its name.
pub(super) type Row = (Act, (u8, u32), &'static [u8]);

/// The node under test before the first row.
pub(super) enum Start {
    /// The size of its group, its number, and how many messages it may broadcast.
    New(u8, u8, u32),
    /// It is opened from its image.
    Opened,
}

/// Rows that are played one after the other, part by part.
pub(super) struct List {
    pub(super) start: Start,
    pub(super) parts: &'static [&'static [Row]],
}

/// How many messages a node may broadcast, unless a test says otherwise.
pub(super) const CAP: u32 = 20;
