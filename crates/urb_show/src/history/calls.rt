//! The events of a house, and the calls that make them.
//!
//! An event is an entry of a history, which exists in proofs alone. A call is a small value that
//! says which event it would be.
use std::marker::Model;
use urb_group::{ClientId, Doubt, NodeId, Receipt, Record};
use urb_names::Payload;

/// An event of a group. No value of this type is made: it exists in proofs.
pub(crate) struct Happening {
    place: u64,
}

impl Model for Happening {
    ghost use Rattle.urb_world.specs.Step.{Event, Tick};

    ghost Value = { Event };

    ghost view = { λ h. Tick h.place };
}

/// What a caller asks of a group: which event it is.
pub(crate) trait Call {
    ghost use Rattle.urb_world.specs.Step.{Event};

    ghost event: { Self → Event };
}

/// A client's message, in shared memory.
#[derive(Drop)]
pub(crate) struct SubmitCall<'a> {
    pub(crate) node: NodeId,
    pub(crate) client: ClientId,
    pub(crate) number: u32,
    pub(crate) payload: &'a Payload,
}

impl<'a> Call for SubmitCall<'a> {
    ghost use Rattle.urb_world.specs.Step.{Submit};

    ghost event = { λ c. Submit c.node
        (record { client = c.client; number = c.number; payload = c.payload.now }) };
}

/// Bytes that arrive.
#[derive(Drop)]
pub(crate) struct ArriveCall<'a> {
    pub(crate) node: NodeId,
    pub(crate) bytes: &'a [u8],
}

impl<'a> Call for ArriveCall<'a> {
    ghost use Rattle.urb_names.specs.PacketGrammar.{packet_of};
    ghost use Rattle.urb_world.specs.Step.{Arrive};

    ghost event = { λ c. Arrive c.node (packet_of c.bytes.now) };
}

/// A receipt.
#[derive(Drop)]
pub(crate) struct CommitCall<'a> {
    pub(crate) receipt: &'a Receipt,
}

impl<'a> Call for CommitCall<'a> {
    ghost use Rattle.urb_world.specs.Step.{Commit};

    ghost event = { λ c. Commit c.receipt.now.node c.receipt.now.pos c.receipt.now.entry };
}

/// A draft that may not be stored.
#[derive(Drop)]
pub(crate) struct FailCall<'a> {
    pub(crate) doubt: &'a Doubt,
}

impl<'a> Call for FailCall<'a> {
    ghost use Rattle.urb_world.specs.Step.{Fail};

    ghost event = { λ c. Fail c.doubt.now.node };
}

/// A tick.
#[derive(Drop)]
pub(crate) struct TickCall {
    pub(crate) node: NodeId,
}

impl Call for TickCall {
    ghost use Rattle.urb_world.specs.Step.{Tick};

    ghost event = { λ c. Tick c.node };
}

/// A crash of a node.
#[derive(Drop)]
pub(crate) struct CrashCall {
    pub(crate) node: NodeId,
}

impl Call for CrashCall {
    ghost use Rattle.urb_world.specs.Step.{Crash};

    ghost event = { λ c. Crash c.node };
}

/// A restart, with its image.
#[derive(Drop)]
pub(crate) struct RestartCall<'a> {
    pub(crate) node: NodeId,
    pub(crate) image: &'a Vec<Record>,
}

impl<'a> Call for RestartCall<'a> {
    ghost use Rattle.urb_world.specs.Step.{Restart};

    ghost event = { λ c. Restart c.node c.image.now.items };
}
