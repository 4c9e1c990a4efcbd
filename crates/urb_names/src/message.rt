//! Client messages.
ghost use Rattle.std.specs.Prelude.{◌≡◌, ◌≤◌, ◌<◌, IfOk, length, vec_len};
ghost use Rattle.std.specs.Bool.{MatchBool};
ghost use Rattle.urb_names.specs.LabelsAndContents.{IsContent};

use crate::{ClientId, MAX_PAYLOAD, NoMemory, Payload};
use std::alloc::{Allocator, Global};
use std::marker::Model;
use std::sync::Arc;

/// What a client submits: the client; the client's number for it (1 to 4,294,967,295); and the
/// payload (at most `MAX_PAYLOAD` bytes).
#[derive(Drop)]
#[derive_where(Debug)]
pub struct Message<A: Allocator = Global> {
    client: ClientId,
    number: u32,
    payload: Arc<Vec<u8, A>, A>,
}

impl<A: Allocator> Model for Message<A> {
    ghost use Rattle.std.specs.Prelude.{◌<◌, ◌≤◌, vec_len};
    ghost use Rattle.std.specs.Arc.{arc_value};
    ghost use Rattle.urb_names.specs.LabelsAndContents.{Content};
    ghost use Rattle.urb_names.specs.declared.limits.TheConstants.{MAX_PAYLOAD};

    ghost Value = { Content };

    ghost view = { λ a.
        record { client = a.client; number = a.number; payload = (arc_value a.payload).items } };

    ghost invariant = { λ a. (0 < a.number) × (vec_len (arc_value a.payload) ≤ MAX_PAYLOAD) };
}

impl<A: Allocator> Message<A> {
    /// The client that submitted it.
    pub fn client(&self) -> ClientId
        ensures { result ≡ self.now.client }
    {
        self.client
    }

    /// The number that the client gave it.
    pub fn number(&self) -> u32
        ensures value { result ≡ self.now.number }
        ensures range { 0 < self.now.number }
    {
        self.number
    }

    /// The bytes that the client sent.
    pub fn payload(&self) -> &[u8]
        ensures value { result.now ≡ self.now.payload }
        ensures limit { length self.now.payload ≤ MAX_PAYLOAD }
    {
        (*self.payload).as_slice()
    }

    /// Whether the two messages are the same: same client, same number, same payload.
    pub fn is_same(&self, other: &Message<A>) -> bool
        ensures { MatchBool result (self.now ≡ other.now) (¬ (self.now ≡ other.now)) }
    {
        self.client == other.client
            && self.number == other.number
            && (*self.payload).as_slice() == (*other.payload).as_slice()
    }

    /// Does nothing at run time; it brings the value's invariant into the proof: the message is
    /// within its limits.
    pub fn recall(&self)
        ensures { IsContent self.now }
    {
        let _client = self.client.number();
        let _number = self.number;
        let _payload = &self.payload;
    }
}

impl<A: Allocator + Copy> Message<A> {
    /// The message made of these parts. Allocates only a reference count; the payload isn't moved.
    pub fn new(
        alloc: A,
        client: ClientId,
        number: u32,
        payload: Vec<u8, A>,
    ) -> Result<Message<A>, NoMemory>
        requires number { 0 < number }
        requires payload { vec_len payload ≤ MAX_PAYLOAD }
        ensures { IfOk result
            (λ m. m ≡ record { client = client; number = number; payload = payload.items }) }
    {
        match Arc::new(alloc, payload) {
            Ok(payload) => Ok(Message {
                client,
                number,
                payload,
            }),
            Err(refused) => Err(NoMemory::from(refused)),
        }
    }

    /// A message with a copy of the payload, allocated from `alloc`.
    pub fn copy_of(
        alloc: A,
        client: ClientId,
        number: u32,
        payload: &[u8],
    ) -> Result<Message<A>, NoMemory>
        requires number { 0 < number }
        requires payload { length payload.now ≤ MAX_PAYLOAD }
        ensures { IfOk result
            (λ m. m ≡ record { client = client; number = number; payload = payload.now }) }
    {
        Message::new(alloc, client, number, Vec::from_slice(alloc, payload)?)
    }

    /// The message made of these parts, which shares the payload's memory. It copies the payload
    /// only if the reference count has no room for one more owner.
    pub fn sharing(
        alloc: A,
        client: ClientId,
        number: u32,
        payload: &Payload<A>,
    ) -> Result<Message<A>, NoMemory>
        requires number { 0 < number }
        requires payload { length payload.now ≤ MAX_PAYLOAD }
        ensures { IfOk result
            (λ m. m ≡ record { client = client; number = number; payload = payload.now }) }
    {
        let Payload { bytes } = payload.share(alloc)?;
        Ok(Message {
            client,
            number,
            payload: bytes,
        })
    }

    /// Another message with the same content, which shares the payload's memory. It copies the
    /// payload only if the reference count has no room for one more owner.
    pub fn share(&self, alloc: A) -> Result<Message<A>, NoMemory>
        ensures { IfOk result (λ m. m ≡ self.now) }
    {
        match Arc::try_clone(&self.payload) {
            Ok(payload) => Ok(Message {
                client: self.client,
                number: self.number,
                payload,
            }),
            Err(_) => Message::copy_of(alloc, self.client, self.number, (*self.payload).as_slice()),
        }
    }
}
