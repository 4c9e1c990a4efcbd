//! Payloads that share their memory.
ghost use Rattle.std.specs.Prelude.{◌≡◌, IfOk};

use crate::NoMemory;
use std::alloc::{Allocator, Global};
use std::marker::Model;
use std::sync::Arc;

/// The bytes of a payload, of any length, whose owners share one memory. A client's bytes are
/// copied into it once. `Message::sharing` makes a message of it without another copy.
#[derive(Drop)]
#[derive_where(Debug)]
pub struct Payload<A: Allocator = Global> {
    pub(crate) bytes: Arc<Vec<u8, A>, A>,
}

impl<A: Allocator> Model for Payload<A> {
    ghost use Rattle.std.specs.Prelude.{List, ℕ};
    ghost use Rattle.std.specs.Arc.{arc_value};

    ghost Value = { List ℕ };

    ghost view = { λ a. (arc_value a.bytes).items };
}

impl<A: Allocator> Payload<A> {
    /// The bytes.
    pub fn as_slice(&self) -> &[u8]
        ensures { result.now ≡ self.now }
    {
        (*self.bytes).as_slice()
    }
}

impl<A: Allocator + Copy> Payload<A> {
    /// The payload of these bytes. Allocates only a reference count; the bytes aren't moved.
    pub fn new(alloc: A, bytes: Vec<u8, A>) -> Result<Payload<A>, NoMemory>
        ensures { IfOk result (λ p. p ≡ bytes.items) }
    {
        match Arc::new(alloc, bytes) {
            Ok(bytes) => Ok(Payload { bytes }),
            Err(refused) => Err(NoMemory::from(refused)),
        }
    }

    /// A payload with a copy of the bytes, allocated from `alloc`.
    pub fn copied(alloc: A, bytes: &[u8]) -> Result<Payload<A>, NoMemory>
        ensures { IfOk result (λ p. p ≡ bytes.now) }
    {
        Payload::new(alloc, Vec::from_slice(alloc, bytes)?)
    }

    /// The same payload once more, in the same memory. It copies the bytes only if the reference
    /// count has no room for one more owner.
    pub fn share(&self, alloc: A) -> Result<Payload<A>, NoMemory>
        ensures { IfOk result (λ p. p ≡ self.now) }
    {
        match Arc::try_clone(&self.bytes) {
            Ok(bytes) => Ok(Payload { bytes }),
            Err(_) => Payload::copied(alloc, self.as_slice()),
        }
    }
}
