//! Messages that several journals hold, so that each of them is in memory once.

ghost use Rattle.std.specs.Prelude.{◌≡◌, ◌<◌, ◌≤◌, IfOk, IsTrue, length};
ghost use Rattle.std.specs.Option.{ForSome};
ghost use Rattle.urb_names.specs.declared.limits.TheConstants.{MAX_PAYLOAD};

use std::alloc::{Allocator, Global};
use std::collections::BTreeMap;
use std::sync::Mutex;
use std::thread;
use urb_names::{ClientId, Message, Name, NoMemory};

/// How often a reader tries to take the lock before it makes a message of its own instead.
const TRIES: u32 = 100_000;

/// The messages that journals read, by name. Journals that are read at the same time, each on its
/// own thread, share one pool. The first that reads a message leaves it in the pool, and the others
/// share its payload. It saves memory, and changes no answer.
#[derive(Drop)]
pub struct MessagePool<A: Allocator = Global> {
    messages: Mutex<BTreeMap<Name, Message<A>, A>>,
}

// Whether the message has these parts.
fn has_parts<A: Allocator>(
    message: &Message<A>,
    client: ClientId,
    number: u32,
    payload: &[u8],
) -> bool
    ensures { IsTrue result
        → message.now ≡ record { client = client; number = number; payload = payload.now } }
{
    message.client() == client && message.number() == number && message.payload() == payload
}

// Another message with these parts, which shares the payload of the one under this name. `None` if
// that one has other parts, if there is none, or if sharing fails.
fn shared_from<A: Allocator + Copy>(
    messages: &BTreeMap<Name, Message<A>, A>,
    alloc: A,
    name: Name,
    client: ClientId,
    number: u32,
    payload: &[u8],
) -> Option<Message<A>>
    ensures { ForSome result
        (λ m. m ≡ record { client = client; number = number; payload = payload.now }) }
{
    let known = messages.get(&name)?;
    if !has_parts(known, client, number, payload) {
        return None;
    }
    known.share(alloc).ok()
}

// Returns the message with these parts. If the pool has the same message under this name, the two
// share the payload. Otherwise the message is new, and the pool stores it under the name.
fn shared_or_added<A: Allocator + Copy>(
    messages: &mut BTreeMap<Name, Message<A>, A>,
    alloc: A,
    name: Name,
    client: ClientId,
    number: u32,
    payload: &[u8],
) -> Result<Message<A>, NoMemory>
    requires number { 0 < number }
    requires payload { length payload.now ≤ MAX_PAYLOAD }
    ensures { IfOk result
        (λ m. m ≡ record { client = client; number = number; payload = payload.now }) }
{
    if let Some(message) = shared_from(messages, alloc, name, client, number, payload) {
        return Ok(message);
    }
    let message = Message::copy_of(alloc, client, number, payload)?;
    let kept = message.share(alloc)?;
    messages.insert(name, kept)?;
    Ok(message)
}

impl<A: Allocator + Copy> MessagePool<A> {
    /// A pool without messages. It takes no memory before the first one.
    pub fn new(alloc: A) -> MessagePool<A> {
        MessagePool {
            messages: Mutex::new(BTreeMap::new(alloc)),
        }
    }

    /// The message with these parts, for the journal that has it under this name. If the pool has
    /// the same message under the name, both share its payload. Otherwise it is a new one, which
    /// the pool shares from then on. While another thread has the lock, it tries again, for some
    /// tenths of a second at most. Then it makes a message that nobody shares.
    ///
    /// `NoMemory`: memory for a new message, or for the pool, was refused.
    pub fn message(
        &self,
        alloc: A,
        name: Name,
        client: ClientId,
        number: u32,
        payload: &[u8],
    ) -> Result<Message<A>, NoMemory>
        requires number { 0 < number }
        requires payload { length payload.now ≤ MAX_PAYLOAD }
        // It has these parts, whatever the pool holds.
        ensures { IfOk result
            (λ m. m ≡ record { client = client; number = number; payload = payload.now }) }
    {
        for _ in 0..TRIES {
            if let Some(mut messages) = self.messages.try_lock() {
                return shared_or_added(&mut messages, alloc, name, client, number, payload);
            }
            thread::yield_now();
        }
        Message::copy_of(alloc, client, number, payload)
    }
}
