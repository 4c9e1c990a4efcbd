//! A node that is down.

ghost use Rattle.std.specs.Prelude.{◌≡◌, [], None, Option};
ghost use Rattle.std.specs.Option.{ForSome};
ghost use Rattle.urb_node.specs.LayerFields.{memory_of};
ghost use Rattle.urb_node.specs.internal.HeldLayers.{HasRoom, IsFallen, IsHeld, IsNextHeld};
ghost use Rattle.urb_node.specs.internal.LayerAdditions.{with_doubtful};
ghost use Rattle.urb_node.specs.CallEffects.{Restarts};

use crate::Ready;
use crate::held::Held;
use crate::image_verdict::{Verdict, judge_restart};
use crate::storing::apply_record;
use std::alloc::{Allocator, Global};
use std::marker::Model;
use urb_names::{Message, NoMemory, Refusal};
use urb_stable::Record;

/// A node that is down. It takes no event until it is restarted with what its storage holds. What
/// it had counted and heard no longer counts. The memory for that is freed at the restart. So the
/// time of a crash doesn't grow with the history.
#[derive(Drop)]
#[derive_where(Debug)]
pub struct Down<A: Allocator = Global> {
    pub(crate) held: Held<A>,
    pub(crate) doubt: Option<Record<Message<A>>>,
}

impl<A: Allocator> Model for Down<A> {
    ghost use Rattle.std.specs.Prelude.{[]};
    ghost use Rattle.urb_node.specs.LayerFields.{memory_of};
    ghost use Rattle.urb_node.specs.internal.HeldLayers.{IsDown};
    ghost use Rattle.urb_node.specs.NodeMemories.{Fallen};

    ghost Value = { Fallen };

    ghost view = { λ a.
        record { memory = record (memory_of a.held) { acks = []; heard = [] }; doubt = a.doubt } };

    ghost invariant = { λ a. IsDown a.held a.doubt };
}

// Takes a node down: it loses what it has counted and heard, and a record may be in doubt.
pub(crate) fn take_down<A: Allocator + Copy>(
    held: Held<A>,
    doubt: Option<Record<Message<A>>>,
) -> Down<A>
    requires kept { IsHeld held }
    requires next { ForSome doubt (IsNextHeld held) }
    ensures { result
        ≡ record { memory = record (memory_of held) { acks = []; heard = [] }; doubt = doubt } }
{
    Down { held, doubt }
}

// Drops what the node had counted and heard.
fn forget_heard<A: Allocator + Copy>(
    mut held: Held<A>,
    doubt: &Option<Record<Message<A>>>,
) -> Held<A>
    requires kept { IsHeld held }
    requires next { ForSome doubt.now (IsNextHeld held) }
    ensures fallen { IsFallen result doubt.now }
    ensures memory { memory_of result ≡ record (memory_of held) { acks = []; heard = [] } }
{
    held.acks.forget();
    held.resend.forget();
    held
}

// Brings a node up with what it holds; its resends begin again.
fn bring_up<A: Allocator + Copy>(mut held: Held<A>) -> Ready<A>
    requires { IsHeld held }
    ensures { result ≡ record (memory_of held) { cursor = None } }
{
    held.resend.rewind();
    Ready { held }
}

// What the node holds once the doubtful record, if any, counts as stored.
fn join_doubtful<A: Allocator + Copy>(held: Held<A>, doubt: Option<Record<Message<A>>>) -> Held<A>
    requires kept { IsHeld held }
    requires next { ForSome doubt (IsNextHeld held) }
    requires room { ForSome doubt (HasRoom held) }
    ensures kept { IsHeld result }
    ensures memory { memory_of result ≡ with_doubtful (memory_of held) doubt }
{
    match doubt {
        Some(record) => apply_record(held, record, None).0,
        None => held,
    }
}

// Brings a node up with its image, or leaves it down as it was.
fn recover<A: Allocator + Copy>(
    mut held: Held<A>,
    doubt: Option<Record<Message<A>>>,
    alloc: A,
    image: Vec<Record<Message<A>>, A>,
) -> Result<Ready<A>, (Down<A>, Refusal)>
    requires { IsFallen held doubt }
    ensures { Restarts (record { memory = memory_of held; doubt = doubt }) image.items result }
{
    // Only the proof needs these calls: they state the invariants of the layers.
    held.pending.recall();
    held.fifo.recall();
    match judge_restart(&mut held, alloc, &doubt, &image) {
        Ok(verdict) => match verdict {
            Verdict::Stored => Ok(bring_up(held)),
            Verdict::WithDoubtful => Ok(bring_up(join_doubtful(held, doubt))),
            Verdict::Neither => Err((take_down(held, doubt), Refusal::BadImage)),
        },
        Err(NoMemory) => Err((take_down(held, doubt), Refusal::NoMemory)),
    }
}

impl<A: Allocator + Copy> Down<A> {
    /// Restarts the node from its image. This is the recovery of the textbook's algorithm (section
    /// 3.7), which retrieves `pending` and `delivered`. The image must say what the node had
    /// stored, or that followed by the record in doubt, which then counts as stored. Otherwise the
    /// image is another node's, or storage has lost or made up a record (`BadImage`). Nothing is
    /// sent. If the restart is refused, the node stays down as it was. `NoMemory` comes before the
    /// image is judged.
    pub fn restart(
        self,
        alloc: A,
        image: Vec<Record<Message<A>>, A>,
    ) -> Result<Ready<A>, (Down<A>, Refusal)>
        ensures { Restarts self image.items result }
    {
        let Down { held, doubt } = self;
        recover(forget_heard(held, &doubt), doubt, alloc, image)
    }
}
