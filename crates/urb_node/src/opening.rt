//! Opening a node from its image, the list of its stored records.

ghost use Rattle.std.specs.Prelude.{◌≡◌, ◌≤◌, [], None, IfOk};
ghost use Rattle.urb_stable.specs.Fitting.{KeepsOwn};
ghost use Rattle.urb_node.specs.LayerFields.{memory_of};
ghost use Rattle.urb_node.specs.internal.HeldLayers.{IsHeld, IsNextHeld};
ghost use Rattle.urb_node.specs.internal.LayerAdditions.{with_record};
ghost use Rattle.urb_node.specs.Part.{opened_node};
ghost use Rattle.urb_node.specs.NodeMemories.{ShowsReady};

use crate::Ready;
use crate::call_outcomes::make_room_for;
use crate::held::Held;
use crate::storing::apply_record;
use std::alloc::Allocator;
use urb_names::{Config, Message, NoMemory, NodeId};
use urb_stable::Record;

// What the node knows (`Held`) after one more stored record.
fn join_record<A: Allocator + Copy>(
    mut held: Held<A>,
    entry: Record<Message<A>>,
) -> Result<Held<A>, NoMemory>
    requires kept { IsHeld held }
    requires next { IsNextHeld held entry }
    ensures { IfOk result
        (λ h. IsHeld h × (memory_of h ≡ with_record (memory_of held) entry None)) }
{
    make_room_for(&mut held, &entry)?;
    let (held, _released) = apply_record(held, entry, None);
    Ok(held)
}

impl<A: Allocator + Copy> Ready<A> {
    /// Starts a node from its stored records: the recovery of a process (sections 2.2 and 3.7 of
    /// the textbook). The payloads of the records are moved into the node, without a copy.
    /// `NoMemory`: an allocation was refused, and the records are dropped.
    pub fn open(
        alloc: A,
        config: Config,
        node: NodeId,
        records: Vec<Record<Message<A>>, A>,
    ) -> Result<Ready<A>, NoMemory>
        requires node { node ≤ config.n }

        // The records meet the rules A and B of docs/FORMATS.md, which concern one image alone.
        requires rules { KeepsOwn config node [] records.items }
        ensures { IfOk result (λ ready. (ready.limits ≡ config)
            × (ready.node ≡ node)
            × ShowsReady ready (opened_node node records.items)) }
    {
        let ready = Ready::new(alloc, config, node)?;
        let Ready { mut held } = ready;
        for record in records {
            // Only the proof needs these two calls: they state the invariants of two layers.
            held.pending.recall();
            held.fifo.recall();
            held = join_record(held, record)?;
        }
        Ok(Ready { held })
    }
}
