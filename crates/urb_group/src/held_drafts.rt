//! The drafts that the nodes of a cluster hold, in one place per node.

ghost use Rattle.std.specs.Prelude.{◌≡◌, ◌<◌, ◌≤◌, ◌-◌, IfOk, None, Some, length, replicate};
ghost use Rattle.std.specs.Prelude.{slice_set};
ghost use Rattle.urb_stable.specs.PlacedRecords.{Placed};
ghost use Rattle.urb_group.specs.internal.ClusterTies.{draft_at};
ghost use Rattle.urb_group.specs.Commands.{reply_of};
ghost use Rattle.urb_group.specs.internal.CallReplies.{IsWithin, noted_in, told_of};

use crate::{Reply, Taken};
use std::alloc::Allocator;
use urb_names::{NoMemory, NodeId, Refusal};
use urb_stable::Draft;

// Makes an empty place for each node.
pub(crate) fn no_drafts<A: Allocator>(
    alloc: A,
    count: u8,
) -> Result<Vec<Option<Draft<A>>, A>, NoMemory>
    ensures { IfOk result (λ drafts. drafts.items ≡ replicate count None) }
{
    let mut drafts = Vec::new(alloc);
    for _ in 0..count {
        drafts.push(None)?;
    }
    Ok(drafts)
}

// Returns the reply to a submit or an arrival, and puts a draft into its node's place.
pub(crate) fn hold_draft<A: Allocator>(
    drafts: &mut Vec<Option<Draft<A>>, A>,
    taken: Result<Taken<A>, Refusal>,
) -> Reply<A>
    requires { IsWithin (length drafts.old.items) taken }
    ensures reply { reply_of result ≡ told_of taken }
    ensures drafts { drafts.new.items ≡ noted_in drafts.old.items taken }
{
    match taken {
        Ok(Taken::Same(answer)) => Reply::Same(answer),
        Ok(Taken::Store(draft)) => {
            let name = draft.entry().name();
            let pos = draft.pos();
            let at = usize::from(draft.node().number()) - 1;
            drafts[at] = Some(draft);
            Reply::Drafted { name, pos }
        }
        Err(refusal) => Reply::Refused(refusal),
    }
}

// Drops the draft that a node holds.
pub(crate) fn drop_draft<A: Allocator>(drafts: &mut Vec<Option<Draft<A>>, A>, node: NodeId)
    requires { (0 < node) × (node ≤ length drafts.old.items) }
    ensures { drafts.new.items ≡ slice_set drafts.old.items (node - 1) None }
{
    drafts[usize::from(node.number()) - 1] = None;
}

// Takes the draft that a node holds out of its place.
pub(crate) fn take_draft<A: Allocator>(
    drafts: &mut Vec<Option<Draft<A>>, A>,
    node: NodeId,
) -> Draft<A>
    requires { (draft : Placed) × (draft_at drafts.old.items node ≡ Some draft) }
    ensures draft { draft_at drafts.old.items node ≡ Some result }
    ensures drafts { drafts.new.items ≡ slice_set drafts.old.items (node - 1) None }
{
    drafts[usize::from(node.number()) - 1].take().unwrap()
}
