//! Laws of the certificates that nodes have heard.

ghost use Rattle.std.specs.Prelude.{◌≡◌, ℕ};
ghost use Rattle.std.specs.List.{AllByRecursion};
ghost use Rattle.urb_stable.specs.Entries.{Entry};
ghost use Rattle.urb_node.specs.Replies.{Done, Stored};
ghost use Rattle.urb_world.specs.World.{World};
ghost use Rattle.urb_world.specs.Step.{Commit, step, IsReached};
ghost use Rattle.urb_world.specs.HeardCertificates.{HearsOfPending, SaysWhatWasHeard};

/// In every world of a run, each certificate that a node has heard belongs to a name that is
/// pending there. So when a node stores a pair, only the packet that caused it can have reported a
/// certificate of that name. The pair's packets tell each node exactly whether its certificate was
/// heard.
pub fn what_is_heard_is_pending()
    ensures heard { (w : World) (p : ℕ) → IsReached w → HearsOfPending (w.node p) }
    ensures told { (w : World) (p position : ℕ) (entry : Entry) (done : Done) →
        IsReached w → (step w (Commit p position entry)).0 ≡ Stored done →
        AllByRecursion
        (SaysWhatWasHeard ((step w (Commit p position entry)).1.node p)) done.sent }
{}
