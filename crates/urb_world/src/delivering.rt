//! What one event changes in the logs of the nodes.
//!
//! Each law is the contract of a function that does nothing.

ghost use Rattle.std.specs.Prelude.{◌≡◌, ◌≢◌, ◌+◌, ℕ, length};
ghost use Rattle.urb_node.specs.Replies.{Done, Stored};
ghost use Rattle.urb_stable.specs.Entries.{Entry};
ghost use Rattle.urb_stable.specs.DeliveredLogs.{log};
ghost use Rattle.urb_world.specs.EventEffects.{StoresNothing, event_node};
ghost use Rattle.urb_world.specs.Step.{Commit, Event, step};
ghost use Rattle.urb_world.specs.World.{World, stored};

/// An event leaves the other nodes as they are. Only a receipt and a restart store a record. A
/// submit, an arrival, a tick, a failed store and a crash leave every node's records, and so its
/// log.
pub fn an_event_changes_one_node()
    ensures others { (w : World) (event : Event) (q : ℕ) →
        event_node event ≢ q → (step w event).1.node q ≡ w.node q }
    ensures nothing { (w : World) (event : Event) (q : ℕ) →
        StoresNothing event → stored (step w event).1 q ≡ stored w q }
{}

/// When a record is stored, the node's log grows by as many names as the reply says were released.
pub fn a_log_grows_by_what_is_released()
    ensures { (w : World) (p position : ℕ) (entry : Entry) (done : Done)
        → (step w (Commit p position entry)).0 ≡ Stored done
        → length (log (stored (step w (Commit p position entry)).1 p))
        ≡ length (log (stored w p)) + done.released }
{}
