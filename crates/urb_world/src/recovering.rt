//! No state is a dead end: what is stored can always still be delivered.
//!
//! Each law is the contract of a function that does nothing. The laws don't promise that it will be
//! delivered. That depends on links and stores, and nothing is assumed of these.

ghost use Rattle.std.specs.Prelude.{◌≡◌, List, false, true};
ghost use Rattle.urb_names.specs.Names.{has_name};
ghost use Rattle.urb_names.specs.LabelsAndContents.{Content, Label, Limits};
ghost use Rattle.urb_names.specs.Pairs.{has_pair};
ghost use Rattle.urb_stable.specs.Entries.{Entry};
ghost use Rattle.urb_stable.specs.Fitting.{Fits};
ghost use Rattle.urb_stable.specs.Records.{cert, pend};
ghost use Rattle.urb_node.specs.Replies.{Reply};
ghost use Rattle.urb_world.specs.RecoveredWorlds.{AreAsSent, CanDeliver, IsNotStranded};
ghost use Rattle.urb_world.specs.RecoveryPlans.{after};
ghost use Rattle.urb_world.specs.Step.{Event, IsReached, Run};
ghost use Rattle.urb_world.specs.World.{AreImages, World, image_of, opened, started, stored};

/// From every world that a run leads to, some events deliver everything. After them, every node is
/// ready and has delivered everything that each sender's storage took. None of these events is
/// refused. They are restarts, receipts, ticks, and arrivals of packets that were sent. No submit,
/// no crash and no failed store is among them.
///
/// This holds whatever was lost, whatever crashed, and whatever the storages of nodes that are down
/// turn out to hold. There is one exception, a stranded group: a group of one node that was opened
/// from an image with a pair that isn't certified. A node that was not alone in its group leaves
/// such an image.
pub fn no_state_is_a_dead_end()
    ensures { (w : World) → IsReached w → IsNotStranded w → CanDeliver w }
{}

/// No run strands a group: a new group is never stranded, and one that isn't stranded stays so.
pub fn no_run_strands_a_group()
    ensures new { (size : Limits) (events : List Event) (replies : List Reply) (w : World) →
        Run (started size) events replies w → IsNotStranded w }
    ensures stays { (old new : World) (events : List Event) (replies : List Reply) →
        IsReached old → IsNotStranded old → Run old events replies new → IsNotStranded new }
{}

/// A stranded group stays stranded, whatever happens, unless packets arrive that nobody sent. Its
/// one node never certifies what it was opened with and had not certified. So the exception is
/// needed.
pub fn a_stranded_group_stays_so()
    ensures { (size : Limits) (images : List (List Entry))
        → AreImages size images
        → Fits size (image_of images)
        → size.n ≡ 1
        → (x : Label) (m : Content)
        → has_pair (pend (image_of images 1)) x m ≡ true
        → has_name (cert (image_of images 1)) x ≡ false
        → (events : List Event)
        → AreAsSent (opened size (image_of images)) events
        → has_name (cert (stored (after (opened size (image_of images)) events) 1)) x ≡ false }
{}
