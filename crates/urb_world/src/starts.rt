//! With which limits a stopped group may start again: a greater cap, a smaller one, or more nodes.
//!
//! Each law is the contract of a function that does nothing.

ghost use Rattle.std.specs.Prelude.{◌≡◌, ◌<◌, ◌≤◌, List, ℕ};
ghost use Rattle.urb_names.specs.LabelsAndContents.{Limits};
ghost use Rattle.urb_stable.specs.Entries.{Entry};
ghost use Rattle.urb_stable.specs.Fitting.{Fits};
ghost use Rattle.urb_world.specs.RecoveredWorlds.{IsNotStranded};
ghost use Rattle.urb_world.specs.StartLimits.{AreOfGroup, AreWithinCap, HaveMajorities};
ghost use Rattle.urb_world.specs.StartLimits.{MayStartWith};
ghost use Rattle.urb_world.specs.Step.{IsReached};
ghost use Rattle.urb_world.specs.ProcessStops.{AlwaysLeaves, GoesOnUnder};
ghost use Rattle.urb_world.specs.World.{World, opened};

/// Says which limits fit images that fit together under other limits. The new limits have as many
/// nodes, or more, and the new nodes have no records. The images fit exactly if no node has more
/// messages of its own than the new cap, and more than half of the new number of nodes have each
/// certified message. So a greater cap always fits.
pub fn limits_fit_by_cap_and_majorities()
    ensures fits { (old new : Limits) (images : ℕ → List Entry)
        → old.n ≤ new.n
        → AreOfGroup old.n images
        → Fits old images
        → AreWithinCap new.cap images
        → HaveMajorities new.n images
        → Fits new images }
    ensures only_then { (old new : Limits) (images : ℕ → List Entry)
        → old.n ≤ new.n
        → AreOfGroup old.n images
        → Fits new images
        → AreWithinCap new.cap images × HaveMajorities new.n images }
    ensures greater_cap { (old new : Limits) (images : ℕ → List Entry)
        → new.n ≡ old.n
        → old.cap ≤ new.cap
        → AreOfGroup old.n images
        → Fits old images
        → Fits new images }
{}

/// The whole process may stop at any moment, and start again with a greater cap, or with any limits
/// that the group may start with. Whatever the stop leaves opens a group whose logs begin with the
/// logs before the stop. A repeated submit of a message that its node had stored is accepted under
/// its name (recovery, sections 2.2 and 3.7).
pub fn a_stop_is_survived_under_other_limits()
    ensures { (w : World) (size : Limits) →
        IsReached w → MayStartWith size w → AlwaysLeaves w (GoesOnUnder size w) }
{}

/// No stop strands a group. Suppose a group isn't stranded, stops, and starts with as many nodes,
/// or more. Then it isn't stranded either, whatever the stop left. So a group of one node may stop
/// and start as often as it likes: no state that it comes to is a dead end.
pub fn no_stop_strands_a_group()
    ensures { (w : World) (size : Limits)
        → IsReached w
        → IsNotStranded w
        → 0 < w.size.n
        → w.size.n ≤ size.n
        → AlwaysLeaves w (λ images. IsNotStranded (opened size images)) }
{}
