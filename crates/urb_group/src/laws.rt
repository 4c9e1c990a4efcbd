//! What holds of every sound group, and of stores; each law is the contract of a function that does
//! nothing.
//!
//! The textbook is C. Cachin, R. Guerraoui and L. Rodrigues, Introduction to Reliable and Secure
//! Distributed Programming (second edition, 2011). Uniform FIFO order is that of V. Hadzilacos and
//! S. Toueg, A Modular Approach to Fault-Tolerant Broadcasts and Related Problems (1994).

ghost use Rattle.std.specs.Prelude.{◌≡◌, ◌+◌, ◌∷◌, ℕ, IsTrue, List, Option, Result, Some, []};
ghost use Rattle.std.specs.Prelude.{false, length, suc};
ghost use Rattle.urb_names.specs.CarriedPackets.{Carried};
ghost use Rattle.urb_names.specs.LabelsAndContents.{IsLimits, Limits, Label, Content};
ghost use Rattle.urb_names.specs.Nodes.{is_node};
ghost use Rattle.urb_names.specs.declared.refusal.PacketFault.{PacketFault};
ghost use Rattle.urb_stable.specs.Entries.{Entry};
ghost use Rattle.urb_stable.specs.Fitting.{Fits};
ghost use Rattle.urb_stable.specs.PlacedRecords.{Placed};
ghost use Rattle.urb_stable.specs.StableStorage.{is_out_of_place};
ghost use Rattle.urb_node.specs.Part.{Storing};
ghost use Rattle.urb_node.specs.Replies.{Reply, Same};
ghost use Rattle.urb_node.specs.declared.answer.Answer.TheVariants.{Accepted};
ghost use Rattle.urb_node.specs.declared.cause.Cause.{Cause};
ghost use Rattle.urb_world.specs.World.{World, AreImages, image_of, opened, started, stored};
ghost use Rattle.urb_world.specs.Step.{Arrive, Event, Submit, Commit, step, Run};
ghost use Rattle.urb_world.specs.SafetyProperties.{Safe, OneMessage};
ghost use Rattle.urb_world.specs.TruthfulPackets.{AllTruthful, ToldTruth};
ghost use Rattle.urb_world.specs.RunMoments.{EntriesGrow, AgreeInTime};
ghost use Rattle.urb_world.specs.Acceptance.{HasStored};
ghost use Rattle.urb_world.specs.ProcessStops.{GoesOnIn, SurvivesStop};
ghost use Rattle.urb_world.specs.StoresAhead.{IsAheadOf, MayLeaveAhead};
ghost use Rattle.urb_group.specs.GroupViews.{GroupView, Shows, IsSound};
ghost use Rattle.urb_group.specs.GroupStores.{held_draft};
ghost use Rattle.urb_group.specs.StoreContents.{IsStoreOf};

use urb_stable::Stable;

/// Groups stay sound. A group that shows a new world is sound. So is a group that shows the world
/// which is opened from images that fit together. If a sound group changes so that, for each world
/// that it showed, it then shows the world after an event, it is still sound.
pub fn groups_stay_sound()
    ensures new { (group : GroupView) (limits : Limits) →
        Shows group (started limits) → IsSound group }
    ensures opened { (group : GroupView) (limits : Limits) (images : List (List Entry)) →
        AreImages limits images → Fits limits (image_of images) →
        Shows group (opened limits (image_of images)) → IsSound group }
    ensures step { (old new : GroupView) (event : Event) →
        IsSound old → ((w : World) → Shows old w → Shows new (step w event).1) → IsSound new }
{}

/// Every world that a sound group shows is safe, has one message per name, and survives a stop. In
/// it a repeat is accepted only if its message is stored (sections 3.7 and 3.9).
pub fn every_sound_group_is_safe()
    ensures safe { (group : GroupView) (w : World) → IsSound group → Shows group w → Safe w }
    ensures one_message { (group : GroupView) (w : World) →
        IsSound group → Shows group w → OneMessage w }
    ensures stop { (group : GroupView) (w : World) →
        IsSound group → Shows group w → SurvivesStop w }
    ensures accepted { (group : GroupView) (w : World) (p : ℕ) (m : Content) (x : Label)
        → IsSound group
        → Shows group w
        → (step w (Submit p m)).0 ≡ Same (Accepted x)
        → HasStored w p x m }
{}

/// The packets of a run from any world that a sound group shows are truthful at the end of the run.
/// Packets that were truthful before stay so (no creation, sections 2.4 and 3.7).
pub fn every_sound_group_tells_the_truth()
    ensures told { (group : GroupView) (old new : World) (events : List Event)
        (replies : List Reply)
        → IsSound group
        → Shows group old
        → Run old events replies new
        → ToldTruth new replies }
    ensures sent { (group : GroupView) (old new : World) (events : List Event)
        (replies : List Reply)
        → IsSound group
        → Shows group old
        → AllTruthful old
        → Run old events replies new
        → AllTruthful new }
{}

/// From any world on that a sound group shows, logs agree. For each sender, what one of two nodes
/// has delivered is a prefix of what the other has delivered, at one moment or at two. Each node's
/// log, its names with their messages, only grows at its end (sections 3.7 and 3.9).
pub fn every_sound_groups_logs_agree()
    ensures agree { (group : GroupView) (old new : World) (events : List Event)
        (replies : List Reply)
        → IsSound group
        → Shows group old
        → Run old events replies new
        → AgreeInTime old new }
    ensures grow { (group : GroupView) (old new : World) (events : List Event)
        (replies : List Reply)
        → IsSound group
        → Shows group old
        → Run old events replies new
        → EntriesGrow old new }
{}

/// The whole process may stop while the stores of some nodes hold records ahead of their events.
/// Each node may be looked at in its own world that the group shows. What the stop leaves opens a
/// group that goes on (recovery, sections 2.2 and 3.7).
pub fn a_stop_of_all_nodes_ahead_is_survived()
    ensures { (group : GroupView) (images : ℕ → List Entry)
        → IsSound group
        → ((p : ℕ) → (w : World) × Shows group w × MayLeaveAhead w p (images p))
        → (w : World) × Shows group w × GoesOnIn w images }
{}

/// A node is ready, and its store holds records ahead. It drafts the first of them, by a submit or
/// an arrival, and then gets that record's receipt. After that the store holds the others ahead. If
/// none is ahead, the store is the node's.
pub fn a_replay_keeps_its_store<S: Stable>()
    ensures submit { (w : World) (p : ℕ) (m : Content) (r : Entry) (cause : Option Cause)
        (tail : List Entry) (store : S)
        → IsTrue (is_node w.size.n p)
        → IsAheadOf S.Stable w p (r ∷ tail) store
        → ((step w (Submit p m)).1.node p).state ≡ Storing r cause
        → IsAheadOf S.Stable
        (step (step w (Submit p m)).1 (Commit p (suc (length (stored w p))) r)).1 p tail store }
    ensures arrive { (w : World) (p : ℕ) (bytes : Result Carried PacketFault) (r : Entry)
        (cause : Option Cause) (tail : List Entry) (store : S)
        → IsTrue (is_node w.size.n p)
        → IsAheadOf S.Stable w p (r ∷ tail) store
        → ((step w (Arrive p bytes)).1.node p).state ≡ Storing r cause
        → IsAheadOf S.Stable
        (step (step w (Arrive p bytes)).1 (Commit p (suc (length (stored w p))) r)).1 p tail store }
    ensures ends { (w : World) (p : ℕ) (store : S)
        → IsAheadOf S.Stable w p [] store
        → IsStoreOf S.Stable (w.node p) store }
{}

/// The draft that a node holds is in place for the node's store, if the store is honest. No
/// retrieve has to come first, the position is the one after the store's records, and the list may
/// grow. So the store never returns `Place` for it.
pub fn a_held_draft_is_in_place<S: Stable>()
    ensures { (group : GroupView) (w : World) (p : ℕ) (draft : Placed) (store : S)
        → IsSound group
        → IsLimits group.size
        → Shows group w
        → held_draft group p ≡ Some draft
        → IsStoreOf S.Stable (w.node p) store
        → S.is_honest store
        → is_out_of_place (S.is_doubtful store) (length (S.certain store) + 1) draft.pos ≡ false }
{}
