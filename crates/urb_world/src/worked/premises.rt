//! What the laws of runs and rounds suppose, and what they conclude.
//!
//! A word that only premises use must be true of something, also in groups of six and seven nodes.
//! A word that only conclusions use must be false of something. Otherwise a law could say nothing.
ghost use Rattle.std.specs.Prelude.{[], ◌∷◌, ◌++◌, ◌≡◌, List, Ok, false, map, true};
ghost use Rattle.urb_names.specs.Names.{name};
ghost use Rattle.urb_names.specs.LabelsAndContents.{Limits};
ghost use Rattle.urb_names.specs.Nodes.{is_node, majority_passes, nodes};
ghost use Rattle.urb_stable.specs.Entries.{Entry};
ghost use Rattle.urb_stable.specs.Fitting.{Fits};
ghost use Rattle.urb_stable.specs.declared.record.Record.TheVariants.{PendCert};
ghost use Rattle.urb_node.specs.Replies.{Reply};
ghost use Rattle.urb_world.specs.RunMoments.{AgreeInTime, EntriesGrow, GoesOn};
ghost use Rattle.urb_world.specs.RecoveredWorlds.{AllDelivered, AreAsSent};
ghost use Rattle.urb_world.specs.Resends.{IsDueAmong};
ghost use Rattle.urb_world.specs.Rounds.{AllUp, AnswersArrive, AreUp, Arrives, HaveDeliveredHeld};
ghost use Rattle.urb_world.specs.Rounds.{IsHeldAmong, NoneDue, ReadyHaveDelivered, TickAtLeast};
ghost use Rattle.urb_world.specs.Rounds.{Ticks, TicksAreSilent};
ghost use Rattle.urb_world.specs.SafetyProperties.{IsInOrder};
ghost use Rattle.urb_world.specs.Step.{Arrive, Crash, Event, IsReached, Run, Tick};
ghost use Rattle.urb_world.specs.World.{AreImages, World, image_of, opened, started};
ghost use Rattle.urb_world.specs.internal.Examples.{certified, flagged, limits, pending};
ghost use Rattle.urb_world.specs.internal.Scripts.{message};

/// Every run reaches its last world, in a group of any size.
pub fn every_run_reaches()
    ensures new { (size : Limits) (events : List Event) (replies : List Reply) (w : World) →
        Run (started size) events replies w → IsReached w }
    ensures images { (size : Limits) (images : List (List Entry)) (events : List Event)
        (replies : List Reply) (w : World) →
        AreImages size images → Fits size (image_of images) →
        Run (opened size (image_of images)) events replies w → IsReached w }
{}

/// The premises of the laws of rounds are true of these worlds and lists.
pub fn what_laws_suppose()
    ensures all_seven_are_up { AllUp (started (limits 7 10)) }
    ensures four_of_seven_are_up { AreUp (is_node 4) (started (limits 7 10)) }
    ensures four_are_a_majority { (majority_passes 7 (is_node 4) ≡ true)
        × (majority_passes 6 (is_node 4) ≡ true) × (majority_passes 7 (is_node 3) ≡ false)
        × (majority_passes 6 (is_node 3) ≡ false) }
    ensures the_last_of_seven_holds { IsHeldAmong (is_node 7)
        (opened (limits 7 10) (image_of ([] ∷ [] ∷ [] ∷ [] ∷ [] ∷ [] ∷ (pending 7 1 ∷ []) ∷ [])))
        (name 7 1) }
    ensures seven_tick_twice { TickAtLeast 2 (started (limits 7 10))
        (map (λ p. Ticks p []) (nodes 7 ++ nodes 7)) }
    ensures an_answer_arrives { AnswersArrive
        (Arrives (flagged 0 1 2 1 1 (message 7 1 "")) (flagged 1 2 1 1 1 (message 7 1 "") ∷ [])
        ∷ Arrives (flagged 1 2 1 1 1 (message 7 1 "")) [] ∷ []) }
    ensures one_of_two_is_due { IsDueAmong
        ((name 1 1, message 7 1 "") ∷ (name 2 1, message 7 1 "") ∷ []) (name 2 1) (message 7 1 "")
        ((name 2 1, message 7 1 "") ∷ []) }
    ensures a_sent_packet_comes { AreAsSent
        (record (opened (limits 2 10) (image_of ((pending 1 1 ∷ []) ∷ [] ∷ [])))
        { sent = flagged 0 1 2 1 1 (message 7 1 "") ∷ [] })
        (Arrive 2 (Ok (flagged 0 1 2 1 1 (message 7 1 ""))) ∷ Crash 1 ∷ Tick 2 ∷ []) }
{}

/// The conclusions of the laws are false of these worlds and lists. Node 1 of two has stored a
/// message, and nobody has delivered it; or two worlds have delivered different messages.
pub fn what_laws_conclude()
    ensures all_delivered { AllDelivered
        (opened (limits 2 10) (image_of ((pending 1 1 ∷ []) ∷ [] ∷ []))) → ⊥ }
    ensures have_delivered_held { HaveDeliveredHeld (is_node 2)
        (opened (limits 2 10) (image_of ((pending 1 1 ∷ []) ∷ [] ∷ [])))
        (opened (limits 2 10) (image_of ((pending 1 1 ∷ []) ∷ [] ∷ []))) → ⊥ }
    ensures ready_have_delivered { ReadyHaveDelivered
        (opened (limits 2 10) (image_of ((pending 1 1 ∷ []) ∷ [] ∷ [])))
        (opened (limits 2 10) (image_of ((pending 1 1 ∷ []) ∷ [] ∷ []))) → ⊥ }
    ensures ready_have_delivered_this { ReadyHaveDelivered
        (opened (limits 1 10) (image_of ((certified 1 1 ∷ []) ∷ [])))
        (opened (limits 1 10) (image_of ((PendCert (name 1 1) (message 7 1 "a") ∷ []) ∷ []))) → ⊥ }
    ensures none_due { NoneDue
        (opened (limits 2 10) (image_of ((pending 1 1 ∷ []) ∷ [] ∷ []))) → ⊥ }
    ensures ticks_are_silent { TicksAreSilent
        (Ticks 1 (flagged 0 1 2 1 1 (message 7 1 "") ∷ []) ∷ []) → ⊥ }
    ensures an_answer_that_came_before { AnswersArrive
        (Arrives (flagged 1 2 1 1 1 (message 7 1 "")) []
        ∷ Arrives (flagged 0 1 2 1 1 (message 7 1 "")) (flagged 1 2 1 1 1 (message 7 1 "") ∷ [])
        ∷ []) → ⊥ }
    ensures agree_in_time { AgreeInTime
        (opened (limits 1 10) (image_of ((certified 1 1 ∷ []) ∷ [])))
        (opened (limits 1 10) (image_of ((PendCert (name 1 1) (message 7 1 "a") ∷ []) ∷ []))) → ⊥ }
    ensures entries_grow { EntriesGrow
        (opened (limits 1 10) (image_of ((certified 1 1 ∷ []) ∷ [])))
        (opened (limits 1 10) (image_of ((PendCert (name 1 1) (message 7 1 "a") ∷ []) ∷ []))) → ⊥ }
    ensures is_in_order { IsInOrder
        (opened (limits 2 10) (image_of ((pending 1 1 ∷ [])
        ∷ (PendCert (name 1 1) (message 7 1 "a") ∷ []) ∷ []))) 2 1 → ⊥ }
    ensures goes_on { GoesOn
        (opened (limits 1 10) (image_of ((certified 1 1 ∷ []) ∷ [])))
        (opened (limits 1 10) (image_of ([] ∷ []))) → ⊥ }
{}
