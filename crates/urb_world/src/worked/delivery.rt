//! The words of the delivery law: what counts in a round, what a round asks for, and what it gives.
//!
//! Each row is one case of a word, or a world that lacks one thing.
ghost use Rattle.std.specs.Prelude.{[], ◌∷◌, ◌==◌, ◌≡◌, Err, None, Ok, false, if◌then◌else◌};
ghost use Rattle.std.specs.Prelude.{map};
ghost use Rattle.urb_names.specs.LabelsAndContents.{Limits};
ghost use Rattle.urb_names.specs.Names.{name};
ghost use Rattle.urb_names.specs.Nodes.{is_node, nodes};
ghost use Rattle.urb_names.specs.declared.refusal.PacketFault.TheVariants as fault;
ghost use Rattle.urb_names.specs.declared.refusal.Refusal.TheVariants as refusal;
ghost use Rattle.urb_node.specs.Part.{Down, Ready, Storing};
ghost use Rattle.urb_node.specs.Replies.{Drafted, Refused, Same, Sent, Stored, Up, WentDown};
ghost use Rattle.urb_node.specs.declared.answer.Answer.TheVariants.{Answered, Noted};
ghost use Rattle.urb_world.specs.RecoveredWorlds.{AllDelivered, HasDelivered};
ghost use Rattle.urb_world.specs.Rounds.{Adds, AllUp, AreUp, Arrives, Breaks, IsBusyRoundAmong};
ghost use Rattle.urb_world.specs.Rounds.{IsHeldAmong, IsRoundAmong, IsUnbroken, IsUndisturbed};
ghost use Rattle.urb_world.specs.Rounds.{NoneDue, ReadyHaveDelivered, TickAtLeast, Ticks};
ghost use Rattle.urb_world.specs.Rounds.{TicksArrive, act_of, arrival_by, disturbance, tick_by};
ghost use Rattle.urb_world.specs.Rounds.{HasDeliveredStored, HaveDeliveredHeld, TicksAreSilent};
ghost use Rattle.urb_world.specs.Rounds.{ticks_of};
ghost use Rattle.urb_world.specs.Step.{Arrive, Commit, Crash, Fail, Restart, Submit, Tick};
ghost use Rattle.urb_world.specs.World.{image_of, opened, started};
ghost use Rattle.urb_world.specs.internal.Examples.{certified, flagged, limits};
ghost use Rattle.urb_world.specs.internal.Examples.{node_in, pending};
ghost use Rattle.urb_stable.specs.declared.record.Record.TheVariants.{PendCert};
ghost use Rattle.urb_world.specs.internal.Scripts.{message};

/// What replies to events other than ticks and arrivals count as.
pub fn disturbances()
    ensures a_draft { disturbance (Drafted (name 1 1) 1) ≡ Adds ∷ [] }
    ensures the_same { disturbance (Same (Noted (name 1 1))) ≡ [] }
    ensures a_receipt { disturbance
        (Stored (record { accepted = false; name = name 1 1; sent = []; released = 0 })) ≡ [] }
    ensures packets { disturbance (Sent []) ≡ [] }
    ensures a_crash { disturbance (WentDown 1) ≡ Breaks ∷ [] }
    ensures a_restart { disturbance (Up 1) ≡ [] }
    ensures a_refusal { disturbance (Refused refusal.Busy) ≡ [] }
{}

/// What ticks and arrivals count as.
pub fn ticks_and_arrivals()
    ensures a_tick { tick_by 2 (Sent (flagged 0 2 1 2 1 (message 7 1 "") ∷ []))
        ≡ Ticks 2 (flagged 0 2 1 2 1 (message 7 1 "") ∷ []) ∷ [] }
    ensures a_refused_tick { tick_by 2 (Refused refusal.Down) ≡ [] }
    ensures a_drafted_packet { arrival_by (Ok (flagged 0 1 2 1 1 (message 7 1 "")))
        (Drafted (name 1 1) 1) ≡ Arrives (flagged 0 1 2 1 1 (message 7 1 "")) [] ∷ [] }
    ensures an_answered_packet { arrival_by (Ok (flagged 0 1 2 1 1 (message 7 1 "")))
        (Same (Answered (name 1 1) (flagged 1 2 1 1 1 (message 7 1 "") ∷ [])))
        ≡ Arrives (flagged 0 1 2 1 1 (message 7 1 "")) (flagged 1 2 1 1 1 (message 7 1 "") ∷ []) ∷ [] }
    ensures a_counted_packet { arrival_by (Ok (flagged 0 1 2 1 1 (message 7 1 "")))
        (Same (Noted (name 1 1))) ≡ Arrives (flagged 0 1 2 1 1 (message 7 1 "")) [] ∷ [] }
    ensures a_refused_packet { arrival_by (Ok (flagged 0 1 2 1 1 (message 7 1 "")))
        (Refused refusal.Busy) ≡ [] }
    ensures no_packet { arrival_by (Err fault.Short) (Refused (refusal.Packet fault.Short)) ≡ [] }
{}

/// What each event counts as with its reply.
pub fn events()
    ensures a_submit { act_of (Submit 1 (message 7 1 "")) (Drafted (name 1 1) 1) ≡ Adds ∷ [] }
    ensures an_arrival { act_of (Arrive 2 (Ok (flagged 0 1 2 1 1 (message 7 1 ""))))
        (Drafted (name 1 1) 1) ≡ Arrives (flagged 0 1 2 1 1 (message 7 1 "")) [] ∷ [] }
    ensures a_tick { act_of (Tick 2) (Sent []) ≡ Ticks 2 [] ∷ [] }
    ensures a_receipt { act_of (Commit 1 1 (pending 1 1))
        (Stored (record { accepted = false; name = name 1 1; sent = []; released = 0 })) ≡ [] }
    ensures a_failed_store { act_of (Fail 1) (WentDown 1) ≡ Breaks ∷ [] }
    ensures a_crash { act_of (Crash 1) (WentDown 1) ≡ Breaks ∷ [] }
    ensures a_restart { act_of (Restart 1 []) (Up 1) ≡ [] }
{}

/// How often a node ticks, and which lists have no failure, or no new message either.
pub fn counts_and_failures()
    ensures twice { ticks_of 2 (Ticks 2 [] ∷ Ticks 1 [] ∷ Adds ∷ Ticks 2 [] ∷ Breaks ∷ []) ≡ 2 }
    ensures never { ticks_of 3 (Ticks 2 [] ∷ Ticks 1 [] ∷ []) ≡ 0 }
    ensures a_new_message { IsUnbroken (Ticks 1 [] ∷ Adds ∷ []) }
    ensures a_failure { IsUnbroken (Ticks 1 [] ∷ Breaks ∷ []) → ⊥ }
    ensures nothing { IsUndisturbed (Ticks 1 [] ∷ Ticks 2 [] ∷ []) }
    ensures a_disturbing_message { IsUndisturbed (Ticks 1 [] ∷ Adds ∷ []) → ⊥ }
    ensures a_disturbing_failure { IsUndisturbed (Ticks 1 [] ∷ Breaks ∷ []) → ⊥ }
{}

/// Each of these lacks one thing that a round of seven asks for.
pub fn no_rounds()
    ensures a_new_message { IsRoundAmong (is_node 7) (Adds ∷ []) (started (limits 7 10)) → ⊥ }
    ensures too_few_ticks { IsRoundAmong (is_node 7) []
        (opened (limits 7 10) (image_of ((pending 1 1 ∷ []) ∷ []))) → ⊥ }
    ensures a_lost_packet { IsRoundAmong (is_node 7)
        (Ticks 1 (flagged 0 1 2 1 1 (message 7 1 "") ∷ []) ∷ []) (started (limits 7 10)) → ⊥ }
    ensures a_draft { IsRoundAmong (is_node 7) []
        (record (started (limits 7 10)) { node = λ p. node_in (Storing (pending 1 1) None) [] }) → ⊥ }
    ensures too_few_ticks_of_four { IsRoundAmong (is_node 4) []
        (opened (limits 4 10) (image_of ((pending 1 1 ∷ []) ∷ []))) → ⊥ }
{}

/// Each of these lacks one thing that a busy round of seven asks for.
pub fn no_busy_rounds()
    ensures a_failure { IsBusyRoundAmong (is_node 7) (Breaks ∷ []) (started (limits 7 10)) → ⊥ }
    ensures too_few_ticks { IsBusyRoundAmong (is_node 7) []
        (opened (limits 7 10) (image_of ((pending 1 1 ∷ []) ∷ []))) → ⊥ }
    ensures too_few_for_a_draft { IsBusyRoundAmong (is_node 7) []
        (record (started (limits 7 10)) { node = λ p. node_in (Storing (pending 1 1) None) [] }) → ⊥ }
    ensures a_lost_packet { IsBusyRoundAmong (is_node 7)
        (Ticks 1 (flagged 0 1 2 1 1 (message 7 1 "") ∷ []) ∷ []) (started (limits 7 10)) → ⊥ }
    ensures too_few_ticks_of_four { IsBusyRoundAmong (is_node 4) []
        (opened (limits 4 10) (image_of ((pending 1 1 ∷ []) ∷ []))) → ⊥ }
{}

/// Some nodes have a round, whatever the others hold: node 1 ticks and is ready, and node 2 isn't.
pub fn rounds_of_some()
    ensures a_round { IsRoundAmong (λ p. p == 1) (Ticks 1 [] ∷ [])
        (record (opened (limits 7 10) (image_of ([] ∷ (pending 2 1 ∷ []) ∷ []))) {
          node = λ p. if p == 1 then node_in Ready [] else node_in (Storing (pending 2 2) None)
              (pending 2 1 ∷ []);
        }) }
    ensures a_busy_round { IsBusyRoundAmong (λ p. p == 1) (Ticks 1 [] ∷ [])
        (record (opened (limits 7 10) (image_of ([] ∷ (pending 2 1 ∷ []) ∷ []))) {
          node = λ p. if p == 1 then node_in Ready [] else node_in (Storing (pending 2 2) None)
              (pending 2 1 ∷ []);
        }) }
{}

/// What a tick sends arrives later; packets to other nodes needn't.
pub fn what_ticks_send()
    ensures arrives_later { TicksArrive (is_node 2)
        (Ticks 1 (flagged 0 1 2 1 1 (message 7 1 "") ∷ [])
        ∷ Arrives (flagged 0 1 2 1 1 (message 7 1 "")) [] ∷ []) }
    ensures to_another_node { TicksArrive (is_node 2)
        (Ticks 1 (flagged 0 1 3 1 1 (message 7 1 "") ∷ []) ∷ []) }
    ensures arrived_before { TicksArrive (is_node 2)
        (Arrives (flagged 0 1 2 1 1 (message 7 1 "")) []
        ∷ Ticks 1 (flagged 0 1 2 1 1 (message 7 1 "") ∷ []) ∷ []) → ⊥ }
    ensures the_second_is_lost { TicksArrive (is_node 2)
        (Ticks 1 [] ∷ Ticks 1 (flagged 0 1 2 1 1 (message 7 1 "") ∷ []) ∷ []) → ⊥ }
{}

/// Which nodes are up, and what some of them hold, in groups of any size.
pub fn nodes_that_are_up()
    ensures all_of_new_groups { (size : Limits) → AllUp (started size) }
    ensures the_last_of_four_is_down { AllUp (record (started (limits 4 10))
        { node = λ p. if p == 4 then node_in (Down None) [] else node_in Ready [] }) → ⊥ }
    ensures the_last_of_seven_is_down { AllUp (record (started (limits 7 10))
        { node = λ p. if p == 7 then node_in (Down None) [] else node_in Ready [] }) → ⊥ }
    ensures other_nodes_may_be_down { AllUp (record (started (limits 7 10))
        { node = λ p. if is_node 7 p then node_in Ready [] else node_in (Down None) [] }) }
    ensures five_of_four { AreUp (is_node 5) (started (limits 4 10)) → ⊥ }
    ensures eight_of_seven { AreUp (is_node 8) (started (limits 7 10)) → ⊥ }
    ensures some_that_are_down { AreUp (is_node 2) (record (started (limits 7 10))
        { node = λ p. node_in (Down None) [] }) → ⊥ }
    ensures held_by_another { IsHeldAmong (is_node 1)
        (opened (limits 7 10) (image_of ([] ∷ (pending 1 1 ∷ []) ∷ []))) (name 1 1) → ⊥ }
{}

/// What was delivered, in groups of any size.
pub fn what_was_delivered()
    ensures nothing_in_new_groups { (size : Limits) → AllDelivered (started size) }
    ensures by_a_node_that_is_down { HasDelivered
        (record (started (limits 7 10)) { node = λ p. node_in (Down None) [] }) 1 → ⊥ }
    ensures nothing_by_one_of_four { HasDelivered
        (opened (limits 4 10) (image_of ((certified 1 1 ∷ []) ∷ [] ∷ [] ∷ [] ∷ []))) 2 → ⊥ }
    ensures nothing_by_one_of_seven { HasDelivered
        (opened (limits 7 10) (image_of ((certified 1 1 ∷ []) ∷ []))) 2 → ⊥ }
    ensures another_message { HasDelivered (opened (limits 7 10)
        (image_of ((certified 1 1 ∷ []) ∷ (PendCert (name 1 1) (message 7 1 "a") ∷ []) ∷ []))) 2
        → ⊥ }
    ensures not_all_of_seven { AllDelivered
        (opened (limits 7 10) (image_of ((certified 1 1 ∷ []) ∷ []))) → ⊥ }
    ensures not_what_was_stored { ReadyHaveDelivered
        (opened (limits 7 10) (image_of ((certified 1 1 ∷ []) ∷ [])))
        (opened (limits 7 10) (image_of [])) → ⊥ }
    ensures nothing_was_stored { (size : Limits) →
        ReadyHaveDelivered (started size) (started size) }
    ensures none_is_due { (size : Limits) → NoneDue (started size) }
    ensures one_of_seven_is_due { NoneDue
        (opened (limits 7 10) (image_of ((certified 1 1 ∷ []) ∷ []))) → ⊥ }
    ensures once_is_not_twice { TickAtLeast 2 (started (limits 7 10))
        (map (λ p. Ticks p []) (nodes 7)) → ⊥ }
{}

/// What only nodes, only ready nodes and only held names have to do. Here node 8 of seven, nodes
/// that are down, and names that nobody holds do nothing.
pub fn what_is_not_asked()
    ensures of_other_senders { HasDeliveredStored
        (record (started (limits 7 10)) {
          node = λ p. if is_node 7 p then node_in Ready [] else
              record (node_in Ready []) { broadcast = message 7 1 "" ∷ [] };
        }) (started (limits 7 10)) 1 }
    ensures of_nodes_that_are_down { ReadyHaveDelivered
        (opened (limits 7 10) (image_of ((pending 1 1 ∷ []) ∷ [])))
        (record (started (limits 7 10)) { node = λ p. node_in (Down None) [] }) }
    ensures of_other_nodes { ReadyHaveDelivered
        (opened (limits 7 10) (image_of ((pending 1 1 ∷ []) ∷ [])))
        (record (started (limits 7 10)) {
          node = λ p. if is_node 7 p then node_in (Down None) [] else
              node_in Ready [];
        }) }
    ensures of_other_nodes_names { NoneDue (record (started (limits 7 10))
        { node = λ p. if is_node 7 p then node_in Ready [] else node_in Ready (pending 1 1 ∷ []) }) }
    ensures of_other_nodes_ticks { TickAtLeast 1 (started (limits 1 10)) (Ticks 1 [] ∷ []) }
    ensures no_ticks { TickAtLeast 0 (started (limits 7 10)) [] }
    ensures of_names_that_nobody_holds { (size : Limits) →
        HaveDeliveredHeld (is_node size.n) (started size) (started size) }
{}

/// What some nodes have to do: deliver what they held, and send nothing at any tick.
pub fn what_is_asked()
    ensures of_seven { HaveDeliveredHeld (is_node 7)
        (opened (limits 7 10) (image_of ((pending 1 1 ∷ []) ∷ [])))
        (opened (limits 7 10) (image_of ((pending 1 1 ∷ []) ∷ []))) → ⊥ }
    ensures of_the_second_tick { TicksAreSilent
        (Ticks 1 [] ∷ Ticks 1 (flagged 0 1 2 1 1 (message 7 1 "") ∷ []) ∷ []) → ⊥ }
{}
