//! Rounds in different orders; each of them delivers.
//!
//! For each thing that a round asks for, the examples also have lists of events that lack only
//! this, and don't deliver.
ghost use Rattle.std.specs.Prelude.{[], ◌∷◌, ◌++◌, ◌≡◌, List, Ok, false, map, true};
ghost use Rattle.urb_names.specs.Names.{name, names};
ghost use Rattle.urb_names.specs.Nodes.{numbers_from};
ghost use Rattle.urb_world.specs.internal.Examples.{flagged, limits, pending};
ghost use Rattle.urb_world.specs.internal.RecoveryExamples.{opened_group, scene_after};
ghost use Rattle.urb_world.specs.RecoveryPlans.{both, rounds, stores};
ghost use Rattle.urb_world.specs.internal.RoundExamples.{BusyRoundsCome, RoundsCome, TicksEndBy};
ghost use Rattle.urb_world.specs.internal.RoundExamples.{a_busy_round, a_round, answers_arrive};
ghost use Rattle.urb_world.specs.internal.RoundExamples.{as_sent, broadcast_of_two, broken};
ghost use Rattle.urb_world.specs.internal.RoundExamples.{busy_at_first, busy_loses_a_packet};
ghost use Rattle.urb_world.specs.internal.RoundExamples.{busy_ticks_too_seldom, disturbed, in_order};
ghost use Rattle.urb_world.specs.internal.RoundExamples.{in_use, judged, judged_busy};
ghost use Rattle.urb_world.specs.internal.RoundExamples.{leaves_a_draft, loses_a_packet, none_of};
ghost use Rattle.urb_world.specs.internal.RoundExamples.{old_packets, one_by_one};
ghost use Rattle.urb_world.specs.internal.RoundExamples.{ticks_too_seldom};
ghost use Rattle.urb_world.specs.internal.RoundExamples.{two_of_three_nodes_broadcast};
ghost use Rattle.urb_world.specs.internal.RoundExamples.{with_answers, without_receipts};
ghost use Rattle.urb_world.specs.Rounds.{Act, AnswersArrive, IsBusyRound, IsRound};
ghost use Rattle.urb_world.specs.internal.Scripts.{message, submit};
ghost use Rattle.urb_world.specs.Step.{Arrive, Crash, Event, Fail, Restart, Submit, Tick};
ghost use Rattle.urb_world.specs.World.{stored, World};

/// What the examples judge to be a round is one, and a busy round is one. If they find that answers
/// arrive, they do.
pub fn what_is_judged_a_round_is_one()
    ensures round { (w : World) (events : List Event) → judged w events ≡ a_round → IsRound w events }
    ensures busy { (w : World) (events : List Event) →
        judged_busy w events ≡ a_busy_round → IsBusyRound w events }
    ensures answers { (acts : List Act) → answers_arrive acts ≡ true → AnswersArrive acts }
{}

/// Nodes 1 and 3 of three have stored a message each, and what they sent is lost or late. Two
/// rounds deliver in any order of ticks and arrivals. They also deliver with old packets that come
/// twice, and with packets that are refused at first.
pub fn rounds_in_any_order()
    ensures from_the_first_node_to_the_last { RoundsCome two_of_three_nodes_broadcast
        (in_order (1 ∷ 2 ∷ 3 ∷ []) as_sent) a_round
        (in_order (1 ∷ 2 ∷ 3 ∷ []) as_sent) a_round
        ((name 3 1 ∷ name 1 1 ∷ []) ∷ (name 1 1 ∷ name 3 1 ∷ []) ∷ (name 1 1 ∷ name 3 1 ∷ []) ∷ []) }
    ensures from_the_last_to_the_first { RoundsCome two_of_three_nodes_broadcast
        (in_order (3 ∷ 2 ∷ 1 ∷ []) as_sent) a_round
        (in_order (3 ∷ 2 ∷ 1 ∷ []) as_sent) a_round
        ((name 3 1 ∷ name 1 1 ∷ []) ∷ (name 3 1 ∷ name 1 1 ∷ []) ∷ (name 1 1 ∷ name 3 1 ∷ []) ∷ []) }
    ensures one_node_after_the_other { RoundsCome two_of_three_nodes_broadcast
        (one_by_one (1 ∷ 2 ∷ 3 ∷ [])) a_round
        (one_by_one (1 ∷ 2 ∷ 3 ∷ [])) a_round
        ((name 1 1 ∷ name 3 1 ∷ []) ∷ (name 1 1 ∷ name 3 1 ∷ []) ∷ (name 1 1 ∷ name 3 1 ∷ []) ∷ []) }
    ensures behind_old_packets { RoundsCome two_of_three_nodes_broadcast
        (both old_packets (in_order (2 ∷ 1 ∷ 3 ∷ []) as_sent)) a_round
        (in_order (2 ∷ 1 ∷ 3 ∷ []) as_sent) a_round
        ((name 3 1 ∷ name 1 1 ∷ []) ∷ (name 1 1 ∷ name 3 1 ∷ []) ∷ (name 1 1 ∷ name 3 1 ∷ []) ∷ []) }
    ensures with_refused_arrivals { RoundsCome two_of_three_nodes_broadcast
        (busy_at_first (1 ∷ 2 ∷ 3 ∷ [])) a_round
        (busy_at_first (1 ∷ 2 ∷ 3 ∷ [])) a_round
        ((name 3 1 ∷ name 1 1 ∷ []) ∷ (name 1 1 ∷ name 3 1 ∷ []) ∷ (name 1 1 ∷ name 3 1 ∷ []) ∷ []) }
{}

/// Each of these lists lacks one thing that a round asks for, and in the end some node has not
/// delivered all. It doesn't matter that another node has: a message is delivered if every node has
/// delivered it.
pub fn what_is_no_round()
    ensures a_node_ticks_once_too_seldom { RoundsCome
        (opened_group (limits 2 20) (map (pending 1) (numbers_from 1 17) ∷ [] ∷ []))
        (in_order (1 ∷ 2 ∷ []) as_sent) ticks_too_seldom
        (in_order (1 ∷ 1 ∷ 2 ∷ 2 ∷ []) as_sent) a_round
        (names 1 16 ∷ names 1 17 ∷ []) }
    ensures names_come_before_the_tick { RoundsCome
        (opened_group (limits 2 20) (map (pending 1) (numbers_from 1 16) ∷ (pending 2 1 ∷ []) ∷ []))
        (both (in_order (1 ∷ 1 ∷ []) as_sent) (in_order (2 ∷ []) as_sent)) ticks_too_seldom
        (in_order (1 ∷ 1 ∷ 2 ∷ 2 ∷ []) as_sent) a_round
        ((names 1 16 ++ name 2 1 ∷ []) ∷ names 1 16 ∷ []) }
    ensures a_packet_does_not_arrive { RoundsCome (broadcast_of_two 1)
        (in_order (1 ∷ 2 ∷ []) none_of) loses_a_packet
        (in_order (1 ∷ 2 ∷ []) as_sent) a_round
        ([] ∷ (name 1 1 ∷ []) ∷ []) }
    ensures a_packet_is_refused_as_busy { RoundsCome
        (scene_after (broadcast_of_two 1) (submit 2 (message 8 1 "b") ∷ []))
        (both (λ w. Tick 1 ∷ Arrive 2 (Ok (flagged 0 1 2 1 1 (message 7 1 "a"))) ∷ [])
        (both (stores 2) (in_order (2 ∷ []) as_sent))) loses_a_packet
        (in_order (1 ∷ 2 ∷ []) as_sent) a_round
        ((name 2 1 ∷ []) ∷ (name 2 1 ∷ name 1 1 ∷ []) ∷ []) }
    ensures a_draft_is_left { RoundsCome (broadcast_of_two 1)
        (in_order (1 ∷ 2 ∷ []) as_sent) a_round
        (without_receipts (1 ∷ 2 ∷ [])) leaves_a_draft
        ([] ∷ (name 1 1 ∷ []) ∷ []) }
    ensures a_node_crashes { RoundsCome (broadcast_of_two 1)
        (in_order (1 ∷ 2 ∷ []) as_sent) a_round
        (both (without_receipts (1 ∷ 2 ∷ [])) (λ w. Crash 1 ∷ Restart 1 (stored w 1) ∷ [])) disturbed
        ([] ∷ (name 1 1 ∷ []) ∷ []) }
{}

/// Each of these lists lacks one thing that the law of busy rounds asks for. In the end some node
/// that is ready hasn't delivered what was stored at first. In the last one the node isn't ready.
pub fn what_is_no_busy_round()
    ensures a_node_ticks_once_too_seldom { BusyRoundsCome
        (opened_group (limits 2 20) (map (pending 1) (numbers_from 1 17) ∷ [] ∷ []))
        (in_order (1 ∷ 2 ∷ []) as_sent) busy_ticks_too_seldom
        (in_order (1 ∷ 1 ∷ 2 ∷ 2 ∷ []) as_sent) a_busy_round
        (names 1 16 ∷ names 1 17 ∷ [])
        (true ∷ true ∷ []) }
    ensures a_packet_does_not_arrive { BusyRoundsCome (broadcast_of_two 1)
        (in_order (1 ∷ 2 ∷ []) none_of) busy_loses_a_packet
        (in_order (1 ∷ 2 ∷ []) as_sent) a_busy_round
        ([] ∷ (name 1 1 ∷ []) ∷ [])
        (true ∷ true ∷ []) }
    ensures a_node_crashes { BusyRoundsCome (broadcast_of_two 1)
        (in_order (1 ∷ 2 ∷ []) as_sent) a_busy_round
        (both (without_receipts (1 ∷ 2 ∷ [])) (λ w. Crash 1 ∷ Restart 1 (stored w 1) ∷ [])) broken
        ([] ∷ (name 1 1 ∷ []) ∷ [])
        (true ∷ true ∷ []) }
    ensures a_store_fails { BusyRoundsCome (broadcast_of_two 1)
        (in_order (1 ∷ 2 ∷ []) as_sent) a_busy_round
        (both (without_receipts (1 ∷ 2 ∷ [])) (λ w. Fail 1 ∷ Restart 1 (stored w 1) ∷ [])) broken
        ([] ∷ (name 1 1 ∷ []) ∷ [])
        (true ∷ true ∷ []) }
    ensures a_node_is_not_ready { BusyRoundsCome (broadcast_of_two 1)
        (in_order (1 ∷ 2 ∷ []) as_sent) a_busy_round
        (without_receipts (1 ∷ 2 ∷ [])) a_busy_round
        ([] ∷ (name 1 1 ∷ []) ∷ [])
        (false ∷ true ∷ []) }
    ensures the_group_is_stranded { BusyRoundsCome
        (opened_group (limits 1 10) ((pending 1 1 ∷ []) ∷ []))
        (λ w. Tick 1 ∷ []) a_busy_round
        (λ w. Tick 1 ∷ []) a_busy_round
        ([] ∷ [])
        (true ∷ []) }
{}

/// What a round asks for is enough, but not always needed: here node 1 ticks too seldom, and all is
/// delivered.
pub fn what_is_not_needed()
    ensures { RoundsCome (broadcast_of_two 2)
        rounds ticks_too_seldom
        rounds a_round
        ((name 2 1 ∷ []) ∷ (name 2 1 ∷ []) ∷ []) }
{}

/// Two busy rounds deliver in a group of two that is in use. In both rounds, each node takes a
/// message before the other one ticks. What node 1 had stored before is delivered at both nodes. Of
/// what came later some is, and some isn't yet. At the end node 1 may hold one more message.
pub fn rounds_in_use()
    ensures both_are_ready { BusyRoundsCome (broadcast_of_two 1)
        (in_use 1) a_busy_round
        (in_use 2) a_busy_round
        ((name 1 1 ∷ name 2 1 ∷ name 2 2 ∷ name 1 2 ∷ []) ∷ (name 1 1 ∷ name 1 2 ∷ name 2 1 ∷ []) ∷ [])
        (true ∷ true ∷ []) }
    ensures one_is_storing { BusyRoundsCome (broadcast_of_two 1)
        (in_use 1) a_busy_round
        (both (in_use 2) (λ w. Submit 1 (message 7 4 "") ∷ [])) a_busy_round
        ((name 1 1 ∷ name 2 1 ∷ name 2 2 ∷ name 1 2 ∷ []) ∷ (name 1 1 ∷ name 1 2 ∷ name 2 1 ∷ []) ∷ [])
        (false ∷ true ∷ []) }
{}

/// Ticks end: after a third round whose answers arrive, no node sends anything at a tick. If
/// answers are lost, ticks go on.
pub fn when_ticks_end()
    ensures answers_arrive { TicksEndBy (broadcast_of_two 1)
        (in_order (1 ∷ 2 ∷ []) as_sent) (in_order (1 ∷ 2 ∷ []) as_sent)
        (with_answers (1 ∷ 2 ∷ [])) true [] }
    ensures answers_are_lost { TicksEndBy (broadcast_of_two 1)
        (in_order (1 ∷ 2 ∷ []) as_sent) (in_order (1 ∷ 2 ∷ []) as_sent)
        (in_order (1 ∷ 2 ∷ []) as_sent) false ((1, name 1 1) ∷ []) }
{}
