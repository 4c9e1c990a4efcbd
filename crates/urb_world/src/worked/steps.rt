//! The parts of a step at one node, each by itself: what it compares, what it counts, what it sends.
ghost use Rattle.std.specs.Prelude.{[], ◌∷◌, ◌≡◌, None, Some, false, true};
ghost use Rattle.urb_names.specs.Acknowledgements.{with_ack};
ghost use Rattle.urb_names.specs.CarriedPackets.{due_of, is_due, others, packets_to, to_others};
ghost use Rattle.urb_names.specs.CarriedPackets.{to_unheard};
ghost use Rattle.urb_names.specs.CyclicOrder.{cyclic, inserted, resent, rising};
ghost use Rattle.urb_names.specs.Names.{name};
ghost use Rattle.urb_names.specs.declared.refusal.Refusal.TheVariants as refusal;
ghost use Rattle.urb_node.specs.Part.{Down, Ready, Storing, own_acks, packet_from, self_acks};
ghost use Rattle.urb_node.specs.Replies.{Drafted, Refused, Same, Sent, Up, packets_in};
ghost use Rattle.urb_node.specs.Replies.{packets_with};
ghost use Rattle.urb_node.specs.Steps.{acks_after, arrives, broadcast_after, commits, crashes, due};
ghost use Rattle.urb_node.specs.Steps.{fails, heard_after, heard_of, hears, is_accepted, is_down};
ghost use Rattle.urb_node.specs.Steps.{is_storing, packets_of, restarts_with, same_list, same_names};
ghost use Rattle.urb_node.specs.Steps.{same_pairs, same_record, submits, submits_again};
ghost use Rattle.urb_node.specs.Steps.{submits_new, tells, ticks, with_cause, with_heard};
ghost use Rattle.urb_node.specs.declared.answer.Answer.TheVariants.{Accepted, Answered};
ghost use Rattle.urb_stable.specs.declared.record.Record.TheVariants.{Cert, Pend, PendCert};
ghost use Rattle.urb_world.specs.internal.Examples.{certified, flagged, limits, node_in, pending};
ghost use Rattle.urb_world.specs.internal.Scripts.{message};

/// Two records are the same if they are of one kind and have the same name and message.
pub fn records_that_are_the_same()
    ensures two_pairs { same_record (pending 1 1) (pending 1 1) ≡ true }
    ensures another_name { same_record (pending 1 1) (Pend (name 1 2) (message 7 1 "")) ≡ false }
    ensures another_message { same_record (pending 1 1) (Pend (name 1 1) (message 7 1 "a")) ≡ false }
    ensures a_pair_and_a_certified_one { same_record (pending 1 1) (certified 1 1) ≡ false }
    ensures two_certified_pairs { same_record (certified 1 1) (certified 1 1) ≡ true }
    ensures another_name_certified { same_record (certified 1 1) (PendCert (name 1 2) (message 7 1 "")) ≡ false }
    ensures another_message_certified { same_record (certified 1 1) (PendCert (name 1 1) (message 7 1 "a")) ≡ false }
    ensures two_certificates { same_record (Cert (name 1 1)) (Cert (name 1 1)) ≡ true }
    ensures certificates_of_two_names { same_record (Cert (name 1 1)) (Cert (name 1 2)) ≡ false }
{}

/// An image tells the same as the records if each has the pairs and the names of the other.
pub fn images_that_tell_the_same()
    ensures no_list { same_list [] [] ≡ true }
    ensures a_longer_list { same_list [] (name 1 1 ∷ []) ≡ false }
    ensures another_first_name { same_list (name 1 1 ∷ []) (name 2 1 ∷ []) ≡ false }
    ensures another_second_name { same_list (name 1 1 ∷ name 1 2 ∷ []) (name 1 1 ∷ name 1 3 ∷ [])
        ≡ false }
    ensures in_another_order { same_names (name 1 1 ∷ name 1 2 ∷ []) (name 1 2 ∷ name 1 1 ∷ []) ≡ true }
    ensures a_name_more { same_names (name 1 1 ∷ name 1 2 ∷ []) (name 1 1 ∷ []) ≡ false }
    ensures a_name_less { same_names (name 1 1 ∷ []) (name 1 1 ∷ name 1 2 ∷ []) ≡ false }
    ensures a_pair_more { same_pairs ((name 1 1, message 7 1 "") ∷ (name 1 2, message 7 2 "") ∷ [])
        ((name 1 1, message 7 1 "") ∷ []) ≡ false }
    ensures a_pair_less { same_pairs ((name 1 1, message 7 1 "") ∷ [])
        ((name 1 1, message 7 1 "") ∷ (name 1 2, message 7 2 "") ∷ []) ≡ false }
    ensures nothing { tells [] [] [] [] 0 ≡ true }
    ensures without_a_pair { tells [] ((name 1 1, message 7 1 "") ∷ []) [] [] 0 ≡ false }
    ensures without_a_certificate { tells [] [] (name 1 1 ∷ []) [] 0 ≡ false }
    ensures without_a_delivery { tells [] [] [] (name 1 1 ∷ []) 0 ≡ false }
    ensures without_a_record { tells [] [] [] [] 1 ≡ false }
{}

/// Each state is one of three. A node that is down refuses all but a restart.
pub fn states_of_a_node()
    ensures a_ready_node_is_up { is_down Ready ≡ false }
    ensures a_node_that_writes_is_up { is_down (Storing (pending 1 1) None) ≡ false }
    ensures a_node_is_down { is_down (Down None) ≡ true }
    ensures a_ready_node_writes_nothing { is_storing Ready ≡ false }
    ensures a_node_writes { is_storing (Storing (pending 1 1) None) ≡ true }
    ensures a_node_that_is_down_writes_nothing { is_storing (Down None) ≡ false }
    ensures a_submit { (submits (limits 3 10) 1 (message 7 1 "") (node_in Ready [])).0
        ≡ Drafted (name 1 1) 1 }
    ensures a_tick_of_none { (ticks 3 1 (node_in (Down None) [])).0 ≡ Refused refusal.Down }
    ensures a_tick { (ticks 3 1 (node_in Ready [])).0 ≡ Sent [] }
    ensures a_second_crash { (crashes 1 (node_in (Down None) [])).0 ≡ Refused refusal.Down }
    ensures a_failure_of_none { (fails 1 (node_in Ready []) Ready).0 ≡ Refused refusal.Stale }
    ensures a_failure_of_a_node_that_is_down { (fails 1 (node_in (Down None) []) (Down None)).0 ≡ Refused refusal.Down }
{}

/// A new message is drafted, and the same one again is accepted under its name.
pub fn submits_of_a_message()
    ensures a_new_one { (submits_new (limits 3 10) 1 (message 7 1 "") (node_in Ready [])).0
        ≡ Drafted (name 1 1) 1 }
    ensures behind_a_gap { (submits_new (limits 3 10) 1 (message 7 2 "") (node_in Ready [])).0
        ≡ Refused (refusal.Gap 1) }
    ensures the_same_one { (submits_again 1 (message 7 1 "") (message 7 1 "")
        (record (node_in Ready []) { broadcast = message 7 1 "" ∷ [] })).0
        ≡ Same (Accepted (name 1 1)) }
    ensures another_one { (submits_again 1 (message 7 1 "a") (message 7 1 "")
        (record (node_in Ready []) { broadcast = message 7 1 "" ∷ [] })).0
        ≡ Refused refusal.Conflict }
{}

/// A receipt is taken for the held record at the next position, and for no other.
pub fn receipts_of_a_record()
    ensures at_another_position { (commits 3 1 2 (pending 1 1)
        (node_in (Storing (pending 1 1) None) []) (Storing (pending 1 1) None)).0
        ≡ Refused refusal.Stale }
    ensures of_another_record { (commits 3 1 1 (pending 1 2)
        (node_in (Storing (pending 1 1) None) []) (Storing (pending 1 1) None)).0
        ≡ Refused refusal.Stale }
    ensures its_own { (commits 1 1 1 (Cert (name 1 1))
        (node_in (Storing (Cert (name 1 1)) None) []) (Storing (Cert (name 1 1)) None)).1
        ≡ node_in Ready (Cert (name 1 1) ∷ []) }
    ensures is_accepted_for_an_own_pair { is_accepted 1 (certified 1 1) ≡ true }
    ensures is_not_accepted_for_a_certificate { is_accepted 1 (Cert (name 1 1)) ≡ false }
{}

/// A restart takes an image of the stored records, also if a record is in doubt.
pub fn restarts_of_a_node()
    ensures with_its_records { (restarts_with 1 [] (node_in (Down None) []) None).0 ≡ Up 1 }
    ensures with_a_record_too_many { (restarts_with 1 (pending 1 1 ∷ [])
        (node_in (Down None) []) None).0 ≡ Refused refusal.BadImage }
    ensures without_the_doubtful_record { (restarts_with 1 []
        (node_in (Down (Some (pending 1 1))) []) (Some (pending 1 1))).0 ≡ Up 1 }
{}

/// What is counted, heard and broadcast once a record is stored.
pub fn counts_after_a_record()
    ensures a_second_node { with_ack ((name 1 1, 1) ∷ []) (name 1 1) 2
        ≡ (name 1 1, 2) ∷ (name 1 1, 1) ∷ [] }
    ensures a_node_again { with_ack ((name 1 1, 1) ∷ []) (name 1 1) 1 ≡ (name 1 1, 1) ∷ [] }
    ensures the_cause { with_cause ((name 1 1, 2) ∷ []) (name 1 1) (Some (packet_from 1 false))
        ≡ (name 1 1, 1) ∷ (name 1 1, 2) ∷ [] }
    ensures the_node_and_the_cause { acks_after 2 (pending 1 1) (Some (packet_from 1 false)) []
        ≡ (name 1 1, 1) ∷ (name 1 1, 2) ∷ [] }
    ensures the_node_of_a_certified_pair { acks_after 2 (certified 1 1) None []
        ≡ (name 1 1, 2) ∷ [] }
    ensures nobody_for_a_certificate { acks_after 2 (Cert (name 1 1)) None [] ≡ [] }
    ensures its_own_names { own_acks 1 (pending 1 1 ∷ pending 1 2 ∷ [])
        ≡ (name 1 1, 1) ∷ (name 1 2, 1) ∷ [] }
    ensures all_of_its_pairs { self_acks 1 ((name 1 1, message 7 1 "") ∷ (name 1 2, message 7 2 "")
        ∷ []) ≡ (name 1 1, 1) ∷ (name 1 2, 1) ∷ [] }
    ensures a_certificate_is_reported { heard_of (Some (packet_from 2 true)) ≡ Some 2 }
    ensures no_certificate_is_reported { heard_of (Some (packet_from 2 false)) ≡ None }
    ensures one_more_is_heard { with_heard ((name 2 1, 3) ∷ []) (name 1 1) (Some 2)
        ≡ (name 1 1, 2) ∷ (name 2 1, 3) ∷ [] }
    ensures heard_with_a_pair { heard_after (pending 1 1) (Some (packet_from 2 true))
        ((name 2 1, 3) ∷ []) ≡ (name 1 1, 2) ∷ (name 2 1, 3) ∷ [] }
    ensures heard_with_a_certified_pair { heard_after (certified 1 1) (Some (packet_from 2 true)) []
        ≡ (name 1 1, 2) ∷ [] }
    ensures not_heard_with_a_certificate { heard_after (Cert (name 1 1))
        (Some (packet_from 2 true)) [] ≡ [] }
    ensures not_heard_without_flags { hears 2 (name 1 1) None (node_in Ready []) ≡ node_in Ready [] }
    ensures a_second_broadcast { broadcast_after 1 (pending 1 2) (message 7 1 "" ∷ [])
        ≡ message 7 1 "" ∷ message 7 2 "" ∷ [] }
    ensures a_certified_broadcast { broadcast_after 1 (certified 1 2) (message 7 1 "" ∷ [])
        ≡ message 7 1 "" ∷ message 7 2 "" ∷ [] }
    ensures no_broadcast_of_another { broadcast_after 2 (certified 1 2) [] ≡ [] }
{}

/// The packets that a stored record and a tick send, in their order.
pub fn packets_of_a_node()
    ensures all_other_nodes { others 3 2 ≡ 1 ∷ 3 ∷ [] }
    ensures to_two_targets { packets_to 1 (λ q. record { certified = false; heard = false })
        (2 ∷ 3 ∷ []) (name 1 1, message 7 1 "")
        ≡ flagged 0 1 2 1 1 (message 7 1 "") ∷ flagged 0 1 3 1 1 (message 7 1 "") ∷ [] }
    ensures to_all_others { to_others 3 1 false None (name 1 1, message 7 1 "")
        ≡ flagged 0 1 2 1 1 (message 7 1 "") ∷ flagged 0 1 3 1 1 (message 7 1 "") ∷ [] }
    ensures to_those_not_heard { to_unheard 3 1 [] [] (name 1 1, message 7 1 "")
        ≡ flagged 0 1 2 1 1 (message 7 1 "") ∷ flagged 0 1 3 1 1 (message 7 1 "") ∷ [] }
    ensures of_a_pair { packets_of 3 1 (pending 1 1) None
        ≡ flagged 0 1 2 1 1 (message 7 1 "") ∷ flagged 0 1 3 1 1 (message 7 1 "") ∷ [] }
    ensures of_a_certified_pair { packets_of 2 1 (certified 1 1) None
        ≡ flagged 1 1 2 1 1 (message 7 1 "") ∷ [] }
    ensures of_a_reply { packets_in (Sent (flagged 0 1 2 1 1 (message 7 1 "")
        ∷ flagged 0 1 3 1 1 (message 7 1 "") ∷ []))
        ≡ flagged 0 1 2 1 1 (message 7 1 "") ∷ flagged 0 1 3 1 1 (message 7 1 "") ∷ [] }
    ensures of_an_answer { packets_with (Answered (name 1 1) (flagged 0 1 2 1 1 (message 7 1 "")
        ∷ flagged 0 1 3 1 1 (message 7 1 "") ∷ []))
        ≡ flagged 0 1 2 1 1 (message 7 1 "") ∷ flagged 0 1 3 1 1 (message 7 1 "") ∷ [] }
    ensures a_new_name { (arrives (limits 3 10) 2 1 (name 1 1) (message 7 1 "") None
        (node_in Ready [])).0 ≡ Drafted (name 1 1) 1 }
{}

/// The pairs that a tick resends, in their order: those behind the cursor first.
pub fn pairs_of_a_tick()
    ensures none_was_heard { is_due 4 1 [] (name 1 1) ≡ true }
    ensures none_of_six_was_heard { is_due 7 1 [] (name 1 1) ≡ true }
    ensures all_were_heard { is_due 4 1 ((name 1 1, 2) ∷ (name 1 1, 3) ∷ (name 1 1, 4) ∷ [])
        (name 1 1) ≡ false }
    ensures both_are_due { due_of 2 1 [] ((name 1 1, message 7 1 "") ∷ (name 1 2, message 7 2 "") ∷ [])
        ≡ (name 1 1, message 7 1 "") ∷ (name 1 2, message 7 2 "") ∷ [] }
    ensures put_behind_a_smaller_name { inserted (name 1 2, message 7 2 "")
        ((name 1 1, message 7 1 "") ∷ []) ≡ (name 1 1, message 7 1 "") ∷ (name 1 2, message 7 2 "") ∷ [] }
    ensures in_rising_order { rising ((name 1 2, message 7 2 "") ∷ (name 1 1, message 7 1 "") ∷ [])
        ≡ (name 1 1, message 7 1 "") ∷ (name 1 2, message 7 2 "") ∷ [] }
    ensures from_the_cursor_on { cyclic (Some (name 1 1))
        ((name 1 1, message 7 1 "") ∷ (name 1 2, message 7 2 "") ∷ [])
        ≡ (name 1 2, message 7 2 "") ∷ (name 1 1, message 7 1 "") ∷ [] }
    ensures all_again { resent None ((name 1 1, message 7 1 "") ∷ (name 1 2, message 7 2 "") ∷ [])
        ≡ (name 1 1, message 7 1 "") ∷ (name 1 2, message 7 2 "") ∷ [] }
    ensures of_a_node { due 2 1 (node_in Ready (pending 1 1 ∷ pending 1 2 ∷ []))
        ≡ (name 1 1, message 7 1 "") ∷ (name 1 2, message 7 2 "") ∷ [] }
{}
