//! What one node answers, what may come to it, and what it may store next.
//!
//! An answer for every node of which nothing is so may be anything.
ghost use Rattle.std.specs.Prelude.{[], ◌∷◌, None, true};
ghost use Rattle.urb_names.specs.Names.{name};
ghost use Rattle.urb_names.specs.declared.refusal.Refusal.TheVariants as refusal;
ghost use Rattle.urb_node.specs.CallEffects.{AreOfStored, CountsOwn, FindsMessage, Holds};
ghost use Rattle.urb_node.specs.CallEffects.{IsCertified, IsForNode, MayGrow, TellsLog, TellsNext};
ghost use Rattle.urb_node.specs.RecordAdmission.{IsNext, MayArrive};
ghost use Rattle.urb_node.specs.Replies.{Drafted, Refused, Same, Sent, Stored, Up, WentDown};
ghost use Rattle.urb_node.specs.declared.answer.Answer.TheVariants.{Accepted, Again, Answered, Noted};
ghost use Rattle.urb_stable.specs.declared.record.Record.TheVariants.{Cert};
ghost use Rattle.urb_step_examples.specs.internal.NodeExamples.{done_with, new_node};
ghost use Rattle.urb_world.specs.internal.Examples.{carried, empty_packet, filled, limits, pending};
ghost use Rattle.urb_world.specs.internal.Scripts.{message};

/// Which replies refused memory may replace: those that make something.
pub fn what_refused_memory_replaces()
    ensures a_draft { MayGrow (Drafted (name 1 1) 1) }
    ensures no_repeat { MayGrow (Same (Accepted (name 1 1))) → ⊥ }
    ensures a_counted_acknowledgement { MayGrow (Same (Noted (name 1 1))) }
    ensures nothing_new { MayGrow (Same (Again (name 1 1))) → ⊥ }
    ensures an_answer { MayGrow (Same (Answered (name 1 1) [])) }
    ensures no_receipt { MayGrow (Stored (done_with 0)) → ⊥ }
    ensures what_a_tick_sends { MayGrow (Sent []) }
    ensures no_crash { MayGrow (WentDown 1) → ⊥ }
    ensures a_restart { MayGrow (Up 1) }
    ensures a_judged_image { MayGrow (Refused refusal.BadImage) }
    ensures no_other_refusal { MayGrow (Refused refusal.Busy) → ⊥ }
{}

/// The answers for every node that is shown. If none is shown, they may be anything.
pub fn what_one_node_answers()
    ensures it_holds_a_message { Holds (λ node. ⊥) (name 1 1) (message 7 1 "") true }
    ensures it_has_certified_a_name { IsCertified (λ node. ⊥) (name 1 1) true }
    ensures it_has_no_message { FindsMessage (λ node. ⊥) (name 1 1) None }
    ensures it_has_delivered_a_name { TellsLog (λ node. ⊥) (name 1 1 ∷ []) }
    ensures it_has_broadcast_five { CountsOwn (λ node. ⊥) 5 }
    ensures the_next_number_is_five { TellsNext (λ node. ⊥) 7 5 }
    ensures it_sent_a_packet { AreOfStored (λ node. ⊥) 1 (empty_packet 0 1 2 ∷ []) }
{}

/// A packet may be given to its target if it comes from a node of the group, and its pair may come.
pub fn packets_for_a_node()
    ensures for_it { IsForNode (new_node 1) (carried 2 1 2 1 (message 7 1 "")) }
    ensures for_another { IsForNode (new_node 1) (carried 2 3 2 1 (message 7 1 "")) → ⊥ }
    ensures from_a_fourth_of_three { IsForNode (new_node 1) (carried 4 1 2 1 (message 7 1 "")) → ⊥ }
    ensures of_a_fourth_of_three { IsForNode (new_node 1) (carried 2 1 4 1 (message 7 1 "")) → ⊥ }
{}

/// Which pair may come to a node that holds these pairs.
pub fn pairs_that_may_come()
    ensures of_another_of_four { MayArrive (limits 4 10) 1 [] (name 2 1) (message 7 1 "") }
    ensures of_a_fourth_of_three { MayArrive (limits 3 10) 1 [] (name 4 1) (message 7 1 "") → ⊥ }
    ensures of_a_fifth_of_four { MayArrive (limits 4 10) 1 [] (name 5 1) (message 7 1 "") → ⊥ }
    ensures over_the_cap { MayArrive (limits 3 10) 1 [] (name 2 11) (message 7 11 "") → ⊥ }
    ensures of_its_own_that_it_lacks { MayArrive (limits 3 10) 1 [] (name 1 1) (message 7 1 "") → ⊥ }
    ensures another_message { MayArrive (limits 3 10) 1 ((name 2 1, message 7 1 "") ∷ [])
        (name 2 1) (message 7 1 "b") → ⊥ }
    ensures another_message_than_a_long_one { MayArrive (limits 3 10) 1
        ((name 2 1, filled 7 1 1001) ∷ []) (name 2 1) (message 7 1 "") → ⊥ }
{}

/// Which record a node may store next.
pub fn records_that_may_be_next()
    ensures its_first_in_four { IsNext (limits 4 10) 1 [] [] (pending 1 1) }
    ensures not_its_second { IsNext (limits 3 10) 1 [] [] (pending 1 2) → ⊥ }
    ensures not_its_second_in_four { IsNext (limits 4 10) 1 [] [] (pending 1 2) → ⊥ }
    ensures not_a_certificate_of_nothing { IsNext (limits 3 10) 1 [] [] (Cert (name 2 1)) → ⊥ }
{}
