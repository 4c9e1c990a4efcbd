//! What a packet of version two says, case by case.
//!
//! The cases are a certified name above a gap, a false claim, and what nodes hear and answer if
//! they didn't broadcast the message.
ghost use Rattle.std.specs.Prelude.{◌≡◌, [], ◌∷◌, None, Ok, Some, false};
ghost use Rattle.urb_names.specs.declared.refusal.Refusal.TheVariants as refusal;
ghost use Rattle.urb_names.specs.Names.{name};
ghost use Rattle.urb_stable.specs.declared.record.Record.TheVariants.{Cert};
ghost use Rattle.urb_node.specs.Part.{Down};
ghost use Rattle.urb_node.specs.Replies.{Drafted, Same, Sent, Stored};
ghost use Rattle.urb_node.specs.declared.answer.Answer.TheVariants.{Answered, Noted};
ghost use Rattle.urb_world.specs.World.{image_of, opened};
ghost use Rattle.urb_world.specs.Step.{run, Arrive, Commit, Tick};
ghost use Rattle.urb_world.specs.internal.Scripts.{◌⇒◌, PlaysOpened, Drafts, Accepts, Takes, Logs};
ghost use Rattle.urb_world.specs.internal.Scripts.{Is, Sends, Refuses, noted, again, answered};
ghost use Rattle.urb_world.specs.internal.Scripts.{down, up, message, submit, store, crash};
ghost use Rattle.urb_world.specs.internal.Scripts.{restart, bring, tick, arrive2, log_of, look_at};
ghost use Rattle.urb_world.specs.internal.Examples.{pending, certified, limits, flagged};

/// An answer is added to the packets that were sent, after the earlier ones.
pub fn answers_are_sent()
    ensures { (run (opened (limits 3 10)
        (image_of ((certified 1 1 ∷ []) ∷ (certified 1 1 ∷ []) ∷ [] ∷ []))) (
        Tick 1
        ∷ Arrive 2 (Ok (flagged 1 1 2 1 1 (message 7 1 "")))
        ∷ [])).1.sent
        ≡ flagged 1 1 2 1 1 (message 7 1 "")
        ∷ flagged 1 1 3 1 1 (message 7 1 "")
        ∷ flagged 3 2 1 1 1 (message 7 1 "")
        ∷ [] }
{}

/// A certificate counts as stored whether or not its name is delivered: node 2 has certified 1.2,
/// and lacks 1.1.
pub fn above_a_gap()
    ensures a_tick_tells_of_it { (run
        (opened (limits 3 10) (image_of
        ((pending 1 1 ∷ pending 1 2 ∷ []) ∷ (certified 1 2 ∷ []) ∷ [] ∷ []))) (
        Tick 2
        ∷ [])).0
        ≡ Sent (flagged 1 2 1 1 2 (message 7 2 "") ∷ flagged 1 2 3 1 2 (message 7 2 "") ∷ [])
        ∷ [] }
    ensures it_is_answered { (run
        (opened (limits 3 10) (image_of
        ((pending 1 1 ∷ pending 1 2 ∷ []) ∷ (certified 1 2 ∷ []) ∷ [] ∷ []))) (
        Arrive 2 (Ok (flagged 0 1 2 1 2 (message 7 2 "")))
        ∷ [])).0
        ≡ Same (Answered (name 1 2) (flagged 1 2 1 1 2 (message 7 2 "") ∷ []))
        ∷ [] }
    ensures a_packet_that_tells_of_it_is_taken { PlaysOpened (limits 3 10)
        (image_of ((pending 1 1 ∷ pending 1 2 ∷ []) ∷ (certified 1 2 ∷ []) ∷ [] ∷ [])) (
        log_of 2 ⇒ Logs []
        ∷ bring 3 (flagged 1 2 3 1 2 (message 7 2 "")) ⇒ Drafts (name 1 2) 1
        ∷ store 3 ⇒ Takes (name 1 2) 2 0
        ∷ tick 3 ⇒ Sends ((1, name 1 2) ∷ [])
        ∷ bring 1 (flagged 1 2 1 1 2 (message 7 2 "")) ⇒ Drafts (name 1 2) 3
        ∷ store 1 ⇒ Takes (name 1 2) 0 0
        ∷ tick 1 ⇒ Sends ((2, name 1 1) ∷ (3, name 1 1) ∷ (3, name 1 2) ∷ [])
        ∷ []) }
{}

/// A packet is forged if it claims a certificate that its source has not stored. If the target is
/// down or stores a record, that refusal comes first.
pub fn untrue_claims()
    ensures at_a_node_that_is_down { PlaysOpened (limits 3 10)
        (image_of ((pending 1 1 ∷ []) ∷ [] ∷ [] ∷ [])) (
        crash 3 ⇒ down 3
        ∷ bring 3 (flagged 1 1 3 1 1 (message 7 1 "")) ⇒ Refuses refusal.Down
        ∷ restart 3 ⇒ up 3
        ∷ bring 3 (flagged 1 1 3 1 1 (message 7 1 "")) ⇒ Refuses refusal.Forged
        ∷ []) }
    ensures at_a_node_that_stores { PlaysOpened (limits 3 10)
        (image_of ((pending 1 1 ∷ []) ∷ [] ∷ [] ∷ [])) (
        submit 3 (message 8 1 "b") ⇒ Drafts (name 3 1) 1
        ∷ bring 3 (flagged 1 1 3 1 1 (message 7 1 "")) ⇒ Refuses refusal.Busy
        ∷ store 3 ⇒ Accepts (name 3 1) 2 0
        ∷ bring 3 (flagged 1 1 3 1 1 (message 7 1 "")) ⇒ Refuses refusal.Forged
        ∷ []) }
    ensures of_a_name_that_is_certified_here { PlaysOpened (limits 3 10)
        (image_of ((pending 1 1 ∷ []) ∷ (certified 1 1 ∷ []) ∷ [] ∷ [])) (
        bring 2 (flagged 1 1 2 1 1 (message 7 1 "")) ⇒ Refuses refusal.Forged
        ∷ bring 2 (flagged 2 1 2 1 1 (message 7 1 "")) ⇒ again 1 1
        ∷ bring 2 (flagged 0 1 2 1 1 (message 7 1 "")) ⇒ answered 1 1 1 1
        ∷ []) }
{}

/// A node that stores a record and crashes loses what it had heard, as it loses what it had
/// counted.
pub fn heard_before_a_crash()
    ensures of_the_record_in_doubt { PlaysOpened (limits 3 10)
        (image_of ((pending 1 1 ∷ []) ∷ (certified 1 1 ∷ []) ∷ [] ∷ [])) (
        arrive2 2 1 1 1 1 ⇒ Drafts (name 1 1) 2
        ∷ crash 1 ⇒ down 1
        ∷ look_at 1 ⇒ Is (record {
          records = pending 1 1 ∷ [];
          state = Down (Some (Cert (name 1 1)));
          acks = [];
          heard = [];
          cursor = None;
          broadcast = message 7 1 "" ∷ [];
        })
        ∷ restart 1 ⇒ up 1
        ∷ tick 1 ⇒ Sends ((2, name 1 1) ∷ (3, name 1 1) ∷ [])
        ∷ []) }
    ensures of_another_name { PlaysOpened (limits 3 10)
        (image_of ((certified 1 1 ∷ []) ∷ (certified 1 1 ∷ []) ∷ [] ∷ [])) (
        arrive2 2 1 1 1 3 ⇒ again 1 1
        ∷ submit 1 (message 7 2 "b") ⇒ Drafts (name 1 2) 2
        ∷ crash 1 ⇒ down 1
        ∷ restart 1 ⇒ up 1
        ∷ tick 1 ⇒ Sends ((2, name 1 1) ∷ (3, name 1 1) ∷ [])
        ∷ []) }
{}

/// Nodes 2 and 3 report to each other on a message of node 1. What is heard and answered belongs to
/// the packet's source, and not to the message's sender.
pub fn between_two_that_did_not_send()
    ensures an_answer { PlaysOpened (limits 3 10)
        (image_of ((certified 1 1 ∷ []) ∷ (certified 1 1 ∷ []) ∷ (certified 1 1 ∷ []) ∷ [])) (
        arrive2 2 3 1 1 0 ⇒ answered 1 1 2 1
        ∷ arrive2 3 2 1 1 1 ⇒ answered 1 1 3 3
        ∷ arrive2 2 3 1 1 3 ⇒ again 1 1
        ∷ tick 2 ⇒ Sends ((1, name 1 1) ∷ [])
        ∷ tick 3 ⇒ Sends ((1, name 1 1) ∷ [])
        ∷ tick 1 ⇒ Sends ((2, name 1 1) ∷ (3, name 1 1) ∷ [])
        ∷ []) }
    ensures a_record { PlaysOpened (limits 5 10)
        (image_of ((pending 1 1 ∷ []) ∷ (certified 1 1 ∷ []) ∷ (pending 1 1 ∷ []) ∷ [] ∷ [] ∷ [])) (
        arrive2 2 3 1 1 1 ⇒ noted 1 1
        ∷ tick 3 ⇒ Sends ((1, name 1 1) ∷ (4, name 1 1) ∷ (5, name 1 1) ∷ [])
        ∷ arrive2 3 2 1 1 0 ⇒ answered 1 1 3 1
        ∷ []) }
{}

/// A stored record reports that a certificate was heard to the node whose packet caused it, and to
/// no other. Here node 4 has heard of another name from node 2, and of this one from node 3.
pub fn a_record_tells_who_was_heard()
    ensures { (run (opened (limits 4 10) (image_of (
        (pending 1 1 ∷ pending 1 2 ∷ [])
        ∷ (certified 1 1 ∷ certified 1 2 ∷ [])
        ∷ (pending 1 1 ∷ certified 1 2 ∷ [])
        ∷ (pending 1 1 ∷ [])
        ∷ []))) (
        Arrive 4 (Ok (flagged 1 2 4 1 1 (message 7 1 "")))
        ∷ Arrive 4 (Ok (flagged 1 3 4 1 2 (message 7 2 "")))
        ∷ Commit 4 2 (pending 1 2)
        ∷ [])).0
        ≡ Same (Noted (name 1 1))
        ∷ Drafted (name 1 2) 2
        ∷ Stored (record {
          accepted = false;
          name = name 1 2;
          sent = flagged 0 4 1 1 2 (message 7 2 "") ∷ flagged 0 4 2 1 2 (message 7 2 "") ∷ flagged 2 4 3 1 2 (message 7 2 "") ∷ [];
          released = 0;
        })
        ∷ [] }
{}
