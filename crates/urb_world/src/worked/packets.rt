//! The packets of a script's replies, in full.
ghost use Rattle.std.specs.Prelude.{◌≡◌, [], ◌∷◌, Ok, true, false};
ghost use Rattle.urb_names.specs.Names.{name};
ghost use Rattle.urb_stable.specs.declared.record.Record.TheVariants.{Pend, PendCert, Cert};
ghost use Rattle.urb_node.specs.Replies.{Drafted, Same, Sent};
ghost use Rattle.urb_node.specs.declared.answer.Answer.TheVariants.{Answered};
ghost use Rattle.urb_world.specs.World.{image_of, opened, started};
ghost use Rattle.urb_world.specs.Step.{run, Submit, Arrive, Commit, Tick};
ghost use Rattle.urb_world.specs.internal.Scripts.{message};
ghost use Rattle.urb_world.specs.internal.Examples.{Replies, a_packet, carried, certified};
ghost use Rattle.urb_world.specs.internal.Examples.{empty_packet, limits, pending, stored};

/// A stored pair goes to every other node, in rising order of target. A certificate goes to no
/// node. All packets of replies count as sent. Packets are of version two. They report a
/// certificate from the record on that certifies the name.
pub fn packets()
    ensures in_the_replies { Replies (started (limits 3 10)) (
        (Submit 1 (message 7 1 "a"), Drafted (name 1 1) 1)
        ∷ (
          Commit 1 1 (Pend (name 1 1) (message 7 1 "a")),
          stored true (a_packet 0 1 2 ∷ a_packet 0 1 3 ∷ []) 0,
        )
        ∷ (Arrive 2 (Ok (carried 1 2 1 1 (message 7 1 "a"))), Drafted (name 1 1) 1)
        ∷ (
          Commit 2 1 (PendCert (name 1 1) (message 7 1 "a")),
          stored false (a_packet 1 2 1 ∷ a_packet 1 2 3 ∷ []) 1,
        )
        ∷ (Arrive 1 (Ok (carried 2 1 1 1 (message 7 1 "a"))), Drafted (name 1 1) 2)
        ∷ (Commit 1 2 (Cert (name 1 1)), stored false [] 1)
        ∷ []) }
    ensures sent_in_all { (run (started (limits 3 10)) (
        Submit 1 (message 7 1 "a")
        ∷ Commit 1 1 (Pend (name 1 1) (message 7 1 "a"))
        ∷ Arrive 2 (Ok (carried 1 2 1 1 (message 7 1 "a")))
        ∷ Commit 2 1 (PendCert (name 1 1) (message 7 1 "a"))
        ∷ Tick 1
        ∷ [])).1.sent
        ≡ a_packet 0 1 2
        ∷ a_packet 0 1 3
        ∷ a_packet 1 2 1
        ∷ a_packet 1 2 3
        ∷ a_packet 0 1 2
        ∷ a_packet 0 1 3
        ∷ [] }
    ensures a_tick_tells_of_a_certificate_once_it_is_stored { Replies (started (limits 3 10)) (
        (Submit 1 (message 7 1 "a"), Drafted (name 1 1) 1)
        ∷ (
          Commit 1 1 (Pend (name 1 1) (message 7 1 "a")),
          stored true (a_packet 0 1 2 ∷ a_packet 0 1 3 ∷ []) 0,
        )
        ∷ (Arrive 2 (Ok (a_packet 0 1 2)), Drafted (name 1 1) 1)
        ∷ (
          Commit 2 1 (PendCert (name 1 1) (message 7 1 "a")),
          stored false (a_packet 1 2 1 ∷ a_packet 1 2 3 ∷ []) 1,
        )
        ∷ (Tick 2, Sent (a_packet 1 2 1 ∷ a_packet 1 2 3 ∷ []))
        ∷ (Tick 1, Sent (a_packet 0 1 2 ∷ a_packet 0 1 3 ∷ []))
        ∷ (Arrive 1 (Ok (a_packet 1 2 1)), Drafted (name 1 1) 2)
        ∷ (Commit 1 2 (Cert (name 1 1)), stored false [] 1)
        ∷ (Tick 1, Sent (a_packet 1 1 3 ∷ []))
        ∷ (Arrive 1 (Ok (a_packet 1 2 1)), Same (Answered (name 1 1) (a_packet 3 1 2 ∷ [])))
        ∷ []) }
    ensures a_record_that_is_a_certificate_tells_its_source_so { Replies
        (opened (limits 3 10) (image_of ((pending 1 1 ∷ []) ∷ (certified 1 1 ∷ []) ∷ [] ∷ []))) (
        (Arrive 3 (Ok (empty_packet 1 2 3)), Drafted (name 1 1) 1)
        ∷ (
          Commit 3 1 (certified 1 1),
          stored false (empty_packet 1 3 1 ∷ empty_packet 3 3 2 ∷ []) 1,
        )
        ∷ []) }
    ensures a_record_tells_its_source_that_its_certificate_was_heard { Replies
        (opened (limits 4 10) (image_of
        ((pending 1 1 ∷ []) ∷ (pending 1 1 ∷ []) ∷ (certified 1 1 ∷ []) ∷ [] ∷ []))) (
        (Arrive 4 (Ok (empty_packet 1 3 4)), Drafted (name 1 1) 1)
        ∷ (
          Commit 4 1 (pending 1 1),
          stored false (empty_packet 0 4 1 ∷ empty_packet 0 4 2 ∷ empty_packet 2 4 3 ∷ []) 0,
        )
        ∷ []) }
{}
