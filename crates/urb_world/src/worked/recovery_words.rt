//! The words of recoveries and of stranded groups, each in groups of any size.
//!
//! Each row is one case of a word.
ghost use Rattle.std.specs.Prelude.{[], ◌∷◌, ◌≡◌, Err, None, Ok, true};
ghost use Rattle.urb_names.specs.LabelsAndContents.{Limits};
ghost use Rattle.urb_names.specs.Names.{name};
ghost use Rattle.urb_names.specs.declared.refusal.PacketFault.TheVariants as fault;
ghost use Rattle.urb_names.specs.declared.refusal.Refusal.TheVariants as refusal;
ghost use Rattle.urb_stable.specs.declared.record.Record.TheVariants.{Cert};
ghost use Rattle.urb_node.specs.Replies.{Drafted, Refused, Same, Sent, Stored, Up, WentDown};
ghost use Rattle.urb_node.specs.declared.answer.Answer.TheVariants.{Noted};
ghost use Rattle.urb_world.specs.Acceptance.{StoresOwn};
ghost use Rattle.urb_world.specs.RecoveredWorlds.{AreAsSent, ArrivesAsSent, BytesAsSent, Delivers};
ghost use Rattle.urb_world.specs.RecoveredWorlds.{Goes, IsAsSent, IsDone, IsHarmless, WasSent};
ghost use Rattle.urb_world.specs.Resends.{IsDueAmong, resent_over};
ghost use Rattle.urb_world.specs.Rounds.{IsBusyRound, IsRound};
ghost use Rattle.urb_world.specs.Step.{Arrive, Commit, Crash, Fail, Restart, Submit, Tick};
ghost use Rattle.urb_world.specs.World.{image_of, opened, started};
ghost use Rattle.urb_world.specs.internal.Examples.{carried, limits, pending};
ghost use Rattle.urb_world.specs.internal.Scripts.{message};

/// Every event is done that isn't refused.
pub fn events_that_are_done()
    ensures a_draft { IsDone (Drafted (name 1 1) 1) }
    ensures an_answer { IsDone (Same (Noted (name 1 1))) }
    ensures a_receipt { IsDone
        (Stored (record { accepted = true; name = name 1 1; sent = []; released = 0 })) }
    ensures a_tick { IsDone (Sent []) }
    ensures a_crash { IsDone (WentDown 1) }
    ensures a_restart { IsDone (Up 1) }
    ensures a_refusal { IsDone (Refused refusal.Busy) → ⊥ }
{}

/// Packets that were sent, and packets that weren't.
pub fn sent_packets()
    ensures the_second_of_seven { WasSent (record (started (limits 7 10))
        { sent = carried 1 2 1 1 (message 7 1 "") ∷ carried 1 3 1 1 (message 7 1 "") ∷ [] })
        (carried 1 3 1 1 (message 7 1 "")) }
    ensures none_of_three { WasSent (started (limits 3 10)) (carried 1 2 1 1 (message 7 1 "")) → ⊥ }
    ensures none_of_seven { WasSent (started (limits 7 10)) (carried 1 2 1 1 (message 7 1 "")) → ⊥ }
    ensures at_its_target { ArrivesAsSent (record (started (limits 7 10))
        { sent = carried 1 2 1 1 (message 7 1 "") ∷ [] }) 2 (Ok (carried 1 2 1 1 (message 7 1 ""))) }
    ensures at_another { ArrivesAsSent (record (started (limits 7 10))
        { sent = carried 1 2 1 1 (message 7 1 "") ∷ [] }) 3 (Ok (carried 1 2 1 1 (message 7 1 "")))
        → ⊥ }
    ensures that_nobody_sent { ArrivesAsSent (started (limits 7 10)) 2
        (Ok (carried 1 2 1 1 (message 7 1 ""))) → ⊥ }
    ensures that_is_none { ArrivesAsSent (started (limits 7 10)) 2 (Err fault.Short) → ⊥ }
    ensures bytes_that_are_none { BytesAsSent (started (limits 7 10)) (Err fault.Short) }
    ensures bytes_that_were_sent { BytesAsSent (record (started (limits 7 10))
        { sent = carried 1 2 1 1 (message 7 1 "") ∷ [] }) (Ok (carried 1 2 1 1 (message 7 1 ""))) }
    ensures bytes_that_nobody_sent { BytesAsSent (started (limits 7 10))
        (Ok (carried 1 2 1 1 (message 7 1 ""))) → ⊥ }
{}

/// Which events a recovery may have, in a group of seven.
pub fn harmless_events()
    ensures a_submit { IsHarmless (started (limits 7 10)) (Submit 1 (message 7 1 "")) → ⊥ }
    ensures an_arrival { IsHarmless (record (started (limits 7 10))
        { sent = carried 1 2 1 1 (message 7 1 "") ∷ [] })
        (Arrive 2 (Ok (carried 1 2 1 1 (message 7 1 "")))) }
    ensures an_arrival_that_nobody_sent { IsHarmless (started (limits 7 10))
        (Arrive 2 (Ok (carried 1 2 1 1 (message 7 1 "")))) → ⊥ }
    ensures a_tick { IsHarmless (started (limits 7 10)) (Tick 1) }
    ensures a_receipt { IsHarmless (started (limits 7 10)) (Commit 1 1 (pending 1 1)) }
    ensures a_failed_store { IsHarmless (started (limits 7 10)) (Fail 1) → ⊥ }
    ensures a_crash { IsHarmless (started (limits 7 10)) (Crash 1) → ⊥ }
    ensures a_restart { IsHarmless (started (limits 7 10)) (Restart 1 []) }
{}

/// Which events may come to a group that is stranded, of seven nodes or of one.
pub fn events_as_sent()
    ensures a_submit { IsAsSent (started (limits 7 10)) (Submit 1 (message 7 1 "")) }
    ensures an_arrival { IsAsSent (started (limits 7 10)) (Arrive 2 (Err fault.Short)) }
    ensures an_arrival_that_nobody_sent { IsAsSent (started (limits 7 10))
        (Arrive 2 (Ok (carried 1 2 1 1 (message 7 1 "")))) → ⊥ }
    ensures a_tick { IsAsSent (started (limits 7 10)) (Tick 1) }
    ensures a_receipt { IsAsSent (started (limits 7 10)) (Commit 1 1 (pending 1 1)) }
    ensures a_failed_store { IsAsSent (started (limits 7 10)) (Fail 1) }
    ensures a_crash { IsAsSent (started (limits 7 10)) (Crash 1) }
    ensures a_restart { IsAsSent (started (limits 7 10)) (Restart 1 []) }
    ensures no_event { AreAsSent (started (limits 7 10)) [] }
    ensures a_crash_alone { AreAsSent (started (limits 7 10)) (Crash 1 ∷ []) }
    ensures the_first_that_nobody_sent { AreAsSent (started (limits 7 10))
        (Arrive 2 (Ok (carried 1 2 1 1 (message 7 1 ""))) ∷ Crash 1 ∷ []) → ⊥ }
    ensures the_second_that_nobody_sent { AreAsSent (started (limits 7 10))
        (Crash 1 ∷ Arrive 2 (Ok (carried 1 2 1 1 (message 7 1 ""))) ∷ []) → ⊥ }
{}

/// Which lists of events go on and deliver.
pub fn events_that_go()
    ensures none { Goes (started (limits 7 10)) [] }
    ensures a_tick { Goes (started (limits 7 10)) (Tick 1 ∷ []) }
    ensures a_crash { Goes (started (limits 7 10)) (Crash 1 ∷ []) → ⊥ }
    ensures a_refused_restart { Goes (started (limits 7 10)) (Restart 1 [] ∷ []) → ⊥ }
    ensures a_crash_behind_a_tick { Goes (started (limits 7 10)) (Tick 1 ∷ Crash 1 ∷ []) → ⊥ }
    ensures not_delivered { Delivers (opened (limits 7 10) (image_of ((pending 1 1 ∷ []) ∷ []))) []
        → ⊥ }
    ensures not_harmless { Delivers (started (limits 7 10)) (Crash 8 ∷ []) → ⊥ }
{}

/// Which rounds there are of no events.
pub fn rounds_of_no_events()
    ensures in_new_groups { (size : Limits) → IsRound (started size) [] }
    ensures busy_in_new_groups { (size : Limits) → IsBusyRound (started size) [] }
    ensures in_four { IsRound (opened (limits 4 10) (image_of ((pending 1 1 ∷ []) ∷ []))) [] → ⊥ }
    ensures busy_in_four { IsBusyRound (opened (limits 4 10) (image_of ((pending 1 1 ∷ []) ∷ []))) []
        → ⊥ }
    ensures in_seven { IsRound (opened (limits 7 10) (image_of ((pending 1 1 ∷ []) ∷ []))) [] → ⊥ }
    ensures busy_in_seven { IsBusyRound (opened (limits 7 10) (image_of ((pending 1 1 ∷ []) ∷ [])))
        [] → ⊥ }
{}

/// A node's own message that a receipt stored, and pairs that ticks resend.
pub fn receipts_and_resends()
    ensures its_own { StoresOwn (opened (limits 7 10) (image_of ((pending 1 1 ∷ []) ∷ []))) 1
        (pending 1 1) (record { accepted = true; name = name 1 1; sent = []; released = 0 }) }
    ensures not_stored { StoresOwn (started (limits 7 10)) 1 (pending 1 1)
        (record { accepted = true; name = name 1 1; sent = []; released = 0 }) → ⊥ }
    ensures no_pair_of_it { StoresOwn (opened (limits 7 10) (image_of ((pending 1 1 ∷ []) ∷ []))) 1
        (Cert (name 1 1)) (record { accepted = true; name = name 1 1; sent = []; released = 0 })
        → ⊥ }
    ensures not_rising { IsDueAmong
        ((name 1 1, message 7 1 "") ∷ (name 2 1, message 7 1 "") ∷ []) (name 1 1) (message 7 1 "")
        ((name 2 1, message 7 1 "") ∷ (name 1 1, message 7 1 "") ∷ []) → ⊥ }
    ensures not_among_all { IsDueAmong ((name 1 1, message 7 1 "") ∷ []) (name 1 1) (message 7 1 "")
        ((name 1 1, message 7 1 "") ∷ (name 2 1, message 7 1 "") ∷ []) → ⊥ }
    ensures not_due { IsDueAmong ((name 1 1, message 7 1 "") ∷ []) (name 1 1) (message 7 1 "") []
        → ⊥ }
    ensures resent_by_two_ticks { resent_over None (((name 1 1, message 7 1 "") ∷ [])
        ∷ ((name 2 1, message 7 1 "") ∷ []) ∷ [])
        ≡ (name 1 1, message 7 1 "") ∷ (name 2 1, message 7 1 "") ∷ [] }
{}
