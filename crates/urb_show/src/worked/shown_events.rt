//! Worked examples of what a user sees of events and worlds, in groups of four nodes.
ghost use Rattle.std.specs.Prelude.{[], ◌∷◌, ◌≡◌, Err, None, Some, false, true};
ghost use Rattle.urb_names.specs.Names.{name};
ghost use Rattle.urb_names.specs.declared.refusal.PacketFault.TheVariants as fault;
ghost use Rattle.urb_names.specs.declared.refusal.Refusal.TheVariants as refusal;
ghost use Rattle.urb_node.specs.Replies.{Drafted, Refused, Sent, Stored, Up, WentDown};
ghost use Rattle.urb_world.specs.Step.{Arrive, Commit, Crash, Fail, Restart, Submit, Tick};
ghost use Rattle.urb_world.specs.World.{started};
ghost use Rattle.urb_world.specs.internal.Examples.{limits, pending};
ghost use Rattle.urb_show.specs.Service as seen;
ghost use Rattle.urb_show.specs.ShownServices.{ShowsEvent, ShowsRun, ShowsStep, act_of};
ghost use Rattle.urb_show.specs.internal.ReaderExamples.{certified_of_two, unaccepted};
ghost use Rattle.urb_show.specs.internal.ServiceExamples.{m1};

/// What a user sees of each event, by its reply.
pub fn what_events_are()
    ensures a_packet_that_is_written { act_of (Arrive 2 (Err fault.Short)) (Drafted (name 1 1) 1)
        ≡ seen.Write }
    ensures a_refused_packet { act_of (Arrive 2 (Err fault.Short)) (Refused refusal.Busy)
        ≡ seen.Rest }
    ensures a_tick { act_of (Tick 1) (Sent []) ≡ seen.Rest }
    ensures an_own_record { act_of (Commit 1 1 (pending 1 1))
        (Stored (record { accepted = true; name = name 1 1; sent = []; released = 0 }))
        ≡ seen.Finish (1 ∷ []) }
    ensures another_record { act_of (Commit 1 1 (pending 1 1))
        (Stored (record { accepted = false; name = name 1 1; sent = []; released = 0 }))
        ≡ seen.Finish [] }
    ensures a_failed_store { act_of (Fail 1) (WentDown 1) ≡ seen.Fail }
    ensures no_failed_store { act_of (Fail 1) (Refused refusal.Stale) ≡ seen.Rest }
    ensures a_crash { act_of (Crash 1) (WentDown 1) ≡ seen.Crash None }
    ensures a_refused_restart { act_of (Restart 1 []) (Refused refusal.NotDown)
        ≡ seen.Restart (Some refusal.NotDown) }
    ensures a_restart { act_of (Restart 1 []) (Up 1) ≡ seen.Restart None }
{}

/// Events of a new group are steps of the service. If a node's log gets a name whose message nobody
/// has accepted, that is no step.
pub fn which_events_are_steps()
    ensures a_crash { ShowsStep (started (limits 4 10)) (Crash 1) }
    ensures a_crash_at_a_node { ShowsEvent (started (limits 4 10)) (Crash 1) }
    ensures a_submit_at_no_node { ShowsEvent (started (limits 4 10)) (Submit 9 m1) }
    ensures no_events { ShowsRun (started (limits 4 10)) [] }
    ensures a_crash_alone { ShowsRun (started (limits 4 10)) (Crash 1 ∷ []) }
    ensures no_step { ShowsStep unaccepted (Commit 1 1 certified_of_two) → ⊥ }
    ensures no_event { ShowsEvent unaccepted (Commit 1 1 certified_of_two) → ⊥ }
    ensures not_the_first { ShowsRun unaccepted (Commit 1 1 certified_of_two ∷ []) → ⊥ }
    ensures not_the_second { ShowsRun unaccepted (Tick 2 ∷ Commit 1 1 certified_of_two ∷ [])
        → ⊥ }
{}
