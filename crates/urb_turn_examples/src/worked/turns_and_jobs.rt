//! Which waiting jobs are calls, where a turn stands behind what was seen, and what a turn leaves.
ghost use Rattle.std.specs.Prelude.{[], ◌∷◌, ◌≡◌, None, Ok, Some, false, true};
ghost use Rattle.urb_foresight.specs.ForeseenDrafts.{event_of};
ghost use Rattle.urb_foresight.specs.declared.waiting_call.WaitingCall.{WaitingCall};
ghost use Rattle.urb_group.specs.GroupViews.{Shows};
ghost use Rattle.urb_group.specs.declared.reply.Reply.TheVariants as reply;
ghost use Rattle.urb_stable.specs.MemoryStores.{empty_memory};
ghost use Rattle.urb_turn.specs.Jobs.{IsCall, turns_over};
ghost use Rattle.urb_turn.specs.Loans.{Follows};
ghost use Rattle.urb_turn.specs.NodeStores.{IsStoreAfter};
ghost use Rattle.urb_turn.specs.WholeTurns.{IsTurnAt};
ghost use Rattle.urb_turn.specs.declared.job.Job.TheVariants as job;
ghost use Rattle.urb_turn.specs.internal.TurnExamples.{ahead_of, at_the_opening, ended, four};
ghost use Rattle.urb_turn.specs.internal.TurnExamples.{memory};
ghost use Rattle.urb_turn_examples.specs.internal.TurnWords.{storing_status, with_a_gap};
ghost use Rattle.urb_world.specs.Step.{Arrive, Submit, Tick};
ghost use Rattle.urb_world.specs.World.{World};
ghost use Rattle.urb_world.specs.internal.Examples.{empty_packet, pending};
ghost use Rattle.urb_world.specs.internal.Scripts.{message};

/// A job that is for the node has a call, with its event. A job for another node has no call.
pub fn calls_of_jobs()
    ensures no_call_of_another_node { IsCall {A = Unit {0}} 1 false (Tick 1) None }
    ensures a_call_of_the_node { IsCall {A = Unit {0}} 1 true (Tick 1) None → ⊥ }
    ensures no_other_call { (call : WaitingCall (Unit {0}))
        → event_of 1 call ≡ Submit 1 (message 7 1 "")
        → IsCall 1 true (Arrive 1 (Ok (empty_packet 0 2 1))) (Some call) → ⊥ }
{}

/// A restart turns a node over, and a tick doesn't. A turn that ran has loans.
pub fn places_of_turns()
    ensures a_restart_turns_over { turns_over (job.Restart 1) ≡ true }
    ensures a_tick_turns_nothing_over { turns_over (job.Tick 1) ≡ false }
    ensures a_job_that_did_not_run_follows { Follows (Tick 1 ∷ []) false None }
    ensures no_turn_without_loans_follows { Follows [] true None → ⊥ }
{}

/// A turn leaves a sound group, and a store that matches its node holds no gap ahead.
pub fn what_a_turn_leaves()
    ensures no_group_with_a_gap { (w : World) → Shows with_a_gap w
        → IsTurnAt memory with_a_gap 1 (job.Status 1) empty_memory empty_memory
        (record (ended (job.Status 1) (reply.Up 1) 0)
        { status = Some storing_status; loans = Some at_the_opening }) → ⊥ }
    ensures no_store_with_a_gap_ahead { IsStoreAfter (ahead_of [] (pending 1 2 ∷ [])) four [] 1
        empty_memory → ⊥ }
{}
