//! Worked examples of jobs, of the stages of their turns, of replies, and of changes of nodes.
ghost use Rattle.std.specs.Prelude.{[], ◌≡◌, Err, None, Ok, Some, false, true, ℕ};
ghost use Rattle.urb_client.specs.Requests.{Submit};
ghost use Rattle.urb_client.specs.Responses.{Refused};
ghost use Rattle.urb_names.specs.declared.refusal.Refusal.TheVariants as refusal;
ghost use Rattle.urb_stable.specs.declared.stable.StoreFault.TheVariants as fault;
ghost use Rattle.urb_group.specs.declared.reply.Reply.TheVariants as reply;
ghost use Rattle.urb_group.specs.declared.state.State.TheVariants as state;
ghost use Rattle.urb_turn.specs.Changes.{change_by, crash_by, failure_by, return_by};
ghost use Rattle.urb_turn.specs.Counting.{count_of};
ghost use Rattle.urb_turn.specs.Jobs.{runs_at};
ghost use Rattle.urb_turn.specs.Settlings.{NothingNew, OutOfMemory, Settles};
ghost use Rattle.urb_turn.specs.Stages.{fail_reply, is_stored, restart_stage, state_reply};
ghost use Rattle.urb_turn.specs.declared.change.Change.TheVariants as change;
ghost use Rattle.urb_turn.specs.declared.job.Job.TheVariants as job;
ghost use Rattle.urb_turn.specs.declared.turn_stages.Stage.TheVariants as stage;
ghost use Rattle.urb_turn.specs.internal.TurnExamples.{house_of_four};

/// A job runs at the worker of its node. A crash runs at any worker.
pub fn jobs_and_workers()
    ensures a_tick_of_another { runs_at 1 (job.Tick 2) ≡ false }
    ensures a_crash_of_another { runs_at 1 (job.Crash 2) ≡ true }
    ensures a_restart_of_another { runs_at 1 (job.Restart 2) ≡ false }
    ensures a_restart { runs_at 1 (job.Restart 1) ≡ true }
{}

/// What was refused counts for nothing, and a store that has no part isn't asked.
pub fn stages_of_a_turn()
    ensures one_event { count_of {T = ℕ} {E = ℕ} (Ok 0) ≡ 1 }
    ensures no_event { count_of {T = ℕ} {E = ℕ} (Err 0) ≡ 0 }
    ensures an_image_is_asked_for { is_stored stage.Retrieving ≡ false }
    ensures nothing_is_asked_for { is_stored stage.Asking ≡ true }
    ensures a_restart_of_a_node_that_is_down { restart_stage (Some state.Down) ≡ stage.Retrieving }
    ensures a_restart_of_a_ready_node { restart_stage (Some state.Ready)
        ≡ stage.Answered (reply.Refused refusal.NotDown) }
    ensures a_restart_of_a_node_that_writes { restart_stage (Some state.Storing)
        ≡ stage.Answered (reply.Refused refusal.NotDown) }
    ensures a_restart_of_no_node { restart_stage None
        ≡ stage.Answered (reply.Refused refusal.BadNode) }
    ensures a_failed_disk { fail_reply fault.Device (Ok tt) ≡ reply.Refused refusal.Device }
    ensures a_late_failure { fail_reply fault.Device (Err refusal.Stale)
        ≡ reply.Refused refusal.Stale }
    ensures a_node_is_down { state_reply 1 state.Down ≡ reply.WentDown 1 }
    ensures a_node_is_up { state_reply 1 state.Ready ≡ reply.Up 1 }
    ensures a_node_that_writes_is_up { state_reply 1 state.Storing ≡ reply.Up 1 }
{}

/// Which turn changed whether its node is up: a failed store, a crash, or a restart.
pub fn changes_of_nodes()
    ensures a_failed_store { failure_by 1 (reply.Refused refusal.Device) 2
        ≡ Some (change.Failed 1 refusal.Device) }
    ensures a_refusal_before_the_store { failure_by 1 (reply.Refused refusal.Busy) 1 ≡ None }
    ensures a_crash { crash_by 1 (reply.WentDown 1) ≡ Some (change.Crashed 1) }
    ensures a_refused_crash { crash_by 1 (reply.Refused refusal.Down) ≡ None }
    ensures a_return { return_by 1 (reply.Up 1) ≡ Some (change.CameBack 1) }
    ensures a_refused_return { return_by 1 (reply.Refused refusal.NotDown) ≡ None }
    ensures a_tick_changes_nothing { change_by (job.Tick 1) (reply.Refused refusal.Device) 2 ≡ None }
    ensures a_job_that_crashes { change_by (job.Crash 1) (reply.WentDown 1) 1
        ≡ Some (change.Crashed 1) }
    ensures a_job_that_restarts { change_by (job.Restart 1) (reply.Up 1) 1
        ≡ Some (change.CameBack 1) }
    ensures a_status_that_says_up { change_by (job.Status 1) (reply.Up 1) 0 ≡ None }
    ensures a_submit_that_fails { change_by (job.Submit 1 7 1 []) (reply.Refused refusal.Device) 2
        ≡ Some (change.Failed 1 refusal.Device) }
{}

/// A turn that released nothing leaves the House as it was. One that released names settles them, or
/// memory was refused.
pub fn names_that_are_settled()
    ensures nothing_new { Settles false 1 (house_of_four []) (house_of_four []) NothingNew }
    ensures another_house { Settles false 1 (house_of_four [])
        (record (house_of_four []) { events = 1 }) NothingNew → ⊥ }
    ensures refused_memory_for_nothing { Settles false 1 (house_of_four []) (house_of_four [])
        OutOfMemory → ⊥ }
    ensures names_that_are_passed_over { Settles true 1 (house_of_four []) (house_of_four [])
        NothingNew → ⊥ }
{}
