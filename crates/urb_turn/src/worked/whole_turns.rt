//! Worked examples of whole turns: how they begin and end together, and what a worker does.
//!
//! Each of the rows that end in ⊥ breaks one part of a turn.
ghost use Rattle.std.specs.Prelude.{[], None, Some, false, true};
ghost use Rattle.urb_names.specs.declared.refusal.Refusal.TheVariants as refusal;
ghost use Rattle.urb_stable.specs.MemoryStores.{empty_memory};
ghost use Rattle.urb_group.specs.declared.reply.Reply.TheVariants as reply;
ghost use Rattle.urb_group.specs.declared.state.State.TheVariants as state;
ghost use Rattle.urb_show.specs.internal.ReaderExamples.{new_four, shows_none};
ghost use Rattle.urb_turn.specs.Changes.{HasChanged};
ghost use Rattle.urb_turn.specs.Settlings.{NothingNew, OutOfMemory};
ghost use Rattle.urb_turn.specs.Turns.{CameOf, HasBegun, IsOutcome};
ghost use Rattle.urb_turn.specs.WholeTurns.{Does, IsTurn, IsTurnAt, misrouted};
ghost use Rattle.urb_turn.specs.declared.change.Change.TheVariants as change;
ghost use Rattle.urb_turn.specs.declared.job.Job.TheVariants as job;
ghost use Rattle.urb_turn.specs.declared.turn_stages.Stage.TheVariants as stage;
ghost use Rattle.urb_turn.specs.internal.TurnExamples.{around_a_restart, around_a_tick};
ghost use Rattle.urb_turn.specs.internal.TurnExamples.{holding, in_doubt, memory};
ghost use Rattle.urb_turn.specs.internal.TurnExamples.{new_status, nothing_released};
ghost use Rattle.urb_turn.specs.internal.TurnExamples.{stored_by_four};
ghost use Rattle.urb_turn.specs.internal.TurnExamples.{at_the_opening, ended};

/// A turn has begun in a House that some group led to, and it is in a stage that follows.
pub fn turns_that_have_begun()
    ensures a_status { HasBegun new_four (job.Status 1) stage.Asking None }
    ensures a_status_in_another_stage { HasBegun new_four (job.Status 1) stage.Retrieving None → ⊥ }
    ensures a_refusal_that_no_group_gives { HasBegun shows_none (job.Crash 1)
        (stage.Answered (reply.Refused refusal.Stale)) None → ⊥ }
    ensures a_refused_crash_at_the_opening { HasBegun new_four (job.Crash 1)
        (stage.Answered (reply.Refused refusal.Down)) (Some (record { lent = []; back = [] })) → ⊥ }
{}

/// The results of a turn come of its job, in a House that the opened group led to.
pub fn results_of_turns()
    ensures a_restart_of_a_ready_node { CameOf new_four (job.Restart 1)
        (reply.Refused refusal.NotDown) None NothingNew None }
    ensures a_status_that_is_busy { CameOf new_four (job.Status 1) (reply.Refused refusal.Busy) None
        NothingNew None → ⊥ }
    ensures in_a_group_that_shows_no_world { CameOf shows_none (job.Status 1) (reply.Up 1)
        (Some new_status) NothingNew None → ⊥ }
    ensures a_node_that_is_down_at_the_opening { CameOf new_four (job.Status 1) (reply.WentDown 1)
        (Some (record new_status { state = state.Down })) NothingNew (Some at_the_opening) → ⊥ }
{}

/// A job that did not run is refused as one for a missing node.
pub fn outcomes_of_jobs()
    ensures a_job_that_ran { IsOutcome new_four true (job.Restart 1)
        (reply.Refused refusal.NotDown) None NothingNew None }
    ensures a_job_that_ran_and_is_busy { IsOutcome new_four true (job.Status 1)
        (reply.Refused refusal.Busy) None NothingNew None → ⊥ }
    ensures a_job_that_did_not_run { IsOutcome new_four false (job.Tick 1)
        (reply.Refused refusal.BadNode) None NothingNew None }
    ensures another_refusal { IsOutcome new_four false (job.Tick 1)
        (reply.Refused refusal.Busy) None NothingNew None → ⊥ }
    ensures a_status { IsOutcome new_four false (job.Tick 1)
        (reply.Refused refusal.BadNode) (Some new_status) NothingNew None → ⊥ }
    ensures names_to_settle { IsOutcome new_four false (job.Tick 1)
        (reply.Refused refusal.BadNode) None OutOfMemory None → ⊥ }
    ensures loans { IsOutcome new_four false (job.Tick 1)
        (reply.Refused refusal.BadNode) None NothingNew (Some at_the_opening) → ⊥ }
{}

/// The parts of a turn fit together, and each time the opened group led to the House's group.
pub fn parts_of_a_turn()
    ensures a_status_that_is_busy { IsTurn memory new_four (job.Status 1) empty_memory empty_memory
        (ended (job.Status 1) (reply.Refused refusal.Busy) 0) → ⊥ }
    ensures a_refused_crash_at_the_opening { IsTurn memory new_four (job.Crash 1) empty_memory
        empty_memory (record (ended (job.Crash 1) (reply.Refused refusal.Down) 0)
        { loans = Some at_the_opening }) → ⊥ }
    ensures a_missing_node_at_the_opening { IsTurn memory new_four (job.Status 1) empty_memory
        empty_memory (record (ended (job.Status 1) (reply.Refused refusal.BadNode) 0)
        { loans = Some at_the_opening }) → ⊥ }
    ensures a_submit_that_is_stored { IsTurnAt memory shows_none 1 (job.Submit 1 7 1 [])
        empty_memory holding
        (ended (job.Submit 1 7 1 []) (reply.Stored nothing_released) 2) }
    ensures a_pair_that_a_stop_leaves_of_another { IsTurnAt memory new_four 2 (job.Submit 1 7 1 [])
        empty_memory holding
        (record (ended (job.Submit 1 7 1 []) (reply.Stored stored_by_four) 2)
        { loans = Some around_a_tick }) → ⊥ }
    ensures a_restart_between_the_loans { IsTurnAt memory in_doubt 1 (job.Status 1) holding holding
        (record (ended (job.Status 1) (reply.Up 1) 0)
        { status = Some new_status; loans = Some around_a_restart }) }
{}

/// A worker does the turn of a job that runs there. It refuses any other job, and its store stays.
pub fn jobs_that_workers_do()
    ensures a_submit_that_is_stored { Does memory shows_none 1 true (job.Submit 1 7 1 [])
        empty_memory holding
        (ended (job.Submit 1 7 1 []) (reply.Stored nothing_released) 2) }
    ensures a_status_that_is_busy { Does memory new_four 1 true (job.Status 1) empty_memory
        empty_memory (ended (job.Status 1) (reply.Refused refusal.Busy) 0) → ⊥ }
    ensures a_tick_of_another { Does memory new_four 1 false (job.Tick 2) empty_memory empty_memory
        (misrouted (job.Tick 2)) }
    ensures a_tick_of_another_that_stores { Does memory new_four 1 false (job.Tick 2) empty_memory
        holding (misrouted (job.Tick 2)) → ⊥ }
    ensures a_tick_of_another_that_runs { Does memory new_four 1 false (job.Tick 2) empty_memory
        empty_memory (ended (job.Tick 2) (reply.Refused refusal.BadNode) 0) → ⊥ }
{}

/// A node fails, crashes or comes back by its own event in one of the two loans.
pub fn changes_in_a_turn()
    ensures a_failure { HasChanged (change.Failed 1 refusal.Device) shows_none shows_none shows_none
        shows_none }
    ensures a_failure_that_is_no_fault { HasChanged (change.Failed 1 refusal.Down) shows_none
        shows_none shows_none shows_none → ⊥ }
    ensures a_failure_of_a_new_node { HasChanged (change.Failed 1 refusal.Device) new_four new_four
        new_four new_four → ⊥ }
    ensures a_crash { HasChanged (change.Crashed 1) shows_none shows_none new_four new_four }
    ensures a_crash_of_a_node_that_stays_up { HasChanged (change.Crashed 1) new_four new_four new_four
        new_four → ⊥ }
    ensures a_return { HasChanged (change.CameBack 1) shows_none shows_none shows_none shows_none }
    ensures a_return_of_a_new_node { HasChanged (change.CameBack 1) new_four new_four new_four
        new_four → ⊥ }
{}
