//! What a worker does with jobs, which calls it foresees of them, and what it notes.
ghost use Rattle.std.specs.Prelude.{[], ◌∷◌, ◌<◌, ◌≡◌, List, None, Some, codes, false, length, true, ℕ};
ghost use Rattle.urb_life_examples.specs.internal.RunExamples.{four_with};
ghost use Rattle.urb_names.specs.declared.limits.TheConstants.{MAX_PAYLOAD};
ghost use Rattle.urb_names.specs.declared.refusal.NoMemory.{NoMemory};
ghost use Rattle.urb_stable.specs.MemoryStores.{empty_memory};
ghost use Rattle.urb_turn.specs.declared.job.Job.TheVariants as job;
ghost use Rattle.urb_turn.specs.internal.TurnExamples.{four_views, holding, memory, two_submits};
ghost use Rattle.urb_worker.specs.Acts.{Lost, RanShort};
ghost use Rattle.urb_worker.specs.ServedStores.{DoesBatch, EndsWhole, WorksAll, needs_no_ticket};
ghost use Rattle.urb_worker.specs.ServedStores.{notes_of};
ghost use Rattle.urb_worker.specs.TicketBatches.{call_of, calls_ahead};
ghost use Rattle.urb_world.specs.Step.{Submit};
ghost use Rattle.urb_world.specs.internal.Scripts.{message};

/// A worker's own jobs are arrivals and ticks.
pub fn jobs_without_tickets()
    ensures a_tick { needs_no_ticket (job.Tick 1) ≡ true }
    ensures not_a_crash { needs_no_ticket (job.Crash 1) ≡ false }
    ensures nothing_to_note { notes_of None ≡ [] }
    ensures refused_memory { (why : NoMemory) → notes_of (Some why) ≡ RanShort ∷ [] }
{}

/// The calls that a worker of node 1 foresees of jobs: of its own submits, up to a crash.
pub fn calls_that_are_foreseen()
    ensures a_submit { call_of 1 (job.Submit 1 7 1 []) ≡ Submit 1 (message 7 1 "") ∷ [] }
    ensures no_submit_of_another { call_of 1 (job.Submit 2 7 1 []) ≡ [] }
    ensures no_arrival_at_another { (bytes : _) → call_of 1 (job.Arrive 2 bytes) ≡ [] }
    ensures two_submits_in_a_row { calls_ahead 1 (job.Submit 1 7 1 [] ∷ job.Submit 1 7 2 [] ∷ [])
        ≡ two_submits }
    ensures not_behind_a_crash { calls_ahead 1 (job.Crash 1 ∷ job.Submit 1 7 1 [] ∷ []) ≡ [] }
{}

/// A worker of node 1 does jobs, one after the other.
pub fn jobs_in_a_row()
    ensures no_job { WorksAll memory four_views 1 [] empty_memory empty_memory [] [] }
    ensures no_job_that_stores { WorksAll memory four_views 1 [] empty_memory holding [] [] → ⊥ }
    ensures no_job_that_notes { WorksAll memory four_views 1 [] empty_memory empty_memory []
        (RanShort ∷ []) → ⊥ }
    ensures no_tick_of_another_that_stores { WorksAll memory four_views 1 (job.Tick 2 ∷ [])
        empty_memory holding [] [] → ⊥ }
    ensures no_batch_that_loses_packets { DoesBatch memory four_views 1 [] empty_memory empty_memory
        [] (Lost 2 ∷ []) → ⊥ }
{}

/// A run leads to no group that is unsound, as one with a payload that is too long.
pub fn groups_that_runs_lead_to()
    ensures four_new_nodes { EndsWhole memory four_views [] [] }
    ensures not_with_a_long_payload { (payload : List ℕ) → MAX_PAYLOAD < length payload
        → EndsWhole memory (four_with payload) [] [] → ⊥ }
{}
