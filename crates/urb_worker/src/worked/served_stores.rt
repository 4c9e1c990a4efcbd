//! Worked examples of workers: what they let out, and the stores that they serve.
//!
//! Each of the rows that end in ⊥ breaks one part of a worker's jobs.
ghost use Rattle.std.specs.Prelude.{[], ◌∷◌, ◌≡◌};
ghost use Rattle.urb_stable.specs.MemoryStores.{empty_memory};
ghost use Rattle.urb_show.specs.internal.ReaderExamples.{new_four, shows_none};
ghost use Rattle.urb_worker.specs.ServedStores.{AreServed, EndsWhole, Works, numbers_from};
ghost use Rattle.urb_turn.specs.internal.TurnExamples.{failed_once, holding, lying, memory};
ghost use Rattle.urb_turn.specs.internal.TurnExamples.{with_a_fifth};
ghost use Rattle.urb_worker.specs.Acts.{Sent};
ghost use Rattle.urb_turn.specs.declared.job.Job.TheVariants as job;

/// The workers' stores at the end are those at the beginning, after some jobs of each worker.
pub fn stores_that_were_served()
    ensures by_no_job { AreServed memory new_four (1 ∷ 2 ∷ []) (empty_memory ∷ holding ∷ [])
        (empty_memory ∷ holding ∷ []) }
    ensures a_failure_that_is_forgotten { AreServed memory shows_none (1 ∷ []) (failed_once ∷ [])
        (empty_memory ∷ []) → ⊥ }
    ensures a_second_one_that_is_forgotten { AreServed memory shows_none (1 ∷ 2 ∷ [])
        (empty_memory ∷ failed_once ∷ []) (empty_memory ∷ empty_memory ∷ []) → ⊥ }
    ensures a_store_too_many { AreServed memory shows_none (1 ∷ []) (empty_memory ∷ [])
        (empty_memory ∷ empty_memory ∷ []) → ⊥ }
{}

/// When a run ends, each store matches its node if it did so at the opening.
pub fn runs_that_end()
    ensures in_a_group_that_shows_no_world { EndsWhole lying shows_none [] (empty_memory ∷ []) }
    ensures with_stores_that_never_matched { EndsWhole lying new_four (empty_memory ∷ [])
        (empty_memory ∷ []) }
    ensures with_a_store_that_does_not_match { EndsWhole lying new_four [] (empty_memory ∷ []) → ⊥ }
    ensures with_a_node_too_many { EndsWhole memory with_a_fifth [] [] → ⊥ }
{}

/// The workers of a group are numbered as its nodes are.
pub fn workers_of_nodes()
    ensures a_worker_for_each_node { numbers_from 1 3 ≡ 1 ∷ 2 ∷ 3 ∷ [] }
{}

/// A job that a worker refuses leaves its store as it was, and nothing is let out.
pub fn what_workers_let_out()
    ensures nothing_is_let_out { Works memory new_four 1 (job.Tick 2) empty_memory empty_memory [] [] }
    ensures a_store_that_changes { Works memory new_four 1 (job.Tick 2) empty_memory holding [] []
        → ⊥ }
    ensures bytes_that_are_let_out { Works memory new_four 1 (job.Tick 2) empty_memory empty_memory
        [] (Sent 2 [] ∷ []) → ⊥ }
{}
