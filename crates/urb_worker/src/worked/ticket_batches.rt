//! Worked examples of batches: how many tickets a worker takes, and which calls it foresees.
//!
//! Each of the rows that end in ⊥ leaves out, adds or exchanges one thing.
ghost use Rattle.std.specs.Prelude.{[], ◌∷◌, ◌≡◌, None, Some, Vec, ℕ};
ghost use Rattle.std.specs.declared.alloc.Global.{Global};
ghost use Rattle.urb_foresight.specs.ForeseenDrafts.{event_of};
ghost use Rattle.urb_foresight.specs.declared.waiting_call.WaitingCall.{WaitingCall};
ghost use Rattle.urb_names.specs.PacketGrammar.{packet_of};
ghost use Rattle.urb_names.specs.declared.refusal.NoMemory.{NoMemory};
ghost use Rattle.urb_show.specs.internal.ReaderExamples.{new_four};
ghost use Rattle.urb_stable.specs.MemoryStores.{empty_memory};
ghost use Rattle.urb_turn.specs.declared.job.Job.TheVariants as job;
ghost use Rattle.urb_turn.specs.internal.TurnExamples.{holding, memory};
ghost use Rattle.urb_worker.specs.Acts.{RanShort, Sent};
ghost use Rattle.urb_worker.specs.ServedStores.{DoesBatch};
ghost use Rattle.urb_worker.specs.TicketBatches.{IsEndOf, calls_ahead};
ghost use Rattle.urb_worker.specs.declared.looks.NoneWaits.{NoneWaits};
ghost use Rattle.urb_worker.specs.declared.own_jobs.Feeds.{Feeds};
ghost use Rattle.urb_worker.specs.declared.ticket_batch.BatchEnd.TheVariants as end;
ghost use Rattle.urb_worker.specs.internal.TicketBatches.{AreCalls, IsBatchOf};
ghost use Rattle.urb_worker.specs.internal.WorkerExamples.{submit_at, submitted, ticks};
ghost use Rattle.urb_world.specs.Step.{Arrive};

/// A worker takes 16 tickets at once, or it finds no more, or it takes one alone.
pub fn ends_of_batches()
    ensures full { IsEndOf 16 end.Full }
    ensures not_yet_full { IsEndOf 15 end.Full → ⊥ }
    ensures none_waits_behind_one { (found : NoneWaits) → IsEndOf 1 (end.NoneWaits found) }
    ensures none_waits_behind_fifteen { (found : NoneWaits) → IsEndOf 15 (end.NoneWaits found) }
    ensures none_is_looked_for_behind_sixteen { (found : NoneWaits)
        → IsEndOf 16 (end.NoneWaits found) → ⊥ }
    ensures no_memory_for_a_second { (refused : NoMemory) → IsEndOf 1 (end.NoMemory refused) }
    ensures no_memory_for_a_third { (refused : NoMemory) → IsEndOf 2 (end.NoMemory refused) → ⊥ }
    ensures one_while_it_feeds { (feeds : Feeds) → IsEndOf 1 (end.Feeds feeds) }
    ensures two_while_it_feeds { (feeds : Feeds) → IsEndOf 2 (end.Feeds feeds) → ⊥ }
{}

/// The jobs of a batch begin with that of its first ticket, and are at most 16.
pub fn jobs_of_batches()
    ensures one { IsBatchOf (submit_at 1 1) (submit_at 1 1 ∷ []) }
    ensures two { IsBatchOf (submit_at 1 1) (submit_at 1 1 ∷ job.Tick 1 ∷ []) }
    ensures sixteen { IsBatchOf (job.Tick 2) (ticks 16) }
    ensures none { IsBatchOf (submit_at 1 1) [] → ⊥ }
    ensures another_first { IsBatchOf (submit_at 1 1) (submit_at 1 2 ∷ submit_at 1 1 ∷ []) → ⊥ }
    ensures seventeen { IsBatchOf (job.Tick 2) (ticks 17) → ⊥ }
{}

/// The calls of tickets at a node are the submits to it and the arrivals there, in their order, up
/// to a crash or a restart.
pub fn calls_that_wait()
    ensures of_no_ticket { calls_ahead 1 [] ≡ [] }
    ensures of_two_submits { calls_ahead 1 (submit_at 1 1 ∷ submit_at 1 2 ∷ [])
        ≡ submitted 1 1 ∷ submitted 1 2 ∷ [] }
    ensures of_an_arrival { (bytes : Vec ℕ Global) → calls_ahead 1 (job.Arrive 1 bytes ∷ [])
        ≡ Arrive 1 (packet_of bytes.items) ∷ [] }
    ensures between_other_jobs { calls_ahead 1 (job.Tick 1 ∷ submit_at 1 1 ∷ job.Status 1 ∷ [])
        ≡ submitted 1 1 ∷ [] }
    ensures of_another_node { (bytes : Vec ℕ Global)
        → calls_ahead 2 (submit_at 1 1 ∷ job.Arrive 1 bytes ∷ []) ≡ [] }
    ensures up_to_a_crash { calls_ahead 1 (submit_at 1 1 ∷ job.Crash 2 ∷ submit_at 1 2 ∷ [])
        ≡ submitted 1 1 ∷ [] }
    ensures up_to_a_restart { calls_ahead 1 (submit_at 1 1 ∷ job.Restart 1 ∷ submit_at 1 2 ∷ [])
        ≡ submitted 1 1 ∷ [] }
{}

/// A worker's list has all these calls, unless memory was refused. Then it has the first ones.
pub fn lists_of_calls()
    ensures of_a_submit { (call : WaitingCall Global) → event_of 1 call ≡ submitted 1 1
        → AreCalls 1 (submit_at 1 1 ∷ []) (call ∷ []) None }
    ensures left_out { AreCalls {A = Global} 1 (submit_at 1 1 ∷ []) [] None → ⊥ }
    ensures twice { (call : WaitingCall Global)
        → AreCalls 1 (submit_at 1 1 ∷ []) (call ∷ call ∷ []) None → ⊥ }
    ensures of_another_submit { (call : WaitingCall Global) → event_of 1 call ≡ submitted 1 2
        → AreCalls 1 (submit_at 1 1 ∷ []) (call ∷ []) None → ⊥ }
    ensures cut_short { (call : WaitingCall Global) → event_of 1 call ≡ submitted 1 1
        → (refused : NoMemory)
        → AreCalls 1 (submit_at 1 1 ∷ submit_at 1 2 ∷ []) (call ∷ []) (Some refused) }
    ensures cut_in_front { (call : WaitingCall Global) → event_of 1 call ≡ submitted 1 2
        → (refused : NoMemory)
        → AreCalls 1 (submit_at 1 1 ∷ submit_at 1 2 ∷ []) (call ∷ []) (Some refused) → ⊥ }
    ensures cut_behind_all { (call : WaitingCall Global) → (refused : NoMemory)
        → AreCalls 1 (submit_at 1 1 ∷ []) (call ∷ []) (Some refused) → ⊥ }
{}

/// If no call waits, the store stays as it is before a batch's jobs.
pub fn batches_without_calls()
    ensures of_two_jobs { DoesBatch memory new_four 1 (job.Tick 2 ∷ job.Tick 3 ∷ [])
        empty_memory empty_memory [] [] }
    ensures a_record_that_nobody_drafts { DoesBatch memory new_four 1 (job.Tick 2 ∷ [])
        empty_memory holding [] [] → ⊥ }
    ensures a_lack_that_nobody_had { DoesBatch memory new_four 1 (job.Tick 2 ∷ [])
        empty_memory empty_memory [] (RanShort ∷ []) → ⊥ }
    ensures bytes_that_are_let_out { DoesBatch memory new_four 1 (job.Tick 2 ∷ [])
        empty_memory empty_memory [] (Sent 2 [] ∷ []) → ⊥ }
{}
