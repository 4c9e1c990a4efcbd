//! Worked examples of what a worker learns by its tickets.
//!
//! Each of the rows that end in ⊥ breaks one part of it.
ghost use Rattle.std.specs.Prelude.{◌≡◌, false, true};
ghost use Rattle.std.specs.declared.alloc.Global.{Global};
ghost use Rattle.urb_group.specs.declared.reply.Reply.{Reply};
ghost use Rattle.urb_show.specs.internal.ReaderExamples.{new_four};
ghost use Rattle.urb_turn.specs.declared.job.Job.TheVariants as job;
ghost use Rattle.urb_worker.specs.internal.OwnJobs.{FeedingView, LearnsBatch};
ghost use Rattle.urb_worker.specs.internal.Pulses.{sends};
ghost use Rattle.urb_worker.specs.internal.WorkerExamples.{owing, resting, with_feed};

/// A worker learns by the ticket that it takes, and by those that it takes with it. While it feeds
/// its node, it takes one alone.
pub fn what_tickets_tell()
    ensures nothing { LearnsBatch new_four true 1 (job.Status 1) resting resting }
    ensures nothing_while_it_feeds { (f : FeedingView)
        → LearnsBatch new_four true 1 (job.Status 1) (with_feed f) (with_feed f) }
    ensures of_a_tick { (said : Reply Global) → sends said ≡ true
        → LearnsBatch new_four true 1 (job.Tick 1) resting owing }
    ensures of_a_tick_behind_it { (said : Reply Global) → sends said ≡ true
        → LearnsBatch new_four true 1 (job.Status 1) resting owing }
    ensures of_a_crash { (f : FeedingView)
        → LearnsBatch new_four true 1 (job.Crash 1) (with_feed f) resting }
    ensures of_a_crash_behind_it { (f : FeedingView)
        → LearnsBatch new_four true 1 (job.Status 1) (with_feed f) resting → ⊥ }
    ensures of_a_tick_if_it_never_ticks_early { LearnsBatch new_four false 1 (job.Tick 1) resting owing → ⊥ }
    ensures a_feed_if_it_feeds_none { (f : FeedingView)
        → LearnsBatch new_four false 1 (job.Restart 1) resting (with_feed f) → ⊥ }
{}
