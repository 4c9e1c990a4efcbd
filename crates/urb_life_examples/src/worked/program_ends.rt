//! How the program ends, from the words of its command line.
ghost use Rattle.std.specs.Prelude.{[], ◌∷◌, ◌≡◌, List, None, Some, codes, ℕ};
ghost use Rattle.clap.specs.Words.{Text, subcommand_of};
ghost use Rattle.sqlite_wal.specs.Recovery.{Image};
ghost use Rattle.urb_daemon.specs.Programs.{DidLine, EndsLine, EndsServing};
ghost use Rattle.urb_options.specs.CommandLine.{urbd_app};
ghost use Rattle.urb_options.specs.Tasks.{Replay, task_named};
ghost use Rattle.urb_options.specs.declared.serve_options.ServeOptions.{ServeOptions};
ghost use Rattle.urb_options.specs.declared.task.Line.TheVariants as line;
ghost use Rattle.urb_stable.specs.MemoryStores.{Memory};
ghost use Rattle.urb_turn.specs.internal.TurnExamples.{memory};
ghost use Rattle.urb_world.specs.internal.Examples.{limits};

/// A group ends with the status 0 or 1, and a replay with the status that it may have.
pub fn statuses_of_the_program()
    ensures of_a_group_that_never_ran { (node : Memory → ℕ) (held : ℕ → Image)
        → EndsServing memory node held (limits 4 10) None None 1 }
    ensures of_no_group { (node : Memory → ℕ) (held : ℕ → Image)
        → EndsServing memory node held (limits 4 10) None None 2 → ⊥ }
    ensures of_no_line_of_a_group { (node : Memory → ℕ) (held : ℕ → Image)
        (serving : ServeOptions) → EndsLine memory node held (line.Serve serving) 2 → ⊥ }
    ensures of_no_task { (node : Memory → ℕ) (held : ℕ → Image)
        → DidLine memory node held (codes "urbd" ∷ []) 2 → ⊥ }
    ensures of_no_replay { (node : Memory → ℕ) (held : ℕ → Image) (words : List Text)
        → task_named (subcommand_of urbd_app words) ≡ Some Replay
        → DidLine memory node held words 4 → ⊥ }
{}
