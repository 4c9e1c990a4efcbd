//! Worked examples of runs over stores that are wrapped, so that they may hold records ahead.
//!
//! Each of the rows that end in ⊥ breaks one rule alone.
ghost use Rattle.std.specs.Prelude.{[], ◌∷◌, ◌^◌, Err, Ok, false, true};
ghost use Rattle.urb_names.specs.declared.refusal.Refusal.TheVariants.{NoMemory};
ghost use Rattle.urb_stable.specs.MemoryStores.{empty_memory};
ghost use Rattle.urb_world.specs.MemoryStores.{in_memory};
ghost use Rattle.urb_world.specs.internal.Examples.{limits, pending};
ghost use Rattle.urb_daemon.specs.RunsAhead.{RanAhead};
ghost use Rattle.urb_daemon.specs.declared.serve_fault.ServeFault.TheVariants.{Unopened};

/// A run returns each store that it was given. It ends with a count only if its opening was
/// reported. No store comes back with fewer failures than it had.
pub fn runs_over_wrapped_stores()
    ensures without_memory { RanAhead (in_memory (Unit {0})) (limits 4 10) (empty_memory ∷ []) false
        (Err (Unopened NoMemory)) (empty_memory ∷ []) }
    ensures that_loses_its_store { RanAhead (in_memory (Unit {0})) (limits 4 10) (empty_memory ∷ [])
        false (Err (Unopened NoMemory)) [] → ⊥ }
    ensures that_ends_unreported { RanAhead (in_memory (Unit {0})) (limits 4 10)
        (record empty_memory { certain = pending 1 2 ∷ pending 1 3 ∷ [] } ∷ []) false (Ok 0)
        (record empty_memory { certain = pending 1 2 ∷ pending 1 3 ∷ [] } ∷ []) → ⊥ }
    ensures that_forgets_failures { RanAhead (in_memory (Unit {0})) (limits 4 10)
        (record empty_memory { failures = 2 ^ 64 } ∷ []) false (Err (Unopened NoMemory))
        (empty_memory ∷ []) → ⊥ }
{}
