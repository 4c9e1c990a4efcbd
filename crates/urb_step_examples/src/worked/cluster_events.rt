//! What a command does to a group: its event happens in every world that the group showed, or it is
//! refused.
//!
//! A new group shows the new world of its size: the rows that name both suppose it. A command of a
//! group that shows no world may have any reply.
ghost use Rattle.std.specs.Prelude.{[], ◌∷◌, ◌≡◌, Err, None, Ok, Some, false, true, ℕ};
ghost use Rattle.urb_names.specs.Names.{name};
ghost use Rattle.urb_names.specs.declared.refusal.Refusal.TheVariants as refusal;
ghost use Rattle.urb_names.specs.declared.refusal.NoMemory.{NoMemory};
ghost use Rattle.urb_stable.specs.MemoryStores.{after_failure, empty_memory};
ghost use Rattle.urb_stable.specs.declared.memory.Failure.TheVariants as failure;
ghost use Rattle.urb_stable.specs.declared.stable.StoreFault.TheVariants as fault;
ghost use Rattle.urb_node.specs.Replies.{Drafted, Refused, Same, Sent, Stored, Up, WentDown};
ghost use Rattle.urb_node.specs.declared.answer.Answer.TheVariants.{Accepted};
ghost use Rattle.urb_group.specs.ClusterCalls.{Alone, Applies, Breaks, Reacts, RestartsBy, Returns};
ghost use Rattle.urb_group.specs.ClusterCalls.{Starts, StoreMoves};
ghost use Rattle.urb_group.specs.GroupViews.{Shows};
ghost use Rattle.urb_group.specs.declared.command.Command.TheVariants as command;
ghost use Rattle.urb_step_examples.specs.internal.GroupExamples.{clustered, drafting, fallen, new_group};
ghost use Rattle.urb_step_examples.specs.internal.GroupExamples.{of_no_world, told_done};
ghost use Rattle.urb_world.specs.MemoryStores.{in_memory};
ghost use Rattle.urb_world.specs.Step.{Commit, Crash, Restart, Submit, Tick};
ghost use Rattle.urb_world.specs.World.{started};
ghost use Rattle.urb_world.specs.internal.Examples.{empty_packet, limits, pending};
ghost use Rattle.urb_world.specs.internal.Scripts.{message};

/// The reply to a command says what its event did.
pub fn what_replies_say()
    ensures a_draft { Reacts (of_no_world 4) (Submit 1 (message 7 1 "")) (Drafted (name 1 1) 1)
        (drafting 4 (pending 1 1)) }
    ensures another_draft { Shows (new_group 4) (started (limits 4 10))
        → Reacts (new_group 4) (Tick 1) (Drafted (name 1 1) 1) (drafting 4 (pending 1 1)) → ⊥ }
    ensures an_answer { Reacts (of_no_world 4) (Submit 1 (message 7 1 ""))
        (Same (Accepted (name 1 1))) (of_no_world 4) }
    ensures another_answer { Shows (new_group 4) (started (limits 4 10))
        → Reacts (new_group 4) (Submit 1 (message 7 1 "")) (Same (Accepted (name 1 1)))
        (new_group 4) → ⊥ }
    ensures a_stored_record { Reacts (of_no_world 4) (Commit 1 1 (pending 1 1))
        (Stored told_done) (new_group 4) }
    ensures another_stored_record { Shows (new_group 4) (started (limits 4 10))
        → Reacts (new_group 4) (Commit 1 1 (pending 1 1)) (Stored told_done) (new_group 4) → ⊥ }
    ensures a_tick { Reacts (of_no_world 4) (Tick 1) (Sent []) (new_group 4) }
    ensures another_tick { Shows (new_group 4) (started (limits 4 10))
        → Reacts (new_group 4) (Tick 1) (Sent (empty_packet 0 1 2 ∷ [])) (new_group 4) → ⊥ }
    ensures a_crash { Reacts (of_no_world 4) (Crash 1) (WentDown 1) (fallen 4) }
    ensures another_crash { Shows (new_group 4) (started (limits 4 10))
        → Reacts (new_group 4) (Tick 1) (WentDown 1) (fallen 4) → ⊥ }
    ensures a_restart { Reacts (of_no_world 4) (Restart 1 []) (Up 1) (new_group 4) }
    ensures another_restart { Shows (new_group 4) (started (limits 4 10))
        → Reacts (new_group 4) (Restart 1 []) (Up 1) (new_group 4) → ⊥ }
    ensures a_crash_that_comes_up { Shows (new_group 4) (started (limits 4 10))
        → Reacts (new_group 4) (Crash 1) (Up 1) (fallen 4) → ⊥ }
    ensures a_refusal { Reacts (new_group 4) (Tick 0) (Refused refusal.BadNode) (new_group 4) }
    ensures a_refusal_with_a_change { Reacts (new_group 4) (Tick 0) (Refused refusal.BadNode)
        (fallen 4) → ⊥ }
{}

/// A restart whose store gave its records is an event. If the store returned a fault, the restart
/// is refused with it.
pub fn what_a_restart_returns()
    ensures an_event { Returns (of_no_world 4) 1 (Ok []) (Up 1) (new_group 4) }
    ensures no_event_of_a_ready_node { Shows (new_group 4) (started (limits 4 10))
        → Returns (new_group 4) 1 (Ok []) (Up 1) (new_group 4) → ⊥ }
    ensures a_fault { Returns (fallen 4) 1 (Err fault.Device) (Refused refusal.Device) (fallen 4) }
    ensures up_after_a_fault { Returns (fallen 4) 1 (Err fault.Device) (Up 1) (fallen 4) → ⊥ }
    ensures another_group_after_a_fault { Returns (fallen 4) 1 (Err fault.Device)
        (Refused refusal.Device) (new_group 4) → ⊥ }
{}

/// An event that asks no store leaves all stores as they were. Otherwise one store moves.
pub fn how_stores_move()
    ensures none { Alone {S = ℕ} (clustered (new_group 3) (1 ∷ [])) (Tick 0) (Refused refusal.BadNode)
        (clustered (new_group 3) (1 ∷ [])) }
    ensures one_alone { Alone {S = ℕ} (clustered (new_group 3) (1 ∷ [])) (Tick 0)
        (Refused refusal.BadNode) (clustered (new_group 3) (2 ∷ [])) → ⊥ }
    ensures without_a_refusal { Alone {S = ℕ} (clustered (new_group 3) (1 ∷ [])) (Tick 0)
        (Refused refusal.BadNode) (clustered (fallen 3) (1 ∷ [])) → ⊥ }
    ensures the_second { StoreMoves {S = ℕ} (1 ∷ 2 ∷ 3 ∷ []) 2 2 4 (1 ∷ 4 ∷ 3 ∷ []) }
    ensures from_another_store { StoreMoves {S = ℕ} (1 ∷ 2 ∷ 3 ∷ []) 2 1 4 (1 ∷ 4 ∷ 3 ∷ []) → ⊥ }
    ensures another_one_too { StoreMoves {S = ℕ} (1 ∷ 2 ∷ 3 ∷ []) 2 2 4 (1 ∷ 4 ∷ 5 ∷ []) → ⊥ }
{}

/// Each command is the event of its kind.
pub fn what_commands_apply()
    ensures a_restart_of_no_node { RestartsBy (in_memory (Unit {0})) false
        (clustered (new_group 4) []) 0 (Refused refusal.BadNode) (clustered (new_group 4) []) }
    ensures a_tick_is_no_failed_store { Shows (new_group 4) (started (limits 4 10))
        → Applies (in_memory (Unit {0})) (clustered (new_group 4) []) (command.Tick 1)
        (Refused refusal.Stale) (clustered (new_group 4) []) → ⊥ }
    ensures a_crash_is_no_failed_store { Shows (new_group 4) (started (limits 4 10))
        → Applies (in_memory (Unit {0})) (clustered (new_group 4) []) (command.Crash 1)
        (Refused refusal.Stale) (clustered (new_group 4) []) → ⊥ }
    ensures a_crash_is_no_restart { Shows (new_group 4) (started (limits 4 10))
        → Applies (in_memory (Unit {0})) (clustered (new_group 4) []) (command.Crash 1)
        (Refused refusal.NotDown) (clustered (new_group 4) []) → ⊥ }
{}

/// A new cluster has a new group and the stores that it was given. If memory is refused, it returns
/// them.
pub fn what_a_new_cluster_has()
    ensures its_stores { (n : ℕ) → Shows (new_group 4) (started (limits 4 10))
        → Starts {S = ℕ} {T = ℕ} (limits 4 10) (1 ∷ 2 ∷ []) n (Ok (clustered (new_group 4) (1 ∷ 2 ∷ []))) }
    ensures another_group { (n : ℕ) → Starts {S = ℕ} {T = ℕ} (limits 4 10) (1 ∷ []) n
        (Ok (clustered (new_group 3) (1 ∷ []))) → ⊥ }
    ensures other_stores { (n : ℕ) → Starts {S = ℕ} {T = ℕ} (limits 3 10) (1 ∷ 2 ∷ []) n
        (Ok (clustered (new_group 3) (2 ∷ 1 ∷ []))) → ⊥ }
    ensures what_was_passed { (refused : NoMemory)
        → Starts {S = ℕ} {T = ℕ} (limits 4 10) (1 ∷ []) 5 (Err (5, refused)) }
    ensures something_else { (refused : NoMemory)
        → Starts {S = ℕ} {T = ℕ} (limits 4 10) (1 ∷ []) 5 (Err (6, refused)) → ⊥ }
{}

/// A store that was armed with a failure holds nothing of its record, or holds it in doubt. A record
/// that is out of place changes nothing.
pub fn what_armed_stores_hold()
    ensures out_of_place { Breaks true failure.Old empty_memory (pending 1 1) empty_memory }
    ensures nothing { Breaks false failure.Old empty_memory (pending 1 1)
        (after_failure None empty_memory) }
    ensures a_doubtful_record { Breaks false failure.New empty_memory (pending 1 1)
        (after_failure (Some (pending 1 1)) empty_memory) }
{}
