//! What commands do in a group, and what they show.
ghost use Rattle.std.specs.Prelude.{[], ◌∷◌, ◌++◌, ◌≡◌, None, Some, codes};
ghost use Rattle.std.specs.Fmt.{decimal};
ghost use Rattle.urb_names.specs.Names.{name};
ghost use Rattle.urb_stable.specs.declared.memory.Failure.TheVariants.{New, Old};
ghost use Rattle.urb_stable.specs.declared.record.Record.TheVariants.{Pend};
ghost use Rattle.urb_world.specs.EventEffects.{StoresNothing};
ghost use Rattle.urb_world.specs.Step as event;
ghost use Rattle.urb_world.specs.internal.Examples.{certified, limits};
ghost use Rattle.urb_world.specs.internal.Scripts.{message};
ghost use Rattle.urb_script.specs.Commands.{Crash, Fail, Group, Log, Restart, Stored, Tick};
ghost use Rattle.urb_script.specs.Steps.{IsFailureOf, IsLater, MayCome, Plays, answer, found_at};
ghost use Rattle.urb_script.specs.Steps.{holders, new_scene, shown_holders, shown_log};
ghost use Rattle.urb_script.specs.Texts.{held_text, told_text};
ghost use Rattle.urb_script.specs.declared.answer_words.FixedAnswer.TheVariants as told;
ghost use Rattle.urb_word_examples.specs.internal.ScriptExamples.{drafted, holding, of_three};

/// What commands are answered.
pub fn answers_to_commands()
    ensures a_stored_record { (answer drafted (Stored 1)).0
        ≡ told_text (told.Stored (name 1 1) 2 0) }
    ensures a_failed_store { (answer drafted (Fail 1 Old)).0 ≡ told_text (told.Down 1) }
    ensures what_the_old_list_has { (answer drafted (Fail 1 Old)).1.storage 1 ≡ [] }
    ensures what_the_new_list_has { (answer drafted (Fail 1 New)).1.storage 1
        ≡ Pend (name 1 1) (message 7 1 "a") ∷ [] }
    ensures a_crash { (answer of_three (Crash 1)).0 ≡ told_text (told.Down 1) }
    ensures a_restart { (answer (answer of_three (Crash 1)).1 (Restart 1)).0 ≡ told_text (told.Up 1) }
    ensures a_tick { (answer of_three (Tick 1)).0 ≡ codes "sent" }
    ensures a_log { (answer of_three (Log 1)).0 ≡ codes "log " ++ (decimal 1 ++ (58 ∷ [])) }
{}

/// What a group of three shows, of which two nodes hold the first message of node 1.
pub fn what_is_shown()
    ensures a_message { found_at holding.world 2 (name 1 1) ≡ Some (message 7 1 "") }
    ensures no_message { found_at holding.world 3 (name 1 1) ≡ None }
    ensures its_holders { holders holding.world (name 1 1) ≡ 1 ∷ 2 ∷ [] }
    ensures a_line_of_holders { shown_holders holding.world (name 1 1) ≡ held_text (name 1 1) (1 ∷ 2 ∷ []) }
    ensures a_line_of_no_node { shown_holders holding.world (name 4 1)
        ≡ codes "refused badnode" }
    ensures a_log { shown_log holding.world 1 ≡ codes "log " ++ (decimal 1 ++ (58 ∷ [])) }
    ensures a_log_of_no_node { shown_log holding.world 4 ≡ codes "refused badnode" }
{}

/// The first command makes the group, and no later one does.
pub fn which_command_may_come()
    ensures a_group_first { MayCome None (Group (limits 3 10)) }
    ensures a_tick_first { MayCome None (Tick 1) → ⊥ }
    ensures a_tick_later { MayCome (Some of_three) (Tick 1) }
    ensures a_later_tick { IsLater (Tick 1) }
    ensures a_later_group { IsLater (Group (limits 3 10)) → ⊥ }
    ensures a_group_without_an_answer { Plays None (Group (limits 3 10)) [] of_three → ⊥ }
    ensures another_group { Plays None (Group (limits 3 10)) (told_text (told.Grouped (limits 3 10)))
        (new_scene (limits 4 10)) → ⊥ }
    ensures a_store_that_fails { IsFailureOf (Stored 1) (Fail 1 New) }
    ensures a_failure_that_stays { IsFailureOf (Fail 1 New) (Fail 1 New) → ⊥ }
{}

/// A receipt and a restart may store a record, and no other event does.
pub fn events_that_store_nothing()
    ensures a_tick { StoresNothing (event.Tick 1) }
    ensures a_failed_store { StoresNothing (event.Fail 1) }
    ensures a_crash { StoresNothing (event.Crash 1) }
    ensures a_receipt { StoresNothing (event.Commit 1 1 (certified 1 1)) → ⊥ }
    ensures a_restart { StoresNothing (event.Restart 1 []) → ⊥ }
{}
