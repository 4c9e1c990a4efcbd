//! The answers to scripts, and how scripts end. The simple rule `ticks` answers `tick 1` alone.
ghost use Rattle.std.specs.Prelude.{[], ◌∷◌, ◌++◌, ◌≡◌, List, None, Some, codes, ℕ};
ghost use Rattle.urb_script.specs.LogLines.{AreShownAgreeing, IsShownSafe};
ghost use Rattle.urb_script.specs.Scripts.{Answers, BreaksOff, BrokenOff, Ends, HasOneOutcome};
ghost use Rattle.urb_script.specs.Scripts.{IsBad, Leaves, StopsAfter, WholeScript, bad_line};
ghost use Rattle.urb_script.specs.Steps.{Plays};
ghost use Rattle.urb_script.specs.declared.runs.RunEnd.TheVariants.{BadLine, Whole};
ghost use Rattle.urb_script.specs.declared.runs.RunFault.TheVariants.{NoMemory, Read, Write};
ghost use Rattle.urb_word_examples.specs.internal.ScriptExamples.{IsNothing, of_three, ticks};

/// Each line is answered in order, with an LF behind each answer.
pub fn answers_to_lines()
    ensures bytes_for_nothing { Answers ticks None [] (1 ∷ []) None → ⊥ }
    ensures a_group_for_nothing { Answers ticks None [] [] (Some of_three) → ⊥ }
    ensures no_command { Answers ticks None (codes "tock 1" ∷ []) (10 ∷ []) (Some of_three) → ⊥ }
    ensures another_command { Answers ticks None (codes "crash 1" ∷ []) (10 ∷ [])
        (Some of_three) → ⊥ }
    ensures without_an_answer { Answers ticks None (codes "tick 1" ∷ []) []
        (Some of_three) → ⊥ }
    ensures without_a_group { Answers ticks None (codes "tick 1" ∷ []) (10 ∷ []) None → ⊥ }
{}

/// A bad line is no command that may come. Without any line there is no group.
pub fn bad_lines()
    ensures no_line { IsBad None [] }
    ensures a_tick_without_a_group { IsBad None (codes "tick 1" ∷ []) }
{}

/// How a script ends after the lines that were answered.
pub fn ends_of_scripts()
    ensures whole_with_a_line_left { Ends (Some of_three) (codes "a" ∷ []) 1 Whole [] → ⊥ }
    ensures whole_with_an_answer { Ends (Some of_three) [] 1 Whole (1 ∷ []) → ⊥ }
    ensures whole_without_a_group { Ends None [] 1 Whole [] → ⊥ }
    ensures bad_without_a_line { Ends (Some of_three) [] 1 (BadLine 1) (bad_line 1) → ⊥ }
    ensures bad_at_another_line { Ends None [] 2 (BadLine 1) (bad_line 1) → ⊥ }
    ensures bad_without_an_answer { Ends None [] 1 (BadLine 1) [] → ⊥ }
    ensures two_lines_read { Leaves (codes "a" ∷ codes "b" ∷ []) (BadLine 1) [] → ⊥ }
{}

/// A whole script has all its lines answered, or ends at its first bad one.
pub fn whole_scripts()
    ensures a_line_unanswered { WholeScript ticks (codes "tick 1" ++ (10 ∷ codes "tick 1")) Whole
        [] (Some []) (Some (10 ∷ [])) → ⊥ }
    ensures whole_without_a_line { WholeScript ticks [] Whole [] (Some []) (Some []) → ⊥ }
    ensures bad_at_a_second_line { WholeScript ticks [] (BadLine 2) [] (Some []) (Some []) → ⊥ }
    ensures whole_with_bytes_left { WholeScript ticks (codes "tick 1") Whole (1 ∷ [])
        (Some []) (Some (10 ∷ [])) → ⊥ }
    ensures with_two_ends { HasOneOutcome → (input unread left before after later : List ℕ)
        (bad : ℕ) → WholeScript Plays input Whole unread (Some before) (Some after)
        → WholeScript Plays input (BadLine bad) left (Some before) (Some later) → ⊥ }
    ensures with_two_outputs { HasOneOutcome → (input unread left before after later : List ℕ)
        → (after ≡ later → ⊥) → WholeScript Plays input Whole unread (Some before) (Some after)
        → WholeScript Plays input Whole left (Some before) (Some later) → ⊥ }
{}

/// What a script that stopped has answered and written.
pub fn scripts_that_stopped()
    ensures a_line_unanswered { StopsAfter IsNothing (codes "tick 1") [] [] → ⊥ }
    ensures an_answer_to_nothing { StopsAfter IsNothing [] [] (1 ∷ []) → ⊥ }
    ensures what_was_never_read { BrokenOff (λ part. ⊥) [] [] (Some []) (Some []) → ⊥ }
    ensures output_for_nothing { BrokenOff IsNothing [] [] (Some []) (Some (1 ∷ [])) → ⊥ }
    ensures read_with_output_for_nothing { BreaksOff Read [] [] (Some []) (Some (1 ∷ [])) → ⊥ }
    ensures no_memory_with_output_for_nothing { BreaksOff NoMemory [] [] (Some [])
        (Some (1 ∷ [])) → ⊥ }
    ensures two_lines_unanswered { BreaksOff Write (codes "a" ++ (10 ∷ codes "b")) []
        (Some []) (Some []) → ⊥ }
{}

/// What the log lines of a script show.
pub fn shown_logs()
    ensures a_log_without_a_group { IsShownSafe [] 1 (codes "log 1:" ++ 10 ∷ []) → ⊥ }
    ensures no_log { IsShownSafe (codes "group 3 10" ∷ []) 1 [] → ⊥ }
    ensures two_logs_without_a_group { AreShownAgreeing [] [] 1 1
        (codes "log 1:" ++ (10 ∷ (codes "log 1:" ++ 10 ∷ []))) → ⊥ }
    ensures no_logs { AreShownAgreeing (codes "group 3 10" ∷ []) [] 1 1 [] → ⊥ }
    ensures a_line_that_is_no_command_between { AreShownAgreeing (codes "group 3 10" ∷ [])
        ([] ∷ []) 1 1 (codes "group 3 10" ++ (10 ∷ (codes "log 1:" ++ (10
        ∷ (codes "log 1:" ++ 10 ∷ []))))) → ⊥ }
{}
