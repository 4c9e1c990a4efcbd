//! Words of command lines, and the ranges of their options.
ghost use Rattle.std.specs.Prelude.{[], ◌∷◌, ◌≡◌, List, None, Some, codes, false, suc, true, ℕ};
ghost use Rattle.clap.specs.Words.{subcommand_of};
ghost use Rattle.clap.specs.declared.error.kind.ErrorKind.TheVariants.{DisplayHelp, DisplayVersion};
ghost use Rattle.clap.specs.declared.error.kind.ErrorKind.TheVariants.{OutOfMemory};
ghost use Rattle.clap.specs.declared.error.kind.ErrorKind.TheVariants.{UnknownArgument};
ghost use Rattle.urb_names.specs.declared.limits.TheConstants.{MAX_CAP, MAX_NODES};
ghost use Rattle.urb_options.specs.CommandLine.{HasStatus, parser_status, urbd_app};
ghost use Rattle.urb_options.specs.Doors.{mode_in, octal_value};
ghost use Rattle.urb_options.specs.OptionRanges.{AreInRange, AreServiceRanges};
ghost use Rattle.urb_options.specs.ProgramFaults.{fault_of_run};
ghost use Rattle.urb_options.specs.Tasks.{IsUnfit, Replay, form_named, is_decimal, task_named};
ghost use Rattle.urb_options.specs.declared.entry_form_kind.EntryForm.TheVariants.{Hex, Json, Text};
ghost use Rattle.urb_options.specs.declared.faults.Fault.TheVariants as fault;
ghost use Rattle.urb_options.specs.declared.limits.TheConstants.{MAX_BASE_PORT, MAX_CONNECTIONS};
ghost use Rattle.urb_options.specs.declared.limits.TheConstants.{MAX_IDLE_MINUTES};
ghost use Rattle.urb_options.specs.declared.limits.TheConstants.{MAX_TICK_MILLIS};
ghost use Rattle.urb_script.specs.declared.runs.RunFault.TheVariants.{NoMemory, Read, Write};

/// The ranges of a group's options.
pub fn ranges_of_groups()
    ensures a_group { AreInRange 3 10 7000 100 }
    ensures no_node { AreInRange 0 10 7000 100 → ⊥ }
    ensures a_node_too_many { AreInRange (suc MAX_NODES) 10 7000 100 → ⊥ }
    ensures no_message { AreInRange 3 0 7000 100 → ⊥ }
    ensures a_message_too_many { AreInRange 3 (suc MAX_CAP) 7000 100 → ⊥ }
    ensures a_port_of_the_system { AreInRange 3 10 1023 100 → ⊥ }
    ensures a_port_too_high { AreInRange 3 10 (suc MAX_BASE_PORT) 100 → ⊥ }
    ensures no_pause { AreInRange 3 10 7000 0 → ⊥ }
    ensures too_long_a_pause { AreInRange 3 10 7000 (suc MAX_TICK_MILLIS) → ⊥ }
    ensures a_service { AreServiceRanges 4 10 }
    ensures three_connections { AreServiceRanges 3 10 → ⊥ }
    ensures a_connection_too_many { AreServiceRanges (suc MAX_CONNECTIONS) 10 → ⊥ }
    ensures no_minute { AreServiceRanges 4 0 → ⊥ }
    ensures a_minute_too_many { AreServiceRanges 4 (suc MAX_IDLE_MINUTES) → ⊥ }
{}

/// Modes and words of options.
pub fn words_of_options()
    ensures the_last_octal_digit { octal_value 55 ≡ Some 7 }
    ensures before_the_first_octal_digit { octal_value 47 ≡ None }
    ensures behind_the_last_octal_digit { octal_value 56 ≡ None }
    ensures a_mode { mode_in (codes "640") ≡ Some 416 }
    ensures a_mode_behind_a_zero { mode_in (codes "0640") ≡ Some 416 }
    ensures a_mode_behind_a_one { mode_in (codes "1640") ≡ None }
    ensures text { form_named (codes "text") ≡ Some Text }
    ensures hexadecimal { form_named (codes "hex") ≡ Some Hex }
    ensures no_form { form_named (codes "xml") ≡ None }
    ensures a_replay { task_named (Some (codes "replay", [])) ≡ Some Replay }
    ensures no_task { task_named (Some (codes "play", [])) ≡ None }
{}

/// Which words are numbers in decimal.
pub fn numbers_of_options()
    ensures two_digits { is_decimal (codes "12") ≡ true }
    ensures no_digits { is_decimal [] ≡ false }
    ensures a_letter { is_decimal (codes "1a") ≡ false }
{}

/// The options of a command line are unfit only if the parser finds no fault in its words.
pub fn lines_that_are_not_unfit()
    ensures no_task { IsUnfit (codes "urbd" ∷ []) → ⊥ }
    ensures a_task { (words : List (List ℕ)) → task_named (subcommand_of urbd_app words) ≡ Some Replay
        → IsUnfit words → ⊥ }
{}

/// The statuses of command lines that are refused, and the faults of runs.
pub fn statuses_of_lines()
    ensures without_memory { parser_status OutOfMemory ≡ 1 }
    ensures help { parser_status DisplayHelp ≡ 0 }
    ensures a_version { parser_status DisplayVersion ≡ 0 }
    ensures another_fault { parser_status UnknownArgument ≡ 3 }
    ensures a_status_without_a_fault { HasStatus [] 3 → ⊥ }
    ensures a_status_that_no_fault_has { HasStatus (UnknownArgument ∷ []) 5 → ⊥ }
    ensures a_failed_read { fault_of_run Read ≡ fault.Read }
    ensures a_failed_write { fault_of_run Write ≡ fault.Write }
    ensures a_run_without_memory { fault_of_run NoMemory ≡ fault.NoMemory }
{}
