//! How commands of scripts are written, and what their words may be.
ghost use Rattle.std.specs.Prelude.{[], ◌∷◌, ◌++◌, ◌≡◌, codes, false, replicate, true};
ghost use Rattle.std.specs.Fmt.{decimal};
ghost use Rattle.urb_names.specs.Names.{name};
ghost use Rattle.urb_stable.specs.declared.memory.Failure.TheVariants.{New, Old};
ghost use Rattle.urb_world.specs.internal.Examples.{limits};
ghost use Rattle.urb_script.specs.Commands.{AreArguments, Arrive, ArriveFlagged, Crash, Fail, Group};
ghost use Rattle.urb_script.specs.Commands.{Held, InRange, IsRoute, IsSpelled, Log, Raw, Reopen};
ghost use Rattle.urb_script.specs.Commands.{Restart, Spells, Stored, Submit, Tick, keyword};
ghost use Rattle.urb_script.specs.declared.input.TheConstants.{LONGEST_LINE};

/// The first word of each command.
pub fn first_words()
    ensures of_a_group { keyword (Group (limits 3 10)) ≡ codes "group" }
    ensures of_a_submit { keyword (Submit 1 7 1 []) ≡ codes "submit" }
    ensures of_a_stored_record { keyword (Stored 1) ≡ codes "stored" }
    ensures of_a_failed_store { keyword (Fail 1 Old) ≡ codes "fail" }
    ensures of_a_crash { keyword (Crash 1) ≡ codes "crash" }
    ensures of_a_restart { keyword (Restart 1) ≡ codes "restart" }
    ensures of_a_reopening { keyword Reopen ≡ codes "reopen" }
    ensures of_an_arrival { keyword (Arrive 1 2 (name 1 1)) ≡ codes "arrive" }
    ensures of_an_arrival_with_flags { keyword (ArriveFlagged 1 2 (name 1 1)
        (record { certified = true; heard = false })) ≡ codes "arrive2" }
    ensures of_bytes { keyword (Raw 1 []) ≡ codes "raw" }
    ensures of_a_tick { keyword (Tick 1) ≡ codes "tick" }
    ensures of_a_log { keyword (Log 1) ≡ codes "log" }
    ensures of_a_name { keyword (Held (name 1 1)) ≡ codes "held" }
{}

/// The words of a command: its first word, and its arguments behind it.
pub fn words_of_commands()
    ensures of_a_tick { IsSpelled (codes "tick" ∷ decimal 1 ∷ []) (Tick 1) }
    ensures with_another_first_word { IsSpelled (codes "tock" ∷ codes "1" ∷ []) (Tick 1) → ⊥ }
    ensures without_an_argument { IsSpelled (codes "tick" ∷ []) (Tick 1) → ⊥ }
    ensures bytes_without_a_word { AreArguments (Raw 1 []) [] → ⊥ }
    ensures bytes_with_another_word { AreArguments (Raw 1 []) (codes "1" ∷ codes "00" ∷ []) → ⊥ }
    ensures in_another_line { Spells (codes "tock") (Tick 1) → ⊥ }
    ensures of_an_eighth_node { Spells (codes "tick 8") (Tick 8) → ⊥ }
    ensures in_a_line_that_is_too_long { Spells (codes "submit 1 7 1 " ++ replicate LONGEST_LINE 120)
        (Submit 1 7 1 (replicate LONGEST_LINE 120)) → ⊥ }
{}

/// The ranges of a command's values. What arrives at a node comes from another one.
pub fn ranges_of_commands()
    ensures a_submit { InRange (Submit 1 7 0 (codes "a")) }
    ensures at_no_node { InRange (Submit 0 7 1 (codes "a")) → ⊥ }
    ensures of_no_client { InRange (Submit 1 0 1 (codes "a")) → ⊥ }
    ensures a_client_of_three_bytes { InRange (Submit 1 65536 1 (codes "a")) → ⊥ }
    ensures a_number_of_five_bytes { InRange (Submit 1 7 4294967296 (codes "a")) → ⊥ }
    ensures a_hyphen_alone { InRange (Submit 1 7 1 (codes "-")) → ⊥ }
    ensures from_itself { InRange (Arrive 1 1 (name 1 1)) → ⊥ }
    ensures of_no_sender { InRange (Arrive 1 2 (name 0 1)) → ⊥ }
    ensures from_itself_with_flags { InRange (ArriveFlagged 1 1 (name 1 1)
        (record { certified = true; heard = false })) → ⊥ }
    ensures of_no_sender_with_flags { InRange (ArriveFlagged 1 2 (name 0 1)
        (record { certified = true; heard = false })) → ⊥ }
    ensures a_route { IsRoute 1 2 }
    ensures from_no_node { IsRoute 0 2 → ⊥ }
    ensures to_an_eighth_node { IsRoute 1 8 → ⊥ }
    ensures to_the_same_node { IsRoute 1 1 → ⊥ }
{}
