//! Lines, words, digits and values of scripts.
ghost use Rattle.std.specs.Prelude.{[], ◌∷◌, ◌++◌, ◌≡◌, codes};
ghost use Rattle.std.specs.Fmt.{decimal};
ghost use Rattle.urb_names.specs.Names.{name};
ghost use Rattle.urb_stable.specs.declared.memory.Failure.TheVariants.{New, Old};
ghost use Rattle.urb_script.specs.ByteWords.{AreDigits};
ghost use Rattle.urb_script.specs.Lines.{ended_lines, last_line, lines_of, words_of};
ghost use Rattle.urb_script.specs.ValueWords.{HasWord, IsNodeNumber, IsPrinted, failure_word};
ghost use Rattle.urb_script.specs.ValueWords.{name_text, payload_word};

/// Lines end with LF, which the last one may lack. Words have one space between them.
pub fn lines_and_words()
    ensures two_lines { lines_of (97 ∷ 10 ∷ 98 ∷ []) ≡ codes "a" ∷ codes "b" ∷ [] }
    ensures an_ended_line { lines_of (97 ∷ 10 ∷ []) ≡ codes "a" ∷ [] }
    ensures pieces { ended_lines (codes "a" ∷ codes "b" ∷ []) ≡ codes "a" ∷ codes "b" ∷ [] }
    ensures a_last_line { last_line (codes "ab") ≡ codes "ab" ∷ [] }
    ensures no_last_line { last_line [] ≡ [] }
    ensures two_words { words_of (codes "log 1") ≡ codes "log" ∷ codes "1" ∷ [] }
{}

/// A byte is written as two digits, the higher one first.
pub fn digits_of_bytes()
    ensures of_no_byte { AreDigits (10 ∷ []) [] → ⊥ }
    ensures another_first_digit { AreDigits (10 ∷ []) (codes "1a") → ⊥ }
    ensures another_second_digit { AreDigits (10 ∷ []) (codes "0b") → ⊥ }
    ensures a_digit_more { AreDigits (10 ∷ []) (codes "0a0") → ⊥ }
{}

/// How values are written as words.
pub fn words_of_values()
    ensures a_name { name_text (name 1 23) ≡ decimal 1 ++ (46 ∷ decimal 23) }
    ensures no_payload { payload_word [] ≡ codes "-" }
    ensures a_payload { payload_word (codes "ab") ≡ codes "ab" }
    ensures the_old_list { failure_word Old ≡ codes "old" }
    ensures the_new_list { failure_word New ≡ codes "new" }
    ensures a_word { HasWord (codes "a-") }
    ensures a_space { HasWord (32 ∷ []) → ⊥ }
    ensures a_hyphen { HasWord (codes "-") → ⊥ }
    ensures no_node { IsNodeNumber 0 → ⊥ }
    ensures an_eighth_node { IsNodeNumber 8 → ⊥ }
    ensures before_the_first_printed_byte { IsPrinted 32 → ⊥ }
    ensures after_the_last_printed_byte { IsPrinted 127 → ⊥ }
{}
