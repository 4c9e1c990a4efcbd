//! Worked examples of rows that are read: what is a record, and what isn't.
//!
//! Each of the rows that end in false or None breaks one rule alone.
ghost use Rattle.std.specs.Prelude.{[], ◌∷◌, ◌≡◌, ◌^◌, None, Ok, Some, false, negsuc, pos, true};
ghost use Rattle.sqlite.specs.Effect.{Database};
ghost use Rattle.urb_sqlite.specs.JournalTables.{journal_name, second_name};
ghost use Rattle.urb_sqlite.specs.RecordRows.{rows_of, table_rows};
ghost use Rattle.urb_sqlite.specs.RowReadings.{is_bare, is_message, is_name, ok_or_none, record_in};
ghost use Rattle.urb_sqlite.specs.RowReadings.{records_of, word_in};
ghost use Rattle.urb_world.specs.internal.Examples.{pending};
ghost use Rattle.urb_journal_examples.specs.internal.JournalValues.{first_columns};

/// A number of 32 bits.
pub fn which_integers_are_numbers()
    ensures a_small_one { word_in (pos 5) ≡ Some 5 }
    ensures not_a_large_one { word_in (pos (2 ^ 32)) ≡ None }
    ensures not_a_negative_one { word_in (negsuc 4) ≡ None }
{}

/// The parts of a name and of a message.
pub fn what_names_and_messages_are()
    ensures a_name { is_name 7 1 ≡ true }
    ensures no_sender_eight { is_name 8 1 ≡ false }
    ensures no_number_zero { is_name 7 0 ≡ false }
    ensures a_message { is_message 2 7 1 (1 ∷ 2 ∷ []) ≡ true }
    ensures no_client_zero { is_message 2 0 1 [] ≡ false }
    ensures no_client_over_16_bits { is_message 2 65536 1 [] ≡ false }
    ensures no_message_zero { is_message 2 7 0 [] ≡ false }
    ensures no_longer_payload { is_message 1 7 1 (1 ∷ 2 ∷ []) ≡ false }
{}

/// A certificate has no message.
pub fn what_has_no_message()
    ensures zeros { is_bare (record first_columns { client = 0; number = 0 }) [] ≡ true }
    ensures not_a_client { is_bare (record first_columns { number = 0 }) [] ≡ false }
    ensures not_a_number { is_bare (record first_columns { client = 0 }) [] ≡ false }
    ensures not_a_payload { is_bare (record first_columns { client = 0; number = 0 })
        (1 ∷ []) ≡ false }
{}

/// The record of a row is at its place, and has a name.
pub fn what_record_a_row_has()
    ensures a_pending_one { record_in 0 1 first_columns [] ≡ Some (pending 1 1) }
    ensures not_at_another_place { record_in 0 2 first_columns [] ≡ None }
    ensures not_at_the_last_place { record_in 0 4294967295
        (record first_columns { pos = 4294967295 }) [] ≡ None }
    ensures not_without_a_name { record_in 0 1 (record first_columns { seq = 0 }) [] ≡ None }
{}

/// All records are read, one after the other.
pub fn which_records_are_read()
    ensures both { ok_or_none (Ok (pending 1 1 ∷ pending 1 2 ∷ []))
        ≡ pending 1 1 ∷ pending 1 2 ∷ [] }
    ensures both_of_a_journal { (d : Database)
        → table_rows d journal_name ≡ rows_of 1 (pending 1 1 ∷ pending 1 2 ∷ [])
        → table_rows d second_name ≡ [] → records_of d ≡ pending 1 1 ∷ pending 1 2 ∷ [] }
{}
