//! Worked examples of the rows of a journal: the row of a record, and the records of rows.
ghost use Rattle.std.specs.Prelude.{[], ◌∷◌, ◌≡◌};
ghost use Rattle.sqlite.specs.Effect.{Database};
ghost use Rattle.urb_names.specs.Names.{name};
ghost use Rattle.urb_stable.specs.declared.record.Record.TheVariants.{Cert, PendCert};
ghost use Rattle.urb_sqlite.specs.JournalTables.{journal_name};
ghost use Rattle.urb_sqlite.specs.RecordRows.{IsFirstBad, IsNoRecord, IsWithin, Spells, StandsFor};
ghost use Rattle.urb_sqlite.specs.RecordRows.{columns_of, payload_of, row_of, rows_in, rows_of};
ghost use Rattle.urb_sqlite.specs.RecordRows.{table_rows};
ghost use Rattle.urb_world.specs.internal.Examples.{pending};
ghost use Rattle.urb_world.specs.internal.Scripts.{message};
ghost use Rattle.urb_journal_examples.specs.internal.JournalValues.{first_table, holding};
ghost use Rattle.urb_journal_examples.specs.internal.JournalValues.{stored_row, with_rows};
ghost use Rattle.urb_journal_examples.specs.internal.JournalValues.{without_rows};

/// A record has a row, with its place, its kind, its name and its message.
pub fn what_the_row_of_a_record_is()
    ensures of_a_pending_one { row_of 5 (holding "a") ≡ columns_of 5 1 1 1 7 1 (97 ∷ []) }
    ensures of_a_certified_one { row_of 5 (PendCert (name 2 3) (message 7 1 "a"))
        ≡ columns_of 5 2 2 3 7 1 (97 ∷ []) }
    ensures of_a_certificate { row_of 5 (Cert (name 2 3)) ≡ columns_of 5 3 2 3 0 0 [] }
    ensures of_two { rows_of 5 (pending 1 1 ∷ pending 1 2 ∷ []) ≡ columns_of 5 1 1 1 7 1 []
        ∷ columns_of 6 1 1 2 7 2 [] ∷ [] }
    ensures its_payload { payload_of (holding "ab") ≡ 97 ∷ 98 ∷ [] }
{}

/// The rows of a table are in order of their places.
pub fn what_the_rows_of_a_table_are()
    ensures in_a_tree { rows_in 2 (with_rows [] 2 (stored_row 2 ∷ stored_row 1 ∷ [])).trees
        ≡ rows_of 1 (pending 1 1 ∷ pending 1 2 ∷ []) }
    ensures by_name { table_rows (with_rows (first_table ∷ []) 2 (stored_row 1 ∷ stored_row 2 ∷ []))
        journal_name ≡ rows_of 1 (pending 1 1 ∷ pending 1 2 ∷ []) }
{}

/// A record is within its own limits, and its payload is within the table's limit.
pub fn which_records_are_within()
    ensures a_short_one { IsWithin 1 (holding "a") }
    ensures none_of_node_eight { IsWithin 1 (pending 8 1) → ⊥ }
    ensures no_longer_one { IsWithin 1 (holding "ab") → ⊥ }
{}

/// Rows spell records, one for each, at their places.
pub fn what_rows_spell()
    ensures one_record { Spells 0 1 (row_of 1 (pending 1 1) ∷ []) (pending 1 1 ∷ []) }
    ensures not_a_record_more { Spells 0 1 [] (pending 1 1 ∷ []) → ⊥ }
    ensures no_longer_payload { Spells 0 1 (row_of 1 (holding "a") ∷ []) (holding "a" ∷ []) → ⊥ }
    ensures none_at_the_last_place { Spells 0 4294967295 (row_of 4294967295 (pending 1 1) ∷ [])
        (pending 1 1 ∷ []) → ⊥ }
{}

/// The rows of no record, and the first of them.
pub fn which_rows_are_bad()
    ensures one_without_columns { IsNoRecord 0 1 [] }
    ensures one_of_a_longer_payload { IsNoRecord 0 1 (row_of 1 (holding "a")) }
    ensures one_at_the_last_place { IsNoRecord 0 4294967295 (row_of 4294967295 (pending 1 1)) }
    ensures none_of_no_rows { IsFirstBad 0 1 [] 1 → ⊥ }
    ensures none_behind_a_bad_one { IsFirstBad 0 1 ([] ∷ [] ∷ []) 2 → ⊥ }
    ensures not_at_another_place { IsFirstBad 0 1 ([] ∷ []) 2 → ⊥ }
    ensures none_of_a_record { IsFirstBad 0 1 (row_of 1 (pending 1 1) ∷ []) 1 → ⊥ }
{}

/// A database stands for records in its two tables.
pub fn what_a_database_stands_for()
    ensures no_record_without_rows { StandsFor (without_rows []) (pending 1 1 ∷ []) → ⊥ }
    ensures nothing_without_rows { StandsFor (without_rows []) [] }
{}
