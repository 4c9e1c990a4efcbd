//! Worked examples of tables: which table is a table of records.
//!
//! Each of the rows that end in false breaks one rule alone.
ghost use Rattle.std.specs.Prelude.{[], ◌++◌, ◌∷◌, ◌≡◌, None, codes, false, pos, true};
ghost use Rattle.sqlite_value.specs.declared.keys.Collation.TheVariants.{Binary, NoCase};
ghost use Rattle.sqlite_value.specs.declared.value.Value.TheVariants.{Int, Null};
ghost use Rattle.sqlite_value.specs.Keys.{plain};
ghost use Rattle.sqlite_schema.specs.declared.schema.Kind.TheVariants.{Blob, Integer};
ghost use Rattle.sqlite_schema.specs.declared.schema.Reference.{Reference};
ghost use Rattle.sqlite_sql.specs.Term.{Term};
ghost use Rattle.urb_sqlite.specs.JournalTables.{integer, journal_name, second_name};
ghost use Rattle.urb_sqlite.specs.TableShapes.{are_columns, is_binary, is_blob, is_bytes, is_count};
ghost use Rattle.urb_sqlite.specs.TableShapes.{is_free, is_integer, is_journal, is_keyed, is_null};
ghost use Rattle.urb_sqlite.specs.TableShapes.{is_plain, is_rowid, is_written};
ghost use Rattle.urb_journal_examples.specs.internal.JournalValues.{columns_with, first_table};
ghost use Rattle.urb_journal_examples.specs.internal.JournalValues.{kind_column, payload_column};
ghost use Rattle.urb_journal_examples.specs.internal.JournalValues.{place_column};

/// Tests of a default, of a collation and of a type.
pub fn what_columns_may_have()
    ensures no_value_is_null { is_null Null ≡ true }
    ensures zero_is_not { is_null (Int (pos 0)) ≡ false }
    ensures bytes_as_they_are { is_binary Binary ≡ true }
    ensures not_letters_without_case { is_binary NoCase ≡ false }
    ensures integers { is_integer Integer ≡ true }
    ensures not_bytes_as_integers { is_integer Blob ≡ false }
    ensures bytes { is_blob Blob ≡ true }
    ensures not_integers_as_bytes { is_blob Integer ≡ false }
{}

/// A column of a journal has its name and takes only values of its type, without a default.
pub fn which_columns_are_plain()
    ensures a_column_of_kinds { is_plain (codes "kind") kind_column ≡ true }
    ensures not_by_another_name { is_plain (codes "seq") kind_column ≡ false }
    ensures not_with_values_of_any_type { is_plain (codes "kind")
        (record kind_column { is_strict = false }) ≡ false }
    ensures not_with_a_default { is_plain (codes "kind")
        (record kind_column { default = Int (pos 0) }) ≡ false }
    ensures not_with_a_collation { is_plain (codes "kind")
        (record kind_column { collation = NoCase }) ≡ false }
{}

/// The place is the rowid, the payload has bytes, and the other columns have integers.
pub fn what_columns_are()
    ensures the_rowid { is_rowid (codes "pos") place_column ≡ true }
    ensures no_rowid_by_another_name { is_rowid (codes "kind") place_column ≡ false }
    ensures no_rowid_of_bytes { is_rowid (codes "pos") (record place_column { kind = Blob })
        ≡ false }
    ensures no_rowid_that_is_not_null { is_rowid (codes "kind") kind_column ≡ false }
    ensures a_count { is_count (codes "kind") kind_column ≡ true }
    ensures no_count_by_another_name { is_count (codes "seq") kind_column ≡ false }
    ensures no_count_of_bytes { is_count (codes "payload") payload_column ≡ false }
    ensures no_count_that_may_be_null { is_count (codes "pos") place_column ≡ false }
    ensures a_payload { is_bytes (codes "payload") payload_column ≡ true }
    ensures no_payload_by_another_name { is_bytes (codes "text") payload_column ≡ false }
    ensures no_payload_of_integers { is_bytes (codes "kind") kind_column ≡ false }
    ensures no_payload_that_may_be_null { is_bytes (codes "payload")
        (record payload_column { not_null = false }) ≡ false }
{}

/// A table of records has its seven columns, in order.
pub fn what_the_columns_of_records_are()
    ensures seven { are_columns first_table.columns ≡ true }
    ensures not_eight { are_columns (first_table.columns ++ integer (codes "more") ∷ []) ≡ false }
    ensures not_another_first { are_columns (columns_with 0 kind_column) ≡ false }
    ensures not_another_second { are_columns (columns_with 1 place_column) ≡ false }
    ensures not_another_third { are_columns (columns_with 2 kind_column) ≡ false }
    ensures not_another_fourth { are_columns (columns_with 3 kind_column) ≡ false }
    ensures not_another_fifth { are_columns (columns_with 4 kind_column) ≡ false }
    ensures not_another_sixth { are_columns (columns_with 5 kind_column) ≡ false }
    ensures not_another_seventh { are_columns (columns_with 6 kind_column) ≡ false }
{}

/// Its one key is its first column.
pub fn what_the_key_of_records_is()
    ensures the_place { is_keyed first_table ≡ true }
    ensures not_without_a_rowid { is_keyed (record first_table { key = None }) ≡ false }
    ensures not_with_another_column { is_keyed (record first_table { primary = 0 ∷ 1 ∷ [] })
        ≡ false }
    ensures not_another_column { is_keyed (record first_table { primary = 1 ∷ [] }) ≡ false }
{}

/// It has no other rule.
pub fn which_tables_have_no_rule()
    ensures that_of_records { is_free first_table ≡ true }
    ensures not_with_unique_columns { is_free (record first_table { uniques = (1 ∷ []) ∷ [] })
        ≡ false }
    ensures not_with_an_order { is_free (record first_table { orders = plain ∷ [] }) ≡ false }
    ensures not_with_a_check { (check : Term)
        → is_free (record first_table { checks = check ∷ [] }) ≡ false }
    ensures not_with_a_reference { (reference : Reference)
        → is_free (record first_table { references = reference ∷ [] }) ≡ false }
{}

/// None of its values is computed.
pub fn which_tables_are_written()
    ensures that_of_records { is_written first_table ≡ true }
    ensures not_with_a_computed_default { is_written (record first_table { computed = 1 ∷ [] })
        ≡ false }
    ensures not_with_a_time { is_written (record first_table
        { stamps = record first_table.stamps { places = 1 ∷ [] } }) ≡ false }
    ensures not_with_a_term_of_time { (term : Term) → is_written (record first_table
        { stamps = record first_table.stamps { terms = term ∷ [] } }) ≡ false }
    ensures not_with_a_format_of_time { is_written (record first_table
        { stamps = record first_table.stamps { formats = codes "%s" ∷ [] } }) ≡ false }
    ensures not_with_counted_keys { is_written (record first_table { is_counted = true }) ≡ false }
{}

/// A table of records, by all of these.
pub fn which_table_is_of_records()
    ensures the_first { is_journal journal_name first_table ≡ true }
    ensures not_by_another_name { is_journal second_name first_table ≡ false }
    ensures not_without_columns { is_journal journal_name (record first_table { columns = [] })
        ≡ false }
    ensures not_without_a_key { is_journal journal_name (record first_table { key = None })
        ≡ false }
    ensures not_with_a_rule { is_journal journal_name
        (record first_table { uniques = (1 ∷ []) ∷ [] }) ≡ false }
    ensures not_with_counted_keys { is_journal journal_name
        (record first_table { is_counted = true }) ≡ false }
{}
