//! Worked examples of the tables of a journal: their names and limits, and which schemas have them.
//!
//! Each of the rows that end in ⊥ breaks one rule alone.
#![tactic(auto, unfolding(sqlite_schema::specs::Names::same_name))]

ghost use Rattle.std.specs.Prelude.{[], ◌∷◌, ◌≡◌, ◌^◌, codes, take};
ghost use Rattle.urb_sqlite.specs.JournalTables.{HasBoth, HasJournal, HasTable, IsAdoptable};
ghost use Rattle.urb_sqlite.specs.JournalTables.{create_text, journal_name, limit_of, record_table};
ghost use Rattle.urb_sqlite.specs.JournalTables.{second_name};
ghost use Rattle.urb_sqlite.specs.declared.sql.Part.TheVariants.{First, Second};
ghost use Rattle.urb_journal_examples.specs.internal.JournalValues.{counted_table, first_table};
ghost use Rattle.urb_journal_examples.specs.internal.JournalValues.{other_table, schema_of};
ghost use Rattle.urb_journal_examples.specs.internal.JournalValues.{second_table};

/// The names of the two tables, byte by byte, their limits, and how the first one is made.
pub fn what_tables_are_called()
    ensures the_first { journal_name ≡ 106 ∷ 111 ∷ 117 ∷ 114 ∷ 110 ∷ 97 ∷ 108 ∷ [] }
    ensures the_second { second_name ≡ 106 ∷ 111 ∷ 117 ∷ 114 ∷ 110 ∷ 97 ∷ 108 ∷ 50 ∷ [] }
    ensures short_payloads_in_the_first { limit_of First ≡ 1024 }
    ensures each_payload_in_the_second { limit_of Second ≡ 16384 }
    ensures made_if_it_is_absent { take 35 create_text
        ≡ codes "CREATE TABLE IF NOT EXISTS journal(" }
{}

/// A table of records is found by its name, and by its tree.
pub fn which_schemas_have_a_table()
    ensures one_of_records { HasTable (schema_of (first_table ∷ [])) journal_name }
    ensures one_before_others { HasTable (schema_of (first_table ∷ other_table 2 ∷ []))
        journal_name }
    ensures not_behind_one_with_its_tree { HasTable (schema_of (other_table 2 ∷ first_table ∷ []))
        journal_name → ⊥ }
    ensures not_in_a_tree_that_is_not_stored { HasTable
        (schema_of (record_table journal_name (2 ^ 31) ∷ [])) journal_name → ⊥ }
{}

/// A journal has its first table, and its second one or none of that name.
pub fn which_schemas_have_a_journal()
    ensures both { HasBoth (schema_of (first_table ∷ second_table ∷ [])) }
    ensures not_both_without_the_first { HasBoth (schema_of (second_table ∷ [])) → ⊥ }
    ensures not_both_without_the_second { HasBoth (schema_of (first_table ∷ [])) → ⊥ }
    ensures the_first_alone { HasJournal (schema_of (first_table ∷ [])) }
    ensures not_the_second_alone { HasJournal (schema_of (second_table ∷ [])) → ⊥ }
    ensures not_with_another_second { HasJournal
        (schema_of (first_table ∷ counted_table second_name ∷ [])) → ⊥ }
{}

/// A journal opens if neither name belongs to a table of another kind.
pub fn where_a_journal_opens()
    ensures without_tables { IsAdoptable (schema_of []) }
    ensures beside_other_tables { IsAdoptable (schema_of (other_table 2 ∷ [])) }
    ensures not_with_another_first { IsAdoptable (schema_of (counted_table journal_name ∷ []))
        → ⊥ }
    ensures not_with_another_second { IsAdoptable
        (schema_of (first_table ∷ counted_table second_name ∷ [])) → ⊥ }
{}
