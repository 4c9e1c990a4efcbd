//! Worked examples of open journals: what their trees are, what a stop leaves, and what is added.
#![tactic(auto, unfolding(sqlite_schema::specs::Names::same_name))]

ghost use Rattle.std.specs.Prelude.{[], ◌∷◌, ◌≡◌, ◌^◌, codes, false, nat_le, ℕ};
ghost use Rattle.sqlite_catalog.specs.Listing.{IsSound};
ghost use Rattle.sqlite_schema.specs.declared.schema.Schema.{Schema};
ghost use Rattle.sqlite_trees.specs.Tree.{Trees, no_trees};
ghost use Rattle.urb_stable.specs.declared.stable.StoreFault.TheVariants.{BadRow};
ghost use Rattle.urb_sqlite.specs.JournalTables.{journal_name};
ghost use Rattle.urb_sqlite.specs.OpenJournal.{AddsOne, AddsTable, CommitsTable, IsBase};
ghost use Rattle.urb_sqlite.specs.OpenJournal.{IsHonestJournal, IsJournal, IsLonger, IsSafeAtRest};
ghost use Rattle.urb_sqlite.specs.OpenJournal.{IsShutJournal, KeepsRows, LeavesOnly};
ghost use Rattle.urb_world.specs.internal.Examples.{pending};
ghost use Rattle.urb_journal_examples.specs.internal.JournalValues.{connected, counted_table};
ghost use Rattle.urb_journal_examples.specs.internal.JournalValues.{first_table, no_database};
ghost use Rattle.urb_journal_examples.specs.internal.JournalValues.{other_table, short_table, shut};
ghost use Rattle.urb_journal_examples.specs.internal.JournalValues.{second_table, with_rows};
ghost use Rattle.urb_journal_examples.specs.internal.JournalValues.{without_rows};

/// A journal is honest while it is open. A fault shuts it.
pub fn which_journals_are_open()
    ensures no_honest_one_that_is_shut { IsHonestJournal
        (shut (connected (without_rows (first_table ∷ second_table ∷ [])) no_trees)) → ⊥ }
    ensures a_shut_one { IsShutJournal (shut (connected (without_rows []) no_trees)) }
{}

/// The trees of a journal are a database that lists its table. Where a journal opens, no other
/// table has its name.
pub fn which_trees_are_journals()
    ensures no_empty_ones { IsJournal no_trees → ⊥ }
    ensures none_with_another_such_table { (db : Trees) (schema : Schema)
        → IsSound schema db → schema.tables ≡ short_table ∷ [] → IsBase db → ⊥ }
    ensures none_that_are_no_database { IsBase no_database → ⊥ }
{}

/// Whatever a stop leaves is a journal of records that have the property.
pub fn what_a_stop_leaves()
    ensures none_without_the_property { (db : Trees)
        → LeavesOnly (connected (without_rows []) db) (λ records. ⊥) → ⊥ }
    ensures no_record_without_a_row { (db : Trees)
        → ((tree : ℕ) → nat_le (2 ^ 31) tree ≡ false → db tree ≡ [])
        → LeavesOnly (connected (without_rows []) db) (λ records. records ≡ pending 1 1 ∷ [])
        → ⊥ }
    ensures anything_of_a_shut_journal { IsSafeAtRest
        (shut (connected (without_rows []) no_database)) }
{}

/// Tables are added behind the others, which keep their rows.
pub fn what_is_added()
    ensures no_table_is_taken { IsLonger (without_rows (other_table 2 ∷ [])) (without_rows []) → ⊥ }
    ensures no_rows_are_changed { IsLonger (without_rows (other_table 2 ∷ []))
        (with_rows (other_table 2 ∷ []) 2 ([] ∷ [])) → ⊥ }
    ensures a_table { AddsTable (without_rows []) (without_rows (first_table ∷ [])) journal_name }
    ensures not_without_the_table { AddsTable (without_rows []) (without_rows []) journal_name
        → ⊥ }
    ensures not_with_rows { AddsTable (without_rows [])
        (with_rows (first_table ∷ []) 2 ([] ∷ [])) journal_name → ⊥ }
    ensures not_in_place_of_another { AddsTable (without_rows (counted_table (codes "other") ∷ []))
        (without_rows (first_table ∷ [])) journal_name → ⊥ }
{}

/// A table is committed while the connection is open.
pub fn what_is_committed()
    ensures not_what_was_shut { CommitsTable (shut (connected (without_rows []) no_trees))
        (connected (without_rows (first_table ∷ [])) no_trees) journal_name → ⊥ }
    ensures not_without_the_table { CommitsTable (connected (without_rows []) no_trees)
        (connected (without_rows []) no_trees) journal_name → ⊥ }
    ensures whatever_is_shut { CommitsTable (connected (without_rows []) no_trees)
        (shut (connected (without_rows []) no_trees)) journal_name }
    ensures no_trees_that_are_no_database { AddsOne (without_rows []) journal_name no_database
        → ⊥ }
    ensures no_trees_without_the_table { AddsOne (without_rows []) journal_name no_trees → ⊥ }
    ensures nothing_at_a_bad_row { KeepsRows (connected (without_rows []) no_trees)
        (connected (without_rows (first_table ∷ [])) no_trees) (BadRow 1) → ⊥ }
{}
