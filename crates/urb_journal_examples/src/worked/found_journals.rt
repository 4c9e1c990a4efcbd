//! Worked examples of what an opening finds in the files of a node, at first and after a stop.
//!
//! Each of the rows that end in ⊥ breaks one rule alone.
ghost use Rattle.std.specs.Prelude.{[], ◌∷◌, ◌≡◌, Err, List, Ok};
ghost use Rattle.sqlite.specs.Files.{HoldsDatabase};
ghost use Rattle.sqlite_disk.specs.declared.Files.{Files as BothFiles};
ghost use Rattle.sqlite_store.specs.declared.store.FileStore.{FileStore as Store};
ghost use Rattle.sqlite_store.specs.FileStore.{files, recovers};
ghost use Rattle.sqlite_trees.specs.Tree.{Trees, no_trees};
ghost use Rattle.sqlite_wal.specs.Recovery.{Image};
ghost use Rattle.urb_stable.specs.Entries.{Entry};
ghost use Rattle.urb_stable.specs.declared.stable.StoreFault.{StoreFault};
ghost use Rattle.urb_stable.specs.declared.stable.StoreFault.TheVariants.{Device};
ghost use Rattle.urb_sqlite.specs.ClosedFiles.{LeavesNoMore};
ghost use Rattle.urb_sqlite.specs.FoundJournals.{AreFoundIn, IsFoundIf};
ghost use Rattle.urb_sqlite.specs.OpenJournal.{IsBare, IsBase, IsJournal, base_of, database_of};
ghost use Rattle.urb_sqlite.specs.RecordRows.{StandsFor};
ghost use Rattle.urb_sqlite.specs.ReopenedJournals.{FindsWhatIsLeft, IsFoundAfter};
ghost use Rattle.urb_world.specs.MemoryStores.{in_memory};
ghost use Rattle.urb_world.specs.internal.Examples.{pending};
ghost use Rattle.urb_journal_examples.specs.internal.JournalValues.{connected, first_table, held};
ghost use Rattle.urb_journal_examples.specs.internal.JournalValues.{leaving_nothing, no_database};
ghost use Rattle.urb_journal_examples.specs.internal.JournalValues.{no_files, one_byte, shut};
ghost use Rattle.urb_journal_examples.specs.internal.JournalValues.{second_table, without_rows};

use sqlite_disk::Disk;

/// Each node has files of its own.
pub fn what_the_files_of_nodes_held()
    ensures of_node_1 { held 1 ≡ one_byte 1 }
    ensures of_node_2 { held 2 ≡ one_byte 2 }
    ensures of_node_3 { held 3 ≡ one_byte 3 }
    ensures of_node_4 { held 4 ≡ one_byte 4 }
    ensures of_node_5 { held 5 ≡ one_byte 5 }
    ensures of_node_6 { held 6 ≡ one_byte 6 }
    ensures of_node_7 { held 7 ≡ one_byte 7 }
{}

/// An opening finds the records of the tables, and no record if there was no database.
pub fn what_an_opening_finds()
    ensures no_record_in_empty_files { IsFoundIf ⊥ no_files (Unit {0}) (Unit {0})
        (pending 1 1 ∷ []) → ⊥ }
    ensures no_record_after_half_a_start { IsFoundIf (Unit {0}) (one_byte 1) (Unit {0}) (Unit {0})
        (pending 1 1 ∷ []) → ⊥ }
    ensures the_records_of_the_tables { (image : Image) (records : List Entry)
        → ((db : Trees) → HoldsDatabase image db → (journal : IsJournal db)
        → StandsFor (database_of journal) records)
        → ((db : Trees) → HoldsDatabase image db → (base : IsBase db)
        → StandsFor (base_of base) records)
        → ((db : Trees) → HoldsDatabase image db → IsBare db → ⊥)
        → (image.db ≡ [] → ⊥)
        → IsFoundIf ⊥ image (Unit {0}) (Unit {0}) records }
    ensures no_journals { AreFoundIn (in_memory (Unit {0})) (λ node. no_files) [] }
{}

/// After a stop the next opening finds what was left.
pub fn what_is_found_again()
    ensures a_stored_record { IsFoundAfter {A = Unit {0}} {E = StoreFault} (Ok tt)
        (pending 1 1 ∷ []) (pending 1 2) (pending 1 1 ∷ pending 1 2 ∷ []) }
    ensures not_less_than_was_stored { IsFoundAfter {A = Unit {0}} {E = StoreFault} (Ok tt)
        (pending 1 1 ∷ []) (pending 1 2) (pending 1 1 ∷ []) → ⊥ }
    ensures perhaps_less_after_a_failure { IsFoundAfter {A = Unit {0}} {E = StoreFault}
        (Err Device) (pending 1 1 ∷ []) (pending 1 2) (pending 1 1 ∷ []) }
    ensures no_shut_journal { FindsWhatIsLeft (leaving_nothing (without_rows []))
        (shut (connected (without_rows []) no_trees)) (λ records. Unit {0}) → ⊥ }
    ensures none_without_the_property { FindsWhatIsLeft (leaving_nothing (without_rows []))
        (connected (without_rows (first_table ∷ second_table ∷ [])) no_trees) (λ records. ⊥)
        → ⊥ }
    ensures anything_behind_no_journal { FindsWhatIsLeft
        (connected (without_rows []) no_database) (shut (connected (without_rows []) no_trees))
        (λ records. Unit {0}) }
{}

/// A stop after the close leaves what a stop before it could have left.
pub fn what_closed_files_leave<D: Disk>()
    ensures what_their_store_leaves { (left : Trees) (both : BothFiles D) (store : Store D D.Disk)
        → (both.log, both.db) ≡ files store
        → ((db : Trees) → recovers store db → db ≡ left)
        → LeavesNoMore D.Disk (connected (without_rows []) left) both }
    ensures no_other_database { (left : Trees) (both : BothFiles D)
        → ((store : Store D D.Disk) → (both.log, both.db) ≡ files store
        → (db : Trees) × recovers store db × (db ≡ left → ⊥))
        → LeavesNoMore D.Disk (connected (without_rows []) left) both → ⊥ }
{}
