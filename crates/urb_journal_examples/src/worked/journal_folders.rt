//! Worked examples of a folder of journals: its files after a stop, and stores asked together.
ghost use Rattle.std.specs.Prelude.{[], ◌<◌, ◌∷◌, ◌≡◌, Err, Ok, suc, ℕ};
ghost use Rattle.sqlite_wal.specs.Recovery.{Image};
ghost use Rattle.urb_names.specs.Names.{name};
ghost use Rattle.urb_names.specs.declared.refusal.Refusal.TheVariants as refusal;
ghost use Rattle.urb_node.specs.NodeViews.{no_view};
ghost use Rattle.urb_node.specs.Part.{Ready};
ghost use Rattle.urb_stable.specs.MemoryStores.{empty_memory};
ghost use Rattle.urb_stable.specs.declared.stable.StoreFault.TheVariants.{Device, NoMemory, Place};
ghost use Rattle.urb_group.specs.GroupViews.{GroupView, Shows};
ghost use Rattle.urb_folder.specs.AskedStores.{AllAnswer, AnswerRefused, OpensTogether};
ghost use Rattle.urb_folder.specs.OpenedJournals.{AreOfNodes, IsOfOpening};
ghost use Rattle.urb_folder.specs.ParallelOutcomes.{FailsFirst, IsOpen};
ghost use Rattle.urb_folder.specs.StoppedFiles.{HasLeft, HoldsNode};
ghost use Rattle.urb_folder.specs.declared.folder_fault.FolderFault.TheVariants as folder;
ghost use Rattle.urb_world.specs.MemoryStores.{in_memory};
ghost use Rattle.urb_world.specs.World.{World, image_of, opened, started};
ghost use Rattle.urb_world.specs.internal.Examples.{limits, node_in, pending};
ghost use Rattle.urb_journal_examples.specs.internal.GroupValues.{counted_group, group_with};
ghost use Rattle.urb_journal_examples.specs.internal.GroupValues.{new_group};
ghost use Rattle.urb_journal_examples.specs.internal.JournalValues.{no_files};

/// Each store is asked, and the refusal says the first fault.
pub fn what_stores_answer()
    ensures not_without_an_answer { AllAnswer (in_memory (Unit {0})) (empty_memory ∷ [])
        (Err Device ∷ []) (empty_memory ∷ []) → ⊥ }
    ensures no_store_more { AllAnswer (in_memory (Unit {0})) (empty_memory ∷ [])
        (Err NoMemory ∷ []) (empty_memory ∷ empty_memory ∷ []) → ⊥ }
    ensures no_refusal_that_takes_a_store { AnswerRefused (in_memory (Unit {0}))
        (empty_memory ∷ []) refusal.NoMemory [] → ⊥ }
    ensures no_refusal_as_busy { AnswerRefused (in_memory (Unit {0})) [] refusal.Busy [] → ⊥ }
{}

/// A group is opened from what the stores answered.
pub fn what_opens_together()
    ensures a_group_from_no_stores { Shows (new_group 4) (opened (limits 4 10) (image_of []))
        → OpensTogether (in_memory (Unit {0})) (limits 4 10) [] (Ok (new_group 4)) [] }
    ensures not_another_group { OpensTogether (in_memory (Unit {0})) (limits 4 10) []
        (Ok (new_group 3)) [] → ⊥ }
    ensures without_memory { OpensTogether (in_memory (Unit {0})) (limits 4 10) []
        (Err refusal.NoMemory) [] }
    ensures not_with_a_store_more { OpensTogether (in_memory (Unit {0})) (limits 4 10) []
        (Err refusal.Busy) (empty_memory ∷ []) → ⊥ }
{}

/// The journals are those of nodes 1, 2, 3, .. A fault says why they can't be opened.
pub fn which_journals_open()
    ensures no_journals { AreOfNodes (λ (node : ℕ). node) [] }
    ensures not_from_node_2_on { AreOfNodes (λ (node : ℕ). node) (2 ∷ []) → ⊥ }
    ensures a_failed_device { IsOfOpening 3 (folder.Journal 1 Device) }
    ensures not_of_node_zero { IsOfOpening 3 (folder.Journal 0 Device) → ⊥ }
    ensures not_a_place { IsOfOpening 3 (folder.Journal 1 (Place 2)) → ⊥ }
    ensures records_of_node_4 { IsOfOpening 3 (folder.ForeignRecords 4) }
    ensures no_records_of_node_3 { IsOfOpening 3 (folder.ForeignRecords 3) → ⊥ }
{}

/// The first fault comes behind values.
pub fn which_fault_is_first()
    ensures a_value { IsOpen {J = ℕ} {E = ℕ} (Ok 1) }
    ensures no_fault { IsOpen {J = ℕ} {E = ℕ} (Err 1) → ⊥ }
    ensures not_among_none { FailsFirst {J = ℕ} {E = ℕ} [] 2 → ⊥ }
    ensures not_the_second { FailsFirst {J = ℕ} {E = ℕ} (Err 1 ∷ Err 2 ∷ []) 2 → ⊥ }
{}

/// The files of each node hold what a stop may leave of it.
pub fn what_files_hold()
    ensures no_empty_files_of_a_record { HoldsNode no_files
        (node_in Ready (pending 1 1 ∷ [])) → ⊥ }
    ensures files_of_four { (held : ℕ → Image) → ((i : ℕ) → i < 4 → held (suc i) ≡ no_files)
        → Shows (counted_group 4) (started (limits 4 10))
        → HasLeft held (counted_group 4) (started (limits 4 10)) (limits 4 10) }
    ensures none_of_an_unsound_group { (w : World) → HasLeft (λ node. no_files)
        (group_with 1 (record no_view { acks = (name 1 1, 2) ∷ [] })) w (limits 1 10) → ⊥ }
    ensures none_of_a_group_without_nodes { (w : World) → HasLeft (λ node. no_files) (new_group 3)
        w (limits 3 10) → ⊥ }
    ensures none_of_four_without_nodes { (w : World) → HasLeft (λ node. no_files) (new_group 4)
        w (limits 4 10) → ⊥ }
    ensures none_with_fewer_nodes { (w : World) → HasLeft (λ node. no_files) (counted_group 4)
        w (limits 3 10) → ⊥ }
    ensures none_of_another_world { HasLeft (λ node. no_files) (counted_group 3)
        (started (limits 4 10)) (limits 4 10) → ⊥ }
    ensures no_empty_ones_of_a_record { (old : GroupView) → HasLeft (λ node. no_files) old
        (opened (limits 3 10) (image_of ((pending 1 1 ∷ []) ∷ []))) (limits 3 10) → ⊥ }
{}
