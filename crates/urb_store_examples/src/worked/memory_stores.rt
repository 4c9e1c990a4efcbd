//! Worked examples of stores in memory, and of lists of records.
ghost use Rattle.std.specs.Prelude.{[], ◌∷◌, ◌≡◌, Err, None, Ok, Some, false, true};
ghost use Rattle.urb_names.specs.Names.{name};
ghost use Rattle.urb_stable.specs.DeliveredLogs.{entries};
ghost use Rattle.urb_stable.specs.Images.{image_of};
ghost use Rattle.urb_stable.specs.MemoryStores.{StoresAt, with_doubt};
ghost use Rattle.urb_stable.specs.StoredBatches.{rest_of};
ghost use Rattle.urb_stable.specs.declared.memory.Failure.TheVariants.{New, Old};
ghost use Rattle.urb_stable.specs.declared.stable.StoreFault.TheVariants.{Device, NoMemory, Place};
ghost use Rattle.urb_store_examples.specs.internal.SeenStores.{both, certificate, pending, text};

/// What a store in memory answers: it depends on its position, on how it is armed, and on the count.
pub fn answers_of_stores_in_memory()
    ensures out_of_place { StoresAt 2 true None true (Err (Place 2)) }
    ensures not_ok_out_of_place { StoresAt 2 true None true (Ok tt) → ⊥ }
    ensures unarmed { StoresAt 2 false None true (Ok tt) }
    ensures unarmed_without_memory { StoresAt 2 false None false (Err NoMemory) }
    ensures uncounted { StoresAt 2 false (Some Old) false (Err NoMemory) }
    ensures keeping_nothing { StoresAt 2 false (Some Old) true (Err Device) }
    ensures not_keeping_nothing_without_memory { StoresAt 2 false (Some Old) true (Err NoMemory)
        → ⊥ }
    ensures keeping_it { StoresAt 2 false (Some New) true (Err Device) }
    ensures keeping_it_without_memory { StoresAt 2 false (Some New) true (Err NoMemory) }
    ensures not_ok_if_it_is_armed { StoresAt 2 false (Some New) true (Ok tt) → ⊥ }
{}

/// Records in doubt, records that are left, images, and entries of a log.
pub fn lists_of_records()
    ensures with_one_in_doubt { with_doubt both (Some (pending 3)) ≡ pending 1 ∷ pending 2 ∷ pending 3
        ∷ [] }
    ensures with_none_in_doubt { with_doubt both None ≡ both }
    ensures without_the_first { rest_of (pending 3 ∷ both) ≡ both }
    ensures of_the_second_node { image_of ([] ∷ both ∷ []) 2 ≡ both }
    ensures of_no_node { image_of (both ∷ []) 0 ≡ [] }
    ensures of_a_log { entries (pending 1 ∷ pending 2 ∷ certificate 2 ∷ certificate 1 ∷ [])
        ≡ (name 1 1, Some (text 1)) ∷ (name 1 2, Some (text 2)) ∷ [] }
{}
