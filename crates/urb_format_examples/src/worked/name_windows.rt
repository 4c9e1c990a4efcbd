//! Values under names: the windows that a node's small parts are made of.
ghost use Rattle.std.specs.Prelude.{[], ◌∷◌, ◌≡◌, None, Some, ℕ};
ghost use Rattle.urb_names.specs.Names.{name};
ghost use Rattle.urb_window.specs.Entries.{names_of, value_of, window_of, with_value};
ghost use Rattle.urb_window.specs.Row.{counted_from, pairs_of};
ghost use Rattle.urb_window.specs.RowEntries.{entries_from, named};
ghost use Rattle.urb_window.specs.WindowSet.{IsWindowSet};
ghost use Rattle.urb_format_examples.specs.internal.SetExamples.{gapped, windows};

/// The names and the values of entries, and the values up to a sender's first gap.
pub fn what_entries_hold()
    ensures their_names { names_of gapped ≡ name 1 1 ∷ name 1 2 ∷ name 1 4 ∷ [] }
    ensures a_value { value_of gapped (name 1 2) ≡ Some 6 }
    ensures no_value { value_of gapped (name 1 3) ≡ None }
    ensures another_value { with_value gapped (name 1 2) 9
        ≡ (name 1 1, 5) ∷ (name 1 2, 9) ∷ (name 1 4, 7) ∷ [] }
    ensures the_values_up_to_a_gap { window_of 1 gapped ≡ 5 ∷ 6 ∷ [] }
{}

/// A sender's values by number: those without a gap, then those above it.
pub fn rows_of_senders()
    ensures counted { counted_from {V = ℕ} 3 (5 ∷ 6 ∷ []) ≡ (3, 5) ∷ (4, 6) ∷ [] }
    ensures with_a_gap { pairs_of {V = ℕ} (record
        { low = 5 ∷ 6 ∷ []; above = (4, 7) ∷ []; reserved = None })
        ≡ (1, 5) ∷ (2, 6) ∷ (4, 7) ∷ [] }
    ensures under_names { named {V = ℕ} 2 ((1, 5) ∷ (3, 6) ∷ []) ≡ (name 2 1, 5) ∷ (name 2 3, 6) ∷ [] }
    ensures of_two_senders { entries_from {V = ℕ} 1
        (record { low = 5 ∷ 6 ∷ []; above = []; reserved = None }
        ∷ record { low = 7 ∷ []; above = []; reserved = None } ∷ [])
        ≡ (name 1 1, 5) ∷ (name 1 2, 6) ∷ (name 2 1, 7) ∷ [] }
{}

/// Windows hold names in rising order, each within the limits of names.
pub fn what_windows_are()
    ensures without_entries { IsWindowSet (windows []) }
    ensures in_falling_order { IsWindowSet
        (windows ((name 1 2, 5) ∷ (name 1 1, 6) ∷ [])) → ⊥ }
    ensures of_sender_eight { IsWindowSet (windows ((name 8 1, 5) ∷ [])) → ⊥ }
{}
