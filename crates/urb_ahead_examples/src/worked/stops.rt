//! What a stop may leave after a call, compared with what it left before.

ghost use Rattle.std.specs.Prelude.{List, [], ◌∷◌};
ghost use Rattle.urb_stable.specs.Entries.{Entry};
ghost use Rattle.urb_stable.specs.StoredTogether.{LeavesNoMore};

/// A stop may leave the same lists as before, or fewer.
pub fn stops_that_leave_no_more()
    ensures the_same { (r s : Entry) → LeavesNoMore (λ P. P [] × P (r ∷ s ∷ []))
        (λ P. P [] × P (r ∷ s ∷ [])) }
    ensures fewer { (r : Entry) → LeavesNoMore (λ P. P [] × P (r ∷ [])) (λ P. P []) }
{}

/// A stop may not leave a record that it didn't leave before. Nor may it leave one of two records
/// that it left together.
pub fn stops_that_leave_more()
    ensures a_record { (r : Entry) → LeavesNoMore (λ P. P []) (λ P. P (r ∷ [])) → ⊥ }
    ensures a_record_of_two { (r s : Entry)
        → LeavesNoMore (λ P. P [] × P (r ∷ s ∷ [])) (λ P. P [] × P (r ∷ [])) → ⊥ }
{}
