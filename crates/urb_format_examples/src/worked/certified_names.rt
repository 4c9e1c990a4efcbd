//! Certified names, and the parts that hold them.
ghost use Rattle.std.specs.Prelude.{[], ◌∷◌, ◌==◌, ◌≡◌, nat_lt};
ghost use Rattle.urb_names.specs.Names.{name};
ghost use Rattle.urb_certified.specs.Certificates.{with_name};
ghost use Rattle.urb_certified.specs.ListSets.{set_of};
ghost use Rattle.urb_certified.specs.Parts.{all_names, rows_from};

/// A name goes to its place once.
pub fn sets_of_names()
    ensures one_more { with_name (name 1 1 ∷ name 1 3 ∷ []) (name 1 2)
        ≡ name 1 1 ∷ name 1 2 ∷ name 1 3 ∷ [] }
    ensures one_that_is_there { with_name (name 1 1 ∷ name 1 3 ∷ []) (name 1 3)
        ≡ name 1 1 ∷ name 1 3 ∷ [] }
    ensures each_once { set_of nat_lt (λ a b. a == b) (3 ∷ 1 ∷ 3 ∷ []) ≡ 1 ∷ 3 ∷ [] }
{}

/// Each sender's names up to its count, and those above a gap.
pub fn names_in_parts()
    ensures of_two_senders { rows_from 1 (2 ∷ 1 ∷ []) ≡ name 1 1 ∷ name 1 2 ∷ name 2 1 ∷ [] }
    ensures in_both_parts { all_names (2 ∷ []) (name 1 4 ∷ [])
        ≡ name 1 4 ∷ name 1 1 ∷ name 1 2 ∷ [] }
{}
