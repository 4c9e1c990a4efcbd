//! Lists in rising order, and space that is reserved for one name.
ghost use Rattle.std.specs.Prelude.{[], ◌∷◌, ◌≡◌, None, Some, false, nat_lt, true};
ghost use Rattle.urb_names.specs.Names.{name, name_lt};
ghost use Rattle.urb_names.specs.RisingLists.{is_rising, placed, reserved_for};

/// A list rises if each element comes before all later ones.
pub fn rising_lists()
    ensures of_none { is_rising nat_lt [] ≡ true }
    ensures of_three { is_rising nat_lt (1 ∷ 2 ∷ 3 ∷ []) ≡ true }
    ensures falling_at_once { is_rising nat_lt (2 ∷ 1 ∷ []) ≡ false }
    ensures falling_later { is_rising nat_lt (1 ∷ 3 ∷ 2 ∷ []) ≡ false }
{}

/// An element goes behind all those at the front that come before it.
pub fn placed_elements()
    ensures at_the_front { placed nat_lt (2 ∷ 3 ∷ []) 1 ≡ 1 ∷ 2 ∷ 3 ∷ [] }
    ensures in_the_middle { placed name_lt (name 1 1 ∷ name 1 3 ∷ []) (name 1 2)
        ≡ name 1 1 ∷ name 1 2 ∷ name 1 3 ∷ [] }
{}

/// A reservation stays for the name that it was made for, and is gone after any other one.
pub fn reservations()
    ensures of_no_name { reserved_for None (name 1 1) ≡ None }
    ensures of_this_name { reserved_for (Some (name 1 1)) (name 1 1) ≡ Some (name 1 1) }
    ensures of_another_name { reserved_for (Some (name 1 2)) (name 1 1) ≡ None }
{}
