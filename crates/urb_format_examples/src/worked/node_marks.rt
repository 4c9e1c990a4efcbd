//! Worked examples of marks: the nodes that are marked for a name.
ghost use Rattle.std.specs.Prelude.{[], ◌∷◌, ◌≡◌, None};
ghost use Rattle.urb_names.specs.Names.{name};
ghost use Rattle.urb_window.specs.Marks.{IsMarkSet, with_room};
ghost use Rattle.urb_window.specs.NodeMasks.{marks_in, nodes_in};
ghost use Rattle.urb_format_examples.specs.internal.SetExamples.{marked};

/// The bits of a mask are nodes. Node 1 has the lowest bit.
pub fn nodes_in_masks()
    ensures no_bit { nodes_in 0 ≡ [] }
    ensures two_bits { nodes_in 5 ≡ 1 ∷ 3 ∷ [] }
    ensures of_two_names { marks_in ((name 1 1, 5) ∷ (name 2 1, 2) ∷ [])
        ≡ (name 1 1, 1) ∷ (name 1 1, 3) ∷ (name 2 1, 2) ∷ [] }
{}

/// Marks and names rise, and space for one more name uses up a reservation.
pub fn what_marks_are()
    ensures in_order { IsMarkSet
        (marked ((name 1 1, 1) ∷ (name 1 1, 2) ∷ []) (name 1 1 ∷ name 1 2 ∷ [])) }
    ensures marks_that_fall { IsMarkSet
        (marked ((name 1 1, 2) ∷ (name 1 1, 1) ∷ []) (name 1 1 ∷ name 1 2 ∷ [])) → ⊥ }
    ensures names_that_fall { IsMarkSet
        (marked ((name 1 1, 1) ∷ (name 1 1, 2) ∷ []) (name 1 2 ∷ name 1 1 ∷ [])) → ⊥ }
    ensures more_space { with_room (marked [] (name 1 1 ∷ [])) (name 1 2)
        ≡ record (marked [] (name 1 1 ∷ name 1 2 ∷ [])) { reserved = None } }
    ensures space_that_is_there { with_room (marked [] (name 1 1 ∷ [])) (name 1 1)
        ≡ marked [] (name 1 1 ∷ []) }
{}
