//! Acknowledgements that a node counts, and when they are a majority.
ghost use Rattle.std.specs.Prelude.{[], ◌∷◌, ◌≡◌, None};
ghost use Rattle.urb_names.specs.Names.{name};
ghost use Rattle.urb_majority.specs.AckOutcomes.{answer_of, certifying, counting};
ghost use Rattle.urb_majority.specs.Acks.{IsAckSet};
ghost use Rattle.urb_majority.specs.declared.acks.Noted.TheVariants.{Again, Counted, Reached};
ghost use Rattle.urb_format_examples.specs.internal.SetExamples.{counted};

/// A node counts once for a name. The second of three nodes completes a majority.
pub fn what_an_acknowledgement_does()
    ensures the_first { answer_of (counted [] []) (name 1 1) 1 ≡ Counted }
    ensures the_second { answer_of (counted ((name 1 1, 1) ∷ []) []) (name 1 1) 2 ≡ Reached }
    ensures the_same_again { answer_of (counted ((name 1 1, 1) ∷ []) []) (name 1 1) 1 ≡ Again }
    ensures counted_in_its_place { counting
        (counted ((name 1 1, 1) ∷ (name 1 1, 3) ∷ []) []) (name 1 1) 2
        ≡ record (counted ((name 1 1, 1) ∷ (name 1 1, 2) ∷ (name 1 1, 3) ∷ []) [])
        { reserved = None } }
    ensures counted_before { counting (counted ((name 1 1, 1) ∷ []) []) (name 1 1) 1
        ≡ counted ((name 1 1, 1) ∷ []) [] }
    ensures certified_in_its_place { certifying (counted [] (name 1 2 ∷ [])) (name 1 1)
        ≡ record (counted [] (name 1 1 ∷ name 1 2 ∷ [])) { reserved = None } }
    ensures certified_before { certifying (counted [] (name 1 1 ∷ [])) (name 1 1)
        ≡ counted [] (name 1 1 ∷ []) }
{}

/// Counted pairs and certified names rise.
pub fn what_acknowledgements_are()
    ensures in_order { IsAckSet
        (counted ((name 1 1, 1) ∷ (name 1 1, 2) ∷ []) (name 1 1 ∷ name 1 2 ∷ [])) }
    ensures pairs_that_fall { IsAckSet
        (counted ((name 1 1, 2) ∷ (name 1 1, 1) ∷ []) (name 1 1 ∷ name 1 2 ∷ [])) → ⊥ }
    ensures certificates_that_fall { IsAckSet
        (counted ((name 1 1, 1) ∷ (name 1 1, 2) ∷ []) (name 1 2 ∷ name 1 1 ∷ [])) → ⊥ }
{}
