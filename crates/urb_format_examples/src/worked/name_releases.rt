//! The log of a node, and what certificates release to it.
ghost use Rattle.std.specs.Prelude.{[], ◌∷◌, ◌≡◌};
ghost use Rattle.urb_names.specs.Names.{name};
ghost use Rattle.urb_fifo.specs.Delivery.{IsDelivery, IsNameOf, IsReleaseOf};
ghost use Rattle.urb_fifo.specs.NewReleases.{certifying, newly_released};
ghost use Rattle.urb_format_examples.specs.internal.SetExamples.{limits, logging};

/// A name of a group has one of its nodes as its sender, and a number up to the cap.
pub fn names_of_groups()
    ensures the_last_of_three { IsNameOf (limits 3 10) (name 3 10) }
    ensures the_last_of_four { IsNameOf (limits 4 10) (name 4 10) }
    ensures of_no_sender { IsNameOf (limits 3 10) (name 0 1) → ⊥ }
    ensures of_a_fourth_node { IsNameOf (limits 3 10) (name 4 1) → ⊥ }
    ensures over_the_cap { IsNameOf (limits 3 10) (name 3 11) → ⊥ }
    ensures of_a_fifth_node { IsNameOf (limits 4 10) (name 5 1) → ⊥ }
{}

/// A log is the release of certificates, and just these names are certified.
pub fn what_certificates_release()
    ensures just_these { IsReleaseOf (name 1 1 ∷ name 1 2 ∷ [])
        (logging (limits 3 10) (name 1 1 ∷ name 1 2 ∷ []) (name 1 1 ∷ name 1 2 ∷ [])) }
    ensures another_log { IsReleaseOf (name 1 1 ∷ [])
        (logging (limits 3 10) (name 1 1 ∷ []) []) → ⊥ }
    ensures other_certificates { IsReleaseOf (name 1 1 ∷ [])
        (logging (limits 3 10) (name 1 1 ∷ name 1 2 ∷ []) (name 1 1 ∷ [])) → ⊥ }
{}

/// Certified names rise within the limits of the group.
pub fn what_a_log_rests_on()
    ensures nothing_yet { IsDelivery (logging (limits 3 10) [] []) }
    ensures a_group_without_nodes { IsDelivery (logging (limits 0 10) [] []) → ⊥ }
    ensures certificates_that_fall { IsDelivery (logging (limits 3 10)
        (name 1 2 ∷ name 1 1 ∷ []) (name 1 1 ∷ name 1 2 ∷ [])) → ⊥ }
    ensures a_certificate_over_the_cap { IsDelivery
        (logging (limits 3 10) (name 1 11 ∷ []) []) → ⊥ }
{}

/// One more certificate releases all that it completes.
pub fn what_one_more_certificate_does()
    ensures released_names { newly_released [] (name 1 2 ∷ []) (name 1 1)
        ≡ name 1 1 ∷ name 1 2 ∷ [] }
    ensures a_first_one { certifying (logging (limits 3 10) (name 1 2 ∷ []) []) (name 1 1)
        ≡ logging (limits 3 10) (name 1 1 ∷ name 1 2 ∷ []) (name 1 1 ∷ name 1 2 ∷ []) }
    ensures the_same_again { certifying
        (logging (limits 3 10) (name 1 1 ∷ []) (name 1 1 ∷ [])) (name 1 1)
        ≡ logging (limits 3 10) (name 1 1 ∷ []) (name 1 1 ∷ []) }
{}
