//! Which names a node lacks, which packets bring them, and what the portions of a feed are.
//!
//! A new group shows the new world of its size: the row that names both supposes it.
ghost use Rattle.std.specs.Prelude.{[], ◌∷◌, ◌≡◌, false, replicate, suc, true};
ghost use Rattle.urb_feed.specs.Feeds.{IsPortion};
ghost use Rattle.urb_feed.specs.MissingNames.{lacks, needed, needed_from, needed_of, offer, offers};
ghost use Rattle.urb_feed.specs.declared.feed.TheConstants.{MOST_PACKETS};
ghost use Rattle.urb_foresight.specs.internal.ForesightExamples.{four_nodes, having_stored};
ghost use Rattle.urb_foresight.specs.internal.ForesightExamples.{the_first};
ghost use Rattle.urb_group.specs.GroupViews.{Shows};
ghost use Rattle.urb_names.specs.Names.{name};
ghost use Rattle.urb_step_examples.specs.internal.ForeseenExamples.{feeding, first_offer};
ghost use Rattle.urb_step_examples.specs.internal.ForeseenExamples.{one_certified};
ghost use Rattle.urb_step_examples.specs.internal.GroupExamples.{new_group, of_no_world};
ghost use Rattle.urb_world.specs.internal.Examples.{flagged, pending};
ghost use Rattle.urb_world.specs.internal.Scripts.{message};

/// A node of the group lacks a name that was sent and that its log doesn't have.
pub fn names_that_a_node_lacks()
    ensures one_that_was_sent { lacks (having_stored (the_first ∷ [])) 2 (name 1 1) ≡ true }
    ensures not_one_of_nobody { lacks four_nodes 2 (name 1 1) ≡ false }
    ensures not_one_that_is_delivered { lacks
        (having_stored (one_certified ∷ one_certified ∷ [])) 2 (name 1 1) ≡ false }
    ensures not_one_of_a_fifth_node { lacks (having_stored (the_first ∷ [])) 5 (name 1 1) ≡ false }
{}

/// Each other node that has a message offers it.
pub fn offers_of_messages()
    ensures by_the_first { offer (having_stored (the_first ∷ [])) 3 (name 1 1) 1
        ≡ first_offer 1 1 ∷ [] }
    ensures by_nobody_to_itself { offer (having_stored (the_first ∷ [])) 1 (name 1 1) 1 ≡ [] }
    ensures by_two { offers (having_stored (the_first ∷ the_first ∷ [])) 3 (name 1 1)
        ≡ first_offer 1 1 ∷ first_offer 1 2 ∷ [] }
{}

/// A node needs all offers of the names that it lacks.
pub fn packets_that_a_node_needs()
    ensures of_a_name { needed (having_stored (the_first ∷ the_first ∷ [])) 3 (name 1 1)
        ≡ first_offer 1 1 ∷ first_offer 1 2 ∷ [] }
    ensures of_no_name_that_it_has { needed
        (having_stored (one_certified ∷ [] ∷ one_certified ∷ [])) 3 (name 1 1) ≡ [] }
    ensures of_a_sender { needed_of (having_stored ((pending 1 1 ∷ pending 1 2 ∷ []) ∷ [])) 3 1 2 1
        ≡ first_offer 1 1 ∷ flagged 0 1 3 1 2 (message 7 2 "") ∷ [] }
    ensures of_two_senders { needed_from (having_stored (the_first ∷ (pending 2 1 ∷ []) ∷ [])) 3 1 1
        ≡ first_offer 1 1 ∷ first_offer 2 2 ∷ [] }
{}

/// A portion goes on by at least one number if one is left, and by none past the end.
pub fn portions_of_a_feed()
    ensures of_no_names { IsPortion (new_group 4) (feeding 1 0 1) (feeding 1 1 1) [] }
    ensures of_nothing_more { IsPortion (new_group 4) (feeding 1 1 1) (feeding 1 1 1) [] }
    ensures no_packet_that_is_not_needed { Shows (new_group 4) four_nodes
        → IsPortion (new_group 4) (feeding 3 0 0) (feeding 3 0 0) (first_offer 1 1 ∷ []) → ⊥ }
    ensures not_for_another_target { IsPortion (of_no_world 4) (feeding 1 0 0) (feeding 2 0 0) []
        → ⊥ }
    ensures not_past_the_end { IsPortion (of_no_world 4) (feeding 1 0 0) (feeding 1 1 0) [] → ⊥ }
    ensures not_without_a_number { IsPortion (of_no_world 4) (feeding 1 0 1) (feeding 1 0 1) []
        → ⊥ }
    ensures not_too_many { IsPortion (of_no_world 4) (feeding 3 0 1) (feeding 3 1 1)
        (replicate (suc MOST_PACKETS) (first_offer 1 1)) → ⊥ }
{}
