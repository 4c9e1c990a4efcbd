//! What a node holds as pending.
ghost use Rattle.std.specs.Prelude.{[], ◌∷◌, ◌≡◌, false, true};
ghost use Rattle.urb_names.specs.Names.{name};
ghost use Rattle.urb_pending.specs.PendingSet.{IsPendingSet, is_within};
ghost use Rattle.urb_format_examples.specs.internal.SetExamples.{holding, limits};

/// A group may use the names of its nodes, numbered from 1 to the cap.
pub fn names_of_a_group()
    ensures the_last_of_three { is_within (limits 3 10) (name 3 10) ≡ true }
    ensures a_fourth_of_three { is_within (limits 3 10) (name 4 1) ≡ false }
    ensures the_last_of_four { is_within (limits 4 10) (name 4 10) ≡ true }
    ensures a_fifth_of_four { is_within (limits 4 10) (name 5 1) ≡ false }
    ensures without_a_number { is_within (limits 4 10) (name 4 0) ≡ false }
    ensures over_the_cap { is_within (limits 4 10) (name 4 11) ≡ false }
{}

/// Pending names rise within the limits, and the node's own are numbered from 1.
pub fn what_a_node_may_hold()
    ensures two_of_its_own { IsPendingSet
        (holding (limits 3 10) (name 1 1 ∷ name 1 2 ∷ name 2 4 ∷ [])) }
    ensures in_a_group_without_nodes { IsPendingSet (holding (limits 0 10) []) → ⊥ }
    ensures in_falling_order { IsPendingSet
        (holding (limits 3 10) (name 2 2 ∷ name 2 1 ∷ [])) → ⊥ }
    ensures of_a_fourth_node { IsPendingSet (holding (limits 3 10) (name 4 1 ∷ [])) → ⊥ }
    ensures its_second_without_its_first { IsPendingSet
        (holding (limits 3 10) (name 1 2 ∷ [])) → ⊥ }
{}
