//! Names, messages, numbers of nodes and majorities: their words on small values.
//!
//! Each row is one case of a word. A word that leaves the case out, or turns it round, is refused
//! here.
ghost use Rattle.std.specs.Prelude.{[], ◌∷◌, ◌==◌, ◌||◌, ◌≡◌, None, Some, false, nat_lt, true};
ghost use Rattle.urb_names.specs.LabelsAndContents.{IsContent, IsLabel, IsLimits};
ghost use Rattle.urb_names.specs.ListPrefixes.{Begins, OneBegins};
ghost use Rattle.urb_names.specs.Names.{has_name, name, names, same_message, same_name};
ghost use Rattle.urb_names.specs.Nodes.{is_majority, is_node, majority_passes, nodes};
ghost use Rattle.urb_names.specs.Nodes.{numbers_from};
ghost use Rattle.urb_names.specs.Pairs.{has_pair, is_numbered, message_of, next_number, own};
ghost use Rattle.urb_names.specs.Release.{beginning, part_of, released};
ghost use Rattle.urb_stable.specs.Entries.{IsEntry};
ghost use Rattle.urb_stable.specs.declared.record.Record.TheVariants.{Cert, Pend, PendCert};
ghost use Rattle.urb_world.specs.internal.Examples.{certified, filled, limits, pending};
ghost use Rattle.urb_world.specs.internal.Scripts.{message};

/// Two names are the same if they have the same sender and the same number.
pub fn same_names()
    ensures same { same_name (name 2 1) (name 2 1) ≡ true }
    ensures another_sender { same_name (name 2 1) (name 3 1) ≡ false }
    ensures another_number { same_name (name 2 1) (name 2 2) ≡ false }
{}

/// Two messages are the same if they have the same client, number and payload.
pub fn same_messages()
    ensures same { same_message (message 7 1 "a") (message 7 1 "a") ≡ true }
    ensures another_client { same_message (message 7 1 "a") (message 8 1 "a") ≡ false }
    ensures another_number { same_message (message 7 1 "a") (message 7 2 "a") ≡ false }
    ensures another_payload { same_message (message 7 1 "a") (message 7 1 "b") ≡ false }
    ensures a_longer_payload { same_message (message 7 1 "a") (message 7 1 "aa") ≡ false }
    ensures a_long_payload { same_message (filled 7 1 1001) (filled 7 1 1001) ≡ true }
{}

/// Numbers in a row, the names of a sender, and the nodes of a group.
pub fn numbers_in_a_row()
    ensures none { numbers_from 4 0 ≡ [] }
    ensures three { numbers_from 4 3 ≡ 4 ∷ 5 ∷ 6 ∷ [] }
    ensures names_of_a_sender { names 2 3 ≡ name 2 1 ∷ name 2 2 ∷ name 2 3 ∷ [] }
    ensures one_node { nodes 1 ≡ 1 ∷ [] }
    ensures three_nodes { nodes 3 ≡ 1 ∷ 2 ∷ 3 ∷ [] }
    ensures four_nodes { nodes 4 ≡ 1 ∷ 2 ∷ 3 ∷ 4 ∷ [] }
    ensures six_nodes { nodes 6 ≡ 1 ∷ 2 ∷ 3 ∷ 4 ∷ 5 ∷ 6 ∷ [] }
    ensures seven_nodes { nodes 7 ≡ 1 ∷ 2 ∷ 3 ∷ 4 ∷ 5 ∷ 6 ∷ 7 ∷ [] }
{}

/// The nodes of a group are the numbers from 1 to the number of nodes.
pub fn numbers_of_nodes()
    ensures none_is_zero { is_node 7 0 ≡ false }
    ensures the_only_one { is_node 1 1 ≡ true }
    ensures over_one { is_node 1 2 ≡ false }
    ensures the_last_of_three { is_node 3 3 ≡ true }
    ensures over_three { is_node 3 4 ≡ false }
    ensures the_last_of_four { is_node 4 4 ≡ true }
    ensures over_four { is_node 4 5 ≡ false }
    ensures the_last_of_six { is_node 6 6 ≡ true }
    ensures over_six { is_node 6 7 ≡ false }
    ensures the_last_of_seven { is_node 7 7 ≡ true }
    ensures over_seven { is_node 7 8 ≡ false }
{}

/// A majority is more than half of the nodes.
pub fn majorities()
    ensures none_of_one { is_majority 0 1 ≡ false }
    ensures one_of_one { is_majority 1 1 ≡ true }
    ensures one_of_three { is_majority 1 3 ≡ false }
    ensures two_of_three { is_majority 2 3 ≡ true }
    ensures two_of_four { is_majority 2 4 ≡ false }
    ensures three_of_four { is_majority 3 4 ≡ true }
    ensures three_of_six { is_majority 3 6 ≡ false }
    ensures four_of_six { is_majority 4 6 ≡ true }
    ensures three_of_seven { is_majority 3 7 ≡ false }
    ensures four_of_seven { is_majority 4 7 ≡ true }
{}

/// A majority passes a test if more than half of the nodes 1 to n pass it.
pub fn majorities_that_pass()
    ensures the_only_node { majority_passes 1 (is_node 1) ≡ true }
    ensures no_node { majority_passes 1 (is_node 0) ≡ false }
    ensures two_of_three { majority_passes 3 (is_node 2) ≡ true }
    ensures one_of_three { majority_passes 3 (is_node 1) ≡ false }
    ensures three_of_four { majority_passes 4 (is_node 3) ≡ true }
    ensures two_of_four { majority_passes 4 (is_node 2) ≡ false }
    ensures four_of_six { majority_passes 6 (is_node 4) ≡ true }
    ensures three_of_six { majority_passes 6 (is_node 3) ≡ false }
    ensures four_of_seven { majority_passes 7 (is_node 4) ≡ true }
    ensures three_of_seven { majority_passes 7 (is_node 3) ≡ false }
    ensures the_last_four_of_seven { majority_passes 7 (nat_lt 3) ≡ true }
    ensures the_last_three_of_seven { majority_passes 7 (nat_lt 4) ≡ false }
    ensures only_nodes_count { majority_passes 3 (λ p. (p == 0) || (p == 3) || (p == 4)) ≡ false }
{}

/// The pair of a name and its message in a list. The first message under a name counts.
pub fn pairs_in_lists()
    ensures its_message { message_of
        ((name 1 2, message 7 2 "b") ∷ (name 1 1, message 7 1 "a") ∷ []) (name 1 1)
        ≡ Some (message 7 1 "a") }
    ensures the_first { message_of
        ((name 1 1, message 7 1 "a") ∷ (name 1 1, message 7 1 "b") ∷ []) (name 1 1)
        ≡ Some (message 7 1 "a") }
    ensures no_message { message_of ((name 1 2, message 7 2 "b") ∷ []) (name 1 1) ≡ None }
    ensures a_pair { has_pair ((name 1 2, message 7 2 "b") ∷ (name 1 1, message 7 1 "a") ∷ [])
        (name 1 1) (message 7 1 "a") ≡ true }
    ensures another_name { has_pair ((name 1 2, message 7 1 "a") ∷ []) (name 1 1)
        (message 7 1 "a") ≡ false }
    ensures another_message { has_pair ((name 1 1, message 7 1 "b") ∷ []) (name 1 1)
        (message 7 1 "a") ≡ false }
    ensures name_and_message_apart { has_pair
        ((name 1 1, message 7 1 "b") ∷ (name 1 2, message 7 1 "a") ∷ []) (name 1 1)
        (message 7 1 "a") ≡ false }
    ensures a_name { has_name (name 1 2 ∷ name 1 1 ∷ []) (name 1 1) ≡ true }
    ensures no_name { has_name (name 1 2 ∷ name 2 1 ∷ []) (name 1 1) ≡ false }
{}

/// A sender's own messages, in order, and the numbers of clients among them.
pub fn own_messages()
    ensures in_order { own 2 ((name 2 1, message 7 1 "a") ∷ (name 1 1, message 7 1 "b")
        ∷ (name 2 2, message 8 1 "c") ∷ []) ≡ message 7 1 "a" ∷ message 8 1 "c" ∷ [] }
    ensures none { own 3 ((name 2 1, message 7 1 "a") ∷ []) ≡ [] }
    ensures a_first_number { next_number 7 (message 8 1 "a" ∷ []) ≡ 1 }
    ensures a_next_number { next_number 7 (message 7 1 "a" ∷ message 8 1 "b" ∷ message 7 2 "c" ∷ [])
        ≡ 3 }
    ensures numbered { is_numbered 7 1 (message 7 1 "a") ≡ true }
    ensures another_client { is_numbered 7 1 (message 8 1 "a") ≡ false }
    ensures another_number { is_numbered 7 1 (message 7 2 "a") ≡ false }
{}

/// What certificates release: a sender's names from 1 on without a gap.
pub fn released_names()
    ensures of_one_sender { part_of 1 (name 1 2 ∷ name 2 1 ∷ name 1 1 ∷ [])
        ≡ name 1 2 ∷ name 1 1 ∷ [] }
    ensures without_a_gap { beginning 1 (name 1 2 ∷ name 2 3 ∷ name 1 1 ∷ name 1 4 ∷ [])
        ≡ name 1 1 ∷ name 1 2 ∷ [] }
    ensures before_a_gap { beginning 1 (name 1 2 ∷ name 2 1 ∷ []) ≡ [] }
    ensures newest_last { released (name 1 1 ∷ name 2 1 ∷ name 1 2 ∷ [])
        ≡ name 2 1 ∷ name 1 1 ∷ name 1 2 ∷ [] }
    ensures each_once { released (name 1 2 ∷ name 1 1 ∷ []) ≡ name 1 1 ∷ name 1 2 ∷ [] }
{}

/// A list begins another one if the other one goes on behind it.
pub fn beginnings()
    ensures of_a_longer_one { Begins (names 1 1) (names 1 2) }
    ensures of_itself { Begins (names 1 1) (names 1 1) }
    ensures of_a_shorter_one { Begins (names 1 2) (names 1 1) → ⊥ }
    ensures of_another_one { Begins (names 2 1) (names 1 2) → ⊥ }
    ensures neither { OneBegins (names 1 2) (names 2 1) → ⊥ }
{}

/// What the limits of a group have to be.
pub fn limits_of_groups()
    ensures the_least { IsLimits (limits 1 1) }
    ensures three_nodes { IsLimits (limits 3 10) }
    ensures four_nodes { IsLimits (limits 4 10) }
    ensures six_nodes { IsLimits (limits 6 10) }
    ensures the_greatest { IsLimits (limits 7 1000000) }
    ensures no_node { IsLimits (limits 0 10) → ⊥ }
    ensures eight_nodes { IsLimits (limits 8 10) → ⊥ }
    ensures no_message { IsLimits (limits 4 0) → ⊥ }
    ensures over_a_million { IsLimits (limits 4 1000001) → ⊥ }
{}

/// What names, messages and records have to be.
pub fn limits_of_records()
    ensures a_name { IsLabel (name 7 1) }
    ensures of_no_sender { IsLabel (name 0 1) → ⊥ }
    ensures of_sender_eight { IsLabel (name 8 1) → ⊥ }
    ensures of_no_number { IsLabel (name 1 0) → ⊥ }
    ensures a_message { IsContent (filled 7 1 1001) }
    ensures of_no_client { IsContent (message 0 1 "") → ⊥ }
    ensures of_no_client_number { IsContent (message 7 0 "") → ⊥ }
    ensures too_long { IsContent (filled 7 1 16385) → ⊥ }
    ensures a_pair { IsEntry (pending 7 1) }
    ensures a_pair_of_no_sender { IsEntry (pending 0 1) → ⊥ }
    ensures a_pair_of_no_client { IsEntry (Pend (name 1 1) (message 0 1 "")) → ⊥ }
    ensures a_certified_pair { IsEntry (certified 7 1) }
    ensures a_certified_pair_of_no_sender { IsEntry (certified 0 1) → ⊥ }
    ensures a_certified_pair_of_no_client { IsEntry (PendCert (name 1 1) (message 0 1 "")) → ⊥ }
    ensures a_certificate { IsEntry (Cert (name 7 1)) }
    ensures a_certificate_of_no_sender { IsEntry (Cert (name 0 1)) → ⊥ }
{}
