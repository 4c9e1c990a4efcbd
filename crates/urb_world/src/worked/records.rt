//! Lists of records: what they hold and certify, and the rules that each record keeps.
//!
//! Each row is one case of a word. A word that leaves the case out, or turns it round, is refused
//! here.
ghost use Rattle.std.specs.Prelude.{[], ◌∷◌, ◌≡◌, Some, false, true};
ghost use Rattle.urb_names.specs.Names.{name};
ghost use Rattle.urb_stable.specs.DeliveredLogs.{entries, entries_of, log};
ghost use Rattle.urb_stable.specs.Entries.{name_of};
ghost use Rattle.urb_stable.specs.Fitting.{KeepsOwn, held_by_majority, in_range, is_in_turn};
ghost use Rattle.urb_stable.specs.Fitting.{is_new_to, is_next_own, keeps_a, keeps_b, keeps_c};
ghost use Rattle.urb_stable.specs.Fitting.{broken, keeps, keeps_d};
ghost use Rattle.urb_names.specs.declared.refusal.Rule.TheVariants.{A, B, C, D};
ghost use Rattle.urb_stable.specs.Records.{cert, pend};
ghost use Rattle.urb_stable.specs.declared.record.Record.TheVariants.{Cert, Pend, PendCert};
ghost use Rattle.urb_world.specs.World.{image_of};
ghost use Rattle.urb_world.specs.internal.Examples.{certified, held_by_three, limits, pending};
ghost use Rattle.urb_world.specs.internal.Scripts.{message};

/// The pairs of a list of records, and the names of its certificates.
pub fn what_records_hold()
    ensures pairs { pend (pending 1 1 ∷ certified 2 1 ∷ Cert (name 1 1) ∷ pending 1 2 ∷ [])
        ≡ (name 1 1, message 7 1 "") ∷ (name 2 1, message 7 1 "") ∷ (name 1 2, message 7 2 "")
        ∷ [] }
    ensures certificates { cert (pending 1 1 ∷ certified 2 1 ∷ Cert (name 1 1) ∷ pending 1 2 ∷ [])
        ≡ name 2 1 ∷ name 1 1 ∷ [] }
    ensures name_of_a_pair { name_of (pending 2 3) ≡ name 2 3 }
    ensures name_of_a_certified_pair { name_of (certified 2 3) ≡ name 2 3 }
    ensures name_of_a_certificate { name_of (Cert (name 2 3)) ≡ name 2 3 }
{}

/// The log of a list of records, and its entries of one sender.
pub fn what_records_deliver()
    ensures names { log (certified 1 1 ∷ certified 2 1 ∷ certified 1 2 ∷ [])
        ≡ name 1 1 ∷ name 2 1 ∷ name 1 2 ∷ [] }
    ensures all { entries (certified 1 1 ∷ certified 2 1 ∷ certified 1 2 ∷ [])
        ≡ (name 1 1, Some (message 7 1 "")) ∷ (name 2 1, Some (message 7 1 ""))
        ∷ (name 1 2, Some (message 7 2 "")) ∷ [] }
    ensures of_one_sender { entries_of 1 (certified 1 1 ∷ certified 2 1 ∷ certified 1 2 ∷ [])
        ≡ (name 1 1, Some (message 7 1 "")) ∷ (name 1 2, Some (message 7 2 "")) ∷ [] }
{}

/// A name is in range if its sender is a node of the group, and its number is within the cap.
pub fn names_in_range()
    ensures of_one_node { in_range (limits 1 10) (name 1 10) ≡ true }
    ensures over_one_node { in_range (limits 1 10) (name 2 1) ≡ false }
    ensures of_three_nodes { in_range (limits 3 10) (name 3 10) ≡ true }
    ensures over_three_nodes { in_range (limits 3 10) (name 4 1) ≡ false }
    ensures of_four_nodes { in_range (limits 4 10) (name 4 10) ≡ true }
    ensures over_four_nodes { in_range (limits 4 10) (name 5 1) ≡ false }
    ensures of_six_nodes { in_range (limits 6 10) (name 6 10) ≡ true }
    ensures over_six_nodes { in_range (limits 6 10) (name 7 1) ≡ false }
    ensures of_seven_nodes { in_range (limits 7 10) (name 7 10) ≡ true }
    ensures over_seven_nodes { in_range (limits 7 10) (name 8 1) ≡ false }
    ensures over_the_cap { in_range (limits 3 10) (name 1 11) ≡ false }
    ensures over_the_cap_of_seven { in_range (limits 7 10) (name 1 11) ≡ false }
{}

/// A record is new if its name is in range, and its pair, or its certificate, isn't there yet. A
/// certificate needs its pair.
pub fn new_records()
    ensures pair { is_new_to (limits 7 10) [] [] (pending 7 1) ≡ true }
    ensures pair_out_of_range { is_new_to (limits 7 10) [] [] (pending 8 1) ≡ false }
    ensures pair_again { is_new_to (limits 7 10) ((name 7 1, message 7 1 "") ∷ []) [] (pending 7 1)
        ≡ false }
    ensures certified_pair { is_new_to (limits 7 10) [] [] (certified 7 1) ≡ true }
    ensures certified_pair_out_of_range { is_new_to (limits 7 10) [] [] (certified 8 1) ≡ false }
    ensures certified_pair_again { is_new_to (limits 7 10) ((name 7 1, message 7 1 "") ∷ []) []
        (certified 7 1) ≡ false }
    ensures certificate { is_new_to (limits 7 10) ((name 7 1, message 7 1 "") ∷ []) []
        (Cert (name 7 1)) ≡ true }
    ensures certificate_out_of_range { is_new_to (limits 7 10) ((name 8 1, message 7 1 "") ∷ []) []
        (Cert (name 8 1)) ≡ false }
    ensures certificate_without_its_pair { is_new_to (limits 7 10) [] [] (Cert (name 7 1)) ≡ false }
    ensures certificate_again { is_new_to (limits 7 10) ((name 7 1, message 7 1 "") ∷ [])
        (name 7 1 ∷ []) (Cert (name 7 1)) ≡ false }
    ensures of_a_group_of_three { is_new_to (limits 3 10) [] [] (pending 3 1) ≡ true }
    ensures of_a_lone_node { is_new_to (limits 1 10) [] [] (pending 2 1) ≡ false }
{}

/// A node's own pairs come in the order of their numbers, and of each client's numbers.
pub fn own_records_in_turn()
    ensures next { is_next_own (message 7 1 "" ∷ []) (name 1 2) (message 7 2 "") ≡ true }
    ensures not_the_next_name { is_next_own (message 7 1 "" ∷ []) (name 1 3) (message 7 2 "")
        ≡ false }
    ensures not_the_next_message { is_next_own (message 7 1 "" ∷ []) (name 1 2) (message 7 3 "")
        ≡ false }
    ensures pair { is_in_turn 1 [] (pending 1 1) ≡ true }
    ensures pair_out_of_turn { is_in_turn 1 [] (pending 1 2) ≡ false }
    ensures pair_of_another { is_in_turn 2 [] (pending 1 2) ≡ true }
    ensures certified_pair { is_in_turn 1 [] (certified 1 1) ≡ true }
    ensures certified_pair_out_of_turn { is_in_turn 1 [] (certified 1 2) ≡ false }
    ensures certified_pair_of_another { is_in_turn 2 [] (certified 1 2) ≡ true }
    ensures certificate { is_in_turn 1 [] (Cert (name 1 2)) ≡ true }
{}

/// The rules that concern an image alone: A, that each record is new, and B, that own pairs come in
/// their turn.
pub fn rules_of_an_image()
    ensures new_in_one { keeps_a (limits 1 10) [] (pending 1 1) ≡ true }
    ensures new_in_three { keeps_a (limits 3 10) [] (pending 3 1) ≡ true }
    ensures new_in_four { keeps_a (limits 4 10) [] (pending 4 1) ≡ true }
    ensures new_in_six { keeps_a (limits 6 10) [] (pending 6 1) ≡ true }
    ensures new_in_seven { keeps_a (limits 7 10) [] (pending 7 1) ≡ true }
    ensures again_in_three { keeps_a (limits 3 10) (pending 3 1 ∷ []) (pending 3 1) ≡ false }
    ensures again_in_four { keeps_a (limits 4 10) (pending 4 1 ∷ []) (pending 4 1) ≡ false }
    ensures again_in_seven { keeps_a (limits 7 10) (pending 7 1 ∷ []) (pending 7 1) ≡ false }
    ensures certified_again { keeps_a (limits 7 10) (certified 7 1 ∷ []) (Cert (name 7 1))
        ≡ false }
    ensures next { keeps_b 1 (pending 1 1 ∷ []) (pending 1 2) ≡ true }
    ensures next_of_another { keeps_b 1 (pending 2 1 ∷ []) (pending 1 1) ≡ true }
    ensures not_the_next { keeps_b 1 (pending 1 1 ∷ []) (pending 1 3) ≡ false }
{}

/// The rules between images: C, that a sender has each pair of its own that another node has, and
/// D, that a majority has each certified pair.
pub fn rules_between_images()
    ensures own { keeps_c (image_of []) 1 (pending 1 1) ≡ true }
    ensures of_its_sender { keeps_c (image_of ((pending 1 1 ∷ []) ∷ [])) 2 (pending 1 1) ≡ true }
    ensures of_nobody { keeps_c (image_of []) 2 (pending 1 1) ≡ false }
    ensures own_certified { keeps_c (image_of []) 1 (certified 1 1) ≡ true }
    ensures certified_of_its_sender { keeps_c (image_of ((pending 1 1 ∷ []) ∷ [])) 2 (certified 1 1)
        ≡ true }
    ensures certified_of_nobody { keeps_c (image_of []) 2 (certified 1 1) ≡ false }
    ensures a_certificate { keeps_c (image_of []) 2 (Cert (name 1 1)) ≡ true }
    ensures pending_at_one { keeps_d 7 (image_of []) [] (pending 1 1) ≡ true }
    ensures certified_at_three_of_four { keeps_d 4 (image_of (held_by_three ([] ∷ []))) []
        (certified 1 1) ≡ true }
    ensures certified_at_three_of_seven { keeps_d 7
        (image_of (held_by_three ([] ∷ [] ∷ [] ∷ [] ∷ []))) [] (certified 1 1) ≡ false }
    ensures certificate_at_three_of_four { keeps_d 4 (image_of (held_by_three ([] ∷ [])))
        (pending 1 1 ∷ []) (Cert (name 1 1)) ≡ true }
    ensures certificate_at_three_of_seven { keeps_d 7
        (image_of (held_by_three ([] ∷ [] ∷ [] ∷ [] ∷ []))) (pending 1 1 ∷ []) (Cert (name 1 1))
        ≡ false }
    ensures certificate_without_its_pair { keeps_d 1 (image_of ((pending 1 1 ∷ []) ∷ [])) []
        (Cert (name 1 1)) ≡ false }
    ensures held_by_three_of_six { held_by_majority 6 (image_of (held_by_three ([] ∷ [] ∷ [] ∷ [])))
        (name 1 1) (message 7 1 "") ≡ false }
    ensures another_message_held { held_by_majority 3 (image_of (held_by_three [])) (name 1 1)
        (message 7 1 "a") ≡ false }
{}

/// Lists of records that keep the rules of their own image, and lists that don't, in groups of any
/// size.
pub fn images_by_themselves()
    ensures of_a_lone_node { KeepsOwn (limits 1 10) 1 [] (certified 1 1 ∷ certified 1 2 ∷ []) }
    ensures of_three_nodes { KeepsOwn (limits 3 10) 1 []
        (pending 3 2 ∷ pending 1 1 ∷ Cert (name 3 2) ∷ []) }
    ensures of_four_nodes { KeepsOwn (limits 4 10) 1 []
        (pending 4 2 ∷ pending 1 1 ∷ Cert (name 4 2) ∷ []) }
    ensures of_six_nodes { KeepsOwn (limits 6 10) 1 []
        (pending 6 2 ∷ pending 1 1 ∷ Cert (name 6 2) ∷ []) }
    ensures of_seven_nodes { KeepsOwn (limits 7 10) 1 []
        (pending 7 2 ∷ pending 1 1 ∷ Cert (name 7 2) ∷ []) }
    ensures the_same_pair_twice { KeepsOwn (limits 7 10) 1 [] (pending 7 1 ∷ pending 7 1 ∷ [])
        → ⊥ }
    ensures out_of_turn { KeepsOwn (limits 7 10) 1 [] (pending 1 1 ∷ pending 1 3 ∷ []) → ⊥ }
    ensures out_of_range { KeepsOwn (limits 4 10) 1 [] (pending 5 1 ∷ []) → ⊥ }
    ensures first_out_of_turn { KeepsOwn (limits 4 10) 1 [] (pending 1 2 ∷ []) → ⊥ }
{}

/// Each rule in a group of seven, and a record that breaks two of them.
pub fn rules_of_seven()
    ensures a { keeps (limits 7 10) (image_of []) 1 [] (pending 7 1) A ≡ true }
    ensures no_a { keeps (limits 7 10) (image_of []) 1 [] (pending 8 1) A ≡ false }
    ensures b { keeps (limits 7 10) (image_of []) 1 [] (pending 1 1) B ≡ true }
    ensures no_b { keeps (limits 7 10) (image_of []) 1 [] (pending 1 2) B ≡ false }
    ensures c { keeps (limits 7 10) (image_of ((pending 1 1 ∷ []) ∷ [])) 2 [] (pending 1 1) C
        ≡ true }
    ensures no_c { keeps (limits 7 10) (image_of []) 2 [] (pending 1 1) C ≡ false }
    ensures d { keeps (limits 4 10) (image_of (held_by_three [])) 1 [] (certified 1 1) D ≡ true }
    ensures no_d { keeps (limits 7 10) (image_of (held_by_three [])) 1 [] (certified 1 1) D
        ≡ false }
    ensures two_at_once { broken (limits 7 10) (image_of []) 1 [] (certified 1 2)
        ≡ record { rule = B; node = 1; name = name 1 2 }
        ∷ record { rule = D; node = 1; name = name 1 2 } ∷ [] }
{}
