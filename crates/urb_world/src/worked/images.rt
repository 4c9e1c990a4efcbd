//! Images of the nodes' storages that fit together, and the first misfit of others.
ghost use Rattle.std.specs.Prelude.{◌≡◌, [], ◌∷◌, None};
ghost use Rattle.urb_names.specs.Names.{name};
ghost use Rattle.urb_names.specs.declared.refusal.Rule.TheVariants.{A, B, C, D};
ghost use Rattle.urb_stable.specs.DeliveredLogs.{log};
ghost use Rattle.urb_stable.specs.declared.record.Record.TheVariants.{Pend, PendCert, Cert};
ghost use Rattle.urb_node.specs.Part.{Ready};
ghost use Rattle.urb_world.specs.World.{image_of, opened, stored};
ghost use Rattle.urb_world.specs.internal.Scripts.{message};
ghost use Rattle.urb_world.specs.internal.Examples.{pending, certified, limits, Judged, misfit};
ghost use Rattle.urb_world.specs.internal.Examples.{two_of_one};

/// Images that fit together.
pub fn fitting_images()
    ensures of_a_lone_node { Judged 1 10 ((certified 1 1 ∷ []) ∷ []) None }
    ensures of_a_new_group { Judged 3 10 ([] ∷ [] ∷ [] ∷ []) None }
    ensures certified_at_a_relay { Judged 3 10
        ((pending 1 1 ∷ []) ∷ (certified 1 1 ∷ []) ∷ [] ∷ []) None }
    ensures delivered_at_the_relay { log (certified 1 1 ∷ []) ≡ name 1 1 ∷ [] }
    ensures certified_behind_the_pair { Judged 3 10
        ((pending 1 1 ∷ Cert (name 1 1) ∷ []) ∷ (certified 1 1 ∷ []) ∷ [] ∷ []) None }
    ensures in_other_orders { Judged 3 10
        ((pending 1 1 ∷ []) ∷ (pending 2 1 ∷ []) ∷ (certified 1 1 ∷ certified 2 1 ∷ []) ∷ []) None }
    ensures later_number_first_at_a_relay { Judged 3 10
        ((pending 1 1 ∷ pending 1 2 ∷ []) ∷ (certified 1 2 ∷ []) ∷ [] ∷ []) None }
    ensures own_behind_a_relay { Judged 2 10
        ((pending 1 1 ∷ []) ∷ (pending 1 1 ∷ pending 2 1 ∷ []) ∷ []) None }
    ensures own_certified_behind_a_relay { Judged 3 10
        ((pending 1 1 ∷ pending 2 1 ∷ []) ∷ (pending 1 1 ∷ certified 2 1 ∷ []) ∷ [] ∷ []) None }
    ensures certified_before_another_node_held_it { Judged 3 10
        ((pending 1 1 ∷ Cert (name 1 1) ∷ []) ∷ (pending 2 1 ∷ pending 2 2 ∷ pending 1 1 ∷ []) ∷ []
        ∷ []) None }
    ensures as_many_as_the_cap { Judged 1 2 ((certified 1 1 ∷ certified 1 2 ∷ []) ∷ []) None }
    ensures each_client_counts_for_itself { Judged 1 10
        ((PendCert (name 1 1) (message 7 1 "a") ∷ PendCert (name 1 2) (message 8 1 "b") ∷ PendCert
        (name 1 3) (message 7 2 "c") ∷ []) ∷ []) None }
{}

/// A name out of range, a second pair under a name, and a certificate that has no pair or isn't the
/// first.
pub fn misfits_of_a_name()
    ensures certificate_without_a_pair { Judged 3 10 ((Cert (name 1 1) ∷ []) ∷ [] ∷ [] ∷ [])
        (misfit A 1 1 1) }
    ensures certificate_before_its_pair { Judged 1 10 ((Cert (name 1 1) ∷ pending 1 1 ∷ []) ∷ [])
        (misfit A 1 1 1) }
    ensures second_certificate { Judged 1 10 ((certified 1 1 ∷ Cert (name 1 1) ∷ []) ∷ [])
        (misfit A 1 1 1) }
    ensures third_certificate { Judged 1 10
        ((pending 1 1 ∷ Cert (name 1 1) ∷ Cert (name 1 1) ∷ []) ∷ []) (misfit A 1 1 1) }
    ensures second_pair { Judged 2 10 ((pending 1 1 ∷ []) ∷ (pending 1 1 ∷ pending 1 1 ∷ []) ∷ [])
        (misfit A 2 1 1) }
    ensures second_pair_certified { Judged 2 10
        ((pending 1 1 ∷ []) ∷ (pending 1 1 ∷ certified 1 1 ∷ []) ∷ []) (misfit A 2 1 1) }
    ensures sender_is_no_node { Judged 2 10 ((pending 1 1 ∷ pending 3 1 ∷ []) ∷ [] ∷ [])
        (misfit A 1 3 1) }
    ensures number_over_the_cap { Judged 1 1 ((certified 1 1 ∷ certified 1 2 ∷ []) ∷ [])
        (misfit A 1 1 2) }
    ensures over_the_cap_before_its_turn { Judged 1 3 ((pending 1 4 ∷ []) ∷ []) (misfit A 1 1 4) }
    ensures second_own_pair_before_its_turn { Judged 2 10
        ((pending 1 1 ∷ pending 1 1 ∷ []) ∷ [] ∷ []) (misfit A 1 1 1) }
    ensures over_the_cap_before_its_holders { Judged 3 1
        ((pending 1 1 ∷ certified 1 2 ∷ []) ∷ [] ∷ [] ∷ []) (misfit A 1 1 2) }
    ensures pending_over_the_cap { Judged 2 1 ((pending 1 1 ∷ pending 1 2 ∷ []) ∷ [] ∷ [])
        (misfit A 1 1 2) }
{}

/// A pair of the node's own that isn't the next one of the node, or of its client.
pub fn misfits_of_an_own_pair()
    ensures skips_a_number { Judged 3 10 ((pending 1 2 ∷ []) ∷ [] ∷ [] ∷ []) (misfit B 1 1 2) }
    ensures skips_a_number_and_no_client_number { Judged 3 10
        ((Pend (name 1 2) (message 7 1 "") ∷ []) ∷ [] ∷ [] ∷ []) (misfit B 1 1 2) }
    ensures leaves_a_number_out { Judged 3 10
        ((pending 1 1 ∷ pending 1 3 ∷ pending 1 2 ∷ []) ∷ [] ∷ [] ∷ []) (misfit B 1 1 3) }
    ensures skips_a_client_number { Judged 1 10 ((PendCert (name 1 1) (message 7 2 "") ∷ []) ∷ [])
        (misfit B 1 1 1) }
    ensures repeats_a_client_number { Judged 2 10
        ((pending 1 1 ∷ Pend (name 1 2) (message 7 1 "") ∷ []) ∷ [] ∷ []) (misfit B 1 1 2) }
    ensures counts_another_client { Judged 1 10
        ((PendCert (name 1 1) (message 7 1 "") ∷ PendCert (name 1 2) (message 8 2 "") ∷ []) ∷ [])
        (misfit B 1 1 2) }
{}

/// A pair that its sender doesn't hold, or that too few nodes hold.
pub fn misfits_between_nodes()
    ensures sender_holds_none { Judged 3 10 ([] ∷ (certified 1 1 ∷ []) ∷ [] ∷ []) (misfit C 2 1 1) }
    ensures sender_holds_another_payload { Judged 2 10
        ((pending 1 1 ∷ []) ∷ (Pend (name 1 1) (message 7 1 "a") ∷ []) ∷ []) (misfit C 2 1 1) }
    ensures sender_holds_another_payload_than_is_certified { Judged 2 10
        ((pending 1 1 ∷ []) ∷ (PendCert (name 1 1) (message 7 1 "a") ∷ []) ∷ []) (misfit C 2 1 1) }
    ensures sender_lacks_the_later_one { Judged 3 10
        ((pending 1 1 ∷ []) ∷ (certified 1 1 ∷ pending 1 2 ∷ []) ∷ [] ∷ []) (misfit C 2 1 2) }
    ensures one_of_three_holds_it { Judged 3 10 ((certified 1 1 ∷ []) ∷ [] ∷ [] ∷ [])
        (misfit D 1 1 1) }
    ensures one_of_three_and_a_certificate { Judged 3 10
        ((pending 1 1 ∷ Cert (name 1 1) ∷ []) ∷ [] ∷ [] ∷ []) (misfit D 1 1 1) }
    ensures half_hold_it { Judged 4 10 ((certified 1 1 ∷ []) ∷ (pending 1 1 ∷ []) ∷ [] ∷ [] ∷ [])
        (misfit D 1 1 1) }
    ensures holders_of_another_message_do_not_count { Judged 2 10
        ((certified 1 1 ∷ []) ∷ (Pend (name 1 1) (message 7 1 "a") ∷ []) ∷ []) (misfit D 1 1 1) }
    ensures first_by_node { Judged 3 10
        ((pending 1 1 ∷ certified 1 2 ∷ []) ∷ (Cert (name 1 1) ∷ []) ∷ [] ∷ []) (misfit D 1 1 2) }
    ensures then_by_position { Judged 3 10 ((certified 1 1 ∷ Cert (name 1 2) ∷ []) ∷ [] ∷ [] ∷ [])
        (misfit D 1 1 1) }
    ensures then_by_rule { Judged 3 10 ((certified 2 1 ∷ []) ∷ [] ∷ [] ∷ []) (misfit C 1 2 1) }
    ensures own_before_the_others { Judged 3 10 ((certified 1 2 ∷ []) ∷ [] ∷ [] ∷ [])
        (misfit B 1 1 2) }
{}

/// The group that images open.
pub fn opened_groups()
    ensures its_records { stored (opened (limits 2 10) (image_of ([] ∷ two_of_one ∷ []))) 2
        ≡ two_of_one }
    ensures own_messages_in_order { (opened (limits 1 10)
        (image_of ((certified 1 1 ∷ certified 1 2 ∷ []) ∷ []))).node 1
        ≡ record {
          records = certified 1 1 ∷ certified 1 2 ∷ [];
          state = Ready;
          acks = (name 1 1, 1) ∷ (name 1 2, 1) ∷ [];
          heard = [];
          cursor = None;
          broadcast = message 7 1 "" ∷ message 7 2 "" ∷ [];
        } }
    ensures nothing_was_sent { (opened (limits 2 10)
        (image_of ((pending 1 1 ∷ []) ∷ (certified 1 1 ∷ []) ∷ []))).sent ≡ [] }
    ensures a_node_of_it { (opened (limits 2 10)
        (image_of ((pending 1 1 ∷ pending 1 2 ∷ []) ∷ (certified 1 2 ∷ pending 2 1 ∷ [])
        ∷ []))).node 2
        ≡ record {
          records = certified 1 2 ∷ pending 2 1 ∷ [];
          state = Ready;
          acks = (name 1 2, 2) ∷ (name 2 1, 2) ∷ [];
          heard = [];
          cursor = None;
          broadcast = message 7 1 "" ∷ [];
        } }
{}
