//! What a link was given, which way a packet took, and which listener a door has.
ghost use Rattle.std.specs.Prelude.{[], ◌∷◌, ◌≡◌, None};
ghost use Rattle.urb_link.specs.Links.{IsOf, IsRefused, IsToMailbox, IsToNobody};
ghost use Rattle.urb_link.specs.declared.handed.Handed.{Handed};
ghost use Rattle.urb_link.specs.declared.handed.Way.TheVariants as way;
ghost use Rattle.urb_names.specs.declared.refusal.NoMemory.{NoMemory};

/// A witness that a link was given bytes says for which node they were, and which bytes.
pub fn what_a_link_was_given()
    ensures these_bytes { (handed : Handed) → handed.target ≡ 2 → handed.bytes.now ≡ 7 ∷ []
        → IsOf 2 (7 ∷ []) handed }
    ensures not_for_another_node { (handed : Handed) → handed.target ≡ 2
        → handed.bytes.now ≡ 7 ∷ [] → IsOf 3 (7 ∷ []) handed → ⊥ }
    ensures not_other_bytes { (handed : Handed) → handed.target ≡ 2
        → handed.bytes.now ≡ 7 ∷ [] → IsOf 2 (8 ∷ []) handed → ⊥ }
{}

/// A packet takes just one way.
pub fn which_way_a_packet_took()
    ensures to_a_mailbox { IsToMailbox way.ToMailbox }
    ensures to_nobody { IsToNobody way.ToNobody }
    ensures refused { (why : NoMemory) → IsRefused (way.Refused why) }
    ensures to_a_port_and_no_mailbox { IsToMailbox (way.ToPort 7001) → ⊥ }
    ensures to_nobody_and_no_mailbox { IsToMailbox way.ToNobody → ⊥ }
    ensures to_a_mailbox_and_not_to_nobody { IsToNobody way.ToMailbox → ⊥ }
    ensures refused_and_not_to_nobody { (why : NoMemory) → IsToNobody (way.Refused why) → ⊥ }
    ensures to_nobody_and_not_refused { IsRefused way.ToNobody → ⊥ }
{}
