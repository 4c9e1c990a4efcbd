//! What claims don't ask of others: of nodes that a group doesn't have, of other senders' pairs, of
//! nodes that aren't among those spoken of, and of pairs that nobody has certified.
//!
//! Each of these rows is true only because its claim has a premise.
ghost use Rattle.std.specs.Prelude.{[], ◌∷◌, ◌==◌, ◌≡◌, None, false, if◌then◌else◌};
ghost use Rattle.urb_names.specs.Names.{name};
ghost use Rattle.urb_names.specs.Nodes.{is_node};
ghost use Rattle.urb_names.specs.declared.refusal.Refusal.TheVariants as refusal;
ghost use Rattle.urb_names.specs.declared.refusal.Rule.TheVariants.{A, B, D};
ghost use Rattle.urb_node.specs.Part.{Down, Ready};
ghost use Rattle.urb_node.specs.Replies.{Refused, WentDown};
ghost use Rattle.urb_stable.specs.Fitting.{known_held, misfits, misfits_behind};
ghost use Rattle.urb_stable.specs.declared.record.Record.TheVariants.{Cert};
ghost use Rattle.urb_world.specs.ProcessStops.{GoesOnUnder};
ghost use Rattle.urb_world.specs.RecoveredWorlds.{AllDelivered, HasDelivered};
ghost use Rattle.urb_world.specs.Rounds.{HaveDeliveredHeld};
ghost use Rattle.urb_world.specs.StartLimits.{HaveMajorities};
ghost use Rattle.urb_world.specs.Step.{Crash, Fail, step};
ghost use Rattle.urb_world.specs.World.{AreImages, image_of, opened, started};
ghost use Rattle.urb_world.specs.internal.Examples.{certified, limits, node_in, pending};
ghost use Rattle.urb_world.specs.internal.Scripts.{message};

/// A stop may lose the pairs of a node that isn't of the group, and another sender's pairs.
pub fn what_a_stop_may_lose()
    ensures of_an_eighth_node { GoesOnUnder (limits 7 10) (record (started (limits 7 10))
        { node = λ p. if is_node 7 p then node_in Ready [] else node_in Ready (pending 8 1 ∷ []) })
        (λ p. []) }
    ensures of_another_sender { GoesOnUnder (limits 2 10)
        (opened (limits 2 10) (image_of ((pending 2 1 ∷ []) ∷ []))) (λ p. []) }
{}

/// A node that isn't of the group needn't deliver, and what it broadcast needn't be delivered. Nor
/// do nodes deliver that aren't among those spoken of.
pub fn what_need_not_be_delivered()
    ensures by_an_eighth_node { AllDelivered (record (started (limits 7 10))
        { node = λ p. if is_node 7 p then node_in Ready [] else node_in (Down None) [] }) }
    ensures of_an_eighth_node { HasDelivered (record (started (limits 7 10)) {
      node = λ p. if is_node 7 p then node_in Ready [] else
          record (node_in Ready []) { broadcast = message 7 1 "" ∷ [] };
    }) 1 }
    ensures by_another_node { HaveDeliveredHeld (λ p. p == 1)
        (opened (limits 7 10) (image_of ((certified 1 1 ∷ []) ∷ [])))
        (opened (limits 7 10) (image_of ((certified 1 1 ∷ []) ∷ []))) }
{}

/// No majority need hold a pair that nobody has certified, or a message that nobody has stored.
pub fn what_needs_no_majority()
    ensures a_pending_pair { HaveMajorities 3 (image_of ((pending 1 1 ∷ []) ∷ [])) }
    ensures another_message { HaveMajorities 1 (image_of ((certified 1 1 ∷ []) ∷ [])) }
{}

/// All misfits of a record, of a node and of a group. No majority holds a pair that isn't there.
pub fn all_misfits()
    ensures held_by_nobody { known_held 4 (λ p. []) (name 1 1) None ≡ false }
    ensures of_a_node { misfits_behind (limits 4 10) (λ p. []) 1 []
        (Cert (name 1 1) ∷ certified 1 2 ∷ [])
        ≡ record { rule = A; node = 1; name = name 1 1 }
        ∷ record { rule = D; node = 1; name = name 1 1 }
        ∷ record { rule = B; node = 1; name = name 1 2 }
        ∷ record { rule = D; node = 1; name = name 1 2 } ∷ [] }
    ensures of_a_group { misfits (limits 4 10)
        (image_of ((Cert (name 1 1) ∷ []) ∷ (Cert (name 2 1) ∷ []) ∷ []))
        ≡ record { rule = A; node = 1; name = name 1 1 }
        ∷ record { rule = D; node = 1; name = name 1 1 }
        ∷ record { rule = A; node = 2; name = name 2 1 }
        ∷ record { rule = D; node = 2; name = name 2 1 } ∷ [] }
{}

/// Images have records within their limits.
pub fn images_over_their_limits()
    ensures of_no_sender { AreImages (limits 4 10)
        ((pending 0 1 ∷ []) ∷ [] ∷ [] ∷ [] ∷ []) → ⊥ }
    ensures of_no_number { AreImages (limits 4 10)
        ((pending 1 0 ∷ []) ∷ [] ∷ [] ∷ [] ∷ []) → ⊥ }
{}

/// A ready node crashes. It stores nothing, so no store of it fails.
pub fn crashes_of_ready_nodes()
    ensures a_crash { (step (started (limits 4 10)) (Crash 1)).0 ≡ WentDown 1 }
    ensures a_failed_store { (step (started (limits 4 10)) (Fail 1)).0 ≡ Refused refusal.Stale }
{}
