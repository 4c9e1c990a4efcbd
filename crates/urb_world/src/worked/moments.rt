//! The words of runs, of their moments and of their packets, in groups of any size.
//!
//! Each row is one case of a word, or two worlds that differ in one thing.
ghost use Rattle.std.specs.Prelude.{[], ◌∷◌, ◌≡◌, ℕ, false, replicate, true};
ghost use Rattle.urb_names.specs.LabelsAndContents.{Limits};
ghost use Rattle.urb_names.specs.Names.{name};
ghost use Rattle.urb_node.specs.Part.{Ready};
ghost use Rattle.urb_node.specs.Replies.{Sent};
ghost use Rattle.urb_stable.specs.declared.record.Record.TheVariants.{PendCert};
ghost use Rattle.urb_world.specs.RunMoments.{AgreeInTime, EntriesGrow, GoesOn};
ghost use Rattle.urb_world.specs.Step.{Run, is_for};
ghost use Rattle.urb_world.specs.TruthfulPackets.{AllTruthful, AreTruthful, ToldTruth};
ghost use Rattle.urb_world.specs.World.{AreImages, World, bears_out, image_of, opened, started};
ghost use Rattle.urb_world.specs.World.{truthful, updated};
ghost use Rattle.urb_world.specs.internal.Examples.{carried, certified, flagged, limits};
ghost use Rattle.urb_world.specs.internal.Examples.{node_in, pending, world_of};
ghost use Rattle.urb_world.specs.internal.Scripts.{message};

/// A run of no events stays where it is, and has no replies.
pub fn runs_of_no_events()
    ensures stay { (w : World) → Run w [] [] w }
    ensures have_no_replies { Run (started (limits 3 10)) [] (Sent [] ∷ []) (started (limits 3 10)) → ⊥ }
    ensures have_none_in_four { Run (started (limits 4 10)) [] (Sent [] ∷ []) (started (limits 4 10))
        → ⊥ }
    ensures have_none_in_seven { Run (started (limits 7 10)) [] (Sent [] ∷ []) (started (limits 7 10))
        → ⊥ }
{}

/// Nothing was lost in a new group of any size. Each other row loses one thing.
pub fn what_goes_on()
    ensures new_groups { (size : Limits) → GoesOn (started size) (started size) }
    ensures new_logs { (size : Limits) → EntriesGrow (started size) (started size) }
    ensures new_logs_agree { (size : Limits) → AgreeInTime (started size) (started size) }
    ensures a_broadcast_is_lost { GoesOn
        (world_of (record (node_in Ready []) { broadcast = message 7 1 "" ∷ [] }))
        (world_of (node_in Ready [])) → ⊥ }
    ensures records_in_another_order { GoesOn
        (world_of (node_in Ready (pending 1 1 ∷ pending 2 1 ∷ [])))
        (world_of (node_in Ready (pending 2 1 ∷ pending 1 1 ∷ []))) → ⊥ }
    ensures a_record_is_lost { GoesOn (world_of (node_in Ready (pending 1 1 ∷ [])))
        (world_of (node_in Ready [])) → ⊥ }
    ensures a_record_of_four_is_lost { GoesOn
        (opened (limits 4 10) (image_of ((certified 1 1 ∷ []) ∷ []))) (started (limits 4 10)) → ⊥ }
    ensures a_record_of_seven_is_lost { GoesOn
        (opened (limits 7 10) (image_of ((certified 1 1 ∷ []) ∷ []))) (started (limits 7 10)) → ⊥ }
    ensures a_delivery_of_four_is_lost { EntriesGrow
        (opened (limits 4 10) (image_of ((certified 1 1 ∷ []) ∷ []))) (started (limits 4 10)) → ⊥ }
    ensures a_delivery_of_seven_is_lost { EntriesGrow
        (opened (limits 7 10) (image_of ((certified 1 1 ∷ []) ∷ []))) (started (limits 7 10)) → ⊥ }
    ensures logs_of_four_disagree { AgreeInTime
        (opened (limits 4 10) (image_of ((certified 1 1 ∷ []) ∷ [])))
        (opened (limits 4 10) (image_of ((PendCert (name 1 1) (message 7 1 "a") ∷ []) ∷ []))) → ⊥ }
    ensures logs_of_seven_disagree { AgreeInTime
        (opened (limits 7 10) (image_of ((certified 1 1 ∷ []) ∷ [])))
        (opened (limits 7 10) (image_of ((PendCert (name 1 1) (message 7 1 "a") ∷ []) ∷ []))) → ⊥ }
{}

/// Images of a group: one for each node, with records within their limits.
pub fn images_of_groups()
    ensures of_any_size { (n : ℕ) → AreImages (limits n 10) (replicate n []) }
    ensures one_too_few { AreImages (limits 3 10) ([] ∷ [] ∷ []) → ⊥ }
    ensures one_too_few_of_four { AreImages (limits 4 10) ([] ∷ [] ∷ [] ∷ []) → ⊥ }
    ensures one_too_many_of_seven { AreImages (limits 7 10)
        ([] ∷ [] ∷ [] ∷ [] ∷ [] ∷ [] ∷ [] ∷ [] ∷ []) → ⊥ }
{}

/// Records confirm a packet if they have its pair, and its certificate if it reports one.
pub fn confirmed_packets()
    ensures its_pair { bears_out (pending 1 1 ∷ []) (flagged 0 1 2 1 1 (message 7 1 "")) ≡ true }
    ensures no_pair { bears_out [] (flagged 0 1 2 1 1 (message 7 1 "")) ≡ false }
    ensures another_message { bears_out (pending 1 1 ∷ []) (flagged 0 1 2 1 1 (message 7 1 "a"))
        ≡ false }
    ensures its_certificate { bears_out (certified 1 1 ∷ []) (flagged 1 1 2 1 1 (message 7 1 ""))
        ≡ true }
    ensures no_certificate { bears_out (pending 1 1 ∷ []) (flagged 1 1 2 1 1 (message 7 1 ""))
        ≡ false }
    ensures of_version_one { bears_out (pending 1 1 ∷ []) (carried 1 2 1 1 (message 7 1 "")) ≡ true }
{}

/// A packet is truthful if its source's records confirm it, in groups of any size.
pub fn truthful_packets()
    ensures of_three { truthful (opened (limits 3 10) (image_of ((pending 1 1 ∷ []) ∷ [])))
        (flagged 0 1 2 1 1 (message 7 1 "")) ≡ true }
    ensures of_four { truthful (opened (limits 4 10) (image_of ((pending 1 1 ∷ []) ∷ [])))
        (flagged 0 1 2 1 1 (message 7 1 "")) ≡ true }
    ensures of_seven { truthful (opened (limits 7 10) (image_of ((pending 1 1 ∷ []) ∷ [])))
        (flagged 0 1 2 1 1 (message 7 1 "")) ≡ true }
    ensures of_another_source { truthful (opened (limits 4 10) (image_of ((pending 1 1 ∷ []) ∷ [])))
        (flagged 0 3 2 1 1 (message 7 1 "")) ≡ false }
    ensures of_another_of_seven { truthful (opened (limits 7 10) (image_of ((pending 1 1 ∷ []) ∷ [])))
        (flagged 0 3 2 1 1 (message 7 1 "")) ≡ false }
    ensures the_second_is_not { AreTruthful
        (opened (limits 7 10) (image_of ((pending 1 1 ∷ []) ∷ [])))
        (flagged 0 1 2 1 1 (message 7 1 "") ∷ flagged 0 3 2 1 1 (message 7 1 "") ∷ []) → ⊥ }
    ensures all_of_new_groups { (size : Limits) → AllTruthful (started size) }
    ensures no_packets { (size : Limits) → AreTruthful (started size) [] }
    ensures no_replies { (size : Limits) → ToldTruth (started size) [] }
    ensures one_was_sent_untruthfully { AllTruthful (record (started (limits 7 10))
        { sent = flagged 0 1 2 1 1 (message 7 1 "") ∷ [] }) → ⊥ }
    ensures one_was_told_untruthfully { ToldTruth (started (limits 7 10))
        (Sent (flagged 0 1 2 1 1 (message 7 1 "") ∷ []) ∷ []) → ⊥ }
{}

/// A packet is for a node if it names only nodes of the group, and has this target. And a function
/// that is updated at one place keeps its other values.
pub fn targets_and_updates()
    ensures for_its_target { is_for (started (limits 3 10)) 2 (carried 1 2 1 1 (message 7 1 ""))
        ≡ true }
    ensures for_the_last_of_four { is_for (started (limits 4 10)) 4
        (carried 3 4 4 1 (message 7 1 "")) ≡ true }
    ensures for_the_last_of_seven { is_for (started (limits 7 10)) 7
        (carried 6 7 7 1 (message 7 1 "")) ≡ true }
    ensures for_another { is_for (started (limits 4 10)) 3 (carried 1 2 1 1 (message 7 1 ""))
        ≡ false }
    ensures from_no_node { is_for (started (limits 4 10)) 2 (carried 5 2 1 1 (message 7 1 ""))
        ≡ false }
    ensures of_no_sender { is_for (started (limits 7 10)) 2 (carried 1 2 8 1 (message 7 1 ""))
        ≡ false }
    ensures at_its_place { updated (image_of ((pending 1 1 ∷ []) ∷ (pending 1 2 ∷ []) ∷ [])) 2 [] 2
        ≡ [] }
    ensures at_another_place { updated (image_of ((pending 1 1 ∷ []) ∷ (pending 1 2 ∷ []) ∷ [])) 2 []
        1 ≡ pending 1 1 ∷ [] }
{}
