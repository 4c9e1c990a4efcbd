//! How everything that is stored gets delivered.
//!
//! The examples start after every packet was lost, with all nodes down, and from images.
ghost use Rattle.std.specs.Prelude.{[], ◌∷◌, Ok, map};
ghost use Rattle.urb_names.specs.Names.{name, names};
ghost use Rattle.urb_names.specs.Nodes.{numbers_from};
ghost use Rattle.urb_stable.specs.declared.record.Record.TheVariants.{PendCert, Cert};
ghost use Rattle.urb_world.specs.internal.Examples.{a_packet, b_packet, certified, limits, pending};
ghost use Rattle.urb_world.specs.internal.RecoveryExamples.{ComesTo, RecoversBy, opened_group, kept_all};
ghost use Rattle.urb_world.specs.internal.RecoveryExamples.{kept_none};
ghost use Rattle.urb_world.specs.internal.Scripts.{arrive2, crash, fail_old, message, new_group};
ghost use Rattle.urb_world.specs.internal.Scripts.{store, submit, tick};
ghost use Rattle.urb_world.specs.Step.{Arrive, Commit, Restart, Tick};

/// Every packet was lost so far.
pub fn after_losses()
    ensures of_two_nodes { RecoversBy (new_group 2 10)
        (submit 1 (message 7 1 "a") ∷ store 1 ∷ []) kept_none (
        Tick 1
        ∷ Arrive 2 (Ok (a_packet 0 1 2))
        ∷ Commit 2 1 (PendCert (name 1 1) (message 7 1 "a"))
        ∷ Tick 2
        ∷ Arrive 1 (Ok (a_packet 1 2 1))
        ∷ Commit 1 2 (Cert (name 1 1))
        ∷ Tick 1
        ∷ Tick 2
        ∷ Arrive 1 (Ok (a_packet 1 2 1))
        ∷ []) }
    ensures above_a_gap_first { RecoversBy (new_group 2 10)
        (submit 1 (message 7 1 "a") ∷ store 1 ∷ tick 1 ∷ submit 1 (message 7 2 "b") ∷ store 1 ∷ []) kept_none (
        Tick 1 ∷ Tick 1
        ∷ Arrive 2 (Ok (b_packet 0 1 2)) ∷ Commit 2 1 (PendCert (name 1 2) (message 7 2 "b"))
        ∷ Arrive 2 (Ok (a_packet 0 1 2)) ∷ Commit 2 2 (PendCert (name 1 1) (message 7 1 "a"))
        ∷ Arrive 2 (Ok (b_packet 0 1 2)) ∷ Arrive 2 (Ok (a_packet 0 1 2))
        ∷ Tick 2 ∷ Tick 2
        ∷ Arrive 1 (Ok (a_packet 1 2 1)) ∷ Commit 1 3 (Cert (name 1 1))
        ∷ Arrive 1 (Ok (b_packet 1 2 1)) ∷ Commit 1 4 (Cert (name 1 2))
        ∷ Arrive 1 (Ok (a_packet 1 2 1)) ∷ Arrive 1 (Ok (b_packet 1 2 1))
        ∷ Tick 1 ∷ Tick 1 ∷ Tick 2 ∷ Tick 2
        ∷ Arrive 1 (Ok (a_packet 1 2 1)) ∷ Arrive 1 (Ok (b_packet 1 2 1))
        ∷ Arrive 1 (Ok (a_packet 1 2 1)) ∷ Arrive 1 (Ok (b_packet 1 2 1))
        ∷ []) }
    ensures of_three_nodes { ComesTo (new_group 3 10)
        (submit 1 (message 7 1 "a") ∷ store 1 ∷ submit 1 (message 7 2 "b") ∷ store 1 ∷ submit 3 (message 8 1 "c") ∷ store 3 ∷ []) kept_none
        ([] ∷ [] ∷ [] ∷ [])
        ((name 1 1 ∷ name 1 2 ∷ name 3 1 ∷ []) ∷ (name 1 1 ∷ name 1 2 ∷ name 3 1 ∷ []) ∷ (name 1 1 ∷ name 1 2 ∷ name 3 1 ∷ []) ∷ []) }
    ensures behind_the_cursor { ComesTo
        (opened_group (limits 2 20) (map (pending 1) (numbers_from 1 17) ∷ [] ∷ []))
        (tick 1 ∷ []) kept_none
        ([] ∷ [] ∷ []) (names 1 17 ∷ names 1 17 ∷ []) }
{}

/// Each node is down, and may have stored the record that it held: a submit, a relayed pair, and a
/// certificate.
pub fn with_all_nodes_down()
    ensures a_lost_draft { RecoversBy (new_group 1 10)
        (submit 1 (message 7 1 "a") ∷ crash 1 ∷ []) kept_none (Restart 1 [] ∷ []) }
    ensures a_kept_draft { ComesTo (new_group 1 10)
        (submit 1 (message 7 1 "a") ∷ crash 1 ∷ []) kept_all ([] ∷ []) ((name 1 1 ∷ []) ∷ []) }
    ensures counted_anew { ComesTo (new_group 2 10)
        (submit 1 (message 7 1 "a") ∷ store 1 ∷ crash 1 ∷ crash 2 ∷ []) kept_none
        ([] ∷ [] ∷ []) ((name 1 1 ∷ []) ∷ (name 1 1 ∷ []) ∷ []) }
    ensures none_kept { ComesTo (new_group 3 10)
        (submit 1 (message 7 1 "a") ∷ store 1 ∷ arrive2 1 2 1 1 0 ∷ store 2 ∷ arrive2 1 3 1 1 0
        ∷ submit 2 (message 8 1 "b") ∷ arrive2 2 1 1 1 1 ∷ crash 1 ∷ fail_old 2 ∷ crash 3 ∷ []) kept_none
        ([] ∷ (name 1 1 ∷ []) ∷ [] ∷ [])
        ((name 1 1 ∷ []) ∷ (name 1 1 ∷ []) ∷ (name 1 1 ∷ []) ∷ []) }
    ensures all_kept { ComesTo (new_group 3 10)
        (submit 1 (message 7 1 "a") ∷ store 1 ∷ arrive2 1 2 1 1 0 ∷ store 2 ∷ arrive2 1 3 1 1 0
        ∷ submit 2 (message 8 1 "b") ∷ arrive2 2 1 1 1 1 ∷ crash 1 ∷ fail_old 2 ∷ crash 3 ∷ []) kept_all
        ([] ∷ (name 1 1 ∷ []) ∷ [] ∷ [])
        ((name 1 1 ∷ name 2 1 ∷ []) ∷ (name 1 1 ∷ name 2 1 ∷ []) ∷ (name 1 1 ∷ name 2 1 ∷ []) ∷ []) }
{}

/// Groups that were opened from images. If one node is left of a group, alone, what it had not
/// certified stays undelivered.
pub fn from_images()
    ensures a_relay_above_a_gap { ComesTo
        (opened_group (limits 3 10) ((pending 1 1 ∷ pending 1 2 ∷ []) ∷ (certified 1 2 ∷ []) ∷ []
        ∷ [])) [] kept_none
        ([] ∷ [] ∷ [] ∷ []) (names 1 2 ∷ names 1 2 ∷ names 1 2 ∷ []) }
    ensures a_full_sender { ComesTo
        (opened_group (limits 3 2) ((pending 1 1 ∷ pending 1 2 ∷ []) ∷ [] ∷ [] ∷ [])) [] kept_none
        ([] ∷ [] ∷ [] ∷ []) (names 1 2 ∷ names 1 2 ∷ names 1 2 ∷ []) }
    ensures all_is_delivered { RecoversBy (opened_group (limits 1 10) ((certified 1 1 ∷ []) ∷ []))
        [] kept_none (Tick 1 ∷ Tick 1 ∷ []) }
    ensures a_lone_node_that_was_not_alone { ComesTo
        (opened_group (limits 1 10) ((pending 1 1 ∷ []) ∷ [])) [] kept_none ([] ∷ []) ([] ∷ []) }
{}
