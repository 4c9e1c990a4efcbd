//! Which refusal comes first, for bytes, receipts and nodes.
ghost use Rattle.std.specs.Prelude.{[], ◌∷◌, None};
ghost use Rattle.urb_names.specs.declared.refusal.Refusal.TheVariants as refusal;
ghost use Rattle.urb_names.specs.declared.refusal.PacketFault.TheVariants as fault;
ghost use Rattle.urb_names.specs.Names.{name};
ghost use Rattle.urb_stable.specs.declared.record.Record.TheVariants.{Pend, PendCert, Cert};
ghost use Rattle.urb_node.specs.Part.{Ready};
ghost use Rattle.urb_world.specs.World.{image_of};
ghost use Rattle.urb_world.specs.internal.Scripts.{◌⇒◌, Plays, PlaysOpened, Drafts, Accepts, Takes};
ghost use Rattle.urb_world.specs.internal.Scripts.{Logs, Is, Refuses, again, down, message, submit};
ghost use Rattle.urb_world.specs.internal.Scripts.{store, fail_old, crash, restart, commit, bring};
ghost use Rattle.urb_world.specs.internal.Scripts.{bring_bytes, tick, arrive, log_of, look_at};
ghost use Rattle.urb_world.specs.internal.Examples.{pending, certified, limits, carried};

/// Packets of pairs that their source doesn't hold, packets of nodes that the group doesn't have,
/// and bytes that are no packet.
pub fn packets()
    ensures a_draft_is_not_yet_held { Plays 3 10 (
        submit 1 (message 7 1 "a") ⇒ Drafts (name 1 1) 1
        ∷ arrive 1 2 1 1 ⇒ Refuses refusal.Forged
        ∷ []) }
    ensures forged_in_name_or_message_or_source { Plays 3 10 (
        submit 1 (message 7 1 "a") ⇒ Drafts (name 1 1) 1
        ∷ store 1 ⇒ Accepts (name 1 1) 2 0
        ∷ bring 2 (carried 1 2 1 2 (message 7 1 "a")) ⇒ Refuses refusal.Forged
        ∷ bring 2 (carried 1 2 3 1 (message 7 1 "a")) ⇒ Refuses refusal.Forged
        ∷ bring 2 (carried 1 2 1 1 (message 7 1 "b")) ⇒ Refuses refusal.Forged
        ∷ bring 2 (carried 1 2 1 1 (message 7 2 "a")) ⇒ Refuses refusal.Forged
        ∷ bring 2 (carried 1 2 1 1 (message 8 1 "a")) ⇒ Refuses refusal.Forged
        ∷ bring 2 (carried 3 2 1 1 (message 7 1 "a")) ⇒ Refuses refusal.Forged
        ∷ bring 2 (carried 1 2 1 1 (message 7 1 "a")) ⇒ Drafts (name 1 1) 1
        ∷ []) }
    ensures a_source_that_is_down_still_holds { Plays 3 10 (
        submit 1 (message 7 1 "a") ⇒ Drafts (name 1 1) 1
        ∷ store 1 ⇒ Accepts (name 1 1) 2 0
        ∷ crash 1 ⇒ down 1
        ∷ arrive 1 2 1 1 ⇒ Drafts (name 1 1) 1
        ∷ []) }
    ensures bytes_before_nodes_before_states { Plays 3 10 (
        bring_bytes 4 fault.Magic ⇒ Refuses (refusal.Packet fault.Magic)
        ∷ bring 4 (carried 1 4 1 1 (message 7 1 "a")) ⇒ Refuses refusal.BadNode
        ∷ bring 2 (carried 1 3 1 1 (message 7 1 "a")) ⇒ Refuses refusal.BadNode
        ∷ bring 2 (carried 4 2 1 1 (message 7 1 "a")) ⇒ Refuses refusal.BadNode
        ∷ bring 2 (carried 1 2 4 1 (message 7 1 "a")) ⇒ Refuses refusal.BadNode
        ∷ crash 2 ⇒ down 2
        ∷ bring_bytes 2 fault.Short ⇒ Refuses (refusal.Packet fault.Short)
        ∷ bring 2 (carried 4 2 1 1 (message 7 1 "a")) ⇒ Refuses refusal.BadNode
        ∷ bring 2 (carried 1 2 1 1 (message 7 1 "a")) ⇒ Refuses refusal.Down
        ∷ submit 3 (message 7 1 "a") ⇒ Drafts (name 3 1) 1
        ∷ bring 3 (carried 1 3 1 1 (message 7 1 "a")) ⇒ Refuses refusal.Busy
        ∷ []) }
    ensures a_certified_name_comes_again { Plays 3 10 (
        submit 1 (message 7 1 "a") ⇒ Drafts (name 1 1) 1
        ∷ store 1 ⇒ Accepts (name 1 1) 2 0
        ∷ arrive 1 2 1 1 ⇒ Drafts (name 1 1) 1
        ∷ store 2 ⇒ Takes (name 1 1) 2 1
        ∷ arrive 1 2 1 1 ⇒ again 1 1
        ∷ []) }
    ensures a_certified_name_that_waits_comes_again { PlaysOpened (limits 3 10)
        (image_of ((pending 1 1 ∷ pending 1 2 ∷ []) ∷ (certified 1 2 ∷ []) ∷ [] ∷ [])) (
        log_of 2 ⇒ Logs []
        ∷ arrive 1 2 1 2 ⇒ again 1 2
        ∷ []) }
    ensures a_pending_name_of_a_lone_node_is_certified { PlaysOpened (limits 1 10)
        (image_of ((pending 1 1 ∷ []) ∷ [])) (
        bring 1 (carried 1 1 1 1 (message 7 1 "")) ⇒ Drafts (name 1 1) 2
        ∷ store 1 ⇒ Takes (name 1 1) 0 1
        ∷ []) }
{}

/// Receipts that are not for the held draft.
pub fn receipts()
    ensures of_another_position_or_record { Plays 3 10 (
        commit 1 1 (pending 1 1) ⇒ Refuses refusal.Stale
        ∷ submit 1 (message 7 1 "") ⇒ Drafts (name 1 1) 1
        ∷ commit 1 0 (pending 1 1) ⇒ Refuses refusal.Stale
        ∷ commit 1 2 (pending 1 1) ⇒ Refuses refusal.Stale
        ∷ commit 1 1 (certified 1 1) ⇒ Refuses refusal.Stale
        ∷ commit 1 1 (Cert (name 1 1)) ⇒ Refuses refusal.Stale
        ∷ commit 1 1 (pending 1 2) ⇒ Refuses refusal.Stale
        ∷ commit 1 1 (Pend (name 1 2) (message 7 1 "")) ⇒ Refuses refusal.Stale
        ∷ commit 1 1 (Pend (name 2 1) (message 7 1 "")) ⇒ Refuses refusal.Stale
        ∷ commit 1 1 (Pend (name 1 1) (message 7 1 "a")) ⇒ Refuses refusal.Stale
        ∷ commit 1 1 (Pend (name 1 1) (message 7 2 "")) ⇒ Refuses refusal.Stale
        ∷ commit 1 1 (Pend (name 1 1) (message 8 1 "")) ⇒ Refuses refusal.Stale
        ∷ commit 1 1 (pending 1 1) ⇒ Accepts (name 1 1) 2 0
        ∷ commit 1 1 (pending 1 1) ⇒ Refuses refusal.Stale
        ∷ []) }
    ensures of_another_node_or_state { Plays 3 10 (
        submit 1 (message 7 1 "") ⇒ Drafts (name 1 1) 1
        ∷ commit 2 1 (pending 1 1) ⇒ Refuses refusal.Stale
        ∷ commit 4 1 (pending 1 1) ⇒ Refuses refusal.BadNode
        ∷ commit 0 1 (pending 1 1) ⇒ Refuses refusal.BadNode
        ∷ crash 1 ⇒ down 1
        ∷ commit 1 1 (pending 1 1) ⇒ Refuses refusal.Down
        ∷ []) }
    ensures of_another_certificate { PlaysOpened (limits 2 10)
        (image_of ((pending 1 1 ∷ []) ∷ (pending 1 1 ∷ []) ∷ [])) (
        arrive 2 1 1 1 ⇒ Drafts (name 1 1) 2
        ∷ commit 1 2 (Cert (name 1 2)) ⇒ Refuses refusal.Stale
        ∷ commit 1 2 (Cert (name 2 1)) ⇒ Refuses refusal.Stale
        ∷ commit 1 2 (pending 1 1) ⇒ Refuses refusal.Stale
        ∷ commit 1 2 (certified 1 1) ⇒ Refuses refusal.Stale
        ∷ commit 1 2 (Cert (name 1 1)) ⇒ Takes (name 1 1) 0 1
        ∷ []) }
    ensures of_another_certified_pair { Plays 1 10 (
        submit 1 (message 7 1 "") ⇒ Drafts (name 1 1) 1
        ∷ commit 1 1 (pending 1 1) ⇒ Refuses refusal.Stale
        ∷ commit 1 1 (Cert (name 1 1)) ⇒ Refuses refusal.Stale
        ∷ commit 1 1 (certified 1 2) ⇒ Refuses refusal.Stale
        ∷ commit 1 1 (PendCert (name 1 2) (message 7 1 "")) ⇒ Refuses refusal.Stale
        ∷ commit 1 1 (PendCert (name 2 1) (message 7 1 "")) ⇒ Refuses refusal.Stale
        ∷ commit 1 1 (PendCert (name 1 1) (message 7 1 "a")) ⇒ Refuses refusal.Stale
        ∷ commit 1 1 (PendCert (name 1 1) (message 7 2 "")) ⇒ Refuses refusal.Stale
        ∷ commit 1 1 (PendCert (name 1 1) (message 8 1 "")) ⇒ Refuses refusal.Stale
        ∷ commit 1 1 (certified 1 1) ⇒ Accepts (name 1 1) 0 1
        ∷ []) }
{}

/// Nodes that the group doesn't have, and nodes that are not ready.
pub fn nodes()
    ensures bad_node_before_state { Plays 3 10 (
        store 1 ⇒ Refuses refusal.Stale
        ∷ submit 4 (message 7 1 "a") ⇒ Refuses refusal.BadNode
        ∷ arrive 4 1 1 1 ⇒ Refuses refusal.BadNode
        ∷ crash 2 ⇒ down 2
        ∷ crash 2 ⇒ Refuses refusal.Down
        ∷ store 2 ⇒ Refuses refusal.Down
        ∷ log_of 2 ⇒ Logs []
        ∷ []) }
    ensures each_event_asks_for_a_node { Plays 3 10 (
        tick 4 ⇒ Refuses refusal.BadNode
        ∷ fail_old 4 ⇒ Refuses refusal.BadNode
        ∷ crash 4 ⇒ Refuses refusal.BadNode
        ∷ restart 4 ⇒ Refuses refusal.BadNode
        ∷ submit 0 (message 7 1 "a") ⇒ Refuses refusal.BadNode
        ∷ look_at 1 ⇒ Is (record { records = []; state = Ready; acks = []; heard = []; cursor = None; broadcast = [] })
        ∷ []) }
    ensures each_event_asks_for_a_state { Plays 3 10 (
        fail_old 2 ⇒ Refuses refusal.Stale
        ∷ restart 2 ⇒ Refuses refusal.NotDown
        ∷ submit 1 (message 7 1 "") ⇒ Drafts (name 1 1) 1
        ∷ tick 1 ⇒ Refuses refusal.Busy
        ∷ crash 1 ⇒ down 1
        ∷ tick 1 ⇒ Refuses refusal.Down
        ∷ fail_old 1 ⇒ Refuses refusal.Down
        ∷ []) }
{}
