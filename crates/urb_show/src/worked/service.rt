//! Worked examples of the service: what may happen at a node, and what may not.
ghost use Rattle.std.specs.Prelude.{Err, None, Ok, Some, [], ◌∷◌};
ghost use Rattle.urb_names.specs.Names.{name};
ghost use Rattle.urb_names.specs.declared.refusal.Refusal.TheVariants as refusal;
ghost use Rattle.urb_group.specs.declared.state.State.TheVariants as state;
ghost use Rattle.urb_world.specs.internal.Scripts.{message};
ghost use Rattle.urb_show.specs.Service.{Does, Join, Starts, Step};
ghost use Rattle.urb_show.specs.Service as seen;
ghost use Rattle.urb_show.specs.internal.ServiceExamples.{both, down, m1, m2, pair_of, ready};
ghost use Rattle.urb_show.specs.internal.ServiceExamples.{storing};

/// A SUBMIT is answered at once, or the node writes the message first.
pub fn submits()
    ensures new { Does both (seen.Submit m1 None) (ready [] []) (storing [] [] (m1 ∷ [])) }
    ensures again { Does both (seen.Submit m1 (Some (Ok 1))) (ready (m1 ∷ []) [])
        (ready (m1 ∷ []) []) }
    ensures another_payload { Does both (seen.Submit (message 7 1 "b") (Some (Err refusal.Conflict)))
        (ready (m1 ∷ []) []) (ready (m1 ∷ []) []) }
    ensures too_early { Does both (seen.Submit (message 7 3 "c") (Some (Err (refusal.Gap 2))))
        (ready (m1 ∷ []) []) (ready (m1 ∷ []) []) }
    ensures full { Does both (seen.Submit (message 7 3 "c") (Some (Err refusal.Full)))
        (ready (m1 ∷ m2 ∷ []) []) (ready (m1 ∷ m2 ∷ []) []) }
    ensures at_a_node_that_is_down { Does both (seen.Submit m1 (Some (Err refusal.Down)))
        (down [] [] []) (down [] [] []) }
    ensures at_a_node_that_writes { Does both (seen.Submit m1 (Some (Err refusal.Busy)))
        (storing [] [] []) (storing [] [] []) }
    ensures not_accepted_at_once { Does both (seen.Submit m1 None) (ready [] [])
        (ready (m1 ∷ []) []) → ⊥ }
{}

/// When the disk has it, an open submit is accepted under its place on the list. Names may join the
/// log.
pub fn finishes()
    ensures accepted { Does both (seen.Finish (2 ∷ [])) (storing (m1 ∷ []) [] (m2 ∷ []))
        (ready (m1 ∷ m2 ∷ []) []) }
    ensures delivered { Does both (seen.Finish []) (storing [] [] [])
        (ready [] (name 1 1 ∷ name 1 2 ∷ [])) }
    ensures under_another_number { Does both (seen.Finish (1 ∷ []))
        (storing (m1 ∷ []) [] (m2 ∷ [])) (ready (m1 ∷ m2 ∷ []) []) → ⊥ }
    ensures without_its_answer { Does both (seen.Finish []) (storing [] [] (m1 ∷ []))
        (ready (m1 ∷ []) []) → ⊥ }
{}

/// A log has each sender's names in order, once, and without a gap. It has only names of messages
/// that were accepted.
pub fn joins()
    ensures in_order { Join both [] (name 1 1 ∷ name 1 2 ∷ []) }
    ensures twice { Join both (name 1 1 ∷ []) (name 1 1 ∷ []) → ⊥ }
    ensures in_another_order { Join both [] (name 1 2 ∷ name 1 1 ∷ []) → ⊥ }
    ensures with_a_gap { Join both [] (name 1 2 ∷ []) → ⊥ }
    ensures on_no_list { Join both [] (name 2 1 ∷ []) → ⊥ }
    ensures beyond_the_list { Join both (name 1 1 ∷ name 1 2 ∷ []) (name 1 3 ∷ []) → ⊥ }
{}

/// A READ gives entries from a place on. A STATUS gives the state and two counts.
pub fn reads()
    ensures second { Does both (seen.Read 2 1 ((name 1 2, Some m2) ∷ []) 2)
        (ready [] (name 1 1 ∷ name 1 2 ∷ [])) (ready [] (name 1 1 ∷ name 1 2 ∷ [])) }
    ensures status { Does both (seen.Status state.Ready 2 1)
        (ready (m1 ∷ m2 ∷ []) (name 1 1 ∷ [])) (ready (m1 ∷ m2 ∷ []) (name 1 1 ∷ [])) }
{}

/// A crash or a failed disk takes nothing away. A submit that got no answer may be accepted by the
/// restart, or not.
pub fn failures()
    ensures crash { Does both (seen.Crash None) (storing (m1 ∷ []) (name 1 1 ∷ []) (m2 ∷ []))
        (down (m1 ∷ []) (name 1 1 ∷ []) (m2 ∷ [])) }
    ensures down_already { Does both (seen.Crash (Some refusal.Down)) (down [] [] [])
        (down [] [] []) }
    ensures failed_disk { Does both seen.Fail (storing (m1 ∷ []) (name 1 1 ∷ []) (m2 ∷ []))
        (down (m1 ∷ []) (name 1 1 ∷ []) (m2 ∷ [])) }
    ensures restart { Does both (seen.Restart None) (down (m1 ∷ []) (name 1 1 ∷ []) (m2 ∷ []))
        (ready (m1 ∷ []) (name 1 1 ∷ [])) }
    ensures accepted_by_the_restart { Does both (seen.Restart None)
        (down (m1 ∷ []) (name 1 1 ∷ []) (m2 ∷ [])) (ready (m1 ∷ m2 ∷ []) (name 1 1 ∷ [])) }
    ensures not_down { Does both (seen.Restart (Some refusal.NotDown)) (ready [] [])
        (ready [] []) }
    ensures restart_of_a_ready_node { Does both (seen.Restart None) (ready [] []) (ready [] [])
        → ⊥ }
    ensures a_lost_message { Does both (seen.Restart None) (down (m1 ∷ []) [] []) (ready [] [])
        → ⊥ }
    ensures a_lost_entry { Does both (seen.Restart None) (down [] (name 1 1 ∷ []) [])
        (ready [] []) → ⊥ }
{}

/// An act changes one node alone. A stop and a start of the daemon lose nothing.
pub fn services()
    ensures another_node { Step both 1 seen.Rest (pair_of (ready (m1 ∷ m2 ∷ []) [])
        (ready [] (name 1 1 ∷ []))) → ⊥ }
    ensures lost_by_a_stop { Starts both (pair_of (ready (m1 ∷ []) []) (ready [] [])) → ⊥ }
    ensures start { Starts (pair_of (storing [] [] (m1 ∷ [])) (ready [] []))
        (pair_of (ready (m1 ∷ []) []) (ready [] (name 1 1 ∷ []))) }
{}
