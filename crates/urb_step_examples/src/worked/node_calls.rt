//! What each call of one node does, for every node that its memory shows.
//!
//! The memory of a new node shows a new node: the rows that name both suppose it. A call of memory
//! that shows no node may have any result.
ghost use Rattle.std.specs.Prelude.{[], ◌∷◌, ◌≡◌, Err, None, Ok, Some};
ghost use Rattle.urb_names.specs.Names.{name};
ghost use Rattle.urb_names.specs.declared.refusal.Refusal.TheVariants as refusal;
ghost use Rattle.urb_node.specs.CallEffects.{Arrives, Confirms, Crashes, Fails, LeadsTo, Restarts};
ghost use Rattle.urb_node.specs.CallEffects.{Submits, Ticks};
ghost use Rattle.urb_node.specs.NodeMemories.{IsSameNode, ShowsDown, ShowsReady, ShowsStoring};
ghost use Rattle.urb_node.specs.NodeMemories.{new_memory};
ghost use Rattle.urb_node.specs.Part.{opened_node};
ghost use Rattle.urb_node.specs.Replies.{Drafted, Refused, Same};
ghost use Rattle.urb_node.specs.declared.answer.Answer.TheVariants.{Accepted, Again, Noted};
ghost use Rattle.urb_node.specs.declared.step.Step.TheVariants as step;
ghost use Rattle.urb_step_examples.specs.internal.NodeExamples.{done_with, down_with, fallen_node};
ghost use Rattle.urb_step_examples.specs.internal.NodeExamples.{holding_first, new_node, of_no_node};
ghost use Rattle.urb_step_examples.specs.internal.NodeExamples.{placed_at, storing_first};
ghost use Rattle.urb_world.specs.internal.Examples.{empty_packet, limits, pending};
ghost use Rattle.urb_world.specs.internal.Scripts.{message};

/// Two memories belong to one node of one group.
pub fn memories_of_one_node()
    ensures of_one { IsSameNode (new_node 1) of_no_node }
    ensures of_groups_of_other_sizes { IsSameNode (new_memory (limits 3 10) 1)
        (new_memory (limits 4 10) 1) → ⊥ }
    ensures of_other_nodes { IsSameNode (new_node 1) (new_node 2) → ⊥ }
{}

/// A call ends as its outcome says: with an answer, with a draft, or with a refusal.
pub fn what_an_outcome_leads_to()
    ensures its_answer { LeadsTo {A = Unit {0}} (Same (Noted (name 1 1)), opened_node 1 [])
        (new_node 1) (Ok (step.Same (new_node 1) (Noted (name 1 1)))) }
    ensures not_another_answer { LeadsTo {A = Unit {0}} (Same (Noted (name 1 1)), opened_node 1 [])
        (new_node 1) (Ok (step.Same (new_node 1) (Again (name 1 1)))) → ⊥ }
    ensures not_another_memory { LeadsTo {A = Unit {0}}
        (Same (Noted (name 1 1)), opened_node 1 (pending 1 1 ∷ []))
        (new_node 1) (Ok (step.Same (new_node 1) (Noted (name 1 1)))) → ⊥ }
    ensures not_another_node { LeadsTo {A = Unit {0}} (Same (Noted (name 1 1)), opened_node 1 [])
        (new_node 2) (Ok (step.Same (new_node 1) (Noted (name 1 1)))) → ⊥ }
    ensures its_draft { LeadsTo {A = Unit {0}} (Drafted (name 1 1) 1, storing_first) (new_node 1)
        (Ok (step.Store (holding_first (new_node 1)) (placed_at 1))) }
    ensures not_a_draft_under_another_name { LeadsTo {A = Unit {0}}
        (Drafted (name 1 2) 1, storing_first) (new_node 1)
        (Ok (step.Store (holding_first (new_node 1)) (placed_at 1))) → ⊥ }
    ensures not_a_draft_of_a_ready_node { LeadsTo {A = Unit {0}}
        (Drafted (name 1 1) 1, opened_node 1 []) (new_node 1)
        (Ok (step.Store (holding_first (new_node 1)) (placed_at 1))) → ⊥ }
    ensures not_a_draft_of_another_node { LeadsTo {A = Unit {0}}
        (Drafted (name 1 1) 1, storing_first) (new_node 2)
        (Ok (step.Store (holding_first (new_node 1)) (placed_at 1))) → ⊥ }
    ensures not_a_draft_that_is_not_held { LeadsTo {A = Unit {0}}
        (Drafted (name 1 1) 1, storing_first) (new_node 1)
        (Ok (step.Store (holding_first (new_node 1)) (record (placed_at 1) { node = 2 }))) → ⊥ }
    ensures its_refusal { LeadsTo {A = Unit {0}} (Refused refusal.Full, opened_node 1 [])
        (new_node 1) (Err (new_node 1, refusal.Full)) }
    ensures not_another_refusal { LeadsTo {A = Unit {0}} (Refused refusal.Full, opened_node 1 [])
        (new_node 1) (Err (new_node 1, refusal.Busy)) → ⊥ }
    ensures not_a_refusal_of_another { LeadsTo {A = Unit {0}} (Refused refusal.Full, opened_node 1 [])
        (new_node 1) (Err (new_node 2, refusal.Full)) → ⊥ }
    ensures a_submit_of_no_node { Submits {A = Unit {0}} of_no_node (message 7 1 "")
        (Ok (step.Same of_no_node (Accepted (name 1 1)))) }
    ensures an_arrival_at_no_node { Arrives {A = Unit {0}} of_no_node 2 (name 2 1) (message 7 1 "")
        None (Ok (step.Same of_no_node (Accepted (name 1 1)))) }
{}

/// A receipt is accepted exactly if it is the held draft's.
pub fn what_a_receipt_confirms()
    ensures not_another_draft { Confirms (holding_first of_no_node) (placed_at 2)
        (Ok (new_node 1, done_with 0)) → ⊥ }
    ensures not_another_node { Confirms (holding_first of_no_node) (placed_at 1)
        (Ok (new_node 2, done_with 0)) → ⊥ }
    ensures not_another_effect { ShowsStoring (holding_first (new_node 1)) storing_first
        → Confirms (holding_first (new_node 1)) (placed_at 1) (Ok (new_node 1, done_with 5)) → ⊥ }
    ensures no_refusal_of_the_draft { Confirms (holding_first (new_node 1)) (placed_at 1)
        (Err (holding_first (new_node 1), placed_at 1)) → ⊥ }
    ensures no_change_of_the_node { Confirms (holding_first (new_node 1)) (placed_at 2)
        (Err (holding_first (new_node 2), placed_at 2)) → ⊥ }
    ensures no_other_receipt { Confirms (holding_first (new_node 1)) (placed_at 2)
        (Err (holding_first (new_node 1), placed_at 3)) → ⊥ }
{}

/// A node goes down if its store fails, and if it crashes. A record that it held is in doubt.
pub fn how_one_node_goes_down()
    ensures not_as_another { Fails (holding_first of_no_node) (down_with (new_node 2) None) → ⊥ }
    ensures not_without_a_doubt { ShowsStoring (holding_first (new_node 1)) storing_first
        → Fails (holding_first (new_node 1)) (down_with (new_node 1) None) → ⊥ }
    ensures not_as_another_by_a_crash { Crashes (λ node. ⊥) (new_node 1)
        (down_with (new_node 2) None) → ⊥ }
    ensures not_with_a_doubt_by_a_crash { Crashes (λ node. node ≡ opened_node 1 []) (new_node 1)
        (down_with (new_node 1) (Some (pending 1 1))) → ⊥ }
{}

/// A new node sends nothing at a tick.
pub fn what_one_node_sends()
    ensures not_as_another { Ticks of_no_node (new_node 2, Ok []) → ⊥ }
    ensures not_a_message_of_nobody { ShowsReady (new_node 1) (opened_node 1 [])
        → Ticks (new_node 1) (new_node 1, Ok (empty_packet 0 1 2 ∷ [])) → ⊥ }
{}

/// A node comes up with the image of its records. Otherwise it stays down.
pub fn how_one_node_comes_up()
    ensures not_as_another { Restarts (down_with of_no_node None) [] (Ok (new_node 2)) → ⊥ }
    ensures not_with_another_image { ShowsDown (down_with (new_node 1) None) fallen_node
        → Restarts (down_with (new_node 1) None) (pending 1 1 ∷ []) (Ok (new_node 1)) → ⊥ }
    ensures not_refused_with_its_image { ShowsDown (down_with (new_node 1) None) fallen_node
        → Restarts (down_with (new_node 1) None) [] (Err (down_with (new_node 1) None, refusal.Busy))
        → ⊥ }
    ensures not_another_that_stays_down { Restarts (down_with of_no_node None) []
        (Err (down_with (new_node 2) None, refusal.BadImage)) → ⊥ }
{}
