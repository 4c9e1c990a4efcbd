//! What each call of a group does, and what it can't do.
//!
//! A new group shows the new world of its size: the rows that name both suppose it. A call of a
//! group that shows no world may have any result.
ghost use Rattle.std.specs.Prelude.{[], ◌∷◌, ◌≡◌, Err, Ok, false};
ghost use Rattle.urb_names.specs.Names.{name};
ghost use Rattle.urb_names.specs.declared.refusal.Refusal.TheVariants as refusal;
ghost use Rattle.urb_names.specs.declared.refusal.Rule.TheVariants as rule;
ghost use Rattle.urb_node.specs.Replies.{Refused, Sent, Up, WentDown};
ghost use Rattle.urb_node.specs.declared.answer.Answer.TheVariants.{Accepted};
ghost use Rattle.urb_group.specs.GroupCalls.{ComesUp, Commits, GoesDown, Happens, HoldsDraft};
ghost use Rattle.urb_group.specs.GroupCalls.{IsRefused, Opens, Steps, Takes, Ticks};
ghost use Rattle.urb_group.specs.GroupViews.{GroupView, Shows};
ghost use Rattle.urb_group.specs.declared.taken.Taken.TheVariants as taken;
ghost use Rattle.urb_step_examples.specs.internal.GroupExamples.{certifying, draft, drafting, fallen};
ghost use Rattle.urb_step_examples.specs.internal.GroupExamples.{first_draft, new_group, of_no_world};
ghost use Rattle.urb_step_examples.specs.internal.GroupExamples.{certified_view, disagreeing, group_of_two};
ghost use Rattle.urb_step_examples.specs.internal.GroupExamples.{of_node_0};
ghost use Rattle.urb_world.specs.Step.{Arrive, Crash, Fail, Restart, Submit, Tick};
ghost use Rattle.urb_world.specs.World.{World, image_of, opened, started};
ghost use Rattle.urb_world.specs.internal.Examples.{certified, empty_packet, flagged, limits, pending};
ghost use Rattle.urb_world.specs.internal.Scripts.{message};

/// A tick of node 0, which no group has, is refused as an event of a node that isn't there.
pub fn what_happens_to_no_node()
    ensures in_a_world { (w : World) → Shows (new_group 4) w
        → Happens (Tick 0) (λ reply. reply ≡ Refused refusal.BadNode) (new_group 4) w }
    ensures in_every_world { (group : GroupView)
        → Steps group (Tick 0) (λ reply. reply ≡ Refused refusal.BadNode) group }
    ensures refused { (group : GroupView) → IsRefused group (Tick 0) refusal.BadNode group }
    ensures refused_in_four { IsRefused (new_group 4) (Tick 0) refusal.BadNode (new_group 4) }
    ensures of_no_world_at_all { Steps (of_no_world 4) (Tick 1) (λ reply. reply ≡ Up 1)
        (new_group 4) }
    ensures of_another_memory { (w : World) → Shows (new_group 4) w
        → Happens (Tick 0) (λ reply. reply ≡ Refused refusal.BadNode) (new_group 3) w → ⊥ }
    ensures of_a_larger_memory { (w : World) → Shows (new_group 3) w
        → Happens (Tick 0) (λ reply. reply ≡ Refused refusal.BadNode) (new_group 4) w → ⊥ }
    ensures another_reply_in_a_world { (w : World) → Shows (new_group 4) w
        → Happens (Tick 0) (λ reply. reply ≡ Up 0) (new_group 4) w → ⊥ }
    ensures another_reply { (w : World) → Shows (new_group 4) w
        → Steps (new_group 4) (Tick 0) (λ reply. reply ≡ Up 0) (new_group 4) → ⊥ }
    ensures another_refusal { (w : World) → Shows (new_group 4) w
        → IsRefused (new_group 4) (Tick 0) refusal.Busy (new_group 4) → ⊥ }
    ensures refused_with_another_size { IsRefused (new_group 4) (Tick 0) refusal.BadNode (new_group 3)
        → ⊥ }
{}

/// An answer with a message that its source hasn't stored. That can't be in a world of a run: here
/// two nodes have certified different messages under one name.
pub fn what_untrue_worlds_answer()
    ensures a_message_of_another { Happens
        (Arrive 1 (Ok (flagged 0 2 1 1 1 (message 7 1 "b")))) (λ reply. Unit {0})
        (group_of_two 3 (certified_view 1 "") (certified_view 1 "b")) disagreeing → ⊥ }
{}

/// The draft that a node holds: with its record, at its position.
pub fn held_drafts()
    ensures in_four { HoldsDraft (drafting 4 (pending 1 1)) first_draft }
    ensures in_a_new_group { HoldsDraft (new_group 4) first_draft → ⊥ }
    ensures of_another_record { HoldsDraft (drafting 3 (pending 1 2)) first_draft → ⊥ }
    ensures at_another_position { HoldsDraft (drafting 3 (pending 1 1)) (draft 1 2 (pending 1 1))
        → ⊥ }
{}

/// A submit gives an answer, or a draft that its node then holds, or a refusal.
pub fn what_a_submit_takes()
    ensures an_answer { Takes {A = Unit {0}} (of_no_world 4) 1 (Submit 1 (message 7 1 ""))
        (Ok (taken.Same (Accepted (name 1 1)))) (of_no_world 4) }
    ensures no_answer_to_a_new_message { Shows (new_group 4) (started (limits 4 10))
        → Takes {A = Unit {0}} (new_group 4) 1 (Submit 1 (message 7 1 ""))
        (Ok (taken.Same (Accepted (name 1 1)))) (new_group 4) → ⊥ }
    ensures a_draft { Takes {A = Unit {0}} (of_no_world 4) 1 (Submit 1 (message 7 1 ""))
        (Ok (taken.Store first_draft)) (drafting 4 (pending 1 1)) }
    ensures a_draft_under_another_name { Shows (new_group 4) (started (limits 4 10))
        → Takes {A = Unit {0}} (new_group 4) 1 (Submit 1 (message 7 1 ""))
        (Ok (taken.Store (draft 1 1 (pending 1 2)))) (drafting 4 (pending 1 2)) → ⊥ }
    ensures a_draft_of_another_node { Takes {A = Unit {0}} (of_no_world 4) 2
        (Submit 1 (message 7 1 "")) (Ok (taken.Store first_draft)) (drafting 4 (pending 1 1)) → ⊥ }
    ensures a_draft_that_is_not_held { Takes {A = Unit {0}} (of_no_world 4) 1
        (Submit 1 (message 7 1 "")) (Ok (taken.Store first_draft)) (new_group 4) → ⊥ }
    ensures a_refusal { Takes {A = Unit {0}} (new_group 4) 0 (Submit 0 (message 7 1 ""))
        (Err refusal.BadNode) (new_group 4) }
    ensures a_refusal_that_changes_the_group { Takes {A = Unit {0}} (new_group 4) 0
        (Submit 0 (message 7 1 "")) (Err refusal.BadNode) (drafting 4 (pending 1 1)) → ⊥ }
{}

/// A receipt is taken, or it is returned with a refusal.
pub fn what_a_receipt_commits()
    ensures it_is_taken { Commits (of_no_world 4) first_draft (Ok (record {
      accepted = false;
      name = name 1 1;
      sent = [];
      released = 0;
    })) (new_group 4) }
    ensures not_in_a_new_group { Shows (new_group 4) (started (limits 4 10))
        → Commits (new_group 4) first_draft (Ok (record {
          accepted = false;
          name = name 1 1;
          sent = [];
          released = 0;
        })) (new_group 4) → ⊥ }
    ensures it_is_returned { Commits (new_group 4) of_node_0 (Err (of_node_0, refusal.BadNode))
        (new_group 4) }
    ensures another_is_returned { Commits (new_group 4) of_node_0 (Err (first_draft, refusal.BadNode))
        (new_group 4) → ⊥ }
    ensures returned_by_another_group { Commits (new_group 4) of_node_0
        (Err (of_node_0, refusal.BadNode)) (new_group 3) → ⊥ }
{}

/// A tick sends packets, or it is refused.
pub fn what_a_tick_does()
    ensures it_sends { Ticks (of_no_world 4) (Tick 1) (Ok []) (new_group 4) }
    ensures it_sends_no_message_of_nobody { Shows (new_group 4) (started (limits 4 10))
        → Ticks (new_group 4) (Tick 1) (Ok (empty_packet 0 1 2 ∷ [])) (new_group 4) → ⊥ }
    ensures it_is_refused { Ticks (new_group 4) (Tick 0) (Err refusal.BadNode) (new_group 4) }
    ensures it_is_refused_with_a_change { Ticks (new_group 4) (Tick 0) (Err refusal.BadNode)
        (fallen 4) → ⊥ }
{}

/// A node goes down if its store failed. It doesn't if it stores nothing.
pub fn how_a_node_goes_down()
    ensures its_store_failed { GoesDown (of_no_world 4) 1 (Fail 1) (Ok tt) (fallen 4) }
    ensures not_without_a_draft { Shows (new_group 4) (started (limits 4 10))
        → GoesDown (new_group 4) 1 (Fail 1) (Ok tt) (fallen 4) → ⊥ }
    ensures no_node { GoesDown (new_group 4) 0 (Crash 0) (Err refusal.BadNode) (new_group 4) }
    ensures refused_and_down { GoesDown (new_group 4) 0 (Crash 0) (Err refusal.BadNode) (fallen 4)
        → ⊥ }
{}

/// A node comes up by a restart. It doesn't if it isn't down.
pub fn how_a_node_comes_up()
    ensures it_was_down { ComesUp (of_no_world 4) 1 (Restart 1 []) (Ok tt) (new_group 4) }
    ensures not_a_ready_node { Shows (new_group 4) (started (limits 4 10))
        → ComesUp (new_group 4) 1 (Restart 1 []) (Ok tt) (new_group 4) → ⊥ }
    ensures no_node { ComesUp (fallen 4) 0 (Restart 0 []) (Err refusal.BadNode) (fallen 4) }
    ensures refused_and_up { ComesUp (fallen 4) 0 (Restart 0 []) (Err refusal.BadNode) (new_group 4)
        → ⊥ }
{}

/// Images are opened if they fit together. Otherwise the refusal says the first misfit.
pub fn what_images_open()
    ensures a_new_group { Shows (new_group 4) (opened (limits 4 10) (image_of []))
        → Opens (limits 4 10) [] (Ok (new_group 4)) }
    ensures no_misfit_of_three { Opens (limits 3 10) ((certified 1 1 ∷ []) ∷ []) (Ok (certifying 3))
        → ⊥ }
    ensures another_group { Opens (limits 4 10) [] (Ok (new_group 3)) → ⊥ }
    ensures without_memory { Opens (limits 4 10) [] (Err refusal.NoMemory) }
    ensures the_misfit { Opens (limits 4 10) ((certified 1 1 ∷ []) ∷ [])
        (Err (refusal.Inconsistent rule.D 1 (name 1 1))) }
    ensures another_misfit { Opens (limits 4 10) ((certified 1 1 ∷ []) ∷ [])
        (Err (refusal.Inconsistent rule.D 2 (name 1 1))) → ⊥ }
    ensures another_refusal { Opens (limits 4 10) [] (Err refusal.Busy) → ⊥ }
{}
