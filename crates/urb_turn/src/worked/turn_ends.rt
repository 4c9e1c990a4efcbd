//! Worked examples of the end of a turn: what the last event and its results can't be.
//!
//! Each of the rows that end in ⊥ breaks one part of what the stage says.
ghost use Rattle.std.specs.Prelude.{[], ◌∷◌, None, Some, Vec};
ghost use Rattle.std.specs.declared.alloc.Global.{Global};
ghost use Rattle.urb_names.specs.declared.refusal.Refusal.TheVariants as refusal;
ghost use Rattle.urb_stable.specs.Entries.{Entry};
ghost use Rattle.urb_stable.specs.declared.stable.StoreFault.TheVariants as fault;
ghost use Rattle.urb_world.specs.Step.{Commit, Fail, Restart, Tick};
ghost use Rattle.urb_group.specs.declared.reply.Reply.TheVariants as reply;
ghost use Rattle.urb_world.specs.internal.Examples.{pending};
ghost use Rattle.urb_turn.specs.Settlings.{NothingNew, OutOfMemory};
ghost use Rattle.urb_turn.specs.Turns.{Ends};
ghost use Rattle.urb_turn.specs.declared.job.Job.TheVariants as job;
ghost use Rattle.urb_turn.specs.declared.turn_stages.Stage.TheVariants as stage;
ghost use Rattle.urb_turn.specs.internal.TurnExamples.{failed_disk, first_of_one, house_of_four};
ghost use Rattle.urb_turn.specs.internal.TurnExamples.{house_of_none, new_status};
ghost use Rattle.urb_turn.specs.internal.TurnExamples.{nothing_released};

/// A receipt is one event, its names are settled, and the reply says what it did.
pub fn receipts_that_end()
    ensures of_a_record_that_was_not_held { Ends (house_of_four []) (job.Tick 1)
        (stage.Kept first_of_one) (house_of_four (Commit 1 1 (pending 1 1) ∷ []))
        (reply.Stored nothing_released) None NothingNew 1 → ⊥ }
    ensures that_are_not_in_the_past { Ends (house_of_none []) (job.Tick 1)
        (stage.Kept first_of_one) (house_of_none [])
        (reply.Stored nothing_released) None NothingNew 1 → ⊥ }
    ensures with_another_reply { Ends (house_of_none []) (job.Tick 1)
        (stage.Kept first_of_one) (house_of_none (Commit 1 1 (pending 1 1) ∷ []))
        (reply.Up 1) None NothingNew 1 → ⊥ }
    ensures with_a_status { Ends (house_of_none []) (job.Tick 1)
        (stage.Kept first_of_one) (house_of_none (Commit 1 1 (pending 1 1) ∷ []))
        (reply.Stored nothing_released) (Some new_status) NothingNew 1 → ⊥ }
    ensures with_two_events { Ends (house_of_none []) (job.Tick 1)
        (stage.Kept first_of_one) (house_of_none (Commit 1 1 (pending 1 1) ∷ []))
        (reply.Stored nothing_released) None NothingNew 2 → ⊥ }
{}

/// A failed store is one event, and the reply is its refusal.
pub fn failures_that_end()
    ensures of_a_node_that_holds_no_draft { Ends (house_of_four []) (job.Tick 1)
        (stage.Doubtful failed_disk) (house_of_four (Fail 1 ∷ []))
        (reply.Refused refusal.Device) None NothingNew 1 → ⊥ }
    ensures that_are_not_in_the_past { Ends (house_of_none []) (job.Tick 1)
        (stage.Doubtful failed_disk) (house_of_none [])
        (reply.Refused refusal.Device) None NothingNew 1 → ⊥ }
    ensures with_another_reply { Ends (house_of_none []) (job.Tick 1)
        (stage.Doubtful failed_disk) (house_of_none (Fail 1 ∷ [])) (reply.Up 1) None NothingNew 1
        → ⊥ }
    ensures with_a_status { Ends (house_of_none []) (job.Tick 1)
        (stage.Doubtful failed_disk) (house_of_none (Fail 1 ∷ []))
        (reply.Refused refusal.Device) (Some new_status) NothingNew 1 → ⊥ }
    ensures with_names_to_settle { Ends (house_of_none []) (job.Tick 1)
        (stage.Doubtful failed_disk) (house_of_none (Fail 1 ∷ []))
        (reply.Refused refusal.Device) None OutOfMemory 1 → ⊥ }
    ensures with_two_events { Ends (house_of_none []) (job.Tick 1)
        (stage.Doubtful failed_disk) (house_of_none (Fail 1 ∷ []))
        (reply.Refused refusal.Device) None NothingNew 2 → ⊥ }
{}

/// A restart with an image is one event, and the reply says whether the node came up.
pub fn restarts_that_end()
    ensures of_a_ready_node { (image : Vec Entry Global) → Ends (house_of_four []) (job.Restart 1)
        (stage.Retrieved image) (house_of_four (Restart 1 image.items ∷ []))
        (reply.Up 1) None NothingNew 1 → ⊥ }
    ensures that_are_not_in_the_past { (image : Vec Entry Global) →
        Ends (house_of_none []) (job.Restart 1) (stage.Retrieved image) (house_of_none [])
        (reply.Up 1) None NothingNew 1 → ⊥ }
    ensures with_another_reply { (image : Vec Entry Global) →
        Ends (house_of_none []) (job.Restart 1) (stage.Retrieved image)
        (house_of_none (Restart 1 image.items ∷ [])) (reply.WentDown 1) None NothingNew 1 → ⊥ }
    ensures with_a_status { (image : Vec Entry Global) →
        Ends (house_of_none []) (job.Restart 1) (stage.Retrieved image)
        (house_of_none (Restart 1 image.items ∷ [])) (reply.Up 1) (Some new_status) NothingNew 1
        → ⊥ }
    ensures with_two_events { (image : Vec Entry Global) →
        Ends (house_of_none []) (job.Restart 1) (stage.Retrieved image)
        (house_of_none (Restart 1 image.items ∷ [])) (reply.Up 1) None NothingNew 2 → ⊥ }
{}

/// Without an image a restart is refused for the store's fault, and is no event.
pub fn unread_images_that_end()
    ensures in_another_house { Ends (house_of_none []) (job.Restart 1) (stage.Unread fault.Device)
        (house_of_none (Tick 1 ∷ [])) (reply.Refused refusal.Device) None NothingNew 0 → ⊥ }
    ensures with_another_refusal { Ends (house_of_none []) (job.Restart 1)
        (stage.Unread fault.Device) (house_of_none []) (reply.Refused refusal.Down) None NothingNew 0
        → ⊥ }
    ensures with_a_status { Ends (house_of_none []) (job.Restart 1) (stage.Unread fault.Device)
        (house_of_none []) (reply.Refused refusal.Device) (Some new_status) NothingNew 0 → ⊥ }
    ensures with_names_to_settle { Ends (house_of_none []) (job.Restart 1)
        (stage.Unread fault.Device) (house_of_none []) (reply.Refused refusal.Device) None
        OutOfMemory 0 → ⊥ }
    ensures with_an_event { Ends (house_of_none []) (job.Restart 1) (stage.Unread fault.Device)
        (house_of_none []) (reply.Refused refusal.Device) None NothingNew 1 → ⊥ }
{}

/// A status says what the House reports, and changes nothing.
pub fn statuses_that_end()
    ensures of_a_node_that_is_there { Ends (house_of_four []) (job.Status 1) stage.Asking
        (house_of_four []) (reply.Refused refusal.BadNode) None NothingNew 0 → ⊥ }
    ensures in_another_house { Ends (house_of_none []) (job.Status 1) stage.Asking
        (house_of_none (Tick 1 ∷ [])) (reply.Up 1) (Some new_status) NothingNew 0 → ⊥ }
    ensures with_another_reply { Ends (house_of_none []) (job.Status 1) stage.Asking
        (house_of_none []) (reply.WentDown 1) (Some new_status) NothingNew 0 → ⊥ }
    ensures with_names_to_settle { Ends (house_of_none []) (job.Status 1) stage.Asking
        (house_of_none []) (reply.Up 1) (Some new_status) OutOfMemory 0 → ⊥ }
    ensures with_an_event { Ends (house_of_none []) (job.Status 1) stage.Asking
        (house_of_none []) (reply.Up 1) (Some new_status) NothingNew 1 → ⊥ }
{}

/// An answer is given as it is, and changes nothing.
pub fn answers_that_end()
    ensures as_they_are { Ends (house_of_four []) (job.Tick 1) (stage.Answered (reply.Sent []))
        (house_of_four []) (reply.Sent []) None NothingNew 0 }
    ensures in_another_house { Ends (house_of_none []) (job.Tick 1) (stage.Answered (reply.Sent []))
        (house_of_none (Tick 1 ∷ [])) (reply.Sent []) None NothingNew 0 → ⊥ }
    ensures with_another_reply { Ends (house_of_none []) (job.Tick 1)
        (stage.Answered (reply.Sent [])) (house_of_none []) (reply.Up 1) None NothingNew 0 → ⊥ }
    ensures with_a_status { Ends (house_of_none []) (job.Tick 1) (stage.Answered (reply.Sent []))
        (house_of_none []) (reply.Sent []) (Some new_status) NothingNew 0 → ⊥ }
    ensures with_names_to_settle { Ends (house_of_none []) (job.Tick 1)
        (stage.Answered (reply.Sent [])) (house_of_none []) (reply.Sent []) None OutOfMemory 0 → ⊥ }
    ensures with_an_event { Ends (house_of_none []) (job.Tick 1) (stage.Answered (reply.Sent []))
        (house_of_none []) (reply.Sent []) None NothingNew 1 → ⊥ }
{}
