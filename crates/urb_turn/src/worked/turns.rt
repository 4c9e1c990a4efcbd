//! Worked examples of the beginning of a turn and of its store's part: what neither of them can be.
//!
//! Each of the rows that end in ⊥ breaks one part of what the job or the stage says.
ghost use Rattle.std.specs.Prelude.{[], ◌∷◌, ◌≡◌, Vec, ℕ};
ghost use Rattle.std.specs.declared.alloc.Global.{Global};
ghost use Rattle.urb_names.specs.Names.{name};
ghost use Rattle.urb_names.specs.PacketGrammar.{packet_of};
ghost use Rattle.urb_names.specs.declared.refusal.Refusal.TheVariants as refusal;
ghost use Rattle.urb_node.specs.declared.answer.Answer.TheVariants as answer;
ghost use Rattle.urb_stable.specs.Entries.{Entry};
ghost use Rattle.urb_stable.specs.MemoryStores.{empty_memory};
ghost use Rattle.urb_stable.specs.declared.stable.StoreFault.TheVariants as fault;
ghost use Rattle.urb_world.specs.Step.{Arrive, Crash, Submit, Tick};
ghost use Rattle.urb_group.specs.declared.reply.Reply.TheVariants as reply;
ghost use Rattle.urb_world.specs.internal.Scripts.{message};
ghost use Rattle.urb_turn.specs.Turns.{Begins, Stores};
ghost use Rattle.urb_turn.specs.declared.job.Job.TheVariants as job;
ghost use Rattle.urb_turn.specs.declared.turn_stages.Stage.TheVariants as stage;
ghost use Rattle.urb_turn.specs.internal.TurnExamples.{failed_disk, first_of_one, first_of_two};
ghost use Rattle.urb_turn.specs.internal.TurnExamples.{holding, house_of_four, house_of_none};
ghost use Rattle.urb_turn.specs.internal.TurnExamples.{memory};

/// A draft is kept by its receipt, and the store then holds its record.
pub fn drafts_at_a_store()
    ensures a_receipt_of_another { Stores memory empty_memory (stage.Drafted first_of_one) holding
        (stage.Kept first_of_two) → ⊥ }
    ensures a_store_that_keeps_nothing { Stores memory empty_memory (stage.Drafted first_of_one)
        empty_memory (stage.Kept first_of_one) → ⊥ }
    ensures another_stage { Stores memory empty_memory (stage.Drafted first_of_one) holding
        stage.Asking → ⊥ }
    ensures an_image_that_forgets { Stores memory holding stage.Retrieving empty_memory
        (stage.Unread fault.NoMemory) → ⊥ }
    ensures no_image { Stores memory empty_memory stage.Retrieving empty_memory stage.Asking → ⊥ }
{}

/// In all other stages the store isn't asked, so the store and the stage stay.
pub fn stages_without_the_store()
    ensures a_question { Stores memory empty_memory stage.Asking empty_memory stage.Asking }
    ensures a_receipt_that_stores { Stores memory empty_memory (stage.Kept first_of_one) holding
        (stage.Kept first_of_one) → ⊥ }
    ensures a_receipt_that_is_lost { Stores memory empty_memory (stage.Kept first_of_one)
        empty_memory stage.Asking → ⊥ }
    ensures a_doubt_that_stores { Stores memory empty_memory (stage.Doubtful failed_disk) holding
        (stage.Doubtful failed_disk) → ⊥ }
    ensures a_doubt_that_is_lost { Stores memory empty_memory (stage.Doubtful failed_disk)
        empty_memory stage.Asking → ⊥ }
    ensures an_image_that_stores { (image : Vec Entry Global) →
        Stores memory empty_memory (stage.Retrieved image) holding (stage.Retrieved image) → ⊥ }
    ensures an_image_that_is_lost { (image : Vec Entry Global) →
        Stores memory empty_memory (stage.Retrieved image) empty_memory stage.Asking → ⊥ }
    ensures a_fault_that_stores { Stores memory empty_memory (stage.Unread fault.Device) holding
        (stage.Unread fault.Device) → ⊥ }
    ensures a_fault_that_is_lost { Stores memory empty_memory (stage.Unread fault.Device)
        empty_memory stage.Asking → ⊥ }
    ensures a_question_that_stores { Stores memory empty_memory stage.Asking holding stage.Asking → ⊥ }
    ensures a_question_that_is_lost { Stores memory empty_memory stage.Asking empty_memory
        stage.Retrieving → ⊥ }
    ensures an_answer_that_stores { Stores memory empty_memory (stage.Answered (reply.Up 1)) holding
        (stage.Answered (reply.Up 1)) → ⊥ }
    ensures an_answer_that_is_lost { Stores memory empty_memory (stage.Answered (reply.Up 1))
        empty_memory stage.Asking → ⊥ }
{}

/// A submit is one event of the House, which counts if it isn't refused.
pub fn submits_that_begin()
    ensures of_another_answer { Begins (house_of_four []) (job.Submit 1 7 1 [])
        (house_of_four (Submit 1 (message 7 1 "") ∷ []))
        (stage.Answered (reply.Same (answer.Accepted (name 1 1)))) 1 → ⊥ }
    ensures that_is_not_in_the_past { Begins (house_of_none []) (job.Submit 1 7 1 [])
        (house_of_none []) (stage.Answered (reply.Same (answer.Accepted (name 1 1)))) 1 → ⊥ }
    ensures in_another_stage { Begins (house_of_none []) (job.Submit 1 7 1 [])
        (house_of_none (Submit 1 (message 7 1 "") ∷ [])) stage.Asking 1 → ⊥ }
    ensures with_two_events { Begins (house_of_none []) (job.Submit 1 7 1 [])
        (house_of_none (Submit 1 (message 7 1 "") ∷ []))
        (stage.Answered (reply.Same (answer.Accepted (name 1 1)))) 2 → ⊥ }
{}

/// So is an arrival.
pub fn arrivals_that_begin()
    ensures of_another_answer { (bytes : Vec ℕ Global) → bytes.items ≡ [] →
        Begins (house_of_four []) (job.Arrive 1 bytes)
        (house_of_four (Arrive 1 (packet_of bytes.items) ∷ []))
        (stage.Answered (reply.Same (answer.Noted (name 1 1)))) 1 → ⊥ }
    ensures that_is_not_in_the_past { (bytes : Vec ℕ Global) →
        Begins (house_of_none []) (job.Arrive 1 bytes) (house_of_none [])
        (stage.Answered (reply.Same (answer.Noted (name 1 1)))) 1 → ⊥ }
    ensures in_another_stage { (bytes : Vec ℕ Global) →
        Begins (house_of_none []) (job.Arrive 1 bytes)
        (house_of_none (Arrive 1 (packet_of bytes.items) ∷ [])) stage.Asking 1 → ⊥ }
    ensures with_two_events { (bytes : Vec ℕ Global) →
        Begins (house_of_none []) (job.Arrive 1 bytes)
        (house_of_none (Arrive 1 (packet_of bytes.items) ∷ []))
        (stage.Answered (reply.Same (answer.Noted (name 1 1)))) 2 → ⊥ }
{}

/// So are a tick and a crash.
pub fn ticks_and_crashes_that_begin()
    ensures a_refused_tick { Begins (house_of_four []) (job.Tick 1) (house_of_four [])
        (stage.Answered (reply.Refused refusal.Down)) 0 → ⊥ }
    ensures a_tick { Begins (house_of_none []) (job.Tick 1) (house_of_none (Tick 1 ∷ []))
        (stage.Answered (reply.Sent [])) 1 }
    ensures a_tick_that_is_not_in_the_past { Begins (house_of_none []) (job.Tick 1)
        (house_of_none []) (stage.Answered (reply.Sent [])) 1 → ⊥ }
    ensures a_tick_in_another_stage { Begins (house_of_none []) (job.Tick 1)
        (house_of_none (Tick 1 ∷ [])) stage.Asking 1 → ⊥ }
    ensures a_tick_with_two_events { Begins (house_of_none []) (job.Tick 1)
        (house_of_none (Tick 1 ∷ [])) (stage.Answered (reply.Sent [])) 2 → ⊥ }
    ensures a_refused_crash { Begins (house_of_four []) (job.Crash 1) (house_of_four [])
        (stage.Answered (reply.Refused refusal.Down)) 0 → ⊥ }
    ensures a_crash { Begins (house_of_none []) (job.Crash 1) (house_of_none (Crash 1 ∷ []))
        (stage.Answered (reply.WentDown 1)) 1 }
    ensures a_crash_that_is_not_in_the_past { Begins (house_of_none []) (job.Crash 1)
        (house_of_none []) (stage.Answered (reply.WentDown 1)) 1 → ⊥ }
    ensures a_crash_in_another_stage { Begins (house_of_none []) (job.Crash 1)
        (house_of_none (Crash 1 ∷ [])) stage.Asking 1 → ⊥ }
    ensures a_crash_with_two_events { Begins (house_of_none []) (job.Crash 1)
        (house_of_none (Crash 1 ∷ [])) (stage.Answered (reply.WentDown 1)) 2 → ⊥ }
{}

/// A restart asks for the node's state, and a status for nothing. Neither is an event.
pub fn questions_that_begin()
    ensures a_restart { Begins (house_of_none []) (job.Restart 1) (house_of_none []) stage.Retrieving 0 }
    ensures a_restart_of_a_ready_node { Begins (house_of_four []) (job.Restart 1) (house_of_four [])
        stage.Retrieving 0 → ⊥ }
    ensures a_restart_with_an_event_in_the_past { Begins (house_of_none []) (job.Restart 1)
        (house_of_none (Tick 1 ∷ [])) stage.Retrieving 0 → ⊥ }
    ensures a_restart_in_another_stage { Begins (house_of_none []) (job.Restart 1)
        (house_of_none []) stage.Asking 0 → ⊥ }
    ensures a_restart_with_an_event { Begins (house_of_none []) (job.Restart 1) (house_of_none [])
        stage.Retrieving 1 → ⊥ }
    ensures a_status { Begins (house_of_none []) (job.Status 1) (house_of_none []) stage.Asking 0 }
    ensures a_status_with_an_event_in_the_past { Begins (house_of_none []) (job.Status 1)
        (house_of_none (Tick 1 ∷ [])) stage.Asking 0 → ⊥ }
    ensures a_status_in_another_stage { Begins (house_of_none []) (job.Status 1) (house_of_none [])
        stage.Retrieving 0 → ⊥ }
    ensures a_status_with_an_event { Begins (house_of_none []) (job.Status 1) (house_of_none [])
        stage.Asking 1 → ⊥ }
{}
