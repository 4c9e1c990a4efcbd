//! Whole sessions, and sessions that broke off. The silent desk answers no request.
ghost use Rattle.std.specs.Prelude.{[], ◌∷◌, Some};
ghost use Rattle.urb_names.specs.declared.refusal.NoMemory.{NoMemory};
ghost use Rattle.urb_client.specs.Requests.{Ask};
ghost use Rattle.urb_client.specs.Sessions.{Asks, BreaksOff, Meets, Served, TakesPart};
ghost use Rattle.urb_client.specs.Sessions.{WholeSession};
ghost use Rattle.urb_client.specs.declared.frame_write.WriteFailed.{WriteFailed};
ghost use Rattle.urb_client.specs.declared.full_read.ReadFailed.{ReadFailed};
ghost use Rattle.urb_client.specs.declared.request.Control.TheVariants.{Status};
ghost use Rattle.urb_client.specs.declared.sessions.Ended.TheVariants.{Closed};
ghost use Rattle.urb_client.specs.declared.sessions.SessionFault.TheVariants as fault;
ghost use Rattle.urb_format_examples.specs.internal.FrameExamples.{asking_status, counts};
ghost use Rattle.urb_format_examples.specs.internal.FrameExamples.{empty_frame, is_silent, stays};

/// A whole session reads all of its input, and answers it.
pub fn what_a_whole_session_does()
    ensures a_byte_unread { WholeSession counts (1 ∷ []) Closed [] 0 0 (Some []) (Some []) → ⊥ }
    ensures a_change_for_nothing { WholeSession counts [] Closed [] 0 1 (Some []) (Some []) → ⊥ }
    ensures another_rest { Served counts [] (1 ∷ []) 0 0 (Some []) (Some []) → ⊥ }
    ensures another_desk { Served counts [] [] 0 1 (Some []) (Some []) → ⊥ }
    ensures a_desk_that_counts_twice { Meets counts 0 (Asks (Ask Status)) 2 → ⊥ }
    ensures a_part_of_nothing { TakesPart [] (1 ∷ []) → ⊥ }
    ensures a_part_that_is_a_whole_frame { TakesPart asking_status [] → ⊥ }
{}

/// What a session that broke off has read and answered, by its fault.
pub fn how_a_session_breaks_off()
    ensures reading_nothing { (why : ReadFailed) → BreaksOff is_silent stays [] (fault.Read why)
        (1 ∷ []) 0 0 (Some []) (Some []) → ⊥ }
    ensures without_memory_for_nothing { (why : NoMemory) → BreaksOff is_silent stays []
        (fault.NoMemory why) (1 ∷ []) 0 0 (Some []) (Some []) → ⊥ }
    ensures without_memory_at_no_frame { (why : NoMemory) → BreaksOff is_silent stays []
        (fault.NoMemory why) [] 0 0 (Some []) (Some []) → ⊥ }
    ensures without_memory_for_what_it_wrote { (why : NoMemory) → BreaksOff is_silent stays
        empty_frame (fault.NoMemory why) [] 0 0 (Some []) (Some (1 ∷ [])) → ⊥ }
    ensures writing_for_nothing { (why : WriteFailed) → BreaksOff is_silent stays []
        (fault.Write why) (1 ∷ []) 0 0 (Some []) (Some []) → ⊥ }
    ensures writing_at_another_desk { (why : WriteFailed) → BreaksOff is_silent stays empty_frame
        (fault.Write why) [] 0 1 (Some []) (Some []) → ⊥ }
    ensures after_too_few { BreaksOff is_silent stays [] fault.TooMany [] 0 0
        (Some []) (Some []) → ⊥ }
    ensures after_a_bad_frame { BreaksOff is_silent stays empty_frame fault.TooMany [] 0 0
        (Some []) (Some []) → ⊥ }
{}
