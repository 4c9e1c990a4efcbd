//! What a session reads, and what it replies.
ghost use Rattle.std.specs.Prelude.{[], ◌∷◌, ◌≡◌, List, replicate, ℕ};
ghost use Rattle.urb_client.specs.Requests.{Ask};
ghost use Rattle.urb_client.specs.Responses.{Accepted, Done, Refused, encoding};
ghost use Rattle.urb_client.specs.Sessions.{Asks, Begins, Ends, Event, Fault, HasBadLength};
ghost use Rattle.urb_client.specs.Sessions.{IsReadOnce, Reads, Replies};
ghost use Rattle.urb_client.specs.declared.format.TheConstants.{BAD_LENGTH, CUT, LONGEST_REQUEST};
ghost use Rattle.urb_client.specs.declared.format.TheConstants.{UNKNOWN_OPCODE, WRONG_LENGTH};
ghost use Rattle.urb_client.specs.declared.request.Control.TheVariants.{Crash, Status};
ghost use Rattle.urb_client.specs.declared.sessions.Ended.TheVariants.{BadFrame, Closed};
ghost use Rattle.urb_format_examples.specs.internal.FrameExamples.{asking_status, counts};
ghost use Rattle.urb_format_examples.specs.internal.FrameExamples.{empty_frame};

/// Bytes begin with whole frames, none of them empty or too long.
pub fn how_bytes_begin()
    ensures an_empty_frame { Begins empty_frame (Fault UNKNOWN_OPCODE ∷ []) [] → ⊥ }
    ensures a_frame_that_is_too_long { Begins (64 ∷ 217 ∷ 3 ∷ replicate LONGEST_REQUEST 0)
        (Fault WRONG_LENGTH ∷ []) [] → ⊥ }
    ensures no_frame { Begins [] (Asks (Ask Status) ∷ []) [] → ⊥ }
    ensures another_request { Begins asking_status (Asks (Ask Crash) ∷ []) [] → ⊥ }
    ensures another_rest { Begins asking_status (Asks (Ask Status) ∷ []) (9 ∷ []) → ⊥ }
{}

/// A bad length is 0, or over that of the longest request.
pub fn bad_lengths()
    ensures of_no_bytes { HasBadLength [] [] → ⊥ }
    ensures of_one { HasBadLength (0 ∷ 1 ∷ []) [] → ⊥ }
{}

/// A session is closed between two frames, or ends by a broken one.
pub fn how_a_session_ends()
    ensures closed { Ends [] Closed [] [] }
    ensures closed_inside_a_frame { Ends (1 ∷ []) Closed [] [] → ⊥ }
    ensures closed_with_a_fault { Ends [] Closed (Fault CUT ∷ []) [] → ⊥ }
    ensures closed_with_a_rest { Ends [] Closed [] (1 ∷ []) → ⊥ }
    ensures broken_without_a_frame { Ends [] BadFrame (Fault BAD_LENGTH ∷ []) [] → ⊥ }
    ensures broken_without_a_fault { Ends (0 ∷ []) BadFrame [] [] → ⊥ }
{}

/// All that the input says is read: its frames, and how it ends.
pub fn what_a_session_reads()
    ensures a_request_unread { Reads asking_status Closed [] [] → ⊥ }
    ensures a_byte_unread { Reads (1 ∷ []) Closed [] [] → ⊥ }
    ensures a_fault_in_no_bytes { Reads [] Closed (Fault BAD_LENGTH ∷ []) [] → ⊥ }
{}

/// An input is read in one way alone: with one end, the same events, and the same rest.
pub fn what_one_input_says()
    ensures one_end { IsReadOnce → (bytes left : List ℕ) (events others : List Event)
        → Reads bytes Closed events [] → Reads bytes BadFrame others left → ⊥ }
    ensures the_same_events { IsReadOnce → (bytes : List ℕ) (events others : List Event)
        → (events ≡ others → ⊥) → Reads bytes Closed events [] → Reads bytes Closed others []
        → ⊥ }
    ensures the_same_rest { IsReadOnce → (bytes : List ℕ) (events : List Event)
        → Reads bytes BadFrame events [] → Reads bytes BadFrame events (1 ∷ []) → ⊥ }
{}

/// A desk answers each request, and each fault is refused with its code.
pub fn what_a_session_replies()
    ensures bytes_for_nothing { Replies counts 0 [] (1 ∷ []) 0 → ⊥ }
    ensures a_change_for_nothing { Replies counts 0 [] [] 1 → ⊥ }
    ensures an_answer_that_the_desk_never_gives { Replies counts 0 (Asks (Ask Status) ∷ [])
        (encoding (Accepted 1)) 0 → ⊥ }
    ensures no_answer { Replies counts 0 (Asks (Ask Status) ∷ []) [] 1 → ⊥ }
    ensures a_change_too_many { Replies counts 0 (Asks (Ask Status) ∷ []) (encoding Done) 2 → ⊥ }
    ensures no_refusal { Replies counts 0 (Fault CUT ∷ []) [] 0 → ⊥ }
    ensures a_change_by_a_fault { Replies counts 0 (Fault CUT ∷ [])
        (encoding (Refused 19 CUT)) 1 → ⊥ }
{}
