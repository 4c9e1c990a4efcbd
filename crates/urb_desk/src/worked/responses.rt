//! Worked examples of responses that are true: of what was stored, of a status, a crash, a restart.
//!
//! Each of the rows that end in ⊥ breaks one part of what a response says.
ghost use Rattle.std.specs.Prelude.{[], ◌∷◌};
ghost use Rattle.urb_client.specs.Requests.{Submit};
ghost use Rattle.urb_client.specs.Responses.{Accepted, Done as IsDone, Refused, Status};
ghost use Rattle.urb_client.specs.declared.response.NodeState.TheVariants as told;
ghost use Rattle.urb_world.specs.Step.{Crash, Restart, Tick};
ghost use Rattle.urb_world.specs.internal.Scripts.{message};
ghost use Rattle.urb_show.specs.internal.ReaderExamples.{new_four};
ghost use Rattle.urb_desk.specs.Desks.{HasAccepted, HasCrashed, HasRestarted, Tells, WasSo};
ghost use Rattle.urb_turn.specs.internal.TurnExamples.{stored_four};
ghost use Rattle.urb_desk.specs.internal.DeskExamples.{ask_crash, ask_restart, ask_status};

/// A message that was accepted is stored, at a place behind all that had been seen.
pub fn accepted_messages()
    ensures stored_at_the_opening { HasAccepted stored_four [] [] 1 (message 7 1 "") 1 }
    ensures stored_by_no_event { HasAccepted new_four [] [] 1 (message 7 1 "") 1 → ⊥ }
    ensures behind_what_did_not_happen { HasAccepted stored_four (Tick 1 ∷ []) [] 1 (message 7 1 "") 1
        → ⊥ }
{}

/// A status was a node's status at a place behind all that had been seen.
pub fn statuses_that_were_so()
    ensures down_at_the_opening { WasSo new_four [] [] 1 told.Down 0 0 → ⊥ }
    ensures ready_at_the_opening { WasSo new_four [] [] 1 told.Ready 0 0 }
    ensures behind_what_did_not_happen { WasSo new_four (Tick 1 ∷ []) [] 1 told.Ready 0 0 → ⊥ }
{}

/// A crash and a restart have happened at a place behind all that had been seen.
pub fn crashes_and_restarts()
    ensures a_crash { HasCrashed new_four [] (Crash 1 ∷ []) 1 }
    ensures no_crash { HasCrashed new_four [] [] 1 → ⊥ }
    ensures a_crash_before { HasCrashed new_four (Crash 1 ∷ []) (Crash 1 ∷ []) 1 → ⊥ }
    ensures no_restart { HasRestarted new_four [] [] 1 → ⊥ }
    ensures a_restart { HasRestarted new_four [] (Crash 1 ∷ Restart 1 [] ∷ []) 1 }
    ensures a_restart_before { HasRestarted new_four (Crash 1 ∷ Restart 1 [] ∷ [])
        (Crash 1 ∷ Restart 1 [] ∷ []) 1 → ⊥ }
{}

/// Which response to which request is true, and why.
pub fn what_responses_tell()
    ensures a_refusal { Tells new_four [] [] 1 ask_status (Refused 3 0) }
    ensures a_number { Tells stored_four [] [] 1 (Submit 7 1 []) (Accepted 1) }
    ensures a_number_of_nothing { Tells new_four [] [] 1 (Submit 7 1 []) (Accepted 1) → ⊥ }
    ensures a_status { Tells new_four [] [] 1 ask_status (Status told.Ready 0 0) }
    ensures another_status { Tells new_four [] [] 1 ask_status (Status told.Down 0 0) → ⊥ }
    ensures a_crash { Tells new_four [] (Crash 1 ∷ []) 1 ask_crash IsDone }
    ensures no_crash { Tells new_four [] [] 1 ask_crash IsDone → ⊥ }
    ensures no_restart { Tells new_four [] (Crash 1 ∷ []) 1 ask_restart IsDone → ⊥ }
    ensures a_restart { Tells new_four [] (Crash 1 ∷ Restart 1 [] ∷ []) 1 ask_restart IsDone }
    ensures a_status_that_is_done { Tells new_four [] (Crash 1 ∷ []) 1 ask_status IsDone → ⊥ }
{}
