//! The jobs that requests ask for, and what responses never tell of an opening without a world.
//!
//! The group `shows_none` shows no world. So whatever a row says of its worlds is empty, and only the
//! claim fails that an opening showed a world.
ghost use Rattle.std.specs.Prelude.{[], ◌∷◌, ◌≡◌, codes};
ghost use Rattle.urb_client.specs.declared.request.Control.TheVariants as control;
ghost use Rattle.urb_client.specs.declared.response.NodeState.TheVariants.{Ready};
ghost use Rattle.urb_desk.specs.Desks.{HasAccepted, HasCrashed, HasRestarted, WasSo, control_job};
ghost use Rattle.urb_show.specs.internal.ReaderExamples.{shows_none};
ghost use Rattle.urb_turn.specs.declared.job.Job.TheVariants as job;
ghost use Rattle.urb_world.specs.Step.{Crash, Restart};
ghost use Rattle.urb_world.specs.internal.Scripts.{message};

/// Each request without fields has its own job.
pub fn jobs_of_requests()
    ensures for_a_status { control_job 2 control.Status ≡ job.Status 2 }
    ensures for_a_crash { control_job 2 control.Crash ≡ job.Crash 2 }
    ensures for_a_restart { control_job 2 control.Restart ≡ job.Restart 2 }
{}

/// A response tells nothing of a group that showed no world at its opening.
pub fn what_no_response_tells()
    ensures accepted { HasAccepted shows_none [] [] 1 (message 7 1 "a") 1 → ⊥ }
    ensures a_status { WasSo shows_none [] [] 1 Ready 0 0 → ⊥ }
    ensures a_crash { HasCrashed shows_none [] (Crash 1 ∷ []) 1 → ⊥ }
    ensures a_restart { HasRestarted shows_none [] (Restart 1 [] ∷ []) 1 → ⊥ }
{}
