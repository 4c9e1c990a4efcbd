//! Worked examples of requests at a desk, and of the responses to their replies.
ghost use Rattle.std.specs.Prelude.{[], ◌∷◌, ◌≡◌, false, true};
ghost use Rattle.urb_client.specs.Requests.{Submit};
ghost use Rattle.urb_desk.specs.ClientDesks.{is_of_a_crash};
ghost use Rattle.urb_desk.specs.Desks.{IsJobOf, said_of, told_state};
ghost use Rattle.urb_turn.specs.declared.job.Job.TheVariants as job;
ghost use Rattle.urb_desk.specs.internal.DeskExamples.{ask_crash, ask_restart, ask_status};
ghost use Rattle.urb_client.specs.Responses.{Accepted, Done as IsDone, Refused};
ghost use Rattle.urb_client.specs.declared.response.NodeState.TheVariants as told;
ghost use Rattle.urb_names.specs.Names.{name};
ghost use Rattle.urb_node.specs.declared.answer.Answer.TheVariants as answer;
ghost use Rattle.urb_group.specs.declared.reply.Reply.TheVariants as reply;
ghost use Rattle.urb_group.specs.declared.state.State.TheVariants as state;

/// A job is what a request asks if all its parts are the request's.
pub fn jobs_of_requests()
    ensures its_own { IsJobOf 1 (Submit 7 1 []) (job.Submit 1 7 1 []) }
    ensures at_another_node { IsJobOf 1 (Submit 7 1 []) (job.Submit 2 7 1 []) → ⊥ }
    ensures of_another_client { IsJobOf 1 (Submit 7 1 []) (job.Submit 1 8 1 []) → ⊥ }
    ensures of_another_number { IsJobOf 1 (Submit 7 1 []) (job.Submit 1 7 2 []) → ⊥ }
    ensures of_another_payload { IsJobOf 1 (Submit 7 1 []) (job.Submit 1 7 1 (0 ∷ [])) → ⊥ }
    ensures of_another_kind { IsJobOf 1 ask_crash (job.Restart 1) → ⊥ }
    ensures a_crash { is_of_a_crash ask_crash ≡ true }
    ensures a_restart { is_of_a_crash ask_restart ≡ true }
    ensures no_status { is_of_a_crash ask_status ≡ false }
{}

/// What a client gets for a reply, and for a state.
pub fn responses_to_replies()
    ensures a_number { said_of (reply.Same (answer.Accepted (name 1 5))) ≡ Accepted 5 }
    ensures not_the_answer_to_a_packet { said_of (reply.Same (answer.Noted (name 1 5)))
        ≡ Refused 3 0 }
    ensures the_number_of_a_stored_one { said_of (reply.Stored (record {
      accepted = true;
      name = name 1 5;
      sent = [];
      released = 0;
    })) ≡ Accepted 5 }
    ensures no_number_of_anothers { said_of (reply.Stored (record {
      accepted = false;
      name = name 2 5;
      sent = [];
      released = 0;
    })) ≡ Refused 3 0 }
    ensures a_restart_is_done { said_of (reply.Up 1) ≡ IsDone }
    ensures a_draft_is_none { said_of (reply.Drafted (name 1 5) 1) ≡ Refused 3 0 }
    ensures down { told_state state.Down ≡ told.Down }
    ensures ready { told_state state.Ready ≡ told.Ready }
    ensures storing { told_state state.Storing ≡ told.Storing }
{}
