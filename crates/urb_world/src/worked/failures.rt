//! Scripts with failed stores, crashes, restarts, and stops of the whole process.
ghost use Rattle.std.specs.Prelude.{[], ◌∷◌, None, Some};
ghost use Rattle.urb_names.specs.declared.refusal.Refusal.TheVariants as refusal;
ghost use Rattle.urb_names.specs.Names.{name};
ghost use Rattle.urb_stable.specs.declared.record.Record.TheVariants.{Pend, Cert};
ghost use Rattle.urb_node.specs.Part.{Down, Ready};
ghost use Rattle.urb_world.specs.internal.Scripts.{◌⇒◌, Plays, Drafts, Accepts, Takes, Logs, Holds};
ghost use Rattle.urb_world.specs.internal.Scripts.{Is, Opens, Sends, Refuses, accepted, noted};
ghost use Rattle.urb_world.specs.internal.Scripts.{again, down, up, message, submit, store};
ghost use Rattle.urb_world.specs.internal.Scripts.{fail_old, fail_new, crash, restart};
ghost use Rattle.urb_world.specs.internal.Scripts.{restart_with, reopen, tick, arrive, log_of};
ghost use Rattle.urb_world.specs.internal.Scripts.{held, look_at};
ghost use Rattle.urb_world.specs.internal.Examples.{pending};

/// Stores that fail.
pub fn failed_stores()
    ensures a_lost_number_is_used_again { Plays 1 10 (
        submit 1 (message 7 1 "a") ⇒ Drafts (name 1 1) 1
        ∷ fail_old 1 ⇒ down 1
        ∷ restart 1 ⇒ up 1
        ∷ submit 1 (message 7 1 "b") ⇒ Drafts (name 1 1) 1
        ∷ store 1 ⇒ Accepts (name 1 1) 0 1
        ∷ log_of 1 ⇒ Logs ((name 1 1, Some (message 7 1 "b")) ∷ [])
        ∷ []) }
    ensures a_kept_record_comes_back { Plays 3 10 (
        submit 1 (message 7 1 "a") ⇒ Drafts (name 1 1) 1
        ∷ fail_new 1 ⇒ down 1
        ∷ held 1 1 ⇒ Holds []
        ∷ restart 1 ⇒ up 1
        ∷ held 1 1 ⇒ Holds (1 ∷ [])
        ∷ submit 1 (message 7 1 "a") ⇒ accepted 1 1
        ∷ submit 1 (message 7 1 "b") ⇒ Refuses refusal.Conflict
        ∷ []) }
    ensures a_kept_certificate_delivers { Plays 3 10 (
        submit 1 (message 7 1 "a") ⇒ Drafts (name 1 1) 1
        ∷ store 1 ⇒ Accepts (name 1 1) 2 0
        ∷ arrive 1 2 1 1 ⇒ Drafts (name 1 1) 1
        ∷ store 2 ⇒ Takes (name 1 1) 2 1
        ∷ arrive 2 1 1 1 ⇒ Drafts (name 1 1) 2
        ∷ fail_new 1 ⇒ down 1
        ∷ log_of 1 ⇒ Logs []
        ∷ look_at 1 ⇒ Is (record {
          records = Pend (name 1 1) (message 7 1 "a") ∷ [];
          state = Down (Some (Cert (name 1 1)));
          acks = [];
          heard = [];
          cursor = None;
          broadcast = message 7 1 "a" ∷ [];
        })
        ∷ restart 1 ⇒ up 1
        ∷ log_of 1 ⇒ Logs ((name 1 1, Some (message 7 1 "a")) ∷ [])
        ∷ submit 1 (message 7 2 "b") ⇒ Drafts (name 1 2) 3
        ∷ []) }
    ensures a_kept_relay_is_no_broadcast { Plays 5 10 (
        submit 1 (message 7 1 "a") ⇒ Drafts (name 1 1) 1
        ∷ store 1 ⇒ Accepts (name 1 1) 4 0
        ∷ arrive 1 2 1 1 ⇒ Drafts (name 1 1) 1
        ∷ fail_new 2 ⇒ down 2
        ∷ restart 2 ⇒ up 2
        ∷ look_at 2 ⇒ Is (record {
          records = Pend (name 1 1) (message 7 1 "a") ∷ [];
          state = Ready;
          acks = (name 1 1, 2) ∷ [];
          heard = [];
          cursor = None;
          broadcast = [];
        })
        ∷ submit 2 (message 7 1 "b") ⇒ Drafts (name 2 1) 2
        ∷ []) }
{}

/// Crashes and restarts.
pub fn crashes()
    ensures acknowledgements_are_lost { Plays 5 10 (
        submit 1 (message 7 1 "a") ⇒ Drafts (name 1 1) 1
        ∷ store 1 ⇒ Accepts (name 1 1) 4 0
        ∷ arrive 1 2 1 1 ⇒ Drafts (name 1 1) 1
        ∷ store 2 ⇒ Takes (name 1 1) 4 0
        ∷ arrive 1 2 1 1 ⇒ again 1 1
        ∷ arrive 1 3 1 1 ⇒ Drafts (name 1 1) 1
        ∷ store 3 ⇒ Takes (name 1 1) 4 0
        ∷ arrive 2 1 1 1 ⇒ noted 1 1
        ∷ crash 1 ⇒ down 1
        ∷ restart 1 ⇒ up 1
        ∷ arrive 3 1 1 1 ⇒ noted 1 1
        ∷ arrive 2 1 1 1 ⇒ Drafts (name 1 1) 2
        ∷ []) }
    ensures each_state_refuses_the_rest { Plays 3 10 (
        submit 1 (message 7 1 "a") ⇒ Drafts (name 1 1) 1
        ∷ submit 1 (message 8 1 "b") ⇒ Refuses refusal.Busy
        ∷ restart 1 ⇒ Refuses refusal.NotDown
        ∷ crash 1 ⇒ down 1
        ∷ submit 1 (message 8 1 "b") ⇒ Refuses refusal.Down
        ∷ []) }
    ensures a_draft_stays_doubtful_until_a_restart { Plays 3 10 (
        submit 1 (message 7 1 "") ⇒ Drafts (name 1 1) 1
        ∷ crash 1 ⇒ down 1
        ∷ restart_with 1 (pending 1 2 ∷ []) ⇒ Refuses refusal.BadImage
        ∷ crash 1 ⇒ Refuses refusal.Down
        ∷ fail_old 1 ⇒ Refuses refusal.Down
        ∷ restart_with 1 (pending 1 1 ∷ []) ⇒ up 1
        ∷ submit 1 (message 7 1 "") ⇒ accepted 1 1
        ∷ []) }
    ensures a_restart_without_it_ends_the_doubt { Plays 3 10 (
        submit 1 (message 7 1 "") ⇒ Drafts (name 1 1) 1
        ∷ fail_old 1 ⇒ down 1
        ∷ restart_with 1 [] ⇒ up 1
        ∷ crash 1 ⇒ down 1
        ∷ restart_with 1 (pending 1 1 ∷ []) ⇒ Refuses refusal.BadImage
        ∷ restart_with 1 [] ⇒ up 1
        ∷ restart_with 1 [] ⇒ Refuses refusal.NotDown
        ∷ []) }
    ensures a_node_that_is_down_keeps_its_records_and_its_cursor { Plays 2 10 (
        submit 1 (message 7 1 "") ⇒ Drafts (name 1 1) 1
        ∷ store 1 ⇒ Accepts (name 1 1) 1 0
        ∷ tick 1 ⇒ Sends ((2, name 1 1) ∷ [])
        ∷ crash 1 ⇒ down 1
        ∷ look_at 1 ⇒ Is (record { records = pending 1 1 ∷ []; state = Down None; acks = []; heard = []; cursor = Some (name 1 1); broadcast = message 7 1 "" ∷ [] })
        ∷ arrive 1 2 1 1 ⇒ Drafts (name 1 1) 1
        ∷ []) }
{}

/// The whole process stops, and the group is opened again over the records that the storages hold.
pub fn stops()
    ensures logs_stay { Plays 3 10 (
        submit 1 (message 7 1 "a") ⇒ Drafts (name 1 1) 1
        ∷ store 1 ⇒ Accepts (name 1 1) 2 0
        ∷ arrive 1 2 1 1 ⇒ Drafts (name 1 1) 1
        ∷ store 2 ⇒ Takes (name 1 1) 2 1
        ∷ log_of 1 ⇒ Logs []
        ∷ arrive 2 1 1 1 ⇒ Drafts (name 1 1) 2
        ∷ store 1 ⇒ Takes (name 1 1) 0 1
        ∷ reopen ⇒ Opens
        ∷ log_of 1 ⇒ Logs ((name 1 1, Some (message 7 1 "a")) ∷ [])
        ∷ log_of 2 ⇒ Logs ((name 1 1, Some (message 7 1 "a")) ∷ [])
        ∷ submit 1 (message 7 1 "a") ⇒ accepted 1 1
        ∷ []) }
    ensures a_held_draft_is_dropped { Plays 3 10 (
        submit 1 (message 7 1 "a") ⇒ Drafts (name 1 1) 1
        ∷ reopen ⇒ Opens
        ∷ held 1 1 ⇒ Holds []
        ∷ submit 1 (message 7 1 "b") ⇒ Drafts (name 1 1) 1
        ∷ fail_new 1 ⇒ down 1
        ∷ reopen ⇒ Opens
        ∷ held 1 1 ⇒ Holds (1 ∷ [])
        ∷ submit 1 (message 7 1 "b") ⇒ accepted 1 1
        ∷ []) }
    ensures each_node_counts_itself_alone { Plays 5 10 (
        submit 1 (message 7 1 "a") ⇒ Drafts (name 1 1) 1
        ∷ store 1 ⇒ Accepts (name 1 1) 4 0
        ∷ arrive 1 2 1 1 ⇒ Drafts (name 1 1) 1
        ∷ store 2 ⇒ Takes (name 1 1) 4 0
        ∷ arrive 1 3 1 1 ⇒ Drafts (name 1 1) 1
        ∷ store 3 ⇒ Takes (name 1 1) 4 0
        ∷ arrive 2 3 1 1 ⇒ Drafts (name 1 1) 2
        ∷ reopen ⇒ Opens
        ∷ arrive 2 3 1 1 ⇒ noted 1 1
        ∷ arrive 1 3 1 1 ⇒ Drafts (name 1 1) 2
        ∷ []) }
{}
