//! Scripts without failures: what is drafted, stored, sent, counted and delivered.
ghost use Rattle.std.specs.Prelude.{[], ◌∷◌, None, Some, false};
ghost use Rattle.urb_names.specs.Names.{name};
ghost use Rattle.urb_stable.specs.declared.record.Record.TheVariants.{Pend, Cert};
ghost use Rattle.urb_node.specs.Part.{Ready, Storing, packet_from};
ghost use Rattle.urb_world.specs.World.{image_of};
ghost use Rattle.urb_world.specs.internal.Scripts.{◌⇒◌, Plays, PlaysOpened, Drafts, Accepts, Takes};
ghost use Rattle.urb_world.specs.internal.Scripts.{Logs, Holds, Is, noted, again, message, submit};
ghost use Rattle.urb_world.specs.internal.Scripts.{store, arrive, log_of, held, look_at};
ghost use Rattle.urb_world.specs.internal.Examples.{pending, limits};

/// Groups of one and of three nodes.
pub fn small_groups()
    ensures a_lone_node_delivers_at_once { Plays 1 10 (
        submit 1 (message 7 1 "hi") ⇒ Drafts (name 1 1) 1
        ∷ store 1 ⇒ Accepts (name 1 1) 0 1
        ∷ log_of 1 ⇒ Logs ((name 1 1, Some (message 7 1 "hi")) ∷ [])
        ∷ []) }
    ensures two_of_three_deliver { Plays 3 10 (
        submit 1 (message 7 1 "a") ⇒ Drafts (name 1 1) 1
        ∷ store 1 ⇒ Accepts (name 1 1) 2 0
        ∷ arrive 1 2 1 1 ⇒ Drafts (name 1 1) 1
        ∷ store 2 ⇒ Takes (name 1 1) 2 1
        ∷ log_of 1 ⇒ Logs []
        ∷ arrive 2 1 1 1 ⇒ Drafts (name 1 1) 2
        ∷ store 1 ⇒ Takes (name 1 1) 0 1
        ∷ log_of 1 ⇒ Logs ((name 1 1, Some (message 7 1 "a")) ∷ [])
        ∷ log_of 2 ⇒ Logs ((name 1 1, Some (message 7 1 "a")) ∷ [])
        ∷ log_of 3 ⇒ Logs []
        ∷ held 1 1 ⇒ Holds (1 ∷ 2 ∷ [])
        ∷ []) }
    ensures the_later_number_waits { Plays 3 10 (
        submit 1 (message 7 1 "a") ⇒ Drafts (name 1 1) 1
        ∷ store 1 ⇒ Accepts (name 1 1) 2 0
        ∷ submit 1 (message 7 2 "b") ⇒ Drafts (name 1 2) 2
        ∷ store 1 ⇒ Accepts (name 1 2) 2 0
        ∷ arrive 1 2 1 2 ⇒ Drafts (name 1 2) 1
        ∷ store 2 ⇒ Takes (name 1 2) 2 0
        ∷ log_of 2 ⇒ Logs []
        ∷ arrive 1 2 1 1 ⇒ Drafts (name 1 1) 2
        ∷ store 2 ⇒ Takes (name 1 1) 2 2
        ∷ log_of 2 ⇒ Logs ((name 1 1, Some (message 7 1 "a")) ∷ (name 1 2, Some (message 7 2 "b")) ∷ [])
        ∷ []) }
    ensures a_relayed_certificate_is_no_broadcast { Plays 3 10 (
        submit 1 (message 7 1 "a") ⇒ Drafts (name 1 1) 1
        ∷ store 1 ⇒ Accepts (name 1 1) 2 0
        ∷ arrive 1 2 1 1 ⇒ Drafts (name 1 1) 1
        ∷ store 2 ⇒ Takes (name 1 1) 2 1
        ∷ submit 2 (message 7 1 "b") ⇒ Drafts (name 2 1) 2
        ∷ []) }
    ensures logs_differ_between_senders { Plays 3 10 (
        submit 1 (message 7 1 "a") ⇒ Drafts (name 1 1) 1
        ∷ store 1 ⇒ Accepts (name 1 1) 2 0
        ∷ submit 2 (message 7 1 "b") ⇒ Drafts (name 2 1) 1
        ∷ store 2 ⇒ Accepts (name 2 1) 2 0
        ∷ arrive 1 3 1 1 ⇒ Drafts (name 1 1) 1
        ∷ store 3 ⇒ Takes (name 1 1) 2 1
        ∷ arrive 2 3 2 1 ⇒ Drafts (name 2 1) 2
        ∷ store 3 ⇒ Takes (name 2 1) 2 1
        ∷ arrive 3 2 2 1 ⇒ Drafts (name 2 1) 2
        ∷ store 2 ⇒ Takes (name 2 1) 0 1
        ∷ arrive 3 2 1 1 ⇒ Drafts (name 1 1) 3
        ∷ store 2 ⇒ Takes (name 1 1) 2 1
        ∷ log_of 2 ⇒ Logs ((name 2 1, Some (message 7 1 "b")) ∷ (name 1 1, Some (message 7 1 "a")) ∷ [])
        ∷ log_of 3 ⇒ Logs ((name 1 1, Some (message 7 1 "a")) ∷ (name 2 1, Some (message 7 1 "b")) ∷ [])
        ∷ held 2 1 ⇒ Holds (2 ∷ 3 ∷ [])
        ∷ []) }
{}

/// Groups of four and of five nodes: a relay's record makes no majority yet.
pub fn larger_groups()
    ensures the_source_is_counted_once { Plays 5 10 (
        submit 1 (message 7 1 "a") ⇒ Drafts (name 1 1) 1
        ∷ store 1 ⇒ Accepts (name 1 1) 4 0
        ∷ arrive 1 2 1 1 ⇒ Drafts (name 1 1) 1
        ∷ store 2 ⇒ Takes (name 1 1) 4 0
        ∷ arrive 1 2 1 1 ⇒ again 1 1
        ∷ arrive 1 2 1 1 ⇒ again 1 1
        ∷ []) }
    ensures half_is_no_majority { Plays 4 10 (
        submit 1 (message 7 1 "a") ⇒ Drafts (name 1 1) 1
        ∷ store 1 ⇒ Accepts (name 1 1) 3 0
        ∷ arrive 1 2 1 1 ⇒ Drafts (name 1 1) 1
        ∷ store 2 ⇒ Takes (name 1 1) 3 0
        ∷ arrive 1 3 1 1 ⇒ Drafts (name 1 1) 1
        ∷ store 3 ⇒ Takes (name 1 1) 3 0
        ∷ arrive 2 1 1 1 ⇒ noted 1 1
        ∷ arrive 3 1 1 1 ⇒ Drafts (name 1 1) 2
        ∷ store 1 ⇒ Takes (name 1 1) 0 1
        ∷ arrive 2 1 1 1 ⇒ again 1 1
        ∷ []) }
    ensures a_relay_counts_and_not_the_sender { Plays 5 10 (
        submit 1 (message 7 1 "a") ⇒ Drafts (name 1 1) 1
        ∷ store 1 ⇒ Accepts (name 1 1) 4 0
        ∷ arrive 1 2 1 1 ⇒ Drafts (name 1 1) 1
        ∷ store 2 ⇒ Takes (name 1 1) 4 0
        ∷ arrive 2 3 1 1 ⇒ Drafts (name 1 1) 1
        ∷ store 3 ⇒ Takes (name 1 1) 4 0
        ∷ arrive 2 3 1 1 ⇒ again 1 1
        ∷ arrive 1 3 1 1 ⇒ Drafts (name 1 1) 2
        ∷ store 3 ⇒ Takes (name 1 1) 0 1
        ∷ []) }
    ensures each_name_is_counted_apart { Plays 5 10 (
        submit 1 (message 7 1 "a") ⇒ Drafts (name 1 1) 1
        ∷ store 1 ⇒ Accepts (name 1 1) 4 0
        ∷ submit 1 (message 7 2 "b") ⇒ Drafts (name 1 2) 2
        ∷ store 1 ⇒ Accepts (name 1 2) 4 0
        ∷ arrive 1 2 1 1 ⇒ Drafts (name 1 1) 1
        ∷ store 2 ⇒ Takes (name 1 1) 4 0
        ∷ arrive 1 3 1 2 ⇒ Drafts (name 1 2) 1
        ∷ store 3 ⇒ Takes (name 1 2) 4 0
        ∷ arrive 2 1 1 1 ⇒ noted 1 1
        ∷ arrive 3 1 1 2 ⇒ noted 1 2
        ∷ []) }
    ensures a_certificate_leaves_the_other_counts { PlaysOpened (limits 4 10)
        (image_of ((pending 1 1 ∷ pending 1 2 ∷ []) ∷ (pending 1 1 ∷ pending 1 2 ∷ [])
        ∷ (pending 1 1 ∷ []) ∷ [] ∷ [])) (
        arrive 2 1 1 2 ⇒ noted 1 2
        ∷ arrive 2 1 1 1 ⇒ noted 1 1
        ∷ arrive 3 1 1 1 ⇒ Drafts (name 1 1) 3
        ∷ store 1 ⇒ Takes (name 1 1) 0 1
        ∷ arrive 2 1 1 2 ⇒ again 1 2
        ∷ []) }
    ensures a_node_counts_itself_only_once_stored { Plays 5 10 (
        submit 1 (message 7 1 "a") ⇒ Drafts (name 1 1) 1
        ∷ look_at 1 ⇒ Is (record { records = []; state = Storing (Pend (name 1 1) (message 7 1 "a")) None; acks = []; heard = []; cursor = None; broadcast = [] })
        ∷ store 1 ⇒ Accepts (name 1 1) 4 0
        ∷ look_at 1 ⇒ Is (record {
          records = Pend (name 1 1) (message 7 1 "a") ∷ [];
          state = Ready;
          acks = (name 1 1, 1) ∷ [];
          heard = [];
          cursor = None;
          broadcast = message 7 1 "a" ∷ [];
        })
        ∷ []) }
    ensures a_relay_counts_itself_and_its_source { Plays 5 10 (
        submit 1 (message 7 1 "a") ⇒ Drafts (name 1 1) 1
        ∷ store 1 ⇒ Accepts (name 1 1) 4 0
        ∷ arrive 1 2 1 1 ⇒ Drafts (name 1 1) 1
        ∷ look_at 2 ⇒ Is (record { records = []; state = Storing (Pend (name 1 1) (message 7 1 "a")) (Some (packet_from 1 false)); acks = []; heard = []; cursor = None; broadcast = [] })
        ∷ store 2 ⇒ Takes (name 1 1) 4 0
        ∷ look_at 2 ⇒ Is (record {
          records = Pend (name 1 1) (message 7 1 "a") ∷ [];
          state = Ready;
          acks = (name 1 1, 1) ∷ (name 1 1, 2) ∷ [];
          heard = [];
          cursor = None;
          broadcast = [];
        })
        ∷ []) }
    ensures the_last_one_counts_before_the_certificate { Plays 3 10 (
        submit 1 (message 7 1 "a") ⇒ Drafts (name 1 1) 1
        ∷ store 1 ⇒ Accepts (name 1 1) 2 0
        ∷ arrive 1 2 1 1 ⇒ Drafts (name 1 1) 1
        ∷ store 2 ⇒ Takes (name 1 1) 2 1
        ∷ arrive 2 1 1 1 ⇒ Drafts (name 1 1) 2
        ∷ look_at 1 ⇒ Is (record {
          records = Pend (name 1 1) (message 7 1 "a") ∷ [];
          state = Storing (Cert (name 1 1)) (Some (packet_from 2 false));
          acks = (name 1 1, 2) ∷ (name 1 1, 1) ∷ [];
          heard = [];
          cursor = None;
          broadcast = message 7 1 "a" ∷ [];
        })
        ∷ []) }
{}
