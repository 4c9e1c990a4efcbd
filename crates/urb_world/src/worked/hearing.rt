//! Certificates that nodes report to one another.
//!
//! The examples show which packets may report a certificate, what is heard, and what is answered.
ghost use Rattle.std.specs.Prelude.{[], ◌∷◌, None, Some, true};
ghost use Rattle.urb_names.specs.declared.refusal.Refusal.TheVariants as refusal;
ghost use Rattle.urb_names.specs.Names.{name};
ghost use Rattle.urb_stable.specs.declared.record.Record.TheVariants.{Cert};
ghost use Rattle.urb_node.specs.Part.{Down, Ready, Storing, packet_from};
ghost use Rattle.urb_world.specs.World.{image_of};
ghost use Rattle.urb_world.specs.internal.Scripts.{◌⇒◌, Plays, PlaysOpened, Drafts, Accepts, Takes};
ghost use Rattle.urb_world.specs.internal.Scripts.{Is, Opens, Sends, Refuses, noted, again};
ghost use Rattle.urb_world.specs.internal.Scripts.{answered, down, up, message, submit, store};
ghost use Rattle.urb_world.specs.internal.Scripts.{crash, restart, restart_with, reopen, bring};
ghost use Rattle.urb_world.specs.internal.Scripts.{tick, arrive, arrive2, look_at};
ghost use Rattle.urb_world.specs.internal.Examples.{pending, certified, filled, limits, flagged};
ghost use Rattle.urb_world.specs.internal.Examples.{to_two};

/// Three nodes report their certificates to one another. In the end, ticks send only to the node
/// that has reported no certificate. Then a node crashes, and has heard nothing.
pub fn until_all_is_told()
    ensures { Plays 3 10 (
        submit 1 (message 7 1 "a") ⇒ Drafts (name 1 1) 1
        ∷ store 1 ⇒ Accepts (name 1 1) 2 0
        ∷ arrive2 1 2 1 1 0 ⇒ Drafts (name 1 1) 1
        ∷ store 2 ⇒ Takes (name 1 1) 2 1
        ∷ arrive 1 2 1 1 ⇒ again 1 1
        ∷ arrive2 1 2 1 1 0 ⇒ answered 1 1 1 1
        ∷ arrive2 2 1 1 1 1 ⇒ Drafts (name 1 1) 2
        ∷ store 1 ⇒ Takes (name 1 1) 0 1
        ∷ tick 1 ⇒ Sends ((3, name 1 1) ∷ [])
        ∷ arrive2 1 2 1 1 1 ⇒ answered 1 1 1 3
        ∷ arrive2 2 1 1 1 3 ⇒ again 1 1
        ∷ tick 2 ⇒ Sends ((3, name 1 1) ∷ [])
        ∷ arrive2 2 3 1 1 1 ⇒ Drafts (name 1 1) 1
        ∷ store 3 ⇒ Takes (name 1 1) 2 1
        ∷ tick 3 ⇒ Sends ((1, name 1 1) ∷ [])
        ∷ crash 1 ⇒ down 1
        ∷ restart 1 ⇒ up 1
        ∷ tick 1 ⇒ Sends ((2, name 1 1) ∷ (3, name 1 1) ∷ [])
        ∷ []) }
{}

/// A message that is too long for a packet without flags comes in a packet with flags 0. So that
/// packet is answered.
pub fn long_messages()
    ensures not_of_1024_bytes { Plays 3 10 (
        submit 1 (filled 7 1 1024) ⇒ Drafts (name 1 1) 1
        ∷ store 1 ⇒ Accepts (name 1 1) 2 0
        ∷ arrive 1 2 1 1 ⇒ Drafts (name 1 1) 1
        ∷ store 2 ⇒ Takes (name 1 1) 2 1
        ∷ arrive 1 2 1 1 ⇒ again 1 1
        ∷ []) }
    ensures of_1025_bytes { Plays 3 10 (
        submit 1 (filled 7 1 1025) ⇒ Drafts (name 1 1) 1
        ∷ store 1 ⇒ Accepts (name 1 1) 2 0
        ∷ arrive 1 2 1 1 ⇒ Drafts (name 1 1) 1
        ∷ store 2 ⇒ Takes (name 1 1) 2 1
        ∷ arrive 1 2 1 1 ⇒ answered 1 1 1 1
        ∷ []) }
{}

/// A packet may report a certificate only of a name whose certificate its source has stored. It may
/// say of any name that the certificate was heard.
pub fn forged_packets()
    ensures by_a_source_that_has_none { PlaysOpened (limits 3 10)
        (image_of ((pending 1 1 ∷ []) ∷ (certified 1 1 ∷ []) ∷ [] ∷ [])) (
        bring 3 (flagged 1 1 3 1 1 (message 7 1 "")) ⇒ Refuses refusal.Forged
        ∷ bring 3 (flagged 3 1 3 1 1 (message 7 1 "")) ⇒ Refuses refusal.Forged
        ∷ bring 2 (flagged 1 1 2 1 1 (message 7 1 "")) ⇒ Refuses refusal.Forged
        ∷ bring 3 (flagged 2 1 3 1 1 (message 7 1 "")) ⇒ Drafts (name 1 1) 1
        ∷ []) }
    ensures of_another_name { PlaysOpened (limits 3 10)
        (image_of ((pending 1 1 ∷ pending 1 2 ∷ []) ∷ (certified 1 1 ∷ pending 1 2 ∷ []) ∷ [] ∷ []))
        (
        bring 3 (flagged 1 2 3 1 2 (message 7 2 "")) ⇒ Refuses refusal.Forged
        ∷ bring 3 (flagged 1 2 3 1 1 (message 7 1 "")) ⇒ Drafts (name 1 1) 1
        ∷ []) }
    ensures by_a_source_that_holds_another_message { PlaysOpened (limits 3 10)
        (image_of ((pending 1 1 ∷ []) ∷ (certified 1 1 ∷ []) ∷ [] ∷ [])) (
        bring 3 (flagged 1 2 3 1 1 (message 7 1 "a")) ⇒ Refuses refusal.Forged
        ∷ bring 3 (flagged 0 2 3 1 1 (message 7 1 "a")) ⇒ Refuses refusal.Forged
        ∷ []) }
    ensures while_the_certificate_is_only_drafted { PlaysOpened (limits 3 10)
        (image_of ((pending 1 1 ∷ []) ∷ (certified 1 1 ∷ []) ∷ [] ∷ [])) (
        arrive2 2 1 1 1 1 ⇒ Drafts (name 1 1) 2
        ∷ arrive2 1 3 1 1 1 ⇒ Refuses refusal.Forged
        ∷ store 1 ⇒ Takes (name 1 1) 0 1
        ∷ arrive2 1 3 1 1 1 ⇒ Drafts (name 1 1) 1
        ∷ []) }
    ensures not_by_a_source_that_is_down { PlaysOpened (limits 3 10)
        (image_of ((pending 1 1 ∷ []) ∷ (certified 1 1 ∷ []) ∷ [] ∷ [])) (
        crash 2 ⇒ down 2
        ∷ arrive2 2 3 1 1 1 ⇒ Drafts (name 1 1) 1
        ∷ []) }
{}

/// Ticks send to the nodes whose certificates were not heard. So they send to a node that is only
/// counted.
pub fn due_names()
    ensures a_counted_node_is_sent_to { Plays 5 10 (
        submit 1 (message 7 1 "a") ⇒ Drafts (name 1 1) 1
        ∷ store 1 ⇒ Accepts (name 1 1) 4 0
        ∷ arrive2 1 2 1 1 0 ⇒ Drafts (name 1 1) 1
        ∷ store 2 ⇒ Takes (name 1 1) 4 0
        ∷ arrive2 2 1 1 1 0 ⇒ noted 1 1
        ∷ arrive2 2 1 1 1 2 ⇒ again 1 1
        ∷ tick 1 ⇒ Sends ((2, name 1 1) ∷ (3, name 1 1) ∷ (4, name 1 1) ∷ (5, name 1 1) ∷ [])
        ∷ []) }
    ensures a_node_that_was_heard_is_not { PlaysOpened (limits 5 10)
        (image_of ((pending 1 1 ∷ []) ∷ (pending 1 1 ∷ []) ∷ (certified 1 1 ∷ []) ∷ [] ∷ [] ∷ [])) (
        arrive 3 1 1 1 ⇒ noted 1 1
        ∷ tick 1 ⇒ Sends ((2, name 1 1) ∷ (3, name 1 1) ∷ (4, name 1 1) ∷ (5, name 1 1) ∷ [])
        ∷ arrive2 3 1 1 1 1 ⇒ again 1 1
        ∷ tick 1 ⇒ Sends ((2, name 1 1) ∷ (4, name 1 1) ∷ (5, name 1 1) ∷ [])
        ∷ []) }
    ensures each_name_is_heard_apart { PlaysOpened (limits 2 10)
        (image_of ((pending 1 1 ∷ pending 1 2 ∷ []) ∷ (certified 1 1 ∷ certified 1 2 ∷ []) ∷ [])) (
        arrive2 2 1 1 1 1 ⇒ Drafts (name 1 1) 3
        ∷ store 1 ⇒ Takes (name 1 1) 0 1
        ∷ tick 1 ⇒ Sends ((2, name 1 2) ∷ [])
        ∷ tick 2 ⇒ Sends ((1, name 1 1) ∷ (1, name 1 2) ∷ [])
        ∷ []) }
    ensures sixteen_of_those_that_are_due { PlaysOpened (limits 2 20) (image_of (
        (certified 1 1 ∷ pending 1 2 ∷ pending 1 3 ∷ pending 1 4 ∷ pending 1 5 ∷ pending 1 6 ∷ pending 1 7 ∷ pending 1 8 ∷ pending 1 9 ∷ pending 1 10 ∷ pending 1 11 ∷ pending 1 12 ∷ pending 1 13 ∷ pending 1 14 ∷ pending 1 15 ∷ pending 1 16 ∷ pending 1 17 ∷ pending 1 18 ∷ [])
        ∷ (certified 1 1 ∷ [])
        ∷ [])) (
        arrive2 2 1 1 1 1 ⇒ answered 1 1 2 3
        ∷ tick 1 ⇒ Sends (to_two 2 16)
        ∷ tick 1 ⇒ Sends ((2, name 1 18) ∷ to_two 2 15)
        ∷ []) }
    ensures where_none_is_due_the_cursor_stays { PlaysOpened (limits 2 10)
        (image_of ((certified 1 1 ∷ certified 2 1 ∷ [])
        ∷ (pending 2 1 ∷ certified 1 1 ∷ Cert (name 2 1) ∷ []) ∷ [])) (
        tick 1 ⇒ Sends ((2, name 1 1) ∷ (2, name 2 1) ∷ [])
        ∷ arrive2 2 1 1 1 1 ⇒ answered 1 1 2 3
        ∷ tick 1 ⇒ Sends ((2, name 2 1) ∷ [])
        ∷ arrive2 2 1 2 1 3 ⇒ again 2 1
        ∷ tick 1 ⇒ Sends []
        ∷ look_at 1 ⇒ Is (record {
          records = certified 1 1 ∷ certified 2 1 ∷ [];
          state = Ready;
          acks = (name 1 1, 1) ∷ (name 2 1, 1) ∷ [];
          heard = (name 2 1, 2) ∷ (name 1 1, 2) ∷ [];
          cursor = Some (name 2 1);
          broadcast = message 7 1 "" ∷ [];
        })
        ∷ []) }
{}

/// A certificate is heard if its name is pending, either at once, or with the record that the
/// packet causes. A crash loses it with the memory.
pub fn heard_certificates()
    ensures once_the_record_is_stored { PlaysOpened (limits 3 10)
        (image_of ((pending 1 1 ∷ []) ∷ (certified 1 1 ∷ []) ∷ [] ∷ [])) (
        arrive2 2 3 1 1 1 ⇒ Drafts (name 1 1) 1
        ∷ look_at 3 ⇒ Is (record { records = []; state = Storing (certified 1 1) (Some (packet_from 2 true)); acks = []; heard = []; cursor = None; broadcast = [] })
        ∷ store 3 ⇒ Takes (name 1 1) 2 1
        ∷ look_at 3 ⇒ Is (record {
          records = certified 1 1 ∷ [];
          state = Ready;
          acks = (name 1 1, 2) ∷ (name 1 1, 3) ∷ [];
          heard = (name 1 1, 2) ∷ [];
          cursor = None;
          broadcast = [];
        })
        ∷ []) }
    ensures once_a_record_that_certifies_nothing_is_stored { PlaysOpened (limits 4 10)
        (image_of ((pending 1 1 ∷ []) ∷ (pending 1 1 ∷ []) ∷ (certified 1 1 ∷ []) ∷ [] ∷ [])) (
        arrive2 3 4 1 1 1 ⇒ Drafts (name 1 1) 1
        ∷ store 4 ⇒ Takes (name 1 1) 3 0
        ∷ look_at 4 ⇒ Is (record {
          records = pending 1 1 ∷ [];
          state = Ready;
          acks = (name 1 1, 3) ∷ (name 1 1, 4) ∷ [];
          heard = (name 1 1, 3) ∷ [];
          cursor = None;
          broadcast = [];
        })
        ∷ tick 4 ⇒ Sends ((1, name 1 1) ∷ (2, name 1 1) ∷ [])
        ∷ []) }
    ensures before_the_certificate_is_stored { PlaysOpened (limits 3 10)
        (image_of ((pending 1 1 ∷ []) ∷ (certified 1 1 ∷ []) ∷ [] ∷ [])) (
        arrive2 2 1 1 1 1 ⇒ Drafts (name 1 1) 2
        ∷ look_at 1 ⇒ Is (record {
          records = pending 1 1 ∷ [];
          state = Storing (Cert (name 1 1)) (Some (packet_from 2 true));
          acks = (name 1 1, 2) ∷ (name 1 1, 1) ∷ [];
          heard = (name 1 1, 2) ∷ [];
          cursor = None;
          broadcast = message 7 1 "" ∷ [];
        })
        ∷ []) }
    ensures not_of_a_packet_of_version_one { PlaysOpened (limits 3 10)
        (image_of ((certified 1 1 ∷ []) ∷ (certified 1 1 ∷ []) ∷ [] ∷ [])) (
        arrive 2 1 1 1 ⇒ again 1 1
        ∷ arrive2 2 1 1 1 2 ⇒ again 1 1
        ∷ tick 1 ⇒ Sends ((2, name 1 1) ∷ (3, name 1 1) ∷ [])
        ∷ arrive2 2 1 1 1 3 ⇒ again 1 1
        ∷ tick 1 ⇒ Sends ((3, name 1 1) ∷ [])
        ∷ []) }
    ensures until_a_crash { PlaysOpened (limits 3 10)
        (image_of ((certified 1 1 ∷ []) ∷ (certified 1 1 ∷ []) ∷ [] ∷ [])) (
        arrive2 2 1 1 1 3 ⇒ again 1 1
        ∷ tick 1 ⇒ Sends ((3, name 1 1) ∷ [])
        ∷ crash 1 ⇒ down 1
        ∷ look_at 1 ⇒ Is (record { records = certified 1 1 ∷ []; state = Down None; acks = []; heard = []; cursor = Some (name 1 1); broadcast = message 7 1 "" ∷ [] })
        ∷ restart 1 ⇒ up 1
        ∷ tick 1 ⇒ Sends ((2, name 1 1) ∷ (3, name 1 1) ∷ [])
        ∷ []) }
    ensures until_a_stop_of_the_process { PlaysOpened (limits 3 10)
        (image_of ((certified 1 1 ∷ []) ∷ (certified 1 1 ∷ []) ∷ [] ∷ [])) (
        arrive2 2 1 1 1 3 ⇒ again 1 1
        ∷ reopen ⇒ Opens
        ∷ tick 1 ⇒ Sends ((2, name 1 1) ∷ (3, name 1 1) ∷ [])
        ∷ []) }
    ensures what_a_doubtful_record_would_have_heard_is_not { PlaysOpened (limits 3 10)
        (image_of ((pending 1 1 ∷ []) ∷ (certified 1 1 ∷ []) ∷ [] ∷ [])) (
        arrive2 2 3 1 1 1 ⇒ Drafts (name 1 1) 1
        ∷ crash 3 ⇒ down 3
        ∷ restart_with 3 (certified 1 1 ∷ []) ⇒ up 3
        ∷ tick 3 ⇒ Sends ((1, name 1 1) ∷ (2, name 1 1) ∷ [])
        ∷ []) }
{}

/// A packet of version two of a certified name is answered, unless it says that the certificate was
/// heard. The answer says whether the packet's own certificate was heard. No other packet is
/// answered by one.
pub fn answered_packets()
    ensures of_version_two_alone { PlaysOpened (limits 3 10)
        (image_of ((certified 1 1 ∷ []) ∷ (certified 1 1 ∷ []) ∷ [] ∷ [])) (
        arrive 2 1 1 1 ⇒ again 1 1
        ∷ arrive2 2 1 1 1 0 ⇒ answered 1 1 2 1
        ∷ arrive2 2 1 1 1 1 ⇒ answered 1 1 2 3
        ∷ arrive2 2 1 1 1 0 ⇒ answered 1 1 2 3
        ∷ arrive 2 1 1 1 ⇒ again 1 1
        ∷ []) }
    ensures not_where_it_was_heard { PlaysOpened (limits 3 10)
        (image_of ((certified 1 1 ∷ []) ∷ (certified 1 1 ∷ []) ∷ [] ∷ [])) (
        arrive2 2 1 1 1 2 ⇒ again 1 1
        ∷ arrive2 2 1 1 1 3 ⇒ again 1 1
        ∷ []) }
    ensures an_answer_once_more_and_then_no_more { PlaysOpened (limits 3 10)
        (image_of ((certified 1 1 ∷ []) ∷ (certified 1 1 ∷ []) ∷ [] ∷ [])) (
        arrive2 1 2 1 1 0 ⇒ answered 1 1 1 1
        ∷ arrive2 2 1 1 1 1 ⇒ answered 1 1 2 3
        ∷ arrive2 1 2 1 1 3 ⇒ again 1 1
        ∷ tick 1 ⇒ Sends ((3, name 1 1) ∷ [])
        ∷ tick 2 ⇒ Sends ((3, name 1 1) ∷ [])
        ∷ []) }
    ensures not_of_a_name_that_is_only_pending { Plays 5 10 (
        submit 1 (message 7 1 "a") ⇒ Drafts (name 1 1) 1
        ∷ store 1 ⇒ Accepts (name 1 1) 4 0
        ∷ arrive2 1 2 1 1 0 ⇒ Drafts (name 1 1) 1
        ∷ store 2 ⇒ Takes (name 1 1) 4 0
        ∷ arrive2 2 1 1 1 0 ⇒ noted 1 1
        ∷ arrive2 2 1 1 1 0 ⇒ again 1 1
        ∷ []) }
{}
