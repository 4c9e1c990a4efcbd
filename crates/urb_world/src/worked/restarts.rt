//! Which images a restart accepts, and the node after it.
//!
//! An image is the list of records that a node's storage returned. The functions do nothing. Each
//! clause plays a script, a list of `event ⇒ answer`, by the definitions alone.
ghost use Rattle.std.specs.Prelude.{[], ◌∷◌, None};
ghost use Rattle.urb_names.specs.declared.refusal.Refusal.TheVariants as refusal;
ghost use Rattle.urb_names.specs.Names.{name};
ghost use Rattle.urb_stable.specs.declared.record.Record.TheVariants.{Pend, Cert};
ghost use Rattle.urb_node.specs.Part.{Ready};
ghost use Rattle.urb_world.specs.World.{image_of};
ghost use Rattle.urb_world.specs.internal.Scripts.{◌⇒◌, Plays, PlaysOpened, Drafts, Accepts, Takes};
ghost use Rattle.urb_world.specs.internal.Scripts.{Is, Refuses, accepted, down, up, message};
ghost use Rattle.urb_world.specs.internal.Scripts.{submit, store, fail_old, crash, restart_with};
ghost use Rattle.urb_world.specs.internal.Scripts.{arrive, look_at};
ghost use Rattle.urb_world.specs.internal.Examples.{pending, certified, limits};

/// Images that match what was stored. The record in doubt may be there or be missing. The node has
/// its records again in its own order, and one acknowledgement, its own, for each pending name.
pub fn taken_images()
    ensures pairs_in_another_order { Plays 3 10 (
        submit 1 (message 7 1 "") ⇒ Drafts (name 1 1) 1
        ∷ store 1 ⇒ Accepts (name 1 1) 2 0
        ∷ submit 1 (message 7 2 "") ⇒ Drafts (name 1 2) 2
        ∷ store 1 ⇒ Accepts (name 1 2) 2 0
        ∷ crash 1 ⇒ down 1
        ∷ restart_with 1 (pending 1 2 ∷ pending 1 1 ∷ []) ⇒ up 1
        ∷ look_at 1 ⇒ Is (record {
          records = pending 1 1 ∷ pending 1 2 ∷ [];
          state = Ready;
          acks = (name 1 1, 1) ∷ (name 1 2, 1) ∷ [];
          heard = [];
          cursor = None;
          broadcast = message 7 1 "" ∷ message 7 2 "" ∷ [];
        })
        ∷ []) }
    ensures certificates_in_another_order_with_one_log { Plays 1 10 (
        submit 1 (message 7 1 "") ⇒ Drafts (name 1 1) 1
        ∷ store 1 ⇒ Accepts (name 1 1) 0 1
        ∷ submit 1 (message 7 2 "") ⇒ Drafts (name 1 2) 2
        ∷ store 1 ⇒ Accepts (name 1 2) 0 1
        ∷ crash 1 ⇒ down 1
        ∷ restart_with 1 (certified 1 2 ∷ certified 1 1 ∷ []) ⇒ up 1
        ∷ []) }
    ensures the_doubtful_record_joins { Plays 3 10 (
        submit 1 (message 7 1 "") ⇒ Drafts (name 1 1) 1
        ∷ store 1 ⇒ Accepts (name 1 1) 2 0
        ∷ submit 1 (message 7 2 "") ⇒ Drafts (name 1 2) 2
        ∷ crash 1 ⇒ down 1
        ∷ restart_with 1 (pending 1 2 ∷ pending 1 1 ∷ []) ⇒ up 1
        ∷ look_at 1 ⇒ Is (record {
          records = pending 1 1 ∷ pending 1 2 ∷ [];
          state = Ready;
          acks = (name 1 1, 1) ∷ (name 1 2, 1) ∷ [];
          heard = [];
          cursor = None;
          broadcast = message 7 1 "" ∷ message 7 2 "" ∷ [];
        })
        ∷ submit 1 (message 7 2 "") ⇒ accepted 1 2
        ∷ []) }
    ensures the_doubtful_record_may_be_missing { Plays 3 10 (
        submit 1 (message 7 1 "") ⇒ Drafts (name 1 1) 1
        ∷ store 1 ⇒ Accepts (name 1 1) 2 0
        ∷ submit 1 (message 7 2 "") ⇒ Drafts (name 1 2) 2
        ∷ crash 1 ⇒ down 1
        ∷ restart_with 1 (pending 1 1 ∷ []) ⇒ up 1
        ∷ look_at 1 ⇒ Is (record {
          records = pending 1 1 ∷ [];
          state = Ready;
          acks = (name 1 1, 1) ∷ [];
          heard = [];
          cursor = None;
          broadcast = message 7 1 "" ∷ [];
        })
        ∷ []) }
{}

/// Images that don't match what was stored. They are refused as `BadImage`, and the node stays
/// down.
pub fn refused_images()
    ensures other_than_the_one_record { Plays 3 10 (
        submit 1 (message 7 1 "") ⇒ Drafts (name 1 1) 1
        ∷ store 1 ⇒ Accepts (name 1 1) 2 0
        ∷ crash 1 ⇒ down 1
        ∷ restart_with 1 [] ⇒ Refuses refusal.BadImage
        ∷ restart_with 1 (pending 1 1 ∷ pending 1 1 ∷ []) ⇒ Refuses refusal.BadImage
        ∷ restart_with 1 (pending 1 1 ∷ pending 1 2 ∷ []) ⇒ Refuses refusal.BadImage
        ∷ restart_with 1 (certified 1 1 ∷ []) ⇒ Refuses refusal.BadImage
        ∷ restart_with 1 (Pend (name 1 1) (message 7 1 "a") ∷ []) ⇒ Refuses refusal.BadImage
        ∷ restart_with 1 (Pend (name 1 1) (message 7 2 "") ∷ []) ⇒ Refuses refusal.BadImage
        ∷ restart_with 1 (Pend (name 1 1) (message 8 1 "") ∷ []) ⇒ Refuses refusal.BadImage
        ∷ restart_with 1 (pending 2 1 ∷ []) ⇒ Refuses refusal.BadImage
        ∷ restart_with 1 (pending 1 1 ∷ []) ⇒ up 1
        ∷ []) }
    ensures without_the_stored_relay { Plays 3 10 (
        submit 1 (message 7 1 "a") ⇒ Drafts (name 1 1) 1
        ∷ store 1 ⇒ Accepts (name 1 1) 2 0
        ∷ arrive 1 2 1 1 ⇒ Drafts (name 1 1) 1
        ∷ store 2 ⇒ Takes (name 1 1) 2 1
        ∷ crash 2 ⇒ down 2
        ∷ restart_with 2 [] ⇒ Refuses refusal.BadImage
        ∷ []) }
    ensures other_than_the_doubtful_record { Plays 3 10 (
        submit 1 (message 7 1 "") ⇒ Drafts (name 1 1) 1
        ∷ fail_old 1 ⇒ down 1
        ∷ restart_with 1 (Pend (name 1 1) (message 7 1 "a") ∷ []) ⇒ Refuses refusal.BadImage
        ∷ restart_with 1 (certified 1 1 ∷ []) ⇒ Refuses refusal.BadImage
        ∷ restart_with 1 (pending 1 1 ∷ pending 1 1 ∷ []) ⇒ Refuses refusal.BadImage
        ∷ restart_with 1 (pending 1 1 ∷ []) ⇒ up 1
        ∷ []) }
    ensures with_a_pair_less_and_another_twice { PlaysOpened (limits 2 10)
        (image_of ((pending 1 1 ∷ pending 1 2 ∷ []) ∷ [] ∷ [])) (
        crash 1 ⇒ down 1
        ∷ restart_with 1 (pending 1 1 ∷ pending 1 1 ∷ []) ⇒ Refuses refusal.BadImage
        ∷ restart_with 1 (pending 1 1 ∷ pending 1 2 ∷ []) ⇒ up 1
        ∷ []) }
    ensures with_a_pair_more { PlaysOpened (limits 3 10)
        (image_of ((pending 1 1 ∷ Cert (name 1 1) ∷ []) ∷ (certified 1 1 ∷ []) ∷ [] ∷ [])) (
        crash 1 ⇒ down 1
        ∷ restart_with 1 (certified 1 1 ∷ pending 1 2 ∷ []) ⇒ Refuses refusal.BadImage
        ∷ restart_with 1 (pending 1 1 ∷ Cert (name 1 1) ∷ []) ⇒ up 1
        ∷ []) }
    ensures with_another_log { PlaysOpened (limits 3 10)
        (image_of ((pending 1 1 ∷ []) ∷ (pending 2 1 ∷ []) ∷ (certified 1 1 ∷ certified 2 1 ∷ [])
        ∷ [])) (
        crash 3 ⇒ down 3
        ∷ restart_with 3 (certified 2 1 ∷ certified 1 1 ∷ []) ⇒ Refuses refusal.BadImage
        ∷ restart_with 3 (certified 1 1 ∷ certified 2 1 ∷ []) ⇒ up 3
        ∷ []) }
    ensures with_other_certificates { PlaysOpened (limits 3 10)
        (image_of ((pending 1 1 ∷ pending 1 2 ∷ []) ∷ (certified 1 2 ∷ []) ∷ [] ∷ [])) (
        crash 2 ⇒ down 2
        ∷ restart_with 2 (pending 1 2 ∷ []) ⇒ Refuses refusal.BadImage
        ∷ restart_with 2 (certified 1 2 ∷ []) ⇒ up 2
        ∷ crash 1 ⇒ down 1
        ∷ restart_with 1 (pending 1 1 ∷ certified 1 2 ∷ []) ⇒ Refuses refusal.BadImage
        ∷ []) }
{}
