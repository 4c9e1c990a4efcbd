//! What a submit is answered: repeats, conflicts, gaps, a full sender, and payloads at the limit.
ghost use Rattle.std.specs.Prelude.{[], ◌∷◌, Some};
ghost use Rattle.urb_names.specs.declared.refusal.Refusal.TheVariants as refusal;
ghost use Rattle.urb_names.specs.Names.{name};
ghost use Rattle.urb_world.specs.internal.Scripts.{◌⇒◌, Plays, Drafts, Accepts, Logs, Refuses};
ghost use Rattle.urb_world.specs.internal.Scripts.{accepted};
ghost use Rattle.urb_world.specs.internal.Scripts.{down, message, submit, store, crash, log_of};
ghost use Rattle.urb_world.specs.internal.Examples.{filled};

/// The numbers of each client run 1, 2, 3, .. at each node. A repeat gets the name that the first
/// submit got.
pub fn numbers()
    ensures begin_with_one { Plays 3 10 (
        submit 1 (message 7 2 "a") ⇒ Refuses (refusal.Gap 1)
        ∷ submit 1 (message 7 0 "a") ⇒ Refuses (refusal.Gap 1)
        ∷ []) }
    ensures run_for_each_client { Plays 1 10 (
        submit 1 (message 7 1 "a") ⇒ Drafts (name 1 1) 1
        ∷ store 1 ⇒ Accepts (name 1 1) 0 1
        ∷ submit 1 (message 8 2 "b") ⇒ Refuses (refusal.Gap 1)
        ∷ submit 1 (message 8 1 "b") ⇒ Drafts (name 1 2) 2
        ∷ store 1 ⇒ Accepts (name 1 2) 0 1
        ∷ submit 1 (message 7 3 "c") ⇒ Refuses (refusal.Gap 2)
        ∷ submit 1 (message 7 2 "c") ⇒ Drafts (name 1 3) 3
        ∷ store 1 ⇒ Accepts (name 1 3) 0 1
        ∷ submit 1 (message 7 1 "a") ⇒ accepted 1 1
        ∷ submit 1 (message 8 1 "b") ⇒ accepted 1 2
        ∷ submit 1 (message 7 2 "c") ⇒ accepted 1 3
        ∷ submit 1 (message 8 1 "a") ⇒ Refuses refusal.Conflict
        ∷ []) }
    ensures run_at_each_node { Plays 3 10 (
        submit 1 (message 7 1 "a") ⇒ Drafts (name 1 1) 1
        ∷ store 1 ⇒ Accepts (name 1 1) 2 0
        ∷ submit 2 (message 7 2 "a") ⇒ Refuses (refusal.Gap 1)
        ∷ submit 2 (message 7 1 "b") ⇒ Drafts (name 2 1) 1
        ∷ []) }
{}

/// A sender may broadcast as many messages as the cap.
pub fn cap()
    ensures full_but_for_repeats { Plays 1 2 (
        submit 1 (message 7 1 "a") ⇒ Drafts (name 1 1) 1
        ∷ store 1 ⇒ Accepts (name 1 1) 0 1
        ∷ submit 1 (message 7 2 "b") ⇒ Drafts (name 1 2) 2
        ∷ store 1 ⇒ Accepts (name 1 2) 0 1
        ∷ submit 1 (message 7 3 "c") ⇒ Refuses refusal.Full
        ∷ submit 1 (message 7 2 "b") ⇒ accepted 1 2
        ∷ log_of 1 ⇒ Logs ((name 1 1, Some (message 7 1 "a")) ∷ (name 1 2, Some (message 7 2 "b")) ∷ [])
        ∷ []) }
    ensures asked_after_the_number { Plays 1 1 (
        submit 1 (message 7 1 "") ⇒ Drafts (name 1 1) 1
        ∷ store 1 ⇒ Accepts (name 1 1) 0 1
        ∷ submit 1 (message 7 3 "") ⇒ Refuses (refusal.Gap 2)
        ∷ submit 1 (message 7 2 "") ⇒ Refuses refusal.Full
        ∷ submit 1 (message 8 1 "") ⇒ Refuses refusal.Full
        ∷ submit 1 (message 8 2 "") ⇒ Refuses (refusal.Gap 1)
        ∷ submit 1 (message 7 1 "a") ⇒ Refuses refusal.Conflict
        ∷ []) }
{}

/// A payload has at most 16,384 bytes, and may be empty.
pub fn payloads()
    ensures from_none_to_the_longest { Plays 1 3 (
        submit 1 (filled 7 1 0) ⇒ Drafts (name 1 1) 1
        ∷ store 1 ⇒ Accepts (name 1 1) 0 1
        ∷ submit 1 (filled 7 2 16384) ⇒ Drafts (name 1 2) 2
        ∷ store 1 ⇒ Accepts (name 1 2) 0 1
        ∷ submit 1 (filled 7 3 16385) ⇒ Refuses refusal.TooLong
        ∷ log_of 1 ⇒ Logs ((name 1 1, Some (message 7 1 "")) ∷ (name 1 2, Some (filled 7 2 16384)) ∷ [])
        ∷ []) }
    ensures asked_before_the_number { Plays 1 3 (
        submit 1 (message 7 1 "a") ⇒ Drafts (name 1 1) 1
        ∷ store 1 ⇒ Accepts (name 1 1) 0 1
        ∷ submit 1 (filled 7 1 16385) ⇒ Refuses refusal.TooLong
        ∷ submit 1 (filled 7 9 16385) ⇒ Refuses refusal.TooLong
        ∷ submit 2 (filled 7 2 16385) ⇒ Refuses refusal.BadNode
        ∷ []) }
    ensures asked_after_the_state { Plays 1 3 (
        submit 1 (message 7 1 "a") ⇒ Drafts (name 1 1) 1
        ∷ submit 1 (filled 8 1 16385) ⇒ Refuses refusal.Busy
        ∷ crash 1 ⇒ down 1
        ∷ submit 1 (filled 8 1 16385) ⇒ Refuses refusal.Down
        ∷ []) }
{}
