//! Worked examples of what the acts of the service can't be. Each row breaks one part of what its act
//! says.
ghost use Rattle.std.specs.Prelude.{[], ◌∷◌, ◌≡◌, Err, None, Ok, Some};
ghost use Rattle.urb_names.specs.Names.{name};
ghost use Rattle.urb_names.specs.declared.refusal.Refusal.TheVariants as refusal;
ghost use Rattle.urb_group.specs.declared.state.State.TheVariants as state;
ghost use Rattle.urb_show.specs.Answers.{restart_refusal};
ghost use Rattle.urb_show.specs.Service.{Does, Join, Starts, Step, entries_at};
ghost use Rattle.urb_show.specs.Service as seen;
ghost use Rattle.urb_show.specs.ServicePromises.{Keeps};
ghost use Rattle.urb_show.specs.internal.ServiceExamples.{both, down, m1, m2, pair_of, ready};
ghost use Rattle.urb_show.specs.internal.ServiceExamples.{storing};

/// A SUBMIT isn't written if it has an answer, gets no other answer, and changes nothing with one.
pub fn no_submits()
    ensures written_again { Does both (seen.Submit m1 None) (ready (m1 ∷ []) [])
        (storing (m1 ∷ []) [] (m1 ∷ [])) → ⊥ }
    ensures another_number { Does both (seen.Submit m1 (Some (Ok 2))) (ready (m1 ∷ []) [])
        (ready (m1 ∷ []) []) → ⊥ }
    ensures answered_and_lost { Does both (seen.Submit m1 (Some (Ok 1))) (ready (m1 ∷ []) [])
        (ready [] []) → ⊥ }
{}

/// A node that isn't writing finishes nothing. What is finished is on the list, and only names of
/// messages join the log.
pub fn no_finishes()
    ensures of_a_ready_node { Does both (seen.Finish []) (ready [] []) (ready [] []) → ⊥ }
    ensures accepted_and_lost { Does both (seen.Finish (1 ∷ [])) (storing [] [] (m1 ∷ []))
        (ready [] []) → ⊥ }
    ensures a_name_of_no_message { Does both (seen.Finish []) (storing [] [] [])
        (ready [] (name 2 1 ∷ [])) → ⊥ }
    ensures a_gap_behind_a_name { Join both [] (name 1 1 ∷ name 1 3 ∷ []) → ⊥ }
{}

/// A READ and a STATUS tell what there is, and change nothing.
pub fn no_reads()
    ensures both_entries { entries_at both (name 1 1 ∷ name 1 2 ∷ [])
        ≡ (name 1 1, Some m1) ∷ (name 1 2, Some m2) ∷ [] }
    ensures another_entry { Does both (seen.Read 2 1 ((name 1 1, Some m1) ∷ []) 2)
        (ready [] (name 1 1 ∷ name 1 2 ∷ [])) (ready [] (name 1 1 ∷ name 1 2 ∷ [])) → ⊥ }
    ensures another_total { Does both (seen.Read 1 1 ((name 1 1, Some m1) ∷ []) 1)
        (ready [] (name 1 1 ∷ name 1 2 ∷ [])) (ready [] (name 1 1 ∷ name 1 2 ∷ [])) → ⊥ }
    ensures read_and_lost { Does both (seen.Read 1 1 [] 0) (ready (m1 ∷ []) []) (ready [] []) → ⊥ }
    ensures another_state { Does both (seen.Status state.Down 0 0) (ready [] []) (ready [] []) → ⊥ }
    ensures another_count { Does both (seen.Status state.Ready 1 0) (ready [] []) (ready [] []) → ⊥ }
    ensures another_log { Does both (seen.Status state.Ready 0 1) (ready [] []) (ready [] []) → ⊥ }
    ensures told_and_lost { Does both (seen.Status state.Ready 1 0) (ready (m1 ∷ []) [])
        (ready [] []) → ⊥ }
{}

/// What a crash, a restart, a write and a failed disk can't be.
pub fn no_failures()
    ensures a_refused_crash { Does both (seen.Crash (Some refusal.Down)) (ready [] [])
        (down [] [] []) → ⊥ }
    ensures a_crash_that_leaves_it_up { Does both (seen.Crash None) (ready [] []) (ready [] [])
        → ⊥ }
    ensures a_restart_that_is_refused_as_up { Does both (seen.Restart (Some refusal.NotDown))
        (down [] [] []) (down [] [] []) → ⊥ }
    ensures a_refused_restart_that_changes { Does both (seen.Restart (Some refusal.NotDown))
        (ready (m1 ∷ []) []) (ready [] []) → ⊥ }
    ensures a_write { Does both seen.Write (ready [] []) (storing [] [] []) }
    ensures a_second_write { Does both seen.Write (storing [] [] []) (storing [] [] []) → ⊥ }
    ensures a_write_that_is_over { Does both seen.Write (ready [] []) (ready [] []) → ⊥ }
    ensures a_failure_of_nothing { Does both seen.Fail (ready [] []) (down [] [] []) → ⊥ }
    ensures a_failure_that_leaves_it_up { Does both seen.Fail (storing [] [] []) (storing [] [] [])
        → ⊥ }
    ensures of_a_bad_image { restart_refusal state.Down ≡ refusal.BadImage }
    ensures of_a_node_that_writes { restart_refusal state.Storing ≡ refusal.NotDown }
{}

/// A step changes its node as its act says, and nothing else. A start changes no limit.
pub fn no_steps()
    ensures a_crash { Step both 1 (seen.Crash None)
        (pair_of (down (m1 ∷ m2 ∷ []) [] []) (ready [] [])) }
    ensures of_another_act { Step both 1 seen.Rest (pair_of (ready [] []) (ready [] [])) → ⊥ }
    ensures of_other_limits { Step both 1 seen.Rest (record both { size = record { n = 3; cap = 2 } })
        → ⊥ }
    ensures a_start_with_other_limits { Starts both
        (record both { size = record { n = 3; cap = 2 } }) → ⊥ }
    ensures a_lost_message { Keeps (ready (m1 ∷ []) []) (ready [] []) → ⊥ }
    ensures a_lost_name { Keeps (ready [] (name 1 1 ∷ [])) (ready [] []) → ⊥ }
{}
