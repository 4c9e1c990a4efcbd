//! Worked examples of desks: what a node's desk and a client's desk can't answer.
//!
//! Each of the rows that end in ⊥ breaks one part of what a desk promises.
ghost use Rattle.std.specs.Prelude.{[], ◌∷◌, ◌≡◌, None, Some, false, true};
ghost use Rattle.urb_client.specs.Requests.{Read, Wait};
ghost use Rattle.urb_client.specs.Responses.{Done as IsDone, Refused};
ghost use Rattle.urb_world.specs.Step.{Tick};
ghost use Rattle.urb_world.specs.internal.Scripts.{message};
ghost use Rattle.urb_names.specs.Names.{name};
ghost use Rattle.urb_show.specs.internal.Examples.{told};
ghost use Rattle.urb_show.specs.internal.ReaderExamples.{knowing, shows_none};
ghost use Rattle.urb_desk.specs.ClientDesks.{AnswersClient, RefusedClient, not_taken};
ghost use Rattle.urb_desk.specs.Desks.{AnswersAt, Looks, Reads, RefusedAt, Sees, Works};
ghost use Rattle.urb_desk.specs.Desks.{gone, part_of};
ghost use Rattle.urb_turn.specs.Loans.{events_until};
ghost use Rattle.urb_turn.specs.internal.TurnExamples.{at_the_opening};
ghost use Rattle.urb_desk.specs.internal.DeskExamples.{ask_crash, ask_status, client_desk};
ghost use Rattle.urb_desk.specs.internal.DeskExamples.{desk_of, later_desk, lost_desk, new_desk};

/// A read takes the lists of one moment, behind all that the desk had seen.
pub fn looks_at_lists()
    ensures that_see_nothing_new { Looks shows_none new_desk new_desk }
    ensures that_forget_an_event { Looks shows_none
        (record new_desk { known = knowing [] [] (Tick 1 ∷ []) }) new_desk → ⊥ }
    ensures at_another_moment { Looks shows_none new_desk (desk_of 1 (Tick 1 ∷ [])) → ⊥ }
    ensures at_an_earlier_moment { Looks shows_none (desk_of 1 (Tick 1 ∷ [])) new_desk → ⊥ }
    ensures all_entries_of_a_page { part_of (told 1 1 "a" ∷ told 1 2 "b" ∷ []) 1 2
        ≡ (name 1 1, message 7 1 "a") ∷ (name 1 2, message 7 2 "b") ∷ [] }
    ensures all_events { events_until (Some (Tick 1 ∷ Tick 2 ∷ [])) ≡ Tick 1 ∷ Tick 2 ∷ [] }
{}

/// A turn gets the House behind all that the desk had seen, and the desk then has seen all until
/// the turn's end.
pub fn what_a_turn_lets_a_desk_see()
    ensures nothing_without_loans { Sees [] None [] → ⊥ }
    ensures all_until_its_end { Sees [] (Some at_the_opening) [] }
    ensures not_an_earlier_house { Sees (Tick 1 ∷ []) (Some at_the_opening) [] → ⊥ }
    ensures not_a_later_moment { Sees [] (Some at_the_opening) (Tick 1 ∷ []) → ⊥ }
{}

/// A desk that finds its worker or its House gone has a witness of that, and knows what it knew.
pub fn answers_of_a_desk()
    ensures to_a_read_of_a_closed_house { AnswersAt shows_none new_desk (Read 1 1) gone lost_desk }
    ensures to_a_read_by_another_desk { AnswersAt shows_none new_desk (Read 1 1) gone (desk_of 2 [])
        → ⊥ }
    ensures to_a_read_that_is_done { AnswersAt shows_none new_desk (Read 1 1) IsDone lost_desk → ⊥ }
    ensures to_a_wait_for_a_closed_house { AnswersAt shows_none new_desk (Wait 1 1 0) gone lost_desk }
    ensures to_a_wait_by_another_desk { AnswersAt shows_none new_desk (Wait 1 1 0) gone
        (desk_of 2 []) → ⊥ }
    ensures to_a_wait_that_is_done { AnswersAt shows_none new_desk (Wait 1 1 0) IsDone lost_desk → ⊥ }
    ensures of_a_worker_that_is_gone { AnswersAt shows_none new_desk ask_status gone lost_desk }
    ensures of_another_worker_that_is_gone { AnswersAt shows_none new_desk ask_status gone
        (desk_of 2 []) → ⊥ }
    ensures of_no_worker { AnswersAt shows_none new_desk ask_status (Refused 99 0) lost_desk → ⊥ }
    ensures a_closed_house_is_not_done { Reads shows_none new_desk 1 1 IsDone lost_desk → ⊥ }
    ensures a_closed_house { Reads shows_none new_desk 1 1 gone lost_desk }
    ensures a_closed_house_without_a_witness { Reads shows_none new_desk 1 1 gone new_desk → ⊥ }
    ensures a_gone_worker { Works shows_none new_desk ask_status gone lost_desk }
    ensures a_gone_worker_without_a_witness { Works shows_none new_desk ask_status gone new_desk
        → ⊥ }
    ensures a_worker_that_reads { Works shows_none new_desk (Read 1 1) IsDone lost_desk → ⊥ }
{}

/// Refused memory leaves the desk as it was. A read may have taken the lists already.
pub fn refused_memory_at_a_desk()
    ensures of_a_read { RefusedAt shows_none new_desk (Read 1 1) new_desk }
    ensures of_a_wait { RefusedAt shows_none new_desk (Wait 1 1 0) new_desk }
    ensures of_a_status { RefusedAt shows_none new_desk ask_status new_desk }
    ensures of_a_read_by_another { RefusedAt shows_none new_desk (Read 1 1) (desk_of 2 []) → ⊥ }
    ensures of_a_wait_by_another { RefusedAt shows_none new_desk (Wait 1 1 0) (desk_of 2 []) → ⊥ }
    ensures of_a_status_that_looks { RefusedAt shows_none new_desk ask_status later_desk → ⊥ }
    ensures of_a_wait_that_looked { RefusedAt shows_none new_desk (Wait 1 1 0) later_desk }
{}

/// A client that may not crash its node asks all else of the node's desk.
pub fn answers_of_a_clients_desk()
    ensures to_a_crash { AnswersClient shows_none (client_desk false) ask_crash not_taken
        (client_desk false) }
    ensures that_lets_it_crash { AnswersClient shows_none (client_desk false) (Read 1 1) gone
        (client_desk true) → ⊥ }
    ensures that_may_crash_it_afterwards { AnswersClient shows_none (client_desk false) ask_crash
        not_taken (client_desk true) → ⊥ }
    ensures to_a_read_that_is_done { AnswersClient shows_none (client_desk false) (Read 1 1) IsDone
        (client_desk false) → ⊥ }
    ensures to_a_crash_that_is_done { AnswersClient shows_none (client_desk false) ask_crash IsDone
        (client_desk false) → ⊥ }
    ensures without_memory { RefusedClient shows_none (client_desk false) ask_status
        (client_desk false) }
    ensures without_memory_it_may_not_crash { RefusedClient shows_none (client_desk false) ask_status
        (client_desk true) → ⊥ }
    ensures without_memory_for_a_crash { RefusedClient shows_none (client_desk false) ask_crash
        (client_desk false) → ⊥ }
    ensures without_memory_at_another_desk { RefusedClient shows_none (client_desk false) ask_status
        (record (client_desk false) { desk = desk_of 2 [] }) → ⊥ }
{}
