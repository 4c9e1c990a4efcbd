//! What the bytes of a client's requests say.
ghost use Rattle.std.specs.Prelude.{[], ◌∷◌, ◌≡◌, Err, None, Ok, Some, codes};
ghost use Rattle.urb_client.specs.Requests.{Ask, IsAsked, IsSubmit, Read, Submit, Wait};
ghost use Rattle.urb_client.specs.Requests.{control_of, no_fields, opcode_of, request_body};
ghost use Rattle.urb_client.specs.Requests.{request_of, submit_fields};
ghost use Rattle.urb_client.specs.declared.format.TheConstants.{UNKNOWN_OPCODE, WRONG_LENGTH};
ghost use Rattle.urb_client.specs.declared.request.Control.TheVariants.{Crash, Restart, Status};

/// A submit has a client from 1, and its numbers fit their fields.
pub fn what_a_submit_asks()
    ensures the_least { IsAsked (Submit 1 0 []) }
    ensures of_no_client { IsAsked (Submit 0 1 []) → ⊥ }
    ensures a_client_of_three_bytes { IsAsked (Submit 65536 1 []) → ⊥ }
    ensures a_number_of_five_bytes { IsAsked (Submit 7 4294967296 []) → ⊥ }
{}

/// A read has a place from 1, and asks for one to eight entries. So does a wait.
pub fn what_a_read_asks()
    ensures the_most { IsAsked (Read 1 8) }
    ensures no_place { IsAsked (Read 0 1) → ⊥ }
    ensures a_place_of_five_bytes { IsAsked (Read 4294967296 1) → ⊥ }
    ensures no_entries { IsAsked (Read 1 0) → ⊥ }
    ensures nine_entries { IsAsked (Read 1 9) → ⊥ }
    ensures the_longest_wait { IsAsked (Wait 1 8 65535) }
    ensures a_wait_at_no_place { IsAsked (Wait 0 1 5) → ⊥ }
    ensures a_wait_at_a_place_of_five_bytes { IsAsked (Wait 4294967296 1 5) → ⊥ }
    ensures a_wait_for_no_entries { IsAsked (Wait 1 0 5) → ⊥ }
    ensures a_wait_for_nine_entries { IsAsked (Wait 1 9 5) → ⊥ }
    ensures a_wait_of_three_bytes { IsAsked (Wait 1 1 65536) → ⊥ }
{}

/// The bytes of requests, each an opcode with the fields behind it.
pub fn bytes_of_requests()
    ensures of_a_submit { request_body (Submit 7 1 (codes "a"))
        ≡ 1 ∷ 0 ∷ 7 ∷ 0 ∷ 0 ∷ 0 ∷ 1 ∷ 97 ∷ [] }
    ensures of_a_read { request_body (Read 5 8) ≡ 2 ∷ 0 ∷ 0 ∷ 0 ∷ 5 ∷ 8 ∷ [] }
    ensures of_a_wait { request_body (Wait 5 8 256) ≡ 6 ∷ 0 ∷ 0 ∷ 0 ∷ 5 ∷ 8 ∷ 1 ∷ 0 ∷ [] }
    ensures of_a_question_for_the_state { request_body (Ask Status) ≡ 3 ∷ [] }
    ensures the_opcode_of_a_question { opcode_of Status ≡ 3 }
    ensures the_opcode_of_a_crash { opcode_of Crash ≡ 4 }
    ensures the_opcode_of_a_restart { opcode_of Restart ≡ 5 }
{}

/// What bytes ask, or the code of their first fault.
pub fn requests_in_bytes()
    ensures a_submit { request_of (1 ∷ 0 ∷ 7 ∷ 0 ∷ 0 ∷ 0 ∷ 1 ∷ 97 ∷ [])
        ≡ Ok (Submit 7 1 (codes "a")) }
    ensures a_read { request_of (2 ∷ 0 ∷ 0 ∷ 0 ∷ 5 ∷ 8 ∷ []) ≡ Ok (Read 5 8) }
    ensures the_fields_of_a_submit { submit_fields (0 ∷ 7 ∷ 0 ∷ 0 ∷ 0 ∷ 1 ∷ [])
        ≡ Ok (Submit 7 1 []) }
    ensures a_submit_that_is_too_short { submit_fields (0 ∷ 7 ∷ 0 ∷ 0 ∷ 0 ∷ [])
        ≡ Err WRONG_LENGTH }
    ensures a_question_for_the_state { control_of 3 ≡ Some Status }
    ensures a_crash { control_of 4 ≡ Some Crash }
    ensures no_opcode { control_of 9 ≡ None }
    ensures nothing_behind_it { no_fields (Some Status) [] ≡ Ok (Ask Status) }
    ensures a_byte_behind_it { no_fields (Some Status) (0 ∷ []) ≡ Err WRONG_LENGTH }
    ensures behind_no_opcode { no_fields None [] ≡ Err UNKNOWN_OPCODE }
    ensures no_submit { IsSubmit (Ok (Read 5 8)) → ⊥ }
{}
