//! What a follower of a log prints, and how it ends.
ghost use Rattle.std.specs.Prelude.{[], ◌∷◌, None, Some, ℕ};
ghost use Rattle.urb_client.specs.declared.frame_write.WriteFailed.{WriteFailed};
ghost use Rattle.urb_client.specs.Responses.{Listing, Refused};
ghost use Rattle.urb_cli.specs.ClientOutput.{entry_line};
ghost use Rattle.urb_cli.specs.Following.{BreaksOffAfter, IsAnswered, IsFollowed, IsRefusedAfter};
ghost use Rattle.urb_cli.specs.Following.{Prints};
ghost use Rattle.urb_cli.specs.declared.client.stream_fault.StreamFault.TheVariants.{Output};
ghost use Rattle.urb_word_examples.specs.internal.CallExamples.{answers_sixth, is_silent, is_steady};
ghost use Rattle.urb_word_examples.specs.internal.CallExamples.{reader, refuses_fifth};

/// What a follower prints of a response, and from where on it asks.
pub fn what_a_follower_prints()
    ensures another_place { Prints {C = ℕ} is_steady entry_line (reader 1 []) (Listing [])
        (reader 2 []) → ⊥ }
    ensures bytes_of_no_entry { Prints {C = ℕ} is_steady entry_line (reader 1 []) (Listing [])
        (reader 1 (1 ∷ [])) → ⊥ }
    ensures another_refusal { Prints {C = ℕ} is_steady entry_line (reader 1 []) (Refused 18 0)
        (reader 1 []) → ⊥ }
    ensures another_place_by_a_refusal { Prints {C = ℕ} is_steady entry_line (reader 1 [])
        (Refused 19 0) (reader 2 []) → ⊥ }
    ensures bytes_by_a_refusal { Prints {C = ℕ} is_steady entry_line (reader 1 []) (Refused 19 0)
        (reader 1 (1 ∷ [])) → ⊥ }
    ensures an_answer_that_is_not_given { IsAnswered {C = ℕ} answers_sixth 0 1 None 0 → ⊥ }
    ensures an_answer_at_another_place { IsAnswered {C = ℕ} refuses_fifth 0 1 (Some (Refused 3 0))
        0 → ⊥ }
    ensures a_page_that_is_not_printed { IsFollowed {C = ℕ} is_steady entry_line (reader 1 [])
        (Listing []) (reader 2 []) → ⊥ }
    ensures a_page_without_an_answer { IsFollowed {C = ℕ} is_silent entry_line (reader 1 [])
        (Listing []) (reader 1 []) → ⊥ }
{}

/// A follower is refused only by an answer of the node.
pub fn how_a_follower_ends()
    ensures refused_without_an_answer { IsRefusedAfter {C = ℕ} is_silent entry_line 0 1 None 0
        None → ⊥ }
{}

/// The node at hand refuses to give the entry at place 5, and answers nothing else.
pub fn where_a_follower_ends()
    ensures refused_at_another_place { IsRefusedAfter {C = ℕ} refuses_fifth entry_line 0 1 None 0
        None → ⊥ }
    ensures refused_without_a_line { IsRefusedAfter {C = ℕ} refuses_fifth entry_line 0 5 (Some [])
        0 (Some []) → ⊥ }
    ensures broken_off_at_another_place { (failed : WriteFailed) → BreaksOffAfter {C = ℕ}
        refuses_fifth entry_line 0 1 None (Output failed) 0 None → ⊥ }
    ensures broken_off_without_an_answer { (failed : WriteFailed) → BreaksOffAfter {C = ℕ}
        is_silent entry_line 0 1 None (Output failed) 0 None → ⊥ }
{}
