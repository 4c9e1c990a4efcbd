//! Calls of nodes, one after the other, and what is shown of their answers.
ghost use Rattle.std.specs.Prelude.{[], ◌∷◌, None, Some, true, ℕ};
ghost use Rattle.urb_client.specs.Responses.{Done};
ghost use Rattle.urb_options.specs.Addresses.{AtPort};
ghost use Rattle.urb_cli.specs.Asking.{AsksEach, ShowsAnswer};
ghost use Rattle.urb_cli.specs.Calls.{Fails, Insists, Steps};
ghost use Rattle.urb_cli.specs.Publishing.{Gives, HasEnded, TakesLine};
ghost use Rattle.urb_word_examples.specs.internal.CallExamples.{adds, answers_sixth, asking, counts};
ghost use Rattle.urb_word_examples.specs.internal.CallExamples.{no_end, no_text, stays};
ghost use Rattle.urb_word_examples.specs.internal.CallExamples.{any_end, any_text, is_mute, never};

/// Steps follow one another, and a request is sent again after each call without a response.
pub fn calls_in_a_row()
    ensures another_sum { Steps {S = ℕ} {X = ℕ} adds 0 (1 ∷ []) 2 → ⊥ }
    ensures another_count { Fails {S = ℕ} counts asking 0 1 2 → ⊥ }
    ensures an_answer_before_its_call { Insists {S = ℕ} answers_sixth asking 0 (Some Done) 6 → ⊥ }
    ensures another_answer { Insists {S = ℕ} answers_sixth asking 0 None 0 → ⊥ }
{}

/// What is shown is that of a response, and each node is asked once, in order.
pub fn what_questions_show()
    ensures without_an_answer { ShowsAnswer {S = ℕ} never (λ said. Some ([], 0)) (AtPort 1) asking
        0 ([], 0) 0 → ⊥ }
    ensures nothing_to_show { ShowsAnswer {S = ℕ} stays (λ said. None) (AtPort 1) asking 0
        ([], 0) 0 → ⊥ }
    ensures another_state { AsksEach {S = ℕ} stays (AtPort 1) 0 0 0 1 → ⊥ }
    ensures another_status { AsksEach {S = ℕ} stays (AtPort 1) 0 0 1 0 → ⊥ }
    ensures a_node_without_an_answer { AsksEach {S = ℕ} never (AtPort 1) 0 1 0 0 → ⊥ }
{}

/// The status for several nodes is that of the first call that didn't end well.
pub fn statuses_of_several_nodes()
    ensures that_no_answer_has { AsksEach {S = ℕ} is_mute (AtPort 1) 0 1 7 0 → ⊥ }
    ensures without_an_answer { AsksEach {S = ℕ} is_mute (AtPort 1) 0 1 0 0 → ⊥ }
{}

/// A line is taken from the front of an input, and an input ends when no byte is left.
pub fn what_is_taken()
    ensures an_end_of_line { TakesLine (Some (10 ∷ 10 ∷ [])) (10 ∷ []) (Some []) → ⊥ }
    ensures another_line { TakesLine (Some []) (1 ∷ []) (Some []) → ⊥ }
    ensures a_byte_left { HasEnded (Some (1 ∷ [])) (Some (1 ∷ [])) → ⊥ }
    ensures a_byte_taken { HasEnded (Some (1 ∷ [])) (Some []) → ⊥ }
    ensures a_text { Gives any_text no_end 0 [] 0 true }
    ensures no_text_at_an_end { Gives no_text any_end 0 [] 0 true → ⊥ }
{}
