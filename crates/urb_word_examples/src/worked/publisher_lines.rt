//! What a publisher of texts sends and writes, and how it ends.
ghost use Rattle.std.specs.Prelude.{[], ◌∷◌, None, Some, ℕ};
ghost use Rattle.urb_cli.specs.Publishing.{BreaksOffAfter, EndsAfter, IsPublished};
ghost use Rattle.urb_cli.specs.Publishing.{IsRefusedAtOnce};
ghost use Rattle.urb_cli.specs.Publishing.{IsRefusedNext, IsTooLong, Publishes};
ghost use Rattle.urb_cli.specs.declared.client.stream_fault.StreamEnd.TheVariants.{Done, Refused};
ghost use Rattle.urb_cli.specs.declared.client.stream_fault.StreamFault.TheVariants.{AtEnd};
ghost use Rattle.urb_word_examples.specs.internal.CallExamples.{any_end, any_text, empty_text};
ghost use Rattle.urb_word_examples.specs.internal.CallExamples.{is_silent, is_steady, no_end};
ghost use Rattle.urb_word_examples.specs.internal.CallExamples.{no_text, progress, tells_number};

/// A text is published once: it was given, accepted and told of, and the number goes on by one.
pub fn what_is_published()
    ensures a_text_that_was_not_given { IsPublished no_text any_end is_steady 7 (progress 1 None)
        ([], 1) (progress 2 None) → ⊥ }
    ensures a_text_without_an_answer { IsPublished any_text any_end is_silent 7 (progress 1 None)
        ([], 1) (progress 2 None) → ⊥ }
    ensures a_number_left_out { IsPublished any_text any_end is_steady 7 (progress 1 None)
        ([], 1) (progress 3 None) → ⊥ }
    ensures without_a_line { IsPublished any_text any_end is_steady 7 (progress 1 (Some []))
        ([], 1) (progress 2 (Some [])) → ⊥ }
{}

/// A text that is too long isn't sent, and another one may be refused.
pub fn what_is_refused()
    ensures a_short_text { IsTooLong empty_text any_end is_steady 7 (progress 1 None) 0 0 None
        → ⊥ }
    ensures a_long_text_that_was_not_given { IsTooLong no_text any_end is_steady 7
        (progress 1 None) 0 0 None → ⊥ }
    ensures a_long_text_that_was_sent { IsTooLong any_text any_end is_steady 7
        (progress 1 None) 0 5 None → ⊥ }
    ensures a_long_text_without_a_line { IsTooLong any_text any_end is_steady 7
        (progress 1 (Some [])) 0 0 (Some []) → ⊥ }
    ensures a_text_that_was_not_given { IsRefusedNext no_text any_end is_steady 7
        (progress 1 None) 0 0 None → ⊥ }
    ensures a_text_without_an_answer { IsRefusedNext any_text any_end is_silent 7
        (progress 1 None) 0 0 None → ⊥ }
    ensures a_text_without_a_line { IsRefusedNext any_text any_end is_steady 7
        (progress 1 (Some [])) 0 0 (Some []) → ⊥ }
    ensures at_once_and_done { IsRefusedAtOnce any_text any_end is_steady 7 0 0 None Done 0 0 None
        → ⊥ }
    ensures at_once_after_a_text { IsRefusedAtOnce any_text any_end is_steady 7 0 0 None Refused
        5 0 None → ⊥ }
    ensures at_once_without_an_answer { IsRefusedAtOnce any_text any_end is_silent 7 0 0 None
        Refused 0 0 None → ⊥ }
    ensures at_once_without_a_line { IsRefusedAtOnce any_text any_end is_steady 7 0 0 (Some [])
        Refused 0 0 (Some []) → ⊥ }
{}

/// How a publisher ends after the last text that was published.
pub fn how_a_publisher_ends()
    ensures done_before_an_end { EndsAfter any_text no_end is_steady 7 (progress 1 None) Done 0 0
        None → ⊥ }
    ensures done_with_another_call { EndsAfter any_text any_end is_steady 7 (progress 1 None) Done
        0 5 None → ⊥ }
    ensures done_with_another_line { EndsAfter any_text any_end is_steady 7 (progress 1 (Some []))
        Done 0 0 (Some (1 ∷ [])) → ⊥ }
    ensures without_a_number { Publishes any_text any_end is_silent 7 0 0 None Done 0 0 None
        → ⊥ }
    ensures without_an_end { Publishes any_text no_end is_steady 7 0 0 None Done 0 0 None → ⊥ }
{}

/// The node at hand tells client 7 its next number, and accepts no text. So nothing is published.
pub fn what_nobody_accepts()
    ensures done_after_another_call { Publishes any_text any_end tells_number 7 0 0 None Done 0 5
        None → ⊥ }
    ensures broken_off_at_the_last_number { BreaksOffAfter any_text any_end tells_number 7
        (progress 1 None) AtEnd 0 0 None → ⊥ }
    ensures broken_off_with_another_output { BreaksOffAfter any_text any_end tells_number 7
        (progress 4294967295 None) AtEnd 0 0 (Some []) → ⊥ }
{}
