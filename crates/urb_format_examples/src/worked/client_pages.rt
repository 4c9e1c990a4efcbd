//! Which entries of a page a response lists, and what a reader gets.
ghost use Rattle.std.specs.Prelude.{[], ◌∷◌, ◌<◌, length};
ghost use Rattle.urb_names.specs.LabelsAndContents.{Content};
ghost use Rattle.urb_client.specs.Pages.{IsReadWhole, ListsPage, ReadsOn, SaysPage};
ghost use Rattle.urb_client.specs.Responses.{Done, Listing};
ghost use Rattle.urb_client.specs.declared.format.TheConstants.{LONGEST_FRAME};
ghost use Rattle.urb_format_examples.specs.internal.FrameExamples.{holding_message, small};

/// A response lists the longest prefix of a page that a frame has room for.
pub fn what_a_response_lists()
    ensures nothing { ListsPage [] [] }
    ensures all_of_a_page { ListsPage (small 1 ∷ []) (small 1 ∷ []) }
    ensures all_that_a_frame_has_room_for { (m : Content) → LONGEST_FRAME < length m.payload
        → ListsPage (small 1 ∷ holding_message m ∷ []) (small 1 ∷ []) }
    ensures another_entry { ListsPage (small 1 ∷ []) (small 2 ∷ []) → ⊥ }
    ensures more_than_a_frame { (m : Content) → LONGEST_FRAME < length m.payload
        → ListsPage (holding_message m ∷ []) (holding_message m ∷ []) → ⊥ }
    ensures less_than_a_frame_has_room_for { ListsPage (small 1 ∷ small 2 ∷ [])
        (small 1 ∷ []) → ⊥ }
    ensures nothing_of_a_long_entry { (m : Content) → LONGEST_FRAME < length m.payload
        → ListsPage (holding_message m ∷ []) [] → ⊥ }
    ensures no_list { SaysPage (small 1 ∷ []) Done → ⊥ }
    ensures a_list_of_another_entry { SaysPage (small 1 ∷ []) (Listing (small 2 ∷ [])) → ⊥ }
{}

/// A reader asks until a response has no entries. Then it has every entry once, in order.
pub fn what_a_reader_gets()
    ensures an_entry_that_is_not_there { ReadsOn 1 [] ((small 1 ∷ []) ∷ []) → ⊥ }
    ensures an_end_before_the_last { ReadsOn 1 (small 1 ∷ small 2 ∷ [])
        ((small 1 ∷ []) ∷ []) → ⊥ }
    ensures every_entry { IsReadWhole }
{}
