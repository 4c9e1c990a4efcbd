//! The bytes of responses to clients.
ghost use Rattle.std.specs.Prelude.{[], ◌∷◌, ◌≡◌, length, replicate};
ghost use Rattle.urb_names.specs.LabelsAndContents.{Content};
ghost use Rattle.urb_names.specs.Names.{name};
ghost use Rattle.urb_names.specs.declared.limits.TheConstants.{MAX_PAYLOAD};
ghost use Rattle.urb_client.specs.Listings.{IsEntry, entry_bytes, entry_head, listing_body};
ghost use Rattle.urb_client.specs.MissingResponses.{HasNoResponse};
ghost use Rattle.urb_client.specs.Responses.{Accepted, Done, IsListing, IsSaid, Listing, Refused};
ghost use Rattle.urb_client.specs.Responses.{Status, encoding, frame, response_body, state_byte};
ghost use Rattle.urb_client.specs.declared.response.NodeState.TheVariants.{Down, Ready, Storing};
ghost use Rattle.urb_format_examples.specs.internal.FrameExamples.{holding_message, small};
ghost use Rattle.urb_format_examples.specs.internal.PacketExamples.{message};

/// An entry is a name with its message: both numbers, the client, its number and the payload.
pub fn bytes_of_entries()
    ensures an_entry { IsEntry (small 1) }
    ensures of_no_sender { IsEntry (name 0 1, message 7 1 "a") → ⊥ }
    ensures of_no_client { IsEntry (name 1 1, message 0 1 "a") → ⊥ }
    ensures before_the_payload { entry_head (name 2 3) (message 7 5 "ab")
        ≡ 2 ∷ 0 ∷ 0 ∷ 0 ∷ 3 ∷ 0 ∷ 7 ∷ 0 ∷ 0 ∷ 0 ∷ 5 ∷ 0 ∷ 2 ∷ [] }
    ensures with_the_payload { entry_bytes (name 2 3, message 7 5 "ab")
        ≡ 2 ∷ 0 ∷ 0 ∷ 0 ∷ 3 ∷ 0 ∷ 7 ∷ 0 ∷ 0 ∷ 0 ∷ 5 ∷ 0 ∷ 2 ∷ 97 ∷ 98 ∷ [] }
    ensures of_one_entry { listing_body (small 1 ∷ [])
        ≡ 130 ∷ 1 ∷ 1 ∷ 0 ∷ 0 ∷ 0 ∷ 1 ∷ 0 ∷ 7 ∷ 0 ∷ 0 ∷ 0 ∷ 1 ∷ 0 ∷ 1 ∷ 97 ∷ [] }
{}

/// The bytes of responses, each an opcode with the fields behind it.
pub fn bytes_of_responses()
    ensures of_an_acceptance { response_body (Accepted 5) ≡ 129 ∷ 0 ∷ 0 ∷ 0 ∷ 5 ∷ [] }
    ensures of_no_entries { response_body (Listing []) ≡ 130 ∷ 0 ∷ [] }
    ensures of_a_state { response_body (Status Ready 5 6)
        ≡ 131 ∷ 1 ∷ 0 ∷ 0 ∷ 0 ∷ 5 ∷ 0 ∷ 0 ∷ 0 ∷ 6 ∷ [] }
    ensures of_what_is_done { response_body Done ≡ 132 ∷ [] }
    ensures of_a_refusal { response_body (Refused 7 5) ≡ 238 ∷ 7 ∷ 0 ∷ 0 ∷ 0 ∷ 5 ∷ [] }
    ensures of_a_node_that_is_down { state_byte Down ≡ 0 }
    ensures of_a_node_that_is_ready { state_byte Ready ≡ 1 }
    ensures of_a_node_that_stores { state_byte Storing ≡ 2 }
    ensures a_frame { frame (8 ∷ 9 ∷ []) ≡ 0 ∷ 2 ∷ 8 ∷ 9 ∷ [] }
    ensures a_frame_of_a_response { encoding Done ≡ 0 ∷ 1 ∷ 132 ∷ [] }
{}

/// The values of a response fit their fields, and its entries fit a frame.
pub fn what_a_response_says()
    ensures one_entry { IsSaid (Listing (small 1 ∷ [])) }
    ensures nine_entries { IsSaid (Listing (replicate 9 (small 1))) → ⊥ }
    ensures an_entry_of_no_sender { IsSaid (Listing ((name 0 1, message 7 1 "a") ∷ [])) → ⊥ }
    ensures more_than_a_frame { (m : Content) → length m.payload ≡ MAX_PAYLOAD
        → IsSaid (Listing (replicate 4 (holding_message m))) → ⊥ }
    ensures a_state { IsSaid (Status Ready 5 6) }
    ensures own_messages_of_five_bytes { IsSaid (Status Ready 4294967296 6) → ⊥ }
    ensures entries_of_five_bytes { IsSaid (Status Ready 5 4294967296) → ⊥ }
    ensures a_refusal_of_two_bytes { IsSaid (Refused 256 5) → ⊥ }
    ensures a_detail_of_five_bytes { IsSaid (Refused 7 4294967296) → ⊥ }
    ensures no_bytes { IsListing [] → ⊥ }
    ensures a_state_as_entries { IsListing (131 ∷ []) → ⊥ }
{}

/// No bytes have no response. Nor have numbers that are no bytes.
pub fn where_no_response_is()
    ensures in_no_bytes { HasNoResponse [] }
    ensures in_a_number_that_is_no_byte { HasNoResponse
        (0 ∷ 6 ∷ 238 ∷ 256 ∷ 0 ∷ 0 ∷ 0 ∷ 0 ∷ []) }
{}
