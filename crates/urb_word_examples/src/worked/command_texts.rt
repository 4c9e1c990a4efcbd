//! What a client's commands print.
ghost use Rattle.std.specs.Fmt.{decimal};
ghost use Rattle.std.specs.Prelude.{[], ◌∷◌, ◌++◌, ◌≡◌, None, codes, false, true};
ghost use Rattle.urb_client.specs.declared.response.NodeState.TheVariants.{Down, Ready, Storing};
ghost use Rattle.urb_names.specs.Names.{name};
ghost use Rattle.urb_world.specs.internal.Scripts.{message};
ghost use Rattle.urb_options.specs.Addresses.{AtSocket};
ghost use Rattle.urb_options.specs.declared.entry_form_kind.EntryForm.TheVariants.{Hex, Json, Text};
ghost use Rattle.urb_cli.specs.Advice.{advice_of, detailed_advice, explained_refusal};
ghost use Rattle.urb_cli.specs.AskedAddresses.{address_text};
ghost use Rattle.urb_cli.specs.ClientOutput.{IsShown, entry_line, hex_byte, hex_digit, hex_payload};
ghost use Rattle.urb_cli.specs.ClientOutput.{state_word, status_line};
ghost use Rattle.urb_cli.specs.EntryForms.{escaped_byte, form_line, is_shown_as_text, json_head};
ghost use Rattle.urb_cli.specs.EntryForms.{json_line, json_payload, text_line, text_payload};

/// What a refusal means, and the line that says so.
pub fn advice_to_persons()
    ensures without_memory { advice_of 1 ≡ codes "the node had no memory: send the same again later" }
    ensures at_a_node_that_is_down { advice_of 3
        ≡ codes "the node is down: restart it, and send the same again" }
    ensures of_a_gap { detailed_advice 7 5 ≡ codes "the next number is " ++ decimal 5 }
    ensures a_line { explained_refusal 19 0 ≡ codes "refused " ++ (decimal 19 ++ (32 ∷ (decimal 0
        ++ (codes ": the node does not know this request" ++ 10 ∷ [])))) }
{}

/// How bytes are printed in hexadecimal digits.
pub fn hexadecimal_digits()
    ensures the_last_decimal_digit { hex_digit 9 ≡ 57 }
    ensures the_first_letter { hex_digit 10 ≡ 97 }
    ensures a_byte { hex_byte 26 ≡ codes "1a" }
    ensures no_bytes { hex_payload [] ≡ codes "-" }
    ensures two_bytes { hex_payload (26 ∷ 27 ∷ []) ≡ codes "1a1b" }
{}

/// The lines of entries and of states.
pub fn lines_of_entries()
    ensures in_digits { entry_line (name 1 2, message 7 3 "a") ≡ decimal 1 ++ (46 ∷ (decimal 2
        ++ (32 ∷ (decimal 7 ++ (32 ∷ (decimal 3 ++ (32 ∷ 54 ∷ 49 ∷ 10 ∷ []))))))) }
    ensures in_json { json_line (name 1 2, message 7 3 "a") ≡ json_head (name 1 2, message 7 3 "a")
        ++ (json_payload (codes "a") ++ 125 ∷ 10 ∷ []) }
    ensures the_front_in_json { json_head (name 1 2, message 7 3 "a") ≡ 123 ∷ 34 ∷ (codes "name"
        ++ (34 ∷ 58 ∷ 34 ∷ (decimal 1 ++ (46 ∷ (decimal 2 ++ (34 ∷ 44 ∷ 34 ∷ (codes "client"
        ++ (34 ∷ 58 ∷ (decimal 7 ++ (44 ∷ 34 ∷ (codes "number" ++ (34 ∷ 58 ∷ (decimal 3
        ++ 44 ∷ []))))))))))))) }
    ensures by_the_form_of_text { form_line Text (name 1 2, message 7 3 "a")
        ≡ text_line (name 1 2, message 7 3 "a") }
    ensures by_the_form_of_digits { form_line Hex (name 1 2, message 7 3 "a")
        ≡ entry_line (name 1 2, message 7 3 "a") }
    ensures by_the_form_of_json { form_line Json (name 1 2, message 7 3 "a")
        ≡ json_line (name 1 2, message 7 3 "a") }
    ensures nothing_shown { IsShown (λ said. None) ([], 0) → ⊥ }
{}

/// Which payloads are printed as text, and how they are printed then.
pub fn payloads_as_text()
    ensures a_letter { is_shown_as_text (codes "a") ≡ true }
    ensures a_line_feed { is_shown_as_text (10 ∷ []) ≡ false }
    ensures bytes_that_are_no_text { is_shown_as_text (255 ∷ []) ≡ false }
    ensures after_a_word { text_payload (codes "a") ≡ codes "text a" }
    ensures digits_after_a_word { text_payload (10 ∷ []) ≡ codes "hex 0a" }
    ensures in_a_line { text_line (name 1 2, message 7 3 "a") ≡ decimal 1 ++ (46 ∷ (decimal 2
        ++ (32 ∷ (decimal 7 ++ (32 ∷ (decimal 3 ++ (32 ∷ (codes "text a" ++ 10 ∷ [])))))))) }
    ensures a_quotation_mark { escaped_byte 34 ≡ 92 ∷ 34 ∷ [] }
    ensures another_byte { escaped_byte 97 ≡ 97 ∷ [] }
    ensures a_member { json_payload (codes "a") ≡ 34 ∷ (codes "text" ++ 34 ∷ 58 ∷ 34 ∷ 97 ∷ 34 ∷ []) }
    ensures a_member_of_digits { json_payload (10 ∷ []) ≡ 34 ∷ (codes "hex"
        ++ 34 ∷ 58 ∷ 34 ∷ 48 ∷ 97 ∷ 34 ∷ []) }
{}

/// The line of a node's state.
pub fn lines_of_states()
    ensures down { state_word Down ≡ codes "down" }
    ensures ready { state_word Ready ≡ codes "ready" }
    ensures storing { state_word Storing ≡ codes "storing" }
    ensures at_a_socket { address_text (AtSocket (codes "a/b")) ≡ codes "a/b" }
    ensures of_a_node { status_line (AtSocket (codes "s")) Ready 5 6
        ≡ codes "s ready accepted " ++ (decimal 5 ++ (codes " shown " ++ (decimal 6 ++ 10 ∷ []))) }
{}
