//! What packets and their fields have to be.
//!
//! Each of the rows that end in ⊥ breaks one rule alone.
ghost use Rattle.std.specs.Prelude.{[], ◌∷◌, ◌≡◌, None, Some};
ghost use Rattle.urb_names.specs.CarriedPackets.{IsFrom};
ghost use Rattle.urb_names.specs.Names.{name};
ghost use Rattle.urb_names.specs.PacketGrammar.{IsFields, IsPacket};
ghost use Rattle.urb_format_examples.specs.internal.PacketExamples.{long, message, plain};
ghost use Rattle.urb_format_examples.specs.internal.PacketExamples.{plain_fields, telling};
ghost use Rattle.urb_format_examples.specs.internal.PacketExamples.{telling_fields};

/// A packet joins two different nodes, and its name and message are within their limits.
pub fn what_a_packet_is()
    ensures of_version_two { IsPacket telling }
    ensures of_version_one { IsPacket plain }
    ensures with_a_long_payload { IsPacket (record telling { message = long 1025 }) }
    ensures from_no_node { IsPacket (record telling { source = 0 }) → ⊥ }
    ensures to_node_eight { IsPacket (record telling { target = 8 }) → ⊥ }
    ensures to_its_source { IsPacket (record telling { target = 1 }) → ⊥ }
    ensures of_a_name_without_a_number { IsPacket (record telling { name = name 3 0 }) → ⊥ }
    ensures of_no_client { IsPacket (record telling { message = message 0 5 "ab" }) → ⊥ }
    ensures too_long_for_version_one { IsPacket (record plain { message = long 1025 }) → ⊥ }
{}

/// A packet comes from a node that holds its pair, and the certificate if it claims one.
pub fn where_a_packet_is_from()
    ensures from_a_node_that_holds_it { IsFrom 1 ((name 3 4, message 7 5 "ab") ∷ [])
        (name 3 4 ∷ []) telling }
    ensures without_a_claim { IsFrom 1 ((name 3 4, message 7 5 "ab") ∷ []) [] plain }
    ensures from_another_node { IsFrom 2 ((name 3 4, message 7 5 "ab") ∷ [])
        (name 3 4 ∷ []) telling → ⊥ }
    ensures of_another_message { IsFrom 1 ((name 3 4, message 7 5 "b") ∷ [])
        (name 3 4 ∷ []) telling → ⊥ }
    ensures of_a_certificate_that_it_lacks { IsFrom 1 ((name 3 4, message 7 5 "ab") ∷ [])
        (name 3 3 ∷ []) telling → ⊥ }
{}

/// Each number of a header fits its field, and flags stand only in version two.
pub fn what_fields_hold()
    ensures of_version_two { IsFields telling_fields }
    ensures of_version_one { IsFields plain_fields }
    ensures a_magic_of_three_bytes { IsFields (record plain_fields { magic = 65536 }) → ⊥ }
    ensures a_version_of_two_bytes { IsFields (record plain_fields { version = 256 }) → ⊥ }
    ensures a_source_of_two_bytes { IsFields (record plain_fields { source = 256 }) → ⊥ }
    ensures a_target_of_two_bytes { IsFields (record plain_fields { target = 256 }) → ⊥ }
    ensures flags_in_version_one { IsFields (record plain_fields { flags = Some 1 }) → ⊥ }
    ensures version_two_without_flags { IsFields (record telling_fields { flags = None }) → ⊥ }
    ensures flags_of_two_bytes { IsFields (record telling_fields { flags = Some 256 }) → ⊥ }
    ensures a_sender_of_two_bytes { IsFields (record plain_fields { sender = 256 }) → ⊥ }
    ensures a_seq_of_five_bytes { IsFields (record plain_fields { seq = 4294967296 }) → ⊥ }
    ensures a_client_of_three_bytes { IsFields (record plain_fields { client = 65536 }) → ⊥ }
    ensures a_number_of_five_bytes { IsFields (record plain_fields { number = 4294967296 }) → ⊥ }
    ensures a_size_of_three_bytes { IsFields (record plain_fields { size = 65536 }) → ⊥ }
{}
