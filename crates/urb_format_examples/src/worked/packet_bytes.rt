//! The bytes of packets, and what bytes say.
ghost use Rattle.std.specs.Prelude.{[], ◌∷◌, ◌≡◌, Err, None, Ok, Some, drop, false, take, true};
ghost use Rattle.urb_names.specs.PacketGrammar.{IsFirstFault, fields_at, flags_spelled, has_flags};
ghost use Rattle.urb_names.specs.PacketGrammar.{header_length, is_in_range, judged};
ghost use Rattle.urb_names.specs.PacketGrammar.{longest_payload, packet_of, spelled, spelling};
ghost use Rattle.urb_names.specs.PacketGrammar.{version_of};
ghost use Rattle.urb_names.specs.declared.limits.TheConstants.{MAX_PAYLOAD, MAX_PLAIN_PAYLOAD};
ghost use Rattle.urb_names.specs.declared.refusal.PacketFault.TheVariants as fault;
ghost use Rattle.urb_format_examples.specs.internal.PacketExamples.{bytes_from, plain, plain_bytes};
ghost use Rattle.urb_format_examples.specs.internal.PacketExamples.{plain_fields, telling};
ghost use Rattle.urb_format_examples.specs.internal.PacketExamples.{telling_bytes, telling_fields};

/// A packet's bytes: the header with each number's highest byte first, then the payload.
pub fn bytes_of_packets()
    ensures of_version_two { spelling telling ≡ telling_bytes }
    ensures of_version_one { spelling plain ≡ plain_bytes }
    ensures of_fields_with_flags { spelled telling_fields ≡ telling_bytes }
    ensures of_fields_without_flags { spelled plain_fields ≡ plain_bytes }
    ensures of_flags { flags_spelled (Some 3) ≡ 3 ∷ [] }
    ensures of_no_flags { flags_spelled None ≡ [] }
{}

/// A packet with flags is of version two, and only version two has a byte of flags.
pub fn versions_of_packets()
    ensures with_flags { version_of telling.flags ≡ 2 }
    ensures without_flags { version_of plain.flags ≡ 1 }
    ensures a_byte_of_flags { has_flags 21826 2 ≡ true }
    ensures no_byte_in_version_one { has_flags 21826 1 ≡ false }
    ensures no_byte_after_another_magic { has_flags 21827 2 ≡ false }
    ensures a_header_with_flags { header_length telling_bytes ≡ 19 }
    ensures a_header_without_flags { header_length plain_bytes ≡ 18 }
    ensures a_payload_with_flags { longest_payload (Some 0) ≡ MAX_PAYLOAD }
    ensures a_payload_without_flags { longest_payload None ≡ MAX_PLAIN_PAYLOAD }
{}

/// The fields that bytes encode, and whether they are in their ranges.
pub fn fields_in_bytes()
    ensures with_flags { fields_at telling_bytes ≡ telling_fields }
    ensures without_flags { fields_at plain_bytes ≡ plain_fields }
    ensures in_range { is_in_range telling_fields ≡ true }
    ensures to_its_source { is_in_range (record plain_fields { target = 1 }) ≡ false }
    ensures from_node_eight { is_in_range (record plain_fields { source = 8 }) ≡ false }
    ensures of_no_number { is_in_range (record plain_fields { number = 0 }) ≡ false }
    ensures of_flags_over_three { is_in_range (record telling_fields { flags = Some 4 }) ≡ false }
{}

/// What bytes say: a packet, or their first fault.
pub fn packets_in_bytes()
    ensures with_flags { packet_of telling_bytes ≡ Ok telling }
    ensures without_flags { packet_of plain_bytes ≡ Ok plain }
    ensures too_few { packet_of (take 18 telling_bytes) ≡ Err fault.Short }
    ensures another_magic { packet_of (0 ∷ drop 1 plain_bytes) ≡ Err fault.Magic }
    ensures another_version { judged (record plain_fields { version = 3 }) ≡ Err fault.Version }
    ensures another_length { judged (record plain_fields { size = 3 }) ≡ Err fault.Length }
    ensures of_no_sender { judged (record plain_fields { sender = 0 }) ≡ Err fault.Range }
    ensures fields_of_a_packet { judged telling_fields ≡ Ok telling }
{}

/// The first fault of bytes. A packet's own bytes have no fault.
pub fn first_faults()
    ensures of_no_bytes { IsFirstFault [] fault.Short }
    ensures of_a_whole_header { IsFirstFault plain_bytes fault.Short → ⊥ }
    ensures of_a_number_that_is_no_byte { IsFirstFault (bytes_from 257) fault.Range → ⊥ }
    ensures of_too_few_bytes_for_fields { IsFirstFault [] fault.Magic → ⊥ }
    ensures of_a_packet { IsFirstFault plain_bytes fault.Version → ⊥ }
{}
