//! Worked examples of the packet grammar, and refused allocations.
ghost use Rattle.std.specs.Prelude.{◌≡◌, ◌≢◌, ◌≤◌, length, IfSome};
ghost use Rattle.urb_names.specs.PacketGrammar.{FitsVersion};

mod faults;
mod growth;

use std::alloc::Global;
use urb_names::*;

// The first test vector: node 1 sends its first message to node 2, `a`, number 1 of client 7.
const WITH_PAYLOAD: &[u8] =
    b"\x55\x42\x01\x01\x02\x01\x00\x00\x00\x01\x00\x07\x00\x00\x00\x01\x00\x01a";

// The second test vector: node 2 sends node 1's first message back; it has no payload.
const WITHOUT_PAYLOAD: &[u8] =
    b"\x55\x42\x01\x02\x01\x01\x00\x00\x00\x01\x00\x07\x00\x00\x00\x01\x00\x00";

// The third test vector: the first one in version two. Node 1 has stored a certificate of its name.
const WITH_FLAGS: &[u8] =
    b"\x55\x42\x02\x01\x02\x01\x01\x00\x00\x00\x01\x00\x07\x00\x00\x00\x01\x00\x01a";

fn node(number: u8) -> Option<NodeId>
    ensures { IfSome result (λ p. p ≡ number) }
{
    NodeId::new(number)
}

// A name, or `None` if there is no such sender or number.
fn name(sender: u8, seq: u32) -> Option<Name> {
    if seq == 0 {
        return None;
    }
    let sender = node(sender)?;
    Some(Name { sender, seq })
}

// A packet of node 1's first message, which client 7 gave number 1.
fn first(
    alloc: Global,
    source: u8,
    target: u8,
    payload: &[u8],
    flags: Option<Flags>,
) -> Option<Packet>
    requires apart { source ≢ target }
    requires payload { length payload.now ≤ MAX_PAYLOAD }
    requires version { FitsVersion flags payload.now }
{
    let (source, target) = (node(source)?, node(target)?);
    let (name, client) = (name(1, 1)?, ClientId::new(7)?);
    match Message::copy_of(alloc, client, 1, payload) {
        Ok(message) => Some(Packet::new(source, target, name, message, flags)),
        Err(_) => None,
    }
}

fn are_same(first: &Packet, second: &Packet) -> bool {
    first.source() == second.source()
        && first.target() == second.target()
        && first.name() == second.name()
        && first.message().is_same(second.message())
        && first.flags() == second.flags()
}

// Whether a packet encodes to these bytes.
fn is_spelled(alloc: Global, packet: &Packet, bytes: &[u8]) -> bool {
    match encode(alloc, packet) {
        Ok(spelled) => spelled.as_slice() == bytes,
        Err(_) => false,
    }
}

// Whether these bytes decode to this packet.
fn is_read(alloc: Global, packet: &Packet, bytes: &[u8]) -> bool {
    match decode(alloc, bytes) {
        Ok(read) => are_same(&read, packet),
        Err(_fault) => false,
    }
}

// Whether a view of these bytes, read without a copy, is this packet.
fn is_viewed(alloc: Global, packet: &Packet, bytes: &[u8]) -> bool {
    let Ok(view) = parse(bytes) else {
        return false;
    };
    match view.to_packet(alloc) {
        Ok(read) => are_same(&read, packet),
        Err(_) => false,
    }
}

// Whether a packet of node 1's first message, between these nodes, encodes to these bytes and
// decodes from them.
fn is_vector(
    alloc: Global,
    source: u8,
    target: u8,
    payload: &[u8],
    flags: Option<Flags>,
    bytes: &[u8],
) -> bool
    requires apart { source ≢ target }
    requires payload { length payload.now ≤ MAX_PAYLOAD }
    requires version { FitsVersion flags payload.now }
{
    let Some(packet) = first(alloc, source, target, payload, flags) else {
        return false;
    };
    let is_so = is_spelled(alloc, &packet, bytes)
        && is_read(alloc, &packet, bytes)
        && is_viewed(alloc, &packet, bytes);
    drop(packet);
    is_so
}

#[test]
fn packets_are_spelled_and_read_as_in_the_vectors(rt: HostRuntime) {
    let certified = Flags {
        certified: true,
        heard: false,
    };
    assert!(rt; is_vector(rt.alloc(), 1, 2, b"a", None, WITH_PAYLOAD));
    assert!(rt; is_vector(rt.alloc(), 2, 1, b"", None, WITHOUT_PAYLOAD));
    assert!(rt; is_vector(rt.alloc(), 1, 2, b"a", Some(certified), WITH_FLAGS));
}

// Whether a view of the first vector shows each of its parts.
fn shows_parts(view: &PacketView) -> bool {
    view.source().number() == 1
        && view.target().number() == 2
        && view.name().sender.number() == 1
        && view.name().seq == 1
        && view.client().number() == 7
        && view.number() == 1
        && view.payload() == b"a".as_slice()
        && view.flags().is_none()
}

// Whether a packet made of the same parts has the payload.
fn has_payload(alloc: Global) -> Option<bool> {
    let packet = first(alloc, 1, 2, b"a", None)?;
    Some(packet.message().payload() == b"a".as_slice())
}

#[test]
fn a_view_is_the_packet_without_a_copy(rt: HostRuntime) {
    let shows_parts = match parse(WITH_PAYLOAD) {
        Ok(view) => shows_parts(&view),
        Err(_fault) => false,
    };
    assert!(rt; shows_parts);
    assert_eq!(rt; has_payload(rt.alloc()), Some(true));
}

// Whether flags have this number in a packet's byte of flags.
fn are_numbered(alloc: Global, flags: Flags, byte: u8, bytes: &[u8]) -> bool {
    let read = match parse(bytes) {
        Ok(view) => view.flags(),
        Err(_fault) => None,
    };
    flags.number() == byte
        && Flags::of_number(byte) == Some(flags)
        && read == Some(flags)
        && is_vector(alloc, 1, 2, b"a", Some(flags), bytes)
}

#[test]
fn the_byte_of_flags_says_what_is_certified_and_what_was_heard(rt: HostRuntime) {
    let cases: [(&[u8], bool, bool); 4] = [
        (
            b"\x55\x42\x02\x01\x02\x00\x01\x00\x00\x00\x01\x00\x07\x00\x00\x00\x01\x00\x01a",
            false,
            false,
        ),
        (
            b"\x55\x42\x02\x01\x02\x01\x01\x00\x00\x00\x01\x00\x07\x00\x00\x00\x01\x00\x01a",
            true,
            false,
        ),
        (
            b"\x55\x42\x02\x01\x02\x02\x01\x00\x00\x00\x01\x00\x07\x00\x00\x00\x01\x00\x01a",
            false,
            true,
        ),
        (
            b"\x55\x42\x02\x01\x02\x03\x01\x00\x00\x00\x01\x00\x07\x00\x00\x00\x01\x00\x01a",
            true,
            true,
        ),
    ];
    let mut byte: u8 = 0;
    for (bytes, certified, heard) in cases {
        let flags = Flags { certified, heard };
        assert!(rt; are_numbered(rt.alloc(), flags, byte, bytes), "{byte}");
        byte = byte.saturating_add(1);
    }
}

#[test]
fn more_than_half_is_a_majority(rt: HostRuntime) {
    for (n, least) in [(1, 1), (2, 2), (3, 2), (4, 3), (5, 3), (6, 4), (7, 4)] {
        for count in 0..8 {
            assert_eq!(rt; is_majority(count, n), count >= least);
        }
    }
}

// Whether names are ordered by sender and then by number.
fn are_ordered() -> Option<bool> {
    let (early, later, late) = (name(1, 9)?, name(1, 10)?, name(2, 1)?);
    let by_sender = early < late && early.is_before(late) && !late.is_before(early);
    Some(by_sender && !early.is_before(early) && early.is_before(later))
}

#[test]
fn names_are_ordered_by_sender_and_then_by_number(rt: HostRuntime) {
    assert_eq!(rt; are_ordered(), Some(true));
}
