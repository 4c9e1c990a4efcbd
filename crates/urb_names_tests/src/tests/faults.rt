//! Bytes that are not a packet, each with its first fault; the number and detail of each refusal.

use super::*;
use std::test::Fail;

// Whether these bytes are refused with this fault.
fn is_refused(alloc: Global, bytes: &[u8], fault: PacketFault) -> bool {
    let refusal = match decode(alloc, bytes) {
        Ok(_packet) => None,
        Err(refusal) => Some(refusal),
    };
    refusal == Some(Refusal::Packet(fault)) && parse(bytes).err() == Some(fault)
}

#[test]
fn bytes_are_refused_with_their_first_fault(rt: HostRuntime) {
    let cases: [(&[u8], PacketFault); 14] = [
        (
            b"\x55\x42\x01\x01\x02\x01\x00\x00\x00\x01\x00\x07\x00\x00\x00\x01\x00",
            PacketFault::Short,
        ),
        (
            b"\x55\x42\x02\x01\x02\x01\x01\x00\x00\x00\x01\x00\x07\x00\x00\x00\x01\x00",
            PacketFault::Short,
        ),
        (b"\x55\x43\x09", PacketFault::Short),
        (
            b"\x55\x43\x09\x01\x02\x01\x00\x00\x00\x01\x00\x07\x00\x00\x00\x01\x00\x01a",
            PacketFault::Magic,
        ),
        (
            b"\x55\x43\x01\x01\x02\x01\x00\x00\x00\x01\x00\x07\x00\x00\x00\x01\x00\x01a",
            PacketFault::Magic,
        ),
        (
            b"\x55\x43\x02\x01\x02\x01\x01\x00\x00\x00\x01\x00\x07\x00\x00\x00\x01\x00",
            PacketFault::Magic,
        ),
        (
            b"\x55\x42\x00\x01\x02\x01\x00\x00\x00\x01\x00\x07\x00\x00\x00\x01\x00\x01a",
            PacketFault::Version,
        ),
        (
            b"\x55\x42\x03\x01\x02\x01\x01\x00\x00\x00\x01\x00\x07\x00\x00\x00\x01\x00\x01a",
            PacketFault::Version,
        ),
        (
            b"\x55\x42\x09\x01\x02\x01\x00\x00\x00\x01\x00\x07\x00\x00\x00\x01\x00\x01a",
            PacketFault::Version,
        ),
        (
            b"\x55\x42\x09\x02\x02\x01\x00\x00\x00\x00\x00\x07\x00\x00\x00\x01\x00\x09a",
            PacketFault::Version,
        ),
        (
            b"\x55\x42\x01\x01\x02\x01\x00\x00\x00\x01\x00\x07\x00\x00\x00\x01\x00\x01aa",
            PacketFault::Length,
        ),
        (
            b"\x55\x42\x02\x01\x02\x04\x01\x00\x00\x00\x01\x00\x07\x00\x00\x00\x01\x00\x02a",
            PacketFault::Length,
        ),
        (
            b"\x55\x42\x01\x02\x02\x01\x00\x00\x00\x01\x00\x07\x00\x00\x00\x01\x00\x01a",
            PacketFault::Range,
        ),
        (
            b"\x55\x42\x02\x01\x02\x04\x01\x00\x00\x00\x01\x00\x07\x00\x00\x00\x01\x00\x01a",
            PacketFault::Range,
        ),
    ];
    for (bytes, fault) in cases {
        assert!(rt;
            is_refused(rt.alloc(), bytes, fault),
            "not {fault:?}: {bytes:?}"
        );
    }
}

// Appends parts to bytes, and returns whether there was memory.
fn is_joined(bytes: &mut Vec<u8>, parts: &[&[u8]]) -> bool {
    for part in parts {
        if bytes.extend_from_slice(part).is_err() {
            return false;
        }
    }
    true
}

// The fault of the joined parts, if any; the outer option is `None` if there was no memory.
fn fault_of(alloc: Global, parts: &[&[u8]]) -> Option<Option<PacketFault>> {
    let mut bytes = Vec::new(alloc);
    let is_joined = is_joined(&mut bytes, parts);
    let fault = parse(&bytes).err();
    drop(bytes);
    if is_joined { Some(fault) } else { None }
}

// Whether the first vector is out of range once these bytes replace those at this place.
fn is_out_of_range(alloc: Global, place: usize, bytes: &[u8]) -> bool {
    let length = WITH_PAYLOAD.len();
    if place > length || bytes.len() > length - place {
        return false;
    }
    let parts = [
        &WITH_PAYLOAD[..place],
        bytes,
        &WITH_PAYLOAD[place + bytes.len()..],
    ];
    fault_of(alloc, &parts) == Some(Some(PacketFault::Range))
}

#[test]
fn each_number_of_a_packet_has_its_range(rt: HostRuntime) {
    let cases: [(usize, &[u8]); 9] = [
        (3, b"\0"),
        (3, b"\x08"),
        (4, b"\0"),
        (4, b"\x08"),
        (5, b"\0"),
        (5, b"\x08"),
        (6, b"\0\0\0\0"),
        (10, b"\0\0"),
        (12, b"\0\0\0\0"),
    ];
    for (place, bytes) in cases {
        assert!(rt; is_out_of_range(rt.alloc(), place, bytes), "{place}");
    }
}

// Whether each proper prefix of a packet is refused: too short for its header, or of the wrong
// payload length.
fn is_refused_cut(packet: &[u8], header: usize) -> bool {
    for (end, _) in packet.iter().enumerate() {
        let fault = if end < header {
            PacketFault::Short
        } else {
            PacketFault::Length
        };
        if parse(&packet[..end]).err() != Some(fault) {
            return false;
        }
    }
    true
}

#[test]
fn a_packet_that_is_cut_or_has_more_is_refused(rt: HostRuntime) {
    for (packet, header) in [(WITH_PAYLOAD, 18), (WITH_FLAGS, 19)] {
        let fault = fault_of(rt.alloc(), &[packet, b"\0"]);
        assert!(rt; is_refused_cut(packet, header), "{packet:?}");
        assert_eq!(rt; fault, Some(Some(PacketFault::Length)), "{packet:?}");
    }
}

// Appends `count` letters, and returns whether there was memory.
fn is_lettered(bytes: &mut Vec<u8>, count: u16) -> bool {
    for _ in 0..count {
        if bytes.push(b'x').is_err() {
            return false;
        }
    }
    true
}

// The payload's length in a view of `front`, `size`, and `size` letters; `None` if there was no
// memory.
fn length_of(alloc: Global, front: &[u8], size: u16) -> Option<Result<usize, PacketFault>> {
    let mut bytes = Vec::new(alloc);
    let is_spelled = is_joined(&mut bytes, &[front, &size.to_be_bytes()])
        && is_lettered(&mut bytes, size);
    let length = match parse(&bytes) {
        Ok(view) => Ok(view.payload().len()),
        Err(fault) => Err(fault),
    };
    drop(bytes);
    if is_spelled { Some(length) } else { None }
}

// The beginning of the third vector, with no flag set.
const WITHOUT_FLAGS: &[u8] =
    b"\x55\x42\x02\x01\x02\x00\x01\x00\x00\x00\x01\x00\x07\x00\x00\x00\x01";

#[test]
fn the_greatest_length_of_a_payload_goes_by_the_version(rt: HostRuntime) {
    for (front, size, length) in [
        (&WITH_PAYLOAD[..16], 1024, Ok(1024)),
        (&WITH_PAYLOAD[..16], 1025, Err(PacketFault::Length)),
        (WITHOUT_FLAGS, 1025, Ok(1025)),
        (&WITH_FLAGS[..17], 16384, Ok(16384)),
        (&WITH_FLAGS[..17], 16385, Err(PacketFault::Length)),
    ] {
        assert_eq!(rt; length_of(rt.alloc(), front, size), Some(length));
    }
}

// Whether one byte more or one byte less at this place of the third vector is detected.
fn is_seen(alloc: Global, place: usize) -> bool {
    if place >= WITH_FLAGS.len() {
        return false;
    }
    let (more, less) = match place {
        0 | 1 => (PacketFault::Magic, Some(PacketFault::Magic)),
        // Without its third byte this happens to be a packet of version one: the source takes the
        // version's place.
        2 => (PacketFault::Version, None),
        _ => (PacketFault::Length, Some(PacketFault::Length)),
    };
    let (front, back) = (&WITH_FLAGS[..place], &WITH_FLAGS[place..]);
    fault_of(alloc, &[front, b"\0", back]) == Some(Some(more))
        && fault_of(alloc, &[front, &WITH_FLAGS[place + 1..]]) == Some(less)
}

#[test]
fn a_byte_more_or_less_at_any_place_is_seen(rt: HostRuntime) {
    for place in 0..WITH_FLAGS.len() {
        assert!(rt; is_seen(rt.alloc(), place), "{place}");
    }
}

#[test]
fn a_refusal_has_its_number_and_its_detail(rt: HostRuntime) -> Result<(), Fail> {
    let name = name(3, 4).ok_or("a name")?;
    let node = name.sender;
    let cases = [
        (Refusal::NoMemory, 1, 0),
        (Refusal::BadNode, 2, 0),
        (Refusal::Down, 3, 0),
        (Refusal::Busy, 4, 0),
        (Refusal::TooLong, 5, 0),
        (Refusal::Conflict, 6, 0),
        (Refusal::Gap(9), 7, 9),
        (Refusal::Full, 8, 0),
        (Refusal::Forged, 9, 0),
        (Refusal::Packet(PacketFault::Range), 10, 0),
        (Refusal::Stale, 11, 0),
        (Refusal::NotDown, 12, 0),
        (Refusal::BadImage, 13, 0),
        (
            Refusal::Inconsistent {
                rule: Rule::C,
                node,
                name,
            },
            14,
            0,
        ),
        (Refusal::Device, 15, 0),
        (Refusal::Place(4), 16, 4),
        (Refusal::BadRow(5), 17, 5),
        (Refusal::BadLine(6), 18, 0),
        (Refusal::Frame(2), 19, 2),
    ];
    for (refusal, number, detail) in cases {
        assert_eq!(rt; (refusal.number(), refusal.detail()), (number, detail));
    }
    Ok(())
}
