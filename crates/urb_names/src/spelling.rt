//! Packets as bytes: decoding and encoding.
ghost use Rattle.std.specs.Prelude.{◌≡◌, ◌≤◌, ◌⊎◌, length, Ok, Err, Some, None, IfNone, IfOk};
ghost use Rattle.std.specs.Prelude.{IfErr, OnOk, MatchResult, if◌then◌else◌, [], ◌∷◌, ◌++◌};
ghost use Rattle.byteorder.specs.Endian.{big_bytes};
ghost use Rattle.urb_names.specs.CarriedPackets.{Carried};
ghost use Rattle.urb_names.specs.PacketGrammar.{IsPacket, IsFirstFault, are_flags, begins_with_flags};
ghost use Rattle.urb_names.specs.PacketGrammar.{carried_of, fields_at, fields_with, flags_of};
ghost use Rattle.urb_names.specs.PacketGrammar.{header_length, is_in_range, judged, longest_payload};
ghost use Rattle.urb_names.specs.PacketGrammar.{packet_of, spelling, version_of};

use crate::{
    ClientId, Flags, MAX_PAYLOAD, MAX_PLAIN_PAYLOAD, Name, NoMemory, NodeId, Packet, PacketFault,
    PacketView, Refusal,
};
use byteorder::{BigEndian, ByteOrder};
use std::alloc::Allocator;
use std::marker::Model;

// The first two bytes of every packet, and the third byte of packets with and without a byte of
// flags.
const MAGIC: u16 = 0x5542;

const WITHOUT_FLAGS: u8 = 1;

const WITH_FLAGS: u8 = 2;

// The number of header bytes before the flags, and of header bytes after them.
const FRONT: usize = 5;

const BACK: usize = 13;

/// The greatest length of a packet, in bytes: a header with flags, and a payload.
pub const MAX_PACKET: usize = FRONT + 1 + BACK + MAX_PAYLOAD;

// A datagram of UDP over IPv4 has at most 65,507 bytes, and a packet says the length of its payload
// in two.
const _: () = prove!(MAX_PACKET <= 65_507);

const _: () = prove!(MAX_PLAIN_PAYLOAD <= MAX_PAYLOAD);

// The values in the fields of bytes that may be a packet.
#[derive(Drop)]
struct Fields<'a> {
    magic: u16,
    version: u8,
    source: u8,
    target: u8,
    flags: Option<u8>,
    sender: u8,
    seq: u32,
    client: u16,
    number: u32,
    size: u16,
    payload: &'a [u8],
}

impl<'a> Model for Fields<'a> {
    ghost use Rattle.urb_names.specs.PacketGrammar.{Fields as Values};

    ghost Value = { Values };

    ghost view = { λ a. record {
      magic = a.magic;
      version = a.version;
      source = a.source;
      target = a.target;
      flags = a.flags;
      sender = a.sender;
      seq = a.seq;
      client = a.client;
      number = a.number;
      size = a.size;
      payload = a.payload.now;
    } };
}

// Whether bytes begin in such a way that a byte of flags must follow the target.
fn begins_with_flags(bytes: &[u8]) -> bool
    ensures { result ≡ begins_with_flags bytes.now }
{
    bytes.len() > 2 && BigEndian::read_u16(bytes) == MAGIC && bytes[2] == WITH_FLAGS
}

// The length in bytes of a header that begins like this.
fn header_length(bytes: &[u8]) -> usize
    ensures { result ≡ header_length bytes.now }
{
    if begins_with_flags(bytes) {
        FRONT + 1 + BACK
    } else {
        FRONT + BACK
    }
}

// The fields of bytes with these flags, if `rest` begins after them.
fn fields_with<'a>(flags: Option<u8>, bytes: &[u8], rest: &'a [u8]) -> Fields<'a>
    requires front { FRONT ≤ length bytes.now }
    requires back { BACK ≤ length rest.now }
    ensures { result ≡ fields_with flags bytes.now rest.now }
{
    Fields {
        magic: BigEndian::read_u16(bytes),
        version: bytes[2],
        source: bytes[3],
        target: bytes[4],
        flags,
        sender: rest[0],
        seq: BigEndian::read_u32(&rest[1..]),
        client: BigEndian::read_u16(&rest[5..]),
        number: BigEndian::read_u32(&rest[7..]),
        size: BigEndian::read_u16(&rest[11..]),
        payload: &rest[BACK..],
    }
}

// The fields of bytes that are at least as long as their header.
fn fields_at(bytes: &[u8]) -> Fields<'_>
    requires { header_length bytes.now ≤ length bytes.now }
    ensures { result ≡ fields_at bytes.now }
{
    if begins_with_flags(bytes) {
        fields_with(Some(bytes[FRONT]), bytes, &bytes[FRONT + 1..])
    } else {
        fields_with(None, bytes, &bytes[FRONT..])
    }
}

// The flags that the byte encodes, if there is one. The outer option is `None` if the byte is over
// three.
fn flags_in(byte: Option<u8>) -> Option<Option<Flags>>
    ensures { result ≡ (if are_flags byte then Some (flags_of byte) else None) }
{
    match byte {
        Some(byte) => Some(Some(Flags::of_number(byte)?)),
        None => Some(None),
    }
}

// The packet that the fields describe, if each field is in range.
fn packet_in_range<'a>(fields: &Fields<'a>) -> Option<PacketView<'a>>
    requires payload { length fields.now.payload ≤ MAX_PAYLOAD }
    requires version { IfNone fields.now.flags (length fields.now.payload ≤ MAX_PLAIN_PAYLOAD) }
    ensures { result ≡ (if is_in_range fields.now then Some (carried_of fields.now) else None) }
{
    let source = NodeId::new(fields.source)?;
    let target = NodeId::new(fields.target)?;
    let sender = NodeId::new(fields.sender)?;
    let client = ClientId::new(fields.client)?;
    let flags = flags_in(fields.flags)?;
    if source == target || fields.seq == 0 || fields.number == 0 {
        return None;
    }
    let name = Name {
        sender,
        seq: fields.seq,
    };
    Some(PacketView {
        source,
        target,
        name,
        client,
        number: fields.number,
        payload: fields.payload,
        flags,
    })
}

// The greatest length of a payload after these flags.
fn longest_payload(flags: Option<u8>) -> usize
    ensures { result ≡ longest_payload flags }
{
    match flags {
        Some(_) => MAX_PAYLOAD,
        None => MAX_PLAIN_PAYLOAD,
    }
}

#[tactic(auto, unfolding(crate::specs::PacketGrammar::judged))]
// The packet that the fields describe, or their first fault.
fn judge_fields<'a>(fields: &Fields<'a>) -> Result<PacketView<'a>, PacketFault>
    ensures { result ≡ judged fields.now }
{
    if fields.magic != MAGIC {
        return Err(PacketFault::Magic);
    }
    if fields.version != WITHOUT_FLAGS && fields.version != WITH_FLAGS {
        return Err(PacketFault::Version);
    }
    let size = usize::from(fields.size);
    if size > longest_payload(fields.flags) || size != fields.payload.len() {
        return Err(PacketFault::Length);
    }
    packet_in_range(fields).ok_or(PacketFault::Range)
}

/// The packet that a datagram's bytes encode. Allocates no memory. An error is the first fault in
/// the order of the variants of `PacketFault`; the caller should drop the bytes.
pub fn parse(bytes: &[u8]) -> Result<PacketView<'_>, PacketFault>
    // What `parse` returns encodes to exactly these bytes, and every encoding is parsed.
    ensures found { IfOk result (λ p. IsPacket p × (bytes.now ≡ spelling p)) }
    ensures only { (p : Carried) → IsPacket p → bytes.now ≡ spelling p → result ≡ Ok p }

    // An error is the first fault of the bytes.
    ensures fault { IfErr result (λ e. IsFirstFault bytes.now e) }
    ensures exact { result ≡ packet_of bytes.now }
{
    if bytes.len() < header_length(bytes) {
        return Err(PacketFault::Short);
    }
    judge_fields(&fields_at(bytes))
}

/// The packet that bytes encode, in memory of its own. If the bytes are not a packet, the error is
/// `Packet` with their first fault. `NoMemory` comes only if they are a packet.
pub fn decode<A: Allocator + Copy>(alloc: A, bytes: &[u8]) -> Result<Packet<A>, Refusal>
    // What `decode` returns encodes to exactly these bytes. Every encoding is decoded, unless an
    // allocation is refused.
    ensures found { IfOk result (λ p. IsPacket p × (bytes.now ≡ spelling p)) }
    ensures only { (p : Carried)
        → IsPacket p
        → bytes.now ≡ spelling p
        → (result ≡ Ok p) ⊎ (result ≡ Err Refusal.NoMemory) }

    // A fault of the bytes takes precedence over a refused allocation.
    ensures refused { IfErr result (λ e. MatchResult (packet_of bytes.now)
        (λ p. e ≡ Refusal.NoMemory) (λ fault. e ≡ Refusal.Packet fault)) }
{
    Ok(parse(bytes)?.to_packet(alloc)?)
}

// The bytes of a packet before its flags.
fn front<A: Allocator>(packet: &Packet<A>) -> [u8; FRONT]
    ensures { result
        ≡ big_bytes 2 0x5542
        ++ version_of packet.now.flags ∷ packet.now.source ∷ packet.now.target ∷ [] }
{
    let mut bytes = [0; FRONT];
    BigEndian::write_u16(&mut bytes, MAGIC);
    bytes[2] = match packet.flags() {
        Some(_) => WITH_FLAGS,
        None => WITHOUT_FLAGS,
    };
    bytes[3] = packet.source().number();
    bytes[4] = packet.target().number();
    bytes
}

// The bytes after its flags and before its payload.
fn back(name: Name, client: u16, number: u32, size: u16) -> [u8; BACK]
    ensures { result
        ≡ name.sender ∷ big_bytes 4 name.seq
        ++ big_bytes 2 client
        ++ big_bytes 4 number
        ++ big_bytes 2 size }
{
    let mut bytes = [0; BACK];
    bytes[0] = name.sender.number();
    BigEndian::write_u32(&mut bytes[1..], name.seq);
    BigEndian::write_u16(&mut bytes[5..], client);
    BigEndian::write_u32(&mut bytes[7..], number);
    BigEndian::write_u16(&mut bytes[11..], size);
    bytes
}

/// The only encoding of a packet, for a datagram: at most `MAX_PACKET` bytes.
pub fn encode<A: Allocator>(alloc: A, packet: &Packet<A>) -> Result<Vec<u8, A>, NoMemory>
    ensures { IfOk result (λ v. v.items ≡ spelling packet.now) }
{
    let mut bytes = Vec::new(alloc);
    encode_into(packet, &mut bytes)?;
    Ok(bytes)
}

/// Puts the same encoding into `bytes`, and replaces what is there. It allocates only if `bytes`
/// has too little room, so a caller that sends many packets keeps one buffer for all. After
/// `NoMemory` the content of `bytes` is unspecified.
pub fn encode_into<A: Allocator, B: Allocator>(
    packet: &Packet<A>,
    bytes: &mut Vec<u8, B>,
) -> Result<(), NoMemory>
    ensures { OnOk result (bytes.new.items ≡ spelling packet.now) }
{
    let message = packet.message();
    let payload = message.payload();
    bytes.clear();
    bytes.reserve(FRONT + 1 + BACK + payload.len())?;
    bytes.extend_from_slice(&front(packet))?;
    if let Some(flags) = packet.flags() {
        bytes.push(flags.number())?;
    }
    let client = message.client().number();
    bytes.extend_from_slice(&back(
        packet.name(),
        client,
        message.number(),
        payload.len() as u16,
    ))?;
    bytes.extend_from_slice(payload)?;
    Ok(())
}
