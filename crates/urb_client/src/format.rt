//! The numbers of the format: lengths, opcodes, and the codes of faults.

use urb_names::MAX_PAYLOAD;

/// The greatest length that a request's frame may have: that of the longest submit, and `SPARE`.
pub const LONGEST_REQUEST: usize = 1 + SUBMIT_HEAD + MAX_PAYLOAD + SPARE;

// If a submit's payload is over the limit by at most `SPARE` bytes, it gets the refusal `TooLong`.
// If it is longer, its frame is no request, and the connection ends.
const SPARE: usize = 209;

/// The greatest length that a frame can have: its two length bytes can't say more.
pub const LONGEST_FRAME: usize = 65_535;

/// The greatest number of entries that one read asks for and one response has.
pub const MOST_ENTRIES: usize = 8;

/// The number of bytes of a submit between its opcode and its payload: a client and a number.
pub const SUBMIT_HEAD: usize = 6;

/// The number of bytes of a read after its opcode: a place, and the greatest number of entries.
pub const READ_FIELDS: usize = 5;

/// The number of bytes before the first of some entries: the opcode, and their count.
pub const LISTING_HEAD: usize = 2;

/// The number of bytes of an entry before its payload.
pub const ENTRY_HEAD: usize = 13;

// A frame has room for one entry, whatever its payload.
const _: () = prove!(LISTING_HEAD + ENTRY_HEAD + MAX_PAYLOAD <= LONGEST_FRAME);

// A frame has room for the longest request.
const _: () = prove!(LONGEST_REQUEST <= LONGEST_FRAME);

/// The opcode of a submit.
pub const ASK_SUBMIT: u8 = 1;

/// The opcode of a read.
pub const ASK_READ: u8 = 2;

/// The opcode of a question for the node's state.
pub const ASK_STATUS: u8 = 3;

/// The opcode of a crash.
pub const ASK_CRASH: u8 = 4;

/// The opcode of a restart.
pub const ASK_RESTART: u8 = 5;

/// The opcode of a wait: a read that waits for an entry.
pub const ASK_WAIT: u8 = 6;

/// The number of bytes of a wait after its opcode: a place, a greatest count, milliseconds.
pub const WAIT_FIELDS: usize = 7;

/// The opcode of an acceptance.
pub const SAY_ACCEPTED: u8 = 0x81;

/// The opcode of entries.
pub const SAY_ENTRIES: u8 = 0x82;

/// The opcode of a node's state.
pub const SAY_STATUS: u8 = 0x83;

/// The opcode of a response that says only that the request is done.
pub const SAY_DONE: u8 = 0x84;

/// The opcode of a refusal.
pub const SAY_REFUSED: u8 = 0xee;

/// The code of a length of 0, or over that of the longest request.
pub const BAD_LENGTH: u8 = 1;

/// The code of an opcode that no request has.
pub const UNKNOWN_OPCODE: u8 = 2;

/// The code of a length that the opcode doesn't have.
pub const WRONG_LENGTH: u8 = 3;

/// The code of a value outside its range.
pub const BAD_VALUE: u8 = 4;

/// The code of an input that ends inside a frame.
pub const CUT: u8 = 5;
