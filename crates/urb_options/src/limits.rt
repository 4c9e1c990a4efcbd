//! The limits of the settings of a group, and the ports that follow from its base port.

use urb_names::MAX_NODES;

/// The least base port. A process needs special rights for ports below 1,024.
pub const MIN_BASE_PORT: u16 = 1_024;

/// The greatest base port. All ports of a group must be below 65,536.
pub const MAX_BASE_PORT: u16 = 65_000;

/// Node P has the UDP port `base + P`, and the TCP port that is `CLIENT_PORT_OFFSET` above it.
pub const CLIENT_PORT_OFFSET: u16 = 10;

const _: () = prove!(MAX_BASE_PORT as u32 + MAX_NODES as u32 + CLIENT_PORT_OFFSET as u32 <= 65_535);

/// The greatest time from one tick to the next, in milliseconds: a minute.
pub const MAX_TICK_MILLIS: u32 = 60_000;

/// The fewest connections that `serve --connections` allows for a node at a time.
pub const MIN_CONNECTIONS: u16 = 4;

/// The most connections that `serve --connections` allows for a node at a time. A node serves as
/// many if the option is left out.
pub const MAX_CONNECTIONS: u16 = 1_000;

/// The greatest time without a byte after which a connection is closed, in minutes: a day.
pub const MAX_IDLE_MINUTES: u16 = 1_440;

/// The time without a byte after which a connection is closed if nothing else is said, in minutes.
pub const STANDARD_IDLE_MINUTES: u16 = 10;

/// The greatest mode of a socket's file: everybody may read, write and run it.
pub const MAX_SOCKET_MODE: u16 = 0o777;

/// The mode of a socket's file if nothing else is said: its owner and its group may connect.
pub const STANDARD_SOCKET_MODE: u16 = 0o660;
