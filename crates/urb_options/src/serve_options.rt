//! The settings of `urbd serve`.

ghost use Rattle.std.specs.Prelude.{◌≡◌, IsSome, IfSome};
ghost use Rattle.urb_options.specs.OptionRanges.{AreInRange};

use crate::door_options::DoorOptions;
use crate::limits::{MAX_BASE_PORT, MAX_TICK_MILLIS, MIN_BASE_PORT};
use crate::service_options::ServiceOptions;
use urb_names::{Config, MAX_CAP, MAX_NODES};

/// The settings of a group to run. They are its number of nodes, how many messages each may
/// broadcast, its folder, its ports, and how often nodes resend.
#[derive(Clone, Copy, Debug)]
pub struct ServeOptions<'a> {
    /// The number of nodes, 1 to `MAX_NODES`.
    pub nodes: u8,
    /// The number of messages that each node may broadcast, 1 to `MAX_CAP`.
    pub cap: u32,
    /// The folder of the journals.
    pub dir: &'a str,
    /// Node P has the UDP port base + P, and the TCP port that is `CLIENT_PORT_OFFSET` above it.
    /// The base is `MIN_BASE_PORT` to `MAX_BASE_PORT`.
    pub base: u16,
    /// Milliseconds from one tick to the next, 1 to `MAX_TICK_MILLIS`.
    pub every: u32,
    /// How the nodes serve their clients.
    pub service: ServiceOptions,
    /// Where the nodes take their clients.
    pub doors: DoorOptions<'a>,
    ghost within: { AreInRange nodes cap base every },
}

impl<'a> ServeOptions<'a> {
    /// A group with these settings, whose nodes serve their clients in the standard way, over TCP
    /// alone. `None` exactly if one of the settings is outside its range.
    pub fn new(nodes: u8, cap: u32, dir: &'a str, base: u16, every: u32) -> Option<ServeOptions<'a>>
        ensures some { AreInRange nodes cap base every → IsSome result }
        ensures fields { IfSome result (λ s. (s.nodes ≡ nodes)
            × (s.cap ≡ cap)
            × (s.dir ≡ dir.entry)
            × (s.base ≡ base)
            × (s.every ≡ every)) }
    {
        if nodes == 0 || MAX_NODES < nodes || cap == 0 || MAX_CAP < cap {
            return None;
        }
        if base < MIN_BASE_PORT || MAX_BASE_PORT < base || every == 0 || MAX_TICK_MILLIS < every {
            return None;
        }
        Some(ServeOptions {
            nodes,
            cap,
            dir,
            base,
            every,
            service: ServiceOptions::standard(),
            doors: DoorOptions::tcp_alone(),
        })
    }

    /// The same group, whose nodes serve their clients so.
    pub fn with_service(self, service: ServiceOptions) -> ServeOptions<'a>
        ensures others { (result.nodes ≡ self.entry.nodes)
            × (result.cap ≡ self.entry.cap)
            × (result.dir ≡ self.entry.dir)
            × (result.base ≡ self.entry.base)
            × (result.every ≡ self.entry.every) }
        ensures service { (result.service ≡ service) × (result.doors ≡ self.entry.doors) }
    {
        ServeOptions {
            nodes: self.nodes,
            cap: self.cap,
            dir: self.dir,
            base: self.base,
            every: self.every,
            service,
            doors: self.doors,
        }
    }

    /// The same group, whose nodes take their clients at these doors.
    pub fn with_doors(self, doors: DoorOptions<'a>) -> ServeOptions<'a>
        ensures others { (result.nodes ≡ self.entry.nodes)
            × (result.cap ≡ self.entry.cap)
            × (result.dir ≡ self.entry.dir)
            × (result.base ≡ self.entry.base)
            × (result.every ≡ self.entry.every)
            × (result.service ≡ self.entry.service) }
        ensures doors { result.doors ≡ doors.entry }
    {
        ServeOptions {
            nodes: self.nodes,
            cap: self.cap,
            dir: self.dir,
            base: self.base,
            every: self.every,
            service: self.service,
            doors,
        }
    }

    /// The limits of the group.
    pub fn config(&self) -> Config
        ensures { (result.n ≡ self.now.nodes) × (result.cap ≡ self.now.cap) }
    {
        Config::new(self.nodes, self.cap).unwrap()
    }
}
