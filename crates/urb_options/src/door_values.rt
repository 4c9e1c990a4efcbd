//! What the parser found on a command line about doors: at which one a client asks a node, and
//! which ones a group has.

ghost use Rattle.std.specs.Prelude.{◌≡◌, ◌≤◌, ◌<◌, Bool, IfSome, Some, None, option_map};
ghost use Rattle.clap.specs.Words.{first_of, found_of, rows_of};
ghost use Rattle.urb_options.specs.Addresses.{address_of};
ghost use Rattle.urb_options.specs.internal.Addresses.{IsAddress};
ghost use Rattle.urb_options.specs.Doors.{asked_address, asked_doors, doors_of, mode_in, mode_of};
ghost use Rattle.urb_options.specs.Doors.{octal_value};
ghost use Rattle.urb_options.specs.Tasks.{address_asked, doors_asked};
ghost use Rattle.urb_options.specs.declared.limits.TheConstants.{MAX_SOCKET_MODE};

use crate::door_options::{DoorOptions, SocketOptions};
use crate::limits::STANDARD_SOCKET_MODE;
use crate::node_address::NodeAddress;
use crate::values::{is_given, number, text};
use clap::ArgMatches;

/// The address of the node: its port, or the path of its socket. `None` if the options name
/// neither, or both.
pub(crate) fn choose_address<'a>(
    port: Option<u32>,
    path: Option<&'a str>,
) -> Option<NodeAddress<'a>>
    requires { IfSome port (λ n. (1 ≤ n) × (n ≤ 65535)) }
    ensures value { option_map address_of result
        ≡ asked_address port (option_map (λ s. s.now) path.entry) }
    ensures within { IfSome result IsAddress }
{
    match (port, path) {
        (Some(port), None) => Some(NodeAddress::Port(port as u16)),
        (None, Some(path)) => Some(NodeAddress::Socket(path)),
        _ => None,
    }
}

/// The address of the node that a client asks.
pub(crate) fn read_address<'a>(found: &ArgMatches<'a>) -> Option<NodeAddress<'a>>
    ensures value { option_map address_of result ≡ address_asked (rows_of (found_of found.now)) }
    ensures within { IfSome result IsAddress }
{
    choose_address(number(found, "port", 1, 65_535), text(found, "socket"))
}

// The value of an octal digit.
fn octal_value(digit: u8) -> Option<u16>
    ensures value { result ≡ octal_value digit }
    ensures range { IfSome result (λ n. n ≤ 7) }
{
    if digit < b'0' || b'7' < digit {
        return None;
    }
    Some(u16::from(digit - b'0'))
}

// The mode that three octal digits write.
fn mode_of(owner: u8, group: u8, others: u8) -> Option<u16>
    ensures value { result ≡ mode_of owner group others }
    ensures range { IfSome result (λ mode. mode ≤ MAX_SOCKET_MODE) }
{
    let (owner, group) = (octal_value(owner)?, octal_value(group)?);
    Some(64 * owner + 8 * group + octal_value(others)?)
}

// The mode that a text writes in octal: three digits, perhaps after a zero.
fn read_mode(text: &str) -> Option<u16>
    ensures value { result ≡ mode_in text.now }
    ensures range { IfSome result (λ mode. mode ≤ MAX_SOCKET_MODE) }
{
    match text.as_bytes() {
        [owner, group, others] => mode_of(*owner, *group, *others),
        [b'0', owner, group, others] => mode_of(*owner, *group, *others),
        _ => None,
    }
}

// The doors of a group. `None` if the options don't fit together: a mode, or no TCP, needs a folder
// of sockets.
fn choose_doors<'a>(
    without_tcp: bool,
    dir: Option<&'a str>,
    mode: Option<&str>,
) -> Option<DoorOptions<'a>>
    ensures { option_map doors_of result
        ≡ asked_doors without_tcp (option_map (λ s. s.now) dir.entry)
        (option_map (λ s. s.now) mode.entry) }
{
    match (dir, mode) {
        (None, None) if !without_tcp => Some(DoorOptions::tcp_alone()),
        (Some(dir), None) => {
            let sockets = SocketOptions {
                dir,
                mode: STANDARD_SOCKET_MODE,
            };
            Some(DoorOptions::with_sockets(!without_tcp, sockets))
        }
        (Some(dir), Some(mode)) => {
            let sockets = SocketOptions {
                dir,
                mode: read_mode(mode)?,
            };
            Some(DoorOptions::with_sockets(!without_tcp, sockets))
        }
        _ => None,
    }
}

/// The doors of the nodes of a group.
pub(crate) fn read_doors<'a>(found: &ArgMatches<'a>) -> Option<DoorOptions<'a>>
    ensures { option_map doors_of result ≡ doors_asked (rows_of (found_of found.now)) }
{
    let without_tcp = is_given(found, "no-tcp");
    choose_doors(
        without_tcp,
        text(found, "socket-dir"),
        text(found, "socket-mode"),
    )
}
