//! The text of a node's address.

ghost use Rattle.std.specs.Prelude.{◌≡◌, ◌++◌, OnOk};
ghost use Rattle.urb_cli.specs.AskedAddresses.{address_text};
ghost use Rattle.urb_options.specs.Addresses.{address_of};

use crate::client::refused_write::refused_write;
use std::io::Write;
use urb_names::NoMemory;
use urb_options::NodeAddress;

/// Writes the number of a port, or the path of a socket.
pub(crate) fn push_address(text: &mut Vec<u8>, at: NodeAddress<'_>) -> Result<(), NoMemory>
    ensures { OnOk result
        (text.new.items ≡ text.old.items ++ address_text (address_of at.entry)) }
{
    match at {
        NodeAddress::Port(port) => write!(text, "{port}").map_err(refused_write)?,
        NodeAddress::Socket(path) => text.extend_from_slice(path.as_bytes())?,
    }
    Ok(())
}
