//! An asker asks nodes, each call over a connection of its own.

ghost use Rattle.std.specs.Prelude.{Option};
ghost use Rattle.urb_client.specs.Requests.{Asked, IsAsked, IsShort, asked_by};
ghost use Rattle.urb_client.specs.Responses.{Said};
ghost use Rattle.urb_options.specs.Addresses.{Address, address_of};
ghost use Rattle.urb_cli.specs.Calls.{answer_of};

use crate::client::call_fault::CallFault;
use urb_client::{Request, Response};
use urb_options::NodeAddress;

/// Asks nodes of this machine.
pub trait Asker {
    /// In the first state, the node at this address may give this answer to this request, or none.
    /// Then the asker is in the second state.
    ghost answers: { Self → Address → Asked → Option Said → Self → Type 0 };

    /// Sends a request to the node at this address, once, and reads its response. After a fault the
    /// node may have done what was asked.
    fn ask(&mut self, at: NodeAddress<'_>, request: &Request) -> Result<Response, CallFault>
        requires values { IsAsked (asked_by request.now) }
        requires short { IsShort (asked_by request.now) }
        ensures { answers self.old (address_of at.entry) (asked_by request.now)
            (answer_of result) self.new };
}
