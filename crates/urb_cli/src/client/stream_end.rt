//! The status of `publish` and `follow`, and what is reported of their faults.

ghost use Rattle.std.specs.Prelude.{◌≡◌, ◌⊎◌};
ghost use Rattle.urb_cli.specs.Statuses.{IsClientsEnd};
ghost use Rattle.urb_cli.specs.Streams.{status_of_stream};

use crate::client::call_fault::report_call_fault;
use crate::client::print::REFUSED;
use crate::client::stream_fault::{StreamEnd, StreamFault};
use urb_options::{NodeAddress, report_fault};

/// Reports the fault of a command that calls the node at this address, if any, and returns the
/// program's status. It is 0 if all was done, 4 after a refusal, and 1 after a fault.
pub fn report_stream_end<R: Eprint>(
    rt: &R,
    at: NodeAddress<'_>,
    outcome: Result<StreamEnd, StreamFault>,
) -> u8
    ensures status { result ≡ status_of_stream outcome }
    ensures end { IsClientsEnd result }
{
    match outcome {
        Ok(StreamEnd::Done) => 0,
        Ok(StreamEnd::Refused) => REFUSED,
        Err(StreamFault::Call(fault)) => report_call_fault(rt, at, fault),
        Err(fault) => report_fault(rt, fault.fault()),
    }
}
