//! Errands: what the program does by itself, once; and the program's status after it.

ghost use Rattle.std.specs.Prelude.{◌≡◌};
ghost use Rattle.urb_cli.specs.Statuses.{IsErrandsEnd, status_of};

use crate::client::follow::run_follow;
use crate::client::publish::run_publish;
use crate::client::run::{run_read, run_submit};
use crate::client::status::run_status;
use crate::script::replay;
use std::net::{Net, TcpListener, TcpStream};
use std::time::Clock;
use urb_options::{Errand, Fault, report_fault};
use urb_script::{RunEnd, RunFault};

/// The status of a script with a bad line.
const BAD_LINE: u8 = 2;

/// Reports the fault that stopped the run of a script, if any, and returns the program's status. It
/// is 0 for a whole script, 2 for a script with a bad line, and 1 for a fault.
pub fn report_script_end<R: Eprint>(rt: &R, outcome: Result<RunEnd, RunFault>) -> u8
    ensures { result ≡ status_of outcome }
{
    match outcome {
        Ok(RunEnd::Whole) => 0,
        Ok(RunEnd::BadLine(_)) => BAD_LINE,
        Err(fault) => report_fault(rt, Fault::from(fault)),
    }
}

/// Does an errand, and returns the program's status. For a script it is that of
/// `report_script_end`. For a client's command it is 0, or 4 if a node refused it, or 1 after a
/// fault.
pub fn run_errand<R>(rt: &R, errand: Errand<'_>) -> u8
where
    R: AllocGlobal
        + Print
        + Eprint
        + Input
        + Clock
        + Net<Listener = TcpListener, Stream = TcpStream>,
    ensures { IsErrandsEnd errand.entry result }
{
    match errand {
        Errand::Replay => report_script_end(rt, replay(rt)),
        Errand::Submit(submitting) => run_submit(rt, submitting),
        Errand::Read(reading) => run_read(rt, reading),
        Errand::Status(asking) => run_status(rt, asking),
        Errand::Publish(publishing) => run_publish(rt, publishing),
        Errand::Follow(following) => run_follow(rt, following),
    }
}
