//! A node's ringer, with the witness that its thread was started.

ghost use Rattle.std.specs.Prelude.{◌≡◌, IfSome};

use std::sync::Wait;
use std::thread::Scope;
use std::time::Clock;
use urb_link::{Station, Stop, pass_rings};

/// The witness that a thread passes on the rings of a station's bell. Only `start_ringer` makes one,
/// since one of its fields is private.
#[derive(Drop)]
pub(crate) struct Ringing<'a> {
    pub(crate) station: &'a Station,
    started: (),
}

/// Starts the thread that passes on the rings of a station's bell. `None` if no thread could be made.
pub(crate) fn start_ringer<'s, E, R: Wait + Clock + Sync>(
    scope: &'s Scope<'s, E>,
    rt: &'s R,
    stop: &'s Stop,
    station: &'s Station,
) -> Option<Ringing<'s>>
    ensures { IfSome result (λ it. it.station.now ≡ station.now) }
{
    let work = move || pass_rings(rt, stop, &station.bell);
    if scope.spawn(work).is_err() {
        return None;
    }
    Some(Ringing {
        station,
        started: (),
    })
}
