//! The timer: a tick at each node, again and again.

ghost use Rattle.std.specs.Prelude.{◌≡◌, IfSome, length};

use crate::{Stop, StopSeen, TickQueues};
use std::sync::Wait;
use std::thread;
use std::thread::Scope;
use std::time::{Clock, Duration};
use urb_show::HouseName;

// The longest sleep, in milliseconds. After it the timer checks the stop.
const STEP: u32 = 50;

// Sleeps `millis` milliseconds in short steps, or until the stop is set. Returns the witness of the
// stop if it is set then.
fn pause<'s, R: Clock>(rt: &R, stop: &'s Stop, millis: u32) -> Option<StopSeen<'s>> {
    let mut left = millis;
    while left > 0 && !stop.is_set() {
        let step = left.min(STEP);
        thread::sleep(rt, Duration::from_millis(u64::from(step)));
        left -= step;
    }
    stop.seen()
}

/// Sends each node's worker a tick every `millis` milliseconds, until the stop is set. It takes 0
/// as 1. A tick is lost if its worker's queue has no room for it. The timer checks the stop every 50
/// milliseconds.
pub fn timer<'s, K: HouseName, R: Wait + Clock>(
    rt: &R,
    stop: &'s Stop,
    millis: u32,
    queues: TickQueues<'_, K>,
) -> StopSeen<'s> {
    for _ in rt.forever() {
        if let Some(seen) = pause(rt, stop, millis.max(1)) {
            return seen;
        }
        let _ = queues.tick_all(rt);
    }
    unreachable!()
}

/// The witness that a timer was started for the workers of nodes 1 to `nodes`, which sends each a
/// tick every `millis` milliseconds. Only `start_timer` makes one.
#[derive(Clone, Copy)]
pub struct Ticking {
    nodes: usize,
    millis: u32,
}

/// Starts the timer of these queues' nodes on a thread of its own. `None` if no thread could be
/// made.
pub fn start_timer<'s, E, K: HouseName + Send + Sync, R: Wait + Clock + Sync>(
    scope: &'s Scope<'s, E>,
    rt: &'s R,
    stop: &'s Stop,
    millis: u32,
    queues: TickQueues<'s, K>,
) -> Option<Ticking>
    ensures nodes { IfSome result (λ it. it.nodes ≡ length queues.entry.queues.now) }
    ensures millis { IfSome result (λ it. it.millis ≡ millis) }
{
    let ticking = Ticking {
        nodes: queues.count(),
        millis,
    };
    if scope
        .spawn(move || timer(rt, stop, millis, queues))
        .is_err()
    {
        return None;
    }
    Some(ticking)
}
