//! The room of a group of workers, which is reserved before the group begins to run.

ghost use Rattle.std.specs.Prelude.{◌≡◌, ◌≤◌, IfSome, vec_capacity, vec_len};
ghost use Rattle.urb_names.specs.Nodes.{nodes};
ghost use Rattle.urb_worker.specs.ServedStores.{numbers_from};

use crate::worker_threads::{Worker, WorkerInput};
use std::alloc::Global;
use urb_desk::SESSION_TICKETS;
use urb_link::{NodeJobs, NodeQueue, open_channels};
use urb_names::MAX_NODES;
use urb_show::HouseName;
use urb_stable::Stable;
use urb_turn::{HubName, Tally};

// The number of tickets that a worker's channel has room for.
const ROOM: usize = 64;

// At most half of the room is for sessions. The rest is for packets and ticks.
const _: () = prove!(2 * SESSION_TICKETS as usize <= ROOM);

/// What a group of `count` nodes needs besides its house. These are a channel for each worker, and
/// lists with room for the workers' inputs and for what they leave. All of this is allocated before
/// the house is opened.
#[derive(Drop)]
pub(crate) struct GroupRoom<K: HouseName, L: HubName, S: Stable<Alloc = Global>> {
    pub(crate) queues: Vec<NodeQueue<K>>,
    pub(crate) jobs: Vec<NodeJobs<K>>,
    pub(crate) inputs: Vec<WorkerInput<K, L, S>>,
    pub(crate) workers: Vec<Worker<K, L, S>>,
    pub(crate) stores: Vec<S>,
    pub(crate) tallies: Vec<Tally<K, L>>,
}

/// A channel for each of `count` workers, and their lists, all of them empty. `None` if memory was
/// refused, or if there are more workers than a group may have.
#[tactic(auto, using(crate::proofs::ServedStores::as_numbers))]
pub(crate) fn reserve_room<K: HouseName, L: HubName, S: Stable<Alloc = Global> + Drop>(
    alloc: Global,
    count: usize,
) -> Option<GroupRoom<K, L, S>>
    ensures queues { IfSome result
        (λ made. (vec_len made.queues ≡ count) × (made.queues.items ≡ nodes count)) }
    ensures jobs { IfSome result
        (λ made. (vec_len made.jobs ≡ count) × (made.jobs.items ≡ numbers_from 1 count)) }
    ensures inputs { IfSome result
        (λ made. (vec_len made.inputs ≡ 0) × (count ≤ vec_capacity made.inputs)) }
    ensures workers { IfSome result
        (λ made. (vec_len made.workers ≡ 0) × (count ≤ vec_capacity made.workers)) }
    ensures stores { IfSome result
        (λ made. (vec_len made.stores ≡ 0) × (count ≤ vec_capacity made.stores)) }
    ensures tallies { IfSome result
        (λ made. (vec_len made.tallies ≡ 0) × (count ≤ vec_capacity made.tallies)) }
{
    if usize::from(MAX_NODES) < count {
        return None;
    }
    let Ok((queues, jobs)) = open_channels(alloc, count, ROOM) else {
        return None;
    };
    let Ok(inputs) = Vec::with_capacity(alloc, count) else {
        return None;
    };
    let Ok(workers) = Vec::with_capacity(alloc, count) else {
        return None;
    };
    let Ok(stores) = Vec::with_capacity(alloc, count) else {
        return None;
    };
    let Ok(tallies) = Vec::with_capacity(alloc, count) else {
        return None;
    };
    Some(GroupRoom {
        queues,
        jobs,
        inputs,
        workers,
        stores,
        tallies,
    })
}
