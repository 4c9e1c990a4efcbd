//! Opens a group from what its stores hold.

ghost use Rattle.std.specs.List.{All};
ghost use Rattle.std.specs.Prelude.{◌≡◌, IfOk, vec_len};
ghost use Rattle.urb_group.specs.StoreOpenings.{HasStopped};
ghost use Rattle.urb_group.specs.GroupViews.{GroupView};
ghost use Rattle.urb_group.specs.StoreContents.{AllHold, IsKnown, IsSecured, IsStocked, RestLeaves};
ghost use Rattle.urb_group.specs.StoreContents.{StopLeaves};
ghost use Rattle.urb_world.specs.World.{World};
ghost use Rattle.urb_folder.specs.GroupsAfterStop.{ContinuesTogether, beside_stores};
ghost use Rattle.urb_folder.specs.AskedStores.{OpensTogether};

use crate::images::retrieve_images;
use std::alloc::Global;
use std::thread::Threads;
use urb_group::{Config, Group, Stable};
use urb_names::Refusal;

/// Opens the group that the stores' records describe. The stores are in the order of their nodes,
/// are asked in parallel, and are returned in that order. Call it when the process starts. If the
/// stores hold what a stop of a group left, the new group goes on from there, as with
/// `Cluster::open` of `urb_group`. The cap may be another one than before, and there may be more
/// nodes. This is recovery (sections 2.2 and 3.7 of the textbook). A draft that was held is lost,
/// or stored.
///
/// `Device`, `BadRow`: the fault of the first store, in order, that failed. `Inconsistent`: what
/// the stores hold doesn't fit together, or not under these limits. `NoMemory`: call it again.
pub fn open_group<S: Stable<Alloc = Global> + Send + Drop, R: Threads + Sync>(
    rt: &R,
    alloc: Global,
    config: Config,
    stores: Vec<S>,
) -> (Vec<S>, Result<Group, Refusal>)
    requires { vec_len stores ≡ config.n }
    ensures opens { OpensTogether S.Stable config stores.items result.1 result.0.items }
    // After a stop, the group goes on from the world before the stop, also with another cap or with
    // more nodes. Every node is ready, and each log begins with the node's log from before. A
    // message that was stored before is accepted again under its name. If the group may start with
    // these limits, only memory or a device can make the opening fail.
    ensures goes_on { (old : GroupView) (w : World)
        → HasStopped S.Stable old w config stores.items
        → ContinuesTogether S.Stable old w config stores.items result.1 result.0.items }
    // A stop inside the call leaves what a stop before it would have left.
    ensures stop { (w : World)
        → AllHold S.Stable w stores.items
        → RestLeaves S.Stable w stores.items
        → StopLeaves S.Stable w stores.items result.0.items }
    ensures stocked { IfOk result.1
        (λ group. IsStocked S.Stable (beside_stores group result.0.items)) }
    // A failure may have shut some stores. If the group was opened, no store was shut by then.
    ensures secured { All (IsKnown S.Stable) stores.items
        → IfOk result.1 (λ group. IsSecured S.Stable (beside_stores group result.0.items)) }
    ensures size { IfOk result.1 (λ group. group.size ≡ config) }
    ensures count { vec_len result.0 ≡ vec_len stores }
{
    let (stores, images) = retrieve_images(rt, alloc, stores);
    match images {
        Ok(images) => (stores, Group::open(alloc, config, images)),
        Err(refusal) => (stores, Err(refusal)),
    }
}
