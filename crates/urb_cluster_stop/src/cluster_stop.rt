//! A stop of the machine at any moment under a cluster over journals, and the opening after it.

ghost use Rattle.std.specs.List.{All};
ghost use Rattle.std.specs.Prelude.{◌≡◌, List, length, IfOk};
ghost use Rattle.sqlite.specs.Files.{file_state};
ghost use Rattle.urb_group.specs.ClusterCalls.{Applies};
ghost use Rattle.urb_group.specs.Commands.{reply_of};
ghost use Rattle.urb_group.specs.StoreOpenings.{ContinuesFrom, HasStopped};
ghost use Rattle.urb_group.specs.GroupViews.{GroupView, IsSound, Shows};
ghost use Rattle.urb_group.specs.StoreContents.{IsGenuine, IsKnown, IsSecured, WouldLeave};
ghost use Rattle.urb_world.specs.World.{World};
ghost use Rattle.urb_cluster_stop.specs.ClusterStops.{GoesOnBehind, GoesOnFrom, IsContinuation};
ghost use Rattle.urb_cluster_stop.specs.internal.ReopenedStores.{AreReopened};

use sqlite::{FileStore, Options};
use sqlite_disk::Crash;
use std::alloc::Global;
use urb_group::{Cluster, Command, Reply};
use urb_names::{Config, Refusal};
use urb_sqlite::SqlStable;
use urb_stable::{Stable, StoreFault};

/// Opens each journal again after a stop of the machine, in order.
fn reopen_journals<D: Crash + Drop>(
    alloc: Global,
    journals: Vec<SqlStable<FileStore<D>>>,
    options: Options,
) -> Result<Vec<SqlStable<FileStore<D>>>, StoreFault>
    ensures { IfOk result
        (λ again. AreReopened journals.items again.items (λ j. file_state j.conn)) }
{
    let mut again = Vec::with_capacity(alloc, journals.len())?;
    for journal in journals {
        again.push_reserved(journal.stop_and_open(alloc, options)?);
    }
    Ok(again)
}

/// Opens a cluster over these stores, as `Cluster::open` does. If it is refused, the stores are
/// dropped.
pub(crate) fn open_cluster<S: Stable<Alloc = Global> + Drop>(
    alloc: Global,
    config: Config,
    stores: Vec<S>,
) -> Result<Cluster<S>, Refusal>
    requires counted { length stores.items ≡ config.n }
    ensures goes_on { IfOk result (λ new. (old : GroupView) (w : World)
        → HasStopped S.Stable old w config stores.items
        → All S.Stable.is_honest new.stores
        → ContinuesFrom S.Stable w stores.items new.group) }
    ensures sized { IfOk result (λ new. new.group.size ≡ config) }
    ensures alive { IfOk result (λ new. All (IsGenuine S.Stable) stores.items
        → All S.Stable.is_clean new.stores
        → All S.Stable.is_honest new.stores) }
    ensures secured { IfOk result
        (λ new. All (IsKnown S.Stable) stores.items → IsSecured S.Stable new) }
{
    match Cluster::open(alloc, config, stores) {
        Ok(cluster) => Ok(cluster),
        Err((stores, refusal)) => {
            drop(stores);
            Err(refusal)
        }
    }
}

/// Stops the machine at this moment. Then it opens the journals of all nodes again, and a cluster
/// over them.
///
/// `NoMemory`, `Device`: a journal could not be opened or read. `BadRow`, `Inconsistent`: what was
/// found is no journal, or the journals don't fit together. No clause says that a refusal has this
/// cause.
pub fn stop_and_open_all<D: Crash + Drop>(
    alloc: Global,
    config: Config,
    journals: Vec<SqlStable<FileStore<D>>>,
    options: Options,
) -> Result<Cluster<SqlStable<FileStore<D>>>, Refusal>
    requires counted { length journals.items ≡ config.n }
    ensures sized { IfOk result (λ new. new.group.size ≡ config) }
    // Suppose that for each journal a stop leaves what it may leave of its node, in a world that a
    // group showed. Then the new cluster goes on from that world, as far as the disks have returned
    // what was written.
    ensures goes_on { IfOk result (λ new. (old : GroupView) (w : World)
        → IsSound old
        → length old.nodes ≡ config.n
        → old.size ≡ config
        → Shows old w
        → WouldLeave ⟦<SqlStable<FileStore<D>> as Stable>⟧ w journals.items
        → All ⟦<SqlStable<FileStore<D>> as Stable>⟧.is_clean new.stores
        → IsContinuation ⟦<SqlStable<FileStore<D>> as Stable>⟧ w new.group) }
    ensures secured { IfOk result (λ new. (w : World)
        → WouldLeave ⟦<SqlStable<FileStore<D>> as Stable>⟧ w journals.items
        → IsSecured ⟦<SqlStable<FileStore<D>> as Stable>⟧ new) }
{
    match reopen_journals(alloc, journals, options) {
        Ok(again) => open_cluster(alloc, config, again),
        Err(fault) => Err(fault.refusal()),
    }
}

/// Between two commands, a stop leaves in the stores of a secured cluster what it may leave of its
/// nodes. This does nothing; it is for proofs only.
fn recall_rest<S: Stable<Alloc = Global>>(cluster: &Cluster<S>)
    ensures counted { length cluster.now.group.nodes ≡ cluster.now.group.size.n }
    ensures sound { IsSound cluster.now.group }
    ensures leaves { (stores : List S)
        → stores ≡ cluster.now.stores
        → (secured : IsSecured S.Stable cluster.now)
        → WouldLeave S.Stable secured.stocked.world stores }
{
    cluster.group().recall();
}

/// Does what a command says. A stop after the call leaves in the stores what a stop inside the
/// command may leave.
pub(crate) fn apply_command<S: Stable<Alloc = Global>>(
    alloc: Global,
    cluster: &mut Cluster<S>,
    command: &Command,
) -> Reply
    ensures done { Applies S.Stable cluster.old command.now (reply_of result) cluster.new }
    ensures secured { IsSecured S.Stable cluster.old → IsSecured S.Stable cluster.new }
    ensures sized { cluster.new.group.size ≡ cluster.old.group.size }
    ensures counted { length cluster.old.group.nodes ≡ cluster.old.group.size.n }
    ensures sound { IsSound cluster.old.group }
    ensures leaves { (stores : List S)
        → stores ≡ cluster.new.stores
        → (secured : IsSecured S.Stable cluster.old)
        → WouldLeave S.Stable secured.stocked.world stores }
{
    recall_rest(cluster);
    cluster.apply(alloc, command)
}

/// Stops the machine under a cluster between two commands. Then it opens the journals of all nodes
/// again, and a cluster over them. The limits are those of the cluster. The refusals are those of
/// `stop_and_open_all`.
pub fn stop_and_reopen<D: Crash + Drop>(
    alloc: Global,
    cluster: Cluster<SqlStable<FileStore<D>>>,
    config: Config,
    options: Options,
) -> Result<Cluster<SqlStable<FileStore<D>>>, Refusal>
    requires same { cluster.group.size ≡ config }
    ensures sized { IfOk result (λ new. new.group.size ≡ config) }
    // The new cluster goes on from the world that the old one showed, even if faults had shut some
    // of its journals. That holds as far as the disks have returned what was written. The new
    // cluster may be stopped in turn.
    ensures goes_on { IfOk result
        (λ new. GoesOnFrom ⟦<SqlStable<FileStore<D>> as Stable>⟧ cluster new) }
    ensures secured { IfOk result (λ new. IsSecured ⟦<SqlStable<FileStore<D>> as Stable>⟧ cluster
        → IsSecured ⟦<SqlStable<FileStore<D>> as Stable>⟧ new) }
    // It also goes on from any earlier world, if a stop leaves in the journals what it may leave of
    // that world's nodes.
    ensures behind { IfOk result (λ new. (old : GroupView) (w : World)
        → IsSound old
        → length old.nodes ≡ config.n
        → old.size ≡ config
        → Shows old w
        → WouldLeave ⟦<SqlStable<FileStore<D>> as Stable>⟧ w cluster.stores
        → All ⟦<SqlStable<FileStore<D>> as Stable>⟧.is_clean new.stores
        → IsContinuation ⟦<SqlStable<FileStore<D>> as Stable>⟧ w new.group) }
{
    recall_rest(&cluster);
    stop_and_open_all(alloc, config, cluster.into_stores(), options)
}

/// Does what a command says, stops the machine, and opens a cluster over the journals of all nodes
/// again. It returns the command's reply and that cluster. For a stop inside the command, let the
/// disks fail from some moment on. That may be before the command's store, inside it, or between
/// the store's `Ok` and the commit. The limits are those of the cluster. The refusals are those of
/// `stop_and_open_all`.
pub fn apply_and_stop<D: Crash + Drop>(
    alloc: Global,
    cluster: Cluster<SqlStable<FileStore<D>>>,
    command: &Command,
    config: Config,
    options: Options,
) -> (Reply, Result<Cluster<SqlStable<FileStore<D>>>, Refusal>)
    requires same { cluster.group.size ≡ config }
    ensures sized { IfOk result.1 (λ new. new.group.size ≡ config) }
    // The new cluster goes on from the world that the old one showed before the command. That holds
    // even if faults had shut some of its journals by then. That holds as far as the disks have
    // returned what was written. The new cluster may be stopped in turn.
    ensures goes_on { IfOk result.1
        (λ new. GoesOnFrom ⟦<SqlStable<FileStore<D>> as Stable>⟧ cluster new) }
    // The command was done before the stop, with that reply. The new cluster also goes on from the
    // world that it led to.
    ensures done { IfOk result.1
        (λ new. GoesOnBehind ⟦<SqlStable<FileStore<D>> as Stable>⟧ cluster command.now
        (reply_of result.0) new) }
    ensures secured { IfOk result.1 (λ new. IsSecured ⟦<SqlStable<FileStore<D>> as Stable>⟧ cluster
        → IsSecured ⟦<SqlStable<FileStore<D>> as Stable>⟧ new) }
{
    let mut cluster = cluster;
    let reply = apply_command(alloc, &mut cluster, command);
    (reply, stop_and_reopen(alloc, cluster, config, options))
}
