//! A cluster over stores that hold records, after a stop of the whole process.

ghost use Rattle.std.specs.Prelude.{◌≡◌, IfOk, length};
ghost use Rattle.std.specs.List.{All};
ghost use Rattle.urb_group.specs.StoreOpenings.{Continues, HasStopped, OpensFrom, OpensStores};
ghost use Rattle.urb_group.specs.StoreOpenings.{stores_in};
ghost use Rattle.urb_group.specs.internal.StoreRetrievals.{RetrievesAll};
ghost use Rattle.urb_group.specs.GroupViews.{GroupView};
ghost use Rattle.urb_group.specs.StoreContents.{AllHold, IsKnown, IsSecured, IsStocked, RestLeaves};
ghost use Rattle.urb_group.specs.StoreContents.{StopLeaves};
ghost use Rattle.urb_world.specs.World.{World};

use crate::held_drafts::no_drafts;
use crate::{Cluster, Group};
use urb_names::{Config, Message, Refusal};
use urb_stable::{Record, Stable};

// Asks all stores for their lists, in order. The first fault ends the call.
fn retrieve_all<S: Stable>(
    alloc: S::Alloc,
    stores: &mut [S],
) -> Result<Vec<Vec<Record<Message<S::Alloc>>, S::Alloc>, S::Alloc>, Refusal>
    ensures { RetrievesAll S.Stable stores.old result stores.new }
{
    let mut images = Vec::with_capacity(alloc, stores.len())?;
    for store in stores.iter_mut() {
        match store.retrieve(alloc) {
            Ok(image) => images.push_reserved(image),
            Err(fault) => return Err(fault.refusal()),
        }
    }
    Ok(images)
}

// Opens the group of the records that the stores give.
fn open_group<S: Stable>(
    alloc: S::Alloc,
    config: Config,
    stores: &mut [S],
) -> Result<Group<S::Alloc>, Refusal>
    requires { length stores.old ≡ config.n }
    ensures { OpensFrom S.Stable config stores.old result stores.new }
{
    let images = retrieve_all(alloc, stores)?;
    Group::open(alloc, config, images)
}

impl<S: Stable> Cluster<S> {
    /// Opens a cluster over stores that hold what a cluster stored. The whole process may have
    /// stopped at any moment, also inside a store. This is the recovery of all processes (sections
    /// 2.2 and 3.7 of the textbook). Each store is asked for its records, that of node 1 first. The
    /// records are certain from then on, and the nodes come up with them. Drafts that were held are
    /// lost. The limits may differ from those before the stop. A greater cap always serves; more
    /// nodes serve if more than half of them hold each certified message. The stores of new nodes
    /// are empty.
    ///
    /// A refusal returns all stores. `Device`, `BadRow`: a store failed, and the stores after it
    /// were not asked. `Inconsistent`: the stores' records don't fit together, or not under these
    /// limits, as for `Group::open`. `NoMemory`: ask again.
    pub fn open(
        alloc: S::Alloc,
        config: Config,
        stores: Vec<S, S::Alloc>,
    ) -> Result<Cluster<S>, (Vec<S, S::Alloc>, Refusal)>
        requires counted { length stores.items ≡ config.n }
        ensures opened { OpensStores S.Stable config stores.items result }
        // Also with another cap, and with more nodes, what is opened goes on from the world before the
        // stop. If the group may start with these limits, only memory or a device can refuse it.
        ensures goes_on { (old : GroupView) (w : World)
            → HasStopped S.Stable old w config stores.items
            → Continues S.Stable old w config stores.items result }
        // A stop inside the call leaves what a stop before it would have left.
        ensures stop { (w : World)
            → AllHold S.Stable w stores.items
            → RestLeaves S.Stable w stores.items
            → StopLeaves S.Stable w stores.items (stores_in result) }
        ensures stocked { IfOk result (λ cluster. IsStocked S.Stable cluster) }
        // A failure may have shut some stores. If the cluster opened, no store was shut.
        ensures secured { All (IsKnown S.Stable) stores.items
            → IfOk result (λ cluster. IsSecured S.Stable cluster) }
    {
        Cluster::open_stores(alloc, config, stores)
    }

    // Does the same; its contract speaks of the stores and the group only.
    fn open_stores(
        alloc: S::Alloc,
        config: Config,
        stores: Vec<S, S::Alloc>,
    ) -> Result<Cluster<S>, (Vec<S, S::Alloc>, Refusal)>
        requires { length stores.items ≡ config.n }
        ensures { OpensStores S.Stable config stores.items result }
    {
        let mut stores = stores;
        let Ok(drafts) = no_drafts(alloc, config.n()) else {
            return Err((stores, Refusal::NoMemory));
        };
        match open_group(alloc, config, &mut stores) {
            Ok(group) => {
                group.recall();
                Ok(Cluster {
                    group,
                    stores,
                    drafts,
                })
            }
            Err(refusal) => Err((stores, refusal)),
        }
    }

    /// Stops all nodes at once, and opens the cluster again over its stores. What was stored is
    /// kept. Held drafts and acknowledgements are lost. A refusal returns only the stores, as for
    /// `Cluster::open`.
    pub fn reopen(self, alloc: S::Alloc) -> Result<Cluster<S>, (Vec<S, S::Alloc>, Refusal)>
        ensures opened { OpensStores S.Stable self.group.size self.stores result }
        ensures goes_on { (stocked : IsStocked S.Stable self)
            → Continues S.Stable self.group stocked.world self.group.size self.stores result }
        ensures stop { (stocked : IsStocked S.Stable self)
            → StopLeaves S.Stable stocked.world self.stores (stores_in result) }
        ensures stocked { IfOk result (λ cluster. IsStocked S.Stable cluster) }
        ensures secured { IsSecured S.Stable self
            → IfOk result (λ cluster. IsSecured S.Stable cluster) }
    {
        let Cluster { group, stores, .. } = self;
        group.recall();
        Cluster::open(alloc, group.config, stores)
    }

    /// Returns the stores, that of node 1 first. The group and its drafts are gone. Allocates no
    /// memory.
    pub fn into_stores(self) -> Vec<S, S::Alloc>
        ensures value { result.items ≡ self.stores }
        // There is one store for each node.
        ensures counted { length result.items ≡ self.group.size.n }
    {
        self.stores
    }
}
